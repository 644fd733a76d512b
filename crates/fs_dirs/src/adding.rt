//! Slots added to a directory of a draft, behind the last one. One slot is written, and never a whole
//! directory. This is the one call here by which a directory grows.

ghost use Rattle.std.specs.Prelude.{◌≡◌, ◌≤◌, ◌<◌, ◌^◌, IsTrue, [], length};
ghost use Rattle.base_types.specs.Layouts.{longest_name};
ghost use Rattle.engine_blocks.specs.Calls.{HasTurns};
ghost use Rattle.fs_files.specs.Asks.{MayLook};
ghost use Rattle.fs_dirs.specs.Changing.{AddsSlot, HasCount};

use crate::changing::{offset_of, slot_text};
use engine_blocks::Blocks;
use fs_files::{
    Draft, FileRefusal, a_directory_has_whole_slots, a_directory_shares_no_block,
    a_file_fits_the_disk, a_file_has_its_blocks, where_nothing_is_kept,
};
use fs_inodes::slots_follow_the_bytes;
use layout_bytes::Slot;
use std::alloc::Global;

/// Adds a slot to directory `dir`, which has `count` slots, behind the last one. Its name has room in a slot.
///
/// # Errors
/// Where the directory grows by a block: none may be taken; its blocks would lie in more runs than it has room for; or the
/// disk failed as it settled. Else a read of the disk failed; or out of memory. The draft isn't to be used any
/// more then.
pub fn add_slot<S: Blocks>(
    draft: &mut Draft,
    alloc: Global,
    blocks: &mut S,
    dir: u32,
    count: u32,
    slot: &Slot,
) -> Result<(), FileRefusal>
    requires look { MayLook S.tells (S.state blocks.old) draft.old dir }
    requires few { count < 2 ^ 24 }
    requires short { length slot.now.name ≤ longest_name (S.state blocks.old).books.geom.layout }
    requires there { IsTrue S.tells → HasCount (S.state blocks.old) draft.old dir count }
    requires turns { HasTurns (S.state blocks.old).books }
    requires once { IsTrue S.tells → draft.old.taken ≡ [] }
    ensures { AddsSlot S.tells dir slot.now result (S.state blocks.old) (S.state blocks.new) draft.old draft.new }
{
    a_directory_has_whole_slots::<S>();
    a_directory_shares_no_block::<S>();
    a_file_has_its_blocks::<S>();
    a_file_fits_the_disk(blocks);
    where_nothing_is_kept();
    slots_follow_the_bytes();
    let layout = blocks.geom().layout();
    let text = slot_text(slot, layout);
    let bytes = &text[..layout.slot_length()];
    draft.write_at(alloc, blocks, dir, offset_of(count, layout), bytes)
}
