//! Slots of a directory of a draft changed in place and taken out. One slot is written at a time, and never a
//! whole directory; and no call here grows it.

ghost use Rattle.std.specs.Prelude.{◌≡◌, ◌≤◌, ◌<◌, ◌+◌, ◌-◌, ◌^◌, IsTrue, false, List, length, take, slice_get, Some, IfOk, IfSome, IfErr};
ghost use Rattle.base_types.specs.Layouts.{longest_name, slot_size, slot_place, slots_in_block, directory_bytes};
ghost use Rattle.layout_bytes.specs.declared.slot.Slot.{Slot as SlotValue};
ghost use Rattle.layout_bytes.specs.Slot.{slot_spelling};
ghost use Rattle.layout_directory.specs.Slots.{IsLawful};
ghost use Rattle.crash_stands.specs.Inodes.{ADir};
ghost use Rattle.fs_files.specs.Asks.{MayLook};
ghost use Rattle.fs_files.specs.Content.{fails_reading};
ghost use Rattle.fs_files.specs.Effects.{LooksOnly};
ghost use Rattle.fs_files.specs.Calls.{LookRefused};
ghost use Rattle.fs_files.specs.NodeMaps.{nodes_in};
ghost use Rattle.fs_files.specs.Sound.{IsDraftOf};
ghost use Rattle.fs_dirs.specs.Directories.{inodes_in};
ghost use Rattle.fs_dirs.specs.Reading.{BeginsBlock, IsOpened};
ghost use Rattle.fs_dirs.specs.Changing.{CutsSlots, SetsSlot, TakesSlot};
ghost use Rattle.fs_dirs.specs.Changing.{HasPlace};

use crate::block::{ZEROS, read_slots, slot_in};
use crate::lookup::{Directory, open_directory};
use base_types::limits::LONGEST_SLOT;
use base_types::{Layout, the_numbers_of_a_layout_go_together};
use engine_blocks::{Blocks, calls_compose};
use fs_files::{
    Draft, FileRefusal, a_directory_has_whole_slots, a_directory_shares_no_block,
    a_file_fits_the_disk, a_file_has_its_blocks, bytes_lie_in_blocks, where_nothing_is_kept,
};
use fs_inodes::slots_follow_the_bytes;
use layout_bytes::Slot;
use layout_directory::{entries_follow_their_bytes, write_slot};
use std::alloc::Global;

/// The most bytes of a directory, which no directory on a disk has.
const MOST_BYTES: u64 = 1 << 30;

/// The slot at `place` of directory `dir` is another one, whose name has room in a slot.
///
/// # Errors
/// A read of the disk failed, which the disk has counted; or out of memory. The draft isn't to be used any
/// more then.
pub fn set_slot<S: Blocks>(
    draft: &mut Draft,
    alloc: Global,
    blocks: &mut S,
    dir: u32,
    place: u32,
    slot: &Slot,
) -> Result<(), FileRefusal>
    requires look { MayLook S.tells (S.state blocks.old) draft.old dir }
    requires low { place < 2 ^ 24 }
    requires short { length slot.now.name ≤ longest_name (S.state blocks.old).books.geom.layout }
    requires there { IsTrue S.tells → HasPlace (S.state blocks.old) draft.old dir place }
    ensures { SetsSlot S.tells dir place slot.now result (S.state blocks.old) (S.state blocks.new) draft.old draft.new }
{
    a_directory_has_whole_slots::<S>();
    a_directory_shares_no_block::<S>();
    a_file_fits_the_disk(blocks);
    bytes_lie_in_blocks();
    slots_follow_the_bytes();
    let layout = blocks.geom().layout();
    let text = slot_text(slot, layout);
    let bytes = &text[..layout.slot_length()];
    draft.overwrite(alloc, blocks, dir, offset_of(place, layout), bytes)?;
    Ok(())
}

/// Takes the slot at `place` of directory `dir` out: the last slot comes into its place, and the directory has
/// one slot less.
///
/// # Errors
/// As `set_slot`.
pub fn take_slot<S: Blocks>(
    draft: &mut Draft,
    alloc: Global,
    blocks: &mut S,
    dir: u32,
    place: u32,
) -> Result<(), FileRefusal>
    requires look { MayLook S.tells (S.state blocks.old) draft.old dir }
    requires low { place < 2 ^ 24 }
    requires there { IsTrue S.tells → HasPlace (S.state blocks.old) draft.old dir place }
    ensures { TakesSlot S.tells dir place result (S.state blocks.old) (S.state blocks.new) draft.old draft.new }
{
    calls_compose::<S>();
    let Some(directory) = open_directory(draft, blocks, dir)? else {
        return Ok(());
    };
    let Some(last) = last_place(&directory) else {
        return Ok(());
    };
    let Some(moved) = slot_at(draft, blocks, &directory, last)? else {
        return Ok(());
    };
    set_slot(draft, alloc, blocks, dir, place, &moved)?;
    cut_slots(draft, alloc, blocks, dir, last)?;
    Ok(())
}

/// The place of the last slot of a directory that was read, or `None` where it has none.
fn last_place(dir: &Directory) -> Option<u32>
    ensures last { 0 < dir.now.count → result ≡ Some (dir.now.count - 1) }
    ensures low { dir.now.count < 2 ^ 24 → IfSome result (λ n. n < 2 ^ 24) }
{
    if dir.count == 0 {
        return None;
    }
    Some(dir.count - 1)
}

/// The slot at `place` of a directory that was read, or `None` where its bytes are none.
///
/// # Errors
/// A read of the disk failed, which the disk has counted.
fn slot_at<S: Blocks>(
    draft: &Draft,
    blocks: &mut S,
    dir: &Directory,
    place: u32,
) -> Result<Option<Slot>, FileRefusal>
    requires going { (S.state blocks.old).books.stopped ≡ false }
    requires draft { IsDraftOf S.tells (S.state blocks.old) draft.now }
    requires opened { IsOpened S.tells (S.state blocks.old) (nodes_in (S.state blocks.old) draft.now) dir.now }
    ensures slot { IsTrue S.tells → IfOk result (λ found. (slots : List SlotValue) → inodes_in (S.state blocks.old) draft.now dir.now.number ≡ Some (ADir slots)
        → place < length slots → found ≡ slice_get slots place) }
    ensures short { IfOk result (λ found. IfSome found (λ s. length s.name ≤ longest_name (S.state blocks.old).books.geom.layout)) }
    ensures refused { IfErr result LookRefused }
    ensures looks { LooksOnly S.tells (fails_reading result) (S.state blocks.old) (S.state blocks.new) }
{
    let layout = blocks.geom().layout();
    let first = first_of(place, layout);
    let mut block = ZEROS;
    read_slots(draft, blocks, &dir.blocks, first, &mut block)?;
    Ok(slot_in(&block, place - first, layout))
}

/// Directory `dir` keeps its first `count` slots, which are fewer than it has.
///
/// # Errors
/// As `set_slot`.
fn cut_slots<S: Blocks>(
    draft: &mut Draft,
    alloc: Global,
    blocks: &mut S,
    dir: u32,
    count: u32,
) -> Result<(), FileRefusal>
    requires look { MayLook S.tells (S.state blocks.old) draft.old dir }
    requires low { count < 2 ^ 24 }
    requires there { IsTrue S.tells → HasPlace (S.state blocks.old) draft.old dir count }
    ensures { CutsSlots S.tells dir count result (S.state blocks.old) (S.state blocks.new) draft.old draft.new }
{
    a_directory_has_whole_slots::<S>();
    a_directory_shares_no_block::<S>();
    a_file_has_its_blocks::<S>();
    a_file_fits_the_disk(blocks);
    entries_follow_their_bytes();
    slots_follow_the_bytes();
    where_nothing_is_kept();
    let layout = blocks.geom().layout();
    draft.cut_to(alloc, blocks, dir, end_of(count, layout))?;
    Ok(())
}

/// Where the slot at a place begins. A place that no directory on a disk has may be told as another one.
pub(crate) fn offset_of(place: u32, layout: Layout) -> u64
    ensures within { result + slot_size layout ≤ 2 ^ 30 }
    ensures place { slot_place layout place + slot_size layout ≤ 2 ^ 30 → result ≡ slot_place layout place }
{
    let most = MOST_BYTES - layout.slot_length() as u64;
    layout.slot_place(place).min(most)
}

/// How many bytes so many slots have. Where no directory on a disk has as many it may be told as another number.
fn end_of(count: u32, layout: Layout) -> u64
    ensures within { result ≤ 2 ^ 30 }
    ensures count { directory_bytes layout count ≤ 2 ^ 30 → result ≡ directory_bytes layout count }
{
    layout.directory_bytes(u64::from(count)).min(MOST_BYTES)
}

/// The first place of the block that has the slot at this place.
fn first_of(place: u32, layout: Layout) -> u32
    ensures begins { BeginsBlock layout result }
    ensures from { result ≤ place }
    ensures upto { place < result + slots_in_block layout }
{
    layout.slots_before(layout.slot_block(place)) as u32
}

/// The bytes of a slot, whose name has room in one: the first ones, as many as a slot has in this layout.
pub(crate) fn slot_text(slot: &Slot, layout: Layout) -> [u8; LONGEST_SLOT]
    requires { length slot.now.name ≤ longest_name layout }
    ensures text { take (slot_size layout) result ≡ slot_spelling layout slot.now }
    ensures lawful { IsLawful layout slot.now }
{
    the_numbers_of_a_layout_go_together();
    let mut text = [0; LONGEST_SLOT];
    write_slot(slot, &mut text[..layout.slot_length()], layout);
    text
}
