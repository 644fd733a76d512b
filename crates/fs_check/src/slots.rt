//! The slots of a directory, read from its bytes a block at a time. What they name isn't looked at.

ghost use Rattle.std.specs.Prelude.{◌≡◌, ◌≤◌, ◌<◌, ◌+◌, ◌++◌, Bool, true, false, IsTrue, IfOk, IfErr, List, length, option_map};
ghost use Rattle.base_types.specs.Layouts.{directory_bytes, slot_place, slot_size, slots_held, slots_in_block};
ghost use Rattle.layout_bytes.specs.declared.node.NodeKind.TheVariants.{Dir};
ghost use Rattle.layout_bytes.specs.Slot.{slots_in};
ghost use Rattle.layout_directory.specs.Slots.{Slot as SlotValue};
ghost use Rattle.crash_stands.specs.Files.{FileNode};
ghost use Rattle.fs_files.specs.Asks.{MayRead};
ghost use Rattle.fs_files.specs.Calls.{IsUsed};
ghost use Rattle.fs_files.specs.Effects.{LooksOnly};
ghost use Rattle.fs_check.specs.Reading.{IsUndamaged, fails_reading};
ghost use Rattle.fs_check.specs.Slots.{AppendsSlots, slot_with_gap};

use crate::damage::TreeRefusal;
use base_types::{Layout, NoMemory, slots_lie_in_their_blocks};
use engine_blocks::Blocks;
use fs_files::Nodes;
use layout_bytes::{Slot, has_zeros};
use layout_directory::{read_slot, slots_read_back};
use std::alloc::Global;

/// The slots of directory `node`, which has `size` bytes, in order. `None` where the bytes of one of them
/// are no slot's, or those between two of them aren't zeros.
///
/// # Errors
/// A read of the disk failed, which the disk has counted; or out of memory.
pub(crate) fn read_slots<N: Nodes, S: Blocks>(
    files: &N,
    alloc: Global,
    blocks: &mut S,
    node: u32,
    size: u64,
) -> Result<Option<Vec<Slot>>, TreeRefusal>
    requires read { MayRead (N.may_read S.tells (S.state blocks.old) files.now) (S.state blocks.old) }
    requires above_zero { 1 ≤ node }
    requires in_table { node ≤ (S.state blocks.old).books.geom.i }
    requires used { IsTrue S.tells → IsUsed (N.nodes (S.state blocks.old) files.now).files node }
    ensures slots { IsTrue S.tells → IfOk result (λ found. (x : FileNode) → (N.nodes (S.state blocks.old) files.now).files node ≡ Some x
        → x.kind ≡ Dir → length x.bytes ≡ size → option_map (λ slots. slots.items) found
        ≡ slots_in (S.state blocks.old).books.geom.layout (slots_held (S.state blocks.old).books.geom.layout size) x.bytes) }
    ensures refused { IfErr result IsUndamaged }
    ensures looks { LooksOnly S.tells (fails_reading result) (S.state blocks.old) (S.state blocks.new) }
{
    files.laws(blocks);
    let layout = blocks.geom().layout();
    let mut left = layout.slots_held(size);
    let mut slots = Vec::new(alloc);
    for block in 0..size / 1024 + 1 {
        let bytes = files.read_at(alloc, blocks, node, 1024 * block, 1024)?;
        let entries = left.min(u64::from(layout.slots_in_block()));
        if !push_slots(bytes.as_slice(), entries as u32, layout, &mut slots)? {
            return Ok(None);
        }
        left -= entries;
    }
    Ok(Some(slots))
}

/// Appends the first so many slots in these bytes, and says whether each is one, with zeros behind it up to the next
/// place. Where there are too few bytes it says no.
///
/// # Errors
/// Out of memory.
fn push_slots(
    bytes: &[u8],
    entries: u32,
    layout: Layout,
    into: &mut Vec<Slot>,
) -> Result<bool, NoMemory>
    requires { entries ≤ slots_in_block layout }
    ensures { directory_bytes layout entries ≤ length bytes.now
        → IfOk result (λ good. AppendsSlots good (slots_in layout entries bytes.now) into.old.items into.new.items) }
{
    for place in 0..entries {
        let Some(slot) = slot_at(bytes, place, layout) else {
            return Ok(false);
        };
        into.push(slot)?;
    }
    Ok(true)
}

/// The slot at this place, or `None` where the bytes there aren't one's or those behind it up to the next place aren't
/// zeros; and where there are too few bytes.
fn slot_at(bytes: &[u8], place: u32, layout: Layout) -> Option<Slot>
    requires { place < slots_in_block layout }
    ensures { slot_place layout place + slot_size layout ≤ length bytes.now → result ≡ slot_with_gap layout bytes.now place }
{
    slots_read_back();
    slots_lie_in_their_blocks();
    let at = layout.slot_place(place) as usize;
    let end = at + layout.slot_length();
    let count = bytes.len();
    if count < end {
        return None;
    }
    let next = count.min(layout.slot_place(place + 1) as usize);
    if !has_zeros(bytes, end, next) {
        return None;
    }
    read_slot(&bytes[at..end], layout).ok()
}
