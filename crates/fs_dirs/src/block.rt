//! One block of a directory: its bytes read, a name found in it, and a slot read from it. Which block it is, is
//! for its callers to say.

ghost use Rattle.std.specs.Prelude.{◌≡◌, ◌≤◌, ◌<◌, ℕ, IsTrue, is_err, List, length, slice_get, slice_index, Some, IfSome, OnOk};
ghost use Rattle.base_types.specs.Layouts.{longest_name, slot_size, slots_in_block};
ghost use Rattle.layout_bytes.specs.declared.slot.Slot.{Slot as SlotValue};
ghost use Rattle.layout_bytes.specs.Slot.{slot_of};
ghost use Rattle.layout_directory.specs.Directory.{ReadAs};
ghost use Rattle.fs_files.specs.Effects.{LooksOnly};
ghost use Rattle.fs_dirs.specs.Directories.{Finds};
ghost use Rattle.fs_dirs.specs.Reading.{BeginsBlock, HasSlots, MayReadBlocks, slots_from};

use crate::lookup::Found;
use base_types::limits::BLOCK_LENGTH;
use base_types::{Block, Layout, Name, ReadFault, slots_lie_in_their_blocks};
use engine_blocks::Blocks;
use fs_files::{NodeBlocks, Nodes};
use fs_inodes::{a_name_stands_at_its_place, slots_follow_the_bytes};
use layout_bytes::Slot;
use layout_directory::{find, read_slot, slots_read_back};
use std::slice;

/// A block of zeros.
pub(crate) const ZEROS: Block = [0; BLOCK_LENGTH];

/// Reads one of these blocks, which are those of a directory: its slots from place `first` on, which begins a
/// block.
///
/// # Errors
/// As `Nodes::read_block`.
pub(crate) fn read_slots<N: Nodes, S: Blocks>(
    files: &N,
    blocks: &mut S,
    node: &NodeBlocks,
    first: u32,
    into: &mut Block,
) -> Result<(), ReadFault>
    requires read { MayReadBlocks (N.may_read S.tells (S.state blocks.old) files.now) (S.state blocks.old) node.now }
    requires begins { BeginsBlock (S.state blocks.old).books.geom.layout first }
    ensures slots { IsTrue S.tells → OnOk result ((slots : List SlotValue)
        → HasSlots (S.state blocks.old).books.geom.layout (N.nodes (S.state blocks.old) files.now) node.now slots
        → ReadAs (S.state blocks.old).books.geom.layout into.new (slots_from (S.state blocks.old).books.geom.layout first slots)) }
    ensures looks { LooksOnly S.tells (is_err result) (S.state blocks.old) (S.state blocks.new) }
{
    files.laws(blocks);
    slots_follow_the_bytes();
    let layout = blocks.geom().layout();
    files.read_block(blocks, node, layout.slot_block(first), into)?;
    Ok(())
}

/// The slot at a place of the block, or `None` where its bytes are none.
pub(crate) fn slot_in(block: &Block, place: u32, layout: Layout) -> Option<Slot>
    requires { place < slots_in_block layout }
    ensures slot { (slots : List SlotValue) → place < length slots → ReadAs layout block.now slots → result ≡ slice_get slots place }
    ensures short { IfSome result (λ slot. length slot.name ≤ longest_name layout) }
{
    slots_lie_in_their_blocks();
    let at = layout.slot_place(place) as usize;
    let end = at + layout.slot_length();
    slot_of_bytes(&block[at..end], layout)
}

/// The slot in these bytes, as many as a slot has, or `None` where they are none's.
fn slot_of_bytes(bytes: &[u8], layout: Layout) -> Option<Slot>
    requires { length bytes.now ≡ slot_size layout }
    ensures slot { result ≡ slot_of layout bytes.now }
    ensures short { IfSome result (λ slot. length slot.name ≤ longest_name layout) }
{
    slots_read_back();
    byte_ranges(bytes);
    match read_slot(bytes, layout) {
        Ok(slot) => Some(slot),
        Err(_) => None,
    }
}

// Each byte is below 256.
fn byte_ranges(bytes: &[u8])
    ensures { (i : ℕ) → slice_index bytes.now i < 256 }
{}

/// The first of so many slots of the block that has this name, by its place in the block.
pub(crate) fn find_in(block: &Block, entries: u32, name: &Name, layout: Layout) -> Option<Found>
    requires { entries ≤ slots_in_block layout }
    ensures finds { (slots : List SlotValue) → length slots ≡ entries → ReadAs layout block.now slots → Finds slots name.now result }
    ensures low { IfSome result (λ found. found.place < entries) }
{
    a_name_stands_at_its_place();
    let place = find(slice::from_ref(block), entries, name, layout)?;
    let slot = slot_in(block, place, layout)?;
    Some(Found {
        place,
        node: slot.node,
    })
}
