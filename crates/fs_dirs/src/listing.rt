//! The entries of a directory, in the order of their names, as a listing needs them, and the names alone.

ghost use Rattle.std.specs.Prelude.{◌≡◌, ◌≤◌, ◌<◌, ◌^◌, ◌++◌, ℕ, IsTrue, List, [], ◌∷◌, length, map, slice_get, Some, IfOk, IfErr, OnOk};
ghost use Rattle.std.specs.List.Sorted.{IsPermutation, IsSorted};
ghost use Rattle.std.specs.Ordering.{nat_cmp};
ghost use Rattle.std.specs.Cmp.Lexicographic.{slice_cmp};
ghost use Rattle.layout_bytes.specs.declared.slot.Slot.{Slot as SlotValue};
ghost use Rattle.base_types.specs.Layouts.{slots_in_block};
ghost use Rattle.layout_directory.specs.Directory.{ReadAs};
ghost use Rattle.crash_stands.specs.Inodes.{ADir, inodes_of};
ghost use Rattle.fs_files.specs.Asks.{MayLookAt};
ghost use Rattle.fs_files.specs.Content.{fails_reading};
ghost use Rattle.fs_files.specs.Effects.{LooksOnly};
ghost use Rattle.fs_files.specs.Calls.{LookRefused};
ghost use Rattle.fs_dirs.specs.Reading.{MayReadBlocks, HasSlots};

use crate::block::{ZEROS, read_slots, slot_in};
use crate::lookup::open_directory;
use base_types::{Block, Layout, Name, NoMemory};
use engine_blocks::{Blocks, calls_compose};
use fs_files::{FileRefusal, NodeBlocks, Nodes};
use lang_tree::NameList;
use layout_bytes::Slot;
use std::alloc::Global;

/// The entries of directory `dir`, ascending by the bytes of their names. None where the node is no directory.
/// The directory is read once, and the sort takes about n log n comparisons of n names.
///
/// # Errors
/// A read of the disk failed, which the disk has counted; or out of memory.
pub fn entries<N: Nodes, S: Blocks>(
    files: &N,
    alloc: Global,
    blocks: &mut S,
    dir: u32,
) -> Result<Vec<Slot>, FileRefusal>
    requires { MayLookAt (N.may_read S.tells (S.state blocks.old) files.now) (S.state blocks.old) dir }
    ensures all { IsTrue S.tells → IfOk result (λ entries. (slots : List SlotValue)
        → inodes_of (S.state blocks.old).books.geom.layout (N.nodes (S.state blocks.old) files.now).files dir ≡ Some (ADir slots)
        → IsPermutation slots entries.items) }
    ensures sorted { IfOk result (λ entries. IsSorted (slice_cmp nat_cmp) (map (λ s. s.name) entries.items)) }
    ensures refused { IfErr result LookRefused }
    ensures looks { LooksOnly S.tells (fails_reading result) (S.state blocks.old) (S.state blocks.new) }
{
    calls_compose::<S>();
    files.laws(blocks);
    let mut entries = Vec::new(alloc);
    let Some(directory) = open_directory(files, blocks, dir)? else {
        return Ok(entries);
    };
    push_slots(
        files,
        blocks,
        &directory.blocks,
        directory.count,
        &mut entries,
    )?;
    sort_by_name(&mut entries);
    Ok(entries)
}

/// The names in directory `dir`, ascending by their bytes. None where the node is no directory.
///
/// # Errors
/// As `entries`.
pub fn names<N: Nodes, S: Blocks>(
    files: &N,
    alloc: Global,
    blocks: &mut S,
    dir: u32,
) -> Result<NameList, FileRefusal>
    requires { MayLookAt (N.may_read S.tells (S.state blocks.old) files.now) (S.state blocks.old) dir }
    ensures all { IsTrue S.tells → IfOk result (λ names. (slots : List SlotValue)
        → inodes_of (S.state blocks.old).books.geom.layout (N.nodes (S.state blocks.old) files.now).files dir ≡ Some (ADir slots)
        → IsPermutation (map (λ s. s.name) slots) names) }
    ensures sorted { IfOk result (IsSorted (slice_cmp nat_cmp)) }
    ensures refused { IfErr result LookRefused }
    ensures looks { LooksOnly S.tells (fails_reading result) (S.state blocks.old) (S.state blocks.new) }
{
    let found = entries(files, alloc, blocks, dir)?;
    let names = names_among(alloc, &found)?;
    Ok(NameList::from_names(names))
}

/// The names of these slots, in their order.
///
/// # Errors
/// Out of memory.
fn names_among(alloc: Global, slots: &[Slot]) -> Result<Vec<Name>, NoMemory>
    ensures { IfOk result (λ names. names.items ≡ map (λ s. s.name) slots.now) }
{
    let mut names = Vec::with_capacity(alloc, slots.len())?;
    for slot in slots {
        names.push(slot.name.copy())?;
    }
    Ok(names)
}

/// Sorts slots by the bytes of their names.
fn sort_by_name(slots: &mut Vec<Slot>)
    ensures same { IsPermutation slots.old.items slots.new.items }
    ensures sorted { IsSorted (slice_cmp nat_cmp) (map (λ s. s.name) slots.new.items) }
{
    slots.sort_unstable_by(|a, b| a.name.cmp(&b.name));
}

/// Appends the slots of the directory with these blocks, which has so many, in their order.
///
/// # Errors
/// As `entries`.
fn push_slots<N: Nodes, S: Blocks>(
    files: &N,
    blocks: &mut S,
    node: &NodeBlocks,
    count: u32,
    into: &mut Vec<Slot>,
) -> Result<(), FileRefusal>
    requires read { MayReadBlocks (N.may_read S.tells (S.state blocks.old) files.now) (S.state blocks.old) node.now }
    requires few { count < 2 ^ 24 }
    ensures slots { IsTrue S.tells → OnOk result ((slots : List SlotValue)
        → HasSlots (S.state blocks.old).books.geom.layout (N.nodes (S.state blocks.old) files.now) node.now slots
        → length slots ≡ count → into.new.items ≡ into.old.items ++ slots) }
    ensures refused { IfErr result LookRefused }
    ensures looks { LooksOnly S.tells (fails_reading result) (S.state blocks.old) (S.state blocks.new) }
{
    calls_compose::<S>();
    files.laws(blocks);
    let layout = blocks.geom().layout();
    let most = layout.slots_in_block();
    let mut block = ZEROS;
    let mut first = 0;
    while first < count {
        read_slots(files, blocks, node, first, &mut block)?;
        let entries = (count - first).min(most);
        push_block(&block, entries, layout, into)?;
        first += most;
    }
    Ok(())
}

/// Appends so many slots of the block, in their order.
///
/// # Errors
/// Out of memory.
fn push_block(
    block: &Block,
    entries: u32,
    layout: Layout,
    into: &mut Vec<Slot>,
) -> Result<(), NoMemory>
    requires { entries ≤ slots_in_block layout }
    ensures { OnOk result ((slots : List SlotValue) → length slots ≡ entries → ReadAs layout block.now slots → into.new.items ≡ into.old.items ++ slots) }
{
    for place in 0..entries {
        push_slot(block, place, layout, into)?;
    }
    Ok(())
}

/// Appends the slot at a place of the block, where there is one.
///
/// # Errors
/// Out of memory.
fn push_slot(
    block: &Block,
    place: u32,
    layout: Layout,
    into: &mut Vec<Slot>,
) -> Result<(), NoMemory>
    requires { place < slots_in_block layout }
    ensures { OnOk result ((slots : List SlotValue) (s : SlotValue) → place < length slots → ReadAs layout block.now slots
        → slice_get slots place ≡ Some s → into.new.items ≡ into.old.items ++ s ∷ []) }
{
    match slot_in(block, place, layout) {
        Some(slot) => {
            into.push(slot)?;
            Ok(())
        }
        None => Ok(()),
    }
}
