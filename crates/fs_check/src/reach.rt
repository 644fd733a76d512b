//! The search from the root: which nodes are reached by the slots of directories, a directory at a time.

ghost use Rattle.std.specs.Prelude.{◌≡◌, ℕ, ◌≤◌, ◌<◌, ◌+◌, ◌^◌, ◌∷◌, [], true, IsTrue, length, slice_get, IfOk, IfErr, OnOk};
ghost use Rattle.layout_bytes.specs.declared.slot.Slot.{Slot as SlotValue};
ghost use Rattle.crash_stands.specs.Bounds.{bounds_of};
ghost use Rattle.crash_stands.specs.Inodes.{inodes_of};
ghost use Rattle.fs_files.specs.Asks.{MayRead};
ghost use Rattle.fs_files.specs.Effects.{LooksOnly};
ghost use Rattle.fs_check.specs.Looked.{seen, AreSeen, HasPlaces};
ghost use Rattle.fs_check.specs.Reading.{IfDamaged, fails_reading};
ghost use Rattle.fs_check.specs.Damage.{IsBroken};
ghost use Rattle.fs_check.specs.Slots.{IsGoodDir};
ghost use Rattle.fs_check.specs.Marks.{Marks, MarksDir, AreReached, WasDir, targets};

use crate::damage::{TreeDamage, TreeRefusal};
use crate::looked::{Looked, seen};
use crate::slots::read_slots;
use base_types::NoMemory;
use crash_stands::a_walk_goes_on;
use engine_blocks::Blocks;
use fs_files::Nodes;
use fs_inodes::a_name_stands_at_its_place;
use layout_bytes::Slot;
use std::alloc::Global;

/// Which nodes are reached: those to which a path leads from the root. Each directory that is reached is read
/// once.
///
/// # Errors
/// A directory reads as none; a read of the disk failed, which the disk has counted; or out of memory.
pub(crate) fn reach<N: Nodes, S: Blocks>(
    files: &N,
    alloc: Global,
    blocks: &mut S,
    nodes: &[Looked],
) -> Result<Vec<bool>, TreeRefusal>
    requires read { MayRead (N.may_read S.tells (S.state blocks.old) files.now) (S.state blocks.old) }
    requires places { HasPlaces (S.state blocks.old).books.geom.i nodes.now }
    requires root { WasDir nodes.now 1 }
    requires seen { IsTrue S.tells → AreSeen (N.nodes (S.state blocks.old) files.now).files nodes.now }
    requires good { IsTrue S.tells → (d : ℕ)
        → IsGoodDir nodes.now (inodes_of (S.state blocks.old).books.geom.layout (N.nodes (S.state blocks.old) files.now).files) d (seen nodes.now d) }
    ensures count { IfOk result (λ marks. length marks.items ≡ length nodes.now) }
    ensures reached { IsTrue S.tells → IfOk result (λ marks.
        AreReached (inodes_of (S.state blocks.old).books.geom.layout (N.nodes (S.state blocks.old) files.now).files) marks.items) }
    ensures broken { IsTrue S.tells → IfErr result
        (λ why. IfDamaged why (IsBroken (bounds_of (S.state blocks.old).books.geom) (N.nodes (S.state blocks.old) files.now).files)) }
    ensures looks { LooksOnly S.tells (fails_reading result) (S.state blocks.old) (S.state blocks.new) }
{
    files.laws(blocks);
    a_walk_goes_on();
    a_name_stands_at_its_place();
    let mut marks = vec![in alloc; false; nodes.len()]?;
    let mut queue = Vec::new(alloc);
    mark(nodes, 1, &mut marks, &mut queue)?;
    let mut at = 0;
    while at < queue.len() {
        let dir = queue[at];
        mark_directory(files, alloc, blocks, nodes, dir, &mut marks, &mut queue)?;
        at += 1;
    }
    Ok(marks)
}

/// Sets the marks of the nodes that the slots of a directory name.
///
/// # Errors
/// The directory reads as none; a read of the disk failed, which the disk has counted; or out of memory.
fn mark_directory<N: Nodes, S: Blocks>(
    files: &N,
    alloc: Global,
    blocks: &mut S,
    nodes: &[Looked],
    dir: u32,
    marks: &mut [bool],
    queue: &mut Vec<u32>,
) -> Result<(), TreeRefusal>
    requires read { MayRead (N.may_read S.tells (S.state blocks.old) files.now) (S.state blocks.old) }
    requires places { HasPlaces (S.state blocks.old).books.geom.i nodes.now }
    requires dir { WasDir nodes.now dir }
    requires seen { IsTrue S.tells → AreSeen (N.nodes (S.state blocks.old) files.now).files nodes.now }
    ensures marks { OnOk result
        (MarksDir S.tells nodes.now (inodes_of (S.state blocks.old).books.geom.layout (N.nodes (S.state blocks.old) files.now).files) dir marks.old marks.new
        queue.old.items queue.new.items) }
    ensures broken { IsTrue S.tells → IfErr result
        (λ why. IfDamaged why (IsBroken (bounds_of (S.state blocks.old).books.geom) (N.nodes (S.state blocks.old) files.now).files)) }
    ensures looks { LooksOnly S.tells (fails_reading result) (S.state blocks.old) (S.state blocks.new) }
{
    let Looked::Directory(size) = seen(nodes, dir) else {
        return Ok(());
    };
    let Some(slots) = read_slots(files, alloc, blocks, dir, size)? else {
        return Err(TreeRefusal::Damaged(TreeDamage::Unreadable { node: dir }));
    };
    mark_slots(nodes, slots.as_slice(), marks, queue)?;
    Ok(())
}

/// Sets the mark of a node, and puts it into the queue where it is a directory and had no mark.
///
/// # Errors
/// Out of memory.
fn mark(
    nodes: &[Looked],
    node: u32,
    marks: &mut [bool],
    queue: &mut Vec<u32>,
) -> Result<(), NoMemory>
    ensures { OnOk result (Marks nodes.now (node ∷ []) marks.old marks.new queue.old.items queue.new.items) }
{
    let place = node as usize;
    if place >= marks.len() {
        return Ok(());
    }
    if marks[place] {
        return Ok(());
    }
    marks[place] = true;
    if let Looked::Directory(_) = seen(nodes, node) {
        queue.push(node)?;
    }
    Ok(())
}

/// Sets the marks of the nodes that these slots name.
///
/// # Errors
/// Out of memory.
fn mark_slots(
    nodes: &[Looked],
    slots: &[Slot],
    marks: &mut [bool],
    queue: &mut Vec<u32>,
) -> Result<(), NoMemory>
    ensures { OnOk result (Marks nodes.now (targets slots.now) marks.old marks.new queue.old.items queue.new.items) }
{
    for place in 0..slots.len() {
        mark(nodes, slots[place].node, marks, queue)?;
    }
    Ok(())
}
