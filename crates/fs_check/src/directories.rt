//! The check of each directory by itself: its slots are slots, no name is there twice, and each slot names a
//! node in use that isn't the root.

ghost use Rattle.std.specs.Prelude.{◌≡◌, ℕ, IsTrue, length, IfOk, IfErr, OnOk};
ghost use Rattle.crash_stands.specs.Bounds.{bounds_of};
ghost use Rattle.crash_stands.specs.Inodes.{inodes_of};
ghost use Rattle.fs_files.specs.Asks.{MayRead};
ghost use Rattle.fs_files.specs.Effects.{LooksOnly};
ghost use Rattle.fs_check.specs.declared.looked.Looked.TheVariants.{Directory};
ghost use Rattle.fs_check.specs.Looked.{seen, AreSeen, HasPlaces};
ghost use Rattle.fs_check.specs.Reading.{IfDamaged, fails_reading};
ghost use Rattle.fs_check.specs.Damage.{IsBroken};
ghost use Rattle.fs_check.specs.Slots.{WentThrough, WentBy, WentUpTo};

use crate::counts::count_slots;
use crate::damage::{TreeDamage, TreeRefusal};
use crate::looked::{Looked, seen};
use crate::names::first_repeat;
use crate::slots::read_slots;
use engine_blocks::Blocks;
use fs_files::Nodes;
use std::alloc::Global;

/// Checks each directory, and answers how many slots name each node: each count stops at the last number of
/// 64 bits.
///
/// # Errors
/// A directory is broken; a read of the disk failed, which the disk has counted; or out of memory.
pub(crate) fn check_directories<N: Nodes, S: Blocks>(
    files: &N,
    alloc: Global,
    blocks: &mut S,
    nodes: &[Looked],
) -> Result<Vec<u64>, TreeRefusal>
    requires read { MayRead (N.may_read S.tells (S.state blocks.old) files.now) (S.state blocks.old) }
    requires places { HasPlaces (S.state blocks.old).books.geom.i nodes.now }
    requires seen { IsTrue S.tells → AreSeen (N.nodes (S.state blocks.old) files.now).files nodes.now }
    ensures count { IfOk result (λ named. length named.items ≡ length nodes.now) }
    ensures went { IsTrue S.tells → IfOk result
        (λ named. WentUpTo nodes.now (inodes_of (S.state blocks.old).books.geom.layout (N.nodes (S.state blocks.old) files.now).files)
        (length nodes.now) named.items) }
    ensures broken { IsTrue S.tells → IfErr result
        (λ why. IfDamaged why (IsBroken (bounds_of (S.state blocks.old).books.geom) (N.nodes (S.state blocks.old) files.now).files)) }
    ensures looks { LooksOnly S.tells (fails_reading result) (S.state blocks.old) (S.state blocks.new) }
{
    files.laws(blocks);
    let mut named = vec![in alloc; 0; nodes.len()]?;
    for dir in 1..nodes.len() as u32 {
        check_node(files, alloc, blocks, nodes, dir, &mut named)?;
    }
    Ok(named)
}

/// Checks a node where it is a directory, and counts its slots at the nodes that they name.
///
/// # Errors
/// The directory is broken; a read of the disk failed, which the disk has counted; or out of memory.
fn check_node<N: Nodes, S: Blocks>(
    files: &N,
    alloc: Global,
    blocks: &mut S,
    nodes: &[Looked],
    node: u32,
    named: &mut [u64],
) -> Result<(), TreeRefusal>
    requires read { MayRead (N.may_read S.tells (S.state blocks.old) files.now) (S.state blocks.old) }
    requires places { HasPlaces (S.state blocks.old).books.geom.i nodes.now }
    requires seen { IsTrue S.tells → AreSeen (N.nodes (S.state blocks.old) files.now).files nodes.now }
    requires same { length named.old ≡ length nodes.now }
    ensures went { IsTrue S.tells → OnOk result
        (WentBy nodes.now (inodes_of (S.state blocks.old).books.geom.layout (N.nodes (S.state blocks.old) files.now).files)
        node (seen nodes.now node) named.old named.new) }
    ensures broken { IsTrue S.tells → IfErr result
        (λ why. IfDamaged why (IsBroken (bounds_of (S.state blocks.old).books.geom) (N.nodes (S.state blocks.old) files.now).files)) }
    ensures looks { LooksOnly S.tells (fails_reading result) (S.state blocks.old) (S.state blocks.new) }
{
    match seen(nodes, node) {
        Looked::Unused => Ok(()),
        Looked::Links(_) => Ok(()),
        Looked::Directory(size) => {
            check_directory(files, alloc, blocks, nodes, node, size, named)?;
            Ok(())
        }
    }
}

/// Checks a directory of so many bytes, and counts its slots at the nodes that they name.
///
/// # Errors
/// The directory is broken; a read of the disk failed, which the disk has counted; or out of memory.
fn check_directory<N: Nodes, S: Blocks>(
    files: &N,
    alloc: Global,
    blocks: &mut S,
    nodes: &[Looked],
    dir: u32,
    size: u64,
    named: &mut [u64],
) -> Result<(), TreeRefusal>
    requires read { MayRead (N.may_read S.tells (S.state blocks.old) files.now) (S.state blocks.old) }
    requires places { HasPlaces (S.state blocks.old).books.geom.i nodes.now }
    requires seen { IsTrue S.tells → AreSeen (N.nodes (S.state blocks.old) files.now).files nodes.now }
    requires dir { seen nodes.now dir ≡ Directory size }
    requires same { length named.old ≡ length nodes.now }
    ensures went { IsTrue S.tells → OnOk result
        (WentThrough nodes.now (inodes_of (S.state blocks.old).books.geom.layout (N.nodes (S.state blocks.old) files.now).files)
        dir named.old named.new) }
    ensures broken { IsTrue S.tells → IfErr result
        (λ why. IfDamaged why (IsBroken (bounds_of (S.state blocks.old).books.geom) (N.nodes (S.state blocks.old) files.now).files)) }
    ensures looks { LooksOnly S.tells (fails_reading result) (S.state blocks.old) (S.state blocks.new) }
{
    let Some(slots) = read_slots(files, alloc, blocks, dir, size)? else {
        return Err(TreeRefusal::Damaged(TreeDamage::Unreadable { node: dir }));
    };
    if let Some(place) = first_repeat(alloc, slots.as_slice())? {
        return Err(TreeRefusal::Damaged(TreeDamage::RepeatsName { dir, place }));
    }
    count_slots(nodes, dir, slots.as_slice(), named)?;
    Ok(())
}
