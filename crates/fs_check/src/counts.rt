//! How many slots name each node, counted directory by directory.

ghost use Rattle.std.specs.Prelude.{◌≡◌, ◌<◌, length, IfErr, OnOk};
ghost use Rattle.fs_check.specs.Slots.{AreCounted, NameUsed, IsBrokenIn, MayName, IsBadNumber};

use crate::damage::TreeDamage;
use crate::looked::{Looked, seen};
use layout_bytes::Slot;

/// Counts the slots of directory `dir` at the nodes that they name: each count stops at the last number
/// of 64 bits.
///
/// # Errors
/// A slot names the root, or a node that isn't in use.
pub(crate) fn count_slots(
    nodes: &[Looked],
    dir: u32,
    slots: &[Slot],
    named: &mut [u64],
) -> Result<(), TreeDamage>
    requires { length named.old ≡ length nodes.now }
    ensures counted { OnOk result (AreCounted slots.now named.old named.new) }
    ensures names { OnOk result (NameUsed nodes.now slots.now) }
    ensures broken { IfErr result (IsBrokenIn nodes.now dir slots.now) }
{
    for place in 0..slots.len() {
        let node = slots[place].node;
        check_number(nodes, dir, place as u64, node)?;
        let count = named[node as usize];
        named[node as usize] = count.saturating_add(1);
    }
    Ok(())
}

/// Checks the number that a slot names.
///
/// # Errors
/// It is that of the root, or of a node that isn't in use.
fn check_number(nodes: &[Looked], dir: u32, place: u64, node: u32) -> Result<(), TreeDamage>
    ensures good { OnOk result (MayName nodes.now node) }
    ensures inside { OnOk result (node < length nodes.now) }
    ensures broken { IfErr result (IsBadNumber nodes.now dir place node) }
{
    if node == 1 {
        return Err(TreeDamage::NamesRoot { dir, place });
    }
    match seen(nodes, node) {
        Looked::Unused => Err(TreeDamage::NamesUnused { dir, place }),
        Looked::Directory(_) => Ok(()),
        Looked::Links(_) => Ok(()),
    }
}
