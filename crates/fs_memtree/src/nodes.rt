//! The nodes of a tree, the directories with their names and the files with their links and bytes, and which
//! numbers are unused. They lie in a row by their numbers, so that a number is found at once. Contracts see
//! them as a finite map from numbers to nodes. Which of them make a tree is not said here.

ghost use Rattle.std.specs.Prelude.{◌≡◌, ℕ, ◌+◌, ◌^◌, ◌<◌, ◌≤◌, ◌↔◌, false, true, None, Some, length, replicate, is_some, IsTrue, IfSome, IfNone};
ghost use Rattle.std.specs.Prelude.{IfOk, OnOk, OnErr, option_map, is_none, find, nat_le, if◌then◌else◌};
ghost use Rattle.std.specs.FinMap.{get, insert, remove, empty};
ghost use Rattle.std.specs.List.{range_with_len};
ghost use Rattle.fs_memtree.specs.Kept.{KeptDir, changed_at, without_link};
ghost use Rattle.fs_memtree.specs.Stored.{kept, things, nodes_of, place, thing_in, is_gap, AreUnused, grown, settled, end_of};

use crate::directory::Directory;
use crate::node::{Growth, Node, Settling, copied, grow, is_same, settle};
use base_types::NoMemory;
use std::alloc::Global;
use std::cmp;
use std::collections::BTreeSet;
use std::marker::Model;

/// The nodes by their numbers, from 1 on, and the numbers of the empty places.
#[derive(Drop)]
pub(crate) struct Nodes {
    row: Vec<Option<Node>>,
    unused: BTreeSet<u32>,
}

impl Model for Nodes {
    ghost use Rattle.std.specs.Prelude.{ℕ};
    ghost use Rattle.std.specs.FinMap as finite;
    ghost use Rattle.std.specs.FinMap.{FinMap};
    ghost use Rattle.std.specs.Coded.{coded_ℕ};
    ghost use Rattle.std.specs.Ordering.{nat_cmp};
    ghost use Rattle.fs_memtree.specs.Kept.{Kept, coded_kept};
    ghost use Rattle.fs_memtree.specs.Stored.{nodes_of, things, AreUnused};

    ghost Value = { FinMap nat_cmp Kept };

    ghost coded = { finite.code coded_ℕ coded_kept };

    ghost view = { λ n. nodes_of n.row.items };

    ghost invariant = { λ n. AreUnused n.unused (things n.row.items) };
}

impl Nodes {
    /// The root directory alone, without names and with number 1.
    ///
    /// # Errors
    /// Out of memory.
    pub(crate) fn new(alloc: Global) -> Result<Nodes, NoMemory>
        ensures { IfOk result (λ nodes. nodes ≡ insert empty 1 (KeptDir empty)) }
    {
        let mut row = Vec::new(alloc);
        row.push(Some(Node::Dir(Directory::new(alloc))))?;
        let unused = BTreeSet::new(alloc);
        Ok(Nodes { row, unused })
    }

    /// The least number up to the limit that no node has.
    pub(crate) fn unused(&self, limit: u32) -> Option<u32>
        ensures { result ≡ find (λ n. is_none (get self.now n)) (range_with_len 1 limit) }
    {
        if let Some(number) = self.unused.first() {
            return up_to(limit, *number);
        }
        up_to(limit, next_number(self.row.as_slice())?)
    }

    /// The node with the number.
    pub(crate) fn at(&self, number: u32) -> Option<&Node>
        ensures { option_map (λ node. kept node.now) result ≡ get self.now number }
    {
        node_at(self.row.as_slice(), number)
    }

    /// Puts a node under a number that none has.
    ///
    /// # Errors
    /// Out of memory; then all is as before.
    pub(crate) fn add(&mut self, number: u32, node: Node) -> Result<(), NoMemory>
        requires { (get self.old number ≡ None) × (1 ≤ number) }
        ensures ok { OnOk result (self.new ≡ insert self.old number (kept node)) }
        ensures err { OnErr result (self.new ≡ self.old) }
    {
        let index = (number - 1) as usize;
        if index < self.row.len() {
            self.unused.remove(&number);
            self.row[index] = Some(node);
            return Ok(());
        }
        lengthen(&mut self.row, &mut self.unused, index)?;
        self.row.push(Some(node))?;
        Ok(())
    }

    /// Takes the node out, where there is one; its number is unused then.
    ///
    /// # Errors
    /// Out of memory; then all is as before.
    pub(crate) fn remove(&mut self, number: u32) -> Result<(), NoMemory>
        ensures ok { OnOk result (self.new ≡ remove self.old number) }
        ensures err { OnErr result (self.new ≡ self.old) }
    {
        let Some(index) = used_index(self.row.as_slice(), number) else {
            return Ok(());
        };
        self.unused.insert(number)?;
        self.row[index] = None;
        Ok(())
    }

    /// Takes a link from the node, where there is one; with its last link it goes, and a directory has one.
    ///
    /// # Errors
    /// Out of memory; then all is as before.
    pub(crate) fn unlink(&mut self, number: u32) -> Result<(), NoMemory>
        ensures ok { OnOk result (self.new ≡ without_link self.old number) }
        ensures err { OnErr result (self.new ≡ self.old) }
    {
        match self.at(number) {
            None => {}
            Some(Node::Dir(_)) | Some(Node::File(1, _)) => self.remove(number)?,
            Some(Node::File(_, _)) => self.settle(number, Settling::Unlink),
        }
        Ok(())
    }

    /// Makes the change of the node.
    ///
    /// # Errors
    /// Out of memory; then all is as before.
    pub(crate) fn grow(&mut self, number: u32, change: Growth<'_>) -> Result<(), NoMemory>
        requires { end_of change < 2 ^ 62 }
        ensures ok { OnOk result (self.new ≡ changed_at self.old number (grown change.entry)) }
        ensures err { OnErr result (self.new ≡ self.old) }
    {
        grow_at(&mut self.row, number, change)?;
        Ok(())
    }

    /// Makes the change of the node. This takes no memory.
    pub(crate) fn settle(&mut self, number: u32, change: Settling<'_>)
        ensures { self.new ≡ changed_at self.old number (settled change.entry) }
    {
        settle_at(&mut self.row, number, change);
    }

    /// The same nodes once more.
    ///
    /// # Errors
    /// Out of memory.
    pub(crate) fn copy(&self, alloc: Global) -> Result<Nodes, NoMemory>
        ensures { IfOk result (λ copy. copy ≡ self.now) }
    {
        let row = copied_row(alloc, self.row.as_slice())?;
        let unused = self.unused.clone()?;
        Ok(Nodes { row, unused })
    }

    /// Whether both are the same nodes. It stops at the first difference.
    pub(crate) fn is_same(&self, other: &Nodes) -> bool
        ensures { IsTrue result ↔ (self.now ≡ other.now) }
    {
        are_same(self.row.as_slice(), other.row.as_slice())
    }
}

/// Makes the row so long with empty places, whose numbers are unused.
fn lengthen(
    row: &mut Vec<Option<Node>>,
    unused: &mut BTreeSet<u32>,
    len: usize,
) -> Result<(), NoMemory>
    requires unused { AreUnused unused.old (things row.old.items) }
    requires fits { len < 2 ^ 32 }
    requires longer { length row.old.items ≤ len }
    ensures nodes { nodes_of row.new.items ≡ nodes_of row.old.items }
    ensures unused { AreUnused unused.new (things row.new.items) }
    ensures ok { OnOk result (length row.new.items ≡ len) }
{
    for index in row.len()..len {
        row.reserve(1)?;
        unused.insert(index as u32 + 1)?;
        row.push_reserved(None);
    }
    Ok(())
}

/// The number, where it is no greater than the limit.
fn up_to(limit: u32, number: u32) -> Option<u32>
    ensures { result ≡ (if nat_le number limit then Some number else None) }
{
    if number <= limit { Some(number) } else { None }
}

/// The number after those of a row whose first place has number 1.
fn next_number(row: &[Option<Node>]) -> Option<u32>
    ensures some { IfSome result (λ n. n ≡ length row.now + 1) }
    ensures none { IfNone result (2 ^ 32 ≤ length row.now + 1) }
{
    u32::try_from(row.len()).ok()?.checked_add(1)
}

/// The node with this number in a row whose first place has number 1.
fn node_at(row: &[Option<Node>], number: u32) -> Option<&Node>
    ensures { option_map (λ node. kept node.now) result ≡ thing_in (things row.now) number }
{
    let index = number.checked_sub(1)?;
    stands_at(row, index as usize)
}

/// The node at this index.
fn stands_at(row: &[Option<Node>], index: usize) -> Option<&Node>
    ensures { option_map (λ node. kept node.now) result ≡ thing_in (things row.now) (index + 1) }
{
    row.get(index)?.as_ref()
}

/// The index of the node with this number in a row whose first place has number 1.
fn used_index(row: &[Option<Node>], number: u32) -> Option<usize>
    ensures place { IfSome result (λ i. (number ≡ i + 1) × (i < length row.now)) }
    ensures used { is_some result ≡ is_some (thing_in (things row.now) number) }
{
    node_at(row, number)?;
    Some((number - 1) as usize)
}

/// Changes the node with this number, in a row whose first place has number 1.
fn grow_at(row: &mut Vec<Option<Node>>, number: u32, change: Growth<'_>) -> Result<(), NoMemory>
    requires { end_of change < 2 ^ 62 }
    ensures ok { OnOk result (nodes_of row.new.items ≡ changed_at (nodes_of row.old.items) number (grown change.entry)) }
    ensures unused { OnOk result ((n : ℕ) → is_gap (place (things row.new.items) n) ≡ is_gap (place (things row.old.items) n)) }
    ensures err { OnErr result (things row.new.items ≡ things row.old.items) }
{
    let Some(index) = used_index(row.as_slice(), number) else {
        return Ok(());
    };
    grow(&mut row[index], change)?;
    Ok(())
}

/// Changes the node with this number, in a row whose first place has number 1.
fn settle_at(row: &mut Vec<Option<Node>>, number: u32, change: Settling<'_>)
    ensures nodes { nodes_of row.new.items ≡ changed_at (nodes_of row.old.items) number (settled change.entry) }
    ensures unused { (n : ℕ) → is_gap (place (things row.new.items) n) ≡ is_gap (place (things row.old.items) n) }
{
    let Some(index) = used_index(row.as_slice(), number) else {
        return;
    };
    settle(&mut row[index], change);
}

/// The same row once more.
fn copied_row(alloc: Global, row: &[Option<Node>]) -> Result<Vec<Option<Node>>, NoMemory>
    ensures { IfOk result (λ copy. things copy.items ≡ things row.now) }
{
    let mut copy = Vec::with_capacity(alloc, row.len())?;
    for place in row {
        copy.push(copied(alloc, place)?)?;
    }
    Ok(copy)
}

/// Whether the same is in both rows, where a place past the end is an empty one.
fn are_same(left: &[Option<Node>], right: &[Option<Node>]) -> bool
    ensures { IsTrue result ↔ (nodes_of left.now ≡ nodes_of right.now) }
{
    for index in 0..cmp::max(left.len(), right.len()) {
        if !is_same(stands_at(left, index), stands_at(right, index)) {
            return false;
        }
    }
    true
}
