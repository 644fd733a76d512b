//! What snapshots keep, in a search tree over their names: for each its number, and the nodes of the tree as it was.
//! Contracts see it as a finite map from names. When a snapshot may be made is not said here.

ghost use Rattle.std.specs.Prelude.{◌≡◌, ◌↔◌, Some, IsTrue, IfOk, OnOk, OnErr, option_map};
ghost use Rattle.std.specs.FinMap.{get, insert, remove, empty, keys, from_entries};
ghost use Rattle.fs_memtree.specs.Snapshots.{AreAllIn, has_number};

use crate::nodes::Nodes;
use base_types::{Name, NoMemory};
use std::alloc::Global;
use std::collections::BTreeMap;
use std::marker::Model;

/// What one snapshot keeps: its number, and the nodes of the tree as it was.
#[derive(Drop)]
pub(crate) struct Snapshot {
    pub(crate) number: u32,
    pub(crate) nodes: Nodes,
}

/// The snapshots by their names.
#[derive(Drop)]
pub(crate) struct Snapshots {
    entries: BTreeMap<Name, Snapshot>,
}

impl Model for Snapshots {
    ghost use Rattle.std.specs.FinMap.{from_entries};
    ghost use Rattle.fs_memtree.specs.Snapshots.{KeptSnapshots, coded_snapshots};

    ghost Value = { KeptSnapshots };

    ghost coded = { coded_snapshots };

    ghost view = { λ s. from_entries s.entries.entries };
}

impl Snapshots {
    /// No snapshots. This takes no memory.
    pub(crate) fn new(alloc: Global) -> Snapshots
        ensures { result ≡ empty }
    {
        Snapshots {
            entries: BTreeMap::new(alloc),
        }
    }

    /// Whether there is none.
    pub(crate) fn is_empty(&self) -> bool
        ensures { IsTrue result ↔ (self.now ≡ empty) }
    {
        self.entries.len() == 0
    }

    /// What the snapshot of this name keeps.
    pub(crate) fn get(&self, name: &Name) -> Option<&Snapshot>
        ensures { option_map (λ snapshot. snapshot.now) result ≡ get self.now name.now }
    {
        self.entries.get(name)
    }

    /// Whether a snapshot has this number.
    pub(crate) fn has_number(&self, number: u32) -> bool
        ensures { result ≡ has_number self.now number }
    {
        for (_, snapshot) in &self.entries {
            if snapshot.number == number {
                return true;
            }
        }
        false
    }

    /// Puts a snapshot in.
    ///
    /// # Errors
    /// Out of memory; then all is as before.
    pub(crate) fn insert(&mut self, name: &Name, snapshot: Snapshot) -> Result<(), NoMemory>
        ensures ok { OnOk result (self.new ≡ insert self.old name.now snapshot) }
        ensures err { OnErr result (self.new ≡ self.old) }
    {
        self.entries.insert(name.copy(), snapshot)?;
        Ok(())
    }

    /// Takes the snapshot of this name out, where it is there. This takes no memory.
    pub(crate) fn remove(&mut self, name: &Name)
        ensures { self.new ≡ remove self.old name.now }
    {
        self.entries.remove(name);
    }

    /// The names in their order.
    ///
    /// # Errors
    /// Out of memory.
    pub(crate) fn names(&self, alloc: Global) -> Result<Vec<Name>, NoMemory>
        ensures { IfOk result (λ names. names.items ≡ keys self.now) }
    {
        let mut names = Vec::with_capacity(alloc, self.entries.len())?;
        for (name, _) in &self.entries {
            names.push(name.copy())?;
        }
        Ok(names)
    }

    /// The same snapshots once more.
    ///
    /// # Errors
    /// Out of memory.
    pub(crate) fn copy(&self, alloc: Global) -> Result<Snapshots, NoMemory>
        ensures { IfOk result (λ copy. copy ≡ self.now) }
    {
        let mut copy = Snapshots::new(alloc);
        for (name, snapshot) in &self.entries {
            let number = snapshot.number;
            let nodes = snapshot.nodes.copy(alloc)?;
            copy.insert(name, Snapshot { number, nodes })?;
        }
        Ok(copy)
    }

    /// The names in their order, with what is kept under each.
    pub(crate) fn entries(&self) -> &BTreeMap<Name, Snapshot>
        ensures { from_entries result.now.entries ≡ self.now }
    {
        &self.entries
    }

    /// Whether both are the same: the names, and what is kept under each. It stops at the first difference.
    pub(crate) fn is_same(&self, other: &Snapshots) -> bool
        ensures { IsTrue result ↔ (self.now ≡ other.now) }
    {
        if !self.are_all_in(other) {
            return false;
        }
        other.are_all_in(self)
    }

    /// Whether the other one has all of these.
    fn are_all_in(&self, other: &Snapshots) -> bool
        ensures { IsTrue result ↔ AreAllIn self.now other.now }
    {
        for (name, snapshot) in &self.entries {
            if !is_under(other.get(name), snapshot) {
                return false;
            }
        }
        true
    }
}

/// Whether this is there.
fn is_under(there: Option<&Snapshot>, snapshot: &Snapshot) -> bool
    ensures { IsTrue result ↔ (option_map (λ other. other.now) there.entry ≡ Some snapshot.now) }
{
    match there {
        None => false,
        Some(other) => is_same(other, snapshot),
    }
}

/// Whether both keep the same.
fn is_same(left: &Snapshot, right: &Snapshot) -> bool
    ensures { IsTrue result ↔ (left.now ≡ right.now) }
{
    left.number == right.number && left.nodes.is_same(&right.nodes)
}
