//! The names of one directory, each with the number that it leads to, in a search tree over the names in
//! their order. Contracts see them as a finite map from names to numbers. Which nodes have these numbers is
//! not said here.

ghost use Rattle.std.specs.Prelude.{◌≡◌, ◌<◌, ◌^◌, ◌↔◌, ◌==◌, if◌then◌else◌, length, IsSome, IsTrue, IfOk, OnOk, OnErr};
ghost use Rattle.std.specs.FinMap.{get, insert, remove, empty, keys, len};
ghost use Rattle.fs_memtree.specs.Kept.{names_in, renumbered};

use base_types::{Name, NoMemory};
use std::alloc::Global;
use std::collections::BTreeMap;
use std::marker::Model;

/// The most names of a directory: no machine has memory for more, and every count of them fits with room to
/// spare.
const MOST_NAMES: usize = (1 << 57) - 1;

/// The names of a directory with their numbers.
#[derive(Drop)]
pub(crate) struct Directory {
    entries: BTreeMap<Name, u32>,
}

impl Model for Directory {
    ghost use Rattle.std.specs.Prelude.{ℕ, ◌<◌, ◌^◌, length};
    ghost use Rattle.std.specs.FinMap as finite;
    ghost use Rattle.std.specs.FinMap.{FinMap};
    ghost use Rattle.std.specs.Coded.{coded_list, coded_ℕ};
    ghost use Rattle.fs_memtree.specs.Kept.{name_cmp, names_in};

    ghost Value = { FinMap name_cmp ℕ };

    ghost coded = { finite.code (coded_list coded_ℕ) coded_ℕ };

    ghost view = { λ d. names_in d.entries.entries };

    ghost invariant = { λ d. length d.entries.entries < 2 ^ 57 };
}

impl Directory {
    /// No names. This takes no memory.
    pub(crate) fn new(alloc: Global) -> Directory
        ensures { result ≡ empty }
    {
        Directory {
            entries: BTreeMap::new(alloc),
        }
    }

    /// The number under the name.
    pub(crate) fn get(&self, name: &Name) -> Option<u32>
        ensures { result ≡ get self.now name.now }
    {
        self.entries.get(name).copied()
    }

    /// How many names there are.
    pub(crate) fn len(&self) -> u64
        ensures value { result ≡ len self.now }
        ensures bound { result < 2 ^ 57 }
    {
        self.entries.len() as u64
    }

    /// Puts the name in with its number, in place of the number that it may have.
    ///
    /// # Errors
    /// Out of memory; then all is as before.
    pub(crate) fn insert(&mut self, name: &Name, number: u32) -> Result<(), NoMemory>
        ensures ok { OnOk result (self.new ≡ insert self.old name.now number) }
        ensures err { OnErr result (self.new ≡ self.old) }
    {
        if self.entries.len() >= MOST_NAMES {
            return Err(NoMemory);
        }
        self.entries.insert(name.copy(), number)?;
        Ok(())
    }

    /// Gives the name this number, where it is there. This takes no memory.
    pub(crate) fn renumber(&mut self, name: &Name, number: u32)
        ensures { self.new ≡ renumbered self.old name.now number }
    {
        if self.get(name).is_some() {
            set_number(&mut self.entries, name, number);
        }
    }

    /// Takes the name out, where it is there. This takes no memory.
    pub(crate) fn remove(&mut self, name: &Name)
        ensures { self.new ≡ remove self.old name.now }
    {
        self.entries.remove(name);
    }

    /// The names in their order.
    ///
    /// # Errors
    /// Out of memory.
    pub(crate) fn names(&self, alloc: Global) -> Result<Vec<Name>, NoMemory>
        ensures { IfOk result (λ names. names.items ≡ keys self.now) }
    {
        let mut names = Vec::with_capacity(alloc, self.entries.len())?;
        for (name, _) in &self.entries {
            names.push(name.copy())?;
        }
        Ok(names)
    }

    /// The same names once more.
    ///
    /// # Errors
    /// Out of memory.
    pub(crate) fn copy(&self) -> Result<Directory, NoMemory>
        ensures { IfOk result (λ copy. copy ≡ self.now) }
    {
        let entries = self.entries.clone()?;
        Ok(Directory { entries })
    }

    /// Whether both have the same names with the same numbers. It stops at the first difference.
    pub(crate) fn is_same(&self, other: &Directory) -> bool
        ensures { IsTrue result ↔ (self.now ≡ other.now) }
    {
        if self.entries.len() != other.entries.len() {
            return false;
        }
        self.entries == other.entries
    }

    /// The names in their order, with their numbers.
    pub(crate) fn entries(&self) -> &BTreeMap<Name, u32>
        ensures { names_in result.now.entries ≡ self.now }
    {
        &self.entries
    }
}

/// Gives the name that is there this number.
fn set_number(entries: &mut BTreeMap<Name, u32>, name: &Name, number: u32)
    requires { IsSome (get (names_in entries.old.entries) name.now) }
    ensures names { names_in entries.new.entries ≡ insert (names_in entries.old.entries) name.now number }
    ensures len { length entries.new.entries ≡ length entries.old.entries }
{
    let place = entries.get_mut(name).unwrap();
    *place = number;
}
