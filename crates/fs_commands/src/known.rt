//! What a file system knows of its snapshots: how many keep each block, and which node each name has. Both lie in
//! memory, so no write and no look searches the snapshots. How one is made or goes is described in `snapping`.

ghost use Rattle.std.specs.Prelude.{◌≡◌, ◌≢◌, ◌<◌, ◌⊎◌, ℕ, false, List, [], None, Some, IfOk, OnOk, OnErr, length, get_or};
ghost use Rattle.std.specs.List.{All, AllPairs};
ghost use Rattle.std.specs.FinMap.{get};
ghost use Rattle.fs_files.specs.Shared.{keepers};
ghost use Rattle.engine_blocks.specs.Running.{has};
ghost use Rattle.fs_check.specs.Snapshots.{numbers_in};
ghost use Rattle.fs_session.specs.Snapshots.{alone_among};
ghost use Rattle.fs_commands.specs.Known.{CountsIn, CountsOut, counts_in, names_in, number_in, numbers_by_name};

use base_types::{Name, NoMemory};
use fs_check::Snapshots;
use fs_files::Shared;
use std::alloc::Global;
use std::collections::BTreeMap;
use std::marker::Model;

/// What is known of the snapshots.
#[derive(Drop)]
pub(crate) struct KnownSnapshots {
    /// How many of them keep each block.
    shared: Shared,
    /// The number of each, by its name.
    numbers: BTreeMap<Name, u32>,
}

impl Model for KnownSnapshots {
    ghost use Rattle.fs_commands.specs.Known.{Known};

    ghost Value = { Known };

    ghost view = { λ k. record { counts = k.shared; numbers = k.numbers.entries } };
}

impl KnownSnapshots {
    /// Those that a check found.
    pub(crate) fn of(found: Snapshots) -> KnownSnapshots
        ensures counts { counts_in result ≡ found.shared }
        ensures numbers { (name : List ℕ) → number_in result name ≡ get (numbers_in found.numbers.entries) name }
    {
        KnownSnapshots {
            shared: found.shared,
            numbers: found.numbers,
        }
    }

    /// How many snapshots keep each block.
    pub(crate) fn shared(&self) -> &Shared
        ensures { result.now ≡ counts_in self.now }
    {
        &self.shared
    }

    /// The number of the snapshot of this name.
    pub(crate) fn number(&self, name: &Name) -> Option<u32>
        ensures { result ≡ number_in self.now name.now }
    {
        self.numbers.get(name).copied()
    }

    /// The names, ascending.
    ///
    /// # Errors
    /// Out of memory.
    pub(crate) fn names(&self, alloc: Global) -> Result<Vec<Name>, NoMemory>
        ensures { IfOk result (λ names. names.items ≡ names_in self.now) }
    {
        let mut names = Vec::with_capacity(alloc, self.numbers.len())?;
        for (name, _) in &self.numbers {
            names.push(name.copy())?;
        }
        Ok(names)
    }

    /// The numbers of the snapshots, in the order of their names.
    pub(crate) fn numbers(&self) -> &BTreeMap<Name, u32>
        ensures { numbers_in result.now.entries ≡ numbers_by_name self.now }
    {
        &self.numbers
    }

    /// Room for one more snapshot, on a disk of so many blocks: its name has this number, and each block has a count.
    ///
    /// # Errors
    /// Out of memory; no name and no count is other than before.
    pub(crate) fn make_ready(
        &mut self,
        alloc: Global,
        name: &Name,
        number: u32,
        blocks: u32,
    ) -> Result<(), NoMemory>
        ensures counts { (b : ℕ) → keepers (counts_in self.new) b ≡ keepers (counts_in self.old) b }
        ensures room { (counts_in self.new ≡ counts_in self.old) ⊎ (length (counts_in self.new) ≡ blocks) }
        ensures made { OnOk result (counts_in self.old ≡ [] → length (counts_in self.new) ≡ blocks) }
        ensures here { OnOk result (number_in self.new name.now ≡ Some number) }
        ensures others { OnOk result ((other : List ℕ) → other ≢ name.now → number_in self.new other ≡ number_in self.old other) }
        ensures err { OnErr result ((other : List ℕ) → number_in self.new other ≡ number_in self.old other) }
    {
        self.shared.make_room(alloc, blocks)?;
        self.numbers.insert(name.copy(), number)?;
        Ok(())
    }

    /// No snapshot has this name any more. This takes no memory.
    pub(crate) fn forget(&mut self, name: &Name)
        ensures counts { counts_in self.new ≡ counts_in self.old }
        ensures here { number_in self.new name.now ≡ None }
        ensures others { (other : List ℕ) → other ≢ name.now → number_in self.new other ≡ number_in self.old other }
    {
        self.numbers.remove(name);
    }

    /// One snapshot more keeps each of these blocks, where they are different ones that have a count, which isn't at its
    /// most.
    pub(crate) fn count_in(&mut self, list: &[u32])
        ensures counts { All (λ b. b < length (counts_in self.old)) list.now → All (λ b. keepers (counts_in self.old) b < 65535) list.now
            → AllPairs (λ a b. a ≢ b) list.now → CountsIn list.now (counts_in self.old) (counts_in self.new) }
        ensures numbers { (name : List ℕ) → number_in self.new name ≡ number_in self.old name }
    {
        for b in list {
            self.shared.add(*b);
        }
    }

    /// One snapshot less keeps each of these blocks, where they are different ones that are kept.
    pub(crate) fn count_out(&mut self, list: &[u32])
        ensures counts { All (λ b. 0 < keepers (counts_in self.old) b) list.now → AllPairs (λ a b. a ≢ b) list.now
            → CountsOut list.now (counts_in self.old) (counts_in self.new) }
        ensures numbers { (name : List ℕ) → number_in self.new name ≡ number_in self.old name }
    {
        for b in list {
            self.shared.take(*b);
        }
    }

    /// Those of these kept blocks that one snapshot keeps and that are none of the tree's files, on a disk of so many
    /// blocks.
    ///
    /// # Errors
    /// Out of memory.
    pub(crate) fn alone(
        &self,
        alloc: Global,
        blocks: u32,
        files: &[u32],
        kept: &[u32],
    ) -> Result<Vec<u32>, NoMemory>
        requires within { All (λ b. b < blocks) files.now }
        requires below { All (λ b. b < blocks) kept.now }
        ensures { IfOk result (λ list. list.items ≡ alone_among (counts_in self.now) files.now kept.now) }
    {
        let live = marks_of(alloc, blocks, files)?;
        let mut list = Vec::new(alloc);
        for b in kept {
            if self.shared.count(*b) == 1 && !live[*b as usize] {
                list.push(*b)?;
            }
        }
        Ok(list)
    }
}

/// A mark for each of so many blocks, which those of this list have.
///
/// # Errors
/// Out of memory.
fn marks_of(alloc: Global, blocks: u32, list: &[u32]) -> Result<Vec<bool>, NoMemory>
    requires within { All (λ b. b < blocks) list.now }
    ensures long { IfOk result (λ marks. length marks.items ≡ blocks) }
    ensures marks { IfOk result (λ marks. (b : ℕ) → b < blocks → get_or marks.items b false ≡ has list.now b) }
{
    let mut marks = vec![in alloc; false; blocks as usize]?;
    for b in list {
        marks[*b as usize] = true;
    }
    Ok(marks)
}
