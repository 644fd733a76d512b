//! New bytes of blocks, found by a search tree over the blocks' numbers. Which blocks they may be of is
//! not said here.

ghost use Rattle.std.specs.Prelude.{◌≡◌, ◌≢◌, ◌≤◌, ◌+◌, ◌==◌, ◌&&◌, ℕ, [], ◌∷◌, false, length, if◌then◌else◌, None, Some, IfSome, IfNone, OnOk};
ghost use Rattle.std.specs.Prelude.{OnErr, is_some, option_map};
ghost use Rattle.std.specs.List.{AllPairs};
ghost use Rattle.fs_files.specs.declared.changes.Changed.{Changed};
ghost use Rattle.fs_files.specs.Drafts.{change_of};

use base_types::{Block, Class, NoMemory};
use disk_contract::BoxedBlock;
use std::alloc::Global;
use std::collections::BTreeMap;
use std::marker::Model;

/// The new bytes of a block, and what it holds.
#[derive(Drop)]
pub struct Changed {
    pub class: Class,
    pub bytes: BoxedBlock,
}

/// The new bytes of some blocks. Contracts see the list of them, ascending by block.
#[derive(Drop)]
pub(crate) struct Changes {
    blocks: BTreeMap<u32, Changed>,
}

impl Model for Changes {
    ghost use Rattle.std.specs.Prelude.{ℕ, List};
    ghost use Rattle.fs_files.specs.declared.changes.Changed.{Changed};

    ghost Value = { List (ℕ × Changed) };

    ghost view = { λ c. c.blocks.entries };
}

impl Changes {
    /// None. This takes no memory.
    pub(crate) fn new(alloc: Global) -> Changes
        ensures { result ≡ [] }
    {
        Changes {
            blocks: BTreeMap::new(alloc),
        }
    }

    /// Of how many blocks.
    pub(crate) fn len(&self) -> usize
        ensures { result ≡ length self.now }
    {
        self.blocks.len()
    }

    /// Does nothing. A proof learns from the call that no block has two of these.
    pub(crate) fn lawful(&self)
        ensures once { AllPairs (λ (a b : ℕ × Changed). a.0 ≢ b.0) self.now }
    {
        let _ = self.blocks.len();
    }

    /// The new bytes of block `b`, where it has some.
    pub(crate) fn find(&self, b: u32) -> Option<&Changed>
        ensures { option_map (λ c. c.now) result ≡ change_of self.now b }
    {
        self.blocks.get(&b)
    }

    /// Block `b` has these bytes now, in place of those that it had.
    ///
    /// # Errors
    /// Out of memory; then all is as before.
    pub(crate) fn put(
        &mut self,
        alloc: Global,
        b: u32,
        class: Class,
        bytes: &Block,
    ) -> Result<(), NoMemory>
        ensures ok { OnOk result ((q : ℕ) → change_of self.new
            q ≡ (if b == q then Some (record { class = class; bytes = bytes.now }) else change_of self.old q)) }
        ensures len { OnOk result (length self.new ≡ length self.old + (if is_some (change_of self.old b) then 0 else 1)) }
        ensures err { OnErr result (self.new ≡ self.old) }
    {
        let bytes = BoxedBlock::new(alloc, bytes)?;
        self.blocks.insert(b, Changed { class, bytes })?;
        Ok(())
    }

    /// Block `b` has these bytes now, where it has new bytes already, and answers whether it has. This takes
    /// no memory.
    pub(crate) fn replace(&mut self, b: u32, class: Class, bytes: &Block) -> bool
        ensures found { result ≡ is_some (change_of self.old b) }
        ensures new { (q : ℕ) → change_of self.new
            q ≡ (if is_some (change_of self.old b) && (b == q) then Some (record { class = class; bytes = bytes.now }) else change_of self.old q) }
        ensures len { length self.new ≡ length self.old }
        ensures same { result ≡ false → self.new ≡ self.old }
    {
        match self.blocks.get_mut(&b) {
            Some(change) => {
                change.class = class;
                change.bytes.set(bytes);
                true
            }
            None => false,
        }
    }

    /// Block `b` has no new bytes any more.
    pub(crate) fn remove(&mut self, b: u32)
        ensures others { (q : ℕ) → change_of self.new q ≡ (if b == q then None else change_of self.old q) }
        ensures len { length self.new ≤ length self.old }
    {
        self.blocks.remove(&b);
    }

    /// Takes out the new bytes of the first block, where there is one.
    pub(crate) fn pop_first(&mut self) -> Option<(u32, Changed)>
        ensures first { IfSome result (λ p. self.old ≡ p ∷ self.new) }
        ensures none { IfNone result (self.old ≡ []) }
        ensures found { IfSome result (λ p. change_of self.old p.0 ≡ Some p.1) }
        ensures others { IfSome result (λ p. (q : ℕ) → change_of self.new q ≡ (if p.0 == q then None else change_of self.old q)) }
    {
        self.blocks.pop_first()
    }
}
