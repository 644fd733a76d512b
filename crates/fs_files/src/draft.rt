//! The draft of a command: which blocks it changes, takes and frees, and reading a block with its
//! changes. It knows no nodes; and of the map of blocks it only reads. Which blocks snapshots keep it is told.

ghost use Rattle.std.specs.Prelude.{◌≡◌, ◌≢◌, ◌↔◌, ℕ, ◌≤◌, ◌<◌, ◌==◌, ◌∷◌, [], true, false, IsTrue, length, is_err, IfOk, OnOk, OnErr};
ghost use Rattle.std.specs.List.{AllPairs};
ghost use Rattle.layout_geometry.specs.Geometry.{table_start};
ghost use Rattle.fs_files.specs.declared.changes.Changed.{Changed};
ghost use Rattle.fs_files.specs.Drafts.{begun_beside, drafted, nothing_drafted, ChangesSome, PutsBlock, TakesBlocks, FreesBlocks};
ghost use Rattle.fs_files.specs.Shared.{is_kept};
ghost use Rattle.fs_files.specs.Zeros.{HaveZeros};
ghost use Rattle.fs_files.specs.Effects.{LooksOnly};

use crate::changes::Changes;
use crate::shared::{KeptBlocks, Shared};
use base_types::{Block, Class, NoMemory, Places, ReadFault};
use engine_blocks::Blocks;
use layout_extent::BlockSet;
use std::alloc::Global;
use std::marker::Model;

/// What a command is to change of a map of blocks: new bytes of blocks, and numbers to take and to free.
/// The map stays as it is until the draft is finished.
#[derive(Drop)]
pub struct Draft<'a> {
    kept: KeptBlocks<'a>,
    changed: Changes,
    /// The content of files in blocks that are to be taken.
    fresh: Changes,
    taken: Places,
    freed: Places,
}

impl<'a> Model for Draft<'a> {
    ghost use Rattle.fs_files.specs.Drafts.{DraftState};

    ghost Value = { DraftState };

    ghost view = { λ d. record { kept = d.kept; changed = d.changed; fresh = d.fresh; taken = d.taken; freed = d.freed } };
}

impl<'a> Draft<'a> {
    /// A draft in which nothing was done, where no block is kept. This takes no memory.
    pub fn new(alloc: Global) -> Draft<'a>
        ensures { result ≡ nothing_drafted }
    {
        Draft::over(alloc, KeptBlocks::none())
    }

    /// A draft in which nothing was done, beside the blocks that snapshots keep. This takes no memory.
    pub fn beside(alloc: Global, shared: &'a Shared) -> Draft<'a>
        ensures { result ≡ begun_beside shared.now }
    {
        Draft::over(alloc, shared.kept())
    }

    /// A draft beside the blocks that snapshots keep, in which these blocks are to be freed and nothing else was done.
    ///
    /// # Errors
    /// Out of memory.
    pub fn freeing(alloc: Global, shared: &'a Shared, list: &[u32]) -> Result<Draft<'a>, NoMemory>
        ensures { IfOk result (λ draft. FreesBlocks list.now (begun_beside shared.now) draft) }
    {
        let mut draft = Draft::beside(alloc, shared);
        for b in list {
            draft.free(*b)?;
        }
        Ok(draft)
    }

    // A draft in which nothing was done, where these blocks are kept.
    fn over(alloc: Global, kept: KeptBlocks<'a>) -> Draft<'a>
        ensures { result ≡ begun_beside kept.entry }
    {
        Draft {
            kept,
            changed: Changes::new(alloc),
            fresh: Changes::new(alloc),
            taken: Places::new(alloc),
            freed: Places::new(alloc),
        }
    }

    /// Reads block `b` of the node table or the data, where the draft has the bytes of a whole block there.
    /// Of another block nothing is known.
    ///
    /// # Errors
    /// A read of the disk failed, which the disk has counted.
    pub(crate) fn read<S: Blocks>(
        &self,
        blocks: &mut S,
        b: u32,
        into: &mut Block,
    ) -> Result<(), ReadFault>
        requires going { (S.state blocks.old).books.stopped ≡ false }
        requires from { table_start (S.state blocks.old).books.geom ≤ b }
        requires below { b < (S.state blocks.old).books.geom.n }
        ensures block { IsTrue S.tells → length (drafted self.now (S.state blocks.old).map b) ≡ 1024
            → OnOk result (into.new ≡ drafted self.now (S.state blocks.old).map b) }
        ensures looks { LooksOnly S.tells (is_err result) (S.state blocks.old) (S.state blocks.new) }
    {
        if let Some(change) = self.changed.find(b) {
            *into = *change.bytes.bytes();
            return Ok(());
        }
        if let Some(change) = self.fresh.find(b) {
            *into = *change.bytes.bytes();
            return Ok(());
        }
        blocks.get(b, into)
    }

    /// Block `b` has these bytes now.
    ///
    /// # Errors
    /// Out of memory; then all is as before.
    pub(crate) fn put(
        &mut self,
        alloc: Global,
        b: u32,
        class: Class,
        bytes: &Block,
    ) -> Result<(), NoMemory>
        ensures ok { OnOk result (PutsBlock b (record { class = class; bytes = bytes.now }) self.old self.new) }
        ensures err { OnErr result (self.new ≡ self.old) }
    {
        if self.fresh.replace(b, class, bytes) {
            return Ok(());
        }
        self.changed.put(alloc, b, class, bytes)
    }

    /// These blocks are to be taken, which none is so far, and have zeros.
    ///
    /// # Errors
    /// Out of memory. The draft isn't to be used any more then.
    pub(crate) fn take(&mut self, alloc: Global, class: Class, list: Places) -> Result<(), NoMemory>
        requires { self.old.taken ≡ [] }
        ensures { OnOk result (TakesBlocks class list self.old self.new) }
    {
        match class {
            Class::Meta => put_zeros(&mut self.changed, alloc, class, list.as_slice())?,
            Class::Content => put_zeros(&mut self.fresh, alloc, class, list.as_slice())?,
        }
        self.taken = list;
        Ok(())
    }

    /// Block `b` is to be freed, and has no new bytes any more.
    ///
    /// # Errors
    /// Out of memory. The draft isn't to be used any more then.
    pub(crate) fn free(&mut self, b: u32) -> Result<(), NoMemory>
        ensures { OnOk result (FreesBlocks (b ∷ []) self.old self.new) }
    {
        self.changed.remove(b);
        self.fresh.remove(b);
        self.freed.push(b)
    }

    /// Whether a snapshot keeps this block.
    pub(crate) fn keeps(&self, b: u32) -> bool
        ensures { result ≡ is_kept self.now.kept b }
    {
        self.kept.has(b)
    }

    /// Whether it is plain that no block is kept.
    pub(crate) fn keeps_none(&self) -> bool
        ensures { result ≡ true → (b : ℕ) → is_kept self.now.kept b ≡ false }
    {
        self.kept.is_empty()
    }

    /// The blocks that snapshots keep.
    pub(crate) fn kept(&self) -> &KeptBlocks<'a>
        ensures { result.now ≡ self.now.kept }
    {
        &self.kept
    }

    /// Whether it takes no block so far.
    pub(crate) fn takes_none(&self) -> bool
        ensures { result ≡ (length self.now.taken == 0) }
    {
        self.taken.is_empty()
    }

    /// Whether some block has new bytes that aren't new content.
    pub fn changes_a_block(&self) -> bool
        ensures { IsTrue result ↔ ChangesSome self.now }
    {
        self.changed.len() != 0
    }

    /// Does nothing. A proof learns from the call that no block is changed twice.
    pub(crate) fn one_change_each(&self)
        ensures { AllPairs (λ (a b : ℕ × Changed). a.0 ≢ b.0) self.now.changed }
    {
        self.changed.lawful();
    }

    /// How many blocks it changes, how many get new content, and how many it takes and frees.
    pub(crate) fn counts(&self) -> (u64, u64, u64, u64)
        ensures changed { result.0 ≡ length self.now.changed }
        ensures fresh { result.1 ≡ length self.now.fresh }
        ensures taken { result.2 ≡ length self.now.taken }
        ensures freed { result.3 ≡ length self.now.freed }
    {
        (
            self.changed.len() as u64,
            self.fresh.len() as u64,
            self.taken.len() as u64,
            self.freed.len() as u64,
        )
    }

    /// What the draft has: the new bytes of blocks, those of new content, the numbers to take, and those
    /// to free.
    pub(crate) fn into_parts(self) -> (Changes, Changes, Places, Places)
        ensures changed { result.0 ≡ self.entry.changed }
        ensures fresh { result.1 ≡ self.entry.fresh }
        ensures taken { result.2 ≡ self.entry.taken }
        ensures freed { result.3 ≡ self.entry.freed }
    {
        let Draft {
            kept: _,
            changed,
            fresh,
            taken,
            freed,
        } = self;
        (changed, fresh, taken, freed)
    }
}

/// Each of these blocks has zeros now.
///
/// # Errors
/// Out of memory.
fn put_zeros(
    changes: &mut Changes,
    alloc: Global,
    class: Class,
    list: &[u32],
) -> Result<(), NoMemory>
    ensures { OnOk result (HaveZeros class list.now changes.old changes.new) }
{
    for b in list {
        changes.put(alloc, *b, class, &ZEROS)?;
    }
    Ok(())
}

/// A block of zeros.
pub(crate) const ZEROS: Block = [0; 1024];
