//! How many snapshots keep each data block: `Shared`. It knows no snapshot and no file; who counts blocks in
//! and out, and what may be done with a block that is kept, is said elsewhere.

ghost use Rattle.std.specs.Prelude.{◌≡◌, ◌≢◌, ◌≤◌, ◌<◌, ◌+◌, ◌-◌, ◌==◌, ℕ, List, [], OnOk, OnErr, length};
ghost use Rattle.fs_files.specs.Shared.{keepers, is_kept, SetsKeepers};

use base_types::NoMemory;
use layout_extent::BlockSet;
use std::alloc::Global;
use std::marker::Model;

/// How many snapshots keep each data block, which contracts see as the list of these numbers, of which
/// `keepers` speaks. While there is no snapshot the list is empty and takes no memory; else it has a number
/// of 16 bits for each block of the disk. A snapshot takes a node, node 1 is the root and there are 65,536
/// at most, so no number is above 65,535.
#[derive(Drop)]
pub struct Shared {
    counts: Vec<u16>,
}

impl Model for Shared {
    ghost Value = { List ℕ };

    ghost view = { λ s. s.counts.items };
}

impl Shared {
    /// No block is kept. This takes no memory.
    pub fn new(alloc: Global) -> Shared
        ensures { result ≡ [] }
    {
        Shared {
            counts: Vec::new(alloc),
        }
    }

    /// The blocks that are kept.
    pub(crate) fn kept(&self) -> KeptBlocks<'_>
        ensures { result ≡ self.now }
    {
        KeptBlocks {
            counts: self.counts.as_slice(),
        }
    }

    /// Whether there is no room, so that no block is kept.
    pub fn is_empty(&self) -> bool
        ensures { result ≡ (length self.now == 0) }
    {
        self.counts.is_empty()
    }

    /// Whether a snapshot keeps this block.
    pub fn keeps(&self, block: u32) -> bool
        ensures { result ≡ is_kept self.now block }
    {
        self.count(block) != 0
    }

    /// How many snapshots keep this block.
    pub fn count(&self, block: u32) -> u16
        ensures value { result ≡ keepers self.now block }
    {
        match self.counts.get(block as usize) {
            Some(count) => *count,
            None => 0,
        }
    }

    /// Room for the numbers of a disk of so many blocks, where there is none yet; no number changes.
    ///
    /// # Errors
    /// Out of memory; all is as it was.
    pub fn make_room(&mut self, alloc: Global, blocks: u32) -> Result<(), NoMemory>
        ensures room { OnOk result (self.old ≡ [] → length self.new ≡ blocks) }
        ensures there { OnOk result (0 < length self.old → self.new ≡ self.old) }
        ensures same { (b : ℕ) → keepers self.new b ≡ keepers self.old b }
        ensures err { OnErr result (self.new ≡ self.old) }
    {
        if self.counts.is_empty() {
            self.counts = vec![in alloc; 0u16; blocks as usize]?;
        }
        Ok(())
    }

    /// One more snapshot keeps this block, where there is room for its number and no more than 65,534 keep it so far;
    /// else all stays.
    pub fn add(&mut self, block: u32)
        ensures adds { block < length self.old → keepers self.old block < 65535 → SetsKeepers block (keepers self.old block + 1) self.old self.new }
        ensures outside { length self.old ≤ block → self.new ≡ self.old }
        ensures full { 65535 ≤ keepers self.old block → self.new ≡ self.old }
        ensures others { (c : ℕ) → c ≢ block → keepers self.new c ≡ keepers self.old c }
        ensures room { length self.new ≡ length self.old }
    {
        let count = self.count(block);
        if (block as usize) < self.counts.len() && count < u16::MAX {
            self.counts[block as usize] = count + 1;
        }
    }

    /// One snapshot less keeps this block, where some snapshot keeps it; else all stays.
    pub fn take(&mut self, block: u32)
        ensures takes { 0 < keepers self.old block → SetsKeepers block (keepers self.old block - 1) self.old self.new }
        ensures none { keepers self.old block ≡ 0 → self.new ≡ self.old }
        ensures others { (c : ℕ) → c ≢ block → keepers self.new c ≡ keepers self.old c }
        ensures room { length self.new ≡ length self.old }
    {
        let count = self.count(block);
        if count > 0 {
            self.counts[block as usize] = count - 1;
        }
    }

    /// No block is kept and no memory is taken, once no block was kept.
    pub fn give_room_back(&mut self, alloc: Global)
        requires { (b : ℕ) → keepers self.old b ≡ 0 }
        ensures empty { self.new ≡ [] }
        ensures same { (b : ℕ) → keepers self.new b ≡ keepers self.old b }
    {
        self.counts = Vec::new(alloc);
    }
}

/// The blocks that are kept: how many snapshots keep each of them, as `Shared` had it.
#[derive(Drop)]
pub(crate) struct KeptBlocks<'a> {
    counts: &'a [u16],
}

impl<'a> Model for KeptBlocks<'a> {
    ghost Value = { List ℕ };

    ghost view = { λ k. k.counts.now };
}

impl<'a> KeptBlocks<'a> {
    /// No block is kept.
    pub(crate) fn none() -> KeptBlocks<'a>
        ensures { result ≡ [] }
    {
        KeptBlocks { counts: &[] }
    }

    /// Whether there are no numbers, so that no block is kept.
    pub(crate) fn is_empty(&self) -> bool
        ensures { result ≡ (length self.now == 0) }
    {
        self.counts.is_empty()
    }

    /// How many snapshots keep this block.
    fn count(&self, block: u32) -> u16
        ensures { result ≡ keepers self.now block }
    {
        match self.counts.get(block as usize) {
            Some(count) => *count,
            None => 0,
        }
    }
}

impl<'a> BlockSet for KeptBlocks<'a> {
    ghost use Rattle.fs_files.specs.Shared.{is_kept};

    ghost has = { λ counts. is_kept counts };

    fn has(&self, number: u32) -> bool {
        self.count(number) != 0
    }
}
