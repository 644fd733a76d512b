//! The cache and its calls. Contracts see which blocks it keeps and with which bytes, but not their order by
//! use, which decides the one that is dropped for want of room.

ghost use Rattle.std.specs.Prelude.{◌≡◌, ◌<◌, ◌≤◌, ◌==◌, IsTrue, IfSome, IfOk, OnOk, OnErr, IsOk, is_err, is_ok, is_some, nat_eq};
ghost use Rattle.std.specs.FinMap.{get, len};
ghost use Rattle.lru.specs.LruCache.{IsValid};
ghost use Rattle.disk_contract.specs.Disk.{Reads, OnlyReads};
ghost use Rattle.engine_cache.specs.Cache.{empty_cache, without, IsKept, IsTheDisks, Agrees, ComesIn};

use base_types::{Block, NoMemory, ReadFault};
use disk_contract::Disk;
use lru::LruCache;
use std::alloc::Global;
use std::marker::Model;
use std::num::NonZeroUsize;

/// The greatest capacity of a cache, in blocks.
pub const MOST_BLOCKS: u32 = 65_536;

/// Blocks of a disk by their numbers, at most as many as its capacity. Where there is no room for one more,
/// the one that was asked for or noted the longest ago is dropped.
#[derive(Drop)]
pub struct BlockCache {
    blocks: LruCache<u32, Block>,
}

impl Model for BlockCache {
    ghost use Rattle.std.specs.FinMap.{from_entries};
    ghost use Rattle.engine_cache.specs.Cache.{Cache, coded_cache};

    ghost Value = { Cache };

    ghost coded = { coded_cache };

    ghost view = { λ c. record { kept = from_entries c.blocks.entries; capacity = c.blocks.cap } };
}

impl BlockCache {
    /// A cache that keeps nothing yet, of 1 to `MOST_BLOCKS` blocks.
    ///
    /// # Errors
    /// Out of memory.
    pub fn new(alloc: Global, capacity: u32) -> Result<BlockCache, NoMemory>
        requires some { 0 < capacity }
        requires most { capacity ≤ 65536 }
        ensures { IfOk result (λ cache. cache ≡ empty_cache capacity) }
    {
        let capacity = NonZeroUsize::new(capacity as usize).unwrap();
        let blocks = LruCache::sparse(alloc, capacity)?;
        Ok(BlockCache { blocks })
    }

    /// How many blocks are kept.
    pub fn len(&self) -> usize
        ensures count { result ≡ len self.now.kept }
        ensures within { result ≤ self.now.capacity }
    {
        self.blocks.len()
    }

    /// Whether no block is kept.
    pub fn is_empty(&self) -> bool
        ensures { result ≡ (len self.now.kept == 0) }
    {
        self.len() == 0
    }

    /// Gives block `b`, which there must be: as it is kept, or else as the disk reads it. What was read is
    /// then kept, where there is memory for it.
    ///
    /// # Errors
    /// The disk failed to read it, which the disk has counted. The cache is as it was. What then is in
    /// `into` isn't known.
    pub fn get<D: Disk>(&mut self, disk: &mut D, b: u32, into: &mut Block) -> Result<(), ReadFault>
        requires { b < (D.state disk.old).blocks }
        // What it gives.
        ensures kept { IfSome (get self.old.kept b) (λ x. IsOk result × (into.new ≡ x)) }
        ensures gives { IsTrue D.tells → IsTheDisks b self.old (D.state disk.old) → OnOk result (Reads (D.state disk.old) b into.new) }
        // What the cache keeps then.
        ensures same { IsKept b self.old → self.new ≡ self.old }
        ensures keeps { OnOk result (ComesIn b into.new self.old self.new) }
        ensures agrees { IsTrue D.tells → Agrees self.old (D.state disk.old) → Agrees self.new (D.state disk.new) }
        ensures err { OnErr result (self.new ≡ self.old) }
        // What becomes of the disk.
        ensures unread { IsKept b self.old → disk.new ≡ disk.old }
        ensures log { IsTrue D.tells → (D.state disk.new).log ≡ (D.state disk.old).log }
        ensures spends { OnlyReads (is_err result) (D.state disk.old) (D.state disk.new) }
    {
        if self.copy_kept(b, into) {
            return Ok(());
        }
        if disk.read(b, into).is_err() {
            return Err(ReadFault);
        }
        self.note(b, into);
        Ok(())
    }

    /// Notes that block `b` has these bytes. It is then kept so, or not at all where there is no memory for
    /// it. Another block is dropped only where there is no room for both.
    pub fn note(&mut self, b: u32, bytes: &Block)
        ensures { ComesIn b bytes.now self.old self.new }
    {
        a_block_is_kept_once(&self.blocks);
        // Where there is no memory, all is as it was, and a block that is kept needs none.
        drop(self.blocks.put(b, *bytes));
        a_block_is_kept_once(&self.blocks);
    }

    /// Forgets block `b`, and nothing else.
    pub fn forget(&mut self, b: u32)
        ensures { self.new ≡ without b self.old }
    {
        a_block_is_kept_once(&self.blocks);
        drop(self.blocks.pop(&b));
    }

    /// Copies out block `b`, where it is kept, and answers whether it is. The block is then the one that
    /// was asked for last.
    fn copy_kept(&mut self, b: u32, into: &mut Block) -> bool
        ensures kept { result ≡ is_some (get self.old.kept b) }
        ensures bytes { IfSome (get self.old.kept b) (λ x. into.new ≡ x) }
        ensures cache { self.new ≡ self.old }
    {
        match self.blocks.get(&b) {
            Some(block) => {
                *into = *block;
                true
            }
            None => false,
        }
    }
}

/// Does nothing. A proof learns from the call that no number stands twice, and that the capacity is kept.
fn a_block_is_kept_once(blocks: &LruCache<u32, Block>)
    ensures { IsValid nat_eq blocks.now }
{
    let _count = blocks.len();
}
