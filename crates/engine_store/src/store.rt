//! The store: a map of blocks with sync points on a disk that may reorder, tear and lose writes. Here its calls are
//! those of its parts, and its type keeps what holds between two calls.

ghost use Rattle.std.specs.Prelude.{◌≡◌, ℕ, IsTrue};
ghost use Rattle.engine_blocks.specs.Calls.{IsSound};
ghost use Rattle.engine_blocks.specs.Crashes.{IsTold};
ghost use Rattle.engine_store.specs.Store.{bookkeeping_of};
ghost use Rattle.engine_store.specs.Told.{IsKeptOn, store_state};

use crate::choosing::least;
use crate::mounting::open_parts;
use crate::moving::{advance, drain, wait_for_point};
use crate::parts::StoreParts;
use crate::reading::read_block;
use crate::refusal::StoreRefusal;
use crate::told::a_store_that_is_kept_is_told;
use crate::{running, syncing};
use base_types::limits::SPENT;
use base_types::{Block, Class, NoMemory, Places, ReadFault};
use disk_contract::{Disk, DiskFault};
use engine_blocks::{Blocks, Figures, LowestRefusal, SyncRefusal, WaitRefusal};
use layout_geometry::Geom;
use std::alloc::Global;

/// How many blocks the cache keeps at most, where nothing else is said.
const CACHED: u32 = 64;

/// A map of blocks on a mounted disk.
#[derive(Drop)]
pub struct Store<D: Disk> {
    disk: D,
    parts: StoreParts,
    ticks: u64,
    ghost kept: { IsKeptOn D.tells parts (D.state disk) },
    ghost sound: { IsSound (bookkeeping_of parts) },
    ghost told: { IsTrue D.tells → (ticks : ℕ) → IsTold (store_state parts ticks (D.state disk)) },
}

impl<D: Disk> Blocks for Store<D> {
    ghost use Rattle.engine_store.specs.StoreOf.{state_of};

    ghost tells = { D.tells };

    ghost state = { λ s. state_of D.state s };

    ghost is_sound = { λ s. s.sound };

    ghost is_told = { λ s tells. s.told tells s.ticks };

    fn geom(&self) -> Geom {
        self.parts.books.geom()
    }

    fn figures(&self) -> Figures {
        let geom = self.parts.books.geom();
        geom.lawful();
        Figures {
            area: geom.n() - geom.data_start(),
            live: self.parts.books.live(),
            held: self.parts.books.held(),
            waiting: self.parts.books.waiting(),
            weight: self.parts.books.weight(),
            room: 24 * (geom.j() - 2),
            point: self.parts.point,
            floor: self.parts.floor,
            free_places: self.parts.ring.free(),
            stopped: self.parts.stopped,
            spent: self.is_spent(),
        }
    }

    fn get(&mut self, b: u32, into: &mut Block) -> Result<(), ReadFault> {
        a_store_that_is_kept_is_told();
        read_block(&mut self.disk, &mut self.parts, b, into)
    }

    fn prepare(
        &mut self,
        alloc: Global,
        puts: u32,
        takes: u32,
        frees: u32,
    ) -> Result<(), NoMemory> {
        a_store_that_is_kept_is_told();
        running::prepare(alloc, &mut self.parts, puts, takes, frees)
    }

    fn lowest(&mut self, alloc: Global, n: u32, into: &mut Places) -> Result<(), LowestRefusal> {
        a_store_that_is_kept_is_told();
        if self.parts.books.reusable() >= n {
            return least(alloc, &self.parts, n, into);
        }
        match drain(&mut self.disk, &mut self.parts) {
            Ok(()) => least(alloc, &self.parts, n, into),
            Err(DiskFault) => Err(LowestRefusal::DiskFault),
        }
    }

    fn take(&mut self, list: &Places) {
        a_store_that_is_kept_is_told();
        running::take(&mut self.parts, list)
    }

    fn put(&mut self, b: u32, from: &Block, class: Class) {
        a_store_that_is_kept_is_told();
        running::put(&mut self.parts, b, from, class)
    }

    fn free(&mut self, b: u32) {
        a_store_that_is_kept_is_told();
        running::free(&mut self.parts, b)
    }

    fn weigh(&mut self, cost: u32) {
        a_store_that_is_kept_is_told();
        running::weigh(&mut self.parts, cost)
    }

    fn tick(&mut self) -> Result<(), DiskFault> {
        a_store_that_is_kept_is_told();
        self.ticks = self.ticks.saturating_add(1);
        advance(&mut self.disk, &mut self.parts)
    }

    fn settle(&mut self) -> Result<(), DiskFault> {
        a_store_that_is_kept_is_told();
        drain(&mut self.disk, &mut self.parts)
    }

    fn osync(&mut self, alloc: Global) -> Result<u64, SyncRefusal> {
        a_store_that_is_kept_is_told();
        syncing::sync(alloc, &mut self.disk, &mut self.parts)
    }

    fn dsync(&mut self, alloc: Global) -> Result<u64, SyncRefusal> {
        a_store_that_is_kept_is_told();
        syncing::sync_durably(alloc, &mut self.disk, &mut self.parts)
    }

    fn wait_for(&mut self, n: u64) -> Result<(), WaitRefusal> {
        a_store_that_is_kept_is_told();
        let last = self.parts.point;
        if n > last {
            return Err(WaitRefusal::NoPoint { last });
        }
        if n <= self.parts.floor {
            return Ok(());
        }
        match wait_for_point(&mut self.disk, &mut self.parts, n) {
            Ok(()) => Ok(()),
            Err(DiskFault) => Err(WaitRefusal::DiskFault),
        }
    }

    fn durable(&self) -> u64 {
        self.parts.floor
    }
}

impl<D: Disk> Store<D> {
    ghost use Rattle.std.specs.Prelude.{◌≡◌, ◌+◌, ◌^◌, ◌-◌, ◌<◌, ◌≤◌, nat_le, false, true, IsTrue};
    ghost use Rattle.disk_contract.specs.Disk.{HasFailed};
    ghost use Rattle.engine_mount.specs.Mount.{IsIdle};
    ghost use Rattle.engine_blocks.specs.Crashes.{StillAwaits};
    ghost use Rattle.engine_store.specs.Mounting.{HoldsLast};
    ghost use Rattle.engine_store.specs.Mounts.{Mounts};
    ghost use Rattle.engine_store.specs.Store.{bookkeeping_of};
    ghost use Rattle.engine_store.specs.StoreOf.{disk_in, state_of};

    /// Mounts a disk on which nothing is pending, with a cache of 64 blocks.
    ///
    /// # Errors
    /// As of `mount_with`.
    pub fn mount(alloc: Global, disk: D) -> Result<Store<D>, (D, StoreRefusal)>
        requires idle { IsTrue D.tells → IsIdle (D.state disk) }
        ensures { Mounts D.tells D.state disk result }
    {
        Store::mount_with(alloc, disk, CACHED)
    }

    /// Mounts a disk on which nothing is pending, with a cache of at most so many blocks: the session begins with the
    /// map that the disk held, and each honest image since the call began holds it, whatever comes of the call. It adds
    /// at most as many writes as the disk has blocks, and two. Where there is no record to replay, the header that opens
    /// the journal is its only write.
    ///
    /// # Errors
    /// The disk comes back, with why. `NoHeader`, `Spent` and `BadBit` come of what is on the disk, in this order, and
    /// `NoMemory` of want of memory: nothing is written then. `ReadFault` and `DiskFault` come of a call that failed,
    /// which the disk has counted. Where `ReadFault` comes, nothing was written, or the disk may be mounted.
    pub fn mount_with(alloc: Global, disk: D, capacity: u32) -> Result<Store<D>, (D, StoreRefusal)>
        requires some { 0 < capacity }
        requires most { capacity ≤ 65536 }
        requires idle { IsTrue D.tells → IsIdle (D.state disk) }
        ensures { Mounts D.tells D.state disk result }
    {
        a_store_that_is_kept_is_told();
        let mut disk = disk;
        match open_parts(alloc, &mut disk, capacity) {
            Ok(parts) => Ok(Store {
                disk,
                parts,
                ticks: 0,
            }),
            Err(why) => Err((disk, why)),
        }
    }

    /// Does nothing. A proof learns from the call that where the store has stopped, the last call of its disk failed,
    /// for a reason that the disk's manner has. And where it hasn't, `durable` isn't too low: where that isn't the last
    /// point, the next one still waits for a ticket of its record.
    pub fn lawful(&self)
        ensures failed { IsTrue D.tells → (state_of D.state self.now).books.stopped ≡ true → ∥ HasFailed (D.state (disk_in self.now)) ∥₁ }
        ensures known { IsTrue D.tells → (state_of D.state self.now).books.stopped ≡ false
            → (state_of D.state self.now).books.floor < (state_of D.state self.now).books.point
            → ∥ StillAwaits (state_of D.state self.now) ((state_of D.state self.now).books.floor + 1) ∥₁ }
    {}

    /// The disk, which has as many blocks as the geometry says.
    pub fn disk(&self) -> &D
        ensures value { result.now ≡ disk_in self.now }
        ensures size { (D.state (disk_in self.now)).blocks ≡ (state_of D.state self.now).books.geom.n }
    {
        &self.disk
    }

    /// The disk, when nothing is done with the store any more. Where the store hasn't stopped and nothing is pending,
    /// what is settled on it holds the map of the last point.
    pub fn into_disk(self) -> D
        ensures disk { result ≡ disk_in self }
        ensures last { IsTrue D.tells → (state_of D.state self).books.stopped ≡ false → IsIdle (D.state result)
            → HoldsLast (D.state result) (state_of D.state self) }
    {
        self.disk
    }

    /// Whether the journal's numbers are used up, so that no command is taken any more.
    fn is_spent(&self) -> bool
        ensures { result ≡ nat_le (2 ^ 63 - 8) (bookkeeping_of self.now.parts).turns }
    {
        self.parts.pipeline.turn() >= SPENT || self.parts.pipeline.last >= SPENT - 1
    }
}
