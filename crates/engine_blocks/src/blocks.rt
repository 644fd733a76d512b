//! The contract of a map of blocks with sync points: which blocks there are, how they are changed in a
//! transaction, and what a crash may leave of them. It knows no journal, no disk and no file; a map in
//! memory and a store over a disk both meet it. The rules are described in docs/BLOCKS.md.

ghost use Rattle.std.specs.Prelude.{◌≡◌, ◌<◌, ◌≤◌, ◌+◌, Bool, true, false, IsTrue, length, is_err, IfOk, IfErr, OnOk, OnErr, Ok, Err};
ghost use Rattle.disk_contract.specs.Disk.{GrowsByWrites, PollsThenWrites, writes_in};
ghost use Rattle.layout_geometry.specs.Geometry.{bitmap_start, table_start, data_start};
ghost use Rattle.layout_bytes.specs.Bitmap.{is_set};
ghost use Rattle.engine_blocks.specs.State.{State, reusable_blocks, is_defined, MayBeTaken, after_put, after_take, after_free, after_weigh};
ghost use Rattle.engine_blocks.specs.Calls.{IsWithBlock, IsWithTaken, IsWithFreed, OnNoMemory, AreLowest, LowestRefused, lowest_fails, wait_fails, CountsReads};
ghost use Rattle.engine_blocks.specs.declared.refusals.WaitRefusal.TheVariants.{NoPoint, DiskFault as WaitFault};
ghost use Rattle.engine_blocks.specs.Calls.{MaySync, HasTurns, AreFigures, IsReady, IsSound};
ghost use Rattle.engine_blocks.specs.Crashes.{HearsRecords, HearsUpTo, IssuesNothing, IsTold};
ghost use Rattle.engine_blocks.specs.Serving.{EndsFrees, SameFreed, ServesSure, with_all_served};
ghost use Rattle.engine_blocks.specs.Effects.{LeavesDisk, ChangesNothing, FitsRing, OrdersAtOnce, RingIsTold, RunsPipeline, Syncs, Ticked, WritesItsRecord};

use crate::{Figures, LowestRefusal, SyncRefusal, WaitRefusal};
use base_types::{Block, Class, NoMemory, Places, ReadFault};
use disk_contract::DiskFault;
use layout_geometry::Geom;
use std::alloc::Global;

/// A map of blocks with sync points.
///
/// Blocks are changed in a running transaction, which a sync ends. What a crash leaves is the map of a
/// sync point, and never that of a transaction that wasn't ended. The contents are known only where
/// `tells` says so, and only of the blocks on which the map is defined; the bookkeeping and the counts
/// always are.
pub trait Blocks {
    /// Whether the blocks and what crashes may leave of them are known.
    ghost tells: { Bool };

    /// What is known.
    ghost state: { Self → State };

    /// The geometry, which never changes.
    fn geom(&self) -> Geom
        ensures { result ≡ (state self.now).books.geom };

    /// The numbers of the bookkeeping.
    fn figures(&self) -> Figures
        ensures { AreFigures (state self.now).books result };

    /// Reads block `b` of the bitmap, the node table or the data. Where the map isn't defined on it,
    /// nothing is known of the bytes.
    ///
    /// # Errors
    /// A read of the disk failed, which the disk has counted.
    fn get(&mut self, b: u32, into: &mut Block) -> Result<(), ReadFault>
        requires going { (state self.old).books.stopped ≡ false }
        requires from { bitmap_start (state self.old).books.geom ≤ b }
        requires below { b < (state self.old).books.geom.n }
        ensures block { IsTrue tells → is_defined (state self.old).books b ≡ true → OnOk result (into.new ≡ (state self.old).map b) }
        ensures books { (state self.new).books ≡ (state self.old).books }
        ensures counts { CountsReads (is_err result) (state self.old).counts (state self.new).counts }
        ensures map { IsTrue tells → (state self.new).map ≡ (state self.old).map }
        ensures crash { IsTrue tells → IssuesNothing (state self.old) (state self.new) };

    /// Makes memory ready for so many calls of `put`, so many numbers to take, and so many calls of
    /// `free`.
    ///
    /// # Errors
    /// Out of memory; what was ready before still is.
    fn prepare(&mut self, alloc: Global, puts: u32, takes: u32, frees: u32) -> Result<(), NoMemory>
        ensures ready { OnOk result (IsReady (state self.new).books.spare puts takes frees) }
        ensures failed { OnErr result ((state self.new).books.spare ≡ (state self.old).books.spare) }
        ensures books { (state self.new).books ≡ record (state self.old).books { spare = (state self.new).books.spare } }
        ensures map { IsTrue tells → (state self.new).map ≡ (state self.old).map }
        ensures disk { LeavesDisk tells (state self.old) (state self.new) };

    /// Writes the `n` least numbers that may be taken into `into`, ascending, in place of what it had. It
    /// takes none of them. Where there are fewer, it settles first; else it only looks.
    ///
    /// # Errors
    /// There are fewer even so; the disk failed as it settled; or out of memory.
    fn lowest(&mut self, alloc: Global, n: u32, into: &mut Places) -> Result<(), LowestRefusal>
        requires going { (state self.old).books.stopped ≡ false }
        requires turns { HasTurns (state self.old).books }
        ensures lowest { OnOk result (AreLowest n (state self.old).books (state self.new).books into.new) }
        ensures refused { IfErr result (λ why. LowestRefused n (state self.old).books (state self.new).books why) }
        ensures moves { RunsPipeline tells (lowest_fails result) (state self.old) (state self.new) }
        ensures ticks { (state self.new).counts.ticks ≡ (state self.old).counts.ticks }
        ensures looks { n ≤ length (reusable_blocks (state self.old).books) → ChangesNothing tells (state self.old) (state self.new) }
        ensures serves { length (reusable_blocks (state self.old).books) < n → lowest_fails result ≡ false
            → SameFreed (with_all_served (state self.old).books) (state self.new).books };

    /// Takes these numbers, of those made ready: their bits are set, and each is to be put or freed
    /// before the next sync.
    fn take(&mut self, list: &Places)
        requires room { length list.now ≤ (state self.old).books.spare.takes }
        requires takeable { MayBeTaken (state self.old).books.geom (state self.old).books.reusable list.now }
        ensures books { (state self.new).books ≡ after_take (state self.old).books list.now }
        ensures map { IsTrue tells → IsWithTaken (state self.old).books.geom (state self.old).map (state self.new).map list.now }
        ensures disk { LeavesDisk tells (state self.old) (state self.new) };

    /// Puts these bytes into block `b` of the node table, or into a data block whose bit is set. It is
    /// one of the puts made ready.
    fn put(&mut self, b: u32, from: &Block, class: Class)
        requires room { 0 < (state self.old).books.spare.puts }
        requires from { table_start (state self.old).books.geom ≤ b }
        requires below { b < (state self.old).books.geom.n }
        requires marked { IsTrue tells → data_start (state self.old).books.geom ≤ b → is_set (state self.old).books.geom (state self.old).map b ≡ true }
        ensures books { (state self.new).books ≡ after_put (state self.old).books b class }
        ensures map { IsTrue tells → IsWithBlock (state self.old).map (state self.new).map b from.now }
        ensures disk { LeavesDisk tells (state self.old) (state self.new) };

    /// Frees a data block whose bit is set: its bit is cleared, and it may be taken again some time
    /// after the next sync. It is one of the frees made ready.
    fn free(&mut self, b: u32)
        requires room { 0 < (state self.old).books.spare.frees }
        requires from { data_start (state self.old).books.geom ≤ b }
        requires below { b < (state self.old).books.geom.n }
        requires marked { IsTrue tells → is_set (state self.old).books.geom (state self.old).map b ≡ true }
        ensures books { (state self.new).books ≡ after_free (state self.old).books b }
        ensures map { IsTrue tells → IsWithFreed (state self.old).books.geom (state self.old).map (state self.new).map b }
        ensures disk { LeavesDisk tells (state self.old) (state self.new) };

    /// Adds to the weight of the running transaction, within the room.
    fn weigh(&mut self, cost: u32)
        requires { (state self.old).books.running.weight + cost ≤ (state self.old).books.room }
        ensures books { (state self.new).books ≡ after_weigh (state self.old).books cost }
        ensures map { IsTrue tells → (state self.new).map ≡ (state self.old).map }
        ensures disk { LeavesDisk tells (state self.old) (state self.new) };

    /// Takes the durability notifications that have come, at most 64, and moves the pipeline by a step. It
    /// doesn't wait: behind those notifications come writes alone. Where waits bring no notice but their own, just
    /// those blocks serve again that wait for a point which is sure now and on which nothing is pending, and just
    /// those ring places are taken that the log's records have.
    ///
    /// # Errors
    /// The disk failed.
    fn tick(&mut self) -> Result<(), DiskFault>
        requires going { (state self.old).books.stopped ≡ false }
        requires turns { HasTurns (state self.old).books }
        ensures moves { RunsPipeline tells (is_err result) (state self.old) (state self.new) }
        ensures waits { (state self.new).counts.waits ≡ (state self.old).counts.waits }
        ensures ticks { Ticked tells (state self.old) (state self.new) }
        ensures writes { IsTrue tells → PollsThenWrites (state self.old).counts.ticks.manner 64 (state self.old).counts.ticks.polls
            (state self.old).crash.log (state self.new).counts.ticks.polls (state self.new).crash.log }
        ensures serves { IsTrue tells → (state self.old).counts.ticks.manner.waits_alone ≡ true → OnOk result (ServesSure (state self.old) (state self.new)) }
        ensures ring { IsTrue tells → (state self.old).counts.ticks.manner.waits_alone ≡ true → OnOk result (RingIsTold (state self.new)) };

    /// Waits until nothing waits in the pipeline any more, and all blocks that earlier transactions freed
    /// may be taken.
    ///
    /// # Errors
    /// The disk failed.
    fn settle(&mut self) -> Result<(), DiskFault>
        requires going { (state self.old).books.stopped ≡ false }
        requires turns { HasTurns (state self.old).books }
        ensures settled { OnOk result ((state self.new).books.waiting ≡ 0) }
        ensures serves { OnOk result (SameFreed (with_all_served (state self.old).books) (state self.new).books) }
        ensures moves { RunsPipeline tells (is_err result) (state self.old) (state self.new) }
        ensures ticks { (state self.new).counts.ticks ≡ (state self.old).counts.ticks };

    /// Ends the running transaction, if it has a weight, by a sync point that comes after all earlier
    /// ones, and answers the last point. All its writes are issued. Where its record fits the free ring
    /// places, none is waited for, and no other is made. With nothing to commit, nothing is done.
    ///
    /// # Errors
    /// The disk failed; or out of memory, and nothing was done.
    fn osync(&mut self, alloc: Global) -> Result<u64, SyncRefusal>
        requires going { (state self.old).books.stopped ≡ false }
        requires turns { HasTurns (state self.old).books }
        requires sound { MaySync (state self.old).books }
        ensures syncs { Syncs tells result (state self.old) (state self.new) }
        ensures frees { IsTrue tells → OnOk result (EndsFrees (state self.old) (state self.new)) }
        ensures order { FitsRing (state self.old).books → (state self.new).counts.waits ≡ (state self.old).counts.waits }
        ensures writes { IsTrue tells → FitsRing (state self.old).books → GrowsByWrites (state self.old).crash.log (state self.new).crash.log }
        ensures written { IsTrue tells → OnOk result (WritesItsRecord (state self.old) (state self.new)) }
        ensures idle { (state self.old).books.running.weight ≡ 0 → result ≡ Ok (state self.old).books.point }
        ensures idles { (state self.old).books.running.weight ≡ 0 → ChangesNothing tells (state self.old) (state self.new) };

    /// As `osync`, and then waits until the last point is durable: no crash from then on goes back
    /// behind it. Where its record fits the free ring places, or there is nothing to commit, it waits for the
    /// writes of records alone. With nothing to commit, it takes no memory, and where the last point is known to be durable
    /// nothing is done.
    ///
    /// # Errors
    /// The disk failed; or out of memory, and nothing was done.
    fn dsync(&mut self, alloc: Global) -> Result<u64, SyncRefusal>
        requires going { (state self.old).books.stopped ≡ false }
        requires turns { HasTurns (state self.old).books }
        requires sound { MaySync (state self.old).books }
        ensures syncs { Syncs tells result (state self.old) (state self.new) }
        ensures frees { IsTrue tells → OnOk result (EndsFrees (state self.old) (state self.new)) }
        ensures durable { OnOk result ((state self.new).books.floor ≡ (state self.new).books.point) }
        ensures written { IsTrue tells → OnOk result (WritesItsRecord (state self.old) (state self.new)) }
        ensures waits { IsTrue tells → (state self.old).counts.ticks.manner.waits_alone ≡ true → OrdersAtOnce (state self.old).books
            → HearsRecords (state self.old) (state self.new) }
        ensures idle { (state self.old).books.running.weight ≡ 0 → OnNoMemory result ⊥ }
        ensures idles { (state self.old).books.running.weight ≡ 0 → (state self.old).books.floor ≡ (state self.old).books.point
            → ChangesNothing tells (state self.old) (state self.new) };

    /// Waits until point `n` is durable: no crash from then on goes back behind it. It commits and writes nothing, and
    /// takes no memory. Where the point is durable already, or isn't there, nothing is done.
    ///
    /// # Errors
    /// There is no such point; or the disk failed.
    fn wait_for(&mut self, n: u64) -> Result<(), WaitRefusal>
        requires going { (state self.old).books.stopped ≡ false }
        requires turns { HasTurns (state self.old).books }
        ensures exact { (state self.old).books.point < n → result ≡ Err (NoPoint (state self.old).books.point) }
        ensures there { n ≤ (state self.old).books.point → IfErr result (λ why. why ≡ WaitFault) }
        ensures durable { OnOk result (n ≤ (state self.new).books.floor) }
        ensures moves { RunsPipeline tells (wait_fails result) (state self.old) (state self.new) }
        ensures frees { SameFreed (state self.old).books (state self.new).books }
        ensures ticks { (state self.new).counts.ticks ≡ (state self.old).counts.ticks }
        ensures still { IsTrue tells → writes_in (state self.new).crash.log ≡ writes_in (state self.old).crash.log }
        ensures waits { IsTrue tells → (state self.old).counts.ticks.manner.waits_alone ≡ true → HearsUpTo n (state self.old) (state self.new) }
        ensures idles { n ≤ (state self.old).books.floor → ChangesNothing tells (state self.old) (state self.new) }
        ensures none { (state self.old).books.point < n → ChangesNothing tells (state self.old) (state self.new) };

    /// The last point that is known to be durable: no crash from now on goes back behind it.
    fn durable(&self) -> u64
        ensures { result ≡ (state self.now).books.floor };

    /// The bookkeeping is sound.
    ghost is_sound: { (s : Self) → IsSound (state s).books };

    /// A crash now leaves an image that holds the map of a point from the floor on, and what is known
    /// agrees with the bookkeeping.
    ghost is_told: { (s : Self) → IsTrue tells → IsTold (state s) };
}
