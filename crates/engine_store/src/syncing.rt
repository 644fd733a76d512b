//! Syncs: the running transaction becomes the next record, or all that was committed is waited for. Where the record
//! doesn't fit the free ring places, the pipeline is drained first.

ghost use Rattle.std.specs.Prelude.{◌≡◌, ◌+◌, ◌^◌, ◌<◌, ◌≤◌, ◌++◌, ◌∷◌, [], ℕ, length, Bool, false, true, IsTrue, List, Ok, IfOk, OnOk, is_some};
ghost use Rattle.std.specs.Prelude.{if◌then◌else◌, None};
ghost use Rattle.std.specs.FinMap.{get};
ghost use Rattle.disk_contract.specs.Disk.{GrowsByWrites, State};
ghost use Rattle.crash_argument.specs.HomeTest.{is_one_of};
ghost use Rattle.engine_running.specs.declared.commit.Committed as commit;
ghost use Rattle.engine_running.specs.Rows.{put_of};
ghost use Rattle.engine_checkpoint.specs.Advance as pipeline;
ghost use Rattle.engine_blocks.specs.Calls.{HasTurns, MaySync, OnNoMemory};
ghost use Rattle.engine_blocks.specs.Crashes.{HearsRecords};
ghost use Rattle.engine_blocks.specs.Effects.{ChangesNothing, FitsRing, OrdersAtOnce, Syncs, WritesItsRecord};
ghost use Rattle.engine_books.specs.Kept.{AreKept};
ghost use Rattle.engine_running.specs.Commits.{places_for};
ghost use Rattle.engine_store.specs.Store.{StoreIsSound, bookkeeping_of};
ghost use Rattle.engine_store.specs.Syncing.{Forgets, FreesInRing, IsSameStore, LetsWait, MayCommit, SyncFrees};
ghost use Rattle.engine_store.specs.Told.{IsKeptOn, store_state};

use crate::moving::{drain, wait_for_point};
use crate::parts::StoreParts;
use crate::told::a_store_that_is_kept_is_told;
use crate::{a_call_that_stays_safe_advances, a_sound_store_has_sound_books, commit_books};
use base_types::NoMemory;
use crash_argument::{a_log_tells_its_records, a_read_gives_what_was_written_last};
use disk_contract::{Disk, DiskFault};
use engine_blocks::SyncRefusal;
use engine_books::{
    Books, a_commit_has_what_the_roles_say, a_running_transaction_may_be_the_next_record,
    the_map_has_the_bits, the_map_needs_only_live_blocks,
};
use engine_cache::BlockCache;
use engine_checkpoint::{Pipeline, the_newest_payloads_are_the_map};
use engine_reuse::a_freed_block_waits;
use engine_running::{CommitRoom, Put, places_of};
use std::alloc::Global;

/// Ends the running transaction, if it has a weight, by a sync point.
pub(crate) fn sync<D: Disk>(
    alloc: Global,
    disk: &mut D,
    parts: &mut StoreParts,
) -> Result<u64, SyncRefusal>
    requires kept { IsKeptOn D.tells parts.old (D.state disk.old) }
    requires going { parts.old.stopped ≡ false }
    requires turns { HasTurns (bookkeeping_of parts.old) }
    requires may { MaySync (bookkeeping_of parts.old) }
    ensures kept { IsKeptOn D.tells parts.new (D.state disk.new) }
    ensures syncs { (ticks : ℕ) → Syncs D.tells result (store_state parts.old ticks (D.state disk.old)) (store_state parts.new ticks (D.state disk.new)) }
    ensures order { FitsRing (bookkeeping_of parts.old) → (D.state disk.new).waits ≡ (D.state disk.old).waits }
    ensures writes { IsTrue D.tells → OrdersAtOnce (bookkeeping_of parts.old) → GrowsByWrites (D.state disk.old).log (D.state disk.new).log }
    ensures written { (ticks : ℕ) → IsTrue D.tells
        → OnOk result (WritesItsRecord (store_state parts.old ticks (D.state disk.old)) (store_state parts.new ticks (D.state disk.new))) }
    ensures idle { parts.old.books.weight ≡ 0 → result ≡ Ok parts.old.point }
    ensures idles { (ticks : ℕ) → parts.old.books.weight ≡ 0
        → ChangesNothing D.tells (store_state parts.old ticks (D.state disk.old)) (store_state parts.new ticks (D.state disk.new)) }
    ensures turns { (bookkeeping_of parts.new).turns ≤ (bookkeeping_of parts.old).turns + 5 }
    ensures frees { OnOk result (SyncFrees (bookkeeping_of parts.old) (bookkeeping_of parts.new)) }
{
    a_store_that_is_kept_is_told();
    if parts.books.weight() == 0 {
        return Ok(parts.point);
    }
    match reserve(alloc, parts) {
        Ok(room) => commit_in_ring(alloc, disk, parts, room),
        Err(NoMemory) => Err(SyncRefusal::NoMemory),
    }
}

/// As `sync`, and then waits until the last point is durable. Where it is, it waits for nothing.
pub(crate) fn sync_durably<D: Disk>(
    alloc: Global,
    disk: &mut D,
    parts: &mut StoreParts,
) -> Result<u64, SyncRefusal>
    requires kept { IsKeptOn D.tells parts.old (D.state disk.old) }
    requires going { parts.old.stopped ≡ false }
    requires turns { HasTurns (bookkeeping_of parts.old) }
    requires may { MaySync (bookkeeping_of parts.old) }
    ensures kept { IsKeptOn D.tells parts.new (D.state disk.new) }
    ensures syncs { (ticks : ℕ) → Syncs D.tells result (store_state parts.old ticks (D.state disk.old)) (store_state parts.new ticks (D.state disk.new)) }
    ensures durable { OnOk result (parts.new.floor ≡ parts.new.point) }
    ensures written { (ticks : ℕ) → IsTrue D.tells
        → OnOk result (WritesItsRecord (store_state parts.old ticks (D.state disk.old)) (store_state parts.new ticks (D.state disk.new))) }
    ensures waits { (ticks : ℕ) → IsTrue D.tells → (D.state disk.old).manner.waits_alone ≡ true → OrdersAtOnce (bookkeeping_of parts.old)
        → HearsRecords (store_state parts.old ticks (D.state disk.old)) (store_state parts.new ticks (D.state disk.new)) }
    ensures frees { OnOk result (SyncFrees (bookkeeping_of parts.old) (bookkeeping_of parts.new)) }
    ensures idle { parts.old.books.weight ≡ 0 → OnNoMemory result ⊥ }
    ensures idles { (ticks : ℕ) → parts.old.books.weight ≡ 0 → parts.old.floor ≡ parts.old.point
        → ChangesNothing D.tells (store_state parts.old ticks (D.state disk.old)) (store_state parts.new ticks (D.state disk.new)) }
{
    let point = sync(alloc, disk, parts)?;
    if parts.floor == parts.point {
        return Ok(point);
    }
    let last = parts.point;
    match wait_for_point(disk, parts, last) {
        Ok(()) => Ok(point),
        Err(DiskFault) => Err(SyncRefusal::DiskFault),
    }
}

/// Makes memory ready for the commit of the running transaction.
///
/// # Errors
/// Out of memory; the store is as it was, but for what is ready.
fn reserve(alloc: Global, parts: &mut StoreParts) -> Result<CommitRoom, NoMemory>
    requires sound { StoreIsSound parts.old }
    requires going { parts.old.stopped ≡ false }
    ensures may { 0 < parts.old.books.weight → MaySync (bookkeeping_of parts.old) → IfOk result (MayCommit parts.new) }
    ensures rest { parts.new ≡ record parts.old { pipeline = parts.new.pipeline } }
    ensures keeps { (tells : Bool) (d : State) → IsKeptOn tells parts.old d → IsKeptOn tells parts.new d }
    ensures same { IsSameStore parts.old parts.new }
{
    a_commit_has_what_the_roles_say();
    let (paid, laid) = parts.books.counts();
    let places = places_needed(&parts.books);
    let room = parts.books.room_for_commit(alloc)?;
    parts.pipeline.reserve(laid + places, paid)?;
    Ok(room)
}

/// How many ring places the record of the running transaction takes.
fn places_needed(books: &Books) -> u32
    requires { AreKept books.now }
    ensures places { result ≡ places_for books.now.changes }
    ensures small { length books.now.changes.laid + result < 2 ^ 32 }
{
    a_commit_has_what_the_roles_say();
    a_running_transaction_may_be_the_next_record();
    let (paid, laid) = books.counts();
    places_of(paid, laid)
}

/// Commits the running transaction, and makes a point of it. Where its record doesn't fit the free ring places, it
/// drains the pipeline first.
///
/// # Errors
/// The disk failed: the point counts, whether a crash may leave it or not, and the store stops.
fn commit_in_ring<D: Disk>(
    alloc: Global,
    disk: &mut D,
    parts: &mut StoreParts,
    room: CommitRoom,
) -> Result<u64, SyncRefusal>
    requires kept { IsKeptOn D.tells parts.old (D.state disk.old) }
    requires going { parts.old.stopped ≡ false }
    requires turns { HasTurns (bookkeeping_of parts.old) }
    requires may { MayCommit parts.old room }
    ensures kept { IsKeptOn D.tells parts.new (D.state disk.new) }
    ensures syncs { (ticks : ℕ) → Syncs D.tells result (store_state parts.old ticks (D.state disk.old)) (store_state parts.new ticks (D.state disk.new)) }
    ensures order { FitsRing (bookkeeping_of parts.old) → (D.state disk.new).waits ≡ (D.state disk.old).waits }
    ensures writes { IsTrue D.tells → FitsRing (bookkeeping_of parts.old) → GrowsByWrites (D.state disk.old).log (D.state disk.new).log }
    ensures written { (ticks : ℕ) → IsTrue D.tells
        → OnOk result (WritesItsRecord (store_state parts.old ticks (D.state disk.old)) (store_state parts.new ticks (D.state disk.new))) }
    ensures memory { OnNoMemory result ⊥ }
    ensures turns { (bookkeeping_of parts.new).turns ≤ (bookkeeping_of parts.old).turns + 5 }
    ensures frees { OnOk result (FreesInRing (bookkeeping_of parts.old) (bookkeeping_of parts.new)) }
{
    a_call_that_stays_safe_advances();
    a_commit_has_what_the_roles_say();
    a_sound_store_has_sound_books();
    if places_needed(&parts.books) <= parts.ring.free() {
        return commit(alloc, disk, parts, room);
    }
    match drain(disk, parts) {
        Ok(()) => commit(alloc, disk, parts, room),
        Err(DiskFault) => {
            parts.point += 1;
            Err(SyncRefusal::DiskFault)
        }
    }
}

/// Commits the running transaction, whose record fits the free ring places, and makes a point of it. It waits for
/// nothing.
///
/// # Errors
/// A write failed: the point counts, whether a crash may leave it or not, and the store stops.
fn commit<D: Disk>(
    alloc: Global,
    disk: &mut D,
    parts: &mut StoreParts,
    room: CommitRoom,
) -> Result<u64, SyncRefusal>
    requires kept { IsKeptOn D.tells parts.old (D.state disk.old) }
    requires going { parts.old.stopped ≡ false }
    requires turns { pipeline.HasTurns parts.old.pipeline }
    requires may { MayCommit parts.old room }
    requires free { parts.old.ring.taken + places_for parts.old.books.changes ≤ parts.old.ring.geom.j }
    ensures kept { IsKeptOn D.tells parts.new (D.state disk.new) }
    ensures syncs { (ticks : ℕ) → Syncs D.tells result (store_state parts.old ticks (D.state disk.old)) (store_state parts.new ticks (D.state disk.new)) }
    ensures waits { (D.state disk.new).waits ≡ (D.state disk.old).waits }
    ensures writes { IsTrue D.tells → GrowsByWrites (D.state disk.old).log (D.state disk.new).log }
    ensures written { (ticks : ℕ) → IsTrue D.tells
        → OnOk result (WritesItsRecord (store_state parts.old ticks (D.state disk.old)) (store_state parts.new ticks (D.state disk.new))) }
    ensures memory { OnNoMemory result ⊥ }
    ensures turns { (bookkeeping_of parts.new).turns ≤ (bookkeeping_of parts.old).turns + 1 }
    ensures frees { OnOk result (LetsWait (bookkeeping_of parts.old) (bookkeeping_of parts.new)) }
{
    a_freed_block_waits();
    a_call_that_stays_safe_advances();
    a_commit_has_what_the_roles_say();
    a_log_tells_its_records();
    a_read_gives_what_was_written_last();
    the_map_has_the_bits();
    the_map_needs_only_live_blocks();
    the_newest_payloads_are_the_map();
    let number = parts.first + parts.point;
    let epoch = parts.pipeline.header.epoch;
    let committed = commit_books(
        alloc,
        disk,
        &mut parts.ring,
        &mut parts.pipeline,
        &mut parts.books,
        room,
        epoch,
        number,
    );
    parts.point += 1;
    match committed {
        Ok(()) => {
            forget_last(&parts.pipeline, &mut parts.cache);
            Ok(parts.point)
        }
        Err(DiskFault) => {
            parts.stopped = true;
            Err(SyncRefusal::DiskFault)
        }
    }
}

/// The cache forgets the blocks of the record that was committed last.
fn forget_last(pipeline: &Pipeline, cache: &mut BlockCache)
    ensures { (before : List commit.Committed) (last : commit.Committed) → pipeline.now.committed.items ≡ before ++ last ∷ []
        → Forgets last.payloads.items last.fresh.items cache.old cache.new }
{
    if let Some(committed) = pipeline.committed.back() {
        forget_puts(committed.payloads.as_slice(), cache);
        forget_blocks(committed.fresh.as_slice(), cache);
    }
}

/// The cache forgets the blocks of these puts.
fn forget_puts(puts: &[Put], cache: &mut BlockCache)
    ensures { (b : ℕ) → get cache.new.kept b ≡ (if is_some (put_of b puts.now) then None else get cache.old.kept b) }
{
    for put in puts {
        cache.forget(put.block);
    }
}

/// The cache forgets these blocks.
fn forget_blocks(blocks: &[u32], cache: &mut BlockCache)
    ensures { (b : ℕ) → get cache.new.kept b ≡ (if is_one_of b blocks.now then None else get cache.old.kept b) }
{
    for block in blocks {
        cache.forget(*block);
    }
}
