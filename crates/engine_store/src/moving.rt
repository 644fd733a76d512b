//! Calls that move the pipeline: a step of it, a drain, and a wait for a record. Each keeps the store, and the
//! store stops where the disk failed. When they are called isn't said here.

ghost use Rattle.std.specs.Prelude.{◌≡◌, ◌+◌, ◌^◌, ◌<◌, ◌≤◌, ℕ, Bool, List, Result, false, true, is_err, IsTrue, OnOk};
ghost use Rattle.disk_contract.specs.declared.disk.DiskFault as faults;
ghost use Rattle.disk_contract.specs.Disk.{SameDisk, State, PollsThenWrites, writes_in};
ghost use Rattle.layout_journal.specs.Ring.{RingPlaces};
ghost use Rattle.crash_argument.specs.Ledger.{Ledger};
ghost use Rattle.crash_argument.specs.Points.{MountedSession};
ghost use Rattle.engine_reuse.specs.Dead.{DeadBlocks};
ghost use Rattle.engine_checkpoint.specs.declared.pipeline.Pipeline.{Pipeline};
ghost use Rattle.engine_checkpoint.specs.Advance as pipeline;
ghost use Rattle.engine_checkpoint.specs.Advance.{IsRightOn};
ghost use Rattle.engine_checkpoint.specs.Agree.{durable_count};
ghost use Rattle.engine_checkpoint.specs.Bytes.{LeavesBytes};
ghost use Rattle.engine_checkpoint.specs.Kept.{kept};
ghost use Rattle.engine_checkpoint.specs.Order.{IsInOrder};
ghost use Rattle.engine_checkpoint.specs.Waits.{OnlyNotices};
ghost use Rattle.engine_blocks.specs.Calls.{HasTurns};
ghost use Rattle.engine_blocks.specs.Crashes.{HearsUpTo};
ghost use Rattle.engine_blocks.specs.Effects.{RingIsTold, RunsPipeline};
ghost use Rattle.engine_blocks.specs.Serving.{SameFreed, ServesSure, with_all_served};
ghost use Rattle.engine_store.specs.declared.parts.StoreParts as parts;
ghost use Rattle.engine_store.specs.PipelineCall.{CallsPipeline, settled_up};
ghost use Rattle.engine_store.specs.Store.{PartsMove, bookkeeping_of};
ghost use Rattle.engine_store.specs.Told.{AsksNothing, IsKeptOn, store_state};

use crate::parts::StoreParts;
use crate::{
    a_call_that_stays_safe_advances, a_going_store_stays_so, a_pipeline_that_moves_moves_the_books,
    a_sound_store_has_sound_books,
};
use crash_argument::{
    a_call_begins_safe, a_log_tells_its_records, a_read_gives_what_was_written_last,
};
use disk_contract::{Disk, DiskFault};
use engine_books::{a_release_keeps_the_books, the_map_needs_only_live_blocks};
use engine_checkpoint::the_newest_payloads_are_the_map;
use engine_reuse::a_freed_block_waits;

/// Takes the notices that have come, and makes the steps that are due. It doesn't wait.
pub(crate) fn advance<D: Disk>(disk: &mut D, parts: &mut StoreParts) -> Result<(), DiskFault>
    requires kept { IsKeptOn D.tells parts.old (D.state disk.old) }
    requires going { parts.old.stopped ≡ false }
    requires turns { HasTurns (bookkeeping_of parts.old) }
    ensures kept { IsKeptOn D.tells parts.new (D.state disk.new) }
    ensures runs { (before then : ℕ) → RunsPipeline D.tells (is_err result) (store_state parts.old before (D.state disk.old))
        (store_state parts.new then (D.state disk.new)) }
    ensures waits { (D.state disk.new).waits ≡ (D.state disk.old).waits }
    ensures manner { (D.state disk.new).manner ≡ (D.state disk.old).manner }
    ensures polled { IsTrue D.tells → PollsThenWrites (D.state disk.old).manner 64 (D.state disk.old).polls (D.state disk.old).log
        (D.state disk.new).polls (D.state disk.new).log }
    ensures serves { (before then : ℕ) → IsTrue D.tells → (D.state disk.old).manner.waits_alone ≡ true
        → OnOk result (ServesSure (store_state parts.old before (D.state disk.old)) (store_state parts.new then (D.state disk.new))) }
    ensures ring { (ticks : ℕ) → IsTrue D.tells → (D.state disk.old).manner.waits_alone ≡ true
        → OnOk result (RingIsTold (store_state parts.new ticks (D.state disk.new))) }
{
    a_freed_block_waits();
    a_log_tells_its_records();
    a_sound_store_has_sound_books();
    a_pipeline_call_keeps_the_store();
    let reuse = parts.books.reuse_mut();
    let advanced = parts.pipeline.advance(disk, &mut parts.ring, reuse);
    reuse.lawful();
    settle_up(parts, advanced)
}

/// Waits until each record is released.
pub(crate) fn drain<D: Disk>(disk: &mut D, parts: &mut StoreParts) -> Result<(), DiskFault>
    requires kept { IsKeptOn D.tells parts.old (D.state disk.old) }
    requires going { parts.old.stopped ≡ false }
    requires turns { HasTurns (bookkeeping_of parts.old) }
    ensures kept { IsKeptOn D.tells parts.new (D.state disk.new) }
    ensures runs { (before then : ℕ) → RunsPipeline D.tells (is_err result) (store_state parts.old before (D.state disk.old))
        (store_state parts.new then (D.state disk.new)) }
    ensures moves { PartsMove 4 parts.old parts.new }
    ensures settled { OnOk result ((bookkeeping_of parts.new).waiting ≡ 0) }
    ensures serves { OnOk result (SameFreed (with_all_served (bookkeeping_of parts.old)) (bookkeeping_of parts.new)) }
    ensures places { OnOk result (parts.new.ring.taken ≡ 0) }
    ensures asks { AsksNothing (D.state disk.old) (D.state disk.new) }
{
    a_freed_block_waits();
    a_sound_store_has_sound_books();
    a_pipeline_call_keeps_the_store();
    let reuse = parts.books.reuse_mut();
    let drained = parts.pipeline.drain(disk, &mut parts.ring, reuse);
    reuse.lawful();
    settle_up(parts, drained)
}

/// Waits until point `n` is durable, which was made.
pub(crate) fn wait_for_point<D: Disk>(
    disk: &mut D,
    parts: &mut StoreParts,
    n: u64,
) -> Result<(), DiskFault>
    requires kept { IsKeptOn D.tells parts.old (D.state disk.old) }
    requires going { parts.old.stopped ≡ false }
    requires turns { pipeline.HasTurns parts.old.pipeline }
    requires some { 0 < n }
    requires there { n ≤ parts.old.point }
    ensures kept { IsKeptOn D.tells parts.new (D.state disk.new) }
    ensures runs { (before then : ℕ) → RunsPipeline D.tells (is_err result) (store_state parts.old before (D.state disk.old))
        (store_state parts.new then (D.state disk.new)) }
    ensures moves { PartsMove 4 parts.old parts.new }
    ensures durable { OnOk result (n ≤ parts.new.floor) }
    ensures books { parts.new.books ≡ parts.old.books }
    ensures still { IsTrue D.tells → writes_in (D.state disk.new).log ≡ writes_in (D.state disk.old).log }
    ensures waits { (before then : ℕ) → IsTrue D.tells → (D.state disk.old).manner.waits_alone ≡ true
        → HearsUpTo n (store_state parts.old before (D.state disk.old)) (store_state parts.new then (D.state disk.new)) }
    ensures asks { AsksNothing (D.state disk.old) (D.state disk.new) }
{
    a_pipeline_call_keeps_the_store();
    let upto = parts.first + (n - 1);
    let waited = parts.pipeline.wait_records(disk, upto);
    settle_up(parts, waited)
}

/// The floor is the last point that is known to be durable; where the disk failed, the store stops.
fn settle_up(parts: &mut StoreParts, done: Result<(), DiskFault>) -> Result<(), DiskFault>
    requires order { OnOk done (IsInOrder parts.old.pipeline) }
    requires first { OnOk done (parts.old.first ≤ parts.old.pipeline.header.start + durable_count parts.old.pipeline) }
    requires last { OnOk done (parts.old.pipeline.header.start + durable_count parts.old.pipeline < 2 ^ 64) }
    ensures answer { result ≡ done }
    ensures parts { parts.new ≡ settled_up done parts.old }
{
    match done {
        Ok(()) => {
            parts.floor = parts.pipeline.durable() + 1 - parts.first;
            Ok(())
        }
        Err(fault) => {
            parts.stopped = true;
            Err(fault)
        }
    }
}

/// A call of the pipeline keeps the store where the floor is taken anew behind it, or the store stops. It runs the
/// pipeline as the contract of maps of blocks says it. A call that adds notices alone and keeps the records leaves
/// the bytes of live blocks. The function does nothing.
fn a_pipeline_call_keeps_the_store()
    ensures keeps { (tells : Bool) (headers : ℕ) (result : Result (Unit {0}) faults.DiskFault) (v w : parts.StoreParts) (d e : State) → headers ≤ 4
        → IsKeptOn tells v d → v.stopped ≡ false → CallsPipeline tells headers result v w d e → IsKeptOn tells (settled_up result w) e }
    ensures runs { (tells : Bool) (headers : ℕ) (result : Result (Unit {0}) faults.DiskFault) (v w : parts.StoreParts) (d e : State) (before then : ℕ)
        → headers ≤ 4 → IsKeptOn tells v d → v.stopped ≡ false → CallsPipeline tells headers result v w d e
        → RunsPipeline tells (is_err result) (store_state v before d) (store_state (settled_up result w) then e) }
    ensures noticed { (s : MountedSession) (l : Ledger) (t floor : ℕ) (v w : Pipeline) (ring : RingPlaces) (dead : DeadBlocks) (taken : List ℕ)
        (d e : State) → IsRightOn s d l t floor v ring dead taken → SameDisk d e → OnlyNotices d.log e.log → kept w ≡ kept v → LeavesBytes l v w d e }
{
    a_pipeline_that_moves_moves_the_books();
    a_going_store_stays_so();
    a_call_that_stays_safe_advances();
    a_release_keeps_the_books();
    the_map_needs_only_live_blocks();
    the_newest_payloads_are_the_map();
    a_call_begins_safe();
    a_log_tells_its_records();
    a_read_gives_what_was_written_last();
}
