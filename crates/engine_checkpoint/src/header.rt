//! Headers: the one that was written last becomes the durable one, once its write is noticed, and the next one is
//! written beside it. How records come so far, and when these steps are made, isn't said here.

ghost use Rattle.std.specs.Prelude.{◌≡◌, ◌≤◌, ◌<◌, ◌+◌, ◌-◌, ◌++◌, ◌^◌, ℕ, List, length, take, drop, map, slice_get, true, false, Some, IsTrue};
ghost use Rattle.std.specs.Prelude.{OnOk};
ghost use Rattle.std.specs.VecDeque.{deque_len, deque_capacity};
ghost use Rattle.base_types.specs.Seal.{Blocks};
ghost use Rattle.disk_contract.specs.declared.event.Event.{Event};
ghost use Rattle.layout_journal.specs.Ring.{without_places};
ghost use Rattle.crash_argument.specs.Ledger.{Ledger};
ghost use Rattle.crash_argument.specs.Points.{MountedSession, IsSafe};
ghost use Rattle.engine_running.specs.declared.states.Durable.{Durable};
ghost use Rattle.engine_running.specs.declared.states.Sure.{Sure};
ghost use Rattle.engine_running.specs.declared.states.Placed.{Placed};
ghost use Rattle.engine_running.specs.Writes.{AsksWrites};
ghost use Rattle.engine_checkpoint.specs.Agree.{PipelineAgrees};
ghost use Rattle.engine_checkpoint.specs.Kept.{places_taken, placed_count, total};
ghost use Rattle.engine_checkpoint.specs.Order.{IsInOrder, IsFit, MayWriteNext};
ghost use Rattle.engine_checkpoint.specs.Turns.{TurnsOrStays, AreSured, HeaderMade, HeaderAdds, AddsHeader, is_header_noticed, is_header_due};
ghost use Rattle.engine_checkpoint.specs.Turns.{header_turned, due_header, place_behind_placed};
ghost use Rattle.engine_checkpoint.specs.Advance.{writes_owed};

use crate::{Pending, Pipeline};
use base_types::Block;
use crash_argument::{
    a_durable_header_is_safe, a_header_becomes_durable, a_write_to_an_idle_block_is_the_one,
    known_tickets_may_go, more_may_wait, nothing_is_written_between_records,
    one_write_stays_pending, records_stand_in_order, taken_blocks_stay_dead,
    the_next_header_may_be_written, write_header,
};
use disk_contract::{Disk, DiskFault};
use engine_notes::{expected_tickets_are_noticed_or_open, notes_of_few_tickets_are_few};
use engine_running::{Durable, Placed, Sure};
use layout_journal::{Header, Ring, journal_blocks_keep_to_their_bounds, journal_blocks_read_back};
use std::collections::VecDeque;

/// Lets the pending header become the durable one, where its write is noticed, and answers whether it did. Then
/// the placed records before its start are released, with their ring places, and the durable ones up to its
/// `sure` are sure.
pub(crate) fn turn_header(pipeline: &mut Pipeline, ring: &mut Ring) -> bool
    requires fit { IsFit pipeline.old }
    requires taken { ring.old.taken ≡ places_taken pipeline.old }
    ensures agrees { (s : MountedSession) (base : Blocks) (log : List Event) (l : Ledger) (t floor : ℕ) (waiting : List (ℕ × ℕ)) (taken : List ℕ)
        → IsSafe s base log l t floor → PipelineAgrees base log l pipeline.old ring.old waiting taken
        → IsSafe s base log (header_turned result pipeline.old l) t floor
        × PipelineAgrees base log (header_turned result pipeline.old l) pipeline.new ring.new waiting taken }
    ensures exact { result ≡ is_header_noticed pipeline.old.next pipeline.old.notes.notes }
    ensures turns { TurnsOrStays result pipeline.old pipeline.new ring.old ring.new }
    ensures fit { IsFit pipeline.new }
    ensures taken { ring.new.taken ≡ places_taken pipeline.new }
    ensures owed { writes_owed pipeline.new ≡ writes_owed pipeline.old }
{
    a_header_becomes_durable();
    a_durable_header_is_safe();
    nothing_is_written_between_records();
    one_write_stays_pending();
    taken_blocks_stay_dead();
    known_tickets_may_go();
    more_may_wait();
    notes_of_few_tickets_are_few();
    let Some(pending) = pipeline.next else {
        return false;
    };
    if pipeline.notes.is_open(pending.ticket) {
        return false;
    }
    let header = pending.header;
    let gone = header.start - pipeline.header.start;
    release_placed(&mut pipeline.placed, ring, gone, header.start);
    let grown = header.sure - pipeline.header.sure;
    make_sure(
        &mut pipeline.durable,
        &mut pipeline.sure,
        grown,
        header.sure,
    );
    pipeline.header = header;
    pipeline.slot = other_slot(pipeline.slot);
    pipeline.next = None;
    pipeline.notes.forget(&[pending.ticket]);
    pipeline.notes.lawful();
    true
}

/// Releases so many of the placed records, all before this start, and gives their ring places back.
fn release_placed(placed: &mut VecDeque<Placed>, ring: &mut Ring, count: u64, start: u64)
    requires count { count ≤ length placed.old.items }
    requires before { (k : ℕ) (t : Placed) → slice_get placed.old.items k ≡ Some t → k < count → t.number < start }
    requires taken { total (map placed_count (take count placed.old.items)) ≤ ring.old.taken }
    ensures items { placed.new.items ≡ drop count placed.old.items }
    ensures capacity { deque_capacity placed.new ≡ deque_capacity placed.old }
    ensures ring { ring.new ≡ without_places ring.old (total (map placed_count (take count placed.old.items))) }
{
    for turn in 0..count {
        let first = placed.pop_front().unwrap();
        let released = first.released(start).unwrap();
        ring.release(released.count);
    }
}

/// Makes so many of the durable records sure, all up to this number. There must be room for them.
fn make_sure(durable: &mut VecDeque<Durable>, sure: &mut VecDeque<Sure>, count: u64, upto: u64)
    requires count { count ≤ length durable.old.items }
    requires upto { (k : ℕ) (t : Durable) → slice_get durable.old.items k ≡ Some t → k < count → t.number ≤ upto }
    requires room { deque_len sure.old + count ≤ deque_capacity sure.old }
    ensures sure { (news : List Sure) × (sure.new.items ≡ sure.old.items ++ news) × (length news ≡ count) × AreSured durable.old.items news }
    ensures durable { durable.new.items ≡ drop count durable.old.items }
    ensures capacity { (deque_capacity durable.new ≡ deque_capacity durable.old) × (deque_capacity sure.new ≡ deque_capacity sure.old) }
{
    for turn in 0..count {
        let first = durable.pop_front().unwrap();
        let record = first.sured(upto).unwrap();
        sure.push_back(record).unwrap();
    }
}

/// The header slot beside this one.
fn other_slot(slot: u32) -> u32
    ensures { result ≡ 1 - slot }
{
    if slot == 0 { 1 } else { 0 }
}

/// Writes the next header, where one is due: it releases the placed records and makes the durable ones sure.
///
/// # Errors
/// The write failed, which the disk has counted. What a crash leaves is still one sync point.
pub(crate) fn write_next_header<D: Disk>(
    disk: &mut D,
    pipeline: &mut Pipeline,
    ring: &Ring,
) -> Result<(), DiskFault>
    requires { MayWriteNext (D.state disk.old).blocks pipeline.old }
    ensures agrees { IsTrue D.tells → (s : MountedSession) (l : Ledger) (t floor : ℕ) (waiting : List (ℕ × ℕ)) (taken : List ℕ)
        → IsSafe s (D.state disk.old).base (D.state disk.old).log l t floor
        → PipelineAgrees (D.state disk.old).base (D.state disk.old).log l pipeline.old ring.now waiting taken
        → HeaderMade result s (D.state disk.new) l t floor pipeline.old pipeline.new ring.now waiting taken }
    ensures adds { HeaderAdds (is_header_due pipeline.old) result pipeline.old pipeline.new ring.now }
    ensures log { IsTrue D.tells → AddsHeader (is_header_due pipeline.old) result pipeline.old pipeline.new ring.now (D.state disk.old).log
        (D.state disk.new).log }
    ensures stays { is_header_due pipeline.old ≡ false → disk.new ≡ disk.old }
    ensures asks { AsksWrites D.tells result (D.state disk.old) (D.state disk.new) }
    ensures fit { OnOk result (IsFit pipeline.new) }
    ensures owed { is_header_due pipeline.old ≡ true → writes_owed pipeline.new + 1 ≤ writes_owed pipeline.old }
{
    if !is_header_due(pipeline) {
        return Ok(());
    }
    a_write_to_an_idle_block_is_the_one();
    nothing_is_written_between_records();
    taken_blocks_stay_dead();
    records_stand_in_order();
    the_next_header_may_be_written();
    journal_blocks_keep_to_their_bounds();
    journal_blocks_read_back();
    pipeline.geom.lawful();
    let header = due_header(pipeline, ring);
    pipeline.written = header;
    let mut block: Block = [0; 1024];
    layout_journal::write_header(&header, &mut block);
    let ticket = write_header(disk, other_slot(pipeline.slot), &block)?;
    pipeline.notes.expect(ticket);
    pipeline.next = Some(Pending { header, ticket });
    Ok(())
}

/// Whether a header is due: none is pending, and there is something to make sure or to release.
fn is_header_due(pipeline: &Pipeline) -> bool
    ensures { result ≡ is_header_due pipeline.now }
{
    pipeline.next.is_none() && (0 < pipeline.durable.len() || 0 < pipeline.placed.len())
}

/// The header that is due.
fn due_header(pipeline: &Pipeline, ring: &Ring) -> Header
    requires some { is_header_due pipeline.now ≡ true }
    requires order { IsInOrder pipeline.now }
    requires turn { pipeline.now.header.turn < 2 ^ 64 - 1 }
    requires last { pipeline.now.last < 2 ^ 64 - 1 }
    ensures is { result ≡ due_header pipeline.now ring.now }
    ensures epoch { pipeline.now.header.epoch < 2 ^ 64 }
{
    let start = pipeline.header.start + pipeline.placed.len() as u64;
    let behind = start + pipeline.sure.len() as u64 + pipeline.durable.len() as u64;
    Header {
        epoch: in_eight_bytes(pipeline.header.epoch),
        turn: pipeline.header.turn + 1,
        start,
        sure: behind - 1,
        at: place_behind_placed(pipeline, ring),
        closed: false,
        geom: pipeline.geom,
    }
}

/// The number itself, which fits eight bytes.
fn in_eight_bytes(number: u64) -> u64
    ensures is { result ≡ number }
    ensures fits { number < 2 ^ 64 }
{
    number
}

/// The ring place at which the first record behind the placed ones begins, or the next one will.
fn place_behind_placed(pipeline: &Pipeline, ring: &Ring) -> u32
    ensures { result ≡ place_behind_placed pipeline.now ring.now }
{
    if let Some(first) = pipeline.sure.front() {
        return first.place;
    }
    if let Some(first) = pipeline.durable.front() {
        return first.place;
    }
    if let Some(first) = pipeline.committed.front() {
        return first.place;
    }
    next_place(*ring)
}

/// The place at which the next record will begin, on a copy of the ring.
fn next_place(mut ring: Ring) -> u32
    ensures { result ≡ ring.next }
{
    ring.lawful();
    ring.take(0)
}
