//! The batch: sure records whose newest payloads are brought to their blocks. How one block is written there, and
//! where the newest payload of a block is, are matters of other modules.

ghost use Rattle.std.specs.Prelude.{◌≡◌, ◌≤◌, ◌<◌, ◌+◌, ◌++◌, ◌&&◌, ◌||◌, ℕ, List, [], length, map, take, drop, slice_get, Some, None, IsSome, true};
ghost use Rattle.std.specs.Prelude.{IsTrue, OnOk, OnErr, is_err, if◌then◌else◌, vec_capacity};
ghost use Rattle.std.specs.VecDeque.{deque_len, deque_capacity};
ghost use Rattle.base_types.specs.Seal.{Blocks};
ghost use Rattle.disk_contract.specs.declared.event.Event.{Event};
ghost use Rattle.disk_contract.specs.Disk.{HasFailed, OnlyWrites, writes_in};
ghost use Rattle.layout_journal.specs.Ring.{RingPlaces};
ghost use Rattle.crash_argument.specs.HomeTest.{is_one_of};
ghost use Rattle.crash_argument.specs.Ledger.{Ledger};
ghost use Rattle.crash_argument.specs.PipelineData.{PipelineData};
ghost use Rattle.crash_argument.specs.Points.{MountedSession, IsSafe};
ghost use Rattle.crash_argument.specs.Writes.{AddsAll};
ghost use Rattle.engine_notes.specs.Notes.{none_open, is_expected, is_noticed};
ghost use Rattle.engine_running.specs.declared.put.Put.{Put};
ghost use Rattle.engine_running.specs.Record.{block_of};
ghost use Rattle.engine_running.specs.Rows.{put_of};
ghost use Rattle.engine_running.specs.States.{Forgets};
ghost use Rattle.engine_running.specs.Writes.{fresh_write, AsksWrites};
ghost use Rattle.engine_checkpoint.specs.Advance.{writes_owed};
ghost use Rattle.engine_checkpoint.specs.Agree.{PipelineAgrees, NotesAreTrue, home_pair, home_ticket};
ghost use Rattle.engine_checkpoint.specs.Batch.{placed_of, have_payload, home_block, IsHomeRow, AreInRow, AreAt};
ghost use Rattle.engine_checkpoint.specs.HomeState.{HomeState, home_of, with_homes};
ghost use Rattle.engine_checkpoint.specs.Index.{IndexIsRight};
ghost use Rattle.engine_checkpoint.specs.Kept.{of_sure, payloads_in, newest_in};
ghost use Rattle.engine_checkpoint.specs.Newest.{spot_of, spot_count, spot_room, is_upto, IsSpotList};
ghost use Rattle.engine_checkpoint.specs.Order.{IsFit, MayWriteOn};
ghost use Rattle.engine_checkpoint.specs.Turns.{EndsOrStays, BatchAdds, AddsBatch, AreOpenHome, is_batch_noticed, is_batch_due};

use crate::home::write_home;
use crate::{HomeWrite, Newest, Pipeline};
use base_types::Block;
use crash_argument::{
    a_batch_comes_home, a_batch_goes_home, counts_tell_the_batch, fewer_may_be_sent,
    one_write_stays_pending, the_home_test_is_exact, writes_join_a_log_one_by_one,
};
use disk_contract::{Disk, DiskFault};
use engine_notes::{Notes, notes_of_few_tickets_are_few};
use engine_running::{Placed, Sure, a_record_makes_so_many_writes, noticed_tickets_stay_so};
use std::collections::VecDeque;

/// Lets the batch be placed, where there is one and none of its checkpoint writes is open, and answers whether it
/// did. Then the notes drop their tickets.
pub(crate) fn end_batch(pipeline: &mut Pipeline) -> bool
    requires { IsFit pipeline.old }
    ensures agrees { (s : MountedSession) (base : Blocks) (log : List Event) (l : Ledger) (t floor : ℕ) (ring : RingPlaces) (waiting : List (ℕ × ℕ))
        (taken : List ℕ) → IsSafe s base log l t floor → PipelineAgrees base log l pipeline.old ring waiting taken
        → PipelineAgrees base log l pipeline.new ring waiting taken }
    ensures exact { result ≡ is_batch_noticed pipeline.old }
    ensures ends { EndsOrStays result pipeline.old pipeline.new }
    ensures index { IndexIsRight pipeline.old → IndexIsRight pipeline.new }
    ensures fit { IsFit pipeline.new }
    ensures owed { writes_owed pipeline.new ≡ writes_owed pipeline.old }
{
    a_batch_comes_home();
    fewer_may_be_sent();
    one_write_stays_pending();
    notes_of_few_tickets_are_few();
    if pipeline.batch == 0 {
        return false;
    }
    if !no_write_is_open(&pipeline.notes, pipeline.home.as_slice()) {
        return false;
    }
    let last = pipeline.sure[pipeline.batch - 1].number;
    pipeline.unplaced = place_first(
        pipeline.batch,
        last,
        pipeline.unplaced,
        &mut pipeline.sure,
        &mut pipeline.placed,
        &mut pipeline.newest,
    );
    pipeline.batch = 0;
    forget_all(&mut pipeline.notes, pipeline.home.as_slice());
    pipeline.notes.lawful();
    pipeline.home.clear();
    true
}

/// Lets the sure records be the next batch, where none is under way and some record is sure: each block whose newest
/// payload they have is written there, ascending.
///
/// # Errors
/// A write failed, which the disk has counted. What a crash leaves is still one sync point.
pub(crate) fn begin_batch<D: Disk>(disk: &mut D, pipeline: &mut Pipeline) -> Result<(), DiskFault>
    requires { MayWriteOn (D.state disk.old).blocks pipeline.old }
    ensures agrees { IsTrue D.tells → (s : MountedSession) (l : Ledger) (t floor : ℕ) (ring : RingPlaces) (waiting : List (ℕ × ℕ)) (taken : List ℕ)
        → IsSafe s (D.state disk.old).base (D.state disk.old).log l t floor
        → PipelineAgrees (D.state disk.old).base (D.state disk.old).log l pipeline.old ring waiting taken
        → IsSafe s (D.state disk.new).base (D.state disk.new).log l t floor
        × OnOk result (PipelineAgrees (D.state disk.new).base (D.state disk.new).log l pipeline.new ring waiting taken) }
    ensures begins { BatchAdds (is_batch_due pipeline.old) result pipeline.old pipeline.new }
    ensures open { IsTrue D.tells → is_batch_due pipeline.old ≡ true → NotesAreTrue (D.state disk.old).log pipeline.old.notes.notes
        → OnOk result (AreOpenHome pipeline.new.home.items pipeline.new.notes.notes) }
    ensures log { IsTrue D.tells → AddsBatch (is_batch_due pipeline.old) result pipeline.old pipeline.new (D.state disk.old).log (D.state disk.new).log }
    ensures asks { AsksWrites D.tells result (D.state disk.old) (D.state disk.new) }
    ensures fit { IsFit pipeline.new }
    ensures owed { IsTrue D.tells → writes_in (D.state disk.new).log + writes_owed pipeline.new ≤ writes_in (D.state disk.old).log + writes_owed pipeline.old }
{
    a_batch_goes_home();
    one_write_stays_pending();
    noticed_tickets_stay_so();
    a_record_makes_so_many_writes();
    if pipeline.batch > 0 {
        return Ok(());
    }
    if pipeline.sure.is_empty() {
        return Ok(());
    }
    is_small(pipeline.unplaced);
    pipeline.batch = pipeline.sure.len();
    find_newest(&pipeline.sure, &mut pipeline.batch_newest);
    pipeline.batch_newest.blocks(&mut pipeline.blocks);
    write_batch(
        disk,
        &pipeline.sure,
        &pipeline.batch_newest,
        pipeline.blocks.as_slice(),
        &mut pipeline.notes,
        &mut pipeline.home,
    )
}

/// Does nothing. A proof learns from the call that the number fits its type.
fn is_small(number: u32)
    ensures { number ≤ 4294967295 }
{}

/// Finds the newest payloads of these records, in place of what there was. There must be room for their payloads.
fn find_newest(records: &VecDeque<Sure>, newest: &mut Newest)
    requires room { payloads_in (map of_sure records.now.items) ≤ spot_room newest.old }
    requires small { payloads_in (map of_sure records.now.items) ≤ 4294967295 }
    ensures at { AreAt (map of_sure records.now.items) newest.new }
    ensures count { spot_count newest.new ≤ payloads_in (map of_sure records.now.items) }
    ensures spare { spot_room newest.old ≤ spot_room newest.new + payloads_in (map of_sure records.now.items) }
{
    newest.clear();
    for at in 0..records.len() {
        let sure = &records[at];
        newest.add(
            sure.number,
            sure.payloads.as_slice(),
            sure.fresh.as_slice(),
            sure.freed.as_slice(),
        );
    }
}

/// The bytes of the block's newest payload in these records.
fn newest_bytes<'a>(records: &'a VecDeque<Sure>, newest: &Newest, block: u32) -> &'a Block
    requires row { AreInRow records.now.items }
    requires at { AreAt (map of_sure records.now.items) newest.now }
    requires has { IsSome (spot_of newest.now block) }
    ensures { newest_in None (map of_sure records.now.items) block ≡ Some result.now }
{
    let spot = newest.get(block).unwrap();
    let sure = &records[(spot.number - records[0].number) as usize];
    sure.payloads[spot.at as usize].bytes.bytes()
}

/// Writes the newest payloads of these records to their blocks, ascending, expects their tickets, and lists the
/// writes in place of what the list had. There must be room for them.
///
/// # Errors
/// A write failed, which the disk has counted. What a crash leaves is still one sync point.
fn write_batch<D: Disk>(
    disk: &mut D,
    records: &VecDeque<Sure>,
    newest: &Newest,
    blocks: &[u32],
    notes: &mut Notes,
    home: &mut Vec<HomeWrite>,
) -> Result<(), DiskFault>
    requires row { AreInRow records.now.items }
    requires at { AreAt (map of_sure records.now.items) newest.now }
    requires blocks { IsSpotList newest.now blocks.now }
    requires below { (k b : ℕ) → slice_get blocks.now k ≡ Some b → b < (D.state disk.old).blocks }
    requires room { length blocks.now ≤ vec_capacity home.old }
    requires tickets { length blocks.now ≤ notes.old.room }
    ensures home { IsTrue D.tells → (row : List Put) → IsHomeRow (map of_sure records.now.items) row → map block_of row ≡ blocks.now
        → (s : MountedSession) (l : Ledger) (p : PipelineData) (freed : List (List ℕ)) (taken : List ℕ) (t floor : ℕ)
        → IsSafe s (D.state disk.old).base (D.state disk.old).log l t floor → HomeState (D.state disk.old).base (D.state disk.old).log l p freed taken
        → p.sent ≡ 0 → p.home ≡ [] → ((b : ℕ) → home_of l p freed b ≡ put_of b row)
        → IsSafe s (D.state disk.new).base (D.state disk.new).log l t floor
        × OnOk result (HomeState (D.state disk.new).base (D.state disk.new).log l
        (with_homes p (map home_pair home.new.items) (D.state disk.old).blocks) freed taken) }
    ensures log { IsTrue D.tells → (row : List Put) → IsHomeRow (map of_sure records.now.items) row → map block_of row ≡ blocks.now
        → AddsAll (map fresh_write row) result [] (map home_ticket home.new.items) (D.state disk.old).log (D.state disk.new).log }
    ensures spends { OnlyWrites (is_err result) (D.state disk.old) (D.state disk.new) }
    ensures cause { IsTrue D.tells → OnErr result (HasFailed (D.state disk.new)) }
    ensures listed { OnOk result (map home_block home.new.items ≡ blocks.now) }
    ensures few { length home.new.items ≤ length blocks.now }
    ensures home_room { vec_capacity home.old ≤ vec_capacity home.new }
    ensures expected { (u : ℕ) → is_expected u notes.new.notes ≡ (is_one_of u (map home_ticket home.new.items) || is_expected u notes.old.notes) }
    ensures noticed { (u : ℕ) → is_noticed u notes.new.notes ≡ is_noticed u notes.old.notes }
    ensures notes_room { notes.old.room ≤ notes.new.room + length blocks.now }
{
    the_home_test_is_exact();
    counts_tell_the_batch();
    a_batch_goes_home();
    one_write_stays_pending();
    writes_join_a_log_one_by_one();
    home.clear();
    for block in blocks {
        let bytes = newest_bytes(records, newest, *block);
        let ticket = write_home(disk, *block, bytes)?;
        notes.expect(ticket);
        home.push(HomeWrite {
            block: *block,
            ticket,
        })
        .unwrap();
    }
    Ok(())
}

/// Whether none of these checkpoint writes is open.
fn no_write_is_open(notes: &Notes, home: &[HomeWrite]) -> bool
    ensures { result ≡ none_open (map home_ticket home.now) notes.now.notes }
{
    for write in home {
        if notes.is_open(write.ticket) {
            return false;
        }
    }
    true
}

/// Drops the tickets of these checkpoint writes.
fn forget_all(notes: &mut Notes, home: &[HomeWrite])
    ensures { Forgets (map home_ticket home.now) notes.old notes.new }
{
    for write in home {
        notes.forget([write.ticket].as_slice());
    }
}

/// Places the first records, so many of them: of their payloads none up to record `last` is a newest one any more.
/// Answers how many of the unplaced payloads are left then.
fn place_first(
    count: usize,
    last: u64,
    unplaced: u32,
    records: &mut VecDeque<Sure>,
    placed: &mut VecDeque<Placed>,
    newest: &mut Newest,
) -> u32
    requires count { count ≤ length records.old.items }
    requires room { deque_len placed.old + count ≤ deque_capacity placed.old }
    requires few { payloads_in (map of_sure (take count records.old.items)) ≤ unplaced }
    ensures left { result + payloads_in (map of_sure (take count records.old.items)) ≡ unplaced }
    ensures rest { records.new.items ≡ drop count records.old.items }
    ensures rest_room { deque_capacity records.old ≤ deque_capacity records.new }
    ensures placed { placed.new.items ≡ placed.old.items ++ map placed_of (take count records.old.items) }
    ensures placed_room { deque_capacity placed.old ≤ deque_capacity placed.new }
    ensures newest { (b : ℕ) → spot_of newest.new
        b ≡ (if have_payload b (map of_sure (take count records.old.items)) && is_upto last (spot_of newest.old b) then None else spot_of newest.old
        b) }
    ensures spare { spot_room newest.old ≤ spot_room newest.new }
{
    let mut left = unplaced;
    for turn in 0..count {
        let sure = records.pop_front().unwrap();
        let own = sure.payloads.as_slice();
        newest.drop_upto(last, own);
        left -= own.len() as u32;
        placed.push_back(as_placed(sure)).unwrap();
    }
    left
}

/// The placed state of a record of the batch, of whose checkpoint writes none is open.
fn as_placed(sure: Sure) -> Placed
    ensures { result ≡ placed_of sure }
{
    Placed {
        number: sure.number,
        place: sure.place,
        count: sure.count,
    }
}
