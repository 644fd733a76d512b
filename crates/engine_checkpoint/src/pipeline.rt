//! What the pipeline knows of the records in the journal and of its own writes, and the steps that need no
//! write: notices are taken, the oldest record becomes durable, a commit joins. Headers and batches are steps
//! of other modules.

ghost use Rattle.std.specs.Prelude.{◌≡◌, ◌≤◌, ◌<◌, ◌+◌, ◌||◌, ℕ, List, length, IsTrue, OnErr, if◌then◌else◌, is_err};
ghost use Rattle.base_types.specs.Seal.{Blocks};
ghost use Rattle.disk_contract.specs.declared.event.Event.{Event};
ghost use Rattle.disk_contract.specs.Disk.{HasFailed, OnlyPolls};
ghost use Rattle.layout_journal.specs.Ring.{RingPlaces};
ghost use Rattle.crash_argument.specs.HomeTest.{is_one_of};
ghost use Rattle.crash_argument.specs.Ledger.{Ledger};
ghost use Rattle.crash_argument.specs.Points.{MountedSession, IsSafe};
ghost use Rattle.crash_argument.specs.Steps.{with_known};
ghost use Rattle.engine_notes.specs.Notes.{is_expected, is_noticed};
ghost use Rattle.engine_checkpoint.specs.Calls.{StaysAgreed};
ghost use Rattle.engine_checkpoint.specs.Agree.{PipelineAgrees};
ghost use Rattle.engine_checkpoint.specs.Joining.{Joins, MayJoin};
ghost use Rattle.engine_checkpoint.specs.Order.{IsFit};
ghost use Rattle.engine_checkpoint.specs.Waits.{HearsMore};
ghost use Rattle.engine_checkpoint.specs.Steps.{TakesNotices, TakesOne, TakesAnswer, TakesKnown, PollsUpTo, SettlesOrStays};
ghost use Rattle.engine_checkpoint.specs.Steps.{is_first_settled, ready_after};

use crate::newest::Newest;
use base_types::limits::MOST_NOTICES;
use crash_argument::{
    known_tickets_may_go, nothing_is_written_between_records, noticed_records_are_known,
    one_write_is_pending, one_write_stays_pending, poll_once, records_become_durable,
    records_stand_in_order, taken_blocks_stay_dead,
};
use disk_contract::{Disk, DiskFault};
use engine_notes::{Notes, expected_tickets_are_noticed_or_open, notes_of_few_tickets_are_few};
use engine_running::{Committed, Durable, Placed, Sure, a_record_keeps_its_puts};
use layout_geometry::Geom;
use layout_journal::Header;
use std::collections::VecDeque;

/// A header that was written and isn't known to be durable.
#[derive(Clone, Copy)]
pub struct Pending {
    pub header: Header,
    pub ticket: u64,
}

/// A checkpoint write of the batch.
#[derive(Clone, Copy)]
pub struct HomeWrite {
    pub block: u32,
    pub ticket: u64,
}

/// What was made ready for the next commit: so many records, writes and payloads more.
#[derive(Clone, Copy)]
pub struct Ready {
    pub records: u32,
    pub writes: u32,
    pub payloads: u32,
}

/// The records that aren't released, each in its state, oldest first; the headers; the batch.
#[derive(Drop)]
pub struct Pipeline {
    pub geom: Geom,
    /// The durable header, and its slot.
    pub header: Header,
    pub(crate) slot: u32,
    pub(crate) next: Option<Pending>,
    /// The header that was written last, also where that write was lost.
    pub written: Header,
    pub notes: Notes,
    pub placed: VecDeque<Placed>,
    pub sure: VecDeque<Sure>,
    pub durable: VecDeque<Durable>,
    pub committed: VecDeque<Committed>,
    /// The number of the last record.
    pub last: u64,
    /// So many of the sure records are the batch, whose checkpoint writes are all issued.
    pub batch: usize,
    pub home: Vec<HomeWrite>,
    /// How many payloads the records have that aren't placed.
    pub(crate) unplaced: u32,
    /// Where the newest payload of each block is that one of these records has.
    pub(crate) newest: Newest,
    /// The same of the batch alone, while it begins. Between calls nothing is looked up here.
    pub(crate) batch_newest: Newest,
    /// Block numbers, while a batch begins or blocks are given back. Between calls nothing is looked up here.
    pub(crate) blocks: Vec<u32>,
    pub ready: Ready,
}

/// Takes the notices that the disk has, 64 at most.
///
/// # Errors
/// A poll failed, which the disk has counted. The notices before it are taken.
pub(crate) fn take_notices<D: Disk>(disk: &mut D, pipeline: &mut Pipeline) -> Result<(), DiskFault>
    ensures agrees { StaysAgreed D.tells (D.state disk.old) (D.state disk.new) pipeline.old pipeline.new }
    ensures takes { IsTrue D.tells → TakesNotices result pipeline.old pipeline.new (D.state disk.old) (D.state disk.new) }
    ensures rest { pipeline.new ≡ record pipeline.old { notes = pipeline.new.notes } }
    ensures hears { HearsMore pipeline.old.notes pipeline.new.notes }
    ensures spends { PollsUpTo (is_err result) 64 (D.state disk.old) (D.state disk.new) }
    ensures polled { IsTrue D.tells → TakesKnown result (D.state disk.old) (D.state disk.new) }
    ensures cause { IsTrue D.tells → OnErr result (HasFailed (D.state disk.new)) }
{
    for turn in 0..MOST_NOTICES {
        if !take_notice(disk, pipeline)? {
            return Ok(());
        }
    }
    Ok(())
}

/// Takes one notice, and answers whether there was one.
fn take_notice<D: Disk>(disk: &mut D, pipeline: &mut Pipeline) -> Result<bool, DiskFault>
    ensures agrees { StaysAgreed D.tells (D.state disk.old) (D.state disk.new) pipeline.old pipeline.new }
    ensures takes { IsTrue D.tells → TakesOne result pipeline.old pipeline.new (D.state disk.old).log (D.state disk.new).log }
    ensures rest { pipeline.new ≡ record pipeline.old { notes = pipeline.new.notes } }
    ensures hears { HearsMore pipeline.old.notes pipeline.new.notes }
    ensures spends { OnlyPolls (is_err result) (D.state disk.old) (D.state disk.new) }
    ensures answer { IsTrue D.tells → TakesAnswer ((D.state disk.old).manner.notice (D.state disk.old).polls (D.state disk.old).log) result
        (D.state disk.old).log (D.state disk.new).log }
    ensures cause { IsTrue D.tells → OnErr result (HasFailed (D.state disk.new)) }
{
    nothing_is_written_between_records();
    one_write_is_pending();
    taken_blocks_stay_dead();
    match poll_once(disk)? {
        Some(ticket) => {
            pipeline.notes.noticed(ticket);
            Ok(true)
        }
        None => Ok(false),
    }
}

/// Lets the oldest committed transaction become durable, where none of its tickets is open, and answers
/// whether it did. Then the notes drop these tickets.
pub(crate) fn settle_first(pipeline: &mut Pipeline) -> bool
    requires { IsFit pipeline.old }
    ensures agrees { (s : MountedSession) (base : Blocks) (log : List Event) (l : Ledger) (t floor : ℕ) (ring : RingPlaces) (waiting : List (ℕ × ℕ))
        (taken : List ℕ) → IsSafe s base log l t floor → PipelineAgrees base log l pipeline.old ring waiting taken
        → IsSafe s base log (if result then with_known l (l.known + 1) else l) t floor
        × PipelineAgrees base log (if result then with_known l (l.known + 1) else l) pipeline.new ring waiting taken }
    ensures exact { result ≡ is_first_settled pipeline.old.committed.items pipeline.old.notes.notes }
    ensures settles { SettlesOrStays result pipeline.old pipeline.new }
    ensures fit { IsFit pipeline.new }
{
    records_become_durable();
    noticed_records_are_known();
    known_tickets_may_go();
    one_write_stays_pending();
    records_stand_in_order();
    taken_blocks_stay_dead();
    expected_tickets_are_noticed_or_open();
    notes_of_few_tickets_are_few();
    pipeline.notes.lawful();
    if pipeline.committed.is_empty() {
        return false;
    }
    if !pipeline
        .notes
        .none_open(pipeline.committed[0].tickets.as_slice())
    {
        return false;
    }
    let first = pipeline.committed.pop_front().unwrap();
    let durable = first.settled_for_good(&mut pipeline.notes).unwrap();
    pipeline.notes.lawful();
    pipeline.durable.push_back(durable).unwrap();
    true
}

/// Takes a transaction that was committed as the next record. What was made ready must be enough for it.
pub(crate) fn accept(pipeline: &mut Pipeline, committed: Committed)
    requires { MayJoin committed pipeline.old }
    ensures { Joins committed pipeline.old pipeline.new }
{
    records_stand_in_order();
    a_record_keeps_its_puts();
    expect_all(&mut pipeline.notes, committed.tickets.as_slice());
    pipeline.newest.add(
        committed.number,
        committed.payloads.as_slice(),
        committed.fresh.as_slice(),
        committed.freed.as_slice(),
    );
    pipeline.last = committed.number;
    pipeline.unplaced += payload_count(&committed);
    pipeline.ready = ready_after(&committed, &pipeline.ready);
    pipeline.committed.push_back(committed).unwrap();
}

/// How many payloads the record has.
fn payload_count(committed: &Committed) -> u32
    requires { length committed.now.payloads.items ≤ 4294967295 }
    ensures { result ≡ length committed.now.payloads.items }
{
    committed.payloads.len() as u32
}

/// What is ready still once the record has taken its part.
fn ready_after(committed: &Committed, ready: &Ready) -> Ready
    requires one { 0 < ready.now.records }
    requires writes { length committed.now.tickets.items ≤ ready.now.writes }
    requires payloads { length committed.now.payloads.items ≤ ready.now.payloads }
    ensures { result ≡ ready_after committed.now ready.now }
{
    let Ready {
        records,
        writes,
        payloads,
    } = *ready;
    Ready {
        records: records - 1,
        writes: writes - committed.tickets.len() as u32,
        payloads: payloads - payload_count(committed),
    }
}

/// Expects all these tickets. There must be room for them.
fn expect_all(notes: &mut Notes, tickets: &[u64])
    requires room { length tickets.now ≤ notes.old.room }
    ensures expected { (u : ℕ) → is_expected u notes.new.notes ≡ (is_one_of u tickets.now || is_expected u notes.old.notes) }
    ensures noticed { (u : ℕ) → is_noticed u notes.new.notes ≡ is_noticed u notes.old.notes }
    ensures left { notes.old.room ≤ notes.new.room + length tickets.now }
{
    for ticket in tickets {
        notes.expect(*ticket);
    }
}
