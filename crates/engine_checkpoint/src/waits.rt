//! Waits for tickets: for all that are open, and for those of the records up to one. Which step comes then isn't
//! said here.

ghost use Rattle.std.specs.Prelude.{◌≡◌, ◌<◌, length, slice_get, Some, true, false, IsTrue, OnOk, OnErr, is_err};
ghost use Rattle.disk_contract.specs.Disk.{HasFailed};
ghost use Rattle.crash_argument.specs.HomeTest.{is_one_of};
ghost use Rattle.engine_notes.specs.Notes.{is_noticed, is_open, none_open};
ghost use Rattle.engine_notes.specs.declared.notes.Note.{Note};
ghost use Rattle.engine_running.specs.declared.commit.Committed.{Committed};
ghost use Rattle.engine_checkpoint.specs.Calls.{StaysAgreed};
ghost use Rattle.engine_checkpoint.specs.Agree.{NotesAreGiven};
ghost use Rattle.engine_checkpoint.specs.Order.{IsInOrder};
ghost use Rattle.engine_checkpoint.specs.Waits.{AreAllNoticed, HearsMore, HearsOnly, IsOfRecord, AreWaitedFor, OnlyNotices, WaitsSome};

use crate::Pipeline;
use crash_argument::{
    nothing_is_written_between_records, one_write_is_pending, taken_blocks_stay_dead, wait_for,
};
use disk_contract::{Disk, DiskFault};

/// Waits for each ticket that is open, ascending.
///
/// # Errors
/// A wait failed, which the disk has counted. The tickets before it are noticed.
pub(crate) fn wait_for_all<D: Disk>(disk: &mut D, pipeline: &mut Pipeline) -> Result<(), DiskFault>
    ensures agrees { StaysAgreed D.tells (D.state disk.old) (D.state disk.new) pipeline.old pipeline.new }
    ensures noticed { OnOk result (AreAllNoticed pipeline.new.notes.notes) }
    ensures hears { HearsMore pipeline.old.notes pipeline.new.notes }
    ensures rest { pipeline.new ≡ record pipeline.old { notes = pipeline.new.notes } }
    ensures log { IsTrue D.tells → OnlyNotices (D.state disk.old).log (D.state disk.new).log }
    ensures spends { WaitsSome (is_err result) (D.state disk.old) (D.state disk.new) }
    ensures cause { IsTrue D.tells → NotesAreGiven (D.state disk.old).log pipeline.old.notes.notes → OnErr result (HasFailed (D.state disk.new)) }
    ensures only { IsTrue D.tells → (D.state disk.old).manner.waits_alone ≡ true
        → HearsOnly (λ u. is_open u pipeline.old.notes.notes ≡ true) result (D.state disk.old).log (D.state disk.new).log pipeline.new.notes.notes }
{
    for at in 0..pipeline.notes.len() {
        wait_for_note(disk, pipeline, at)?;
    }
    Ok(())
}

/// Waits for the ticket of the note at this place, where it is open.
fn wait_for_note<D: Disk>(disk: &mut D, pipeline: &mut Pipeline, at: usize) -> Result<(), DiskFault>
    ensures agrees { StaysAgreed D.tells (D.state disk.old) (D.state disk.new) pipeline.old pipeline.new }
    ensures noticed { OnOk result ((n : Note) → slice_get pipeline.old.notes.notes at ≡ Some n → is_noticed n.ticket pipeline.new.notes.notes ≡ true) }
    ensures hears { HearsMore pipeline.old.notes pipeline.new.notes }
    ensures rest { pipeline.new ≡ record pipeline.old { notes = pipeline.new.notes } }
    ensures log { IsTrue D.tells → OnlyNotices (D.state disk.old).log (D.state disk.new).log }
    ensures spends { WaitsSome (is_err result) (D.state disk.old) (D.state disk.new) }
    ensures cause { IsTrue D.tells → NotesAreGiven (D.state disk.old).log pipeline.old.notes.notes → OnErr result (HasFailed (D.state disk.new)) }
    ensures only { IsTrue D.tells → (D.state disk.old).manner.waits_alone ≡ true
        → HearsOnly (λ u. is_open u pipeline.old.notes.notes ≡ true) result (D.state disk.old).log (D.state disk.new).log pipeline.new.notes.notes }
{
    match pipeline.notes.get(at) {
        Some(note) => wait_where_open(disk, pipeline, note.ticket),
        None => Ok(()),
    }
}

/// Waits for each open ticket of the committed records up to this number, oldest first.
///
/// # Errors
/// A wait failed, which the disk has counted. The tickets before it are noticed.
pub(crate) fn wait_upto<D: Disk>(
    disk: &mut D,
    pipeline: &mut Pipeline,
    upto: u64,
) -> Result<(), DiskFault>
    requires order { IsInOrder pipeline.old }
    ensures agrees { StaysAgreed D.tells (D.state disk.old) (D.state disk.new) pipeline.old pipeline.new }
    ensures noticed { OnOk result (AreWaitedFor upto pipeline.new) }
    ensures hears { HearsMore pipeline.old.notes pipeline.new.notes }
    ensures rest { pipeline.new ≡ record pipeline.old { notes = pipeline.new.notes } }
    ensures log { IsTrue D.tells → OnlyNotices (D.state disk.old).log (D.state disk.new).log }
    ensures spends { WaitsSome (is_err result) (D.state disk.old) (D.state disk.new) }
    ensures cause { IsTrue D.tells → NotesAreGiven (D.state disk.old).log pipeline.old.notes.notes → OnErr result (HasFailed (D.state disk.new)) }
    ensures only { IsTrue D.tells → (D.state disk.old).manner.waits_alone ≡ true
        → HearsOnly (IsOfRecord pipeline.old upto) result (D.state disk.old).log (D.state disk.new).log pipeline.new.notes.notes }
{
    for at in 0..pipeline.committed.len() {
        if upto < pipeline.committed[at].number {
            return Ok(());
        }
        wait_for_record(disk, pipeline, at)?;
    }
    Ok(())
}

/// Waits for each open ticket of the committed record at this place.
fn wait_for_record<D: Disk>(
    disk: &mut D,
    pipeline: &mut Pipeline,
    at: usize,
) -> Result<(), DiskFault>
    requires { at < length pipeline.old.committed.items }
    ensures agrees { StaysAgreed D.tells (D.state disk.old) (D.state disk.new) pipeline.old pipeline.new }
    ensures noticed { OnOk result ((c : Committed) → slice_get pipeline.old.committed.items at ≡ Some c
        → none_open c.tickets.items pipeline.new.notes.notes ≡ true) }
    ensures hears { HearsMore pipeline.old.notes pipeline.new.notes }
    ensures rest { pipeline.new ≡ record pipeline.old { notes = pipeline.new.notes } }
    ensures log { IsTrue D.tells → OnlyNotices (D.state disk.old).log (D.state disk.new).log }
    ensures spends { WaitsSome (is_err result) (D.state disk.old) (D.state disk.new) }
    ensures cause { IsTrue D.tells → NotesAreGiven (D.state disk.old).log pipeline.old.notes.notes → OnErr result (HasFailed (D.state disk.new)) }
    ensures only { IsTrue D.tells → (D.state disk.old).manner.waits_alone ≡ true
        → HearsOnly (λ u. (c : Committed) × (slice_get pipeline.old.committed.items at ≡ Some c)
        × (is_one_of u c.tickets.items ≡ true)) result (D.state disk.old).log (D.state disk.new).log pipeline.new.notes.notes }
{
    for k in 0..pipeline.committed[at].tickets.len() {
        let ticket = pipeline.committed[at].tickets[k];
        wait_where_open(disk, pipeline, ticket)?;
    }
    Ok(())
}

/// Waits for the ticket, where it is open.
fn wait_where_open<D: Disk>(
    disk: &mut D,
    pipeline: &mut Pipeline,
    ticket: u64,
) -> Result<(), DiskFault>
    ensures agrees { StaysAgreed D.tells (D.state disk.old) (D.state disk.new) pipeline.old pipeline.new }
    ensures closed { OnOk result (is_open ticket pipeline.new.notes.notes ≡ false) }
    ensures hears { HearsMore pipeline.old.notes pipeline.new.notes }
    ensures rest { pipeline.new ≡ record pipeline.old { notes = pipeline.new.notes } }
    ensures log { IsTrue D.tells → OnlyNotices (D.state disk.old).log (D.state disk.new).log }
    ensures spends { WaitsSome (is_err result) (D.state disk.old) (D.state disk.new) }
    ensures cause { IsTrue D.tells → NotesAreGiven (D.state disk.old).log pipeline.old.notes.notes → OnErr result (HasFailed (D.state disk.new)) }
    ensures only { IsTrue D.tells → (D.state disk.old).manner.waits_alone ≡ true
        → HearsOnly (λ u. (u ≡ ticket) × (is_open ticket pipeline.old.notes.notes ≡ true)) result (D.state disk.old).log (D.state disk.new).log
        pipeline.new.notes.notes }
{
    nothing_is_written_between_records();
    one_write_is_pending();
    taken_blocks_stay_dead();
    if !pipeline.notes.is_open(ticket) {
        return Ok(());
    }
    wait_for(disk, ticket)?;
    pipeline.notes.noticed(ticket);
    Ok(())
}
