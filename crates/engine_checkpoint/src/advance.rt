//! The pipeline's whole step, in its order, and the calls made of it: the step after the notices that have come, and
//! the rounds of waits that bring every record to its end. What a single step does is the other modules' matter.

ghost use Rattle.std.specs.Prelude.{◌≡◌, ◌⊎◌, ◌≤◌, ◌<◌, ◌+◌, ◌++◌, ◌∷◌, [], true, ℕ, List, length, false, vec_len, vec_capacity, IsTrue, OnOk};
ghost use Rattle.std.specs.Prelude.{OnErr, is_err};
ghost use Rattle.base_types.specs.Seal.{Blocks};
ghost use Rattle.disk_contract.specs.declared.event.Event.{Event};
ghost use Rattle.disk_contract.specs.Cell.{IsNoticed};
ghost use Rattle.disk_contract.specs.Disk.{State, HasFailed, GrowsByWrites, OnlyWrites, PollsThenWrites};
ghost use Rattle.layout_journal.specs.Ring.{RingPlaces};
ghost use Rattle.crash_argument.specs.Ledger.{Ledger};
ghost use Rattle.crash_argument.specs.Points.{MountedSession, IsSafe};
ghost use Rattle.engine_checkpoint.specs.Adds.{LosesFront};
ghost use Rattle.engine_checkpoint.specs.Agree.{NotesAreGiven, PipelineAgrees, durable_count};
ghost use Rattle.engine_checkpoint.specs.Calls.{GoesOn, MayMove, OnlyHears};
ghost use Rattle.engine_checkpoint.specs.Bytes.{LeavesBytes};
ghost use Rattle.engine_checkpoint.specs.Kept.{kept};
ghost use Rattle.engine_checkpoint.specs.Order.{IsFit};
ghost use Rattle.engine_checkpoint.specs.Serving.{ServesKnown};
ghost use Rattle.engine_checkpoint.specs.Steps.{is_first_settled, SettlesSome};
ghost use Rattle.engine_checkpoint.specs.Stages.{IsAtStage};
ghost use Rattle.engine_checkpoint.specs.Waits.{AreAllNoticed, IsOfRecord, WaitsSome};
ghost use Rattle.engine_checkpoint.specs.Advance.{AgreesOn, IsRight, IsRightOn, StaysRight, IsSound, LeavesTurns, WhereRight};
ghost use Rattle.engine_checkpoint.specs.Advance.{NothingIsDue, IsDrained, AdvanceSpends, GoesForward, writes_owed};
ghost use Rattle.engine_checkpoint.specs.Turns.{with_served, going_home};

use crate::batch::{begin_batch, end_batch};
use crate::header::{turn_header, write_next_header};
use crate::pipeline::{settle_first, take_notices};
use crate::waits::{wait_for_all, wait_upto};
use crate::{HomeWrite, Pipeline, the_newest_payloads_are_the_map};
use crash_argument::{
    a_batch_goes_home, a_read_gives_what_was_written_last, calls_add_at_most_one_write,
    counts_tell_the_batch, fewer_may_wait, records_stand_in_order, the_home_test_is_exact,
};
use disk_contract::{Disk, DiskFault};
use engine_notes::Notes;
use engine_reuse::{Reuse, a_freed_block_waits, calls_change_what_is_dead};
use layout_journal::Ring;

/// In how many rounds of waits each record comes to its end.
const ROUNDS: usize = 4;

impl Pipeline {
    /// Takes the notices that have come, 64 at most, and then makes each step that is due, once and in order: records
    /// become durable; the pending header is the durable one; the batch is placed; freed blocks serve again; the sure
    /// records are the next batch, and are written to their blocks; the next header is written. It waits for nothing
    /// and takes no memory.
    ///
    /// # Errors
    /// A poll or a write failed, which the disk has counted. What a crash leaves is still one sync point.
    pub fn advance<D: Disk>(
        &mut self,
        disk: &mut D,
        ring: &mut Ring,
        reuse: &mut Reuse,
    ) -> Result<(), DiskFault>
        requires { MayMove (D.state disk.old).blocks self.old ring.old reuse.old }
        ensures goes { GoesOn D.tells 1 result (D.state disk.old) (D.state disk.new) self.old self.new ring.old ring.new reuse.old reuse.new }
        ensures due { WhereRight D.tells (D.state disk.old) self.old ring.old reuse.old (OnOk result (NothingIsDue self.old self.new)) }
        ensures serves { WhereRight D.tells (D.state disk.old) self.old ring.old reuse.old
            (OnOk result (ServesKnown (D.state disk.old) (D.state disk.new) self.old self.new reuse.old reuse.new)) }
        ensures spends { AdvanceSpends result (D.state disk.old) (D.state disk.new) }
        ensures polled { IsTrue D.tells → PollsThenWrites (D.state disk.old).manner 64 (D.state disk.old).polls (D.state disk.old).log
            (D.state disk.new).polls (D.state disk.new).log }
        ensures cause { IsTrue D.tells → OnErr result (HasFailed (D.state disk.new)) }
    {
        calls_add_at_most_one_write();
        the_newest_payloads_are_the_map();
        take_notices(disk, self)?;
        go_on(disk, self, ring, reuse)
    }

    /// Waits until each record is released: in at most four rounds of waits for all tickets that are open, each
    /// followed by the steps that are due.
    ///
    /// # Errors
    /// A wait or a write failed, which the disk has counted. What a crash leaves is still one sync point.
    pub fn drain<D: Disk>(
        &mut self,
        disk: &mut D,
        ring: &mut Ring,
        reuse: &mut Reuse,
    ) -> Result<(), DiskFault>
        requires { MayMove (D.state disk.old).blocks self.old ring.old reuse.old }
        ensures goes { GoesOn D.tells 4 result (D.state disk.old) (D.state disk.new) self.old self.new ring.old ring.new reuse.old reuse.new }
        ensures drained { OnOk result (IsDrained self.new reuse.new) }
        ensures spends { WaitsSome (is_err result) (D.state disk.old) (D.state disk.new) }
        ensures cause { WhereRight D.tells (D.state disk.old) self.old ring.old reuse.old (OnErr result (HasFailed (D.state disk.new))) }
    {
        calls_change_what_is_dead();
        a_freed_block_waits();
        fewer_may_wait();
        the_newest_payloads_are_the_map();
        for round in 0..ROUNDS {
            drain_once(disk, self, ring, reuse)?;
        }
        reuse.lawful();
        serve_blocks(self, reuse);
        Ok(())
    }

    /// Waits until no ticket of the records up to this number is open, and takes those records as durable. Where the
    /// last record has that number or a greater one, the record of that number is durable then. Where the disk's
    /// waits bring the notice of their own ticket alone, each notice that came is of a ticket of those records.
    ///
    /// # Errors
    /// A wait failed, which the disk has counted. What a crash leaves is still one sync point.
    pub fn wait_records<D: Disk>(&mut self, disk: &mut D, upto: u64) -> Result<(), DiskFault>
        requires { IsFit self.old }
        ensures hears { OnlyHears D.tells result (D.state disk.old) (D.state disk.new) self.old self.new }
        ensures durable { OnOk result (upto ≤ self.old.last → upto < self.new.header.start + durable_count self.new) }
        ensures due { OnOk result (is_first_settled self.new.committed.items self.new.notes.notes ≡ false) }
        ensures only { IsTrue D.tells → (D.state disk.old).manner.waits_alone ≡ true → (u : ℕ) → IsNoticed u (D.state disk.new).log
            → IsNoticed u (D.state disk.old).log ⊎ IsOfRecord self.old upto u }
        ensures spends { WaitsSome (is_err result) (D.state disk.old) (D.state disk.new) }
        ensures cause { IsTrue D.tells → NotesAreGiven (D.state disk.old).log self.old.notes.notes → OnErr result (HasFailed (D.state disk.new)) }
    {
        wait_upto(disk, self, upto)?;
        settle_all(self);
        Ok(())
    }
}

/// One round: where there is a record, waits for all tickets that are open, and makes the steps that are due.
fn drain_once<D: Disk>(
    disk: &mut D,
    pipeline: &mut Pipeline,
    ring: &mut Ring,
    reuse: &mut Reuse,
) -> Result<(), DiskFault>
    requires sound { IsSound pipeline.old ring.old reuse.old }
    requires size { (D.state disk.old).blocks ≡ pipeline.old.geom.n }
    requires turns { LeavesTurns 1 pipeline.old }
    ensures goes { GoesOn D.tells 1 result (D.state disk.old) (D.state disk.new) pipeline.old pipeline.new ring.old ring.new reuse.old reuse.new }
    ensures stage { OnOk result ((k : ℕ) → IsAtStage k pipeline.old → IsAtStage (k + 1) pipeline.new) }
    ensures spends { WaitsSome (is_err result) (D.state disk.old) (D.state disk.new) }
    ensures cause { IsTrue D.tells → NotesAreGiven (D.state disk.old).log pipeline.old.notes.notes → OnErr result (HasFailed (D.state disk.new)) }
{
    the_newest_payloads_are_the_map();
    if pipeline.is_empty() {
        return Ok(());
    }
    wait_for_all(disk, pipeline)?;
    go_on(disk, pipeline, ring, reuse)
}

/// Makes each step that is due, once and in order.
fn go_on<D: Disk>(
    disk: &mut D,
    pipeline: &mut Pipeline,
    ring: &mut Ring,
    reuse: &mut Reuse,
) -> Result<(), DiskFault>
    requires sound { IsSound pipeline.old ring.old reuse.old }
    requires size { (D.state disk.old).blocks ≡ pipeline.old.geom.n }
    requires turns { LeavesTurns 1 pipeline.old }
    ensures goes { GoesOn D.tells 1 result (D.state disk.old) (D.state disk.new) pipeline.old pipeline.new ring.old ring.new reuse.old reuse.new }
    ensures due { WhereRight D.tells (D.state disk.old) pipeline.old ring.old reuse.old (OnOk result (NothingIsDue pipeline.old pipeline.new)) }
    ensures stage { AreAllNoticed pipeline.old.notes.notes → OnOk result ((k : ℕ) → IsAtStage k pipeline.old → IsAtStage (k + 1) pipeline.new) }
    ensures serves { WhereRight D.tells (D.state disk.old) pipeline.old ring.old reuse.old
        (OnOk result (ServesKnown (D.state disk.old) (D.state disk.new) pipeline.old pipeline.new reuse.old reuse.new)) }
    ensures writes { IsTrue D.tells → GrowsByWrites (D.state disk.old).log (D.state disk.new).log }
    ensures spends { OnlyWrites (is_err result) (D.state disk.old) (D.state disk.new) }
    ensures cause { IsTrue D.tells → OnErr result (HasFailed (D.state disk.new)) }
{
    calls_add_at_most_one_write();
    a_batch_goes_home();
    counts_tell_the_batch();
    the_home_test_is_exact();
    records_stand_in_order();
    a_freed_block_waits();
    calls_change_what_is_dead();
    reuse.lawful();
    go_forward(pipeline, ring, reuse);
    reuse.lawful();
    begin_batch(disk, pipeline)?;
    write_next_header(disk, pipeline, ring)?;
    Ok(())
}

/// Makes the steps that need no write: records become durable, the pending header is the durable one, the batch is
/// placed, and freed blocks serve again.
fn go_forward(pipeline: &mut Pipeline, ring: &mut Ring, reuse: &mut Reuse)
    requires sound { IsSound pipeline.old ring.old reuse.old }
    ensures right { (s : MountedSession) (base : Blocks) (log : List Event) (l : Ledger) (t floor : ℕ) (taken : List ℕ)
        → IsRight s base log l t floor pipeline.old ring.old reuse.old taken → StaysRight s base log l t floor pipeline.new ring.new reuse.new taken }
    ensures sound { IsSound pipeline.new ring.new reuse.new }
    ensures forward { (a b c : Pipeline) × GoesForward pipeline.old a b c pipeline.new ring.old ring.new reuse.old reuse.new }
    ensures front { LosesFront (kept pipeline.old) (kept pipeline.new) }
    ensures bytes { (s : MountedSession) (d : State) (l : Ledger) (t floor : ℕ) (taken : List ℕ)
        → IsRightOn s d l t floor pipeline.old ring.old reuse.old taken → LeavesBytes l pipeline.old pipeline.new d d }
    ensures owed { writes_owed pipeline.new ≡ writes_owed pipeline.old }
{
    a_freed_block_waits();
    fewer_may_wait();
    the_newest_payloads_are_the_map();
    a_read_gives_what_was_written_last();
    reuse.lawful();
    settle_all(pipeline);
    turn_header(pipeline, ring);
    end_batch(pipeline);
    serve_blocks(pipeline, reuse);
}

/// Lets the committed records become durable, oldest first, up to the first of which a ticket is open.
fn settle_all(pipeline: &mut Pipeline)
    requires { IsFit pipeline.old }
    ensures agrees { (s : MountedSession) (base : Blocks) (log : List Event) (l : Ledger) (t floor : ℕ) (ring : RingPlaces) (waiting : List (ℕ × ℕ))
        (taken : List ℕ) → IsSafe s base log l t floor → PipelineAgrees base log l pipeline.old ring waiting taken
        → AgreesOn s base log l t floor pipeline.new ring waiting taken }
    ensures due { is_first_settled pipeline.new.committed.items pipeline.new.notes.notes ≡ false }
    ensures settles { (count : ℕ) × SettlesSome count pipeline.old pipeline.new }
    ensures fit { IsFit pipeline.new }
{
    for turn in 0..pipeline.committed.len() {
        if !settle_first(pipeline) {
            return;
        }
    }
}

/// Gives back the blocks that records freed which are sure now, and to which no checkpoint write is open.
fn serve_blocks(pipeline: &mut Pipeline, reuse: &mut Reuse)
    requires { IsFit pipeline.old }
    ensures serves { reuse.new ≡ with_served pipeline.old reuse.old }
    ensures rest { pipeline.new ≡ record pipeline.old { blocks = pipeline.new.blocks } }
    ensures fit { IsFit pipeline.new }
{
    if !reuse.may_release(pipeline.header.sure) {
        return;
    }
    list_going_home(
        pipeline.home.as_slice(),
        &pipeline.notes,
        &mut pipeline.blocks,
    );
    reuse.released(pipeline.header.sure, pipeline.blocks.as_slice());
}

/// Lists the blocks of those checkpoint writes that are open, in place of what the list had. There must be room for
/// all of them.
fn list_going_home(home: &[HomeWrite], notes: &Notes, into: &mut Vec<u32>)
    requires { length home.now ≤ vec_capacity into.old }
    ensures items { into.new.items ≡ going_home home.now notes.now.notes }
    ensures capacity { vec_capacity into.old ≤ vec_capacity into.new }
{
    into.clear();
    for write in home {
        add_where_open(*write, notes, into);
    }
}

/// Adds the block of this checkpoint write, where it is open. There must be room for it.
fn add_where_open(write: HomeWrite, notes: &Notes, into: &mut Vec<u32>)
    requires { vec_len into.old < vec_capacity into.old }
    ensures items { into.new.items ≡ into.old.items ++ going_home (write ∷ []) notes.now.notes }
    ensures len { vec_len into.new ≤ vec_len into.old + 1 }
    ensures capacity { vec_capacity into.old ≤ vec_capacity into.new }
{
    if notes.is_open(write.ticket) {
        into.push(write.block).unwrap();
    }
}
