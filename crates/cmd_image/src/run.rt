//! Runs a script over the image under a name: a disk is opened on it, mounted, and its file system answers the commands
//! one by one; then the disk goes back with its marks. Each step hands the disk on, so that it is handed back once,
//! whatever comes.

ghost use Rattle.std.specs.Prelude.{◌≡◌, ◌+◌, ◌<◌, ◌≤◌, length, ℕ, false, true, IsTrue, [], List, vec_len, vec_capacity, Result, Ok, Err};
ghost use Rattle.base_types.specs.Counts.{after_call};
ghost use Rattle.disk_contract.specs.declared.bay.BayFault.{BayFault as Failure};
ghost use Rattle.disk_contract.specs.Bay.{Closes};
ghost use Rattle.disk_contract.specs.Disk.{State};
ghost use Rattle.engine_store.specs.StoreOf.{state_of};
ghost use Rattle.engine_blocks.specs.Crashes.{IsBegun};
ghost use Rattle.fs_commands.specs.Opened.{blocks_in};
ghost use Rattle.cmd_image.specs.Lent.{disk_of};
ghost use Rattle.cmd_image.specs.Mounted.{IsFresh};
ghost use Rattle.cmd_image.specs.Refusals.{opens_nothing, run_answer_of};
ghost use Rattle.lang_lines.specs.Reading.{HasGiven};
ghost use Rattle.lang_tree.specs.declared.command.Cmd.{Cmd};
ghost use Rattle.cmd_image.specs.Runs.{ComesOf, ComesOfDisk, CountsFaults, HasRunCause, HasRunReason, Streams};
ghost use Rattle.cmd_image.specs.declared.ending.RunRefusal.TheVariants.{Fault};
ghost use Rattle.cmd_image.specs.Steps.{AtCommand, GivesOne, IsJustMounted, OnNext, RunsTo, SoFar, Turns, answer_for, stops_pushing};

use crate::ending::{Ending, RunRefusal, of_show, run_refusal_of_bay};
use crate::image_laws::what_is_read_stays_mounted;
use crate::lent::LentDisk;
use crate::mounting::{
    close_lent, disk_back, mark_of, mount_lent, open_lent, room_for_a_mark, unopened,
};
use crate::running::{Running, Stop};
use crate::store_laws::books_are_sound;
use base_io::{Sink, Source};
use cmd_session::{
    Served, a_run_begins_by_the_log, the_writes_keep_within_the_budget,
    the_writes_keep_within_the_budget_at_each_mark,
};
use disk_contract::{Bay, Disk, Mark};
use engine_blocks::Blocks;
use engine_store::Store;
use fs_session::{
    a_command_is_answered_in_a_room_that_came_back, as_many_blocks_are_marked_as_the_tree_has,
};
use lang_lines::{CommandReader, Next, all_was_given};
use std::alloc::Global;

/// Runs the commands of the input over the image under the name: a disk is opened on it and mounted, and each command is
/// answered by its file system in turn, with one line of the output for each reply. Then the disk goes back to the bay,
/// with its marks: that of the mount's end first, and then one for each reply. It goes back where a step fails too,
/// without a mark where no file system was opened. A command that is refused is answered so, for a fault of the disk
/// too, and the run goes on.
///
/// How the reading of the input ended is the answer. A fault of the disk's return is answered only behind the end of
/// the input.
///
/// # Errors
/// `Fault` comes of a call of the bay that failed, or of one of the disk in the mount or the opening of the file system,
/// which was counted; that nothing is under the name is one. Where the bay tells, it comes only where the bay's calls may
/// fail, where nothing is under the name, or where that call of the disk failed as the disk's manner lets it.
/// `Damaged` says what is broken in the image, and `Spent` that
/// the numbers of its journal are at their end: nothing is read or written then. `SinkFault` comes of a push that failed,
/// which the sink has counted, and `NoMemory` of want of memory: the commands that were answered by then are the first
/// ones of the input, and the output took a prefix of the lines of their replies.
pub fn run_script<B: Bay, S: Source, K: Sink>(
    alloc: Global,
    bay: &mut B,
    name: &str,
    input: &mut S,
    out: &mut K,
) -> Result<Ending, RunRefusal>
    ensures comes { ComesOf B.tells name.now result (B.state bay.old) (B.state bay.new)
        (record { left = S.remaining input.old; source_faults = S.faults input.old; taken = K.taken out.old; sink_faults = K.faults out.old })
        (record { left = S.remaining input.new; source_faults = S.faults input.new; taken = K.taken out.new; sink_faults = K.faults out.new }) }
    ensures cause { HasRunCause result (B.state bay.old) (B.state bay.new) }
    ensures reason { IsTrue B.tells → result ≡ Err Fault
        → HasRunReason B.tells name.now result (B.state bay.old) (B.state bay.new)
        (record { left = S.remaining input.old; source_faults = S.faults input.old; taken = K.taken out.old; sink_faults = K.faults out.old })
        (record { left = S.remaining input.new; source_faults = S.faults input.new; taken = K.taken out.new; sink_faults = K.faults out.new }) }
    ensures counts { CountsFaults result (record
        { left = S.remaining input.old; source_faults = S.faults input.old; taken = K.taken out.old; sink_faults = K.faults out.old })
        (record { left = S.remaining input.new; source_faults = S.faults input.new; taken = K.taken out.new; sink_faults = K.faults out.new }) }
    ensures unread { opens_nothing result ≡ true → input.new ≡ input.old }
    ensures silent { opens_nothing result ≡ true → out.new ≡ out.old }
{
    let marks = room_for_a_mark(alloc)?;
    let disk = open_lent(bay, name)?;
    let left = run_disk(alloc, disk, marks, input, out);
    left.disk.lawful();
    close_run(bay, name, left)
}

/// A disk over which a script was run, on its way back.
#[derive(Drop)]
pub struct Left<D: Disk + Drop> {
    /// The disk.
    pub disk: D,
    /// Its marks: that of the mount's end, and one for each reply; or none where no file system was opened.
    pub marks: Vec<Mark>,
    /// How the run ended.
    pub answer: Result<Ending, RunRefusal>,
}

/// Mounts a disk that was just opened, and runs the commands of the input over it. The disk is handed on whatever comes,
/// with its marks and the answer; it is for the caller to give it back. `marks` must be empty, with room for one.
pub fn run_disk<D: Disk + Drop, S: Source, K: Sink>(
    alloc: Global,
    disk: D,
    marks: Vec<Mark>,
    input: &mut S,
    out: &mut K,
) -> Left<D>
    requires fresh { IsFresh D.tells (D.state disk) }
    requires empty { marks.items ≡ [] }
    requires room { vec_len marks < vec_capacity marks }
    ensures comes { ComesOfDisk D.tells (D.state disk) (D.state result.disk) result.marks.items result.answer
        (record { left = S.remaining input.old; source_faults = S.faults input.old; taken = K.taken out.old; sink_faults = K.faults out.old })
        (record { left = S.remaining input.new; source_faults = S.faults input.new; taken = K.taken out.new; sink_faults = K.faults out.new }) }
    ensures counts { CountsFaults result.answer
        (record { left = S.remaining input.old; source_faults = S.faults input.old; taken = K.taken out.old; sink_faults = K.faults out.old })
        (record { left = S.remaining input.new; source_faults = S.faults input.new; taken = K.taken out.new; sink_faults = K.faults out.new }) }
    ensures unread { opens_nothing result.answer ≡ true → input.new ≡ input.old }
    ensures silent { opens_nothing result.answer ≡ true → out.new ≡ out.old }
{
    match mount_lent(alloc, disk) {
        Ok(store) => run_store(alloc, store, marks, input, out),
        Err((disk, why)) => Left {
            disk,
            marks,
            answer: Err(of_show(why)),
        },
    }
}

/// Opens the file system of a store that was just mounted, and runs the commands of the input over it.
fn run_store<D: Disk + Drop, S: Source, K: Sink>(
    alloc: Global,
    store: Store<D>,
    marks: Vec<Mark>,
    input: &mut S,
    out: &mut K,
) -> Left<D>
    requires begun { IsBegun (state_of D.state store) }
    requires empty { marks.items ≡ [] }
    requires room { vec_len marks < vec_capacity marks }
    ensures comes { (first : State) → IsJustMounted D.tells first (state_of D.state store)
        → ComesOfDisk D.tells first (D.state result.disk) result.marks.items result.answer
        (record { left = S.remaining input.old; source_faults = S.faults input.old; taken = K.taken out.old; sink_faults = K.faults out.old })
        (record { left = S.remaining input.new; source_faults = S.faults input.new; taken = K.taken out.new; sink_faults = K.faults out.new }) }
    ensures counts { CountsFaults result.answer
        (record { left = S.remaining input.old; source_faults = S.faults input.old; taken = K.taken out.old; sink_faults = K.faults out.old })
        (record { left = S.remaining input.new; source_faults = S.faults input.new; taken = K.taken out.new; sink_faults = K.faults out.new }) }
    ensures unread { opens_nothing result.answer ≡ true → input.new ≡ input.old }
    ensures silent { opens_nothing result.answer ≡ true → out.new ≡ out.old }
{
    a_command_is_answered_in_a_room_that_came_back::<Store<D>>();
    as_many_blocks_are_marked_as_the_tree_has::<Store<D>>();
    a_run_begins_by_the_log::<Store<D>>();
    books_are_sound::<Store<D>>();
    the_writes_keep_within_the_budget_at_each_mark::<Store<D>>();
    what_is_read_stays_mounted::<Store<D>>();
    // a call for its clause alone: the numbers of the geometry are within their limits
    let geom = store.geom();
    geom.lawful();
    let mark = mark_of(store.disk());
    // and one for what the disk says of itself
    store.disk().lawful();
    match Served::open(alloc, store) {
        Ok(served) => run_served(alloc, Running::begin(served, marks, mark), input, out),
        Err((store, why)) => {
            let (disk, why) = unopened(store, why);
            Left {
                disk,
                marks,
                answer: Err(of_show(why)),
            }
        }
    }
}

/// Runs the commands of the input over a file system that was just opened.
fn run_served<D: Disk + Drop, S: Source, K: Sink>(
    alloc: Global,
    running: Running<D>,
    input: &mut S,
    out: &mut K,
) -> Left<D>
    ensures comes { (first : State) → SoFar D.tells first [] [] running.marks.items (state_of D.state (blocks_in running.served))
        → ComesOfDisk D.tells first (D.state result.disk) result.marks.items result.answer
        (record { left = S.remaining input.old; source_faults = S.faults input.old; taken = K.taken out.old; sink_faults = K.faults out.old })
        (record { left = S.remaining input.new; source_faults = S.faults input.new; taken = K.taken out.new; sink_faults = K.faults out.new }) }
    ensures counts { CountsFaults result.answer
        (record { left = S.remaining input.old; source_faults = S.faults input.old; taken = K.taken out.old; sink_faults = K.faults out.old })
        (record { left = S.remaining input.new; source_faults = S.faults input.new; taken = K.taken out.new; sink_faults = K.faults out.new }) }
    ensures opened { opens_nothing result.answer ≡ false }
{
    the_writes_keep_within_the_budget::<Store<D>>();
    let mut running = running;
    let ended = serve_all(alloc, &mut running, input, out);
    let (store, marks) = running.into_parts();
    Left {
        disk: disk_back(store),
        marks,
        answer: answer_for(ended),
    }
}

/// The answer of a run that ended so.
fn answer_for(ended: Result<Ending, Stop>) -> Result<Ending, RunRefusal>
    ensures { result ≡ answer_for ended }
{
    match ended {
        Ok(ending) => Ok(ending),
        Err(Stop::NoMemory) => Err(RunRefusal::NoMemory),
        Err(Stop::SinkFault) => Err(RunRefusal::SinkFault),
    }
}

/// Answers the commands of the input, one by one.
///
/// # Errors
/// Out of memory, or a fault of the sink.
fn serve_all<D: Disk + Drop, S: Source, K: Sink>(
    alloc: Global,
    running: &mut Running<D>,
    input: &mut S,
    out: &mut K,
) -> Result<Ending, Stop>
    ensures runs { (first : State) → SoFar D.tells first [] [] running.old.marks.items (state_of D.state (blocks_in running.old.served))
        → RunsTo D.tells first running.new.marks.items (state_of D.state (blocks_in running.new.served)) (answer_for result)
        (record { left = S.remaining input.old; source_faults = S.faults input.old; taken = K.taken out.old; sink_faults = K.faults out.old })
        (record { left = S.remaining input.new; source_faults = S.faults input.new; taken = K.taken out.new; sink_faults = K.faults out.new }) }
    ensures counts { CountsFaults (answer_for result)
        (record { left = S.remaining input.old; source_faults = S.faults input.old; taken = K.taken out.old; sink_faults = K.faults out.old })
        (record { left = S.remaining input.new; source_faults = S.faults input.new; taken = K.taken out.new; sink_faults = K.faults out.new }) }
{
    all_was_given();
    let mut reader = CommandReader::new(alloc)?;
    loop {
        if let Some(ending) = serve_next(alloc, &mut reader, running, input, out)? {
            return Ok(ending);
        }
    }
}

/// Answers the next command of the input, or says how the reading ended.
///
/// # Errors
/// Out of memory, or a fault of the sink.
fn serve_next<D: Disk + Drop, S: Source, K: Sink>(
    alloc: Global,
    reader: &mut CommandReader,
    running: &mut Running<D>,
    input: &mut S,
    out: &mut K,
) -> Result<Option<Ending>, Stop>
    ensures turns { (first : State) (before : Streams) → before.source_faults ≤ S.faults input.old
        → AtCommand D.tells first running.old.marks.items (state_of D.state (blocks_in running.old.served)) reader.old before
        (record { left = S.remaining input.old; source_faults = S.faults input.old; taken = K.taken out.old; sink_faults = K.faults out.old })
        → Turns D.tells first running.new.marks.items (state_of D.state (blocks_in running.new.served)) reader.new result before
        (record { left = S.remaining input.new; source_faults = S.faults input.new; taken = K.taken out.new; sink_faults = K.faults out.new }) }
    ensures gives { OnNext result ((seen : List ℕ) (cmds : List Cmd) → HasGiven seen cmds reader.old → GivesOne seen cmds reader.new) }
    ensures marks { OnNext result (length running.new.marks.items ≡ length running.old.marks.items + 1) }
    ensures source { S.faults input.old ≤ S.faults input.new }
    ensures sink { K.faults out.new ≡ after_call (stops_pushing result) (K.faults out.old) }
    ensures rises { K.faults out.old ≤ K.faults out.new }
{
    all_was_given();
    match reader.next(alloc, input)? {
        Next::Command(cmd) => {
            running.serve(alloc, out, &cmd)?;
            Ok(None)
        }
        Next::End => Ok(Some(Ending::End)),
        Next::SourceFault => Ok(Some(Ending::SourceFault)),
        Next::LongInput => Ok(Some(Ending::LongInput)),
    }
}

/// Hands a disk back under the name.
///
/// # Errors
/// The answer of the run, where it is a refusal; behind the end of the input `Fault`, which the bay has counted, or
/// `NoMemory`.
fn close_run<B: Bay>(bay: &mut B, name: &str, left: Left<LentDisk<B>>) -> Result<Ending, RunRefusal>
    ensures { (back : Result (Unit {0}) Failure)
        × Closes B.tells name.now (B.D.state (disk_of left.disk)) left.marks.items back (B.state bay.old) (B.state bay.new)
        × (result ≡ run_answer_of left.answer back) }
{
    let Left {
        disk,
        marks,
        answer,
    } = left;
    let back = close_lent(bay, name, disk, marks);
    let ending = answer?;
    if ending != Ending::End {
        return Ok(ending);
    }
    if let Err(fault) = back {
        return Err(run_refusal_of_bay(fault));
    }
    Ok(Ending::End)
}
