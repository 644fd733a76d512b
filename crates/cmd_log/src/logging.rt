//! Keeps a log over the image under a name: a disk is opened on it, mounted, its file system opened and the log in that,
//! and the calls of the input are answered one by one; then the disk goes back with its marks. Each step hands the disk
//! on, so that it is handed back once, whatever comes.

ghost use Rattle.std.specs.Prelude.{◌≡◌, ◌+◌, ◌<◌, ◌≤◌, ℕ, false, true, IsTrue, [], List, length, vec_len, vec_capacity, Result, Err};
ghost use Rattle.base_types.specs.Counts.{after_call};
ghost use Rattle.disk_contract.specs.declared.bay.BayFault.{BayFault as Failure};
ghost use Rattle.disk_contract.specs.Bay.{Closes};
ghost use Rattle.disk_contract.specs.Disk.{State};
ghost use Rattle.engine_store.specs.StoreOf.{state_of};
ghost use Rattle.engine_blocks.specs.Crashes.{IsBegun};
ghost use Rattle.fs_commands.specs.Opened.{MayFollow, blocks_in};
ghost use Rattle.lang_log.specs.declared.call.LogCall.{LogCall};
ghost use Rattle.lang_log_lines.specs.Reading.{HasGivenCalls};
ghost use Rattle.cmd_image.specs.Lent.{disk_of};
ghost use Rattle.cmd_image.specs.Mounted.{IsFresh};
ghost use Rattle.cmd_image.specs.Runs.{Streams};
ghost use Rattle.cmd_image.specs.Steps.{IsJustMounted, stops_pushing};
ghost use Rattle.cmd_image.specs.declared.ending.RunRefusal.TheVariants.{Fault};
ghost use Rattle.cmd_log.specs.declared.refusal.LogRunRefusal.TheVariants.{NoRoom, Run};
ghost use Rattle.cmd_log.specs.Logs.{ComesOfLog, ComesOfLogDisk, CountsLogFaults, HasLogRunCause, HasLogRunReason};
ghost use Rattle.cmd_log.specs.Logs.{log_answer_of, log_fails_pushing, log_opens_nothing, log_says_nothing};
ghost use Rattle.cmd_log.specs.Steps.{AtCall, GivesOne, IsJustOpened, OnNext, RunsTo, Said, SoFar, Turns, answer_for};

use crate::refusal::{LogRunRefusal, log_refusal_of};
use crate::running::{Running, write_reply};
use crate::serving::Logged;
use crate::store_laws::{has_faults, the_disk_keeps_to_its_manner};
use base_io::{Sink, Source};
use cmd_image::{
    Ending, LentDisk, RunRefusal, Stop, a_reply_tells_which_call_failed,
    a_session_begins_in_the_room_of_its_tree, close_lent, disk_back, mark_of, mount_lent, of_show,
    open_lent, room_for_a_mark, run_refusal_of_bay, unopened, what_is_read_stays_mounted,
};
use cmd_session::Served;
use disk_contract::{Bay, Disk, Mark};
use engine_blocks::Blocks;
use engine_store::Store;
use fs_commands::Fs;
use fs_session::{
    a_command_is_answered_in_a_room_that_came_back, a_command_raises_the_numbers_little,
    a_crash_leaves_the_tree_of_a_point, a_refusal_for_the_disk_has_its_cause,
    a_reply_tells_the_points, points_stay_known,
};
use lang_lines::{LineReader, NextItem};
use lang_log::LogReply;
use lang_log_lines::{Calls, all_calls_were_given};
use lang_tree::Refusal;
use std::alloc::Global;

/// How many bytes a segment of the log comes to have at most.
const SEGMENT: u32 = 1_048_576;

/// Keeps a log over the image under the name: a disk is opened on it and mounted, and the log in the directory `/log` of
/// its tree is opened, or begun where there is none. Each call of the input is answered by it in turn, with one line of
/// the output for each reply. Then the disk goes back to the bay, with its marks: that of the log's opening first, and
/// then one for each reply. It goes back where a step fails too, without a mark where no log was opened. A call that is
/// refused is answered so, for a fault of the disk too, and the log goes on.
///
/// How the reading of the input ended is the answer. A fault of the disk's return is answered only behind the end of
/// the input.
///
/// # Errors
/// `BadLog` comes where the tree of the image has no log, since something else lies at `/log` or in it; nothing is read of
/// the input then, nothing written, and the image stands for its tree still. `NoRoom` comes where there is no log yet and
/// the file system has no room for its directory: the line of its refusal is all that is written. Else the errors are
/// those of a run of a script, a call of the disk that failed as the log was opened among them.
pub fn run_log<B: Bay, S: Source, K: Sink>(
    alloc: Global,
    bay: &mut B,
    name: &str,
    input: &mut S,
    out: &mut K,
) -> Result<Ending, LogRunRefusal>
    ensures comes { ComesOfLog B.tells name.now result (B.state bay.old) (B.state bay.new)
        (record { left = S.remaining input.old; source_faults = S.faults input.old; taken = K.taken out.old; sink_faults = K.faults out.old })
        (record { left = S.remaining input.new; source_faults = S.faults input.new; taken = K.taken out.new; sink_faults = K.faults out.new }) }
    ensures cause { HasLogRunCause B.tells result (B.state bay.old) (B.state bay.new) }
    ensures reason { IsTrue B.tells → result ≡ Err (Run Fault)
        → HasLogRunReason B.tells name.now result (B.state bay.old) (B.state bay.new)
        (record { left = S.remaining input.old; source_faults = S.faults input.old; taken = K.taken out.old; sink_faults = K.faults out.old })
        (record { left = S.remaining input.new; source_faults = S.faults input.new; taken = K.taken out.new; sink_faults = K.faults out.new }) }
    ensures counts { CountsLogFaults result (record
        { left = S.remaining input.old; source_faults = S.faults input.old; taken = K.taken out.old; sink_faults = K.faults out.old })
        (record { left = S.remaining input.new; source_faults = S.faults input.new; taken = K.taken out.new; sink_faults = K.faults out.new }) }
    ensures unread { log_opens_nothing result ≡ true → input.new ≡ input.old }
    ensures silent { log_says_nothing result ≡ true → out.new ≡ out.old }
{
    let marks = room_for_a_mark(alloc)?;
    let disk = open_lent(bay, name)?;
    let left = log_disk(alloc, disk, marks, input, out);
    left.disk.lawful();
    close_log(bay, name, left)
}

/// A disk over which a log was kept, on its way back.
#[derive(Drop)]
struct Left<D: Disk + Drop> {
    /// The disk.
    disk: D,
    /// Its marks: that of the log's opening, and one for each reply; or none where no log was opened.
    marks: Vec<Mark>,
    /// How the log ended.
    answer: Result<Ending, LogRunRefusal>,
}

/// Mounts a disk that was just opened, and keeps a log over it. The disk is handed on whatever comes, with its marks and
/// the answer. `marks` must be empty, with room for one.
fn log_disk<D: Disk + Drop, S: Source, K: Sink>(
    alloc: Global,
    disk: D,
    marks: Vec<Mark>,
    input: &mut S,
    out: &mut K,
) -> Left<D>
    requires fresh { IsFresh D.tells (D.state disk) }
    requires empty { marks.items ≡ [] }
    requires room { vec_len marks < vec_capacity marks }
    ensures comes { ComesOfLogDisk D.tells (D.state disk) (D.state result.disk) result.marks.items result.answer
        (record { left = S.remaining input.old; source_faults = S.faults input.old; taken = K.taken out.old; sink_faults = K.faults out.old })
        (record { left = S.remaining input.new; source_faults = S.faults input.new; taken = K.taken out.new; sink_faults = K.faults out.new }) }
    ensures counts { CountsLogFaults result.answer
        (record { left = S.remaining input.old; source_faults = S.faults input.old; taken = K.taken out.old; sink_faults = K.faults out.old })
        (record { left = S.remaining input.new; source_faults = S.faults input.new; taken = K.taken out.new; sink_faults = K.faults out.new }) }
    ensures unread { log_opens_nothing result.answer ≡ true → input.new ≡ input.old }
    ensures silent { log_says_nothing result.answer ≡ true → out.new ≡ out.old }
{
    match mount_lent(alloc, disk) {
        Ok(store) => log_store(alloc, store, marks, input, out),
        Err((disk, why)) => Left {
            disk,
            marks,
            answer: Err(LogRunRefusal::Run(of_show(why))),
        },
    }
}

/// Opens the file system of a store that was just mounted, and keeps a log in it.
fn log_store<D: Disk + Drop, S: Source, K: Sink>(
    alloc: Global,
    store: Store<D>,
    marks: Vec<Mark>,
    input: &mut S,
    out: &mut K,
) -> Left<D>
    requires begun { IsBegun (state_of D.state store) }
    requires empty { marks.items ≡ [] }
    requires room { vec_len marks < vec_capacity marks }
    ensures comes { (first : State) → IsJustMounted D.tells first (state_of D.state store)
        → ComesOfLogDisk D.tells first (D.state result.disk) result.marks.items result.answer
        (record { left = S.remaining input.old; source_faults = S.faults input.old; taken = K.taken out.old; sink_faults = K.faults out.old })
        (record { left = S.remaining input.new; source_faults = S.faults input.new; taken = K.taken out.new; sink_faults = K.faults out.new }) }
    ensures counts { CountsLogFaults result.answer
        (record { left = S.remaining input.old; source_faults = S.faults input.old; taken = K.taken out.old; sink_faults = K.faults out.old })
        (record { left = S.remaining input.new; source_faults = S.faults input.new; taken = K.taken out.new; sink_faults = K.faults out.new }) }
    ensures unread { log_opens_nothing result.answer ≡ true → input.new ≡ input.old }
    ensures silent { log_says_nothing result.answer ≡ true → out.new ≡ out.old }
{
    a_session_begins_in_the_room_of_its_tree::<Store<D>>();
    what_is_read_stays_mounted::<Store<D>>();
    match Served::open(alloc, store) {
        Ok(served) => log_files(alloc, served.into_files(), marks, input, out),
        Err((store, why)) => {
            let (disk, why) = unopened(store, why);
            Left {
                disk,
                marks,
                answer: Err(LogRunRefusal::Run(of_show(why))),
            }
        }
    }
}

/// Opens the log of a file system that was just opened, marks the disk, and answers the calls of the input.
fn log_files<D: Disk + Drop, S: Source, K: Sink>(
    alloc: Global,
    fs: Fs<Store<D>>,
    marks: Vec<Mark>,
    input: &mut S,
    out: &mut K,
) -> Left<D>
    requires follows { MayFollow D.tells (state_of D.state) fs }
    requires empty { marks.items ≡ [] }
    requires room { vec_len marks < vec_capacity marks }
    ensures comes { (first : State) → IsJustOpened D.tells first (state_of D.state (blocks_in fs))
        → ComesOfLogDisk D.tells first (D.state result.disk) result.marks.items result.answer
        (record { left = S.remaining input.old; source_faults = S.faults input.old; taken = K.taken out.old; sink_faults = K.faults out.old })
        (record { left = S.remaining input.new; source_faults = S.faults input.new; taken = K.taken out.new; sink_faults = K.faults out.new }) }
    ensures counts { CountsLogFaults result.answer
        (record { left = S.remaining input.old; source_faults = S.faults input.old; taken = K.taken out.old; sink_faults = K.faults out.old })
        (record { left = S.remaining input.new; source_faults = S.faults input.new; taken = K.taken out.new; sink_faults = K.faults out.new }) }
    ensures unread { log_opens_nothing result.answer ≡ true → input.new ≡ input.old }
    ensures silent { log_says_nothing result.answer ≡ true → out.new ≡ out.old }
{
    a_command_is_answered_in_a_room_that_came_back::<Store<D>>();
    a_command_raises_the_numbers_little::<Store<D>>();
    a_crash_leaves_the_tree_of_a_point::<Store<D>>();
    a_reply_tells_the_points::<Store<D>>();
    a_reply_tells_which_call_failed::<Store<D>>();
    a_refusal_for_the_disk_has_its_cause::<Store<D>>();
    match Logged::open(alloc, fs, SEGMENT) {
        Ok(logged) => {
            let mark = mark_of(logged.blocks().disk());
            log_opened(alloc, Running::begin(logged, marks, mark), input, out)
        }
        Err((fs, why)) => {
            the_disk_keeps_to_its_manner(fs.blocks());
            points_stay_known(fs.blocks());
            let counted = has_faults(fs.blocks().disk());
            let why = say_no_room(alloc, out, log_refusal_of(counted, why));
            Left {
                disk: disk_back(fs.into_blocks()),
                marks,
                answer: Err(why),
            }
        }
    }
}

/// Writes the line of a refusal for the room, and answers why no log was opened: this reason, or that the line wasn't
/// written.
fn say_no_room<K: Sink>(alloc: Global, out: &mut K, why: LogRunRefusal) -> LogRunRefusal
    requires kind { log_fails_pushing (Err why) ≡ false }
    ensures says { Said why result (K.taken out.old) (K.taken out.new) }
    ensures quiet { log_says_nothing (Err result) ≡ true → out.new ≡ out.old }
    ensures pushes { K.faults out.new ≡ after_call (log_fails_pushing (Err result)) (K.faults out.old) }
    ensures rises { K.faults out.old ≤ K.faults out.new }
{
    match why {
        LogRunRefusal::NoRoom(refusal) => say_refusal(alloc, out, refusal),
        LogRunRefusal::BadLog => why,
        LogRunRefusal::Run(_) => why,
    }
}

/// Writes the line of a refusal for the room, and answers that it is the reason, or that the line wasn't written.
fn say_refusal<K: Sink>(alloc: Global, out: &mut K, refusal: Refusal) -> LogRunRefusal
    ensures says { Said (NoRoom refusal) result (K.taken out.old) (K.taken out.new) }
    ensures loud { log_says_nothing (Err result) ≡ false }
    ensures pushes { K.faults out.new ≡ after_call (log_fails_pushing (Err result)) (K.faults out.old) }
    ensures rises { K.faults out.old ≤ K.faults out.new }
{
    match write_reply(alloc, out, &LogReply::Refused(refusal)) {
        Ok(()) => LogRunRefusal::NoRoom(refusal),
        Err(Stop::NoMemory) => LogRunRefusal::Run(RunRefusal::NoMemory),
        Err(Stop::SinkFault) => LogRunRefusal::Run(RunRefusal::SinkFault),
    }
}

/// Answers the calls of the input by a log that was just opened.
fn log_opened<D: Disk + Drop, S: Source, K: Sink>(
    alloc: Global,
    running: Running<D>,
    input: &mut S,
    out: &mut K,
) -> Left<D>
    requires most { running.logged.most ≡ 1048576 }
    ensures comes { (first : State) → SoFar D.tells first [] [] running.marks.items (state_of D.state (blocks_in running.logged.fs))
        → ComesOfLogDisk D.tells first (D.state result.disk) result.marks.items result.answer
        (record { left = S.remaining input.old; source_faults = S.faults input.old; taken = K.taken out.old; sink_faults = K.faults out.old })
        (record { left = S.remaining input.new; source_faults = S.faults input.new; taken = K.taken out.new; sink_faults = K.faults out.new }) }
    ensures counts { CountsLogFaults result.answer
        (record { left = S.remaining input.old; source_faults = S.faults input.old; taken = K.taken out.old; sink_faults = K.faults out.old })
        (record { left = S.remaining input.new; source_faults = S.faults input.new; taken = K.taken out.new; sink_faults = K.faults out.new }) }
    ensures opened { log_opens_nothing result.answer ≡ false }
    ensures said { log_says_nothing result.answer ≡ false }
{
    let mut running = running;
    let ended = serve_all(alloc, &mut running, input, out);
    let (store, marks) = running.into_parts();
    Left {
        disk: disk_back(store),
        marks,
        answer: answer_for(ended),
    }
}

/// The answer of a log that ended so.
fn answer_for(ended: Result<Ending, Stop>) -> Result<Ending, LogRunRefusal>
    ensures { result ≡ answer_for ended }
{
    match ended {
        Ok(ending) => Ok(ending),
        Err(Stop::NoMemory) => Err(LogRunRefusal::Run(RunRefusal::NoMemory)),
        Err(Stop::SinkFault) => Err(LogRunRefusal::Run(RunRefusal::SinkFault)),
    }
}

/// Answers the calls of the input, one by one.
///
/// # Errors
/// Out of memory, or a fault of the sink.
fn serve_all<D: Disk + Drop, S: Source, K: Sink>(
    alloc: Global,
    running: &mut Running<D>,
    input: &mut S,
    out: &mut K,
) -> Result<Ending, Stop>
    requires most { running.old.logged.most ≡ 1048576 }
    ensures most { running.new.logged.most ≡ 1048576 }
    ensures runs { (first : State) → SoFar D.tells first [] [] running.old.marks.items (state_of D.state (blocks_in running.old.logged.fs))
        → RunsTo D.tells first running.new.marks.items (state_of D.state (blocks_in running.new.logged.fs)) (answer_for result)
        (record { left = S.remaining input.old; source_faults = S.faults input.old; taken = K.taken out.old; sink_faults = K.faults out.old })
        (record { left = S.remaining input.new; source_faults = S.faults input.new; taken = K.taken out.new; sink_faults = K.faults out.new }) }
    ensures counts { CountsLogFaults (answer_for result)
        (record { left = S.remaining input.old; source_faults = S.faults input.old; taken = K.taken out.old; sink_faults = K.faults out.old })
        (record { left = S.remaining input.new; source_faults = S.faults input.new; taken = K.taken out.new; sink_faults = K.faults out.new }) }
{
    all_calls_were_given();
    let mut reader = LineReader::new(alloc)?;
    loop {
        if let Some(ending) = serve_next(alloc, &mut reader, running, input, out)? {
            return Ok(ending);
        }
    }
}

/// Answers the next call of the input, or says how the reading ended.
///
/// # Errors
/// Out of memory, or a fault of the sink.
fn serve_next<D: Disk + Drop, S: Source, K: Sink>(
    alloc: Global,
    reader: &mut LineReader,
    running: &mut Running<D>,
    input: &mut S,
    out: &mut K,
) -> Result<Option<Ending>, Stop>
    requires most { running.old.logged.most ≡ 1048576 }
    ensures most { running.new.logged.most ≡ 1048576 }
    ensures turns { (first : State) (before : Streams) → before.source_faults ≤ S.faults input.old
        → AtCall D.tells first running.old.marks.items (state_of D.state (blocks_in running.old.logged.fs)) reader.old before
        (record { left = S.remaining input.old; source_faults = S.faults input.old; taken = K.taken out.old; sink_faults = K.faults out.old })
        → Turns D.tells first running.new.marks.items (state_of D.state (blocks_in running.new.logged.fs)) reader.new result before
        (record { left = S.remaining input.new; source_faults = S.faults input.new; taken = K.taken out.new; sink_faults = K.faults out.new }) }
    ensures gives { OnNext result ((seen : List ℕ) (calls : List LogCall) → HasGivenCalls seen calls reader.old → GivesOne seen calls reader.new) }
    ensures marks { OnNext result (length running.new.marks.items ≡ length running.old.marks.items + 1) }
    ensures source { S.faults input.old ≤ S.faults input.new }
    ensures sink { K.faults out.new ≡ after_call (stops_pushing result) (K.faults out.old) }
    ensures rises { K.faults out.old ≤ K.faults out.new }
{
    all_calls_were_given();
    match reader.next::<Calls, S>(alloc, input)? {
        NextItem::Item(call) => {
            running.serve(alloc, out, &call)?;
            Ok(None)
        }
        NextItem::End => Ok(Some(Ending::End)),
        NextItem::SourceFault => Ok(Some(Ending::SourceFault)),
        NextItem::LongInput => Ok(Some(Ending::LongInput)),
    }
}

/// Hands a disk back under the name.
///
/// # Errors
/// Why no log was kept, or not to an end; behind the end of the input `Fault`, which the bay has counted, or `NoMemory`.
fn close_log<B: Bay>(
    bay: &mut B,
    name: &str,
    left: Left<LentDisk<B>>,
) -> Result<Ending, LogRunRefusal>
    ensures { (back : Result (Unit {0}) Failure)
        × Closes B.tells name.now (B.D.state (disk_of left.disk)) left.marks.items back (B.state bay.old) (B.state bay.new)
        × (result ≡ log_answer_of left.answer back) }
{
    let Left {
        disk,
        marks,
        answer,
    } = left;
    let back = close_lent(bay, name, disk, marks);
    let ending = answer?;
    if ending != Ending::End {
        return Ok(ending);
    }
    if let Err(fault) = back {
        return Err(LogRunRefusal::Run(run_refusal_of_bay(fault)));
    }
    Ok(Ending::End)
}
