//! A crash of a trace: the input is read as one, the crash of the moment and the choice is replayed, and the run ends
//! with the status of the answer. How a trace is read is in `cmd_trace_reader`, and how a crash is replayed in
//! `cmd_replay`.

ghost use Rattle.std.specs.Prelude.{ℕ, ◌≤◌, Err};
ghost use Rattle.disk_contract.specs.Bay.{BayState};
ghost use Rattle.disk_memory.specs.Choice.{ChoiceState};
ghost use Rattle.cmd_trace.specs.Contents.{Contents};
ghost use Rattle.cmd_trace_reader.specs.Inputs.{Blames};
ghost use Rattle.cmd_trace_reader.specs.Traces.{IsTrace};
ghost use Rattle.cmd_program.specs.Endings.{HasFault, Tells, met};
ghost use Rattle.cmd_program.specs.Replaying.{EndsFound, EndsReading, ReplaysTo, ShowsCrash, trace_line};
ghost use Rattle.cmd_program.specs.declared.status.Status.TheVariants.{BadTrace};

use crate::status::Status;
use crate::telling::{CHOICE, DAMAGED, LONG, NO_PREFIX, SOURCE, SPENT, tell};
use base_io::{Sink, SinkFault, Source};
use cmd_replay::{ReplayRefusal, Replayed};
use cmd_trace_reader::{Trace, TraceRefusal, read_trace};
use disk_memory::Choice;
use lang_script::write_numbered_line;
use std::alloc::Global;

/// Reads the input as a trace, and writes what a crash after its first `moment` events leaves by the choice: which sync
/// point, and its tree. Then it writes the last line of the status.
pub fn replay<S: Source, K: Sink>(
    alloc: Global,
    moment: u64,
    choice: &Choice,
    input: &mut S,
    out: &mut K,
) -> Status
    ensures replays { (bay : BayState) → ReplaysTo moment choice.now result
        (met (S.remaining input.old) (S.remaining input.new) (K.taken out.old) (K.taken out.new)
        (S.faults input.old) (S.faults input.new) (K.faults out.old) (K.faults out.new) bay bay) }
    ensures faults { HasFault result (S.faults input.old) (S.faults input.new) (K.faults out.old) (K.faults out.new) }
    ensures counts { (S.faults input.old ≤ S.faults input.new) × (K.faults out.old ≤ K.faults out.new) }
{
    match read_trace(alloc, input) {
        Ok(trace) => show_crash(alloc, trace, moment, choice, out),
        Err(why) => end_reading(why, out),
    }
}

/// Ends the run where the input wasn't read as a trace.
fn end_reading<K: Sink>(why: TraceRefusal, out: &mut K) -> Status
    ensures ends { (moment : ℕ) (choice : ChoiceState) → EndsReading moment choice (Err why) result (K.taken out.old) (K.taken out.new) }
    ensures faults { (source source_now : ℕ) → Blames {T = Contents} (Err why) source source_now
        → HasFault result source source_now (K.faults out.old) (K.faults out.new) }
    ensures counts { K.faults out.old ≤ K.faults out.new }
{
    match why {
        TraceRefusal::BadTrace { line } => tell_wrong_line(out, line),
        TraceRefusal::SourceFault => tell(out, SOURCE, Status::SourceFault),
        TraceRefusal::LongInput => tell(out, LONG, Status::LongInput),
        TraceRefusal::NoMemory => Status::NoMemory,
    }
}

/// Writes what a crash of the trace leaves, and the last line of the status.
fn show_crash<K: Sink>(
    alloc: Global,
    trace: Trace,
    moment: u64,
    choice: &Choice,
    out: &mut K,
) -> Status
    requires { IsTrace trace }
    ensures shows { ShowsCrash moment choice.now trace result (K.taken out.old) (K.taken out.new) }
    ensures faults { (source : ℕ) → HasFault result source source (K.faults out.old) (K.faults out.new) }
    ensures counts { K.faults out.old ≤ K.faults out.new }
{
    match cmd_replay::replay(alloc, trace, moment, choice) {
        Ok(found) => write_found(&found, out),
        Err(ReplayRefusal::Choice) => tell(out, CHOICE, Status::BadChoice),
        Err(ReplayRefusal::Damaged { damage }) => tell(out, DAMAGED, Status::Damaged(damage)),
        Err(ReplayRefusal::Spent) => tell(out, SPENT, Status::Spent),
        Err(ReplayRefusal::NoMemory) => Status::NoMemory,
    }
}

/// Writes which sync point was found, and its tree.
fn write_found<K: Sink>(found: &Replayed, out: &mut K) -> Status
    ensures writes { EndsFound found.now result (K.taken out.old) (K.taken out.new) }
    ensures faults { (source : ℕ) → HasFault result source source (K.faults out.old) (K.faults out.new) }
    ensures counts { K.faults out.old ≤ K.faults out.new }
{
    match found.write(out) {
        Err(SinkFault) => Status::SinkFault,
        Ok(()) => match found.point() {
            None => tell(out, NO_PREFIX, Status::NoPrefix),
            Some(_) => Status::Done,
        },
    }
}

/// Writes the line that names the first wrong line of an input.
fn tell_wrong_line<K: Sink>(out: &mut K, line: u64) -> Status
    ensures told { Tells BadTrace result (trace_line line) (K.taken out.old) (K.taken out.new) (K.faults out.old) (K.faults out.new) }
    ensures counts { K.faults out.old ≤ K.faults out.new }
{
    match write_numbered_line(out, WRONG_LINE, line) {
        Ok(()) => Status::BadTrace,
        Err(SinkFault) => Status::SinkFault,
    }
}

/// What stands before the number of a wrong line.
const WRONG_LINE: &[u8] = b"error 3 line ";
