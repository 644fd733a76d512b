//! The reading of a whole trace from a source: pull after pull, up to its end, to a fault of the source, or to the most
//! bytes that a trace may have.

ghost use Rattle.std.specs.Prelude.{◌≡◌, ℕ, ◌+◌, ◌^◌, ◌<◌, ◌≤◌, List, length, Option, IfOk};
ghost use Rattle.cmd_trace_reader.specs.Inputs.{Tells, Blames};
ghost use Rattle.cmd_trace_reader.specs.Progress.{At, Brings, ReadsOut};
ghost use Rattle.cmd_trace_reader.specs.declared.lines.Lines.{Lines};

use crate::lines::Lines;
use crate::trace::Trace;
use base_io::{Source, SourceFault};
use base_types::NoMemory;
use base_types::limits::LONGEST_INPUT;
use std::alloc::Global;
use std::error::Error;
use std::fmt;

/// Why no trace was read.
#[derive(Clone, Copy, Debug)]
pub enum TraceRefusal {
    /// The bytes aren't the text of a trace, and this line is the first at which that shows, counted from 1.
    BadTrace {
        /// The number of the line.
        line: u64,
    },
    /// The source failed.
    SourceFault,
    /// More bytes came than a trace may have: 2^30.
    LongInput,
    /// No memory was found.
    NoMemory,
}

impl fmt::Display for TraceRefusal {
    fn fmt<W: fmt::Write>(&self, f: &mut fmt::Formatter<W>) -> fmt::Result {
        match self {
            TraceRefusal::BadTrace { line } => write!(f, "not a trace at line {}", line),
            TraceRefusal::SourceFault => write!(f, "the input failed"),
            TraceRefusal::LongInput => write!(f, "the input is too long"),
            TraceRefusal::NoMemory => write!(f, "out of memory"),
        }
    }
}

impl Error for TraceRefusal {}

impl From<NoMemory> for TraceRefusal {
    ghost use Rattle.std.specs.Prelude.{◌≡◌};
    ghost use Rattle.cmd_trace_reader.specs.declared.input.TraceRefusal.TheVariants.{NoMemory as OutOfMemory};

    ghost from_gives = { λ _ why. why ≡ OutOfMemory };

    fn from(_want: NoMemory) -> TraceRefusal {
        TraceRefusal::NoMemory
    }
}

/// The trace that the bytes of the source are, all of them: its lines are taken one by one, and its commands are
/// replayed on a tree in memory as they come.
///
/// # Errors
/// `BadTrace` exactly where the whole input, of at most 2^30 bytes, isn't the text of a trace. The source failed, more
/// than 2^30 bytes came, or it was out of memory; these say nothing of the bytes.
pub fn read_trace<S: Source>(alloc: Global, input: &mut S) -> Result<Trace, TraceRefusal>
    ensures tells { Tells (S.remaining input.old) (S.remaining input.new) result }
    ensures blames { Blames result (S.faults input.old) (S.faults input.new) }
{
    let mut chunk = zeros(alloc, CHUNK)?;
    let mut lines = Lines::new(alloc);
    read_all(alloc, &mut lines, input, chunk.as_mut_slice())?;
    match lines.into_trace() {
        Ok(trace) => Ok(trace),
        Err(line) => Err(TraceRefusal::BadTrace { line }),
    }
}

// So many zero bytes.
fn zeros(alloc: Global, count: usize) -> Result<Vec<u8>, NoMemory>
    ensures { IfOk result (λ bytes. length bytes.items ≡ count) }
{
    let bytes = vec![in alloc; 0u8; count]?;
    Ok(bytes)
}

// Reads the input to its end, by pieces of at most the chunk's length.
fn read_all<S: Source>(
    alloc: Global,
    lines: &mut Lines,
    input: &mut S,
    chunk: &mut [u8],
) -> Result<(), TraceRefusal>
    requires some { 0 < length chunk.old }
    ensures reads { (first : Option (List ℕ)) → At first (S.remaining input.old) 0 lines.old → ReadsOut first (S.remaining input.new) lines.new result }
    ensures blames { Blames result (S.faults input.old) (S.faults input.new) }
{
    let mut count: usize = 0;
    while count < MOST {
        let room = chunk.len().min(MOST - count);
        let more = pull_once(alloc, lines, input, &mut chunk[..room])?;
        if more == 0 {
            return Ok(());
        }
        count += more;
    }
    read_past(input)
}

// Pulls once, and hands on what came.
fn pull_once<S: Source>(
    alloc: Global,
    lines: &mut Lines,
    input: &mut S,
    chunk: &mut [u8],
) -> Result<usize, TraceRefusal>
    requires some { 0 < length chunk.old }
    ensures most { IfOk result (λ n. n ≤ length chunk.old) }
    ensures brings { (first : Option (List ℕ)) (count : ℕ) → count + length chunk.old ≤ 2 ^ 30 → At first (S.remaining input.old) count lines.old
        → Brings first (S.remaining input.new) count lines.new result }
    ensures blames { Blames result (S.faults input.old) (S.faults input.new) }
{
    let count = match input.pull(chunk) {
        Err(SourceFault) => return Err(TraceRefusal::SourceFault),
        Ok(count) => count,
    };
    lines.take_all(alloc, &chunk[..count])?;
    Ok(count)
}

// Looks whether one byte more comes than a trace may have.
fn read_past<S: Source>(input: &mut S) -> Result<(), TraceRefusal>
    ensures past { (first : Option (List ℕ)) (lines : Lines) → At first (S.remaining input.old) (2 ^ 30) lines
        → ReadsOut first (S.remaining input.new) lines result }
    ensures blames { Blames result (S.faults input.old) (S.faults input.new) }
{
    let mut next = [0u8; 1];
    match input.pull(&mut next) {
        Err(SourceFault) => Err(TraceRefusal::SourceFault),
        Ok(0) => Ok(()),
        Ok(_) => Err(TraceRefusal::LongInput),
    }
}

// How many bytes are asked for at once.
const CHUNK: usize = 65_536;

// The most bytes of a whole trace.
const MOST: usize = LONGEST_INPUT as usize;
