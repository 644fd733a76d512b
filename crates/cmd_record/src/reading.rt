//! The reading of an input: command after command, up to its end, to a fault of the source, or to the most bytes that an
//! input may have. How commands are cut from bytes is in `lang_lines`, and how one is answered in the module of the
//! recording.

ghost use Rattle.std.specs.Prelude.{◌≡◌, ℕ, ◌^◌, ◌≤◌, [], List, Option, IfOk, OnErr};
ghost use Rattle.std.specs.Io.KnownBytes.{Appends};
ghost use Rattle.disk_memory.specs.MemDisk.{state_of as disk_state};
ghost use Rattle.engine_store.specs.StoreOf.{state_of};
ghost use Rattle.fs_commands.specs.Opened.{blocks_in};
ghost use Rattle.cmd_host.specs.Behaving.{Setting};
ghost use Rattle.cmd_record.specs.Follows.{StopsByCause};
ghost use Rattle.cmd_record.specs.Running.{Records};
ghost use Rattle.cmd_record.specs.Reading.{At, AtEnding, GivesOn, Halted, Turns};

use crate::recording::{Stop, serve};
use base_io::{Sink, Source};
use base_types::limits::LONGEST_INPUT;
use cmd_host::System;
use lang_lines::{CommandReader, Next, all_was_given};
use std::alloc::Global;

/// How a reading ends that nothing stopped.
#[derive(Clone, Copy, Debug, PartialEq, Eq)]
pub enum Ending {
    /// The input was read to its end.
    End,
    /// The source failed.
    SourceFault,
    /// More bytes came than an input may have.
    LongInput,
}

/// Reads the input to its end, and has each of its commands answered.
///
/// # Errors
/// Out of memory, or a fault of the sink.
pub fn read_lines<S: Source, K: Sink>(
    alloc: Global,
    system: &mut System,
    input: &mut S,
    out: &mut K,
) -> Result<Ending, Stop>
    ensures ok { IfOk result (λ ending. (set : Setting) (body : List ℕ) (told : Option (List ℕ))
        → Records set [] body (state_of disk_state (blocks_in system.old)) → Appends told (K.taken out.old) body
        → AtEnding set ending (S.faults input.old) (S.faults input.new) (S.remaining input.old) (S.remaining input.new) told (K.taken out.new)) }
    ensures err { OnErr result ((set : Setting) (body : List ℕ) (told : Option (List ℕ))
        → Records set [] body (state_of disk_state (blocks_in system.old)) → Appends told (K.taken out.old) body
        → Halted set (2 ^ 30) (S.remaining input.old) (S.remaining input.new) told (K.taken out.new)) }
    ensures source { S.faults input.old ≤ S.faults input.new }
    ensures cause { StopsByCause (K.faults out.old) (K.faults out.new) result }
{
    all_was_given();
    let mut reader = CommandReader::new(alloc)?;
    for _ in 0..MOST_TURNS {
        if let Some(ending) = serve_next(alloc, &mut reader, system, input, out)? {
            return Ok(ending);
        }
    }
    unreachable!()
}

/// Has the next command of the input answered, or says how the reading ended.
///
/// # Errors
/// Out of memory, or a fault of the sink.
fn serve_next<S: Source, K: Sink>(
    alloc: Global,
    reader: &mut CommandReader,
    system: &mut System,
    input: &mut S,
    out: &mut K,
) -> Result<Option<Ending>, Stop>
    ensures turns { (set : Setting) (first : ℕ) (left told : Option (List ℕ)) → first ≤ S.faults input.old
        → At set left (S.remaining input.old) told (K.taken out.old) (state_of disk_state (blocks_in system.old)) reader.old
        → Turns set result first (S.faults input.new) left (S.remaining input.new) told (K.taken out.new)
        (state_of disk_state (blocks_in system.new)) reader.new }
    ensures gives { GivesOn result reader.old reader.new }
    ensures source { S.faults input.old ≤ S.faults input.new }
    ensures cause { StopsByCause (K.faults out.old) (K.faults out.new) result }
{
    all_was_given();
    match reader.next(alloc, input)? {
        Next::Command(cmd) => {
            serve(alloc, system, out, &cmd)?;
            Ok(None)
        }
        Next::End => Ok(Some(Ending::End)),
        Next::SourceFault => Ok(Some(Ending::SourceFault)),
        Next::LongInput => Ok(Some(Ending::LongInput)),
    }
}

/// One turn more than an input has commands, which have a byte each, but perhaps the last one.
const MOST_TURNS: u64 = LONGEST_INPUT + 2;
