//! The trace of a recording but for its last line: of a mount and the whole input behind it, or of a mount that failed. How
//! a line is answered is in the module of the recording, and how the input is read in the module of the reading.

ghost use Rattle.std.specs.Prelude.{ℕ, ◌^◌, ◌≤◌, ◌++◌, take, IfOk, OnOk, OnErr};
ghost use Rattle.std.specs.Io.KnownBytes.{Appends};
ghost use Rattle.base_types.specs.Counts.{HasCause};
ghost use Rattle.disk_contract.specs.Manner.{Manner};
ghost use Rattle.disk_memory.specs.MemDisk.{state_of as disk_state};
ghost use Rattle.engine_store.specs.StoreOf.{state_of};
ghost use Rattle.fs_commands.specs.Opened.{blocks_in};
ghost use Rattle.cmd_trace.specs.Line.{geometry_line, event_lines, end_line};
ghost use Rattle.cmd_host.specs.Disks.{IsOpened};
ghost use Rattle.cmd_record.specs.Follows.{StopsByCause};
ghost use Rattle.cmd_record.specs.Reading.{AtEnding, Halted};

use crate::events::write_head;
use crate::reading::{Ending, read_lines};
use crate::recording::{Stop, disk_of};
use crate::running::a_run_is_known;
use base_io::{Sink, SinkFault, Source};
use cmd_host::System;
use cmd_trace::write_end;
use disk_memory::MemDisk;
use layout_geometry::Geom;
use std::alloc::Global;

/// Writes the trace of the whole input but its last line, by this file system, which nothing was asked of yet.
///
/// # Errors
/// Out of memory, or a fault of the sink.
pub fn record_lines<S: Source, K: Sink>(
    alloc: Global,
    geom: &Geom,
    mut system: System,
    input: &mut S,
    out: &mut K,
) -> Result<Ending, Stop>
    ensures ok { IfOk result (λ ending. (m : Manner) → IsOpened (record { shape = geom.now; manner = m }) (state_of disk_state (blocks_in system))
        → AtEnding (record { shape = geom.now; manner = m }) ending (S.faults input.old) (S.faults input.new)
        (S.remaining input.old) (S.remaining input.new) (K.taken out.old) (K.taken out.new)) }
    ensures err { OnErr result ((m : Manner) → IsOpened (record { shape = geom.now; manner = m }) (state_of disk_state (blocks_in system))
        → Halted (record { shape = geom.now; manner = m }) (2 ^ 30) (S.remaining input.old) (S.remaining input.new) (K.taken out.old) (K.taken out.new)) }
    ensures source { S.faults input.old ≤ S.faults input.new }
    ensures cause { StopsByCause (K.faults out.old) (K.faults out.new) result }
{
    write_lines(alloc, geom, &mut system, input, out)
}

/// The same, by a file system that is lent.
///
/// # Errors
/// Out of memory, or a fault of the sink.
fn write_lines<S: Source, K: Sink>(
    alloc: Global,
    geom: &Geom,
    system: &mut System,
    input: &mut S,
    out: &mut K,
) -> Result<Ending, Stop>
    ensures ok { IfOk result (λ ending. (m : Manner) → IsOpened (record { shape = geom.now; manner = m }) (state_of disk_state (blocks_in system.old))
        → AtEnding (record { shape = geom.now; manner = m }) ending (S.faults input.old) (S.faults input.new)
        (S.remaining input.old) (S.remaining input.new) (K.taken out.old) (K.taken out.new)) }
    ensures err { OnErr result ((m : Manner) → IsOpened (record { shape = geom.now; manner = m }) (state_of disk_state (blocks_in system.old))
        → Halted (record { shape = geom.now; manner = m }) (2 ^ 30) (S.remaining input.old) (S.remaining input.new) (K.taken out.old) (K.taken out.new)) }
    ensures source { S.faults input.old ≤ S.faults input.new }
    ensures cause { StopsByCause (K.faults out.old) (K.faults out.new) result }
{
    geom.lawful();
    a_run_is_known(system);
    write_head(out, geom, disk_of(system))?;
    let ending = read_lines(alloc, system, input, out)?;
    Ok(ending)
}

/// Writes a trace that ends with the mount.
///
/// # Errors
/// The first fault of the sink, which by then took a front of the trace and nothing else.
pub fn write_failed_mount<K: Sink>(
    geom: &Geom,
    disk: &MemDisk,
    out: &mut K,
) -> Result<(), SinkFault>
    ensures all { OnOk result (Appends (K.taken out.old) (K.taken out.new) ((geometry_line geom.now ++ event_lines disk.now.log) ++ end_line)) }
    ensures front { OnErr result ((n : ℕ) × Appends (K.taken out.old) (K.taken out.new)
        (take n ((geometry_line geom.now ++ event_lines disk.now.log) ++ end_line))) }
    ensures cause { HasCause result (K.faults out.old) (K.faults out.new) }
{
    write_head(out, geom, disk)?;
    write_end(out)?;
    Ok(())
}
