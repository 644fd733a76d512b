//! The events of the disk of a recording, written to the trace as they come. Each line is written by `cmd_trace`.

ghost use Rattle.std.specs.Prelude.{ℕ, ◌++◌, take, drop, OnOk, OnErr};
ghost use Rattle.std.specs.Io.KnownBytes.{Appends};
ghost use Rattle.base_types.specs.Counts.{HasCause};
ghost use Rattle.disk_memory.specs.Logged.{event_of};
ghost use Rattle.cmd_trace.specs.Line.{geometry_line, event_line, event_lines};

use base_io::{Sink, SinkFault};
use cmd_trace::{write_geom, write_lost, write_noticed, write_wrote};
use disk_contract::Disk;
use disk_memory::{Logged, MemDisk};
use layout_geometry::Geom;

/// Writes the beginning of a trace: the line of the geometry, and the events of the mount, which are all events of
/// the disk so far.
///
/// # Errors
/// The first fault of the sink, which by then took a front of these lines and nothing else.
pub fn write_head<K: Sink>(out: &mut K, geom: &Geom, disk: &MemDisk) -> Result<(), SinkFault>
    ensures all { OnOk result (Appends (K.taken out.old) (K.taken out.new) (geometry_line geom.now ++ event_lines disk.now.log)) }
    ensures front { OnErr result ((n : ℕ) × Appends (K.taken out.old) (K.taken out.new) (take n (geometry_line geom.now ++ event_lines disk.now.log))) }
    ensures cause { HasCause result (K.faults out.old) (K.faults out.new) }
{
    write_geom(out, geom)?;
    write_events(out, disk, 0)?;
    Ok(())
}

/// Writes the lines of the disk's events behind the first so many, in order.
///
/// # Errors
/// The first fault of the sink, which by then took a front of these lines and nothing else.
pub fn write_events<K: Sink>(out: &mut K, disk: &MemDisk, from: u64) -> Result<(), SinkFault>
    ensures all { OnOk result (Appends (K.taken out.old) (K.taken out.new) (event_lines (drop from disk.now.log))) }
    ensures front { OnErr result ((n : ℕ) × Appends (K.taken out.old) (K.taken out.new) (take n (event_lines (drop from disk.now.log)))) }
    ensures cause { HasCause result (K.faults out.old) (K.faults out.new) }
{
    for place in from..disk.moment() {
        match disk.event(place) {
            Some(event) => write_logged(out, event)?,
            None => unreachable!(),
        }
    }
    Ok(())
}

// Writes the line of one event.
fn write_logged<K: Sink>(out: &mut K, event: Logged<'_>) -> Result<(), SinkFault>
    ensures all { OnOk result (Appends (K.taken out.old) (K.taken out.new) (event_line (event_of event.entry))) }
    ensures front { OnErr result ((n : ℕ) × Appends (K.taken out.old) (K.taken out.new) (take n (event_line (event_of event.entry)))) }
    ensures cause { HasCause result (K.faults out.old) (K.faults out.new) }
{
    match event {
        Logged::Wrote {
            ticket,
            block,
            bytes,
        } => write_wrote(out, ticket, block, bytes)?,
        Logged::Lost { block, bytes } => write_lost(out, block, bytes)?,
        Logged::Noticed { ticket } => write_noticed(out, ticket)?,
    }
    Ok(())
}
