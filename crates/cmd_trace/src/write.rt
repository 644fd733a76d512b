//! The writers of a trace's lines. Each pushes one line, and neither buffers over lines nor tries again
//! after a fault: what was taken by then stays taken.

ghost use Rattle.std.specs.Prelude.{ℕ, ◌≡◌, ◌+◌, ◌≤◌, [], ◌++◌, take, codes, decimal, OnErr, OnOk};
ghost use Rattle.std.specs.Io.KnownBytes.{Appends};
ghost use Rattle.hex.specs.Hex.{encode_lower};
ghost use Rattle.arrayvec.specs.ArrayVec.{array_vec_len};
ghost use Rattle.base_types.specs.Counts.{HasCause};
ghost use Rattle.disk_contract.specs.declared.event.Event.TheVariants.{Wrote, Lost, Noticed};
ghost use Rattle.cmd_trace.specs.Line.{geometry_line, layout_mark, event_line, command_line, reply_line, end_line};

use crate::line_to_write::{Head, Line, put, put_digits, put_number, put_to_head};
use base_io::{Sink, SinkFault, prefixes_join, push_all};
use base_types::{Block, Layout};
use disk_contract::Event;
use itoa::Buffer;
use layout_geometry::Geom;

/// Writes the first line, with the numbers of the geometry, and its layout where that isn't layout 1.
///
/// # Errors
/// The first fault of the sink, which by then took a front of the line and nothing else.
pub fn write_geom<K: Sink>(out: &mut K, geom: &Geom) -> Result<(), SinkFault>
    ensures all { OnOk result (Appends (K.taken out.old) (K.taken out.new) (geometry_line geom.now)) }
    ensures front { OnErr result ((n : ℕ) × Appends (K.taken out.old) (K.taken out.new) (take n (geometry_line geom.now))) }
    ensures cause { HasCause result (K.faults out.old) (K.faults out.new) }
{
    let mut line = Line::new();
    put(&mut line, b"g ");
    put_number(&mut line, u64::from(geom.n()));
    put(&mut line, b" ");
    put_number(&mut line, u64::from(geom.j()));
    put(&mut line, b" ");
    put_number(&mut line, u64::from(geom.i()));
    put_layout_mark(&mut line, geom.layout());
    put(&mut line, b"\n");
    push_all(out, line.as_slice())?;
    Ok(())
}

fn put_layout_mark(line: &mut Line, layout: Layout)
    requires { array_vec_len line.old + 2 ≤ 2093 }
    ensures text { line.new.items ≡ line.old.items ++ layout_mark layout }
    ensures length { array_vec_len line.new ≤ array_vec_len line.old + 2 }
{
    match layout {
        Layout::One => put(line, b""),
        Layout::Two => put(line, b" 2"),
    }
}

/// Writes the line of a write that was accepted.
///
/// # Errors
/// The first fault of the sink, which by then took a front of the line and nothing else.
pub fn write_wrote<K: Sink>(
    out: &mut K,
    ticket: u64,
    block: u32,
    bytes: &Block,
) -> Result<(), SinkFault>
    ensures all { OnOk result (Appends (K.taken out.old) (K.taken out.new) (event_line (Wrote ticket block bytes.now))) }
    ensures front { OnErr result ((n : ℕ) × Appends (K.taken out.old) (K.taken out.new) (take n (event_line (Wrote ticket block bytes.now)))) }
    ensures cause { HasCause result (K.faults out.old) (K.faults out.new) }
{
    let mut line = Line::new();
    put_wrote(&mut line, ticket, block, bytes);
    push_all(out, line.as_slice())?;
    Ok(())
}

/// Writes the line of a write that was lost.
///
/// # Errors
/// The first fault of the sink, which by then took a front of the line and nothing else.
pub fn write_lost<K: Sink>(out: &mut K, block: u32, bytes: &Block) -> Result<(), SinkFault>
    ensures all { OnOk result (Appends (K.taken out.old) (K.taken out.new) (event_line (Lost block bytes.now))) }
    ensures front { OnErr result ((n : ℕ) × Appends (K.taken out.old) (K.taken out.new) (take n (event_line (Lost block bytes.now)))) }
    ensures cause { HasCause result (K.faults out.old) (K.faults out.new) }
{
    let mut line = Line::new();
    put_lost(&mut line, block, bytes);
    push_all(out, line.as_slice())?;
    Ok(())
}

/// Writes the line of a notice.
///
/// # Errors
/// The first fault of the sink, which by then took a front of the line and nothing else.
pub fn write_noticed<K: Sink>(out: &mut K, ticket: u64) -> Result<(), SinkFault>
    ensures all { OnOk result (Appends (K.taken out.old) (K.taken out.new) (event_line (Noticed ticket))) }
    ensures front { OnErr result ((n : ℕ) × Appends (K.taken out.old) (K.taken out.new) (take n (event_line (Noticed ticket)))) }
    ensures cause { HasCause result (K.faults out.old) (K.faults out.new) }
{
    let mut line = Line::new();
    put_noticed(&mut line, ticket);
    push_all(out, line.as_slice())?;
    Ok(())
}

/// Writes the line of an event: a write that was accepted, one that was lost, or a notice.
///
/// # Errors
/// The first fault of the sink, which by then took a front of the line and nothing else.
pub fn write_event<K: Sink>(out: &mut K, event: &Event) -> Result<(), SinkFault>
    ensures all { OnOk result (Appends (K.taken out.old) (K.taken out.new) (event_line event.now)) }
    ensures front { OnErr result ((n : ℕ) × Appends (K.taken out.old) (K.taken out.new) (take n (event_line event.now))) }
    ensures cause { HasCause result (K.faults out.old) (K.faults out.new) }
{
    let mut line = Line::new();
    put_event(&mut line, event);
    push_all(out, line.as_slice())?;
    Ok(())
}

fn put_event(line: &mut Line, event: &Event)
    requires { line.old.items ≡ [] }
    ensures { line.new.items ≡ event_line event.now }
{
    match event {
        Event::Wrote {
            ticket,
            block,
            bytes,
        } => put_wrote(line, *ticket, *block, bytes.bytes()),
        Event::Lost { block, bytes } => put_lost(line, *block, bytes.bytes()),
        Event::Noticed { ticket } => put_noticed(line, *ticket),
    }
}

fn put_wrote(line: &mut Line, ticket: u64, block: u32, bytes: &Block)
    requires { line.old.items ≡ [] }
    ensures { line.new.items ≡ event_line (Wrote ticket block bytes.now) }
{
    put(line, b"w ");
    put_number(line, ticket);
    put(line, b" ");
    put_block(line, block, bytes);
    put(line, b"\n");
}

fn put_lost(line: &mut Line, block: u32, bytes: &Block)
    requires { line.old.items ≡ [] }
    ensures { line.new.items ≡ event_line (Lost block bytes.now) }
{
    put(line, b"f ");
    put_block(line, block, bytes);
    put(line, b"\n");
}

fn put_noticed(line: &mut Line, ticket: u64)
    requires { line.old.items ≡ [] }
    ensures { line.new.items ≡ event_line (Noticed ticket) }
{
    put(line, b"d ");
    put_number(line, ticket);
    put(line, b"\n");
}

// The number of a block, and its bytes.
fn put_block(line: &mut Line, block: u32, bytes: &Block)
    requires { array_vec_len line.old + 2069 ≤ 2093 }
    ensures text { line.new.items ≡ line.old.items ++ (decimal block ++ (codes " " ++ encode_lower bytes.now)) }
    ensures length { array_vec_len line.new ≤ array_vec_len line.old + 2069 }
{
    put_number(line, u64::from(block));
    put(line, b" ");
    put_digits(line, bytes);
}

/// Writes the line of a command, whose text is given without a line feed.
///
/// # Errors
/// The first fault of the sink, which by then took a front of the line and nothing else.
pub fn write_command<K: Sink>(out: &mut K, text: &[u8]) -> Result<(), SinkFault>
    ensures all { OnOk result (Appends (K.taken out.old) (K.taken out.new) (command_line text.now)) }
    ensures front { OnErr result ((n : ℕ) × Appends (K.taken out.old) (K.taken out.new) (take n (command_line text.now))) }
    ensures cause { HasCause result (K.faults out.old) (K.faults out.new) }
{
    write_behind(out, b"c ", text)?;
    Ok(())
}

/// Writes the line of a reply, whose text is given without a line feed. The moment is the number of events
/// so far.
///
/// # Errors
/// The first fault of the sink, which by then took a front of the line and nothing else.
pub fn write_reply<K: Sink>(out: &mut K, moment: u64, text: &[u8]) -> Result<(), SinkFault>
    ensures all { OnOk result (Appends (K.taken out.old) (K.taken out.new) (reply_line moment text.now)) }
    ensures front { OnErr result ((n : ℕ) × Appends (K.taken out.old) (K.taken out.new) (take n (reply_line moment text.now))) }
    ensures cause { HasCause result (K.faults out.old) (K.faults out.new) }
{
    let mut head = Head::new();
    put_to_head(&mut head, b"r ");
    put_to_head(&mut head, Buffer::new().format(moment).as_bytes());
    put_to_head(&mut head, b" ");
    write_behind(out, head.as_slice(), text)?;
    Ok(())
}

// Writes the head, the text and a line feed: a text has any length, so it isn't copied.
fn write_behind<K: Sink>(out: &mut K, head: &[u8], text: &[u8]) -> Result<(), SinkFault>
    ensures all { OnOk result (Appends (K.taken out.old) (K.taken out.new) (head.now ++ (text.now ++ codes "\n"))) }
    ensures front { OnErr result ((n : ℕ) × Appends (K.taken out.old) (K.taken out.new) (take n (head.now ++ (text.now ++ codes "\n")))) }
    ensures cause { HasCause result (K.faults out.old) (K.faults out.new) }
{
    prefixes_join();
    push_all(out, head)?;
    push_all(out, text)?;
    push_all(out, b"\n")?;
    Ok(())
}

/// Writes the last line.
///
/// # Errors
/// The first fault of the sink, which by then took a front of the line and nothing else.
pub fn write_end<K: Sink>(out: &mut K) -> Result<(), SinkFault>
    ensures all { OnOk result (Appends (K.taken out.old) (K.taken out.new) end_line) }
    ensures front { OnErr result ((n : ℕ) × Appends (K.taken out.old) (K.taken out.new) (take n end_line)) }
    ensures cause { HasCause result (K.faults out.old) (K.faults out.new) }
{
    push_all(out, b"end\n")?;
    Ok(())
}
