//! From what stands behind the first two bytes of a line to what it says: the geometry, an event, or the moment
//! and the text of a reply. Each helper answers what the definition of its name answers. The text of a command is
//! read by lang_script.

ghost use Rattle.std.specs.Prelude.{◌≡◌, IfOk, option_map};
ghost use Rattle.cmd_trace.specs.ReadFields.{cut, small_number_of, block_of};
ghost use Rattle.cmd_trace.specs.ReadLines.{geometry_of, geometry_with, geometry_behind, geometry_by, placed_of, wrote_of, lost_of, noticed_of, reply_of, behind};
ghost use Rattle.cmd_trace.specs.ReadLines.{geometry_by_letter, event_by_letter, reply_by_letter};

use crate::read_fields::{block_of, cut, small_number_of};
use base_types::{Layout, NoMemory};
use disk_contract::{BoxedBlock, Event};
use lang_script::number_of;
use layout_geometry::Geom;
use std::alloc::Global;

/// The geometry whose numbers and layout these are, where it fits.
fn geometry_of(text: &[u8]) -> Option<Geom>
    ensures { result ≡ geometry_of text.now }
{
    match cut(text) {
        Some((n, rest)) => geometry_with(n, rest),
        None => None,
    }
}

fn geometry_with(n: &[u8], rest: &[u8]) -> Option<Geom>
    ensures { result ≡ geometry_with n.now (cut rest.now) }
{
    let Some((j, behind)) = cut(rest) else {
        return None;
    };
    geometry_behind(n, j, behind)
}

fn geometry_behind(n: &[u8], j: &[u8], behind: &[u8]) -> Option<Geom>
    ensures { result ≡ geometry_behind n.now j.now behind.now (cut behind.now) }
{
    match cut(behind) {
        None => geometry_by(Layout::One, n, j, behind),
        Some((i, mark)) => {
            if mark == b"2".as_slice() {
                return geometry_by(Layout::Two, n, j, i);
            }
            None
        }
    }
}

fn geometry_by(layout: Layout, n: &[u8], j: &[u8], i: &[u8]) -> Option<Geom>
    ensures { result ≡ geometry_by layout (small_number_of n.now) (small_number_of j.now) (small_number_of i.now) }
{
    let Some(n) = small_number_of(n) else {
        return None;
    };
    let Some(j) = small_number_of(j) else {
        return None;
    };
    let Some(i) = small_number_of(i) else {
        return None;
    };
    match Geom::new_in(n, j, i, layout) {
        Ok(geom) => Some(geom),
        Err(_) => None,
    }
}

/// The accepted write with this ticket, block and bytes.
///
/// # Errors
/// Out of memory.
fn wrote_of(alloc: Global, text: &[u8]) -> Result<Option<Event>, NoMemory>
    ensures { IfOk result (λ event. event ≡ wrote_of text.now) }
{
    let Some((ticket, rest)) = cut(text) else {
        return Ok(None);
    };
    let Some(ticket) = number_of(ticket) else {
        return Ok(None);
    };
    let Some((block, bytes)) = placed_of(alloc, rest)? else {
        return Ok(None);
    };
    Ok(Some(Event::Wrote {
        ticket,
        block,
        bytes,
    }))
}

/// The lost write with this block and these bytes.
///
/// # Errors
/// Out of memory.
fn lost_of(alloc: Global, text: &[u8]) -> Result<Option<Event>, NoMemory>
    ensures { IfOk result (λ event. event ≡ lost_of text.now) }
{
    match placed_of(alloc, text)? {
        Some((block, bytes)) => Ok(Some(Event::Lost { block, bytes })),
        None => Ok(None),
    }
}

fn placed_of(alloc: Global, text: &[u8]) -> Result<Option<(u32, BoxedBlock)>, NoMemory>
    ensures { IfOk result (λ placed. placed ≡ placed_of text.now) }
{
    let Some((block, digits)) = cut(text) else {
        return Ok(None);
    };
    let Some(block) = small_number_of(block) else {
        return Ok(None);
    };
    match block_of(alloc, digits)? {
        Some(bytes) => Ok(Some((block, bytes))),
        None => Ok(None),
    }
}

/// The notice of this ticket.
fn noticed_of(text: &[u8]) -> Option<Event>
    ensures { result ≡ noticed_of text.now }
{
    match number_of(text) {
        Some(ticket) => Some(Event::Noticed { ticket }),
        None => None,
    }
}

/// The moment of a reply, and its text.
fn reply_of(text: &[u8]) -> Option<(u64, &[u8])>
    ensures { option_map (λ reply. (reply.0, reply.1.now)) result ≡ reply_of text.now }
{
    let Some((moment, reply)) = cut(text) else {
        return None;
    };
    match number_of(moment) {
        Some(moment) => Some((moment, reply)),
        None => None,
    }
}

/// The geometry of a whole line.
pub fn geometry_in(line: &[u8]) -> Option<Geom>
    ensures { result ≡ behind geometry_by_letter line.now }
{
    match line {
        [] => None,
        [_] => None,
        [first, second, rest @ ..] => {
            if *second == b' ' {
                return geometry_by_letter(*first, rest);
            }
            None
        }
    }
}

fn geometry_by_letter(first: u8, rest: &[u8]) -> Option<Geom>
    ensures { result ≡ geometry_by_letter first rest.now }
{
    if first == b'g' {
        return geometry_of(rest);
    }
    None
}

/// The event of a whole line.
///
/// # Errors
/// Out of memory.
pub fn event_in(alloc: Global, line: &[u8]) -> Result<Option<Event>, NoMemory>
    ensures { IfOk result (λ event. event ≡ behind event_by_letter line.now) }
{
    match line {
        [] => Ok(None),
        [_] => Ok(None),
        [first, second, rest @ ..] => {
            if *second == b' ' {
                let event = event_by_letter(alloc, *first, rest)?;
                return Ok(event);
            }
            Ok(None)
        }
    }
}

fn event_by_letter(alloc: Global, first: u8, rest: &[u8]) -> Result<Option<Event>, NoMemory>
    ensures { IfOk result (λ event. event ≡ event_by_letter first rest.now) }
{
    if first == b'w' {
        let event = wrote_of(alloc, rest)?;
        return Ok(event);
    }
    if first == b'f' {
        let event = lost_of(alloc, rest)?;
        return Ok(event);
    }
    if first == b'd' {
        return Ok(noticed_of(rest));
    }
    Ok(None)
}

/// The moment and the text of the reply of a whole line.
pub fn reply_in(line: &[u8]) -> Option<(u64, &[u8])>
    ensures { option_map (λ reply. (reply.0, reply.1.now)) result ≡ behind reply_by_letter line.now }
{
    match line {
        [] => None,
        [_] => None,
        [first, second, rest @ ..] => {
            if *second == b' ' {
                return reply_by_letter(*first, rest);
            }
            None
        }
    }
}

fn reply_by_letter(first: u8, rest: &[u8]) -> Option<(u64, &[u8])>
    ensures { option_map (λ reply. (reply.0, reply.1.now)) result ≡ reply_by_letter first rest.now }
{
    if first == b'r' {
        return reply_of(rest);
    }
    None
}
