//! The rows that do something and ask nothing: they change the bay, its images, the input, and which calls fail.

use crate::at_hand::AtHand;
use crate::digests::seal_there;
use crate::fails::{bay_fails_of, disk_fails_of};
use crate::images::{put_formatted, put_zeros, set_bytes};
use crate::streams::Streams;
use crate::words::{bytes_of, long_number, number, numbers_of, size, words_of};
use base_types::NoMemory;
use disk_memory_bay::MemBay;
use layout_geometry::Geom;
use std::alloc::Global;

/// Does what the row says. Whether it says something.
///
/// # Errors
/// Out of memory.
pub(crate) fn act(alloc: Global, at_hand: &mut AtHand, text: &str) -> Result<bool, NoMemory> {
    if let Some(line) = text.strip_prefix('<') {
        return add_input(alloc, &mut at_hand.streams.input, line);
    }
    let words = words_of(alloc, text)?;
    let words = words.as_slice();
    match words {
        ["bay", room] => Ok(begin(alloc, at_hand, room)),
        ["image", name, kind @ ..] => put_image(alloc, &mut at_hand.bay, name, kind),
        ["set", name, block, offset, digits @ ..] => {
            set(alloc, &mut at_hand.bay, (name, block, offset), digits)
        }
        ["seal", name, block] => seal(alloc, &mut at_hand.bay, name, block),
        ["fail", "bay", calls @ ..] => fail_bay(alloc, &mut at_hand.bay, calls),
        ["fail", "disk", name, calls @ ..] => fail_disk(alloc, &mut at_hand.bay, name, calls),
        _ => set_streams(alloc, &mut at_hand.streams, words),
    }
}

// Begins anew.
fn begin(alloc: Global, at_hand: &mut AtHand, room: &str) -> bool {
    match number(room) {
        Some(room) => {
            at_hand.begin(alloc, room);
            true
        }
        None => false,
    }
}

// Adds to the input what stands behind the sign of such a row.
fn add_input(alloc: Global, input: &mut Vec<u8>, line: &str) -> Result<bool, NoMemory> {
    if let Some(text) = line.strip_prefix(' ') {
        input.extend_from_slice(text.as_bytes())?;
        input.push(b'\n')?;
        return Ok(true);
    }
    if let Some(text) = line.strip_prefix("part ") {
        input.extend_from_slice(text.as_bytes())?;
        return Ok(true);
    }
    let words = words_of(alloc, line)?;
    match words.as_slice() {
        [""] => {
            input.push(b'\n')?;
            Ok(true)
        }
        ["hex", digits @ ..] => add_bytes(alloc, input, 1, digits),
        ["times", count, digits @ ..] => match number(count) {
            Some(count) => add_bytes(alloc, input, count, digits),
            None => Ok(false),
        },
        ["again", count] => match number(count) {
            Some(count) => add_again(alloc, input, count),
            None => Ok(false),
        },
        _ => Ok(false),
    }
}

// Adds so many times what the input has.
fn add_again(alloc: Global, input: &mut Vec<u8>, count: u32) -> Result<bool, NoMemory> {
    let so_far = Vec::from_slice(alloc, input.as_slice())?;
    for _ in 0..count {
        input.extend_from_slice(so_far.as_slice())?;
    }
    Ok(true)
}

// Adds these bytes so many times.
fn add_bytes(
    alloc: Global,
    input: &mut Vec<u8>,
    count: u32,
    digits: &[&str],
) -> Result<bool, NoMemory> {
    let Some(bytes) = bytes_of(alloc, digits)? else {
        return Ok(false);
    };
    for _ in 0..count {
        input.extend_from_slice(bytes.as_slice())?;
    }
    Ok(true)
}

// Puts an image under a name.
fn put_image(alloc: Global, bay: &mut MemBay, name: &str, kind: &[&str]) -> Result<bool, NoMemory> {
    match kind {
        ["zeros", blocks] => match number(blocks) {
            Some(blocks) => {
                put_zeros(alloc, bay, name, blocks)?;
                Ok(true)
            }
            None => Ok(false),
        },
        ["formatted", n, j, i] => match geometry(n, j, i) {
            Some(geom) => {
                put_formatted(alloc, bay, name, &geom)?;
                Ok(true)
            }
            None => Ok(false),
        },
        _ => Ok(false),
    }
}

// The geometry of these numbers, if they fit together.
fn geometry(n: &str, j: &str, i: &str) -> Option<Geom> {
    let n = number(n)?;
    let j = number(j)?;
    let i = number(i)?;
    Geom::new(n, j, i).ok()
}

// Puts bytes into a block of an image.
fn set(
    alloc: Global,
    bay: &mut MemBay,
    place: (&str, &str, &str),
    digits: &[&str],
) -> Result<bool, NoMemory> {
    let (name, block, offset) = place;
    let (Some(block), Some(offset)) = (number(block), size(offset)) else {
        return Ok(false);
    };
    match bytes_of(alloc, digits)? {
        Some(bytes) => set_bytes(alloc, bay, name, (block, offset), bytes.as_slice()),
        None => Ok(false),
    }
}

// Seals a block of an image.
fn seal(alloc: Global, bay: &mut MemBay, name: &str, block: &str) -> Result<bool, NoMemory> {
    match number(block) {
        Some(block) => seal_there(alloc, bay, name, block),
        None => Ok(false),
    }
}

// Lists which calls of the bay fail.
fn fail_bay(alloc: Global, bay: &mut MemBay, calls: &[&str]) -> Result<bool, NoMemory> {
    match bay_fails_of(alloc, calls)? {
        Some(fails) => {
            bay.fail_at(fails.as_slice())?;
            Ok(true)
        }
        None => Ok(false),
    }
}

// Lists which calls of the disks under a name fail.
fn fail_disk(
    alloc: Global,
    bay: &mut MemBay,
    name: &str,
    calls: &[&str],
) -> Result<bool, NoMemory> {
    match disk_fails_of(alloc, calls)? {
        Some(fails) => {
            bay.disk_fail_at(name, fails.as_slice())?;
            Ok(true)
        }
        None => Ok(false),
    }
}

// Does what a row says of the streams.
fn set_streams(alloc: Global, streams: &mut Streams, words: &[&str]) -> Result<bool, NoMemory> {
    match words {
        ["fail", "source", calls @ ..] => match numbers_of(alloc, calls)? {
            Some(fails) => streams.source_fails = fails,
            None => return Ok(false),
        },
        ["fail", "sink", calls @ ..] => match numbers_of(alloc, calls)? {
            Some(fails) => streams.sink_fails = fails,
            None => return Ok(false),
        },
        ["pieces", piece] => match size(piece) {
            Some(piece) => streams.piece = piece,
            None => return Ok(false),
        },
        ["room", room] => match long_number(room) {
            Some(room) => streams.room = room,
            None => return Ok(false),
        },
        _ => return move_text(alloc, streams, words),
    }
    Ok(true)
}

// Takes one text of the streams as another one.
fn move_text(alloc: Global, streams: &mut Streams, words: &[&str]) -> Result<bool, NoMemory> {
    match words {
        ["no", "input"] => streams.input = Vec::new(alloc),
        ["input", "is", "output"] => {
            streams.input = Vec::from_slice(alloc, streams.output.as_slice())?
        }
        ["keep", "output"] => streams.kept = Vec::from_slice(alloc, streams.output.as_slice())?,
        ["keep", "input"] => streams.kept = Vec::from_slice(alloc, streams.input.as_slice())?,
        _ => return Ok(false),
    }
    Ok(true)
}
