//! What a row asks of the mirror at hand, and what comes of it.

use crate::begun::{Begun, Pair, begin};
use crate::words::{byte, long_number, number, words_of};
use base_types::{Block, NoMemory};
use disk_contract::{Disk, Mark};
use std::alloc::Global;

/// How a row came out.
#[derive(Drop)]
pub(crate) enum Outcome {
    /// Its answer is what came.
    Right,
    /// This came.
    Wrong(Vec<u8>),
    /// It is no row.
    Unreadable,
}

/// Takes a row: makes its call and compares the answer.
///
/// # Errors
/// Out of memory.
pub(crate) fn take(
    alloc: Global,
    at_hand: &mut Option<Pair>,
    text: &str,
) -> Result<Outcome, NoMemory> {
    let Some((question, wanted)) = text.split_once(" = ") else {
        return Ok(Outcome::Unreadable);
    };
    let answer = match question.strip_prefix("mirror ") {
        Some(words) => made(alloc, at_hand, words)?,
        None => match at_hand {
            Some(mirror) => ask(alloc, mirror, question)?,
            None => None,
        },
    };
    let Some(answer) = answer else {
        return Ok(Outcome::Unreadable);
    };
    if answer.as_str() == wanted {
        return Ok(Outcome::Right);
    }
    Ok(Outcome::Wrong(Vec::from_slice(alloc, answer.as_bytes())?))
}

// Begins a mirror.
fn made(
    alloc: Global,
    at_hand: &mut Option<Pair>,
    words: &str,
) -> Result<Option<String>, NoMemory> {
    match begin(alloc, words)? {
        Begun::Made(mirror) => {
            *at_hand = Some(mirror);
            Ok(Some(String::from_str(alloc, "ok")?))
        }
        Begun::Unlike => Ok(Some(String::from_str(alloc, "unlike")?)),
        Begun::Unreadable => Ok(None),
    }
}

// Makes the call of the question. None where it is no question.
fn ask(alloc: Global, mirror: &mut Pair, question: &str) -> Result<Option<String>, NoMemory> {
    let words = words_of(alloc, question)?;
    match words.as_slice() {
        ["write", block, value] => write(alloc, mirror, block, value),
        ["writes", most] => writes(alloc, mirror, most),
        ["read", block] => read(alloc, mirror, block),
        ["poll"] => poll(alloc, mirror),
        ["polls", most] => polls(alloc, mirror, most),
        ["wait", ticket] => wait(alloc, mirror, ticket),
        ["marks", moments @ ..] => marks(alloc, mirror, moments),
        ["state"] => Ok(Some(state(alloc, mirror)?)),
        _ => Ok(None),
    }
}

// Writes a block of this byte: its ticket, or `fault`.
fn write(
    alloc: Global,
    mirror: &mut Pair,
    block: &str,
    value: &str,
) -> Result<Option<String>, NoMemory> {
    let (Some(block), Some(value)) = (number(block), byte(value)) else {
        return Ok(None);
    };
    if block >= mirror.blocks() {
        return Ok(None);
    }
    let from: Block = [value; 1024];
    match mirror.write(block, &from) {
        Ok(ticket) => Ok(Some(ticket.to_string(alloc)?)),
        Err(_) => Ok(Some(String::from_str(alloc, "fault")?)),
    }
}

// Writes to block 0 so often, where there is one: how many of the writes were accepted.
fn writes(alloc: Global, mirror: &mut Pair, most: &str) -> Result<Option<String>, NoMemory> {
    let Some(most) = number(most) else {
        return Ok(None);
    };
    let from: Block = [0; 1024];
    let mut accepted = 0u64;
    for _ in 0..most {
        if mirror.blocks() == 0 {
            return Ok(None);
        }
        if mirror.write(0, &from).is_ok() {
            accepted = accepted.saturating_add(1);
        }
    }
    Ok(Some(accepted.to_string(alloc)?))
}

// Reads a block: its first byte, or `fault`.
fn read(alloc: Global, mirror: &mut Pair, block: &str) -> Result<Option<String>, NoMemory> {
    let Some(block) = number(block) else {
        return Ok(None);
    };
    if block >= mirror.blocks() {
        return Ok(None);
    }
    let mut into: Block = [0; 1024];
    match mirror.read(block, &mut into) {
        Ok(()) => Ok(Some(into[0].to_string(alloc)?)),
        Err(_) => Ok(Some(String::from_str(alloc, "fault")?)),
    }
}

// Polls once: a ticket, `none`, or `fault`.
fn poll(alloc: Global, mirror: &mut Pair) -> Result<Option<String>, NoMemory> {
    match mirror.poll() {
        Ok(Some(ticket)) => Ok(Some(ticket.to_string(alloc)?)),
        Ok(None) => Ok(Some(String::from_str(alloc, "none")?)),
        Err(_) => Ok(Some(String::from_str(alloc, "fault")?)),
    }
}

// Polls so often: how many tickets came.
fn polls(alloc: Global, mirror: &mut Pair, most: &str) -> Result<Option<String>, NoMemory> {
    let Some(most) = number(most) else {
        return Ok(None);
    };
    let mut came = 0u64;
    for _ in 0..most {
        if let Ok(Some(_)) = mirror.poll() {
            came = came.saturating_add(1);
        }
    }
    Ok(Some(came.to_string(alloc)?))
}

// Waits for a ticket: `ok`, or `fault`.
fn wait(alloc: Global, mirror: &mut Pair, ticket: &str) -> Result<Option<String>, NoMemory> {
    let Some(ticket) = long_number(ticket) else {
        return Ok(None);
    };
    match mirror.wait(ticket) {
        Ok(()) => Ok(Some(String::from_str(alloc, "ok")?)),
        Err(_) => Ok(Some(String::from_str(alloc, "fault")?)),
    }
}

// What is known of the mirror: its moment, its counts, and of each disk whether it is live, or else where it went down.
fn state(alloc: Global, mirror: &Pair) -> Result<String, NoMemory> {
    let mut text = String::new(alloc);
    let (read_faults, faults) = mirror.counts();
    let (first, second) = mirror.live();
    let (end_first, end_second) = mirror.ends();
    add(alloc, &mut text, "", mirror.moment())?;
    add(alloc, &mut text, " ", read_faults)?;
    add(alloc, &mut text, " ", faults)?;
    add_life(alloc, &mut text, first, end_first)?;
    add_life(alloc, &mut text, second, end_second)?;
    Ok(text)
}

// Adds whether a disk is live, or where it went down.
fn add_life(alloc: Global, text: &mut String, live: bool, end: u64) -> Result<(), NoMemory> {
    if live {
        text.push_str(" live")?;
        return Ok(());
    }
    add(alloc, text, " down-", end)
}

// The marks of the two disks for marks of the mirror at these moments.
fn marks(alloc: Global, mirror: &Pair, moments: &[&str]) -> Result<Option<String>, NoMemory> {
    let mut marks = Vec::new(alloc);
    for moment in moments {
        let Some(moment) = long_number(moment) else {
            return Ok(None);
        };
        marks.push(Mark {
            moment,
            read_faults: 0,
            faults: 0,
        })?;
    }
    let (first, second) = mirror.marks(alloc, marks.as_slice())?;
    let mut text = String::from_str(alloc, "first")?;
    add_marks(alloc, &mut text, first.as_slice())?;
    text.push_str(" second")?;
    add_marks(alloc, &mut text, second.as_slice())?;
    Ok(Some(text))
}

// Adds marks, each as its moment and its two counts.
fn add_marks(alloc: Global, text: &mut String, marks: &[Mark]) -> Result<(), NoMemory> {
    for mark in marks {
        add(alloc, text, " ", mark.moment)?;
        add(alloc, text, "/", mark.read_faults)?;
        add(alloc, text, "/", mark.faults)?;
    }
    Ok(())
}

// Adds a text and a number.
fn add(alloc: Global, text: &mut String, before: &str, number: u64) -> Result<(), NoMemory> {
    text.push_str(before)?;
    text.push_str(number.to_string(alloc)?.as_str())?;
    Ok(())
}
