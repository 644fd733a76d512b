//! From a row to what became of it: an act is done, or a question is asked and its answer compared. Nothing is printed here.

ghost use Rattle.std.specs.Prelude.{◌≡◌, ◌↔◌};
ghost use Rattle.test_program.specs.declared.questions.Outcome.TheVariants.{Right};

use crate::acts::act;
use crate::at_hand::AtHand;
use crate::digests::{digest_text, is_sealed_there, sha256_text};
use crate::images::{are_equal, blocks_text, bytes_text, events_text, marks_text};
use crate::streams::Streams;
use crate::texts::{flat, has_front, lines_of, push_number};
use crate::words::{number, size, words_of};
use base_types::NoMemory;
use disk_memory_bay::MemBay;
use std::alloc::Global;

/// What became of a row.
#[derive(Drop)]
pub enum Outcome {
    /// Its answer is the text that it says, or its act is done.
    Right,
    /// Its answer is this text and another one than it says.
    Wrong(Vec<u8>),
    /// It is no row.
    Unreadable,
}

/// Takes a row: does an act, or asks and compares. A line of the input is an act whatever it has.
///
/// # Errors
/// Out of memory.
pub(crate) fn take(alloc: Global, at_hand: &mut AtHand, text: &str) -> Result<Outcome, NoMemory> {
    if text.starts_with('<') {
        return done(alloc, at_hand, text);
    }
    match text.split_once(" = ") {
        Some((said, wanted)) => asked(alloc, at_hand, said, wanted),
        None => done(alloc, at_hand, text),
    }
}

// What becomes of an act.
fn done(alloc: Global, at_hand: &mut AtHand, text: &str) -> Result<Outcome, NoMemory> {
    if act(alloc, at_hand, text)? {
        Ok(Outcome::Right)
    } else {
        Ok(Outcome::Unreadable)
    }
}

// What becomes of a question.
fn asked(
    alloc: Global,
    at_hand: &mut AtHand,
    said: &str,
    wanted: &str,
) -> Result<Outcome, NoMemory> {
    match answer(alloc, at_hand, said)? {
        Some(answer) => Ok(compared(answer, wanted.as_bytes())),
        None => Ok(Outcome::Unreadable),
    }
}

// The answer to a question; `None` where it is none.
fn answer(alloc: Global, at_hand: &mut AtHand, said: &str) -> Result<Option<Vec<u8>>, NoMemory> {
    let words = words_of(alloc, said)?;
    match words.as_slice() {
        ["run", words @ ..] => run(alloc, at_hand, words),
        ["status", words @ ..] => status(alloc, at_hand, words),
        words => {
            if let Some(text) = of_output(alloc, &at_hand.streams, said, words)? {
                return Ok(Some(text));
            }
            of_bay(alloc, &at_hand.bay, words)
        }
    }
}

// Runs the program with these words: the number of its status, and its output.
fn run(alloc: Global, at_hand: &mut AtHand, words: &[&str]) -> Result<Option<Vec<u8>>, NoMemory> {
    let number = at_hand.run(alloc, words)?;
    let mut text = Vec::new(alloc);
    push_number(alloc, &mut text, u64::from(number))?;
    if !at_hand.streams.output.is_empty() {
        text.push(b' ')?;
        let output = flat(alloc, at_hand.streams.output.as_slice())?;
        text.extend_from_slice(output.as_slice())?;
    }
    Ok(Some(text))
}

// Runs the program with these words: the number of its status alone.
fn status(
    alloc: Global,
    at_hand: &mut AtHand,
    words: &[&str],
) -> Result<Option<Vec<u8>>, NoMemory> {
    let number = at_hand.run(alloc, words)?;
    let text = text_of(alloc, u64::from(number))?;
    Ok(Some(text))
}

// What is asked of the streams by this text, which has these words.
fn of_output(
    alloc: Global,
    streams: &Streams,
    said: &str,
    words: &[&str],
) -> Result<Option<Vec<u8>>, NoMemory> {
    let output = streams.output.as_slice();
    let kept = streams.kept.as_slice();
    if let Some(front) = said.strip_prefix("begins ") {
        let text = told(alloc, has_front(output, front.as_bytes()))?;
        return Ok(Some(text));
    }
    let text = match words {
        ["lines", letters] => lines_of(alloc, output, letters.as_bytes())?,
        ["same"] => told(alloc, output == kept)?,
        ["front"] => told(alloc, output.len() < kept.len() && kept.starts_with(output))?,
        ["bytes"] => text_of(alloc, output.len() as u64)?,
        ["left"] => text_of(alloc, streams.left)?,
        ["sha256"] => sha256_text(alloc, streams.input.as_slice())?,
        _ => return Ok(None),
    };
    Ok(Some(text))
}

// What is asked of the bay.
fn of_bay(alloc: Global, bay: &MemBay, words: &[&str]) -> Result<Option<Vec<u8>>, NoMemory> {
    match words {
        ["blocks", name] => {
            let text = blocks_text(alloc, bay, name)?;
            Ok(Some(text))
        }
        ["block", name, block, offset, count] => {
            block_answer(alloc, bay, name, (block, offset, count))
        }
        ["equal", one, other] => match are_equal(bay, one, other) {
            Some(equal) => {
                let text = told(alloc, equal)?;
                Ok(Some(text))
            }
            None => Ok(None),
        },
        ["digest", name, block] => match number(block) {
            Some(block) => digest_text(alloc, bay, name, block),
            None => Ok(None),
        },
        ["sealed", name, block] => sealed_answer(alloc, bay, name, block),
        ["events", name] => events_text(alloc, bay, name),
        ["marks", name] => {
            let text = marks_text(alloc, bay, name)?;
            Ok(Some(text))
        }
        _ => Ok(None),
    }
}

// So many bytes of a block.
fn block_answer(
    alloc: Global,
    bay: &MemBay,
    name: &str,
    place: (&str, &str, &str),
) -> Result<Option<Vec<u8>>, NoMemory> {
    let (block, offset, count) = place;
    match (number(block), size(offset), size(count)) {
        (Some(block), Some(offset), Some(count)) => {
            bytes_text(alloc, bay, name, (block, offset), count)
        }
        _ => Ok(None),
    }
}

// Whether a block is sealed.
fn sealed_answer(
    alloc: Global,
    bay: &MemBay,
    name: &str,
    block: &str,
) -> Result<Option<Vec<u8>>, NoMemory> {
    match number(block).and_then(|b| is_sealed_there(bay, name, b)) {
        Some(is_so) => {
            let text = told(alloc, is_so)?;
            Ok(Some(text))
        }
        None => Ok(None),
    }
}

// The text of a number.
fn text_of(alloc: Global, number: u64) -> Result<Vec<u8>, NoMemory> {
    let mut text = Vec::new(alloc);
    push_number(alloc, &mut text, number)?;
    Ok(text)
}

// `yes` or `no`.
fn told(alloc: Global, is_so: bool) -> Result<Vec<u8>, NoMemory> {
    let text = if is_so { "yes" } else { "no" };
    let text = Vec::from_slice(alloc, text.as_bytes())?;
    Ok(text)
}

// Right exactly where the answer is the text that was wanted.
fn compared(answer: Vec<u8>, wanted: &[u8]) -> Outcome
    ensures { (result ≡ Right) ↔ (answer.items ≡ wanted.now) }
{
    if answer.as_slice() == wanted {
        Outcome::Right
    } else {
        Outcome::Wrong(answer)
    }
}
