//! How outputs, numbers and bytes are written in rows.

use base_types::NoMemory;
use std::alloc::Global;

/// How many bytes a word has at most that is written as it is.
const LONGEST: usize = 64;

/// A text with a semicolon for each line feed, and its words as `push_word` writes them.
///
/// # Errors
/// Out of memory.
pub(crate) fn flat(alloc: Global, text: &[u8]) -> Result<Vec<u8>, NoMemory> {
    let mut flat = Vec::new(alloc);
    let mut is_first = true;
    for line in text.split(|byte| *byte == b'\n') {
        if !is_first {
            flat.push(b';')?;
        }
        is_first = false;
        push_line(alloc, &mut flat, line)?;
    }
    Ok(flat)
}

/// The lines of a text that begin with one of these letters, each with a semicolon behind it.
///
/// # Errors
/// Out of memory.
pub(crate) fn lines_of(alloc: Global, text: &[u8], letters: &[u8]) -> Result<Vec<u8>, NoMemory> {
    let mut lines = Vec::new(alloc);
    for line in text.split(|byte| *byte == b'\n') {
        if begins(line, letters) {
            push_line(alloc, &mut lines, line)?;
            lines.push(b';')?;
        }
    }
    Ok(lines)
}

/// Whether a line of a text begins with this.
pub(crate) fn has_front(text: &[u8], front: &[u8]) -> bool {
    text.split(|byte| *byte == b'\n')
        .any(|line| line.starts_with(front))
}

// Whether a line begins with one of these letters.
fn begins(line: &[u8], letters: &[u8]) -> bool {
    match line.first() {
        Some(first) => letters.contains(first),
        None => false,
    }
}

// Adds the words of a line.
fn push_line(alloc: Global, text: &mut Vec<u8>, line: &[u8]) -> Result<(), NoMemory> {
    let mut is_first = true;
    for word in line.split(|byte| *byte == b' ') {
        if !is_first {
            text.push(b' ')?;
        }
        is_first = false;
        push_word(alloc, text, word)?;
    }
    Ok(())
}

// Adds a word as it is, if it isn't longer than `LONGEST`. A longer one that is one byte so many times is written as
// `{f 262130}`, and any other as `..`.
fn push_word(alloc: Global, text: &mut Vec<u8>, word: &[u8]) -> Result<(), NoMemory> {
    if word.len() <= LONGEST {
        text.extend_from_slice(word)?;
        return Ok(());
    }
    let first = word[0];
    if !word.iter().all(|byte| *byte == first) {
        text.extend_from_slice(b"..")?;
        return Ok(());
    }
    text.push(b'{')?;
    text.push(first)?;
    text.push(b' ')?;
    push_number(alloc, text, word.len() as u64)?;
    text.push(b'}')?;
    Ok(())
}

/// Adds a number.
///
/// # Errors
/// Out of memory.
pub(crate) fn push_number(alloc: Global, text: &mut Vec<u8>, number: u64) -> Result<(), NoMemory> {
    let digits = number.to_string(alloc)?;
    text.extend_from_slice(digits.as_bytes())?;
    Ok(())
}
