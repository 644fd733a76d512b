//! The words of rows: how a line is parted, and how numbers are read.

use std::alloc::{AllocError, Global};

/// The words of a line, which single blanks part.
///
/// # Errors
/// Out of memory.
pub(crate) fn words_of(alloc: Global, line: &str) -> Result<Vec<&str>, AllocError> {
    let mut words = Vec::new(alloc);
    for word in line.split(' ') {
        words.push(word)?;
    }
    Ok(words)
}

/// The number that a word is: of blocks, of a block, or a seed.
pub(crate) fn number(word: &str) -> Option<u32> {
    word.parse().ok()
}

/// The number that a word is: a ticket, a moment, or which call.
pub(crate) fn long_number(word: &str) -> Option<u64> {
    word.parse().ok()
}

/// The number that a word is: a byte.
pub(crate) fn byte(word: &str) -> Option<u8> {
    word.parse().ok()
}
