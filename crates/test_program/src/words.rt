//! The words of rows: how a line is parted, and how numbers and bytes are read.

use base_types::NoMemory;
use hex::FromHexError;
use std::alloc::{AllocError, Global};

/// The words of a line, which single blanks part.
///
/// # Errors
/// Out of memory.
pub(crate) fn words_of(alloc: Global, line: &str) -> Result<Vec<&str>, AllocError> {
    let mut words = Vec::new(alloc);
    for word in line.split(' ') {
        words.push(word)?;
    }
    Ok(words)
}

/// These words, each as a text of its own.
///
/// # Errors
/// Out of memory.
pub(crate) fn strings_of(alloc: Global, words: &[&str]) -> Result<Vec<String>, NoMemory> {
    let mut strings = Vec::new(alloc);
    for word in words {
        strings.push(String::from_str(alloc, word)?)?;
    }
    Ok(strings)
}

/// The number that a word is.
pub(crate) fn number(word: &str) -> Option<u32> {
    word.parse().ok()
}

/// The number that a word is: of bytes, or of a call.
pub(crate) fn long_number(word: &str) -> Option<u64> {
    word.parse().ok()
}

/// The number that a word is: of bytes in memory.
pub(crate) fn size(word: &str) -> Option<usize> {
    word.parse().ok()
}

/// The numbers that these words are; none where the word is `none`.
///
/// # Errors
/// Out of memory.
pub(crate) fn numbers_of(alloc: Global, words: &[&str]) -> Result<Option<Vec<u64>>, NoMemory> {
    let mut numbers = Vec::new(alloc);
    if words == ["none"].as_slice() {
        return Ok(Some(numbers));
    }
    for word in words {
        let Some(one) = long_number(word) else {
            return Ok(None);
        };
        numbers.push(one)?;
    }
    Ok(Some(numbers))
}

/// The bytes that these words are, one behind the other, each as pairs of hexadecimal digits.
///
/// # Errors
/// Out of memory.
pub(crate) fn bytes_of(alloc: Global, words: &[&str]) -> Result<Option<Vec<u8>>, NoMemory> {
    let mut bytes = Vec::new(alloc);
    for word in words {
        match hex::decode(alloc, *word) {
            Ok(part) => bytes.extend_from_slice(part.as_slice())?,
            Err(FromHexError::OutOfMemory) => return Err(NoMemory),
            Err(_) => return Ok(None),
        }
    }
    Ok(Some(bytes))
}
