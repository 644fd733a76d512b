//! Small words that several layers pass on: which kind of block a write is, and a read that failed.

use std::error::Error;
use std::fmt;

/// What a block holds, which decides how a commit writes it.
#[derive(Clone, Copy, Debug, PartialEq, Eq)]
pub enum Class {
    /// A block of the bitmap, the node table or a directory.
    Meta,
    /// A block of a file.
    Content,
}

/// The disk couldn't read a block.
#[derive(Clone, Copy, Debug, PartialEq, Eq)]
pub struct ReadFault;

impl fmt::Display for ReadFault {
    fn fmt<W: fmt::Write>(&self, f: &mut fmt::Formatter<W>) -> fmt::Result {
        write!(f, "a block could not be read")
    }
}

impl Error for ReadFault {}
