//! What the system said when a call failed, for a message to people. No contract reads it.

use std::alloc::Global;
use std::{fmt, io};

/// What the system said when it refused a call.
#[derive(Clone, Copy, Drop)]
pub(crate) enum Refused {
    /// Of any call but a sync.
    Call(io::Error),
    /// Of a sync: what was written before it may be on no disk, though the system shows it.
    Sync(io::Error),
}

impl Refused {
    /// What the system said.
    pub(crate) fn error(self) -> io::Error {
        match self {
            Refused::Call(error) | Refused::Sync(error) => error,
        }
    }
}

impl From<io::Error> for Refused {
    fn from(error: io::Error) -> Refused {
        Refused::Call(error)
    }
}

/// A call that the system refused, and the file that it was for.
#[derive(Drop)]
pub struct FileFault {
    /// The path, where memory for it was found.
    path: Option<String>,
    refused: Refused,
}

impl FileFault {
    /// What the system said of the file at this path.
    pub(crate) fn new(alloc: Global, path: &str, refused: Refused) -> FileFault {
        let path = String::from_str(alloc, path).ok();
        FileFault { path, refused }
    }

    /// What the system said.
    pub fn error(&self) -> io::Error {
        self.refused.error()
    }

    /// Whether it is of the file at this path.
    pub fn is_of(&self, path: &str) -> bool {
        self.path.as_ref().is_some_and(|own| own.as_str() == path)
    }
}

/// The path, what the system said, and what is to be done about it, on one line.
impl fmt::Display for FileFault {
    fn fmt<W: fmt::Write>(&self, f: &mut fmt::Formatter<W>) -> fmt::Result {
        match &self.path {
            Some(path) => f.write_str(path.as_str())?,
            None => f.write_str("an image file")?,
        }
        match &self.refused {
            Refused::Call(error) => write!(f, ": {}", error),
            Refused::Sync(error) => write!(
                f,
                ": a sync failed, so the file isn't to be used until the system has started anew: {}",
                error
            ),
        }
    }
}
