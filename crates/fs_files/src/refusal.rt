//! Why a call on a file was refused. When each refusal comes is described by the clauses of the calls.

use base_types::{NoMemory, ReadFault};
use std::alloc::AllocError;
use std::error::Error;
use std::fmt;

/// Why a call on a file was refused. The draft isn't to be used any more then.
#[derive(Clone, Copy, Debug)]
pub enum FileRefusal {
    /// A read of the disk failed, which the disk has counted.
    ReadFault,
    /// Fewer blocks than the file grows by may be taken, and none waits to be so again.
    Short {
        /// By how many blocks the file grows.
        need: u32,
        /// How many there are.
        reusable: u32,
    },
    /// The file's blocks would lie in more runs than a node has room for.
    Scattered {
        /// In how many runs they would lie.
        runs: u64,
    },
    /// A write, a poll or a wait of the disk failed, which the disk has counted.
    DiskFault,
    /// Out of memory.
    NoMemory,
}

impl fmt::Display for FileRefusal {
    fn fmt<W: fmt::Write>(&self, f: &mut fmt::Formatter<W>) -> fmt::Result {
        match self {
            FileRefusal::ReadFault => write!(f, "a block could not be read"),
            FileRefusal::Short { need, reusable } => {
                write!(f, "{need} blocks are needed, and {reusable} are free")
            }
            FileRefusal::Scattered { runs } => {
                write!(
                    f,
                    "the blocks lie in {runs} runs, more than there is room for"
                )
            }
            FileRefusal::DiskFault => write!(f, "a call of the disk failed"),
            FileRefusal::NoMemory => write!(f, "out of memory"),
        }
    }
}

impl Error for FileRefusal {}

impl From<NoMemory> for FileRefusal {
    ghost use Rattle.std.specs.Prelude.{◌≡◌};
    ghost use Rattle.fs_files.specs.declared.refusal.FileRefusal.TheVariants.{NoMemory as OutOfMemory};

    ghost from_gives = { λ _ refusal. refusal ≡ OutOfMemory };

    fn from(_: NoMemory) -> FileRefusal {
        FileRefusal::NoMemory
    }
}

impl From<ReadFault> for FileRefusal {
    ghost use Rattle.std.specs.Prelude.{◌≡◌};
    ghost use Rattle.fs_files.specs.declared.refusal.FileRefusal.TheVariants.{ReadFault as Unread};

    ghost from_gives = { λ _ refusal. refusal ≡ Unread };

    fn from(_: ReadFault) -> FileRefusal {
        FileRefusal::ReadFault
    }
}

impl From<AllocError> for FileRefusal {
    ghost use Rattle.std.specs.Prelude.{◌≡◌};
    ghost use Rattle.fs_files.specs.declared.refusal.FileRefusal.TheVariants.{NoMemory as OutOfMemory};

    ghost from_gives = { λ _ refusal. refusal ≡ OutOfMemory };

    fn from(_: AllocError) -> FileRefusal {
        FileRefusal::NoMemory
    }
}
