//! Why a snapshot wasn't read. When each refusal comes is described by the clauses of the calls.

use base_types::ReadFault;
use std::alloc::AllocError;
use std::error::Error;
use std::fmt;

/// Why a snapshot wasn't read.
#[derive(Clone, Copy, Debug)]
pub enum SnapshotRefusal {
    /// It hasn't as many blocks as its name, its node table and its directories need.
    WrongSize,
    /// A read of the disk failed, which the disk has counted.
    ReadFault,
    /// Out of memory.
    NoMemory,
}

impl fmt::Display for SnapshotRefusal {
    fn fmt<W: fmt::Write>(&self, f: &mut fmt::Formatter<W>) -> fmt::Result {
        match self {
            SnapshotRefusal::WrongSize => write!(f, "a snapshot has too few or too many blocks"),
            SnapshotRefusal::ReadFault => write!(f, "a block could not be read"),
            SnapshotRefusal::NoMemory => write!(f, "out of memory"),
        }
    }
}

impl Error for SnapshotRefusal {}

impl From<ReadFault> for SnapshotRefusal {
    ghost use Rattle.std.specs.Prelude.{◌≡◌};
    ghost use Rattle.fs_snapshots.specs.declared.refusal.SnapshotRefusal.TheVariants.{ReadFault as Unread};

    ghost from_gives = { λ _ refusal. refusal ≡ Unread };

    fn from(_: ReadFault) -> SnapshotRefusal {
        SnapshotRefusal::ReadFault
    }
}

impl From<AllocError> for SnapshotRefusal {
    ghost use Rattle.std.specs.Prelude.{◌≡◌};
    ghost use Rattle.fs_snapshots.specs.declared.refusal.SnapshotRefusal.TheVariants.{NoMemory as OutOfMemory};

    ghost from_gives = { λ _ refusal. refusal ≡ OutOfMemory };

    fn from(_: AllocError) -> SnapshotRefusal {
        SnapshotRefusal::NoMemory
    }
}
