//! Why a disk wasn't mounted.

ghost use Rattle.std.specs.Prelude.{◌≡◌};
ghost use Rattle.engine_mount.specs.Refusal.{refusal_of};

use engine_recover::RecoverRefusal;
use std::error::Error;
use std::fmt;

/// Why a disk wasn't mounted.
#[derive(Clone, Copy, Debug)]
pub enum MountRefusal {
    /// Neither slot has a header.
    NoHeader,
    /// A turn, a number of a record or an epoch is at its end.
    Spent,
    /// A read failed, which the disk has counted.
    ReadFault,
    /// A write or a wait failed, which the disk has counted.
    DiskFault,
    /// Out of memory.
    NoMemory,
}

impl fmt::Display for MountRefusal {
    fn fmt<W: fmt::Write>(&self, f: &mut fmt::Formatter<W>) -> fmt::Result {
        match self {
            MountRefusal::NoHeader => write!(f, "neither block 0 nor block 1 has a header"),
            MountRefusal::Spent => write!(f, "the numbers of the journal are used up"),
            MountRefusal::ReadFault => write!(f, "a read of the disk failed"),
            MountRefusal::DiskFault => write!(f, "a write or a wait of the disk failed"),
            MountRefusal::NoMemory => write!(f, "out of memory"),
        }
    }
}

impl Error for MountRefusal {}

/// The same refusal of a mount.
pub(crate) fn refusal_of(why: RecoverRefusal) -> MountRefusal
    ensures { result ≡ refusal_of why }
{
    match why {
        RecoverRefusal::NoHeader => MountRefusal::NoHeader,
        RecoverRefusal::Spent => MountRefusal::Spent,
        RecoverRefusal::ReadFault => MountRefusal::ReadFault,
        RecoverRefusal::NoMemory => MountRefusal::NoMemory,
    }
}
