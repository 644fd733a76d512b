//! Why a store wasn't opened.

ghost use Rattle.std.specs.Prelude.{◌≡◌};
ghost use Rattle.engine_store.specs.Refusal.{refusal_of};

use engine_mount::MountRefusal;
use std::error::Error;
use std::fmt;

/// Why a store wasn't opened.
#[derive(Clone, Copy, Debug)]
pub enum StoreRefusal {
    /// Neither slot has a header.
    NoHeader,
    /// The bitmap has a wrong bit for this block, and for none before it.
    BadBit(u32),
    /// A turn, a number of a record or an epoch is at its end.
    Spent,
    /// A read failed, which the disk has counted.
    ReadFault,
    /// A write or a wait failed, which the disk has counted.
    DiskFault,
    /// Out of memory.
    NoMemory,
}

impl fmt::Display for StoreRefusal {
    fn fmt<W: fmt::Write>(&self, f: &mut fmt::Formatter<W>) -> fmt::Result {
        match self {
            StoreRefusal::NoHeader => write!(f, "neither block 0 nor block 1 has a header"),
            StoreRefusal::BadBit(block) => {
                write!(f, "the bitmap has a wrong bit for block {}", block)
            }
            StoreRefusal::Spent => write!(f, "the numbers of the journal are used up"),
            StoreRefusal::ReadFault => write!(f, "a read of the disk failed"),
            StoreRefusal::DiskFault => write!(f, "a write or a wait of the disk failed"),
            StoreRefusal::NoMemory => write!(f, "out of memory"),
        }
    }
}

impl Error for StoreRefusal {}

/// The refusal of a mount, as one of a store.
pub(crate) fn refusal_of(why: MountRefusal) -> StoreRefusal
    ensures { result ≡ refusal_of why }
{
    match why {
        MountRefusal::NoHeader => StoreRefusal::NoHeader,
        MountRefusal::Spent => StoreRefusal::Spent,
        MountRefusal::ReadFault => StoreRefusal::ReadFault,
        MountRefusal::DiskFault => StoreRefusal::DiskFault,
        MountRefusal::NoMemory => StoreRefusal::NoMemory,
    }
}
