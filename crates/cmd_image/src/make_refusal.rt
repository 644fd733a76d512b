//! Why an image wasn't made, and which refusal comes of which of the layers below. When each comes is described by the
//! clauses of the call.

ghost use Rattle.std.specs.Prelude.{◌≡◌};
ghost use Rattle.cmd_image.specs.Makes.{make_refusal_of_bay, of_mkfs};

use disk_contract::BayFault;
use engine_store::MkfsRefusal;
use std::error::Error;
use std::fmt;

/// Why an image wasn't made.
#[derive(Clone, Copy, Debug, PartialEq, Eq)]
pub enum MakeRefusal {
    /// A call of the bay or of the disk failed, which was counted.
    Fault,
    /// Out of memory.
    NoMemory,
}

impl fmt::Display for MakeRefusal {
    fn fmt<W: fmt::Write>(&self, f: &mut fmt::Formatter<W>) -> fmt::Result {
        match self {
            MakeRefusal::Fault => write!(f, "a call of the disk failed"),
            MakeRefusal::NoMemory => write!(f, "out of memory"),
        }
    }
}

impl Error for MakeRefusal {}

/// The refusal for a call of the bay.
pub fn make_refusal_of_bay(fault: BayFault) -> MakeRefusal
    ensures { result ≡ make_refusal_of_bay fault }
{
    match fault {
        BayFault::Fault => MakeRefusal::Fault,
        BayFault::NoMemory => MakeRefusal::NoMemory,
    }
}

/// The refusal for a formatting.
pub(crate) fn of_mkfs(why: MkfsRefusal) -> MakeRefusal
    ensures { result ≡ of_mkfs why }
{
    match why {
        MkfsRefusal::DiskFault => MakeRefusal::Fault,
        MkfsRefusal::NoMemory => MakeRefusal::NoMemory,
    }
}
