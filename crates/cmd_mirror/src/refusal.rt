//! Why a script wasn't run over two images to an end. When each refusal comes is described by the clauses of the call.

use base_types::NoMemory;
use cmd_image::{RunRefusal, run_refusal_of_bay};
use disk_contract::BayFault;
use std::error::Error;
use std::fmt;

/// Why a script wasn't run over two images to an end, or not over disks that went back.
#[derive(Clone, Copy, Debug, PartialEq, Eq)]
pub enum MirroredRefusal {
    /// The two images differ, in the number of their blocks or in a block.
    Unlike,
    /// A run is refused so.
    Run {
        /// Why.
        why: RunRefusal,
    },
}

impl fmt::Display for MirroredRefusal {
    fn fmt<W: fmt::Write>(&self, f: &mut fmt::Formatter<W>) -> fmt::Result {
        match self {
            MirroredRefusal::Unlike => write!(f, "the two images are unlike"),
            MirroredRefusal::Run { why } => write!(f, "{why}"),
        }
    }
}

impl Error for MirroredRefusal {}

impl From<NoMemory> for MirroredRefusal {
    ghost use Rattle.std.specs.Prelude.{◌≡◌};
    ghost use Rattle.cmd_image.specs.declared.ending.RunRefusal.TheVariants.{NoMemory as OutOfMemory};
    ghost use Rattle.cmd_mirror.specs.declared.refusal.MirroredRefusal.TheVariants.{Run};

    ghost from_gives = { λ _ why. why ≡ Run OutOfMemory };

    fn from(_want: NoMemory) -> MirroredRefusal {
        MirroredRefusal::Run {
            why: RunRefusal::NoMemory,
        }
    }
}

impl From<BayFault> for MirroredRefusal {
    ghost use Rattle.std.specs.Prelude.{◌≡◌};
    ghost use Rattle.cmd_image.specs.Refusals.{run_refusal_of_bay};
    ghost use Rattle.cmd_mirror.specs.declared.refusal.MirroredRefusal.TheVariants.{Run};

    ghost from_gives = { λ fault why. why ≡ Run (run_refusal_of_bay fault) };

    fn from(fault: BayFault) -> MirroredRefusal {
        MirroredRefusal::Run {
            why: run_refusal_of_bay(fault),
        }
    }
}
