//! Why what a crash would have left isn't told. When each refusal comes is described by the clauses of the calls.

use base_types::NoMemory;
use cmd_session::ImageDamage;
use std::error::Error;
use std::fmt;

/// Why what a crash would have left isn't told.
#[derive(Clone, Copy, Debug, PartialEq, Eq)]
pub enum ReplayRefusal {
    /// The moment is past the log of the trace, or a write that the choice names isn't pending there.
    Choice,
    /// Something is broken in the image, and it stands for no tree.
    Damaged {
        /// What is broken.
        damage: ImageDamage,
    },
    /// The numbers of the journal in the image are at their end, and nothing is mounted any more.
    Spent,
    /// Out of memory.
    NoMemory,
}

impl fmt::Display for ReplayRefusal {
    fn fmt<W: fmt::Write>(&self, f: &mut fmt::Formatter<W>) -> fmt::Result {
        match self {
            ReplayRefusal::Choice => write!(f, "no such crash is possible"),
            ReplayRefusal::Damaged { damage } => write!(f, "{damage}"),
            ReplayRefusal::Spent => write!(f, "the numbers of the journal are at their end"),
            ReplayRefusal::NoMemory => write!(f, "out of memory"),
        }
    }
}

impl Error for ReplayRefusal {}

impl From<NoMemory> for ReplayRefusal {
    ghost use Rattle.std.specs.Prelude.{◌≡◌};
    ghost use Rattle.cmd_replay.specs.declared.refusal.ReplayRefusal.TheVariants.{NoMemory as OutOfMemory};

    ghost from_gives = { λ _ why. why ≡ OutOfMemory };

    fn from(_want: NoMemory) -> ReplayRefusal {
        ReplayRefusal::NoMemory
    }
}
