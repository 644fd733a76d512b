//! How a run over an image ends, and why it is refused; and which refusal comes of which of the layers below. When each
//! comes is described by the clauses of the calls.

ghost use Rattle.std.specs.Prelude.{◌≡◌};
ghost use Rattle.cmd_image.specs.Refusals.{of_show, run_refusal_of_bay};

use crate::show_refusal::ShowRefusal;
use base_types::NoMemory;
use cmd_session::ImageDamage;
use disk_contract::BayFault;
use std::error::Error;
use std::fmt;

/// How the reading of a script ended that nothing stopped. All commands that were read by then were answered.
#[derive(Clone, Copy, Debug, PartialEq, Eq)]
pub enum Ending {
    /// The script was read to its end.
    End,
    /// The source failed, which it has counted.
    SourceFault,
    /// More bytes came than a script may have.
    LongInput,
}

/// Why a script wasn't run to an end, or not over a disk that went back.
#[derive(Clone, Copy, Debug, PartialEq, Eq)]
pub enum RunRefusal {
    /// A call of the bay failed, or one of the disk outside a command, which was counted.
    Fault,
    /// Something is broken, and the image stands for no tree.
    Damaged {
        /// What is broken.
        damage: ImageDamage,
    },
    /// The numbers of the journal are at their end, and nothing is mounted any more.
    Spent,
    /// The sink failed, which it has counted.
    SinkFault,
    /// Out of memory.
    NoMemory,
}

impl fmt::Display for RunRefusal {
    fn fmt<W: fmt::Write>(&self, f: &mut fmt::Formatter<W>) -> fmt::Result {
        match self {
            RunRefusal::Fault => write!(f, "a call of the disk failed"),
            RunRefusal::Damaged { damage } => write!(f, "{damage}"),
            RunRefusal::Spent => write!(f, "the numbers of the journal are at their end"),
            RunRefusal::SinkFault => write!(f, "the output failed"),
            RunRefusal::NoMemory => write!(f, "out of memory"),
        }
    }
}

impl Error for RunRefusal {}

impl From<NoMemory> for RunRefusal {
    ghost use Rattle.std.specs.Prelude.{◌≡◌};
    ghost use Rattle.cmd_image.specs.declared.ending.RunRefusal.TheVariants.{NoMemory as OutOfMemory};

    ghost from_gives = { λ _ why. why ≡ OutOfMemory };

    fn from(_want: NoMemory) -> RunRefusal {
        RunRefusal::NoMemory
    }
}

impl From<BayFault> for RunRefusal {
    ghost use Rattle.std.specs.Prelude.{◌≡◌};
    ghost use Rattle.cmd_image.specs.Refusals.{run_refusal_of_bay};

    ghost from_gives = { λ fault why. why ≡ run_refusal_of_bay fault };

    fn from(fault: BayFault) -> RunRefusal {
        run_refusal_of_bay(fault)
    }
}

/// The refusal for a call of the bay.
pub fn run_refusal_of_bay(fault: BayFault) -> RunRefusal
    ensures { result ≡ run_refusal_of_bay fault }
{
    match fault {
        BayFault::Fault => RunRefusal::Fault,
        BayFault::NoMemory => RunRefusal::NoMemory,
    }
}

/// The refusal for a mount, or for the opening of the file system.
pub fn of_show(why: ShowRefusal) -> RunRefusal
    ensures { result ≡ of_show why }
{
    match why {
        ShowRefusal::Fault => RunRefusal::Fault,
        ShowRefusal::Damaged { damage } => RunRefusal::Damaged { damage },
        ShowRefusal::Spent => RunRefusal::Spent,
        ShowRefusal::SinkFault => RunRefusal::SinkFault,
        ShowRefusal::NoMemory => RunRefusal::NoMemory,
    }
}
