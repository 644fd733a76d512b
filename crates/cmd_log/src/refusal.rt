//! Why a log isn't kept over an image to an end, and which refusal comes of the opening of a log. When each comes is
//! described by the clauses of the calls.

ghost use Rattle.std.specs.Prelude.{◌≡◌};
ghost use Rattle.cmd_log.specs.Steps.{if_counted, log_refusal_of, log_refusal_of_fs};

use base_types::NoMemory;
use cmd_image::{RunRefusal, run_refusal_of_bay};
use disk_contract::BayFault;
use fs_log::OpenRefusal;
use lang_tree::Refusal;
use std::error::Error;
use std::fmt;

/// Why a log wasn't kept over an image to an end, or not over a disk that went back.
#[derive(Clone, Copy, Debug)]
pub enum LogRunRefusal {
    /// What lies in the directory of the log is no log.
    BadLog,
    /// The directory of the log can't be made, for want of room.
    NoRoom(Refusal),
    /// A run is refused so.
    Run(RunRefusal),
}

impl fmt::Display for LogRunRefusal {
    fn fmt<W: fmt::Write>(&self, f: &mut fmt::Formatter<W>) -> fmt::Result {
        match self {
            LogRunRefusal::BadLog => write!(f, "what lies in the directory of the log is no log"),
            LogRunRefusal::NoRoom(why) => write!(f, "{why}"),
            LogRunRefusal::Run(why) => write!(f, "{why}"),
        }
    }
}

impl Error for LogRunRefusal {}

impl From<NoMemory> for LogRunRefusal {
    ghost use Rattle.std.specs.Prelude.{◌≡◌};
    ghost use Rattle.cmd_image.specs.declared.ending.RunRefusal.TheVariants.{NoMemory as OutOfMemory};
    ghost use Rattle.cmd_log.specs.declared.refusal.LogRunRefusal.TheVariants.{Run};

    ghost from_gives = { λ _ why. why ≡ Run OutOfMemory };

    fn from(_want: NoMemory) -> LogRunRefusal {
        LogRunRefusal::Run(RunRefusal::NoMemory)
    }
}

impl From<BayFault> for LogRunRefusal {
    ghost use Rattle.std.specs.Prelude.{◌≡◌};
    ghost use Rattle.cmd_image.specs.Refusals.{run_refusal_of_bay};
    ghost use Rattle.cmd_log.specs.declared.refusal.LogRunRefusal.TheVariants.{Run};

    ghost from_gives = { λ fault why. why ≡ Run (run_refusal_of_bay fault) };

    fn from(fault: BayFault) -> LogRunRefusal {
        LogRunRefusal::Run(run_refusal_of_bay(fault))
    }
}

/// The refusal where the opening of a log is refused so, over a disk that has counted a call that failed, or none.
pub(crate) fn log_refusal_of(counted: bool, why: OpenRefusal) -> LogRunRefusal
    ensures { result ≡ log_refusal_of counted why }
{
    match why {
        OpenRefusal::Fs(why) => log_refusal_of_fs(counted, why),
        OpenRefusal::BadLog => LogRunRefusal::BadLog,
    }
}

/// The refusal where the file system refuses so to open a log: for want of room, of memory or of numbers, or since a
/// call of the disk failed, which it has counted. No other reason comes of blocks that tell; of others it may, and is
/// answered as a want of memory where no call failed.
fn log_refusal_of_fs(counted: bool, why: Refusal) -> LogRunRefusal
    ensures { result ≡ log_refusal_of_fs counted why }
{
    match why {
        Refusal::NoNode => LogRunRefusal::NoRoom(why),
        Refusal::Full { need: _, left: _ } => LogRunRefusal::NoRoom(why),
        Refusal::Scattered { runs: _ } => LogRunRefusal::NoRoom(why),
        Refusal::Spent => LogRunRefusal::Run(RunRefusal::Spent),
        Refusal::NoMemory => LogRunRefusal::Run(RunRefusal::NoMemory),
        _ => LogRunRefusal::Run(if_counted(counted)),
    }
}

/// The refusal for a call of the disk, where one failed.
fn if_counted(counted: bool) -> RunRefusal
    ensures { result ≡ if_counted counted }
{
    if counted {
        return RunRefusal::Fault;
    }
    RunRefusal::NoMemory
}
