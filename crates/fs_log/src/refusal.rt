//! Why a call of a log is refused. When each reason comes is said by the clauses of the calls, not here.

ghost use Rattle.std.specs.Prelude.{◌≡◌, false, OnErr, OnOk, IfErr};
ghost use Rattle.lang_tree.specs.declared.command.Reply.TheVariants.{Ok as Done};
ghost use Rattle.fs_log.specs.Refusals.{is_own, refusal_for};

use base_types::NoMemory;
use lang_tree::{Refusal, Reply};
use std::alloc::{AllocError, AllocFailed};
use std::error::Error;
use std::fmt;

/// Why a call of a log is refused.
#[derive(Clone, Copy, Debug)]
pub enum LogRefusal {
    /// What lies in the directory of the log is no log. Calls of an open log answer it only where the blocks tell nothing.
    BadLog,
    /// An append has more bytes than one may have.
    TooLong,
    /// The numbers of appends are used up.
    LogEnd,
    /// The log has no append of this number: it has those from `low` on, below `next`.
    NoRecord { low: u32, next: u32 },
    /// The file system refused a command of the call.
    Fs(Refusal),
}

impl fmt::Display for LogRefusal {
    fn fmt<W: fmt::Write>(&self, f: &mut fmt::Formatter<W>) -> fmt::Result {
        match self {
            LogRefusal::BadLog => write!(f, "what lies in the directory of the log is no log"),
            LogRefusal::TooLong => write!(f, "the append has more than 65536 bytes"),
            LogRefusal::LogEnd => write!(f, "the numbers of appends are used up"),
            LogRefusal::NoRecord { low, next } => {
                write!(f, "the log has the appends from {low} on")?;
                write!(f, ", below {next}")
            }
            LogRefusal::Fs(why) => write!(f, "{why}"),
        }
    }
}

impl Error for LogRefusal {}

impl From<NoMemory> for LogRefusal {
    ghost use Rattle.std.specs.Prelude.{◌≡◌};
    ghost use Rattle.lang_tree.specs.declared.command.Refusal.TheVariants.{NoMemory as OutOfMemory};
    ghost use Rattle.fs_log.specs.declared.refusal.LogRefusal.TheVariants.{Fs as FsRefused};

    ghost from_gives = { λ _ why. why ≡ FsRefused OutOfMemory };

    fn from(_want: NoMemory) -> LogRefusal {
        LogRefusal::Fs(Refusal::NoMemory)
    }
}

impl From<AllocError> for LogRefusal {
    ghost use Rattle.std.specs.Prelude.{◌≡◌};
    ghost use Rattle.lang_tree.specs.declared.command.Refusal.TheVariants.{NoMemory as OutOfMemory};
    ghost use Rattle.fs_log.specs.declared.refusal.LogRefusal.TheVariants.{Fs as FsRefused};

    ghost from_gives = { λ _ why. why ≡ FsRefused OutOfMemory };

    fn from(_want: AllocError) -> LogRefusal {
        LogRefusal::Fs(Refusal::NoMemory)
    }
}

impl<T: Drop> From<AllocFailed<T>> for LogRefusal {
    ghost use Rattle.std.specs.Prelude.{◌≡◌};
    ghost use Rattle.lang_tree.specs.declared.command.Refusal.TheVariants.{NoMemory as OutOfMemory};
    ghost use Rattle.fs_log.specs.declared.refusal.LogRefusal.TheVariants.{Fs as FsRefused};

    ghost from_gives = { λ _ why. why ≡ FsRefused OutOfMemory };

    fn from(_want: AllocFailed<T>) -> LogRefusal {
        LogRefusal::Fs(Refusal::NoMemory)
    }
}

/// Why a log isn't opened.
#[derive(Clone, Copy, Debug)]
pub enum OpenRefusal {
    /// What lies at `/log` is no log.
    BadLog,
    /// The file system refused a command of the opening.
    Fs(Refusal),
}

impl fmt::Display for OpenRefusal {
    fn fmt<W: fmt::Write>(&self, f: &mut fmt::Formatter<W>) -> fmt::Result {
        match self {
            OpenRefusal::BadLog => write!(f, "what lies at /log is no log"),
            OpenRefusal::Fs(why) => write!(f, "{why}"),
        }
    }
}

impl Error for OpenRefusal {}

impl From<NoMemory> for OpenRefusal {
    ghost use Rattle.std.specs.Prelude.{◌≡◌};
    ghost use Rattle.lang_tree.specs.declared.command.Refusal.TheVariants.{NoMemory as OutOfMemory};
    ghost use Rattle.fs_log.specs.declared.refusal.OpenRefusal.TheVariants.{Fs as FsRefused};

    ghost from_gives = { λ _ why. why ≡ FsRefused OutOfMemory };

    fn from(_want: NoMemory) -> OpenRefusal {
        OpenRefusal::Fs(Refusal::NoMemory)
    }
}

impl From<AllocError> for OpenRefusal {
    ghost use Rattle.std.specs.Prelude.{◌≡◌};
    ghost use Rattle.lang_tree.specs.declared.command.Refusal.TheVariants.{NoMemory as OutOfMemory};
    ghost use Rattle.fs_log.specs.declared.refusal.OpenRefusal.TheVariants.{Fs as FsRefused};

    ghost from_gives = { λ _ why. why ≡ FsRefused OutOfMemory };

    fn from(_want: AllocError) -> OpenRefusal {
        OpenRefusal::Fs(Refusal::NoMemory)
    }
}

impl<T: Drop> From<AllocFailed<T>> for OpenRefusal {
    ghost use Rattle.std.specs.Prelude.{◌≡◌};
    ghost use Rattle.lang_tree.specs.declared.command.Refusal.TheVariants.{NoMemory as OutOfMemory};
    ghost use Rattle.fs_log.specs.declared.refusal.OpenRefusal.TheVariants.{Fs as FsRefused};

    ghost from_gives = { λ _ why. why ≡ FsRefused OutOfMemory };

    fn from(_want: AllocFailed<T>) -> OpenRefusal {
        OpenRefusal::Fs(Refusal::NoMemory)
    }
}

/// The refusal for a reply other than the one that was asked for.
pub(crate) fn refused(reply: &Reply) -> LogRefusal
    ensures is { result ≡ refusal_for reply.now }
    ensures own { is_own result ≡ false }
{
    match reply {
        Reply::Refused(why) => LogRefusal::Fs(*why),
        Reply::Ok
        | Reply::Bytes(_)
        | Reply::Stat(_)
        | Reply::Names(_)
        | Reply::Synced(_)
        | Reply::DurableAt(_)
        | Reply::Known(_)
        | Reply::Bad => LogRefusal::BadLog,
    }
}

/// Whether a command was done.
///
/// # Errors
/// It was refused.
pub(crate) fn done(reply: &Reply) -> Result<(), LogRefusal>
    ensures done { OnOk result (reply.now ≡ Done) }
    ensures not { OnErr result (reply.now ≡ Done → ⊥) }
    ensures is { IfErr result (λ why. why ≡ refusal_for reply.now) }
    ensures why { IfErr result (λ why. is_own why ≡ false) }
{
    match reply {
        Reply::Ok => Ok(()),
        reply => Err(refused(reply)),
    }
}
