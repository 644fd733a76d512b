//! Why a tree wasn't made again on a new disk, and which refusal comes of which of the layers below. When each comes is
//! described by the clauses of the call.

ghost use Rattle.std.specs.Prelude.{◌≡◌};
ghost use Rattle.cmd_upgrade.specs.Refusals.{of_bay, of_image, of_make, of_new, of_refusal, of_reply};

use base_types::NoMemory;
use cmd_image::{MakeRefusal, ShowRefusal};
use cmd_session::ImageDamage;
use disk_contract::BayFault;
use lang_tree::{Refusal, Reply};
use std::alloc::{AllocError, AllocFailed};
use std::error::Error;
use std::fmt;

/// Why a tree wasn't made again on a new disk.
#[derive(Clone, Copy, Debug, PartialEq, Eq)]
pub enum UpgradeRefusal {
    /// A call of the bay failed, or one of a disk in a mount or a making, or a command was refused by a disk.
    Fault,
    /// Something is broken, and the image stands for no tree.
    Damaged {
        /// What is broken.
        damage: ImageDamage,
    },
    /// The numbers of the image's journal are at their end, and nothing is mounted any more.
    Spent,
    /// The tree has more nodes or more blocks than the new disk takes.
    NoRoom,
    /// Out of memory.
    NoMemory,
}

impl fmt::Display for UpgradeRefusal {
    fn fmt<W: fmt::Write>(&self, f: &mut fmt::Formatter<W>) -> fmt::Result {
        match self {
            UpgradeRefusal::Fault => write!(f, "a call of a disk failed"),
            UpgradeRefusal::Damaged { damage } => write!(f, "{damage}"),
            UpgradeRefusal::Spent => write!(f, "the numbers of the journal are at their end"),
            UpgradeRefusal::NoRoom => write!(f, "the new disk has no room for the tree"),
            UpgradeRefusal::NoMemory => write!(f, "out of memory"),
        }
    }
}

impl Error for UpgradeRefusal {}

impl From<NoMemory> for UpgradeRefusal {
    ghost use Rattle.std.specs.Prelude.{◌≡◌};
    ghost use Rattle.cmd_upgrade.specs.declared.refusal.UpgradeRefusal.TheVariants.{NoMemory as OutOfMemory};

    ghost from_gives = { λ _ why. why ≡ OutOfMemory };

    fn from(_want: NoMemory) -> UpgradeRefusal {
        UpgradeRefusal::NoMemory
    }
}

impl From<AllocError> for UpgradeRefusal {
    ghost use Rattle.std.specs.Prelude.{◌≡◌};
    ghost use Rattle.cmd_upgrade.specs.declared.refusal.UpgradeRefusal.TheVariants.{NoMemory as OutOfMemory};

    ghost from_gives = { λ _ why. why ≡ OutOfMemory };

    fn from(_want: AllocError) -> UpgradeRefusal {
        UpgradeRefusal::NoMemory
    }
}

impl<T: Drop> From<AllocFailed<T>> for UpgradeRefusal {
    ghost use Rattle.std.specs.Prelude.{◌≡◌};
    ghost use Rattle.cmd_upgrade.specs.declared.refusal.UpgradeRefusal.TheVariants.{NoMemory as OutOfMemory};

    ghost from_gives = { λ _ why. why ≡ OutOfMemory };

    fn from(_want: AllocFailed<T>) -> UpgradeRefusal {
        UpgradeRefusal::NoMemory
    }
}

/// The refusal for a call of the bay.
pub(crate) fn of_bay(fault: BayFault) -> UpgradeRefusal
    ensures { result ≡ of_bay fault }
{
    match fault {
        BayFault::Fault => UpgradeRefusal::Fault,
        BayFault::NoMemory => UpgradeRefusal::NoMemory,
    }
}

/// The refusal where the image wasn't mounted, or its file system not opened.
pub(crate) fn of_image(why: ShowRefusal) -> UpgradeRefusal
    ensures { result ≡ of_image why }
{
    match why {
        ShowRefusal::Fault => UpgradeRefusal::Fault,
        ShowRefusal::Damaged { damage } => UpgradeRefusal::Damaged { damage },
        ShowRefusal::Spent => UpgradeRefusal::Spent,
        ShowRefusal::SinkFault => UpgradeRefusal::Fault,
        ShowRefusal::NoMemory => UpgradeRefusal::NoMemory,
    }
}

/// The refusal where the new image wasn't made.
pub(crate) fn of_make(why: MakeRefusal) -> UpgradeRefusal
    ensures { result ≡ of_make why }
{
    match why {
        MakeRefusal::Fault => UpgradeRefusal::Fault,
        MakeRefusal::NoMemory => UpgradeRefusal::NoMemory,
    }
}

/// The refusal where the new image, which was just made, wasn't mounted, or its file system not opened.
pub(crate) fn of_new(why: ShowRefusal) -> UpgradeRefusal
    ensures { result ≡ of_new why }
{
    match why {
        ShowRefusal::NoMemory => UpgradeRefusal::NoMemory,
        ShowRefusal::Fault
        | ShowRefusal::Damaged { .. }
        | ShowRefusal::Spent
        | ShowRefusal::SinkFault => UpgradeRefusal::Fault,
    }
}

/// The refusal for a reply that isn't the one that was to come: want of memory where that is it, and else a fault.
pub(crate) fn of_reply(reply: &Reply) -> UpgradeRefusal
    ensures { result ≡ of_reply reply.now }
{
    match reply {
        Reply::Refused(why) => of_refusal(*why),
        Reply::Ok
        | Reply::Bytes(_)
        | Reply::Stat(_)
        | Reply::Names(_)
        | Reply::Synced(_)
        | Reply::DurableAt(_)
        | Reply::Known(_)
        | Reply::Bad => UpgradeRefusal::Fault,
    }
}

/// The refusal for that of a command.
fn of_refusal(why: Refusal) -> UpgradeRefusal
    ensures { result ≡ of_refusal why }
{
    match why {
        Refusal::NoMemory => UpgradeRefusal::NoMemory,
        Refusal::NotFound
        | Refusal::Exists
        | Refusal::NotDir
        | Refusal::IsDir
        | Refusal::NotEmpty
        | Refusal::BelowItself
        | Refusal::TooLarge
        | Refusal::TooManyLinks
        | Refusal::NoNode
        | Refusal::Full { .. }
        | Refusal::TooBig { .. }
        | Refusal::Scattered { .. }
        | Refusal::ReadFault
        | Refusal::DiskFault
        | Refusal::Stopped
        | Refusal::Spent
        | Refusal::NameTooLong
        | Refusal::NoPoint { .. }
        | Refusal::NoSnap => UpgradeRefusal::Fault,
    }
}
