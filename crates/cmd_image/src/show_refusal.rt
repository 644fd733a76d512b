//! Why a tree wasn't shown, and which refusal comes of which of the layers below.
//! When each comes is described by the clauses of the calls.

ghost use Rattle.std.specs.Prelude.{◌≡◌};
ghost use Rattle.cmd_image.specs.Mounted.{of_bay, of_check, of_store};

use base_types::NoMemory;
use cmd_session::ImageDamage;
use disk_contract::BayFault;
use engine_store::StoreRefusal;
use fs_check::CheckRefusal;
use std::error::Error;
use std::fmt;

/// Why the tree of an image wasn't shown.
#[derive(Clone, Copy, Debug, PartialEq, Eq)]
pub enum ShowRefusal {
    /// A call of the bay or of the disk failed, which was counted.
    Fault,
    /// Something is broken, and the image stands for no tree.
    Damaged {
        /// What is broken.
        damage: ImageDamage,
    },
    /// The numbers of the journal are at their end, and nothing is mounted any more.
    Spent,
    /// The sink failed, which it has counted.
    SinkFault,
    /// Out of memory.
    NoMemory,
}

impl fmt::Display for ShowRefusal {
    fn fmt<W: fmt::Write>(&self, f: &mut fmt::Formatter<W>) -> fmt::Result {
        match self {
            ShowRefusal::Fault => write!(f, "a call of the disk failed"),
            ShowRefusal::Damaged { damage } => write!(f, "{damage}"),
            ShowRefusal::Spent => write!(f, "the numbers of the journal are at their end"),
            ShowRefusal::SinkFault => write!(f, "the output failed"),
            ShowRefusal::NoMemory => write!(f, "out of memory"),
        }
    }
}

impl Error for ShowRefusal {}

impl From<NoMemory> for ShowRefusal {
    ghost use Rattle.std.specs.Prelude.{◌≡◌};
    ghost use Rattle.cmd_image.specs.declared.show_refusal.ShowRefusal.TheVariants.{NoMemory as OutOfMemory};

    ghost from_gives = { λ _ why. why ≡ OutOfMemory };

    fn from(_want: NoMemory) -> ShowRefusal {
        ShowRefusal::NoMemory
    }
}

impl From<BayFault> for ShowRefusal {
    ghost use Rattle.std.specs.Prelude.{◌≡◌};
    ghost use Rattle.cmd_image.specs.Mounted.{of_bay};

    ghost from_gives = { λ fault why. why ≡ of_bay fault };

    fn from(fault: BayFault) -> ShowRefusal {
        of_bay(fault)
    }
}

/// The refusal for a call of the bay.
pub(crate) fn of_bay(fault: BayFault) -> ShowRefusal
    ensures { result ≡ of_bay fault }
{
    match fault {
        BayFault::Fault => ShowRefusal::Fault,
        BayFault::NoMemory => ShowRefusal::NoMemory,
    }
}

/// The refusal for a mount.
pub(crate) fn of_store(why: StoreRefusal) -> ShowRefusal
    ensures { result ≡ of_store why }
{
    match why {
        StoreRefusal::NoHeader => ShowRefusal::Damaged {
            damage: ImageDamage::NoHeader,
        },
        StoreRefusal::BadBit(block) => ShowRefusal::Damaged {
            damage: ImageDamage::BadBit { block },
        },
        StoreRefusal::Spent => ShowRefusal::Spent,
        StoreRefusal::ReadFault => ShowRefusal::Fault,
        StoreRefusal::DiskFault => ShowRefusal::Fault,
        StoreRefusal::NoMemory => ShowRefusal::NoMemory,
    }
}

/// The refusal for a check.
pub(crate) fn of_check(why: CheckRefusal) -> ShowRefusal
    ensures { result ≡ of_check why }
{
    match why {
        CheckRefusal::Damaged(what) => ShowRefusal::Damaged {
            damage: ImageDamage::Broken { what },
        },
        CheckRefusal::ReadFault => ShowRefusal::Fault,
        CheckRefusal::NoMemory => ShowRefusal::NoMemory,
    }
}
