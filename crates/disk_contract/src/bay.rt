//! Where disks come from and where they go back to: a bay hands them out and takes them back, each
//! under a name, and keeps what they leave. It reads and writes no block.

ghost use Rattle.std.specs.Prelude.{ℕ, List, Bool, IsTrue, IfSome};
ghost use Rattle.disk_contract.specs.Bay.{BayState, IsSoundKept, Makes, Opens, Closes};

use crate::Disk;
use std::error::Error;
use std::fmt;

/// A place in a disk's life that is to be found again: its moment, and its two counts of faults there.
#[derive(Clone, Copy)]
pub struct Mark {
    /// The number of events so far.
    pub moment: u64,
    /// The number of failed reads so far.
    pub read_faults: u64,
    /// The number of failed writes, polls and waits so far.
    pub faults: u64,
}

/// Why a bay didn't do what it was asked.
#[derive(Clone, Copy, Debug)]
pub enum BayFault {
    /// The call failed, which the bay has counted.
    Fault,
    /// No memory was found. Nothing is counted for it.
    NoMemory,
}

impl fmt::Display for BayFault {
    fn fmt<W: fmt::Write>(&self, f: &mut fmt::Formatter<W>) -> fmt::Result {
        match self {
            BayFault::Fault => write!(f, "a call of the bay failed"),
            BayFault::NoMemory => write!(f, "out of memory"),
        }
    }
}

impl Error for BayFault {}

/// A shelf of disks, each under a name.
///
/// A call that fails changes no image, and no call changes what is under another name than its
/// own. Each count stops at 2^64 - 1. Two things are constants of a bay: whether its calls may fail of
/// themselves (where they may not, a fault comes of what was asked alone, as each call says), and how the disks
/// behave that it hands out under a name.
pub trait Bay {
    /// The disks that it hands out.
    type D: Disk + Drop;

    /// Whether what is kept is known.
    ghost tells: { Bool };

    /// What is known of the bay.
    ghost state: { Self → BayState };

    /// Does nothing. A proof learns from the call that what is kept has blocks of 1,024 bytes, and
    /// lawful logs.
    fn lawful(&self)
        ensures { IsTrue tells → (name : List ℕ) → IfSome ((state self.now).kept name) (λ kept. IsSoundKept kept) };

    /// A disk of so many blocks of zeros, which replace what stood under the name.
    ///
    /// # Errors
    /// A fault, which is counted and comes only where the bay's calls may fail, or out of memory. The image under the
    /// name is as it was.
    fn make(&mut self, name: &str, blocks: u32) -> Result<Self::D, BayFault>
        ensures { Makes tells Self.D.state name.now blocks result (state self.old) (state self.new) };

    /// A disk that begins with the image under the name. What is kept stays as it was.
    ///
    /// # Errors
    /// A fault, which is counted: that nothing is under the name is one, and another comes only where the bay's calls
    /// may fail. Or out of memory.
    fn open(&mut self, name: &str) -> Result<Self::D, BayFault>
        ensures { Opens tells Self.D.state name.now result (state self.old) (state self.new) };

    /// Takes a disk back with its marks. What the disk holds now is the image under the name, if one
    /// stood there.
    ///
    /// # Errors
    /// A fault, which is counted, or out of memory. The image under the name is as it was, and the
    /// disk is gone. A fault comes only where the bay's calls may fail, or no image of as many blocks as the disk's
    /// is under the name.
    fn close(&mut self, name: &str, disk: Self::D, marks: Vec<Mark>) -> Result<(), BayFault>
        ensures { Closes tells name.now (Self.D.state disk) marks.items result (state self.old) (state self.new) };

    /// A bay that tells hands out disks that tell.
    ghost told: { IsTrue tells → IsTrue Self.D.tells };
}
