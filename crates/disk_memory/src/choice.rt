//! Which of a disk's pending writes are on the medium after a crash, and how much of them: a choice, out of
//! which an image is made elsewhere. It knows no log, so it may name writes that aren't there.

ghost use Rattle.std.specs.Prelude.{◌≡◌, [], true, false, OnOk, OnErr};
ghost use Rattle.disk_memory.specs.Choice.{ChoiceState, with_fate};
ghost use Rattle.disk_memory.specs.declared.choice.Fate.TheVariants.{Stands, Torn};

use base_types::NoMemory;
use std::alloc::Global;
use std::error::Error;
use std::fmt;
use std::marker::Model;

/// What names a write of a log.
#[derive(Clone, Copy, Debug)]
pub enum WriteName {
    /// The accepted write of this ticket.
    Accepted { ticket: u64 },
    /// A lost write by its number among those of the log, in their order, counted from 1.
    Lost { number: u64 },
}

impl fmt::Display for WriteName {
    fn fmt<W: fmt::Write>(&self, f: &mut fmt::Formatter<W>) -> fmt::Result {
        match self {
            WriteName::Accepted { ticket } => write!(f, "the write of ticket {ticket}"),
            WriteName::Lost { number } => write!(f, "the lost write {number}"),
        }
    }
}

/// What is on the medium of a pending write.
#[derive(Clone, Copy)]
pub enum Fate {
    /// All of its bytes.
    Stands,
    /// So many of its first bytes, and then the block's settled content. From 1,024 on these are all bytes.
    Torn { bytes: u16 },
}

/// What a choice says of one write.
#[derive(Clone, Copy)]
pub struct Named {
    pub write: WriteName,
    pub fate: Fate,
}

/// A choice of what a crash leaves: which pending writes stand, and which are torn. Of a write that isn't
/// named nothing is on the medium, but for accepted ones where all of them stand. A write that is both to
/// stand and torn is torn, and where it is torn twice the later one counts. Of several writes to one block
/// that are on the medium the last of the log counts.
#[derive(Drop)]
pub struct Choice {
    all: bool,
    named: Vec<Named>,
}

impl Model for Choice {
    ghost use Rattle.disk_memory.specs.Choice.{ChoiceState};

    ghost Value = { ChoiceState };

    ghost view = { λ c. record { all = c.all; named = c.named.items } };
}

impl Choice {
    /// No write stands. This takes no memory.
    pub fn none(alloc: Global) -> Choice
        ensures { result ≡ record { all = false; named = [] } }
    {
        Choice {
            all: false,
            named: Vec::new(alloc),
        }
    }

    /// Every pending accepted write stands. This takes no memory.
    pub fn all(alloc: Global) -> Choice
        ensures { result ≡ record { all = true; named = [] } }
    {
        Choice {
            all: true,
            named: Vec::new(alloc),
        }
    }

    /// This write stands, unless it is torn.
    ///
    /// # Errors
    /// Out of memory, and the choice stays as it was.
    pub fn stand(&mut self, write: WriteName) -> Result<(), NoMemory>
        ensures done { OnOk result (self.new ≡ with_fate self.old write Stands) }
        ensures same { OnErr result (self.new ≡ self.old) }
    {
        self.named.push(Named {
            write,
            fate: Fate::Stands,
        })?;
        Ok(())
    }

    /// This write is torn behind so many bytes. Behind 0 bytes it leaves the settled content of its block,
    /// also where an earlier write to the block stands. So that isn't as if it weren't named.
    ///
    /// # Errors
    /// Out of memory, and the choice stays as it was.
    pub fn tear(&mut self, write: WriteName, bytes: u16) -> Result<(), NoMemory>
        ensures done { OnOk result (self.new ≡ with_fate self.old write (Torn bytes)) }
        ensures same { OnErr result (self.new ≡ self.old) }
    {
        self.named.push(Named {
            write,
            fate: Fate::Torn { bytes },
        })?;
        Ok(())
    }

    /// Whether every pending accepted write stands.
    pub(crate) fn stands_all(&self) -> bool
        ensures { result ≡ self.now.all }
    {
        self.all
    }

    /// What is said of single writes, one after the other.
    pub(crate) fn named(&self) -> &[Named]
        ensures { result.now ≡ self.now.named }
    {
        self.named.as_slice()
    }
}

/// Why no image was made.
#[derive(Clone, Copy, Debug)]
pub enum ImageRefusal {
    /// The moment is past the log, which has only so many events.
    PastTheLog { moment: u64, events: u64 },
    /// The first write that the choice names and that isn't pending at the moment.
    NotPending { write: WriteName },
    /// Out of memory.
    NoMemory,
}

impl fmt::Display for ImageRefusal {
    fn fmt<W: fmt::Write>(&self, f: &mut fmt::Formatter<W>) -> fmt::Result {
        match self {
            ImageRefusal::PastTheLog { moment, events } => {
                write!(
                    f,
                    "moment {moment} is past the log, whose last moment is {events}"
                )
            }
            ImageRefusal::NotPending { write } => write!(f, "{write} isn't pending"),
            ImageRefusal::NoMemory => write!(f, "no memory"),
        }
    }
}

impl Error for ImageRefusal {}

impl From<NoMemory> for ImageRefusal {
    ghost use Rattle.std.specs.Prelude.{◌≡◌};
    ghost use Rattle.disk_memory.specs.declared.choice.ImageRefusal.TheVariants.{NoMemory as OutOfMemory};

    ghost from_gives = { λ _ refusal. refusal ≡ OutOfMemory };

    fn from(_want: NoMemory) -> ImageRefusal {
        ImageRefusal::NoMemory
    }
}
