//! What a mirror keeps of each of its events and writes.

/// Which of the two disks.
#[derive(Clone, Copy, Debug, PartialEq, Eq)]
pub enum Side {
    First,
    Second,
}

/// The tickets that one write has on the two disks, where it was accepted there.
#[derive(Clone, Copy, Debug, PartialEq, Eq)]
pub struct Pair {
    pub first: Option<u64>,
    pub second: Option<u64>,
}

/// From which disks the mirror has the notice of one write, and whether it reported the write as durable.
#[derive(Clone, Copy, Debug, PartialEq, Eq)]
pub struct Heard {
    pub first: bool,
    pub second: bool,
    pub reported: bool,
}

/// How many events each of the two disks had when an event of the mirror had come.
#[derive(Clone, Copy, Debug, PartialEq, Eq)]
pub struct Came {
    pub first: u64,
    pub second: u64,
}

/// What is known of one disk of a mirror at the end: whether it is live, at which moment of the mirror it went down if
/// it isn't, and its counts of faults.
#[derive(Clone, Copy, Debug, PartialEq, Eq)]
pub struct Life {
    pub live: bool,
    pub end: u64,
    pub read_faults: u64,
    pub faults: u64,
}

/// Whether among some writes there is one to be reported: where both disks are live, where the first alone is, and
/// where the second alone is.
#[derive(Clone, Copy, Debug, PartialEq, Eq)]
pub struct Ripe {
    pub both: bool,
    pub first: bool,
    pub second: bool,
}

/// One event of a mirror, without its bytes: they are in the log of a disk that accepted or lost the write.
#[derive(Clone, Copy, Debug, PartialEq, Eq)]
pub enum Entry {
    /// A write that a live disk accepted, with its tickets there.
    Accepted {
        ticket: u64,
        first: Option<u64>,
        second: Option<u64>,
    },
    /// A write behind which no disk is live, and which this one lost.
    Failed {
        side: Side,
    },
    /// The notice of a write.
    Reported {
        ticket: u64,
    },
}

/// What came of a write on one disk.
#[derive(Clone, Copy, Debug, PartialEq, Eq)]
pub enum Written {
    /// The disk accepted it, and gave it this ticket.
    Given(u64),
    /// The disk failed it, and it may be on the medium or come there later.
    Missed,
    /// The disk isn't live, or nothing of the write is left.
    Nothing,
}

impl Written {
    ghost use Rattle.std.specs.Prelude.{◌≡◌};
    ghost use Rattle.disk_mirror.specs.Half.{given_in};

    /// The ticket that the disk gave.
    pub(crate) fn ticket(self) -> Option<u64>
        ensures { result ≡ given_in self }
    {
        match self {
            Written::Given(ticket) => Some(ticket),
            Written::Missed => None,
            Written::Nothing => None,
        }
    }
}
