//! How a run of the program ends: a status for each cause, its number, and the last line that it
//! writes. What comes before that line is the subject of the module of the recording.

ghost use Rattle.std.specs.Prelude.{◌≡◌};
ghost use Rattle.cmd_program.specs.Statuses.{status_number};

use cmd_session::ImageDamage;

/// The end of a run. The process exits with its number.
#[derive(Clone, Copy, Debug, PartialEq, Eq)]
pub enum Status {
    /// 0: the input was read to its end and all output was taken.
    Done,
    /// 2: the words are outside the grammar.
    Usage,
    /// 3: the input is no trace.
    BadTrace,
    /// 4: no memory was found.
    NoMemory,
    /// 5: a call of the disk failed in the mount.
    DiskFault,
    /// 6: the image stands for no tree, since this is broken in it.
    Damaged(ImageDamage),
    /// 7: the source of the input failed.
    SourceFault,
    /// 8: the sink of the output failed.
    SinkFault,
    /// 9: a number of the image's journal is at its end.
    Spent,
    /// 10: no sync point that the crash may leave has the tree of the image.
    NoPrefix,
    /// 11: the numbers of the geometry, each in its range, don't fit together.
    BadShape,
    /// 12: more than 2^30 bytes came.
    LongInput,
    /// 13: the moment is past the log, or a write that is named isn't pending at it.
    BadChoice,
    /// 14: there was no room: for a log that was to be made before anything else, as the line before the last one says, or on
    /// a new disk for a tree.
    NoRoom,
    /// 15: two images that are to be run as one don't have the same blocks.
    Unlike,
    /// 17: what the image keeps as the log of an application is none. No status has the number 16.
    BadLog,
}

impl Status {
    /// The number that the process exits with.
    pub fn number(self) -> u8
        ensures { result ≡ status_number self }
    {
        match self {
            Status::Done => 0,
            Status::Usage => 2,
            Status::BadTrace => 3,
            Status::NoMemory => 4,
            Status::DiskFault => 5,
            Status::Damaged(_) => 6,
            Status::SourceFault => 7,
            Status::SinkFault => 8,
            Status::Spent => 9,
            Status::NoPrefix => 10,
            Status::BadShape => 11,
            Status::LongInput => 12,
            Status::BadChoice => 13,
            Status::NoRoom => 14,
            Status::Unlike => 15,
            Status::BadLog => 17,
        }
    }
}
