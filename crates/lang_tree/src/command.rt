//! What a tree is asked and what it answers, as plain data. How commands and replies are written is
//! described in the crate of the script; what they mean is the definition `step`, described in docs/TREE.md.

ghost use Rattle.std.specs.Prelude.{◌≡◌};
ghost use Rattle.lang_tree.specs.Refusals.{refusal_number, refusal_name};

use crate::{NameList, Path};
use base_types::{Bytes, Name};
use std::error::Error;
use std::fmt;

/// One command. `Bad` is a line that is none; it changes nothing and is answered `Bad`.
#[derive(Drop)]
pub enum Cmd {
    /// Makes an empty directory.
    Mkdir(Path),
    /// Makes an empty file.
    Create(Path),
    /// Puts the bytes into the file from this byte offset on.
    Write(Path, u32, Bytes),
    /// Puts so many bytes of this value into the file: offset, length, byte.
    Fill(Path, u32, u32, u8),
    /// Asks for at most so many bytes of the file from this byte offset on.
    Read(Path, u32, u32),
    /// Makes the file so many bytes long; what is new is zeros.
    Truncate(Path, u32),
    /// Makes the second path lead to the file of the first one too.
    Link(Path, Path),
    /// Takes a path of a file away, and with its last path the file.
    Unlink(Path),
    /// Takes an empty directory away.
    Rmdir(Path),
    /// Moves the first path, with all below it, to the second one.
    Rename(Path, Path),
    /// Asks what is at the path.
    Stat(Path),
    /// Asks for the names in the directory.
    List(Path),
    /// Keeps the tree as it is under this name.
    Snap(Name),
    /// Takes the snapshot of this name away.
    Unsnap(Name),
    /// Asks for the names of the snapshots.
    Snaps,
    /// Looks at what the snapshot of this name keeps.
    At(Name, Look),
    /// Makes a sync point, where something changed since the last one.
    Osync,
    /// Does so too, and answers once the last sync point is on the disk.
    Dsync,
    /// Asks up to which sync point all is on the disk.
    Durable,
    /// Answers once this sync point is on the disk, and all before it.
    Dwait(u32),
    /// Lets what is under way on the disk move on.
    Poll,
    /// A line outside the grammar.
    Bad,
}

/// A look at a tree, which changes nothing.
#[derive(Drop)]
pub enum Look {
    /// As `Cmd::Read`.
    Read(Path, u32, u32),
    /// As `Cmd::Stat`.
    Stat(Path),
    /// As `Cmd::List`.
    List(Path),
}

/// The answer to one command.
#[derive(Drop)]
pub enum Reply {
    /// Done.
    Ok,
    /// The bytes that a read found, which may be none.
    Bytes(Bytes),
    /// What is at a path.
    Stat(Stat),
    /// The names in a directory, ascending by their bytes.
    Names(NameList),
    /// The number of the last sync point.
    Synced(u64),
    /// The number of the last sync point, which is on the disk.
    DurableAt(u64),
    /// The number of a sync point that is known to be on the disk.
    Known(u64),
    /// The command was `Cmd::Bad`.
    Bad,
    /// Not done, and the tree is as it was.
    Refused(Refusal),
}

/// Whether a node is a directory or a file.
#[derive(Clone, Copy)]
pub enum Kind {
    Dir,
    File,
}

/// What is at a path.
#[derive(Clone, Copy)]
pub struct Stat {
    pub kind: Kind,
    /// The number of the node.
    pub number: u32,
    /// The bytes of a file; 64 for each name in a directory.
    pub size: u64,
    /// How many paths lead to it.
    pub links: u64,
}

/// Why a command was refused. Each has a number, by which the trace names it. The tree alone refuses with 1 to
/// 9 and 17 to 20; the others come from a file system over a disk.
#[derive(Clone, Copy, Debug)]
pub enum Refusal {
    /// 1: a name on the way isn't there.
    NotFound,
    /// 2: the path is there already.
    Exists,
    /// 3: something on the way is no directory, or a directory is wanted.
    NotDir,
    /// 4: the path names a directory, and a file is wanted.
    IsDir,
    /// 5: the directory holds names.
    NotEmpty,
    /// 6: a directory would come to lie below itself, or the root would go.
    BelowItself,
    /// 7: the file would grow past 1 GiB.
    TooLarge,
    /// 8: the file has as many paths as it may have.
    TooManyLinks,
    /// 9: every node number is used.
    NoNode,
    /// 10: the command needs more blocks than are left.
    Full { need: u32, left: u32 },
    /// 11: what changed since the last sync point and this command don't fit one record of the journal.
    TooBig { weight: u32, cost: u32, room: u32 },
    /// 12: the blocks of the file would lie in more stretches than a node can hold.
    Scattered { runs: u32 },
    /// 13: the disk failed to read.
    ReadFault,
    /// 14: the disk failed in another call, and the session ends.
    DiskFault,
    /// 15: the session has ended by a fault of the disk.
    Stopped,
    /// 16: the numbers of the journal are used up.
    Spent,
    /// 17: no memory was found.
    NoMemory,
    /// 18: the last name of a path that would be new has more bytes than the layout of the disk takes.
    NameTooLong,
    /// 19: there is no such sync point.
    NoPoint { last: u64 },
    /// 20: there is no snapshot of this name.
    NoSnap,
}

impl Refusal {
    /// The number by which the trace names the reason.
    pub fn number(self) -> u8
        ensures { result ≡ refusal_number self }
    {
        match self {
            Refusal::NotFound => 1,
            Refusal::Exists => 2,
            Refusal::NotDir => 3,
            Refusal::IsDir => 4,
            Refusal::NotEmpty => 5,
            Refusal::BelowItself => 6,
            Refusal::TooLarge => 7,
            Refusal::TooManyLinks => 8,
            Refusal::NoNode => 9,
            Refusal::Full { .. } => 10,
            Refusal::TooBig { .. } => 11,
            Refusal::Scattered { .. } => 12,
            Refusal::ReadFault => 13,
            Refusal::DiskFault => 14,
            Refusal::Stopped => 15,
            Refusal::Spent => 16,
            Refusal::NoMemory => 17,
            Refusal::NameTooLong => 18,
            Refusal::NoPoint { .. } => 19,
            Refusal::NoSnap => 20,
        }
    }

    /// The reason's name.
    pub fn name(self) -> &'static str
        ensures { result.now ≡ refusal_name self }
    {
        match self {
            Refusal::NotFound => "NotFound",
            Refusal::Exists => "Exists",
            Refusal::NotDir => "NotDir",
            Refusal::IsDir => "IsDir",
            Refusal::NotEmpty => "NotEmpty",
            Refusal::BelowItself => "BelowItself",
            Refusal::TooLarge => "TooLarge",
            Refusal::TooManyLinks => "TooManyLinks",
            Refusal::NoNode => "NoNode",
            Refusal::Full { .. } => "Full",
            Refusal::TooBig { .. } => "TooBig",
            Refusal::Scattered { .. } => "Scattered",
            Refusal::ReadFault => "ReadFault",
            Refusal::DiskFault => "DiskFault",
            Refusal::Stopped => "Stopped",
            Refusal::Spent => "Spent",
            Refusal::NoMemory => "NoMemory",
            Refusal::NameTooLong => "NameTooLong",
            Refusal::NoPoint { .. } => "NoPoint",
            Refusal::NoSnap => "NoSnap",
        }
    }
}

/// What is wrong, in words for people.
impl fmt::Display for Refusal {
    ghost use Rattle.std.specs.Prelude.{Some};
    ghost use Rattle.lang_tree.specs.Refusals.{refusal_text};

    ghost output = { λ why. Some (refusal_text why) };

    fn fmt<W: fmt::Write>(&self, f: &mut fmt::Formatter<W>) -> fmt::Result {
        match self {
            Refusal::NotFound => write!(f, "there is no such file or directory"),
            Refusal::Exists => write!(f, "the path is there already"),
            Refusal::NotDir => write!(f, "what should be a directory is none"),
            Refusal::IsDir => write!(f, "what should be a file is a directory"),
            Refusal::NotEmpty => write!(f, "the directory holds names"),
            Refusal::BelowItself => write!(
                f,
                "a directory can't go below itself, nor the root away"
            ),
            Refusal::TooLarge => write!(f, "the file would have more than 1 GiB"),
            Refusal::TooManyLinks => write!(f, "the file has 65535 paths already"),
            Refusal::NoNode => write!(f, "all node numbers are used"),
            Refusal::Full { need, left } => {
                write!(f, "the command needs {need} blocks")?;
                write!(f, ", and {left} are left")
            }
            Refusal::TooBig { weight, cost, room } => {
                write!(f, "the command costs {cost}")?;
                write!(f, ", and what changed since the last sync point {weight}")?;
                write!(f, ", where a record has room for {room}")
            }
            Refusal::Scattered { runs } => {
                write!(f, "the blocks of the file would be in {runs} stretches")
            }
            Refusal::ReadFault => write!(f, "the disk failed to read"),
            Refusal::DiskFault => write!(f, "the disk failed, and the session ends"),
            Refusal::Stopped => write!(f, "the session has ended by a fault of the disk"),
            Refusal::Spent => write!(f, "the numbers of the journal are used up"),
            Refusal::NoMemory => write!(f, "out of memory"),
            Refusal::NameTooLong => { write!(f, "the name is too long for the layout of the disk") }
            Refusal::NoPoint { last } => {
                write!(f, "there is no such sync point, and the last one is {last}")
            }
            Refusal::NoSnap => write!(f, "there is no snapshot of this name"),
        }
    }
}

impl Error for Refusal {}
