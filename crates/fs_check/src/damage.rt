//! What is broken in a tree, and where, and why a check of one ends without it. What each damage means is
//! defined by `IsBroken`.

use base_types::{NoMemory, ReadFault};
use fs_files::FileRefusal;
use std::alloc::AllocError;
use std::error::Error;
use std::fmt;

/// What is broken in the tree of nodes and slots, with the number of the node. A place is that of a slot
/// in its directory, counted from 0.
#[derive(Clone, Copy, Debug, PartialEq, Eq)]
pub enum TreeDamage {
    /// Node 1 isn't a directory.
    NoRoot,
    /// A directory has another number of links than one, or bytes that are no slot's.
    Unreadable { node: u32 },
    /// A slot names the root.
    NamesRoot { dir: u32, place: u64 },
    /// A slot names a node that isn't in use.
    NamesUnused { dir: u32, place: u64 },
    /// A slot has the name of a slot before it.
    RepeatsName { dir: u32, place: u64 },
    /// Another number of slots than one names a directory that isn't the root.
    NotNamedOnce { node: u32 },
    /// Another number of slots names a file than it has links.
    WrongLinks { node: u32 },
    /// No path leads to a node in use.
    Unreached { node: u32 },
}

impl fmt::Display for TreeDamage {
    fn fmt<W: fmt::Write>(&self, f: &mut fmt::Formatter<W>) -> fmt::Result {
        match self {
            TreeDamage::NoRoot => write!(f, "node 1 is no directory"),
            TreeDamage::Unreadable { node } => write!(
                f,
                "the bytes or the links of directory {node} are wrong"
            ),
            TreeDamage::NamesRoot { dir, place } => {
                write!(f, "slot {place} of node {dir} names the root")
            }
            TreeDamage::NamesUnused { dir, place } => {
                write!(
                    f,
                    "slot {place} of node {dir} names a node that is not in use"
                )
            }
            TreeDamage::RepeatsName { dir, place } => {
                write!(f, "slot {place} of node {dir} has the name of another")
            }
            TreeDamage::NotNamedOnce { node } => {
                write!(f, "node {node}, a directory, is not named once")
            }
            TreeDamage::WrongLinks { node } => {
                write!(f, "node {node} has other links than slots name it")
            }
            TreeDamage::Unreached { node } => write!(f, "no path leads to node {node}"),
        }
    }
}

impl Error for TreeDamage {}

/// Why a check of a tree didn't find it whole.
#[derive(Clone, Copy)]
pub enum TreeRefusal {
    /// Something is broken.
    Damaged(TreeDamage),
    /// A read of the disk failed, which the disk has counted.
    ReadFault,
    /// Out of memory.
    NoMemory,
}

impl From<TreeDamage> for TreeRefusal {
    ghost use Rattle.std.specs.Prelude.{◌≡◌};
    ghost use Rattle.fs_check.specs.declared.damage.TreeRefusal.TheVariants.{Damaged};

    ghost from_gives = { λ damage refusal. refusal ≡ Damaged damage };

    fn from(damage: TreeDamage) -> TreeRefusal {
        TreeRefusal::Damaged(damage)
    }
}

impl From<ReadFault> for TreeRefusal {
    ghost use Rattle.std.specs.Prelude.{◌≡◌};
    ghost use Rattle.fs_check.specs.declared.damage.TreeRefusal.TheVariants.{ReadFault as Unread};

    ghost from_gives = { λ _ refusal. refusal ≡ Unread };

    fn from(_: ReadFault) -> TreeRefusal {
        TreeRefusal::ReadFault
    }
}

impl From<NoMemory> for TreeRefusal {
    ghost use Rattle.std.specs.Prelude.{◌≡◌};
    ghost use Rattle.fs_check.specs.declared.damage.TreeRefusal.TheVariants.{NoMemory as OutOfMemory};

    ghost from_gives = { λ _ refusal. refusal ≡ OutOfMemory };

    fn from(_: NoMemory) -> TreeRefusal {
        TreeRefusal::NoMemory
    }
}

impl From<AllocError> for TreeRefusal {
    ghost use Rattle.std.specs.Prelude.{◌≡◌};
    ghost use Rattle.fs_check.specs.declared.damage.TreeRefusal.TheVariants.{NoMemory as OutOfMemory};

    ghost from_gives = { λ _ refusal. refusal ≡ OutOfMemory };

    fn from(_: AllocError) -> TreeRefusal {
        TreeRefusal::NoMemory
    }
}

/// A call on a file that only looks is refused by a read or out of memory alone.
impl From<FileRefusal> for TreeRefusal {
    ghost use Rattle.std.specs.Prelude.{◌≡◌};
    ghost use Rattle.fs_check.specs.Reading.{refusal_of};

    ghost from_gives = { λ why refusal. refusal ≡ refusal_of why };

    fn from(why: FileRefusal) -> TreeRefusal {
        match why {
            FileRefusal::ReadFault => TreeRefusal::ReadFault,
            FileRefusal::Short { .. } => TreeRefusal::NoMemory,
            FileRefusal::Scattered { .. } => TreeRefusal::NoMemory,
            FileRefusal::DiskFault => TreeRefusal::NoMemory,
            FileRefusal::NoMemory => TreeRefusal::NoMemory,
        }
    }
}
