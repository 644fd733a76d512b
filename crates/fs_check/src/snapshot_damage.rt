//! What a check finds broken in a snapshot. What each damage means is defined by `IsBroken`.

use crate::damage::TreeDamage;
use std::error::Error;
use std::fmt;

/// What is broken in a snapshot, and where. Snapshots are given by the numbers of their nodes, nodes that they
/// keep by the numbers that they have there.
#[derive(Clone, Copy, Debug, PartialEq, Eq)]
pub enum SnapshotDamage {
    /// It has another number of links than one, its size isn't that of its blocks, or these are more or fewer than
    /// its name, its node table and its directories need.
    WrongSize { snapshot: u32 },
    /// Its first block has no name.
    BadName { snapshot: u32 },
    /// It has the name of a snapshot with a lower number.
    SameName { snapshot: u32, other: u32 },
    /// The bytes of a node that it keeps are neither zeros nor those of a directory or a file in use.
    KeptNode { snapshot: u32, node: u32 },
    /// The last block of a directory that it keeps isn't zeros past the last slot.
    KeptTail { snapshot: u32, node: u32 },
    /// A file that it keeps has a block whose bit is clear.
    KeptUnmarked { snapshot: u32, block: u32 },
    /// A file that it keeps has a block that is at an earlier place of its files too.
    KeptShared { snapshot: u32, block: u32 },
    /// A file that it keeps has a block that a directory or a snapshot has.
    KeptElsewhere { snapshot: u32, block: u32 },
    /// The nodes that it keeps aren't those of a tree.
    InSnapshot { snapshot: u32, damage: TreeDamage },
}

impl fmt::Display for SnapshotDamage {
    fn fmt<W: fmt::Write>(&self, f: &mut fmt::Formatter<W>) -> fmt::Result {
        match self {
            SnapshotDamage::WrongSize { snapshot } => {
                write!(
                    f,
                    "snapshot {snapshot} has other links, bytes or blocks than it should"
                )
            }
            SnapshotDamage::BadName { snapshot } => write!(f, "snapshot {snapshot} has no name"),
            SnapshotDamage::SameName { snapshot, other } => {
                write!(f, "snapshot {snapshot} has the name of snapshot {other}")
            }
            SnapshotDamage::KeptNode { snapshot, node } => {
                write!(
                    f,
                    "the bytes of node {node} in snapshot {snapshot} are no node's"
                )
            }
            SnapshotDamage::KeptTail { snapshot, node } => {
                write!(
                    f,
                    "directory {node} in snapshot {snapshot} has bytes behind its last slot"
                )
            }
            SnapshotDamage::KeptUnmarked { snapshot, block } => {
                write!(
                    f,
                    "snapshot {snapshot} keeps block {block}, whose bit is clear"
                )
            }
            SnapshotDamage::KeptShared { snapshot, block } => {
                write!(
                    f,
                    "snapshot {snapshot} keeps block {block}, which has a place before"
                )
            }
            SnapshotDamage::KeptElsewhere { snapshot, block } => {
                write!(
                    f,
                    "snapshot {snapshot} keeps block {block}, which is no file's"
                )
            }
            SnapshotDamage::InSnapshot { snapshot, damage } => {
                write!(f, "in snapshot {snapshot}: {damage}")
            }
        }
    }
}

impl Error for SnapshotDamage {}
