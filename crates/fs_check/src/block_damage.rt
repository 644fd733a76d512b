//! What a check of blocks finds broken, and why it is refused. When each comes is described by the clauses
//! of the check.

use base_types::{NoMemory, ReadFault};
use std::alloc::AllocError;
use std::error::Error;
use std::fmt;

/// What is broken in blocks, and where. Nodes and blocks are given by their numbers.
#[derive(Clone, Copy, Debug, PartialEq, Eq)]
pub enum BlockDamage {
    /// The bit of a block is wrong: it is clear before the data, or set past the last block.
    WrongBit {
        /// The number that the bit stands for.
        block: u32,
    },
    /// The bytes of a node are neither zeros nor those of a node in use.
    BadNode {
        /// The node.
        node: u32,
    },
    /// A node has a block whose bit is clear.
    Unmarked {
        /// The node.
        node: u32,
        /// Its block.
        block: u32,
    },
    /// A node has a block that is at an earlier place too: one of a lower node, or of the same.
    Shared {
        /// The node.
        node: u32,
        /// Its block.
        block: u32,
    },
    /// The last block of a directory isn't zeros past the last slot.
    Tail {
        /// The directory.
        node: u32,
    },
    /// The bit of a data block is set, and no node has the block.
    Lost {
        /// The block.
        block: u32,
    },
}

impl fmt::Display for BlockDamage {
    fn fmt<W: fmt::Write>(&self, f: &mut fmt::Formatter<W>) -> fmt::Result {
        match self {
            BlockDamage::WrongBit { block } => write!(f, "the bit of block {block} is wrong"),
            BlockDamage::BadNode { node } => write!(f, "the bytes of node {node} are no node's"),
            BlockDamage::Unmarked { node, block } => {
                write!(f, "node {node} has block {block}, whose bit is clear")
            }
            BlockDamage::Shared { node, block } => {
                write!(f, "node {node} has block {block}, which has a place before")
            }
            BlockDamage::Tail { node } => {
                write!(f, "directory {node} has bytes behind its last slot")
            }
            BlockDamage::Lost { block } => write!(f, "no node has block {block}, whose bit is set"),
        }
    }
}

impl Error for BlockDamage {}

/// Why a check of blocks didn't find them sound.
#[derive(Clone, Copy)]
pub enum BlocksRefusal {
    /// Something is broken.
    Damaged(BlockDamage),
    /// A read of the disk failed, which the disk has counted.
    ReadFault,
    /// Out of memory.
    NoMemory,
}

impl From<BlockDamage> for BlocksRefusal {
    ghost use Rattle.std.specs.Prelude.{◌≡◌};
    ghost use Rattle.fs_check.specs.declared.block_damage.BlocksRefusal.TheVariants.{Damaged};

    ghost from_gives = { λ damage refusal. refusal ≡ Damaged damage };

    fn from(damage: BlockDamage) -> BlocksRefusal {
        BlocksRefusal::Damaged(damage)
    }
}

impl From<NoMemory> for BlocksRefusal {
    ghost use Rattle.std.specs.Prelude.{◌≡◌};
    ghost use Rattle.fs_check.specs.declared.block_damage.BlocksRefusal.TheVariants.{NoMemory as OutOfMemory};

    ghost from_gives = { λ _ refusal. refusal ≡ OutOfMemory };

    fn from(_: NoMemory) -> BlocksRefusal {
        BlocksRefusal::NoMemory
    }
}

impl From<ReadFault> for BlocksRefusal {
    ghost use Rattle.std.specs.Prelude.{◌≡◌};
    ghost use Rattle.fs_check.specs.declared.block_damage.BlocksRefusal.TheVariants.{ReadFault as Unread};

    ghost from_gives = { λ _ refusal. refusal ≡ Unread };

    fn from(_: ReadFault) -> BlocksRefusal {
        BlocksRefusal::ReadFault
    }
}

impl From<AllocError> for BlocksRefusal {
    ghost use Rattle.std.specs.Prelude.{◌≡◌};
    ghost use Rattle.fs_check.specs.declared.block_damage.BlocksRefusal.TheVariants.{NoMemory as OutOfMemory};

    ghost from_gives = { λ _ refusal. refusal ≡ OutOfMemory };

    fn from(_: AllocError) -> BlocksRefusal {
        BlocksRefusal::NoMemory
    }
}
