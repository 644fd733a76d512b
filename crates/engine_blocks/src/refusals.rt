//! Why a call of a map of blocks was refused. When each refusal comes is described by the clauses of the
//! calls; a failed read and a failed call of the disk alone have the errors of the crates below.

use std::error::Error;
use std::fmt;

/// Why no list of numbers to take was given.
#[derive(Clone, Copy, Debug)]
pub enum LowestRefusal {
    /// Fewer numbers than asked for may be taken, and none waits to be so again.
    Short {
        /// How many were asked for.
        need: u32,
        /// How many there are.
        reusable: u32,
    },
    /// A write, a poll or a wait of the disk failed, which the disk has counted.
    DiskFault,
    /// Out of memory.
    NoMemory,
}

impl fmt::Display for LowestRefusal {
    fn fmt<W: fmt::Write>(&self, f: &mut fmt::Formatter<W>) -> fmt::Result {
        match self {
            LowestRefusal::Short { need, reusable } => {
                write!(f, "{need} blocks are needed, and {reusable} are free")
            }
            LowestRefusal::DiskFault => write!(f, "a call of the disk failed"),
            LowestRefusal::NoMemory => write!(f, "out of memory"),
        }
    }
}

impl Error for LowestRefusal {}

/// Why a sync point wasn't made, or isn't known to be durable.
#[derive(Clone, Copy, Debug)]
pub enum SyncRefusal {
    /// A write, a poll or a wait of the disk failed, which the disk has counted.
    DiskFault,
    /// Out of memory, and nothing was done.
    NoMemory,
}

impl fmt::Display for SyncRefusal {
    fn fmt<W: fmt::Write>(&self, f: &mut fmt::Formatter<W>) -> fmt::Result {
        match self {
            SyncRefusal::DiskFault => write!(f, "a call of the disk failed"),
            SyncRefusal::NoMemory => write!(f, "out of memory"),
        }
    }
}

impl Error for SyncRefusal {}

/// Why a sync point isn't known to be durable.
#[derive(Clone, Copy, Debug, PartialEq, Eq)]
pub enum WaitRefusal {
    /// There is no such point.
    NoPoint {
        /// The last point that there is.
        last: u64,
    },
    /// A wait of the disk failed, which the disk has counted.
    DiskFault,
}

impl fmt::Display for WaitRefusal {
    fn fmt<W: fmt::Write>(&self, f: &mut fmt::Formatter<W>) -> fmt::Result {
        match self {
            WaitRefusal::NoPoint { last } => {
                write!(f, "there is no such sync point, and the last one is {last}")
            }
            WaitRefusal::DiskFault => write!(f, "a call of the disk failed"),
        }
    }
}

impl Error for WaitRefusal {}
