//! An event of a disk in memory as it is looked up: the bytes of a write stay where the disk keeps them. The
//! event itself is that of `disk_contract`, which a log of events has.

use base_types::Block;

/// An event of the log of a disk. It borrows the bytes.
#[derive(Clone, Copy)]
pub enum Logged<'a> {
    /// The disk accepted a write. It is pending until its durability is noticed.
    Wrote {
        /// The number that the disk gave to the write.
        ticket: u64,
        /// The number of the block.
        block: u32,
        /// What was written.
        bytes: &'a Block,
    },
    /// The disk failed a write, and some of it may be on the medium or come there later.
    Lost {
        /// The number of the block.
        block: u32,
        /// What was to be written.
        bytes: &'a Block,
    },
    /// The disk reported that the write of this ticket is durable.
    Noticed {
        /// The number that the disk gave to the write.
        ticket: u64,
    },
}
