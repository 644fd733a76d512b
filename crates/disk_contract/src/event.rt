//! The events of a disk, of which its log is a list. What they do to a block is the definition
//! `after`; which of them may come when is described by the trait of the disk.

use crate::BoxedBlock;

/// What happened on a disk, one step at a time. A poll or wait without a notice, and a read, leave no
/// event.
#[derive(Drop)]
pub enum Event {
    /// The disk accepted a write. It is pending until its durability is noticed.
    Wrote {
        /// The number that the disk gave to the write.
        ticket: u64,
        /// The number of the block.
        block: u32,
        /// What was written.
        bytes: BoxedBlock,
    },
    /// The disk failed a write, and some of it may be on the medium or come there later.
    Lost {
        /// The number of the block.
        block: u32,
        /// What was to be written.
        bytes: BoxedBlock,
    },
    /// The disk reported that the write of this ticket is durable.
    Noticed {
        /// The number that the disk gave to the write.
        ticket: u64,
    },
}
