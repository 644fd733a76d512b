//! The bitmap of a disk, borrowed as its blocks in order: reading and writing single bits, the check of the
//! bits that no data block has, and the search for the lowest free data blocks. It keeps no bitmap,
//! reads no disk, and takes no memory. The layout is described in docs/LAYOUT.md.
#![tactic(auto)]

mod bad;
mod bits;
mod free;
mod laws;
mod scan;

pub use bad::{BadBit, check};
pub use bits::{clear, is_set, set};
pub use free::lowest;
pub use laws::{a_cleared_block_is_free_again, a_set_block_is_free_no_more, free_blocks_are_free};
