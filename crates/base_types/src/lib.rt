//! What every other crate names: the name of a directory entry, a list of bytes, a block with its digest
//! and its seal, lists of block numbers and of runs, the numbers of the layouts, draws of a seed, the error
//! of being out of memory, and the limits. It knows no tree, no disk, no bytes of a block but its seal, and
//! no text but that of a name. The limits are described in docs/TREE.md, docs/SCRIPT.md and docs/LAYOUT.md.
#![tactic(auto)]

mod block;
mod bytes;
mod draw_laws;
mod draws;
mod layout;
pub mod limits;
mod memory;
mod name;
mod places;
mod words;

pub use block::{Block, digest, is_sealed, seal};
pub use bytes::Bytes;
pub use draw_laws::seed_one_gives_these_draws;
pub use draws::Draws;
pub use layout::{
    Layout, nodes_lie_in_their_blocks, slots_lie_in_their_blocks,
    the_numbers_of_a_layout_go_together,
};
pub use memory::NoMemory;
pub use name::Name;
pub use places::{Places, Run, RunList};
pub use words::{Class, ReadFault};
