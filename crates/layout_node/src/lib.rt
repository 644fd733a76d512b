//! The codec of a node of the node table: the bytes of a node are read as one, and a node is written in its
//! bytes. Which nodes and blocks fit together, as in a whole tree, is said in `crash_stands`. The layout is known
//! in docs/LAYOUT.md.
#![tactic(auto)]

mod laws;
mod read;
mod sizes;
mod write;

pub use laws::{
    a_free_node_is_zeros, a_node_that_fits_has_a_spelling, a_spelling_has_one_node,
    nodes_in_use_are_read,
};
pub use layout_bytes::{Node, NodeKind};
pub use read::{BadNode, read_node};
pub use write::write_node;
