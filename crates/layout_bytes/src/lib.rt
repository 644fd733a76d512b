//! What is in the blocks of a disk beside its journal: the bitmap, nodes and directory slots, as
//! values and as definitions of their bytes. The codecs that read and write them are in crates of
//! their own, and so does the tree that they make; what they share, fields of bytes, stands here. The
//! layout is described in docs/LAYOUT.md.
#![tactic(auto)]

mod fields;
mod laws;
mod node;
mod slot;
mod text;

pub use fields::{are_zeros, has_zeros, number_2, number_4, number_8};
pub use laws::fields_tell_their_bytes;
pub use node::{Node, NodeKind};
pub use slot::Slot;
pub use text::{put, put_2, put_4, put_8, put_zeros};
