//! Checks that a tree with its snapshots stands in a map of blocks: first that the blocks are sound and what each
//! snapshot keeps is a tree, then that the nodes are those of a tree. Blocks are read, and nothing is written. What
//! is checked is described in docs/FSCK.md.
#![tactic(auto)]

mod block_damage;
mod blocks;
mod census;
mod checking;
mod counts;
mod damage;
mod directories;
mod firm;
mod judge;
mod kept_meeting;
mod kept_table;
mod laws;
mod looked;
mod meeting;
mod named;
mod names;
mod node;
mod reach;
mod slots;
mod snapshot;
mod snapshot_damage;
mod snapshots;
mod table;
mod tree;

pub use block_damage::BlockDamage;
pub use checking::{CheckRefusal, Damage, check};
pub use damage::TreeDamage;
pub use laws::{broken_blocks_are_not_sound, no_tree_stands_where_a_snapshot_is_broken};
pub use snapshot_damage::SnapshotDamage;
pub use snapshots::Snapshots;
pub use tree::no_tree_stands_where_it_is_broken;
