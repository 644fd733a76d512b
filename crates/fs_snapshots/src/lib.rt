//! What a snapshot keeps, as numbered files that are read: `KeptNodes` meets the trait `Nodes` of `fs_files`, so
//! each look at a tree looks at a kept one too. No snapshot is made here and none is taken away. What is known of all
//! snapshots, by counts and names, is a law alone.
#![tactic(auto)]

mod kept_nodes;
mod known;
mod laws;
mod reading;
mod refusal;
mod tables;

pub use kept_nodes::KeptNodes;
pub use known::what_is_known_of_snapshots_is_so;
pub use laws::{a_sound_snapshot_is_whole, kept_nodes_have_the_map_of_their_tree};
pub use refusal::SnapshotRefusal;
