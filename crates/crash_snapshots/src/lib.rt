//! What a snapshot is to blocks that have one: the nodes that it keeps, with their bytes. Nothing here runs.
#![tactic(auto)]

mod laws;

pub use laws::{
    a_snapshot_can_be_made, a_snapshot_goes, a_snapshot_reads_as_the_blocks_did, a_snapshot_stands,
};
