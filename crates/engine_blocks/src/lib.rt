//! A map of blocks with sync points: the contract that the file system's proof rests on, and a map in
//! memory that meets it. Blocks are changed in a running transaction, which a sync ends; what a crash
//! leaves is the map of a sync point. No journal and no disk is known here. The rules are described in
//! docs/BLOCKS.md.
#![tactic(auto)]

mod bits;
mod blocks;
mod figures;
mod formatting;
mod history;
mod laws;
mod plain;
mod refusals;
mod role;

pub use blocks::Blocks;
pub use figures::Figures;
pub use laws::{a_commit_grows_by_each_call, calls_compose, the_lowest_may_be_taken};
pub use plain::PlainBlocks;
pub use refusals::{LowestRefusal, SyncRefusal, WaitRefusal};
pub use role::Role;
