//! The background pipeline of committed transactions: their records become durable, sure, placed and
//! released, as the disk's notices come. When it is called, and what is committed, isn't its matter.
#![tactic(auto)]

mod advance;
mod batch;
mod header;
mod home;
mod issue;
mod laws;
mod making;
mod newest;
mod payload;
mod pipeline;
mod waits;

pub use issue::commit_next;
pub use laws::{taken_blocks_stay_right, taken_blocks_stay_sound};
pub use newest::{Newest, Spot};
pub use payload::the_newest_payloads_are_the_map;
pub use pipeline::{HomeWrite, Pending, Pipeline, Ready};
