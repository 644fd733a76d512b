//! Which data blocks may be taken, and when a freed one may be taken again: once no crash can leave a map in
//! which it is live, and no checkpoint write to it is open. It knows no disk, no journal and no bytes of a block.
//! The rule is described in docs/REUSE.md.
#![tactic(auto)]

mod laws;
mod numbers;
mod reuse;
mod waiting;
mod words;

pub use laws::{a_freed_block_waits, calls_change_what_is_dead, the_accounts_add_up};
pub use reuse::Reuse;
