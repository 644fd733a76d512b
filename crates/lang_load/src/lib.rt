//! The commands of a large run, which a seed decides: `Load` makes one after the other. Nothing here runs a
//! command, and nothing counts replies. The rule is described in docs/LOADS.md.
#![tactic(auto)]

mod kind;
mod laws;
mod load;

pub use laws::{a_load_has_its_commands, seed_zero_begins_so};
pub use load::Load;
