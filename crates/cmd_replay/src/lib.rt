//! What a crash of a trace would have left: the tree that stands in the image of a moment and a choice, and the newest
//! sync point that has it. It reads no trace and no choice from a text. It is described in docs/REPLAY.md.
#![tactic(auto)]

mod comparing;
mod kinds;
mod laws;
mod listed;
mod points;
mod refusal;
mod replaying;
mod walk;

pub use laws::{
    a_listing_says_the_tree, commands_keep_names_lawful, points_of_a_trace_have_lawful_names,
    what_stands_has_lawful_names,
};
pub use refusal::ReplayRefusal;
pub use replaying::{Replayed, replay};
