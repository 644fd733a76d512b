//! The engine of the command `load --seed S --count C`: it runs the commands of a seed on a disk in memory, and tells
//! what they came to in four lines. Which commands these are is described by `lang_load`. The rules are described in
//! docs/LOADS.md.
#![tactic(auto)]

mod answering;
mod disk;
mod listed;
mod loading;
mod mounting;
mod serving;
mod summary;

pub use loading::{MOST_COMMANDS, load};
pub use summary::Summary;
