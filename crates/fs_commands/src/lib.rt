//! The file system over any map of blocks: opened where a tree stands, its commands answered as the tree answers
//! them or refused by a stated cause, and the listing of its tree. It knows no journal and no disk. The rules are described in docs/FILE-SYSTEM.md and
//! docs/SPACE.md.
#![tactic(auto)]

mod begins;
mod bytes;
mod commands;
mod facts;
mod figures;
mod fills;
mod found;
mod fs;
mod gathering;
mod held;
mod kept_listing;
mod kept_looks;
mod known;
mod lines;
mod listing;
mod look;
mod making;
mod memory;
mod moving;
mod paths;
mod prices;
mod refusals;
mod removing;
mod renaming;
mod sharing;
mod sizes;
mod snapping;
mod snapshot_drafts;

pub use fs::Fs;
pub use listing::ListRefusal;
pub use look::{list, read, stat};
pub use memory::formatted_in_memory;
