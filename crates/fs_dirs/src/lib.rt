//! Directories over files of a draft: names looked up, paths walked, slots added, changed and taken out. No
//! command and no journal is known here. The rules are described in docs/DIRECTORIES.md.
#![tactic(auto)]

mod adding;
mod block;
mod changing;
mod laws;
mod listing;
mod lookup;
mod walks;

pub use adding::add_slot;
pub use changing::{set_slot, take_slot};
pub use laws::{alterations_add_up, directories_are_read};
pub use listing::{entries, names};
pub use lookup::{Directory, Found, count_slots, find_in_directory};
pub use walks::{walk, walk_to_parent};
