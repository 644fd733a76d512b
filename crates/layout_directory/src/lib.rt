//! Directory slots and whole directories over borrowed blocks: reading and writing one slot, and finding an
//! entry by its name. It keeps no directory, reads no disk and takes no memory; which entry goes where is for
//! its callers to say. The layout is described in docs/LAYOUT.md.
#![tactic(auto)]

mod directory;
mod laws;
mod slot;

pub use directory::find;
pub use laws::{a_name_has_its_first_place, entries_follow_their_bytes, slots_read_back};
pub use layout_bytes::Slot;
pub use slot::{BadSlot, read_slot, write_slot};
