//! A bay of disks in memory: images under names, out of which disks are handed out, and into which disks are
//! taken back. It is for tests and for runs that say which calls fail; nothing here outlives the
//! program. The rules are described in docs/BAYS.md.
#![tactic(auto)]

mod bay;
mod calls;
mod disk;
mod held;
mod shelves;

pub use bay::MemBay;
pub use calls::{BayCall, BayFail};
pub use disk::BayDisk;
