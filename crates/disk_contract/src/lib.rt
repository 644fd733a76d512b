//! The disk of the file system as a list of events, what a crash may leave of it, and the contract of
//! its calls: `Disk`. `Bay` is where disks come from. There is no disk here: those in memory and in
//! files are in crates above, and so is all that blocks mean. The rules are described in docs/DISK.md.
#![tactic(auto)]

mod bay;
mod boxed;
mod disk;
mod event;
mod laws;
mod ordered;

pub use bay::{Bay, BayFault, Mark};
pub use boxed::{BoxedBlock, a_block_has_its_bytes};
pub use disk::{Disk, DiskFault};
pub use event::Event;
pub use laws::{
    a_notice_adds_no_image, an_event_changes_one_block, calls_in_a_row_spend_together,
    calls_keep_a_log_lawful, settled_is_the_newest_noticed,
};
pub use ordered::write_in_order;
