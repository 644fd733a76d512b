//! Disks on image files, and the bay that opens them. This is the edge to the files of the system: what
//! a file holds is known to no contract, so the few lines here that reach it are trusted. Which ticket gets
//! its notice when is proved. The rules are described in docs/BAYS.md.
#![tactic(auto)]

mod bay;
mod bytes;
mod copy;
mod device;
mod device_lock;
mod device_number;
mod disk;
mod fault;
mod making;
mod notices;
mod opening;

pub use bay::FileBay;
pub use disk::FileDisk;
pub use fault::FileFault;
