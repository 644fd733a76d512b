//! The host of a session on a disk in memory: the disk is formatted, behaves as it is asked to, and is mounted, and a file
//! system is opened on it. What a disk in memory does is in `disk_memory`, what each block of a formatted disk has in
//! `layout_journal`, and what is said of the session from then on in `cmd_session`.
#![tactic(auto)]

mod disk;
mod image;
mod listed;
mod mounting;
mod text;

pub use disk::Behaviour;
pub use image::formatted_image;
pub use listed::listing_text;
pub use mounting::{Mounted, System, begin, the_disk_keeps_to_its_manner};
