//! A disk in memory that keeps its log, and the images that it begins with and that crashes leave of it. Its bay
//! is in disk_memory_bay. It is for tests and for runs that say what a disk does; nothing here outlives
//! the program. The rules are described in docs/DISK.md. Which of its writes have no notice yet, the disk
//! keeps in a set of numbers, `Ranks`, which knows no disk and no tickets.
#![tactic(auto)]

mod calls;
mod choice;
mod counts;
mod crash;
mod disk;
mod events;
mod image;
mod image_block;
mod laws;
mod log;
mod logged;
mod ranks;
mod rule;
mod settled;

pub use calls::{DiskCall, Fail};
pub use choice::{Choice, Fate, ImageRefusal, Named, WriteName};
pub use disk::MemDisk;
pub use image::Image;
pub use laws::{a_choice_makes_each_torn_image, pending_writes_are_those_of_the_cells};
pub use logged::Logged;
pub use ranks::Ranks;
pub use rule::Rule;
