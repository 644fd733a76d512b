//! A file system over blocks on a disk, from its mount on: whole runs of commands are answered as the tree answers
//! them, and each crash leaves the tree of one sync point. What a single command does is said by `fs_commands`. The rules are
//! described in docs/CRASHES.md. And what the image of a disk is to whoever mounts it (docs/SHOWING.md).
#![tactic(auto)]

mod images;
mod laws;
mod served;

pub use images::{ImageDamage, a_damaged_image_stands_for_no_tree, an_image_has_one_answer};
pub use laws::{
    a_command_costs_at_most_so_much, a_command_goes_by_the_log, a_run_begins_by_the_log,
    a_run_may_end_at_once, a_served_run_is_crash_consistent, the_writes_keep_within_the_budget,
    the_writes_keep_within_the_budget_at_each_mark, what_was_issued_was_accepted,
};
pub use served::Served;
