//! The log of an application in a tree of files: what a log is, how it is spelled, what the commands of such a
//! log make of it, and what of it a crash may leave; and code that writes and reads its names and bytes. It runs
//! no command. The README describes the rules.
#![tactic(auto)]

mod bytes;
mod call;
mod call_laws;
mod examples;
mod laws;
mod log_laws;
mod names;
mod question_laws;

pub use bytes::{
    HEAD, LONGEST_APPEND, Passed, appends_are_read_back, first_append, pass, spelling,
};
pub use call::{LogCall, LogReply};
pub use call_laws::{a_run_of_calls_leaves_runs, calls_of_a_log_go_on, six_calls_are_answered_so};
pub use examples::{spoiled_trees_have_no_log, two_appends_are_spelled_so, two_appends_make_a_log};
pub use laws::{
    a_log_begins_empty, a_new_segment_is_empty, a_segment_grows_by_an_append, a_segment_is_read,
    a_segment_lies_in_the_directory, the_first_segment_goes,
};
pub use log_laws::{
    a_tree_has_no_log_where, a_tree_has_one_log, an_append_lies_in_its_segment,
    segments_make_a_log, what_is_left_is_a_run, what_might_be_left_still_may,
};
pub use names::{first_of, names_tell_numbers_apart, segment_name};
pub use question_laws::{
    listed_segments_are_all, names_in_a_log_lead_somewhere, names_in_a_log_rise,
    the_directory_of_a_log_is_told, what_is_in_a_log_is_told,
};
