//! A recording: the commands of a script are answered by a file system on a disk in memory, and the trace of it is written
//! as it goes. Here are the reading of lines, the answering of their commands, and laws of what is written. The disk and its
//! mount are those of `cmd_host`. With which status and last line a run of the program ends is in `cmd_program`. The rules are described
//! in docs/SCRIPT.md, docs/TRACE.md and docs/CRASHES.md.
#![tactic(auto)]

mod events;
mod laws;
mod reading;
mod recording;
mod running;
mod writing;

pub use laws::{
    a_disk_at_rest_is_crash_consistent, a_text_is_served_in_one_way,
    the_last_point_stands_where_accepted_writes_do,
    the_numbers_of_a_recording_are_those_of_its_points, what_need_not_come_back_is_there,
    wrong_traces_are_refused,
};
pub use reading::Ending;
pub use recording::Stop;
pub use writing::{record_lines, write_failed_mount};
