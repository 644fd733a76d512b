//! The lines of a trace: the geometry, what happened on the disk, each command, each reply, and the end. They are
//! written to a sink as they come, which takes no memory (`write`), and single lines are read (`read`), as is what
//! the text of a reply says where the tree alone doesn't decide it. The crate knows no order of lines but by the
//! definition of a whole trace, no tree, and nothing that lines are pulled from. The rules are described in
//! docs/TRACE.md.
#![tactic(auto)]

mod laws;
mod line_to_write;
mod read;
mod read_fields;
mod read_lines;
mod read_refusals;
mod write;

pub use laws::{a_line_says_one_thing, equal_traces_have_equal_contents};
pub use read::{
    is_end, read_command, read_event, read_geometry, read_known, read_refusal, read_reply,
};
pub use write::{
    write_command, write_end, write_event, write_geom, write_lost, write_noticed, write_reply,
    write_wrote,
};
