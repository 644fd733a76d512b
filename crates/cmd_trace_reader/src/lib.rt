//! A reader of traces: `read_trace` reads one from a source. Its parts are the lines as they come, the events, and the
//! commands with their replies, replayed on a tree in memory. Single lines are read by cmd_trace. What a trace is
//! is described in docs/TRACE.md.
#![tactic(auto)]

mod event_log;
mod input;
mod kinds;
mod laws;
mod lines;
mod reader;
mod replay;
mod trace;

pub use event_log::EventLog;
pub use input::{TraceRefusal, read_trace};
pub use kinds::{is_out_of_memory, numbers_by};
pub use laws::{
    a_reply_tells_the_last_point, a_trace_is_a_run, bytes_go_wrong_at_one_line,
    lines_come_as_traces_go,
};
pub use reader::Reader;
pub use replay::Replay;
pub use trace::Trace;
