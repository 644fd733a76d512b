//! The lines of an application's log: which call of a log a line is, and how its answers are written. The calls and
//! answers are data of `lang_log`; a reader of lines is in `lang_lines`. What calls do isn't known here.
#![tactic(auto)]

mod calls;
mod laws;
mod replies;

pub use calls::{Calls, parse_call};
pub use laws::{all_calls_were_given, calls_have_lines};
pub use replies::log_reply_text;
