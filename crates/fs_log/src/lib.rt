//! The log of an application, over a file system over any map of blocks: appends are numbered, trimmed from the
//! front, ordered, and made to last. It knows no journal and no disk. What a log is, and what of it a crash may leave,
//! is said by `lang_log`.
#![tactic(auto)]

mod asking;
mod finding;
mod laws;
mod log;
mod opening;
mod reading;
mod refusal;

pub use laws::{a_resting_log_is_as_it_was, each_crash_leaves_a_former_log};
pub use log::AppLog;
pub use refusal::{LogRefusal, OpenRefusal};
