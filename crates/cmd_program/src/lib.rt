//! The program as a library: words and an input in, an output out, over any bay of disks. The crates below hold the parts;
//! here are the endings of each command, with its last line, and the exit status. The process itself, with its streams and
//! its files, is `optfs`. The rules are described in docs/SCRIPT.md, docs/TRACE.md and docs/CRASHES.md.
#![tactic(auto)]

mod copying;
mod laws;
mod loading;
mod log_laws;
mod logging;
mod making;
mod mirroring;
mod pair_laws;
mod program;
mod replaying;
mod scripting;
mod showing;
mod status;
mod telling;
mod upgrading;

pub use cmd_session::ImageDamage;
pub use laws::{a_crash_of_a_recording_is_found, no_fault_is_made_where_nothing_fails};
pub use log_laws::former_logs_are_left;
pub use pair_laws::two_images_are_left;
pub use program::optfs;
pub use status::Status;
