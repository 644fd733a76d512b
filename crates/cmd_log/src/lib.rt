//! An application's log on the disk under a name: a log over any blocks on a disk whose calls are answered one after
//! the other, and what is known of whole runs of them; and the engine of `applog IMAGE`, which keeps the log of an image.
//! What a log is, is said by `lang_log`, and what a single call does by `fs_log`.
#![tactic(auto)]

mod laws;
mod logging;
mod refusal;
mod running;
mod serving;
mod store_laws;

pub use laws::{
    a_kept_append_is_in_each_run, calls_on_a_disk_are_a_run, each_image_has_what_was_synced,
};
pub use logging::run_log;
pub use refusal::LogRunRefusal;
pub use serving::Logged;
