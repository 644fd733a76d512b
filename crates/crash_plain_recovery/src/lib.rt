//! The plain program of the journal's definitions: of a list of blocks it computes the newest header,
//! the recoverable run and the recovered blocks, each as its definition says. It is slow and simple, and
//! the recovery of the file system is compared with it. It reads and writes no disk.
#![tactic(auto)]

mod described;
mod image;
mod newest;
mod recovered;
mod replay;
mod run;
mod whole;

pub use crash_record::{Record, RecordList};
pub use newest::newest_header;
pub use recovered::{Recovered, recover};
pub use run::recoverable_run;
