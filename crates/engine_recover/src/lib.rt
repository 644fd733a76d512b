//! The search for what a disk's journal holds: the newest header, and under it the recoverable run,
//! record after record. Nothing is written here.
#![tactic(auto)]

mod described;
mod epoch;
mod find;
mod laws;
mod newest;
mod reading;
mod run;
mod stored;
mod whole;

pub use crash_record::{Record, RecordList};
pub use epoch::greatest_epoch;
pub use find::{RecoverRefusal, Run, find_run};
pub use laws::{
    no_epoch_is_above_the_greatest, the_last_payload_is_in_the_ring,
    the_last_payload_is_what_records_leave,
};
