//! A record of the journal, what the blocks of an image say of it, and the laws by which a search for
//! the recoverable run goes from record to record. It reads no image and no disk: `crash_plain_recovery`
//! searches a list of blocks, and `engine_recover` a disk.
#![tactic(auto)]

mod blocks;
mod laws;
mod order;
mod record;

pub use blocks::{commit_in, descriptor_in, fits, has_digest, newer_header, part_length};
pub use laws::{
    headers_need_a_size, records_are_described_by_their_blocks, runs_grow_by_the_next_record,
    whole_records_pass_their_tests,
};
pub use order::{entries_fit, names_block};
pub use record::{Record, RecordList};
