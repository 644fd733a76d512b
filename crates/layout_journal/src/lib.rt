//! The journal's blocks, as values and as definitions of their bytes: headers, commit blocks,
//! descriptors; and what an image of them holds: the newest header, the recoverable run, the recovered
//! blocks. Also what each block of a disk has once the disk is formatted: the first header, the bits of the
//! blocks before the data, the root directory, and zeros. Nothing here writes to a disk. It is described in
//! docs/JOURNAL.md and docs/LAYOUT.md.
#![tactic(auto)]

mod block;
mod entry;
mod flaw;
mod formatted_laws;
mod header;
mod laws;
mod payload;
mod read;
mod record;
mod record_writer;
mod ring;
mod write;
mod write_record;

pub use block::formatted_block;
pub use entry::{Entries, Entry, EntryKind, MOST_ENTRIES};
pub use flaw::BadRecord;
pub use formatted_laws::the_formatted_disk_is_empty;
pub use header::Header;
pub use laws::{
    a_ring_hands_out_free_places, an_image_holds_one_map, descriptors_tell_the_entries,
    entries_that_fit_keep_to_the_disk, images_alike_below_n_hold_the_same,
    journal_blocks_are_sealed, journal_blocks_are_told_apart, journal_blocks_have_one_spelling,
    journal_blocks_keep_to_their_bounds, journal_blocks_read_back, payloads_read_back,
    the_formatted_disk_holds_itself,
};
pub use payload::{escape, is_stored, unescape};
pub use read::{descriptor_count, read_commit, read_descriptor, read_header};
pub use record::{Commit, Descriptor};
pub use record_writer::RecordWriter;
pub use ring::{Ring, ring_block};
pub use write::write_header;
pub use write_record::{write_commit, write_descriptor};
