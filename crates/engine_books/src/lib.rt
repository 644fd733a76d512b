//! The books of a running transaction over a disk: the bitmap as it is now, what was put, taken and freed,
//! and which data blocks may be taken. They are the half of a map of blocks that needs no disk and no
//! journal. What is on the disk, and when a transaction is committed, isn't their matter. They are described
//! in docs/BOOKS.md.
#![tactic(auto)]

mod books;
mod laws;

pub use books::Books;
pub use laws::{
    a_commit_has_what_the_roles_say, a_release_keeps_the_books,
    a_running_transaction_may_be_the_next_record, books_that_are_kept_are_sound,
    the_map_has_the_bits, the_map_needs_only_live_blocks,
};
