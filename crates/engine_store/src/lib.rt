//! The store of the file system on a disk: a map of blocks with sync points (`engine_blocks`) over the journal. What goes
//! on in the journal is described by `engine_checkpoint`, the running transaction by `engine_books`, and the formatting of a
//! disk, `mkfs`, is here too.
#![tactic(auto)]

mod choosing;
mod commits;
mod committing;
mod crashes;
mod formatting;
mod laws;
mod mounting;
mod moving;
mod numbers;
mod opening;
mod parts;
mod reading;
mod refusal;
mod running;
mod store;
mod syncing;
mod told;

pub use commits::{
    a_commit_stays_right, a_commit_stays_sound, a_running_transaction_may_be_committed,
};
pub use committing::commit_books;
pub use crashes::a_call_that_stays_safe_advances;
pub use formatting::{MkfsRefusal, mkfs};
pub use laws::the_data_of_a_formatted_disk_may_be_anything;
pub use numbers::{
    a_going_store_stays_so, a_pipeline_that_moves_moves_the_books, a_sound_store_has_sound_books,
};
pub use opening::{
    FoundStore, a_mount_has_one_answer, a_new_store_is_right, a_session_begins_with_its_map,
    check_bitmap, find_store, read_bitmap, the_bitmap_that_is_found_is_the_maps,
};
pub use parts::StoreParts;
pub use refusal::StoreRefusal;
pub use store::Store;
