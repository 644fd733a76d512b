//! The argument on crashes: why each honest crash image of each moment holds the map of one sync point, on a
//! disk that isn't flushed; and the disk calls that are guarded by it. It has three
//! steps of a mount, `close_journal`, `replay_block` and `open_journal`, and no other code of a journal, a
//! pipeline or a mount. It chooses no block, no place in the ring and no moment to wait. docs/CRASH-SAFETY.md
//! gives the argument.
//!
//! # Terms
//!
//! - The **ledger** is what the file system knows of its journal and its disk. No code holds it: clauses
//!   quantify over it. A disk is **consistent** with a ledger where it is as the ledger says.
//! - A record is **known** once all of it is noticed, **sure** once a durable header says that it counts,
//!   **placed** once its payloads are at their blocks, and **released** once a durable header starts past it.
//! - A **session** is a geometry, an epoch, and where its mount ended. Its **points** follow from the disk's
//!   base and log alone: point p is what the disk holds once all is on it that was issued up to the p-th
//!   commit block since.
//! - A **window** speaks of every honest image of every moment from one moment on: the image holds a map, and
//!   that is the map of a point. A disk is **safe** where it is consistent and its window holds.
//! - The **data** of a pipeline are its tickets, counts and lists. They **agree** where they are right about
//!   ledger and disk.
//!
//! # Letters
//!
//! `base` and `log` are what the disk began with and its events; `s` is a session, `l` a ledger, `p` a
//! pipeline's data, `g` a geometry, `h` a header, `w` a record with its blocks, `m` a map, `img` an image, `b` a
//! block's number, and `x` or `y` its bytes. `t` is the moment from which a window speaks, and `floor` the
//! least point that it allows.
//!
//! # Facts
//!
//! 1. Where a disk is consistent with a ledger, each honest image holds the map before one record number
//!    (`an_image_stands_for_one_point`).
//! 2. A mounted disk is safe, with point 0 (`a_mounted_disk_begins`, `a_mounted_disk_is_safe`).
//! 3. Each kind of event leaves a safe disk safe where its condition holds (`src/laws.rt`).
//! 4. So does each step of the ledger that no event makes (`a_durable_header_is_safe`,
//!    `noticed_records_are_known`).
//! 5. At each moment of the window every honest image holds the map of a point (`a_crash_leaves_a_point`). Points are
//!    for ever (`a_point_is_for_ever`).
//! 6. The conditions of 3 follow from a pipeline's data, and the data stay right at each step (`src/pipeline.rt`,
//!    `src/between.rt`). The guarded calls make such steps on a disk (`src/guarded.rt`, `src/record.rt`).
//! 7. While a mount closes the run that it found, replays it and opens a new epoch, each honest image holds what
//!    was found (`a_replay_holds_what_was_found`, `src/closing.rt`, `open_journal`). The replay goes from block to
//!    block (`src/replaying.rt`), and the session behind it begins with what was found.
//! 8. A caller may carry a statement of its own on images (`src/windows.rt`).
//!
//! Apart from these: no block has two writes pending (`src/one_pending.rt`), and writes are counted
//! (`src/counts.rt`).
#![tactic(auto)]

mod between;
mod closing;
mod counts;
mod guarded;
mod journal;
mod laws;
mod one_pending;
mod opening;
mod pipeline;
mod points;
mod record;
mod replay;
mod replaying;
mod windows;
mod writes;

pub use between::{
    nothing_is_written_between_records, records_stand_in_order, taken_blocks_stay_dead,
};
pub use closing::{close_journal, closed_header, replay_block};
pub use counts::{
    calls_add_at_most_one_write, the_counts_are_of_the_log, writes_keep_within_the_sum,
};
pub use guarded::{poll_once, wait_for, write_commit, write_header, write_in_place};
pub use laws::{
    a_commit_is_safe, a_durable_header_is_safe, a_formatted_disk_is_mounted, a_header_is_safe,
    a_mounted_disk_begins, a_notice_is_safe, a_ring_write_is_safe, a_write_in_place_is_safe,
    an_image_stands_for_one_point, noticed_records_are_known,
};
pub use one_pending::{
    a_write_to_an_idle_block_is_the_one, blocks_to_be_written_are_idle, one_write_is_pending,
    one_write_stays_pending,
};
pub use opening::{open_journal, opening_header, the_formatted_disk_may_be_opened};
pub use pipeline::{
    a_batch_comes_home, a_batch_goes_home, a_header_becomes_durable, a_home_write_may_be_made,
    a_mounted_disk_has_its_data, a_record_joins_the_data, a_reusable_block_is_dead,
    counts_tell_the_batch, fewer_may_be_sent, fewer_may_wait, known_tickets_may_go, more_may_wait,
    records_become_durable, the_home_test_is_exact, the_next_header_may_be_written,
};
pub use points::{
    a_call_begins_safe, a_crash_leaves_a_point, a_ledger_knows_what_is_noticed,
    a_log_tells_its_records, a_mounted_disk_is_safe, a_point_is_for_ever,
    all_issued_is_the_last_point, the_newest_bytes_are_the_map,
};
pub use record::{write_fresh, write_last, write_part};
pub use replay::a_replay_holds_what_was_found;
pub use replaying::{
    a_read_gives_what_was_written_last, a_replay_goes_block_by_block,
    an_idle_disk_holds_what_is_settled,
};
pub use windows::{
    HoldsMap, Statement, a_window_reaches_back, calls_only_add, guarded_calls_carry_a_statement,
    windows_go_on,
};
pub use writes::writes_join_a_log_one_by_one;
