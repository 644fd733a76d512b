//! Examples on real blocks, as laws: what the argument asks of a session and of a record can be met, so
//! its laws aren't empty. The first law is for the writing of a record, and shows that one may follow on a
//! formatted disk; the second is for its whole life, and shows, with the first, that what
//! `serve_one_record` asks of a session and a record holds there together. They are no tests of code, and
//! nothing in the argument rests on them.

ghost use Rattle.std.specs.Prelude.{ℕ, List, []};
ghost use Rattle.disk_contract.specs.Cell.{cell_of};
ghost use Rattle.layout_journal.specs.Formatted.{empty_header, formatted};
ghost use Rattle.crash_argument.specs.Formatted.{mount_events};
ghost use Rattle.crash_example.specs.FirstRecord.{least, first_record, first_map, first_ledger, first_blocks, first_settling};
ghost use Rattle.crash_example.specs.OneRecord.{HasNoRecord, IsWrittenAs, IsSettledBy};
ghost use Rattle.crash_argument.specs.Steps.{NoneIsBeingWritten};
ghost use Rattle.crash_argument.specs.Points.{IsMounted, IsSafe, session_at_mount};
ghost use Rattle.crash_argument.specs.PipelineData.{DataAgree, AreFreed, data_at_mount};
ghost use Rattle.crash_argument.specs.Recording.{IsNextRecord};

use crash_argument::{
    a_formatted_disk_is_mounted, a_mounted_disk_begins, a_mounted_disk_has_its_data,
    a_mounted_disk_is_safe,
};
use layout_journal::journal_blocks_read_back;

/// The formatted disk of the least geometry, after its first mount, is as a session begins; and a record
/// of its bitmap block and of one fresh block, whatever its bytes, may follow there.
pub fn a_record_follows_on_the_formatted_disk()
    ensures next { (ticket : ℕ) (x : List ℕ) → IsNextRecord (first_ledger ticket) (first_record x) (first_map x) }
    ensures freed { (ticket : ℕ) (x : List ℕ) → AreFreed (first_ledger ticket) (first_record x) (first_map x) [] }
    ensures begun { (ticket : ℕ) → IsMounted (cell_of (formatted least) (mount_events least ticket)) least 1 (empty_header least 2 2) }
    ensures safe { (ticket : ℕ) → IsSafe (session_at_mount least (empty_header least 2 2) (mount_events least ticket)) (formatted least)
        (mount_events least ticket) (first_ledger ticket) 2 0 }
    ensures knows { (ticket : ℕ) → DataAgree (formatted least) (mount_events least ticket) (first_ledger ticket) (data_at_mount (empty_header least 2 2)) }
    ensures idle { (ticket : ℕ) → NoneIsBeingWritten (cell_of (formatted least) (mount_events least ticket)) (first_ledger ticket) }
{
    journal_blocks_read_back();
    a_formatted_disk_is_mounted();
    a_mounted_disk_begins();
    a_mounted_disk_is_safe();
    a_mounted_disk_has_its_data();
}

/// The life of that record on the formatted disk meets all that `serve_one_record` asks of a session and a
/// record: with the law above, the journal has no record before it, its blocks are written where it says,
/// and two headers and the write of the bitmap block to its place settle it.
pub fn a_record_lives_on_the_formatted_disk()
    ensures none { (ticket : ℕ) → HasNoRecord (first_ledger ticket) (data_at_mount (empty_header least 2 2)) }
    ensures written { (ticket : ℕ) (x : List ℕ) → IsWrittenAs (first_ledger ticket) (first_record x) (first_blocks x) }
    ensures settled { (ticket : ℕ) (x : List ℕ) → IsSettledBy (first_ledger ticket) (first_record x) (first_map x) first_settling }
{
    journal_blocks_read_back();
}
