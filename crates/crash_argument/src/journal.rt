//! The laws of lower crates that the argument rests on, gathered in one contract. The function does
//! nothing; what the argument makes of these laws isn't described here.

ghost use Rattle.crash_argument.specs.JournalLaws.{JournalLaws};

use layout_geometry::geometries_are_within_limits;
use layout_journal::{
    an_image_holds_one_map, descriptors_tell_the_entries, entries_that_fit_keep_to_the_disk,
    journal_blocks_are_sealed, journal_blocks_are_told_apart, journal_blocks_keep_to_their_bounds,
};

/// What the journal's blocks, records and images are by their own laws.
pub(crate) fn the_journal_is_lawful()
    ensures { JournalLaws }
{
    journal_blocks_are_sealed();
    journal_blocks_are_told_apart();
    journal_blocks_keep_to_their_bounds();
    descriptors_tell_the_entries();
    entries_that_fit_keep_to_the_disk();
    an_image_holds_one_map();
    geometries_are_within_limits();
}
