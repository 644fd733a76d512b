//! The laws of the search for a run, as functions that do nothing: each clause is a law. They hold of
//! every image; how its blocks are read is not said here.

ghost use Rattle.std.specs.Prelude.{ℕ};
ghost use Rattle.base_types.specs.Seal.{Blocks};
ghost use Rattle.layout_journal.specs.declared.header.Header.{Header};
ghost use Rattle.layout_journal.specs.Run.{Record};
ghost use Rattle.crash_record.specs.Laws.{HeadersNeedASize, DescriptionLaws, WholeLaws, RunLaws};

use layout_geometry::geometries_are_within_limits;
use layout_journal::journal_blocks_keep_to_their_bounds;

/// No header rests on a disk of a size that no geometry has.
pub fn headers_need_a_size()
    ensures { HeadersNeedASize }
{
    geometries_are_within_limits();
    journal_blocks_keep_to_their_bounds();
}

/// What the commit block and the descriptors at a ring place say of a record.
pub fn records_are_described_by_their_blocks()
    ensures { (img : Blocks) (h : Header) (number place : ℕ) → DescriptionLaws img h number place }
{
    journal_blocks_keep_to_their_bounds();
}

/// When a record that is described is whole.
pub fn whole_records_pass_their_tests()
    ensures { (img : Blocks) (h : Header) (r : Record) → WholeLaws img h r }
{}

/// How the first records of a run grow to the run.
pub fn runs_grow_by_the_next_record()
    ensures { (img : Blocks) (h : Header) → RunLaws img h }
{}
