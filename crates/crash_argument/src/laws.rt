//! The theorem, that each honest image stands for one point, and one law for each kind of event: what must
//! hold before it, and which ledger holds after it. The functions do nothing but call laws. How code knows
//! that a condition holds isn't described here.

ghost use Rattle.std.specs.Prelude.{◌≡◌, true, ◌<◌, ◌≤◌, ◌+◌, ◌-◌, ℕ, List, ◌++◌, ◌∷◌, []};
ghost use Rattle.base_types.specs.Seal.{Blocks};
ghost use Rattle.disk_contract.specs.declared.event.Event.{Event};
ghost use Rattle.disk_contract.specs.declared.event.Event.TheVariants.{Wrote, Lost, Noticed};
ghost use Rattle.disk_contract.specs.Cell.{cell_of};
ghost use Rattle.disk_contract.specs.Crash.{IsHonest};
ghost use Rattle.layout_geometry.specs.Geometry.{Geometry, ring_block, geometry_fits};
ghost use Rattle.layout_journal.specs.declared.header.Header.{Header};
ghost use Rattle.crash_argument.specs.Ledger.{Ledger, WrittenRecord, IsConsistentWith, StandsForOne, block_at};
ghost use Rattle.crash_argument.specs.Steps.{NoneIsBeingWritten, MayWriteInPlace, MayWriteInRing, IsReadyToCommit, with_record, MayWriteHeader};
ghost use Rattle.crash_argument.specs.Steps.{with_header, IsDurable, with_durable_header, AreNoticed, with_known};
ghost use Rattle.crash_argument.specs.Points.{MountedSession, IsSafe, IsMounted, ledger_at_mount};
ghost use Rattle.layout_journal.specs.Formatted.{empty_header, formatted};
ghost use Rattle.crash_argument.specs.Formatted.{mount_events};

use crate::journal::the_journal_is_lawful;
use layout_journal::{journal_blocks_read_back, the_formatted_disk_is_empty};

/// Where the disk is as a ledger says, each honest image stands for one point.
pub fn an_image_stands_for_one_point()
    ensures stands { (base : Blocks) (log : List Event) (l : Ledger) (img : Blocks) → IsConsistentWith base log l → IsHonest l.geom.n base log img
        → StandsForOne l img }
{
    the_journal_is_lawful();
}

/// A session begins with its ledger, and no record is being written.
pub fn a_mounted_disk_begins()
    ensures begins { (base : Blocks) (log : List Event) (g : Geometry) (slot : ℕ) (h : Header) → IsMounted (cell_of base log) g slot h
        → IsConsistentWith base log (ledger_at_mount (cell_of base log) g slot h) }
    ensures idle { (base : Blocks) (log : List Event) (g : Geometry) (slot : ℕ) (h : Header) → IsMounted (cell_of base log) g slot h
        → NoneIsBeingWritten (cell_of base log) (ledger_at_mount (cell_of base log) g slot h) }
{}

/// A formatted disk is mounted once the header of its first mount is noticed: the condition above can be met.
pub fn a_formatted_disk_is_mounted()
    ensures mounted { (g : Geometry) (ticket : ℕ) → geometry_fits g ≡ true
        → IsMounted (cell_of (formatted g) (mount_events g ticket)) g 1 (empty_header g 2 2) }
{
    journal_blocks_read_back();
    the_journal_is_lawful();
    the_formatted_disk_is_empty();
}

/// A notice is safe.
pub fn a_notice_is_safe()
    ensures safe { (s : MountedSession) (base : Blocks) (log : List Event) (l : Ledger) (t floor ticket : ℕ) → IsSafe s base log l t floor
        → IsSafe s base (log ++ Noticed ticket ∷ []) l t floor }
{
    the_journal_is_lawful();
}

/// A write of a descriptor or a payload to a free ring place is safe.
pub fn a_ring_write_is_safe()
    ensures accepted { (s : MountedSession) (base : Blocks) (log : List Event) (l : Ledger) (t floor ticket place : ℕ) (x : List ℕ) → MayWriteInRing l place x
        → IsSafe s base log l t floor → IsSafe s base (log ++ Wrote ticket (ring_block l.geom place) x ∷ []) l t floor }
    ensures lost { (s : MountedSession) (base : Blocks) (log : List Event) (l : Ledger) (t floor place : ℕ) (x : List ℕ) → MayWriteInRing l place x
        → IsSafe s base log l t floor → IsSafe s base (log ++ Lost (ring_block l.geom place) x ∷ []) l t floor }
{
    the_journal_is_lawful();
}

/// A write of a fresh block, or home, to a block that is dead or covered is safe.
pub fn a_write_in_place_is_safe()
    ensures accepted { (s : MountedSession) (base : Blocks) (log : List Event) (l : Ledger) (t floor ticket block : ℕ) (x : List ℕ)
        → MayWriteInPlace (cell_of base log) l block
        → IsSafe s base log l t floor → IsSafe s base (log ++ Wrote ticket block x ∷ []) l t floor }
    ensures lost { (s : MountedSession) (base : Blocks) (log : List Event) (l : Ledger) (t floor block : ℕ) (x : List ℕ)
        → MayWriteInPlace (cell_of base log) l block
        → IsSafe s base log l t floor → IsSafe s base (log ++ Lost block x ∷ []) l t floor }
{
    the_journal_is_lawful();
}

/// The commit block of a record that is otherwise issued makes a point.
pub fn a_commit_is_safe()
    ensures accepted { (s : MountedSession) (base : Blocks) (log : List Event) (l : Ledger) (t floor ticket : ℕ) (w : WrittenRecord) (m : Blocks)
        → IsReadyToCommit base log l w m
        → IsSafe s base log l t floor → IsSafe s base (log ++ Wrote ticket (ring_block l.geom w.says.place) (block_at w.ring 0) ∷ [])
        (with_record l w m) t floor }
    ensures lost { (s : MountedSession) (base : Blocks) (log : List Event) (l : Ledger) (t floor : ℕ) (w : WrittenRecord) (m : Blocks)
        → IsReadyToCommit base log l w m
        → IsSafe s base log l t floor → IsSafe s base (log ++ Lost (ring_block l.geom w.says.place) (block_at w.ring 0) ∷ []) (with_record l w m) t floor }
{
    the_journal_is_lawful();
}

/// A header beside the durable one is safe.
pub fn a_header_is_safe()
    ensures accepted { (s : MountedSession) (base : Blocks) (log : List Event) (l : Ledger) (t floor ticket : ℕ) (x : List ℕ) (h : Header)
        → MayWriteHeader (cell_of base log) l x h
        → IsSafe s base log l t floor → IsSafe s base (log ++ Wrote ticket (1 - l.slot) x ∷ []) (with_header l h) t floor }
    ensures lost { (s : MountedSession) (base : Blocks) (log : List Event) (l : Ledger) (t floor : ℕ) (x : List ℕ) (h : Header)
        → MayWriteHeader (cell_of base log) l x h
        → IsSafe s base log l t floor → IsSafe s base (log ++ Lost (1 - l.slot) x ∷ []) (with_header l h) t floor }
{
    the_journal_is_lawful();
}

/// A header that is known to be durable takes the place of the one before.
pub fn a_durable_header_is_safe()
    ensures turns { (s : MountedSession) (base : Blocks) (log : List Event) (l : Ledger) (t floor : ℕ) (h : Header) → IsDurable (cell_of base log) l h
        → IsSafe s base log l t floor → IsSafe s base log (with_durable_header l h) t floor }
{
    the_journal_is_lawful();
}

/// Records of which all is noticed are known.
pub fn noticed_records_are_known()
    ensures known { (s : MountedSession) (base : Blocks) (log : List Event) (l : Ledger) (t floor number : ℕ) → AreNoticed (cell_of base log) l number
        → IsSafe s base log l t floor → IsSafe s base log (with_known l number) t floor }
{
    the_journal_is_lawful();
}
