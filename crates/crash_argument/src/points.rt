//! Sync points as laws: how they begin with a mounted disk, that the last one is what has been issued, and
//! that none changes as the log grows.

ghost use Rattle.std.specs.Prelude.{◌≡◌, ◌-◌, ◌≤◌, ℕ, List, [], ◌∷◌, ◌++◌, length, take, drop, IsTrue, Some, None};
ghost use Rattle.base_types.specs.Seal.{Blocks};
ghost use Rattle.disk_contract.specs.declared.event.Event.{Event};
ghost use Rattle.disk_contract.specs.Cell.{cell_of};
ghost use Rattle.disk_contract.specs.Crash.{IsHonest};
ghost use Rattle.layout_geometry.specs.Geometry.{Geometry};
ghost use Rattle.layout_journal.specs.declared.header.Header.{Header};
ghost use Rattle.layout_journal.specs.Run.{all_places, commit_says, is_live, live_part, places_from, HeldIs};
ghost use Rattle.crash_argument.specs.Ledger.{Ledger, WrittenRecord, HoldsUnder, IsConsistentWith, all_say, cover, issued, next_number};
ghost use Rattle.crash_argument.specs.PipelineData.{PipelineData, DataAgree};
ghost use Rattle.crash_argument.specs.Points.{MountedSession, IsMounted, IsPoint, IsKnown, HoldsPoint, IsSafe, points_in, records_told};
ghost use Rattle.crash_argument.specs.Points.{ledger_at_mount, session_at_mount};
ghost use Rattle.crash_argument.specs.Steps.{with_record};

use crate::journal::the_journal_is_lawful;

/// A mounted disk is safe: what it holds is point 0, and each honest image stands for it.
pub fn a_mounted_disk_is_safe()
    ensures { (base : Blocks) (log : List Event) (g : Geometry) (slot : ℕ) (h : Header) → IsMounted (cell_of base log) g slot h
        → IsSafe (session_at_mount g h log) base log (ledger_at_mount (cell_of base log) g slot h) (length log) 0 }
{
    the_journal_is_lawful();
}

/// What a crash at a moment from t on may leave of a safe disk: an honest image holds the map of a point,
/// from `floor` to the last one, and each map that it holds is such a one.
pub fn a_crash_leaves_a_point()
    ensures holds { (s : MountedSession) (base : Blocks) (log : List Event) (l : Ledger) (t floor k : ℕ) (img : Blocks) → IsSafe s base log l t floor
        → t ≤ k → k ≤ length log → IsHonest s.geom.n base (take k log) img → ∥ HoldsPoint s base log floor (points_in s log) img ∥₁ }
    ensures each { (s : MountedSession) (base : Blocks) (log : List Event) (l : Ledger) (t floor k : ℕ) (img m : Blocks) → IsSafe s base log l t floor
        → t ≤ k → k ≤ length log → IsHonest s.geom.n base (take k log) img → HeldIs s.geom.n img m
        → ∥ ((point : ℕ) × (floor ≤ point) × (point ≤ points_in s log) × IsPoint s base log point m) ∥₁ }
{
    the_journal_is_lawful();
}

/// The image in which all that was issued stands is that of the last point.
pub fn all_issued_is_the_last_point()
    ensures held { (s : MountedSession) (base : Blocks) (log : List Event) (l : Ledger) (t floor : ℕ) → IsSafe s base log l t floor
        → HoldsUnder l.geom.n l.geom (issued base log) (live_part l.geom (l.map_before (next_number l))) }
    ensures last { (s : MountedSession) (base : Blocks) (log : List Event) (l : Ledger) (t floor : ℕ) → IsSafe s base log l t floor
        → IsPoint s base log (points_in s log) (live_part l.geom (l.map_before (next_number l))) }
{
    the_journal_is_lawful();
}

/// A log tells as many records as it counts commit blocks. That of a safe disk tells the ledger's: their ring places
/// from each number on; and where the ledger has one record more, that one is told besides, where it has none more no
/// other.
pub fn a_log_tells_its_records()
    ensures counts { (s : MountedSession) (log : List Event) → length (records_told s log) ≡ points_in s log }
    ensures places { (s : MountedSession) (base : Blocks) (log : List Event) (l : Ledger) (t floor n : ℕ) → IsSafe s base log l t floor
        → l.header.start ≤ n → places_from n (records_told s log) ≡ all_places (all_say (drop (n - l.header.start) l.records)) }
    ensures more { (s : MountedSession) (base : Blocks) (log more : List Event) (l : Ledger) (w : WrittenRecord) (m : Blocks) (t floor : ℕ)
        → IsSafe s base log l t floor → (from low : ℕ) → IsSafe s base (log ++ more) (with_record l w m) from low
        → records_told s (log ++ more) ≡ records_told s log ++ commit_says s.epoch w.says ∷ [] }
    ensures none { (s : MountedSession) (base : Blocks) (log more : List Event) (l k : Ledger) (t floor : ℕ) → IsSafe s base log l t floor
        → (from low : ℕ) → IsSafe s base (log ++ more) k from low → next_number k ≡ next_number l
        → records_told s (log ++ more) ≡ records_told s log }
{}

/// A point stays as it is in every longer log, and a longer log adds none to those that were there.
pub fn a_point_is_for_ever()
    ensures stays { (s : MountedSession) (base : Blocks) (log more : List Event) (point : ℕ) (m : Blocks) → IsPoint s base log point m
        → IsPoint s base (log ++ more) point m }
    ensures was { (s : MountedSession) (base : Blocks) (log more : List Event) (point : ℕ) (m : Blocks) → s.mounted ≤ length log
        → point ≤ points_in s log → IsPoint s base (log ++ more) point m → IsPoint s base log point m }
{}

/// A call that begins now begins safe: each image from this moment on stands for a point that is known, or
/// a later one.
pub fn a_call_begins_safe()
    ensures { (s : MountedSession) (base : Blocks) (log : List Event) (l : Ledger) (t floor : ℕ) → IsSafe s base log l t floor
        → IsSafe s base log l (length log) (l.known - s.first) }
{
    the_journal_is_lawful();
}

/// A ledger knows no more than the log says: at each moment the points that it knows are at most the greatest
/// up to which all writes of commits are noticed. That number never falls.
pub fn a_ledger_knows_what_is_noticed()
    ensures at_most { (s : MountedSession) (base : Blocks) (log more : List Event) (l : Ledger) (t floor p : ℕ) → IsSafe s base log l t floor
        → IsKnown s base (log ++ more) (length log) p → l.known - s.first ≤ p }
    ensures grows { (s : MountedSession) (base : Blocks) (log : List Event) (k i p q : ℕ) → k ≤ i → IsKnown s base log k p → IsKnown s base log i q → p ≤ q }
{}

/// The newest bytes of a live block are those of its last payload among the records that aren't at their
/// blocks, or else what was written to it last.
pub fn the_newest_bytes_are_the_map()
    ensures payload { (base : Blocks) (log : List Event) (l : Ledger) (p : PipelineData) (b : ℕ) (y : List ℕ) → IsConsistentWith base log l
        → (k : DataAgree base log l p) → IsTrue (is_live l.geom (l.map_before (next_number l)) b) → cover None (k.batch ++ k.rest) b ≡ Some y
        → l.map_before (next_number l) b ≡ y }
    ensures written { (base : Blocks) (log : List Event) (l : Ledger) (p : PipelineData) (b : ℕ) → IsConsistentWith base log l
        → (k : DataAgree base log l p) → IsTrue (is_live l.geom (l.map_before (next_number l)) b) → cover None (k.batch ++ k.rest) b ≡ None
        → l.map_before (next_number l) b ≡ issued base log b }
{}
