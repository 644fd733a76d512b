//! What is known of crashes in a session, before and after a call, as the contract of maps of blocks says it. The
//! function does nothing; its clauses are the law. Why a call leaves a disk safe is said by `crash_argument`.

ghost use Rattle.std.specs.Prelude.{◌≡◌, ◌↔◌, ◌⊎◌, ◌+◌, ◌-◌, ◌≤◌, ℕ, List, length, false};
ghost use Rattle.base_types.specs.Seal.{Blocks};
ghost use Rattle.disk_contract.specs.declared.event.Event.{Event};
ghost use Rattle.disk_contract.specs.Cell.{accepted, is_lost};
ghost use Rattle.disk_contract.specs.Disk.{Grows, writes_in};
ghost use Rattle.crash_argument.specs.Ledger.{HoldsUnder, Ledger, next_number};
ghost use Rattle.crash_argument.specs.Points.{MountedSession, IsSafe};
ghost use Rattle.engine_blocks.specs.State.{Bookkeeping, Counts};
ghost use Rattle.engine_blocks.specs.Crashes.{Advances, AwaitsSince, HasLiveBlocks, HasMapOfPoint, HoldsPointBetween, IssuesNothing, StandsForLast};
ghost use Rattle.engine_blocks.specs.Crashes.{WritesAtMost};
ghost use Rattle.engine_store.specs.declared.parts.StoreParts.{StoreParts};
ghost use Rattle.engine_store.specs.SessionView.{crash_of, state_of};
ghost use Rattle.engine_store.specs.Told.{awaited_in};

use crash_argument::{
    a_call_begins_safe, a_point_is_for_ever, a_read_gives_what_was_written_last,
    all_issued_is_the_last_point,
};
use layout_journal::an_image_holds_one_map;

/// What is known of crashes where a disk is safe by some ledger, whose next number counts the points. After a write
/// that failed the last point may be one that wasn't made. A call that
/// leaves it safe, with a window that reaches back to where the call began, is one in which time goes on. A crash
/// now leaves a point from the floor on. All that was issued is the last point; where no write was lost, that is
/// all that was accepted. The last point's map, if the log has it, has the live blocks of each map that the ledger's
/// newest agrees with there. A call that leaves the log, and for which tickets points wait, has issued nothing. The writes
/// grow as those of the log do. For which tickets points wait no ledger says: where time goes on, a point must wait for
/// no ticket that it didn't wait for, unless both are new.
pub fn a_call_that_stays_safe_advances()
    ensures advances { (s : MountedSession) (base : Blocks) (old new : List Event) (l n : Ledger) (j k : Bookkeeping) (c d : Counts) (a b : Blocks)
        (v w : StoreParts) (t floor since low : ℕ) → IsSafe s base old l t floor → Grows old new → IsSafe s base new n since low → since ≤ length old
        → j.floor ≤ low
        → j.point ≡ next_number l - s.first → next_number n - s.first ≤ k.point → j.floor ≤ k.floor
        → ((p u : ℕ) → awaited_in w p u → awaited_in v p u ⊎ AwaitsSince (state_of s j c a base old (awaited_in v)) p u)
        → Advances (state_of s j c a base old (awaited_in v)) (state_of s k d b base new (awaited_in w)) }
    ensures told { (s : MountedSession) (base : Blocks) (log : List Event) (l : Ledger) (k : Bookkeeping) (c : Counts) (m : Blocks) (w : StoreParts)
        (t floor : ℕ) (img : Blocks) → IsSafe s base log l t floor → k.floor ≤ l.known - s.first → next_number l - s.first ≤ k.point
        → (state_of s k c m base log (awaited_in w)).crash.left_since (length log) img
        → ∥ HoldsPointBetween (state_of s k c m base log (awaited_in w)) k.floor k.point img ∥₁ }
    ensures last { (s : MountedSession) (base : Blocks) (log : List Event) (l : Ledger) (k : Bookkeeping) (c : Counts) (m : Blocks) (w : StoreParts)
        (t floor : ℕ) → IsSafe s base log l t floor → k.point ≡ next_number l - s.first → StandsForLast (state_of s k c m base log (awaited_in w)) }
    ensures made { (s : MountedSession) (base : Blocks) (log : List Event) (l : Ledger) (k : Bookkeeping) (c : Counts) (m : Blocks) (w : StoreParts)
        (t floor : ℕ) → IsSafe s base log l t floor → k.geom ≡ s.geom → next_number l - s.first ≤ k.point
        → (k.point ≡ next_number l - s.first → HasLiveBlocks k.geom m (l.map_before (next_number l)))
        → HasMapOfPoint (state_of s k c m base log (awaited_in w)) k.point }
    ensures accepted { (s : MountedSession) (base : Blocks) (log : List Event) (w : StoreParts) (m : Blocks) → ((b : ℕ) → is_lost b log ≡ false)
        → (crash_of s base log (awaited_in w)).issued m ↔ HoldsUnder s.geom.n s.geom (accepted base log) m }
    ensures nothing { (s : MountedSession) (base : Blocks) (old new : List Event) (j k : Bookkeeping) (c d : Counts) (a b : Blocks) (v w : StoreParts)
        → new ≡ old → ((p u : ℕ) → awaited_in w p u ↔ awaited_in v p u)
        → IssuesNothing (state_of s j c a base old (awaited_in v)) (state_of s k d b base new (awaited_in w)) }
    ensures writes { (s : MountedSession) (base : Blocks) (old new : List Event) (j k : Bookkeeping) (c d : Counts) (a b : Blocks) (v w : StoreParts)
        (more : ℕ) → writes_in new + k.owed ≤ writes_in old + j.owed + more
        → WritesAtMost more (state_of s j c a base old (awaited_in v)) (state_of s k d b base new (awaited_in w)) }
{
    a_call_begins_safe();
    a_point_is_for_ever();
    all_issued_is_the_last_point();
    a_read_gives_what_was_written_last();
    an_image_holds_one_map();
}
