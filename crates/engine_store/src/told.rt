//! A law of the store: what it keeps makes it a map of blocks. The function does nothing; its clauses are the law.

ghost use Rattle.std.specs.Prelude.{◌≡◌, ℕ, Bool, IsTrue};
ghost use Rattle.disk_contract.specs.Disk as disk;
ghost use Rattle.engine_blocks.specs.Calls.{IsSound};
ghost use Rattle.engine_blocks.specs.Crashes.{IssuesNothing, IsTold};
ghost use Rattle.engine_store.specs.declared.parts.StoreParts.{StoreParts};
ghost use Rattle.engine_store.specs.Store.{bookkeeping_of};
ghost use Rattle.engine_store.specs.Told.{AwaitsTheSame, IsKeptOn, IsSameSession, store_state};

use crate::{a_call_that_stays_safe_advances, a_sound_store_has_sound_books};
use engine_books::{the_map_has_the_bits, the_map_needs_only_live_blocks};

/// The bookkeeping of a store is sound. Where its disk tells, a crash now leaves a point from the floor on, and what
/// is known of the blocks agrees with the bookkeeping. Where no event came, the session is the same, and its points
/// wait for the same tickets, a crash may leave what it might have left.
pub(crate) fn a_store_that_is_kept_is_told()
    ensures sound { (tells : Bool) (v : StoreParts) (d : disk.State) → IsKeptOn tells v d → IsSound (bookkeeping_of v) }
    ensures told { (tells : Bool) (v : StoreParts) (ticks : ℕ) (d : disk.State) → IsKeptOn tells v d → IsTrue tells → IsTold (store_state v ticks d) }
    ensures nothing { (v w : StoreParts) (before then : ℕ) (d e : disk.State) → IsSameSession v w → AwaitsTheSame v w → e.base ≡ d.base
        → e.log ≡ d.log → IssuesNothing (store_state v before d) (store_state w then e) }
{
    a_sound_store_has_sound_books();
    a_call_that_stays_safe_advances();
    the_map_has_the_bits();
    the_map_needs_only_live_blocks();
}
