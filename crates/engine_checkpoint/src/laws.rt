//! Laws of what stays right between two calls of the pipeline, as the running transaction takes and frees
//! blocks. Which blocks it takes, and what it writes there, isn't said here.

ghost use Rattle.std.specs.Prelude.{◌≡◌, ◌⊎◌, ℕ, List, true};
ghost use Rattle.base_types.specs.Seal.{Blocks};
ghost use Rattle.disk_contract.specs.declared.event.Event.{Event};
ghost use Rattle.layout_journal.specs.Ring.{RingPlaces};
ghost use Rattle.crash_argument.specs.HomeTest.{is_one_of};
ghost use Rattle.crash_argument.specs.Ledger.{Ledger};
ghost use Rattle.crash_argument.specs.Points.{MountedSession};
ghost use Rattle.engine_reuse.specs.Calls.{with_freed, with_taken};
ghost use Rattle.engine_reuse.specs.Dead.{AreSound, DeadBlocks};
ghost use Rattle.engine_reuse.specs.Numbers.{is_among};
ghost use Rattle.engine_checkpoint.specs.Advance.{IsRight, IsSound};
ghost use Rattle.engine_checkpoint.specs.declared.pipeline.Pipeline.{Pipeline};

use crash_argument::a_reusable_block_is_dead;
use engine_reuse::a_freed_block_waits;

/// All stays right as the running transaction takes blocks that may be taken, and as it frees blocks. So it does
/// as the transaction has fewer of the blocks that it took, and as there is more or less room for frees. It does
/// nothing.
pub fn taken_blocks_stay_right()
    ensures takes { (s : MountedSession) (base : Blocks) (log : List Event) (l : Ledger) (t floor : ℕ) (v : Pipeline) (ring : RingPlaces)
        (dead : DeadBlocks) (taken list now : List ℕ) → AreSound dead → dead.geom ≡ v.geom → IsRight s base log l t floor v ring dead taken
        → ((b : ℕ) → is_one_of b list ≡ true → is_among b dead.reusable ≡ true)
        → ((b : ℕ) → is_one_of b now ≡ true → (is_one_of b list ≡ true) ⊎ (is_one_of b taken ≡ true))
        → IsRight s base log l t floor v ring (with_taken dead list) now }
    ensures frees { (s : MountedSession) (base : Blocks) (log : List Event) (l : Ledger) (t floor : ℕ) (v : Pipeline) (ring : RingPlaces)
        (dead : DeadBlocks) (taken : List ℕ) (b : ℕ) → IsRight s base log l t floor v ring dead taken
        → IsRight s base log l t floor v ring (with_freed dead b) taken }
    ensures fewer { (s : MountedSession) (base : Blocks) (log : List Event) (l : Ledger) (t floor : ℕ) (v : Pipeline) (ring : RingPlaces)
        (dead : DeadBlocks) (taken now : List ℕ) → IsRight s base log l t floor v ring dead taken
        → ((b : ℕ) → is_one_of b now ≡ true → is_one_of b taken ≡ true) → IsRight s base log l t floor v ring dead now }
    ensures room { (s : MountedSession) (base : Blocks) (log : List Event) (l : Ledger) (t floor : ℕ) (v : Pipeline) (ring : RingPlaces)
        (dead : DeadBlocks) (taken : List ℕ) (n : ℕ) → IsRight s base log l t floor v ring dead taken
        → IsRight s base log l t floor v ring (record dead { room = n }) taken }
{
    a_reusable_block_is_dead();
    a_freed_block_waits();
}

/// Pipeline, ring and dead blocks stay sound over any disk as the running transaction takes blocks, as it frees
/// one, and as there is more or less room for frees. It does nothing.
pub fn taken_blocks_stay_sound()
    ensures takes { (v : Pipeline) (ring : RingPlaces) (dead : DeadBlocks) (list : List ℕ) → IsSound v ring dead → IsSound v ring (with_taken dead list) }
    ensures frees { (v : Pipeline) (ring : RingPlaces) (dead : DeadBlocks) (b : ℕ) → IsSound v ring dead → IsSound v ring (with_freed dead b) }
    ensures room { (v : Pipeline) (ring : RingPlaces) (dead : DeadBlocks) (n : ℕ) → IsSound v ring dead → IsSound v ring (record dead { room = n }) }
{}
