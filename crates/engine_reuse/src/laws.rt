//! Laws of the dead data blocks: how many there are, what each call makes of them, and when a freed block may
//! be taken again. The functions do nothing; their clauses are the laws.

ghost use Rattle.std.specs.Prelude.{◌≡◌, ◌+◌, ◌-◌, ◌==◌, ◌&&◌, ◌||◌, ℕ, Bool, not, true, false, List, length, map, slice_get, Some, All};
ghost use Rattle.base_types.specs.Seal.{Blocks};
ghost use Rattle.layout_geometry.specs.Geometry.{Geometry, LiesIn, data_start};
ghost use Rattle.layout_geometry.specs.Geometry.Area.{Data};
ghost use Rattle.layout_bitmap.specs.Bits.{bit_in};
ghost use Rattle.engine_reuse.specs.Numbers.{is_among};
ghost use Rattle.engine_reuse.specs.Dead.{DeadBlocks, AreSound, IsReusable, block_of, dead_blocks, data_blocks_that};
ghost use Rattle.engine_reuse.specs.Calls.{with_bitmap, with_freed, with_sealed, with_released, with_taken, is_given_up};

/// Each data block may be taken, is live, is held, or waits, and in one way only: the four numbers add up to that
/// of all data blocks. The live ones are those that a test passes which is exact on data blocks, as a bitmap is.
pub fn the_accounts_add_up()
    ensures { (v : DeadBlocks) (live : ℕ → Bool) → AreSound v → ((b : ℕ) → LiesIn v.geom Data b → live b ≡ not (is_among b (dead_blocks v)))
        → length v.reusable + length (data_blocks_that v.geom live) + length v.held + length v.waiting ≡ v.geom.n - data_start v.geom }
{}

/// By a bitmap, those data blocks are dead whose bits are clear. A block that is freed is dead from then on, and
/// those that are taken no longer are. No other call changes which blocks are dead.
pub fn calls_change_what_is_dead()
    ensures begins { (g : Geometry) (m : Blocks) (b : ℕ) → LiesIn g Data b → is_among b (dead_blocks (with_bitmap g m)) ≡ not (bit_in m b) }
    ensures freed { (v : DeadBlocks) (b c : ℕ) → is_among c (dead_blocks (with_freed v b)) ≡ (b == c || is_among c (dead_blocks v)) }
    ensures sealed { (v : DeadBlocks) (number c : ℕ) → is_among c (dead_blocks (with_sealed v number)) ≡ is_among c (dead_blocks v) }
    ensures released { (v : DeadBlocks) (sure : ℕ) (going_home : List ℕ) (c : ℕ) → AreSound v
        → is_among c (dead_blocks (with_released v sure going_home)) ≡ is_among c (dead_blocks v) }
    ensures taken { (v : DeadBlocks) (bs : List ℕ) (c : ℕ) → AreSound v → All (IsReusable v) bs
        → is_among c (dead_blocks (with_taken v bs)) ≡ (not (is_among c bs) && is_among c (dead_blocks v)) }
{}

/// A block that is held or that waits may not be taken, and one that was held waits for its record. Of the blocks
/// that wait, a release lets exactly those be taken whose record is sure and that aren't going home; all others
/// wait on.
pub fn a_freed_block_waits()
    ensures held { (v : DeadBlocks) (b : ℕ) → AreSound v → is_among b v.held ≡ true → is_among b v.reusable ≡ false }
    ensures waits { (v : DeadBlocks) (b : ℕ) → AreSound v → is_among b (map block_of v.waiting) ≡ true → is_among b v.reusable ≡ false }
    ensures sealed { (v : DeadBlocks) (number k b : ℕ) → slice_get v.held k ≡ Some b → (i : ℕ)
        × (slice_get (with_sealed v number).waiting i ≡ Some (b, number)) }
    ensures exact { (v : DeadBlocks) (sure : ℕ) (going_home : List ℕ) (k : ℕ) (p : ℕ × ℕ) → AreSound v → slice_get v.waiting k ≡ Some p
        → is_among (block_of p) (with_released v sure going_home).reusable ≡ is_given_up sure going_home p }
    ensures stays { (v : DeadBlocks) (sure : ℕ) (going_home : List ℕ) (k : ℕ) (p : ℕ × ℕ) → slice_get v.waiting k ≡ Some p
        → is_given_up sure going_home p ≡ false → (i : ℕ) × (slice_get (with_released v sure going_home).waiting i ≡ Some p) }
{}
