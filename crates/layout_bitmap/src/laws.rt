//! Laws of the free blocks: what they are, and how many there are after a bit is written. The functions
//! do nothing; their clauses are the laws.

ghost use Rattle.std.specs.Prelude.{◌≡◌, ◌+◌, ◌<◌, ℕ, true, false, length, All, AllPairs, Contains};
ghost use Rattle.base_types.specs.Seal.{Blocks};
ghost use Rattle.layout_geometry.specs.Geometry.{Geometry};
ghost use Rattle.layout_bytes.specs.Bitmap.{bit_in};
ghost use Rattle.layout_bitmap.specs.Bits.{IsFree, BitBecomes, free_blocks};

/// The free blocks are the data blocks whose bit is clear, ascending.
pub fn free_blocks_are_free()
    ensures each { (g : Geometry) (m : Blocks) → All (IsFree g m) (free_blocks g m) }
    ensures all { (g : Geometry) (m : Blocks) (b : ℕ) → IsFree g m b → Contains (free_blocks g m) b }
    ensures ascending { (g : Geometry) (m : Blocks) → AllPairs (λ a b. a < b) (free_blocks g m) }
{}

/// Once the bit of a free block is set, there is one free block less.
pub fn a_set_block_is_free_no_more()
    ensures { (g : Geometry) (old new : Blocks) (b : ℕ) → IsFree g old b → BitBecomes old new b true
        → length (free_blocks g new) + 1 ≡ length (free_blocks g old) }
{}

/// Once the bit of a data block that was set is cleared, there is one free block more.
pub fn a_cleared_block_is_free_again()
    ensures { (g : Geometry) (old new : Blocks) (b : ℕ) → bit_in old b ≡ true → IsFree g new b → BitBecomes old new b false
        → length (free_blocks g new) ≡ length (free_blocks g old) + 1 }
{}
