//! In how many blocks the bytes of a file and the names of a directory lie, by divisions.

ghost use Rattle.std.specs.Prelude.{◌≡◌, ◌≤◌, ◌-◌, ◌/◌, ℕ, min};
ghost use Rattle.lang_tree.specs.Figures as spec;

use base_types::Layout;
use base_types::limits::BLOCK_LENGTH;

/// Bytes of a block.
const BLOCK: u32 = BLOCK_LENGTH as u32;

/// The blocks of so many bytes.
pub fn blocks_for(size: u32) -> u32
    ensures { result ≡ spec.blocks_for size }
{
    size.div_ceil(BLOCK)
}

/// How many blocks of a file of this size touch the bytes from `lo` up to `hi`: those that begin before
/// `hi`, without those that end at `lo` or before.
pub(crate) fn blocks_met(size: u32, lo: u32, hi: u32) -> u32
    ensures value { result ≡ spec.blocks_met size lo hi }
    ensures bound { result ≤ spec.blocks_for size }
{
    blocks_for(size)
        .min(blocks_for(hi))
        .saturating_sub(lo / BLOCK)
}

/// By how many blocks a directory of so many names grows with one more: by one, where its blocks are full.
pub fn growth(held: u64, layout: Layout) -> u32
    ensures value { result ≡ spec.growth layout held }
    ensures bound { result ≤ 1 }
{
    u32::from(held % u64::from(layout.slots_in_block()) == 0)
}

/// How many blocks a directory of so many names frees with one less: one, where its last block holds one.
pub fn release(held: u64, layout: Layout) -> u32
    ensures value { result ≡ spec.release layout held }
    ensures bound { result ≤ 1 }
{
    u32::from(held % u64::from(layout.slots_in_block()) == 1)
}

/// The blocks of a file that bytes touch are those that begin before the end of the bytes, without those that
/// end where they begin or before.
pub fn touched_blocks_are_counted_by_division()
    ensures { (size lo hi : ℕ) → min (spec.blocks_for size) (spec.blocks_for hi) - lo / 1024 ≡ spec.blocks_met size lo hi }
{}
