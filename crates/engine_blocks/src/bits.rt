//! The bitmap among the blocks of a map in memory: one bit is written, the whole is copied, and the lowest
//! clear bits are found. What a bit stands for is described by the map itself.

ghost use Rattle.std.specs.Prelude.{◌≡◌, ◌+◌, ◌<◌, ◌≤◌, ◌==◌, ℕ, length, take, [], ◌∷◌, if◌then◌else◌, IfOk};
ghost use Rattle.base_types.specs.Seal.{blocks_of};
ghost use Rattle.layout_geometry.specs.Geometry.{bitmap_start, bitmap_blocks};
ghost use Rattle.layout_bytes.specs.Bitmap.{bit_in};
ghost use Rattle.layout_bitmap.specs.Bits.{free_blocks};
ghost use Rattle.engine_blocks.specs.Running.{bit_block};
ghost use Rattle.engine_blocks.specs.Plain.{IsWithBits};

use crate::history::History;
use base_types::{Block, NoMemory, Places};
use layout_bitmap::{clear, lowest, set};
use layout_geometry::{BITS_IN_BLOCK, Geom};
use std::alloc::Global;

/// The block of the bitmap that has the bit of block `b`.
pub(crate) fn bit_block(geom: &Geom, b: u32) -> u32
    requires { b < geom.now.n }
    ensures value { result ≡ bit_block geom.now b }
    ensures below { result < bitmap_start geom.now + bitmap_blocks geom.now }
    ensures within { result < geom.now.n }
{
    geom.lawful();
    geom.bitmap_start() + b / BITS_IN_BLOCK
}

/// Writes the bit of block `b` into the bitmap among the blocks.
pub(crate) fn write_bit(history: &mut History, geom: &Geom, b: u32, bit: bool)
    requires room { 0 < history.old.room }
    requires size { length history.old.now ≡ geom.now.n }
    requires below { b < geom.now.n }
    ensures bits { IsWithBits geom.now (blocks_of history.old.now) (blocks_of history.new.now) (b ∷ []) bit }
    ensures size { length history.new.now ≡ length history.old.now }
    ensures whole { (c : ℕ) → c < geom.now.n → length (blocks_of history.old.now c) ≡ 1024 → length (blocks_of history.new.now c) ≡ 1024 }
    ensures points { history.new.points ≡ history.old.points }
    ensures room { history.old.room ≤ history.new.room + 1 }
{
    geom.lawful();
    let at = bit_block(geom, b);
    let block = with_bit(history.block(at), b % BITS_IN_BLOCK, bit);
    history.set(at, &block);
}

/// The block with one bit written.
fn with_bit(block: &Block, i: u32, bit: bool) -> Block
    requires { i < 8192 }
    ensures { (k : ℕ) → bit_in (blocks_of (result ∷ [])) k ≡ (if k == i then bit else bit_in (blocks_of (block.now ∷ [])) k) }
{
    let mut map = [*block];
    if bit {
        set(map.as_mut_slice(), i);
    } else {
        clear(map.as_mut_slice(), i);
    }
    map[0]
}

/// The `n` lowest free blocks, of which there must be so many.
///
/// # Errors
/// Out of memory.
pub(crate) fn lowest_places(
    alloc: Global,
    geom: &Geom,
    busy: &[Block],
    n: u32,
) -> Result<Places, NoMemory>
    requires size { length busy.now ≡ bitmap_blocks geom.now }
    requires enough { n ≤ length (free_blocks geom.now (blocks_of busy.now)) }
    ensures { IfOk result (λ places. places ≡ take n (free_blocks geom.now (blocks_of busy.now))) }
{
    let mut found = vec![in alloc; 0u32; n as usize]?;
    lowest(busy, geom, found.as_mut_slice());
    Ok(Places::from_vec(found))
}

/// Copies the bitmap among the blocks.
pub(crate) fn read_bits(history: &History, geom: &Geom, into: &mut [Block])
    requires size { length history.now.now ≡ geom.now.n }
    requires room { length into.old ≡ bitmap_blocks geom.now }
    ensures size { length into.new ≡ length into.old }
    ensures bits { (k : ℕ) → k < bitmap_blocks geom.now → blocks_of into.new k ≡ blocks_of history.now.now (bitmap_start geom.now + k) }
{
    geom.lawful();
    let start = geom.bitmap_start();
    for k in 0..into.len() {
        into[k] = *history.block(start + k as u32);
    }
}
