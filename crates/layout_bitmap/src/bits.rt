//! Single bits of a borrowed bitmap. Which blocks they stand for is described by the geometry, which isn't known
//! here.

ghost use Rattle.std.specs.Prelude.{◌≡◌, ◌≢◌, ◌*◌, ◌/◌, ◌<◌, ℕ, true, false, length};
ghost use Rattle.base_types.specs.Seal.{blocks_of};
ghost use Rattle.layout_bytes.specs.Bitmap.{bit_in};
ghost use Rattle.layout_bitmap.specs.Bits.{BitBecomes};

use base_types::Block;
use layout_geometry::BITS_IN_BLOCK;

/// How many bits a byte has.
const BITS_IN_BYTE: u32 = 8;

/// Whether the bit of block `b` is set.
pub fn is_set(map: &[Block], b: u32) -> bool
    requires { b < 8192 * length map.now }
    ensures { result ≡ bit_in (blocks_of map.now) b }
{
    let block = &map[(b / BITS_IN_BLOCK) as usize];
    let byte = block[(b % BITS_IN_BLOCK / BITS_IN_BYTE) as usize];
    (byte >> (b % BITS_IN_BYTE)) & 1 == 1
}

/// Sets the bit of block `b`. Every other bit is as before, and so is every block of the bitmap but the
/// one that has the bit.
pub fn set(map: &mut [Block], b: u32)
    requires { b < 8192 * length map.old }
    ensures bits { BitBecomes (blocks_of map.old) (blocks_of map.new) b true }
    ensures others { (k : ℕ) → k ≢ b / 8192 → blocks_of map.new k ≡ blocks_of map.old k }
{
    let at = (b / BITS_IN_BLOCK) as usize;
    map[at][(b % BITS_IN_BLOCK / BITS_IN_BYTE) as usize] |= 1 << (b % BITS_IN_BYTE);
}

/// Clears the bit of block `b`. Every other bit is as before, and so is every block of the bitmap but
/// the one that has the bit.
pub fn clear(map: &mut [Block], b: u32)
    requires { b < 8192 * length map.old }
    ensures bits { BitBecomes (blocks_of map.old) (blocks_of map.new) b false }
    ensures others { (k : ℕ) → k ≢ b / 8192 → blocks_of map.new k ≡ blocks_of map.old k }
{
    let at = (b / BITS_IN_BLOCK) as usize;
    map[at][(b % BITS_IN_BLOCK / BITS_IN_BYTE) as usize] &= !(1 << (b % BITS_IN_BYTE));
}
