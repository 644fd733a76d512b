//! The lowest free data blocks. Which of them is taken is for the caller to say.

ghost use Rattle.std.specs.Prelude.{◌≡◌, ℕ, min, length, take, drop};
ghost use Rattle.base_types.specs.Seal.{blocks_of};
ghost use Rattle.layout_geometry.specs.Geometry.{bitmap_blocks};
ghost use Rattle.layout_bitmap.specs.Bits.{free_blocks};

use crate::scan::next_clear;
use base_types::Block;
use layout_geometry::Geom;

/// Writes the lowest free data blocks into the front of `into`, ascending, as many as there are and
/// have room, and answers how many those are. The search ends with the last one that is written.
pub fn lowest(map: &[Block], geom: &Geom, into: &mut [u32]) -> usize
    requires { length map.now ≡ bitmap_blocks geom.now }
    ensures count { result ≡ min (length into.old) (length (free_blocks geom.now (blocks_of map.now))) }
    ensures found { take result into.new ≡ take (length into.old) (free_blocks geom.now (blocks_of map.now)) }
    ensures rest { drop result into.new ≡ drop result into.old }
{
    geom.lawful();
    let end = geom.n();
    let mut from = geom.data_start();
    let mut count = 0;
    while count < into.len() {
        let block = next_clear(map, from, end);
        if block >= end {
            return count;
        }
        into[count] = block;
        count += 1;
        from = block + 1;
    }
    count
}
