//! The blocks of an image by their numbers and by their ring places.

ghost use Rattle.std.specs.Prelude.{◌≡◌, ◌<◌, length};
ghost use Rattle.base_types.specs.Seal.{blocks_of};
ghost use Rattle.layout_geometry.specs.Geometry.{ring_block};

use base_types::Block;
use layout_geometry::Geom;

/// How many header slots are before the ring.
const HEADERS: usize = 2;

/// The block with this number.
pub(crate) fn block_at(image: &[Block], number: u32) -> &Block
    requires { number < length image.now }
    ensures { result.now ≡ blocks_of image.now number }
{
    &image[number as usize]
}

/// The block of a ring place.
pub(crate) fn ring_block(image: &[Block], geom: Geom, place: usize) -> &Block
    requires { length image.now ≡ geom.n }
    ensures { result.now ≡ blocks_of image.now (ring_block geom place) }
{
    geom.lawful();
    &image[HEADERS + place % geom.j() as usize]
}
