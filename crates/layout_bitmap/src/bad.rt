//! The check of the bits that no data block has: those of the blocks before the data are set, and those
//! past the last block are clear. The bits of data blocks aren't judged here.

ghost use Rattle.std.specs.Prelude.{◌≡◌, ◌<◌, ℕ, true, false, length, OnOk, IfErr};
ghost use Rattle.base_types.specs.Seal.{blocks_of};
ghost use Rattle.layout_geometry.specs.Geometry.{bitmap_blocks};
ghost use Rattle.layout_bitmap.specs.Bits.{is_bad_bit};

use crate::scan::{next_clear, next_set};
use base_types::Block;
use layout_geometry::{BITS_IN_BLOCK, Geom};
use std::error::Error;
use std::fmt;

/// The bit of a block is wrong: it's clear before the data, or set past the last block.
#[derive(Clone, Copy, Debug)]
pub struct BadBit {
    /// The number that the bit stands for: a block before the data, or a number past the last block.
    pub block: u32,
}

impl fmt::Display for BadBit {
    fn fmt<W: fmt::Write>(&self, f: &mut fmt::Formatter<W>) -> fmt::Result {
        write!(f, "the bitmap has a wrong bit for block {}", self.block)
    }
}

impl Error for BadBit {}

/// Checks that the bits of all blocks before the data are set, and that no bit past the last block is.
///
/// # Errors
/// A bit is wrong: the least block whose bit is.
pub fn check(map: &[Block], geom: &Geom) -> Result<(), BadBit>
    requires { length map.now ≡ bitmap_blocks geom.now }
    ensures ok { OnOk result ((b : ℕ) → is_bad_bit geom.now (blocks_of map.now) b ≡ false) }
    ensures bad { IfErr result (λ e. is_bad_bit geom.now (blocks_of map.now) e.block ≡ true) }
    ensures least { IfErr result (λ e. (b : ℕ) → b < e.block → is_bad_bit geom.now (blocks_of map.now) b ≡ false) }
{
    geom.lawful();
    let data = geom.data_start();
    let clear = next_clear(map, 0, data);
    if clear < data {
        return Err(BadBit { block: clear });
    }
    let end = BITS_IN_BLOCK * geom.bitmap_blocks();
    let past = next_set(map, geom.n(), end);
    if past < end {
        return Err(BadBit { block: past });
    }
    Ok(())
}
