//! The blocks that nodes have, met one by one: each must have its bit in the bitmap, and none may come
//! twice. What was met is a second bitmap. No block is read here.

ghost use Rattle.std.specs.Prelude.{◌≡◌, ◌<◌, ◌≤◌, ◌&&◌, not, ℕ, true, false, length, IfErr, IfNone, IfSome, OnOk};
ghost use Rattle.std.specs.List.{All};
ghost use Rattle.base_types.specs.Seal.{Blocks, blocks_of};
ghost use Rattle.layout_bitmap.specs.Bits.{BitBecomes};
ghost use Rattle.engine_blocks.specs.Puts.{IsData};
ghost use Rattle.fs_files.specs.Shared.{is_kept};
ghost use Rattle.fs_check.specs.Broken.{IsBroken};
ghost use Rattle.fs_check.specs.Meeting.{AreBits, HasMet, HasPlaces, IsUnmeetable, IsUnmet};
ghost use Rattle.layout_geometry.specs.Geometry.{bitmap_blocks, data_start};
ghost use Rattle.layout_bytes.specs.Bitmap.{bit_in};

use crate::BlockDamage;
use base_types::Block;
use fs_files::Shared;
use layout_bitmap::{is_set, set};
use layout_extent::Runs;
use layout_geometry::Geom;

/// Meets the blocks of a node in order, the first of which is at place 0.
///
/// # Errors
/// A block whose bit is clear, or that was met before.
pub(crate) fn meet_places(
    bits: &[Block],
    met: &mut [Block],
    geom: &Geom,
    node: u32,
    places: &Runs,
) -> Result<(), BlockDamage>
    requires bits { length bits.now ≡ bitmap_blocks geom.now }
    requires room { length met.old ≡ bitmap_blocks geom.now }
    requires data { All (IsData geom.now) places.now }
    ensures size { length met.new ≡ length met.old }
    ensures met { (m : Blocks) → AreBits geom.now m bits.now → HasPlaces geom.now m node places.now → HasMet geom.now m node 0 (blocks_of met.old)
        → OnOk result (HasMet geom.now m node (length places.now) (blocks_of met.new)) }
    ensures damage { (m : Blocks) → AreBits geom.now m bits.now → HasPlaces geom.now m node places.now → HasMet geom.now m node 0 (blocks_of met.old)
        → IfErr result (IsBroken geom.now m) }
{
    geom.lawful();
    for i in 0..places.count() {
        meet_block(bits, met, geom, node, places.place(i))?;
    }
    Ok(())
}

/// Meets one block of a node.
///
/// # Errors
/// Its bit is clear, or it was met before.
fn meet_block(
    bits: &[Block],
    met: &mut [Block],
    geom: &Geom,
    node: u32,
    block: u32,
) -> Result<(), BlockDamage>
    requires bits { length bits.now ≡ bitmap_blocks geom.now }
    requires room { length met.old ≡ bitmap_blocks geom.now }
    requires below { block < geom.now.n }
    ensures size { length met.new ≡ length met.old }
    ensures marked { OnOk result (bit_in (blocks_of bits.now) block ≡ true) }
    ensures unmet { OnOk result (bit_in (blocks_of met.old) block ≡ false) }
    ensures met { OnOk result (BitBecomes (blocks_of met.old) (blocks_of met.new) block true) }
    ensures damage { IfErr result (IsUnmeetable (blocks_of bits.now) (blocks_of met.old) node block) }
{
    geom.lawful();
    if !is_set(bits, block) {
        return Err(BlockDamage::Unmarked { node, block });
    }
    if is_set(met, block) {
        return Err(BlockDamage::Shared { node, block });
    }
    set(met, block);
    Ok(())
}

/// The first data block whose bit is set, that wasn't met, and that no snapshot keeps.
pub(crate) fn first_unmet(
    bits: &[Block],
    met: &[Block],
    shared: &Shared,
    geom: &Geom,
) -> Option<u32>
    requires bits { length bits.now ≡ bitmap_blocks geom.now }
    requires room { length met.now ≡ bitmap_blocks geom.now }
    ensures none { IfNone result ((b : ℕ) → data_start geom.now ≤ b → b < geom.now.n → bit_in (blocks_of bits.now) b ≡ true
        → is_kept shared.now b ≡ false → bit_in (blocks_of met.now) b ≡ true) }
    ensures some { IfSome result (λ b. IsUnmet geom.now (blocks_of bits.now) (blocks_of met.now) b × (is_kept shared.now b ≡ false)) }
{
    geom.lawful();
    for b in geom.data_start()..geom.n() {
        if is_unmet(bits, met, shared, geom, b) {
            return Some(b);
        }
    }
    None
}

/// Whether the bit of a block is set, it wasn't met, and no snapshot keeps it.
fn is_unmet(bits: &[Block], met: &[Block], shared: &Shared, geom: &Geom, b: u32) -> bool
    requires bits { length bits.now ≡ bitmap_blocks geom.now }
    requires room { length met.now ≡ bitmap_blocks geom.now }
    requires below { b < geom.now.n }
    ensures { result ≡ (bit_in (blocks_of bits.now) b && (not (bit_in (blocks_of met.now) b) && not (is_kept shared.now b))) }
{
    geom.lawful();
    if !is_set(bits, b) {
        return false;
    }
    if is_set(met, b) {
        return false;
    }
    !shared.keeps(b)
}
