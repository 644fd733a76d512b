//! The blocks of the files that one snapshot keeps, met one by one: each must have its bit in the bitmap, be no
//! directory's and no snapshot's own, and come once in this snapshot. Each that is met has one keeper more. No
//! block is read here.

ghost use Rattle.std.specs.Prelude.{◌≡◌, ◌+◌, ◌<◌, ℕ, List, true, false, length, IfErr, OnOk, Some};
ghost use Rattle.std.specs.List.{All};
ghost use Rattle.base_types.specs.Runs.{run_places};
ghost use Rattle.base_types.specs.Seal.{Blocks, blocks_of};
ghost use Rattle.layout_bitmap.specs.Bits.{BitBecomes};
ghost use Rattle.layout_bytes.specs.Bitmap.{bit_in};
ghost use Rattle.layout_bytes.specs.declared.node.Node.{Node};
ghost use Rattle.layout_bytes.specs.declared.node.NodeKind.TheVariants.{File};
ghost use Rattle.layout_geometry.specs.Geometry.{bitmap_blocks};
ghost use Rattle.crash_stands.specs.Kept.{kept_nodes};
ghost use Rattle.engine_blocks.specs.Puts.{IsData};
ghost use Rattle.fs_files.specs.Shared.{SetsKeepers, keepers};
ghost use Rattle.fs_check.specs.BrokenSnapshots.{IsBroken, IsSnapshot, places_of};
ghost use Rattle.fs_check.specs.KeptMeeting.{AreTrueMaps, CountsMet, HasMetKept, HasRoomToCount, IsUnkeepable};

use crate::SnapshotDamage;
use base_types::Block;
use fs_files::Shared;
use layout_bitmap::{is_set, set};
use layout_extent::Runs;
use layout_geometry::Geom;

/// The bitmap of the disk, and that of the blocks that directories and snapshots have as their own.
#[derive(Drop)]
pub(crate) struct Maps {
    pub(crate) marked: Vec<Block>,
    pub(crate) firm: Vec<Block>,
}

/// What was gone through of one snapshot: the bitmap of the blocks of its files, and how many blocks its
/// directories had. The counts say how many snapshots keep each block, this one so far among them.
#[derive(Drop)]
pub(crate) struct Tally {
    pub(crate) met: Vec<Block>,
    pub(crate) dirs: u32,
    pub(crate) counts: Shared,
}

/// Meets the blocks of a file that a snapshot keeps, in order, the first of which is at place 0.
///
/// # Errors
/// A block whose bit is clear, that a directory or a snapshot has, or that was met before.
pub(crate) fn keep_places(
    maps: &Maps,
    tally: &mut Tally,
    geom: &Geom,
    snapshot: u32,
    places: &Runs,
) -> Result<(), SnapshotDamage>
    requires marked { length maps.now.marked.items ≡ bitmap_blocks geom.now }
    requires firm { length maps.now.firm.items ≡ bitmap_blocks geom.now }
    requires met { length tally.old.met.items ≡ bitmap_blocks geom.now }
    requires room { HasRoomToCount geom.now (blocks_of tally.old.met.items) tally.old.counts }
    requires data { All (IsData geom.now) places.now }
    ensures size { length tally.new.met.items ≡ length tally.old.met.items }
    ensures room { HasRoomToCount geom.now (blocks_of tally.new.met.items) tally.new.counts }
    ensures dirs { tally.new.dirs ≡ tally.old.dirs }
    ensures counts { (before : List ℕ) → CountsMet (blocks_of tally.old.met.items) before tally.old.counts
        → CountsMet (blocks_of tally.new.met.items) before tally.new.counts }
    ensures met { (m : Blocks) (own : List ℕ) (number : ℕ) (node : Node) → AreTrueMaps geom.now m maps.now.marked.items maps.now.firm.items
        → kept_nodes geom.now m own number ≡ Some node → node.kind ≡ File → run_places node.runs ≡ places.now
        → HasMetKept geom.now m own number 0 (blocks_of tally.old.met.items)
        → OnOk result (HasMetKept geom.now m own number (length places.now) (blocks_of tally.new.met.items)) }
    ensures damage { (m : Blocks) (is : IsSnapshot geom.now m snapshot) (number : ℕ) (node : Node)
        → AreTrueMaps geom.now m maps.now.marked.items maps.now.firm.items
        → kept_nodes geom.now m (places_of is.node) number ≡ Some node → node.kind ≡ File → run_places node.runs ≡ places.now
        → HasMetKept geom.now m (places_of is.node) number 0 (blocks_of tally.old.met.items)
        → IfErr result (IsBroken geom.now m) }
{
    geom.lawful();
    for i in 0..places.count() {
        keep_block(maps, tally, geom, snapshot, places.place(i))?;
    }
    Ok(())
}

/// Meets one block of a file that a snapshot keeps.
///
/// # Errors
/// Its bit is clear, a directory or a snapshot has it, or it was met before.
fn keep_block(
    maps: &Maps,
    tally: &mut Tally,
    geom: &Geom,
    snapshot: u32,
    block: u32,
) -> Result<(), SnapshotDamage>
    requires marked { length maps.now.marked.items ≡ bitmap_blocks geom.now }
    requires firm { length maps.now.firm.items ≡ bitmap_blocks geom.now }
    requires met { length tally.old.met.items ≡ bitmap_blocks geom.now }
    requires room { HasRoomToCount geom.now (blocks_of tally.old.met.items) tally.old.counts }
    requires below { block < geom.now.n }
    ensures size { length tally.new.met.items ≡ length tally.old.met.items }
    ensures dirs { tally.new.dirs ≡ tally.old.dirs }
    ensures marked { OnOk result (bit_in (blocks_of maps.now.marked.items) block ≡ true) }
    ensures apart { OnOk result (bit_in (blocks_of maps.now.firm.items) block ≡ false) }
    ensures unmet { OnOk result (bit_in (blocks_of tally.old.met.items) block ≡ false) }
    ensures met { OnOk result (BitBecomes (blocks_of tally.old.met.items) (blocks_of tally.new.met.items) block true) }
    ensures counted { OnOk result (SetsKeepers block (keepers tally.old.counts block + 1) tally.old.counts tally.new.counts) }
    ensures same { IfErr result (λ _. tally.new ≡ tally.old) }
    ensures damage { IfErr result (IsUnkeepable (blocks_of maps.now.marked.items) (blocks_of maps.now.firm.items)
        (blocks_of tally.old.met.items) snapshot block) }
{
    geom.lawful();
    if !is_set(&maps.marked, block) {
        return Err(SnapshotDamage::KeptUnmarked { snapshot, block });
    }
    if is_set(&maps.firm, block) {
        return Err(SnapshotDamage::KeptElsewhere { snapshot, block });
    }
    if is_set(&tally.met, block) {
        return Err(SnapshotDamage::KeptShared { snapshot, block });
    }
    set(&mut tally.met, block);
    tally.counts.add(block);
    Ok(())
}
