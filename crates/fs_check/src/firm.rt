//! The blocks that directories and snapshots have as their own, as a bitmap: those that no snapshot may keep as a
//! file's. The node table is gone through once, where there is a snapshot at all.

ghost use Rattle.std.specs.Prelude.{◌≡◌, ◌+◌, ◌<◌, ◌≤◌, ℕ, false, IsTrue, OnOk, is_err, length};
ghost use Rattle.base_types.specs.Seal.{Blocks, blocks_of};
ghost use Rattle.engine_blocks.specs.Running.{HasNoBare};
ghost use Rattle.layout_bytes.specs.Bitmap.{bit_in};
ghost use Rattle.layout_bytes.specs.Node.{node_bytes};
ghost use Rattle.base_types.specs.Layouts.{node_size, nodes_before, table_blocks};
ghost use Rattle.layout_geometry.specs.Geometry.{bitmap_blocks, table_start};
ghost use Rattle.fs_files.specs.Effects.{LooksOnly};
ghost use Rattle.std.specs.List.{All};
ghost use Rattle.engine_blocks.specs.Puts.{IsData};
ghost use Rattle.fs_check.specs.Firm.{AreFirmBelow, SetsBits};
ghost use Rattle.fs_check.specs.Snapshots.{AreFirm};

use crate::table::read_table_block;
use base_types::limits::BLOCK_LENGTH;
use base_types::{Block, ReadFault};
use engine_blocks::Blocks;
use fs_files::{NodeBlocks, node_in};
use layout_bitmap::set;
use layout_geometry::Geom;
use layout_node::NodeKind;

/// Sets the bits of the blocks that directories and snapshots have, where none is set.
///
/// # Errors
/// A read of the disk failed, which the disk has counted.
pub(crate) fn set_firm<S: Blocks>(
    blocks: &mut S,
    geom: &Geom,
    firm: &mut [Block],
) -> Result<(), ReadFault>
    requires going { (S.state blocks.old).books.stopped ≡ false }
    requires none_bare { HasNoBare (S.state blocks.old).books.running }
    requires geom { (S.state blocks.old).books.geom ≡ geom.now }
    requires room { length firm.old ≡ bitmap_blocks geom.now }
    requires clear { (b : ℕ) → bit_in (blocks_of firm.old) b ≡ false }
    ensures size { length firm.new ≡ length firm.old }
    ensures firm { IsTrue S.tells → OnOk result (AreFirm geom.now (S.state blocks.old).map firm.new) }
    ensures looks { LooksOnly S.tells (is_err result) (S.state blocks.old) (S.state blocks.new) }
{
    geom.lawful();
    for t in 0..geom.layout().table_blocks(geom.i()) {
        let mut table = [0u8; BLOCK_LENGTH];
        read_table_block(blocks, geom, t, &mut table)?;
        set_nodes(geom, firm, t, &table);
    }
    Ok(())
}

/// Sets the bits of the nodes in block `t` of the table, whose bytes these are.
fn set_nodes(geom: &Geom, firm: &mut [Block], t: u32, table: &Block)
    requires in_table { t < table_blocks geom.now.layout geom.now.i }
    requires room { length firm.old ≡ bitmap_blocks geom.now }
    ensures size { length firm.new ≡ length firm.old }
    ensures firm { (m : Blocks) → table.now ≡ m (table_start geom.now + t) → AreFirmBelow geom.now m (nodes_before geom.now.layout t + 1) (blocks_of firm.old)
        → AreFirmBelow geom.now m (nodes_before geom.now.layout (t + 1) + 1) (blocks_of firm.new) }
{
    geom.lawful();
    let layout = geom.layout();
    for place in 0..layout.nodes_in_block() {
        let at = layout.rank_byte(place);
        let end = at + layout.node_length();
        let number = layout.nodes_before(t) + place + 1;
        set_node(geom, firm, number, &table[at..end]);
    }
}

/// Sets the bits of the blocks of the node in these bytes, where it is a directory's or a snapshot's.
fn set_node(geom: &Geom, firm: &mut [Block], number: u32, bytes: &[u8])
    requires above_zero { 1 ≤ number }
    requires in_table { number ≤ geom.now.i }
    requires bytes { length bytes.now ≡ node_size geom.now.layout }
    requires room { length firm.old ≡ bitmap_blocks geom.now }
    ensures size { length firm.new ≡ length firm.old }
    ensures firm { (m : Blocks) → bytes.now ≡ node_bytes geom.now m number → AreFirmBelow geom.now m number (blocks_of firm.old)
        → AreFirmBelow geom.now m (number + 1) (blocks_of firm.new) }
{
    let Some(file) = node_in(bytes, geom) else {
        return;
    };
    match file.facts.kind {
        NodeKind::Free => (),
        NodeKind::File => (),
        NodeKind::Dir => set_places(geom, firm, &file.blocks),
        NodeKind::Snapshot => set_places(geom, firm, &file.blocks),
    }
}

/// Sets the bits of these blocks.
fn set_places(geom: &Geom, firm: &mut [Block], places: &NodeBlocks)
    requires room { length firm.old ≡ bitmap_blocks geom.now }
    requires data { All (IsData geom.now) places.now }
    ensures size { length firm.new ≡ length firm.old }
    ensures bits { SetsBits places.now (blocks_of firm.old) (blocks_of firm.new) }
{
    geom.lawful();
    for i in 0..places.count() {
        set(firm, places.place(i));
    }
}
