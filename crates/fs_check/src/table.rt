//! The node table, block by block: each of its blocks is read once, and its nodes are checked in order.

ghost use Rattle.std.specs.Prelude.{◌≡◌, ◌+◌, ◌<◌, false, IsTrue, OnOk, is_err, length};
ghost use Rattle.base_types.specs.Layouts.{nodes_before, table_blocks};
ghost use Rattle.fs_check.specs.Broken.{IsBroken};
ghost use Rattle.fs_check.specs.Calls.{IfDamaged, fails_reading};
ghost use Rattle.fs_files.specs.Effects.{LooksOnly};
ghost use Rattle.fs_check.specs.Meeting.{IsCheckedTo, MayCheck};
ghost use Rattle.layout_geometry.specs.Geometry.{table_start};

use crate::block_damage::BlocksRefusal;
use crate::node::check_node;
use base_types::limits::BLOCK_LENGTH;
use base_types::{Block, ReadFault};
use engine_blocks::Blocks;
use layout_geometry::Geom;

/// Checks all nodes of the table, where none was checked before. Where one of them is a snapshot `found` is set.
///
/// # Errors
/// As of one node.
pub(crate) fn check_table<S: Blocks>(
    blocks: &mut S,
    geom: &Geom,
    bits: &[Block],
    met: &mut [Block],
    found: &mut bool,
) -> Result<(), BlocksRefusal>
    requires may { MayCheck geom.now (S.state blocks.old) bits.now met.old }
    ensures size { length met.new ≡ length met.old }
    ensures sound { IsTrue S.tells → IsCheckedTo geom.now (S.state blocks.old).map bits.now met.old found.old 1
        → OnOk result (IsCheckedTo geom.now (S.state blocks.old).map bits.now met.new found.new (geom.now.i + 1)) }
    ensures damage { IsTrue S.tells → IsCheckedTo geom.now (S.state blocks.old).map bits.now met.old found.old 1
        → IfDamaged result (IsBroken geom.now (S.state blocks.old).map) }
    ensures looks { LooksOnly S.tells (fails_reading result) (S.state blocks.old) (S.state blocks.new) }
{
    geom.lawful();
    for t in 0..geom.layout().table_blocks(geom.i()) {
        check_block(blocks, geom, bits, met, t, found)?;
    }
    Ok(())
}

/// Reads block `t` of the table, the first of which is 0, and checks its nodes.
///
/// # Errors
/// As of one node.
fn check_block<S: Blocks>(
    blocks: &mut S,
    geom: &Geom,
    bits: &[Block],
    met: &mut [Block],
    t: u32,
    found: &mut bool,
) -> Result<(), BlocksRefusal>
    requires may { MayCheck geom.now (S.state blocks.old) bits.now met.old }
    requires in_table { t < table_blocks geom.now.layout geom.now.i }
    ensures size { length met.new ≡ length met.old }
    ensures sound { IsTrue S.tells → IsCheckedTo geom.now (S.state blocks.old).map bits.now met.old found.old (nodes_before geom.now.layout t + 1)
        → OnOk result (IsCheckedTo geom.now (S.state blocks.old).map bits.now met.new found.new (nodes_before geom.now.layout (t + 1) + 1)) }
    ensures damage { IsTrue S.tells → IsCheckedTo geom.now (S.state blocks.old).map bits.now met.old found.old (nodes_before geom.now.layout t + 1)
        → IfDamaged result (IsBroken geom.now (S.state blocks.old).map) }
    ensures looks { LooksOnly S.tells (fails_reading result) (S.state blocks.old) (S.state blocks.new) }
{
    geom.lawful();
    let mut table = [0u8; BLOCK_LENGTH];
    blocks.get(geom.table_start() + t, &mut table)?;
    check_nodes(blocks, geom, bits, met, t, &table, found)?;
    Ok(())
}

/// Checks the nodes of block `t` of the table, whose bytes these are.
///
/// # Errors
/// As of one node.
fn check_nodes<S: Blocks>(
    blocks: &mut S,
    geom: &Geom,
    bits: &[Block],
    met: &mut [Block],
    t: u32,
    table: &Block,
    found: &mut bool,
) -> Result<(), BlocksRefusal>
    requires may { MayCheck geom.now (S.state blocks.old) bits.now met.old }
    requires in_table { t < table_blocks geom.now.layout geom.now.i }
    ensures size { length met.new ≡ length met.old }
    ensures sound { IsTrue S.tells → table.now ≡ (S.state blocks.old).map (table_start geom.now + t)
        → IsCheckedTo geom.now (S.state blocks.old).map bits.now met.old found.old (nodes_before geom.now.layout t + 1)
        → OnOk result (IsCheckedTo geom.now (S.state blocks.old).map bits.now met.new found.new (nodes_before geom.now.layout (t + 1) + 1)) }
    ensures damage { IsTrue S.tells → table.now ≡ (S.state blocks.old).map (table_start geom.now + t)
        → IsCheckedTo geom.now (S.state blocks.old).map bits.now met.old found.old (nodes_before geom.now.layout t + 1)
        → IfDamaged result (IsBroken geom.now (S.state blocks.old).map) }
    ensures looks { LooksOnly S.tells (fails_reading result) (S.state blocks.old) (S.state blocks.new) }
{
    geom.lawful();
    let layout = geom.layout();
    for place in 0..layout.nodes_in_block() {
        let at = layout.rank_byte(place);
        let end = at + layout.node_length();
        let number = layout.nodes_before(t) + place + 1;
        check_node(blocks, geom, bits, met, number, &table[at..end], found)?;
    }
    Ok(())
}

/// Reads block `t` of the table, the first of which is 0.
///
/// # Errors
/// A read of the disk failed, which the disk has counted.
pub(crate) fn read_table_block<S: Blocks>(
    blocks: &mut S,
    geom: &Geom,
    t: u32,
    into: &mut Block,
) -> Result<(), ReadFault>
    requires going { (S.state blocks.old).books.stopped ≡ false }
    requires geom { (S.state blocks.old).books.geom ≡ geom.now }
    requires in_table { t < table_blocks geom.now.layout geom.now.i }
    ensures bytes { IsTrue S.tells → OnOk result (into.new ≡ (S.state blocks.old).map (table_start geom.now + t)) }
    ensures looks { LooksOnly S.tells (is_err result) (S.state blocks.old) (S.state blocks.new) }
{
    geom.lawful();
    blocks.get(geom.table_start() + t, into)?;
    Ok(())
}
