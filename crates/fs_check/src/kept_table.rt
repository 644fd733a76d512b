//! The node table that a snapshot keeps, node by node: its bytes, the blocks of a file, and what a directory's last
//! block carries past the last slot. Names, slots and links aren't looked at.

ghost use Rattle.std.specs.Prelude.{◌≡◌, ◌+◌, ◌/◌, ◌<◌, ◌≤◌, ℕ, List, true, false, IsTrue, IfErr, IfOk, OnOk, Some, is_err, length, take, drop, min};
ghost use Rattle.std.specs.List.{All};
ghost use Rattle.base_types.specs.Seal.{blocks_of};
ghost use Rattle.layout_extent.specs.Runs.{AreTidy, LieBelow, most_blocks};
ghost use Rattle.base_types.specs.Layouts.{node_size, nodes_before, table_blocks as blocks_of_table};
ghost use Rattle.layout_geometry.specs.Geometry.{table_start};
ghost use Rattle.layout_bytes.specs.Bytes.{are_zeros};
ghost use Rattle.layout_bytes.specs.Node.{node_bytes, node_fits};
ghost use Rattle.crash_stands.specs.Files.{joined};
ghost use Rattle.crash_stands.specs.Places.{kept_table, table_blocks};
ghost use Rattle.crash_stands.specs.Kept.{kept_nodes};
ghost use Rattle.engine_blocks.specs.Puts.{IsData};
ghost use Rattle.fs_files.specs.Effects.{LooksOnly};
ghost use Rattle.fs_check.specs.KeptGoing.{IsKeptTo, MayGo};
ghost use Rattle.fs_check.specs.KeptMeeting.{CountsMet};
ghost use Rattle.fs_check.specs.Whole.{IsDamaged, OnDamage, fails_reading};
ghost use Rattle.fs_check.specs.declared.checking.Damage.TheVariants.{Snapshot};
ghost use Rattle.fs_check.specs.declared.checking.CheckRefusal.TheVariants.{Damaged};
ghost use Rattle.fs_check.specs.declared.snapshot_damage.SnapshotDamage.TheVariants.{KeptNode, KeptTail};

use crate::checking::CheckRefusal;
use crate::kept_meeting::{Maps, Tally, keep_places};
use crate::node::node_in;
use crate::{Damage, SnapshotDamage};
use base_types::limits::BLOCK_LENGTH;
use base_types::{Block, ReadFault};
use engine_blocks::Blocks;
use fs_files::{NodeBlocks, read_block_at};
use layout_bytes::are_zeros;
use layout_extent::Runs;
use layout_geometry::Geom;
use layout_node::{Node, NodeKind};

/// A snapshot: the number of its node, and its blocks.
#[derive(Drop)]
pub(crate) struct SnapshotIn {
    pub(crate) number: u32,
    pub(crate) places: NodeBlocks,
}

/// Checks all nodes that a snapshot keeps, where none was checked before.
///
/// # Errors
/// As of one node.
pub(crate) fn check_kept_table<S: Blocks>(
    blocks: &mut S,
    geom: &Geom,
    maps: &Maps,
    snapshot: &SnapshotIn,
    tally: &mut Tally,
) -> Result<(), CheckRefusal>
    requires may { MayGo geom.now (S.state blocks.old) maps.now tally.old snapshot.now.places }
    ensures may { OnOk result (MayGo geom.now (S.state blocks.new) maps.now tally.new snapshot.now.places) }
    ensures counts { (before : List ℕ) → CountsMet (blocks_of tally.old.met.items) before tally.old.counts
        → CountsMet (blocks_of tally.new.met.items) before tally.new.counts }
    ensures sound { IsTrue S.tells → IsKeptTo geom.now (S.state blocks.old).map maps.now tally.old snapshot.now 1
        → OnOk result (IsKeptTo geom.now (S.state blocks.old).map maps.now tally.new snapshot.now (geom.now.i + 1)) }
    ensures damage { IsTrue S.tells → IsKeptTo geom.now (S.state blocks.old).map maps.now tally.old snapshot.now 1
        → IfErr result (λ why. OnDamage why (IsDamaged geom.now (S.state blocks.old).map)) }
    ensures looks { LooksOnly S.tells (fails_reading result) (S.state blocks.old) (S.state blocks.new) }
{
    geom.lawful();
    for t in 0..geom.layout().table_blocks(geom.i()) {
        let mut table = [0u8; BLOCK_LENGTH];
        read_block_at(blocks, &snapshot.places, 1 + t, &mut table)?;
        check_kept_nodes(blocks, geom, maps, snapshot, t, &table, tally)?;
    }
    Ok(())
}

/// Checks the nodes in block `t` of the table that a snapshot keeps, whose bytes these are.
///
/// # Errors
/// As of one node.
fn check_kept_nodes<S: Blocks>(
    blocks: &mut S,
    geom: &Geom,
    maps: &Maps,
    snapshot: &SnapshotIn,
    t: u32,
    table: &Block,
    tally: &mut Tally,
) -> Result<(), CheckRefusal>
    requires may { MayGo geom.now (S.state blocks.old) maps.now tally.old snapshot.now.places }
    requires in_table { t < blocks_of_table geom.now.layout geom.now.i }
    ensures may { OnOk result (MayGo geom.now (S.state blocks.new) maps.now tally.new snapshot.now.places) }
    ensures counts { (before : List ℕ) → CountsMet (blocks_of tally.old.met.items) before tally.old.counts
        → CountsMet (blocks_of tally.new.met.items) before tally.new.counts }
    ensures sound { IsTrue S.tells → table.now ≡ kept_table (S.state blocks.old).map snapshot.now.places geom.now (table_start geom.now + t)
        → IsKeptTo geom.now (S.state blocks.old).map maps.now tally.old snapshot.now (nodes_before geom.now.layout t + 1)
        → OnOk result (IsKeptTo geom.now (S.state blocks.old).map maps.now tally.new snapshot.now (nodes_before geom.now.layout (t + 1) + 1)) }
    ensures damage { IsTrue S.tells → table.now ≡ kept_table (S.state blocks.old).map snapshot.now.places geom.now (table_start geom.now + t)
        → IsKeptTo geom.now (S.state blocks.old).map maps.now tally.old snapshot.now (nodes_before geom.now.layout t + 1)
        → IfErr result (λ why. OnDamage why (IsDamaged geom.now (S.state blocks.old).map)) }
    ensures looks { LooksOnly S.tells (fails_reading result) (S.state blocks.old) (S.state blocks.new) }
{
    geom.lawful();
    let layout = geom.layout();
    for place in 0..layout.nodes_in_block() {
        let at = layout.rank_byte(place);
        let end = at + layout.node_length();
        let number = layout.nodes_before(t) + place + 1;
        let bytes = &table[at..end];
        check_kept_node(blocks, geom, maps, snapshot, number, bytes, tally)?;
    }
    Ok(())
}

/// Checks a node that a snapshot keeps, whose bytes these are.
///
/// # Errors
/// Its bytes are no node's or a snapshot's, one of a file's blocks can't be met, or a directory has a tail; or a
/// read of the disk failed, which the disk has counted.
fn check_kept_node<S: Blocks>(
    blocks: &mut S,
    geom: &Geom,
    maps: &Maps,
    snapshot: &SnapshotIn,
    number: u32,
    bytes: &[u8],
    tally: &mut Tally,
) -> Result<(), CheckRefusal>
    requires may { MayGo geom.now (S.state blocks.old) maps.now tally.old snapshot.now.places }
    requires above_zero { 1 ≤ number }
    requires in_table { number ≤ geom.now.i }
    requires bytes { length bytes.now ≡ node_size geom.now.layout }
    ensures may { OnOk result (MayGo geom.now (S.state blocks.new) maps.now tally.new snapshot.now.places) }
    ensures counts { (before : List ℕ) → CountsMet (blocks_of tally.old.met.items) before tally.old.counts
        → CountsMet (blocks_of tally.new.met.items) before tally.new.counts }
    ensures sound { IsTrue S.tells → bytes.now ≡ node_bytes geom.now (kept_table (S.state blocks.old).map snapshot.now.places geom.now) number
        → IsKeptTo geom.now (S.state blocks.old).map maps.now tally.old snapshot.now number
        → OnOk result (IsKeptTo geom.now (S.state blocks.old).map maps.now tally.new snapshot.now (number + 1)) }
    ensures damage { IsTrue S.tells → bytes.now ≡ node_bytes geom.now (kept_table (S.state blocks.old).map snapshot.now.places geom.now) number
        → IsKeptTo geom.now (S.state blocks.old).map maps.now tally.old snapshot.now number
        → IfErr result (λ why. OnDamage why (IsDamaged geom.now (S.state blocks.old).map)) }
    ensures looks { LooksOnly S.tells (fails_reading result) (S.state blocks.old) (S.state blocks.new) }
{
    match node_in(bytes, geom) {
        Err(_) => Err(bad_node(snapshot, number)),
        Ok(None) => Ok(()),
        Ok(Some(node)) => {
            check_kept_used(blocks, geom, maps, snapshot, number, node, tally)?;
            Ok(())
        }
    }
}

/// What is said of a node that a snapshot can't keep.
fn bad_node(snapshot: &SnapshotIn, node: u32) -> CheckRefusal
    ensures { result ≡ Damaged (Snapshot (KeptNode snapshot.now.number node)) }
{
    CheckRefusal::Damaged(Damage::Snapshot(SnapshotDamage::KeptNode {
        snapshot: snapshot.number,
        node,
    }))
}

/// Checks a node in use that a snapshot keeps.
///
/// # Errors
/// As of any node.
fn check_kept_used<S: Blocks>(
    blocks: &mut S,
    geom: &Geom,
    maps: &Maps,
    snapshot: &SnapshotIn,
    number: u32,
    node: Node,
    tally: &mut Tally,
) -> Result<(), CheckRefusal>
    requires may { MayGo geom.now (S.state blocks.old) maps.now tally.old snapshot.now.places }
    requires tidy { AreTidy node.runs }
    requires below { LieBelow most_blocks node.runs }
    requires fits { node_fits geom.now node ≡ true }
    ensures may { OnOk result (MayGo geom.now (S.state blocks.new) maps.now tally.new snapshot.now.places) }
    ensures counts { (before : List ℕ) → CountsMet (blocks_of tally.old.met.items) before tally.old.counts
        → CountsMet (blocks_of tally.new.met.items) before tally.new.counts }
    ensures sound { IsTrue S.tells → kept_nodes geom.now (S.state blocks.old).map snapshot.now.places number ≡ Some node
        → IsKeptTo geom.now (S.state blocks.old).map maps.now tally.old snapshot.now number
        → OnOk result (IsKeptTo geom.now (S.state blocks.old).map maps.now tally.new snapshot.now (number + 1)) }
    ensures damage { IsTrue S.tells → kept_nodes geom.now (S.state blocks.old).map snapshot.now.places number ≡ Some node
        → IsKeptTo geom.now (S.state blocks.old).map maps.now tally.old snapshot.now number
        → IfErr result (λ why. OnDamage why (IsDamaged geom.now (S.state blocks.old).map)) }
    ensures looks { LooksOnly S.tells (fails_reading result) (S.state blocks.old) (S.state blocks.new) }
{
    geom.lawful();
    let kind = node.kind;
    let size = kind.content(node.size, geom.layout());
    let places = Runs::of(node.runs);
    match kind {
        NodeKind::Free => Ok(()),
        NodeKind::Snapshot => Err(bad_node(snapshot, number)),
        NodeKind::File => {
            keep_places(maps, tally, geom, snapshot.number, &places)?;
            Ok(())
        }
        NodeKind::Dir => {
            let own = directory_places(geom, snapshot, tally.dirs, places.count());
            check_kept_tail(blocks, snapshot.number, number, size, &own)?;
            tally.dirs = tally.dirs.saturating_add(places.count());
            Ok(())
        }
    }
}

/// The blocks of a directory that has `count` of them, where those before it in the snapshot have `dirs`.
fn directory_places(geom: &Geom, snapshot: &SnapshotIn, dirs: u32, count: u32) -> NodeBlocks
    ensures { result ≡ take count (drop (min (dirs + (1 + table_blocks geom.now)) 4294967295) snapshot.now.places) }
{
    geom.lawful();
    let table_blocks = geom.data_start() - geom.table_start();
    let first = dirs.saturating_add(1 + table_blocks);
    snapshot.places.part(first, count)
}

/// Checks that a directory of so many bytes that a snapshot keeps in these blocks has zeros past its last slot.
///
/// # Errors
/// It has other bytes; or a read of the disk failed, which the disk has counted.
fn check_kept_tail<S: Blocks>(
    blocks: &mut S,
    snapshot: u32,
    node: u32,
    size: u64,
    places: &NodeBlocks,
) -> Result<(), CheckRefusal>
    requires going { (S.state blocks.old).books.stopped ≡ false }
    requires data { All (IsData (S.state blocks.old).books.geom) places.now }
    ensures zeros { IsTrue S.tells → All (λ b. length ((S.state blocks.old).map b) ≡ 1024) places.now → length places.now ≡ (size + 1023) / 1024
        → OnOk result (IsTrue (are_zeros (drop size (joined (S.state blocks.old).map places.now)))) }
    ensures tail { IsTrue S.tells → All (λ b. length ((S.state blocks.old).map b) ≡ 1024) places.now → length places.now ≡ (size + 1023) / 1024
        → IfErr result (λ why. OnDamage why (λ what. (what ≡ Snapshot (KeptTail snapshot node))
        × (are_zeros (drop size (joined (S.state blocks.old).map places.now)) ≡ false))) }
    ensures looks { LooksOnly S.tells (fails_reading result) (S.state blocks.old) (S.state blocks.new) }
{
    if !has_zeros_past(blocks, size, places)? {
        return Err(CheckRefusal::Damaged(Damage::Snapshot(SnapshotDamage::KeptTail {
            snapshot,
            node,
        })));
    }
    Ok(())
}

/// Whether these blocks have zeros behind their first `size` bytes, which end in the last of them.
///
/// # Errors
/// A read of the disk failed, which the disk has counted.
fn has_zeros_past<S: Blocks>(
    blocks: &mut S,
    size: u64,
    places: &NodeBlocks,
) -> Result<bool, ReadFault>
    requires going { (S.state blocks.old).books.stopped ≡ false }
    requires data { All (IsData (S.state blocks.old).books.geom) places.now }
    ensures zeros { IsTrue S.tells → All (λ b. length ((S.state blocks.old).map b) ≡ 1024) places.now → length places.now ≡ (size + 1023) / 1024
        → IfOk result (λ zeros. zeros ≡ are_zeros (drop size (joined (S.state blocks.old).map places.now))) }
    ensures looks { LooksOnly S.tells (is_err result) (S.state blocks.old) (S.state blocks.new) }
{
    let used = (size % BLOCK_LENGTH as u64) as usize;
    if used == 0 {
        return Ok(true);
    }
    let Some(last) = places.count().checked_sub(1) else {
        return Ok(true);
    };
    let mut block = [0u8; BLOCK_LENGTH];
    read_block_at(blocks, places, last, &mut block)?;
    Ok(are_zeros(&block[used..]))
}
