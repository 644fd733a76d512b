//! The check of all snapshots: which there are, under which names, and how many of them keep each block. Nodes and
//! their own blocks were checked before; the live tree is checked behind.

ghost use Rattle.std.specs.Prelude.{◌≡◌, ◌⊎◌, ◌+◌, ◌<◌, ◌≤◌, ℕ, [], false, IsTrue, IfErr, IfOk, OnOk, length};
ghost use Rattle.base_types.specs.Layouts.{node_size, nodes_before, table_blocks};
ghost use Rattle.layout_geometry.specs.Geometry.{bitmap_blocks, table_start};
ghost use Rattle.layout_bytes.specs.Node.{node_bytes};
ghost use Rattle.crash_stands.specs.Stands.{HasNoSnapshots};
ghost use Rattle.engine_blocks.specs.Running.{HasNoBare};
ghost use Rattle.fs_files.specs.Effects.{LooksOnly};
ghost use Rattle.fs_files.specs.Shared.{keepers};
ghost use Rattle.fs_check.specs.KeptMeeting.{MayCheckKept};
ghost use Rattle.fs_check.specs.Meeting.{AreBits};
ghost use Rattle.fs_check.specs.SnapshotCalls.{AreSoundNodes, HoldsCounts, IsKnownBelow};
ghost use Rattle.fs_check.specs.Snapshots.{AreCheckedBelow, numbers_in};
ghost use Rattle.fs_check.specs.Whole.{IsDamaged, OnDamage, fails_reading};

use crate::TreeDamage;
use crate::blocks::empty_bitmap;
use crate::checking::{CheckRefusal, Damage};
use crate::firm::set_firm;
use crate::kept_meeting::{Maps, Tally};
use crate::snapshot::check_snapshot;
use crate::table::read_table_block;
use base_types::limits::BLOCK_LENGTH;
use base_types::{Block, Name, NoMemory};
use engine_blocks::Blocks;
use fs_files::{Shared, node_in};
use fs_snapshots::what_is_known_of_snapshots_is_so;
use layout_geometry::Geom;
use layout_node::NodeKind;
use std::alloc::Global;
use std::collections::BTreeMap;

/// The snapshots that a check found: the number of each by its name, and how many of them keep each block. Where
/// there is none they take no memory.
#[derive(Drop)]
pub struct Snapshots {
    pub numbers: BTreeMap<Name, u32>,
    pub shared: Shared,
}

/// What was found on the way: the numbers by names, and what was gone through of the snapshot that is being checked.
#[derive(Drop)]
pub(crate) struct Found {
    pub(crate) numbers: BTreeMap<Name, u32>,
    pub(crate) tally: Tally,
}

/// Checks all snapshots, once all nodes and their blocks were checked: `found` is clear only where none of the
/// nodes is a snapshot, and then no block is read.
///
/// # Errors
/// Something is broken in a snapshot, or node 1 is one; a read of the disk failed, which the disk has counted; or
/// out of memory.
pub(crate) fn find_snapshots<S: Blocks>(
    alloc: Global,
    blocks: &mut S,
    geom: &Geom,
    maps: &mut Maps,
    found: bool,
) -> Result<Snapshots, CheckRefusal>
    requires going { (S.state blocks.old).books.stopped ≡ false }
    requires none_bare { HasNoBare (S.state blocks.old).books.running }
    requires geom { (S.state blocks.old).books.geom ≡ geom.now }
    requires bits { length maps.old.marked.items ≡ bitmap_blocks geom.now }
    requires none { IsTrue S.tells → found ≡ false → HasNoSnapshots geom.now (S.state blocks.old).map }
    requires nodes { IsTrue S.tells → AreSoundNodes geom.now (S.state blocks.old).map }
    requires are { IsTrue S.tells → AreBits geom.now (S.state blocks.old).map maps.old.marked.items }
    ensures marked { maps.new.marked ≡ maps.old.marked }
    ensures known { IsTrue S.tells → IfOk result (λ snapshots. AreCheckedBelow geom.now (S.state blocks.old).map (geom.now.i + 1)
        (numbers_in snapshots.numbers.entries) snapshots.shared) }
    ensures damage { IsTrue S.tells → IfErr result (λ why. OnDamage why (IsDamaged geom.now (S.state blocks.old).map)) }
    ensures room { IfOk result (λ snapshots. (snapshots.shared ≡ []) ⊎ (length snapshots.shared ≡ geom.now.n)) }
    ensures looks { LooksOnly S.tells (fails_reading result) (S.state blocks.old) (S.state blocks.new) }
{
    what_is_known_of_snapshots_is_so();
    geom.lawful();
    if !found {
        return Ok(no_snapshots(alloc));
    }
    maps.firm = empty_bitmap(alloc, geom)?;
    set_firm(blocks, geom, maps.firm.as_mut_slice())?;
    let mut all = nothing_found(alloc, geom)?;
    check_snapshots(alloc, blocks, geom, maps, &mut all)?;
    Ok(Snapshots {
        numbers: all.numbers,
        shared: all.tally.counts,
    })
}

/// There is no snapshot. This takes no memory.
fn no_snapshots(alloc: Global) -> Snapshots
    ensures numbers { result.numbers.entries ≡ [] }
    ensures counts { result.shared ≡ [] }
{
    Snapshots {
        numbers: BTreeMap::new(alloc),
        shared: Shared::new(alloc),
    }
}

/// Nothing was found, and there is room to count.
///
/// # Errors
/// Out of memory.
fn nothing_found(alloc: Global, geom: &Geom) -> Result<Found, NoMemory>
    ensures numbers { IfOk result (λ found. found.numbers.entries ≡ []) }
    ensures room { IfOk result (λ found. length found.tally.counts ≡ geom.now.n) }
    ensures none { IfOk result (λ found. (b : ℕ) → keepers found.tally.counts b ≡ 0) }
{
    let mut counts = Shared::new(alloc);
    counts.make_room(alloc, geom.n())?;
    Ok(Found {
        numbers: BTreeMap::new(alloc),
        tally: Tally {
            met: Vec::new(alloc),
            dirs: 0,
            counts,
        },
    })
}

/// Checks all snapshots, where none was checked before. Each block of the node table is read once.
///
/// # Errors
/// As of one node.
fn check_snapshots<S: Blocks>(
    alloc: Global,
    blocks: &mut S,
    geom: &Geom,
    maps: &Maps,
    found: &mut Found,
) -> Result<(), CheckRefusal>
    requires may { MayCheckKept geom.now (S.state blocks.old) maps.now.marked.items maps.now.firm.items }
    requires counts { HoldsCounts geom.now found.old 1 }
    requires known { IsTrue S.tells → IsKnownBelow geom.now (S.state blocks.old).map maps.now 1 found.old }
    ensures counts { OnOk result (HoldsCounts geom.now found.new (geom.now.i + 1)) }
    ensures known { IsTrue S.tells → OnOk result (IsKnownBelow geom.now (S.state blocks.old).map maps.now (geom.now.i + 1) found.new) }
    ensures damage { IsTrue S.tells → IfErr result (λ why. OnDamage why (IsDamaged geom.now (S.state blocks.old).map)) }
    ensures looks { LooksOnly S.tells (fails_reading result) (S.state blocks.old) (S.state blocks.new) }
{
    geom.lawful();
    for t in 0..geom.layout().table_blocks(geom.i()) {
        let mut table = [0u8; BLOCK_LENGTH];
        read_table_block(blocks, geom, t, &mut table)?;
        check_block(alloc, blocks, geom, maps, t, &table, found)?;
    }
    Ok(())
}

/// Checks the snapshots in block `t` of the table, whose bytes these are.
///
/// # Errors
/// As of one node.
fn check_block<S: Blocks>(
    alloc: Global,
    blocks: &mut S,
    geom: &Geom,
    maps: &Maps,
    t: u32,
    table: &Block,
    found: &mut Found,
) -> Result<(), CheckRefusal>
    requires may { MayCheckKept geom.now (S.state blocks.old) maps.now.marked.items maps.now.firm.items }
    requires in_table { t < table_blocks geom.now.layout geom.now.i }
    requires counts { HoldsCounts geom.now found.old (nodes_before geom.now.layout t + 1) }
    requires table { IsTrue S.tells → table.now ≡ (S.state blocks.old).map (table_start geom.now + t) }
    requires known { IsTrue S.tells → IsKnownBelow geom.now (S.state blocks.old).map maps.now (nodes_before geom.now.layout t + 1) found.old }
    ensures counts { OnOk result (HoldsCounts geom.now found.new (nodes_before geom.now.layout (t + 1) + 1)) }
    ensures known { IsTrue S.tells
        → OnOk result (IsKnownBelow geom.now (S.state blocks.old).map maps.now (nodes_before geom.now.layout (t + 1) + 1) found.new) }
    ensures damage { IsTrue S.tells → IfErr result (λ why. OnDamage why (IsDamaged geom.now (S.state blocks.old).map)) }
    ensures looks { LooksOnly S.tells (fails_reading result) (S.state blocks.old) (S.state blocks.new) }
{
    geom.lawful();
    let layout = geom.layout();
    for place in 0..layout.nodes_in_block() {
        let at = layout.rank_byte(place);
        let end = at + layout.node_length();
        let number = layout.nodes_before(t) + place + 1;
        let bytes = &table[at..end];
        check_node(alloc, blocks, geom, maps, number, bytes, found)?;
    }
    Ok(())
}

/// Checks the node in these bytes where it is a snapshot.
///
/// # Errors
/// It is node 1, or something is broken in it; a read of the disk failed, which the disk has counted; or out of
/// memory.
fn check_node<S: Blocks>(
    alloc: Global,
    blocks: &mut S,
    geom: &Geom,
    maps: &Maps,
    number: u32,
    bytes: &[u8],
    found: &mut Found,
) -> Result<(), CheckRefusal>
    requires may { MayCheckKept geom.now (S.state blocks.old) maps.now.marked.items maps.now.firm.items }
    requires above_zero { 1 ≤ number }
    requires in_table { number ≤ geom.now.i }
    requires bytes { length bytes.now ≡ node_size geom.now.layout }
    requires counts { HoldsCounts geom.now found.old number }
    requires there { IsTrue S.tells → bytes.now ≡ node_bytes geom.now (S.state blocks.old).map number }
    requires known { IsTrue S.tells → IsKnownBelow geom.now (S.state blocks.old).map maps.now number found.old }
    ensures counts { OnOk result (HoldsCounts geom.now found.new (number + 1)) }
    ensures known { IsTrue S.tells → OnOk result (IsKnownBelow geom.now (S.state blocks.old).map maps.now (number + 1) found.new) }
    ensures damage { IsTrue S.tells → IfErr result (λ why. OnDamage why (IsDamaged geom.now (S.state blocks.old).map)) }
    ensures looks { LooksOnly S.tells (fails_reading result) (S.state blocks.old) (S.state blocks.new) }
{
    what_is_known_of_snapshots_is_so();
    let Some(file) = node_in(bytes, geom) else {
        return Ok(());
    };
    match file.facts.kind {
        NodeKind::Free => Ok(()),
        NodeKind::Dir => Ok(()),
        NodeKind::File => Ok(()),
        NodeKind::Snapshot => {
            if number == 1 {
                return Err(CheckRefusal::Damaged(Damage::Tree(TreeDamage::NoRoot)));
            }
            check_snapshot(alloc, blocks, geom, maps, number, file, found)?;
            Ok(())
        }
    }
}
