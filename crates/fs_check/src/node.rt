//! One node of the node table: its bytes, its blocks, and what a directory's last block carries past the
//! last slot. Links and slots aren't looked at.

ghost use Rattle.std.specs.Prelude.{◌≡◌, ◌≢◌, ◌+◌, ◌/◌, ◌<◌, ◌≤◌, ℕ, true, false, IsTrue, IfNone, IfOk, IfSome, OnErr, OnOk, None, Some, length};
ghost use Rattle.std.specs.Prelude.{replicate, is_err, slice_index, drop};
ghost use Rattle.std.specs.List.{All};
ghost use Rattle.base_types.specs.Runs.{run_places};
ghost use Rattle.engine_blocks.specs.Puts.{IsData};
ghost use Rattle.engine_blocks.specs.Running.{HasNoBare};
ghost use Rattle.layout_extent.specs.Runs.{AreTidy, LieBelow, most_blocks};
ghost use Rattle.fs_check.specs.Broken.{IsBroken};
ghost use Rattle.fs_check.specs.Calls.{IfDamaged, fails_reading};
ghost use Rattle.fs_files.specs.Effects.{LooksOnly};
ghost use Rattle.fs_check.specs.Meeting.{IsCheckedTo, IsTailOf, MayCheck};
ghost use Rattle.base_types.specs.Layouts.{node_size};
ghost use Rattle.layout_bytes.specs.Bitmap.{is_set};
ghost use Rattle.layout_bytes.specs.declared.node.NodeKind.TheVariants.{Dir, Snapshot};
ghost use Rattle.layout_bytes.specs.Bytes.{are_zeros};
ghost use Rattle.layout_bytes.specs.Node.{node_bytes, node_fits, node_of};
ghost use Rattle.crash_stands.specs.Files.{joined, used_node};

use crate::BlockDamage;
use crate::block_damage::BlocksRefusal;
use crate::meeting::meet_places;
use base_types::limits::BLOCK_LENGTH;
use base_types::{Block, ReadFault};
use engine_blocks::Blocks;
use layout_bytes::are_zeros;
use layout_extent::Runs;
use layout_geometry::Geom;
use layout_node::{
    BadNode, Node, NodeKind, a_free_node_is_zeros, nodes_in_use_are_read, read_node,
};

/// Checks a node, whose bytes these are: nothing is broken in the nodes below it. Where it is a snapshot `found` is set.
///
/// # Errors
/// Its bytes are no node's, one of its blocks can't be met, or a directory has a tail; or a read of the
/// disk failed, which the disk has counted.
pub(crate) fn check_node<S: Blocks>(
    blocks: &mut S,
    geom: &Geom,
    bits: &[Block],
    met: &mut [Block],
    number: u32,
    bytes: &[u8],
    found: &mut bool,
) -> Result<(), BlocksRefusal>
    requires may { MayCheck geom.now (S.state blocks.old) bits.now met.old }
    requires above_zero { 1 ≤ number }
    requires in_table { number ≤ geom.now.i }
    requires bytes { length bytes.now ≡ node_size geom.now.layout }
    ensures size { length met.new ≡ length met.old }
    ensures sound { IsTrue S.tells → bytes.now ≡ node_bytes geom.now (S.state blocks.old).map number
        → IsCheckedTo geom.now (S.state blocks.old).map bits.now met.old found.old number
        → OnOk result (IsCheckedTo geom.now (S.state blocks.old).map bits.now met.new found.new (number + 1)) }
    ensures damage { IsTrue S.tells → bytes.now ≡ node_bytes geom.now (S.state blocks.old).map number
        → IsCheckedTo geom.now (S.state blocks.old).map bits.now met.old found.old number
        → IfDamaged result (IsBroken geom.now (S.state blocks.old).map) }
    ensures looks { LooksOnly S.tells (fails_reading result) (S.state blocks.old) (S.state blocks.new) }
{
    match node_in(bytes, geom) {
        Err(_) => Err(BlocksRefusal::Damaged(BlockDamage::BadNode { node: number })),
        Ok(None) => Ok(()),
        Ok(Some(node)) => {
            check_used(blocks, geom, bits, met, number, node, found)?;
            Ok(())
        }
    }
}

/// The node in use in these bytes; `None` where they are zeros.
///
/// # Errors
/// They are neither.
pub(crate) fn node_in(bytes: &[u8], geom: &Geom) -> Result<Option<Node>, BadNode>
    requires { length bytes.now ≡ node_size geom.now.layout }
    ensures found { IfOk result (λ found. found ≡ node_of geom.now bytes.now) }
    ensures free { IfOk result (λ found. IfNone found (bytes.now ≡ replicate (node_size geom.now.layout) 0)) }
    ensures unread { OnErr result (node_of geom.now bytes.now ≡ None) }
    ensures carries { OnErr result (bytes.now ≡ replicate (node_size geom.now.layout) 0 → ⊥) }
    ensures tidy { IfOk result (λ found. IfSome found (λ node. AreTidy node.runs)) }
    ensures below { IfOk result (λ found. IfSome found (λ node. LieBelow most_blocks node.runs)) }
    ensures fits { IfOk result (λ found. IfSome found (λ node. node_fits geom.now node ≡ true)) }
{
    geom.lawful();
    byte_ranges(bytes);
    nodes_in_use_are_read();
    a_free_node_is_zeros();
    let node = read_node(bytes, geom)?;
    match node.kind {
        NodeKind::Free => Ok(None),
        NodeKind::Dir => Ok(Some(node)),
        NodeKind::File => Ok(Some(node)),
        NodeKind::Snapshot => Ok(Some(node)),
    }
}

// Each byte is below 256.
fn byte_ranges(bytes: &[u8])
    ensures { (i : ℕ) → slice_index bytes.now i < 256 }
{}

/// Checks a node in use.
///
/// # Errors
/// As of any node.
fn check_used<S: Blocks>(
    blocks: &mut S,
    geom: &Geom,
    bits: &[Block],
    met: &mut [Block],
    number: u32,
    node: Node,
    found: &mut bool,
) -> Result<(), BlocksRefusal>
    requires may { MayCheck geom.now (S.state blocks.old) bits.now met.old }
    requires tidy { AreTidy node.runs }
    requires below { LieBelow most_blocks node.runs }
    requires fits { node_fits geom.now node ≡ true }
    ensures size { length met.new ≡ length met.old }
    ensures sound { IsTrue S.tells → used_node geom.now (S.state blocks.old).map number ≡ Some node
        → IsCheckedTo geom.now (S.state blocks.old).map bits.now met.old found.old number
        → OnOk result (IsCheckedTo geom.now (S.state blocks.old).map bits.now met.new found.new (number + 1)) }
    ensures damage { IsTrue S.tells → used_node geom.now (S.state blocks.old).map number ≡ Some node
        → IsCheckedTo geom.now (S.state blocks.old).map bits.now met.old found.old number
        → IfDamaged result (IsBroken geom.now (S.state blocks.old).map) }
    ensures looks { LooksOnly S.tells (fails_reading result) (S.state blocks.old) (S.state blocks.new) }
{
    geom.lawful();
    let kind = node.kind;
    let size = kind.content(node.size, geom.layout());
    let places = Runs::of(node.runs);
    meet_places(bits, met, geom, number, &places)?;
    check_tail(blocks, geom, kind, number, size, &places)?;
    note(kind, found);
    Ok(())
}

/// Sets `found` where a node of this kind is a snapshot.
fn note(kind: NodeKind, found: &mut bool)
    ensures before { found.new ≡ false → found.old ≡ false }
    ensures plain { found.new ≡ false → kind ≢ Snapshot }
{
    match kind {
        NodeKind::Snapshot => *found = true,
        NodeKind::Free => (),
        NodeKind::Dir => (),
        NodeKind::File => (),
    }
}

/// Checks that a directory of so many bytes has zeros past its last slot. Nothing is asked of a file or a snapshot.
///
/// # Errors
/// It has other bytes; or a read of the disk failed, which the disk has counted.
fn check_tail<S: Blocks>(
    blocks: &mut S,
    geom: &Geom,
    kind: NodeKind,
    number: u32,
    size: u64,
    places: &Runs,
) -> Result<(), BlocksRefusal>
    requires going { (S.state blocks.old).books.stopped ≡ false }
    requires none_bare { HasNoBare (S.state blocks.old).books.running }
    requires geom { (S.state blocks.old).books.geom ≡ geom.now }
    requires data { All (IsData geom.now) places.now }
    requires count { length places.now ≡ (size + 1023) / 1024 }
    ensures zeros { IsTrue S.tells → All (λ b. is_set geom.now (S.state blocks.old).map b ≡ true) places.now
        → OnOk result (kind ≡ Dir → IsTrue (are_zeros (drop size (joined (S.state blocks.old).map places.now)))) }
    ensures tail { IsTrue S.tells → All (λ b. is_set geom.now (S.state blocks.old).map b ≡ true) places.now
        → IfDamaged result (IsTailOf number kind (drop size (joined (S.state blocks.old).map places.now))) }
    ensures looks { LooksOnly S.tells (fails_reading result) (S.state blocks.old) (S.state blocks.new) }
{
    match kind {
        NodeKind::Free => Ok(()),
        NodeKind::File => Ok(()),
        NodeKind::Snapshot => Ok(()),
        NodeKind::Dir => {
            if !has_zeros_past(blocks, geom, size, places)? {
                return Err(BlocksRefusal::Damaged(BlockDamage::Tail { node: number }));
            }
            Ok(())
        }
    }
}

/// Whether these blocks have zeros behind their first `size` bytes, which end in the last of them.
///
/// # Errors
/// A read of the disk failed, which the disk has counted.
fn has_zeros_past<S: Blocks>(
    blocks: &mut S,
    geom: &Geom,
    size: u64,
    places: &Runs,
) -> Result<bool, ReadFault>
    requires going { (S.state blocks.old).books.stopped ≡ false }
    requires none_bare { HasNoBare (S.state blocks.old).books.running }
    requires geom { (S.state blocks.old).books.geom ≡ geom.now }
    requires data { All (IsData geom.now) places.now }
    requires count { length places.now ≡ (size + 1023) / 1024 }
    ensures zeros { IsTrue S.tells → All (λ b. is_set geom.now (S.state blocks.old).map b ≡ true) places.now
        → IfOk result (λ zeros. zeros ≡ are_zeros (drop size (joined (S.state blocks.old).map places.now))) }
    ensures looks { LooksOnly S.tells (is_err result) (S.state blocks.old) (S.state blocks.new) }
{
    geom.lawful();
    let used = (size % BLOCK_LENGTH as u64) as usize;
    if used == 0 {
        return Ok(true);
    }
    let last = places.place(places.count() - 1);
    let mut block = [0u8; BLOCK_LENGTH];
    blocks.get(last, &mut block)?;
    Ok(are_zeros(&block[used..]))
}
