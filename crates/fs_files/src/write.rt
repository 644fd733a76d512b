//! Writing bytes into a file of a draft: the gap before them, the blocks that they need, and the bytes
//! themselves. What a draft is then is described by the clauses of `write_at`.

ghost use Rattle.std.specs.Prelude.{◌≡◌, ◌⊎◌, ◌≤◌, ◌<◌, ◌+◌, ◌*◌, ◌^◌, IsTrue, false, min, max, [], length, Some, IfErr, OnOk};
ghost use Rattle.std.specs.List.{All};
ghost use Rattle.layout_bytes.specs.declared.node.NodeKind.TheVariants.{Dir};
ghost use Rattle.engine_blocks.specs.Calls.{HasTurns};
ghost use Rattle.engine_blocks.specs.State.{reusable_blocks};
ghost use Rattle.engine_blocks.specs.Puts.{IsData};
ghost use Rattle.fs_files.specs.Asks.{MayGrow, MayLook};
ghost use Rattle.fs_files.specs.Bytes.{blocks_for};
ghost use Rattle.fs_files.specs.Calls.{files_in, IsUsed};
ghost use Rattle.fs_files.specs.Calls.{GrowthRefused, LookRefused};
ghost use Rattle.fs_files.specs.Changing.{WritesAt};
ghost use Rattle.fs_files.specs.Content.{fails_reading, fails_settling};
ghost use Rattle.fs_files.specs.Effects.{LooksOnly, LooksAndSettles};
ghost use Rattle.fs_files.specs.Drafts.{drafted};
ghost use Rattle.fs_files.specs.Growing.{placed, taken_by};
ghost use Rattle.base_types.specs.Layouts.{most_runs};
ghost use Rattle.layout_extent.specs.Runs.{stretches};
ghost use Rattle.fs_files.specs.Nodes.{largest_node, node_block, node_of_open, AreWholeSlots, IsOpen};
ghost use Rattle.fs_files.specs.Shared.{is_kept};
ghost use Rattle.fs_files.specs.Sound.{IsDraftOf};
ghost use Rattle.fs_files.specs.Writing.{FillsBytes, FillsGap, HasRoom, WritesOpen, KeepsSize, WritesFile, gap_end};
ghost use Rattle.crash_stands.specs.Files.{FileNode, used_node};

use crate::FileRefusal;
use crate::calls::fill_gap;
use crate::content::write_content;
use crate::draft::{Draft, ZEROS};
use crate::grow::{class_of, copy_edges, edge, grow, is_dir, taken_by};
use crate::nodes::{OpenNode, load, store};
use base_types::{Block, NoMemory};
use engine_blocks::{Blocks, calls_compose};
use layout_extent::a_list_has_its_runs;
use layout_geometry::Geom;
use std::alloc::Global;

impl<'a> Draft<'a> {
    /// Writes these bytes into node `number` from `offset` on. A gap past its end is zeros. No bytes
    /// change nothing. A block that a snapshot keeps isn't written: a new one stands in its stead.
    ///
    /// # Errors
    /// Where it takes blocks: fewer may be taken; the node's would lie in more runs than it has room for; or the
    /// disk failed as it settled. Else a read of the disk failed; or out of memory. The draft isn't to be
    /// used any more then.
    pub fn write_at<S: Blocks>(
        &mut self,
        alloc: Global,
        blocks: &mut S,
        number: u32,
        offset: u64,
        bytes: &[u8],
    ) -> Result<(), FileRefusal>
        requires look { MayLook S.tells (S.state blocks.old) self.old number }
        requires used { IsTrue S.tells → IsUsed (files_in (S.state blocks.old) self.old) number }
        requires grows { MayGrow S.tells (S.state blocks.old) self.old number offset (offset + length bytes.now) }
        requires slots { IsTrue S.tells → (x : FileNode) → files_in (S.state blocks.old) self.old number ≡ Some x → x.kind ≡ Dir
            → AreWholeSlots (S.state blocks.old).books.geom.layout (max (length x.bytes) (offset + length bytes.now)) }
        ensures { WritesAt S.tells number offset bytes.now result (S.state blocks.old) (S.state blocks.new) self.old self.new }
    {
        calls_compose::<S>();
        a_list_has_its_runs();
        let geom = blocks.geom();
        geom.lawful();
        if bytes.is_empty() {
            return Ok(());
        }
        let mut table = ZEROS;
        let Some(mut node) = load(self, blocks, number, &mut table)? else {
            return Ok(());
        };
        write_loaded(
            self, alloc, blocks, number, &mut node, &mut table, offset, bytes,
        )
    }
}

/// Writes bytes into an open node from `offset` on: first it gets the `need` blocks for them, then the gap
/// before them gets zeros. Its size stays.
///
/// # Errors
/// As `Draft::write_at`. The draft isn't to be used any more then.
fn write_open<S: Blocks>(
    draft: &mut Draft,
    alloc: Global,
    blocks: &mut S,
    node: &mut OpenNode,
    offset: u64,
    bytes: &[u8],
    need: u32,
) -> Result<(), FileRefusal>
    requires going { (S.state blocks.old).books.stopped ≡ false }
    requires turns { HasTurns (S.state blocks.old).books }
    requires open { IsOpen (S.state blocks.old).books.geom node.old }
    requires size { offset + length bytes.now ≤ 2 ^ 30 }
    requires need { need ≡ taken_by (is_kept draft.old.kept) (min offset node.old.size) (offset + length bytes.now) node.old.places }
    requires once { 0 < need → draft.old.taken ≡ [] }
    ensures writes { OnOk result (WritesOpen S.tells (S.state blocks.new).books (S.state blocks.old).map offset bytes.now node.old node.new draft.old
        draft.new) }
    ensures refused { IfErr result (λ why. GrowthRefused need (placed (is_kept draft.old.kept) (min offset node.old.size) (offset + length bytes.now)
        node.old.places) (S.state blocks.old).books (S.state blocks.new).books why) }
    ensures settles { LooksAndSettles S.tells (fails_reading result) (fails_settling result) (S.state blocks.old) (S.state blocks.new) }
    ensures looks { need ≤ length (reusable_blocks (S.state blocks.old).books)
        → LooksOnly S.tells (fails_reading result) (S.state blocks.old) (S.state blocks.new) }
{
    calls_compose::<S>();
    let held = node.places.count();
    let lo = offset.min(node.size);
    let hi = offset + bytes.len() as u64;
    make_room(draft, alloc, blocks, node, lo, hi, need)?;
    write_behind(draft, alloc, blocks, node, held, offset, bytes)
}

/// Writes bytes into an open node from `offset` on, within its blocks, of which it had so many before. First the
/// gap before them gets zeros, as far as it had blocks.
///
/// # Errors
/// A read of the disk failed, which the disk has counted; or out of memory. The draft isn't to be used any
/// more then.
fn write_behind<S: Blocks>(
    draft: &mut Draft,
    alloc: Global,
    blocks: &mut S,
    node: &OpenNode,
    held: u32,
    offset: u64,
    bytes: &[u8],
) -> Result<(), FileRefusal>
    requires going { (S.state blocks.old).books.stopped ≡ false }
    requires data { All (IsData (S.state blocks.old).books.geom) node.now.places }
    requires held { held ≡ blocks_for node.now.size }
    requires within { max (1024 * held) (offset + length bytes.now) ≤ 1024 * length node.now.places }
    ensures fills { OnOk result (FillsBytes S.tells (S.state blocks.old).map offset held bytes.now node.now draft.old draft.new) }
    ensures refused { IfErr result LookRefused }
    ensures looks { LooksOnly S.tells (fails_reading result) (S.state blocks.old) (S.state blocks.new) }
{
    close_gap(draft, alloc, blocks, node, held, gap_end(node, offset))?;
    let class = class_of(node.kind);
    write_content(draft, alloc, blocks, &node.places, class, offset, bytes)?;
    Ok(())
}

/// Where the gap ends that gets zeros before a write from `offset` on: none is written in a directory, which has zeros
/// behind its bytes.
fn gap_end(node: &OpenNode, offset: u64) -> u64
    ensures { result ≡ gap_end node.now offset }
{
    if is_dir(node.kind) {
        return node.size;
    }
    offset
}

/// Zeros from the node's end to byte `offset`, where that is past it, within its first `held` blocks.
///
/// # Errors
/// A read of the disk failed, which the disk has counted; or out of memory. The draft isn't to be used any
/// more then.
fn close_gap<S: Blocks>(
    draft: &mut Draft,
    alloc: Global,
    blocks: &mut S,
    node: &OpenNode,
    held: u32,
    offset: u64,
) -> Result<(), FileRefusal>
    requires going { (S.state blocks.old).books.stopped ≡ false }
    requires data { All (IsData (S.state blocks.old).books.geom) node.now.places }
    requires held { held ≡ blocks_for node.now.size }
    requires within { held ≤ length node.now.places }
    ensures gap { OnOk result (FillsGap S.tells (S.state blocks.old).map offset held node.now draft.old draft.new) }
    ensures refused { IfErr result LookRefused }
    ensures looks { LooksOnly S.tells (fails_reading result) (S.state blocks.old) (S.state blocks.new) }
{
    if offset <= node.size {
        return Ok(());
    }
    fill_gap(draft, alloc, blocks, node, held, offset)
}

/// The node gets the `need` blocks that bytes `lo` to `hi` take, where they take some: new ones in the stead of the
/// kept ones that they touch, and behind its own. What the bytes don't fill of a kept block is copied.
///
/// # Errors
/// As `Draft::write_at`. The draft isn't to be used any more then.
fn make_room<S: Blocks>(
    draft: &mut Draft,
    alloc: Global,
    blocks: &mut S,
    node: &mut OpenNode,
    lo: u64,
    hi: u64,
    need: u32,
) -> Result<(), FileRefusal>
    requires going { (S.state blocks.old).books.stopped ≡ false }
    requires turns { HasTurns (S.state blocks.old).books }
    requires data { All (IsData (S.state blocks.old).books.geom) node.old.places }
    requires ordered { lo ≤ hi }
    requires size { hi ≤ largest_node }
    requires need { need ≡ taken_by (is_kept draft.old.kept) lo hi node.old.places }
    requires once { 0 < need → draft.old.taken ≡ [] }
    ensures room { OnOk result (HasRoom S.tells (S.state blocks.new).books (S.state blocks.old).map lo hi node.old node.new draft.old draft.new) }
    ensures refused { IfErr result (λ why. GrowthRefused need (placed (is_kept draft.old.kept) lo hi node.old.places) (S.state blocks.old).books
        (S.state blocks.new).books why) }
    ensures settles { LooksAndSettles S.tells (fails_reading result) (fails_settling result) (S.state blocks.old) (S.state blocks.new) }
    ensures looks { need ≤ length (reusable_blocks (S.state blocks.old).books)
        → LooksOnly S.tells (fails_reading result) (S.state blocks.old) (S.state blocks.new) }
{
    calls_compose::<S>();
    if need == 0 {
        return Ok(());
    }
    let first = edge(draft, node, lo);
    let last = edge(draft, node, hi);
    grow(draft, alloc, blocks, node, lo, hi, need)?;
    copy_edges(draft, alloc, blocks, node, lo, hi, first, last)
}

/// The node has at least so many bytes, and is stored where its size grew or it got blocks. `table` has the bytes
/// of its block of the node table.
///
/// # Errors
/// Out of memory. The draft isn't to be used any more then.
fn keep_size(
    draft: &mut Draft,
    alloc: Global,
    geom: &Geom,
    number: u32,
    node: &mut OpenNode,
    size: u64,
    need: u32,
    table: &mut Block,
) -> Result<(), NoMemory>
    requires above_zero { 1 ≤ number }
    requires in_table { number ≤ geom.now.i }
    requires size { size ≤ largest_node }
    requires most { node.old.size ≤ largest_node }
    requires runs { stretches node.old.places ≤ most_runs geom.now.layout }
    ensures { OnOk result (KeepsSize geom.now number size need node.old table.old draft.old draft.new) }
{
    if size <= node.size && need == 0 {
        return Ok(());
    }
    a_list_has_its_runs();
    node.size = node.size.max(size);
    let node = node.to_node(geom.layout());
    store(draft, alloc, geom, number, &node, table)
}

/// Writes bytes into node `number`, which is `node`, from `offset` on. `table` has the bytes of its block
/// of the node table. Bytes are given, or `offset` is past its end.
///
/// # Errors
/// As `Draft::write_at`. The draft isn't to be used any more then.
pub(crate) fn write_loaded<S: Blocks>(
    draft: &mut Draft,
    alloc: Global,
    blocks: &mut S,
    number: u32,
    node: &mut OpenNode,
    table: &mut Block,
    offset: u64,
    bytes: &[u8],
) -> Result<(), FileRefusal>
    requires going { (S.state blocks.old).books.stopped ≡ false }
    requires turns { HasTurns (S.state blocks.old).books }
    requires above_zero { 1 ≤ number }
    requires in_table { number ≤ (S.state blocks.old).books.geom.i }
    requires size { offset + length bytes.now ≤ 2 ^ 30 }
    requires some { (0 < length bytes.now) ⊎ (node.old.size < offset) }
    requires open { IsOpen (S.state blocks.old).books.geom node.old }
    requires draft { IsDraftOf S.tells (S.state blocks.old) draft.old }
    requires used { IsTrue S.tells → used_node (S.state blocks.old).books.geom (drafted draft.old (S.state blocks.old).map) number ≡ Some
        (node_of_open (S.state blocks.old).books.geom.layout node.old) }
    requires table { IsTrue S.tells → table.old ≡ drafted draft.old (S.state blocks.old).map (node_block (S.state blocks.old).books.geom number) }
    requires once { IsTrue S.tells → 0 < taken_by (is_kept draft.old.kept) (min offset node.old.size) (offset + length bytes.now) node.old.places
        → draft.old.taken ≡ [] }
    requires slots { IsTrue S.tells → node.old.kind ≡ Dir
        → AreWholeSlots (S.state blocks.old).books.geom.layout (max node.old.size (offset + length bytes.now)) }
    ensures draft { OnOk result (IsDraftOf S.tells (S.state blocks.new) draft.new) }
    ensures kept { OnOk result (draft.new.kept ≡ draft.old.kept) }
    ensures file { IsTrue S.tells → OnOk result (WritesFile (S.state blocks.new).books (S.state blocks.old).map number offset bytes.now draft.old draft.new) }
    ensures refused { IfErr result (λ why. GrowthRefused (taken_by (is_kept draft.old.kept) (min offset node.old.size) (offset + length bytes.now)
        node.old.places) (placed (is_kept draft.old.kept) (min offset node.old.size) (offset + length bytes.now) node.old.places)
        (S.state blocks.old).books (S.state blocks.new).books why) }
    ensures settles { LooksAndSettles S.tells (fails_reading result) (fails_settling result) (S.state blocks.old) (S.state blocks.new) }
    ensures looks { taken_by (is_kept draft.old.kept) (min offset node.old.size) (offset + length bytes.now) node.old.places
        ≤ length (reusable_blocks (S.state blocks.old).books) → LooksOnly S.tells (fails_reading result) (S.state blocks.old) (S.state blocks.new) }
{
    calls_compose::<S>();
    a_list_has_its_runs();
    let geom = blocks.geom();
    geom.lawful();
    let lo = offset.min(node.size);
    let hi = offset + bytes.len() as u64;
    let need = taken_by(draft, node, lo, hi);
    if need > 0 && !draft.takes_none() {
        return Ok(());
    }
    write_open(draft, alloc, blocks, node, offset, bytes, need)?;
    keep_size(draft, alloc, &geom, number, node, hi, need, table)?;
    Ok(())
}
