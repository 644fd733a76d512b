//! How a node gets blocks and gives them up, in a draft: which it takes, and which it frees. Its bytes are
//! written elsewhere.

ghost use Rattle.std.specs.Prelude.{◌≡◌, ◌↔◌, ◌≤◌, ◌<◌, ◌/◌, ℕ, List, [], None, false, IsTrue, IfErr, IfSome, IsOk, OnOk, get_or, length};
ghost use Rattle.std.specs.List.{All};
ghost use Rattle.base_types.specs.Layouts.{most_runs};
ghost use Rattle.layout_extent.specs.Renew.{makes_way, renewals};
ghost use Rattle.layout_extent.specs.Runs.{most_blocks, stretches};
ghost use Rattle.engine_blocks.specs.Puts.{IsData};
ghost use Rattle.engine_blocks.specs.State.{reusable_blocks};
ghost use Rattle.engine_blocks.specs.Calls.{AreLowest, HasTurns};
ghost use Rattle.engine_blocks.specs.Effects.{ChangesNothing};
ghost use Rattle.fs_files.specs.Bytes.{blocks_for};
ghost use Rattle.fs_files.specs.Calls.{is_dir, GrowthRefused, LookRefused};
ghost use Rattle.fs_files.specs.Content.{fails_reading, fails_settling};
ghost use Rattle.fs_files.specs.Effects.{LooksOnly, LooksAndSettles};
ghost use Rattle.fs_files.specs.Growing.{CopiesEdge, CopiesEdges, GrowsPlaces, ShrinksPlaces, edge_of, placed, taken_by};
ghost use Rattle.fs_files.specs.Nodes.{class_of, largest_node};
ghost use Rattle.fs_files.specs.Shared.{is_kept};

use crate::FileRefusal;
use crate::draft::{Draft, ZEROS};
use crate::nodes::OpenNode;
use base_types::limits::BLOCK_LENGTH;
use base_types::{Class, Layout, NoMemory, Places};
use engine_blocks::{Blocks, LowestRefusal};
use layout_extent::{Runs, Scattered};
use layout_node::NodeKind;
use std::alloc::Global;

/// How many blocks so many bytes fill, the last perhaps in part. There are no more bytes than a node can have.
pub(crate) fn blocks_for(size: u64) -> u32
    requires { size ≤ largest_node }
    ensures { result ≡ blocks_for size }
{
    size.div_ceil(BLOCK_LENGTH as u64) as u32
}

/// The class of a node's blocks.
pub(crate) fn class_of(kind: NodeKind) -> Class
    ensures { result ≡ class_of kind }
{
    match kind {
        NodeKind::Free => Class::Meta,
        NodeKind::Dir => Class::Meta,
        NodeKind::File => Class::Content,
        NodeKind::Snapshot => Class::Content,
    }
}

/// Whether a node of this kind is a directory.
pub(crate) fn is_dir(kind: NodeKind) -> bool
    ensures { result ≡ is_dir kind }
{
    match kind {
        NodeKind::Free => false,
        NodeKind::Dir => true,
        NodeKind::File => false,
        NodeKind::Snapshot => false,
    }
}

/// How many blocks the node takes for bytes `lo` to `hi`: one in the stead of each kept block that they touch,
/// and those that it has too few.
pub(crate) fn taken_by(draft: &Draft, node: &OpenNode, lo: u64, hi: u64) -> u32
    requires ordered { lo ≤ hi }
    requires size { hi ≤ largest_node }
    ensures { result ≡ taken_by (is_kept draft.now.kept) lo hi node.now.places }
{
    let held = node.places.count();
    let past = blocks_for(hi);
    past.saturating_sub(held)
        + renewals(draft, &node.places, (lo / BLOCK_LENGTH as u64) as u32, past)
}

/// At how many places from `from` on below `past` of this list kept blocks stand.
fn renewals(draft: &Draft, places: &Runs, from: u32, past: u32) -> u32
    requires { from ≤ past }
    ensures exact { result ≡ renewals (makes_way from past (is_kept draft.now.kept) places.now) 0 places.now }
    ensures most { result ≤ past }
{
    if draft.keeps_none() {
        return 0;
    }
    let last = past.min(places.count());
    let mut count = 0;
    for place in from.min(last)..last {
        if draft.keeps(places.place(place)) {
            count += 1;
        }
    }
    count
}

/// The node gets blocks for bytes `lo` to `hi`: the least that may be taken, `need` of them, in the stead of the
/// kept ones that the bytes touch, and behind its own. They have zeros.
///
/// # Errors
/// Fewer may be taken; the node's blocks would lie in more runs than it has room for; the disk failed; or out of
/// memory. The draft isn't to be used any more then.
pub(crate) fn grow<S: Blocks>(
    draft: &mut Draft,
    alloc: Global,
    blocks: &mut S,
    node: &mut OpenNode,
    lo: u64,
    hi: u64,
    need: u32,
) -> Result<(), FileRefusal>
    requires going { (S.state blocks.old).books.stopped ≡ false }
    requires turns { HasTurns (S.state blocks.old).books }
    requires ordered { lo ≤ hi }
    requires size { hi ≤ largest_node }
    requires need { need ≡ taken_by (is_kept draft.old.kept) lo hi node.old.places }
    requires once { draft.old.taken ≡ [] }
    ensures grows { OnOk result (GrowsPlaces lo hi (S.state blocks.new).books node.old node.new draft.old draft.new) }
    ensures refused { IfErr result (λ why. GrowthRefused need (placed (is_kept draft.old.kept) lo hi node.old.places) (S.state blocks.old).books
        (S.state blocks.new).books why) }
    ensures unread { fails_reading result ≡ false }
    ensures settles { LooksAndSettles S.tells false (fails_settling result) (S.state blocks.old) (S.state blocks.new) }
    ensures looks { need ≤ length (reusable_blocks (S.state blocks.old).books) → ChangesNothing S.tells (S.state blocks.old) (S.state blocks.new) }
{
    let geom = blocks.geom();
    geom.lawful();
    let mut list = Places::new(alloc);
    lowest(alloc, blocks, need, &mut list)?;
    match renew(
        draft,
        &mut node.places,
        lo,
        hi,
        list.as_slice(),
        geom.layout(),
    ) {
        Ok(()) => {}
        Err(Scattered { runs }) => return Err(FileRefusal::Scattered { runs }),
    }
    draft.take(alloc, class_of(node.kind), list)?;
    Ok(())
}

/// These numbers come into the list: the first in the stead of the kept ones that bytes `lo` to `hi` touch, the
/// others behind all.
///
/// # Errors
/// The list would have more stretches of neighbours than a node of this layout has runs; it is as it was.
fn renew(
    draft: &Draft,
    places: &mut Runs,
    lo: u64,
    hi: u64,
    list: &[u32],
    layout: Layout,
) -> Result<(), Scattered>
    requires ordered { lo ≤ hi }
    requires size { hi ≤ largest_node }
    requires below { All (λ number. number < most_blocks) list.now }
    ensures exact { IsOk result ↔ (stretches (placed (is_kept draft.now.kept) lo hi places.old list.now) ≤ most_runs layout) }
    ensures ok { OnOk result (places.new ≡ placed (is_kept draft.now.kept) lo hi places.old list.now) }
    ensures runs { IfErr result (λ scattered. scattered.runs ≡ stretches (placed (is_kept draft.now.kept) lo hi places.old list.now)) }
{
    if draft.keeps_none() {
        return places.append(list, layout);
    }
    let from = (lo / BLOCK_LENGTH as u64) as u32;
    places.renew(from, blocks_for(hi), draft.kept(), list, layout)
}

/// The kept block in which byte `at` lies, where it isn't the first one of it.
pub(crate) fn edge(draft: &Draft, node: &OpenNode, at: u64) -> Option<u32>
    requires { at ≤ largest_node }
    ensures { result ≡ edge_of (is_kept draft.now.kept) at node.now.places }
{
    let place = (at / BLOCK_LENGTH as u64) as u32;
    if at % BLOCK_LENGTH as u64 == 0 || node.places.count() <= place {
        return None;
    }
    let block = node.places.place(place);
    if draft.keeps(block) {
        Some(block)
    } else {
        None
    }
}

/// The node's block in which byte `at` lies, one of its own, gets what the block of this number has, if one is
/// given.
///
/// # Errors
/// A read of the disk failed, which the disk has counted; or out of memory. The draft isn't to be used any
/// more then.
fn copy_edge<S: Blocks>(
    draft: &mut Draft,
    alloc: Global,
    blocks: &mut S,
    node: &OpenNode,
    at: u64,
    old: Option<u32>,
) -> Result<(), FileRefusal>
    requires going { (S.state blocks.old).books.stopped ≡ false }
    requires data { All (IsData (S.state blocks.old).books.geom) node.now.places }
    requires size { at ≤ largest_node }
    requires within { IfSome old (λ b. (at / 1024 < length node.now.places) × IsData (S.state blocks.old).books.geom b) }
    ensures copies { OnOk result (CopiesEdge S.tells (S.state blocks.old).map (class_of node.now.kind) (get_or node.now.places (at / 1024) 0) old
        draft.old draft.new) }
    ensures refused { IfErr result LookRefused }
    ensures looks { LooksOnly S.tells (fails_reading result) (S.state blocks.old) (S.state blocks.new) }
{
    let Some(old) = old else {
        return Ok(());
    };
    let mut block = ZEROS;
    draft.read(blocks, old, &mut block)?;
    let place = node.places.place((at / BLOCK_LENGTH as u64) as u32);
    draft.put(alloc, place, class_of(node.kind), &block)?;
    Ok(())
}

/// The node's blocks in which bytes `lo` and `hi` lie get what the blocks of these numbers have, as far as they
/// are given.
///
/// # Errors
/// As `copy_edge`.
pub(crate) fn copy_edges<S: Blocks>(
    draft: &mut Draft,
    alloc: Global,
    blocks: &mut S,
    node: &OpenNode,
    lo: u64,
    hi: u64,
    first: Option<u32>,
    last: Option<u32>,
) -> Result<(), FileRefusal>
    requires going { (S.state blocks.old).books.stopped ≡ false }
    requires data { All (IsData (S.state blocks.old).books.geom) node.now.places }
    requires low { lo ≤ largest_node }
    requires high { hi ≤ largest_node }
    requires first { IfSome first (λ b. (lo / 1024 < length node.now.places) × IsData (S.state blocks.old).books.geom b) }
    requires last { IfSome last (λ b. (hi / 1024 < length node.now.places) × IsData (S.state blocks.old).books.geom b) }
    ensures copies { OnOk result (CopiesEdges S.tells (S.state blocks.old).map lo hi first last node.now draft.old draft.new) }
    ensures refused { IfErr result LookRefused }
    ensures looks { LooksOnly S.tells (fails_reading result) (S.state blocks.old) (S.state blocks.new) }
{
    copy_edge(draft, alloc, blocks, node, lo, first)?;
    copy_edge(draft, alloc, blocks, node, hi, last)?;
    Ok(())
}

/// The `n` least numbers that may be taken.
///
/// # Errors
/// As `Blocks::lowest`.
fn lowest<S: Blocks>(
    alloc: Global,
    blocks: &mut S,
    n: u32,
    into: &mut Places,
) -> Result<(), FileRefusal>
    requires going { (S.state blocks.old).books.stopped ≡ false }
    requires turns { HasTurns (S.state blocks.old).books }
    ensures lowest { OnOk result (AreLowest n (S.state blocks.old).books (S.state blocks.new).books into.new) }
    ensures refused { IfErr result (λ why. (with_more : List ℕ → List ℕ) → GrowthRefused n with_more (S.state blocks.old).books
        (S.state blocks.new).books why) }
    ensures unread { fails_reading result ≡ false }
    ensures settles { LooksAndSettles S.tells false (fails_settling result) (S.state blocks.old) (S.state blocks.new) }
    ensures looks { n ≤ length (reusable_blocks (S.state blocks.old).books) → ChangesNothing S.tells (S.state blocks.old) (S.state blocks.new) }
{
    match blocks.lowest(alloc, n, into) {
        Ok(()) => Ok(()),
        Err(LowestRefusal::Short { need, reusable }) => Err(FileRefusal::Short { need, reusable }),
        Err(LowestRefusal::DiskFault) => Err(FileRefusal::DiskFault),
        Err(LowestRefusal::NoMemory) => Err(FileRefusal::NoMemory),
    }
}

/// The node keeps its first `count` blocks, and the others are to be freed but for those that snapshots keep.
///
/// # Errors
/// Out of memory. The draft isn't to be used any more then.
pub(crate) fn shrink(draft: &mut Draft, node: &mut OpenNode, count: u32) -> Result<(), NoMemory>
    ensures { OnOk result (ShrinksPlaces count node.old node.new draft.old draft.new) }
{
    for i in count..node.places.count() {
        let block = node.places.place(i);
        if !draft.keeps(block) {
            draft.free(block)?;
        }
    }
    node.places.cut(count);
    Ok(())
}
