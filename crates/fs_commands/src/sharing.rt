//! How many of a file's blocks snapshots keep: of those that a command's bytes touch, and of those that a file gives
//! up. Where there is no snapshot nothing is read for it. What a command needs and frees is counted elsewhere.

ghost use Rattle.std.specs.Prelude.{◌≡◌, ◌≤◌, ◌<◌, ◌-◌, ℕ, IsTrue, length, IfOk, IfErr};
ghost use Rattle.std.specs.List.{filter, range_with_len};
ghost use Rattle.lang_tree.specs.Sharing.{alone_from};
ghost use Rattle.fs_files.specs.Calls.{LookRefused};
ghost use Rattle.fs_files.specs.Content.{fails_reading};
ghost use Rattle.fs_files.specs.Effects.{LooksOnly};
ghost use Rattle.fs_dirs.specs.Directories.{IsNumber};
ghost use Rattle.fs_commands.specs.Figures.{HasSize, KeepsResized, LosesBlocks, MeetsKept, kept_places};
ghost use Rattle.fs_session.specs.Commands.{places_of};
ghost use Rattle.fs_session.specs.Sessions.{MayBegin};

use crate::begins::a_draft_may_begin;
use crate::paths::NodeFound;
use base_types::limits::{BLOCK_LENGTH, LARGEST_FILE};
use engine_blocks::Blocks;
use fs_files::{Draft, FileRefusal, Shared, a_file_has_its_blocks};
use lang_tree::blocks_for;
use std::alloc::Global;

/// Bytes of a block.
const BLOCK: u32 = BLOCK_LENGTH as u32;

/// How many of `count` blocks of node `number`, from the place `from` on, snapshots keep.
///
/// # Errors
/// A read of the disk failed, which the disk has counted.
fn kept_blocks<S: Blocks>(
    alloc: Global,
    blocks: &mut S,
    number: u32,
    from: u32,
    count: u32,
    shared: &Shared,
) -> Result<u32, FileRefusal>
    requires begin { MayBegin S.tells (S.state blocks.old) shared.now }
    requires number { IsNumber (S.state blocks.old).books.geom.i number }
    ensures kept { IsTrue S.tells → IfOk result (λ kept.
        kept ≡ length (filter (kept_places shared.now (places_of (S.state blocks.old) number)) (range_with_len from count))) }
    ensures rest { IsTrue S.tells → IfOk result (λ kept. alone_from (kept_places shared.now (places_of (S.state blocks.old) number)) from count
        ≡ count - kept) }
    ensures most { IfOk result (λ kept. kept ≤ count) }
    ensures refused { IfErr result LookRefused }
    ensures looks { LooksOnly S.tells (fails_reading result) (S.state blocks.old) (S.state blocks.new) }
{
    a_draft_may_begin(blocks);
    if shared.is_empty() {
        return Ok(0);
    }
    let draft = Draft::beside(alloc, shared);
    match draft.open(blocks, number)? {
        Some(file) => Ok(file.blocks.kept_in(shared, from, count)),
        None => Ok(0),
    }
}

/// How many of the blocks of node `number` that its bytes from `lo` up to `hi` touch snapshots keep.
///
/// # Errors
/// A read of the disk failed, which the disk has counted.
pub(crate) fn kept_met<S: Blocks>(
    alloc: Global,
    blocks: &mut S,
    number: u32,
    lo: u32,
    hi: u32,
    shared: &Shared,
) -> Result<u32, FileRefusal>
    requires begin { MayBegin S.tells (S.state blocks.old) shared.now }
    requires number { IsNumber (S.state blocks.old).books.geom.i number }
    requires hi { hi ≤ 1073741824 }
    ensures met { IsTrue S.tells → IfOk result (MeetsKept (S.state blocks.old) shared.now number lo hi) }
    ensures few { IfOk result (λ met. met ≤ 1048576) }
    ensures refused { IfErr result LookRefused }
    ensures looks { LooksOnly S.tells (fails_reading result) (S.state blocks.old) (S.state blocks.new) }
{
    a_draft_may_begin(blocks);
    a_file_has_its_blocks::<S>();
    let from = lo / BLOCK;
    let count = blocks_for(hi).saturating_sub(from);
    kept_blocks(alloc, blocks, number, from, count, shared)
}

/// How many of the blocks of a file of `old` bytes that change where it gets `new` ones snapshots keep: those that its
/// new bytes touch, or those that it gives up.
///
/// # Errors
/// A read of the disk failed, which the disk has counted.
pub(crate) fn kept_resized<S: Blocks>(
    alloc: Global,
    blocks: &mut S,
    number: u32,
    old: u32,
    new: u32,
    shared: &Shared,
) -> Result<u32, FileRefusal>
    requires begin { MayBegin S.tells (S.state blocks.old) shared.now }
    requires number { IsNumber (S.state blocks.old).books.geom.i number }
    requires old { old ≤ 1073741824 }
    requires new { new ≤ 1073741824 }
    ensures kept { IsTrue S.tells → IfOk result (λ kept. HasSize (S.state blocks.old) number old
        → KeepsResized (S.state blocks.old) shared.now number new kept) }
    ensures few { IfOk result (λ kept. kept ≤ 1048576) }
    ensures refused { IfErr result LookRefused }
    ensures looks { LooksOnly S.tells (fails_reading result) (S.state blocks.old) (S.state blocks.new) }
{
    if old < new {
        return kept_met(alloc, blocks, number, old, new, shared);
    }
    let from = blocks_for(new);
    let count = blocks_for(old).saturating_sub(from);
    kept_blocks(alloc, blocks, number, from, count, shared)
}

/// How many blocks go with one link of a node: its own that no snapshot keeps, where the link is the last one.
///
/// # Errors
/// A read of the disk failed, which the disk has counted.
pub(crate) fn blocks_gone<S: Blocks>(
    alloc: Global,
    blocks: &mut S,
    node: &NodeFound,
    shared: &Shared,
) -> Result<u32, FileRefusal>
    requires begin { MayBegin S.tells (S.state blocks.old) shared.now }
    requires number { IsNumber (S.state blocks.old).books.geom.i node.now.number }
    ensures gone { IsTrue S.tells → node.now.facts.size ≤ 1073741824 → IfOk result (LosesBlocks (S.state blocks.old) shared.now node.now) }
    ensures few { IfOk result (λ gone. gone ≤ 1048576) }
    ensures refused { IfErr result LookRefused }
    ensures looks { LooksOnly S.tells (fails_reading result) (S.state blocks.old) (S.state blocks.new) }
{
    if node.facts.links != 1 {
        return Ok(0);
    }
    let count = blocks_for(node.facts.size.min(LARGEST_FILE) as u32);
    let kept = kept_blocks(alloc, blocks, node.number, 0, count, shared)?;
    Ok(count - kept)
}
