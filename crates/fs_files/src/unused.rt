//! The search for a node that isn't in use. A block of the node table is read once for all its nodes, and
//! whether one is in use is told by its kind byte alone. Nodes are read and written elsewhere.

ghost use Rattle.std.specs.Prelude.{◌≡◌, ◌≢◌, ◌≤◌, ◌<◌, ◌+◌, ◌*◌, ℕ, IsTrue, false, is_err, IfOk, IfErr, IfSome, IfNone};
ghost use Rattle.fs_files.specs.Calls.{LookRefused, AreUsed, IsFirstUnused};
ghost use Rattle.fs_files.specs.Content.{fails_reading};
ghost use Rattle.fs_files.specs.Drafts.{drafted};
ghost use Rattle.fs_files.specs.Effects.{LooksOnly};
ghost use Rattle.fs_files.specs.Nodes.{block_end, kind_in, node_block};
ghost use Rattle.fs_files.specs.Sound.{IsDraftOf};

use crate::FileRefusal;
use crate::draft::Draft;
use base_types::{
    Block, Layout, ReadFault, nodes_lie_in_their_blocks, the_numbers_of_a_layout_go_together,
};
use engine_blocks::Blocks;

/// The least number from `from` on of a node that isn't in use, with its block in `table`. `None` where
/// there is none. Each block of the node table from that of node `from` on is read once.
///
/// # Errors
/// A read of the disk failed, which the disk has counted.
pub(crate) fn least_unused<S: Blocks>(
    draft: &Draft,
    blocks: &mut S,
    from: u32,
    table: &mut Block,
) -> Result<Option<u32>, FileRefusal>
    requires going { (S.state blocks.old).books.stopped ≡ false }
    requires above_zero { 1 ≤ from }
    requires draft { IsDraftOf S.tells (S.state blocks.old) draft.now }
    ensures found { IsTrue S.tells → IfOk result
        (λ found. IfSome found (λ number. IsFirstUnused (S.state blocks.old).books.geom (drafted draft.now (S.state blocks.old).map) from number
        × (table.new ≡ drafted draft.now (S.state blocks.old).map (node_block (S.state blocks.old).books.geom number)))) }
    ensures none { IsTrue S.tells → IfOk result
        (λ found. IfNone found (AreUsed (S.state blocks.old).books.geom (drafted draft.now (S.state blocks.old).map) from
        ((S.state blocks.old).books.geom.i + 1))) }
    ensures number { IfOk result (λ found. IfSome found (λ number. (1 ≤ number) × (number ≤ (S.state blocks.old).books.geom.i))) }
    ensures refused { IfErr result LookRefused }
    ensures looks { LooksOnly S.tells (fails_reading result) (S.state blocks.old) (S.state blocks.new) }
{
    let geom = blocks.geom();
    geom.lawful();
    let limit = geom.i();
    let layout = geom.layout();
    let mut number = from;
    while number <= limit {
        let found = unused_in_block(draft, blocks, number, table)?;
        match found {
            Some(first) => return Ok(Some(first)),
            None => number = block_end(number, layout),
        }
    }
    Ok(None)
}

/// Reads into `table` the block that node `number` is in, and finds the first node from that one on in this
/// block that isn't in use. `None` where there is none.
///
/// # Errors
/// A read of the disk failed, which the disk has counted.
fn unused_in_block<S: Blocks>(
    draft: &Draft,
    blocks: &mut S,
    number: u32,
    table: &mut Block,
) -> Result<Option<u32>, ReadFault>
    requires going { (S.state blocks.old).books.stopped ≡ false }
    requires above_zero { 1 ≤ number }
    requires in_table { number ≤ (S.state blocks.old).books.geom.i }
    requires draft { IsDraftOf S.tells (S.state blocks.old) draft.now }
    ensures found { IsTrue S.tells → IfOk result
        (λ found. IfSome found (λ unused. IsFirstUnused (S.state blocks.old).books.geom (drafted draft.now (S.state blocks.old).map) number unused
        × (table.new ≡ drafted draft.now (S.state blocks.old).map (node_block (S.state blocks.old).books.geom unused)))) }
    ensures none { IsTrue S.tells → IfOk result
        (λ found. IfNone found (AreUsed (S.state blocks.old).books.geom (drafted draft.now (S.state blocks.old).map) number
        (block_end (S.state blocks.old).books.geom.layout number))) }
    ensures number { IfOk result (λ found. IfSome found (λ unused. (number ≤ unused) × (unused ≤ (S.state blocks.old).books.geom.i))) }
    ensures looks { LooksOnly S.tells (is_err result) (S.state blocks.old) (S.state blocks.new) }
{
    let geom = blocks.geom();
    geom.lawful();
    let (block, _) = geom.node_place(number);
    draft.read(blocks, block, table)?;
    let layout = geom.layout();
    let end = block_end(number, layout);
    let first = first_without_kind(table, number, end, layout);
    if first < end {
        return Ok(Some(first));
    }
    Ok(None)
}

/// The first number behind those of the nodes in the block of node `number`.
fn block_end(number: u32, layout: Layout) -> u32
    requires above_zero { 1 ≤ number }
    requires few { number ≤ 65536 }
    ensures { result ≡ block_end layout number }
{
    layout.nodes_before(layout.node_block(number) + 1) + 1
}

/// The first node from `from` on whose kind byte is zero in these bytes of their block, or `end` where no node
/// before it has such a byte.
fn first_without_kind(table: &Block, from: u32, end: u32, layout: Layout) -> u32
    requires above_zero { 1 ≤ from }
    requires ordered { from ≤ end }
    ensures low { from ≤ result }
    ensures high { result ≤ end }
    ensures before { (l : ℕ) → from ≤ l → l < result → kind_in layout table.now l ≢ 0 }
    ensures here { result < end → kind_in layout table.now result ≡ 0 }
{
    for number in from..end {
        if kind_byte(table, number, layout) == 0 {
            return number;
        }
    }
    end
}

/// The kind byte of node `number` in these bytes of its block.
fn kind_byte(table: &Block, number: u32, layout: Layout) -> u8
    requires { 1 ≤ number }
    ensures { result ≡ kind_in layout table.now number }
{
    the_numbers_of_a_layout_go_together();
    nodes_lie_in_their_blocks();
    table[layout.node_byte(number) as usize]
}
