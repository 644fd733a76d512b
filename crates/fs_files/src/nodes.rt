//! The nodes of the node table as a draft has them: reading one with its block, and writing it back. Its
//! content is read and written elsewhere.

ghost use Rattle.std.specs.Prelude.{◌≡◌, ◌≤◌, ◌<◌, ◌%◌, ◌^◌, ℕ, false, IsTrue, is_err, IfOk, IfSome, OnOk, OnErr, option_map, length, slice_index};
ghost use Rattle.base_types.specs.declared.words.Class.TheVariants.{Meta};
ghost use Rattle.base_types.specs.Layouts.{most_runs, node_byte, node_size};
ghost use Rattle.layout_extent.specs.Runs.{AreTidy, LieBelow, most_blocks};
ghost use Rattle.layout_bytes.specs.declared.node.NodeKind.TheVariants.{Dir};
ghost use Rattle.layout_bytes.specs.Node.{content_of, node_of, node_spelling, FitsAs};
ghost use Rattle.crash_stands.specs.Files.{used_node};
ghost use Rattle.fs_files.specs.Bytes.{overwrite};
ghost use Rattle.fs_files.specs.Drafts.{drafted, PutsBlock};
ghost use Rattle.fs_files.specs.Effects.{LooksOnly};
ghost use Rattle.fs_files.specs.Frames.{ReadsBack};
ghost use Rattle.fs_files.specs.Nodes.{largest_node, node_of_open, node_block, HasTable, IsOpen};

use crate::draft::Draft;
use base_types::{Block, Class, Layout, NoMemory, ReadFault, RunList, nodes_lie_in_their_blocks};
use engine_blocks::Blocks;
use layout_extent::{Runs, a_list_has_its_runs, tidy_runs_are_those_of_their_numbers};
use layout_geometry::Geom;
use layout_node::{
    Node, NodeKind, a_free_node_is_zeros, a_node_that_fits_has_a_spelling, a_spelling_has_one_node,
    nodes_in_use_are_read, read_node, write_node,
};
use std::alloc::Global;

/// A node in use with the list of its blocks, and with the number of its bytes in the place of what its size says.
#[derive(Drop)]
pub(crate) struct OpenNode {
    pub kind: NodeKind,
    pub links: u32,
    pub size: u64,
    pub places: Runs,
}

impl OpenNode {
    /// The node as the node table has it.
    pub(crate) fn to_node(&self, layout: Layout) -> Node
        requires { self.now.size ≤ largest_node }
        ensures { result ≡ node_of_open layout self.now }
    {
        Node {
            kind: self.kind,
            links: self.links,
            size: self.kind.size(self.size, layout),
            runs: copy_runs(self.places.list()),
        }
    }
}

/// The same runs once more. This takes no memory.
fn copy_runs(list: &RunList) -> RunList
    ensures { result ≡ list.now }
{
    let mut runs = RunList::new();
    for run in list.as_slice() {
        runs.push(*run);
    }
    runs
}

/// Reads node `number`, and into `table` the block that it is in. `None` where it isn't in use.
///
/// # Errors
/// A read of the disk failed, which the disk has counted.
pub(crate) fn load<S: Blocks>(
    draft: &Draft,
    blocks: &mut S,
    number: u32,
    table: &mut Block,
) -> Result<Option<OpenNode>, ReadFault>
    requires going { (S.state blocks.old).books.stopped ≡ false }
    requires above_zero { 1 ≤ number }
    requires in_table { number ≤ (S.state blocks.old).books.geom.i }
    ensures node { IsTrue S.tells → HasTable (S.state blocks.old) draft.now number
        → IfOk result (λ found. option_map (node_of_open (S.state blocks.old).books.geom.layout) found
        ≡ used_node (S.state blocks.old).books.geom (drafted draft.now (S.state blocks.old).map)
        number) }
    ensures table { IsTrue S.tells → HasTable (S.state blocks.old) draft.now number
        → OnOk result (table.new ≡ drafted draft.now (S.state blocks.old).map (node_block (S.state blocks.old).books.geom number)) }
    ensures open { IfOk result (λ found. IfSome found (IsOpen (S.state blocks.old).books.geom)) }
    ensures looks { LooksOnly S.tells (is_err result) (S.state blocks.old) (S.state blocks.new) }
{
    nodes_lie_in_their_blocks();
    let geom = blocks.geom();
    geom.lawful();
    let (block, at) = geom.node_place(number);
    draft.read(blocks, block, table)?;
    let at = at as usize;
    let end = at + geom.layout().node_length();
    Ok(open_node(&table[at..end], &geom))
}

/// The node in use in these bytes, if they are one's.
pub(crate) fn open_node(bytes: &[u8], geom: &Geom) -> Option<OpenNode>
    requires { length bytes.now ≡ node_size geom.now.layout }
    ensures node { option_map (node_of_open geom.now.layout) result ≡ node_of geom.now bytes.now }
    ensures open { IfSome result (IsOpen geom.now) }
{
    geom.lawful();
    byte_ranges(bytes);
    nodes_in_use_are_read();
    a_list_has_its_runs();
    let Ok(node) = read_node(bytes, geom) else {
        return None;
    };
    let layout = geom.layout();
    // Each arm returns, so that the node is made in the place of the answer.
    match node.kind {
        NodeKind::Free => return None,
        NodeKind::Dir => return Some(opened(node, layout)),
        NodeKind::File => return Some(opened(node, layout)),
        NodeKind::Snapshot => return Some(opened(node, layout)),
    }
}

/// The node with the list of its blocks.
fn opened(node: Node, layout: Layout) -> OpenNode
    requires tidy { AreTidy node.runs }
    requires below { LieBelow most_blocks node.runs }
    requires few { node.size ≤ 2 ^ 38 }
    requires slots { node.kind ≡ Dir → node.size % 64 ≡ 0 }
    ensures node { node_of_open layout result ≡ node }
    ensures size { result.size ≡ content_of layout node.kind node.size }
{
    tidy_runs_are_those_of_their_numbers();
    OpenNode {
        kind: node.kind,
        links: node.links,
        size: node.kind.content(node.size, layout),
        places: Runs::of(node.runs),
    }
}

// Each byte is below 256.
fn byte_ranges(bytes: &[u8])
    ensures { (i : ℕ) → slice_index bytes.now i < 256 }
{}

/// Writes node `number` into its block, of which `table` has the bytes now, and puts that into the draft. It has no
/// more runs than its layout has room for.
///
/// # Errors
/// Out of memory; then the draft is as before.
pub(crate) fn store(
    draft: &mut Draft,
    alloc: Global,
    geom: &Geom,
    number: u32,
    node: &Node,
    table: &mut Block,
) -> Result<(), NoMemory>
    requires above_zero { 1 ≤ number }
    requires in_table { number ≤ geom.now.i }
    requires few { length node.now.runs ≤ most_runs geom.now.layout }
    ensures ok { OnOk result (PutsBlock (node_block geom.now number)
        (record { class = Meta; bytes = overwrite (node_byte geom.now.layout number) (node_spelling geom.now.layout node.now) table.old })
        draft.old draft.new) }
    ensures back { FitsAs geom.now node.now node.now.kind → ReadsBack geom.now node.now }
    ensures err { OnErr result (draft.new ≡ draft.old) }
{
    geom.lawful();
    nodes_in_use_are_read();
    a_spelling_has_one_node();
    a_free_node_is_zeros();
    a_node_that_fits_has_a_spelling();
    nodes_lie_in_their_blocks();
    links_range(node);
    let layout = geom.layout();
    let (block, at) = geom.node_place(number);
    let at = at as usize;
    let end = at + layout.node_length();
    write_node(node, &mut table[at..end], layout);
    draft.put(alloc, block, Class::Meta, table)
}

// Its links are a number of 32 bits.
fn links_range(node: &Node)
    ensures { node.now.links < 256 ^ 4 }
{
    word_range(node.links);
}

// A number of 32 bits is below 256^4.
fn word_range(n: u32)
    ensures { n < 256 ^ 4 }
{}
