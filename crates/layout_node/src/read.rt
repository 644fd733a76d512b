//! Reading a node: bytes are refused unless they are the one spelling of a node that fits a disk of this
//! geometry. Whether blocks belong to one node alone is described by the check of a whole tree.

ghost use Rattle.std.specs.Prelude.{◌≡◌, ◌≤◌, ◌+◌, ◌*◌, ◌&&◌, ◌==◌, not, nat_lt, nat_le, length, IfOk, OnErr};
ghost use Rattle.std.specs.Option.{ok_or};
ghost use Rattle.base_types.specs.Layouts.{most_runs, node_size};
ghost use Rattle.layout_extent.specs.Runs.{AreTidy, LieBelow, most_blocks};
ghost use Rattle.layout_geometry.specs.Geometry.{data_start};
ghost use Rattle.layout_bytes.specs.Bytes.{field};
ghost use Rattle.layout_bytes.specs.declared.node.Node.{Node};
ghost use Rattle.layout_bytes.specs.Node.{IsNode, free_node, used_kind, node_of, node_fields, node_fits, runs_in, runs_fit, run_blocks, kind_fits, spare_zeros};

use crate::sizes::{RUN_LENGTH, RUNS_AT, SPARE_AT};
use base_types::limits::{LARGEST_FILE, MOST_LINKS, SIZE_OF_SLOT};
use base_types::{Layout, Run, RunList, the_numbers_of_a_layout_go_together};
use layout_bytes::{
    Node, NodeKind, are_zeros, fields_tell_their_bytes, has_zeros, number_2, number_4, number_8,
};
use layout_geometry::Geom;
use std::error::Error;
use std::fmt;

/// The bytes are no node's: no node that fits the geometry is spelled so.
#[derive(Clone, Copy, Debug)]
pub struct BadNode;

impl fmt::Display for BadNode {
    fn fmt<W: fmt::Write>(&self, f: &mut fmt::Formatter<W>) -> fmt::Result {
        write!(f, "no node has these bytes")
    }
}

impl Error for BadNode {}

/// The node that is in these bytes, on a disk of this geometry. A free node is in zeros. This takes no
/// memory.
///
/// # Errors
/// The bytes are the spelling of no node: there are not as many as a node has, a number is out of its limits, the runs don't
/// fit the size or the disk, or a byte that carries nothing isn't zero.
pub fn read_node(bytes: &[u8], geom: &Geom) -> Result<Node, BadNode>
    ensures found { IfOk result (λ node. IsNode geom.now bytes.now node) }
    ensures refused { OnErr result ((node : Node) → IsNode geom.now bytes.now node → ⊥) }

    // The runs are what `Runs::of` of layout_extent asks for.
    ensures tidy { IfOk result (λ node. AreTidy node.runs) }
    ensures below { IfOk result (λ node. LieBelow most_blocks node.runs) }
{
    geom.lawful();
    fields_tell_their_bytes();
    let layout = geom.layout();
    let length = layout.node_length();
    if bytes.len() != length {
        return Err(BadNode);
    }
    if are_zeros(bytes) {
        return Ok(free_node());
    }
    used_node(bytes, geom)
}

/// A node that isn't in use.
fn free_node() -> Node
    ensures { result ≡ free_node }
{
    Node {
        kind: NodeKind::Free,
        links: 0,
        size: 0,
        runs: RunList::new(),
    }
}

/// The node in use in these bytes, if they are one's. What is read is made in the place of the answer.
#[tactic(auto, using(crate::proofs::ReadRuns::too_many), unfolding(layout_bytes::specs::Node::node_of))]
fn used_node(bytes: &[u8], geom: &Geom) -> Result<Node, BadNode>
    requires { length bytes.now ≡ node_size geom.now.layout }
    ensures { result ≡ ok_or (node_of geom.now bytes.now) (record {}) }
{
    the_numbers_of_a_layout_go_together();
    let layout = geom.layout();
    let Some(kind) = used_kind(bytes[0]) else {
        return Err(BadNode);
    };
    let count = usize::from(number_2(bytes, 2));
    if count > layout.most_runs() {
        return Err(BadNode);
    }
    if !has_spare_zeros(bytes, count, layout) {
        return Err(BadNode);
    }
    let node = node_fields(kind, count, bytes, layout);
    if !node_fits(&node, geom) {
        return Err(BadNode);
    }
    Ok(node)
}

fn used_kind(number: u8) -> Option<NodeKind>
    ensures { result ≡ used_kind number }
{
    match number {
        1 => Some(NodeKind::Dir),
        2 => Some(NodeKind::File),
        3 => Some(NodeKind::Snapshot),
        _ => None,
    }
}

/// Whether the bytes that carry nothing are zeros, where there are `count` runs.
fn has_spare_zeros(bytes: &[u8], count: usize, layout: Layout) -> bool
    requires size { length bytes.now ≡ node_size layout }
    requires few { count ≤ most_runs layout }
    requires count { count ≡ field bytes.now 2 2 }
    ensures { result ≡ spare_zeros layout bytes.now }
{
    the_numbers_of_a_layout_go_together();
    if bytes[1] != 0 {
        return false;
    }
    if !has_zeros(bytes, SPARE_AT, RUNS_AT) {
        return false;
    }
    has_zeros(bytes, RUNS_AT + RUN_LENGTH * count, layout.node_length())
}

/// The fields of a node with `count` runs.
fn node_fields(kind: NodeKind, count: usize, bytes: &[u8], layout: Layout) -> Node
    requires size { length bytes.now ≡ node_size layout }
    requires few { count ≤ most_runs layout }
    requires count { count ≡ field bytes.now 2 2 }
    ensures { result ≡ node_fields kind bytes.now }
{
    the_numbers_of_a_layout_go_together();
    Node {
        kind,
        links: number_4(bytes, 4),
        size: number_8(bytes, 8),
        runs: runs_in(count, &bytes[RUNS_AT..]),
    }
}

/// The first `count` runs in these bytes.
fn runs_in(count: usize, bytes: &[u8]) -> RunList
    requires few { count ≤ 60 }
    requires within { 8 * count ≤ length bytes.now }
    ensures { result ≡ runs_in count bytes.now }
{
    let mut runs = RunList::new();
    for k in 0..count {
        let at = RUN_LENGTH * k;
        runs.push(run_in(&bytes[at..at + RUN_LENGTH]));
    }
    runs
}

/// The run in these bytes.
fn run_in(bytes: &[u8]) -> Run
    requires { length bytes.now ≡ 8 }
    ensures { result ≡ record { first = field bytes.now 0 4; count = field bytes.now 4 4 } }
{
    Run {
        first: number_4(bytes, 0),
        count: number_4(bytes, 4),
    }
}

/// Whether a node in use is within the limits of its kind and of the disk.
fn node_fits(node: &Node, geom: &Geom) -> bool
    ensures { result ≡ node_fits geom.now node.now }
{
    let layout = geom.layout();
    let runs = node.runs.as_slice();
    if node.links == 0 {
        return false;
    }
    if runs.len() > layout.most_runs() {
        return false;
    }
    if !runs_fit(runs, geom) {
        return false;
    }
    if run_blocks(runs) != node.kind.blocks(node.size, layout) {
        return false;
    }
    kind_fits(node)
}

fn kind_fits(node: &Node) -> bool
    ensures { result ≡ kind_fits node.now node.now.kind }
{
    match node.kind {
        NodeKind::Free => true,
        NodeKind::Dir => node.size % SIZE_OF_SLOT == 0,
        NodeKind::File => node.links <= MOST_LINKS && node.size <= LARGEST_FILE,
        NodeKind::Snapshot => true,
    }
}

/// Whether each run has blocks, all of them data blocks, and none begins right behind the one before.
fn runs_fit(runs: &[Run], geom: &Geom) -> bool
    ensures { result ≡ runs_fit geom.now 0 runs.now }
{
    let mut end = 0;
    for run in runs {
        if !run_fits(run, end, geom) {
            return false;
        }
        end = run_end(run);
    }
    true
}

/// Whether a run has blocks, all of them data blocks, and doesn't begin at block `end`.
fn run_fits(run: &Run, end: u64, geom: &Geom) -> bool
    ensures { result ≡ (nat_lt 0 run.now.count &&
        (nat_le (data_start geom.now) run.now.first && (nat_le (run.now.first + run.now.count) geom.now.n && not (run.now.first == end)))) }
{
    if run.count == 0 {
        return false;
    }
    if run.first < geom.data_start() {
        return false;
    }
    if run_end(run) > u64::from(geom.n()) {
        return false;
    }
    u64::from(run.first) != end
}

/// The block behind a run.
fn run_end(run: &Run) -> u64
    ensures { result ≡ run.now.first + run.now.count }
{
    u64::from(run.first) + u64::from(run.count)
}

/// How many blocks the runs have.
fn run_blocks(runs: &[Run]) -> u64
    requires { length runs.now ≤ 60 }
    ensures { result ≡ run_blocks runs.now }
{
    let mut blocks = 0;
    for run in runs {
        blocks += u64::from(run.count);
    }
    blocks
}
