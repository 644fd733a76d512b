//! One block of the formatted disk, by the area in which it lies.

ghost use Rattle.std.specs.Prelude.{◌≡◌, ◌<◌, ◌-◌, ◌++◌, replicate};
ghost use Rattle.layout_journal.specs.Formatted.{formatted, empty_header, empty_root};
ghost use Rattle.layout_journal.specs.Spelling.{header_block};
ghost use Rattle.layout_bytes.specs.Bitmap.{first_bits, first_bits_block};
ghost use Rattle.layout_bytes.specs.Node.{node_size, node_spelling};

use crate::{Header, write_header};
use base_types::limits::BLOCK_LENGTH;
use base_types::{Block, Layout, RunList, the_numbers_of_a_layout_go_together};
use layout_bytes::{Node, NodeKind};
use layout_geometry::Geom;
use layout_node::write_node;

/// How many bits a byte of the bitmap has.
const BITS_IN_BYTE: u32 = 8;

/// What block `b` has on a disk that was just formatted with this geometry. Past the disk's end these
/// are zeros.
pub fn formatted_block(geom: &Geom, b: u32) -> Block
    ensures { result ≡ formatted geom.now b }
{
    geom.lawful();
    if b == 0 {
        return first_header(geom);
    }
    if b < geom.bitmap_start() {
        return [0; BLOCK_LENGTH];
    }
    if b < geom.table_start() {
        return first_bits_block(geom.data_start(), b - geom.bitmap_start());
    }
    if b == geom.table_start() {
        return root_block(geom.layout());
    }
    [0; BLOCK_LENGTH]
}

/// The first header, under which the journal is empty.
fn first_header(geom: &Geom) -> Block
    ensures { result ≡ header_block (empty_header geom.now 1 1) }
{
    let header = Header {
        epoch: 1,
        turn: 1,
        start: 1,
        sure: 0,
        at: 0,
        closed: false,
        geom: *geom,
    };
    let mut block = [0; BLOCK_LENGTH];
    write_header(&header, &mut block);
    block
}

/// Block `k` of a bitmap in which the first blocks are set, so many of them, and no others.
fn first_bits_block(first: u32, k: u32) -> Block
    requires { k < 128 }
    ensures { result ≡ first_bits_block first k }
{
    let mut block = [0; BLOCK_LENGTH];
    for i in 0..BLOCK_LENGTH {
        block[i] = first_bits(first, BLOCK_LENGTH as u32 * k + i as u32);
    }
    block
}

/// Byte `i` of such a bitmap.
fn first_bits(first: u32, i: u32) -> u8
    requires { i < 131072 }
    ensures { result ≡ first_bits first i }
{
    let count = first.saturating_sub(BITS_IN_BYTE * i).min(BITS_IN_BYTE);
    ((1u16 << count) - 1) as u8
}

/// The block of the node table that has the root directory, and no other node in use.
fn root_block(layout: Layout) -> Block
    ensures { result ≡ node_spelling layout empty_root ++ replicate (1024 - node_size layout) 0 }
{
    the_numbers_of_a_layout_go_together();
    let root = Node {
        kind: NodeKind::Dir,
        links: 1,
        size: 0,
        runs: RunList::new(),
    };
    let mut block = [0; BLOCK_LENGTH];
    write_node(&root, &mut block[..layout.node_length()], layout);
    block
}
