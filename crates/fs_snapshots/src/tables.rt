//! A block of a node table: how many blocks the directories among its first nodes have. Which block it is, and
//! where the directories' blocks are, is known elsewhere.

ghost use Rattle.std.specs.Prelude.{◌≡◌, ◌≤◌, ◌*◌, length};
ghost use Rattle.base_types.specs.Layouts.{node_size, nodes_in_block};
ghost use Rattle.layout_bytes.specs.Node.{node_of};
ghost use Rattle.crash_stands.specs.Places.{dir_blocks, dirs_from};
ghost use Rattle.fs_snapshots.specs.Tables.{nodes_in};

use base_types::Block;
use fs_files::node_in;
use layout_bytes::NodeKind;
use layout_geometry::Geom;

/// How many blocks the directories among the first `count` nodes in this block have.
pub(crate) fn dirs_in(table: &Block, geom: &Geom, count: u32) -> u32
    requires { count ≤ nodes_in_block geom.now.layout }
    ensures value { result ≡ dirs_from geom.now.layout (nodes_in geom.now table.now) 1 count }
    ensures most { result ≤ 4 * 62914560 }
{
    let layout = geom.layout();
    let mut total = 0;
    for i in 0..count {
        let at = layout.rank_byte(i);
        let end = at + layout.node_length();
        total += dir_blocks(&table[at..end], geom);
    }
    total
}

/// How many blocks of directories the node in these bytes has.
fn dir_blocks(bytes: &[u8], geom: &Geom) -> u32
    requires { length bytes.now ≡ node_size geom.now.layout }
    ensures value { result ≡ dir_blocks geom.now.layout (node_of geom.now bytes.now) }
    ensures most { result ≤ 62914560 }
{
    let Some(file) = node_in(bytes, geom) else {
        return 0;
    };
    match file.facts.kind {
        NodeKind::Free => 0,
        NodeKind::Dir => file.blocks.count(),
        NodeKind::File => 0,
        NodeKind::Snapshot => 0,
    }
}
