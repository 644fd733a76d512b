//! The value of a node of the node table, and what its size says of its content. How a node is in its bytes
//! is the definition `node_of`.

ghost use Rattle.std.specs.Prelude.{◌≡◌, ◌≤◌, ◌^◌};
ghost use Rattle.layout_bytes.specs.Node.{content_of, content_blocks, size_of};

use base_types::limits::{BLOCK_LENGTH, SIZE_OF_SLOT};
use base_types::{Layout, RunList, slots_lie_in_their_blocks};

/// What a node stands for.
#[derive(Clone, Copy)]
pub enum NodeKind {
    /// Nothing: the node isn't in use.
    Free,
    /// A directory.
    Dir,
    /// A file.
    File,
    /// A snapshot, which keeps the tree as it was.
    Snapshot,
}

/// A node: its kind, how many directory slots name it, its bytes, and the blocks that hold them.
#[derive(Drop)]
pub struct Node {
    pub kind: NodeKind,
    pub links: u32,
    pub size: u64,
    pub runs: RunList,
}

impl NodeKind {
    /// How many bytes of its blocks are the content of a node of this size.
    pub fn content(self, size: u64, layout: Layout) -> u64
        requires { size ≤ 2 ^ 38 }
        ensures { result ≡ content_of layout self size }
    {
        match self {
            NodeKind::Free => size,
            NodeKind::Dir => layout.content_size(size),
            NodeKind::File => size,
            NodeKind::Snapshot => size,
        }
    }

    /// How many blocks a node of this size has.
    pub fn blocks(self, size: u64, layout: Layout) -> u64
        ensures { result ≡ content_blocks layout self size }
    {
        slots_lie_in_their_blocks();
        match self {
            NodeKind::Free => size.div_ceil(BLOCK_LENGTH as u64),
            NodeKind::Dir => layout.directory_blocks(size / SIZE_OF_SLOT),
            NodeKind::File => size.div_ceil(BLOCK_LENGTH as u64),
            NodeKind::Snapshot => size.div_ceil(BLOCK_LENGTH as u64),
        }
    }

    /// The size of a node with so many bytes of content.
    pub fn size(self, content: u64, layout: Layout) -> u64
        requires { content ≤ 2 ^ 38 }
        ensures { result ≡ size_of layout self content }
    {
        match self {
            NodeKind::Free => content,
            NodeKind::Dir => SIZE_OF_SLOT * layout.slots_held(content),
            NodeKind::File => content,
            NodeKind::Snapshot => content,
        }
    }
}
