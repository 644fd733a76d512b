//! Laws of a node and its bytes, as functions that do nothing: each clause is a law. They are described in
//! docs/LAYOUT.md.

ghost use Rattle.std.specs.Prelude.{◌≡◌, ◌↔◌, ◌<◌, ◌^◌, ℕ, true, List, length, replicate, slice_index, None, Some};
ghost use Rattle.layout_geometry.specs.Geometry.{Geometry, geometry_fits};
ghost use Rattle.layout_bytes.specs.declared.node.Node.{Node};
ghost use Rattle.layout_bytes.specs.declared.node.NodeKind.TheVariants.{Free};
ghost use Rattle.layout_bytes.specs.Node.{FitsAs, IsNode, free_node, node_of, node_size, node_spelling};

use layout_bytes::fields_tell_their_bytes;

/// Bytes are the spelling of one node at most, and there are as many as a node has.
pub fn a_spelling_has_one_node()
    ensures one { (g : Geometry) (b : List ℕ) (m n : Node) → IsNode g b m → IsNode g b n → m ≡ n }
    ensures size { (g : Geometry) (b : List ℕ) (n : Node) → IsNode g b n → length b ≡ node_size g.layout }
{}

/// A list of as many bytes as a node has reads as a node in use exactly where it is that node's spelling. It reads as none
/// where it is no node's, or a free one's.
pub fn nodes_in_use_are_read()
    ensures read { (g : Geometry) (b : List ℕ) (n : Node) → length b ≡ node_size g.layout → ((i : ℕ) → slice_index b i < 256)
        → (node_of g b ≡ Some n) ↔ (IsNode g b n × (n.kind ≡ Free → ⊥)) }
    ensures none { (g : Geometry) (b : List ℕ) → length b ≡ node_size g.layout → ((i : ℕ) → slice_index b i < 256)
        → ((n : Node) → IsNode g b n → ⊥) → node_of g b ≡ None }
    ensures free { (g : Geometry) (b : List ℕ) (n : Node) → length b ≡ node_size g.layout → ((i : ℕ) → slice_index b i < 256)
        → IsNode g b n → n.kind ≡ Free → node_of g b ≡ None }
{
    fields_tell_their_bytes();
}

/// The spelling of a free node is zeros, and zeros are that of the free node.
pub fn a_free_node_is_zeros()
    ensures zeros { (g : Geometry) (b : List ℕ) (n : Node) → IsNode g b n → n.kind ≡ Free → b ≡ replicate (node_size g.layout) 0 }
    ensures free { (g : Geometry) → IsNode g (replicate (node_size g.layout) 0) free_node }
{}

/// A node that fits a disk is in its spelling. Its links must have room in four bytes, since a
/// directory's have no other limit.
pub fn a_node_that_fits_has_a_spelling()
    ensures { (g : Geometry) (n : Node) → geometry_fits g ≡ true → FitsAs g n n.kind → n.links < 256 ^ 4 → IsNode g (node_spelling g.layout n) n }
{}
