//! What holds of snapshots that are read. The functions do nothing; their clauses are the laws.

ghost use Rattle.std.specs.Prelude.{◌≡◌, ℕ, List, Some, length};
ghost use Rattle.std.specs.List.{All};
ghost use Rattle.base_types.specs.Runs.{run_places};
ghost use Rattle.base_types.specs.Seal.{Blocks};
ghost use Rattle.layout_geometry.specs.Geometry.{Geometry};
ghost use Rattle.layout_bytes.specs.declared.node.Node.{Node};
ghost use Rattle.layout_bytes.specs.declared.node.NodeKind.TheVariants.{Snapshot};
ghost use Rattle.layout_bytes.specs.Node.{content_of};
ghost use Rattle.lang_tree.specs.Tree.{Kept, kept_tree};
ghost use Rattle.engine_blocks.specs.Puts.{IsData};
ghost use Rattle.crash_stands.specs.Files.{used_node};
ghost use Rattle.crash_stands.specs.Inodes.{inodes_of};
ghost use Rattle.crash_stands.specs.Kept.{kept_file, kept_nodes};
ghost use Rattle.crash_stands.specs.Maps.{IsMapOf};
ghost use Rattle.crash_stands.specs.Stands.{AreSound, KeepsTree};
ghost use Rattle.fs_snapshots.specs.Kept.{HasItsParts, IsWholeKept, kept_map};

use crash_stands::{a_map_is_of_one_tree, files_have_one_map};

/// The nodes that a snapshot keeps have the inode map of the tree that it keeps. So what is answered of the map of
/// those that are read is answered as in that tree.
pub fn kept_nodes_have_the_map_of_their_tree()
    ensures { (g : Geometry) (m : Blocks) (places : List ℕ) (k : Kept) → KeepsTree g m places k
        → IsMapOf g.i (inodes_of g.layout (kept_map g m places).files) (kept_tree k) }
{
    a_map_is_of_one_tree();
    files_have_one_map();
}

/// Where blocks are sound, what a snapshot keeps may be read once it was gone
/// through: its places are blocks of the data, it is whole, it has as many blocks as its parts need, and each kept node
/// has as many bytes as its size tells.
pub fn a_sound_snapshot_is_whole()
    ensures data { (g : Geometry) (m : Blocks) (k : ℕ) (node : Node) → used_node g m k ≡ Some node → All (IsData g) (run_places node.runs) }
    ensures whole { (g : Geometry) (m : Blocks) (k : ℕ) (node : Node) → AreSound g m → used_node g m k ≡ Some node → node.kind ≡ Snapshot
        → IsWholeKept g m (run_places node.runs) }
    ensures parts { (g : Geometry) (m : Blocks) (k : ℕ) (node : Node) → AreSound g m → used_node g m k ≡ Some node → node.kind ≡ Snapshot
        → HasItsParts g m (run_places node.runs) }
    ensures bytes { (g : Geometry) (m : Blocks) (k : ℕ) (node : Node) → AreSound g m → used_node g m k ≡ Some node → node.kind ≡ Snapshot
        → (l : ℕ) (file : Node) → kept_nodes g m (run_places node.runs) l ≡ Some file
        → length (kept_file g m (run_places node.runs) l file).bytes ≡ content_of g.layout file.kind file.size }
{}
