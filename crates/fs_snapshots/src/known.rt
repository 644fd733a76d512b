//! Laws of what is known of snapshots: by counts of their blocks and by names. The functions do nothing; their clauses
//! are the laws.

ghost use Rattle.std.specs.Prelude.{◌≡◌, ◌↔◌, ℕ, List, true, option_map};
ghost use Rattle.std.specs.FinMap.{get};
ghost use Rattle.base_types.specs.Seal.{Blocks};
ghost use Rattle.layout_geometry.specs.Geometry.{Geometry};
ghost use Rattle.lang_tree.specs.Tree.{Kept, Tree};
ghost use Rattle.crash_stands.specs.Sharing.{IsKeptBlock};
ghost use Rattle.crash_stands.specs.Stands.{IsTreeOf};
ghost use Rattle.fs_files.specs.Shared.{is_kept};
ghost use Rattle.fs_files.specs.Sound.{TellsKept};
ghost use Rattle.fs_snapshots.specs.Known.{CountsKeepers, keeps_block, snapshot_number};

use crash_stands::a_node_in_use_has_data_blocks;

/// Counts of how many snapshots keep each block tell which blocks are kept. A node is counted for a block just where it
/// is a snapshot that keeps it. Where blocks stand for a tree the number of a snapshot by its name is the one that the
/// tree has.
pub fn what_is_known_of_snapshots_is_so()
    ensures kept { (g : Geometry) (m : Blocks) (counts : List ℕ) → CountsKeepers g m counts → TellsKept g (is_kept counts) m }
    ensures each { (g : Geometry) (m : Blocks) (b k : ℕ) → (keeps_block g m b k ≡ true) ↔ ((is : IsKeptBlock g m b) × (is.snapshot ≡ k)) }
    ensures named { (g : Geometry) (m : Blocks) (t : Tree) (name : List ℕ) → IsTreeOf g m t
        → snapshot_number g m name ≡ option_map (λ (k : Kept). k.number) (get t.snapshots name) }
{
    a_node_in_use_has_data_blocks();
}
