//! What holds of snapshots. The functions do nothing; their clauses are the laws.

ghost use Rattle.std.specs.Prelude.{◌≡◌, ℕ, List, None, Some};
ghost use Rattle.std.specs.FinMap.{get, insert, remove};
ghost use Rattle.base_types.specs.Seal.{Blocks};
ghost use Rattle.layout_geometry.specs.Geometry.{Geometry, IsGeometry};
ghost use Rattle.lang_tree.specs.Tree.{Tree, Kept};
ghost use Rattle.crash_stands.specs.Files.{files_of};
ghost use Rattle.crash_stands.specs.Inodes.{inodes_of};
ghost use Rattle.crash_stands.specs.Kept.{kept_files};
ghost use Rattle.crash_stands.specs.Maps.{IsMapOf};
ghost use Rattle.crash_stands.specs.Stands.{IsTreeOf, KeepsTree};
ghost use Rattle.crash_snapshots.specs.Adding.{AddsSnapshot};
ghost use Rattle.crash_snapshots.specs.Kept.{HasSnapshot, without_snapshots};
ghost use Rattle.crash_snapshots.specs.Making.{CanHold, snapshot_of, with_blocks};
ghost use Rattle.crash_snapshots.specs.Taking.{TakesSnapshot};

use crash_stands::{
    a_map_is_of_one_tree, a_node_in_use_has_data_blocks, a_snapshot_stays_with_its_blocks,
    a_tree_that_stands_is_sound, files_have_one_map,
};

/// A snapshot has the files that the blocks had when it was made, other snapshots aside, and so it reads as
/// and keeps the paths and nodes of their tree.
pub fn a_snapshot_reads_as_the_blocks_did()
    ensures files { (g : Geometry) (old new : Blocks) (places : List ℕ) → HasSnapshot g old new places → (k : ℕ)
        → kept_files g new places k ≡ without_snapshots (files_of g old) k }
    ensures map { (g : Geometry) (old new : Blocks) (places : List ℕ) (t : Tree) → IsTreeOf g old t → HasSnapshot g old new places
        → IsMapOf g.i (inodes_of g.layout (kept_files g new places)) t }
    ensures tree { (g : Geometry) (old new : Blocks) (places : List ℕ) (t : Tree) (n : ℕ) → IsTreeOf g old t → HasSnapshot g old new places
        → KeepsTree g new places (record { number = n; names = t.names; nodes = t.nodes }) }
{
    a_node_in_use_has_data_blocks();
    a_map_is_of_one_tree();
    files_have_one_map();
}

/// A snapshot can be made of blocks whose node table is whole: once its blocks are written to as many other blocks, none
/// of them a file's, the blocks have it.
pub fn a_snapshot_can_be_made()
    ensures { (g : Geometry) (m : Blocks) (name places : List ℕ) → IsGeometry g → CanHold g m name places
        → HasSnapshot g m (with_blocks m places (snapshot_of g m name)) places }
{}

/// Blocks that have one snapshot more than others stand for the tree with it: it keeps the paths and nodes that the
/// tree has now.
pub fn a_snapshot_stands()
    ensures { (g : Geometry) (old new : Blocks) (t : Tree) (n : ℕ) (name places : List ℕ) → IsGeometry g → IsTreeOf g old t
        → get t.snapshots name ≡ None → AddsSnapshot g old new n name places
        → IsTreeOf g new (record t { snapshots = insert t.snapshots name (record { number = n; names = t.names; nodes = t.nodes }) }) }
{
    a_node_in_use_has_data_blocks();
    a_snapshot_stays_with_its_blocks();
}

/// Blocks that have one snapshot less than others stand for the tree without it: what other nodes have and other
/// snapshots keep stays.
pub fn a_snapshot_goes()
    ensures { (g : Geometry) (old new : Blocks) (t : Tree) (name : List ℕ) (k : Kept) → IsGeometry g → IsTreeOf g old t
        → get t.snapshots name ≡ Some k → TakesSnapshot g old new k.number
        → IsTreeOf g new (record t { snapshots = remove t.snapshots name }) }
{
    a_node_in_use_has_data_blocks();
    a_snapshot_stays_with_its_blocks();
    a_tree_that_stands_is_sound();
}
