//! What holds of the snapshots of blocks that stand for a tree, and how long blocks stand for it. The functions
//! do nothing; their clauses are the laws. How a snapshot is made is described by crash_snapshots.

ghost use Rattle.std.specs.Prelude.{◌≡◌, ◌↔◌, ◌<◌, ◌≤◌, ℕ, true, not, ◌&&◌, IsTrue, List, Some, is_none, find};
ghost use Rattle.std.specs.FinMap.{get, empty};
ghost use Rattle.std.specs.List.{range_with_len};
ghost use Rattle.base_types.specs.Runs.{run_places};
ghost use Rattle.base_types.specs.Seal.{Blocks};
ghost use Rattle.layout_geometry.specs.Geometry.{Geometry, IsGeometry, data_start};
ghost use Rattle.layout_bytes.specs.declared.node.Node.{Node};
ghost use Rattle.layout_bytes.specs.declared.node.NodeKind.TheVariants.{Snapshot};
ghost use Rattle.layout_bytes.specs.Bitmap.{is_set};
ghost use Rattle.layout_journal.specs.Run.{is_live};
ghost use Rattle.lang_tree.specs.Conditions.{is_snapshot, least_unused};
ghost use Rattle.lang_tree.specs.Tree.{Tree, Kept};
ghost use Rattle.crash_stands.specs.Files.{files_of, used_node};
ghost use Rattle.crash_stands.specs.Kept.{kept_files, HaveSameSnapshot};
ghost use Rattle.crash_stands.specs.Sharing.{HasKeptBlock, IsKeptBlock, IsSoundKept};
ghost use Rattle.crash_stands.specs.Stands.{HasBlock, AreSound, HasNoSnapshots, KeepsTree, IsTreeOf};

use lang_tree::numbers_of_snapshots_are_in_the_map;

/// Blocks that have the live blocks of a map stand for each tree for which that map stands: its snapshots are in
/// live blocks too.
pub fn a_tree_stands_by_its_live_blocks()
    ensures { (g : Geometry) (m n : Blocks) (t : Tree) → IsGeometry g → ((b : ℕ) → IsTrue (is_live g m b) → n b ≡ m b) → IsTreeOf g m t
        → IsTreeOf g n t }
{}

/// A snapshot keeps its files, its paths and its nodes, and stays sound, as long as its own blocks and those of its
/// files stay. Those of a snapshot of sound blocks are among the marked ones.
pub fn a_snapshot_stays_with_its_blocks()
    ensures files { (g : Geometry) (m n : Blocks) (places : List ℕ) → IsGeometry g → HaveSameSnapshot g m n places → (k : ℕ)
        → kept_files g n places k ≡ kept_files g m places k }
    ensures tree { (g : Geometry) (m n : Blocks) (places : List ℕ) (k : Kept) → IsGeometry g → HaveSameSnapshot g m n places
        → KeepsTree g m places k → KeepsTree g n places k }
    ensures sound { (g : Geometry) (m n : Blocks) (places : List ℕ) → IsGeometry g → HaveSameSnapshot g m n places
        → IsSoundKept g m places → IsSoundKept g n places }
    ensures blocks { (g : Geometry) (m n : Blocks) (places : List ℕ) → IsGeometry g → HaveSameSnapshot g m n places → (k i b : ℕ)
        → HasKeptBlock g n places k i b ↔ HasKeptBlock g m places k i b }
    ensures marked { (g : Geometry) (m n : Blocks) → AreSound g m
        → ((b : ℕ) → data_start g ≤ b → b < g.n → is_set g m b ≡ true → n b ≡ m b)
        → (k : ℕ) (node : Node) → used_node g m k ≡ Some node → node.kind ≡ Snapshot → HaveSameSnapshot g m n (run_places node.runs) }
{}

/// A snapshot keeps the paths and nodes of one tree at most.
pub fn a_snapshot_keeps_one_tree()
    ensures { (g : Geometry) (m : Blocks) (places : List ℕ) (k l : Kept) → KeepsTree g m places k → KeepsTree g m places l
        → (k.names ≡ l.names) × (k.nodes ≡ l.nodes) }
{}

/// A number is unused in a tree that blocks stand for exactly where no node in use has it: so the least unused
/// number is the least of these.
pub fn unused_numbers_are_those_of_no_node()
    ensures unused { (g : Geometry) (m : Blocks) (t : Tree) → IsTreeOf g m t → (n : ℕ)
        → is_none (files_of g m n) ≡ (is_none (get t.nodes n) && not (is_snapshot t.snapshots n)) }
    ensures least { (g : Geometry) (m : Blocks) (t : Tree) → IsTreeOf g m t
        → least_unused g.i t ≡ find (λ n. is_none (files_of g m n)) (range_with_len 1 g.i) }
{
    numbers_of_snapshots_are_in_the_map();
}

/// Where no node is a snapshot no block is shared: no snapshot keeps one, and of the data just the blocks of
/// nodes are marked. So it is where blocks stand for a tree without snapshots.
pub fn without_snapshots_nothing_is_shared()
    ensures none { (g : Geometry) (m : Blocks) → HasNoSnapshots g m → (b : ℕ) → IsKeptBlock g m b → ⊥ }
    ensures marked { (g : Geometry) (m : Blocks) → HasNoSnapshots g m → AreSound g m → (b : ℕ) → data_start g ≤ b → b < g.n
        → IsTrue (is_set g m b) ↔ ((k : ℕ) × (i : ℕ) × HasBlock g m k i b) }
    ensures tree { (g : Geometry) (m : Blocks) (t : Tree) → IsTreeOf g m t → t.snapshots ≡ empty → HasNoSnapshots g m }
{}
