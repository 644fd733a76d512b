//! What holds of inode maps: which one blocks read as, which tree has one, and what its slots name. The
//! functions do nothing; their clauses are the laws.

ghost use Rattle.std.specs.Prelude.{◌≡◌, ◌≢◌, ◌<◌, ◌≤◌, ◌++◌, ℕ, List, [], ◌∷◌, length, slice_get, Some, option_and_then};
ghost use Rattle.base_types.specs.Runs.{run_places};
ghost use Rattle.base_types.specs.declared.layout.Layout.{Layout};
ghost use Rattle.base_types.specs.Seal.{Blocks};
ghost use Rattle.layout_geometry.specs.Geometry.{Geometry, data_start};
ghost use Rattle.layout_bytes.specs.Node.{content_blocks};
ghost use Rattle.layout_bytes.specs.declared.node.Node.{Node};
ghost use Rattle.layout_bytes.specs.declared.node.NodeKind.TheVariants.{Free, Snapshot};
ghost use Rattle.layout_bytes.specs.declared.slot.Slot.{Slot};
ghost use Rattle.crash_stands.specs.Files.{FileNode, Files, files_of, used_node};
ghost use Rattle.crash_stands.specs.Inodes.{Inode, Inodes, ADir, AreInodesOf, inode_of, inodes_of, root_alone};
ghost use Rattle.crash_stands.specs.Maps.{IsMapOf};
ghost use Rattle.crash_stands.specs.Stands.{IsTreeOf};
ghost use Rattle.crash_stands.specs.Walks.{Entries, walk};
ghost use Rattle.lang_tree.specs.Step.{start};
ghost use Rattle.lang_tree.specs.Tree.{Bounds, Tree, IsSound};

/// An inode map is that of one tree at most, snapshots aside, and the tree is sound. A map that is the same
/// everywhere is that of the same tree. The root alone is the map of the tree that a session starts with.
pub fn a_map_is_of_one_tree()
    ensures one { (limit : ℕ) (m : Inodes) (t u : Tree) → IsMapOf limit m t → IsMapOf limit m u → (t.names ≡ u.names) × (t.nodes ≡ u.nodes) }
    ensures sound { (limit : ℕ) (m : Inodes) (t : Tree) → IsMapOf limit m t → IsSound limit t }
    ensures alike { (limit : ℕ) (m w : Inodes) (t : Tree) → ((k : ℕ) → m k ≡ w k) → IsMapOf limit m t → IsMapOf limit w t }
    ensures root { (limit : Bounds) → 1 ≤ limit.nodes → IsMapOf limit.nodes root_alone (start limit).tree }
{}

/// In the map of a tree each slot names a node in use and never the root, and two slots that name one directory
/// are one slot.
pub fn slots_name_nodes_in_use()
    ensures root { (limit : ℕ) (m : Inodes) (t : Tree) → IsMapOf limit m t → (k i : ℕ) (slots : List Slot) (s : Slot) → m k ≡ Some (ADir slots)
        → slice_get slots i ≡ Some s → s.node ≢ 1 }
    ensures used { (limit : ℕ) (m : Inodes) (t : Tree) → IsMapOf limit m t → (k i : ℕ) (slots : List Slot) (s : Slot) → m k ≡ Some (ADir slots)
        → slice_get slots i ≡ Some s → (x : Inode) × (m s.node ≡ Some x) }
    ensures once { (limit : ℕ) (m : Inodes) (t : Tree) → IsMapOf limit m t → (k l i j n : ℕ) (slots others below : List Slot) (s u : Slot)
        → m k ≡ Some (ADir slots) → m l ≡ Some (ADir others)
        → slice_get slots i ≡ Some s → slice_get others j ≡ Some u → s.node ≡ n → u.node ≡ n → m n ≡ Some (ADir below) → (k ≡ l) × (i ≡ j) }
{}

/// A walk by a path with one name more is the walk, and then what is under that name.
pub fn a_walk_goes_on()
    ensures last { (e : Entries) (k : ℕ) (up : List (List ℕ)) (name : List ℕ) → walk e k (up ++ name ∷ []) ≡ option_and_then (λ j. e j name) (walk e k up) }
{}

/// The map that the blocks of a tree read as is that of the tree. All their nodes in use read but for snapshots,
/// and no inode has a number outside the geometry's.
pub fn blocks_have_a_map()
    ensures map { (g : Geometry) (b : Blocks) (m : Inodes) (t : Tree) → AreInodesOf g.layout (files_of g b) m → IsTreeOf g b t → IsMapOf g.i m t }
    ensures reads { (g : Geometry) (b : Blocks) (t : Tree) (k : ℕ) (file : FileNode) → IsTreeOf g b t → files_of g b k ≡ Some file → file.kind ≢ Snapshot
        → (x : Inode) × (inode_of g.layout file ≡ Some x) }
    ensures within { (g : Geometry) (b : Blocks) (m : Inodes) → AreInodesOf g.layout (files_of g b) m → (k : ℕ) (x : Inode) → m k ≡ Some x → (1 ≤ k) × (k ≤ g.i) }
{}

/// A node in use has a number of the geometry's and isn't free, and its blocks are data blocks, as many as its content
/// needs.
pub fn a_node_in_use_has_data_blocks()
    ensures number { (g : Geometry) (b : Blocks) (k : ℕ) (node : Node) → used_node g b k ≡ Some node → (1 ≤ k) × (k ≤ g.i) }
    ensures kind { (g : Geometry) (b : Blocks) (k : ℕ) (node : Node) → used_node g b k ≡ Some node → node.kind ≢ Free }
    ensures within { (g : Geometry) (b : Blocks) (k : ℕ) (node : Node) → used_node g b k ≡ Some node → (i p : ℕ)
        → slice_get (run_places node.runs) i ≡ Some p → (data_start g ≤ p) × (p < g.n) }
    ensures count { (g : Geometry) (b : Blocks) (k : ℕ) (node : Node) → used_node g b k ≡ Some node
        → length (run_places node.runs) ≡ content_blocks g.layout node.kind node.size }
{}

/// Files read as one inode map, the one that each node in use reads as. They read as it exactly where each
/// node in use that is no snapshot reads as an inode.
pub fn files_have_one_map()
    ensures one { (l : Layout) (files : Files) (m : Inodes) → AreInodesOf l files m → (k : ℕ) → m k ≡ inodes_of l files k }
    ensures read { (l : Layout) (files : Files) → ((k : ℕ) (file : FileNode) → files k ≡ Some file → file.kind ≢ Snapshot → (x : Inode) × (inode_of l file ≡ Some x))
        → AreInodesOf l files (inodes_of l files) }
{}
