//! Walks in the inode map, and what stands where they lead. The functions do nothing but
//! call laws.

ghost use Rattle.std.specs.Prelude.{◌≡◌, ◌==◌, ℕ, ◌++◌, List, [], ◌∷◌, Ok, Some, option_map};
ghost use Rattle.layout_bytes.specs.declared.slot.Slot.{Slot};
ghost use Rattle.lang_tree.specs.Tree.{Tree};
ghost use Rattle.lang_tree.specs.Walk.{walk, walk_from, parent_refusal, thing_at, content};
ghost use Rattle.lang_tree.specs.Figures.{are_in_one};
ghost use Rattle.crash_stands.specs.Inodes.{Inodes, ADir, thing_of};
ghost use Rattle.crash_stands.specs.Walks.{node_in, LeadsTo};
ghost use Rattle.crash_stands.specs.Maps.{IsMapOf};
ghost use Rattle.fs_inodes.specs.Lookups.{bytes_of, walk_on, number_at, inode_at};
ghost use Rattle.fs_inodes.specs.Refusals.{parent_reason};

use crate::tree::the_tree_is_lawful;

/// A walk in the map comes to the same number as the walk in the tree, or is refused for the same reason:
/// from the root, and on from each path. It comes to its end exactly where the path leads there. A path
/// leads to what is under its last name in the directory above it.
pub fn walks_are_the_same()
    ensures walk { (limit : ℕ) (m : Inodes) (t : Tree) (path : List (List ℕ)) → IsMapOf limit m t → walk t path ≡ walk_on m 1 path }
    ensures on { (limit : ℕ) (m : Inodes) (t : Tree) (here rest : List (List ℕ)) (k : ℕ) → IsMapOf limit m t → LeadsTo m here k
        → walk_from t here k rest ≡ walk_on m k rest }
    ensures parent { (limit : ℕ) (m : Inodes) (t : Tree) (path : List (List ℕ)) → IsMapOf limit m t → parent_refusal t path ≡ parent_reason m path }
    ensures ends { (m : Inodes) (path : List (List ℕ)) (k : ℕ) → walk_on m 1 path ≡ Ok k → LeadsTo m path k }
    ensures leads { (m : Inodes) (path : List (List ℕ)) (k : ℕ) → LeadsTo m path k → walk_on m 1 path ≡ Ok k }
    ensures last { (m : Inodes) (up : List (List ℕ)) (name : List ℕ) (dir : ℕ) (slots : List Slot) → LeadsTo m up dir → m dir ≡ Some (ADir slots)
        → number_at m (up ++ name ∷ []) ≡ node_in slots name }
{
    the_tree_is_lawful();
}

/// What is at a path is what the inode there stands for, and its bytes are the inode's. Two paths lie in
/// one directory exactly where the paths above them lead to one number.
pub fn paths_lead_to_inodes()
    ensures node { (limit : ℕ) (m : Inodes) (t : Tree) (path : List (List ℕ)) → IsMapOf limit m t → thing_at t path ≡ option_map thing_of (inode_at m path) }
    ensures bytes { (limit : ℕ) (m : Inodes) (t : Tree) (path : List (List ℕ)) → IsMapOf limit m t → content t path ≡ bytes_of (inode_at m path) }
    ensures in_one { (limit : ℕ) (m : Inodes) (t : Tree) (up to : List (List ℕ)) (name other : List ℕ) (dir into : ℕ) (slots : List Slot)
        → IsMapOf limit m t → LeadsTo m up dir → LeadsTo m to into → m dir ≡ Some (ADir slots)
        → are_in_one (up ++ name ∷ []) (to ++ other ∷ []) ≡ (dir == into) }
{
    the_tree_is_lawful();
}
