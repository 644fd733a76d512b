//! The scan by which a tree is found in an inode map, and why no tree stands for a map that the scan finds
//! wrong. The functions do nothing but call laws.

ghost use Rattle.std.specs.Prelude.{◌≡◌, ◌≢◌, ◌++◌, ℕ, List, ◌∷◌, slice_get, None, Some};
ghost use Rattle.layout_bytes.specs.declared.slot.Slot.{Slot};
ghost use Rattle.lang_tree.specs.Tree.{Tree};
ghost use Rattle.crash_stands.specs.Inodes.{Inode, Inodes, ADir, AreDistinct};
ghost use Rattle.crash_stands.specs.Walks.{node_in};
ghost use Rattle.crash_stands.specs.Maps.{IsMapOf};
ghost use Rattle.fs_inodes.specs.Rules.{FollowsRules};
ghost use Rattle.fs_inodes.specs.Scan.{IsPartOf, IsThrough, SawAll, LinksFit};

use crate::tree::the_tree_is_lawful;

/// Where a tree stands for the map, no slot names the root or a node out of use, and no two slots of a
/// directory have one name; the next slot of a scan has a new name, and names no directory that was seen; and
/// a scan that is through saw each node in use, and counted the links that files have. So wherever one of
/// these fails, no tree stands for the map.
pub fn no_tree_stands_for_damage()
    ensures names_root { (limit : ℕ) (w : Inodes) (u : Tree) (dir i : ℕ) (slots : List Slot) (s : Slot) → IsMapOf limit w u
        → w dir ≡ Some (ADir slots) → slice_get slots i ≡ Some s → s.node ≢ 1 }
    ensures names_unused { (limit : ℕ) (w : Inodes) (u : Tree) (dir i : ℕ) (slots : List Slot) (s : Slot) → IsMapOf limit w u
        → w dir ≡ Some (ADir slots) → slice_get slots i ≡ Some s
        → (x : Inode) × (w s.node ≡ Some x) }
    ensures equal_names { (limit : ℕ) (w : Inodes) (u : Tree) (dir : ℕ) (slots : List Slot) → IsMapOf limit w u → w dir ≡ Some (ADir slots)
        → AreDistinct slots }
    ensures next_name { (limit : ℕ) (w : Inodes) (u : Tree) (dir : ℕ) (slots rest : List Slot) (s : Slot) → IsMapOf limit w u
        → w dir ≡ Some (ADir (slots ++ s ∷ rest)) → node_in slots s.name ≡ None }
    ensures named_twice { (limit : ℕ) (m w : Inodes) (t u : Tree) (dir : ℕ) (slots rest below : List Slot) (s : Slot) → IsMapOf limit m t
        → IsMapOf limit w u → IsPartOf m w
        → m dir ≡ Some (ADir slots) → w dir ≡ Some (ADir (slots ++ s ∷ rest)) → m s.node ≡ Some (ADir below) → ⊥ }
    ensures unreached { (limit : ℕ) (m w : Inodes) (t u : Tree) → IsMapOf limit m t → IsMapOf limit w u → IsPartOf m w → IsThrough m w → SawAll m w }
    ensures wrong_links { (limit : ℕ) (m w : Inodes) (t u : Tree) → IsMapOf limit m t → IsMapOf limit w u → IsPartOf m w → IsThrough m w → LinksFit m w }
{
    the_tree_is_lawful();
}

/// An inode map is that of a tree exactly where it follows the rules by slots: no more is asked of it than
/// docs/LAYOUT.md lists.
pub fn the_rules_make_a_tree()
    ensures tree { (limit : ℕ) (m : Inodes) → FollowsRules limit m → (t : Tree) × IsMapOf limit m t }
    ensures rules { (limit : ℕ) (m : Inodes) (t : Tree) → IsMapOf limit m t → FollowsRules limit m }
{
    the_tree_is_lawful();
}
