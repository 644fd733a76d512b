//! The names of a directory, and what commands answer, from inodes. The functions do nothing but call
//! laws.

ghost use Rattle.std.specs.Prelude.{◌≡◌, ℕ, false, List, map, length, Some};
ghost use Rattle.std.specs.List.Sorted.{IsPermutation, IsSorted};
ghost use Rattle.std.specs.Ordering.{nat_cmp};
ghost use Rattle.std.specs.Cmp.Lexicographic.{slice_cmp};
ghost use Rattle.layout_bytes.specs.declared.slot.Slot.{Slot};
ghost use Rattle.lang_tree.specs.declared.command.Cmd.{Cmd};
ghost use Rattle.lang_tree.specs.declared.command.Look.{Look};
ghost use Rattle.lang_tree.specs.Tree.{Tree};
ghost use Rattle.lang_tree.specs.Conditions.{least_unused, look_refusal};
ghost use Rattle.lang_tree.specs.Names.{names_in};
ghost use Rattle.lang_tree.specs.Points.{answers_point};
ghost use Rattle.lang_tree.specs.Step.{Session, step, stat, seen};
ghost use Rattle.crash_stands.specs.Inodes.{Inodes, ADir};
ghost use Rattle.crash_stands.specs.Maps.{IsMapOf};
ghost use Rattle.crash_stands.specs.Walks.{LeadsTo};
ghost use Rattle.fs_inodes.specs.Lookups.{slots_of, inode_at};
ghost use Rattle.fs_inodes.specs.Names.{names_of, stat_in};
ghost use Rattle.fs_inodes.specs.Refusals.{look_reason};
ghost use Rattle.fs_inodes.specs.Replies.{reply_of, shown};

use crate::tree::the_tree_is_lawful;

/// The tree has the names of a directory's slots there, in their order: the list that sorting them gives.
/// There are as many as slots; at a path that leads to no directory there are none.
pub fn the_map_gives_the_names()
    ensures names { (limit : ℕ) (m : Inodes) (t : Tree) (path : List (List ℕ)) (dir : ℕ) (slots : List Slot) → IsMapOf limit m t → LeadsTo m path dir
        → m dir ≡ Some (ADir slots) → names_in t.names path ≡ names_of slots }
    ensures sorted { (limit : ℕ) (m : Inodes) (t : Tree) (path : List (List ℕ)) (dir : ℕ) (slots : List Slot) (names : List (List ℕ))
        → IsMapOf limit m t → LeadsTo m path dir → m dir ≡ Some (ADir slots)
        → IsPermutation (map (λ s. s.name) slots) names → IsSorted (slice_cmp nat_cmp) names → names_in t.names path ≡ names }
    ensures count { (limit : ℕ) (m : Inodes) (t : Tree) (path : List (List ℕ)) → IsMapOf limit m t
        → length (names_in t.names path) ≡ length (slots_of (inode_at m path)) }
{
    the_tree_is_lawful();
}

/// A stat answers what the inode at the path is; and each command that answers no sync point answers what inodes give:
/// that it is refused and why, or its bytes, names or numbers, or that it is done; and what snapshots give. A look at
/// what a snapshot keeps is refused and answered by the inode map of the tree that it keeps.
pub fn the_map_gives_the_reply()
    ensures stat { (limit : ℕ) (m : Inodes) (t : Tree) (path : List (List ℕ)) → IsMapOf limit m t → stat t path ≡ stat_in m path }
    ensures looks { (limit : ℕ) (m : Inodes) (t : Tree) (l : Look) → IsMapOf limit m t → (look_refusal t l ≡ look_reason m l) × (seen t l ≡ shown m l) }
    ensures reply { (s : Session) (m : Inodes) (cmd : Cmd) → IsMapOf s.limit.nodes m s.tree → answers_point cmd ≡ false
        → (step s cmd).1 ≡ reply_of s.limit.layout (least_unused s.limit.nodes s.tree) s.tree.snapshots m cmd }
{
    the_tree_is_lawful();
}
