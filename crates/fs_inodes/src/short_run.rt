//! Short runs, worked out on inode maps. The function does nothing but call laws.

ghost use Rattle.std.specs.Prelude.{◌≡◌, ℕ, List, [], ◌∷◌, codes, None, Some};
ghost use Rattle.lang_tree.specs.Step.{start};
ghost use Rattle.lang_tree.specs.Tree.{in_layout_one};
ghost use Rattle.crash_stands.specs.Inodes.{Inodes, ADir, AFile};
ghost use Rattle.crash_stands.specs.Maps.{IsMapOf};
ghost use Rattle.fs_inodes.specs.Changes.{slot_of};
ghost use Rattle.fs_inodes.specs.Examples.{after, short_run, run_of_moves};

use crate::tree::the_tree_is_lawful;

/// In an empty tree of at most 16 numbers, `/a` is made, and the file `/a/f` in it; the file gets the path
/// `/g`, which moves to `/a/h`; `/a/f` goes, and a byte is written. The tree after that is the one of a map
/// in which the root has a slot for node 2, node 2 one for node 3 in the place of the slot that went, and
/// node 3 is a file of one link and that byte.
///
/// In another one, the files `/f` and `/g` and the directory `/a` are made. `/f` moves to the free name `/h`,
/// then `/g` onto it, and `/h` to the free name `/a/f`. A file `/h` is made again, with the number of the one
/// that went, and moves onto `/a/f`. After that the root has a slot for node 4, node 4 has one for node 2, node
/// 2 is a file, and node 3 is gone.
pub fn short_runs_are_mapped()
    ensures map { (m : Inodes) × IsMapOf 16 m (after (start (in_layout_one 16)) short_run).tree
        × (m 1 ≡ Some (ADir (slot_of 2 (codes "a") ∷ []))) × (m 2 ≡ Some (ADir (slot_of 3 (codes "h") ∷ []))) × (m 3 ≡ Some (AFile 1 (120 ∷ []))) }
    ensures moves { (m : Inodes) × IsMapOf 16 m (after (start (in_layout_one 16)) run_of_moves).tree
        × (m 1 ≡ Some (ADir (slot_of 4 (codes "a") ∷ []))) × (m 4 ≡ Some (ADir (slot_of 2 (codes "f") ∷ []))) × (m 2 ≡ Some (AFile 1 [])) × (m 3 ≡ None) }
{
    the_tree_is_lawful();
}
