//! What was found along a path gives what inodes say of it: where a walk along it comes to, what is at it, and
//! the numbers from which figures are counted. The functions do nothing but call laws.

ghost use Rattle.std.specs.Prelude.{◌≡◌, ◌≢◌, ◌++◌, ◌∷◌, [], ℕ, List, true, false, length, Option, Some, None, Result, Ok};
ghost use Rattle.base_types.specs.declared.layout.Layout.{Layout};
ghost use Rattle.layout_bytes.specs.declared.slot.Slot.{Slot};
ghost use Rattle.layout_bytes.specs.declared.node.NodeKind.TheVariants.{Dir, File};
ghost use Rattle.lang_tree.specs.declared.command.Refusal.{Refusal};
ghost use Rattle.lang_tree.specs.Tree.{Tree};
ghost use Rattle.crash_stands.specs.Files.{FileNode, Files};
ghost use Rattle.crash_stands.specs.Inodes.{Inodes, ADir, inode_of, inodes_of};
ghost use Rattle.crash_stands.specs.Maps.{IsMapOf};
ghost use Rattle.crash_stands.specs.Walks.{LeadsTo};
ghost use Rattle.fs_inodes.specs.Lookups.{walk_on, number_at, inode_at};
ghost use Rattle.fs_inodes.specs.Figures.{slots_above};
ghost use Rattle.fs_inodes.specs.Refusals.{parent_reason};
ghost use Rattle.fs_files.specs.Calls.{facts_of};
ghost use Rattle.fs_files.specs.Nodes.{AreWholeSlots};
ghost use Rattle.fs_commands.specs.declared.paths.Entry.{Entry};
ghost use Rattle.fs_commands.specs.declared.paths.Spot.{Spot};
ghost use Rattle.fs_commands.specs.declared.paths.Spot.TheVariants.{Inside};
ghost use Rattle.fs_commands.specs.Figures.{HasFacts};
ghost use Rattle.fs_commands.specs.Looks.{ComesTo, ShowsFacts, number_of, walk_of};

use fs_inodes::{slots_follow_the_bytes, walks_are_the_same};

/// What a path comes to gives where a walk along it comes to, the number at it, and the slots of the directory
/// above it. Where it comes to a spot, something can come to be at it.
pub(crate) fn what_a_path_comes_to_gives_the_walk()
    ensures walk { (l : Layout) (files : Files) (path : List (List ℕ)) (spot : Result Spot Refusal) → ComesTo l files path spot
        → walk_on (inodes_of l files) 1 path ≡ walk_of spot }
    ensures parent { (l : Layout) (files : Files) (path : List (List ℕ)) (spot : Spot) → ComesTo l files path (Ok spot)
        → parent_reason (inodes_of l files) path ≡ None }
    ensures number { (l : Layout) (files : Files) (path : List (List ℕ)) (spot : Spot) → ComesTo l files path (Ok spot)
        → number_at (inodes_of l files) path ≡ number_of spot }
    ensures slots { (l : Layout) (files : Files) (path : List (List ℕ)) (dir count : ℕ) (entry : Option Entry)
        → ComesTo l files path (Ok (Inside dir count entry))
        → count ≡ slots_above (inodes_of l files) path }
{
    walks_are_the_same();
}

/// The inode at a path is the one that the node there reads as. So what is known of the node but for its bytes
/// is what inodes say of the path, where a tree stands.
pub(crate) fn the_node_at_a_path_gives_the_inode()
    ensures inode { (l : Layout) (files : Files) (path : List (List ℕ)) (k : ℕ) (x : FileNode) → LeadsTo (inodes_of l files) path k → files k ≡ Some x
        → inode_at (inodes_of l files) path ≡ inode_of l x }
    ensures facts { (l : Layout) (limit : ℕ) (files : Files) (t : Tree) (path : List (List ℕ)) (k : ℕ) (x : FileNode) → IsMapOf limit (inodes_of l files) t
        → LeadsTo (inodes_of l files) path k → files k ≡ Some x
        → (x.kind ≡ Dir → AreWholeSlots l (length x.bytes)) → ShowsFacts (inodes_of l files) path (facts_of x) }
{
    slots_follow_the_bytes();
}
