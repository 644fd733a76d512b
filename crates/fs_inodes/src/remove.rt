//! What the loss of a path makes of the inode map. The function does nothing but call laws.

ghost use Rattle.std.specs.Prelude.{◌≡◌, ◌++◌, ℕ, List, [], ◌∷◌, None};
ghost use Rattle.lang_tree.specs.declared.command.Cmd.TheVariants.{Unlink, Rmdir};
ghost use Rattle.lang_tree.specs.Conditions.{refusal};
ghost use Rattle.lang_tree.specs.Step.{Session, step};
ghost use Rattle.crash_stands.specs.Inodes.{Inodes};
ghost use Rattle.crash_stands.specs.Maps.{IsMapOf};
ghost use Rattle.crash_stands.specs.Walks.{LeadsTo};
ghost use Rattle.fs_inodes.specs.Changes.{TakesSlot};

use crate::tree::the_tree_is_lawful;

/// An unlink or rmdir that isn't refused: the slot goes and the last one comes into the hole; a directory
/// goes, and a file has one link less or goes with its last one.
pub fn a_lost_path_is_mapped()
    ensures unlink { (s : Session) (m new : Inodes) (up : List (List ℕ)) (name : List ℕ) (dir node : ℕ) → IsMapOf s.limit.nodes m s.tree
        → refusal s.limit s.tree (Unlink (up ++ name ∷ [])) ≡ None
        → LeadsTo m up dir → TakesSlot m new dir node name → IsMapOf s.limit.nodes new (step s (Unlink (up ++ name ∷ []))).0.tree }
    ensures rmdir { (s : Session) (m new : Inodes) (up : List (List ℕ)) (name : List ℕ) (dir node : ℕ) → IsMapOf s.limit.nodes m s.tree
        → refusal s.limit s.tree (Rmdir (up ++ name ∷ [])) ≡ None
        → LeadsTo m up dir → TakesSlot m new dir node name → IsMapOf s.limit.nodes new (step s (Rmdir (up ++ name ∷ []))).0.tree }
{
    the_tree_is_lawful();
}
