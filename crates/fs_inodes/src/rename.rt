//! What a move makes of the inode map. The function does nothing but call laws.

ghost use Rattle.std.specs.Prelude.{◌≡◌, ◌++◌, ℕ, List, [], ◌∷◌, None};
ghost use Rattle.lang_tree.specs.declared.command.Cmd.TheVariants.{Rename};
ghost use Rattle.lang_tree.specs.Conditions.{refusal};
ghost use Rattle.lang_tree.specs.Step.{Session, step};
ghost use Rattle.crash_stands.specs.Inodes.{Inodes};
ghost use Rattle.crash_stands.specs.Maps.{IsMapOf};
ghost use Rattle.crash_stands.specs.Walks.{LeadsTo};
ghost use Rattle.fs_inodes.specs.Changes.{MovesSlot};

use crate::tree::the_tree_is_lawful;

/// A move that isn't refused, between paths of two nodes. The second directory has a slot for the node under
/// the second name: in the stead of the one that stood there, or behind the last one. Then the first slot goes
/// and the last one comes into its hole; so within one directory, to a free name, the slot only changes its
/// name. What was at the second path has one link less or goes. With the slots all below comes along, and
/// nothing of it changes. A move between two paths of one node changes nothing
/// (`what_changes_nothing_keeps_the_map`).
pub fn a_move_is_mapped()
    ensures rename { (s : Session) (m new : Inodes) (up to : List (List ℕ)) (name other : List ℕ) (from into node : ℕ) → IsMapOf s.limit.nodes m s.tree
        → refusal s.limit s.tree (Rename (up ++ name ∷ []) (to ++ other ∷ [])) ≡ None
        → LeadsTo m up from → LeadsTo m to into → MovesSlot m new from into node name other
        → IsMapOf s.limit.nodes new (step s (Rename (up ++ name ∷ []) (to ++ other ∷ []))).0.tree }
{
    the_tree_is_lawful();
}
