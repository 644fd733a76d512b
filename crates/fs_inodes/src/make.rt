//! What a new directory, a new file and another path of a file make of the inode map. The functions do
//! nothing but call laws.

ghost use Rattle.std.specs.Prelude.{◌≡◌, ◌+◌, ◌++◌, ℕ, List, [], ◌∷◌, None, Some};
ghost use Rattle.lang_tree.specs.declared.command.Cmd.TheVariants.{Mkdir, Create, Link};
ghost use Rattle.lang_tree.specs.Tree.{Dir, File};
ghost use Rattle.lang_tree.specs.Conditions.{least_unused, refusal};
ghost use Rattle.lang_tree.specs.Step.{Session, step};
ghost use Rattle.crash_stands.specs.Inodes.{Inodes, AFile};
ghost use Rattle.crash_stands.specs.Maps.{IsMapOf};
ghost use Rattle.crash_stands.specs.Walks.{LeadsTo};
ghost use Rattle.fs_inodes.specs.Changes.{new_inode, AddsSlot};

use crate::tree::the_tree_is_lawful;

/// A mkdir or create that isn't refused: a slot comes behind the last one of the parent, and the least
/// unused number is a directory without slots, or a file without bytes and with one link.
pub fn a_new_node_is_mapped()
    ensures mkdir { (s : Session) (m new : Inodes) (up : List (List ℕ)) (name : List ℕ) (dir node : ℕ) → IsMapOf s.limit.nodes m s.tree
        → refusal s.limit s.tree (Mkdir (up ++ name ∷ [])) ≡ None
        → LeadsTo m up dir → least_unused s.limit.nodes s.tree ≡ Some node → AddsSlot m new dir node name (new_inode Dir)
        → IsMapOf s.limit.nodes new (step s (Mkdir (up ++ name ∷ []))).0.tree }
    ensures create { (s : Session) (m new : Inodes) (up : List (List ℕ)) (name : List ℕ) (dir node : ℕ) → IsMapOf s.limit.nodes m s.tree
        → refusal s.limit s.tree (Create (up ++ name ∷ [])) ≡ None
        → LeadsTo m up dir → least_unused s.limit.nodes s.tree ≡ Some node → AddsSlot m new dir node name (new_inode (File []))
        → IsMapOf s.limit.nodes new (step s (Create (up ++ name ∷ []))).0.tree }
{
    the_tree_is_lawful();
}

/// A link that isn't refused: a slot comes behind the last one of the parent of the new path, and the file
/// that it names has one link more.
pub fn a_new_path_is_mapped()
    ensures link { (s : Session) (m new : Inodes) (path up : List (List ℕ)) (name : List ℕ) (dir node links : ℕ) (bytes : List ℕ)
        → IsMapOf s.limit.nodes m s.tree → refusal s.limit s.tree (Link path (up ++ name ∷ [])) ≡ None
        → LeadsTo m path node → m node ≡ Some (AFile links bytes) → LeadsTo m up dir → AddsSlot m new dir node name (AFile (links + 1) bytes)
        → IsMapOf s.limit.nodes new (step s (Link path (up ++ name ∷ []))).0.tree }
{
    the_tree_is_lawful();
}
