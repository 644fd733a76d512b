//! What commands make of an inode map whose directories may have their names in any order. The function does
//! nothing but call laws.

ghost use Rattle.std.specs.Prelude.{◌≡◌, ◌+◌, ◌++◌, ℕ, List, [], ◌∷◌, None, Some};
ghost use Rattle.lang_tree.specs.declared.command.Cmd.TheVariants.{Mkdir, Create, Link, Unlink, Rmdir, Rename};
ghost use Rattle.lang_tree.specs.Tree.{Dir, File};
ghost use Rattle.lang_tree.specs.Conditions.{least_unused, refusal};
ghost use Rattle.lang_tree.specs.Step.{Session, step};
ghost use Rattle.crash_stands.specs.Inodes.{Inodes, AFile};
ghost use Rattle.crash_stands.specs.Maps.{IsMapOf};
ghost use Rattle.crash_stands.specs.Walks.{LeadsTo};
ghost use Rattle.fs_inodes.specs.Changes.{new_inode, AddsName, TakesName, MovesName};

use crate::tree::the_tree_is_lawful;

/// The laws of new nodes, of paths that come and go, and of moves, where no more is known of a directory's
/// slots than what is under each name before and after: the order of the slots doesn't count.
pub fn names_may_be_in_any_order()
    ensures mkdir { (s : Session) (m new : Inodes) (up : List (List ℕ)) (name : List ℕ) (dir node : ℕ) → IsMapOf s.limit.nodes m s.tree
        → refusal s.limit s.tree (Mkdir (up ++ name ∷ [])) ≡ None
        → LeadsTo m up dir → least_unused s.limit.nodes s.tree ≡ Some node → AddsName m new dir node name (new_inode Dir)
        → IsMapOf s.limit.nodes new (step s (Mkdir (up ++ name ∷ []))).0.tree }
    ensures create { (s : Session) (m new : Inodes) (up : List (List ℕ)) (name : List ℕ) (dir node : ℕ) → IsMapOf s.limit.nodes m s.tree
        → refusal s.limit s.tree (Create (up ++ name ∷ [])) ≡ None
        → LeadsTo m up dir → least_unused s.limit.nodes s.tree ≡ Some node → AddsName m new dir node name (new_inode (File []))
        → IsMapOf s.limit.nodes new (step s (Create (up ++ name ∷ []))).0.tree }
    ensures link { (s : Session) (m new : Inodes) (path up : List (List ℕ)) (name : List ℕ) (dir node links : ℕ) (bytes : List ℕ)
        → IsMapOf s.limit.nodes m s.tree → refusal s.limit s.tree (Link path (up ++ name ∷ [])) ≡ None
        → LeadsTo m path node → m node ≡ Some (AFile links bytes) → LeadsTo m up dir → AddsName m new dir node name (AFile (links + 1) bytes)
        → IsMapOf s.limit.nodes new (step s (Link path (up ++ name ∷ []))).0.tree }
    ensures unlink { (s : Session) (m new : Inodes) (up : List (List ℕ)) (name : List ℕ) (dir node : ℕ) → IsMapOf s.limit.nodes m s.tree
        → refusal s.limit s.tree (Unlink (up ++ name ∷ [])) ≡ None
        → LeadsTo m up dir → TakesName m new dir node name → IsMapOf s.limit.nodes new (step s (Unlink (up ++ name ∷ []))).0.tree }
    ensures rmdir { (s : Session) (m new : Inodes) (up : List (List ℕ)) (name : List ℕ) (dir node : ℕ) → IsMapOf s.limit.nodes m s.tree
        → refusal s.limit s.tree (Rmdir (up ++ name ∷ [])) ≡ None
        → LeadsTo m up dir → TakesName m new dir node name → IsMapOf s.limit.nodes new (step s (Rmdir (up ++ name ∷ []))).0.tree }
    ensures rename { (s : Session) (m new : Inodes) (up to : List (List ℕ)) (name other : List ℕ) (from into node : ℕ) → IsMapOf s.limit.nodes m s.tree
        → refusal s.limit s.tree (Rename (up ++ name ∷ []) (to ++ other ∷ [])) ≡ None
        → LeadsTo m up from → LeadsTo m to into → MovesName m new from into node name other
        → IsMapOf s.limit.nodes new (step s (Rename (up ++ name ∷ []) (to ++ other ∷ []))).0.tree }
{
    the_tree_is_lawful();
}
