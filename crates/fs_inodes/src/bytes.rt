//! What other bytes of a file make of the inode map, and which commands leave it as it was. The functions do
//! nothing but call laws.

ghost use Rattle.std.specs.Prelude.{◌≡◌, ◌≢◌, ◌<◌, ◌++◌, ℕ, List, [], ◌∷◌, length, replicate, true, None, Some};
ghost use Rattle.lang_tree.specs.declared.command.Cmd.{Cmd};
ghost use Rattle.lang_tree.specs.declared.command.Cmd.TheVariants.{Write, Fill, Truncate, Rename};
ghost use Rattle.lang_tree.specs.declared.command.Refusal.{Refusal};
ghost use Rattle.lang_tree.specs.Conditions.{refusal};
ghost use Rattle.lang_tree.specs.Walk.{content, is_same_node};
ghost use Rattle.lang_tree.specs.Step.{Session, step, written, resized, changes_snapshots};
ghost use Rattle.crash_stands.specs.Inodes.{Inodes, AFile};
ghost use Rattle.crash_stands.specs.Maps.{IsMapOf};
ghost use Rattle.crash_stands.specs.Walks.{LeadsTo};
ghost use Rattle.fs_inodes.specs.Changes.{Sets, looks_alone};

use crate::tree::the_tree_is_lawful;

/// A write or fill of some bytes, or a truncate to another size, that isn't refused: the file has the new
/// bytes, and its links as before.
pub fn new_bytes_are_mapped()
    ensures write { (s : Session) (m new : Inodes) (path : List (List ℕ)) (offset : ℕ) (bytes : List ℕ) (node links : ℕ) (old : List ℕ)
        → IsMapOf s.limit.nodes m s.tree → refusal s.limit s.tree (Write path offset bytes) ≡ None
        → 0 < length bytes → LeadsTo m path node → m node ≡ Some (AFile links old) → Sets m new node (Some (AFile links (written offset bytes old)))
        → IsMapOf s.limit.nodes new (step s (Write path offset bytes)).0.tree }
    ensures fill { (s : Session) (m new : Inodes) (path : List (List ℕ)) (offset count byte node links : ℕ) (old : List ℕ) → IsMapOf s.limit.nodes m s.tree
        → refusal s.limit s.tree (Fill path offset count byte) ≡ None
        → 0 < count → LeadsTo m path node → m node ≡ Some (AFile links old)
        → Sets m new node (Some (AFile links (written offset (replicate count byte) old)))
        → IsMapOf s.limit.nodes new (step s (Fill path offset count byte)).0.tree }
    ensures truncate { (s : Session) (m new : Inodes) (path : List (List ℕ)) (size node links : ℕ) (old : List ℕ) → IsMapOf s.limit.nodes m s.tree
        → refusal s.limit s.tree (Truncate path size) ≡ None
        → size ≢ length old → LeadsTo m path node → m node ≡ Some (AFile links old) → Sets m new node (Some (AFile links (resized size old)))
        → IsMapOf s.limit.nodes new (step s (Truncate path size)).0.tree }
{
    the_tree_is_lawful();
}

/// The tree stays where the command is refused, where it only looks or is a sync, where no bytes are written,
/// where a truncate is to the size that the file has, and where a move is between two paths of one node. The map is
/// that of the tree after a snap or an unsnap too.
pub fn what_changes_nothing_keeps_the_map()
    ensures refused { (s : Session) (cmd : Cmd) (why : Refusal) → refusal s.limit s.tree cmd ≡ Some why → (step s cmd).0 ≡ s }
    ensures looked { (s : Session) (cmd : Cmd) → looks_alone cmd ≡ true → (step s cmd).0.tree ≡ s.tree }
    ensures nothing_written { (s : Session) (path : List (List ℕ)) (offset : ℕ) → (step s (Write path offset [])).0 ≡ s }
    ensures nothing_filled { (s : Session) (path : List (List ℕ)) (offset byte : ℕ) → (step s (Fill path offset 0 byte)).0 ≡ s }
    ensures same_size { (s : Session) (m : Inodes) (path : List (List ℕ)) (node links : ℕ) (bytes : List ℕ) → IsMapOf s.limit.nodes m s.tree
        → LeadsTo m path node → m node ≡ Some (AFile links bytes)
        → (step s (Truncate path (length bytes))).0 ≡ s }
    ensures same_node { (s : Session) (m : Inodes) (from to : List (List ℕ)) (node : ℕ) → IsMapOf s.limit.nodes m s.tree → LeadsTo m from node
        → LeadsTo m to node → (step s (Rename from to)).0 ≡ s }
    ensures snapshots { (s : Session) (m : Inodes) (cmd : Cmd) → changes_snapshots cmd ≡ true → IsMapOf s.limit.nodes m s.tree
        → IsMapOf s.limit.nodes m (step s cmd).0.tree }
{}
