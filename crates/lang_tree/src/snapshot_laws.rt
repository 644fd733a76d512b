//! Laws on the snapshots of a tree: what commands leave of them, and what a tree without any is. They run
//! nothing.

ghost use Rattle.std.specs.Prelude.{◌≡◌, ◌≢◌, ℕ, Bool, false, true, List, is_none, find, Some, None};
ghost use Rattle.std.specs.List.{All, range_with_len};
ghost use Rattle.std.specs.FinMap.{get, empty};
ghost use Rattle.lang_tree.specs.declared.command.Cmd.{Cmd};
ghost use Rattle.lang_tree.specs.declared.command.Cmd.TheVariants.{Snap, Unsnap, At};
ghost use Rattle.lang_tree.specs.declared.command.Look.{Look};
ghost use Rattle.lang_tree.specs.declared.command.Refusal.{Refusal};
ghost use Rattle.lang_tree.specs.declared.command.Reply.{Reply};
ghost use Rattle.lang_tree.specs.Tree.{Tree, Bounds, Snapshots, Kept, kept_tree, IsSound, HasSoundSnapshots};
ghost use Rattle.lang_tree.specs.Conditions.{refusal, is_snapshot, least_unused};
ghost use Rattle.lang_tree.specs.Step.{Session, step, start, session_on, changes_snapshots, kept_of, look_command};
ghost use Rattle.lang_tree.specs.Run.{Run};
ghost use Rattle.lang_tree.specs.Listing.{path_lines, listing};

/// The empty root has no snapshot, only a snap or an unsnap changes what there is, and sound snapshots of a
/// sound tree are sound after every command.
pub fn commands_keep_snapshots()
    ensures start { (limit : Bounds) → (start limit).tree.snapshots ≡ empty }
    ensures same { (s : Session) (cmd : Cmd) → changes_snapshots cmd ≡ false → (step s cmd).0.tree.snapshots ≡ s.tree.snapshots }
    ensures sound { (s : Session) (cmd : Cmd) → IsSound s.limit.nodes s.tree → HasSoundSnapshots s.limit.nodes s.tree → HasSoundSnapshots s.limit.nodes (step s cmd).0.tree }
{}

/// An accepted snap keeps the tree as it is, under the least unused number, and what it keeps stays so until an
/// unsnap of its name, which takes it away. A look at it is answered as the same look at the tree that it keeps,
/// and so as the tree of the moment of its snap answers it, whichever other commands came since.
pub fn a_snapshot_keeps_its_tree()
    ensures made { (s : Session) (name : List ℕ) → refusal s.limit s.tree (Snap name) ≡ None
        → (n : ℕ) × (least_unused s.limit.nodes s.tree ≡ Some n) × (get (step s (Snap name)).0.tree.snapshots name ≡ Some (kept_of n s.tree)) }
    ensures kept { (s : Session) (cmd : Cmd) (name : List ℕ) (k : Kept) → get s.tree.snapshots name ≡ Some k → cmd ≢ Unsnap name
        → get (step s cmd).0.tree.snapshots name ≡ Some k }
    ensures gone { (s : Session) (name : List ℕ) → refusal s.limit s.tree (Unsnap name) ≡ None → get (step s (Unsnap name)).0.tree.snapshots name ≡ None }
    ensures looks { (s : Session) (name : List ℕ) (k : Kept) (l : Look) → get s.tree.snapshots name ≡ Some k
        → (step s (At name l)).1 ≡ (step (session_on s.limit (kept_tree k)) (look_command l)).1 }
    ensures answers { (outside : Refusal → Bool) (s end : Session) (name : List ℕ) (cmds : List Cmd) (replies : List Reply) (l : Look)
        → refusal s.limit s.tree (Snap name) ≡ None → All (λ cmd. cmd ≢ Unsnap name) cmds → Run outside (step s (Snap name)).0 cmds replies end
        → (step end (At name l)).1 ≡ (step s (look_command l)).1 }
{}

/// A number is that of a snapshot exactly where the map has one with it.
pub fn numbers_of_snapshots_are_in_the_map()
    ensures number { (m : Snapshots) (name : List ℕ) (k : Kept) → get m name ≡ Some k → is_snapshot m k.number ≡ true }
    ensures name { (m : Snapshots) (n : ℕ) → is_snapshot m n ≡ true → (name : List ℕ) × (k : Kept) × (get m name ≡ Some k) × (k.number ≡ n) }
{}

/// A tree without snapshots is its paths and nodes alone: nothing is wrong with its snapshots, its least unused
/// number is the least one that no node has, and its listing has the lines of its paths.
pub fn without_snapshots_there_are_paths_and_nodes()
    ensures sound { (limit : ℕ) (t : Tree) → t.snapshots ≡ empty → HasSoundSnapshots limit t }
    ensures unused { (limit : ℕ) (t : Tree) → t.snapshots ≡ empty → least_unused limit t ≡ find (λ n. is_none (get t.nodes n)) (range_with_len 1 limit) }
    ensures listing { (t : Tree) → t.snapshots ≡ empty → listing t ≡ path_lines t.names t.nodes }
{}
