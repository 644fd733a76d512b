//! Laws of the commands that make a tree. They run nothing.

ghost use Rattle.std.specs.Prelude.{◌≡◌, ◌≢◌, ◌≤◌, ℕ, false, List, [], ◌∷◌, ◌++◌, codes, length, replicate, slice_get, None, Some};
ghost use Rattle.std.specs.List.{All};
ghost use Rattle.std.specs.FinMap.{empty, entries, get, keys, len};
ghost use Rattle.base_types.specs.declared.layout.Layout.{Layout};
ghost use Rattle.base_types.specs.declared.layout.Layout.TheVariants.{Two};
ghost use Rattle.lang_tree.specs.declared.command.Cmd.{Cmd};
ghost use Rattle.lang_tree.specs.declared.command.Cmd.TheVariants.{Mkdir, Create, Write, Link};
ghost use Rattle.lang_tree.specs.declared.command.Reply.TheVariants.{Ok as Done};
ghost use Rattle.lang_tree.specs.Tree.{Tree, Bounds, Names, Dir, File, IsSound, HasSmallFiles};
ghost use Rattle.lang_tree.specs.Step.{Session, start, step};
ghost use Rattle.lang_tree.specs.Run.{Run};
ghost use Rattle.lang_tree.specs.Names.{names_in};
ghost use Rattle.lang_tree.specs.Walk.{thing_at, walk_refusal};
ghost use Rattle.lang_tree.specs.Figures.{blocks};
ghost use Rattle.lang_making.specs.Making.{making, paths_made, tree_after, HasFewPaths, HasShortNames};
ghost use Rattle.lang_making.specs.Renumbered.{DifferInNumbers};

use lang_tree::{
    commands_keep_a_tree_sound, layouts_differ_in_long_names_alone, paths_are_counted,
    the_figures_are_the_blocks, what_goes_holds_nothing,
    without_snapshots_there_are_paths_and_nodes,
};

/// From the root alone all commands that make a tree are done, where the tree is sound, its files have no more bytes and
/// paths than files may have, no name is too long for the layout, and there are as many numbers as it has nodes. What
/// they leave is the tree with other numbers, and without snapshots.
pub fn commands_make_the_tree()
    ensures { (limit : Bounds) (most : ℕ) (t : Tree) → IsSound most t → HasSmallFiles t.nodes → HasFewPaths t.names → HasShortNames limit.layout t.names
        → len t.nodes ≤ limit.nodes → (end : Session) × Run (λ why. false) (start limit) (making t) (replicate (length (making t)) Done) end
        × (end.tree.snapshots ≡ empty) × DifferInNumbers t end.tree }
{
    commands_keep_a_tree_sound();
    paths_are_counted();
    without_snapshots_there_are_paths_and_nodes();
}

/// So it is one by one, and in each session with these bounds, whatever was synced there between: where the tree is
/// the one that the first of these commands leave, the next command is done and leaves the next tree. The last tree has
/// no snapshots and differs from the one to be made in numbers alone.
pub fn the_next_command_is_done()
    ensures next { (limit : Bounds) (most : ℕ) (t : Tree) (front back : List Cmd) (cmd : Cmd) (s : Session) → IsSound most t → HasSmallFiles t.nodes
        → HasFewPaths t.names → HasShortNames limit.layout t.names → len t.nodes ≤ limit.nodes → making t ≡ front ++ cmd ∷ back → s.limit ≡ limit
        → s.tree ≡ tree_after limit front
        → ((step s cmd).1 ≡ Done) × ((step s cmd).0.tree ≡ tree_after limit (front ++ cmd ∷ [])) }
    ensures last { (limit : Bounds) (most : ℕ) (t : Tree) → IsSound most t → HasSmallFiles t.nodes → HasFewPaths t.names → HasShortNames limit.layout t.names
        → len t.nodes ≤ limit.nodes → ((tree_after limit (making t)).snapshots ≡ empty) × DifferInNumbers t (tree_after limit (making t)) }
{
    commands_keep_a_tree_sound();
    paths_are_counted();
    without_snapshots_there_are_paths_and_nodes();
}

/// On the way there are never more blocks than the tree has, counted for the layout.
pub fn no_more_blocks_are_taken_on_the_way()
    ensures { (limit : Bounds) (most : ℕ) (t : Tree) (front back : List Cmd) → IsSound most t → HasSmallFiles t.nodes → HasFewPaths t.names
        → HasShortNames limit.layout t.names → len t.nodes ≤ limit.nodes → making t ≡ front ++ back
        → blocks limit.layout (tree_after limit front) ≤ blocks limit.layout t }
{
    commands_keep_a_tree_sound();
    paths_are_counted();
    the_figures_are_the_blocks();
    without_snapshots_there_are_paths_and_nodes();
}

/// Trees that differ in numbers alone have the same paths, the same names in each directory, and as many nodes and,
/// in each layout, as many blocks. At each path they have the same, where the first one is sound.
pub fn other_numbers_are_no_other_tree()
    ensures paths { (t u : Tree) → DifferInNumbers t u → keys u.names ≡ keys t.names }
    ensures names { (t u : Tree) (up : List (List ℕ)) → DifferInNumbers t u → names_in u.names up ≡ names_in t.names up }
    ensures things { (most : ℕ) (t u : Tree) (p : List (List ℕ)) → IsSound most t → DifferInNumbers t u → thing_at u p ≡ thing_at t p }
    ensures nodes { (t u : Tree) → DifferInNumbers t u → len u.nodes ≡ len t.nodes }
    ensures blocks { (l : Layout) (t u : Tree) → DifferInNumbers t u → blocks l u ≡ blocks l t }
{}

/// The root alone has no node of more paths than a file may have, and no command makes one in a sound tree that has none.
pub fn no_file_gets_too_many_paths()
    ensures start { (limit : Bounds) → HasFewPaths (start limit).tree.names }
    ensures step { (s : Session) (cmd : Cmd) → IsSound s.limit.nodes s.tree → HasFewPaths s.tree.names → HasFewPaths (step s cmd).0.tree.names }
{
    paths_are_counted();
    what_goes_holds_nothing();
}

/// Layout 2 takes each tree whose names have at most 255 bytes.
pub fn layout_two_takes_all_names()
    ensures { (names : Names) → ((p : List (List ℕ)) (n : ℕ) → get names p ≡ Some n → All (λ name. length name ≤ 255) p) → HasShortNames Two names }
{
    layouts_differ_in_long_names_alone();
}

/// Each path of a sound tree but the root is made, and each one once.
pub fn each_path_is_made_once()
    ensures made { (limit : ℕ) (t : Tree) (p : List (List ℕ)) (n : ℕ) → IsSound limit t → get t.names p ≡ Some n → p ≢ []
        → (i : ℕ) × (slice_get (paths_made t.names) i ≡ Some p) }
    ensures once { (limit : ℕ) (t : Tree) (p : List (List ℕ)) (i j : ℕ) → IsSound limit t → slice_get (paths_made t.names) i ≡ Some p
        → slice_get (paths_made t.names) j ≡ Some p → i ≡ j }
{}

/// The commands that make a tree with a directory `/a` and a file of two bytes, which is at `/a/x` and at `/b`. The
/// names in the root come first, so the file is created at `/b`.
pub fn a_small_tree_is_made_so()
    ensures { (t : Tree) → entries t.names ≡ ([], 1) ∷ (codes "a" ∷ [], 3) ∷ (codes "a" ∷ codes "x" ∷ [], 2) ∷ (codes "b" ∷ [], 2) ∷ []
        → get t.nodes 3 ≡ Some Dir → get t.nodes 2 ≡ Some (File (104 ∷ 105 ∷ []))
        → making t ≡ Mkdir (codes "a" ∷ []) ∷ Create (codes "b" ∷ []) ∷ Link (codes "b" ∷ []) (codes "a" ∷ codes "x" ∷ [])
        ∷ Write (codes "b" ∷ []) 0 (104 ∷ 105 ∷ []) ∷ [] }
{}

/// A walk comes to each path of a sound tree, and each name in a directory is the last of such a path.
pub fn a_walk_comes_to_each_path()
    ensures walk { (limit : ℕ) (t : Tree) (p : List (List ℕ)) (n : ℕ) → IsSound limit t → get t.names p ≡ Some n → walk_refusal t p ≡ None }
    ensures names { (names : Names) (up : List (List ℕ)) (i : ℕ) (name : List ℕ) → slice_get (names_in names up) i ≡ Some name
        → (n : ℕ) × (get names (up ++ name ∷ []) ≡ Some n) }
{}
