//! Laws on the paths of a tree: how they are counted, what lies below one, when a new one keeps a tree sound,
//! and what a command that takes or moves a path finds there. They run nothing; a crate that keeps a tree in
//! another form proves by them that it keeps the same one.

ghost use Rattle.std.specs.Prelude.{◌≡◌, ◌≢◌, ◌≤◌, ◌+◌, ◌==◌, ◌++◌, ℕ, if◌then◌else◌, true, false, List, [], ◌∷◌, None, Some};
ghost use Rattle.std.specs.FinMap.{get, insert, remove};
ghost use Rattle.base_types.specs.declared.layout.Layout.{Layout};
ghost use Rattle.lang_tree.specs.Tree.{Tree, Names, Thing, Dir, File, IsSound};
ghost use Rattle.lang_tree.specs.Paths.{parent, is_within};
ghost use Rattle.lang_tree.specs.Names.{path_count, holds_names, renamed};
ghost use Rattle.lang_tree.specs.Walk.{is_same_node};
ghost use Rattle.lang_tree.specs.Conditions.{file_refusal, rmdir_refusal, rename_refusal};

/// How many paths a number has: at least one where a path leads to it, and only then; one more with a path
/// that is put in, one less with a path that is taken out; and as many as before after a move to where
/// nothing is. A directory of a sound tree has one.
pub fn paths_are_counted()
    ensures there { (names : Names) (p : List (List ℕ)) (n : ℕ) → get names p ≡ Some n → 1 ≤ path_count names n }
    ensures found { (names : Names) (n : ℕ) → 1 ≤ path_count names n → (p : List (List ℕ)) × (get names p ≡ Some n) }
    ensures put_in { (names : Names) (p : List (List ℕ)) (m n : ℕ) → get names p ≡ None
        → path_count (insert names p m) n ≡ (if m == n then 1 else 0) + path_count names n }
    ensures taken_out { (names : Names) (p : List (List ℕ)) (m n : ℕ) → get names p ≡ Some m
        → path_count names n ≡ (if m == n then 1 else 0) + path_count (remove names p) n }
    ensures moved { (names : Names) (from to : List (List ℕ)) (n : ℕ) → holds_names names to ≡ false
        → path_count (renamed (remove names to) from to) n ≡ path_count (remove names to) n }
    ensures directory { (limit : ℕ) (t : Tree) (p : List (List ℕ)) (n : ℕ) → IsSound limit t → get t.names p ≡ Some n → get t.nodes n ≡ Some Dir
        → path_count t.names n ≡ 1 }
{}

/// Some path lies below another one of a sound tree exactly where the directory there has a name.
pub fn what_is_held_has_a_name()
    ensures held { (names : Names) (p rest : List (List ℕ)) (name : List ℕ) (n : ℕ) → get names (p ++ name ∷ rest) ≡ Some n → holds_names names p ≡ true }
    ensures holds { (limit : ℕ) (t : Tree) (p : List (List ℕ)) → IsSound limit t → holds_names t.names p ≡ true → (name : List ℕ) × (n : ℕ)
        × (get t.names (p ++ name ∷ []) ≡ Some n) }
{}

/// A sound tree stays sound with a node under any unused number at a new path in a directory, and with a new
/// path of a file there.
pub fn new_paths_keep_a_tree_sound()
    ensures node { (limit : ℕ) (t : Tree) (path : List (List ℕ)) (n k : ℕ) (x : Thing) → IsSound limit t → get t.names path ≡ None
        → get t.nodes n ≡ None → 1 ≤ n → n ≤ limit
        → get t.names (parent path) ≡ Some k → get t.nodes k ≡ Some Dir → IsSound limit (record t { names = insert t.names path n; nodes = insert t.nodes n x }) }
    ensures path { (limit : ℕ) (t : Tree) (path : List (List ℕ)) (n k : ℕ) (bytes : List ℕ) → IsSound limit t → get t.names path ≡ None
        → get t.nodes n ≡ Some (File bytes)
        → get t.names (parent path) ≡ Some k → get t.nodes k ≡ Some Dir → IsSound limit (record t { names = insert t.names path n }) }
{}

/// Of a sound tree only what has nothing below it goes, and never the root. What moves is there; and a move
/// never leads to where it begins or below it, nor to the root, nor to what holds names.
pub fn what_goes_holds_nothing()
    ensures unlinked { (limit : ℕ) (t : Tree) (path : List (List ℕ)) → IsSound limit t → file_refusal t path ≡ None
        → (holds_names t.names path ≡ false) × (path ≢ []) }
    ensures removed { (limit : ℕ) (t : Tree) (path : List (List ℕ)) → IsSound limit t → rmdir_refusal t path ≡ None
        → (holds_names t.names path ≡ false) × (path ≢ []) }
    ensures there { (limit : ℕ) (l : Layout) (t : Tree) (from to : List (List ℕ)) → IsSound limit t → rename_refusal l t from to ≡ None → (n : ℕ)
        × (get t.names from ≡ Some n) }
    ensures moved { (limit : ℕ) (l : Layout) (t : Tree) (from to : List (List ℕ)) → IsSound limit t → rename_refusal l t from to ≡ None → is_same_node t from to ≡ false
        → (is_within from to ≡ false) × (holds_names t.names to ≡ false) × (to ≢ []) }
{}
