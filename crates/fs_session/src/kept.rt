//! What lists of blocks come to that snapshots keep: two that share a block; and where no snapshot is there. The
//! functions do nothing but call laws. Which blocks may be taken is said by the rooms of `memory` and `disk`.

ghost use Rattle.std.specs.Prelude.{◌≡◌, ◌-◌, ◌++◌, ℕ, true, false, List, [], ◌∷◌, length, take};
ghost use Rattle.std.specs.FinMap.{empty};
ghost use Rattle.layout_geometry.specs.Geometry.{Geometry, bitmap_blocks, data_start};
ghost use Rattle.layout_extent.specs.Runs.{stretches};
ghost use Rattle.lang_tree.specs.declared.command.Cmd.{Cmd};
ghost use Rattle.lang_tree.specs.Figures.{blocks, figures};
ghost use Rattle.lang_tree.specs.Step.{Session};
ghost use Rattle.lang_tree.specs.Tree.{Tree};
ghost use Rattle.engine_blocks.specs.Running.{has};
ghost use Rattle.fs_session.specs.Lists.{alone_in, listed, shared_in};
ghost use Rattle.fs_snapshots.specs.Known.{node_blocks};
ghost use Rattle.fs_session.specs.Room.{HoldsTree, Room, figures_in, is_in_use, left_in, renewed_in, runs_with};
ghost use Rattle.fs_session.specs.Space.{ArePlaced};
ghost use Rattle.fs_session.specs.Row.{name_s, name_t, row_after, row_kept, row_places};

use lang_tree::nothing_shared_costs_nothing;

/// In a session without snapshots a room is what it is of the tree alone. A command needs, costs and frees what it does
/// there, new blocks come behind a node's own, and a block is in use where a node has it. In a room that holds the tree
/// as many data blocks are left as it doesn't need, without those that the transaction holds.
pub fn without_snapshots_a_room_is_that_of_its_tree()
    ensures figures { (g : Geometry) (f : Session) (r : Room) (cmd : Cmd) → f.tree.snapshots ≡ empty → figures_in g f r cmd ≡ figures (bitmap_blocks g) f cmd }
    ensures runs { (g : Geometry) (f : Session) (r : Room) (cmd : Cmd) (k need : ℕ) → f.tree.snapshots ≡ empty
        → runs_with g f r cmd k need ≡ stretches (r.places k ++ take need r.takeable) }
    ensures placed { (g : Geometry) (f : Session) (r : Room) (cmd : Cmd) (old new : ℕ → List ℕ) (more : List ℕ) → f.tree.snapshots ≡ empty
        → ArePlaced (renewed_in g f r cmd) old new more → (k : ℕ) → new k ≡ take (length (new k)) (old k ++ more) }
    ensures uses { (g : Geometry) (f : Session) (r : Room) (b : ℕ) → f.tree.snapshots ≡ empty
        → is_in_use g f.tree r b ≡ has (node_blocks r.places g.i) b }
    ensures left { (g : Geometry) (f : Session) (r : Room) → f.tree.snapshots ≡ empty → HoldsTree g f.tree r
        → left_in g f r ≡ (g.n - data_start g) - blocks g.layout f.tree - r.held }
{
    nothing_shared_costs_nothing();
}

/// Snapshots s and t of a file of two blocks share the second one; the first was written over between them. With both
/// each block of the file is shared, and with s alone the second one. One block of s is in no other list, and none of t.
/// Once s and the file's blocks went there are two of t. Then 9 of the 41 data blocks are in lists, and with 7 that are
/// held 25 are left.
pub fn lists_of_two_snapshots_are_counted_so()
    ensures first { shared_in 4 row_places row_kept (name_s ∷ name_t ∷ []) 2 0 ≡ true }
    ensures second { shared_in 4 row_places row_kept (name_s ∷ name_t ∷ []) 2 1 ≡ true }
    ensures first_by_s { shared_in 4 row_places row_kept (name_s ∷ []) 2 0 ≡ false }
    ensures second_by_s { shared_in 4 row_places row_kept (name_s ∷ []) 2 1 ≡ true }
    ensures alone_s { alone_in 4 row_places row_kept (name_s ∷ name_t ∷ []) name_s ≡ 1 }
    ensures alone_t { alone_in 4 row_places row_kept (name_s ∷ name_t ∷ []) name_t ≡ 0 }
    ensures alone_after { alone_in 4 row_after row_kept (name_t ∷ []) name_t ≡ 2 }
    ensures left { 41 - listed 4 row_after row_kept (name_t ∷ []) 23 41 - 7 ≡ 25 }
{}
