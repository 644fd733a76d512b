//! Sync points as trees: which tree each point has, how that stays known from call to call, that a crash leaves one
//! of these trees, and what a reply tells of points. The functions do nothing; their clauses are laws. What a crash may leave of
//! blocks is described by engine_blocks, and when blocks stand for a tree by crash_stands.

ghost use Rattle.std.specs.Prelude.{◌≡◌, ◌⊎◌, ◌+◌, ◌≤◌, ℕ, IsTrue, false, Result, length};
ghost use Rattle.base_types.specs.Seal.{Blocks as BlockMap};
ghost use Rattle.layout_geometry.specs.Geometry.{Geometry, IsGeometry};
ghost use Rattle.engine_blocks.specs.declared.refusals.SyncRefusal.{SyncRefusal};
ghost use Rattle.engine_blocks.specs.Crashes.{HasLiveBlocks, HasMapOfPoint, Advances, MakesPoint};
ghost use Rattle.engine_blocks.specs.Effects.{Syncs};
ghost use Rattle.lang_tree.specs.declared.command.Cmd.{Cmd};
ghost use Rattle.lang_tree.specs.declared.command.Reply.{Reply};
ghost use Rattle.lang_tree.specs.Step.{Session};
ghost use Rattle.lang_tree.specs.Tree.{Tree};
ghost use Rattle.crash_stands.specs.Stands.{IsTreeOf};
ghost use Rattle.fs_session.specs.Applying.{Applies};
ghost use Rattle.fs_session.specs.Points.{KnowsPoints, LeavesTree, TellsPoints, with_tree, trees_after};
ghost use Rattle.fs_session.specs.Sessions.{IsSession};

use crate::laws::a_command_answers_its_session;
use crash_stands::a_tree_stands_by_its_live_blocks;
use engine_blocks::Blocks;
use lang_tree::{a_tree_in_memory_refuses_for_no_disk, no_other_command_is_promised_a_point};

/// Blocks that have the live blocks of a map stand for each tree for which that map stands.
pub fn live_blocks_are_enough()
    ensures tree { (g : Geometry) (map m : BlockMap) (t : Tree) → IsGeometry g → HasLiveBlocks g map m → IsTreeOf g map t → IsTreeOf g m t }
{
    a_tree_stands_by_its_live_blocks();
}

/// Where the tree of each point is known, a crash now leaves the tree of a point from the floor on. At each
/// moment of a call it leaves that of one from the old floor to the last point as the call ended. What a crash
/// since some earlier time may leave, it might have left before the call, or it is such a tree.
///
/// Where all accepted writes stand, the blocks stand for the tree of the last point, while no call of the disk
/// failed.
pub fn a_crash_leaves_the_tree_of_a_point<S: Blocks>()
    ensures now { (s : S) (trees : ℕ → Tree) (img : BlockMap) → IsTrue S.tells → KnowsPoints (S.state s) trees
        → (S.state s).crash.left_since (length (S.state s).crash.log) img
        → ∥ LeavesTree (S.state s) trees (S.state s).books.floor (S.state s).books.point img ∥₁ }
    ensures call { (old new : S) (trees : ℕ → Tree) (img : BlockMap) → Advances (S.state old) (S.state new) → KnowsPoints (S.state new) trees
        → (S.state new).crash.left_since (length (S.state old).crash.log) img
        → ∥ LeavesTree (S.state new) trees (S.state old).books.floor (S.state new).books.point img ∥₁ }
    ensures earlier { (old new : S) (trees : ℕ → Tree) (t : ℕ) (img : BlockMap) → Advances (S.state old) (S.state new)
        → KnowsPoints (S.state new) trees → t ≤ length (S.state old).crash.log → (S.state new).crash.left_since t img
        → (S.state old).crash.left_since t img ⊎ ∥ LeavesTree (S.state new) trees (S.state old).books.floor (S.state new).books.point img ∥₁ }
    ensures issued { (s : S) (trees : ℕ → Tree) → IsTrue S.tells → KnowsPoints (S.state s) trees → (S.state s).books.stopped ≡ false
        → ∥ ((m : BlockMap) × (S.state s).crash.issued m) ∥₁
        × ((m : BlockMap) → (S.state s).crash.issued m → IsTreeOf (S.state s).books.geom m (trees (S.state s).books.point)) }
{}

/// The tree of each point is known at first, where there is point 0 alone: the blocks have its map, and they
/// stand for its tree. It stays known over a call that makes no point. Where a call makes a point, that has
/// the tree for which the blocks stand now.
///
/// The last two clauses cover both cases, of any call that makes one point at most, and of a sync.
pub fn points_stay_known<S: Blocks>(blocks: &S)
    ensures begins { (trees : ℕ → Tree) → (S.state blocks.now).books.point ≡ 0 → HasMapOfPoint (S.state blocks.now) 0
        → IsTreeOf (S.state blocks.now).books.geom (S.state blocks.now).map (trees 0)
        → KnowsPoints (S.state blocks.now) trees }
    ensures stays { (old : S) (trees : ℕ → Tree) → Advances (S.state old) (S.state blocks.now)
        → (S.state blocks.now).books.geom ≡ (S.state old).books.geom → (S.state blocks.now).books.point ≡ (S.state old).books.point
        → KnowsPoints (S.state old) trees → KnowsPoints (S.state blocks.now) trees }
    ensures comes { (old : S) (trees : ℕ → Tree) (t : Tree) → Advances (S.state old) (S.state blocks.now)
        → MakesPoint (S.state old) (S.state blocks.now) → (S.state blocks.now).books.geom ≡ (S.state old).books.geom
        → (S.state blocks.now).books.point ≡ (S.state old).books.point + 1 → IsTreeOf (S.state blocks.now).books.geom (S.state blocks.now).map t
        → KnowsPoints (S.state old) trees → KnowsPoints (S.state blocks.now) (with_tree trees (S.state blocks.now).books.point t) }
    ensures after { (old : S) (trees : ℕ → Tree) (t : Tree) → Advances (S.state old) (S.state blocks.now)
        → MakesPoint (S.state old) (S.state blocks.now) → (S.state blocks.now).books.geom ≡ (S.state old).books.geom
        → (S.state blocks.now).books.point ≤ (S.state old).books.point + 1 → IsTreeOf (S.state blocks.now).books.geom (S.state blocks.now).map t
        → KnowsPoints (S.state old) trees → KnowsPoints (S.state blocks.now) (trees_after (S.state old) (S.state blocks.now) trees t) }
    ensures sync { (old : S) (result : Result ℕ SyncRefusal) (trees : ℕ → Tree) (t : Tree) → IsTrue S.tells
        → Syncs S.tells result (S.state old) (S.state blocks.now) → IsTreeOf (S.state old).books.geom (S.state old).map t
        → KnowsPoints (S.state old) trees → KnowsPoints (S.state blocks.now) (trees_after (S.state old) (S.state blocks.now) trees t) }
{
    blocks.geom().lawful();
    a_tree_stands_by_its_live_blocks();
}

/// The reply to a command of a session tells of points: how many it made, that what it promised is on the disk, and
/// that a fault ends the session.
pub fn a_reply_tells_the_points<S: Blocks>()
    ensures { IsTrue S.tells → (old new : S) (f : Session) (cmd : Cmd) (reply : Reply) (begun : ℕ) → IsSession (S.state old) f
        → Applies S.tells S.state cmd reply old new → TellsPoints f cmd reply begun (S.state old) (S.state new) }
{
    a_command_answers_its_session::<S>();
    a_tree_in_memory_refuses_for_no_disk();
    no_other_command_is_promised_a_point();
}
