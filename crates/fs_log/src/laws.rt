//! What crashes leave of a log in images, and a log that rests. The functions do nothing; their clauses are laws.

ghost use Rattle.std.specs.Prelude.{◌≡◌, ℕ, IsTrue, length};
ghost use Rattle.base_types.specs.Seal.{Blocks as BlockMap};
ghost use Rattle.layout_journal.specs.Run.{HeldIs};
ghost use Rattle.lang_log.specs.History.{History};
ghost use Rattle.fs_log.specs.Keeping.{Goes, Rests, StandsForLog};

use engine_blocks::{Blocks, calls_compose};
use fs_session::a_crash_leaves_the_tree_of_a_point;

/// Each image that a crash may leave since a call began stands for a tree with a log that may be left of the history
/// before the call, or of that behind it. It is said of a disk of n blocks on which the image that holds a map has it
/// under a header of the blocks' geometry.
pub fn each_crash_leaves_a_former_log<S: Blocks>()
    ensures { (old new : S) (h k : History) (n : ℕ) (img : BlockMap) → Goes h k (S.state old) (S.state new)
        → ((m : BlockMap) → (S.state new).crash.holds img m → (held : HeldIs n img m) × (held.header.geom ≡ (S.state new).books.geom))
        → (S.state new).crash.left_since (length (S.state old).crash.log) img → ∥ StandsForLog n img h k ∥₁ }
{}

/// While nothing is done, a log is as it is. So a crash now leaves a log that may be left of its history.
pub fn a_resting_log_is_as_it_was<S: Blocks>()
    ensures { IsTrue S.tells → (s : S) → Rests (S.state s) (S.state s) }
{
    calls_compose::<S>();
    a_crash_leaves_the_tree_of_a_point::<S>();
}
