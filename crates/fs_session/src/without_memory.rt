//! Laws of commands where no memory is found: which ones are done all the same, and that a sync which is refused so
//! may be given again. The functions do nothing; their clauses are laws. Blocks that lie in memory are the matter of
//! `memory`.

ghost use Rattle.std.specs.Prelude.{◌≡◌, ◌≢◌, ◌<◌, true, false};
ghost use Rattle.lang_tree.specs.declared.command.Cmd.{Cmd};
ghost use Rattle.lang_tree.specs.declared.command.Refusal.TheVariants.{NoMemory};
ghost use Rattle.lang_tree.specs.declared.command.Reply.{Reply};
ghost use Rattle.lang_tree.specs.declared.command.Reply.TheVariants.{Refused};
ghost use Rattle.lang_tree.specs.Points.{is_refusal, is_sync};
ghost use Rattle.fs_session.specs.Applying.{Applies};
ghost use Rattle.fs_session.specs.WithoutMemory.{FindsMemory, HasItsPoint, IsUnhindered, KeepsTransaction, MakesNextPoint, TakesNoMemory};

use engine_blocks::Blocks;

/// A command that takes no memory is never out of memory. It is done where the disk had no fault before and counts
/// none in it, and turns are left; and where it waits for a point, that was made.
pub fn what_takes_no_memory_is_done<S: Blocks>()
    ensures never { (old new : S) (cmd : Cmd) (reply : Reply) → TakesNoMemory (S.state old) cmd → Applies S.tells S.state cmd reply old new
        → reply ≢ Refused NoMemory }
    ensures done { (old new : S) (cmd : Cmd) (reply : Reply) → TakesNoMemory (S.state old) cmd → Applies S.tells S.state cmd reply old new
        → HasItsPoint (S.state old) cmd → IsUnhindered (S.state old) (S.state new) → is_refusal reply ≡ false }
{}

/// A sync that is out of memory wrote nothing of its record, and the transaction is as it was. Given again, it makes
/// the very point that it would have made at first, where memory is found then and no fault comes.
pub fn a_sync_without_memory_may_be_given_again<S: Blocks>()
    ensures keeps { (old new : S) (cmd : Cmd) → is_sync cmd ≡ true → Applies S.tells S.state cmd (Refused NoMemory) old new
        → KeepsTransaction S.tells (S.state old) (S.state new) }
    ensures first { (old new : S) (cmd : Cmd) (reply : Reply) → is_sync cmd ≡ true → 0 < (S.state old).books.running.weight
        → Applies S.tells S.state cmd reply old new → FindsMemory reply (S.state old) (S.state new)
        → MakesNextPoint S.tells cmd reply (S.state old) (S.state new) }
    ensures again { (old mid new : S) (cmd : Cmd) (reply : Reply) → is_sync cmd ≡ true → Applies S.tells S.state cmd (Refused NoMemory) old mid
        → Applies S.tells S.state cmd reply mid new → FindsMemory reply (S.state mid) (S.state new)
        → MakesNextPoint S.tells cmd reply (S.state old) (S.state new) }
{}
