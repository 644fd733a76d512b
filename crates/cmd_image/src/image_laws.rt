//! Laws of mounted blocks and of runs, empty functions whose clauses say them.

ghost use Rattle.std.specs.Prelude.{◌≡◌, Bool, false, true, IsTrue, List};
ghost use Rattle.crash_stands.specs.Bounds.{bounds_of};
ghost use Rattle.disk_contract.specs.declared.bay.Mark.{Mark};
ghost use Rattle.disk_contract.specs.Disk.{State};
ghost use Rattle.lang_tree.specs.declared.command.Cmd.{Cmd};
ghost use Rattle.lang_tree.specs.declared.command.Reply.{Reply};
ghost use Rattle.lang_tree.specs.Step.{Session, session_on};
ghost use Rattle.lang_tree.specs.Tree.{Tree};
ghost use Rattle.engine_blocks.specs.Crashes.{IsBegun};
ghost use Rattle.fs_files.specs.Effects.{LooksOnly};
ghost use Rattle.fs_session.specs.Applying.{Applies};
ghost use Rattle.fs_session.specs.Memory.{room_of};
ghost use Rattle.fs_session.specs.Sessions.{IsSession};
ghost use Rattle.cmd_session.specs.Accepted.{AcceptsLast};
ghost use Rattle.cmd_image.specs.Mounted.{IsMountedOn};
ghost use Rattle.cmd_image.specs.Refusals.{CountsByReply};
ghost use Rattle.cmd_image.specs.Runs.{IsRoomAtMount, RunsDisk};
ghost use Rattle.cmd_image.specs.Steps.{IsJustMounted};

use cmd_session::what_was_issued_was_accepted;
use engine_blocks::Blocks;
use fs_session::{
    a_command_is_answered_in_a_room_that_came_back, as_many_blocks_are_marked_as_the_tree_has,
};
use lang_tree::a_tree_in_memory_refuses_for_no_disk;

/// A store that was mounted, or any other blocks, are so still where they were only read; a read that failed is counted.
pub fn what_is_read_stays_mounted<S: Blocks>()
    ensures { (old new : S) (first : State) (failed : Bool) → IsMountedOn S.tells false first (S.state old)
        → LooksOnly S.tells failed (S.state old) (S.state new) → IsMountedOn S.tells failed first (S.state new) }
{}

/// A session that was opened over blocks that were just mounted begins in the room of their tree: nothing is weighed or
/// held, and as many data blocks may be taken as the tree leaves.
pub fn a_session_begins_in_the_room_of_its_tree<S: Blocks>()
    ensures { IsTrue S.tells → (first : State) (old new : S) (t : Tree) → IsJustMounted S.tells first (S.state old) → IsBegun (S.state old)
        → LooksOnly S.tells false (S.state old) (S.state new) → IsSession (S.state new) (session_on (bounds_of (S.state old).books.geom) t)
        → IsRoomAtMount (S.state old).books.geom (S.state old).map (session_on (bounds_of (S.state old).books.geom) t) (room_of (S.state new)) }
{
    a_command_is_answered_in_a_room_that_came_back::<S>();
    as_many_blocks_are_marked_as_the_tree_has::<S>();
}

/// On a disk whose waits bring the notice of their own ticket alone, a run on an image loses no write before any fault
/// of the disk. So at each mark before one, the image that has all accepted writes stands for the last point by then.
pub fn a_run_stands_where_accepted_writes_do()
    ensures { (first last : State) (marks : List Mark) (cmds : List Cmd) (replies : List Reply) (r : RunsDisk first last marks cmds replies)
        → first.manner.waits_alone ≡ true
        → AcceptsLast r.geom.n last.base (session_on (bounds_of r.geom) r.tree) last.log r.mounted cmds replies r.moments }
{
    what_was_issued_was_accepted();
}

/// The reply to a command of a session tells which call of the disk failed in it: a read that failed was counted once
/// where the reply is ReadFault, and another call that failed once where it is DiskFault, and none else was.
pub fn a_reply_tells_which_call_failed<S: Blocks>()
    ensures { IsTrue S.tells → (old new : S) (f : Session) (cmd : Cmd) (reply : Reply) → IsSession (S.state old) f
        → Applies S.tells S.state cmd reply old new → CountsByReply reply (S.state old).counts (S.state new).counts }
{
    a_tree_in_memory_refuses_for_no_disk();
}
