//! Laws of sessions and commands, each a function that changes nothing: the inode map of blocks that stand for a
//! tree, and the links of a node; and of each command that it answers its session and that time goes on, its tick, its
//! refusals for the disk, what it waits for, and how many blocks it takes.

ghost use Rattle.std.specs.Prelude.{◌≡◌, ◌≢◌, ◌<◌, ◌≤◌, ◌+◌, ◌^◌, ℕ, true, false, if◌then◌else◌, length, Some, IsTrue};
ghost use Rattle.std.specs.List.{filter};
ghost use Rattle.base_types.specs.Seal.{Blocks as BlockMap};
ghost use Rattle.disk_contract.specs.Disk.{PollsThenWrites};
ghost use Rattle.layout_geometry.specs.Geometry.{Geometry};
ghost use Rattle.layout_bytes.specs.declared.node.NodeKind.TheVariants.{File};
ghost use Rattle.lang_tree.specs.declared.command.Cmd.{Cmd};
ghost use Rattle.lang_tree.specs.declared.command.Cmd.TheVariants.{Bad};
ghost use Rattle.lang_tree.specs.declared.command.Refusal.TheVariants.{ReadFault, Spent, Stopped};
ghost use Rattle.lang_tree.specs.declared.command.Reply.{Reply};
ghost use Rattle.lang_tree.specs.declared.command.Reply.TheVariants.{Refused};
ghost use Rattle.lang_tree.specs.Points.{is_refusal};
ghost use Rattle.lang_tree.specs.Step.{Session};
ghost use Rattle.lang_tree.specs.Tree.{Tree};
ghost use Rattle.crash_stands.specs.Files.{FileNode, files_of};
ghost use Rattle.crash_stands.specs.Inodes.{inodes_of};
ghost use Rattle.crash_stands.specs.Maps.{IsMapOf};
ghost use Rattle.crash_stands.specs.Stands.{IsTreeOf};
ghost use Rattle.engine_blocks.specs.Effects.{Ticked};
ghost use Rattle.engine_blocks.specs.Running.{has};
ghost use Rattle.engine_blocks.specs.State.{data_blocks};
ghost use Rattle.fs_session.specs.Applying.{AnswersSession, Applies, NeedsNoWait, PassesTime, is_spent};
ghost use Rattle.fs_session.specs.DiskRoom.{AnswersOn};
ghost use Rattle.fs_session.specs.Room.{Room, figures_in};
ghost use Rattle.fs_session.specs.Sessions.{IsSession, Stands};

use crash_stands::{blocks_have_a_map, files_have_one_map};
use engine_blocks::{Blocks, calls_compose};
use lang_tree::a_tree_in_memory_refuses_for_no_disk;

/// Blocks stand for a tree exactly where they are sound and what their nodes read as is that tree's map.
pub fn blocks_have_the_map_of_their_tree()
    ensures map { (g : Geometry) (m : BlockMap) (t : Tree) → IsTreeOf g m t → IsMapOf g.i (inodes_of g.layout (files_of g m)) t }
{
    blocks_have_a_map();
    files_have_one_map();
}

/// A node in use has a link, and a file has at most 65,535.
pub fn a_node_in_use_has_links()
    ensures { (g : Geometry) (m : BlockMap) (k : ℕ) (x : FileNode) → files_of g m k ≡ Some x → (1 ≤ x.links) × (x.kind ≡ File → x.links ≤ 65535) }
{}

/// What is applied to blocks is answered as the tree of their session answers it, or refused for a reason of the disk,
/// and the blocks are one of the session after that. Time goes on over it, and a tree stands still where one stood.
pub fn a_command_answers_its_session<S: Blocks>()
    ensures answers { IsTrue S.tells → (old new : S) (f : Session) (cmd : Cmd) (reply : Reply) → IsSession (S.state old) f
        → Applies S.tells S.state cmd reply old new → AnswersSession S.tells S.state f cmd reply new }
    ensures time { IsTrue S.tells → (old new : S) (cmd : Cmd) (reply : Reply) → Applies S.tells S.state cmd reply old new
        → PassesTime (S.state old) (S.state new) }
    ensures stands { IsTrue S.tells → (old new : S) (cmd : Cmd) (reply : Reply) → Stands (S.state old) → Applies S.tells S.state cmd reply old new
        → Stands (S.state new) }
{
    calls_compose::<S>();
}

/// A command that isn't refused at once ticks once, of the same disk. Where it is known what polls answer, its events
/// begin with the notices of at most 64 polls, up to the first that has none, and it polls no more.
pub fn a_command_begins_with_a_tick<S: Blocks>()
    ensures { (cmd : Cmd) (reply : Reply) (old new : S) → cmd ≢ Bad → (S.state old).books.stopped ≡ false → is_spent (S.state old).books ≡ false
        → Applies S.tells S.state cmd reply old new → Ticked S.tells (S.state old) (S.state new) }
{}

/// A command of a session is refused for a failed read only where the disk has counted one, as stopped only where a
/// call of the disk had failed before, and as spent only where the journal's numbers were used up.
pub fn a_refusal_for_the_disk_has_its_cause<S: Blocks>()
    ensures read { IsTrue S.tells → (old new : S) (f : Session) (cmd : Cmd) (reply : Reply) → IsSession (S.state old) f
        → Applies S.tells S.state cmd reply old new → reply ≡ Refused ReadFault → 0 < (S.state new).counts.read_faults }
    ensures stopped { IsTrue S.tells → (old new : S) (f : Session) (cmd : Cmd) (reply : Reply) → IsSession (S.state old) f
        → Applies S.tells S.state cmd reply old new → reply ≡ Refused Stopped → (S.state old).books.stopped ≡ true }
    ensures spent { IsTrue S.tells → (old new : S) (f : Session) (cmd : Cmd) (reply : Reply) → IsSession (S.state old) f
        → Applies S.tells S.state cmd reply old new → reply ≡ Refused Spent → is_spent (S.state old).books ≡ true }
{
    a_tree_in_memory_refuses_for_no_disk();
}

/// One command raises the journal's numbers by less than 2^20.
pub fn a_command_raises_the_numbers_little<S: Blocks>()
    ensures { (old new : S) (cmd : Cmd) (reply : Reply) → Applies S.tells S.state cmd reply old new
        → (S.state new).books.turns ≤ (S.state old).books.turns + 2 ^ 20 }
{}

/// A command that needn't wait for the disk has no notice but those of its tick: behind them come writes alone. It is
/// said where it is known what polls answer.
pub fn a_command_that_needs_no_wait_makes_none<S: Blocks>()
    ensures { IsTrue S.tells → (old new : S) (f : Session) (cmd : Cmd) (reply : Reply) → cmd ≢ Bad → (S.state old).books.stopped ≡ false
        → is_spent (S.state old).books ≡ false → IsSession (S.state old) f → NeedsNoWait (S.state old) f cmd
        → Applies S.tells S.state cmd reply old new
        → PollsThenWrites (S.state old).counts.ticks.manner 64 (S.state old).counts.ticks.polls (S.state old).crash.log
        (S.state new).counts.ticks.polls (S.state new).crash.log }
{}

/// Of the blocks that may be taken, a command that is done takes no more than it needs, and one that is refused takes
/// none; others may come back. Where they were data blocks, ascending, so are they behind it.
pub fn a_command_takes_no_more_blocks_than_it_needs()
    ensures keeps { (g : Geometry) (f next : Session) (old new : Room) (cmd : Cmd) (reply : Reply) → AnswersOn g f old cmd reply next new
        → old.takeable ≡ filter (has old.takeable) (data_blocks g) → new.takeable ≡ filter (has new.takeable) (data_blocks g) }
    ensures few { (g : Geometry) (f next : Session) (old new : Room) (cmd : Cmd) (reply : Reply) → AnswersOn g f old cmd reply next new
        → old.takeable ≡ filter (has old.takeable) (data_blocks g)
        → length old.takeable ≤ length new.takeable + (if is_refusal reply then 0 else (figures_in g f old cmd).need) }
{}
