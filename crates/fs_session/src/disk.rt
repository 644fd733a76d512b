//! How commands are answered over any map of blocks whose contents are known, as over a disk: in a room of the
//! session that came back, or refused by the disk. The functions do nothing; their clauses are laws. The law of
//! blocks in memory, where nothing waits, is one of `memory`.

ghost use Rattle.std.specs.Prelude.{◌≡◌, ◌≢◌, ◌≤◌, IsTrue};
ghost use Rattle.layout_geometry.specs.Geometry.{Geometry};
ghost use Rattle.lang_tree.specs.declared.command.Cmd.{Cmd};
ghost use Rattle.lang_tree.specs.declared.command.Cmd.TheVariants.{Bad};
ghost use Rattle.lang_tree.specs.declared.command.Refusal.TheVariants.{Stopped};
ghost use Rattle.lang_tree.specs.declared.command.Reply.{Reply};
ghost use Rattle.lang_tree.specs.declared.command.Reply.TheVariants.{Refused};
ghost use Rattle.lang_tree.specs.Step.{Session};
ghost use Rattle.fs_session.specs.Applying.{Applies};
ghost use Rattle.fs_session.specs.DiskRoom.{AnswersOn, IsRoomOf, without_memory};
ghost use Rattle.fs_session.specs.Memory.{room_of};
ghost use Rattle.fs_session.specs.Room.{Room};
ghost use Rattle.fs_session.specs.Serving.{ServesCommand};
ghost use Rattle.fs_session.specs.Sessions.{IsSession};

use crate::laws::blocks_have_the_map_of_their_tree;
use crate::live::as_many_blocks_are_marked_as_the_tree_has;
use crash_stands::unused_numbers_are_those_of_no_node;
use engine_blocks::{Blocks, calls_compose};
use fs_inodes::{
    a_file_reads_as_itself, slots_follow_the_bytes, the_map_gives_the_figures,
    the_map_gives_the_names,
};
use fs_snapshots::{a_sound_snapshot_is_whole, what_is_known_of_snapshots_is_so};
use lang_tree::numbers_of_snapshots_are_in_the_map;
use layout_extent::{a_list_has_its_runs, tidy_runs_are_those_of_their_numbers};

/// Over any blocks whose contents are known a session has its room, and each command is answered in it once it
/// came back, or refused by the disk. The blocks are then one of the session that follows.
pub fn a_command_is_answered_in_a_room_that_came_back<S: Blocks>()
    ensures room { IsTrue S.tells → (s : S) (f : Session) → IsSession (S.state s) f → IsRoomOf (S.state s).books.geom f (room_of (S.state s)) }
    ensures answers { IsTrue S.tells → (old new : S) (f : Session) (cmd : Cmd) (reply : Reply) → IsSession (S.state old) f
        → Applies S.tells S.state cmd reply old new
        → (next : Session) × IsSession (S.state new) next × ((S.state new).books.geom ≡ (S.state old).books.geom)
        × AnswersOn (S.state old).books.geom f (room_of (S.state old)) cmd reply next (room_of (S.state new)) }
{
    as_many_blocks_are_marked_as_the_tree_has::<S>();
    blocks_have_the_map_of_their_tree();
    the_map_gives_the_names();
    the_map_gives_the_figures();
    what_is_known_of_snapshots_is_so();
    a_sound_snapshot_is_whole();
    slots_follow_the_bytes();
    a_file_reads_as_itself();
    a_list_has_its_runs();
    tidy_runs_are_those_of_their_numbers();
    numbers_of_snapshots_are_in_the_map();
    unused_numbers_are_those_of_no_node();
}

/// Over any blocks whose contents are known each command is answered in the room of its session with what waits: the
/// tick serves those blocks whose point is sure then and on which nothing is pending, and no command another, but for
/// want of blocks or of ring places, and then all. The moments are those of the blocks behind the tick and at the end.
pub fn a_command_serves_what_is_sure<S: Blocks>()
    ensures { IsTrue S.tells → (old new : S) (f : Session) (cmd : Cmd) (reply : Reply) → IsSession (S.state old) f → Applies S.tells S.state cmd reply old new
        → (next : Session) × IsSession (S.state new) next × ((S.state new).books.geom ≡ (S.state old).books.geom)
        × ServesCommand S.state f cmd reply next old new }
{
    as_many_blocks_are_marked_as_the_tree_has::<S>();
    blocks_have_the_map_of_their_tree();
    the_map_gives_the_names();
    the_map_gives_the_figures();
    what_is_known_of_snapshots_is_so();
    a_sound_snapshot_is_whole();
    slots_follow_the_bytes();
    a_file_reads_as_itself();
    a_list_has_its_runs();
    tidy_runs_are_those_of_their_numbers();
    numbers_of_snapshots_are_in_the_map();
    unused_numbers_are_those_of_no_node();
    calls_compose::<S>();
}

/// In each room of a session any command may be answered: out of memory, or as the tree answers it where it takes
/// none; and, but for a bad line, by a disk that failed before. The room stays as it is.
pub fn any_command_may_be_answered()
    ensures memory { (g : Geometry) (f : Session) (r : Room) (cmd : Cmd) → IsRoomOf g f r → f.durable ≤ f.points
        → AnswersOn g f r cmd (without_memory f r cmd).1 (without_memory f r cmd).0 r × IsRoomOf g (without_memory f r cmd).0 r }
    ensures stopped { (g : Geometry) (f : Session) (r : Room) (cmd : Cmd) → cmd ≢ Bad → AnswersOn g f r cmd (Refused Stopped) f r }
{}
