//! How commands are answered over blocks that lie in memory, in a room of which each one spends what its figures say.
//! The functions do nothing; their clauses are laws. How commands are answered over any blocks is said by `disk`.

ghost use Rattle.std.specs.Prelude.{◌≡◌, true, IsTrue};
ghost use Rattle.engine_blocks.specs.Crashes.{IsBegun};
ghost use Rattle.engine_blocks.specs.PlainOf.{state_of};
ghost use Rattle.engine_blocks.specs.declared.plain.PlainBlocks.{PlainBlocks as InMemory};
ghost use Rattle.lang_tree.specs.declared.command.Cmd.{Cmd};
ghost use Rattle.lang_tree.specs.declared.command.Reply.{Reply};
ghost use Rattle.lang_tree.specs.Step.{Session};
ghost use Rattle.fs_session.specs.Applying.{Applies};
ghost use Rattle.fs_session.specs.Memory.{HasNoBlocks, LieInMemory, room_of};
ghost use Rattle.fs_session.specs.Room.{AnswersIn, IsFirstRoom};
ghost use Rattle.fs_session.specs.Sessions.{IsSession};

use crate::laws::blocks_have_the_map_of_their_tree;
use crate::live::as_many_blocks_are_marked_as_the_tree_has;
use crash_stands::unused_numbers_are_those_of_no_node;
use engine_blocks::{Blocks, PlainBlocks};
use fs_inodes::{
    a_file_reads_as_itself, slots_follow_the_bytes, the_map_gives_the_figures,
    the_map_gives_the_names,
};
use fs_snapshots::{a_sound_snapshot_is_whole, what_is_known_of_snapshots_is_so};
use lang_tree::numbers_of_snapshots_are_in_the_map;
use layout_extent::{a_list_has_its_runs, tidy_runs_are_those_of_their_numbers};

/// Over blocks that lie in memory each command is answered in the session's room, and the blocks are then one of
/// the session that follows.
pub fn a_command_is_answered_in_its_room<S: Blocks>()
    ensures { IsTrue S.tells → LieInMemory S.state → (old new : S) (f : Session) (cmd : Cmd) (reply : Reply) → IsSession (S.state old) f
        → Applies S.tells S.state cmd reply old new
        → (next : Session) × IsSession (S.state new) next × ((S.state new).books.geom ≡ (S.state old).books.geom)
        × AnswersIn (S.state old).books.geom f (room_of (S.state old)) cmd reply next (room_of (S.state new)) }
{
    as_many_blocks_are_marked_as_the_tree_has::<S>();
    blocks_have_the_map_of_their_tree();
    the_map_gives_the_names();
    the_map_gives_the_figures();
    what_is_known_of_snapshots_is_so();
    a_sound_snapshot_is_whole();
    slots_follow_the_bytes();
    a_file_reads_as_itself();
    a_list_has_its_runs();
    tidy_runs_are_those_of_their_numbers();
    numbers_of_snapshots_are_in_the_map();
    unused_numbers_are_those_of_no_node();
}

/// Where nothing was done yet, nothing waits, and no data block is set in the bitmap, the room is the first one.
pub fn nothing_is_taken_at_first<S: Blocks>()
    ensures { IsTrue S.tells → (s : S) (f : Session) → (S.state s).books.waiting ≡ 0 → IsSession (S.state s) f → HasNoBlocks (S.state s)
        → IsBegun (S.state s) → IsFirstRoom (S.state s).books.geom (room_of (S.state s)) }
{
    what_is_known_of_snapshots_is_so();
}

/// Over blocks in memory each command is answered in the session's room, and the blocks are then one of the
/// session that follows.
pub fn commands_in_memory_are_answered_in_their_room()
    ensures { (old new : InMemory) (f : Session) (cmd : Cmd) (reply : Reply) → IsSession (state_of old) f → Applies true state_of cmd reply old new
        → (next : Session) × IsSession (state_of new) next × ((state_of new).books.geom ≡ (state_of old).books.geom)
        × AnswersIn (state_of old).books.geom f (room_of (state_of old)) cmd reply next (room_of (state_of new)) }
{
    a_command_is_answered_in_its_room::<PlainBlocks>();
}
