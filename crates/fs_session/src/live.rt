//! Which blocks are live, whatever they hold, and how many data blocks are marked where a tree stands in the blocks:
//! as many as the tree has. The functions do nothing but call laws. Whether a command has room is the matter of `space`.

ghost use Rattle.std.specs.Prelude.{◌≡◌, ◌+◌, ◌-◌, ◌<◌, ◌≤◌, ℕ, true, IsTrue, length};
ghost use Rattle.std.specs.FinMap.{empty};
ghost use Rattle.base_types.specs.Seal.{Blocks as BlockMap};
ghost use Rattle.layout_geometry.specs.Geometry.{Geometry, IsGeometry, bitmap_start, data_start};
ghost use Rattle.layout_journal.specs.Run.{is_live};
ghost use Rattle.lang_tree.specs.Figures.{blocks};
ghost use Rattle.lang_tree.specs.Step.{Session};
ghost use Rattle.engine_blocks.specs.State.{live_blocks, reusable_blocks};
ghost use Rattle.fs_session.specs.Memory.{room_of};
ghost use Rattle.fs_session.specs.Room.{left_in};
ghost use Rattle.fs_session.specs.Sessions.{IsSession};
ghost use Rattle.fs_session.specs.Space.{left_of};

use crash_stands::without_snapshots_nothing_is_shared;
use engine_blocks::Blocks;
use fs_inodes::{a_file_reads_as_itself, slots_follow_the_bytes, the_map_gives_the_figures};
use fs_snapshots::what_is_known_of_snapshots_is_so;

/// The blocks of the bitmap and of the node table are live, whatever the blocks hold.
pub fn bitmap_and_node_table_are_live()
    ensures { (g : Geometry) (m : BlockMap) (b : ℕ) → IsGeometry g → bitmap_start g ≤ b → b < data_start g → is_live g m b ≡ true }
{}

/// In a session without snapshots as many data blocks are marked as the tree has. So what is left is the data blocks
/// without those of the tree and those that the transaction freed. In each session it is as much as its room says by its
/// lists. These blocks may be taken, or wait until they may.
pub fn as_many_blocks_are_marked_as_the_tree_has<S: Blocks>()
    ensures live { (s : S) (f : Session) → IsTrue S.tells → IsSession (S.state s) f → f.tree.snapshots ≡ empty
        → length (live_blocks (S.state s).books) ≡ blocks (S.state s).books.geom.layout f.tree }
    ensures left { (s : S) (f : Session) → IsTrue S.tells → IsSession (S.state s) f → f.tree.snapshots ≡ empty
        → left_of (S.state s).books ≡ (S.state s).books.area - blocks (S.state s).books.geom.layout f.tree - (S.state s).books.running.held }
    ensures room { (s : S) (f : Session) → IsTrue S.tells → IsSession (S.state s) f
        → left_of (S.state s).books ≡ left_in (S.state s).books.geom f (room_of (S.state s)) }
    ensures takeable { (s : S) → left_of (S.state s).books ≡ length (reusable_blocks (S.state s).books) + (S.state s).books.waiting }
{
    the_map_gives_the_figures();
    slots_follow_the_bytes();
    a_file_reads_as_itself();
    without_snapshots_nothing_is_shared();
    what_is_known_of_snapshots_is_so();
}
