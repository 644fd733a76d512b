//! What is known of a file that a path leads to, in each session over the blocks. The function does nothing but
//! call laws.

ghost use Rattle.std.specs.Prelude.{◌≡◌, ℕ, IsTrue, List, Ok as Fine};
ghost use Rattle.lang_tree.specs.Step.{Session};
ghost use Rattle.fs_inodes.specs.Lookups.{walk_on};
ghost use Rattle.fs_files.specs.Calls.{files_in};
ghost use Rattle.fs_files.specs.Drafts.{nothing_drafted};
ghost use Rattle.fs_commands.specs.declared.paths.NodeFound.{NodeFound as FoundValue};
ghost use Rattle.fs_commands.specs.Found.{IsKnownFile};
ghost use Rattle.fs_session.specs.Sessions.{IsSession, MayBegin, inodes};
ghost use Rattle.fs_commands.specs.Writing.{IsFile};

use crate::begins::a_draft_may_begin;
use crate::facts::the_node_at_a_path_gives_the_inode;
use engine_blocks::Blocks;
use fs_files::{Shared, a_file_fits_the_disk};
use fs_inodes::{paths_lead_to_inodes, walks_are_the_same};
use fs_session::blocks_have_the_map_of_their_tree;

/// A file that a walk along a path ends at is the one at the path, in the tree and among the inodes of each
/// session over these blocks. It has at most 2^30 bytes.
pub(crate) fn a_file_is_at_its_path<S: Blocks>(blocks: &S, shared: &Shared)
    requires begin { MayBegin S.tells (S.state blocks.now) shared.now }
    ensures { IsTrue S.tells → (f : Session) (path : List (List ℕ)) (found : FoundValue) → IsSession (S.state blocks.now) f
        → IsFile (files_in (S.state blocks.now) nothing_drafted) found
        → walk_on (inodes (S.state blocks.now)) 1 path ≡ Fine found.number → IsKnownFile (inodes (S.state blocks.now)) f path found }
{
    a_draft_may_begin(blocks);
    a_file_fits_the_disk(blocks);
    blocks_have_the_map_of_their_tree();
    paths_lead_to_inodes();
    the_node_at_a_path_gives_the_inode();
    walks_are_the_same();
}
