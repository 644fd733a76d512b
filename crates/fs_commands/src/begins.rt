//! How the draft of a command begins: empty, beside the blocks that snapshots keep. The function does nothing but
//! call laws.

ghost use Rattle.std.specs.Prelude.{ℕ, List};
ghost use Rattle.fs_files.specs.Drafts.{begun_beside};
ghost use Rattle.fs_files.specs.Sound.{IsDraftOf};
ghost use Rattle.fs_session.specs.Sessions.{MayBegin};

use engine_blocks::Blocks;
use fs_files::{a_draft_begins, sound_beside_what_is_kept};

/// An empty draft beside the blocks that have a count is one of blocks over which it may begin.
pub(crate) fn a_draft_may_begin<S: Blocks>(blocks: &S)
    ensures { (counts : List ℕ) → MayBegin S.tells (S.state blocks.now) counts → IsDraftOf S.tells (S.state blocks.now) (begun_beside counts) }
{
    a_draft_begins(blocks);
    sound_beside_what_is_kept();
}
