//! A commit that goes into the pipeline: the heart of a sync whose record fits the ring. When to commit, and
//! how places come free, isn't said here.

ghost use Rattle.engine_checkpoint.specs.Joining.{CommitsNext, MayCommitNext};

use crate::Pipeline;
use crate::pipeline::accept;
use disk_contract::Disk;
use engine_running::{CommitRoom, Running, noticed_tickets_stay_so};
use layout_journal::Ring;

/// Commits the running transaction as the next record, and takes it into the pipeline. Nothing is waited for,
/// and it takes no memory but the room given and what was made ready.
///
/// # Errors
/// A write failed, which the disk has counted. The transaction comes back, the pipeline is as it was, and the ring's
/// places stay taken. What a crash leaves is still one sync point.
pub fn commit_next<D: Disk>(
    disk: &mut D,
    ring: &mut Ring,
    pipeline: &mut Pipeline,
    running: Running,
    room: CommitRoom,
    epoch: u64,
    number: u64,
) -> Result<(), Running>
    requires { MayCommitNext (D.state disk.old).blocks running room ring.old pipeline.old number }
    ensures { CommitsNext D.tells running epoch number result ring.old ring.new pipeline.old pipeline.new (D.state disk.old) (D.state disk.new) }
{
    noticed_tickets_stay_so();
    let committed = match running.commit(room, disk, ring, epoch, number) {
        Ok(committed) => committed,
        Err(running) => return Err(running),
    };
    accept(pipeline, committed);
    Ok(())
}
