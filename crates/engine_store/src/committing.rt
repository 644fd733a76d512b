//! A commit of the books' transaction that goes into the pipeline. When to commit, and how places come free, isn't
//! said here.

ghost use Rattle.engine_store.specs.Committing.{CommitsBooks, MayCommitBooks};

use crate::{a_commit_stays_right, a_commit_stays_sound, a_running_transaction_may_be_committed};
use disk_contract::{Disk, DiskFault};
use engine_books::{Books, a_running_transaction_may_be_the_next_record};
use engine_checkpoint::{Pipeline, commit_next};
use engine_running::{CommitRoom, a_record_makes_so_many_writes};
use layout_journal::Ring;
use std::alloc::Global;

/// Commits the books' transaction as the record of this number, which goes into the pipeline. The ring must have room
/// for it, and what was made ready must be enough. Nothing is waited for, and it takes no memory but the room given and
/// what was made ready.
///
/// # Errors
/// A write failed, which the disk has counted. Books and pipeline are as they were, and the ring's places stay taken.
/// What a crash leaves is still one sync point.
pub fn commit_books<D: Disk>(
    alloc: Global,
    disk: &mut D,
    ring: &mut Ring,
    pipeline: &mut Pipeline,
    books: &mut Books,
    room: CommitRoom,
    epoch: u64,
    number: u64,
) -> Result<(), DiskFault>
    requires { MayCommitBooks (D.state disk.old).blocks books.old room ring.old pipeline.old epoch number }
    ensures { CommitsBooks D.tells books.old books.new epoch number result ring.old ring.new pipeline.old pipeline.new (D.state disk.old)
        (D.state disk.new) }
{
    a_running_transaction_may_be_the_next_record();
    a_running_transaction_may_be_committed();
    a_commit_stays_right();
    a_commit_stays_sound();
    a_record_makes_so_many_writes();
    let running = books.take_running(alloc);
    match commit_next(disk, ring, pipeline, running, room, epoch, number) {
        Ok(()) => {
            books.sealed(number);
            Ok(())
        }
        Err(running) => {
            books.give_back(running);
            Err(DiskFault)
        }
    }
}
