//! A queue of jobs over a log: a batch of requests is taken, and acknowledged behind one sync. How a log is opened, and what
//! is asked of the queue, is not said here.

ghost use Rattle.std.specs.Prelude.{◌≡◌, IsTrue, IfErr, IfOk, OnErr};
ghost use Rattle.lang_log.specs.History.{History};
ghost use Rattle.fs_log.specs.Keeping.{Keeps};
ghost use Rattle.fs_log.specs.Open.{state_in};
ghost use Rattle.example_queue.specs.Queue.{Acknowledges, IsRefused, TakesSome};

use base_types::Bytes;
use engine_blocks::Blocks;
use fs_log::{AppLog, LogRefusal};
use std::alloc::Global;

/// Takes a batch of jobs, and answers the number of the first one; the others have those behind it. All of them may be
/// acknowledged then: no crash takes them any more.
///
/// # Errors
/// The log refuses an append or the sync. Then none may be acknowledged; some may have been appended.
pub fn take_batch<S: Blocks + Drop>(
    alloc: Global,
    log: &mut AppLog<S>,
    jobs: &[Bytes],
) -> Result<u32, LogRefusal>
    ensures taken { IsTrue S.tells → IfOk result (λ number. (h : History) → Keeps h (state_in S.state log.old)
        → Acknowledges jobs.now number h (state_in S.state log.new)) }
    ensures refused { IsTrue S.tells → OnErr result ((h : History) → Keeps h (state_in S.state log.old)
        → TakesSome jobs.now h (state_in S.state log.new)) }
    ensures cause { IfErr result (λ why. IsRefused S.tells S.state jobs.now why log.new) }
{
    let (_, number) = log.range();
    for place in 0..jobs.len() {
        log.append(alloc, jobs[place].as_slice())?;
    }
    log.sync(alloc)?;
    Ok(number)
}
