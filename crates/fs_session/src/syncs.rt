//! The commands that make sync points or wait for one: osync, dsync and dwait. What they do on a disk is for the blocks
//! to say.

ghost use Rattle.std.specs.Prelude.{◌≡◌, ◌<◌, ◌^◌, true, false};
ghost use Rattle.lang_tree.specs.declared.command.Cmd.TheVariants.{Osync, Dsync};
ghost use Rattle.lang_tree.specs.declared.command.Reply.TheVariants.{Synced, DurableAt};
ghost use Rattle.fs_session.specs.declared.unused.UnusedNodes.{UnusedNodes};
ghost use Rattle.fs_session.specs.Sessions.{IsBetween};
ghost use Rattle.fs_session.specs.Syncs.{MaySyncNow, SyncsSession, WaitsSession, refusal_of_sync};

use engine_blocks::{Blocks, SyncRefusal, WaitRefusal};
use fs_files::a_sync_may_follow;
use lang_tree::{Refusal, Reply};
use std::alloc::Global;

/// Makes a sync point, where something changed since the last one.
///
/// # Errors
/// The disk failed; or out of memory, and nothing was done.
pub fn osync<S: Blocks>(alloc: Global, blocks: &mut S) -> Result<Reply, Refusal>
    requires may { MaySyncNow (S.state blocks.old).books }
    ensures syncs { SyncsSession S.tells true Osync result (S.state blocks.old) (S.state blocks.new) }
    ensures between { (unused : UnusedNodes) → IsBetween S.tells (S.state blocks.old) unused → IsBetween S.tells (S.state blocks.new) unused }
{
    a_sync_may_follow();
    match blocks.osync(alloc) {
        Ok(point) => Ok(synced(point)),
        Err(why) => Err(refusal_of_sync(why)),
    }
}

/// Makes a sync point, where something changed since the last one, and waits until the last one is on the
/// disk.
///
/// # Errors
/// As `osync`.
pub fn dsync<S: Blocks>(alloc: Global, blocks: &mut S) -> Result<Reply, Refusal>
    requires may { MaySyncNow (S.state blocks.old).books }
    ensures syncs { SyncsSession S.tells false Dsync result (S.state blocks.old) (S.state blocks.new) }
    ensures between { (unused : UnusedNodes) → IsBetween S.tells (S.state blocks.old) unused → IsBetween S.tells (S.state blocks.new) unused }
{
    a_sync_may_follow();
    match blocks.dsync(alloc) {
        Ok(point) => Ok(durable_at(point)),
        Err(why) => Err(refusal_of_sync(why)),
    }
}

/// Waits until point `n` is on the disk. It takes no memory, and where there is no such point it does nothing.
///
/// # Errors
/// The disk failed.
pub fn dwait<S: Blocks>(blocks: &mut S, n: u32) -> Result<Reply, Refusal>
    requires may { MaySyncNow (S.state blocks.old).books }
    ensures waits { WaitsSession S.tells n result (S.state blocks.old) (S.state blocks.new) }
    ensures between { (unused : UnusedNodes) → IsBetween S.tells (S.state blocks.old) unused → IsBetween S.tells (S.state blocks.new) unused }
{
    a_sync_may_follow();
    let point = u64::from(n);
    match blocks.wait_for(point) {
        Ok(()) => Ok(Reply::DurableAt(point)),
        Err(WaitRefusal::NoPoint { last }) => Ok(Reply::Refused(Refusal::NoPoint { last })),
        Err(WaitRefusal::DiskFault) => Err(Refusal::DiskFault),
    }
}

/// The reply to an osync, by the last point.
fn synced(point: u64) -> Reply
    ensures reply { result ≡ Synced point }
    ensures low { point < 2 ^ 64 }
{
    Reply::Synced(point)
}

/// The reply to a dsync, by the last point.
fn durable_at(point: u64) -> Reply
    ensures reply { result ≡ DurableAt point }
    ensures low { point < 2 ^ 64 }
{
    Reply::DurableAt(point)
}

/// The refusal of a command for that of a sync.
fn refusal_of_sync(why: SyncRefusal) -> Refusal
    ensures { result ≡ refusal_of_sync why }
{
    match why {
        SyncRefusal::DiskFault => Refusal::DiskFault,
        SyncRefusal::NoMemory => Refusal::NoMemory,
    }
}
