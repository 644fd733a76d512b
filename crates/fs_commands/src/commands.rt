//! A command answered: whether it begins, and which call plans or does it then. What each one plans is decided
//! elsewhere.

ghost use Rattle.std.specs.Prelude.{◌≡◌, ◌≢◌, ◌≤◌, true, false, IsTrue};
ghost use Rattle.lang_tree.specs.declared.command.Cmd.TheVariants.{At, Bad as NoCommand};
ghost use Rattle.lang_tree.specs.Step.{changes_snapshots};
ghost use Rattle.fs_commands.specs.Held.{Holds, looks_back};
ghost use Rattle.fs_commands.specs.Known.{Knows, counts_in};
ghost use Rattle.fs_files.specs.Calls.{files_in};
ghost use Rattle.fs_files.specs.Drafts.{nothing_drafted};
ghost use Rattle.fs_session.specs.Applying.{Applies, Began, Runs, is_spent, reply_for};
ghost use Rattle.fs_session.specs.Commands.{is_on_tree};
ghost use Rattle.fs_session.specs.Plans.{MayBeMade, OnChange, Plans};
ghost use Rattle.fs_session.specs.Sessions.{AreUsedBelow, IsBetween, MayPlan, Stands};
ghost use Rattle.fs_session.specs.Syncs.{MaySyncNow};

use crate::bytes::plan_write;
use crate::fills::plan_fill;
use crate::held::HeldNodes;
use crate::kept_looks::{plan_at, plan_snaps};
use crate::known::KnownSnapshots;
use crate::look::{plan_list, plan_read, plan_stat};
use crate::making::{plan_link, plan_node};
use crate::removing::{plan_rmdir, plan_unlink};
use crate::renaming::plan_rename;
use crate::sizes::plan_truncate;
use crate::snapping::{snap, unsnap};
use base_types::Name;
use engine_blocks::{Blocks, calls_compose};
use fs_files::a_sync_may_follow;
use fs_session::{
    Plan, UnusedNodes, a_draft_that_leaves_snapshots_makes_its_tree, carry, dsync, dwait, osync,
};
use fs_snapshots::what_is_known_of_snapshots_is_so;
use lang_tree::{Cmd, Kind, Look, Refusal, Reply};
use std::alloc::Global;

/// Answers a command: at once where it is none, where a call of the disk failed before, or where the journal's numbers
/// are used up; and else as it begins. All nodes are in use but those that may be unused.
pub(crate) fn answer<S: Blocks>(
    alloc: Global,
    blocks: &mut S,
    cmd: &Cmd,
    unused: &mut UnusedNodes,
    known: &mut KnownSnapshots,
    held: &mut Option<HeldNodes>,
) -> Reply
    requires between { IsBetween S.tells (S.state blocks.old) unused.old }
    requires knows { Knows S.tells (S.state blocks.old) known.old }
    requires holds { Holds S.tells (S.state blocks.old) held.old }
    requires stands { IsTrue S.tells → Stands (S.state blocks.old) }
    ensures applies { Applies S.tells S.state cmd.now result blocks.old blocks.new }
    ensures between { IsBetween S.tells (S.state blocks.new) unused.new }
    ensures knows { Knows S.tells (S.state blocks.new) known.new }
    ensures holds { Holds S.tells (S.state blocks.new) held.new }
{
    if let Cmd::Bad = cmd {
        return Reply::Bad;
    }
    let now = blocks.figures();
    if now.stopped {
        return Reply::Refused(Refusal::Stopped);
    }
    if now.spent {
        return Reply::Refused(Refusal::Spent);
    }
    begin(alloc, blocks, cmd, unused, known, held)
}

/// Begins a command with a tick, and carries it out.
fn begin<S: Blocks>(
    alloc: Global,
    blocks: &mut S,
    cmd: &Cmd,
    unused: &mut UnusedNodes,
    known: &mut KnownSnapshots,
    held: &mut Option<HeldNodes>,
) -> Reply
    requires going { (S.state blocks.old).books.stopped ≡ false }
    requires unspent { is_spent (S.state blocks.old).books ≡ false }
    requires between { IsBetween S.tells (S.state blocks.old) unused.old }
    requires knows { Knows S.tells (S.state blocks.old) known.old }
    requires holds { Holds S.tells (S.state blocks.old) held.old }
    requires stands { IsTrue S.tells → Stands (S.state blocks.old) }
    requires some { cmd.now ≢ NoCommand }
    ensures began { Began S.tells S.state cmd.now result blocks.old blocks.new }
    ensures between { IsBetween S.tells (S.state blocks.new) unused.new }
    ensures knows { Knows S.tells (S.state blocks.new) known.new }
    ensures holds { Holds S.tells (S.state blocks.new) held.new }
{
    a_sync_may_follow();
    match blocks.tick() {
        Ok(()) => reply_for(run(alloc, blocks, cmd, unused, known, held)),
        Err(_) => Reply::Refused(Refusal::DiskFault),
    }
}

/// The reply to a command that ended so.
fn reply_for(ended: Result<Reply, Refusal>) -> Reply
    ensures { result ≡ reply_for ended }
{
    match ended {
        Ok(reply) => reply,
        Err(why) => Reply::Refused(why),
    }
}

/// Carries a command out.
///
/// # Errors
/// The blocks have no room for it; a read of the disk failed, or another call of it; or out of memory.
fn run<S: Blocks>(
    alloc: Global,
    blocks: &mut S,
    cmd: &Cmd,
    unused: &mut UnusedNodes,
    known: &mut KnownSnapshots,
    held: &mut Option<HeldNodes>,
) -> Result<Reply, Refusal>
    requires may { MaySyncNow (S.state blocks.old).books }
    requires between { IsBetween S.tells (S.state blocks.old) unused.old }
    requires knows { Knows S.tells (S.state blocks.old) known.old }
    requires holds { Holds S.tells (S.state blocks.old) held.old }
    requires stands { IsTrue S.tells → Stands (S.state blocks.old) }
    requires some { cmd.now ≢ NoCommand }
    ensures runs { Runs S.tells S.state cmd.now result blocks.old blocks.new }
    ensures between { IsBetween S.tells (S.state blocks.new) unused.new }
    ensures knows { Knows S.tells (S.state blocks.new) known.new }
    ensures holds { Holds S.tells (S.state blocks.new) held.new }
{
    what_is_known_of_snapshots_is_so();
    match cmd {
        Cmd::Osync => osync(alloc, blocks),
        Cmd::Dsync => dsync(alloc, blocks),
        Cmd::Durable => Ok(Reply::Known(blocks.durable())),
        Cmd::Dwait(n) => dwait(blocks, *n),
        Cmd::Poll => Ok(Reply::Ok),
        Cmd::Bad => Ok(Reply::Bad),
        Cmd::Snap(name) => {
            *held = None;
            snap(alloc, blocks, name, unused, known)
        }
        Cmd::Unsnap(name) => {
            *held = None;
            unsnap(alloc, blocks, name, unused, known)
        }
        Cmd::At(name, look) => look_back(alloc, blocks, name, look, unused, known, held),
        _ => run_on_tree(alloc, blocks, cmd, unused, known, held),
    }
}

/// Plans a command on the tree, and carries it out.
///
/// # Errors
/// As `run`.
fn run_on_tree<S: Blocks>(
    alloc: Global,
    blocks: &mut S,
    cmd: &Cmd,
    unused: &mut UnusedNodes,
    known: &mut KnownSnapshots,
    held: &Option<HeldNodes>,
) -> Result<Reply, Refusal>
    requires may { MaySyncNow (S.state blocks.old).books }
    requires between { IsBetween S.tells (S.state blocks.old) unused.old }
    requires knows { Knows S.tells (S.state blocks.old) known.old }
    requires holds { Holds S.tells (S.state blocks.old) held.now }
    requires stands { IsTrue S.tells → Stands (S.state blocks.old) }
    requires on_tree { is_on_tree cmd.now ≡ true }
    requires stays { changes_snapshots cmd.now ≡ false }
    requires live { looks_back cmd.now ≡ false }
    ensures runs { Runs S.tells S.state cmd.now result blocks.old blocks.new }
    ensures between { IsBetween S.tells (S.state blocks.new) unused.new }
    ensures knows { Knows S.tells (S.state blocks.new) known.new }
    ensures holds { Holds S.tells (S.state blocks.new) held.now }
{
    a_sync_may_follow();
    calls_compose::<S>();
    what_is_known_of_snapshots_is_so();
    let planned = plan(alloc, blocks, cmd, unused.least(), known);
    a_draft_that_leaves_snapshots_makes_its_tree(blocks);
    carry(alloc, blocks, planned, unused)
}

/// Looks at what the snapshot of this name keeps.
///
/// # Errors
/// A read of the disk failed; or out of memory.
fn look_back<S: Blocks>(
    alloc: Global,
    blocks: &mut S,
    name: &Name,
    look: &Look,
    unused: &mut UnusedNodes,
    known: &KnownSnapshots,
    held: &mut Option<HeldNodes>,
) -> Result<Reply, Refusal>
    requires may { MaySyncNow (S.state blocks.old).books }
    requires between { IsBetween S.tells (S.state blocks.old) unused.old }
    requires knows { Knows S.tells (S.state blocks.old) known.now }
    requires holds { Holds S.tells (S.state blocks.old) held.old }
    requires stands { IsTrue S.tells → Stands (S.state blocks.old) }
    ensures runs { Runs S.tells S.state (At name.now look.now) result blocks.old blocks.new }
    ensures between { IsBetween S.tells (S.state blocks.new) unused.new }
    ensures knows { Knows S.tells (S.state blocks.new) known.now }
    ensures holds { Holds S.tells (S.state blocks.new) held.new }
{
    a_sync_may_follow();
    calls_compose::<S>();
    what_is_known_of_snapshots_is_so();
    let planned = plan_at(alloc, blocks, name, look, known, held);
    carry(alloc, blocks, planned, unused)
}

/// Plans a command on the tree. All nodes of a number below `first_unused` are in use.
///
/// # Errors
/// As `run`.
fn plan<'a, S: Blocks>(
    alloc: Global,
    blocks: &mut S,
    cmd: &Cmd,
    first_unused: u32,
    known: &'a KnownSnapshots,
) -> Result<Plan<'a>, Refusal>
    requires may { MayPlan S.tells (S.state blocks.old) (counts_in known.now) }
    requires above { 1 ≤ first_unused }
    requires below { IsTrue S.tells → AreUsedBelow (files_in (S.state blocks.old) nothing_drafted) first_unused }
    requires knows { Knows S.tells (S.state blocks.old) known.now }
    requires on_tree { is_on_tree cmd.now ≡ true }
    requires stays { changes_snapshots cmd.now ≡ false }
    requires live { looks_back cmd.now ≡ false }
    ensures plans { Plans S.tells cmd.now result (S.state blocks.old) (S.state blocks.new) }
    ensures made { OnChange result (λ draft cost nodes. MayBeMade S.tells draft cost nodes (S.state blocks.new)) }
{
    let shared = known.shared();
    match cmd {
        Cmd::Mkdir(path) => plan_node(alloc, blocks, Kind::Dir, path, first_unused, shared),
        Cmd::Create(path) => plan_node(alloc, blocks, Kind::File, path, first_unused, shared),
        Cmd::Write(path, offset, bytes) => {
            plan_write(alloc, blocks, path, *offset, bytes.as_slice(), shared)
        }
        Cmd::Fill(path, offset, count, byte) => {
            plan_fill(alloc, blocks, path, *offset, *count, *byte, shared)
        }
        Cmd::Truncate(path, size) => plan_truncate(alloc, blocks, path, *size, shared),
        Cmd::Link(path, other) => plan_link(alloc, blocks, path, other, shared),
        Cmd::Unlink(path) => plan_unlink(alloc, blocks, path, shared),
        Cmd::Rmdir(path) => plan_rmdir(alloc, blocks, path, shared),
        Cmd::Read(path, offset, len) => plan_read(alloc, blocks, path, *offset, *len, shared),
        Cmd::Stat(path) => plan_stat(alloc, blocks, path, shared),
        Cmd::List(path) => plan_list(alloc, blocks, path, shared),
        Cmd::Rename(from, to) => plan_rename(alloc, blocks, from, to, shared),
        Cmd::Snaps => plan_snaps(alloc, blocks, known),
        Cmd::Snap(_) | Cmd::Unsnap(_) | Cmd::At(_, _) => unreachable!(),
        Cmd::Osync | Cmd::Dsync | Cmd::Durable | Cmd::Dwait(_) | Cmd::Poll | Cmd::Bad => {
            unreachable!()
        }
    }
}
