//! The commands that only look: what is at a path, the bytes of a file, and the names in a directory. Each
//! returns the reply of the tree, and nothing is changed.

ghost use Rattle.std.specs.Prelude.{◌≡◌, ◌≤◌, ◌^◌, IsTrue, IfOk, IfErr};
ghost use Rattle.lang_tree.specs.declared.command.Cmd.TheVariants.{Read, Stat as StatCmd, List as ListNames};
ghost use Rattle.lang_tree.specs.Step.{Session, step};
ghost use Rattle.crash_stands.specs.Bounds.{bounds_of};
ghost use Rattle.crash_stands.specs.Inodes.{inodes_of};
ghost use Rattle.fs_files.specs.Asks.{MayRead};
ghost use Rattle.fs_files.specs.Calls.{LookRefused, is_dir};
ghost use Rattle.fs_files.specs.Content.{fails_reading};
ghost use Rattle.fs_files.specs.Effects.{LooksOnly};
ghost use Rattle.fs_commands.specs.Looks.{answer_of, stat_of_kind, IsMapOfSession};
ghost use Rattle.fs_session.specs.Plans.{IsAnswer, Plans};
ghost use Rattle.fs_session.specs.Sessions.{IsSession, MayBegin, MayPlan};

use crate::begins::a_draft_may_begin;
use crate::paths::{NodeFound, find_in};
use crate::refusals::refusal_of;
use base_types::Layout;
use engine_blocks::{Blocks, calls_compose};
use fs_dirs::names;
use fs_files::{Draft, FileRefusal, Nodes, Shared};
use fs_inodes::{
    slots_follow_the_bytes, the_map_gives_the_names, the_map_gives_the_reply, walks_are_the_same,
};
use fs_session::{Plan, blocks_have_the_map_of_their_tree};
use lang_tree::{Kind, Path, Refusal, Reply, Stat};
use layout_bytes::NodeKind;
use std::alloc::Global;

/// What is at a path: kind, number, size and links.
///
/// # Errors
/// A read of the disk failed, which the disk has counted; or out of memory.
pub fn stat<S: Blocks>(
    alloc: Global,
    blocks: &mut S,
    path: &Path,
    shared: &Shared,
) -> Result<Reply, FileRefusal>
    requires begin { MayBegin S.tells (S.state blocks.old) shared.now }
    ensures answer { IsTrue S.tells → IfOk result (λ reply. (f : Session) → IsSession (S.state blocks.old) f → reply ≡ (step f (StatCmd path.now)).1) }
    ensures refused { IfErr result LookRefused }
    ensures looks { LooksOnly S.tells (fails_reading result) (S.state blocks.old) (S.state blocks.new) }
{
    a_draft_may_begin(blocks);
    blocks_have_the_map_of_their_tree();
    let draft = Draft::beside(alloc, shared);
    stat_in(&draft, blocks, path)
}

/// The same of these files.
///
/// # Errors
/// A read of the disk failed, which the disk has counted.
pub(crate) fn stat_in<N: Nodes, S: Blocks>(
    files: &N,
    blocks: &mut S,
    path: &Path,
) -> Result<Reply, FileRefusal>
    requires read { MayRead (N.may_read S.tells (S.state blocks.old) files.now) (S.state blocks.old) }
    ensures answer { IsTrue S.tells → IfOk result (λ reply. (f : Session)
        → IsMapOfSession (bounds_of (S.state blocks.old).books.geom) (inodes_of (S.state blocks.old).books.geom.layout (N.nodes
        (S.state blocks.old) files.now).files) f
        → reply ≡ (step f (StatCmd path.now)).1) }
    ensures refused { IfErr result LookRefused }
    ensures looks { LooksOnly S.tells (fails_reading result) (S.state blocks.old) (S.state blocks.new) }
{
    files.laws(blocks);
    slots_follow_the_bytes();
    the_map_gives_the_reply();
    walks_are_the_same();
    match find_in(files, blocks, path)? {
        Ok(found) => Ok(stat_reply(&found, blocks.geom().layout())),
        Err(why) => Ok(Reply::Refused(why)),
    }
}

/// The most bytes that a node may be said to have, which no node on a disk has.
const MOST_BYTES: u64 = 1 << 38;

/// What is told of a node.
fn stat_reply(found: &NodeFound, layout: Layout) -> Reply
    ensures { found.now.facts.size ≤ 2 ^ 38
        → result ≡ stat_of_kind layout found.now.facts.kind found.now.number found.now.facts.links found.now.facts.size }
{
    let (kind, links) = match found.facts.kind {
        NodeKind::Free => return Reply::Refused(Refusal::NotFound),
        NodeKind::Dir => (Kind::Dir, 1),
        NodeKind::File => (Kind::File, u64::from(found.facts.links)),
        NodeKind::Snapshot => return Reply::Refused(Refusal::NotFound),
    };
    Reply::Stat(Stat {
        kind,
        number: found.number,
        size: found
            .facts
            .kind
            .size(found.facts.size.min(MOST_BYTES), layout),
        links,
    })
}

/// The bytes of a file from `offset` on, at most `len`.
///
/// # Errors
/// As `stat`.
pub fn read<S: Blocks>(
    alloc: Global,
    blocks: &mut S,
    path: &Path,
    offset: u32,
    len: u32,
    shared: &Shared,
) -> Result<Reply, FileRefusal>
    requires begin { MayBegin S.tells (S.state blocks.old) shared.now }
    ensures answer { IsTrue S.tells → IfOk result (λ reply. (f : Session) → IsSession (S.state blocks.old) f → reply ≡ (step f (Read path.now offset len)).1) }
    ensures refused { IfErr result LookRefused }
    ensures looks { LooksOnly S.tells (fails_reading result) (S.state blocks.old) (S.state blocks.new) }
{
    a_draft_may_begin(blocks);
    blocks_have_the_map_of_their_tree();
    let draft = Draft::beside(alloc, shared);
    read_in(&draft, alloc, blocks, path, offset, len)
}

/// The same of these files.
///
/// # Errors
/// As `stat`.
pub(crate) fn read_in<N: Nodes, S: Blocks>(
    files: &N,
    alloc: Global,
    blocks: &mut S,
    path: &Path,
    offset: u32,
    len: u32,
) -> Result<Reply, FileRefusal>
    requires read { MayRead (N.may_read S.tells (S.state blocks.old) files.now) (S.state blocks.old) }
    ensures answer { IsTrue S.tells → IfOk result (λ reply. (f : Session)
        → IsMapOfSession (bounds_of (S.state blocks.old).books.geom) (inodes_of (S.state blocks.old).books.geom.layout (N.nodes
        (S.state blocks.old) files.now).files) f
        → reply ≡ (step f (Read path.now offset len)).1) }
    ensures refused { IfErr result LookRefused }
    ensures looks { LooksOnly S.tells (fails_reading result) (S.state blocks.old) (S.state blocks.new) }
{
    files.laws(blocks);
    calls_compose::<S>();
    the_map_gives_the_reply();
    walks_are_the_same();
    let found = match find_in(files, blocks, path)? {
        Ok(found) => found,
        Err(why) => return Ok(Reply::Refused(why)),
    };
    if is_dir(found.facts.kind) {
        return Ok(Reply::Refused(Refusal::IsDir));
    }
    match files.read_at(alloc, blocks, found.number, u64::from(offset), len) {
        Ok(bytes) => Ok(Reply::Bytes(bytes)),
        Err(why) => Err(why),
    }
}

/// The names in a directory, ascending by their bytes.
///
/// # Errors
/// As `stat`.
pub fn list<S: Blocks>(
    alloc: Global,
    blocks: &mut S,
    path: &Path,
    shared: &Shared,
) -> Result<Reply, FileRefusal>
    requires begin { MayBegin S.tells (S.state blocks.old) shared.now }
    ensures answer { IsTrue S.tells → IfOk result (λ reply. (f : Session) → IsSession (S.state blocks.old) f → reply ≡ (step f (ListNames path.now)).1) }
    ensures refused { IfErr result LookRefused }
    ensures looks { LooksOnly S.tells (fails_reading result) (S.state blocks.old) (S.state blocks.new) }
{
    a_draft_may_begin(blocks);
    blocks_have_the_map_of_their_tree();
    let draft = Draft::beside(alloc, shared);
    list_in(&draft, alloc, blocks, path)
}

/// The same of these files.
///
/// # Errors
/// As `stat`.
pub(crate) fn list_in<N: Nodes, S: Blocks>(
    files: &N,
    alloc: Global,
    blocks: &mut S,
    path: &Path,
) -> Result<Reply, FileRefusal>
    requires read { MayRead (N.may_read S.tells (S.state blocks.old) files.now) (S.state blocks.old) }
    ensures answer { IsTrue S.tells → IfOk result (λ reply. (f : Session)
        → IsMapOfSession (bounds_of (S.state blocks.old).books.geom) (inodes_of (S.state blocks.old).books.geom.layout (N.nodes
        (S.state blocks.old) files.now).files) f
        → reply ≡ (step f (ListNames path.now)).1) }
    ensures refused { IfErr result LookRefused }
    ensures looks { LooksOnly S.tells (fails_reading result) (S.state blocks.old) (S.state blocks.new) }
{
    files.laws(blocks);
    calls_compose::<S>();
    the_map_gives_the_names();
    the_map_gives_the_reply();
    walks_are_the_same();
    let found = match find_in(files, blocks, path)? {
        Ok(found) => found,
        Err(why) => return Ok(Reply::Refused(why)),
    };
    if !is_dir(found.facts.kind) {
        return Ok(Reply::Refused(Refusal::NotDir));
    }
    match names(files, alloc, blocks, found.number) {
        Ok(names) => Ok(Reply::Names(names)),
        Err(why) => Err(why),
    }
}

/// Plans a stat: its reply.
///
/// # Errors
/// A read of the disk failed; or out of memory.
pub(crate) fn plan_stat<'a, S: Blocks>(
    alloc: Global,
    blocks: &mut S,
    path: &Path,
    shared: &'a Shared,
) -> Result<Plan<'a>, Refusal>
    requires may { MayPlan S.tells (S.state blocks.old) shared.now }
    ensures plans { Plans S.tells (StatCmd path.now) result (S.state blocks.old) (S.state blocks.new) }
    ensures answers { IsAnswer result }
{
    calls_compose::<S>();
    answer(stat(alloc, blocks, path, shared))
}

/// Plans a read: its reply.
///
/// # Errors
/// As `plan_stat`.
pub(crate) fn plan_read<'a, S: Blocks>(
    alloc: Global,
    blocks: &mut S,
    path: &Path,
    offset: u32,
    len: u32,
    shared: &'a Shared,
) -> Result<Plan<'a>, Refusal>
    requires may { MayPlan S.tells (S.state blocks.old) shared.now }
    ensures plans { Plans S.tells (Read path.now offset len) result (S.state blocks.old) (S.state blocks.new) }
    ensures answers { IsAnswer result }
{
    calls_compose::<S>();
    answer(read(alloc, blocks, path, offset, len, shared))
}

/// Plans a list: its reply.
///
/// # Errors
/// As `plan_stat`.
pub(crate) fn plan_list<'a, S: Blocks>(
    alloc: Global,
    blocks: &mut S,
    path: &Path,
    shared: &'a Shared,
) -> Result<Plan<'a>, Refusal>
    requires may { MayPlan S.tells (S.state blocks.old) shared.now }
    ensures plans { Plans S.tells (ListNames path.now) result (S.state blocks.old) (S.state blocks.new) }
    ensures answers { IsAnswer result }
{
    calls_compose::<S>();
    answer(list(alloc, blocks, path, shared))
}

/// The plan of a command that only looks.
fn answer<'a>(looked: Result<Reply, FileRefusal>) -> Result<Plan<'a>, Refusal>
    ensures { result ≡ answer_of looked }
{
    match looked {
        Ok(reply) => Ok(Plan::Answer(reply)),
        Err(why) => Err(refusal_of(why)),
    }
}

/// Whether a node of this kind is a directory.
pub(crate) fn is_dir(kind: NodeKind) -> bool
    ensures { result ≡ is_dir kind }
{
    match kind {
        NodeKind::Free => false,
        NodeKind::Dir => true,
        NodeKind::File => false,
        NodeKind::Snapshot => false,
    }
}
