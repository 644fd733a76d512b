//! The commands snaps and at: the names of the snapshots, and a look at what one keeps. The looks are those at the tree,
//! over the snapshot's nodes, which `held` keeps in memory. No block is changed.

ghost use Rattle.std.specs.Prelude.{◌≡◌, IsTrue, Some, IfOk, IfErr, IfSome};
ghost use Rattle.lang_tree.specs.declared.command.Cmd.TheVariants.{At, Snaps};
ghost use Rattle.lang_tree.specs.Step.{Session, look_command, session_on, step};
ghost use Rattle.lang_tree.specs.Tree.{Kept, kept_tree};
ghost use Rattle.crash_stands.specs.Bounds.{bounds_of};
ghost use Rattle.crash_stands.specs.Inodes.{inodes_of};
ghost use Rattle.fs_files.specs.Asks.{MayRead};
ghost use Rattle.fs_files.specs.Calls.{LookRefused};
ghost use Rattle.fs_files.specs.Content.{fails_reading};
ghost use Rattle.fs_files.specs.Effects.{LooksOnly};
ghost use Rattle.crash_stands.specs.Stands.{KeepsTree};
ghost use Rattle.fs_commands.specs.Held.{Holds};
ghost use Rattle.fs_commands.specs.Known.{Knows, counts_in};
ghost use Rattle.fs_commands.specs.Looks.{IsMapOfSession};
ghost use Rattle.fs_commands.specs.Refusals.{kept_refusal};
ghost use Rattle.fs_commands.specs.Snapping.{IsSnapshot};
ghost use Rattle.fs_snapshots.specs.Kept.{KeptState, MayReadKept};
ghost use Rattle.fs_session.specs.Commands.{places_of};
ghost use Rattle.fs_session.specs.Plans.{IsAnswer, Plans};
ghost use Rattle.fs_session.specs.Sessions.{MayBegin, MayPlan};

use crate::begins::a_draft_may_begin;
use crate::held::{HeldNodes, hold};
use crate::known::KnownSnapshots;
use crate::listing::is_in_table;
use crate::look::{list_in, read_in, stat_in};
use crate::refusals::refusal_of;
use base_types::Name;
use engine_blocks::{Blocks, calls_compose};
use fs_files::{Draft, FileRefusal, Nodes, Shared};
use fs_session::Plan;
use fs_snapshots::{
    KeptNodes, SnapshotRefusal, a_sound_snapshot_is_whole, kept_nodes_have_the_map_of_their_tree,
    what_is_known_of_snapshots_is_so,
};
use lang_tree::{Look, NameList, Refusal, Reply, a_snapshot_keeps_its_tree};
use std::alloc::Global;

/// Plans a snaps: the names of the snapshots, ascending. Nothing is read.
///
/// # Errors
/// Out of memory.
pub(crate) fn plan_snaps<'a, S: Blocks>(
    alloc: Global,
    blocks: &S,
    known: &KnownSnapshots,
) -> Result<Plan<'a>, Refusal>
    requires may { MayPlan S.tells (S.state blocks.now) (counts_in known.now) }
    requires knows { Knows S.tells (S.state blocks.now) known.now }
    ensures plans { Plans S.tells Snaps result (S.state blocks.now) (S.state blocks.now) }
    ensures answers { IsAnswer result }
{
    calls_compose::<S>();
    what_is_known_of_snapshots_is_so();
    match known.names(alloc) {
        Ok(names) => Ok(Plan::Answer(Reply::Names(NameList::from_names(names)))),
        Err(_) => Err(Refusal::NoMemory),
    }
}

/// Plans a look at what the snapshot of this name keeps: its reply. Where no snapshot has the name nothing is read; else
/// the snapshot's nodes are held then.
///
/// # Errors
/// A read of the disk failed; or out of memory.
pub(crate) fn plan_at<'a, S: Blocks>(
    alloc: Global,
    blocks: &mut S,
    name: &Name,
    look: &Look,
    known: &KnownSnapshots,
    held: &mut Option<HeldNodes>,
) -> Result<Plan<'a>, Refusal>
    requires may { MayPlan S.tells (S.state blocks.old) (counts_in known.now) }
    requires knows { Knows S.tells (S.state blocks.old) known.now }
    requires holds { Holds S.tells (S.state blocks.old) held.old }
    ensures plans { Plans S.tells (At name.now look.now) result (S.state blocks.old) (S.state blocks.new) }
    ensures answers { IsAnswer result }
    ensures holds { Holds S.tells (S.state blocks.new) held.new }
{
    calls_compose::<S>();
    what_is_known_of_snapshots_is_so();
    a_snapshot_keeps_its_tree();
    let Some(number) = known.number(name) else {
        return Ok(Plan::Answer(Reply::Refused(Refusal::NoSnap)));
    };
    match look_at_kept(alloc, blocks, number, look, known.shared(), held) {
        Ok(reply) => Ok(Plan::Answer(reply)),
        Err(why) => Err(refusal_of(why)),
    }
}

/// The reply of a look at what the snapshot of this number keeps.
///
/// # Errors
/// A read of the disk failed, which the disk has counted; or out of memory.
fn look_at_kept<S: Blocks>(
    alloc: Global,
    blocks: &mut S,
    number: u32,
    look: &Look,
    shared: &Shared,
    held: &mut Option<HeldNodes>,
) -> Result<Reply, FileRefusal>
    requires begin { MayBegin S.tells (S.state blocks.old) shared.now }
    requires snapshot { IsTrue S.tells → IsSnapshot (S.state blocks.old).books.geom (S.state blocks.old).map number }
    requires holds { Holds S.tells (S.state blocks.old) held.old }
    ensures answer { IsTrue S.tells → IfOk result (λ reply. (k : Kept) (f : Session)
        → KeepsTree (S.state blocks.old).books.geom (S.state blocks.old).map (places_of (S.state blocks.old) number) k
        → f ≡ session_on (bounds_of (S.state blocks.old).books.geom) (kept_tree k) → reply ≡ (step f (look_command look.now)).1) }
    ensures refused { IfErr result LookRefused }
    ensures looks { LooksOnly S.tells (fails_reading result) (S.state blocks.old) (S.state blocks.new) }
    ensures holds { Holds S.tells (S.state blocks.new) held.new }
{
    kept_nodes_have_the_map_of_their_tree();
    hold(alloc, blocks, number, shared, held)?;
    match held {
        Some(kept) => look_in(&kept.nodes, alloc, blocks, look),
        None => Ok(Reply::Refused(Refusal::NoSnap)),
    }
}

/// The nodes that the snapshot of this number keeps, to be read. `None` where blocks that aren't known have none.
///
/// # Errors
/// A read of the disk failed, which the disk has counted; or out of memory.
pub(crate) fn kept_nodes<S: Blocks>(
    alloc: Global,
    blocks: &mut S,
    number: u32,
    shared: &Shared,
) -> Result<Option<KeptNodes>, FileRefusal>
    requires begin { MayBegin S.tells (S.state blocks.old) shared.now }
    requires snapshot { IsTrue S.tells → IsSnapshot (S.state blocks.old).books.geom (S.state blocks.old).map number }
    ensures kept { IsTrue S.tells → IfOk result (λ found. (v : KeptState) × (found ≡ Some v) × (v.places ≡ places_of (S.state blocks.old) number)) }
    ensures may { IfOk result (λ found. IfSome found (MayReadKept S.tells (S.state blocks.new))) }
    ensures refused { IfErr result LookRefused }
    ensures looks { LooksOnly S.tells (fails_reading result) (S.state blocks.old) (S.state blocks.new) }
{
    a_draft_may_begin(blocks);
    a_sound_snapshot_is_whole();
    if !is_in_table(number, blocks.geom().i()) {
        return Ok(None);
    }
    let draft = Draft::beside(alloc, shared);
    let Some(file) = draft.open(blocks, number)? else {
        return Ok(None);
    };
    match KeptNodes::read(alloc, blocks, file.blocks) {
        Ok(kept) => Ok(Some(kept)),
        Err(why) => kept_refusal(why),
    }
}

/// Why a snapshot isn't read. One of known blocks has as many as its parts need.
fn kept_refusal(why: SnapshotRefusal) -> Result<Option<KeptNodes>, FileRefusal>
    ensures { result ≡ kept_refusal why }
{
    match why {
        SnapshotRefusal::ReadFault => Err(FileRefusal::ReadFault),
        SnapshotRefusal::NoMemory => Err(FileRefusal::NoMemory),
        SnapshotRefusal::WrongSize => Ok(None),
    }
}

/// The reply of a look at these files.
///
/// # Errors
/// A read of the disk failed, which the disk has counted; or out of memory.
fn look_in<N: Nodes, S: Blocks>(
    files: &N,
    alloc: Global,
    blocks: &mut S,
    look: &Look,
) -> Result<Reply, FileRefusal>
    requires read { MayRead (N.may_read S.tells (S.state blocks.old) files.now) (S.state blocks.old) }
    ensures answer { IsTrue S.tells → IfOk result (λ reply. (f : Session)
        → IsMapOfSession (bounds_of (S.state blocks.old).books.geom) (inodes_of (S.state blocks.old).books.geom.layout (N.nodes
        (S.state blocks.old) files.now).files) f
        → reply ≡ (step f (look_command look.now)).1) }
    ensures refused { IfErr result LookRefused }
    ensures looks { LooksOnly S.tells (fails_reading result) (S.state blocks.old) (S.state blocks.new) }
{
    match look {
        Look::Read(path, offset, count) => read_in(files, alloc, blocks, path, *offset, *count),
        Look::Stat(path) => stat_in(files, blocks, path),
        Look::List(path) => list_in(files, alloc, blocks, path),
    }
}
