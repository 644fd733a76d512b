//! The commands snap and unsnap: a snapshot of the tree comes or goes. Each is refused from what is known and from reads
//! alone, what it needs is weighed, and one draft makes it; what is known of the snapshots follows once the draft is
//! made. Looks at what a snapshot keeps are described in `kept_looks`.

ghost use Rattle.std.specs.Prelude.{◌≡◌, ◌≢◌, ◌+◌, ◌<◌, ◌≤◌, ℕ, false, IsTrue, IfOk, IfErr, List, None, Some, Ok as Fine, Err as Failed, length};
ghost use Rattle.std.specs.List.{All, AllPairs};
ghost use Rattle.base_types.specs.Seal.{Blocks as BlockMap};
ghost use Rattle.layout_geometry.specs.Geometry.{Geometry, IsGeometry};
ghost use Rattle.lang_tree.specs.declared.command.Cmd.TheVariants.{Snap, Unsnap};
ghost use Rattle.lang_tree.specs.declared.command.Reply.TheVariants.{Refused};
ghost use Rattle.lang_tree.specs.Tree.{Tree};
ghost use Rattle.crash_stands.specs.Files.{used_node};
ghost use Rattle.crash_stands.specs.Places.{table_blocks};
ghost use Rattle.crash_stands.specs.Stands.{AreSound, IsTreeOf};
ghost use Rattle.crash_snapshots.specs.Adding.{AddsSnapshot};
ghost use Rattle.engine_blocks.specs.Puts.{IsData};
ghost use Rattle.fs_files.specs.Calls.{LookRefused, files_in};
ghost use Rattle.fs_files.specs.Content.{fails_reading};
ghost use Rattle.fs_files.specs.Drafts.{nothing_drafted};
ghost use Rattle.fs_files.specs.Effects.{LooksOnly};
ghost use Rattle.fs_files.specs.Shared.{keepers};
ghost use Rattle.fs_dirs.specs.Directories.{IsNumber};
ghost use Rattle.fs_snapshots.specs.Known.{CountsKeepers, snapshot_number};
ghost use Rattle.fs_commands.specs.Known.{CountsIn, Knows, counts_in};
ghost use Rattle.fs_commands.specs.Snapping.{GoesWith, IsSnapshot, MaySnap, MayUnsnap};
ghost use Rattle.fs_session.specs.declared.plan.Plan.TheVariants.{Answer};
ghost use Rattle.fs_session.specs.Commands.{Carries};
ghost use Rattle.fs_session.specs.Plans.{Plans};
ghost use Rattle.fs_session.specs.Sessions.{AreUsedBelow, IsBetween, MayBegin, MayPlan};
ghost use Rattle.fs_session.specs.Snapshots.{live_files};

use crate::begins::a_draft_may_begin;
use crate::figures::{snap_figures, unsnap_figures};
use crate::gathering::{gather_kept, gather_live};
use crate::known::KnownSnapshots;
use crate::listing::is_in_table;
use crate::making::least_unused;
use crate::refusals::refusal_of;
use crate::snapshot_drafts::{plan_snap, plan_unsnap};
use base_types::Name;
use crash_snapshots::{a_snapshot_goes, a_snapshot_stands};
use crash_stands::{a_node_in_use_has_data_blocks, a_snapshot_stays_with_its_blocks};
use engine_blocks::{Blocks, calls_compose};
use fs_files::{Draft, FileRefusal, a_sync_may_follow};
use fs_session::{Plan, UnusedNodes, carry, counts_tell_what_is_shared, has_room};
use fs_snapshots::{a_sound_snapshot_is_whole, what_is_known_of_snapshots_is_so};
use lang_tree::{Refusal, Reply};
use layout_geometry::Geom;
use std::alloc::Global;

/// No disk has so many blocks.
const MOST_BLOCKS: usize = 1048576;

/// A snapshot that may be made: its number, its cost, and the blocks of the files and directories that it is to keep.
#[derive(Drop)]
pub(crate) struct NewSnapshot {
    pub(crate) number: u32,
    pub(crate) cost: u32,
    pub(crate) files: Vec<u32>,
    pub(crate) dirs: Vec<u32>,
}

/// A snapshot that may go: its number, its cost, the blocks of the files that it keeps, and of these the ones that
/// nothing else has.
#[derive(Drop)]
pub(crate) struct Gone {
    pub(crate) number: u32,
    pub(crate) cost: u32,
    pub(crate) kept: Vec<u32>,
    pub(crate) alone: Vec<u32>,
}

/// Keeps the tree as it is under this name.
///
/// # Errors
/// There is no room; the snapshot's blocks would lie in too many runs; a read of the disk failed, or another call of it;
/// or out of memory. Then no snapshot is known that wasn't.
pub(crate) fn snap<S: Blocks>(
    alloc: Global,
    blocks: &mut S,
    name: &Name,
    unused: &mut UnusedNodes,
    known: &mut KnownSnapshots,
) -> Result<Reply, Refusal>
    requires may { MayPlan S.tells (S.state blocks.old) (counts_in known.old) }
    requires between { IsBetween S.tells (S.state blocks.old) unused.old }
    requires knows { Knows S.tells (S.state blocks.old) known.old }
    ensures carries { Carries S.tells (Snap name.now) result (S.state blocks.old) (S.state blocks.new) }
    ensures between { IsBetween S.tells (S.state blocks.new) unused.new }
    ensures knows { Knows S.tells (S.state blocks.new) known.new }
{
    calls_compose::<S>();
    a_sync_may_follow();
    match find_new(alloc, blocks, name, unused.least(), known) {
        Ok(Ok(new)) => make(alloc, blocks, name, &new, unused, known),
        Ok(Err(why)) => carry(alloc, blocks, Ok(Plan::Answer(Reply::Refused(why))), unused),
        Err(why) => carry(alloc, blocks, Err(why), unused),
    }
}

/// The snapshot of this name that may be made, or why the tree refuses it. All nodes of a number below `first_unused`
/// are in use.
///
/// # Errors
/// There is no room; a read of the disk failed; or out of memory.
fn find_new<S: Blocks>(
    alloc: Global,
    blocks: &mut S,
    name: &Name,
    first_unused: u32,
    known: &KnownSnapshots,
) -> Result<Result<NewSnapshot, Refusal>, Refusal>
    requires may { MayPlan S.tells (S.state blocks.old) (counts_in known.now) }
    requires above { 1 ≤ first_unused }
    requires below { IsTrue S.tells → AreUsedBelow (files_in (S.state blocks.old) nothing_drafted) first_unused }
    requires knows { Knows S.tells (S.state blocks.old) known.now }
    ensures new { IfOk result (λ found. IfOk found (MaySnap S.tells (S.state blocks.new) name.now)) }
    ensures looks { IfOk result (λ found. LooksOnly S.tells false (S.state blocks.old) (S.state blocks.new)) }
    ensures refused { IfOk result (λ found. IfErr found (λ why. Plans S.tells (Snap name.now) (Fine (Answer (Refused why))) (S.state blocks.old)
        (S.state blocks.new))) }
    ensures lacking { IfErr result (λ why. Plans S.tells (Snap name.now) (Failed why) (S.state blocks.old) (S.state blocks.new)) }
{
    calls_compose::<S>();
    counts_tell_what_is_shared::<S>();
    what_is_known_of_snapshots_is_so();
    a_node_in_use_has_data_blocks();
    blocks.geom().lawful();
    if known.number(name).is_some() {
        return Ok(Err(Refusal::Exists));
    }
    let number = match least_unused(alloc, blocks, first_unused, known.shared()) {
        Ok(Some(number)) => number,
        Ok(None) => return Ok(Err(Refusal::NoNode)),
        Err(why) => return Err(refusal_of(why)),
    };
    let live = match gather_live(alloc, blocks) {
        Ok(live) => live,
        Err(why) => return Err(refusal_of(why)),
    };
    let geom = blocks.geom();
    let figures = snap_figures(geom.bitmap_blocks(), snapshot_count(&geom, &live.dirs));
    match has_room(blocks, &figures) {
        Ok(()) => {}
        Err(why) => return Err(why),
    }
    Ok(Ok(NewSnapshot {
        number,
        cost: figures.cost,
        files: live.files,
        dirs: live.dirs,
    }))
}

/// How many blocks a snapshot has where the directories have these. No disk has more than 2^20.
fn snapshot_count(geom: &Geom, dirs: &[u32]) -> u32
    ensures value { length dirs.now ≤ 1048576 → result ≡ 1 + (table_blocks geom.now + length dirs.now) }
    ensures most { result ≤ 134217728 }
{
    geom.lawful();
    let dirs = dirs.len().min(MOST_BLOCKS) as u32;
    1 + (geom.data_start() - geom.table_start()) + dirs
}

/// Makes a snapshot of this name that may be made.
///
/// # Errors
/// As `snap`.
fn make<S: Blocks>(
    alloc: Global,
    blocks: &mut S,
    name: &Name,
    new: &NewSnapshot,
    unused: &mut UnusedNodes,
    known: &mut KnownSnapshots,
) -> Result<Reply, Refusal>
    requires may { MayPlan S.tells (S.state blocks.old) (counts_in known.old) }
    requires between { IsBetween S.tells (S.state blocks.old) unused.old }
    requires knows { Knows S.tells (S.state blocks.old) known.old }
    requires new { MaySnap S.tells (S.state blocks.old) name.now new.now }
    ensures carries { (start : S) → LooksOnly S.tells false (S.state start) (S.state blocks.old)
        → Carries S.tells (Snap name.now) result (S.state start) (S.state blocks.new) }
    ensures between { IsBetween S.tells (S.state blocks.new) unused.new }
    ensures knows { Knows S.tells (S.state blocks.new) known.new }
{
    calls_compose::<S>();
    a_sync_may_follow();
    a_snapshot_becomes_known();
    what_is_known_of_snapshots_is_so();
    blocks.geom().lawful();
    match known.make_ready(alloc, name, new.number, blocks.geom().n()) {
        Ok(()) => {}
        Err(_) => return carry(alloc, blocks, Err(Refusal::NoMemory), unused),
    }
    let planned = plan_snap(alloc, blocks, name, new, known.shared());
    match carry(alloc, blocks, planned, unused) {
        Ok(reply) => {
            known.count_in(&new.files);
            Ok(reply)
        }
        Err(why) => {
            known.forget(name);
            Err(why)
        }
    }
}

/// Where blocks have one snapshot more than others, its name has its number, and each block of a file that the tree had
/// then is kept by one more.
fn a_snapshot_becomes_known()
    ensures counts { (g : Geometry) (old new : BlockMap) (n : ℕ) (name places counts more : List ℕ) → IsGeometry g → AreSound g old
        → AddsSnapshot g old new n name places → CountsKeepers g old counts → CountsIn (live_files g old) counts more → CountsKeepers g new more }
    ensures few { (g : Geometry) (m : BlockMap) (n : ℕ) (counts : List ℕ) → IsGeometry g → IsNumber g.i n → used_node g m n ≡ None → CountsKeepers g m counts
        → All (λ b. keepers counts b < 65535) (live_files g m) }
    ensures within { (g : Geometry) (m : BlockMap) → All (IsData g) (live_files g m) }
    ensures once { (g : Geometry) (m : BlockMap) → AreSound g m → AllPairs (λ a b. a ≢ b) (live_files g m) }
    ensures named { (g : Geometry) (old new : BlockMap) (t : Tree) (n : ℕ) (name places : List ℕ) → IsGeometry g → IsTreeOf g old t
        → snapshot_number g old name ≡ None → AddsSnapshot g old new n name places
        → (snapshot_number g new name ≡ Some n) × ((other : List ℕ) → other ≢ name → snapshot_number g new other ≡ snapshot_number g old other) }
{
    a_snapshot_stands();
    what_is_known_of_snapshots_is_so();
    a_snapshot_stays_with_its_blocks();
    a_node_in_use_has_data_blocks();
}

/// Takes the snapshot of this name away.
///
/// # Errors
/// There is no room; a read of the disk failed, or another call of it; or out of memory. Then it is known as before.
pub(crate) fn unsnap<S: Blocks>(
    alloc: Global,
    blocks: &mut S,
    name: &Name,
    unused: &mut UnusedNodes,
    known: &mut KnownSnapshots,
) -> Result<Reply, Refusal>
    requires may { MayPlan S.tells (S.state blocks.old) (counts_in known.old) }
    requires between { IsBetween S.tells (S.state blocks.old) unused.old }
    requires knows { Knows S.tells (S.state blocks.old) known.old }
    ensures carries { Carries S.tells (Unsnap name.now) result (S.state blocks.old) (S.state blocks.new) }
    ensures between { IsBetween S.tells (S.state blocks.new) unused.new }
    ensures knows { Knows S.tells (S.state blocks.new) known.new }
{
    calls_compose::<S>();
    a_sync_may_follow();
    match find_gone(alloc, blocks, name, known) {
        Ok(Ok(gone)) => take_away(alloc, blocks, name, &gone, unused, known),
        Ok(Err(why)) => carry(alloc, blocks, Ok(Plan::Answer(Reply::Refused(why))), unused),
        Err(why) => carry(alloc, blocks, Err(why), unused),
    }
}

/// The snapshot of this name that may go, or why the tree refuses it.
///
/// # Errors
/// There is no room; a read of the disk failed; or out of memory.
fn find_gone<S: Blocks>(
    alloc: Global,
    blocks: &mut S,
    name: &Name,
    known: &KnownSnapshots,
) -> Result<Result<Gone, Refusal>, Refusal>
    requires may { MayPlan S.tells (S.state blocks.old) (counts_in known.now) }
    requires knows { Knows S.tells (S.state blocks.old) known.now }
    ensures gone { IfOk result (λ found. IfOk found (MayUnsnap S.tells (S.state blocks.new) name.now (counts_in known.now))) }
    ensures looks { IfOk result (λ found. LooksOnly S.tells false (S.state blocks.old) (S.state blocks.new)) }
    ensures refused { IfOk result (λ found. IfErr found (λ why. Plans S.tells (Unsnap name.now) (Fine (Answer (Refused why))) (S.state blocks.old)
        (S.state blocks.new))) }
    ensures lacking { IfErr result (λ why. Plans S.tells (Unsnap name.now) (Failed why) (S.state blocks.old) (S.state blocks.new)) }
{
    calls_compose::<S>();
    counts_tell_what_is_shared::<S>();
    what_is_known_of_snapshots_is_so();
    blocks.geom().lawful();
    let Some(number) = known.number(name) else {
        return Ok(Err(Refusal::NoSnap));
    };
    if !is_in_table(number, blocks.geom().i()) {
        return Ok(Err(Refusal::NoSnap));
    }
    let lists = match what_goes(alloc, blocks, number, known) {
        Ok(lists) => lists,
        Err(why) => return Err(refusal_of(why)),
    };
    let bitmap = blocks.geom().bitmap_blocks();
    let alone = lists.alone.len().min(MOST_BLOCKS) as u32;
    let figures = unsnap_figures(bitmap, lists.own, alone);
    match has_room(blocks, &figures) {
        Ok(()) => {}
        Err(why) => return Err(why),
    }
    Ok(Ok(Gone {
        number,
        cost: figures.cost,
        kept: lists.kept,
        alone: lists.alone,
    }))
}

/// What goes with a snapshot: how many blocks are its own, those of the files that it keeps, and of these the ones that
/// nothing else has.
#[derive(Drop)]
pub(crate) struct GoneLists {
    pub(crate) own: u32,
    pub(crate) kept: Vec<u32>,
    pub(crate) alone: Vec<u32>,
}

/// What goes with the snapshot of this number.
///
/// # Errors
/// A read of the disk failed, which the disk has counted; or out of memory.
fn what_goes<S: Blocks>(
    alloc: Global,
    blocks: &mut S,
    number: u32,
    known: &KnownSnapshots,
) -> Result<GoneLists, FileRefusal>
    requires begin { MayBegin S.tells (S.state blocks.old) (counts_in known.now) }
    requires number { IsNumber (S.state blocks.old).books.geom.i number }
    requires snapshot { IsTrue S.tells → IsSnapshot (S.state blocks.old).books.geom (S.state blocks.old).map number }
    ensures own { IfOk result (λ lists. lists.own ≤ 62914560) }
    ensures data { IfOk result (λ lists. All (IsData (S.state blocks.old).books.geom) lists.alone.items) }
    ensures lists { IsTrue S.tells → IfOk result (GoesWith (S.state blocks.old) (counts_in known.now) number) }
    ensures refused { IfErr result LookRefused }
    ensures looks { LooksOnly S.tells (fails_reading result) (S.state blocks.old) (S.state blocks.new) }
{
    a_draft_may_begin(blocks);
    a_sound_snapshot_is_whole();
    let draft = Draft::beside(alloc, known.shared());
    let Some(file) = draft.open(blocks, number)? else {
        return Ok(nothing_goes(alloc));
    };
    let kept = gather_kept(alloc, blocks, &file.blocks)?;
    let live = gather_live(alloc, blocks)?;
    let alone = known.alone(alloc, blocks.geom().n(), &live.files, &kept.files)?;
    Ok(GoneLists {
        own: file.blocks.count(),
        kept: kept.files,
        alone,
    })
}

/// Nothing goes. This takes no memory.
fn nothing_goes(alloc: Global) -> GoneLists
    ensures own { result.own ≡ 0 }
    ensures kept { length result.kept.items ≡ 0 }
    ensures alone { length result.alone.items ≡ 0 }
{
    GoneLists {
        own: 0,
        kept: Vec::new(alloc),
        alone: Vec::new(alloc),
    }
}

/// Takes a snapshot of this name away that may go.
///
/// # Errors
/// As `unsnap`.
fn take_away<S: Blocks>(
    alloc: Global,
    blocks: &mut S,
    name: &Name,
    gone: &Gone,
    unused: &mut UnusedNodes,
    known: &mut KnownSnapshots,
) -> Result<Reply, Refusal>
    requires may { MayPlan S.tells (S.state blocks.old) (counts_in known.old) }
    requires between { IsBetween S.tells (S.state blocks.old) unused.old }
    requires knows { Knows S.tells (S.state blocks.old) known.old }
    requires gone { MayUnsnap S.tells (S.state blocks.old) name.now (counts_in known.old) gone.now }
    ensures carries { (start : S) → LooksOnly S.tells false (S.state start) (S.state blocks.old)
        → Carries S.tells (Unsnap name.now) result (S.state start) (S.state blocks.new) }
    ensures between { IsBetween S.tells (S.state blocks.new) unused.new }
    ensures knows { Knows S.tells (S.state blocks.new) known.new }
{
    calls_compose::<S>();
    a_sync_may_follow();
    what_is_known_of_snapshots_is_so();
    a_snapshot_goes();
    a_snapshot_stays_with_its_blocks();
    blocks.geom().lawful();
    known.count_out(&gone.kept);
    let planned = plan_unsnap(alloc, blocks, name, gone, known.shared());
    match carry(alloc, blocks, planned, unused) {
        Ok(reply) => {
            known.forget(name);
            Ok(reply)
        }
        Err(why) => {
            known.count_in(&gone.kept);
            Err(why)
        }
    }
}
