//! The drafts by which a snapshot comes or goes. What is weighed before, and what is known afterwards, is described in
//! `snapping`.

ghost use Rattle.std.specs.Prelude.{◌≡◌, ◌++◌, ℕ, true, false, List, length, IsTrue, Some, IfOk, IfErr, OnOk};
ghost use Rattle.std.specs.List.{All, flat_map};
ghost use Rattle.base_types.specs.Name.{is_name};
ghost use Rattle.base_types.specs.Layouts.{node_size};
ghost use Rattle.layout_bytes.specs.SnapshotName.{name_block};
ghost use Rattle.lang_tree.specs.declared.command.Cmd.TheVariants.{Snap, Unsnap};
ghost use Rattle.crash_stands.specs.Stands.{AreSound};
ghost use Rattle.crash_snapshots.specs.Adding.{AddsSnapshot};
ghost use Rattle.crash_snapshots.specs.Kept.{kept_bytes};
ghost use Rattle.crash_snapshots.specs.Making.{blocks_at};
ghost use Rattle.crash_snapshots.specs.Taking.{TakesSnapshot};
ghost use Rattle.engine_blocks.specs.Puts.{IsData};
ghost use Rattle.engine_blocks.specs.State.{State};
ghost use Rattle.fs_files.specs.Calls.{GrowthRefused, LookRefused};
ghost use Rattle.fs_files.specs.Content.{fails_reading, fails_settling};
ghost use Rattle.fs_files.specs.Effects.{LooksOnly, LooksAndSettles};
ghost use Rattle.fs_files.specs.Sound.{IsDraftOf};
ghost use Rattle.fs_dirs.specs.Directories.{IsNumber};
ghost use Rattle.fs_commands.specs.Gathering.{kept_table_block, live_dirs, snapshot_bytes, snapshot_count, table_to_keep};
ghost use Rattle.fs_commands.specs.Snapping.{DraftsLoss, DraftsSnapshot, MaySnap, MayTake};
ghost use Rattle.fs_session.specs.Commands.{IsCalm, least_number};
ghost use Rattle.fs_session.specs.Plans.{LeavesMap, MayBeMade, OnChange, Plans};
ghost use Rattle.fs_session.specs.Sessions.{MayPlan};

use crate::begins::a_draft_may_begin;
use crate::refusals::refusal_of;
use crate::snapping::{Gone, NewSnapshot};
use base_types::limits::{LARGEST_FILE, LONGEST_NODE};
use base_types::{Block, Layout, Name, the_numbers_of_a_layout_go_together};
use crash_snapshots::{a_snapshot_can_be_made, a_snapshot_goes, a_snapshot_stands};
use crash_stands::{a_node_in_use_has_data_blocks, blocks_have_a_map, files_have_one_map};
use engine_blocks::{Blocks, calls_compose};
use fs_files::{Draft, FileRefusal, Shared, a_draft_begins_with_frees, sound_beside_what_is_kept};
use fs_session::{
    NodeUse, Plan, a_node_that_a_draft_leaves_stays, blocks_have_the_map_of_their_tree,
    counts_tell_what_is_shared,
};
use fs_snapshots::{a_sound_snapshot_is_whole, what_is_known_of_snapshots_is_so};
use lang_tree::Refusal;
use layout_bytes::NodeKind;
use std::alloc::Global;

/// The kind byte of a snapshot's node.
const SNAPSHOT: u8 = 3;

/// Plans a snapshot of this name that may be made.
///
/// # Errors
/// The snapshot's blocks would lie in too many runs; a read of the disk failed, or another call of it; or out of memory.
pub(crate) fn plan_snap<'a, S: Blocks>(
    alloc: Global,
    blocks: &mut S,
    name: &Name,
    new: &NewSnapshot,
    shared: &'a Shared,
) -> Result<Plan<'a>, Refusal>
    requires may { MayPlan S.tells (S.state blocks.old) shared.now }
    requires new { MaySnap S.tells (S.state blocks.old) name.now new.now }
    ensures plans { Plans S.tells (Snap name.now) result (S.state blocks.old) (S.state blocks.new) }
    ensures made { OnChange result (λ draft cost nodes. MayBeMade S.tells draft cost nodes (S.state blocks.new)) }
    ensures adds { IsTrue S.tells → (end : S) → LeavesMap result (S.state blocks.new) (S.state end)
        → (places : List ℕ) × AddsSnapshot (S.state blocks.old).books.geom (S.state blocks.old).map (S.state end).map new.now.number name.now places }
{
    calls_compose::<S>();
    counts_tell_what_is_shared::<S>();
    what_is_known_of_snapshots_is_so();
    blocks_have_a_map();
    files_have_one_map();
    a_node_in_use_has_data_blocks();
    a_snapshot_can_be_made();
    a_snapshot_stands();
    a_name_is_lawful(name);
    blocks.geom().lawful();
    match draft_snapshot(alloc, blocks, name, new.number, &new.dirs, shared) {
        Ok(draft) => {
            a_node_that_a_draft_leaves_stays(blocks);
            Ok(Plan::Change {
                draft,
                cost: new.cost,
                nodes: NodeUse::Taken(new.number),
            })
        }
        Err(why) => Err(refusal_of(why)),
    }
}

/// A draft in which node `number`, the least that no node has, is a snapshot of this name: its bytes are written as a
/// file's are.
///
/// # Errors
/// The snapshot's blocks would lie in too many runs; a read of the disk failed, or another call of it; or out of memory.
fn draft_snapshot<'a, S: Blocks>(
    alloc: Global,
    blocks: &mut S,
    name: &Name,
    number: u32,
    dirs: &[u32],
    shared: &'a Shared,
) -> Result<Draft<'a>, FileRefusal>
    requires may { MayPlan S.tells (S.state blocks.old) shared.now }
    requires number { IsNumber (S.state blocks.old).books.geom.i number }
    requires least { IsTrue S.tells → least_number (S.state blocks.old) ≡ Some number }
    requires dirs { IsTrue S.tells → dirs.now ≡ live_dirs (S.state blocks.old).books.geom (S.state blocks.old).map }
    requires data { All (IsData (S.state blocks.old).books.geom) dirs.now }
    ensures draft { IfOk result (λ draft. IsDraftOf S.tells (S.state blocks.new) draft) }
    ensures kept { IfOk result (λ draft. draft.kept ≡ shared.now) }
    ensures drafts { IsTrue S.tells → IfOk result (DraftsSnapshot (S.state blocks.old) (S.state blocks.new) number name.now) }
    ensures refused { IsTrue S.tells → IfErr result (GrowthRefused (snapshot_count (S.state blocks.old).books.geom (S.state blocks.old).map) (λ more. more)
        (S.state blocks.old).books (S.state blocks.new).books) }
    ensures quiet { IsTrue S.tells → IsCalm (snapshot_count (S.state blocks.old).books.geom (S.state blocks.old).map) (S.state blocks.old)
        (S.state blocks.new) }
    ensures settles { LooksAndSettles S.tells (fails_reading result) (fails_settling result) (S.state blocks.old) (S.state blocks.new) }
{
    calls_compose::<S>();
    a_draft_may_begin(blocks);
    a_name_is_lawful(name);
    blocks.geom().lawful();
    let bytes = bytes_to_keep(alloc, blocks, name, dirs)?;
    if bytes.len() as u64 > LARGEST_FILE {
        return Err(FileRefusal::NoMemory);
    }
    let mut draft = Draft::beside(alloc, shared);
    let _made = draft.new_node(alloc, blocks, NodeKind::Snapshot, number)?;
    draft.write_at(alloc, blocks, number, 0, &bytes)?;
    Ok(draft)
}

/// The bytes of a name are those of one.
fn a_name_is_lawful(name: &Name)
    ensures { is_name name.now ≡ true }
{
    let _ = name.as_bytes();
}

/// The bytes of a snapshot of this name: the block with the name, the node table without snapshots, and the blocks of
/// the directories.
///
/// # Errors
/// A read of the disk failed, which the disk has counted; or out of memory.
fn bytes_to_keep<S: Blocks>(
    alloc: Global,
    blocks: &mut S,
    name: &Name,
    dirs: &[u32],
) -> Result<Vec<u8>, FileRefusal>
    requires going { (S.state blocks.old).books.stopped ≡ false }
    requires sound { IsTrue S.tells → AreSound (S.state blocks.old).books.geom (S.state blocks.old).map }
    requires dirs { IsTrue S.tells → dirs.now ≡ live_dirs (S.state blocks.old).books.geom (S.state blocks.old).map }
    requires data { All (IsData (S.state blocks.old).books.geom) dirs.now }
    ensures bytes { IsTrue S.tells → IfOk result (λ bytes. bytes.items ≡ snapshot_bytes (S.state blocks.old).books.geom (S.state blocks.old).map name.now) }
    ensures refused { IfErr result LookRefused }
    ensures looks { LooksOnly S.tells (fails_reading result) (S.state blocks.old) (S.state blocks.new) }
{
    let mut bytes = Vec::new(alloc);
    push_name(&mut bytes, name)?;
    push_table(blocks, &mut bytes)?;
    push_dirs(blocks, &mut bytes, dirs)?;
    Ok(bytes)
}

/// The block with a snapshot's name comes behind the bytes.
///
/// # Errors
/// Out of memory.
fn push_name(bytes: &mut Vec<u8>, name: &Name) -> Result<(), FileRefusal>
    ensures bytes { OnOk result (bytes.new.items ≡ bytes.old.items ++ name_block name.now) }
    ensures refused { IfErr result LookRefused }
    ensures memory { fails_reading result ≡ false }
{
    let name = name.as_bytes();
    let zeros = [0; 1023];
    bytes.extend_from_slice(&[name.len() as u8])?;
    bytes.extend_from_slice(name)?;
    bytes.extend_from_slice(&zeros[..1023 - name.len()])?;
    Ok(())
}

/// The blocks of the node table without snapshots come behind the bytes.
///
/// # Errors
/// As `bytes_to_keep`.
fn push_table<S: Blocks>(blocks: &mut S, bytes: &mut Vec<u8>) -> Result<(), FileRefusal>
    requires going { (S.state blocks.old).books.stopped ≡ false }
    ensures bytes { IsTrue S.tells → OnOk result (bytes.new.items ≡ bytes.old.items
        ++ table_to_keep (S.state blocks.old).books.geom (S.state blocks.old).map) }
    ensures refused { IfErr result LookRefused }
    ensures looks { LooksOnly S.tells (fails_reading result) (S.state blocks.old) (S.state blocks.new) }
{
    let geom = blocks.geom();
    geom.lawful();
    let mut table = [0; 1024];
    for slot in 0..geom.data_start() - geom.table_start() {
        blocks.get(geom.table_start() + slot, &mut table)?;
        push_kept(bytes, &table, geom.layout())?;
    }
    Ok(())
}

/// A block of the node table comes behind the bytes, with zeros in the stead of each snapshot's node.
///
/// # Errors
/// Out of memory.
fn push_kept(bytes: &mut Vec<u8>, table: &Block, layout: Layout) -> Result<(), FileRefusal>
    ensures bytes { OnOk result (bytes.new.items ≡ bytes.old.items ++ kept_table_block layout table.now) }
    ensures refused { IfErr result LookRefused }
    ensures memory { fails_reading result ≡ false }
{
    for rank in 0..layout.nodes_in_block() {
        let at = layout.rank_byte(rank);
        let end = at + layout.node_length();
        push_node(bytes, &table[at..end], layout)?;
    }
    Ok(())
}

/// The bytes of a node come behind the bytes, zeros in the stead of a snapshot's.
///
/// # Errors
/// Out of memory.
fn push_node(bytes: &mut Vec<u8>, node: &[u8], layout: Layout) -> Result<(), FileRefusal>
    requires { length node.now ≡ node_size layout }
    ensures bytes { OnOk result (bytes.new.items ≡ bytes.old.items ++ kept_bytes layout node.now) }
    ensures refused { IfErr result LookRefused }
    ensures memory { fails_reading result ≡ false }
{
    the_numbers_of_a_layout_go_together();
    if node[0] == SNAPSHOT {
        let zeros = [0; LONGEST_NODE];
        bytes.extend_from_slice(&zeros[..layout.node_length()])?;
        return Ok(());
    }
    bytes.extend_from_slice(node)?;
    Ok(())
}

/// The bytes of these data blocks come behind the bytes.
///
/// # Errors
/// As `bytes_to_keep`.
fn push_dirs<S: Blocks>(
    blocks: &mut S,
    bytes: &mut Vec<u8>,
    dirs: &[u32],
) -> Result<(), FileRefusal>
    requires going { (S.state blocks.old).books.stopped ≡ false }
    requires data { All (IsData (S.state blocks.old).books.geom) dirs.now }
    ensures bytes { IsTrue S.tells → All (λ b. length ((S.state blocks.old).map b) ≡ 1024) dirs.now → OnOk result (bytes.new.items ≡ bytes.old.items
        ++ flat_map (λ block. block) (blocks_at (S.state blocks.old).map dirs.now)) }
    ensures refused { IfErr result LookRefused }
    ensures looks { LooksOnly S.tells (fails_reading result) (S.state blocks.old) (S.state blocks.new) }
{
    let mut block = [0; 1024];
    for b in dirs {
        blocks.get(*b, &mut block)?;
        bytes.extend_from_slice(&block)?;
    }
    Ok(())
}

/// Plans that a snapshot goes which may: its node, its own blocks, and those of its files that nothing else has. What
/// the other snapshots keep is told.
///
/// # Errors
/// A read of the disk failed; or out of memory.
pub(crate) fn plan_unsnap<'a, S: Blocks>(
    alloc: Global,
    blocks: &mut S,
    name: &Name,
    gone: &Gone,
    shared: &'a Shared,
) -> Result<Plan<'a>, Refusal>
    requires may { MayTake S.tells (S.state blocks.old) name.now gone.now shared.now }
    ensures plans { Plans S.tells (Unsnap name.now) result (S.state blocks.old) (S.state blocks.new) }
    ensures made { OnChange result (λ draft cost nodes. MayBeMade S.tells draft cost nodes (S.state blocks.new)) }
    ensures takes { IsTrue S.tells → (end : S) → LeavesMap result (S.state blocks.new) (S.state end)
        → TakesSnapshot (S.state blocks.old).books.geom (S.state blocks.old).map (S.state end).map gone.now.number }
{
    calls_compose::<S>();
    counts_tell_what_is_shared::<S>();
    what_is_known_of_snapshots_is_so();
    sound_beside_what_is_kept();
    a_sound_snapshot_is_whole();
    a_snapshot_goes();
    blocks_have_the_map_of_their_tree();
    blocks.geom().lawful();
    match draft_loss(alloc, blocks, name, gone, shared) {
        Ok(draft) => {
            a_node_that_a_draft_leaves_stays(blocks);
            Ok(Plan::Change {
                draft,
                cost: gone.cost,
                nodes: NodeUse::Dropped(gone.number),
            })
        }
        Err(why) => Err(refusal_of(why)),
    }
}

/// A draft in which the snapshot's node with its own blocks is gone, and the blocks that nothing else has.
///
/// # Errors
/// A read of the disk failed, which the disk has counted; or out of memory.
fn draft_loss<'a, S: Blocks>(
    alloc: Global,
    blocks: &mut S,
    name: &Name,
    gone: &Gone,
    shared: &'a Shared,
) -> Result<Draft<'a>, FileRefusal>
    requires may { MayTake S.tells (S.state blocks.old) name.now gone.now shared.now }
    ensures draft { IfOk result (λ draft. IsDraftOf S.tells (S.state blocks.new) draft) }
    ensures loss { IsTrue S.tells → IfOk result (DraftsLoss (S.state blocks.old) (S.state blocks.new) gone.now.number gone.now.alone.items) }
    ensures refused { IfErr result LookRefused }
    ensures looks { LooksOnly S.tells (fails_reading result) (S.state blocks.old) (S.state blocks.new) }
{
    what_is_known_of_snapshots_is_so();
    sound_beside_what_is_kept();
    a_draft_begins_with_frees(blocks);
    let mut draft = Draft::freeing(alloc, shared, &gone.alone)?;
    draft.drop_node(alloc, blocks, gone.number)?;
    Ok(draft)
}
