//! The command that gives a file another size: truncate. It finds its refusal from reads alone, weighs what it
//! needs, and plans a draft. Nothing of that is made here.

ghost use Rattle.std.specs.Prelude.{◌≡◌, ◌≢◌, ◌+◌, ◌≤◌, ℕ, IsTrue, List, Some, Ok as Fine};
ghost use Rattle.layout_bytes.specs.declared.node.NodeKind.TheVariants.{File};
ghost use Rattle.lang_tree.specs.declared.command.Cmd.TheVariants.{Truncate};
ghost use Rattle.lang_tree.specs.Conditions.{is_too_large};
ghost use Rattle.crash_stands.specs.Files.{FileNode};
ghost use Rattle.crash_stands.specs.Inodes.{inodes_of};
ghost use Rattle.fs_inodes.specs.Lookups.{walk_on};
ghost use Rattle.fs_files.specs.Calls.{files_in};
ghost use Rattle.fs_files.specs.Drafts.{nothing_drafted};
ghost use Rattle.fs_dirs.specs.Directories.{IsNumber};
ghost use Rattle.fs_session.specs.Plans.{MayBeMade, OnChange, Plans};
ghost use Rattle.fs_session.specs.Sessions.{MayPlan};
ghost use Rattle.fs_commands.specs.Figures.{KeepsResized};
ghost use Rattle.fs_commands.specs.Sizing.{MayResize};
ghost use Rattle.fs_commands.specs.Writing.{IsFile};

use crate::begins::a_draft_may_begin;
use crate::bytes::{find_file, size_of};
use crate::facts::the_node_at_a_path_gives_the_inode;
use crate::figures::resize_figures;
use crate::found::a_file_is_at_its_path;
use crate::paths::NodeFound;
use crate::prices::small_drafts_are_within_the_cost;
use crate::refusals::refusal_of;
use crate::sharing::kept_resized;
use base_types::limits::LARGEST_FILE;
use engine_blocks::{Blocks, calls_compose};
use fs_files::{Draft, Shared, a_file_fits_the_disk, a_file_has_its_blocks, bytes_lie_in_blocks};
use fs_inodes::{
    new_bytes_are_mapped, paths_lead_to_inodes, the_map_gives_the_refusal, walks_are_the_same,
};
use fs_session::{
    NodeUse, Plan, a_draft_that_leaves_snapshots_makes_its_tree, blocks_have_the_map_of_their_tree,
    counts_tell_what_is_shared, has_room,
};
use lang_tree::{Path, Refusal, Reply, touched_blocks_are_counted_by_division};
use std::alloc::Global;

/// Plans to give the file at a path so many bytes: its first ones, and zeros where it grows.
///
/// # Errors
/// There is no room; the file's blocks would lie in too many runs; a read of the disk failed, or another call
/// of it; or out of memory.
pub(crate) fn plan_truncate<'a, S: Blocks>(
    alloc: Global,
    blocks: &mut S,
    path: &Path,
    size: u32,
    shared: &'a Shared,
) -> Result<Plan<'a>, Refusal>
    requires may { MayPlan S.tells (S.state blocks.old) shared.now }
    ensures plans { Plans S.tells (Truncate path.now size) result (S.state blocks.old) (S.state blocks.new) }
    ensures made { OnChange result (λ draft cost nodes. MayBeMade S.tells draft cost nodes (S.state blocks.new)) }
{
    calls_compose::<S>();
    the_map_gives_the_refusal();
    blocks_have_the_map_of_their_tree();
    match find_file(alloc, blocks, path, shared) {
        Ok(Ok(found)) => truncate_found(alloc, blocks, &found, size, shared),
        Ok(Err(why)) => Ok(Plan::Answer(Reply::Refused(why))),
        Err(why) => Err(refusal_of(why)),
    }
}

/// Plans to give a file that was found so many bytes.
///
/// # Errors
/// As `plan_truncate`.
fn truncate_found<'a, S: Blocks>(
    alloc: Global,
    blocks: &mut S,
    found: &NodeFound,
    size: u32,
    shared: &'a Shared,
) -> Result<Plan<'a>, Refusal>
    requires may { MayPlan S.tells (S.state blocks.old) shared.now }
    requires number { IsNumber (S.state blocks.old).books.geom.i found.now.number }
    requires file { IsTrue S.tells → IsFile (files_in (S.state blocks.old) nothing_drafted) found.now }
    ensures plans { (path : List (List ℕ)) → (IsTrue S.tells
        → walk_on (inodes_of (S.state blocks.old).books.geom.layout (files_in (S.state blocks.old) nothing_drafted)) 1 path ≡ Fine found.now.number)
        → Plans S.tells (Truncate path size) result (S.state blocks.old) (S.state blocks.new) }
    ensures made { OnChange result (λ draft cost nodes. MayBeMade S.tells draft cost nodes (S.state blocks.new)) }
{
    calls_compose::<S>();
    a_draft_may_begin(blocks);
    a_file_fits_the_disk(blocks);
    a_file_is_at_its_path(blocks, shared);
    the_map_gives_the_refusal();
    if is_past_the_most(size) {
        return Ok(Plan::Answer(Reply::Refused(Refusal::TooLarge)));
    }
    if u64::from(size) == found.facts.size {
        return Ok(Plan::Answer(Reply::Ok));
    }
    match kept_resized(alloc, blocks, found.number, size_of(found), size, shared) {
        Ok(kept) => truncate_over(alloc, blocks, found, size, kept, shared),
        Err(why) => Err(refusal_of(why)),
    }
}

/// Plans to give a file that was found so many bytes, which aren't those that it has, where snapshots keep so many of
/// the blocks that change.
///
/// # Errors
/// As `plan_truncate`.
fn truncate_over<'a, S: Blocks>(
    alloc: Global,
    blocks: &mut S,
    found: &NodeFound,
    size: u32,
    kept: u32,
    shared: &'a Shared,
) -> Result<Plan<'a>, Refusal>
    requires may { MayPlan S.tells (S.state blocks.old) shared.now }
    requires number { IsNumber (S.state blocks.old).books.geom.i found.now.number }
    requires file { IsTrue S.tells → IsFile (files_in (S.state blocks.old) nothing_drafted) found.now }
    requires other { size ≢ found.now.facts.size }
    requires fits { size ≤ 1073741824 }
    requires kept { IsTrue S.tells → KeepsResized (S.state blocks.old) shared.now found.now.number size kept }
    requires few { kept ≤ 1048576 }
    ensures plans { (path : List (List ℕ)) → (IsTrue S.tells
        → walk_on (inodes_of (S.state blocks.old).books.geom.layout (files_in (S.state blocks.old) nothing_drafted)) 1 path ≡ Fine found.now.number)
        → Plans S.tells (Truncate path size) result (S.state blocks.old) (S.state blocks.new) }
    ensures made { OnChange result (λ draft cost nodes. MayBeMade S.tells draft cost nodes (S.state blocks.new)) }
{
    calls_compose::<S>();
    a_file_is_at_its_path(blocks, shared);
    counts_tell_what_is_shared::<S>();
    the_map_gives_the_refusal();
    let bitmap = blocks.geom().bitmap_blocks();
    let figures = resize_figures(bitmap, size_of(found), size, kept);
    match has_room(blocks, &figures) {
        Ok(()) => plan_size(alloc, blocks, found.number, size, figures.cost, shared),
        Err(why) => Err(why),
    }
}

/// Plans to give node `number` so many bytes, at a cost for which there is room.
///
/// # Errors
/// The file's blocks would lie in too many runs; a read of the disk failed, or another call of it; or out of
/// memory.
fn plan_size<'a, S: Blocks>(
    alloc: Global,
    blocks: &mut S,
    number: u32,
    size: u32,
    cost: u32,
    shared: &'a Shared,
) -> Result<Plan<'a>, Refusal>
    requires may { MayPlan S.tells (S.state blocks.old) shared.now }
    requires number { IsNumber (S.state blocks.old).books.geom.i number }
    requires file { IsTrue S.tells → (x : FileNode) × (files_in (S.state blocks.old) nothing_drafted number ≡ Some x) × (x.kind ≡ File) }
    requires fits { size ≤ 1073741824 }
    requires room { (S.state blocks.old).books.running.weight + cost ≤ (S.state blocks.old).books.room }
    ensures plans { (path : List (List ℕ)) → MayResize S.tells (S.state blocks.old) number path size cost
        → Plans S.tells (Truncate path size) result (S.state blocks.old) (S.state blocks.new) }
    ensures made { OnChange result (λ draft cost nodes. MayBeMade S.tells draft cost nodes (S.state blocks.new)) }
{
    a_draft_may_begin(blocks);
    a_file_has_its_blocks::<S>();
    a_file_fits_the_disk(blocks);
    blocks.geom().lawful();
    blocks_have_the_map_of_their_tree();
    new_bytes_are_mapped();
    paths_lead_to_inodes();
    the_node_at_a_path_gives_the_inode();
    walks_are_the_same();
    bytes_lie_in_blocks();
    counts_tell_what_is_shared::<S>();
    small_drafts_are_within_the_cost();
    touched_blocks_are_counted_by_division();
    let mut draft = Draft::beside(alloc, shared);
    match draft.resize(alloc, blocks, number, u64::from(size)) {
        Ok(()) => {
            a_draft_that_leaves_snapshots_makes_its_tree(blocks);
            Ok(Plan::Change {
                draft,
                cost,
                nodes: NodeUse::Stays,
            })
        }
        Err(why) => Err(refusal_of(why)),
    }
}

/// Whether so many bytes are more than a file may have.
fn is_past_the_most(size: u32) -> bool
    ensures { result ≡ is_too_large size }
{
    LARGEST_FILE < u64::from(size)
}
