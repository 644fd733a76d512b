//! The command write, and what a fill has in common with it: bytes that are put into a file. The refusal is found
//! from reads alone, what it needs is weighed, and a draft is planned.

ghost use Rattle.std.specs.Prelude.{◌≡◌, ◌+◌, ◌<◌, ◌≤◌, ◌&&◌, nat_lt, min, ℕ, IsTrue, false, List, length, Some, IfOk, IfErr, Ok as Fine};
ghost use Rattle.layout_bytes.specs.declared.node.NodeKind.TheVariants.{File};
ghost use Rattle.lang_tree.specs.declared.command.Cmd.{Cmd};
ghost use Rattle.lang_tree.specs.declared.command.Cmd.TheVariants.{Write};
ghost use Rattle.lang_tree.specs.Conditions.{is_too_large};
ghost use Rattle.lang_tree.specs.Tree.{Tree};
ghost use Rattle.crash_stands.specs.Files.{FileNode};
ghost use Rattle.crash_stands.specs.Inodes.{inodes_of};
ghost use Rattle.fs_inodes.specs.Lookups.{walk_on};
ghost use Rattle.crash_stands.specs.Stands.{IsTreeOf};
ghost use Rattle.fs_files.specs.Calls.{files_in, LookRefused};
ghost use Rattle.fs_files.specs.Content.{fails_reading};
ghost use Rattle.fs_files.specs.Drafts.{nothing_drafted};
ghost use Rattle.fs_files.specs.Effects.{LooksOnly};
ghost use Rattle.fs_dirs.specs.Directories.{IsNumber};
ghost use Rattle.fs_commands.specs.Looks.{LeadsToFile};
ghost use Rattle.fs_session.specs.Plans.{MayBeMade, OnChange, Plans};
ghost use Rattle.fs_session.specs.Sessions.{MayBegin, MayPlan};
ghost use Rattle.fs_commands.specs.Figures.{MeetsKept};
ghost use Rattle.fs_commands.specs.Writing.{IsFile, MayPut};

use crate::begins::a_draft_may_begin;
use crate::facts::the_node_at_a_path_gives_the_inode;
use crate::figures::overwrite_figures;
use crate::found::a_file_is_at_its_path;
use crate::look::is_dir;
use crate::paths::{NodeFound, find_node};
use crate::prices::small_drafts_are_within_the_cost;
use crate::refusals::refusal_of;
use crate::sharing::kept_met;
use base_types::limits::LARGEST_FILE;
use engine_blocks::{Blocks, calls_compose};
use fs_files::{
    Draft, FileRefusal, Shared, a_directory_has_whole_slots, a_file_fits_the_disk,
    a_file_has_its_blocks, bytes_lie_in_blocks,
};
use fs_inodes::{
    new_bytes_are_mapped, paths_lead_to_inodes, the_map_gives_the_refusal, walks_are_the_same,
};
use fs_session::{
    NodeUse, Plan, a_draft_that_leaves_snapshots_makes_its_tree, blocks_have_the_map_of_their_tree,
    counts_tell_what_is_shared, has_room,
};
use lang_tree::{Path, Refusal, Reply, touched_blocks_are_counted_by_division};
use std::alloc::Global;

/// The file at a path, or why there is none.
///
/// # Errors
/// A read of the disk failed, which the disk has counted; or out of memory.
pub(crate) fn find_file<S: Blocks>(
    alloc: Global,
    blocks: &mut S,
    path: &Path,
    shared: &Shared,
) -> Result<Result<NodeFound, Refusal>, FileRefusal>
    requires begin { MayBegin S.tells (S.state blocks.old) shared.now }
    ensures file { IsTrue S.tells → IfOk result (λ found. (t : Tree) → IsTreeOf (S.state blocks.old).books.geom (S.state blocks.old).map t
        → LeadsToFile (S.state blocks.old).books.geom.layout (files_in (S.state blocks.old) nothing_drafted) path.now found) }
    ensures number { IfOk result (λ found. IfOk found (λ f. IsNumber (S.state blocks.old).books.geom.i f.number)) }
    ensures refused { IfErr result LookRefused }
    ensures looks { LooksOnly S.tells (fails_reading result) (S.state blocks.old) (S.state blocks.new) }
{
    a_draft_may_begin(blocks);
    blocks_have_the_map_of_their_tree();
    the_node_at_a_path_gives_the_inode();
    a_directory_has_whole_slots::<S>();
    walks_are_the_same();
    match find_node(alloc, blocks, path, shared)? {
        Ok(found) => {
            if is_dir(found.facts.kind) {
                return Ok(Err(Refusal::IsDir));
            }
            Ok(Ok(found))
        }
        Err(why) => Ok(Err(why)),
    }
}

/// Plans to put these bytes into a file from `offset` on.
///
/// # Errors
/// There is no room; the file's blocks would lie in too many runs; a read of the disk failed, or another call
/// of it; or out of memory.
pub(crate) fn plan_write<'a, S: Blocks>(
    alloc: Global,
    blocks: &mut S,
    path: &Path,
    offset: u32,
    bytes: &[u8],
    shared: &'a Shared,
) -> Result<Plan<'a>, Refusal>
    requires may { MayPlan S.tells (S.state blocks.old) shared.now }
    ensures plans { Plans S.tells (Write path.now offset bytes.now) result (S.state blocks.old) (S.state blocks.new) }
    ensures made { OnChange result (λ draft cost nodes. MayBeMade S.tells draft cost nodes (S.state blocks.new)) }
{
    calls_compose::<S>();
    the_map_gives_the_refusal();
    blocks_have_the_map_of_their_tree();
    match find_file(alloc, blocks, path, shared) {
        Ok(Ok(found)) => write_found(alloc, blocks, &found, offset, bytes, shared),
        Ok(Err(why)) => Ok(Plan::Answer(Reply::Refused(why))),
        Err(why) => Err(refusal_of(why)),
    }
}

/// Plans to put these bytes into a file that was found.
///
/// # Errors
/// As `plan_write`.
fn write_found<'a, S: Blocks>(
    alloc: Global,
    blocks: &mut S,
    found: &NodeFound,
    offset: u32,
    bytes: &[u8],
    shared: &'a Shared,
) -> Result<Plan<'a>, Refusal>
    requires may { MayPlan S.tells (S.state blocks.old) shared.now }
    requires number { IsNumber (S.state blocks.old).books.geom.i found.now.number }
    requires file { IsTrue S.tells → IsFile (files_in (S.state blocks.old) nothing_drafted) found.now }
    ensures plans { (path : List (List ℕ)) → (IsTrue S.tells
        → walk_on (inodes_of (S.state blocks.old).books.geom.layout (files_in (S.state blocks.old) nothing_drafted)) 1 path ≡ Fine found.now.number)
        → Plans S.tells (Write path offset bytes.now) result (S.state blocks.old) (S.state blocks.new) }
    ensures made { OnChange result (λ draft cost nodes. MayBeMade S.tells draft cost nodes (S.state blocks.new)) }
{
    calls_compose::<S>();
    a_file_is_at_its_path(blocks, shared);
    the_map_gives_the_refusal();
    if is_too_large(offset, bytes.len() as u64) {
        return Ok(Plan::Answer(Reply::Refused(Refusal::TooLarge)));
    }
    if bytes.is_empty() {
        return Ok(Plan::Answer(Reply::Ok));
    }
    let count = bytes.len() as u32;
    let lo = offset.min(size_of(found));
    match kept_met(alloc, blocks, found.number, lo, offset + count, shared) {
        Ok(met) => write_over(alloc, blocks, found, offset, bytes, met, shared),
        Err(why) => Err(refusal_of(why)),
    }
}

/// Plans to put these bytes into a file that was found, where snapshots keep so many of the blocks that they touch.
///
/// # Errors
/// As `plan_write`.
fn write_over<'a, S: Blocks>(
    alloc: Global,
    blocks: &mut S,
    found: &NodeFound,
    offset: u32,
    bytes: &[u8],
    met: u32,
    shared: &'a Shared,
) -> Result<Plan<'a>, Refusal>
    requires may { MayPlan S.tells (S.state blocks.old) shared.now }
    requires number { IsNumber (S.state blocks.old).books.geom.i found.now.number }
    requires file { IsTrue S.tells → IsFile (files_in (S.state blocks.old) nothing_drafted) found.now }
    requires some { 0 < length bytes.now }
    requires fits { offset + length bytes.now ≤ 1073741824 }
    requires met { IsTrue S.tells → MeetsKept (S.state blocks.old) shared.now found.now.number (min offset (min found.now.facts.size 1073741824))
        (offset + length bytes.now) met }
    requires few { met ≤ 1048576 }
    ensures plans { (path : List (List ℕ)) → (IsTrue S.tells
        → walk_on (inodes_of (S.state blocks.old).books.geom.layout (files_in (S.state blocks.old) nothing_drafted)) 1 path ≡ Fine found.now.number)
        → Plans S.tells (Write path offset bytes.now) result (S.state blocks.old) (S.state blocks.new) }
    ensures made { OnChange result (λ draft cost nodes. MayBeMade S.tells draft cost nodes (S.state blocks.new)) }
{
    calls_compose::<S>();
    a_file_is_at_its_path(blocks, shared);
    counts_tell_what_is_shared::<S>();
    the_map_gives_the_refusal();
    let count = bytes.len() as u32;
    let bitmap = blocks.geom().bitmap_blocks();
    let figures = overwrite_figures(bitmap, size_of(found), offset, count, met);
    match has_room(blocks, &figures) {
        Ok(()) => plan_bytes(
            alloc,
            blocks,
            found.number,
            offset,
            bytes,
            figures.cost,
            shared,
        ),
        Err(why) => Err(why),
    }
}

/// Plans to put these bytes into node `number`, at a cost for which there is room.
///
/// # Errors
/// The file's blocks would lie in too many runs; a read of the disk failed, or another call of it; or out of
/// memory.
pub(crate) fn plan_bytes<'a, S: Blocks>(
    alloc: Global,
    blocks: &mut S,
    number: u32,
    offset: u32,
    bytes: &[u8],
    cost: u32,
    shared: &'a Shared,
) -> Result<Plan<'a>, Refusal>
    requires may { MayPlan S.tells (S.state blocks.old) shared.now }
    requires number { IsNumber (S.state blocks.old).books.geom.i number }
    requires file { IsTrue S.tells → (x : FileNode) × (files_in (S.state blocks.old) nothing_drafted number ≡ Some x) × (x.kind ≡ File) }
    requires some { 0 < length bytes.now }
    requires fits { offset + length bytes.now ≤ 1073741824 }
    requires room { (S.state blocks.old).books.running.weight + cost ≤ (S.state blocks.old).books.room }
    ensures plans { (cmd : Cmd) (path : List (List ℕ)) → MayPut S.tells (S.state blocks.old) number cmd path offset bytes.now cost
        → Plans S.tells cmd result (S.state blocks.old) (S.state blocks.new) }
    ensures made { OnChange result (λ draft cost nodes. MayBeMade S.tells draft cost nodes (S.state blocks.new)) }
{
    blocks.geom().lawful();
    a_draft_may_begin(blocks);
    a_file_has_its_blocks::<S>();
    a_file_fits_the_disk(blocks);
    blocks_have_the_map_of_their_tree();
    new_bytes_are_mapped();
    paths_lead_to_inodes();
    walks_are_the_same();
    the_node_at_a_path_gives_the_inode();
    bytes_lie_in_blocks();
    counts_tell_what_is_shared::<S>();
    small_drafts_are_within_the_cost();
    touched_blocks_are_counted_by_division();
    let mut draft = Draft::beside(alloc, shared);
    match draft.write_at(alloc, blocks, number, u64::from(offset), bytes) {
        Ok(()) => {
            a_draft_that_leaves_snapshots_makes_its_tree(blocks);
            Ok(Plan::Change {
                draft,
                cost,
                nodes: NodeUse::Stays,
            })
        }
        Err(why) => Err(refusal_of(why)),
    }
}

/// Whether so many bytes from `offset` on are some, and reach past the most that a file may have.
pub(crate) fn is_too_large(offset: u32, count: u64) -> bool
    ensures { result ≡ (nat_lt 0 count && is_too_large (offset + count)) }
{
    0 < count && LARGEST_FILE < u64::from(offset).saturating_add(count)
}

/// The size of a file, which has at most 2^30 bytes where the blocks are known.
pub(crate) fn size_of(found: &NodeFound) -> u32
    ensures { result ≡ min found.now.facts.size 1073741824 }
{
    found.facts.size.min(LARGEST_FILE) as u32
}
