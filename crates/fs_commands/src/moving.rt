//! The command rename: a name moves, with all that lies below it. It finds its refusal from reads alone, weighs
//! what it needs, and plans a draft. Nothing of that is made here.

ghost use Rattle.std.specs.Prelude.{◌≡◌, ◌≢◌, ◌<◌, ◌≤◌, ◌+◌, ◌++◌, ◌^◌, [], ℕ, IsTrue, List, length, take, Option, None, Some, IfSome, IfOk, IfErr};
ghost use Rattle.base_types.specs.Layouts.{longest_name};
ghost use Rattle.lang_tree.specs.declared.command.Cmd.TheVariants.{Rename};
ghost use Rattle.lang_tree.specs.Figures.{growth, release};
ghost use Rattle.lang_tree.specs.Sharing.{none_shared};
ghost use Rattle.lang_tree.specs.Tree.{Tree};
ghost use Rattle.crash_stands.specs.Stands.{IsTreeOf};
ghost use Rattle.crash_stands.specs.Walks.{LeadsTo};
ghost use Rattle.engine_blocks.specs.Calls.{HasTurns};
ghost use Rattle.engine_blocks.specs.State.{reusable_blocks};
ghost use Rattle.fs_files.specs.Calls.{GrowthRefused, LookRefused, files_in, places_in};
ghost use Rattle.fs_files.specs.Content.{fails_reading, fails_settling};
ghost use Rattle.fs_files.specs.Drafts.{nothing_drafted};
ghost use Rattle.fs_files.specs.Effects.{LooksOnly, LooksAndSettles};
ghost use Rattle.fs_files.specs.Shared.{is_kept};
ghost use Rattle.fs_files.specs.Sound.{IsDraftOf};
ghost use Rattle.fs_dirs.specs.Directories.{IsNumber};
ghost use Rattle.fs_commands.specs.Figures.{HasFacts, LosesBlocks};
ghost use Rattle.fs_commands.specs.Looks.{MayBeEntry};
ghost use Rattle.fs_session.specs.Commands.{GrowsInRuns, places_of, IsCalm};
ghost use Rattle.fs_commands.specs.Moving.{IsMove, KnowsMove, MayMoveAway, MayMoveOnto, MayRename, MovesName};
ghost use Rattle.fs_session.specs.declared.unused.NodeUse.TheVariants.{Stays};
ghost use Rattle.fs_session.specs.Plans.{MayBeMade, OnChange, Plans};
ghost use Rattle.fs_commands.specs.Removing.{blocks_gone, use_after};
ghost use Rattle.fs_session.specs.Snapshots.{LeavesSnapshots};
ghost use Rattle.fs_session.specs.Sessions.{MayBegin, MayPlan, Stands, inodes};

use crate::begins::a_draft_may_begin;
use crate::facts::{the_node_at_a_path_gives_the_inode, what_a_path_comes_to_gives_the_walk};
use crate::making::a_disk_is_small;
use crate::paths::Entry;
use crate::refusals::refusal_of;
use crate::removing::{Named, lose_link, use_after};
use crate::sharing::blocks_gone;
use base_types::Name;
use crash_stands::{blocks_have_a_map, files_have_one_map};
use engine_blocks::{Blocks, calls_compose};
use fs_dirs::{add_slot, alterations_add_up, directories_are_read, set_slot, take_slot};
use fs_files::{
    Draft, FileRefusal, Shared, a_directory_has_whole_slots, a_file_fits_the_disk,
    a_file_has_its_blocks,
};
use fs_inodes::{
    a_move_is_mapped, a_name_stands_at_its_place, paths_lead_to_inodes, the_map_gives_the_figures,
    the_map_gives_the_refusal, the_map_gives_the_reply, walks_are_the_same,
};
use fs_session::{
    NodeUse, Plan, a_draft_that_leaves_snapshots_makes_its_tree, blocks_have_the_map_of_their_tree,
    counts_tell_what_is_shared, has_room,
};
use lang_tree::{Refusal, growth, moving, release};
use layout_bytes::Slot;
use std::alloc::Global;

/// A name in directory `dir`, which has `count` slots, and what stands under it, if anything does.
#[derive(Clone, Copy)]
pub(crate) struct Goal {
    pub dir: u32,
    pub count: u32,
    pub found: Option<Entry>,
}

/// A draft in which the source's name moved onto the target's: the target's slot names the source's node, the
/// source's slot went, and the target's node has one link less.
///
/// # Errors
/// A read of the disk failed, which the disk has counted; or out of memory.
fn draft_onto<'a, S: Blocks>(
    alloc: Global,
    blocks: &mut S,
    source: &Named,
    target: &Named,
    other: &Name,
    shared: &'a Shared,
) -> Result<Draft<'a>, FileRefusal>
    requires begin { MayBegin S.tells (S.state blocks.old) shared.now }
    requires stands { IsTrue S.tells → Stands (S.state blocks.old) }
    requires from_dir { IsNumber (S.state blocks.old).books.geom.i source.now.dir }
    requires from_entry { MayBeEntry (S.state blocks.old).books.geom.i source.now.entry }
    requires onto_dir { IsNumber (S.state blocks.old).books.geom.i target.now.dir }
    requires onto_entry { MayBeEntry (S.state blocks.old).books.geom.i target.now.entry }
    requires moves { IsTrue S.tells → (name : List ℕ) × MayMoveOnto (S.state blocks.old) source.now target.now name other.now }
    requires short { length other.now ≤ longest_name (S.state blocks.old).books.geom.layout }
    ensures draft { IfOk result (λ draft. IsDraftOf S.tells (S.state blocks.new) draft) }
    ensures kept { IfOk result (λ draft. draft.kept ≡ shared.now) }
    ensures leaves { IsTrue S.tells → IfOk result (λ draft. LeavesSnapshots (files_in (S.state blocks.old) nothing_drafted)
        (files_in (S.state blocks.new) draft) (places_of (S.state blocks.old)) (places_in (S.state blocks.new) draft)) }
    ensures moves { IsTrue S.tells → IfOk result (λ draft. (name : List ℕ) → MayMoveOnto (S.state blocks.old) source.now target.now name other.now
        → MovesName (S.state blocks.old) (S.state blocks.new) draft source.now.dir target.now.dir source.now.entry.node.number name other.now 5 []
        (release (S.state blocks.old).books.geom.layout source.now.count + blocks_gone (is_kept shared.now) target.now.entry.node.facts (places_of
        (S.state blocks.old) target.now.entry.node.number))
        (use_after target.now.entry.node)) }
    ensures refused { IfErr result LookRefused }
    ensures looks { LooksOnly S.tells (fails_reading result) (S.state blocks.old) (S.state blocks.new) }
{
    a_draft_may_begin(blocks);
    alterations_add_up();
    blocks_have_a_map();
    files_have_one_map();
    directories_are_read();
    let mut draft = Draft::beside(alloc, shared);
    let slot = Slot {
        node: source.entry.node.number,
        name: other.copy(),
    };
    match set_slot(
        &mut draft,
        alloc,
        blocks,
        target.dir,
        target.entry.place,
        &slot,
    ) {
        Ok(()) => {}
        Err(why) => return Err(why),
    }
    match take_slot(&mut draft, alloc, blocks, source.dir, source.entry.place) {
        Ok(()) => {}
        Err(why) => return Err(why),
    }
    match lose_link(&mut draft, alloc, blocks, &target.entry.node) {
        Ok(()) => Ok(draft),
        Err(why) => Err(why),
    }
}

/// A draft in which the source's name moved to a free one of its directory: its slot changed the name.
///
/// # Errors
/// As `draft_onto`.
fn draft_within<'a, S: Blocks>(
    alloc: Global,
    blocks: &mut S,
    source: &Named,
    other: &Name,
    shared: &'a Shared,
) -> Result<Draft<'a>, FileRefusal>
    requires begin { MayBegin S.tells (S.state blocks.old) shared.now }
    requires stands { IsTrue S.tells → Stands (S.state blocks.old) }
    requires dir { IsNumber (S.state blocks.old).books.geom.i source.now.dir }
    requires entry { MayBeEntry (S.state blocks.old).books.geom.i source.now.entry }
    requires moves { IsTrue S.tells → (name : List ℕ) × MayRename (S.state blocks.old) source.now name other.now }
    requires short { length other.now ≤ longest_name (S.state blocks.old).books.geom.layout }
    ensures draft { IfOk result (λ draft. IsDraftOf S.tells (S.state blocks.new) draft) }
    ensures kept { IfOk result (λ draft. draft.kept ≡ shared.now) }
    ensures leaves { IsTrue S.tells → IfOk result (λ draft. LeavesSnapshots (files_in (S.state blocks.old) nothing_drafted)
        (files_in (S.state blocks.new) draft) (places_of (S.state blocks.old)) (places_in (S.state blocks.new) draft)) }
    ensures moves { IsTrue S.tells → IfOk result (λ draft. (name : List ℕ) → MayRename (S.state blocks.old) source.now name other.now
        → MovesName (S.state blocks.old) (S.state blocks.new) draft source.now.dir source.now.dir source.now.entry.node.number name other.now 1 [] 0
        Stays) }
    ensures refused { IfErr result LookRefused }
    ensures looks { LooksOnly S.tells (fails_reading result) (S.state blocks.old) (S.state blocks.new) }
{
    a_draft_may_begin(blocks);
    a_name_stands_at_its_place();
    blocks_have_a_map();
    files_have_one_map();
    directories_are_read();
    let mut draft = Draft::beside(alloc, shared);
    let slot = Slot {
        node: source.entry.node.number,
        name: other.copy(),
    };
    match set_slot(
        &mut draft,
        alloc,
        blocks,
        source.dir,
        source.entry.place,
        &slot,
    ) {
        Ok(()) => Ok(draft),
        Err(why) => Err(why),
    }
}

/// A draft in which the source's name moved to a free one of directory `into`, which is another one: a slot came
/// there, and the source's went.
///
/// # Errors
/// Where the directory grows by a block: none may be taken; its blocks would lie in more runs than it has room for; or the
/// disk failed as it settled. Else as `draft_onto`.
fn draft_across<'a, S: Blocks>(
    alloc: Global,
    blocks: &mut S,
    source: &Named,
    into: u32,
    count: u32,
    other: &Name,
    shared: &'a Shared,
) -> Result<Draft<'a>, FileRefusal>
    requires begin { MayBegin S.tells (S.state blocks.old) shared.now }
    requires turns { HasTurns (S.state blocks.old).books }
    requires stands { IsTrue S.tells → Stands (S.state blocks.old) }
    requires dir { IsNumber (S.state blocks.old).books.geom.i source.now.dir }
    requires entry { MayBeEntry (S.state blocks.old).books.geom.i source.now.entry }
    requires into { IsNumber (S.state blocks.old).books.geom.i into }
    requires few { count < 2 ^ 24 }
    requires moves { IsTrue S.tells → (name : List ℕ) × MayMoveAway (S.state blocks.old) source.now into count name other.now }
    requires short { length other.now ≤ longest_name (S.state blocks.old).books.geom.layout }
    ensures draft { IfOk result (λ draft. IsDraftOf S.tells (S.state blocks.new) draft) }
    ensures kept { IfOk result (λ draft. draft.kept ≡ shared.now) }
    ensures leaves { IsTrue S.tells → IfOk result (λ draft. LeavesSnapshots (files_in (S.state blocks.old) nothing_drafted)
        (files_in (S.state blocks.new) draft) (places_of (S.state blocks.old)) (places_in (S.state blocks.new) draft)) }
    ensures moves { IsTrue S.tells → IfOk result (λ draft. (name : List ℕ) → MayMoveAway (S.state blocks.old) source.now into count name other.now
        → MovesName (S.state blocks.old) (S.state blocks.new) draft source.now.dir into source.now.entry.node.number name other.now 5
        (take (growth (S.state blocks.old).books.geom.layout count) (reusable_blocks (S.state blocks.new).books)) (release
        (S.state blocks.old).books.geom.layout source.now.count) Stays) }
    ensures rests { IsTrue S.tells → IfOk result (λ draft. (name : List ℕ) → MayMoveAway (S.state blocks.old) source.now into count name other.now
        → growth (S.state blocks.old).books.geom.layout count ≤ length (reusable_blocks (S.state blocks.old).books)
        → (S.state blocks.new).books ≡ (S.state blocks.old).books) }
    ensures grows { IsTrue S.tells → IfOk result (λ draft. (name : List ℕ)
        → MayMoveAway (S.state blocks.old) source.now into count name other.now
        → GrowsInRuns none_shared (S.state blocks.old) (S.state blocks.new).books into (growth (S.state blocks.old).books.geom.layout count)) }
    ensures refused { IsTrue S.tells → IfErr result (λ why. (name : List ℕ) → MayMoveAway (S.state blocks.old) source.now into count name other.now
        → GrowthRefused (growth (S.state blocks.old).books.geom.layout count) (λ more. places_of (S.state blocks.old) into ++ more)
        (S.state blocks.old).books (S.state blocks.new).books why) }
    ensures quiet { IsTrue S.tells → (name : List ℕ) → MayMoveAway (S.state blocks.old) source.now into count name other.now
        → IsCalm (growth (S.state blocks.old).books.geom.layout count) (S.state blocks.old) (S.state blocks.new) }
    ensures settles { LooksAndSettles S.tells (fails_reading result) (fails_settling result) (S.state blocks.old) (S.state blocks.new) }
{
    a_draft_may_begin(blocks);
    alterations_add_up();
    blocks_have_a_map();
    calls_compose::<S>();
    files_have_one_map();
    directories_are_read();
    let mut draft = Draft::beside(alloc, shared);
    let slot = Slot {
        node: source.entry.node.number,
        name: other.copy(),
    };
    match add_slot(&mut draft, alloc, blocks, into, count, &slot) {
        Ok(()) => {}
        Err(why) => return Err(why),
    }
    match take_slot(&mut draft, alloc, blocks, source.dir, source.entry.place) {
        Ok(()) => Ok(draft),
        Err(why) => Err(why),
    }
}

/// Plans a move that the tree accepts: of what was found to this name in directory `into`, which has `count`
/// slots, and under which `found` is.
///
/// # Errors
/// There is no room; the directory's blocks would lie in too many runs; a read of the disk failed, or another
/// call of it; or out of memory.
pub(crate) fn plan_move<'a, S: Blocks>(
    alloc: Global,
    blocks: &mut S,
    source: &Named,
    spot: &Goal,
    other: &Name,
    shared: &'a Shared,
) -> Result<Plan<'a>, Refusal>
    requires may { MayPlan S.tells (S.state blocks.old) shared.now }
    requires dir { IsNumber (S.state blocks.old).books.geom.i source.now.dir }
    requires entry { MayBeEntry (S.state blocks.old).books.geom.i source.now.entry }
    requires into { IsNumber (S.state blocks.old).books.geom.i spot.now.dir }
    requires few { spot.now.count < 2 ^ 24 }
    requires found { IfSome spot.now.found (MayBeEntry (S.state blocks.old).books.geom.i) }
    requires known { IsTrue S.tells → (from : List (List ℕ)) × (to : List (List ℕ))
        × IsMove (S.state blocks.old).books.geom.layout (files_in
        (S.state blocks.old) nothing_drafted) from to source.now spot.now.dir spot.now.count spot.now.found other.now }
    requires short { length other.now ≤ longest_name (S.state blocks.old).books.geom.layout }
    ensures plans { (from to : List (List ℕ))
        → (IsTrue S.tells
        → IsMove (S.state blocks.old).books.geom.layout (files_in
        (S.state blocks.old) nothing_drafted) from to source.now spot.now.dir spot.now.count spot.now.found
        other.now) → Plans S.tells (Rename from to) result (S.state blocks.old) (S.state blocks.new) }
    ensures made { OnChange result (λ draft cost nodes. MayBeMade S.tells draft cost nodes (S.state blocks.new)) }
{
    match spot.found {
        Some(entry) => {
            let target = Named {
                dir: spot.dir,
                count: spot.count,
                entry,
            };
            plan_onto(alloc, blocks, source, &target, other, shared)
        }
        None => {
            if source.dir == spot.dir {
                return plan_within(alloc, blocks, source, other, shared);
            }
            plan_across(alloc, blocks, source, spot.dir, spot.count, other, shared)
        }
    }
}

/// Plans a move onto what is at the second path, which the tree accepts.
///
/// # Errors
/// There is no room; a read of the disk failed; or out of memory.
fn plan_onto<'a, S: Blocks>(
    alloc: Global,
    blocks: &mut S,
    source: &Named,
    target: &Named,
    other: &Name,
    shared: &'a Shared,
) -> Result<Plan<'a>, Refusal>
    requires may { MayPlan S.tells (S.state blocks.old) shared.now }
    requires from_dir { IsNumber (S.state blocks.old).books.geom.i source.now.dir }
    requires from_entry { MayBeEntry (S.state blocks.old).books.geom.i source.now.entry }
    requires onto_dir { IsNumber (S.state blocks.old).books.geom.i target.now.dir }
    requires onto_entry { MayBeEntry (S.state blocks.old).books.geom.i target.now.entry }
    requires known { IsTrue S.tells → (from : List (List ℕ)) × (to : List (List ℕ))
        × IsMove (S.state blocks.old).books.geom.layout (files_in (S.state blocks.old) nothing_drafted) from to source.now target.now.dir target.now.count
        (Some target.now.entry)
        other.now }
    requires short { length other.now ≤ longest_name (S.state blocks.old).books.geom.layout }
    ensures plans { (from to : List (List ℕ))
        → (IsTrue S.tells
        → IsMove (S.state blocks.old).books.geom.layout (files_in (S.state blocks.old) nothing_drafted) from to source.now target.now.dir target.now.count
        (Some target.now.entry) other.now) → Plans S.tells (Rename from to) result (S.state blocks.old) (S.state blocks.new) }
    ensures made { OnChange result (λ draft cost nodes. MayBeMade S.tells draft cost nodes (S.state blocks.new)) }
{
    calls_compose::<S>();
    a_move_is_known(blocks, shared);
    match blocks_gone(alloc, blocks, &target.entry.node, shared) {
        Ok(gone) => plan_onto_lost(alloc, blocks, source, target, other, gone, shared),
        Err(why) => Err(refusal_of(why)),
    }
}

/// Plans such a move, with which so many blocks go.
///
/// # Errors
/// As `plan_onto`.
fn plan_onto_lost<'a, S: Blocks>(
    alloc: Global,
    blocks: &mut S,
    source: &Named,
    target: &Named,
    other: &Name,
    gone: u32,
    shared: &'a Shared,
) -> Result<Plan<'a>, Refusal>
    requires may { MayPlan S.tells (S.state blocks.old) shared.now }
    requires from_dir { IsNumber (S.state blocks.old).books.geom.i source.now.dir }
    requires from_entry { MayBeEntry (S.state blocks.old).books.geom.i source.now.entry }
    requires onto_dir { IsNumber (S.state blocks.old).books.geom.i target.now.dir }
    requires onto_entry { MayBeEntry (S.state blocks.old).books.geom.i target.now.entry }
    requires known { IsTrue S.tells → (from : List (List ℕ)) × (to : List (List ℕ))
        × IsMove (S.state blocks.old).books.geom.layout (files_in (S.state blocks.old) nothing_drafted) from to source.now target.now.dir target.now.count
        (Some target.now.entry)
        other.now }
    requires gone { IsTrue S.tells → LosesBlocks (S.state blocks.old) shared.now target.now.entry.node gone }
    requires few { gone ≤ 1048576 }
    requires short { length other.now ≤ longest_name (S.state blocks.old).books.geom.layout }
    ensures plans { (from to : List (List ℕ))
        → (IsTrue S.tells
        → IsMove (S.state blocks.old).books.geom.layout (files_in (S.state blocks.old) nothing_drafted) from to source.now target.now.dir target.now.count
        (Some target.now.entry) other.now) → Plans S.tells (Rename from to) result (S.state blocks.old) (S.state blocks.new) }
    ensures made { OnChange result (λ draft cost nodes. MayBeMade S.tells draft cost nodes (S.state blocks.new)) }
{
    calls_compose::<S>();
    a_draft_may_begin(blocks);
    a_file_has_its_blocks::<S>();
    a_move_is_known(blocks, shared);
    a_move_is_mapped();
    alterations_add_up();
    blocks_have_the_map_of_their_tree();
    counts_tell_what_is_shared::<S>();
    the_map_gives_the_figures();
    the_map_gives_the_refusal();
    the_map_gives_the_reply();
    let geom = blocks.geom();
    let bitmap = geom.bitmap_blocks();
    let figures = moving(
        bitmap,
        0,
        release(u64::from(source.count), geom.layout()) + gone,
    );
    match has_room(blocks, &figures) {
        Ok(()) => {}
        Err(why) => return Err(why),
    }
    match draft_onto(alloc, blocks, source, target, other, shared) {
        Ok(draft) => {
            a_draft_that_leaves_snapshots_makes_its_tree(blocks);
            Ok(Plan::Change {
                draft,
                cost: figures.cost,
                nodes: use_after(&target.entry.node),
            })
        }
        Err(why) => Err(refusal_of(why)),
    }
}

/// Plans a move to a free name of the directory.
///
/// # Errors
/// As `plan_onto`.
fn plan_within<'a, S: Blocks>(
    alloc: Global,
    blocks: &mut S,
    source: &Named,
    other: &Name,
    shared: &'a Shared,
) -> Result<Plan<'a>, Refusal>
    requires may { MayPlan S.tells (S.state blocks.old) shared.now }
    requires dir { IsNumber (S.state blocks.old).books.geom.i source.now.dir }
    requires entry { MayBeEntry (S.state blocks.old).books.geom.i source.now.entry }
    requires known { IsTrue S.tells → (from : List (List ℕ)) × (to : List (List ℕ))
        × IsMove (S.state blocks.old).books.geom.layout (files_in
        (S.state blocks.old) nothing_drafted) from to source.now source.now.dir source.now.count None other.now }
    requires short { length other.now ≤ longest_name (S.state blocks.old).books.geom.layout }
    ensures plans { (from to : List (List ℕ))
        → (IsTrue S.tells
        → IsMove (S.state blocks.old).books.geom.layout (files_in
        (S.state blocks.old) nothing_drafted) from to source.now source.now.dir source.now.count None other.now)
        → Plans S.tells (Rename from to) result (S.state blocks.old) (S.state blocks.new) }
    ensures made { OnChange result (λ draft cost nodes. MayBeMade S.tells draft cost nodes (S.state blocks.new)) }
{
    calls_compose::<S>();
    a_move_is_known(blocks, shared);
    a_move_is_mapped();
    alterations_add_up();
    blocks_have_the_map_of_their_tree();
    paths_lead_to_inodes();
    the_map_gives_the_figures();
    the_map_gives_the_refusal();
    the_map_gives_the_reply();
    let figures = moving(blocks.geom().bitmap_blocks(), 0, 0);
    match has_room(blocks, &figures) {
        Ok(()) => {}
        Err(why) => return Err(why),
    }
    match draft_within(alloc, blocks, source, other, shared) {
        Ok(draft) => {
            a_draft_that_leaves_snapshots_makes_its_tree(blocks);
            Ok(Plan::Change {
                draft,
                cost: figures.cost,
                nodes: NodeUse::Stays,
            })
        }
        Err(why) => Err(refusal_of(why)),
    }
}

/// Plans a move to a free name of another directory, which has so many slots.
///
/// # Errors
/// There is no room; the directory's blocks would lie in too many runs; a read of the disk failed, or another
/// call of it; or out of memory.
fn plan_across<'a, S: Blocks>(
    alloc: Global,
    blocks: &mut S,
    source: &Named,
    into: u32,
    count: u32,
    other: &Name,
    shared: &'a Shared,
) -> Result<Plan<'a>, Refusal>
    requires may { MayPlan S.tells (S.state blocks.old) shared.now }
    requires dir { IsNumber (S.state blocks.old).books.geom.i source.now.dir }
    requires entry { MayBeEntry (S.state blocks.old).books.geom.i source.now.entry }
    requires into { IsNumber (S.state blocks.old).books.geom.i into }
    requires few { count < 2 ^ 24 }
    requires apart { source.now.dir ≢ into }
    requires known { IsTrue S.tells → (from : List (List ℕ)) × (to : List (List ℕ))
        × IsMove (S.state blocks.old).books.geom.layout (files_in (S.state blocks.old) nothing_drafted) from to source.now into count None other.now }
    requires short { length other.now ≤ longest_name (S.state blocks.old).books.geom.layout }
    ensures plans { (from to : List (List ℕ))
        → (IsTrue S.tells
        → IsMove (S.state blocks.old).books.geom.layout (files_in (S.state blocks.old) nothing_drafted) from to source.now into count None other.now)
        → Plans S.tells (Rename from to) result (S.state blocks.old) (S.state blocks.new) }
    ensures made { OnChange result (λ draft cost nodes. MayBeMade S.tells draft cost nodes (S.state blocks.new)) }
{
    calls_compose::<S>();
    a_disk_is_small(blocks);
    a_move_is_known(blocks, shared);
    a_move_is_mapped();
    alterations_add_up();
    blocks_have_the_map_of_their_tree();
    paths_lead_to_inodes();
    the_map_gives_the_figures();
    the_map_gives_the_refusal();
    the_map_gives_the_reply();
    let geom = blocks.geom();
    let figures = moving(
        geom.bitmap_blocks(),
        growth(u64::from(count), geom.layout()),
        release(u64::from(source.count), geom.layout()),
    );
    match has_room(blocks, &figures) {
        Ok(()) => {}
        Err(why) => return Err(why),
    }
    match draft_across(alloc, blocks, source, into, count, other, shared) {
        Ok(draft) => {
            a_draft_that_leaves_snapshots_makes_its_tree(blocks);
            Ok(Plan::Change {
                draft,
                cost: figures.cost,
                nodes: NodeUse::Stays,
            })
        }
        Err(why) => Err(refusal_of(why)),
    }
}

/// What a rename comes upon, where the tree accepts it, is known; and what is at the second path has no slots.
fn a_move_is_known<S: Blocks>(blocks: &S, shared: &Shared)
    requires begin { MayBegin S.tells (S.state blocks.now) shared.now }
    ensures knows { IsTrue S.tells → (from to : List (List ℕ)) (source : Named) (into count : ℕ) (found : Option Entry) (other : List ℕ)
        → IsMove (S.state blocks.now).books.geom.layout (files_in (S.state blocks.now) nothing_drafted) from to source into count found other
        → KnowsMove (S.state blocks.now).books.geom.layout (files_in (S.state blocks.now) nothing_drafted) from to source into count found other }
    ensures onto { IsTrue S.tells → (t : Tree) (from to : List (List ℕ)) (source target : Named) (other : List ℕ)
        → IsTreeOf (S.state blocks.now).books.geom (S.state blocks.now).map t
        → IsMove (S.state blocks.now).books.geom.layout (files_in (S.state blocks.now) nothing_drafted) from to source target.dir target.count
        (Some target.entry) other
        → (k : KnowsMove (S.state blocks.now).books.geom.layout (files_in (S.state blocks.now) nothing_drafted) from to source target.dir target.count
        (Some target.entry) other)
        → MayMoveOnto (S.state blocks.now) source target k.name other
        × HasFacts (inodes (S.state blocks.now)) to target.entry.node.facts.links target.entry.node.facts.size
        × (target.entry.node.facts.size ≤ 1073741824)
        × LeadsTo (inodes (S.state blocks.now)) to target.entry.node.number }
{
    a_draft_may_begin(blocks);
    a_directory_has_whole_slots::<S>();
    a_file_fits_the_disk(blocks);
    a_name_stands_at_its_place();
    blocks_have_the_map_of_their_tree();
    the_node_at_a_path_gives_the_inode();
    what_a_path_comes_to_gives_the_walk();
    walks_are_the_same();
}
