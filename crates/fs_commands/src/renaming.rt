//! What a rename comes upon: both paths are looked up, and the tree's refusal is found from reads alone. How a
//! move that the tree accepts is drafted is described elsewhere.

ghost use Rattle.std.specs.Prelude.{◌≡◌, ◌≢◌, ◌<◌, ◌≤◌, ◌^◌, ◌++◌, ◌∷◌, [], ℕ, IsTrue, true, false, if◌then◌else◌, List, length, Option, None, Some};
ghost use Rattle.std.specs.Prelude.{IfNone, IfSome, option_map, Ok as Fine};
ghost use Rattle.lang_tree.specs.declared.command.Cmd.TheVariants.{Rename};
ghost use Rattle.base_types.specs.Layouts.{longest_name};
ghost use Rattle.lang_tree.specs.declared.command.Refusal.TheVariants.{BelowItself, NameTooLong};
ghost use Rattle.lang_tree.specs.Conditions.{first_reason, when};
ghost use Rattle.lang_tree.specs.Paths.{is_below, is_long, parent};
ghost use Rattle.lang_tree.specs.Tree.{Tree};
ghost use Rattle.lang_tree.specs.Walk.{are_same};
ghost use Rattle.crash_stands.specs.Inodes.{Inodes};
ghost use Rattle.crash_stands.specs.Stands.{IsTreeOf};
ghost use Rattle.fs_inodes.specs.Lookups.{has_slots, inode_at, is_dir_inode, is_file_inode};
ghost use Rattle.fs_inodes.specs.Refusals.{onto_reason};
ghost use Rattle.fs_files.specs.Calls.{files_in};
ghost use Rattle.fs_files.specs.Drafts.{nothing_drafted};
ghost use Rattle.fs_dirs.specs.Directories.{IsNumber};
ghost use Rattle.fs_commands.specs.declared.paths.Entry.{Entry as EntryValue};
ghost use Rattle.fs_commands.specs.declared.paths.Spot.TheVariants.{Inside};
ghost use Rattle.fs_commands.specs.Looks.{ComesTo, IsWithin, MayBeEntry, ShowsFacts};
ghost use Rattle.fs_session.specs.Plans.{IsAnswer, MayBeMade, OnChange, Plans};
ghost use Rattle.fs_commands.specs.Renaming.{HasRoot, IsBelowRoot, ShowsEntry};
ghost use Rattle.fs_session.specs.Sessions.{MayBegin, MayPlan, inodes};

use crate::facts::what_a_path_comes_to_gives_the_walk;
use crate::look::is_dir;
use crate::making::is_long;
use crate::moving::{Goal, plan_move};
use crate::paths::{Entry, Spot, look_up};
use crate::refusals::refusal_of;
use crate::removing::{Named, what_stands_there_is_shown};
use base_types::{Layout, Name};
use engine_blocks::{Blocks, calls_compose};
use fs_files::{FileFacts, Shared};
use fs_inodes::{
    a_name_stands_at_its_place, no_tree_stands_for_damage, the_map_gives_the_figures,
    the_map_gives_the_refusal, the_map_gives_the_reply, walks_are_the_same,
    what_changes_nothing_keeps_the_map,
};
use fs_session::{Plan, blocks_have_the_map_of_their_tree};
use lang_tree::{Path, Refusal, Reply, layouts_differ_in_long_names_alone};
use std::alloc::Global;

/// What a rename found at its two ends: the entry at the first path, and what is under the last name of the
/// second one.
#[derive(Clone, Copy)]
struct Ends {
    pub source: Named,
    pub goal: Goal,
}

/// Plans a rename.
///
/// # Errors
/// There is no room; the directory's blocks would lie in too many runs; a read of the disk failed, or another
/// call of it; or out of memory.
pub(crate) fn plan_rename<'a, S: Blocks>(
    alloc: Global,
    blocks: &mut S,
    from: &Path,
    to: &Path,
    shared: &'a Shared,
) -> Result<Plan<'a>, Refusal>
    requires may { MayPlan S.tells (S.state blocks.old) shared.now }
    ensures plans { Plans S.tells (Rename from.now to.now) result (S.state blocks.old) (S.state blocks.new) }
    ensures made { OnChange result (λ draft cost nodes. MayBeMade S.tells draft cost nodes (S.state blocks.new)) }
{
    calls_compose::<S>();
    blocks_have_the_map_of_their_tree();
    the_map_gives_the_refusal();
    what_a_path_comes_to_gives_the_walk();
    let spot = match look_up(alloc, blocks, from, shared) {
        Ok(spot) => spot,
        Err(why) => return Err(refusal_of(why)),
    };
    match spot {
        Ok(spot) => plan_rename_of(alloc, blocks, from, &spot, to, shared),
        Err(why) => Ok(Plan::Answer(Reply::Refused(why))),
    }
}

/// Plans a rename whose first path comes to this.
///
/// # Errors
/// As `plan_rename`.
fn plan_rename_of<'a, S: Blocks>(
    alloc: Global,
    blocks: &mut S,
    from: &Path,
    spot: &Spot,
    to: &Path,
    shared: &'a Shared,
) -> Result<Plan<'a>, Refusal>
    requires may { MayPlan S.tells (S.state blocks.old) shared.now }
    requires comes { IsTrue S.tells → ComesTo (S.state blocks.old).books.geom.layout (files_in (S.state blocks.old) nothing_drafted) from.now (Fine spot.now) }
    requires within { IsWithin (S.state blocks.old).books.geom.i spot.now }
    ensures plans { Plans S.tells (Rename from.now to.now) result (S.state blocks.old) (S.state blocks.new) }
    ensures made { OnChange result (λ draft cost nodes. MayBeMade S.tells draft cost nodes (S.state blocks.new)) }
{
    calls_compose::<S>();
    blocks_have_the_map_of_their_tree();
    the_map_gives_the_refusal();
    what_a_path_comes_to_gives_the_walk();
    match *spot {
        Spot::Root => plan_root_rename(alloc, blocks, to, shared),
        Spot::Inside { dir, count, entry } => {
            match entry {
                Some(entry) => {
                    let source = Named { dir, count, entry };
                    plan_entry_rename(alloc, blocks, from, &source, to, shared)
                }
                None => Ok(Plan::Answer(Reply::Refused(Refusal::NotFound))),
            }
        }
    }
}

/// Plans a rename of the root: the tree refuses that, but to the root itself.
///
/// # Errors
/// A read of the disk failed; or out of memory.
fn plan_root_rename<'a, S: Blocks>(
    alloc: Global,
    blocks: &mut S,
    to: &Path,
    shared: &'a Shared,
) -> Result<Plan<'a>, Refusal>
    requires may { MayPlan S.tells (S.state blocks.old) shared.now }
    ensures plans { Plans S.tells (Rename [] to.now) result (S.state blocks.old) (S.state blocks.new) }
    ensures answers { IsAnswer result }
{
    calls_compose::<S>();
    blocks_have_the_map_of_their_tree();
    the_map_gives_the_figures();
    the_map_gives_the_refusal();
    the_map_gives_the_reply();
    what_a_path_comes_to_gives_the_walk();
    what_changes_nothing_keeps_the_map();
    what_is_found_is_shown(blocks, shared);
    let spot = match look_up(alloc, blocks, to, shared) {
        Ok(spot) => spot,
        Err(why) => return Err(refusal_of(why)),
    };
    let spot = match spot {
        Ok(spot) => spot,
        Err(why) => return Ok(Plan::Answer(Reply::Refused(why))),
    };
    match spot {
        Spot::Root => Ok(Plan::Answer(Reply::Ok)),
        Spot::Inside { entry, .. } => Ok(Plan::Answer(Reply::Refused(root_refusal(&entry)))),
    }
}

/// Plans a rename of an entry that was found.
///
/// # Errors
/// As `plan_rename`.
fn plan_entry_rename<'a, S: Blocks>(
    alloc: Global,
    blocks: &mut S,
    from: &Path,
    source: &Named,
    to: &Path,
    shared: &'a Shared,
) -> Result<Plan<'a>, Refusal>
    requires may { MayPlan S.tells (S.state blocks.old) shared.now }
    requires dir { IsNumber (S.state blocks.old).books.geom.i source.now.dir }
    requires entry { MayBeEntry (S.state blocks.old).books.geom.i source.now.entry }
    requires comes { IsTrue S.tells → ComesTo (S.state blocks.old).books.geom.layout (files_in (S.state blocks.old) nothing_drafted) from.now
        (Fine (Inside source.now.dir source.now.count (Some source.now.entry))) }
    ensures plans { Plans S.tells (Rename from.now to.now) result (S.state blocks.old) (S.state blocks.new) }
    ensures made { OnChange result (λ draft cost nodes. MayBeMade S.tells draft cost nodes (S.state blocks.new)) }
{
    calls_compose::<S>();
    blocks_have_the_map_of_their_tree();
    the_map_gives_the_refusal();
    what_a_path_comes_to_gives_the_walk();
    what_is_found_is_shown(blocks, shared);
    let Some(name) = to.names().last() else {
        return Ok(Plan::Answer(Reply::Refused(onto_root_refusal(&source.entry.node.facts))));
    };
    let spot = match look_up(alloc, blocks, to, shared) {
        Ok(spot) => spot,
        Err(why) => return Err(refusal_of(why)),
    };
    let spot = match spot {
        Ok(spot) => spot,
        Err(why) => return Ok(Plan::Answer(Reply::Refused(why))),
    };
    match spot {
        Spot::Root => {
            Ok(Plan::Answer(Reply::Refused(onto_root_refusal(&source.entry.node.facts))))
        }
        Spot::Inside { dir, count, entry } => {
            let goal = Goal {
                dir,
                count,
                found: entry,
            };
            let ends = Ends {
                source: *source,
                goal,
            };
            plan_entry_move(alloc, blocks, from, to, &ends, name, shared)
        }
    }
}

/// Plans a rename from one end to the other, where `name` is the last name of the second path.
///
/// # Errors
/// As `plan_rename`.
fn plan_entry_move<'a, S: Blocks>(
    alloc: Global,
    blocks: &mut S,
    from: &Path,
    to: &Path,
    ends: &Ends,
    name: &Name,
    shared: &'a Shared,
) -> Result<Plan<'a>, Refusal>
    requires may { MayPlan S.tells (S.state blocks.old) shared.now }
    requires dir { IsNumber (S.state blocks.old).books.geom.i ends.now.source.dir }
    requires entry { MayBeEntry (S.state blocks.old).books.geom.i ends.now.source.entry }
    requires into { IsNumber (S.state blocks.old).books.geom.i ends.now.goal.dir }
    requires few { ends.now.goal.count < 2 ^ 24 }
    requires found { IfSome ends.now.goal.found (MayBeEntry (S.state blocks.old).books.geom.i) }
    requires last { to.now ≡ parent to.now ++ name.now ∷ [] }
    requires comes { IsTrue S.tells → ComesTo (S.state blocks.old).books.geom.layout (files_in (S.state blocks.old) nothing_drafted) from.now
        (Fine (Inside ends.now.source.dir ends.now.source.count (Some ends.now.source.entry))) }
    requires target { IsTrue S.tells → ComesTo (S.state blocks.old).books.geom.layout (files_in (S.state blocks.old) nothing_drafted) to.now
        (Fine (Inside ends.now.goal.dir ends.now.goal.count ends.now.goal.found)) }
    ensures plans { Plans S.tells (Rename from.now to.now) result (S.state blocks.old) (S.state blocks.new) }
    ensures made { OnChange result (λ draft cost nodes. MayBeMade S.tells draft cost nodes (S.state blocks.new)) }
{
    calls_compose::<S>();
    blocks_have_the_map_of_their_tree();
    the_map_gives_the_figures();
    the_map_gives_the_refusal();
    the_map_gives_the_reply();
    what_a_path_comes_to_gives_the_walk();
    what_changes_nothing_keeps_the_map();
    what_is_found_is_shown(blocks, shared);
    layouts_differ_in_long_names_alone();
    let layout = blocks.geom().layout();
    if let Some(why) = ends_refusal(ends, to.is_below(from), name, layout) {
        return Ok(Plan::Answer(Reply::Refused(why)));
    }
    if is_node(ends.source.entry.node.number, &ends.goal.found) {
        return Ok(Plan::Answer(Reply::Ok));
    }
    plan_move(alloc, blocks, &ends.source, &ends.goal, name, shared)
}

/// Why what is at one end can't move to the other one, where it is to have this name; `below` says whether that lies
/// below its own path.
fn ends_refusal(ends: &Ends, below: bool, name: &Name, layout: Layout) -> Option<Refusal>
    ensures reason { (m : Inodes) (from to : List (List ℕ)) → ShowsFacts m from ends.now.source.entry.node.facts
        → ShowsEntry m to ends.now.goal.found → is_below from to ≡ below
        → first_reason ((if are_same (Some ends.now.source.entry.node.number) (option_map (λ (e : EntryValue). e.node.number) ends.now.goal.found)
        then None else onto_reason m from to) ∷ when (is_long layout (Some name.now)) NameTooLong ∷ []) ≡ result }
    ensures short { IfNone result (length name.now ≤ longest_name layout) }
{
    if !is_node(ends.source.entry.node.number, &ends.goal.found) {
        let refusal = move_refusal(&ends.source.entry.node.facts, &ends.goal.found, below);
        if refusal.is_some() {
            return refusal;
        }
    }
    if is_long(name, layout) {
        return Some(Refusal::NameTooLong);
    }
    None
}

/// Whether what was found is the node of this number.
fn is_node(number: u32, found: &Option<Entry>) -> bool
    ensures { result ≡ are_same (Some number) (option_map (λ (e : EntryValue). e.node.number) found.now) }
{
    match *found {
        Some(entry) => number == entry.node.number,
        None => false,
    }
}

/// Why a node with these facts can't move to where this was found, which is another node; `below` says whether
/// that lies below the node's own path.
fn move_refusal(source: &FileFacts, found: &Option<Entry>, below: bool) -> Option<Refusal>
    ensures { (m : Inodes) (from to : List (List ℕ)) → ShowsFacts m from source.now → ShowsEntry m to found.now → is_below from to ≡ below
        → onto_reason m from to ≡ result }
{
    if !is_dir(source.kind) {
        return file_refusal(found);
    }
    match dir_refusal(found) {
        Some(why) => Some(why),
        None => {
            if below {
                return Some(Refusal::BelowItself);
            }
            None
        }
    }
}

/// Why a file can't move to where this was found.
fn file_refusal(found: &Option<Entry>) -> Option<Refusal>
    ensures { (m : Inodes) (from to : List (List ℕ)) → is_dir_inode (inode_at m from) ≡ false → is_file_inode (inode_at m from) ≡ true
        → ShowsEntry m to found.now → onto_reason m from to ≡ result }
{
    let Some(entry) = *found else {
        return None;
    };
    if is_dir(entry.node.facts.kind) {
        return Some(Refusal::IsDir);
    }
    None
}

/// Why a directory can't move to where this was found, but for one that lies below its own path.
fn dir_refusal(found: &Option<Entry>) -> Option<Refusal>
    ensures { (m : Inodes) (from to : List (List ℕ)) → is_dir_inode (inode_at m from) ≡ true → is_file_inode (inode_at m from) ≡ false
        → ShowsEntry m to found.now
        → onto_reason m from to ≡ first_reason (result ∷ when (is_below from to) BelowItself ∷ []) }
{
    let Some(entry) = *found else {
        return None;
    };
    if !is_dir(entry.node.facts.kind) {
        return Some(Refusal::NotDir);
    }
    if entry.node.facts.size > 0 {
        return Some(Refusal::NotEmpty);
    }
    None
}

/// Why the root can't move to where this was found.
fn root_refusal(found: &Option<Entry>) -> Refusal
    ensures { (m : Inodes) (to : List (List ℕ)) → HasRoot m → to ≢ [] → ShowsEntry m to found.now → onto_reason m [] to ≡ Some result }
{
    match dir_refusal(found) {
        Some(why) => why,
        None => Refusal::BelowItself,
    }
}

/// Why a node with these facts can't move onto the root, which has slots.
fn onto_root_refusal(source: &FileFacts) -> Refusal
    ensures { (m : Inodes) (from : List (List ℕ)) → HasRoot m → has_slots (m 1) ≡ true → ShowsFacts m from source.now → onto_reason m from [] ≡ Some result }
{
    if is_dir(source.kind) {
        return Refusal::NotEmpty;
    }
    Refusal::IsDir
}

/// What inodes say of a path is what was found there. That isn't the root, which is a directory.
fn what_is_found_is_shown<S: Blocks>(blocks: &S, shared: &Shared)
    requires begin { MayBegin S.tells (S.state blocks.now) shared.now }
    ensures root { (t : Tree) → IsTreeOf (S.state blocks.now).books.geom (S.state blocks.now).map t → HasRoot (inodes (S.state blocks.now)) }
    ensures entry { IsTrue S.tells → (t : Tree) (path : List (List ℕ)) (dir count : ℕ) (found : Option EntryValue)
        → IsTreeOf (S.state blocks.now).books.geom (S.state blocks.now).map t
        → ComesTo (S.state blocks.now).books.geom.layout (files_in (S.state blocks.now) nothing_drafted) path (Fine (Inside dir count found))
        → ShowsEntry (inodes (S.state blocks.now)) path found × IsBelowRoot (inodes (S.state blocks.now)) found }
{
    a_name_stands_at_its_place();
    blocks_have_the_map_of_their_tree();
    no_tree_stands_for_damage();
    walks_are_the_same();
    what_a_path_comes_to_gives_the_walk();
    what_stands_there_is_shown(blocks, shared);
}
