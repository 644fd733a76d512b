//! The commands by which a name comes to be: mkdir, create and link. Each finds its refusal from reads alone,
//! weighs what it needs, and plans a draft. Nothing of that is made here.

ghost use Rattle.std.specs.Prelude.{◌≡◌, ◌≢◌, ◌<◌, ◌≤◌, ◌+◌, ◌^◌, ◌++◌, ◌∷◌, [], ℕ, IsTrue, true, false, List, length, None, Some, Ok as Fine};
ghost use Rattle.std.specs.Prelude.{Err as Failed, IfOk, IfErr, IfSome};
ghost use Rattle.base_types.specs.declared.layout.Layout.{Layout as LayoutValue};
ghost use Rattle.base_types.specs.Layouts.{longest_name};
ghost use Rattle.layout_bytes.specs.declared.node.NodeKind.TheVariants.{Free};
ghost use Rattle.layout_bytes.specs.declared.slot.Slot.{Slot as SlotValue};
ghost use Rattle.lang_tree.specs.declared.command.Cmd.{Cmd};
ghost use Rattle.lang_tree.specs.declared.command.Cmd.TheVariants.{Link};
ghost use Rattle.lang_tree.specs.declared.command.Kind.{Kind as KindValue};
ghost use Rattle.lang_tree.specs.declared.command.Refusal.{Refusal as RefusalValue};
ghost use Rattle.lang_tree.specs.declared.command.Refusal.TheVariants.{IsDir, NameTooLong, NoNode, TooManyLinks};
ghost use Rattle.lang_tree.specs.Conditions.{refusal};
ghost use Rattle.lang_tree.specs.Paths.{is_long};
ghost use Rattle.lang_tree.specs.Step.{Session, step};
ghost use Rattle.lang_tree.specs.Figures.{growth};
ghost use Rattle.lang_tree.specs.Tree.{Tree};
ghost use Rattle.crash_stands.specs.Files.{Files};
ghost use Rattle.crash_stands.specs.Inodes.{Inodes, ADir, AFile};
ghost use Rattle.crash_stands.specs.Maps.{IsMapOf};
ghost use Rattle.crash_stands.specs.Stands.{IsTreeOf};
ghost use Rattle.fs_inodes.specs.Changes.{AddsSlot, new_inode, slot_of};
ghost use Rattle.engine_blocks.specs.Calls.{HasTurns};
ghost use Rattle.fs_files.specs.Calls.{files_in, is_dir, places_in, GrowthRefused, IsUsed, LookRefused};
ghost use Rattle.fs_files.specs.Content.{fails_reading, fails_settling};
ghost use Rattle.fs_files.specs.Drafts.{nothing_drafted};
ghost use Rattle.fs_files.specs.Effects.{LooksAndSettles, LooksOnly};
ghost use Rattle.fs_files.specs.Sound.{IsDraftOf};
ghost use Rattle.fs_dirs.specs.Changing.{HasCount};
ghost use Rattle.fs_dirs.specs.Directories.{IsNumber};
ghost use Rattle.fs_commands.specs.declared.paths.NodeFound.{NodeFound as FoundValue};
ghost use Rattle.fs_commands.specs.declared.making.Vacancy.{Vacancy as VacancyValue};
ghost use Rattle.fs_session.specs.Commands.{least_number, places_of, IsCalm};
ghost use Rattle.fs_commands.specs.Looks.{ComesTo, IsNoSnapshot, IsWithin, LeadsToFound};
ghost use Rattle.fs_commands.specs.Making.{AcceptsName, AddsName, MayAppear, MayLink, first_thing, make_cmd, node_kind};
ghost use Rattle.fs_session.specs.declared.unused.NodeUse.TheVariants.{Taken};
ghost use Rattle.fs_session.specs.Plans.{MayBeMade, OnChange, Plans};
ghost use Rattle.fs_session.specs.Snapshots.{LeavesSnapshots};
ghost use Rattle.fs_session.specs.Sessions.{AreUsedBelow, IsSession, KeepsUsed, MayBegin, MayPlan, inodes};

use crate::begins::a_draft_may_begin;
use crate::facts::what_a_path_comes_to_gives_the_walk;
use crate::figures::new_name_figures;
use crate::look::is_dir;
use crate::paths::{NodeFound, Spot, find_node, look_up};
use crate::refusals::refusal_of;
use base_types::limits::MOST_LINKS;
use base_types::{Layout, Name};
use crash_stands::{blocks_have_a_map, files_have_one_map};
use engine_blocks::{Blocks, calls_compose};
use fs_dirs::{add_slot, alterations_add_up};
use fs_files::{Draft, FileRefusal, Shared, a_file_fits_the_disk, a_file_has_its_blocks};
use fs_inodes::{
    a_file_reads_as_itself, a_new_node_is_mapped, a_new_path_is_mapped, the_map_gives_the_figures,
    the_map_gives_the_refusal, walks_are_the_same,
};
use fs_session::{
    NodeUse, Plan, a_draft_that_leaves_snapshots_makes_its_tree, blocks_have_the_map_of_their_tree,
    counts_tell_what_is_shared, has_room,
};
use lang_tree::{Kind, Path, Refusal, Reply, layouts_differ_in_long_names_alone};
use layout_bytes::{NodeKind, Slot};
use std::alloc::Global;

/// Plans to make an empty directory or file at a path. All nodes of a number below `first_unused` are in use.
///
/// # Errors
/// There is no room; the directory's blocks would lie in too many runs; a read of the disk failed, or another
/// call of it; or out of memory.
pub(crate) fn plan_node<'a, S: Blocks>(
    alloc: Global,
    blocks: &mut S,
    kind: Kind,
    path: &Path,
    first_unused: u32,
    shared: &'a Shared,
) -> Result<Plan<'a>, Refusal>
    requires may { MayPlan S.tells (S.state blocks.old) shared.now }
    requires above { 1 ≤ first_unused }
    requires below { IsTrue S.tells → AreUsedBelow (files_in (S.state blocks.old) nothing_drafted) first_unused }
    ensures plans { Plans S.tells (make_cmd kind path.now) result (S.state blocks.old) (S.state blocks.new) }
    ensures made { OnChange result (λ draft cost nodes. MayBeMade S.tells draft cost nodes (S.state blocks.new)) }
{
    calls_compose::<S>();
    the_tree_makes_nodes::<S>();
    match find_vacancy(alloc, blocks, path, shared) {
        Ok(Ok(vacancy)) => make_in(alloc, blocks, kind, &vacancy, first_unused, shared),
        Ok(Err(why)) => Ok(Plan::Answer(Reply::Refused(why))),
        Err(why) => Err(refusal_of(why)),
    }
}

/// Plans to make a directory or file where its name may come to be.
///
/// # Errors
/// As `plan_node`.
fn make_in<'a, S: Blocks>(
    alloc: Global,
    blocks: &mut S,
    kind: Kind,
    vacancy: &Vacancy,
    first_unused: u32,
    shared: &'a Shared,
) -> Result<Plan<'a>, Refusal>
    requires may { MayPlan S.tells (S.state blocks.old) shared.now }
    requires above { 1 ≤ first_unused }
    requires below { IsTrue S.tells → AreUsedBelow (files_in (S.state blocks.old) nothing_drafted) first_unused }
    requires dir { IsNumber (S.state blocks.old).books.geom.i vacancy.now.dir }
    requires few { vacancy.now.count < 2 ^ 24 }
    requires there { IsTrue S.tells → HasCount (S.state blocks.old) nothing_drafted vacancy.now.dir vacancy.now.count }
    ensures plans { (path : List (List ℕ)) → (IsTrue S.tells
        → MayAppear (S.state blocks.old).books.geom.layout (files_in (S.state blocks.old) nothing_drafted) path (Fine vacancy.now))
        → Plans S.tells (make_cmd kind path) result (S.state blocks.old) (S.state blocks.new) }
    ensures made { OnChange result (λ draft cost nodes. MayBeMade S.tells draft cost nodes (S.state blocks.new)) }
{
    calls_compose::<S>();
    the_tree_makes_nodes::<S>();
    let layout = blocks.geom().layout();
    match least_unused(alloc, blocks, first_unused, shared) {
        Ok(Some(node)) => {
            if is_long(&vacancy.name, layout) {
                return Ok(Plan::Answer(Reply::Refused(Refusal::NameTooLong)));
            }
            make_node(alloc, blocks, kind, vacancy, node, shared)
        }
        Ok(None) => Ok(Plan::Answer(Reply::Refused(Refusal::NoNode))),
        Err(why) => Err(refusal_of(why)),
    }
}

/// Plans to make a directory or file of number `node`, the least that no node has.
///
/// # Errors
/// As `plan_node`.
fn make_node<'a, S: Blocks>(
    alloc: Global,
    blocks: &mut S,
    kind: Kind,
    vacancy: &Vacancy,
    node: u32,
    shared: &'a Shared,
) -> Result<Plan<'a>, Refusal>
    requires may { MayPlan S.tells (S.state blocks.old) shared.now }
    requires below { IsTrue S.tells → AreUsedBelow (files_in (S.state blocks.old) nothing_drafted) node }
    requires dir { IsNumber (S.state blocks.old).books.geom.i vacancy.now.dir }
    requires few { vacancy.now.count < 2 ^ 24 }
    requires there { IsTrue S.tells → HasCount (S.state blocks.old) nothing_drafted vacancy.now.dir vacancy.now.count }
    requires short { length vacancy.now.name ≤ longest_name (S.state blocks.old).books.geom.layout }
    requires node { IsNumber (S.state blocks.old).books.geom.i node }
    ensures plans { (path : List (List ℕ)) → (IsTrue S.tells
        → MayAppear (S.state blocks.old).books.geom.layout (files_in (S.state blocks.old) nothing_drafted) path (Fine vacancy.now))
        → (IsTrue S.tells → least_number (S.state blocks.old) ≡ Some node)
        → Plans S.tells (make_cmd kind path) result (S.state blocks.old) (S.state blocks.new) }
    ensures made { OnChange result (λ draft cost nodes. MayBeMade S.tells draft cost nodes (S.state blocks.new)) }
{
    a_disk_is_small(blocks);
    calls_compose::<S>();
    the_tree_makes_nodes::<S>();
    let figures = new_name_figures(u64::from(vacancy.count), blocks.geom().layout());
    match has_room(blocks, &figures) {
        Ok(()) => {}
        Err(why) => return Err(why),
    }
    let slot = Slot {
        node,
        name: vacancy.name.copy(),
    };
    match draft_node(
        alloc,
        blocks,
        kind,
        vacancy.dir,
        vacancy.count,
        &slot,
        shared,
    ) {
        Ok(draft) => {
            a_draft_that_leaves_snapshots_makes_its_tree(blocks);
            Ok(Plan::Change {
                draft,
                cost: figures.cost,
                nodes: NodeUse::Taken(node),
            })
        }
        Err(why) => Err(refusal_of(why)),
    }
}

/// Plans another path, `other`, of the file at a path.
///
/// # Errors
/// As `plan_node`.
pub(crate) fn plan_link<'a, S: Blocks>(
    alloc: Global,
    blocks: &mut S,
    path: &Path,
    other: &Path,
    shared: &'a Shared,
) -> Result<Plan<'a>, Refusal>
    requires may { MayPlan S.tells (S.state blocks.old) shared.now }
    ensures plans { Plans S.tells (Link path.now other.now) result (S.state blocks.old) (S.state blocks.new) }
    ensures made { OnChange result (λ draft cost nodes. MayBeMade S.tells draft cost nodes (S.state blocks.new)) }
{
    blocks_have_the_map_of_their_tree();
    calls_compose::<S>();
    the_tree_links_files::<S>();
    walks_are_the_same();
    match find_node(alloc, blocks, path, shared) {
        Ok(Ok(found)) => link_to(alloc, blocks, &found, other, shared),
        Ok(Err(why)) => Ok(Plan::Answer(Reply::Refused(why))),
        Err(why) => Err(refusal_of(why)),
    }
}

/// Plans another path, `other`, of a node that was found.
///
/// # Errors
/// As `plan_node`.
fn link_to<'a, S: Blocks>(
    alloc: Global,
    blocks: &mut S,
    found: &NodeFound,
    other: &Path,
    shared: &'a Shared,
) -> Result<Plan<'a>, Refusal>
    requires may { MayPlan S.tells (S.state blocks.old) shared.now }
    requires number { IsNumber (S.state blocks.old).books.geom.i found.now.number }
    requires used { IsTrue S.tells → IsUsed (files_in (S.state blocks.old) nothing_drafted) found.now.number }
    requires plain { IsTrue S.tells → IsNoSnapshot (files_in (S.state blocks.old) nothing_drafted found.now.number) }
    ensures plans { (path : List (List ℕ)) → (IsTrue S.tells
        → LeadsToFound (S.state blocks.old).books.geom.layout (files_in (S.state blocks.old) nothing_drafted) path (Fine found.now))
        → Plans S.tells (Link path other.now) result (S.state blocks.old) (S.state blocks.new) }
    ensures made { OnChange result (λ draft cost nodes. MayBeMade S.tells draft cost nodes (S.state blocks.new)) }
{
    calls_compose::<S>();
    the_tree_links_files::<S>();
    match find_vacancy(alloc, blocks, other, shared) {
        Ok(Ok(vacancy)) => link_in(alloc, blocks, found, &vacancy, shared),
        Ok(Err(why)) => Ok(Plan::Answer(Reply::Refused(why))),
        Err(why) => Err(refusal_of(why)),
    }
}

/// Plans another path of a node that was found, where its name may come to be.
///
/// # Errors
/// As `plan_node`.
fn link_in<'a, S: Blocks>(
    alloc: Global,
    blocks: &mut S,
    found: &NodeFound,
    vacancy: &Vacancy,
    shared: &'a Shared,
) -> Result<Plan<'a>, Refusal>
    requires may { MayPlan S.tells (S.state blocks.old) shared.now }
    requires dir { IsNumber (S.state blocks.old).books.geom.i vacancy.now.dir }
    requires few { vacancy.now.count < 2 ^ 24 }
    requires there { IsTrue S.tells → HasCount (S.state blocks.old) nothing_drafted vacancy.now.dir vacancy.now.count }
    requires number { IsNumber (S.state blocks.old).books.geom.i found.now.number }
    requires used { IsTrue S.tells → IsUsed (files_in (S.state blocks.old) nothing_drafted) found.now.number }
    requires plain { IsTrue S.tells → IsNoSnapshot (files_in (S.state blocks.old) nothing_drafted found.now.number) }
    ensures plans { (path other : List (List ℕ)) → (IsTrue S.tells
        → LeadsToFound (S.state blocks.old).books.geom.layout (files_in (S.state blocks.old) nothing_drafted) path (Fine found.now))
        → (IsTrue S.tells → MayAppear (S.state blocks.old).books.geom.layout (files_in (S.state blocks.old) nothing_drafted) other (Fine vacancy.now))
        → Plans S.tells (Link path other) result (S.state blocks.old) (S.state blocks.new) }
    ensures made { OnChange result (λ draft cost nodes. MayBeMade S.tells draft cost nodes (S.state blocks.new)) }
{
    calls_compose::<S>();
    the_tree_links_files::<S>();
    if is_dir(found.facts.kind) {
        return Ok(Plan::Answer(Reply::Refused(Refusal::IsDir)));
    }
    if MOST_LINKS <= found.facts.links {
        return Ok(Plan::Answer(Reply::Refused(Refusal::TooManyLinks)));
    }
    if is_long(&vacancy.name, blocks.geom().layout()) {
        return Ok(Plan::Answer(Reply::Refused(Refusal::NameTooLong)));
    }
    let slot = Slot {
        node: found.number,
        name: vacancy.name.copy(),
    };
    let links = found.facts.links + 1;
    link_file(alloc, blocks, vacancy, &slot, links, shared)
}

/// Plans this slot for a file, which gets so many links by it.
///
/// # Errors
/// As `plan_node`.
fn link_file<'a, S: Blocks>(
    alloc: Global,
    blocks: &mut S,
    vacancy: &Vacancy,
    slot: &Slot,
    links: u32,
    shared: &'a Shared,
) -> Result<Plan<'a>, Refusal>
    requires may { MayPlan S.tells (S.state blocks.old) shared.now }
    requires dir { IsNumber (S.state blocks.old).books.geom.i vacancy.now.dir }
    requires few { vacancy.now.count < 2 ^ 24 }
    requires there { IsTrue S.tells → HasCount (S.state blocks.old) nothing_drafted vacancy.now.dir vacancy.now.count }
    requires short { length slot.now.name ≤ longest_name (S.state blocks.old).books.geom.layout }
    requires node { IsNumber (S.state blocks.old).books.geom.i slot.now.node }
    requires used { IsTrue S.tells → IsUsed (files_in (S.state blocks.old) nothing_drafted) slot.now.node }
    requires plain { IsTrue S.tells → IsNoSnapshot (files_in (S.state blocks.old) nothing_drafted slot.now.node) }
    requires some { 1 ≤ links }
    requires most { links ≤ 65535 }
    ensures plans { (cmd : Cmd) → (IsTrue S.tells → (f : Session) → IsSession (S.state blocks.old) f
        → MayLink (S.state blocks.old) f cmd vacancy.now.dir vacancy.now.count slot.now links)
        → Plans S.tells cmd result (S.state blocks.old) (S.state blocks.new) }
    ensures made { OnChange result (λ draft cost nodes. MayBeMade S.tells draft cost nodes (S.state blocks.new)) }
{
    a_disk_is_small(blocks);
    calls_compose::<S>();
    let figures = new_name_figures(u64::from(vacancy.count), blocks.geom().layout());
    match has_room(blocks, &figures) {
        Ok(()) => {}
        Err(why) => return Err(why),
    }
    match draft_link(
        alloc,
        blocks,
        vacancy.dir,
        vacancy.count,
        slot,
        links,
        shared,
    ) {
        Ok(draft) => {
            a_draft_that_leaves_snapshots_makes_its_tree(blocks);
            Ok(Plan::Change {
                draft,
                cost: figures.cost,
                nodes: NodeUse::Stays,
            })
        }
        Err(why) => Err(refusal_of(why)),
    }
}

/// What the tree makes of a mkdir or create, from what was looked up first. It is refused for this reason, for
/// want of a number, or for a name that is too long; or it is accepted, and a slot for the new node makes its tree.
fn the_tree_makes_nodes<S: Blocks>()
    ensures refused { (old : S) (f : Session) (kind : KindValue) (path : List (List ℕ)) (why : RefusalValue) → IsSession (S.state old) f
        → MayAppear (S.state old).books.geom.layout (files_in (S.state old) nothing_drafted) path (Failed why)
        → refusal f.limit f.tree (make_cmd kind path) ≡ Some why }
    ensures no_node { (old : S) (f : Session) (kind : KindValue) (path : List (List ℕ)) (v : VacancyValue) → IsSession (S.state old) f
        → MayAppear (S.state old).books.geom.layout (files_in (S.state old) nothing_drafted) path (Fine v) → least_number (S.state old) ≡ None
        → refusal f.limit f.tree (make_cmd kind path) ≡ Some NoNode }
    ensures long { (old : S) (f : Session) (kind : KindValue) (path : List (List ℕ)) (v : VacancyValue) (node : ℕ) → IsSession (S.state old) f
        → MayAppear (S.state old).books.geom.layout (files_in (S.state old) nothing_drafted) path (Fine v) → least_number (S.state old) ≡ Some node
        → longest_name (S.state old).books.geom.layout < length v.name → refusal f.limit f.tree (make_cmd kind path) ≡ Some NameTooLong }
    ensures accepted { (old : S) (f : Session) (kind : KindValue) (path : List (List ℕ)) (v : VacancyValue) (node : ℕ) → IsSession (S.state old) f
        → MayAppear (S.state old).books.geom.layout (files_in (S.state old) nothing_drafted) path (Fine v) → least_number (S.state old) ≡ Some node
        → length v.name ≤ longest_name (S.state old).books.geom.layout → AcceptsName (S.state old) f (make_cmd kind path) v.dir v.count }
    ensures map { (old : S) (new : Inodes) (f : Session) (kind : KindValue) (path : List (List ℕ)) (v : VacancyValue) (node : ℕ)
        → IsSession (S.state old) f → MayAppear (S.state old).books.geom.layout (files_in (S.state old) nothing_drafted) path (Fine v)
        → least_number (S.state old) ≡ Some node → length v.name ≤ longest_name (S.state old).books.geom.layout
        → AddsSlot (inodes (S.state old)) new v.dir node v.name (new_inode (first_thing kind))
        → IsMapOf f.limit.nodes new (step f (make_cmd kind path)).0.tree }
{
    layouts_differ_in_long_names_alone();
    a_new_node_is_mapped();
    blocks_have_the_map_of_their_tree();
    counts_tell_what_is_shared::<S>();
    the_map_gives_the_figures();
    the_map_gives_the_refusal();
    walks_are_the_same();
    what_a_path_comes_to_gives_the_walk();
}

/// What the tree makes of a link, from what was looked up first. It is refused for this reason, or since the
/// node is a directory or has too many links, or the name is too long; or it is accepted, and a slot for the file
/// makes its tree.
fn the_tree_links_files<S: Blocks>()
    ensures nowhere { (old : S) (f : Session) (path other : List (List ℕ)) (why : RefusalValue) → IsSession (S.state old) f
        → LeadsToFound (S.state old).books.geom.layout (files_in (S.state old) nothing_drafted) path (Failed why)
        → refusal f.limit f.tree (Link path other) ≡ Some why }
    ensures refused { (old : S) (f : Session) (path other : List (List ℕ)) (found : FoundValue) (why : RefusalValue) → IsSession (S.state old) f
        → LeadsToFound (S.state old).books.geom.layout (files_in (S.state old) nothing_drafted) path (Fine found)
        → MayAppear (S.state old).books.geom.layout (files_in (S.state old) nothing_drafted) other (Failed why)
        → refusal f.limit f.tree (Link path other) ≡ Some why }
    ensures directory { (old : S) (f : Session) (path other : List (List ℕ)) (found : FoundValue) (v : VacancyValue) → IsSession (S.state old) f
        → LeadsToFound (S.state old).books.geom.layout (files_in (S.state old) nothing_drafted) path (Fine found)
        → MayAppear (S.state old).books.geom.layout (files_in (S.state old) nothing_drafted) other (Fine v) → is_dir found.facts.kind ≡ true
        → refusal f.limit f.tree (Link path other) ≡ Some IsDir }
    ensures many { (old : S) (f : Session) (path other : List (List ℕ)) (found : FoundValue) (v : VacancyValue) → IsSession (S.state old) f
        → LeadsToFound (S.state old).books.geom.layout (files_in (S.state old) nothing_drafted) path (Fine found)
        → MayAppear (S.state old).books.geom.layout (files_in (S.state old) nothing_drafted) other (Fine v) → is_dir found.facts.kind ≡ false
        → 65535 ≤ found.facts.links
        → refusal f.limit f.tree (Link path other) ≡ Some TooManyLinks }
    ensures long { (old : S) (f : Session) (path other : List (List ℕ)) (found : FoundValue) (v : VacancyValue) → IsSession (S.state old) f
        → LeadsToFound (S.state old).books.geom.layout (files_in (S.state old) nothing_drafted) path (Fine found)
        → MayAppear (S.state old).books.geom.layout (files_in (S.state old) nothing_drafted) other (Fine v) → is_dir found.facts.kind ≡ false
        → found.facts.links < 65535 → longest_name (S.state old).books.geom.layout < length v.name
        → refusal f.limit f.tree (Link path other) ≡ Some NameTooLong }
    ensures accepted { (old : S) (f : Session) (path other : List (List ℕ)) (found : FoundValue) (v : VacancyValue) → IsSession (S.state old) f
        → LeadsToFound (S.state old).books.geom.layout (files_in (S.state old) nothing_drafted) path (Fine found)
        → MayAppear (S.state old).books.geom.layout (files_in (S.state old) nothing_drafted) other (Fine v) → is_dir found.facts.kind ≡ false
        → found.facts.links < 65535
        → length v.name ≤ longest_name (S.state old).books.geom.layout
        → MayLink (S.state old) f (Link path other) v.dir v.count (slot_of found.number v.name) (found.facts.links + 1) }
{
    layouts_differ_in_long_names_alone();
    a_new_path_is_mapped();
    blocks_have_the_map_of_their_tree();
    the_map_gives_the_figures();
    the_map_gives_the_refusal();
    walks_are_the_same();
    what_a_path_comes_to_gives_the_walk();
}

/// A disk has at most 2^20 blocks and 2^16 nodes, and no node has more blocks than the disk.
pub(crate) fn a_disk_is_small<S: Blocks>(blocks: &S)
    ensures disk { (S.state blocks.now).books.geom.n ≤ 1048576 }
    ensures table { (S.state blocks.now).books.geom.i ≤ 65536 }
    ensures places { IsTrue S.tells → (counts : List ℕ) → MayBegin S.tells (S.state blocks.now) counts → (k : ℕ)
        → length (places_of (S.state blocks.now) k) ≤ 1048576 }
{
    a_draft_may_begin(blocks);
    a_file_fits_the_disk(blocks);
    a_file_has_its_blocks::<S>();
    blocks.geom().lawful();
}

/// Where a name may come to be.
#[derive(Drop)]
pub(crate) struct Vacancy {
    /// The directory.
    pub dir: u32,
    /// How many slots it has.
    pub count: u32,
    /// The name, which no slot of it has.
    pub name: Name,
}

/// Where the last name of a path may come to be, or why it can't.
///
/// # Errors
/// A read of the disk failed, which the disk has counted; or out of memory.
pub(crate) fn find_vacancy<S: Blocks>(
    alloc: Global,
    blocks: &mut S,
    path: &Path,
    shared: &Shared,
) -> Result<Result<Vacancy, Refusal>, FileRefusal>
    requires begin { MayBegin S.tells (S.state blocks.old) shared.now }
    ensures vacancy { IsTrue S.tells → IfOk result (λ vacancy. (t : Tree) → IsTreeOf (S.state blocks.old).books.geom (S.state blocks.old).map t
        → MayAppear (S.state blocks.old).books.geom.layout (files_in (S.state blocks.old) nothing_drafted) path.now vacancy) }
    ensures dir { IfOk result (λ vacancy. IfOk vacancy (λ v. IsNumber (S.state blocks.old).books.geom.i v.dir)) }
    ensures few { IfOk result (λ vacancy. IfOk vacancy (λ v. v.count < 2 ^ 24)) }
    ensures refused { IfErr result LookRefused }
    ensures looks { LooksOnly S.tells (fails_reading result) (S.state blocks.old) (S.state blocks.new) }
{
    what_a_path_comes_to_gives_the_walk();
    let spot = match look_up(alloc, blocks, path, shared)? {
        Ok(spot) => spot,
        Err(why) => return Ok(Err(why)),
    };
    let Some(name) = path.names().last() else {
        return Ok(Err(Refusal::Exists));
    };
    Ok(vacancy_in(&spot, name))
}

/// The place for this name where a path comes to this, if nothing is there.
fn vacancy_in(spot: &Spot, name: &Name) -> Result<Vacancy, Refusal>
    ensures appears { (l : LayoutValue) (files : Files) (path up : List (List ℕ)) → ComesTo l files path (Fine spot.now) → path ≡ up ++ name.now ∷ []
        → MayAppear l files path result }
    ensures dir { (limit : ℕ) → IsWithin limit spot.now → IfOk result (λ v. IsNumber limit v.dir) }
    ensures few { (limit : ℕ) → IsWithin limit spot.now → IfOk result (λ v. v.count < 2 ^ 24) }
{
    what_a_path_comes_to_gives_the_walk();
    match *spot {
        Spot::Root => Err(Refusal::Exists),
        Spot::Inside { dir, count, entry } => match entry {
            Some(_) => Err(Refusal::Exists),
            None => Ok(Vacancy {
                dir,
                count,
                name: name.copy(),
            }),
        },
    }
}

/// Whether a name has more bytes than one in a directory of the layout may have.
pub(crate) fn is_long(name: &Name, layout: Layout) -> bool
    ensures { result ≡ is_long layout (Some name.now) }
{
    name.as_bytes().len() > layout.longest_name()
}

/// The least number that no node has. All below `first_unused` are in use. `None` where all numbers of the
/// node table are. Most often it is `first_unused`, so that is looked at first. Else the node is made in a draft
/// that is thrown away, since only its number is asked.
///
/// # Errors
/// As `find_vacancy`.
pub(crate) fn least_unused<S: Blocks>(
    alloc: Global,
    blocks: &mut S,
    first_unused: u32,
    shared: &Shared,
) -> Result<Option<u32>, FileRefusal>
    requires may { MayPlan S.tells (S.state blocks.old) shared.now }
    requires above { 1 ≤ first_unused }
    requires below { IsTrue S.tells → AreUsedBelow (files_in (S.state blocks.old) nothing_drafted) first_unused }
    ensures least { IsTrue S.tells → IfOk result (λ found. found ≡ least_number (S.state blocks.old)) }
    ensures number { IfOk result (λ found. IfSome found (IsNumber (S.state blocks.old).books.geom.i)) }
    ensures used { IsTrue S.tells → IfOk result (λ found. IfSome found (AreUsedBelow (files_in (S.state blocks.old) nothing_drafted))) }
    ensures refused { IfErr result LookRefused }
    ensures looks { LooksOnly S.tells (fails_reading result) (S.state blocks.old) (S.state blocks.new) }
{
    a_draft_may_begin(blocks);
    calls_compose::<S>();
    let mut draft = Draft::beside(alloc, shared);
    let unused = is_unused(&draft, blocks, first_unused)?;
    if unused {
        return Ok(Some(first_unused));
    }
    draft.new_node(alloc, blocks, NodeKind::File, first_unused)
}

/// Whether this is a number of the node table that no node has.
///
/// # Errors
/// A read of the disk failed, which the disk has counted.
fn is_unused<S: Blocks>(draft: &Draft, blocks: &mut S, number: u32) -> Result<bool, FileRefusal>
    requires going { (S.state blocks.old).books.stopped ≡ false }
    requires draft { IsDraftOf S.tells (S.state blocks.old) draft.now }
    requires above { 1 ≤ number }
    ensures unused { IsTrue S.tells → IfOk result (λ unused. IsTrue unused → files_in (S.state blocks.old) draft.now number ≡ None) }
    ensures number { IfOk result (λ unused. IsTrue unused → IsNumber (S.state blocks.old).books.geom.i number) }
    ensures refused { IfErr result LookRefused }
    ensures looks { LooksOnly S.tells (fails_reading result) (S.state blocks.old) (S.state blocks.new) }
{
    if blocks.geom().i() < number {
        return Ok(false);
    }
    let facts = draft.look(blocks, number)?;
    Ok(facts.is_none())
}

/// A draft of a new node of this kind, and this slot for it in directory `dir`. All nodes of a number below
/// the slot's are in use. The slot comes first, while the draft is empty, so the directory grows from the
/// blocks that it has.
///
/// # Errors
/// As `add_slot`.
fn draft_node<'a, S: Blocks>(
    alloc: Global,
    blocks: &mut S,
    kind: Kind,
    dir: u32,
    count: u32,
    slot: &Slot,
    shared: &'a Shared,
) -> Result<Draft<'a>, FileRefusal>
    requires may { MayPlan S.tells (S.state blocks.old) shared.now }
    requires below { IsTrue S.tells → AreUsedBelow (files_in (S.state blocks.old) nothing_drafted) slot.now.node }
    requires dir { IsNumber (S.state blocks.old).books.geom.i dir }
    requires few { count < 2 ^ 24 }
    requires there { IsTrue S.tells → HasCount (S.state blocks.old) nothing_drafted dir count }
    requires short { length slot.now.name ≤ longest_name (S.state blocks.old).books.geom.layout }
    requires node { IsNumber (S.state blocks.old).books.geom.i slot.now.node }
    ensures draft { IfOk result (λ draft. IsDraftOf S.tells (S.state blocks.new) draft) }
    ensures kept { IfOk result (λ draft. draft.kept ≡ shared.now) }
    ensures leaves { IsTrue S.tells → IfOk result (λ draft. LeavesSnapshots (files_in (S.state blocks.old) nothing_drafted)
        (files_in (S.state blocks.new) draft) (places_of (S.state blocks.old)) (places_in (S.state blocks.new) draft)) }
    ensures used { IsTrue S.tells → IfOk result (λ draft. KeepsUsed (Taken slot.now.node) (files_in (S.state blocks.old) nothing_drafted)
        (files_in (S.state blocks.new) draft)) }
    ensures names { IsTrue S.tells → IfOk result (λ draft. (t : Tree) (slots : List SlotValue)
        → IsTreeOf (S.state blocks.old).books.geom (S.state blocks.old).map t → files_in (S.state blocks.old) nothing_drafted slot.now.node ≡ None
        → inodes (S.state blocks.old) dir ≡ Some (ADir slots)
        → AddsName (S.state blocks.old) (S.state blocks.new) draft dir slot.now.node slot.now.name (new_inode (first_thing kind)) slots) }
    ensures refused { IsTrue S.tells → IfErr result (λ why. (slots : List SlotValue) → inodes (S.state blocks.old) dir ≡ Some (ADir slots)
        → GrowthRefused (growth (S.state blocks.old).books.geom.layout (length slots)) (λ more. places_of (S.state blocks.old) dir ++ more)
        (S.state blocks.old).books
        (S.state blocks.new).books why) }
    ensures quiet { IsTrue S.tells → (slots : List SlotValue) → inodes (S.state blocks.old) dir ≡ Some (ADir slots)
        → IsCalm (growth (S.state blocks.old).books.geom.layout (length slots)) (S.state blocks.old) (S.state blocks.new) }
    ensures settles { LooksAndSettles S.tells (fails_reading result) (fails_settling result) (S.state blocks.old) (S.state blocks.new) }
{
    a_draft_may_begin(blocks);
    calls_compose::<S>();
    alterations_add_up();
    blocks_have_a_map();
    files_have_one_map();
    a_file_reads_as_itself();
    let mut draft = Draft::beside(alloc, shared);
    match add_slot(&mut draft, alloc, blocks, dir, count, slot) {
        Ok(()) => {}
        Err(why) => return Err(why),
    }
    match draft.new_node(alloc, blocks, node_kind(kind), slot.node) {
        Ok(_) => Ok(draft),
        Err(why) => Err(why),
    }
}

/// The kind of a node as the node table has it.
fn node_kind(kind: Kind) -> NodeKind
    ensures value { result ≡ node_kind kind }
    ensures used { result ≢ Free }
{
    match kind {
        Kind::Dir => NodeKind::Dir,
        Kind::File => NodeKind::File,
    }
}

/// A draft of one link more for a file, `links` in all, and this slot for it in directory `dir`.
///
/// # Errors
/// As `add_slot`.
fn draft_link<'a, S: Blocks>(
    alloc: Global,
    blocks: &mut S,
    dir: u32,
    count: u32,
    slot: &Slot,
    links: u32,
    shared: &'a Shared,
) -> Result<Draft<'a>, FileRefusal>
    requires begin { MayBegin S.tells (S.state blocks.old) shared.now }
    requires turns { HasTurns (S.state blocks.old).books }
    requires dir { IsNumber (S.state blocks.old).books.geom.i dir }
    requires few { count < 2 ^ 24 }
    requires there { IsTrue S.tells → HasCount (S.state blocks.old) nothing_drafted dir count }
    requires short { length slot.now.name ≤ longest_name (S.state blocks.old).books.geom.layout }
    requires node { IsNumber (S.state blocks.old).books.geom.i slot.now.node }
    requires used { IsTrue S.tells → IsUsed (files_in (S.state blocks.old) nothing_drafted) slot.now.node }
    requires some { 1 ≤ links }
    requires most { links ≤ 65535 }
    ensures draft { IfOk result (λ draft. IsDraftOf S.tells (S.state blocks.new) draft) }
    ensures kept { IfOk result (λ draft. draft.kept ≡ shared.now) }
    ensures leaves { IsTrue S.tells → IfOk result (λ draft. IsNoSnapshot (files_in (S.state blocks.old) nothing_drafted slot.now.node)
        → LeavesSnapshots (files_in (S.state blocks.old) nothing_drafted) (files_in (S.state blocks.new) draft) (places_of (S.state blocks.old))
        (places_in (S.state blocks.new) draft)) }
    ensures used { IsTrue S.tells → IfOk result (λ draft. (l : ℕ) → IsUsed (files_in (S.state blocks.old) nothing_drafted) l
        → IsUsed (files_in (S.state blocks.new) draft) l) }
    ensures names { IsTrue S.tells → IfOk result (λ draft. (t : Tree) (slots : List SlotValue) (before : ℕ) (bytes : List ℕ)
        → IsTreeOf (S.state blocks.old).books.geom (S.state blocks.old).map t → inodes (S.state blocks.old) slot.now.node ≡ Some (AFile before bytes)
        → inodes (S.state blocks.old) dir ≡ Some (ADir slots)
        → AddsName (S.state blocks.old) (S.state blocks.new) draft dir slot.now.node slot.now.name (AFile links bytes) slots) }
    ensures refused { IsTrue S.tells → IfErr result (λ why. (slots : List SlotValue) → inodes (S.state blocks.old) dir ≡ Some (ADir slots)
        → GrowthRefused (growth (S.state blocks.old).books.geom.layout (length slots)) (λ more. places_of (S.state blocks.old) dir ++ more)
        (S.state blocks.old).books
        (S.state blocks.new).books why) }
    ensures quiet { IsTrue S.tells → (slots : List SlotValue) → inodes (S.state blocks.old) dir ≡ Some (ADir slots)
        → IsCalm (growth (S.state blocks.old).books.geom.layout (length slots)) (S.state blocks.old) (S.state blocks.new) }
    ensures settles { LooksAndSettles S.tells (fails_reading result) (fails_settling result) (S.state blocks.old) (S.state blocks.new) }
{
    a_draft_may_begin(blocks);
    calls_compose::<S>();
    alterations_add_up();
    blocks_have_a_map();
    files_have_one_map();
    a_file_reads_as_itself();
    let mut draft = Draft::beside(alloc, shared);
    match add_slot(&mut draft, alloc, blocks, dir, count, slot) {
        Ok(()) => {}
        Err(why) => return Err(why),
    }
    match draft.set_links(alloc, blocks, slot.node, links) {
        Ok(()) => Ok(draft),
        Err(why) => Err(why),
    }
}
