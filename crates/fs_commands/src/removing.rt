//! The commands by which a name goes: unlink and rmdir. Each finds its refusal from reads alone, weighs what it
//! needs, and plans a draft. Nothing of that is made here.

ghost use Rattle.std.specs.Prelude.{◌≡◌, ◌≢◌, ◌≤◌, ◌-◌, [], ℕ, IsTrue, false, List, length, None, Some, Ok as Fine, IfOk, IfErr, IfSome, OnOk};
ghost use Rattle.layout_bytes.specs.declared.slot.Slot.{Slot};
ghost use Rattle.lang_tree.specs.Sharing.{SharedNodes};
ghost use Rattle.lang_tree.specs.Tree.{Tree};
ghost use Rattle.crash_stands.specs.Inodes.{Inode, Inodes, ADir};
ghost use Rattle.crash_stands.specs.Stands.{IsTreeOf};
ghost use Rattle.fs_inodes.specs.Figures.{blocks_lost, slots_above};
ghost use Rattle.fs_inodes.specs.Lookups.{walk_on};
ghost use Rattle.fs_inodes.specs.Refusals.{rmdir_reason};
ghost use Rattle.fs_files.specs.Calls.{files_in, places_in, LookRefused};
ghost use Rattle.fs_files.specs.Content.{fails_reading};
ghost use Rattle.fs_files.specs.Drafts.{nothing_drafted};
ghost use Rattle.fs_files.specs.Effects.{LooksOnly};
ghost use Rattle.fs_files.specs.Shared.{is_kept};
ghost use Rattle.fs_files.specs.Sound.{IsDraftOf};
ghost use Rattle.fs_dirs.specs.Changing.{Alters};
ghost use Rattle.fs_dirs.specs.Directories.{IsNumber, inodes_in};
ghost use Rattle.lang_tree.specs.declared.command.Cmd.TheVariants.{Unlink, Rmdir};
ghost use Rattle.lang_tree.specs.Values.{value_of};
ghost use Rattle.fs_commands.specs.declared.paths.Spot.TheVariants.{Inside};
ghost use Rattle.fs_commands.specs.Figures.{AreFiguresOf, LosesBlocks};
ghost use Rattle.fs_commands.specs.Looks.{ComesTo, IsNoSnapshot, IsWithin, MayBeEntry, ShowsFacts, entry_number};
ghost use Rattle.fs_session.specs.Plans.{IsAnswer, MayBeMade, OnChange, Plans};
ghost use Rattle.fs_commands.specs.Removing.{IsFound, IsLoss, IsNamed, KnowsLoss, LosesLink, LosesName, MayLose, blocks_gone, lose_cmd, use_after};
ghost use Rattle.fs_commands.specs.Removing.{lose_reason};
ghost use Rattle.fs_session.specs.Commands.{places_of};
ghost use Rattle.fs_session.specs.Snapshots.{LeavesSnapshots};
ghost use Rattle.fs_session.specs.Sessions.{MayBegin, MayPlan, Stands, inodes};
ghost use Rattle.fs_session.specs.Space.{ArePlaced, none_renewed};

use crate::begins::a_draft_may_begin;
use crate::facts::{the_node_at_a_path_gives_the_inode, what_a_path_comes_to_gives_the_walk};
use crate::figures::{rmdir_figures, unlink_figures};
use crate::look::is_dir;
use crate::paths::{Entry, NodeFound, Spot, look_up};
use crate::prices::small_drafts_are_within_the_cost;
use crate::refusals::refusal_of;
use crate::sharing::blocks_gone;
use base_types::Layout;
use base_types::limits::{MOST_LINKS, ROOT};
use crash_stands::{blocks_have_a_map, files_have_one_map};
use engine_blocks::{Blocks, calls_compose};
use fs_dirs::{alterations_add_up, count_slots, directories_are_read, take_slot};
use fs_files::{
    Draft, FileFacts, FileRefusal, Shared, a_directory_has_whole_slots, a_file_fits_the_disk,
    a_file_has_its_blocks,
};
use fs_inodes::{
    a_lost_path_is_mapped, a_name_stands_at_its_place, the_map_gives_the_figures,
    the_map_gives_the_refusal, walks_are_the_same,
};
use fs_session::{
    NodeUse, Plan, a_draft_that_leaves_snapshots_makes_its_tree, a_node_in_use_has_links,
    blocks_have_the_map_of_their_tree, counts_tell_what_is_shared, has_room,
};
use lang_tree::{Figures, Kind, Path, Refusal, Reply};
use std::alloc::Global;

/// What stands under a name in directory `dir`, which has `count` slots.
#[derive(Clone, Copy)]
pub(crate) struct Named {
    pub dir: u32,
    pub count: u32,
    pub entry: Entry,
}

/// Plans an unlink.
///
/// # Errors
/// There is no room for it; a read of the disk failed; or out of memory.
pub(crate) fn plan_unlink<'a, S: Blocks>(
    alloc: Global,
    blocks: &mut S,
    path: &Path,
    shared: &'a Shared,
) -> Result<Plan<'a>, Refusal>
    requires may { MayPlan S.tells (S.state blocks.old) shared.now }
    ensures plans { Plans S.tells (Unlink path.now) result (S.state blocks.old) (S.state blocks.new) }
    ensures made { OnChange result (λ draft cost nodes. MayBeMade S.tells draft cost nodes (S.state blocks.new)) }
{
    plan_loss(alloc, blocks, Kind::File, path, shared)
}

/// Plans an rmdir.
///
/// # Errors
/// As `plan_unlink`.
pub(crate) fn plan_rmdir<'a, S: Blocks>(
    alloc: Global,
    blocks: &mut S,
    path: &Path,
    shared: &'a Shared,
) -> Result<Plan<'a>, Refusal>
    requires may { MayPlan S.tells (S.state blocks.old) shared.now }
    ensures plans { Plans S.tells (Rmdir path.now) result (S.state blocks.old) (S.state blocks.new) }
    ensures made { OnChange result (λ draft cost nodes. MayBeMade S.tells draft cost nodes (S.state blocks.new)) }
{
    plan_loss(alloc, blocks, Kind::Dir, path, shared)
}

/// Plans that a path to a node of this kind goes.
///
/// # Errors
/// As `plan_unlink`.
fn plan_loss<'a, S: Blocks>(
    alloc: Global,
    blocks: &mut S,
    kind: Kind,
    path: &Path,
    shared: &'a Shared,
) -> Result<Plan<'a>, Refusal>
    requires may { MayPlan S.tells (S.state blocks.old) shared.now }
    ensures plans { Plans S.tells (lose_cmd kind path.now) result (S.state blocks.old) (S.state blocks.new) }
    ensures made { OnChange result (λ draft cost nodes. MayBeMade S.tells draft cost nodes (S.state blocks.new)) }
{
    calls_compose::<S>();
    blocks_have_the_map_of_their_tree();
    the_map_gives_the_refusal();
    what_a_path_comes_to_gives_the_walk();
    let spot = match look_up(alloc, blocks, path, shared) {
        Ok(spot) => spot,
        Err(why) => return Err(refusal_of(why)),
    };
    match spot {
        Ok(spot) => plan_loss_at(alloc, blocks, kind, path, &spot, shared),
        Err(why) => Ok(Plan::Answer(Reply::Refused(why))),
    }
}

/// Plans that a path to a node of this kind goes, which comes to this.
///
/// # Errors
/// As `plan_unlink`.
fn plan_loss_at<'a, S: Blocks>(
    alloc: Global,
    blocks: &mut S,
    kind: Kind,
    path: &Path,
    spot: &Spot,
    shared: &'a Shared,
) -> Result<Plan<'a>, Refusal>
    requires may { MayPlan S.tells (S.state blocks.old) shared.now }
    requires comes { IsTrue S.tells → ComesTo (S.state blocks.old).books.geom.layout (files_in (S.state blocks.old) nothing_drafted) path.now (Fine spot.now) }
    requires within { IsWithin (S.state blocks.old).books.geom.i spot.now }
    ensures plans { Plans S.tells (lose_cmd kind path.now) result (S.state blocks.old) (S.state blocks.new) }
    ensures made { OnChange result (λ draft cost nodes. MayBeMade S.tells draft cost nodes (S.state blocks.new)) }
{
    calls_compose::<S>();
    blocks_have_the_map_of_their_tree();
    the_map_gives_the_refusal();
    what_a_path_comes_to_gives_the_walk();
    match *spot {
        Spot::Root => plan_root_loss(alloc, blocks, kind, shared),
        Spot::Inside { dir, count, entry } => {
            what_stands_there_is_shown(blocks, shared);
            match entry_to_lose(kind, &entry) {
                Ok(entry) => {
                    let named = Named { dir, count, entry };
                    plan_name_loss(alloc, blocks, kind, &named, shared)
                }
                Err(why) => Ok(Plan::Answer(Reply::Refused(why))),
            }
        }
    }
}

/// Plans that the root goes, as a path to a node of this kind: the tree refuses that.
///
/// # Errors
/// A read of the disk failed; or out of memory.
fn plan_root_loss<'a, S: Blocks>(
    alloc: Global,
    blocks: &mut S,
    kind: Kind,
    shared: &'a Shared,
) -> Result<Plan<'a>, Refusal>
    requires may { MayPlan S.tells (S.state blocks.old) shared.now }
    ensures plans { Plans S.tells (lose_cmd kind []) result (S.state blocks.old) (S.state blocks.new) }
    ensures answers { IsAnswer result }
{
    calls_compose::<S>();
    blocks_have_the_map_of_their_tree();
    the_map_gives_the_refusal();
    match root_refusal(alloc, blocks, kind, shared) {
        Ok(why) => Ok(Plan::Answer(Reply::Refused(why))),
        Err(why) => Err(refusal_of(why)),
    }
}

/// Node `node` has one link less, and is gone with its last one.
///
/// # Errors
/// A read of the disk failed, which the disk has counted; or out of memory. The draft isn't to be used any
/// more then.
pub(crate) fn lose_link<S: Blocks>(
    draft: &mut Draft,
    alloc: Global,
    blocks: &mut S,
    node: &NodeFound,
) -> Result<(), FileRefusal>
    requires going { (S.state blocks.old).books.stopped ≡ false }
    requires number { IsNumber (S.state blocks.old).books.geom.i node.now.number }
    requires draft { IsDraftOf S.tells (S.state blocks.old) draft.old }
    requires found { IsTrue S.tells → IsFound (files_in (S.state blocks.old) draft.old) node.now }
    ensures link { IsTrue S.tells → OnOk result ((x : Inode) → inodes_in (S.state blocks.old) draft.old node.now.number ≡ Some x
        → LosesLink (S.state blocks.old).books.geom.layout (files_in (S.state blocks.old) draft.old) (files_in
        (S.state blocks.new) draft.new) node.now.number) }
    ensures placed { IsTrue S.tells
        → OnOk result (ArePlaced none_renewed (places_in (S.state blocks.old) draft.old) (places_in (S.state blocks.new) draft.new) []) }
    ensures draft { OnOk result (IsDraftOf S.tells (S.state blocks.new) draft.new) }
    ensures kept { OnOk result (draft.new.kept ≡ draft.old.kept) }
    ensures leaves { IsTrue S.tells → OnOk result (IsNoSnapshot (files_in (S.state blocks.old) draft.old node.now.number)
        → LeavesSnapshots (files_in (S.state blocks.old) draft.old) (files_in (S.state blocks.new) draft.new)
        (places_in (S.state blocks.old) draft.old) (places_in (S.state blocks.new) draft.new)) }
    ensures alters { IsTrue S.tells → OnOk result
        (Alters 1 [] (blocks_gone (is_kept draft.old.kept) node.now.facts (places_in (S.state blocks.old) draft.old node.now.number)) draft.old draft.new) }
    ensures refused { IfErr result LookRefused }
    ensures looks { LooksOnly S.tells (fails_reading result) (S.state blocks.old) (S.state blocks.new) }
{
    a_node_in_use_has_links();
    alterations_add_up();
    let links = node.facts.links;
    if links == 1 {
        return draft.drop_node(alloc, blocks, node.number);
    }
    draft.set_links(alloc, blocks, node.number, one_less(links))
}

/// One link less than a node has that keeps some.
fn one_less(links: u32) -> u32
    ensures value { 2 ≤ links → links ≤ 65535 → result ≡ links - 1 }
    ensures some { 1 ≤ result }
    ensures most { result ≤ 65535 }
{
    links.saturating_sub(1).clamp(1, MOST_LINKS)
}

/// Why a node with these facts can't go from its path, which isn't the root.
fn loss_refusal(kind: Kind, facts: &FileFacts) -> Option<Refusal>
    ensures { (m : Inodes) (path : List (List ℕ)) (k : ℕ) → walk_on m 1 path ≡ Fine k → path ≢ [] → ShowsFacts m path facts.now
        → lose_reason kind m path ≡ result }
{
    match kind {
        Kind::File => {
            if is_dir(facts.kind) {
                return Some(Refusal::IsDir);
            }
            None
        }
        Kind::Dir => {
            if !is_dir(facts.kind) {
                return Some(Refusal::NotDir);
            }
            if facts.size > 0 {
                return Some(Refusal::NotEmpty);
            }
            None
        }
    }
}

/// The entry that is to go from a path that isn't the root, or why it can't.
fn entry_to_lose(kind: Kind, entry: &Option<Entry>) -> Result<Entry, Refusal>
    ensures same { IfOk result (λ e. entry.now ≡ Some e) }
    ensures loses { (m : Inodes) (path : List (List ℕ)) → walk_on m 1 path ≡ entry_number entry.now → path ≢ []
        → IfSome entry.now (λ e. ShowsFacts m path e.node.facts) → MayLose kind m path entry.now result }
{
    let Some(entry) = *entry else {
        return Err(Refusal::NotFound);
    };
    match loss_refusal(kind, &entry.node.facts) {
        Some(why) => Err(why),
        None => Ok(entry),
    }
}

/// Why the root can't go.
///
/// # Errors
/// A read of the disk failed, which the disk has counted; or out of memory.
fn root_refusal<S: Blocks>(
    alloc: Global,
    blocks: &mut S,
    kind: Kind,
    shared: &Shared,
) -> Result<Refusal, FileRefusal>
    requires begin { MayBegin S.tells (S.state blocks.old) shared.now }
    ensures reason { IsTrue S.tells → IfOk result (λ why. (t : Tree) → IsTreeOf (S.state blocks.old).books.geom (S.state blocks.old).map t
        → lose_reason kind (inodes (S.state blocks.old)) [] ≡ Some why) }
    ensures refused { IfErr result LookRefused }
    ensures looks { LooksOnly S.tells (fails_reading result) (S.state blocks.old) (S.state blocks.new) }
{
    a_draft_may_begin(blocks);
    blocks_have_the_map_of_their_tree();
    blocks.geom().lawful();
    match kind {
        Kind::File => Ok(Refusal::IsDir),
        Kind::Dir => {
            let draft = Draft::beside(alloc, shared);
            let count = count_slots(&draft, blocks, ROOT)?;
            Ok(root_refusal_by(count))
        }
    }
}

/// Why the root can't go by an rmdir, where it has so many slots.
fn root_refusal_by(count: Option<u32>) -> Refusal
    ensures { (m : Inodes) (slots : List Slot) → m 1 ≡ Some (ADir slots) → count ≡ Some (length slots) → rmdir_reason m [] ≡ Some result }
{
    match count {
        Some(0) => Refusal::BelowItself,
        Some(_) => Refusal::NotEmpty,
        None => Refusal::NotEmpty,
    }
}

/// A draft in which this name went, and its node has one link less.
///
/// # Errors
/// A read of the disk failed, which the disk has counted; or out of memory.
fn draft_loss<'a, S: Blocks>(
    alloc: Global,
    blocks: &mut S,
    named: &Named,
    shared: &'a Shared,
) -> Result<Draft<'a>, FileRefusal>
    requires begin { MayBegin S.tells (S.state blocks.old) shared.now }
    requires stands { IsTrue S.tells → Stands (S.state blocks.old) }
    requires dir { IsNumber (S.state blocks.old).books.geom.i named.now.dir }
    requires entry { MayBeEntry (S.state blocks.old).books.geom.i named.now.entry }
    requires named { IsTrue S.tells
        → (name : List ℕ) × IsNamed (S.state blocks.old).books.geom.layout (files_in (S.state blocks.old) nothing_drafted) name named.now }
    ensures draft { IfOk result (λ draft. IsDraftOf S.tells (S.state blocks.new) draft) }
    ensures kept { IfOk result (λ draft. draft.kept ≡ shared.now) }
    ensures leaves { IsTrue S.tells → IfOk result (λ draft. LeavesSnapshots (files_in (S.state blocks.old) nothing_drafted)
        (files_in (S.state blocks.new) draft) (places_of (S.state blocks.old)) (places_in (S.state blocks.new) draft)) }
    ensures loses { IsTrue S.tells → IfOk result (λ draft. (name : List ℕ)
        → IsNamed (S.state blocks.old).books.geom.layout (files_in (S.state blocks.old) nothing_drafted) name named.now
        → LosesName (S.state blocks.old) (S.state blocks.new) draft name named.now) }
    ensures refused { IfErr result LookRefused }
    ensures looks { LooksOnly S.tells (fails_reading result) (S.state blocks.old) (S.state blocks.new) }
{
    a_draft_may_begin(blocks);
    alterations_add_up();
    blocks_have_a_map();
    files_have_one_map();
    directories_are_read();
    let mut draft = Draft::beside(alloc, shared);
    match take_slot(&mut draft, alloc, blocks, named.dir, named.entry.place) {
        Ok(()) => {}
        Err(why) => return Err(why),
    }
    match lose_link(&mut draft, alloc, blocks, &named.entry.node) {
        Ok(()) => Ok(draft),
        Err(why) => Err(why),
    }
}

/// What inodes say of a path is what is known of the node to which it comes.
pub(crate) fn what_stands_there_is_shown<S: Blocks>(blocks: &S, shared: &Shared)
    requires begin { MayBegin S.tells (S.state blocks.now) shared.now }
    ensures { IsTrue S.tells → (t : Tree) (path : List (List ℕ)) (dir count : ℕ) (e : Entry)
        → IsTreeOf (S.state blocks.now).books.geom (S.state blocks.now).map t
        → ComesTo (S.state blocks.now).books.geom.layout (files_in (S.state blocks.now) nothing_drafted) path (Fine (Inside dir count (Some e)))
        → ShowsFacts (inodes (S.state blocks.now)) path e.node.facts }
{
    a_draft_may_begin(blocks);
    a_directory_has_whole_slots::<S>();
    blocks_have_the_map_of_their_tree();
    the_node_at_a_path_gives_the_inode();
    what_a_path_comes_to_gives_the_walk();
}

/// What goes from a path, and the tree accepts that it goes, is known.
fn what_goes_is_known<S: Blocks>(blocks: &S, shared: &Shared)
    requires begin { MayBegin S.tells (S.state blocks.now) shared.now }
    ensures { IsTrue S.tells → (t : Tree) (kind : Kind) (path : List (List ℕ)) (n : Named)
        → IsTreeOf (S.state blocks.now).books.geom (S.state blocks.now).map t
        → IsLoss kind (S.state blocks.now).books.geom.layout (files_in (S.state blocks.now) nothing_drafted) path n
        → KnowsLoss kind (S.state blocks.now).books.geom.layout (files_in (S.state blocks.now) nothing_drafted) path n }
{
    a_draft_may_begin(blocks);
    a_directory_has_whole_slots::<S>();
    a_file_fits_the_disk::<S>(blocks);
    a_name_stands_at_its_place();
    blocks_have_the_map_of_their_tree();
    the_node_at_a_path_gives_the_inode();
    what_a_path_comes_to_gives_the_walk();
    walks_are_the_same();
}

/// The figures of a command by which a name goes: from a directory of so many slots, with so many blocks of its node.
fn loss_figures(kind: Kind, bitmap: u32, count: u32, gone: u32, layout: Layout) -> Figures
    requires { gone ≤ 1048576 }
    ensures { (shared : SharedNodes) (m : Inodes) (path : List (List ℕ)) → count ≡ slots_above m path → gone ≡ blocks_lost shared m path
        → AreFiguresOf layout bitmap shared m (lose_cmd kind path) (value_of result) }
{
    match kind {
        Kind::File => unlink_figures(bitmap, u64::from(count), gone, layout),
        Kind::Dir => rmdir_figures(bitmap, u64::from(count), layout),
    }
}

/// What the loss of one link of this node makes of the nodes in use.
pub(crate) fn use_after(node: &NodeFound) -> NodeUse
    ensures { result ≡ use_after node.now }
{
    if node.facts.links == 1 {
        return NodeUse::Dropped(node.number);
    }
    NodeUse::Stays
}

/// Plans that a name goes which the tree accepts to go.
///
/// # Errors
/// There is no room for it; a read of the disk failed; or out of memory.
fn plan_name_loss<'a, S: Blocks>(
    alloc: Global,
    blocks: &mut S,
    kind: Kind,
    named: &Named,
    shared: &'a Shared,
) -> Result<Plan<'a>, Refusal>
    requires may { MayPlan S.tells (S.state blocks.old) shared.now }
    requires dir { IsNumber (S.state blocks.old).books.geom.i named.now.dir }
    requires entry { MayBeEntry (S.state blocks.old).books.geom.i named.now.entry }
    requires loss { IsTrue S.tells
        → (path : List (List ℕ)) × IsLoss kind (S.state blocks.old).books.geom.layout (files_in (S.state blocks.old) nothing_drafted) path named.now }
    ensures plans { (path : List (List ℕ)) → (IsTrue S.tells
        → IsLoss kind (S.state blocks.old).books.geom.layout (files_in (S.state blocks.old) nothing_drafted) path named.now)
        → Plans S.tells (lose_cmd kind path) result (S.state blocks.old) (S.state blocks.new) }
    ensures made { OnChange result (λ draft cost nodes. MayBeMade S.tells draft cost nodes (S.state blocks.new)) }
{
    calls_compose::<S>();
    what_goes_is_known(blocks, shared);
    match blocks_gone(alloc, blocks, &named.entry.node, shared) {
        Ok(gone) => plan_loss_of(alloc, blocks, kind, named, gone, shared),
        Err(why) => Err(refusal_of(why)),
    }
}

/// Plans that such a name goes, with so many blocks of its node.
///
/// # Errors
/// As `plan_name_loss`.
fn plan_loss_of<'a, S: Blocks>(
    alloc: Global,
    blocks: &mut S,
    kind: Kind,
    named: &Named,
    gone: u32,
    shared: &'a Shared,
) -> Result<Plan<'a>, Refusal>
    requires may { MayPlan S.tells (S.state blocks.old) shared.now }
    requires dir { IsNumber (S.state blocks.old).books.geom.i named.now.dir }
    requires entry { MayBeEntry (S.state blocks.old).books.geom.i named.now.entry }
    requires loss { IsTrue S.tells
        → (path : List (List ℕ)) × IsLoss kind (S.state blocks.old).books.geom.layout (files_in (S.state blocks.old) nothing_drafted) path named.now }
    requires gone { IsTrue S.tells → LosesBlocks (S.state blocks.old) shared.now named.now.entry.node gone }
    requires few { gone ≤ 1048576 }
    ensures plans { (path : List (List ℕ)) → (IsTrue S.tells
        → IsLoss kind (S.state blocks.old).books.geom.layout (files_in (S.state blocks.old) nothing_drafted) path named.now)
        → Plans S.tells (lose_cmd kind path) result (S.state blocks.old) (S.state blocks.new) }
    ensures made { OnChange result (λ draft cost nodes. MayBeMade S.tells draft cost nodes (S.state blocks.new)) }
{
    calls_compose::<S>();
    what_goes_is_known(blocks, shared);
    a_draft_may_begin(blocks);
    a_file_has_its_blocks::<S>();
    blocks_have_the_map_of_their_tree();
    a_lost_path_is_mapped();
    counts_tell_what_is_shared::<S>();
    the_map_gives_the_figures();
    the_map_gives_the_refusal();
    small_drafts_are_within_the_cost();
    let bitmap = blocks.geom().bitmap_blocks();
    let figures = loss_figures(kind, bitmap, named.count, gone, blocks.geom().layout());
    match has_room(blocks, &figures) {
        Ok(()) => {}
        Err(why) => return Err(why),
    }
    match draft_loss(alloc, blocks, named, shared) {
        Ok(draft) => {
            a_draft_that_leaves_snapshots_makes_its_tree(blocks);
            Ok(Plan::Change {
                draft,
                cost: figures.cost,
                nodes: use_after(&named.entry.node),
            })
        }
        Err(why) => Err(refusal_of(why)),
    }
}
