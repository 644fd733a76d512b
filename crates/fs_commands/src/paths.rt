//! What paths lead to: the node at a path with what is known of it but for its bytes. The blocks are read as
//! they are, and nothing else is done.

ghost use Rattle.std.specs.Prelude.{◌≡◌, ◌≢◌, IsTrue, false, List, length, Some, IfOk, IfErr, IfSome};
ghost use Rattle.layout_bytes.specs.declared.slot.Slot.{Slot};
ghost use Rattle.layout_bytes.specs.declared.node.NodeKind.TheVariants.{Free};
ghost use Rattle.lang_tree.specs.Tree.{Tree};
ghost use Rattle.crash_stands.specs.Stands.{IsTreeOf};
ghost use Rattle.crash_stands.specs.Files.{FileNode};
ghost use Rattle.crash_stands.specs.Inodes.{ADir, inodes_of};
ghost use Rattle.crash_stands.specs.Maps.{IsMapOf};
ghost use Rattle.fs_files.specs.Asks.{MayRead};
ghost use Rattle.fs_files.specs.NodeMaps.{nodes_in};
ghost use Rattle.fs_files.specs.Sound.{IsDraftOf};
ghost use Rattle.fs_files.specs.Calls.{facts_of, files_in, LookRefused};
ghost use Rattle.fs_files.specs.Content.{fails_reading};
ghost use Rattle.fs_files.specs.Drafts.{nothing_drafted};
ghost use Rattle.fs_files.specs.Effects.{LooksOnly};
ghost use Rattle.fs_dirs.specs.Directories.{inodes_in, IsNumber};
ghost use Rattle.fs_dirs.specs.Reading.{IsOpened};
ghost use Rattle.fs_commands.specs.Looks.{LeadsToFound, ComesTo, HasEntry, IsWithin, MayBeEntry};
ghost use Rattle.fs_session.specs.Sessions.{MayBegin};

use crate::begins::a_draft_may_begin;
use base_types::Name;
use crash_stands::slots_name_nodes_in_use;
use engine_blocks::{Blocks, calls_compose};
use fs_dirs::{Directory, find_in_directory, walk, walk_to_parent};
use fs_files::{Draft, FileFacts, FileRefusal, Nodes, Shared};
use fs_inodes::{a_name_stands_at_its_place, walks_are_the_same};
use fs_session::blocks_have_the_map_of_their_tree;
use lang_tree::{Path, Refusal};
use std::alloc::Global;

/// A node in use that a path leads to.
#[derive(Clone, Copy)]
pub struct NodeFound {
    pub number: u32,
    pub facts: FileFacts,
}

/// What stands under a name in a directory.
#[derive(Clone, Copy)]
pub struct Entry {
    /// The place of its slot, from 0 on.
    pub place: u32,
    /// The node that the slot names.
    pub node: NodeFound,
}

/// What a path comes to, whose directory is there.
#[derive(Clone, Copy)]
pub enum Spot {
    /// The root, which has no directory above it.
    Root,
    /// The directory `dir` above the path, which has `count` slots, and what stands under the path's last name
    /// there.
    Inside {
        dir: u32,
        count: u32,
        entry: Option<Entry>,
    },
}

/// The node at a path of the blocks as they are, or why the path leads nowhere.
///
/// # Errors
/// A read of the disk failed, which the disk has counted; or out of memory.
pub(crate) fn find_node<S: Blocks>(
    alloc: Global,
    blocks: &mut S,
    path: &Path,
    shared: &Shared,
) -> Result<Result<NodeFound, Refusal>, FileRefusal>
    requires begin { MayBegin S.tells (S.state blocks.old) shared.now }
    ensures found { IsTrue S.tells → IfOk result (λ found. (t : Tree) → IsTreeOf (S.state blocks.old).books.geom (S.state blocks.old).map t
        → LeadsToFound (S.state blocks.old).books.geom.layout (files_in (S.state blocks.old) nothing_drafted) path.now found) }
    ensures there { IsTrue S.tells → IfOk result
        (λ found. IfOk found (λ f. (x : FileNode) × (files_in (S.state blocks.old) nothing_drafted f.number ≡ Some x) × (f.facts ≡ facts_of x))) }
    ensures number { IfOk result (λ found. IfOk found (λ f. IsNumber (S.state blocks.old).books.geom.i f.number)) }
    ensures used { IfOk result (λ found. IfOk found (λ f. f.facts.kind ≢ Free)) }
    ensures refused { IfErr result LookRefused }
    ensures looks { LooksOnly S.tells (fails_reading result) (S.state blocks.old) (S.state blocks.new) }
{
    a_draft_may_begin(blocks);
    blocks_have_the_map_of_their_tree();
    let draft = Draft::beside(alloc, shared);
    find_in(&draft, blocks, path)
}

/// The node at a path of these files, or why the path leads nowhere.
///
/// # Errors
/// A read of the disk failed, which the disk has counted.
pub(crate) fn find_in<N: Nodes, S: Blocks>(
    files: &N,
    blocks: &mut S,
    path: &Path,
) -> Result<Result<NodeFound, Refusal>, FileRefusal>
    requires read { MayRead (N.may_read S.tells (S.state blocks.old) files.now) (S.state blocks.old) }
    ensures found { IsTrue S.tells → IfOk result (λ found. (t : Tree)
        → IsMapOf (S.state blocks.old).books.geom.i (inodes_of (S.state blocks.old).books.geom.layout (N.nodes (S.state blocks.old) files.now).files) t
        → LeadsToFound (S.state blocks.old).books.geom.layout (N.nodes (S.state blocks.old) files.now).files path.now found) }
    ensures there { IsTrue S.tells → IfOk result
        (λ found. IfOk found (λ f. (x : FileNode) × ((N.nodes (S.state blocks.old) files.now).files f.number ≡ Some x) × (f.facts ≡ facts_of x))) }
    ensures number { IfOk result (λ found. IfOk found (λ f. IsNumber (S.state blocks.old).books.geom.i f.number)) }
    ensures used { IfOk result (λ found. IfOk found (λ f. f.facts.kind ≢ Free)) }
    ensures refused { IfErr result LookRefused }
    ensures looks { LooksOnly S.tells (fails_reading result) (S.state blocks.old) (S.state blocks.new) }
{
    files.laws(blocks);
    calls_compose::<S>();
    walks_are_the_same();
    let number = match walk(files, blocks, path)? {
        Ok(number) => number,
        Err(why) => return Ok(Err(why)),
    };
    match files.look(blocks, number)? {
        Some(facts) => Ok(Ok(NodeFound { number, facts })),
        None => Ok(Err(Refusal::NotFound)),
    }
}

/// What a path comes to, or why nothing can come to be there.
///
/// # Errors
/// A read of the disk failed, which the disk has counted; or out of memory.
pub(crate) fn look_up<S: Blocks>(
    alloc: Global,
    blocks: &mut S,
    path: &Path,
    shared: &Shared,
) -> Result<Result<Spot, Refusal>, FileRefusal>
    requires begin { MayBegin S.tells (S.state blocks.old) shared.now }
    ensures comes { IsTrue S.tells → IfOk result (λ spot. (t : Tree) → IsTreeOf (S.state blocks.old).books.geom (S.state blocks.old).map t
        → ComesTo (S.state blocks.old).books.geom.layout (files_in (S.state blocks.old) nothing_drafted) path.now spot) }
    ensures within { IfOk result (λ spot. IfOk spot (IsWithin (S.state blocks.old).books.geom.i)) }
    ensures refused { IfErr result LookRefused }
    ensures looks { LooksOnly S.tells (fails_reading result) (S.state blocks.old) (S.state blocks.new) }
{
    a_draft_may_begin(blocks);
    calls_compose::<S>();
    blocks_have_the_map_of_their_tree();
    walks_are_the_same();
    let draft = Draft::beside(alloc, shared);
    let above = match walk_to_parent(&draft, blocks, path)? {
        Ok(Some(above)) => above,
        Ok(None) => return Ok(Ok(Spot::Root)),
        Err(why) => return Ok(Err(why)),
    };
    let Some(name) = path.names().last() else {
        return Ok(Ok(Spot::Root));
    };
    let entry = find_entry(&draft, blocks, &above, name)?;
    Ok(Ok(Spot::Inside {
        dir: above.number,
        count: above.count,
        entry,
    }))
}

/// What stands under a name in a directory that was read.
///
/// # Errors
/// A read of the disk failed, which the disk has counted.
fn find_entry<S: Blocks>(
    draft: &Draft,
    blocks: &mut S,
    dir: &Directory,
    name: &Name,
) -> Result<Option<Entry>, FileRefusal>
    requires going { (S.state blocks.old).books.stopped ≡ false }
    requires opened { IsOpened S.tells (S.state blocks.old) (nodes_in (S.state blocks.old) draft.now) dir.now }
    requires draft { IsDraftOf S.tells (S.state blocks.old) draft.now }
    ensures entry { IsTrue S.tells → IfOk result (λ entry. (t : Tree) (slots : List Slot)
        → IsMapOf (S.state blocks.old).books.geom.i (inodes_in (S.state blocks.old) draft.now) t
        → inodes_in (S.state blocks.old) draft.now dir.now.number ≡ Some (ADir slots)
        → HasEntry (S.state blocks.old).books.geom.layout (files_in (S.state blocks.old) draft.now) dir.now.number (length slots) name.now entry) }
    ensures within { IfOk result (λ entry. IfSome entry (MayBeEntry (S.state blocks.old).books.geom.i)) }
    ensures refused { IfErr result LookRefused }
    ensures looks { LooksOnly S.tells (fails_reading result) (S.state blocks.old) (S.state blocks.new) }
{
    calls_compose::<S>();
    slots_name_nodes_in_use();
    a_name_stands_at_its_place();
    let Some(found) = find_in_directory(draft, blocks, dir, name)? else {
        return Ok(None);
    };
    let Some(facts) = draft.look(blocks, found.node)? else {
        return Ok(None);
    };
    Ok(Some(Entry {
        place: found.place,
        node: NodeFound {
            number: found.node,
            facts,
        },
    }))
}
