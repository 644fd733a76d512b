//! Names looked up in a directory. It is read a block at a time, and nothing of it is kept.

ghost use Rattle.std.specs.Prelude.{◌≡◌, ◌<◌, ◌^◌, IsTrue, is_err, List, length, Some, IfOk, IfSome};
ghost use Rattle.base_types.specs.Layouts.{slots_held};
ghost use Rattle.layout_bytes.specs.declared.node.NodeKind.TheVariants.{Dir, File, Snapshot};
ghost use Rattle.layout_bytes.specs.declared.slot.Slot.{Slot};
ghost use Rattle.crash_stands.specs.Inodes.{Inode, inodes_of};
ghost use Rattle.fs_files.specs.Asks.{MayLookAt, MayRead};
ghost use Rattle.fs_files.specs.Effects.{LooksOnly};
ghost use Rattle.fs_files.specs.Calls.{IsUsed};
ghost use Rattle.fs_dirs.specs.Directories.{slot_count, Finds, IsNumber};
ghost use Rattle.fs_dirs.specs.Reading.{LooksForName, OpensDirectory, IsOpened, MayReadBlocks, HasSlots};

use crate::block::{ZEROS, find_in, read_slots};
use base_types::{Layout, Name, ReadFault};
use crash_stands::slots_name_nodes_in_use;
use engine_blocks::{Blocks, calls_compose};
use fs_files::{FileRefusal, NodeBlocks, Nodes};
use fs_inodes::{a_name_stands_at_its_place, slots_follow_the_bytes};
use layout_bytes::NodeKind;
use layout_directory::a_name_has_its_first_place;

/// Where a name stands in a directory.
#[derive(Clone, Copy)]
pub struct Found {
    /// The place of its slot, from 0 on.
    pub place: u32,
    /// The number of the node that the slot names.
    pub node: u32,
}

/// The most slots of a directory, which no directory on a disk has.
const MOST_SLOTS: u64 = 1 << 24;

/// How many slots node `number` has, where it is a directory.
///
/// # Errors
/// A read of the disk failed, which the disk has counted.
pub fn count_slots<N: Nodes, S: Blocks>(
    files: &N,
    blocks: &mut S,
    number: u32,
) -> Result<Option<u32>, ReadFault>
    requires { MayLookAt (N.may_read S.tells (S.state blocks.old) files.now) (S.state blocks.old) number }
    ensures count { IsTrue S.tells → IfOk result (λ count. (x : Inode)
        → inodes_of (S.state blocks.old).books.geom.layout (N.nodes (S.state blocks.old) files.now).files number ≡ Some x
        → count ≡ slot_count x) }
    ensures used { IsTrue S.tells → IfOk result (λ count. IfSome count (λ n. IsUsed (N.nodes (S.state blocks.old) files.now).files number)) }
    ensures few { IfOk result (λ count. IfSome count (λ n. n < 2 ^ 24)) }
    ensures looks { LooksOnly S.tells (is_err result) (S.state blocks.old) (S.state blocks.new) }
{
    files.laws(blocks);
    slots_follow_the_bytes();
    let Some(facts) = files.look(blocks, number)? else {
        return Ok(None);
    };
    Ok(slots_of(facts.kind, facts.size, blocks.geom().layout()))
}

/// How many slots a node of this kind and so many bytes has. `None` for what is no directory, and where there are more
/// than a disk has.
fn slots_of(kind: NodeKind, size: u64, layout: Layout) -> Option<u32>
    ensures few { IfSome result (λ count. count < 2 ^ 24) }
    ensures file { kind ≡ File → result ≡ None }
    ensures snapshot { kind ≡ Snapshot → result ≡ None }
    ensures dir { kind ≡ Dir → slots_held layout size < 2 ^ 24 → result ≡ Some (slots_held layout size) }
{
    let count = layout.slots_held(size);
    match kind {
        NodeKind::Free => None,
        NodeKind::Dir if count < MOST_SLOTS => Some(count as u32),
        NodeKind::Dir => None,
        NodeKind::File => None,
        NodeKind::Snapshot => None,
    }
}

/// A directory that was read: how many slots it has, and its blocks.
#[derive(Drop)]
pub struct Directory {
    pub number: u32,
    pub count: u32,
    pub blocks: NodeBlocks,
}

/// Node `number` as a directory, which is read once. `None` where it is none.
///
/// # Errors
/// A read of the disk failed, which the disk has counted.
pub(crate) fn open_directory<N: Nodes, S: Blocks>(
    files: &N,
    blocks: &mut S,
    number: u32,
) -> Result<Option<Directory>, ReadFault>
    requires { MayLookAt (N.may_read S.tells (S.state blocks.old) files.now) (S.state blocks.old) number }
    ensures { OpensDirectory S.tells number result (S.state blocks.old) (S.state blocks.new)
        (N.nodes (S.state blocks.old) files.now) (N.nodes (S.state blocks.new) files.now) }
{
    files.laws(blocks);
    slots_follow_the_bytes();
    let Some(file) = files.open(blocks, number)? else {
        return Ok(None);
    };
    let layout = blocks.geom().layout();
    let Some(count) = slots_of(file.facts.kind, file.facts.size, layout) else {
        return Ok(None);
    };
    Ok(Some(Directory {
        number,
        count,
        blocks: file.blocks,
    }))
}

/// What stands under a name in a directory that was read: the first slot that has it. `None` where no slot has
/// it. A slot that names no number of the table isn't one.
///
/// # Errors
/// A read of the disk failed, which the disk has counted.
pub fn find_in_directory<N: Nodes, S: Blocks>(
    files: &N,
    blocks: &mut S,
    dir: &Directory,
    name: &Name,
) -> Result<Option<Found>, FileRefusal>
    requires read { MayRead (N.may_read S.tells (S.state blocks.old) files.now) (S.state blocks.old) }
    requires opened { IsOpened S.tells (S.state blocks.old) (N.nodes (S.state blocks.old) files.now) dir.now }
    ensures { LooksForName S.tells dir.now.number name.now result (S.state blocks.old) (S.state blocks.new)
        (inodes_of (S.state blocks.old).books.geom.layout (N.nodes (S.state blocks.old) files.now).files) }
{
    slots_name_nodes_in_use();
    a_name_stands_at_its_place();
    let limit = blocks.geom().i();
    let found = search(files, blocks, &dir.blocks, dir.count, name)?;
    Ok(in_table(found, limit))
}

/// What was found, if the number is one of the table.
fn in_table(found: Option<Found>, limit: u32) -> Option<Found>
    ensures same { IfSome found (λ f. IsNumber limit f.node) → result ≡ found }
    ensures number { IfSome result (λ f. IsNumber limit f.node) }
    ensures place { IfSome found (λ f. f.place < 2 ^ 24) → IfSome result (λ f. f.place < 2 ^ 24) }
{
    let found = found?;
    if found.node == 0 {
        return None;
    }
    if limit < found.node {
        return None;
    }
    Some(found)
}

/// The first slot with this name of the directory with these blocks, which has so many slots.
///
/// # Errors
/// A read of the disk failed, which the disk has counted.
fn search<N: Nodes, S: Blocks>(
    files: &N,
    blocks: &mut S,
    node: &NodeBlocks,
    count: u32,
    name: &Name,
) -> Result<Option<Found>, ReadFault>
    requires read { MayReadBlocks (N.may_read S.tells (S.state blocks.old) files.now) (S.state blocks.old) node.now }
    requires few { count < 2 ^ 24 }
    ensures found { IsTrue S.tells → IfOk result (λ found. (slots : List Slot)
        → HasSlots (S.state blocks.old).books.geom.layout (N.nodes (S.state blocks.old) files.now) node.now slots
        → length slots ≡ count → Finds slots name.now found) }
    ensures place { IfOk result (λ found. IfSome found (λ f. f.place < 2 ^ 24)) }
    ensures looks { LooksOnly S.tells (is_err result) (S.state blocks.old) (S.state blocks.new) }
{
    calls_compose::<S>();
    files.laws(blocks);
    a_name_has_its_first_place();
    a_name_stands_at_its_place();
    let layout = blocks.geom().layout();
    let most = layout.slots_in_block();
    let mut block = ZEROS;
    let mut first = 0;
    while first < count {
        read_slots(files, blocks, node, first, &mut block)?;
        let entries = (count - first).min(most);
        match find_in(&block, entries, name, layout) {
            Some(found) => {
                return Ok(Some(Found {
                    place: first + found.place,
                    node: found.node,
                }));
            }
            None => first += most,
        }
    }
    Ok(None)
}
