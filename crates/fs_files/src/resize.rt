//! Resizing a file of a draft: it is cut to fewer bytes, or grows to more with zeros. Its node and its
//! blocks are changed by other modules.

ghost use Rattle.std.specs.Prelude.{◌≡◌, ◌≤◌, ◌<◌, ◌*◌, ◌-◌, ◌/◌, ◌==◌, ◌^◌, IsTrue, true};
ghost use Rattle.std.specs.Prelude.{false, not, if◌then◌else◌, [], length, drop, replicate, Some, IfErr, OnOk};
ghost use Rattle.std.specs.List.{All};
ghost use Rattle.base_types.specs.declared.words.Class.TheVariants.{Meta};
ghost use Rattle.layout_bytes.specs.Bytes.{are_zeros};
ghost use Rattle.layout_bytes.specs.declared.node.NodeKind.TheVariants.{Dir};
ghost use Rattle.crash_stands.specs.Files.{FileNode, joined};
ghost use Rattle.engine_blocks.specs.Puts.{IsData};
ghost use Rattle.fs_files.specs.Bytes.{blocks_for, overwrite};
ghost use Rattle.fs_files.specs.Asks.{MayGrow, MayLook};
ghost use Rattle.fs_files.specs.Calls.{files_in, IsUsed, LookRefused};
ghost use Rattle.fs_files.specs.Changing.{CutsFile, ResizesFile};
ghost use Rattle.fs_files.specs.Content.{HasContent, WritesContent, fails_reading};
ghost use Rattle.fs_files.specs.Drafts.{drafted};
ghost use Rattle.fs_files.specs.Effects.{LooksOnly};
ghost use Rattle.fs_files.specs.Nodes.{MayEndAt, fills_blocks, largest_node};
ghost use Rattle.fs_files.specs.Resizing.{IsLoaded, ClearsRest, IsCleared};

use crate::FileRefusal;
use crate::content::write_content;
use crate::draft::{Draft, ZEROS};
use crate::grow::{blocks_for, shrink};
use crate::nodes::{OpenNode, load, store};
use crate::write::write_loaded;
use base_types::limits::BLOCK_LENGTH;
use base_types::{Block, Class, Layout};
use engine_blocks::{Blocks, calls_compose};
use layout_extent::{Runs, a_list_has_its_runs};
use layout_node::NodeKind;
use std::alloc::Global;

impl<'a> Draft<'a> {
    /// Node `number` has so many bytes: its first ones, and zeros where it grows.
    ///
    /// # Errors
    /// As `write_at`.
    pub fn resize<S: Blocks>(
        &mut self,
        alloc: Global,
        blocks: &mut S,
        number: u32,
        size: u64,
    ) -> Result<(), FileRefusal>
        requires look { MayLook S.tells (S.state blocks.old) self.old number }
        requires used { IsTrue S.tells → IsUsed (files_in (S.state blocks.old) self.old) number }
        requires grows { MayGrow S.tells (S.state blocks.old) self.old number size size }
        requires slots { IsTrue S.tells → (x : FileNode) → files_in (S.state blocks.old) self.old number ≡ Some x → x.kind ≡ Dir
            → MayEndAt (S.state blocks.old).books.geom.layout x.bytes size }
        ensures { ResizesFile S.tells number size result (S.state blocks.old) (S.state blocks.new) self.old self.new }
    {
        calls_compose::<S>();
        a_list_has_its_runs();
        blocks.geom().lawful();
        let mut table = ZEROS;
        let Some(mut node) = load(self, blocks, number, &mut table)? else {
            return Ok(());
        };
        if size == node.size {
            return Ok(());
        }
        if size < node.size {
            return cut(self, alloc, blocks, number, &mut node, size, &mut table);
        }
        write_loaded(
            self,
            alloc,
            blocks,
            number,
            &mut node,
            &mut table,
            size,
            &[],
        )
    }
}

/// The node keeps its bytes before `size`, which is below its size, and is stored; what it needs no more is
/// to be freed. Of a directory, the rest of the last block is zeros; where there is room for no slot it is so already.
///
/// # Errors
/// A read of the disk failed, which the disk has counted; or out of memory. The draft isn't to be used
/// any more then.
pub(crate) fn cut<S: Blocks>(
    draft: &mut Draft,
    alloc: Global,
    blocks: &mut S,
    number: u32,
    node: &mut OpenNode,
    size: u64,
    table: &mut Block,
) -> Result<(), FileRefusal>
    requires going { (S.state blocks.old).books.stopped ≡ false }
    requires loaded { IsLoaded S.tells (S.state blocks.old) draft.old number node.old table.old }
    requires size { size ≤ 2 ^ 30 }
    requires less { size < node.old.size }
    requires slots { IsTrue S.tells → (x : FileNode) → files_in (S.state blocks.old) draft.old number ≡ Some x → x.kind ≡ Dir
        → MayEndAt (S.state blocks.old).books.geom.layout x.bytes size }
    ensures { CutsFile S.tells number size result (S.state blocks.old) (S.state blocks.new) draft.old draft.new }
{
    let geom = blocks.geom();
    geom.lawful();
    a_list_has_its_runs();
    let layout = geom.layout();
    shrink(draft, node, blocks_for(size))?;
    clear_rest(draft, alloc, blocks, node.kind, &node.places, size, layout)?;
    node.size = size;
    store(draft, alloc, &geom, number, &node.to_node(layout), table)?;
    Ok(())
}

/// The bytes from `size` on of these blocks, which so many bytes need, become zeros where they are a
/// directory's. Where there is room for no slot behind them they are zeros already, and nothing is written.
///
/// # Errors
/// A read of the disk failed, which the disk has counted; or out of memory. The draft isn't to be used
/// any more then.
fn clear_rest<S: Blocks>(
    draft: &mut Draft,
    alloc: Global,
    blocks: &mut S,
    kind: NodeKind,
    places: &Runs,
    size: u64,
    layout: Layout,
) -> Result<(), FileRefusal>
    requires going { (S.state blocks.old).books.stopped ≡ false }
    requires data { All (IsData (S.state blocks.old).books.geom) places.now }
    requires count { length places.now ≡ blocks_for size }
    requires size { size ≤ largest_node }
    ensures clears { OnOk result (ClearsRest layout kind size places.now draft.old draft.new) }
    ensures bytes { IsTrue S.tells → HasContent (S.state blocks.old).map draft.old places.now
        → (kind ≡ Dir → fills_blocks layout size ≡ true → IsTrue (are_zeros (drop size (joined (drafted draft.old (S.state blocks.old).map) places.now))))
        → OnOk result (IsCleared (S.state blocks.old).map kind size places.now draft.old draft.new) }
    ensures refused { IfErr result LookRefused }
    ensures looks { LooksOnly S.tells (fails_reading result) (S.state blocks.old) (S.state blocks.new) }
{
    match kind {
        NodeKind::Free => Ok(()),
        NodeKind::Dir => zero_room(draft, alloc, blocks, places, size, layout),
        NodeKind::File => Ok(()),
        NodeKind::Snapshot => Ok(()),
    }
}

/// The bytes from `size` on of a directory's blocks, which so many bytes need, become zeros. Where there is room for no
/// slot behind them they are zeros already, and nothing is written.
///
/// # Errors
/// A read of the disk failed, which the disk has counted; or out of memory. The draft isn't to be used
/// any more then.
fn zero_room<S: Blocks>(
    draft: &mut Draft,
    alloc: Global,
    blocks: &mut S,
    places: &Runs,
    size: u64,
    layout: Layout,
) -> Result<(), FileRefusal>
    requires going { (S.state blocks.old).books.stopped ≡ false }
    requires data { All (IsData (S.state blocks.old).books.geom) places.now }
    requires count { length places.now ≡ blocks_for size }
    requires size { size ≤ largest_node }
    ensures writes { OnOk result (WritesContent Meta (if not (fills_blocks layout size) then drop (size / 1024) places.now else []) draft.old draft.new) }
    ensures content { IsTrue S.tells → HasContent (S.state blocks.old).map draft.old places.now
        → OnOk result (HasContent (S.state blocks.old).map draft.new places.now) }
    ensures bytes { IsTrue S.tells → HasContent (S.state blocks.old).map draft.old places.now
        → (fills_blocks layout size ≡ true → IsTrue (are_zeros (drop size (joined (drafted draft.old (S.state blocks.old).map) places.now))))
        → OnOk result (joined (drafted draft.new (S.state blocks.old).map) places.now ≡ overwrite size (replicate (1024 * length places.now - size) 0)
        (joined (drafted draft.old (S.state blocks.old).map) places.now)) }
    ensures refused { IfErr result LookRefused }
    ensures looks { LooksOnly S.tells (fails_reading result) (S.state blocks.old) (S.state blocks.new) }
{
    if fills_blocks(size, layout) {
        return Ok(());
    }
    zero_rest(draft, alloc, blocks, places, size)
}

/// Whether the blocks of a directory of so many bytes have room for no slot more. There are no more bytes than a node can
/// have.
fn fills_blocks(size: u64, layout: Layout) -> bool
    requires { size ≤ largest_node }
    ensures { result ≡ fills_blocks layout size }
{
    layout.slots_before(blocks_for(size)) == layout.slots_held(size)
}

/// The bytes from `size` on of these blocks, which so many bytes need, become zeros.
///
/// # Errors
/// A read of the disk failed, which the disk has counted; or out of memory. The draft isn't to be used
/// any more then.
fn zero_rest<S: Blocks>(
    draft: &mut Draft,
    alloc: Global,
    blocks: &mut S,
    places: &Runs,
    size: u64,
) -> Result<(), FileRefusal>
    requires going { (S.state blocks.old).books.stopped ≡ false }
    requires data { All (IsData (S.state blocks.old).books.geom) places.now }
    requires count { length places.now ≡ blocks_for size }
    ensures writes { OnOk result (WritesContent Meta (drop (size / 1024) places.now) draft.old draft.new) }
    ensures content { IsTrue S.tells → HasContent (S.state blocks.old).map draft.old places.now
        → OnOk result (HasContent (S.state blocks.old).map draft.new places.now) }
    ensures bytes { IsTrue S.tells → HasContent (S.state blocks.old).map draft.old places.now
        → OnOk result (joined (drafted draft.new (S.state blocks.old).map) places.now ≡ overwrite size (replicate (1024 * length places.now - size) 0)
        (joined (drafted draft.old (S.state blocks.old).map) places.now)) }
    ensures refused { IfErr result LookRefused }
    ensures looks { LooksOnly S.tells (fails_reading result) (S.state blocks.old) (S.state blocks.new) }
{
    let room = u64::from(places.count()) * BLOCK_LENGTH as u64;
    let rest = &ZEROS[..(room - size) as usize];
    write_content(draft, alloc, blocks, places, Class::Meta, size, rest)
}
