//! The six calls on a file of a draft: reading, writing and resizing its bytes, making and dropping a
//! node, and setting its links.

ghost use Rattle.std.specs.Prelude.{◌≡◌, ◌≤◌, ◌<◌, ◌+◌, ◌*◌, ◌-◌, ◌≢◌, ℕ, IsTrue, false, min, length, take, drop, replicate, None};
ghost use Rattle.std.specs.Prelude.{Some, IfOk, IfErr, OnOk};
ghost use Rattle.layout_bytes.specs.declared.node.NodeKind.TheVariants.{Free};
ghost use Rattle.crash_stands.specs.Files.{FileNode, joined};
ghost use Rattle.layout_bytes.specs.Node.{free_node};
ghost use Rattle.std.specs.List.{All};
ghost use Rattle.engine_blocks.specs.Puts.{IsData};
ghost use Rattle.fs_files.specs.Bytes.{blocks_for, met, overwrite};
ghost use Rattle.fs_files.specs.Drafts.{drafted};
ghost use Rattle.fs_files.specs.Nodes.{class_of};
ghost use Rattle.fs_files.specs.Sound.{IsDraftOf};
ghost use Rattle.fs_files.specs.Changing.{DropsNode, MakesNode, SetsLinks};
ghost use Rattle.fs_files.specs.Content.{HasContent, WritesContent, fails_reading};
ghost use Rattle.fs_files.specs.Effects.{LooksOnly};
ghost use Rattle.fs_files.specs.Asks.{MayLook};
ghost use Rattle.fs_files.specs.Calls.{files_in, IsUsed, LookRefused};

use crate::FileRefusal;
use crate::content::{read_content, write_content};
use crate::draft::{Draft, ZEROS};
use crate::grow::{class_of, shrink};
use crate::nodes::{OpenNode, load, store};
use crate::unused::least_unused;
use base_types::limits::BLOCK_LENGTH;
use base_types::{Block, Bytes, RunList};
use engine_blocks::Blocks;
use layout_extent::a_list_has_its_runs;
use layout_node::{Node, NodeKind};
use std::alloc::Global;

impl<'a> Draft<'a> {
    /// The bytes of node `number` from `offset` on, at most `len`, and fewer where it ends before.
    ///
    /// # Errors
    /// A read of the disk failed, which the disk has counted; or out of memory.
    pub fn read_at<S: Blocks>(
        &self,
        alloc: Global,
        blocks: &mut S,
        number: u32,
        offset: u64,
        len: u32,
    ) -> Result<Bytes, FileRefusal>
        requires look { MayLook S.tells (S.state blocks.old) self.now number }
        requires used { IsTrue S.tells → IsUsed (files_in (S.state blocks.old) self.now) number }
        ensures bytes { IsTrue S.tells → IfOk result (λ bytes. (x : FileNode) → files_in (S.state blocks.old) self.now number ≡ Some x
            → bytes ≡ take len (drop offset x.bytes)) }
        ensures refused { IfErr result LookRefused }
        ensures looks { LooksOnly S.tells (fails_reading result) (S.state blocks.old) (S.state blocks.new) }
    {
        let geom = blocks.geom();
        geom.lawful();
        a_list_has_its_runs();
        let mut table = ZEROS;
        let mut bytes = Vec::new(alloc);
        let Some(node) = load(self, blocks, number, &mut table)? else {
            return Ok(Bytes::from_vec(bytes));
        };
        let from = offset.min(node.size);
        let end = node.size.min(from + u64::from(len));
        read_content(self, blocks, &node.places, from, end, &mut bytes)?;
        Ok(Bytes::from_vec(bytes))
    }

    /// Makes the least node that isn't in use one of this kind, with no bytes and one link, and answers
    /// its number. All numbers below `from` are in use. `None` where all are.
    ///
    /// # Errors
    /// A read of the disk failed, which the disk has counted; or out of memory. The draft isn't to be used
    /// any more then.
    pub fn new_node<S: Blocks>(
        &mut self,
        alloc: Global,
        blocks: &mut S,
        kind: NodeKind,
        from: u32,
    ) -> Result<Option<u32>, FileRefusal>
        requires going { (S.state blocks.old).books.stopped ≡ false }
        requires kind { kind ≢ Free }
        requires above_zero { 1 ≤ from }
        requires draft { IsDraftOf S.tells (S.state blocks.old) self.old }
        requires below { IsTrue S.tells → (l : ℕ) → 1 ≤ l → l < from → IsUsed (files_in (S.state blocks.old) self.old) l }
        ensures { MakesNode S.tells kind result (S.state blocks.old) (S.state blocks.new) self.old self.new }
    {
        let geom = blocks.geom();
        geom.lawful();
        let mut table = ZEROS;
        let Some(number) = least_unused(self, blocks, from, &mut table)? else {
            return Ok(None);
        };
        let node = Node {
            kind,
            links: 1,
            size: 0,
            runs: RunList::new(),
        };
        store(self, alloc, &geom, number, &node, &mut table)?;
        Ok(Some(number))
    }

    /// Node `number` isn't in use any more, and its blocks are to be freed.
    ///
    /// # Errors
    /// A read of the disk failed, which the disk has counted; or out of memory. The draft isn't to be used
    /// any more then.
    pub fn drop_node<S: Blocks>(
        &mut self,
        alloc: Global,
        blocks: &mut S,
        number: u32,
    ) -> Result<(), FileRefusal>
        requires look { MayLook S.tells (S.state blocks.old) self.old number }
        requires used { IsTrue S.tells → IsUsed (files_in (S.state blocks.old) self.old) number }
        ensures { DropsNode S.tells number result (S.state blocks.old) (S.state blocks.new) self.old self.new }
    {
        let geom = blocks.geom();
        geom.lawful();
        a_list_has_its_runs();
        let mut table = ZEROS;
        let Some(mut node) = load(self, blocks, number, &mut table)? else {
            return Ok(());
        };
        shrink(self, &mut node, 0)?;
        store(self, alloc, &geom, number, &free_node(), &mut table)?;
        Ok(())
    }

    /// Node `number` has so many links: from 1 to 65,535, and 1 where it isn't a file.
    ///
    /// # Errors
    /// A read of the disk failed, which the disk has counted; or out of memory. The draft isn't to be used
    /// any more then.
    pub fn set_links<S: Blocks>(
        &mut self,
        alloc: Global,
        blocks: &mut S,
        number: u32,
        links: u32,
    ) -> Result<(), FileRefusal>
        requires look { MayLook S.tells (S.state blocks.old) self.old number }
        requires used { IsTrue S.tells → IsUsed (files_in (S.state blocks.old) self.old) number }
        requires some { 1 ≤ links }
        requires most { links ≤ 65535 }
        ensures { SetsLinks S.tells number links result (S.state blocks.old) (S.state blocks.new) self.old self.new }
    {
        a_list_has_its_runs();
        let geom = blocks.geom();
        geom.lawful();
        let mut table = ZEROS;
        let Some(mut node) = load(self, blocks, number, &mut table)? else {
            return Ok(());
        };
        node.links = links;
        let node = node.to_node(geom.layout());
        store(self, alloc, &geom, number, &node, &mut table)?;
        Ok(())
    }
}

/// A node that isn't in use.
fn free_node() -> Node
    ensures { result ≡ free_node }
{
    Node {
        kind: NodeKind::Free,
        links: 0,
        size: 0,
        runs: RunList::new(),
    }
}

/// Zeros from the node's end to byte `end`, or to the end of the `held` blocks that its bytes need where that comes
/// before.
pub(crate) fn fill_gap<S: Blocks>(
    draft: &mut Draft,
    alloc: Global,
    blocks: &mut S,
    node: &OpenNode,
    held: u32,
    end: u64,
) -> Result<(), FileRefusal>
    requires going { (S.state blocks.old).books.stopped ≡ false }
    requires data { All (IsData (S.state blocks.old).books.geom) node.now.places }
    requires held { held ≡ blocks_for node.now.size }
    requires within { held ≤ length node.now.places }
    requires more { node.now.size ≤ end }
    ensures writes { OnOk result (WritesContent (class_of node.now.kind) (met node.now.size (min end (1024 * held)) node.now.places)
        draft.old draft.new) }
    ensures content { IsTrue S.tells → HasContent (S.state blocks.old).map draft.old node.now.places
        → OnOk result (HasContent (S.state blocks.old).map draft.new node.now.places) }
    ensures bytes { IsTrue S.tells → HasContent (S.state blocks.old).map draft.old node.now.places
        → OnOk result (joined (drafted draft.new (S.state blocks.old).map) node.now.places ≡ overwrite node.now.size
        (replicate (min end (1024 * held) - node.now.size) 0)
        (joined (drafted draft.old (S.state blocks.old).map) node.now.places)) }
    ensures refused { IfErr result LookRefused }
    ensures looks { LooksOnly S.tells (fails_reading result) (S.state blocks.old) (S.state blocks.new) }
{
    let room = u64::from(held) * BLOCK_LENGTH as u64;
    let stop = end.min(room);
    let gap = &ZEROS[..(stop - node.size) as usize];
    write_content(
        draft,
        alloc,
        blocks,
        &node.places,
        class_of(node.kind),
        node.size,
        gap,
    )
}
