//! The nodes that a snapshot keeps are read: each by one look at the snapshot's node table. A file's blocks are
//! those that its node names, a directory's are the snapshot's own.

use crate::kept_nodes::KeptNodes;
use base_types::{Block, Bytes, ReadFault, nodes_lie_in_their_blocks};
use engine_blocks::Blocks;
use fs_files::{
    FileFacts, FileRefusal, NodeBlocks, Nodes, OpenFile, different_blocks_are_few, node_in,
    read_block_at, read_bytes,
};
use layout_bytes::NodeKind;
use layout_extent::a_list_has_its_runs;
use std::alloc::Global;

impl Nodes for KeptNodes {
    ghost use Rattle.fs_snapshots.specs.Kept.{kept_map, MayReadKept};

    ghost nodes = { λ s v. kept_map s.books.geom s.map v.places };

    ghost may_read = { λ tells s v. MayReadKept tells s v };

    fn look<S: Blocks>(&self, blocks: &mut S, number: u32) -> Result<Option<FileFacts>, ReadFault> {
        match self.open(blocks, number)? {
            Some(file) => Ok(Some(file.facts)),
            None => Ok(None),
        }
    }

    fn open<S: Blocks>(&self, blocks: &mut S, number: u32) -> Result<Option<OpenFile>, ReadFault> {
        different_blocks_are_few(blocks);
        a_list_has_its_runs();
        nodes_lie_in_their_blocks();
        let geom = blocks.geom();
        geom.lawful();
        let (block, at) = geom.node_place(number);
        let slot = block - geom.table_start();
        let layout = geom.layout();
        let before = layout.node_rank(number);
        let mut table = [0; 1024];
        read_block_at(blocks, &self.places, 1 + slot, &mut table)?;
        let at = at as usize;
        let end = at + layout.node_length();
        let Some(file) = node_in(&table[at..end], &geom) else {
            return Ok(None);
        };
        match file.facts.kind {
            NodeKind::Free => Ok(None),
            NodeKind::Dir => Ok(Some(OpenFile {
                facts: file.facts,
                blocks: self.directory_places(&geom, slot, &table, before, file.blocks.count()),
            })),
            NodeKind::File => Ok(Some(file)),
            NodeKind::Snapshot => Ok(None),
        }
    }

    fn read_block<S: Blocks>(
        &self,
        blocks: &mut S,
        node: &NodeBlocks,
        index: u32,
        into: &mut Block,
    ) -> Result<(), ReadFault> {
        read_block_at(blocks, node, index, into)?;
        Ok(())
    }

    fn read_at<S: Blocks>(
        &self,
        alloc: Global,
        blocks: &mut S,
        number: u32,
        offset: u64,
        len: u32,
    ) -> Result<Bytes, FileRefusal> {
        let Some(file) = self.open(blocks, number)? else {
            return Ok(Bytes::from_vec(Vec::new(alloc)));
        };
        let bytes = read_bytes(alloc, blocks, &file.blocks, file.facts.size, offset, len)?;
        Ok(bytes)
    }

    fn laws<S: Blocks>(&self, blocks: &S) {
        different_blocks_are_few(blocks);
        blocks.geom().lawful();
    }
}
