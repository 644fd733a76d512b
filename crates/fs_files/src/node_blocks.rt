//! A node read once, with what is known of it and its blocks, and those blocks read whole, one at a time.
//! Bytes from any place on are read elsewhere.

ghost use Rattle.std.specs.Prelude.{◌≡◌, ◌≢◌, ◌≤◌, ℕ, false, IsTrue, is_err, length, take, IfOk, IfSome, OnOk, Some, option_map};
ghost use Rattle.std.specs.List.{All};
ghost use Rattle.engine_blocks.specs.Puts.{IsData};
ghost use Rattle.layout_bytes.specs.declared.node.NodeKind.TheVariants.{Free};
ghost use Rattle.crash_stands.specs.Files.{FileNode};
ghost use Rattle.fs_files.specs.Asks.{MayLook};
ghost use Rattle.fs_files.specs.Calls.{block_bytes, facts_of, files_in, places_in};
ghost use Rattle.fs_files.specs.Effects.{LooksOnly};
ghost use Rattle.fs_files.specs.Sound.{IsDraftOf};
ghost use Rattle.fs_files.specs.declared.node_blocks.OpenFile.{OpenFile};

use crate::draft::{Draft, ZEROS};
use crate::look::FileFacts;
use crate::nodes::load;
use base_types::{Block, ReadFault};
use engine_blocks::Blocks;
use layout_extent::{Runs, a_list_has_its_runs};
use std::marker::Model;

/// The blocks of a node, in order, which contracts see as the list of their numbers. They are those of the
/// draft as it was when they were looked up.
#[derive(Drop)]
pub struct NodeBlocks {
    pub(crate) places: Runs,
}

impl Model for NodeBlocks {
    ghost use Rattle.std.specs.Prelude.{ℕ, List};

    ghost Value = { List ℕ };

    ghost view = { λ n. n.places };
}

/// A node in use that was read: what it is but for its bytes, and its blocks.
#[derive(Drop)]
pub struct OpenFile {
    pub facts: FileFacts,
    pub blocks: NodeBlocks,
}

impl<'a> Draft<'a> {
    /// What node `number` is, and its blocks, read at once. `None` where it isn't in use.
    ///
    /// # Errors
    /// A read of the disk failed, which the disk has counted.
    pub fn open<S: Blocks>(
        &self,
        blocks: &mut S,
        number: u32,
    ) -> Result<Option<OpenFile>, ReadFault>
        requires { MayLook S.tells (S.state blocks.old) self.now number }
        ensures facts { IsTrue S.tells → IfOk result (λ file. option_map (λ (f : OpenFile). f.facts) file
            ≡ option_map facts_of (files_in (S.state blocks.old) self.now number)) }
        ensures used { IfOk result (λ file. IfSome file (λ f. f.facts.kind ≢ Free)) }
        ensures places { IsTrue S.tells → IfOk result (λ file. IfSome file (λ f. f.blocks ≡ places_in (S.state blocks.old) self.now number)) }
        ensures data { IfOk result (λ file. IfSome file (λ f. All (IsData (S.state blocks.old).books.geom) f.blocks)) }
        ensures looks { LooksOnly S.tells (is_err result) (S.state blocks.old) (S.state blocks.new) }
    {
        a_list_has_its_runs();
        blocks.geom().lawful();
        let mut table = ZEROS;
        let Some(node) = load(self, blocks, number, &mut table)? else {
            return Ok(None);
        };
        Ok(Some(OpenFile {
            facts: FileFacts {
                kind: node.kind,
                links: node.links,
                size: node.size,
            },
            blocks: NodeBlocks {
                places: node.places,
            },
        }))
    }

    /// Reads the block of a node at a place of its order, from 0 on. Where the node has bytes there, the
    /// block begins with them, and nothing is said of what lies behind them. Where it has no such block,
    /// `into` stays.
    ///
    /// # Errors
    /// A read of the disk failed, which the disk has counted.
    pub fn read_block<S: Blocks>(
        &self,
        blocks: &mut S,
        node: &NodeBlocks,
        index: u32,
        into: &mut Block,
    ) -> Result<(), ReadFault>
        requires going { (S.state blocks.old).books.stopped ≡ false }
        requires draft { IsDraftOf S.tells (S.state blocks.old) self.now }
        requires data { All (IsData (S.state blocks.old).books.geom) node.now }
        ensures bytes { IsTrue S.tells → OnOk result ((k : ℕ) (x : FileNode) → files_in (S.state blocks.old) self.now k ≡ Some x
            → node.now ≡ places_in (S.state blocks.old) self.now k
            → take (length (block_bytes x index)) into.new ≡ block_bytes x index) }
        ensures past { length node.now ≤ index → into.new ≡ into.old }
        ensures looks { LooksOnly S.tells (is_err result) (S.state blocks.old) (S.state blocks.new) }
    {
        if node.places.count() <= index {
            return Ok(());
        }
        self.read(blocks, node.places.place(index), into)?;
        Ok(())
    }
}
