//! Numbered files that are read, whatever they are: those of a draft are one kind. Nothing is changed here.

ghost use Rattle.std.specs.Prelude.{◌≡◌, ◌≢◌, ◌≤◌, ◌<◌, ◌+◌, ◌^◌, ℕ, Bool};
ghost use Rattle.std.specs.Prelude.{IsTrue, is_err, take, drop, length, None, Some, IfOk, IfErr, IfSome, OnOk, option_map};
ghost use Rattle.std.specs.List.{All};
ghost use Rattle.layout_bytes.specs.declared.node.NodeKind.TheVariants.{Free, Dir};
ghost use Rattle.engine_blocks.specs.Puts.{IsData};
ghost use Rattle.engine_blocks.specs.State.{State};
ghost use Rattle.crash_stands.specs.Files.{FileNode};
ghost use Rattle.fs_files.specs.Asks.{MayLookAt, MayRead};
ghost use Rattle.fs_files.specs.Calls.{block_bytes, facts_of, IsUsed, LookRefused};
ghost use Rattle.fs_files.specs.Content.{fails_reading};
ghost use Rattle.fs_files.specs.Effects.{LooksOnly};
ghost use Rattle.fs_files.specs.NodeMaps.{NodeMap};
ghost use Rattle.fs_files.specs.Nodes.{AreWholeSlots};
ghost use Rattle.fs_files.specs.declared.node_blocks.OpenFile.{OpenFile};

use crate::draft::Draft;
use crate::laws::{a_directory_has_whole_slots, a_file_fits_the_disk};
use crate::look::FileFacts;
use crate::node_blocks::{NodeBlocks, OpenFile};
use crate::refusal::FileRefusal;
use base_types::{Block, Bytes, ReadFault};
use engine_blocks::Blocks;
use std::alloc::Global;

/// Numbered files over a map of blocks, as they are read.
pub trait Nodes {
    /// The nodes: the files, and the blocks of each.
    ghost nodes: { State → Self → NodeMap };

    /// Whether they may be read over these blocks.
    ghost may_read: { Bool → State → Self → Type 0 };

    /// What node `number` is. `None` where it isn't in use.
    ///
    /// # Errors
    /// A read of the disk failed, which the disk has counted.
    fn look<S: Blocks>(&self, blocks: &mut S, number: u32) -> Result<Option<FileFacts>, ReadFault>
        requires { MayLookAt (may_read S.tells (S.state blocks.old) self.now) (S.state blocks.old) number }
        ensures facts { IsTrue S.tells → IfOk result (λ found. found ≡ option_map facts_of ((nodes (S.state blocks.old) self.now).files number)) }
        ensures used { IfOk result (λ found. IfSome found (λ f. f.kind ≢ Free)) }
        ensures looks { LooksOnly S.tells (is_err result) (S.state blocks.old) (S.state blocks.new) };

    /// What node `number` is, and its blocks, read at once. `None` where it isn't in use.
    ///
    /// # Errors
    /// As `look`.
    fn open<S: Blocks>(&self, blocks: &mut S, number: u32) -> Result<Option<OpenFile>, ReadFault>
        requires { MayLookAt (may_read S.tells (S.state blocks.old) self.now) (S.state blocks.old) number }
        ensures facts { IsTrue S.tells → IfOk result (λ file. option_map (λ (f : OpenFile). f.facts) file
            ≡ option_map facts_of ((nodes (S.state blocks.old) self.now).files number)) }
        ensures used { IfOk result (λ file. IfSome file (λ f. f.facts.kind ≢ Free)) }
        ensures places { IsTrue S.tells → IfOk result (λ file. IfSome file (λ f. f.blocks ≡ (nodes (S.state blocks.old) self.now).places number)) }
        ensures data { IfOk result (λ file. IfSome file (λ f. All (IsData (S.state blocks.old).books.geom) f.blocks)) }
        ensures looks { LooksOnly S.tells (is_err result) (S.state blocks.old) (S.state blocks.new) };

    /// Reads the block of a node at a place of its order, from 0 on. Where the node has bytes there, the
    /// block begins with them, and nothing is said of what lies behind them. Where it has no such block,
    /// `into` stays.
    ///
    /// # Errors
    /// As `look`.
    fn read_block<S: Blocks>(
        &self,
        blocks: &mut S,
        node: &NodeBlocks,
        index: u32,
        into: &mut Block,
    ) -> Result<(), ReadFault>
        requires read { MayRead (may_read S.tells (S.state blocks.old) self.now) (S.state blocks.old) }
        requires data { All (IsData (S.state blocks.old).books.geom) node.now }
        ensures bytes { IsTrue S.tells → OnOk result ((k : ℕ) (x : FileNode) → (nodes (S.state blocks.old) self.now).files k ≡ Some x
            → node.now ≡ (nodes (S.state blocks.old) self.now).places k
            → take (length (block_bytes x index)) into.new ≡ block_bytes x index) }
        ensures past { length node.now ≤ index → into.new ≡ into.old }
        ensures looks { LooksOnly S.tells (is_err result) (S.state blocks.old) (S.state blocks.new) };

    /// The bytes of node `number` from `offset` on, at most `len`, and fewer where it ends before.
    ///
    /// # Errors
    /// As `look`; or out of memory.
    fn read_at<S: Blocks>(
        &self,
        alloc: Global,
        blocks: &mut S,
        number: u32,
        offset: u64,
        len: u32,
    ) -> Result<Bytes, FileRefusal>
        requires look { MayLookAt (may_read S.tells (S.state blocks.old) self.now) (S.state blocks.old) number }
        requires used { IsTrue S.tells → IsUsed (nodes (S.state blocks.old) self.now).files number }
        ensures bytes { IsTrue S.tells → IfOk result (λ bytes. (x : FileNode) → (nodes (S.state blocks.old) self.now).files number ≡ Some x
            → bytes ≡ take len (drop offset x.bytes)) }
        ensures refused { IfErr result LookRefused }
        ensures looks { LooksOnly S.tells (fails_reading result) (S.state blocks.old) (S.state blocks.new) };

    /// Does nothing. A proof learns from the call that the nodes are as before where blocks were only read, and
    /// may be read still; that a directory's bytes are whole slots, that a file has fewer than 2^30 bytes, and that
    /// number 0 is that of no node, and so is one above the table's.
    fn laws<S: Blocks>(&self, blocks: &S)
        ensures same { (failed : Bool) (s t : S) → LooksOnly S.tells failed (S.state s) (S.state t) → IsTrue S.tells
            → nodes (S.state t) self.now ≡ nodes (S.state s) self.now }
        ensures stays { (failed : Bool) (s t : S) → LooksOnly S.tells failed (S.state s) (S.state t) → may_read S.tells (S.state s) self.now
            → may_read S.tells (S.state t) self.now }
        ensures slots { IsTrue S.tells → may_read S.tells (S.state blocks.now) self.now → (k : ℕ) (x : FileNode)
            → (nodes (S.state blocks.now) self.now).files k ≡ Some x → x.kind ≡ Dir → AreWholeSlots (S.state blocks.now).books.geom.layout (length x.bytes) }
        ensures few { IsTrue S.tells → may_read S.tells (S.state blocks.now) self.now → (k : ℕ) (x : FileNode)
            → (nodes (S.state blocks.now) self.now).files k ≡ Some x → length x.bytes + 1024 ≤ 2 ^ 30 }
        ensures zero { (nodes (S.state blocks.now) self.now).files 0 ≡ None }
        ensures none { (k : ℕ) → (S.state blocks.now).books.geom.i < k → (nodes (S.state blocks.now) self.now).files k ≡ None };
}

impl<'a> Nodes for Draft<'a> {
    ghost use Rattle.fs_files.specs.NodeMaps.{nodes_in};
    ghost use Rattle.fs_files.specs.Sound.{IsDraftOf};

    ghost nodes = { λ s d. nodes_in s d };

    ghost may_read = { λ tells s d. IsDraftOf tells s d };

    fn look<S: Blocks>(&self, blocks: &mut S, number: u32) -> Result<Option<FileFacts>, ReadFault> {
        Draft::look(self, blocks, number)
    }

    fn open<S: Blocks>(&self, blocks: &mut S, number: u32) -> Result<Option<OpenFile>, ReadFault> {
        Draft::open(self, blocks, number)
    }

    fn read_block<S: Blocks>(
        &self,
        blocks: &mut S,
        node: &NodeBlocks,
        index: u32,
        into: &mut Block,
    ) -> Result<(), ReadFault> {
        Draft::read_block(self, blocks, node, index, into)
    }

    fn read_at<S: Blocks>(
        &self,
        alloc: Global,
        blocks: &mut S,
        number: u32,
        offset: u64,
        len: u32,
    ) -> Result<Bytes, FileRefusal> {
        Draft::read_at(self, alloc, blocks, number, offset, len)
    }

    fn laws<S: Blocks>(&self, blocks: &S) {
        a_directory_has_whole_slots::<S>();
        a_file_fits_the_disk(blocks);
    }
}
