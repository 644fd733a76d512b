//! Reading where the bytes of a node, or the list of its blocks, are given: what reads nodes that aren't in the
//! node table of the map, as those that a snapshot keeps. Which bytes and blocks these are is known above; no
//! draft has them.

ghost use Rattle.std.specs.Prelude.{◌≡◌, ◌≢◌, ◌≤◌, ◌<◌, ◌+◌, ◌*◌, ◌^◌, ℕ, false, IsTrue, is_err, List, length, take, drop, slice_get};
ghost use Rattle.std.specs.Prelude.{Some, IfOk, IfErr, IfSome, OnOk, option_map};
ghost use Rattle.std.specs.List.{All, AllPairs};
ghost use Rattle.base_types.specs.Layouts.{node_size};
ghost use Rattle.layout_bytes.specs.Node.{node_of};
ghost use Rattle.engine_blocks.specs.Puts.{IsData};
ghost use Rattle.crash_stands.specs.Files.{FileNode, joined};
ghost use Rattle.fs_files.specs.Calls.{block_bytes, LookRefused};
ghost use Rattle.fs_files.specs.Content.{fails_reading};
ghost use Rattle.fs_files.specs.Effects.{LooksOnly};
ghost use Rattle.fs_files.specs.Given.{node_of_file, parts_of};
ghost use Rattle.fs_files.specs.Nodes.{IsOpen};

use crate::FileRefusal;
use crate::content::read_content;
use crate::draft::Draft;
use crate::look::FileFacts;
use crate::node_blocks::{NodeBlocks, OpenFile};
use crate::nodes::open_node;
use base_types::limits::BLOCK_LENGTH;
use base_types::{Block, Bytes, ReadFault};
use engine_blocks::Blocks;
use layout_geometry::Geom;
use std::alloc::Global;

/// The node in use that is in these bytes, as many as a node has, with its blocks. `None` where they are those of none.
pub fn node_in(bytes: &[u8], geom: &Geom) -> Option<OpenFile>
    requires { length bytes.now ≡ node_size geom.now.layout }
    ensures node { option_map (node_of_file geom.now.layout) result ≡ node_of geom.now bytes.now }
    ensures open { IfSome result (λ f. IsOpen geom.now (parts_of f)) }
{
    let node = open_node(bytes, geom)?;
    Some(OpenFile {
        facts: FileFacts {
            kind: node.kind,
            links: node.links,
            size: node.size,
        },
        blocks: NodeBlocks {
            places: node.places,
        },
    })
}

impl NodeBlocks {
    /// How many blocks there are.
    pub fn count(&self) -> u32
        ensures value { result ≡ length self.now }
        ensures most { result ≤ 62914560 }
    {
        self.places.count()
    }

    /// The block at this place, the first of which is 0. There must be one.
    pub fn place(&self, i: u32) -> u32
        requires { i < length self.now }
        ensures { slice_get self.now i ≡ Some result }
    {
        self.places.place(i)
    }
}

/// Reads the block at a place of these, from 0 on, as the map has it: where the blocks are whole it begins with
/// the bytes that a file in them has there, and nothing is said of what lies behind those. Where there is no such
/// block, `into` stays.
///
/// # Errors
/// A read of the disk failed, which the disk has counted.
pub fn read_block_at<S: Blocks>(
    blocks: &mut S,
    places: &NodeBlocks,
    index: u32,
    into: &mut Block,
) -> Result<(), ReadFault>
    requires going { (S.state blocks.old).books.stopped ≡ false }
    requires data { All (IsData (S.state blocks.old).books.geom) places.now }
    ensures block { IsTrue S.tells → OnOk result ((b : ℕ) → slice_get places.now index ≡ Some b → length ((S.state blocks.old).map b) ≡ 1024
        → into.new ≡ (S.state blocks.old).map b) }
    ensures bytes { IsTrue S.tells → All (λ b. length ((S.state blocks.old).map b) ≡ 1024) places.now
        → OnOk result ((size : ℕ) (x : FileNode) → x.bytes ≡ take size (joined (S.state blocks.old).map places.now)
        → take (length (block_bytes x index)) into.new ≡ block_bytes x index) }
    ensures past { length places.now ≤ index → into.new ≡ into.old }
    ensures looks { LooksOnly S.tells (is_err result) (S.state blocks.old) (S.state blocks.new) }
{
    if places.count() <= index {
        return Ok(());
    }
    read_data(blocks, places.place(index), into)?;
    Ok(())
}

/// Reads a data block as the map has it, where it is a whole one there.
///
/// # Errors
/// A read of the disk failed, which the disk has counted.
fn read_data<S: Blocks>(blocks: &mut S, b: u32, into: &mut Block) -> Result<(), ReadFault>
    requires going { (S.state blocks.old).books.stopped ≡ false }
    requires place { IsData (S.state blocks.old).books.geom b }
    ensures block { IsTrue S.tells → length ((S.state blocks.old).map b) ≡ 1024 → OnOk result (into.new ≡ (S.state blocks.old).map b) }
    ensures looks { LooksOnly S.tells (is_err result) (S.state blocks.old) (S.state blocks.new) }
{
    blocks.get(b, into)
}

/// The bytes from `offset` on, at most `len`, of a file that has the first `size` bytes of these blocks as the map
/// has them; fewer where it ends before.
///
/// # Errors
/// A read of the disk failed, which the disk has counted; or out of memory.
pub fn read_bytes<S: Blocks>(
    alloc: Global,
    blocks: &mut S,
    places: &NodeBlocks,
    size: u64,
    offset: u64,
    len: u32,
) -> Result<Bytes, FileRefusal>
    requires going { (S.state blocks.old).books.stopped ≡ false }
    requires data { All (IsData (S.state blocks.old).books.geom) places.now }
    ensures bytes { IsTrue S.tells → All (λ b. length ((S.state blocks.old).map b) ≡ 1024) places.now → AllPairs (λ a b. a ≢ b) places.now
        → IfOk result (λ bytes. bytes ≡ take len (drop offset (take size (joined (S.state blocks.old).map places.now)))) }
    ensures refused { IfErr result LookRefused }
    ensures looks { LooksOnly S.tells (fails_reading result) (S.state blocks.old) (S.state blocks.new) }
{
    let held = size.min(BLOCK_LENGTH as u64 * u64::from(places.count()));
    let from = offset.min(held);
    let end = held.min(from + u64::from(len));
    let draft = Draft::new(alloc);
    let mut bytes = Vec::new(alloc);
    read_content(&draft, blocks, &places.places, from, end, &mut bytes)?;
    Ok(Bytes::from_vec(bytes))
}

/// Does nothing. A proof learns from the call that data blocks of which no two are the same have fewer than 2^30
/// bytes.
pub fn different_blocks_are_few<S: Blocks>(blocks: &S)
    ensures { (places : List ℕ) → All (IsData (S.state blocks.now).books.geom) places → AllPairs (λ a b. a ≢ b) places
        → 1024 * length places + 1024 ≤ 2 ^ 30 }
{
    blocks.geom().lawful();
}
