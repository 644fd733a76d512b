//! The content of a node as a draft has it: reading bytes out of its blocks, and writing bytes within
//! them, a block at a time. No call here grows a node.

ghost use Rattle.std.specs.Prelude.{◌≡◌, ◌↔◌, ◌≤◌, ◌<◌, ◌*◌, ◌+◌, ◌-◌, ◌/◌, ◌%◌, ◌++◌, ◌∷◌, [], min, false, IsTrue, IsSome, IfSome, IfErr, OnOk};
ghost use Rattle.std.specs.Prelude.{Some, length, take, drop, slice_get};
ghost use Rattle.std.specs.List.{All};
ghost use Rattle.engine_blocks.specs.Puts.{IsData};
ghost use Rattle.crash_stands.specs.Files.{joined};
ghost use Rattle.fs_files.specs.Bytes.{met, overwrite};
ghost use Rattle.fs_files.specs.Calls.{LookRefused};
ghost use Rattle.fs_files.specs.Content.{HasContent, HasNewBytes, WritesContent, fails_reading};
ghost use Rattle.fs_files.specs.Drafts.{drafted};
ghost use Rattle.fs_files.specs.Effects.{LooksOnly};

use crate::FileRefusal;
use crate::draft::{Draft, ZEROS};
use base_types::limits::BLOCK_LENGTH;
use base_types::{Block, Class, NoMemory};
use engine_blocks::Blocks;
use layout_extent::Runs;
use std::alloc::Global;

/// Appends to `into` the bytes from `from` to `end`, which isn't one of them, of these blocks.
///
/// # Errors
/// A read of the disk failed, which the disk has counted; or out of memory.
pub(crate) fn read_content<S: Blocks>(
    draft: &Draft,
    blocks: &mut S,
    places: &Runs,
    from: u64,
    end: u64,
    into: &mut Vec<u8>,
) -> Result<(), FileRefusal>
    requires going { (S.state blocks.old).books.stopped ≡ false }
    requires data { All (IsData (S.state blocks.old).books.geom) places.now }
    requires order { from ≤ end }
    requires within { end ≤ 1024 * length places.now }
    ensures bytes { IsTrue S.tells → HasContent (S.state blocks.old).map draft.now places.now
        → OnOk result (into.new.items ≡ into.old.items ++ take (end - from)
        (drop from (joined (drafted draft.now (S.state blocks.old).map) places.now))) }
    ensures refused { IfErr result LookRefused }
    ensures looks { LooksOnly S.tells (fails_reading result) (S.state blocks.old) (S.state blocks.new) }
{
    into.reserve((end - from) as usize)?;
    let mut block = ZEROS;
    let mut at = from;
    while at < end {
        let start = (at % BLOCK_LENGTH as u64) as usize;
        let count = piece_length(start, end - at);
        let place = place_of(places, at);
        draft.read(blocks, place, &mut block)?;
        append_part(into, &block, start, count)?;
        at += count as u64;
    }
    Ok(())
}

/// The block in which byte `at` of these blocks lies.
fn place_of(places: &Runs, at: u64) -> u32
    requires { at < 1024 * length places.now }
    ensures { slice_get places.now (at / 1024) ≡ Some result }
{
    let _ = places.count();
    places.place((at / BLOCK_LENGTH as u64) as u32)
}

/// How many of `left` bytes lie in a block from its byte `start` on.
fn piece_length(start: usize, left: u64) -> usize
    requires { start < 1024 }
    ensures { result ≡ min (1024 - start) left }
{
    left.min((BLOCK_LENGTH - start) as u64) as usize
}

/// Appends `count` bytes of a block from its byte `start` on.
///
/// # Errors
/// Out of memory.
fn append_part(
    into: &mut Vec<u8>,
    block: &Block,
    start: usize,
    count: usize,
) -> Result<(), NoMemory>
    requires { start + count ≤ 1024 }
    ensures { OnOk result (into.new.items ≡ into.old.items ++ take count (drop start block.now)) }
{
    into.extend_from_slice(&block[start..start + count])?;
    Ok(())
}

/// Writes these bytes over those from `from` on of these blocks, within them. A block all of whose bytes
/// are written isn't read.
///
/// # Errors
/// A read of the disk failed, which the disk has counted; or out of memory. The draft isn't to be used
/// any more then.
pub(crate) fn write_content<S: Blocks>(
    draft: &mut Draft,
    alloc: Global,
    blocks: &mut S,
    places: &Runs,
    class: Class,
    from: u64,
    bytes: &[u8],
) -> Result<(), FileRefusal>
    requires going { (S.state blocks.old).books.stopped ≡ false }
    requires data { All (IsData (S.state blocks.old).books.geom) places.now }
    requires within { from + length bytes.now ≤ 1024 * length places.now }
    ensures writes { OnOk result (WritesContent class (met from (from + length bytes.now) places.now) draft.old draft.new) }
    ensures some { OnOk result (0 < length bytes.now → HasNewBytes draft.new) }
    ensures content { IsTrue S.tells → HasContent (S.state blocks.old).map draft.old places.now
        → OnOk result (HasContent (S.state blocks.old).map draft.new places.now) }
    ensures bytes { IsTrue S.tells → HasContent (S.state blocks.old).map draft.old places.now
        → OnOk result (joined (drafted draft.new (S.state blocks.old).map) places.now ≡ overwrite from bytes.now
        (joined (drafted draft.old (S.state blocks.old).map) places.now)) }
    ensures refused { IfErr result LookRefused }
    ensures unread { from % 1024 ≡ 0 → length bytes.now % 1024 ≡ 0 → fails_reading result ≡ false }
    ensures looks { LooksOnly S.tells (fails_reading result) (S.state blocks.old) (S.state blocks.new) }
{
    // There are too few places for the number of a byte to overflow.
    let _ = places.count();
    let mut block = ZEROS;
    let mut done = 0;
    while done < bytes.len() {
        let at = from + done as u64;
        let start = (at % BLOCK_LENGTH as u64) as usize;
        let count = piece_length(start, (bytes.len() - done) as u64);
        let place = place_of(places, at);
        let piece = &bytes[done..done + count];
        write_piece(draft, alloc, blocks, place, class, start, piece, &mut block)?;
        done += count;
    }
    Ok(())
}

/// Writes a piece over the bytes from `start` on of block `b`, a data block. `block` is room for it. A
/// piece that is the whole block is put as it is, and nothing is read.
///
/// # Errors
/// A read of the disk failed, which the disk has counted; or out of memory.
fn write_piece<S: Blocks>(
    draft: &mut Draft,
    alloc: Global,
    blocks: &mut S,
    b: u32,
    class: Class,
    start: usize,
    piece: &[u8],
    block: &mut Block,
) -> Result<(), FileRefusal>
    requires going { (S.state blocks.old).books.stopped ≡ false }
    requires place { IsData (S.state blocks.old).books.geom b }
    requires within { start + length piece.now ≤ 1024 }
    ensures writes { OnOk result (WritesContent class (b ∷ []) draft.old draft.new) }
    ensures some { OnOk result (HasNewBytes draft.new) }
    ensures bytes { IsTrue S.tells → HasContent (S.state blocks.old).map draft.old (b ∷ [])
        → OnOk result (drafted draft.new (S.state blocks.old).map b ≡ overwrite start piece.now (drafted draft.old (S.state blocks.old).map b)) }
    ensures refused { IfErr result LookRefused }
    ensures unread { length piece.now ≡ 1024 → fails_reading result ≡ false }
    ensures looks { LooksOnly S.tells (fails_reading result) (S.state blocks.old) (S.state blocks.new) }
{
    match whole_block(piece) {
        Some(whole) => {
            draft.put(alloc, b, class, whole)?;
            Ok(())
        }
        None => {
            draft.read(blocks, b, block)?;
            copy_over(block, start, piece);
            draft.put(alloc, b, class, block)?;
            Ok(())
        }
    }
}

/// A piece as a block, where it has the bytes of a whole one.
fn whole_block(piece: &[u8]) -> Option<&Block>
    ensures bytes { IfSome result (λ whole. whole.now ≡ piece.now) }
    ensures exact { IsSome result ↔ (length piece.now ≡ 1024) }
{
    <&Block>::try_from(piece).ok()
}

/// Writes a piece over the bytes of a block from its byte `start` on.
fn copy_over(block: &mut Block, start: usize, piece: &[u8])
    requires { start + length piece.now ≤ 1024 }
    ensures { block.new ≡ overwrite start piece.now block.old }
{
    block[start..start + piece.len()].copy_from_slice(piece);
}
