//! The blocks of an image once a run is replayed: for each block, record after record.

ghost use Rattle.std.specs.Prelude.{◌≡◌, ◌+◌, ◌<◌, ◌^◌, ℕ, length, if◌then◌else◌, IfOk, None};
ghost use Rattle.base_types.specs.Seal.{blocks_of};
ghost use Rattle.layout_journal.specs.Run.{payload_from, payload_of, names_block, otherwise, covered_by, replayed};

use crate::image::{block_at, ring_block};
use base_types::{Block, NoMemory};
use crash_record::{Record, names_block};
use layout_geometry::Geom;
use layout_journal::{Entry, unescape};
use std::alloc::Global;

/// All blocks of an image once the records are replayed.
///
/// # Errors
/// Out of memory.
pub(crate) fn replayed(
    alloc: Global,
    image: &[Block],
    geom: Geom,
    run: &[Record],
) -> Result<Vec<Block>, NoMemory>
    requires { length image.now ≡ geom.n }
    ensures count { IfOk result (λ blocks. length blocks.items ≡ geom.n) }
    ensures each { IfOk result (λ blocks. (b : ℕ) → b < geom.n → blocks_of blocks.items b ≡ replayed geom (blocks_of image.now) run.now b) }
{
    let mut blocks = Vec::from_slice(alloc, image)?;
    for number in 0..geom.n() {
        replay_block(image, geom, run, number, &mut blocks[number as usize]);
    }
    Ok(blocks)
}

/// Leaves in `block`, which is the image's block of this number, what the records leave there.
fn replay_block(image: &[Block], geom: Geom, run: &[Record], number: u32, block: &mut Block)
    requires size { length image.now ≡ geom.n }
    requires below { number < geom.n }
    requires same { block.old ≡ blocks_of image.now number }
    ensures { block.new ≡ replayed geom (blocks_of image.now) run.now number }
{
    for each in run {
        replay_record(image, geom, each, number, block);
    }
}

/// Leaves in `block` what one record leaves there: its payload, or the image's own bytes where it names
/// the block as fresh.
fn replay_record(image: &[Block], geom: Geom, each: &Record, number: u32, block: &mut Block)
    requires size { length image.now ≡ geom.n }
    requires below { number < geom.n }
    ensures { block.new ≡ otherwise (payload_of geom (blocks_of image.now) each.now number)
        (if names_block each.now.fresh number then blocks_of image.now number else block.old) }
{
    if names_block(each.fresh(), number) {
        *block = *block_at(image, number);
    }
    let first = each.place() as usize + each.heads();
    replay_payload(image, geom, first, each.payloads(), number, block);
}

/// Leaves in `block` the bytes of its payload, if it has one among these, which stand from this ring
/// place on.
fn replay_payload(
    image: &[Block],
    geom: Geom,
    first: usize,
    payloads: &[Entry],
    number: u32,
    block: &mut Block,
)
    requires size { length image.now ≡ geom.n }
    requires room { first + length payloads.now < 2 ^ 64 }
    ensures { block.new ≡ otherwise (payload_from geom (blocks_of image.now) first payloads.now number) block.old }
{
    for (index, entry) in payloads.iter().enumerate() {
        if entry.block == number {
            unescape(ring_block(image, geom, first + index), entry.kind, block);
            return;
        }
    }
}
