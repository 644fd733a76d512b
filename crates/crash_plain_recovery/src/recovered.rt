//! Recovery of an image: the newest header, the recoverable run under it, and all blocks once the run
//! is replayed, of which the live ones are the recovered blocks.

ghost use Rattle.std.specs.Prelude.{◌≡◌, ◌<◌, ℕ, length, IfOk, IfSome, None, option_copied, if◌then◌else◌, Some};
ghost use Rattle.base_types.specs.Seal.{Blocks, blocks_of};
ghost use Rattle.layout_bytes.specs.Bitmap.{is_set};
ghost use Rattle.layout_journal.specs.Run.{is_live, HeldIs};
ghost use Rattle.crash_plain_recovery.specs.Recovery.{IsRecovery};

use crate::newest::newest_header;
use crate::replay::replayed;
use crate::run::recoverable_run;
use base_types::{Block, NoMemory};
use crash_record::RecordList;
use layout_geometry::{BITS_IN_BLOCK, Geom};
use layout_journal::Header;
use std::alloc::Global;
use std::marker::Model;

/// What recovery finds in an image.
#[derive(Drop)]
pub struct Recovered {
    slot: u32,
    header: Header,
    run: RecordList,
    blocks: Vec<Block>,
}

impl Model for Recovered {
    ghost use Rattle.std.specs.Prelude.{◌≡◌, length};
    ghost use Rattle.crash_plain_recovery.specs.Recovery.{Recovery};

    ghost Value = { Recovery };

    ghost view = { λ r. record { slot = r.slot; header = r.header; run = r.run; blocks = r.blocks.items } };

    ghost invariant = { λ r. length r.blocks.items ≡ r.header.geom.n };
}

impl Recovered {
    /// The slot of the newest header.
    pub fn slot(&self) -> u32
        ensures { result ≡ self.now.slot }
    {
        self.slot
    }

    /// The newest header.
    pub fn header(&self) -> Header
        ensures { result ≡ self.now.header }
    {
        self.header
    }

    /// The recoverable run.
    pub fn run(&self) -> &RecordList
        ensures { result.now ≡ self.now.run }
    {
        &self.run
    }

    /// The bytes of a recovered block: `None` exactly where the block isn't live.
    pub fn block(&self, number: u32) -> Option<&Block>
        ensures { option_copied result ≡ (if is_live self.now.header.geom (blocks_of self.now.blocks) number then Some
            (blocks_of self.now.blocks number) else None) }
    {
        if !is_live(self.header.geom, self.blocks.as_slice(), number) {
            return None;
        }
        Some(&self.blocks[number as usize])
    }
}

/// What recovery finds in the image, or `None` exactly where it holds no recovered blocks, since neither
/// slot has a header.
///
/// # Errors
/// Out of memory.
pub fn recover(alloc: Global, image: &[Block]) -> Result<Option<Recovered>, NoMemory>
    ensures found { IfOk result (λ found. IfSome found (IsRecovery (length image.now) (blocks_of image.now))) }
    ensures missing { IfOk result (λ found. found ≡ None → (m : Blocks) → ¬ HeldIs (length image.now) (blocks_of image.now) m) }
{
    let Some((slot, header)) = newest_header(image) else {
        return Ok(None);
    };
    header.geom.lawful();
    let run = recoverable_run(alloc, image, &header)?;
    let blocks = replayed(alloc, image, header.geom, run.as_slice())?;
    Ok(Some(Recovered {
        slot,
        header,
        run,
        blocks,
    }))
}

/// Whether a block is of the bitmap, of the node table, or a data block that the bitmap marks.
fn is_live(geom: Geom, blocks: &[Block], number: u32) -> bool
    requires { length blocks.now ≡ geom.n }
    ensures { result ≡ is_live geom (blocks_of blocks.now) number }
{
    if number < geom.bitmap_start() {
        return false;
    }
    if number >= geom.n() {
        return false;
    }
    if number < geom.data_start() {
        return true;
    }
    is_set(geom, blocks, number)
}

fn is_set(geom: Geom, blocks: &[Block], number: u32) -> bool
    requires size { length blocks.now ≡ geom.n }
    requires below { number < geom.n }
    ensures { result ≡ is_set geom (blocks_of blocks.now) number }
{
    geom.lawful();
    let block = &blocks[(geom.bitmap_start() + number / BITS_IN_BLOCK) as usize];
    let byte = block[(number % BITS_IN_BLOCK / 8) as usize];
    (byte >> (number % 8)) & 1 == 1
}
