//! The opening of a store on a disk: what is read before anything is written, and, as laws, that all is right as the
//! store begins. The empty functions' clauses are the laws. What a mount writes, and in which order, is described by
//! `engine_mount`.

ghost use Rattle.std.specs.Prelude.{◌≡◌, ◌⊎◌, ◌+◌, ◌<◌, ℕ, List, [], length, IsTrue, IfOk, IfErr, OnOk, is_err, vec_capacity, false};
ghost use Rattle.base_types.specs.Seal.{Blocks, blocks_of};
ghost use Rattle.disk_contract.specs.Cell.{accepted, is_lost};
ghost use Rattle.disk_contract.specs.Disk.{State};
ghost use Rattle.layout_geometry.specs.Geometry.{Geometry, bitmap_blocks, bitmap_start};
ghost use Rattle.layout_bitmap.specs.Bits.{is_bad_bit};
ghost use Rattle.layout_journal.specs.declared.header.Header.{Header};
ghost use Rattle.layout_journal.specs.Run.{Newest, live_part, replayed};
ghost use Rattle.engine_recover.specs.Reading.{Searches};
ghost use Rattle.engine_recover.specs.Search.{FoundRun, IsFound};
ghost use Rattle.crash_argument.specs.Ledger.{HoldsUnder, next_number};
ghost use Rattle.crash_argument.specs.Mounting.{HasBegun};
ghost use Rattle.crash_argument.specs.Points.{MountedSession, IsPoint, IsSafe};
ghost use Rattle.engine_mount.specs.Mount.{FoundDisk, IsIdle, IsFoundOn, IsUsedUp, settled_on};
ghost use Rattle.engine_checkpoint.specs.declared.pipeline.Pipeline.{Pipeline};
ghost use Rattle.engine_checkpoint.specs.Advance.{IsRight, IsSound};
ghost use Rattle.engine_books.specs.Books.{TransactionBooks};
ghost use Rattle.engine_books.specs.Point.{BeganAt, HasBitmap};
ghost use Rattle.engine_store.specs.Opening.{AreNewBooks, IsNewPipeline, empty_ring, first_ledger, first_map};
ghost use Rattle.engine_store.specs.Refusal.{HasBadBit, HasNumbersLeft, IsReplayedBitmap, IsSoundBitmap, MayBeMounted, NamesBadBit, RefusalSays};
ghost use Rattle.engine_store.specs.Refusal.{is_faulty, is_unread};
ghost use Rattle.engine_store.specs.declared.refusal.StoreRefusal.TheVariants as refused;

use crate::refusal::{StoreRefusal, refusal_of};
use base_types::limits::BLOCK_LENGTH;
use base_types::{Block, NoMemory};
use crash_argument::{a_read_gives_what_was_written_last, all_issued_is_the_last_point};
use disk_contract::{Disk, DiskFault};
use engine_mount::{Found, find};
use layout_bitmap::check;
use layout_geometry::{Geom, geometries_are_within_limits};
use layout_journal::{an_image_holds_one_map, journal_blocks_keep_to_their_bounds};
use std::alloc::Global;

/// As a session begins, its map is the ledger's where it is live. No write is lost, and what was accepted last in
/// each block is the ledger's map.
pub fn a_session_begins_with_its_map()
    ensures map { (d : State) (g : Geometry) (slot : ℕ) (h : Header) (since : ℕ) (m : Blocks) → HasBegun d g slot h since m
        → m ≡ live_part g (first_map d g slot h) }
    ensures lost { (d : State) (g : Geometry) (slot : ℕ) (h : Header) (since : ℕ) (m : Blocks) → HasBegun d g slot h since m → (b : ℕ)
        → is_lost b d.log ≡ false }
    ensures accepted { (d : State) (g : Geometry) (slot : ℕ) (h : Header) (since : ℕ) (m : Blocks) → HasBegun d g slot h since m → (b : ℕ)
        → accepted d.base d.log b ≡ first_map d g slot h b }
{
    a_read_gives_what_was_written_last();
    all_issued_is_the_last_point();
    an_image_holds_one_map();
}

/// A new pipeline, an empty ring and new books are sound together. Where a session has begun under their header at the
/// first place of the ring, and its map has the books' bitmap, all is right by each session by which the disk is safe;
/// the books' transaction begins at the ledger's map, and the next record is the pipeline's next one.
pub fn a_new_store_is_right()
    ensures right { (s : MountedSession) (d : State) (g : Geometry) (slot : ℕ) (h : Header) (since t floor : ℕ) (m : Blocks) (v : Pipeline)
        (books : TransactionBooks) → HasBegun d g slot h since m → h.at ≡ 0 → IsSafe s d.base d.log (first_ledger d g slot h) t floor
        → IsNewPipeline g slot h v → AreNewBooks g books → HasBitmap books m
        → IsRight s d.base d.log (first_ledger d g slot h) t floor v (empty_ring g) books.dead [] }
    ensures sound { (g : Geometry) (slot : ℕ) (h : Header) (v : Pipeline) (books : TransactionBooks) → IsNewPipeline g slot h v → AreNewBooks g books
        → IsSound v (empty_ring g) books.dead }
    ensures began { (d : State) (g : Geometry) (slot : ℕ) (h : Header) (since : ℕ) (m : Blocks) (books : TransactionBooks)
        → HasBegun d g slot h since m → AreNewBooks g books → HasBitmap books m → BeganAt books (first_map d g slot h) }
    ensures number { (d : State) (g : Geometry) (slot : ℕ) (h : Header) (since : ℕ) (m : Blocks) (v : Pipeline) → HasBegun d g slot h since m
        → IsNewPipeline g slot h v → next_number (first_ledger d g slot h) ≡ v.last + 1 }
{
    all_issued_is_the_last_point();
    an_image_holds_one_map();
}

/// The bitmap that was found on a disk is that of the map that the disk holds, and books with this bitmap have it.
pub fn the_bitmap_that_is_found_is_the_maps()
    ensures has { (d : State) (g : Geometry) (m : Blocks) (r : FoundRun) (books : TransactionBooks) → HoldsUnder d.blocks g (settled_on d) m
        → IsFound d.blocks (settled_on d) r → IsReplayedBitmap r (settled_on d) books.bitmap → books.geom ≡ g → HasBitmap books m }
    ensures geom { (d : State) (g : Geometry) (m : Blocks) (r : FoundRun) → HoldsUnder d.blocks g (settled_on d) m → IsFound d.blocks (settled_on d) r
        → r.header.geom ≡ g }
{
    an_image_holds_one_map();
    geometries_are_within_limits();
    journal_blocks_keep_to_their_bounds();
}

/// Where a disk has numbers left it has a newest header, and they aren't used up; where it may be mounted, no bit is
/// wrong in the bitmap that its run leaves. So what a mount says of a disk by one of its answers, it can't say by
/// another. It does nothing.
pub fn a_mount_has_one_answer()
    ensures header { (d : State) (f : FoundDisk) → HasNumbersLeft d f → ¬ ((slot : ℕ) (h : Header) → ¬ Newest d.blocks (settled_on d) slot h) }
    ensures numbers { (d : State) (f : FoundDisk) → HasNumbersLeft d f → ¬ IsUsedUp d.blocks (settled_on d) }
    ensures bits { (d : State) (b : ℕ) → MayBeMounted d → ¬ HasBadBit d b }
{
    an_image_holds_one_map();
}

/// What was found on a disk before anything is written to it: the run, and the bitmap as it is once the run is
/// replayed, with no bit that is wrong.
#[derive(Drop)]
pub struct FoundStore {
    pub found: Found,
    pub bitmap: Vec<Block>,
}

/// Looks for what is on a disk on which nothing is pending, and checks its bitmap as it will be once the run is
/// replayed. Nothing is written.
///
/// # Errors
/// `NoHeader`, `Spent` and `BadBit` come of what is on the disk, in this order, `ReadFault` of a read that failed, which the disk has
/// counted, and `NoMemory` of want of memory.
pub fn find_store<D: Disk>(alloc: Global, disk: &mut D) -> Result<FoundStore, StoreRefusal>
    ensures found { IsTrue D.tells → IsIdle (D.state disk.old)
        → IfOk result (λ q. IsFoundOn (D.state disk.old) q.found × IsReplayedBitmap q.found.run (settled_on (D.state disk.old)) q.bitmap.items) }
    ensures mountable { IsTrue D.tells → IsIdle (D.state disk.old) → IfOk result (λ q. MayBeMounted (D.state disk.old)) }
    ensures sound { IfOk result (λ q. IsSoundBitmap (D.state disk.old).blocks q.found.run.header.geom q.bitmap.items) }
    ensures refused { IsTrue D.tells → IsIdle (D.state disk.old) → IfErr result (RefusalSays (D.state disk.old) (D.state disk.new)) }
    ensures calm { is_faulty result ≡ false }
    ensures reads { Searches D.tells (is_unread result) (D.state disk.old) (D.state disk.new) }
{
    let found = match find(alloc, disk) {
        Ok(found) => found,
        Err(why) => return Err(refusal_of(why)),
    };
    let geom = found.run().header().geom;
    geom.lawful();
    found.epoch();
    let bitmap = read_bitmap(alloc, disk, &found)?;
    check_bitmap(bitmap.as_slice(), &geom)?;
    Ok(FoundStore { found, bitmap })
}

/// Reads the blocks of the bitmap, as they are once the run that was found is replayed. Nothing is written.
///
/// # Errors
/// `ReadFault` comes of a read that failed, which the disk has counted, and `NoMemory` of want of memory.
pub fn read_bitmap<D: Disk>(
    alloc: Global,
    disk: &mut D,
    found: &Found,
) -> Result<Vec<Block>, StoreRefusal>
    requires { (D.state disk.old).blocks ≡ found.now.run.header.geom.n }
    ensures size { IfOk result (λ bitmap. length bitmap.items ≡ bitmap_blocks found.now.run.header.geom) }
    ensures value { IsTrue D.tells → IsIdle (D.state disk.old)
        → IfOk result (λ bitmap. IsReplayedBitmap found.now.run (settled_on (D.state disk.old)) bitmap.items) }
    ensures refused { IfErr result (λ why. (why ≡ refused.ReadFault) ⊎ (why ≡ refused.NoMemory)) }
    ensures reads { Searches D.tells (is_unread result) (D.state disk.old) (D.state disk.new) }
{
    let geom = found.run().header().geom;
    geom.lawful();
    let start = geom.bitmap_start();
    let count = geom.bitmap_blocks();
    let Ok(mut bitmap) = room_for_blocks(alloc, count) else {
        return Err(StoreRefusal::NoMemory);
    };
    for k in 0..count {
        let Ok(block) = read_block(disk, found, start + k) else {
            return Err(StoreRefusal::ReadFault);
        };
        bitmap.push_reserved(block);
    }
    Ok(bitmap)
}

/// An empty list with room for so many blocks.
///
/// # Errors
/// Out of memory.
fn room_for_blocks(alloc: Global, count: u32) -> Result<Vec<Block>, NoMemory>
    ensures { IfOk result (λ blocks. (blocks.items ≡ []) × (vec_capacity blocks ≡ count)) }
{
    let blocks = Vec::with_capacity(alloc, count as usize)?;
    Ok(blocks)
}

/// A block as it is once the run that was found is replayed.
///
/// # Errors
/// A read failed, which the disk has counted.
fn read_block<D: Disk>(disk: &mut D, found: &Found, b: u32) -> Result<Block, DiskFault>
    requires size { (D.state disk.old).blocks ≡ found.now.run.header.geom.n }
    requires below { b < found.now.run.header.geom.n }
    ensures value { IsTrue D.tells → IsIdle (D.state disk.old)
        → IfOk result (λ block. block ≡ replayed found.now.run.header.geom (settled_on (D.state disk.old)) found.now.run.records b) }
    ensures reads { Searches D.tells (is_err result) (D.state disk.old) (D.state disk.new) }
{
    let mut block: Block = [0; BLOCK_LENGTH];
    found.read(disk, b, &mut block)?;
    Ok(block)
}

/// Checks that the bitmap has no wrong bit: those of the blocks before the data are set, and none past the last block.
///
/// # Errors
/// `BadBit` names the least block whose bit is wrong.
pub fn check_bitmap(bitmap: &[Block], geom: &Geom) -> Result<(), StoreRefusal>
    requires { length bitmap.now ≡ bitmap_blocks geom.now }
    ensures ok { OnOk result ((b : ℕ) → is_bad_bit geom.now (blocks_of bitmap.now) b ≡ false) }
    ensures bad { IfErr result (NamesBadBit geom.now (blocks_of bitmap.now)) }
{
    match check(bitmap, geom) {
        Ok(()) => Ok(()),
        Err(bad) => Err(StoreRefusal::BadBit(bad.block)),
    }
}
