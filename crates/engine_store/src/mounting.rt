//! The parts of a store on a disk that is mounted: what is found is checked, all memory is taken, and then the
//! journal is opened under a new epoch. What a mount writes is described by `engine_mount`.

ghost use Rattle.std.specs.Prelude.{◌≡◌, ◌<◌, ◌≤◌, ◌+◌, ℕ, true, IsTrue, IfOk, IfErr, length};
ghost use Rattle.disk_contract.specs.Disk.{HasFailed, writes_in};
ghost use Rattle.base_types.specs.Seal.{Blocks};
ghost use Rattle.disk_contract.specs.Crash.{Window};
ghost use Rattle.engine_cache.specs.Cache.{empty_cache};
ghost use Rattle.layout_geometry.specs.Geometry.{Geometry};
ghost use Rattle.crash_argument.specs.Ledger.{HoldsUnder};
ghost use Rattle.crash_argument.specs.Opening.{WritesOnce};
ghost use Rattle.engine_mount.specs.Mount.{HasNothingToReplay, IsIdle, MountSpends, settled_on};
ghost use Rattle.engine_blocks.specs.Crashes.{IsBegun};
ghost use Rattle.engine_store.specs.Mounting.{AreNewParts, BeginsWith, GoesOnFrom, HasOpened};
ghost use Rattle.engine_store.specs.Opening.{AreNewBooks};
ghost use Rattle.engine_store.specs.Refusal.{MayBeMounted, RefusalSays, is_faulty, is_unread};
ghost use Rattle.engine_store.specs.Told.{IsKeptOn, store_state};

use crate::opening::{
    FoundStore, a_new_store_is_right, a_session_begins_with_its_map, find_store,
    the_bitmap_that_is_found_is_the_maps,
};
use crate::parts::StoreParts;
use crate::refusal::{StoreRefusal, refusal_of};
use crash_argument::{a_call_begins_safe, an_idle_disk_holds_what_is_settled};
use disk_contract::Disk;
use engine_books::Books;
use engine_cache::{BlockCache, a_new_cache_agrees};
use engine_checkpoint::Pipeline;
use engine_mount::{Mounted, open};
use layout_geometry::Geom;
use layout_journal::{Ring, an_image_holds_one_map};
use std::alloc::Global;

/// Mounts a disk on which nothing is pending, with a cache of at most so many blocks: the session begins with the map
/// that the disk held, and each honest image since the call began holds it, whatever comes of the call.
///
/// # Errors
/// `NoHeader`, `Spent` and `BadBit` come of what is on the disk, in this order, and `NoMemory` of want of memory:
/// nothing is written then. `ReadFault` and `DiskFault` come of a call that failed, which the disk has counted.
pub(crate) fn open_parts<D: Disk>(
    alloc: Global,
    disk: &mut D,
    capacity: u32,
) -> Result<StoreParts, StoreRefusal>
    requires some { 0 < capacity }
    requires most { capacity ≤ 65536 }
    requires idle { IsTrue D.tells → IsIdle (D.state disk.old) }
    ensures kept { IfOk result (λ v. IsKeptOn D.tells v (D.state disk.new)) }
    ensures begun { IfOk result (λ v. (ticks : ℕ) → IsBegun (store_state v ticks (D.state disk.new))) }
    ensures begins { IsTrue D.tells → (g : Geometry) (m : Blocks) → HoldsUnder (D.state disk.old).blocks g (settled_on (D.state disk.old)) m
        → IfOk result (λ v. (ticks : ℕ) → BeginsWith g m (store_state v ticks (D.state disk.new))) }
    ensures holds { IsTrue D.tells → (g : Geometry) (m : Blocks) → HoldsUnder (D.state disk.old).blocks g (settled_on (D.state disk.old)) m
        → Window (D.state disk.old).blocks (D.state disk.old).base (D.state disk.new).log (length (D.state disk.old).log)
        (λ img. HoldsUnder (D.state disk.old).blocks g img m) }
    ensures mountable { IsTrue D.tells → IfOk result (λ v. MayBeMounted (D.state disk.old)) }
    ensures refused { IsTrue D.tells → IfErr result (RefusalSays (D.state disk.old) (D.state disk.new)) }
    ensures spends { MountSpends (is_unread result) (is_faulty result) ((D.state disk.old).blocks + 2) (D.state disk.old) (D.state disk.new) }
    ensures cause { IsTrue D.tells → is_faulty result ≡ true → HasFailed (D.state disk.new) }
    ensures written { IsTrue D.tells → writes_in (D.state disk.new).log ≤ writes_in (D.state disk.old).log + ((D.state disk.old).blocks + 2) }
    ensures numbers { IsTrue D.tells → IfOk result (λ v. (ticks : ℕ) → GoesOnFrom (D.state disk.old) (store_state v ticks (D.state disk.new))) }
    ensures opens { IsTrue D.tells → IfOk result (λ v. (ticks : ℕ) → HasOpened (D.state disk.old) (store_state v ticks (D.state disk.new))) }
    ensures alone { IsTrue D.tells → HasNothingToReplay (D.state disk.old)
        → WritesOnce (D.state disk.old).manner result (D.state disk.old).log (D.state disk.new).log }
{
    a_session_begins_with_its_map();
    a_new_store_is_right();
    the_bitmap_that_is_found_is_the_maps();
    an_idle_disk_holds_what_is_settled();
    a_call_begins_safe();
    a_new_cache_agrees();
    an_image_holds_one_map();
    let FoundStore { found, bitmap } = find_store(alloc, disk)?;
    let geom = found.run().header().geom;
    let Ok(books) = Books::new(alloc, &geom, bitmap) else {
        return Err(StoreRefusal::NoMemory);
    };
    let Ok(cache) = BlockCache::new(alloc, capacity) else {
        return Err(StoreRefusal::NoMemory);
    };
    let mounted = match open(disk, &found) {
        Ok(mounted) => mounted,
        Err(why) => return Err(refusal_of(why)),
    };
    disk.lawful();
    let moment = disk.moment();
    Ok(new_parts(alloc, &geom, &mounted, books, cache, moment))
}

/// The parts of a store under the header of a mount, after so many events of the disk, with new books and an empty
/// cache.
fn new_parts(
    alloc: Global,
    geom: &Geom,
    mounted: &Mounted,
    books: Books,
    cache: BlockCache,
    moment: u64,
) -> StoreParts
    requires released { mounted.now.header.start ≡ mounted.now.header.sure + 1 }
    requires books { AreNewBooks geom.now books }
    requires weight { books.weight ≡ 0 }
    requires cache { cache ≡ empty_cache cache.capacity }
    ensures parts { AreNewParts geom.now mounted.now.slot mounted.now.header moment result }
    ensures books { result.books ≡ books }
{
    StoreParts {
        ring: Ring::new(geom),
        pipeline: Pipeline::new(alloc, geom, &mounted.header, mounted.slot),
        books,
        cache,
        mounted: moment,
        first: mounted.header.start,
        point: 0,
        floor: 0,
        stopped: false,
    }
}
