//! Calls that change the running transaction. They call no disk, so nothing comes to the log, and what is kept of
//! the store stays. How the books change is said by `engine_books`.

ghost use Rattle.std.specs.Prelude.{◌≡◌, ◌≤◌, ◌<◌, ◌+◌, ◌-◌, ◌*◌, ℕ, Bool, true, IsTrue, length, OnOk, OnErr};
ghost use Rattle.disk_contract.specs.Disk.{State};
ghost use Rattle.layout_geometry.specs.Geometry.{table_start, data_start};
ghost use Rattle.layout_bytes.specs.Bitmap.{is_set};
ghost use Rattle.engine_blocks.specs.State.{MayBeTaken, after_put, after_take, after_free, after_weigh};
ghost use Rattle.engine_blocks.specs.Calls.{IsReady, IsWithBlock, IsWithTaken, IsWithFreed};
ghost use Rattle.engine_books.specs.Books.{is_free_now};
ghost use Rattle.engine_store.specs.Store.{StoreIsSound, bookkeeping_of};
ghost use Rattle.engine_store.specs.Told.{IsKeptOn, map_now};

use crate::parts::StoreParts;
use base_types::{Block, Class, NoMemory, Places};
use engine_books::the_map_has_the_bits;
use engine_checkpoint::{taken_blocks_stay_right, taken_blocks_stay_sound};
use std::alloc::Global;

/// Makes memory ready.
///
/// # Errors
/// Out of memory; what was ready before still is.
pub(crate) fn prepare(
    alloc: Global,
    parts: &mut StoreParts,
    puts: u32,
    takes: u32,
    frees: u32,
) -> Result<(), NoMemory>
    requires sound { StoreIsSound parts.old }
    ensures ready { OnOk result (IsReady parts.new.books.spare puts takes frees) }
    ensures failed { OnErr result (parts.new.books.spare ≡ parts.old.books.spare) }
    ensures books { bookkeeping_of parts.new ≡ record (bookkeeping_of parts.old) { spare = parts.new.books.spare } }
    ensures rest { parts.new ≡ record parts.old { books = parts.new.books } }
    ensures keeps { (tells : Bool) (d : State) → IsKeptOn tells parts.old d → IsKeptOn tells parts.new d }
    ensures map { (d : State) → map_now parts.new d ≡ map_now parts.old d }
{
    taken_blocks_stay_right();
    taken_blocks_stay_sound();
    parts.books.prepare(alloc, puts, takes, frees)
}

/// Takes these numbers.
pub(crate) fn take(parts: &mut StoreParts, list: &Places)
    requires sound { StoreIsSound parts.old }
    requires room { length list.now ≤ parts.old.books.spare.takes }
    requires takeable { MayBeTaken parts.old.books.geom (is_free_now parts.old.books) list.now }
    ensures books { bookkeeping_of parts.new ≡ after_take (bookkeeping_of parts.old) list.now }
    ensures rest { parts.new ≡ record parts.old { books = parts.new.books } }
    ensures keeps { (tells : Bool) (d : State) → IsKeptOn tells parts.old d → IsKeptOn tells parts.new d }
    ensures map { (tells : Bool) (d : State) → IsKeptOn tells parts.old d → IsTrue tells
        → IsWithTaken parts.old.books.geom (map_now parts.old d) (map_now parts.new d) list.now }
{
    taken_blocks_stay_right();
    taken_blocks_stay_sound();
    parts.books.take(list)
}

/// Puts these bytes into a block.
pub(crate) fn put(parts: &mut StoreParts, b: u32, from: &Block, class: Class)
    requires sound { StoreIsSound parts.old }
    requires room { 0 < parts.old.books.spare.puts }
    requires from { table_start parts.old.books.geom ≤ b }
    requires below { b < parts.old.books.geom.n }
    ensures books { bookkeeping_of parts.new ≡ after_put (bookkeeping_of parts.old) b class }
    ensures rest { parts.new ≡ record parts.old { books = parts.new.books } }
    ensures keeps { (tells : Bool) (d : State) → IsKeptOn tells parts.old d
        → (IsTrue tells → data_start parts.old.books.geom ≤ b → is_set parts.old.books.geom (map_now parts.old d) b ≡ true)
        → IsKeptOn tells parts.new d }
    ensures map { (tells : Bool) (d : State) → IsKeptOn tells parts.old d → IsTrue tells
        → (data_start parts.old.books.geom ≤ b → is_set parts.old.books.geom (map_now parts.old d) b ≡ true)
        → IsWithBlock (map_now parts.old d) (map_now parts.new d) b from.now }
{
    the_map_has_the_bits();
    parts.books.put(b, from, class)
}

/// Frees a data block.
pub(crate) fn free(parts: &mut StoreParts, b: u32)
    requires sound { StoreIsSound parts.old }
    requires room { 0 < parts.old.books.spare.frees }
    requires from { data_start parts.old.books.geom ≤ b }
    requires below { b < parts.old.books.geom.n }
    ensures books { bookkeeping_of parts.new ≡ after_free (bookkeeping_of parts.old) b }
    ensures rest { parts.new ≡ record parts.old { books = parts.new.books } }
    ensures keeps { (tells : Bool) (d : State) → IsKeptOn tells parts.old d → IsKeptOn tells parts.new d }
    ensures map { (tells : Bool) (d : State) → IsKeptOn tells parts.old d → IsTrue tells
        → IsWithFreed parts.old.books.geom (map_now parts.old d) (map_now parts.new d) b }
{
    taken_blocks_stay_right();
    taken_blocks_stay_sound();
    parts.books.free(b)
}

/// Adds to the weight of the transaction, within the room.
pub(crate) fn weigh(parts: &mut StoreParts, cost: u32)
    requires sound { StoreIsSound parts.old }
    requires fits { parts.old.books.weight + cost ≤ 24 * (parts.old.books.geom.j - 2) }
    ensures books { bookkeeping_of parts.new ≡ after_weigh (bookkeeping_of parts.old) cost }
    ensures rest { parts.new ≡ record parts.old { books = parts.new.books } }
    ensures keeps { (tells : Bool) (d : State) → IsKeptOn tells parts.old d → IsKeptOn tells parts.new d }
    ensures map { (d : State) → map_now parts.new d ≡ map_now parts.old d }
{
    parts.books.weigh(cost)
}
