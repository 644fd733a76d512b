//! Where the newest payload of each block is, by the block's number. Records join with their payloads, their fresh
//! and their freed blocks, and the last of them that names a block decides. What the payloads are isn't known here.

ghost use Rattle.std.specs.Prelude.{◌≡◌, ◌≤◌, ◌<◌, ◌+◌, ◌++◌, ◌==◌, ◌&&◌, ℕ, nat_le, nat_eq, length, slice_get, Some, None, if◌then◌else◌, is_some};
ghost use Rattle.std.specs.Prelude.{OnOk, vec_capacity};
ghost use Rattle.std.specs.List.{list_any};
ghost use Rattle.std.specs.HashMap.{keys, IsUnique};
ghost use Rattle.crash_argument.specs.HomeTest.{is_one_of};
ghost use Rattle.engine_checkpoint.specs.Newest.{spot_of, spot_count, spot_room, spot_after, spot_or, spot_in, has_block, is_upto, IsSpotList};

use base_types::NoMemory;
use engine_running::Put;
use std::alloc::Global;
use std::collections::HashMap;

/// A payload: the number of its record, and its place among the record's payloads.
#[derive(Clone, Copy)]
pub struct Spot {
    pub number: u64,
    pub at: u32,
}

/// The newest payload of each block, in some records.
#[derive(Drop)]
pub struct Newest {
    pub spots: HashMap<u32, Spot>,
}

impl Newest {
    /// Of no records. It takes no memory.
    pub fn new(alloc: Global) -> Newest
        ensures at { (b : ℕ) → spot_of result b ≡ None }
        ensures count { spot_count result ≡ 0 }
    {
        Newest {
            spots: HashMap::new(alloc),
        }
    }

    /// Makes room for so many payloads more.
    ///
    /// # Errors
    /// Out of memory, and there is as much room as before.
    pub fn reserve(&mut self, count: u32) -> Result<(), NoMemory>
        ensures at { (b : ℕ) → spot_of self.new b ≡ spot_of self.old b }
        ensures count { spot_count self.new ≡ spot_count self.old }
        ensures spare { OnOk result (count ≤ spot_room self.new) }
        ensures no_less { spot_room self.old ≤ spot_room self.new }
    {
        self.spots.reserve(count as usize)?;
        Ok(())
    }

    /// Takes a record in: its payloads are the newest, and of the blocks that it wrote fresh or freed there is none.
    /// There must be room for its payloads.
    pub fn add(&mut self, number: u64, payloads: &[Put], fresh: &[u32], freed: &[u32])
        requires room { length payloads.now ≤ spot_room self.old }
        requires small { length payloads.now ≤ 4294967295 }
        ensures at { (b : ℕ) → spot_of self.new b ≡ spot_after (spot_of self.old b) number payloads.now fresh.now freed.now b }
        ensures count { spot_count self.new ≤ spot_count self.old + length payloads.now }
        ensures spare { spot_room self.old ≤ spot_room self.new + length payloads.now }
    {
        self.take_all_out(fresh);
        self.put_all(number, payloads);
        self.take_all_out(freed);
    }

    /// The newest payload of the block.
    pub fn get(&self, block: u32) -> Option<Spot>
        ensures { result ≡ spot_of self.now block }
    {
        self.spots.get(&block).copied()
    }

    /// Drops those of these payloads that are the newest of their blocks up to this record.
    pub fn drop_upto(&mut self, number: u64, payloads: &[Put])
        ensures at { (b : ℕ) → spot_of self.new b ≡ (if has_block b payloads.now && is_upto number (spot_of self.old b) then None else spot_of self.old b) }
        ensures count { spot_count self.new ≤ spot_count self.old }
        ensures spare { spot_room self.old ≤ spot_room self.new }
    {
        for put in payloads {
            self.drop_one(number, put.block);
        }
    }

    /// Drops all, and keeps the room that is spare.
    pub fn clear(&mut self)
        ensures at { (b : ℕ) → spot_of self.new b ≡ None }
        ensures count { spot_count self.new ≡ 0 }
        ensures spare { spot_room self.old ≤ spot_room self.new }
    {
        self.spots.clear();
    }

    /// The blocks that have a newest payload, ascending, in place of what the list had. It must have room for them.
    pub fn blocks(&self, into: &mut Vec<u32>)
        requires room { spot_count self.now ≤ vec_capacity into.old }
        ensures blocks { IsSpotList self.now into.new.items }
        ensures count { length into.new.items ≡ spot_count self.now }
        ensures capacity { vec_capacity into.old ≤ vec_capacity into.new }
    {
        into.clear();
        self.list(into);
        into.sort_unstable();
    }

    fn list(&self, into: &mut Vec<u32>)
        requires room { length into.old.items + spot_count self.now ≤ vec_capacity into.old }
        ensures items { into.new.items ≡ into.old.items ++ keys self.now.spots }
        ensures unique { IsUnique nat_eq self.now.spots }
        ensures has { (b : ℕ) → is_some (spot_of self.now b) ≡ list_any (nat_eq b) (keys self.now.spots) }
        ensures capacity { vec_capacity into.old ≤ vec_capacity into.new }
    {
        for block in self.spots.keys() {
            into.push(*block).unwrap();
        }
    }

    // the first of two payloads of one block counts
    fn put_all(&mut self, number: u64, payloads: &[Put])
        requires room { length payloads.now ≤ spot_room self.old }
        requires small { length payloads.now ≤ 4294967295 }
        ensures at { (b : ℕ) → spot_of self.new b ≡ spot_or (spot_in number 0 payloads.now b) (spot_of self.old b) }
        ensures count { spot_count self.new ≤ spot_count self.old + length payloads.now }
        ensures spare { spot_room self.old ≤ spot_room self.new + length payloads.now }
    {
        for at in (0..payloads.len()).rev() {
            let spot = Spot {
                number,
                at: at as u32,
            };
            self.put(payloads[at].block, spot);
        }
    }

    fn take_all_out(&mut self, blocks: &[u32])
        ensures at { (b : ℕ) → spot_of self.new b ≡ (if is_one_of b blocks.now then None else spot_of self.old b) }
        ensures count { spot_count self.new ≤ spot_count self.old }
        ensures spare { spot_room self.old ≤ spot_room self.new }
    {
        for block in blocks {
            self.take_out(*block);
        }
    }

    fn put(&mut self, block: u32, spot: Spot)
        requires { 0 < spot_room self.old }
        ensures at { (b : ℕ) → spot_of self.new b ≡ (if block == b then Some spot else spot_of self.old b) }
        ensures count { spot_count self.new ≤ spot_count self.old + 1 }
        ensures spare { spot_room self.old ≤ spot_room self.new + 1 }
    {
        let older: Result<_, _> = self.spots.insert(block, spot);
        drop(older.unwrap());
    }

    fn drop_one(&mut self, number: u64, block: u32)
        ensures at { (b : ℕ) → spot_of self.new b ≡ (if block == b && is_upto number (spot_of self.old b) then None else spot_of self.old b) }
        ensures count { spot_count self.new ≤ spot_count self.old }
        ensures spare { spot_room self.old ≤ spot_room self.new }
    {
        if let Some(spot) = self.get(block) {
            if spot.number <= number {
                self.take_out(block);
            }
        }
    }

    fn take_out(&mut self, block: u32)
        ensures at { (b : ℕ) → spot_of self.new b ≡ (if block == b then None else spot_of self.old b) }
        ensures count { spot_count self.new ≤ spot_count self.old }
        ensures spare { spot_room self.old ≤ spot_room self.new }
    {
        drop(self.spots.remove(&block));
    }
}
