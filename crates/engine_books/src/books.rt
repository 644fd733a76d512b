//! The books of a running transaction: each call of a map of blocks that changes it, and what a commit takes
//! of it. All calls but `new`, `prepare`, `lowest` and `room_for_commit` take no memory. No disk is read or written
//! here.

ghost use Rattle.std.specs.Prelude.{◌≡◌, ◌≢◌, ◌+◌, ◌-◌, ◌*◌, ◌/◌, ◌<◌, ◌≤◌, ◌||◌, ℕ, if◌then◌else◌, true, false, Some, None, length, take, IfOk};
ghost use Rattle.std.specs.Prelude.{OnOk, OnErr, IfSome, All};
ghost use Rattle.base_types.specs.Seal.{Blocks, blocks_of};
ghost use Rattle.base_types.specs.declared.words.Class.TheVariants.{Content};
ghost use Rattle.layout_geometry.specs.Geometry.Area.{Data};
ghost use Rattle.layout_geometry.specs.Geometry.{LiesIn, bitmap_blocks, data_start};
ghost use Rattle.layout_bitmap.specs.Bits.{BitBecomes};
ghost use Rattle.crash_argument.specs.HomeTest.{is_one_of};
ghost use Rattle.engine_running.specs.Commits.{HasRoomForCommit};
ghost use Rattle.engine_running.specs.Running.{Changes, IsEmpty, Puts, bytes_put};
ghost use Rattle.engine_reuse.specs.Dead.{freed_by};
ghost use Rattle.engine_reuse.specs.Calls.{with_bitmap, with_freed, with_released, with_taken};
ghost use Rattle.engine_blocks.specs.Running.{has, payloads, fresh_blocks, nothing_running};
ghost use Rattle.engine_blocks.specs.State.{Bookkeeping, after_put, after_take, after_free, after_weigh, live_blocks, reusable_blocks};
ghost use Rattle.engine_blocks.specs.Calls.{IsReady, IsWithBlock, IsWithTaken, IsWithFreed};
ghost use Rattle.engine_books.specs.Books.{TransactionBooks, bit_now, class_for, is_marked, is_free_now, running_of, with_books, map_of};
ghost use Rattle.engine_books.specs.Kept.{AreKept, HasBits, MayFree, MayPut, MayTake};
ghost use Rattle.engine_books.specs.Point.{BeganAt, HasBitmap, SameButReady};
ghost use Rattle.engine_books.specs.Taking.{TakesOne, GivesUp, bits_put};
ghost use Rattle.engine_books.specs.Sealing.{with_record};

use crate::a_running_transaction_may_be_the_next_record;
use base_types::{Block, Class, NoMemory, Places};
use engine_reuse::{Reuse, a_freed_block_waits, calls_change_what_is_dead, the_accounts_add_up};
use engine_running::{CommitRoom, Running};
use layout_bitmap::{clear, is_set, set};
use layout_geometry::{BITS_IN_BLOCK, Geom};
use std::alloc::Global;
use std::marker::Model;

/// The books of a running transaction.
#[derive(Drop)]
pub struct Books {
    geom: Geom,
    /// The blocks of the bitmap as they are now.
    bitmap: Vec<Block>,
    /// What was put, taken and freed. Each block of the bitmap that was changed is put.
    running: Running,
    reuse: Reuse,
    weight: u32,
    /// How many blocks the transaction took.
    took: u32,
    /// How many data blocks are marked.
    live: u32,
    /// For how many puts, numbers to take, and frees there is room.
    puts: u32,
    takes: u32,
    frees: u32,
}

impl Model for Books {
    ghost use Rattle.engine_books.specs.Books.{TransactionBooks};

    ghost Value = { TransactionBooks };

    ghost view = { λ b. record {
      geom = b.geom;
      bitmap = b.bitmap.items;
      changes = b.running;
      dead = b.reuse;
      weight = b.weight;
      took = b.took;
      live =
          b.live;
      spare = record { puts = b.puts; takes = b.takes; frees = b.frees };
    } };
}

impl Books {
    ghost use Rattle.std.specs.Borrow.{Lends, sem};
    ghost use Rattle.engine_reuse.specs.contracts.reuse.Reuse.{the_row as reuse_row};
    ghost use Rattle.engine_books.specs.contracts.books.Books.{the_row};

    /// The books of a disk whose bitmap has these blocks, with an empty transaction.
    ///
    /// # Errors
    /// Out of memory.
    pub fn new(alloc: Global, geom: &Geom, bitmap: Vec<Block>) -> Result<Books, NoMemory>
        requires { HasBits geom.now bitmap.items }
        ensures kept { IfOk result (λ books. AreKept books) }
        ensures geom { IfOk result (λ books. books.geom ≡ geom.now) }
        ensures bitmap { IfOk result (λ books. books.bitmap ≡ bitmap.items) }
        ensures empty { IfOk result (λ books. IsEmpty books.changes) }
        ensures dead { IfOk result (λ books. books.dead ≡ with_bitmap geom.now (blocks_of bitmap.items)) }
        ensures weight { IfOk result (λ books. (books.weight ≡ 0) × (books.took ≡ 0)) }
        ensures began { IfOk result (λ books. (last : Blocks) → HasBitmap books last → BeganAt books last) }
    {
        calls_change_what_is_dead();
        geom.lawful();
        let reuse = Reuse::new(alloc, geom, bitmap.as_slice())?;
        reuse.lawful();
        let live = geom.n() - geom.data_start() - reuse.reusable();
        let running = Running::new(alloc);
        running.lawful();
        Ok(Books {
            geom: *geom,
            bitmap,
            running,
            reuse,
            weight: 0,
            took: 0,
            live,
            puts: 0,
            takes: 0,
            frees: 0,
        })
    }

    /// The geometry of the disk.
    pub fn geom(&self) -> Geom
        ensures { result ≡ self.now.geom }
    {
        self.geom
    }

    /// Takes these numbers: their bits are set, and what was put for one of them is given up.
    pub fn take(&mut self, list: &Places)
        requires { MayTake list.now self.old }
        ensures kept { AreKept self.new }
        ensures books { (k : Bookkeeping) → with_books k self.new ≡ after_take (with_books k self.old) list.now }
        ensures began { (last : Blocks) → BeganAt self.old last → BeganAt self.new last }
        ensures map { (last : Blocks) → BeganAt self.old last → IsWithTaken self.old.geom (map_of self.old last) (map_of self.new last) list.now }
        ensures dead { self.new.dead ≡ with_taken self.old.dead list.now }
        ensures taken { (b : ℕ) → is_one_of b self.new.changes.taken ≡ (has list.now b || is_one_of b self.old.changes.taken) }
    {
        the_accounts_add_up();
        calls_change_what_is_dead();
        a_freed_block_waits();
        for b in list.as_slice() {
            self.take_one(*b);
        }
        self.reuse.taken(list);
        let count = list.len() as u32;
        self.live += count;
        self.took += count;
        self.takes -= count;
        self.running.lawful();
        self.reuse.lawful();
    }

    /// Puts these bytes into a block of the node table or a data block.
    pub fn put(&mut self, b: u32, from: &Block, class: Class)
        requires { MayPut b self.old }
        ensures kept { AreKept self.new }
        ensures books { (k : Bookkeeping) → with_books k self.new ≡ after_put (with_books k self.old) b class }
        ensures began { (last : Blocks) → (data_start self.old.geom ≤ b → bit_now self.old b ≡ true) → BeganAt self.old last → BeganAt self.new last }
        ensures map { (last : Blocks) → (data_start self.old.geom ≤ b → bit_now self.old b ≡ true)
            → IsWithBlock (map_of self.old last) (map_of self.new last) b from.now }
        ensures dead { self.new.dead ≡ self.old.dead }
        ensures taken { self.new.changes.taken ≡ self.old.changes.taken }
    {
        let class = self.class_for(b, class);
        self.running.put(b, from, class);
        self.puts -= 1;
        self.running.lawful();
    }

    /// Frees a data block: its bit is cleared, and what was put for it is given up. It is held where its bit was
    /// set.
    pub fn free(&mut self, b: u32)
        requires { MayFree b self.old }
        ensures kept { AreKept self.new }
        ensures books { (k : Bookkeeping) → with_books k self.new ≡ after_free (with_books k self.old) b }
        ensures began { (last : Blocks) → BeganAt self.old last → BeganAt self.new last }
        ensures map { (last : Blocks) → BeganAt self.old last → IsWithFreed self.old.geom (map_of self.old last) (map_of self.new last) b }
        ensures dead { self.new.dead ≡ (if bit_now self.old b then with_freed self.old.dead b else self.old.dead) }
        ensures taken { self.new.changes.taken ≡ self.old.changes.taken }
    {
        calls_change_what_is_dead();
        self.give_up(b);
        self.running.lawful();
        self.put_bits(b);
        self.frees -= 1;
        self.running.lawful();
        self.reuse.lawful();
    }

    /// Adds to the weight of the transaction, within the room.
    pub fn weigh(&mut self, cost: u32)
        requires kept { AreKept self.old }
        requires fits { self.old.weight + cost ≤ 24 * (self.old.geom.j - 2) }
        ensures kept { AreKept self.new }
        ensures value { self.new ≡ record self.old { weight = self.old.weight + cost } }
        ensures books { (k : Bookkeeping) → with_books k self.new ≡ after_weigh (with_books k self.old) cost }
        ensures began { (last : Blocks) → BeganAt self.old last → BeganAt self.new last }
        ensures map { (last : Blocks) → map_of self.new last ≡ map_of self.old last }
    {
        self.geom.lawful();
        self.weight += cost;
    }

    /// Makes memory ready for so many calls of `put`, so many numbers to take, and so many calls of `free`. Each
    /// block of the bitmap needs a box once only, and one more is there while it is put again.
    ///
    /// # Errors
    /// Out of memory, as it is for more boxes than 32 bits count; what was ready before still is.
    pub fn prepare(
        &mut self,
        alloc: Global,
        puts: u32,
        takes: u32,
        frees: u32,
    ) -> Result<(), NoMemory>
        requires kept { AreKept self.old }
        ensures kept { AreKept self.new }
        ensures stays { SameButReady self.old self.new }
        ensures began { (last : Blocks) → BeganAt self.old last → BeganAt self.new last }
        ensures ready { OnOk result (IsReady self.new.spare puts takes frees) }
        ensures failed { OnErr result (self.new.spare ≡ self.old.spare) }
    {
        self.geom.lawful();
        let puts = self.puts.max(puts);
        let takes = self.takes.max(takes);
        let frees = self.frees.max(frees);
        let bits = takes
            .saturating_add(frees)
            .min(self.geom.bitmap_blocks() + 1);
        let boxes = match puts.checked_add(bits) {
            Some(boxes) => boxes,
            None => return Err(NoMemory),
        };
        self.running.reserve(alloc, boxes, takes, frees)?;
        self.reuse.reserve(frees)?;
        self.puts = puts;
        self.takes = takes;
        self.frees = frees;
        Ok(())
    }

    /// How many data blocks are marked. This takes one step, as do the numbers below.
    pub fn live(&self) -> u32
        requires { AreKept self.now }
        ensures { (k : Bookkeeping) → result ≡ length (live_blocks (with_books k self.now)) }
    {
        self.live
    }

    /// How many blocks the transaction freed.
    pub fn held(&self) -> u32
        ensures { result ≡ (running_of self.now).held }
    {
        self.reuse.held()
    }

    /// How many blocks wait.
    pub fn waiting(&self) -> u32
        ensures { result ≡ length self.now.dead.waiting }
    {
        self.reuse.waiting()
    }

    /// How many blocks may be taken.
    pub fn reusable(&self) -> u32
        requires { AreKept self.now }
        ensures { (k : Bookkeeping) → result ≡ length (reusable_blocks (with_books k self.now)) }
    {
        self.reuse.reusable()
    }

    /// The weight of the transaction.
    pub fn weight(&self) -> u32
        ensures { result ≡ self.now.weight }
    {
        self.weight
    }

    /// How many payloads and how many fresh blocks a commit would have now.
    pub fn counts(&self) -> (u32, u32)
        requires { AreKept self.now }
        ensures payloads { result.0 ≡ payloads self.now.geom (running_of self.now) }
        ensures fresh { result.1 ≡ fresh_blocks self.now.geom (running_of self.now) }
    {
        self.running.counts()
    }

    /// The bytes that the transaction put for a block, if there are any.
    pub fn block(&self, b: u32) -> Option<&Block>
        ensures some { IfSome result (λ bytes. bytes_put self.now.changes b ≡ Some bytes.now) }
        ensures none { result ≡ None → bytes_put self.now.changes b ≡ None }
    {
        self.running.block(b)
    }

    /// Whether the bit of a block of the disk is set.
    pub fn is_marked(&self, b: u32) -> bool
        requires kept { AreKept self.now }
        requires below { b < self.now.geom.n }
        ensures { result ≡ is_marked self.now b }
    {
        self.geom.lawful();
        is_set(self.bitmap.as_slice(), b)
    }

    /// Puts the `n` least numbers that may be taken into `into`, ascending, in place of what it had. Where there are
    /// fewer, these are all. It only looks.
    ///
    /// # Errors
    /// Out of memory; `into` is as it was.
    pub fn lowest(&self, alloc: Global, n: u32, into: &mut Places) -> Result<(), NoMemory>
        requires { AreKept self.now }
        ensures found { OnOk result ((k : Bookkeeping) → into.new ≡ take n (reusable_blocks (with_books k self.now))) }
        ensures err { OnErr result (into.new ≡ into.old) }
    {
        self.reuse.lowest(alloc, n, into)
    }

    /// The memory for a commit of the transaction as it is now.
    ///
    /// # Errors
    /// Out of memory.
    pub fn room_for_commit(&self, alloc: Global) -> Result<CommitRoom, NoMemory>
        requires { AreKept self.now }
        ensures { IfOk result (HasRoomForCommit self.now.changes) }
    {
        a_running_transaction_may_be_the_next_record();
        self.running.room_for_commit(alloc)
    }

    /// Takes the running transaction out, for its commit. An empty one is in its place until `sealed` or
    /// `give_back`.
    pub fn take_running(&mut self, alloc: Global) -> Running
        ensures running { result ≡ self.old.changes }
        ensures empty { IsEmpty self.new.changes }
        ensures rest { self.new ≡ record self.old { changes = self.new.changes } }
    {
        std::mem::replace(&mut self.running, Running::new(alloc))
    }

    /// Puts a transaction back that was taken out and not committed.
    pub fn give_back(&mut self, running: Running)
        ensures { self.new ≡ record self.old { changes = running } }
    {
        self.running = running;
    }

    /// The transaction that was taken out became the record of this number: the next one is empty, nothing is ready,
    /// and the blocks that it freed wait for the record. No block may wait for a later record yet.
    pub fn sealed(&mut self, number: u64)
        requires empty { IsEmpty self.old.changes }
        requires order { All (λ p. freed_by p ≤ number) self.old.dead.waiting }
        ensures value { self.new ≡ with_record self.old number }
        ensures running { running_of self.new ≡ nothing_running }
        ensures kept { (c : Changes) → AreKept (record self.old { changes = c }) → AreKept self.new }
        ensures began { (m : Blocks) → HasBitmap self.old m → BeganAt self.new m }
    {
        calls_change_what_is_dead();
        self.reuse.sealed(number);
        self.weight = 0;
        self.took = 0;
        self.puts = 0;
        self.takes = 0;
        self.frees = 0;
        self.reuse.lawful();
    }

    /// The records up to `sure` are sure, and to the blocks `going_home` a checkpoint write is open: the blocks that
    /// wait for these records and aren't going home may be taken.
    pub fn released(&mut self, sure: u64, going_home: &[u32])
        ensures value { self.new ≡ record self.old { dead = with_released self.old.dead sure going_home.now } }
        ensures kept { AreKept self.old → AreKept self.new }
        ensures may { (b : ℕ) → AreKept self.old → LiesIn self.old.geom Data b → is_free_now self.old b ≡ true → is_free_now self.new b ≡ true }
        ensures fewer { length self.new.dead.waiting ≤ length self.old.dead.waiting }
        ensures began { (last : Blocks) → BeganAt self.old last → BeganAt self.new last }
    {
        calls_change_what_is_dead();
        self.reuse.released(sure, going_home);
        self.reuse.lawful();
    }

    /// The dead blocks, for a call that moves the pipeline. What the call leaves must keep the books sound, as a
    /// release does.
    pub fn reuse_mut(&mut self) -> &mut Reuse
        ensures* writes_back { sem 𝓛 (Lends the_row reuse_row self.entry result (λ dead. record self.entry.now { dead = dead })) }
        ensures value { result.now ≡ self.old.dead }
    {
        &mut self.reuse
    }

    /// Takes one block, but for the dead blocks and the counts.
    fn take_one(&mut self, b: u32)
        requires size { length self.old.bitmap ≡ bitmap_blocks self.old.geom }
        requires below { b < self.old.geom.n }
        requires puts { 0 < self.old.changes.puts }
        requires takes { 0 < self.old.changes.takes }
        ensures { TakesOne b self.old self.new }
    {
        self.running.lawful();
        write_bit(&mut self.bitmap, b, true);
        self.running.forget(b);
        self.running.took(b);
        self.running.lawful();
        self.put_bits(b);
    }

    /// Gives up a data block: its bit is clear from now on, and nothing is put for it. It is held where its bit
    /// was set.
    fn give_up(&mut self, b: u32)
        requires { MayFree b self.old }
        ensures { GivesUp b self.old self.new }
    {
        self.geom.lawful();
        if !is_set(self.bitmap.as_slice(), b) {
            self.running.forget(b);
            return;
        }
        self.reuse.freed(b);
        self.running.freed(b);
        write_bit(&mut self.bitmap, b, false);
        self.live -= 1;
    }

    /// Puts the block of the bitmap that has the bit of block `b`.
    fn put_bits(&mut self, b: u32)
        requires size { length self.old.bitmap ≡ bitmap_blocks self.old.geom }
        requires below { b < self.old.geom.n }
        requires puts { 0 < self.old.changes.puts }
        ensures puts { Puts false (bits_put self.old b) self.old.changes self.new.changes }
        ensures whole { length (blocks_of self.old.bitmap (b / 8192)) ≡ 1024 }
        ensures rest { self.new ≡ record self.old { changes = self.new.changes } }
    {
        self.geom.lawful();
        let at = b / BITS_IN_BLOCK;
        let block = &self.bitmap[at as usize];
        put_meta(&mut self.running, self.geom.bitmap_start() + at, block);
    }

    /// The class of a put as the running transaction is to have it.
    fn class_for(&self, b: u32, class: Class) -> engine_running::Class
        requires size { length self.now.bitmap ≡ bitmap_blocks self.now.geom }
        requires below { b < self.now.geom.n }
        ensures { result ≡ class_for (bit_now self.now b) class }
    {
        match class {
            Class::Meta => engine_running::Class::Meta,
            Class::Content => self.content_class(b),
        }
    }

    /// The class of a put of content.
    fn content_class(&self, b: u32) -> engine_running::Class
        requires size { length self.now.bitmap ≡ bitmap_blocks self.now.geom }
        requires below { b < self.now.geom.n }
        ensures { result ≡ class_for (bit_now self.now b) Content }
    {
        self.geom.lawful();
        if is_set(self.bitmap.as_slice(), b) {
            engine_running::Class::Content
        } else {
            engine_running::Class::Meta
        }
    }
}

/// Writes the bit of block `b`.
fn write_bit(bitmap: &mut Vec<Block>, b: u32, bit: bool)
    requires { b < 8192 * length bitmap.old.items }
    ensures bits { BitBecomes (blocks_of bitmap.old.items) (blocks_of bitmap.new.items) b bit }
    ensures others { (k : ℕ) → k ≢ b / 8192 → blocks_of bitmap.new.items k ≡ blocks_of bitmap.old.items k }
    ensures size { length bitmap.new.items ≡ length bitmap.old.items }
{
    if bit {
        set(bitmap.as_mut_slice(), b);
    } else {
        clear(bitmap.as_mut_slice(), b);
    }
}

/// Puts a block of the file system's own.
fn put_meta(running: &mut Running, at: u32, block: &Block)
    requires { 0 < running.old.puts }
    ensures puts { Puts false (record { block = at; bytes = block.now }) running.old running.new }
    ensures whole { length block.now ≡ 1024 }
{
    running.put(at, block, engine_running::Class::Meta);
}
