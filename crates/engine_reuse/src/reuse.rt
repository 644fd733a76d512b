//! The dead data blocks: those that may be taken, those that the running transaction freed, and those that
//! earlier records freed and that wait. The live ones are the bitmap's matter, and what is in a block isn't known
//! here. Only `new`, `reserve` and `lowest` take memory.

ghost use Rattle.std.specs.Prelude.{◌≡◌, ◌+◌, ◌<◌, ◌≤◌, ℕ, true, false, List, length, take, max, slice_get, Some, IfOk, OnOk, OnErr, All};
ghost use Rattle.base_types.specs.Seal.{blocks_of};
ghost use Rattle.layout_geometry.specs.Geometry.{bitmap_blocks};
ghost use Rattle.layout_bitmap.specs.Bits.{free_blocks};
ghost use Rattle.engine_reuse.specs.Dead.{AreSound, IsLive, IsReusable, freed_by};
ghost use Rattle.engine_reuse.specs.Calls.{with_bitmap, with_freed, with_sealed, with_released, with_taken};

use crate::numbers::Numbers;
use crate::waiting::{Freed, add_waiting, give_up, reached};
use base_types::{Block, NoMemory, Places};
use layout_bitmap::is_set;
use layout_geometry::Geom;
use std::alloc::Global;
use std::collections::VecDeque;
use std::marker::Model;

/// Which data blocks may be taken, and which may be taken again later.
///
/// A block that was freed is held until its transaction becomes a record. Then it waits until that record is
/// sure and no checkpoint write to the block is open, and then it may be taken again.
#[derive(Drop)]
pub struct Reuse {
    geom: Geom,
    /// The blocks that may be taken.
    reusable: Numbers,
    /// The blocks that the running transaction freed.
    held: Vec<u32>,
    /// The blocks that wait, in the order of the records that freed them.
    waiting: VecDeque<Freed>,
    /// For how many more frees there is room.
    room: u32,
    /// The blocks that are going home, while `released` asks for them. Between calls there are none.
    going_home: Numbers,
}

impl Model for Reuse {
    ghost use Rattle.std.specs.Prelude.{◌+◌, ◌≤◌, vec_len, vec_capacity};
    ghost use Rattle.std.specs.VecDeque.{deque_len, deque_capacity};
    ghost use Rattle.engine_reuse.specs.Dead.{DeadBlocks};
    ghost use Rattle.engine_reuse.specs.Inside.{dead_of, AreKept};

    ghost Value = { DeadBlocks };

    ghost view = { λ r. dead_of r.geom r.reusable r.held.items r.waiting.items r.room };

    ghost invariant = { λ r. AreKept (dead_of r.geom r.reusable r.held.items r.waiting.items r.room) r.reusable r.going_home
        × (vec_len r.held + r.room ≤ vec_capacity r.held)
        × (deque_len r.waiting + vec_len r.held + r.room ≤ deque_capacity r.waiting) };
}

impl Reuse {
    /// The free blocks of a bitmap may be taken; no block is held and none waits. This looks once at each data
    /// block.
    ///
    /// # Errors
    /// Out of memory.
    pub fn new(alloc: Global, geom: &Geom, bitmap: &[Block]) -> Result<Reuse, NoMemory>
        requires { length bitmap.now ≡ bitmap_blocks geom.now }
        ensures { IfOk result (λ reuse. reuse ≡ with_bitmap geom.now (blocks_of bitmap.now)) }
    {
        geom.lawful();
        let reusable = free_numbers(alloc, geom, bitmap)?;
        let going_home = Numbers::new(alloc, geom.n())?;
        Ok(Reuse {
            geom: *geom,
            reusable,
            held: Vec::new(alloc),
            waiting: VecDeque::new(alloc),
            room: 0,
            going_home,
        })
    }

    /// Does nothing. A proof learns from the call that the dead blocks are sound.
    pub fn lawful(&self)
        ensures { AreSound self.now }
    {
        let _ = &self.room;
    }

    /// How many blocks may be taken. This takes one step.
    pub fn reusable(&self) -> u32
        ensures { result ≡ length self.now.reusable }
    {
        self.reusable.len()
    }

    /// How many blocks the running transaction freed. This takes one step.
    pub fn held(&self) -> u32
        ensures { result ≡ length self.now.held }
    {
        self.geom.lawful();
        self.held.len() as u32
    }

    /// How many blocks wait. This takes one step.
    pub fn waiting(&self) -> u32
        ensures { result ≡ length self.now.waiting }
    {
        self.geom.lawful();
        self.waiting.len() as u32
    }

    /// How many blocks may be taken once none waits any more. This takes one step.
    pub fn left(&self) -> u32
        ensures { result ≡ length self.now.reusable + length self.now.waiting }
    {
        self.geom.lawful();
        self.reusable.len() + self.waiting.len() as u32
    }

    /// Puts the `n` least blocks that may be taken into `into`, ascending, in place of what it had. Where there are
    /// fewer, these are all. This takes a few steps for each of them, and one for each 4,096 blocks of the disk,
    /// which are 256 at most.
    ///
    /// # Errors
    /// Out of memory; `into` is as it was.
    pub fn lowest(&self, alloc: Global, n: u32, into: &mut Places) -> Result<(), NoMemory>
        ensures found { OnOk result (into.new ≡ take n self.now.reusable) }
        ensures err { OnErr result (into.new ≡ into.old) }
    {
        let found = self.reusable.lowest(alloc, n)?;
        *into = Places::from_vec(found);
        Ok(())
    }

    /// Makes room for so many frees more, where there is less. This may move all blocks that are held and all that
    /// wait.
    ///
    /// # Errors
    /// Out of memory, which it never is where there is the room already. Nothing changed.
    pub fn reserve(&mut self, count: u32) -> Result<(), NoMemory>
        ensures ok { OnOk result (self.new ≡ record self.old { room = max count self.old.room }) }
        ensures err { OnErr result (self.new ≡ self.old) }
        ensures lacked { OnErr result (self.old.room < count) }
    {
        if count <= self.room {
            return Ok(());
        }
        self.held.reserve(count as usize)?;
        self.waiting.reserve(self.held.len() + count as usize)?;
        self.room = count;
        Ok(())
    }

    /// The running transaction took these blocks. This takes a few steps for each.
    pub fn taken(&mut self, blocks: &Places)
        requires { All (IsReusable self.old) blocks.now }
        ensures { self.new ≡ with_taken self.old blocks.now }
    {
        self.reusable.take_all_out(blocks.as_slice());
    }

    /// The running transaction freed this live block, which is held from now on. There must be room for it. This
    /// takes one step.
    pub fn freed(&mut self, block: u32)
        requires room { 0 < self.old.room }
        requires live { IsLive self.old block }
        ensures { self.new ≡ with_freed self.old block }
    {
        self.held.push_reserved(block);
        self.room -= 1;
    }

    /// The running transaction became the record of this number, and the blocks that it freed wait from now on. No
    /// block may wait for a later record yet. This takes one step for each block held.
    pub fn sealed(&mut self, number: u64)
        requires { All (λ p. freed_by p ≤ number) self.old.waiting }
        ensures { self.new ≡ with_sealed self.old number }
    {
        add_waiting(&mut self.waiting, &self.held, number);
        self.held.clear();
    }

    /// Whether a block waits for one of the records up to `sure`. Where none does, a release would change nothing.
    /// This looks by halving.
    pub fn may_release(&self, sure: u64) -> bool
        ensures some { result ≡ true → (p : ℕ × ℕ) × (slice_get self.now.waiting 0 ≡ Some p) × (freed_by p ≤ sure) }
        ensures none { result ≡ false → (going_home : List ℕ) → with_released self.now sure going_home ≡ self.now }
    {
        reached(&self.waiting, sure) > 0
    }

    /// The records up to `sure` are sure by a durable header, and to the blocks `going_home` a checkpoint write is
    /// open; to no others is one. Each block that waits for one of these records and isn't going home may be taken
    /// from now on, and all others wait on. This looks by halving for the blocks that wait for such a record. Where
    /// there are some, it takes a few steps for each of them, and for each that is going home.
    pub fn released(&mut self, sure: u64, going_home: &[u32])
        ensures { self.new ≡ with_released self.old sure going_home.now }
    {
        let count = reached(&self.waiting, sure);
        if count == 0 {
            return;
        }
        self.going_home.put_all(going_home);
        give_up(
            &mut self.waiting,
            count,
            &self.going_home,
            &mut self.reusable,
        );
        self.going_home.take_all_out(going_home);
    }
}

/// The free blocks of a bitmap.
fn free_numbers(alloc: Global, geom: &Geom, bitmap: &[Block]) -> Result<Numbers, NoMemory>
    requires { length bitmap.now ≡ bitmap_blocks geom.now }
    ensures members { IfOk result (λ s. s.members ≡ free_blocks geom.now (blocks_of bitmap.now)) }
    ensures limit { IfOk result (λ s. geom.now.n ≤ s.limit) }
{
    geom.lawful();
    let mut free = Numbers::new(alloc, geom.n())?;
    for block in geom.data_start()..geom.n() {
        if !is_set(bitmap, block) {
            free.put(block);
        }
    }
    Ok(free)
}
