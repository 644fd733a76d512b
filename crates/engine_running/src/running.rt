//! The running transaction: which blocks it changed, took and freed since the last commit. Blocks are
//! found by their number, and nothing but `reserve` takes memory. When a transaction is committed, and
//! which blocks may be taken, isn't its matter.

ghost use Rattle.std.specs.Prelude.{◌≡◌, ◌≤◌, ◌<◌, ◌+◌, ℕ, length, slice_get, Some, None, ◌^◌, OnOk, IfSome, vec_len, vec_capacity};
ghost use Rattle.crash_argument.specs.HomeTest.{is_one_of};
ghost use Rattle.engine_running.specs.Running.{IsOrdered, IsRisingNumbers, IsEmpty, HasRoomFor, SameChanges, Puts, Takes, Frees, Forgets, bytes_put};
ghost use Rattle.engine_running.specs.Running.{is_fresh, with_number};

use crate::rows::{bytes_in, give_back, put_over, take_out};
use crate::{Class, Put};
use base_types::{Block, NoMemory};
use disk_contract::BoxedBlock;
use std::alloc::Global;
use std::marker::Model;

/// The running transaction. Blocks whose bytes will go into the journal and blocks that were taken in it
/// and will be written in place are kept apart, each ascending by their numbers.
#[derive(Drop)]
pub struct Running {
    pub(crate) paid: Vec<Put>,
    pub(crate) laid: Vec<Put>,
    /// The blocks taken, also those that were freed since, ascending.
    taken: Vec<u32>,
    pub(crate) freed: Vec<u32>,
    /// Boxes that were made ready for blocks to be put.
    spare: Vec<BoxedBlock>,
}

impl Model for Running {
    ghost use Rattle.std.specs.Prelude.{◌+◌, ◌-◌, vec_len, vec_capacity};
    ghost use Rattle.engine_running.specs.Running.{Changes, IsKept};

    ghost Value = { Changes };

    ghost view = { λ r. record {
      paid = r.paid.items;
      laid = r.laid.items;
      taken = r.taken.items;
      freed = r.freed.items;
      puts = vec_len r.spare;
      takes
          = vec_capacity r.taken - vec_len r.taken;
      frees = vec_capacity r.freed - vec_len r.freed;
    } };

    ghost invariant = { λ r. IsKept r.paid.items r.laid.items r.taken.items (vec_len r.paid + vec_len r.laid + vec_len r.spare) (vec_capacity r.paid)
        (vec_capacity r.laid) (vec_capacity r.spare) };
}

impl Running {
    /// A transaction that changed nothing. It takes no memory.
    pub fn new(alloc: Global) -> Running
        ensures { IsEmpty result }
    {
        Running {
            paid: Vec::new(alloc),
            laid: Vec::new(alloc),
            taken: Vec::new(alloc),
            freed: Vec::new(alloc),
            spare: Vec::new(alloc),
        }
    }

    /// Does nothing. A proof learns from the call that the rows and the taken blocks ascend, and that no
    /// block is in both rows.
    pub fn lawful(&self)
        ensures rows { IsOrdered self.now.paid self.now.laid }
        ensures taken { IsRisingNumbers self.now.taken }
    {
        let _ = &self.paid;
    }

    /// How many payloads and how many fresh blocks a commit would have now.
    pub fn counts(&self) -> (u32, u32)
        requires { length self.now.paid + length self.now.laid ≤ 2097152 }
        ensures payloads { result.0 ≡ length self.now.paid }
        ensures fresh { result.1 ≡ length self.now.laid }
    {
        (self.paid.len() as u32, self.laid.len() as u32)
    }

    /// The puts that a commit would have as payloads now, ascending by block.
    pub fn payloads(&self) -> &[Put]
        ensures { result.now ≡ self.now.paid }
    {
        self.paid.as_slice()
    }

    /// The puts that a commit would have as fresh blocks now, ascending by block.
    pub fn fresh(&self) -> &[Put]
        ensures { result.now ≡ self.now.laid }
    {
        self.laid.as_slice()
    }

    /// The bytes that were put for a block, if there are any.
    pub fn block(&self, block: u32) -> Option<&Block>
        ensures some { IfSome result (λ bytes. bytes_put self.now block ≡ Some bytes.now) }
        ensures none { result ≡ None → bytes_put self.now block ≡ None }
    {
        match bytes_in(self.laid.as_slice(), block) {
            Some(bytes) => Some(bytes),
            None => bytes_in(self.paid.as_slice(), block),
        }
    }

    /// Puts a block: its bytes will go into the journal, or, where it is content of a block that was taken
    /// in this transaction, to the block itself. There must be room for it. It takes no memory.
    pub fn put(&mut self, block: u32, from: &Block, class: Class)
        requires { 0 < self.old.puts }
        ensures { Puts (is_fresh class self.old.taken block) (record { block = block; bytes = from.now }) self.old self.new }
    {
        if is_fresh(class, self.taken.as_slice(), block) {
            put_over(&mut self.laid, &mut self.paid, &mut self.spare, block, from);
        } else {
            put_over(&mut self.paid, &mut self.laid, &mut self.spare, block, from);
        }
    }

    /// Makes room for so many puts, takes and frees, where there is less.
    ///
    /// # Errors
    /// No memory was found. What was put, taken and freed is as it was, and there is no less room.
    pub fn reserve(
        &mut self,
        alloc: Global,
        puts: u32,
        takes: u32,
        frees: u32,
    ) -> Result<(), NoMemory>
        ensures same { SameChanges self.old self.new }
        ensures no_less { HasRoomFor self.new self.old.puts self.old.takes self.old.frees }
        ensures room { OnOk result (HasRoomFor self.new puts takes frees) }
    {
        self.taken.reserve(takes as usize)?;
        self.freed.reserve(frees as usize)?;
        let more = (puts as usize).saturating_sub(self.spare.len());
        let total = self.paid.len() + self.laid.len() + self.spare.len() + more;
        self.paid.reserve(total)?;
        self.laid.reserve(total)?;
        self.spare.reserve(total)?;
        for turn in 0..more {
            let bytes = BoxedBlock::new(alloc, &[0; 1024])?;
            self.spare.push(bytes)?;
        }
        Ok(())
    }

    /// A block is taken from now on. There must be room for it. It takes no memory.
    pub fn took(&mut self, block: u32)
        requires { 0 < self.old.takes }
        ensures { Takes block self.old self.new }
    {
        insert_number(&mut self.taken, block);
    }

    /// A block is free from now on, and none of its bytes will be written. There must be room for it. It
    /// takes no memory.
    pub fn freed(&mut self, block: u32)
        requires { 0 < self.old.frees }
        ensures { Frees block self.old self.new }
    {
        self.forget(block);
        self.freed.push(block).unwrap();
    }

    /// The bytes that were put for a block, if there are any, won't be written. It takes no memory.
    pub fn forget(&mut self, block: u32)
        ensures { Forgets block self.old self.new }
    {
        let paid = take_out(&mut self.paid, block);
        give_back(&mut self.spare, paid);
        let laid = take_out(&mut self.laid, block);
        give_back(&mut self.spare, laid);
    }
}

/// Whether a put of this class is of a block that was taken in this transaction.
fn is_fresh(class: Class, taken: &[u32], block: u32) -> bool
    requires { IsRisingNumbers taken.now }
    ensures { result ≡ is_fresh class taken.now block }
{
    match class {
        Class::Meta => false,
        Class::Content => is_in(block, taken),
    }
}

/// Where the number stands among these, which ascend, or would stand.
fn number_place(number: u32, numbers: &[u32]) -> usize
    requires { IsRisingNumbers numbers.now }
    ensures bound { result ≤ length numbers.now }
    ensures below { (k m : ℕ) → slice_get numbers.now k ≡ Some m → k < result → m < number }
    ensures above { (k m : ℕ) → slice_get numbers.now k ≡ Some m → result ≤ k → number ≤ m }
{
    numbers.partition_point(|one| *one < number)
}

/// Puts a number in its place among these, which ascend, where it isn't there yet.
fn insert_number(numbers: &mut Vec<u32>, number: u32)
    requires rising { IsRisingNumbers numbers.old.items }
    requires room { vec_len numbers.old < vec_capacity numbers.old }
    ensures items { numbers.new.items ≡ with_number number numbers.old.items }
    ensures rising { IsRisingNumbers numbers.new.items }
    ensures len { vec_len numbers.new ≤ vec_len numbers.old + 1 }
    ensures capacity { vec_capacity numbers.old ≤ vec_capacity numbers.new }
{
    if is_in(number, numbers.as_slice()) {
        return;
    }
    let at = number_place(number, numbers.as_slice());
    numbers.insert(at, number).unwrap();
}

/// Whether the number is among these, which ascend.
fn is_in(number: u32, numbers: &[u32]) -> bool
    requires { IsRisingNumbers numbers.now }
    ensures { result ≡ is_one_of number numbers.now }
{
    let at = number_place(number, numbers);
    at < numbers.len() && numbers[at] == number
}
