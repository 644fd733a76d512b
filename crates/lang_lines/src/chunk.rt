//! The bytes of an input that were pulled and not yet used. They are pulled many at once into a buffer that is kept.
//! What they say isn't known here.

ghost use Rattle.std.specs.Prelude.{◌≡◌, ℕ, ◌<◌, ◌≤◌, [], length, take, drop, IfOk, OnErr};
ghost use Rattle.std.specs.Io.KnownBytes.{Consumes, IsAtEnd, Keeps};
ghost use Rattle.base_types.specs.Counts.{HasCause};

use base_io::{Source, SourceFault};
use base_types::NoMemory;
use std::alloc::Global;
use std::marker::Model;

/// Bytes that were pulled.
#[derive(Drop)]
pub struct Chunk {
    // The buffer.
    bytes: Vec<u8>,
    // Where those begin that weren't used yet, and where they end.
    from: usize,
    to: usize,
}

impl Model for Chunk {
    ghost use Rattle.std.specs.Prelude.{List, ℕ, ◌-◌, ◌<◌, ◌≤◌, length, take, drop};

    ghost Value = { List ℕ };

    ghost view = { λ c. take (c.to - c.from) (drop c.from c.bytes.items) };

    ghost invariant = { λ c. (c.from ≤ c.to) × (c.to ≤ length c.bytes.items) × (0 < length c.bytes.items) };
}

impl Chunk {
    /// No bytes.
    ///
    /// # Errors
    /// Out of memory.
    pub fn new(alloc: Global) -> Result<Chunk, NoMemory>
        ensures { IfOk result (λ c. c ≡ []) }
    {
        let bytes = vec![in alloc; 0u8; CHUNK]?;
        Ok(Chunk {
            bytes,
            from: 0,
            to: 0,
        })
    }

    /// The bytes.
    pub fn bytes(&self) -> &[u8]
        ensures { result.now ≡ self.now }
    {
        &self.bytes[self.from..self.to]
    }

    /// Passes over the first bytes.
    pub fn pass(&mut self, count: usize)
        requires { count ≤ length self.old }
        ensures { self.new ≡ drop count self.old }
    {
        self.from += count;
    }

    /// Pulls the next bytes, at most so many, where all before are used, and tells how many: 0 only at the end.
    ///
    /// # Errors
    /// The source failed, and no byte came.
    pub fn pull<S: Source>(&mut self, input: &mut S, most: usize) -> Result<usize, SourceFault>
        requires some { 0 < most }
        ensures count { IfOk result (λ n. (length self.new ≡ n) × (n ≤ most)) }
        ensures bytes { IfOk result (λ n. Consumes (S.remaining input.old) (S.remaining input.new) self.new × (n ≡ 0 → IsAtEnd (S.remaining input.new))) }
        ensures none { OnErr result ((self.new ≡ []) × Keeps (S.remaining input.old) (S.remaining input.new)) }
        ensures cause { HasCause result (S.faults input.old) (S.faults input.new) }
    {
        self.from = 0;
        self.to = 0;
        let count = pull_into(input, self.bytes.as_mut_slice(), most)?;
        self.to = count;
        Ok(count)
    }
}

// Pulls the next bytes to the front of a buffer, at most so many.
fn pull_into<S: Source>(input: &mut S, buffer: &mut [u8], most: usize) -> Result<usize, SourceFault>
    requires some { 0 < most }
    requires room { 0 < length buffer.old }
    ensures count { IfOk result (λ n. (n ≤ length buffer.new) × (n ≤ most)) }
    ensures bytes { IfOk result (λ n. Consumes (S.remaining input.old) (S.remaining input.new) (take n buffer.new)
        × (n ≡ 0 → IsAtEnd (S.remaining input.new))) }
    ensures none { OnErr result (Keeps (S.remaining input.old) (S.remaining input.new)) }
    ensures cause { HasCause result (S.faults input.old) (S.faults input.new) }
{
    let room = buffer.len().min(most);
    let count = input.pull(&mut buffer[..room])?;
    Ok(count)
}

// How many bytes are asked for at once.
const CHUNK: usize = 65_536;
