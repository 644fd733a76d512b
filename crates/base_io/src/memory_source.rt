//! A source over bytes in memory, for tests and for runs that say which calls fail. It takes
//! no memory after it was made. It doesn't wait, and its faults come at listed calls alone.

ghost use Rattle.std.specs.Prelude.{◌≡◌, ℕ, ◌+◌, ◌^◌, ◌-◌, ◌<◌, ◌≤◌, List, length, drop, Option, Some, IfOk, is_err};
ghost use Rattle.std.specs.Io.{ReadsAtMost};
ghost use Rattle.std.specs.Io.KnownBytes.{ReadConsumes};
ghost use Rattle.base_types.specs.Counts.{HasCause};
ghost use Rattle.base_io.specs.Memory.{SourceState, pull_fails, given, pulled};

use crate::{Source, SourceFault};
use base_types::NoMemory;
use std::alloc::Global;
use std::marker::Model;

/// The bytes of a list, given in order. It fails at the calls that its caller lists.
#[derive(Drop)]
pub struct MemSource {
    bytes: Vec<u8>,
    place: usize,
    most: usize,
    fail: Vec<u64>,
    calls: u64,
    faults: u64,
}

impl Model for MemSource {
    ghost use Rattle.std.specs.Prelude.{ℕ, ◌<◌, ◌≤◌, length, drop};
    ghost use Rattle.base_io.specs.Memory.{SourceState};

    ghost Value = { SourceState };

    ghost view = { λ s. record { left = drop s.place s.bytes.items; most = s.most; failing = s.fail.items; calls = s.calls; faults = s.faults } };

    ghost invariant = { λ s. (s.place ≤ length s.bytes.items) × (0 < s.most) };
}

impl MemSource {
    /// A source of these bytes, whose calls that `fail` lists fail, counted from 1. A call gives as
    /// many bytes as fit and are left.
    ///
    /// # Errors
    /// Out of memory.
    pub fn new(alloc: Global, bytes: &[u8], fail: &[u64]) -> Result<MemSource, NoMemory>
        ensures { IfOk result (λ s. s ≡ record { left = bytes.now; most = usize.MAX; failing = fail.now; calls = 0; faults = 0 }) }
    {
        let bytes = Vec::from_slice(alloc, bytes)?;
        let fail = Vec::from_slice(alloc, fail)?;
        Ok(MemSource {
            bytes,
            place: 0,
            most: usize::MAX,
            fail,
            calls: 0,
            faults: 0,
        })
    }

    /// The same source, of which a call gives at most so many bytes.
    pub fn in_pieces(self, most: usize) -> MemSource
        requires { 0 < most }
        ensures { result ≡ record self { most = most } }
    {
        let mut source = self;
        source.most = most;
        source
    }
}

impl Source for MemSource {
    ghost use Rattle.std.specs.Prelude.{Some};

    ghost remaining = { λ s. Some s.left };

    ghost faults = { λ s. s.faults };

    fn pull(&mut self, into: &mut [u8]) -> Result<usize, SourceFault>
        ensures bound { ReadsAtMost result into.new }
        ensures bytes { ReadConsumes (Some self.old.left) (Some self.new.left) result into.new }
        ensures cause { HasCause result self.old.faults self.new.faults }
        ensures exact { is_err result ≡ pull_fails self.old }
        ensures count { IfOk result (λ n. n ≡ given self.old (length into.old)) }
        ensures state { self.new ≡ pulled self.old (length into.old) }
    {
        self.calls = self.calls.saturating_add(1);
        if self.fail.contains(&self.calls) {
            self.faults = self.faults.saturating_add(1);
            return Err(SourceFault);
        }
        let left = self.bytes.len() - self.place;
        let count = into.len().min(self.most).min(left);
        into[..count].copy_from_slice(&self.bytes[self.place..self.place + count]);
        self.place += count;
        Ok(count)
    }
}
