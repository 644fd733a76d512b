//! A sink into memory that is set aside as it is made, so that no push takes memory. It fails at
//! the calls that its caller lists, and where it is full. Tests read back what it took.

ghost use Rattle.std.specs.Prelude.{◌≡◌, ℕ, ◌<◌, List, [], length, IfOk, is_err};
ghost use Rattle.std.specs.Io.{WritesAtMost};
ghost use Rattle.std.specs.Io.KnownBytes.{WriteAppends};
ghost use Rattle.base_types.specs.Counts.{HasCause};
ghost use Rattle.base_io.specs.Memory.{push_fails, accepted, pushed};

use crate::{Sink, SinkFault};
use base_types::NoMemory;
use std::alloc::Global;
use std::marker::Model;

/// The bytes that were pushed, up to a given number. It fails at the calls that its caller lists.
#[derive(Drop)]
pub struct MemSink {
    bytes: Vec<u8>,
    room: usize,
    most: usize,
    fail: Vec<u64>,
    calls: u64,
    faults: u64,
}

impl Model for MemSink {
    ghost use Rattle.std.specs.Prelude.{◌+◌, ◌<◌, ◌≤◌, vec_len, vec_capacity};
    ghost use Rattle.base_io.specs.Memory.{SinkState};

    ghost Value = { SinkState };

    ghost view = { λ s. record { bytes = s.bytes.items; room = s.room; most = s.most; failing = s.fail.items; calls = s.calls; faults = s.faults } };

    ghost invariant = { λ s. (vec_len s.bytes + s.room ≤ vec_capacity s.bytes) × (0 < s.most) };
}

impl MemSink {
    /// An empty sink with room for `room` bytes, whose calls that `fail` lists fail, counted from 1.
    /// A call takes as many bytes as there is room for.
    ///
    /// # Errors
    /// Out of memory for all of the room.
    pub fn new(alloc: Global, room: u64, fail: &[u64]) -> Result<MemSink, NoMemory>
        ensures { IfOk result (λ s. s ≡ record { bytes = []; room = room; most = usize.MAX; failing = fail.now; calls = 0; faults = 0 }) }
    {
        let room = usize::try_from(room).map_err(|_| NoMemory)?;
        let bytes = Vec::with_capacity(alloc, room)?;
        let fail = Vec::from_slice(alloc, fail)?;
        Ok(MemSink {
            bytes,
            room,
            most: usize::MAX,
            fail,
            calls: 0,
            faults: 0,
        })
    }

    /// The same sink, of which a call takes at most so many bytes.
    pub fn in_pieces(self, most: usize) -> MemSink
        requires { 0 < most }
        ensures { result ≡ record self { most = most } }
    {
        let mut sink = self;
        sink.most = most;
        sink
    }

    /// The bytes that were taken, in order.
    pub fn bytes(&self) -> &[u8]
        ensures { result.now ≡ self.now.bytes }
    {
        self.bytes.as_slice()
    }
}

impl Sink for MemSink {
    ghost use Rattle.std.specs.Prelude.{Some};

    ghost taken = { λ s. Some s.bytes };

    ghost faults = { λ s. s.faults };

    fn push(&mut self, bytes: &[u8]) -> Result<usize, SinkFault>
        ensures bound { WritesAtMost result bytes.now }
        ensures some { IfOk result (λ n. 0 < length bytes.now → 0 < n) }
        ensures bytes { WriteAppends (Some self.old.bytes) (Some self.new.bytes) result bytes.now }
        ensures cause { HasCause result self.old.faults self.new.faults }
        ensures exact { is_err result ≡ push_fails self.old bytes.now }
        ensures count { IfOk result (λ n. n ≡ accepted self.old bytes.now) }
        ensures state { self.new ≡ pushed self.old bytes.now }
    {
        self.calls = self.calls.saturating_add(1);
        if self.fail.contains(&self.calls) || (self.room == 0 && !bytes.is_empty()) {
            self.faults = self.faults.saturating_add(1);
            return Err(SinkFault);
        }
        let count = bytes.len().min(self.most).min(self.room);
        self.bytes.extend_from_slice(&bytes[..count]).unwrap();
        self.room -= count;
        Ok(count)
    }
}
