//! What the rows are about: a bay in memory, and the streams of the next run. What becomes of a run's output is described by
//! the module of the streams.

use crate::streams::Streams;
use crate::words::strings_of;
use base_types::NoMemory;
use cmd_program::{Status, optfs};
use disk_memory_bay::MemBay;
use std::alloc::Global;

/// How many writes the disks of the bay take with which the rows begin.
const ROOM: u32 = 1024;

/// A bay, and the streams.
#[derive(Drop)]
pub struct AtHand {
    pub(crate) bay: MemBay,
    pub(crate) streams: Streams,
}

impl AtHand {
    /// An empty bay, and no input.
    pub(crate) fn new(alloc: Global) -> AtHand {
        AtHand {
            bay: MemBay::new(alloc, ROOM),
            streams: Streams::new(alloc),
        }
    }

    /// Begins anew, with an empty bay whose disks take so many writes.
    pub(crate) fn begin(&mut self, alloc: Global, room: u32) {
        self.bay = MemBay::new(alloc, room);
        self.streams = Streams::new(alloc);
    }

    /// Runs the program with these words. The number of its status.
    ///
    /// # Errors
    /// Out of memory before the run or behind it.
    pub(crate) fn run(&mut self, alloc: Global, words: &[&str]) -> Result<u8, NoMemory> {
        let words = strings_of(alloc, words)?;
        let mut source = self.streams.source(alloc)?;
        let mut sink = self.streams.sink(alloc)?;
        let status = optfs(
            alloc,
            words.as_slice(),
            &mut source,
            &mut sink,
            &mut self.bay,
        );
        self.streams.take_back(alloc, &mut source, &sink)?;
        Ok(status.number())
    }
}
