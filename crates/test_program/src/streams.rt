//! The streams of the runs: the input and the output of the next one, which calls of them fail, and what the last one left.

use base_io::{MemSink, MemSource, Source};
use base_types::NoMemory;
use std::alloc::Global;

/// How many bytes an output takes, where no row says it.
const ROOM: u64 = 1_000_000;

/// The streams.
#[derive(Drop)]
pub struct Streams {
    /// The bytes of the next input.
    pub(crate) input: Vec<u8>,
    /// Which pulls of it fail, counted from 1.
    pub(crate) source_fails: Vec<u64>,
    /// Which pushes of the next output fail, counted from 1.
    pub(crate) sink_fails: Vec<u64>,
    /// How many bytes a pull gives and a push takes at most; 0 is no bound.
    pub(crate) piece: usize,
    /// How many bytes the next output takes.
    pub(crate) room: u64,
    /// What the last output took.
    pub(crate) output: Vec<u8>,
    /// How many bytes of the last input weren't pulled.
    pub(crate) left: u64,
    /// What outputs are compared with.
    pub(crate) kept: Vec<u8>,
}

impl Streams {
    /// No input, calls that don't fail, and nothing kept.
    pub(crate) fn new(alloc: Global) -> Streams {
        Streams {
            input: Vec::new(alloc),
            source_fails: Vec::new(alloc),
            sink_fails: Vec::new(alloc),
            piece: 0,
            room: ROOM,
            output: Vec::new(alloc),
            left: 0,
            kept: Vec::new(alloc),
        }
    }

    /// The source of the next run.
    ///
    /// # Errors
    /// Out of memory.
    pub(crate) fn source(&self, alloc: Global) -> Result<MemSource, NoMemory> {
        let source = MemSource::new(alloc, self.input.as_slice(), self.source_fails.as_slice())?;
        if self.piece == 0 {
            Ok(source)
        } else {
            Ok(source.in_pieces(self.piece))
        }
    }

    /// The sink of the next run.
    ///
    /// # Errors
    /// Out of memory.
    pub(crate) fn sink(&self, alloc: Global) -> Result<MemSink, NoMemory> {
        let sink = MemSink::new(alloc, self.room, self.sink_fails.as_slice())?;
        if self.piece == 0 {
            Ok(sink)
        } else {
            Ok(sink.in_pieces(self.piece))
        }
    }

    /// Takes from the streams of a run what it left.
    ///
    /// # Errors
    /// Out of memory.
    pub(crate) fn take_back(
        &mut self,
        alloc: Global,
        source: &mut MemSource,
        sink: &MemSink,
    ) -> Result<(), NoMemory> {
        self.output = Vec::from_slice(alloc, sink.bytes())?;
        self.left = rest_of(source, self.input.len());
        Ok(())
    }
}

// How many bytes a source still gives, of as many as it had at most, up to its end or a pull that fails.
fn rest_of(source: &mut MemSource, most: usize) -> u64 {
    let mut into = [0u8; 1024];
    let mut count = 0u64;
    for _ in 0..most {
        match source.pull(&mut into) {
            Ok(0) | Err(_) => break,
            Ok(some) => count = count.saturating_add(some as u64),
        }
    }
    count
}
