//! A sink that keeps what it takes as a text in memory. No push of it fails but for want of memory.

ghost use Rattle.std.specs.Prelude.{◌≡◌, ◌<◌, [], Some, length, IfOk};
ghost use Rattle.std.specs.Io.{WritesAtMost};
ghost use Rattle.std.specs.Io.KnownBytes.{WriteAppends};
ghost use Rattle.base_types.specs.Counts.{HasCause};

use base_io::{Sink, SinkFault};
use std::alloc::Global;
use std::marker::Model;

/// The bytes that were pushed.
#[derive(Drop)]
pub(crate) struct TextSink {
    text: Vec<u8>,
    faults: u64,
}

impl Model for TextSink {
    ghost use Rattle.cmd_host.specs.Listed.{TextState};

    ghost Value = { TextState };

    ghost view = { λ s. record { text = s.text.items; faults = s.faults } };
}

impl TextSink {
    /// A sink that took nothing yet.
    pub(crate) fn new(alloc: Global) -> TextSink
        ensures { result ≡ record { text = []; faults = 0 } }
    {
        TextSink {
            text: Vec::new(alloc),
            faults: 0,
        }
    }

    /// The text that it took.
    pub(crate) fn into_text(self) -> Vec<u8>
        ensures { result.items ≡ self.text }
    {
        let TextSink { text, faults: _ } = self;
        text
    }
}

impl Sink for TextSink {
    ghost use Rattle.std.specs.Prelude.{Some};

    ghost taken = { λ s. Some s.text };

    ghost faults = { λ s. s.faults };

    fn push(&mut self, bytes: &[u8]) -> Result<usize, SinkFault>
        ensures bound { WritesAtMost result bytes.now }
        ensures some { IfOk result (λ n. 0 < length bytes.now → 0 < n) }
        ensures bytes { WriteAppends (Some self.old.text) (Some self.new.text) result bytes.now }
        ensures cause { HasCause result self.old.faults self.new.faults }
    {
        match self.text.extend_from_slice(bytes) {
            Ok(()) => Ok(bytes.len()),
            Err(_) => {
                self.faults = self.faults.saturating_add(1);
                Err(SinkFault)
            }
        }
    }
}
