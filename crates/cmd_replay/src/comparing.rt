//! Whether a tree has a listing: its own is written to a sink that compares it with the other one, and stops at the
//! first byte that differs. No text is kept.

ghost use Rattle.std.specs.Prelude.{◌≡◌, ◌<◌, [], None, Some, length, take, drop, IfOk, bytes_eq};
ghost use Rattle.std.specs.Io.{WritesAtMost};
ghost use Rattle.std.specs.Io.KnownBytes.{WriteAppends};
ghost use Rattle.base_types.specs.Counts.{HasCause};
ghost use Rattle.lang_tree.specs.Listing.{listing};
ghost use Rattle.cmd_replay.specs.Comparing.{IsComparing, came, taken_by};

use base_io::{Sink, SinkFault};
use fs_memtree::PlainTree;
use std::marker::Model;

/// A sink that takes the bytes of a text, one behind the other, and then at most one byte that stands elsewhere.
#[derive(Drop)]
struct Comparing<'a> {
    text: &'a [u8],
    /// How many bytes of the text came.
    done: usize,
    /// The first byte that came in place of another.
    other: Option<u8>,
    faults: u64,
}

impl<'a> Model for Comparing<'a> {
    ghost use Rattle.cmd_replay.specs.Comparing.{ComparingState, IsComparing};

    ghost Value = { ComparingState };

    ghost view = { λ s. record { text = s.text.now; done = s.done; other = s.other; faults = s.faults } };

    ghost invariant = { λ s. IsComparing s.text.now s.done s.other s.faults };
}

impl<'a> Comparing<'a> {
    fn new(text: &'a [u8]) -> Comparing<'a>
        ensures { result ≡ record { text = text.now; done = 0; other = None; faults = 0 } }
    {
        Comparing {
            text,
            done: 0,
            other: None,
            faults: 0,
        }
    }

    // Whether all of the text came, and nothing else.
    fn is_whole(&self) -> bool
        ensures { result ≡ bytes_eq (came self.now) self.now.text }
    {
        match self.other {
            None => self.done == self.text.len(),
            Some(_) => false,
        }
    }

    // Does nothing. A proof learns from the call what is always so.
    fn lawful(&self)
        ensures { IsComparing self.now.text self.now.done self.now.other self.now.faults }
    {
        let _ = &self.text;
    }

    // Whether these bytes come next in the text.
    fn has_next(&self, bytes: &[u8]) -> bool
        ensures { result ≡ bytes_eq (take (length bytes.now) (drop self.now.done self.now.text)) bytes.now }
    {
        let rest = &self.text[self.done..];
        let next = &rest[..bytes.len().min(rest.len())];
        next == bytes
    }
}

impl<'a> Sink for Comparing<'a> {
    ghost use Rattle.std.specs.Prelude.{Some};
    ghost use Rattle.cmd_replay.specs.Comparing.{taken_by};

    ghost taken = { λ s. Some (taken_by s) };

    ghost faults = { λ s. s.faults };

    fn push(&mut self, bytes: &[u8]) -> Result<usize, SinkFault>
        ensures bound { WritesAtMost result bytes.now }
        ensures some { IfOk result (λ n. 0 < length bytes.now → 0 < n) }
        ensures bytes { WriteAppends (Some (taken_by self.old)) (Some (taken_by self.new)) result bytes.now }
        ensures cause { HasCause result self.old.faults self.new.faults }
    {
        if self.other.is_some() {
            self.faults = self.faults.saturating_add(1);
            return Err(SinkFault);
        }
        if self.has_next(bytes) {
            self.done += bytes.len();
            return Ok(bytes.len());
        }
        let first = bytes[0];
        if self.has_next(&bytes[..1]) {
            self.done += 1;
            return Ok(1);
        }
        self.other = Some(first);
        Ok(1)
    }
}

/// Whether this is the listing of the tree. It takes no memory.
pub(crate) fn is_listed(tree: &PlainTree, text: &[u8]) -> bool
    ensures { result ≡ bytes_eq (listing tree.now.tree) text.now }
{
    let mut out = Comparing::new(text);
    let listed = tree.listing(&mut out);
    out.lawful();
    match listed {
        Ok(()) => out.is_whole(),
        Err(_) => false,
    }
}
