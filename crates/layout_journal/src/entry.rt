//! The value of a descriptor's entry: a block that a record writes, and the digest of its bytes.

ghost use Rattle.std.specs.Prelude.{◌≡◌, ◌<◌, ◌≤◌, ◌++◌, ◌==◌, [], ◌∷◌, length};

use arrayvec::ArrayVec;
use std::marker::Model;

/// How a record carries a block.
#[derive(Clone, Copy, PartialEq, Eq, Default)]
pub enum EntryKind {
    /// Its bytes are in the journal.
    #[default]
    Payload,
    /// Its bytes are in the block itself, which nothing used before.
    Fresh,
    /// Its bytes are in the journal with their first byte as zero.
    Escaped,
}

/// A block that a record writes. The default one only fills places of `Entries` that aren't in use.
#[derive(Clone, Copy, PartialEq, Eq, Default)]
pub struct Entry {
    /// The number of the block.
    pub block: u32,
    pub kind: EntryKind,
    /// The SHA-256 of the bytes as they are in the journal or, for a fresh block, in the block.
    pub digest: [u8; 32],
}

/// The bytes of an entry.
pub(crate) const ENTRY_LENGTH: usize = 40;

/// The most entries of a descriptor.
pub const MOST_ENTRIES: usize = 24;

/// At most 24 entries, as a descriptor has them, which contracts see as their list. They lie in the value
/// itself, so they take no memory.
#[derive(Drop)]
pub struct Entries {
    entries: ArrayVec<Entry, MOST_ENTRIES>,
}

impl Model for Entries {
    ghost use Rattle.std.specs.Prelude.{◌≤◌, List, length};
    ghost use Rattle.layout_journal.specs.declared.entry.Entry.{Entry};

    ghost Value = { List Entry };

    ghost view = { λ e. e.entries.items };

    ghost invariant = { λ e. length e.entries.items ≤ 24 };

    ghost inverse = { λ xs. record { entries = record { items = xs } } };
}

impl Entries {
    /// No entries.
    pub fn new() -> Entries
        ensures { result ≡ [] }
    {
        Entries {
            entries: ArrayVec::new(),
        }
    }

    /// Adds an entry at the end. There must be room for it.
    pub fn push(&mut self, entry: Entry)
        requires { length self.old < 24 }
        ensures { self.new ≡ self.old ++ entry ∷ [] }
    {
        self.entries.push(entry);
    }

    /// How many entries.
    pub fn len(&self) -> usize
        ensures { result ≡ length self.now }
    {
        self.entries.len()
    }

    /// Whether there are none.
    pub fn is_empty(&self) -> bool
        ensures { result ≡ (length self.now == 0) }
    {
        self.entries.is_empty()
    }

    /// The entries in order.
    pub fn as_slice(&self) -> &[Entry]
        ensures value { result.now ≡ self.now }
        ensures few { length result.now ≤ 24 }
    {
        self.entries.as_slice()
    }
}
