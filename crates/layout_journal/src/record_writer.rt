//! The blocks of a record as its entries come, one by one: each descriptor once it is full, and last the
//! commit block. The entries of one descriptor are held, and no memory is taken. Which entries a record
//! has, and where its blocks go, isn't its matter. Nothing rests on it yet: engine_running makes its descriptors
//! by their index.

ghost use Rattle.std.specs.Prelude.{◌≡◌, ◌<◌, ◌≤◌, ◌+◌, [], if◌then◌else◌};
ghost use Rattle.layout_journal.specs.Spelling.{commit_block, descriptor_block};
ghost use Rattle.layout_journal.specs.Writing.{RecordSoFar, is_complete, descriptor_with, with_entry, commit_of_all};

use crate::{
    Commit, Descriptor, Entries, Entry, MOST_ENTRIES, descriptor_count, write_commit,
    write_descriptor,
};
use base_types::Block;
use std::marker::Model;

/// A record of so many payloads and fresh blocks, of which some entries have come. Those of the descriptor
/// that isn't complete are held.
#[derive(Drop)]
pub struct RecordWriter {
    epoch: u64,
    number: u64,
    payloads: u32,
    fresh: u32,
    added: u32,
    kept: Entries,
}

impl Model for RecordWriter {
    ghost use Rattle.std.specs.Prelude.{◌<◌, ◌≤◌, ◌+◌, length};
    ghost use Rattle.layout_journal.specs.Writing.{RecordSoFar};

    ghost Value = { RecordSoFar };

    ghost view = { λ w. record { epoch = w.epoch; number = w.number; payloads = w.payloads; fresh = w.fresh; added = w.added; kept = w.kept } };

    ghost invariant = { λ w. (length w.kept < 24) × (w.payloads + w.fresh ≤ 2097152) };

    ghost inverse = { λ w. record { epoch = w.epoch; number = w.number; payloads = w.payloads; fresh = w.fresh; added = w.added; kept = w.kept } };
}

impl RecordWriter {
    /// A record of which no entry has come.
    pub fn new(epoch: u64, number: u64, payloads: u32, fresh: u32) -> RecordWriter
        requires { payloads + fresh ≤ 2097152 }
        ensures { result ≡ record { epoch = epoch; number = number; payloads = payloads; fresh = fresh; added = 0; kept = [] } }
    {
        RecordWriter {
            epoch,
            number,
            payloads,
            fresh,
            added: 0,
            kept: Entries::new(),
        }
    }

    /// Takes the next entry, and answers whether a descriptor is complete with it. If so, it is in the
    /// block; otherwise the block stays as it is.
    pub fn add(&mut self, entry: &Entry, into: &mut Block) -> bool
        requires { self.old.added < self.old.payloads + self.old.fresh }
        ensures complete { result ≡ is_complete self.old }
        ensures block { into.new ≡ (if result then descriptor_block (descriptor_with self.old entry.now) else into.old) }
        ensures record_so_far { self.new ≡ with_entry self.old entry.now }
    {
        let mut entries = std::mem::replace(&mut self.kept, Entries::new());
        entries.push(*entry);
        let index = self.added / MOST_ENTRIES as u32;
        self.added += 1;
        if entries.as_slice().len() < MOST_ENTRIES && self.added < self.payloads + self.fresh {
            self.kept = entries;
            return false;
        }
        let descriptor = Descriptor {
            epoch: self.epoch,
            number: self.number,
            index,
            entries,
        };
        write_descriptor(&descriptor, into);
        true
    }

    /// Writes the commit block, after all entries have come.
    pub fn commit(self, into: &mut Block)
        requires { self.added ≡ self.payloads + self.fresh }
        ensures { into.new ≡ commit_block (commit_of_all self) }
    {
        let commit = Commit {
            epoch: self.epoch,
            number: self.number,
            descriptors: descriptor_count(self.payloads + self.fresh),
            payloads: self.payloads,
            fresh: self.fresh,
        };
        write_commit(&commit, into);
    }
}
