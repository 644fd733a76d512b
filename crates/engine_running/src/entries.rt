//! The entries of a transaction's record, and its descriptors: the payloads first, then the fresh blocks.

ghost use Rattle.std.specs.Prelude.{◌≡◌, ◌≤◌, ◌<◌, ◌+◌, length, slice_get, Some};
ghost use Rattle.layout_journal.specs.Layout.{descriptor_count};
ghost use Rattle.layout_journal.specs.Run.{entries, descriptor_says};
ghost use Rattle.engine_running.specs.Record.{payload_entry, fresh_entry, record_of};

use crate::Put;
use base_types::{Block, digest};
use layout_journal::{Descriptor, Entries, Entry, EntryKind, MOST_ENTRIES, escape};

fn payload_entry(put: &Put) -> Entry
    ensures { result ≡ payload_entry put.now }
{
    let mut stored: Block = [0; 1024];
    let kind = escape(put.bytes.bytes(), &mut stored);
    Entry {
        block: put.block,
        kind,
        digest: digest(&stored),
    }
}

fn fresh_entry(put: &Put) -> Entry
    ensures { result ≡ fresh_entry put.now }
{
    Entry {
        block: put.block,
        kind: EntryKind::Fresh,
        digest: digest(put.bytes.bytes()),
    }
}

/// The entry at this place of the record's entries.
pub fn entry_at(paid: &[Put], laid: &[Put], at: usize) -> Entry
    requires { at < length paid.now + length laid.now }
    ensures { slice_get (entries (record_of 0 0 paid.now laid.now)) at ≡ Some result }
{
    if at < paid.len() {
        payload_entry(&paid[at])
    } else {
        fresh_entry(&laid[at - paid.len()])
    }
}

/// The descriptor at this place of the record's descriptors.
pub fn descriptor_at(epoch: u64, number: u64, index: u32, paid: &[Put], laid: &[Put]) -> Descriptor
    requires index { index < descriptor_count (length paid.now + length laid.now) }
    requires small { length paid.now + length laid.now ≤ 2097152 }
    ensures { result ≡ descriptor_says epoch (record_of number 0 paid.now laid.now) index }
{
    let from = MOST_ENTRIES * (index as usize);
    let end = (paid.len() + laid.len()).min(from + MOST_ENTRIES);
    let mut entries = Entries::new();
    for at in from..end {
        entries.push(entry_at(paid, laid, at));
    }
    Descriptor {
        epoch,
        number,
        index,
        entries,
    }
}
