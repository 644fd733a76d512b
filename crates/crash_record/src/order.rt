//! Whether the entries of a record are in order, by the blocks that they name. What is in these
//! blocks isn't looked at here.

ghost use Rattle.std.specs.Prelude.{◌≡◌, ◌+◌, ◌≤◌, ◌&&◌, ℕ, true};
ghost use Rattle.layout_geometry.specs.Geometry.{bitmap_start, data_start};
ghost use Rattle.layout_journal.specs.Run.{are_ascending, is_fresh, names_block, are_fresh, entries_fit};

use crate::record::Record;
use layout_geometry::Geom;
use layout_journal::{Entry, EntryKind};

/// Whether the entries of a record are in order: both parts ascend within their areas, and each fresh
/// one names a data block that no payload entry names.
#[tactic(auto, unfolding(layout_journal::specs::Run::entries_fit))]
pub fn entries_fit(geom: Geom, found: &Record) -> bool
    ensures { result ≡ entries_fit geom found.now }
{
    if !are_ascending(geom.bitmap_start(), geom.n(), found.payloads()) {
        return false;
    }
    if !are_ascending(geom.data_start(), geom.n(), found.fresh()) {
        return false;
    }
    are_fresh(geom, found.payloads(), found.fresh())
}

/// Whether the entries ascend by block, from `from` on and below `high`.
fn are_ascending(from: u32, high: u32, entries: &[Entry]) -> bool
    ensures { result ≡ are_ascending from high entries.now }
{
    let mut low = from;
    for entry in entries {
        if entry.block < low {
            return false;
        }
        if entry.block >= high {
            return false;
        }
        low = entry.block + 1;
    }
    true
}

fn is_fresh(kind: EntryKind) -> bool
    ensures { result ≡ is_fresh kind }
{
    match kind {
        EntryKind::Payload => false,
        EntryKind::Fresh => true,
        EntryKind::Escaped => false,
    }
}

/// Whether one of the entries names the block.
pub fn names_block(entries: &[Entry], block: u32) -> bool
    ensures { result ≡ names_block entries.now block }
{
    for entry in entries {
        if entry.block == block {
            return true;
        }
    }
    false
}

/// Whether the entries are fresh ones that name data blocks which no payload entry names. Both lists
/// ascend, so one pass over both tells it.
fn are_fresh(geom: Geom, payloads: &[Entry], fresh: &[Entry]) -> bool
    requires payloads { are_ascending (bitmap_start geom) geom.n payloads.now ≡ true }
    requires fresh { are_ascending (data_start geom) geom.n fresh.now ≡ true }
    ensures { result ≡ are_fresh geom payloads.now fresh.now }
{
    let mut left = payloads;
    for entry in fresh {
        if !is_fresh(entry.kind) {
            return false;
        }
        if entry.block < geom.data_start() {
            return false;
        }
        if entry.block >= geom.n() {
            return false;
        }
        left = from_block(left, entry.block);
        if first_names(left, entry.block) {
            return false;
        }
    }
    true
}

/// The entries from the first one on whose block isn't below this one.
fn from_block(entries: &[Entry], block: u32) -> &[Entry]
    ensures names { (b : ℕ) → block ≤ b → names_block result.now b ≡ names_block entries.now b }
    ensures ascends { (low high : ℕ) → are_ascending low high entries.now ≡ true → are_ascending block high result.now ≡ true }
{
    for at in 0..entries.len() {
        if entries[at].block >= block {
            return &entries[at..];
        }
    }
    &entries[entries.len()..]
}

/// Whether the first entry names the block. Where the entries ascend from that block on, no other one
/// does.
fn first_names(entries: &[Entry], block: u32) -> bool
    ensures { (high : ℕ) → are_ascending block high entries.now ≡ true → result ≡ names_block entries.now block }
{
    match entries {
        [] => false,
        [first, ..] => first.block == block,
    }
}
