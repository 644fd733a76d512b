//! Whole records: those whose commit block and descriptors are at a ring place, whose entries are in
//! order, and whose blocks fit their entries.

ghost use Rattle.std.specs.Prelude.{◌≡◌, ◌↔◌, ◌+◌, ◌<◌, ◌^◌, ℕ, IsTrue, length, IfOk, true, slice_get, Some};
ghost use Rattle.base_types.specs.Seal.{blocks_of};
ghost use Rattle.layout_journal.specs.declared.entry.Entry as listed;
ghost use Rattle.layout_journal.specs.Run.{IsWhole};
ghost use Rattle.crash_record.specs.Found.{Finds, IsDescribed, fits, payloads_fit, fresh_fit};

use crate::described::described_record;
use crate::image::{block_at, ring_block};
use base_types::{Block, NoMemory};
use crash_record::{Record, entries_fit, fits, has_digest, whole_records_pass_their_tests};
use layout_geometry::Geom;
use layout_journal::{Entry, Header, entries_that_fit_keep_to_the_disk};
use std::alloc::Global;

/// The whole record that begins at this place, whose number is `before` above the header's start.
///
/// # Errors
/// Out of memory.
pub(crate) fn whole_record(
    alloc: Global,
    image: &[Block],
    header: &Header,
    before: u64,
    place: u32,
) -> Result<Option<Record>, NoMemory>
    requires { length image.now ≡ header.now.geom.n }
    ensures { IfOk result (Finds (IsWhole (blocks_of image.now) header.now) (header.now.start + before) place) }
{
    let Some(described) = described_record(alloc, image, header, before, place)? else {
        return Ok(None);
    };
    if !is_whole(image, header, &described) {
        return Ok(None);
    }
    Ok(Some(described))
}

/// Whether a record whose commit block and descriptors stand is whole.
fn is_whole(image: &[Block], header: &Header, found: &Record) -> bool
    requires size { length image.now ≡ header.now.geom.n }
    requires described { IsDescribed (blocks_of image.now) header.now found.now }
    ensures { IsTrue result ↔ IsWhole (blocks_of image.now) header.now found.now }
{
    whole_records_pass_their_tests();
    entries_that_fit_keep_to_the_disk();
    if !entries_fit(header.geom, found) {
        return false;
    }
    let first = found.place() as usize + found.heads();
    if !payloads_fit(image, header.geom, first, found.payloads()) {
        return false;
    }
    if found.number() <= header.sure {
        return true;
    }
    fresh_fit(image, found.fresh())
}

/// Whether each payload, from this ring place on, fits its entry.
fn payloads_fit(image: &[Block], geom: Geom, first: usize, payloads: &[Entry]) -> bool
    requires size { length image.now ≡ geom.n }
    requires room { first + length payloads.now < 2 ^ 64 }
    ensures { result ≡ payloads_fit geom (blocks_of image.now) first payloads.now }
{
    for (index, entry) in payloads.iter().enumerate() {
        if !fits(entry, ring_block(image, geom, first + index)) {
            return false;
        }
    }
    true
}

/// Whether each fresh block has the digest of its entry.
fn fresh_fit(image: &[Block], fresh: &[Entry]) -> bool
    requires { (i : ℕ) (e : listed.Entry) → slice_get fresh.now i ≡ Some e → e.block < length image.now }
    ensures { result ≡ fresh_fit (blocks_of image.now) fresh.now }
{
    for entry in fresh {
        if !has_digest(entry, block_at(image, entry.block)) {
            return false;
        }
    }
    true
}
