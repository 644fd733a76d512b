//! The record that the commit block and the descriptors at a ring place describe. Whether its blocks
//! fit its entries is looked at by the search for whole records.

ghost use Rattle.std.specs.Prelude.{◌≡◌, ◌+◌, ◌*◌, ℕ, List, length, None, IfOk, IfSome};
ghost use Rattle.base_types.specs.Seal.{blocks_of};
ghost use Rattle.layout_journal.specs.declared.record.Commit as commits;
ghost use Rattle.layout_journal.specs.declared.entry.Entry as listed;
ghost use Rattle.layout_journal.specs.Run as journal;
ghost use Rattle.crash_record.specs.Found.{Finds, IsDescribed, HasCommit, HasPart, HasParts};

use crate::image::ring_block;
use base_types::{Block, NoMemory};
use crash_record::{
    Record, commit_in, descriptor_in, part_length, records_are_described_by_their_blocks,
};
use layout_journal::{Commit, Descriptor, Entry, Header};
use std::alloc::Global;

/// The record that a commit block and descriptors from this place on describe, whose number is `before`
/// above the header's start.
///
/// # Errors
/// Out of memory.
pub(crate) fn described_record(
    alloc: Global,
    image: &[Block],
    header: &Header,
    before: u64,
    place: u32,
) -> Result<Option<Record>, NoMemory>
    requires { length image.now ≡ header.now.geom.n }
    ensures { IfOk result (Finds (IsDescribed (blocks_of image.now) header.now) (header.now.start + before) place) }
{
    records_are_described_by_their_blocks();
    let Some(commit) = commit_at(image, header, before, place) else {
        return Ok(None);
    };
    let Some(entries) = described_entries(alloc, image, header, &commit, place)? else {
        return Ok(None);
    };
    let described = Record::new(commit.number, place, entries, commit.payloads as usize)?;
    Ok(Some(described))
}

/// The commit block at the place, if it is of the header's epoch and of the number `before` above its
/// start.
fn commit_at(image: &[Block], header: &Header, before: u64, place: u32) -> Option<Commit>
    requires { length image.now ≡ header.now.geom.n }
    ensures found { IfSome result (HasCommit (blocks_of image.now) header.now (header.now.start + before) place) }
    ensures missing { result ≡ None → (c : commits.Commit) → ¬ HasCommit (blocks_of image.now) header.now (header.now.start + before) place c }
{
    commit_in(
        ring_block(image, header.geom, place as usize),
        header,
        before,
    )
}

/// All entries of the descriptors behind the commit block at the place.
fn described_entries(
    alloc: Global,
    image: &[Block],
    header: &Header,
    commit: &Commit,
    place: u32,
) -> Result<Option<Vec<Entry>>, NoMemory>
    requires size { length image.now ≡ header.now.geom.n }
    requires commit { HasCommit (blocks_of image.now) header.now commit.now.number place commit.now }
    ensures found { IfOk result (λ o. IfSome o
        (λ list. HasParts (blocks_of image.now) header.now commit.now.number place (commit.now.payloads + commit.now.fresh) commit.now.descriptors
        list.items)) }
    ensures missing { IfOk result (λ o. o ≡ None → (r : journal.Record) → r.number ≡ commit.now.number → r.place ≡ place
        → ¬ IsDescribed (blocks_of image.now) header.now r) }
{
    records_are_described_by_their_blocks();
    let total = commit.payloads as usize + commit.fresh as usize;
    let mut list = Vec::new(alloc);
    for index in 0..commit.descriptors {
        let Some(descriptor) = descriptor_at(image, header, commit.number, place, index) else {
            return Ok(None);
        };
        let entries = descriptor.entries.as_slice();
        if entries.len() != part_length(total - list.len()) {
            return Ok(None);
        }
        list.extend_from_slice(entries)?;
    }
    Ok(Some(list))
}

/// Descriptor `index` behind the commit block at the place, if it is of the header's epoch and this
/// number.
fn descriptor_at(
    image: &[Block],
    header: &Header,
    number: u64,
    place: u32,
    index: u32,
) -> Option<Descriptor>
    requires { length image.now ≡ header.now.geom.n }
    ensures found { IfSome result (λ d. HasPart (blocks_of image.now) header.now number place index d.entries) }
    ensures missing { result ≡ None → (es : List listed.Entry) → ¬ HasPart (blocks_of image.now) header.now number place index es }
{
    let at = place as usize + 1 + index as usize;
    descriptor_in(ring_block(image, header.geom, at), header, number, index)
}
