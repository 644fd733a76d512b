//! Why a block reads as no header, no commit block or no descriptor: the first of its flaws. It is looked for
//! in a block that doesn't read alone, so a block that reads is read once.

ghost use Rattle.std.specs.Prelude.{◌≡◌, ◌≤◌, IsTrue};
ghost use Rattle.layout_journal.specs.Flaws.{header_numbers_fit, header_flaw, commit_numbers_fit, commit_flaw, is_entry_count, descriptor_flaw};

use crate::entry::ENTRY_LENGTH;
use crate::read::{
    BODY, DESCRIPTOR_HEAD, commit_fields, has_tag, header_fields, layout_in, numbers_fit,
};
use crate::write::header_tag;
use crate::{Commit, Header, MOST_ENTRIES};
use base_types::{Block, is_sealed};
use layout_bytes::{has_zeros, number_4};
use layout_geometry::Geom;

/// Why a block isn't one of the journal. A reader names the first that holds, in this order.
#[derive(Clone, Copy)]
pub enum BadRecord {
    /// It isn't sealed: it was never written, or not in whole.
    NotSealed,
    /// It begins with the tag of another kind of block, or with none.
    OtherTag,
    /// A header's geometry isn't within its limits, or is of a disk of another size.
    OtherDisk,
    /// A number isn't within its range, or doesn't fit the others.
    OutOfRange,
    /// A byte that has to be zero isn't.
    NotZero,
    /// An entry of a descriptor isn't within the grammar of entries.
    BadEntry,
}

/// The flaw of a block that reads as no header of a disk of `blocks` blocks.
pub(crate) fn header_flaw(block: &Block, blocks: u32) -> BadRecord
    ensures { result ≡ header_flaw blocks block.now }
{
    if !is_sealed(block) {
        return BadRecord::NotSealed;
    }
    if !has_tag(block, header_tag(layout_in(block))) {
        return BadRecord::OtherTag;
    }
    let header = match header_fields(block) {
        Some(header) => header,
        None => return BadRecord::OtherDisk,
    };
    header.geom.lawful();
    if header.geom.n() != blocks {
        return BadRecord::OtherDisk;
    }
    if !header_numbers_fit(block, &header) {
        return BadRecord::OutOfRange;
    }
    BadRecord::NotZero
}

fn header_numbers_fit(block: &Block, header: &Header) -> bool
    ensures { result ≡ header_numbers_fit block.now header.now }
{
    if !numbers_fit(header) {
        return false;
    }
    if header.at >= header.geom.j() {
        return false;
    }
    number_4(block.as_slice(), 44) <= 1
}

/// The flaw of a block that reads as no commit block of a disk of this geometry.
pub(crate) fn commit_flaw(block: &Block, geom: &Geom) -> BadRecord
    ensures { result ≡ commit_flaw geom.now block.now }
{
    if !is_sealed(block) {
        return BadRecord::NotSealed;
    }
    if !has_tag(block, b"OPTC0001".as_slice()) {
        return BadRecord::OtherTag;
    }
    if !commit_numbers_fit(geom, &commit_fields(block)) {
        return BadRecord::OutOfRange;
    }
    BadRecord::NotZero
}

pub(crate) fn commit_numbers_fit(geom: &Geom, commit: &Commit) -> bool
    ensures { result ≡ commit_numbers_fit geom.now commit.now }
{
    if commit.payloads == 0 {
        return false;
    }
    let entries = u64::from(commit.payloads) + u64::from(commit.fresh);
    if u64::from(commit.descriptors) != entries.div_ceil(MOST_ENTRIES as u64) {
        return false;
    }
    let places = 1 + u64::from(commit.descriptors) + u64::from(commit.payloads);
    places <= u64::from(geom.j())
}

/// The flaw of a block that reads as no descriptor.
pub(crate) fn descriptor_flaw(block: &Block) -> BadRecord
    ensures { result ≡ descriptor_flaw block.now }
{
    if !is_sealed(block) {
        return BadRecord::NotSealed;
    }
    if !has_tag(block, b"OPTD0001".as_slice()) {
        return BadRecord::OtherTag;
    }
    let count = number_4(block.as_slice(), 28);
    if !is_entry_count(count) {
        return BadRecord::OutOfRange;
    }
    let end = DESCRIPTOR_HEAD + ENTRY_LENGTH * (count as usize);
    if !has_zeros(block.as_slice(), end, BODY) {
        return BadRecord::NotZero;
    }
    BadRecord::BadEntry
}

fn is_entry_count(count: u32) -> bool
    ensures few { IsTrue result → count ≤ 24 }
    ensures exact { result ≡ is_entry_count count }
{
    if count > MOST_ENTRIES as u32 {
        return false;
    }
    count > 0
}
