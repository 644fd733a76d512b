//! What a block says of a record: its commit block, one of its descriptors, a payload or a fresh block
//! of it; and which of two headers is the newer. Where the block was read isn't described here.

ghost use Rattle.std.specs.Prelude.{◌≡◌, ◌+◌, ◌<◌, ◌≤◌, ℕ, List, min, None, Option, IfSome, bytes_eq};
ghost use Rattle.base_types.specs.Seal.{Blocks, sha256};
ghost use Rattle.layout_geometry.specs.Geometry.{ring_block};
ghost use Rattle.layout_journal.specs.declared.header.Header as headers;
ghost use Rattle.layout_journal.specs.declared.record.Commit as commits;
ghost use Rattle.layout_journal.specs.declared.entry.Entry as listed;
ghost use Rattle.layout_journal.specs.Layout.{header_of, IsWithinDisk, IsWithinRing};
ghost use Rattle.layout_journal.specs.Run.{Newest};
ghost use Rattle.crash_record.specs.Found.{HasCommit, HasPart, fits};

use base_types::{Block, digest};
use layout_journal::{
    Commit, Descriptor, Entry, Header, MOST_ENTRIES, is_stored,
    journal_blocks_keep_to_their_bounds, read_commit, read_descriptor,
};

/// The newer of the headers of slot 0 and slot 1, and its slot, or `None` exactly where neither slot has
/// one. Slot 0 wins a tie.
pub fn newer_header(first: Option<Header>, second: Option<Header>) -> Option<(u32, Header)>
    ensures found { (n : ℕ) (img : Blocks) → first ≡ header_of n (img 0) → second ≡ header_of n (img 1) → IfSome result (λ p. Newest n img p.0 p.1) }
    ensures missing { (n : ℕ) (img : Blocks) → first ≡ header_of n (img 0) → second ≡ header_of n (img 1) → result ≡ None
        → (slot : ℕ) (h : headers.Header) → ¬ Newest n img slot h }
    ensures within { (n : ℕ) → IfSome first (IsWithinDisk n) → IfSome second (IsWithinDisk n) → IfSome result (λ p. IsWithinDisk n p.1) }
    ensures slot { IfSome result (λ p. p.0 < 2) }
{
    match first {
        None => match second {
            None => None,
            Some(one) => Some((1, one)),
        },
        Some(zero) => match second {
            None => Some((0, zero)),
            Some(one) => {
                if zero.turn < one.turn {
                    Some((1, one))
                } else {
                    Some((0, zero))
                }
            }
        },
    }
}

/// The commit block in this block, if it is of the header's epoch and of the number `before` above its
/// start.
pub fn commit_in(block: &Block, header: &Header, before: u64) -> Option<Commit>
    ensures found { (img : Blocks) (place : ℕ) → block.now ≡ img (ring_block header.now.geom place)
        → IfSome result (HasCommit img header.now (header.now.start + before) place) }
    ensures missing { (img : Blocks) (place : ℕ) → block.now ≡ img (ring_block header.now.geom place) → result ≡ None → (c : commits.Commit)
        → ¬ HasCommit img header.now (header.now.start + before) place c }
    ensures within { IfSome result (IsWithinRing header.now.geom) }
{
    journal_blocks_keep_to_their_bounds();
    let commit = read_commit(block, &header.geom).ok()?;
    if commit.epoch != header.epoch {
        return None;
    }
    if commit.number < header.start {
        return None;
    }
    if commit.number - header.start != before {
        return None;
    }
    Some(commit)
}

/// The descriptor in this block, if it is of the header's epoch, this number and this index.
pub fn descriptor_in(block: &Block, header: &Header, number: u64, index: u32) -> Option<Descriptor>
    ensures found { (img : Blocks) (place : ℕ) → block.now ≡ img (ring_block header.now.geom (place + 1 + index))
        → IfSome result (λ d. HasPart img header.now number place index d.entries) }
    ensures missing { (img : Blocks) (place : ℕ) → block.now ≡ img (ring_block header.now.geom (place + 1 + index)) → result ≡ None
        → (es : List listed.Entry) → ¬ HasPart img header.now number place index es }
{
    let descriptor = read_descriptor(block, &header.geom).ok()?;
    if descriptor.epoch != header.epoch {
        return None;
    }
    if descriptor.number != number {
        return None;
    }
    if descriptor.index != index {
        return None;
    }
    Some(descriptor)
}

/// How many entries the next descriptor of a record has, where so many are left.
pub fn part_length(left: usize) -> usize
    ensures { result ≡ min 24 left }
{
    if left < MOST_ENTRIES {
        left
    } else {
        MOST_ENTRIES
    }
}

/// Whether a payload, as it is in the journal, fits its entry.
pub fn fits(entry: &Entry, stored: &Block) -> bool
    ensures { result ≡ fits entry.now stored.now }
{
    if !has_digest(entry, stored) {
        return false;
    }
    is_stored(stored, entry.kind)
}

/// Whether the bytes have the digest of the entry.
pub fn has_digest(entry: &Entry, bytes: &Block) -> bool
    ensures { result ≡ bytes_eq (sha256 bytes.now) entry.now.digest }
{
    digest(bytes) == entry.digest
}
