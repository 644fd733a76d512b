//! Reading the journal's blocks: headers, commit blocks and descriptors, each refused unless it is
//! sealed and fits the grammar of its kind, with the first flaw that it has. Whether what is read fits its
//! neighbours, as a record's descriptors fit its commit block, is described by the search for the run.

ghost use Rattle.std.specs.Prelude.{◌≡◌, ◌≤◌, ◌+◌, ◌*◌, ◌&&◌, true, false, nat_le, nat_lt, length, Some, None, IfSome, IfErr};
ghost use Rattle.std.specs.Result.{result_ok};
ghost use Rattle.layout_geometry.specs.Geometry.{geometry_fits};
ghost use Rattle.layout_bytes.specs.Bytes.{field};
ghost use Rattle.layout_journal.specs.Flaws.{header_flaw, commit_flaw, descriptor_flaw};
ghost use Rattle.layout_journal.specs.Layout.{has_tag, layout_in, header_fields, header_fits, header_of, descriptor_count, commit_fields, commit_fits};
ghost use Rattle.layout_journal.specs.Layout.{commit_of, kind_of, first_named, entry_of, entries_in, descriptor_fits, descriptor_with, descriptor_of};

use crate::entry::ENTRY_LENGTH;
use crate::flaw::{commit_flaw, descriptor_flaw, header_flaw};
use crate::write::header_tag;
use crate::{BadRecord, Commit, Descriptor, Entries, Entry, EntryKind, Header, MOST_ENTRIES};
use base_types::{Block, Layout, is_sealed};
use layout_bytes::{has_zeros, number_4, number_8};
use layout_geometry::Geom;

/// How many bytes of a block its seal covers.
pub(crate) const BODY: usize = 992;

/// The bytes of a descriptor before its entries.
pub(crate) const DESCRIPTOR_HEAD: usize = 32;

/// The header that is in a block of a disk of `blocks` blocks.
///
/// # Errors
/// The block isn't sealed, or isn't within the grammar of a header, or is one of a disk of another size. The
/// first of its flaws is named.
pub fn read_header(block: &Block, blocks: u32) -> Result<Header, BadRecord>
    ensures value { result_ok result ≡ header_of blocks block.now }
    ensures why { IfErr result (λ why. why ≡ header_flaw blocks block.now) }
{
    match header_in(block, blocks) {
        Some(header) => Ok(header),
        None => Err(header_flaw(block, blocks)),
    }
}

#[tactic(auto, unfolding(crate::specs::Layout::header_of))]
fn header_in(block: &Block, blocks: u32) -> Option<Header>
    ensures { result ≡ header_of blocks block.now }
{
    let header = header_fields(block)?;
    if !is_sealed(block) || !header_fits(block, blocks, &header) {
        return None;
    }
    Some(header)
}

/// The commit block that is in a block of a disk of this geometry.
///
/// # Errors
/// The block isn't sealed, or isn't within the grammar of a commit block. The first of its flaws is named.
pub fn read_commit(block: &Block, geom: &Geom) -> Result<Commit, BadRecord>
    ensures value { result_ok result ≡ commit_of geom.now block.now }
    ensures why { IfErr result (λ why. why ≡ commit_flaw geom.now block.now) }
{
    match commit_in(block, geom) {
        Some(commit) => Ok(commit),
        None => Err(commit_flaw(block, geom)),
    }
}

#[tactic(auto, unfolding(crate::specs::Layout::commit_of))]
fn commit_in(block: &Block, geom: &Geom) -> Option<Commit>
    ensures { result ≡ commit_of geom.now block.now }
{
    let commit = commit_fields(block);
    if !is_sealed(block) || !commit_fits(block, geom, &commit) {
        return None;
    }
    Some(commit)
}

/// The descriptor that is in a block of a disk of this geometry.
///
/// # Errors
/// The block isn't sealed, or isn't within the grammar of a descriptor, or has an entry that isn't within the
/// grammar of entries. The first of its flaws is named.
pub fn read_descriptor(block: &Block, geom: &Geom) -> Result<Descriptor, BadRecord>
    ensures value { result_ok result ≡ descriptor_of geom.now block.now }
    ensures why { IfErr result (λ why. why ≡ descriptor_flaw block.now) }
{
    match descriptor_in(block, geom) {
        Some(descriptor) => Ok(descriptor),
        None => Err(descriptor_flaw(block)),
    }
}

#[tactic(auto, unfolding(crate::specs::Layout::descriptor_of))]
fn descriptor_in(block: &Block, geom: &Geom) -> Option<Descriptor>
    ensures { result ≡ descriptor_of geom.now block.now }
{
    if !is_sealed(block) {
        return None;
    }
    if !descriptor_fits(block) {
        return None;
    }
    let count = number_4(block.as_slice(), 28);
    let entries = entries_in(geom, count, &block[DESCRIPTOR_HEAD..])?;
    Some(descriptor_with(block, entries))
}

/// How many descriptors a record with so many entries has.
pub fn descriptor_count(entries: u32) -> u32
    ensures { result ≡ descriptor_count entries }
{
    entries.div_ceil(MOST_ENTRIES as u32)
}

pub(crate) fn has_tag(block: &Block, tag: &[u8]) -> bool
    ensures { result ≡ has_tag tag.now block.now }
{
    &block[..8] == tag
}

/// The layout that the last byte of a header's tag tells.
pub(crate) fn layout_in(block: &Block) -> Layout
    ensures { result ≡ layout_in block.now }
{
    Layout::of(u32::from(block[7]).saturating_sub(u32::from(b'0')))
}

/// The fields of a header, or `None` where they hold no geometry.
pub(crate) fn header_fields(block: &Block) -> Option<Header>
    ensures found { IfSome result (λ header. header ≡ header_fields block.now) }
    ensures missing { result ≡ None → geometry_fits (header_fields block.now).geom ≡ false }
{
    let bytes = block.as_slice();
    let geom = Geom::new_in(
        number_4(bytes, 48),
        number_4(bytes, 52),
        number_4(bytes, 56),
        layout_in(block),
    )
    .ok()?;
    Some(Header {
        epoch: number_8(bytes, 8),
        turn: number_8(bytes, 16),
        start: number_8(bytes, 24),
        sure: number_8(bytes, 32),
        at: number_4(bytes, 40),
        closed: number_4(bytes, 44) == 1,
        geom,
    })
}

fn header_fits(block: &Block, blocks: u32, header: &Header) -> bool
    ensures { result ≡ header_fits blocks block.now header.now }
{
    header.geom.lawful();
    if !has_tag(block, header_tag(header.geom.layout())) {
        return false;
    }
    if !numbers_fit(header) {
        return false;
    }
    if header.at >= header.geom.j() {
        return false;
    }
    if number_4(block.as_slice(), 44) > 1 {
        return false;
    }
    if header.geom.n() != blocks {
        return false;
    }
    has_zeros(block.as_slice(), 60, BODY)
}

/// Whether the epoch, the turn and the oldest record are counted from 1, and that record is at most one
/// past the records that are sure.
pub(crate) fn numbers_fit(header: &Header) -> bool
    ensures { result ≡ (nat_lt 0 header.now.epoch &&
        (nat_lt 0 header.now.turn && (nat_lt 0 header.now.start && nat_le header.now.start (header.now.sure + 1)))) }
{
    if header.epoch == 0 {
        return false;
    }
    if header.turn == 0 {
        return false;
    }
    if header.start == 0 {
        return false;
    }
    header.start - 1 <= header.sure
}

pub(crate) fn commit_fields(block: &Block) -> Commit
    ensures { result ≡ commit_fields block.now }
{
    let bytes = block.as_slice();
    Commit {
        epoch: number_8(bytes, 8),
        number: number_8(bytes, 16),
        descriptors: number_4(bytes, 24),
        payloads: number_4(bytes, 28),
        fresh: number_4(bytes, 32),
    }
}

fn commit_fits(block: &Block, geom: &Geom, commit: &Commit) -> bool
    ensures { result ≡ commit_fits geom.now block.now commit.now }
{
    if !has_tag(block, b"OPTC0001".as_slice()) {
        return false;
    }
    if commit.payloads == 0 {
        return false;
    }
    let entries = u64::from(commit.payloads) + u64::from(commit.fresh);
    if u64::from(commit.descriptors) != entries.div_ceil(MOST_ENTRIES as u64) {
        return false;
    }
    let places = 1 + u64::from(commit.descriptors) + u64::from(commit.payloads);
    if places > u64::from(geom.j()) {
        return false;
    }
    has_zeros(block.as_slice(), 36, BODY)
}

fn descriptor_fits(block: &Block) -> bool
    ensures few { result ≡ true → field block.now 28 4 ≤ 24 }
    ensures exact { result ≡ descriptor_fits block.now }
{
    if !has_tag(block, b"OPTD0001".as_slice()) {
        return false;
    }
    let count = number_4(block.as_slice(), 28);
    if count > MOST_ENTRIES as u32 {
        return false;
    }
    if count == 0 {
        return false;
    }
    let end = DESCRIPTOR_HEAD + ENTRY_LENGTH * (count as usize);
    has_zeros(block.as_slice(), end, BODY)
}

/// The fields of a descriptor with these entries.
fn descriptor_with(block: &Block, entries: Entries) -> Descriptor
    ensures { Some result ≡ descriptor_with block.now (Some entries) }
{
    let bytes = block.as_slice();
    Descriptor {
        epoch: number_8(bytes, 8),
        number: number_8(bytes, 16),
        index: number_4(bytes, 24),
        entries,
    }
}

/// The first `count` entries in these bytes, or `None` where one of them isn't within the grammar.
fn entries_in(geom: &Geom, count: u32, bytes: &[u8]) -> Option<Entries>
    requires few { count ≤ 24 }
    requires within { 40 * count ≤ length bytes.now }
    ensures { result ≡ entries_in geom.now count bytes.now }
{
    let mut entries = Entries::new();
    for k in 0..count {
        let at = ENTRY_LENGTH * (k as usize);
        let entry = read_entry(geom, &bytes[at..at + ENTRY_LENGTH])?;
        entries.push(entry);
    }
    Some(entries)
}

/// The entry in these 40 bytes, or `None` where they aren't within the grammar of entries.
#[tactic(auto, unfolding(crate::specs::Layout::entry_of))]
fn read_entry(geom: &Geom, bytes: &[u8]) -> Option<Entry>
    requires { length bytes.now ≡ 40 }
    ensures { result ≡ entry_of geom.now bytes.now }
{
    let kind = kind_of(bytes[4])?;
    if !has_zeros(bytes, 5, 8) {
        return None;
    }
    let block = number_4(bytes, 0);
    if block >= geom.n() {
        return None;
    }
    if block < first_named(geom, kind) {
        return None;
    }
    let mut digest = [0u8; 32];
    digest.copy_from_slice(&bytes[8..]);
    Some(Entry {
        block,
        kind,
        digest,
    })
}

fn kind_of(number: u8) -> Option<EntryKind>
    ensures { result ≡ kind_of number }
{
    match number {
        1 => Some(EntryKind::Payload),
        2 => Some(EntryKind::Fresh),
        3 => Some(EntryKind::Escaped),
        _ => None,
    }
}

fn first_named(geom: &Geom, kind: EntryKind) -> u32
    ensures { result ≡ first_named geom.now kind }
{
    match kind {
        EntryKind::Payload => geom.bitmap_start(),
        EntryKind::Fresh => geom.data_start(),
        EntryKind::Escaped => geom.bitmap_start(),
    }
}
