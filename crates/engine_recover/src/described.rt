//! The record that the commit block and the descriptors at a ring place of a disk describe, where it may
//! come at all. Whether its blocks fit its entries is looked at by the search for whole records.

ghost use Rattle.std.specs.Prelude.{◌≡◌, ◌↔◌, ◌+◌, ◌≤◌, ℕ, List, length, None, OnOk, IfOk, IfSome, IsTrue, ◌++◌, is_err};
ghost use Rattle.base_types.specs.Seal.{Blocks};
ghost use Rattle.layout_journal.specs.declared.record.Commit as commits;
ghost use Rattle.layout_journal.specs.declared.entry.Entry as listed;
ghost use Rattle.layout_journal.specs.Layout.{IsWithinRing};
ghost use Rattle.layout_journal.specs.Run as journal;
ghost use Rattle.crash_record.specs.Found.{Finds, IsDescribed, HasCommit, HasPart, HasParts};
ghost use Rattle.engine_recover.specs.Candidate.{IsCandidate, CommitMayCome};
ghost use Rattle.engine_recover.specs.Reading.{Gives, Searches, is_unread};

use crate::reading::{Stop, read_ring};
use base_types::NoMemory;
use crash_record::{
    Record, commit_in, descriptor_in, part_length, records_are_described_by_their_blocks,
};
use disk_contract::{Disk, DiskFault};
use layout_journal::{Commit, Descriptor, Entry, Header};
use std::alloc::Global;

/// The record at this place that is described, let in, and takes at most `left` ring places; its number
/// is `before` above the header's start. One that its commit block shuts out is read no further. Memory
/// is taken for the entries that were read, and not for those that a commit block only claims.
///
/// # Errors
/// A read failed, or out of memory.
pub(crate) fn candidate_at<D: Disk>(
    alloc: Global,
    disk: &mut D,
    header: &Header,
    before: u64,
    place: u32,
    left: usize,
) -> Result<Option<Record>, Stop>
    requires { (D.state disk.old).blocks ≡ header.now.geom.n }
    ensures found { (img : Blocks) → Gives D.tells (D.state disk.old) img
        → IfOk result (Finds (IsCandidate img header.now left) (header.now.start + before) place) }
    ensures within { IfOk result (λ o. IfSome o (λ r. journal.places r ≤ left)) }
    ensures reads { Searches D.tells (is_unread result) (D.state disk.old) (D.state disk.new) }
{
    records_are_described_by_their_blocks();
    let Some(commit) = commit_at(disk, header, before, place)? else {
        return Ok(None);
    };
    if !may_come(header, &commit, left) {
        return Ok(None);
    }
    let Some(entries) = described_entries(alloc, disk, header, &commit, place)? else {
        return Ok(None);
    };
    let found = Record::new(commit.number, place, entries, commit.payloads as usize)?;
    Ok(Some(found))
}

/// Whether the header lets the commit block's record in, and so many ring places are enough for it.
fn may_come(header: &Header, commit: &Commit, left: usize) -> bool
    requires { IsWithinRing header.now.geom commit.now }
    ensures { IsTrue result ↔ CommitMayCome header.now left commit.now }
{
    if header.closed && commit.number > header.sure {
        return false;
    }
    1 + commit.descriptors as usize + commit.payloads as usize <= left
}

/// The commit block at the place, if it is of the header's epoch and of the number `before` above its
/// start.
fn commit_at<D: Disk>(
    disk: &mut D,
    header: &Header,
    before: u64,
    place: u32,
) -> Result<Option<Commit>, DiskFault>
    requires { (D.state disk.old).blocks ≡ header.now.geom.n }
    ensures found { (img : Blocks) → Gives D.tells (D.state disk.old) img
        → IfOk result (λ o. IfSome o (HasCommit img header.now (header.now.start + before) place)) }
    ensures missing { (img : Blocks) → Gives D.tells (D.state disk.old) img
        → IfOk result (λ o. o ≡ None → (c : commits.Commit) → ¬ HasCommit img header.now (header.now.start + before) place c) }
    ensures within { IfOk result (λ o. IfSome o (IsWithinRing header.now.geom)) }
    ensures reads { Searches D.tells (is_err result) (D.state disk.old) (D.state disk.new) }
{
    let mut block = [0u8; 1024];
    read_ring(disk, header.geom, place as usize, &mut block)?;
    Ok(commit_in(&block, header, before))
}

/// All entries of the descriptors behind the commit block at the place.
fn described_entries<D: Disk>(
    alloc: Global,
    disk: &mut D,
    header: &Header,
    commit: &Commit,
    place: u32,
) -> Result<Option<Vec<Entry>>, Stop>
    requires size { (D.state disk.old).blocks ≡ header.now.geom.n }
    requires within { IsWithinRing header.now.geom commit.now }
    ensures found { (img : Blocks) → Gives D.tells (D.state disk.old) img → HasCommit img header.now commit.now.number place commit.now
        → IfOk result (λ o. IfSome o (λ list. HasParts img header.now commit.now.number place (commit.now.payloads + commit.now.fresh)
        commit.now.descriptors list.items)) }
    ensures missing { (img : Blocks) → Gives D.tells (D.state disk.old) img → HasCommit img header.now commit.now.number place commit.now
        → IfOk result (λ o. o ≡ None → (r : journal.Record) → r.number ≡ commit.now.number → r.place ≡ place → ¬ IsDescribed img header.now r) }
    ensures count { IfOk result (λ o. IfSome o (λ list. length list.items ≡ commit.now.payloads + commit.now.fresh)) }
    ensures reads { Searches D.tells (is_unread result) (D.state disk.old) (D.state disk.new) }
{
    records_are_described_by_their_blocks();
    let total = commit.payloads as usize + commit.fresh as usize;
    let mut list = Vec::new(alloc);
    for index in 0..commit.descriptors {
        let Some(descriptor) = descriptor_at(disk, header, commit.number, place, index)? else {
            return Ok(None);
        };
        let entries = descriptor.entries.as_slice();
        if entries.len() != part_length(total - list.len()) {
            return Ok(None);
        }
        add_all(&mut list, entries)?;
    }
    Ok(Some(list))
}

fn add_all(list: &mut Vec<Entry>, entries: &[Entry]) -> Result<(), NoMemory>
    ensures { OnOk result (list.new.items ≡ list.old.items ++ entries.now) }
{
    list.extend_from_slice(entries)?;
    Ok(())
}

/// Descriptor `index` behind the commit block at the place, if it is of the header's epoch and this
/// number.
fn descriptor_at<D: Disk>(
    disk: &mut D,
    header: &Header,
    number: u64,
    place: u32,
    index: u32,
) -> Result<Option<Descriptor>, DiskFault>
    requires { (D.state disk.old).blocks ≡ header.now.geom.n }
    ensures found { (img : Blocks) → Gives D.tells (D.state disk.old) img
        → IfOk result (λ o. IfSome o (λ d. HasPart img header.now number place index d.entries)) }
    ensures missing { (img : Blocks) → Gives D.tells (D.state disk.old) img
        → IfOk result (λ o. o ≡ None → (es : List listed.Entry) → ¬ HasPart img header.now number place index es) }
    ensures reads { Searches D.tells (is_err result) (D.state disk.old) (D.state disk.new) }
{
    let at = place as usize + 1 + index as usize;
    let mut block = [0u8; 1024];
    read_ring(disk, header.geom, at, &mut block)?;
    Ok(descriptor_in(&block, header, number, index))
}
