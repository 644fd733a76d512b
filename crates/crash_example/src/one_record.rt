//! The life of one record over any disk, through the guarded calls: its blocks are written, waited for,
//! made durable by a header, brought to their place, and released by another header. It shows that the
//! laws fit one another, and that calls in a wrong order are refused; a pipeline is not its matter.

ghost use Rattle.std.specs.Prelude.{◌≡◌, ◌<◌, ◌≤◌, ℕ, List, [], length, IsTrue, OnOk, is_err};
ghost use Rattle.base_types.specs.Seal.{Blocks};
ghost use Rattle.disk_contract.specs.Disk.{OnlyWrites, SpendsUpTo};
ghost use Rattle.crash_argument.specs.Counts.{WriteCounts, AreWithinSum, AreCounted};
ghost use Rattle.crash_argument.specs.Ledger.{Ledger, WrittenRecord, cells_of};
ghost use Rattle.crash_argument.specs.PipelineData.{PipelineData, DataAgreeOn, AreRightOn, AreFreed, AllNoticed};
ghost use Rattle.crash_argument.specs.Points.{MountedSession, IsSafeOn, StaysSafe};
ghost use Rattle.crash_argument.specs.Recording.{IsNextRecord};
ghost use Rattle.crash_argument.specs.Steps.{NoneIsBeingWritten};
ghost use Rattle.crash_example.specs.OneRecord.{AreOnDisk, HasNoRecord, KeepsCount, IsWrittenAs, IsSettledBy, RecordLeaves, KnownLeaves, ReleasedLeaves};
ghost use Rattle.crash_example.specs.OneRecord.{AddsInOrder, AddsAmidNotices, writes_of, writes_of_life};

use crate::settling::{checkpoint, make_sure};
use base_types::Block;
use crash_argument::{
    noticed_records_are_known, records_become_durable, the_counts_are_of_the_log, wait_for,
    write_fresh, write_last, write_part, writes_keep_within_the_sum,
};
use disk_contract::{Disk, DiskFault};

/// The blocks of a record of one descriptor, one payload and one fresh block, and where they go.
#[derive(Clone, Copy)]
pub struct OneRecord {
    /// The block of the ring that the commit block goes to.
    pub commit_block: u32,
    pub commit: Block,
    pub descriptor_block: u32,
    pub descriptor: Block,
    pub payload_block: u32,
    /// The payload as it is stored in the ring.
    pub payload: Block,
    pub fresh_block: u32,
    pub fresh: Block,
}

/// What settles that record: two headers, and between them the write of the payload to its own block.
#[derive(Clone, Copy)]
pub struct Settling {
    /// The slot of the header that is durable before.
    pub slot: u32,
    /// The block of the header that makes the record sure.
    pub sure: Block,
    /// The payload's own block, and its bytes.
    pub home_block: u32,
    pub home: Block,
    /// The block of the header that releases the record.
    pub release: Block,
}

/// Writes a record and waits until it is durable; makes it sure by a header; writes its payload home;
/// and releases it by another header. Each of these is waited for before the next begins.
///
/// # Errors
/// The first call of the disk that failed. What a crash leaves then still stands for one sync point.
pub fn serve_one_record<D: Disk>(
    disk: &mut D,
    record: &OneRecord,
    settling: &Settling,
) -> Result<(), DiskFault>
    requires blocks { AreOnDisk «record».now (D.state disk.old).blocks }
    requires home { settling.now.home_block < (D.state disk.old).blocks }
    requires slot { settling.now.slot < 2 }
    requires slots { 2 ≤ (D.state disk.old).blocks }
    ensures released { IsTrue D.tells → (s : MountedSession) (l : Ledger) (p : PipelineData) (w : WrittenRecord) (m : Blocks) (t floor : ℕ)
        (freed : List ℕ) → HasNoRecord l p → IsWrittenAs l w «record».now → IsNextRecord l w m → AreFreed l w m freed → IsSettledBy l w m settling.now
        → IsSafeOn s (D.state disk.old) l t floor → DataAgreeOn (D.state disk.old) l p → NoneIsBeingWritten (cells_of (D.state disk.old)) l
        → ReleasedLeaves s l w m t floor result (D.state disk.new) }
    ensures log { IsTrue D.tells → AddsInOrder (writes_of_life «record».now settling.now) result (D.state disk.old).log (D.state disk.new).log }
    ensures counts { IsTrue D.tells → (mounted : ℕ) (c : WriteCounts) → mounted ≤ length (D.state disk.old).log → c.coming ≡ 0 → AreWithinSum c
        → AreCounted mounted (D.state disk.old).log c
        → KeepsCount mounted c result (D.state disk.new).log }
    ensures spends { SpendsUpTo (is_err result) 7 (D.state disk.old) (D.state disk.new) }
{
    writes_keep_within_the_sum();
    the_counts_are_of_the_log();
    settle_one_record(disk, record, settling)
}

/// The same, without its counts.
pub(crate) fn settle_one_record<D: Disk>(
    disk: &mut D,
    record: &OneRecord,
    settling: &Settling,
) -> Result<(), DiskFault>
    requires blocks { AreOnDisk «record».now (D.state disk.old).blocks }
    requires home { settling.now.home_block < (D.state disk.old).blocks }
    requires slot { settling.now.slot < 2 }
    requires slots { 2 ≤ (D.state disk.old).blocks }
    ensures released { IsTrue D.tells → (s : MountedSession) (l : Ledger) (p : PipelineData) (w : WrittenRecord) (m : Blocks) (t floor : ℕ)
        (freed : List ℕ) → HasNoRecord l p → IsWrittenAs l w «record».now → IsNextRecord l w m → AreFreed l w m freed → IsSettledBy l w m settling.now
        → IsSafeOn s (D.state disk.old) l t floor → DataAgreeOn (D.state disk.old) l p → NoneIsBeingWritten (cells_of (D.state disk.old)) l
        → ReleasedLeaves s l w m t floor result (D.state disk.new) }
    ensures log { IsTrue D.tells → AddsInOrder (writes_of_life «record».now settling.now) result (D.state disk.old).log (D.state disk.new).log }
    ensures spends { SpendsUpTo (is_err result) 7 (D.state disk.old) (D.state disk.new) }
{
    write_and_wait(disk, record)?;
    make_sure(disk, settling.slot, &settling.sure)?;
    checkpoint(disk, settling.home_block, &settling.home)?;
    make_sure(disk, 1 - settling.slot, &settling.release)?;
    Ok(())
}

/// Writes the blocks of a record, the commit block last, and gives their tickets.
pub(crate) fn write_record<D: Disk>(disk: &mut D, record: &OneRecord) -> Result<[u64; 4], DiskFault>
    requires blocks { AreOnDisk «record».now (D.state disk.old).blocks }
    ensures leaves { IsTrue D.tells → (s : MountedSession) (l : Ledger) (p : PipelineData) (w : WrittenRecord) (m : Blocks) (t floor : ℕ)
        → IsWrittenAs l w «record».now → IsNextRecord l w m
        → IsSafeOn s (D.state disk.old) l t floor → DataAgreeOn (D.state disk.old) l p → NoneIsBeingWritten (cells_of (D.state disk.old)) l
        → RecordLeaves s l p w m t floor result (D.state disk.new) }
    ensures log { IsTrue D.tells → AddsInOrder (writes_of «record».now) result (D.state disk.old).log (D.state disk.new).log }
    ensures spends { OnlyWrites (is_err result) (D.state disk.old) (D.state disk.new) }
{
    let fresh = write_fresh(disk, record.fresh_block, &record.fresh)?;
    let descriptor = write_part(disk, record.descriptor_block, &record.descriptor)?;
    let payload = write_part(disk, record.payload_block, &record.payload)?;
    let commit = write_last(disk, record.commit_block, &record.commit)?;
    Ok([fresh, descriptor, payload, commit])
}

/// Waits until all of a record is durable.
pub(crate) fn make_known<D: Disk>(disk: &mut D, tickets: &[u64; 4]) -> Result<(), DiskFault>
    ensures safe { IsTrue D.tells → (s : MountedSession) (l : Ledger) (t floor : ℕ) → StaysSafe s l t floor (D.state disk.old) (D.state disk.new) }
    ensures knows { IsTrue D.tells → (l : Ledger) (p : PipelineData) → AreRightOn (D.state disk.old) l p → AreRightOn (D.state disk.new) l p }
    ensures noticed { IsTrue D.tells → OnOk result (AllNoticed (D.state disk.new).log tickets.now) }
    ensures log { IsTrue D.tells → AddsAmidNotices [] [] (D.state disk.old).log (D.state disk.new).log }
    ensures spends { SpendsUpTo (is_err result) 4 (D.state disk.old) (D.state disk.new) }
{
    for ticket in tickets {
        wait_for(disk, *ticket)?;
    }
    Ok(())
}

/// Writes a record and waits until all of it is durable.
pub(crate) fn write_and_wait<D: Disk>(
    disk: &mut D,
    record: &OneRecord,
) -> Result<[u64; 4], DiskFault>
    requires blocks { AreOnDisk «record».now (D.state disk.old).blocks }
    ensures known { IsTrue D.tells → (s : MountedSession) (l : Ledger) (p : PipelineData) (w : WrittenRecord) (m : Blocks) (t floor : ℕ)
        (freed : List ℕ) → IsWrittenAs l w «record».now → IsNextRecord l w m
        → IsSafeOn s (D.state disk.old) l t floor → DataAgreeOn (D.state disk.old) l p → NoneIsBeingWritten (cells_of (D.state disk.old)) l
        → AreFreed l w m freed → l.records ≡ [] → KnownLeaves s l p w m freed t floor result (D.state disk.new) }
    ensures log { IsTrue D.tells → AddsInOrder (writes_of «record».now) result (D.state disk.old).log (D.state disk.new).log }
    ensures spends { SpendsUpTo (is_err result) 4 (D.state disk.old) (D.state disk.new) }
{
    records_become_durable();
    noticed_records_are_known();
    let tickets = write_record(disk, record)?;
    make_known(disk, &tickets)?;
    Ok(tickets)
}
