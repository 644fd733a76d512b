//! The calls that issue a record: its fresh blocks, then its descriptors, then its payloads, and last its
//! commit block. Each is one write, and none is waited for. Which puts a record has isn't their matter.

ghost use Rattle.std.specs.Prelude.{◌≡◌, ◌<◌, ◌≤◌, ◌+◌, ◌^◌, ℕ, List, [], length, map, IsTrue, OnOk, OnErr, is_err, vec_len, vec_capacity};
ghost use Rattle.base_types.specs.Seal.{Blocks};
ghost use Rattle.disk_contract.specs.Cell.{cell_of};
ghost use Rattle.disk_contract.specs.Disk.{HasFailed, OnlyWrites};
ghost use Rattle.layout_geometry.specs.Geometry.{Geometry};
ghost use Rattle.layout_journal.specs.Layout.{descriptor_count};
ghost use Rattle.layout_journal.specs.Run.{places, heads};
ghost use Rattle.crash_argument.specs.Ledger.{Ledger, WrittenRecord};
ghost use Rattle.crash_argument.specs.Steps.{NoneIsBeingWritten};
ghost use Rattle.crash_argument.specs.Points.{MountedSession, IsSafe};
ghost use Rattle.crash_argument.specs.LastWrites.{FreshAreNew};
ghost use Rattle.crash_argument.specs.PipelineData.{PipelineData, DataAgree};
ghost use Rattle.crash_argument.specs.Recording.{IsNextRecord, IsPartlyWritten};
ghost use Rattle.engine_running.specs.Record.{record_of, descriptor_blocks, stored_put, written_of, AreBelow, AreLaid, AreParts};
ghost use Rattle.crash_argument.specs.Writes.{AddsAll};
ghost use Rattle.engine_running.specs.Writes.{fresh_write, ring_writes, record_writes};
ghost use Rattle.engine_running.specs.Commits.{RecordLeaves};

use crate::{Put, descriptor_at};
use base_types::Block;
use crash_argument::{write_fresh, write_last, write_part, writes_join_a_log_one_by_one};
use disk_contract::{Disk, DiskFault};
use layout_geometry::Geom;
use layout_journal::{
    Commit, descriptor_count, escape, ring_block, write_commit, write_descriptor,
};

/// Writes the fresh blocks of a record, in their order.
pub(crate) fn issue_fresh<D: Disk>(
    disk: &mut D,
    laid: &[Put],
    tickets: &mut Vec<u64>,
) -> Result<(), DiskFault>
    requires below { AreBelow (D.state disk.old).blocks laid.now }
    requires room { vec_len tickets.old + length laid.now ≤ vec_capacity tickets.old }
    ensures under_way { IsTrue D.tells → (s : MountedSession) (l : Ledger) (p : PipelineData) (w : WrittenRecord) (m : Blocks) (t floor issued : ℕ)
        → FreshAreNew l → IsNextRecord l w m → AreLaid laid.now w
        → IsSafe s (D.state disk.old).base (D.state disk.old).log l t floor
        → IsPartlyWritten (D.state disk.old).base (D.state disk.old).log l p w tickets.old.items 0 issued
        → IsSafe s (D.state disk.new).base (D.state disk.new).log l t floor
        × OnOk result (IsPartlyWritten (D.state disk.new).base (D.state disk.new).log l p w tickets.new.items (length laid.now) issued) }
    ensures log { IsTrue D.tells → AddsAll (map fresh_write laid.now) result tickets.old.items tickets.new.items (D.state disk.old).log (D.state disk.new).log }
    ensures spends { OnlyWrites (is_err result) (D.state disk.old) (D.state disk.new) }
    ensures cause { IsTrue D.tells → OnErr result (HasFailed (D.state disk.new)) }
    ensures taken { OnOk result (vec_len tickets.new ≡ vec_len tickets.old + length laid.now) }
    ensures capacity { vec_capacity tickets.old ≤ vec_capacity tickets.new }
{
    writes_join_a_log_one_by_one();
    for put in laid {
        let ticket = write_fresh(disk, put.block, put.bytes.bytes())?;
        tickets.push(ticket).unwrap();
    }
    Ok(())
}

/// Writes the descriptors of a record behind the place of its commit block.
pub(crate) fn issue_descriptors<D: Disk>(
    disk: &mut D,
    geom: &Geom,
    epoch: u64,
    number: u64,
    place: u32,
    paid: &[Put],
    laid: &[Put],
    tickets: &mut Vec<u64>,
) -> Result<(), DiskFault>
    requires on_disk { (D.state disk.old).blocks ≡ geom.now.n }
    requires begins { place < geom.now.j }
    requires small { length paid.now + length laid.now ≤ 2097152 }
    requires room { vec_len tickets.old + descriptor_count (length paid.now + length laid.now) ≤ vec_capacity tickets.old }
    ensures under_way { IsTrue D.tells → (s : MountedSession) (l : Ledger) (p : PipelineData) (w : WrittenRecord) (m : Blocks)
        (t floor laid_so_far : ℕ) → FreshAreNew l → IsNextRecord l w m
        → geom.now ≡ l.geom → place ≡ w.says.place → AreParts w 1 (descriptor_blocks epoch (record_of number 0 paid.now laid.now))
        → 1 + descriptor_count (length paid.now + length laid.now) ≤ places w.says
        → IsSafe s (D.state disk.old).base (D.state disk.old).log l t floor
        → IsPartlyWritten (D.state disk.old).base (D.state disk.old).log l p w tickets.old.items laid_so_far 1
        → IsSafe s (D.state disk.new).base (D.state disk.new).log l t floor
        × OnOk result (IsPartlyWritten (D.state disk.new).base (D.state disk.new).log l p w tickets.new.items laid_so_far
        (1 + descriptor_count (length paid.now + length laid.now))) }
    ensures log { IsTrue D.tells → AddsAll (ring_writes geom.now (place + 1) (descriptor_blocks epoch (record_of number 0 paid.now laid.now))) result
        tickets.old.items tickets.new.items (D.state disk.old).log (D.state disk.new).log }
    ensures spends { OnlyWrites (is_err result) (D.state disk.old) (D.state disk.new) }
    ensures cause { IsTrue D.tells → OnErr result (HasFailed (D.state disk.new)) }
    ensures taken { OnOk result (vec_len tickets.new ≡ vec_len tickets.old + descriptor_count (length paid.now + length laid.now)) }
    ensures capacity { vec_capacity tickets.old ≤ vec_capacity tickets.new }
{
    geom.lawful();
    writes_join_a_log_one_by_one();
    let mut block: Block = [0; 1024];
    for index in 0..descriptor_count((paid.len() + laid.len()) as u32) {
        let descriptor = descriptor_at(epoch, number, index, paid, laid);
        write_descriptor(&descriptor, &mut block);
        let ticket = write_part(disk, ring_block(geom, place + 1 + index), &block)?;
        tickets.push(ticket).unwrap();
    }
    Ok(())
}

/// Writes the payloads of a record into the ring, from this place on, as the journal stores them.
pub(crate) fn issue_payloads<D: Disk>(
    disk: &mut D,
    geom: &Geom,
    first: u32,
    paid: &[Put],
    tickets: &mut Vec<u64>,
) -> Result<(), DiskFault>
    requires on_disk { (D.state disk.old).blocks ≡ geom.now.n }
    requires begins { first ≤ 2 ^ 20 }
    requires small { length paid.now ≤ 2097152 }
    requires room { vec_len tickets.old + length paid.now ≤ vec_capacity tickets.old }
    ensures under_way { IsTrue D.tells → (s : MountedSession) (l : Ledger) (p : PipelineData) (w : WrittenRecord) (m : Blocks) (t floor laid from : ℕ)
        → FreshAreNew l → IsNextRecord l w m
        → geom.now ≡ l.geom → first ≡ w.says.place + from → 0 < from → from + length paid.now ≤ places w.says → AreParts w from (map stored_put paid.now)
        → IsSafe s (D.state disk.old).base (D.state disk.old).log l t floor
        → IsPartlyWritten (D.state disk.old).base (D.state disk.old).log l p w tickets.old.items laid from
        → IsSafe s (D.state disk.new).base (D.state disk.new).log l t floor
        × OnOk result (IsPartlyWritten (D.state disk.new).base (D.state disk.new).log l p w tickets.new.items laid (from + length paid.now)) }
    ensures log { IsTrue D.tells → AddsAll (ring_writes geom.now first (map stored_put paid.now)) result tickets.old.items tickets.new.items
        (D.state disk.old).log (D.state disk.new).log }
    ensures spends { OnlyWrites (is_err result) (D.state disk.old) (D.state disk.new) }
    ensures cause { IsTrue D.tells → OnErr result (HasFailed (D.state disk.new)) }
    ensures taken { OnOk result (vec_len tickets.new ≡ vec_len tickets.old + length paid.now) }
    ensures capacity { vec_capacity tickets.old ≤ vec_capacity tickets.new }
{
    writes_join_a_log_one_by_one();
    let mut stored: Block = [0; 1024];
    let mut at = first;
    for put in paid {
        escape(put.bytes.bytes(), &mut stored);
        let ticket = write_part(disk, ring_block(geom, at), &stored)?;
        tickets.push(ticket).unwrap();
        at += 1;
    }
    Ok(())
}

/// Writes a record: its fresh blocks, its descriptors, its payloads, and last its commit block. None of
/// them is waited for.
pub(crate) fn issue_record<D: Disk>(
    disk: &mut D,
    geom: &Geom,
    epoch: u64,
    number: u64,
    place: u32,
    paid: &[Put],
    laid: &[Put],
    tickets: &mut Vec<u64>,
) -> Result<(), DiskFault>
    requires on_disk { (D.state disk.old).blocks ≡ geom.now.n }
    requires begins { place < geom.now.j }
    requires small { length paid.now + length laid.now ≤ 2097152 }
    requires ends { places (record_of 0 0 paid.now laid.now) ≤ geom.now.j }
    requires below { AreBelow (D.state disk.old).blocks laid.now }
    requires none { tickets.old.items ≡ [] }
    requires room { length laid.now + places (record_of 0 0 paid.now laid.now) ≤ vec_capacity tickets.old }
    ensures leaves { IsTrue D.tells → (s : MountedSession) (l : Ledger) (p : PipelineData) (m : Blocks) (t floor : ℕ)
        → IsNextRecord l (written_of epoch number place paid.now laid.now) m → geom.now ≡ l.geom
        → NoneIsBeingWritten (cell_of (D.state disk.old).base (D.state disk.old).log) l → DataAgree (D.state disk.old).base (D.state disk.old).log l p
        → IsSafe s (D.state disk.old).base (D.state disk.old).log l t floor
        → RecordLeaves s l p (written_of epoch number place paid.now laid.now) m t floor result tickets.new.items (D.state disk.new).base
        (D.state disk.new).log }
    ensures log { IsTrue D.tells → AddsAll (record_writes geom.now epoch number place paid.now laid.now) result tickets.old.items tickets.new.items
        (D.state disk.old).log (D.state disk.new).log }
    ensures spends { OnlyWrites (is_err result) (D.state disk.old) (D.state disk.new) }
    ensures cause { IsTrue D.tells → OnErr result (HasFailed (D.state disk.new)) }
    ensures taken { OnOk result (length tickets.new.items ≡ length laid.now + places (record_of 0 0 paid.now laid.now)) }
{
    geom.lawful();
    issue_fresh(disk, laid, tickets)?;
    issue_descriptors(disk, geom, epoch, number, place, paid, laid, tickets)?;
    let descriptors = descriptor_count((paid.len() + laid.len()) as u32);
    issue_payloads(disk, geom, place + 1 + descriptors, paid, tickets)?;
    let commit = Commit {
        epoch,
        number,
        descriptors,
        payloads: paid.len() as u32,
        fresh: laid.len() as u32,
    };
    let mut block: Block = [0; 1024];
    write_commit(&commit, &mut block);
    let ticket = write_last(disk, ring_block(geom, place), &block)?;
    tickets.push(ticket).unwrap();
    Ok(())
}
