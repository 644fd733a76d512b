//! The recoverable run of a disk: record after record, as long as one may come. No ring place is read
//! twice: what is read of a record lies within the places that the records before it leave.

ghost use Rattle.std.specs.Prelude.{◌≡◌, ◌+◌, ◌≤◌, length, IfOk, IfSome};
ghost use Rattle.base_types.specs.Seal.{Blocks};
ghost use Rattle.layout_journal.specs.Run.{IsRun, places};
ghost use Rattle.crash_record.specs.Found.{Finds, MayCome};
ghost use Rattle.engine_recover.specs.Reading.{Gives, Searches, is_unread};

use crate::described::candidate_at;
use crate::reading::Stop;
use crate::whole::is_whole;
use crash_record::{
    Record, RecordList, runs_grow_by_the_next_record, whole_records_pass_their_tests,
};
use disk_contract::Disk;
use layout_journal::Header;
use std::alloc::Global;

/// The recoverable run of the disk's blocks under a header of its size: the longest list of whole
/// records from the header's start on.
///
/// # Errors
/// A read failed, or out of memory.
pub(crate) fn recoverable_run<D: Disk>(
    alloc: Global,
    disk: &mut D,
    header: &Header,
) -> Result<RecordList, Stop>
    requires { (D.state disk.old).blocks ≡ header.now.geom.n }
    ensures run { (img : Blocks) → Gives D.tells (D.state disk.old) img → IfOk result (IsRun img header.now) }
    ensures few { IfOk result (λ run. length run ≤ header.now.geom.j) }
    ensures reads { Searches D.tells (is_unread result) (D.state disk.old) (D.state disk.new) }
{
    runs_grow_by_the_next_record();
    let mut run = RecordList::new(alloc);
    let mut place = header.at;
    let mut left = header.geom.j() as usize;
    while let Some(next) = next_record(alloc, disk, header, run.len() as u64, place, left)? {
        left -= next.places();
        place = next.place_after(header.geom);
        run.push(next)?;
    }
    Ok(run)
}

/// The record that may come at this place, whose number is `before` above the header's start, where so
/// many ring places are left. Where none is left, nothing is read.
fn next_record<D: Disk>(
    alloc: Global,
    disk: &mut D,
    header: &Header,
    before: u64,
    place: u32,
    left: usize,
) -> Result<Option<Record>, Stop>
    requires { (D.state disk.old).blocks ≡ header.now.geom.n }
    ensures found { (img : Blocks) → Gives D.tells (D.state disk.old) img
        → IfOk result (Finds (MayCome img header.now left) (header.now.start + before) place) }
    ensures within { IfOk result (λ found. IfSome found (λ r. places r ≤ left)) }
    ensures reads { Searches D.tells (is_unread result) (D.state disk.old) (D.state disk.new) }
{
    whole_records_pass_their_tests();
    if left == 0 {
        return Ok(None);
    }
    let Some(found) = candidate_at(alloc, disk, header, before, place, left)? else {
        return Ok(None);
    };
    let whole = is_whole(disk, header, &found)?;
    if !whole {
        return Ok(None);
    }
    Ok(Some(found))
}
