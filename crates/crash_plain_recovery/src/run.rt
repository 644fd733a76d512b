//! The recoverable run: record after record, as long as one may come.

ghost use Rattle.std.specs.Prelude.{◌≡◌, ◌+◌, length, IfOk};
ghost use Rattle.base_types.specs.Seal.{blocks_of};
ghost use Rattle.layout_journal.specs.Run.{IsRun};
ghost use Rattle.crash_record.specs.Found.{Finds, MayCome};

use crate::whole::whole_record;
use base_types::{Block, NoMemory};
use crash_record::{Record, RecordList, runs_grow_by_the_next_record};
use layout_journal::Header;
use std::alloc::Global;

/// The recoverable run of an image under a header of a disk of its size: the longest list of whole
/// records from the header's start on.
///
/// # Errors
/// Out of memory.
pub fn recoverable_run(
    alloc: Global,
    image: &[Block],
    header: &Header,
) -> Result<RecordList, NoMemory>
    requires { length image.now ≡ header.now.geom.n }
    ensures { IfOk result (λ run. IsRun (blocks_of image.now) header.now run) }
{
    runs_grow_by_the_next_record();
    let mut run = RecordList::new(alloc);
    let mut place = header.at;
    let mut left = header.geom.j() as usize;
    while let Some(next) = next_record(alloc, image, header, run.len() as u64, place, left)? {
        left -= next.places();
        place = next.place_after(header.geom);
        run.push(next)?;
    }
    Ok(run)
}

/// The record that may come at this place, whose number is `before` above the header's start, where so
/// many ring places are left.
fn next_record(
    alloc: Global,
    image: &[Block],
    header: &Header,
    before: u64,
    place: u32,
    left: usize,
) -> Result<Option<Record>, NoMemory>
    requires { length image.now ≡ header.now.geom.n }
    ensures { IfOk result (Finds (MayCome (blocks_of image.now) header.now left) (header.now.start + before) place) }
{
    let Some(whole) = whole_record(alloc, image, header, before, place)? else {
        return Ok(None);
    };
    if header.closed && whole.number() > header.sure {
        return Ok(None);
    }
    if whole.places() > left {
        return Ok(None);
    }
    Ok(Some(whole))
}
