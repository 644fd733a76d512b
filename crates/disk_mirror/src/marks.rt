//! The marks of one disk of a mirror: what the mirror's marks are on it.

ghost use Rattle.std.specs.Prelude.{◌≡◌, ℕ, List, map, if◌then◌else◌, IfOk};
ghost use Rattle.disk_mirror.specs.Times.{came_on, mark_on, moment_on, times_on, was_live};

use crate::entry::{Came, Life, Side};
use disk_contract::Mark;
use std::alloc::{AllocError, Global};

/// The marks of a disk for these of the mirror, where it had so many events as each event of the mirror came.
///
/// # Errors
/// Out of memory.
pub(crate) fn marks_on(
    alloc: Global,
    times: &[Came],
    side: Side,
    life: Life,
    marks: &[Mark],
) -> Result<Vec<Mark>, AllocError>
    ensures { IfOk result (λ own. own.items ≡ map (mark_on (times_on side times.now) life) marks.now) }
{
    marks
        .iter()
        .map(move |mark| mark_on(times, side, life, *mark))
        .collect(alloc)
}

// The mark of a disk for one of the mirror.
fn mark_on(times: &[Came], side: Side, life: Life, mark: Mark) -> Mark
    ensures { result ≡ mark_on (times_on side times.now) life mark }
{
    let moment = moment_on(times, side, mark.moment);
    if was_live(life, mark) {
        return Mark {
            moment,
            read_faults: 0,
            faults: 0,
        };
    }
    Mark {
        moment,
        read_faults: life.read_faults,
        faults: life.faults,
    }
}

// The disk's moment when the mirror had so many events.
fn moment_on(times: &[Came], side: Side, events: u64) -> u64
    ensures { result ≡ moment_on events (times_on side times.now) }
{
    if events == 0 {
        return 0;
    }
    if events > times.len() as u64 {
        return 0;
    }
    came_on(&times[events as usize - 1], side)
}

// Whether the mark was made while the disk was live.
fn was_live(life: Life, mark: Mark) -> bool
    ensures { result ≡ was_live life mark }
{
    life.live || mark.moment <= life.end
}

// How many events this disk had.
fn came_on(came: &Came, side: Side) -> u64
    ensures { result ≡ came_on side came.now }
{
    match side {
        Side::First => came.first,
        Side::Second => came.second,
    }
}
