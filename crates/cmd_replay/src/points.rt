//! The newest sync point of a trace, of those that a crash after some events may leave, whose tree has a listing.
//! Neither a disk nor an image is known here.

ghost use Rattle.std.specs.Prelude.{◌≡◌, IfOk};
ghost use Rattle.lang_tree.specs.Points.{floor, promised_by};
ghost use Rattle.cmd_replay.specs.Newest.{IsNewest};
ghost use Rattle.cmd_replay.specs.Points.{IsMarked, floor_at, points_in, top_at};
ghost use Rattle.cmd_replay.specs.Walking.{IsListedAs};

use crate::walk::{Tally, Walk};
use base_types::NoMemory;
use cmd_trace_reader::Trace;
use lang_tree::Reply;
use std::alloc::Global;

/// The newest of the points that a crash after `moment` events may leave whose tree has this listing. The commands of
/// the trace are run once, and the last points alone are compared; where none of them has it, they are run again, and
/// all are.
///
/// # Errors
/// Out of memory.
pub fn newest_point(
    alloc: Global,
    trace: &Trace,
    moment: u64,
    text: &[u8],
) -> Result<Option<u64>, NoMemory>
    requires { IsMarked trace.now }
    ensures { IfOk result (λ newest. IsNewest (IsListedAs text.now) (points_in trace.now) (floor_at moment trace.now) (top_at moment trace.now) newest) }
{
    let floor = floor_by(trace.replies(), trace.marks(), moment);
    let late = last_told_by(trace.replies(), trace.marks(), moment).max(floor);
    let at_last = search(alloc, trace, moment, late, text)?;
    if at_last.newest.is_some() || late <= floor {
        return Ok(at_last.newest);
    }
    let found = search(alloc, trace, moment, floor, text)?;
    Ok(found.newest)
}

// Counts the points that began by `moment`, and finds the newest from `low` on whose tree has this listing.
fn search(
    alloc: Global,
    trace: &Trace,
    moment: u64,
    low: u64,
    text: &[u8],
) -> Result<Tally, NoMemory>
    requires { IsMarked trace.now }
    ensures { IfOk result (λ y. (y.last ≡ top_at moment trace.now) × IsNewest (IsListedAs text.now) (points_in trace.now) low y.last y.newest) }
{
    let geom = trace.geom();
    geom.lawful();
    let cmds = trace.commands();
    let replies = trace.replies();
    let marks = trace.marks();
    let mut walk = Walk::begin(alloc, geom.i(), geom.layout(), low, text)?;
    let mut begun = trace.mounted();
    let mut i = 0;
    while i < cmds.len() && begun <= moment {
        walk.take(alloc, &cmds[i], &replies[i], low, text)?;
        begun = marks[i];
        i += 1;
    }
    Ok(walk.tally())
}

// The greatest point that a reply to a sync told by `moment`. From it on there are few points or none, so it decides how
// soon a search ends. What the search finds doesn't depend on it.
fn last_told_by(replies: &[Reply], marks: &[u64], moment: u64) -> u64 {
    let mut greatest = 0;
    for (reply, mark) in replies.iter().zip(marks.iter()) {
        if *mark <= moment {
            greatest = told_by(reply).max(greatest);
        }
    }
    greatest
}

// The point that the reply to a sync tells.
fn told_by(reply: &Reply) -> u64 {
    match reply {
        Reply::Synced(point) | Reply::DurableAt(point) => *point,
        Reply::Ok
        | Reply::Bytes(_)
        | Reply::Stat(_)
        | Reply::Names(_)
        | Reply::Known(_)
        | Reply::Bad
        | Reply::Refused(_) => 0,
    }
}

// The greatest point that these replies promised by `moment`.
fn floor_by(replies: &[Reply], marks: &[u64], moment: u64) -> u64
    ensures { result ≡ floor moment replies.now marks.now }
{
    let mut greatest = 0;
    let mut i = 0;
    while i < replies.len() && i < marks.len() {
        if marks[i] <= moment {
            greatest = promised_by(&replies[i]).max(greatest);
        }
        i += 1;
    }
    greatest
}

// The point that a reply promises to be on the disk from then on.
fn promised_by(reply: &Reply) -> u64
    ensures { result ≡ promised_by reply.now }
{
    match reply {
        Reply::DurableAt(point) | Reply::Known(point) => *point,
        Reply::Ok
        | Reply::Bytes(_)
        | Reply::Stat(_)
        | Reply::Names(_)
        | Reply::Synced(_)
        | Reply::Bad
        | Reply::Refused(_) => 0,
    }
}
