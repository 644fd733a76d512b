//! The program `example_queue`: a queue server over a log, as its builder has it. It takes jobs in batches (`queue`), hands
//! them out, and lets go of what is done; then the power is cut (`power`), and it is seen what is there. What is asked is
//! in `story`, and what it writes (`report`) is compared with the file `stdout`. It is described in docs/LOG.md.
#![tactic(auto)]

ghost use Rattle.std.specs.Prelude.{true, IfOk};
ghost use Rattle.disk_memory.specs.MemDisk.{state_of as disk_state};
ghost use Rattle.cmd_image.specs.Mounted.{IsFresh};

mod opening;
mod power;
mod queue;
mod report;
mod story;

use anyhow::Result;
use cmd_image::disk_back;
use disk_memory::{Choice, MemDisk};
use engine_store::{Store, mkfs};
use fs_log::AppLog;
use layout_geometry::Geom;
use opening::open_queue;
use power::{after_a_power_cut, new_disk};
use queue::take_batch;
use report::{write_acknowledged, write_cut, write_done, write_job, write_opening};
use std::alloc::Global;
use std::io::{BufWriter, Write};
use std::process::ExitCode;
use story::{DONE, EVENING, MORNING, NOON, Request, jobs_of};

/// Formats a disk, has the queue over it for a day, and shows two of the queues that a power cut may leave then.
fn main(rt: HostRuntime) -> Result<ExitCode> {
    let alloc = rt.alloc();
    let mut out = BufWriter::new(alloc, rt.stdout())?;
    let disk = day(alloc, &mut out)?;
    show_queues(alloc, &mut out, &disk)?;
    out.flush()?;
    Ok(ExitCode::SUCCESS)
}

/// A day of the queue on a new disk, which is handed back as it is when the power is cut.
///
/// # Errors
/// Why the queue wasn't opened, or a refusal of the log; the writer's; or out of memory.
fn day<W: Write>(alloc: Global, out: &mut W) -> Result<MemDisk> {
    let disk = formatted_disk(alloc)?;
    let mut log = open_queue(alloc, disk)?;
    work(alloc, out, &mut log)?;
    Ok(disk_back(log.into_fs().into_blocks()))
}

/// A new disk with a file system.
///
/// # Errors
/// Out of memory.
fn formatted_disk(alloc: Global) -> Result<MemDisk>
    ensures { IfOk result (λ disk. IsFresh true (disk_state disk)) }
{
    let geom = Geom::new(1024, 64, 32)?;
    let mut disk = new_disk(alloc, geom.n())?;
    mkfs(alloc, &mut disk, &geom)?;
    let disk = after_a_power_cut(alloc, &disk, &Choice::none(alloc))?;
    Ok(disk)
}

/// What the queue has to do on a day, up to a batch whose jobs are appended and ordered, and not yet acknowledged.
///
/// # Errors
/// A refusal of the log; the writer's; or out of memory.
fn work<W: Write>(alloc: Global, out: &mut W, log: &mut AppLog<Store<MemDisk>>) -> Result<()> {
    let (low, next) = log.range();
    write_opening(out, low, next)?;
    acknowledge(alloc, out, log, MORNING.as_slice())?;
    acknowledge(alloc, out, log, NOON.as_slice())?;
    hand_out(alloc, out, log, 0, DONE)?;
    let low = log.trim(alloc, DONE)?;
    log.order(alloc)?;
    write_done(out, low)?;
    let jobs = jobs_of(alloc, EVENING.as_slice())?;
    for job in jobs.iter() {
        log.append(alloc, job.as_slice())?;
    }
    log.order(alloc)?;
    Ok(())
}

/// Takes a batch, and acknowledges it.
///
/// # Errors
/// A refusal of the log; the writer's; or out of memory.
fn acknowledge<W: Write>(
    alloc: Global,
    out: &mut W,
    log: &mut AppLog<Store<MemDisk>>,
    requests: &[Request],
) -> Result<()> {
    let jobs = jobs_of(alloc, requests)?;
    let first = take_batch(alloc, log, jobs.as_slice())?;
    write_acknowledged(out, first, jobs.len())
}

/// Hands out the jobs from one number on, below the other.
///
/// # Errors
/// A refusal of the log; the writer's; or out of memory.
fn hand_out<W: Write>(
    alloc: Global,
    out: &mut W,
    log: &mut AppLog<Store<MemDisk>>,
    from: u32,
    until: u32,
) -> Result<()> {
    for number in from..until {
        let job = log.get(alloc, number)?;
        write_job(out, number, &job)?;
    }
    Ok(())
}

/// Shows the queues that a power cut leaves of a disk: without all writes that aren't durable, and with them.
///
/// # Errors
/// Why the queue wasn't opened, or a refusal of the log; the writer's; or out of memory.
fn show_queues<W: Write>(alloc: Global, out: &mut W, disk: &MemDisk) -> Result<()> {
    write_cut(out, "no pending write is there")?;
    show_queue(alloc, out, disk, &Choice::none(alloc))?;
    write_cut(out, "each pending write is there")?;
    show_queue(alloc, out, disk, &Choice::all(alloc))
}

/// Opens the queue that a power cut leaves by this choice, and hands out what is in it.
///
/// # Errors
/// As of `show_queues`.
fn show_queue<W: Write>(alloc: Global, out: &mut W, disk: &MemDisk, choice: &Choice) -> Result<()> {
    let left = after_a_power_cut(alloc, disk, choice)?;
    let mut log = open_queue(alloc, left)?;
    hand_out_all(alloc, out, &mut log)
}

/// Hands out all jobs that are in the queue.
///
/// # Errors
/// A refusal of the log; the writer's; or out of memory.
fn hand_out_all<W: Write>(
    alloc: Global,
    out: &mut W,
    log: &mut AppLog<Store<MemDisk>>,
) -> Result<()> {
    let (low, next) = log.range();
    write_opening(out, low, next)?;
    hand_out(alloc, out, log, low, next)
}
