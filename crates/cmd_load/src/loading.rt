//! A load from its beginning: a disk that was just formatted, the commands of the seed on it, and the summary.

ghost use Rattle.std.specs.Prelude.{◌≡◌, ◌≤◌, true, IfOk};
ghost use Rattle.disk_memory.specs.MemDisk.{state_of as disk_state};
ghost use Rattle.engine_store.specs.StoreOf.{state_of};
ghost use Rattle.fs_commands.specs.Opened.{IsReady, blocks_in};
ghost use Rattle.fs_session.specs.Sessions.{Stands};
ghost use Rattle.cmd_load.specs.Serving.{Serves};
ghost use Rattle.cmd_load.specs.Summary.{at_first, summary_of};

use crate::listed::digest_of;
use crate::mounting::{System, mount};
use crate::serving::serve;
use crate::summary::Summary;
use base_types::NoMemory;
use std::alloc::Global;

/// How many commands a load has at most.
pub const MOST_COMMANDS: u32 = 2_000;

/// Runs the first `count` commands of the seed on a disk in memory that was just formatted, and tells what they came to.
/// The disk has 4,096 blocks, 256 journal blocks and 256 nodes, and gives its notices by the seed, none where it is 0.
/// No notice changes the summary.
///
/// # Errors
/// Out of memory, or out of the room for writes that the disk in memory was given.
pub fn load(alloc: Global, seed: u32, count: u32) -> Result<Summary, NoMemory>
    requires { count ≤ 2000 }
    ensures { IfOk result (λ summary. summary ≡ summary_of seed count) }
{
    let fs = mount(alloc, seed)?;
    let summary = run(alloc, fs, seed, count)?;
    Ok(summary)
}

/// The same on a file system that was just opened, which isn't used any more.
///
/// # Errors
/// As of `load`.
fn run(alloc: Global, mut fs: System, seed: u32, count: u32) -> Result<Summary, NoMemory>
    requires most { count ≤ 2000 }
    requires begun { Serves at_first 0 (state_of disk_state (blocks_in fs)) }
    requires ready { IsReady true (λ s. state_of disk_state s) fs }
    requires stands { Stands (state_of disk_state (blocks_in fs)) }
    ensures { IfOk result (λ summary. summary ≡ summary_of seed count) }
{
    run_on(alloc, &mut fs, seed, count)
}

/// The same.
///
/// # Errors
/// As of `load`.
fn run_on(alloc: Global, fs: &mut System, seed: u32, count: u32) -> Result<Summary, NoMemory>
    requires most { count ≤ 2000 }
    requires begun { Serves at_first 0 (state_of disk_state (blocks_in fs.old)) }
    requires ready { IsReady true (λ s. state_of disk_state s) fs.old }
    requires stands { Stands (state_of disk_state (blocks_in fs.old)) }
    ensures { IfOk result (λ summary. summary ≡ summary_of seed count) }
{
    let refused = serve(alloc, fs, seed, count)?;
    let points = fs.figures().point;
    let digest = digest_of(alloc, fs)?;
    Ok(Summary::new(count, refused, points, digest))
}
