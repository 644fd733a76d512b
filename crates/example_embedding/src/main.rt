//! The program `example_embedding`: the library as a builder of a storage stack uses it. It has a disk of its own
//! (`counted`), formats it, and has sessions over it (`serving`), before each of which the power is cut (`power`). What it
//! asks is in `story`, and what it writes (`report`) is compared with the file `stdout`. It is described in
//! docs/EMBEDDING.md.
#![tactic(auto)]

mod counted;
mod power;
mod report;
mod serving;
mod story;

use anyhow::Result;
use counted::CountedDisk;
use disk_memory::MemDisk;
use engine_store::mkfs;
use lang_tree::Reply;
use layout_geometry::Geom;
use power::{after_a_power_cut, new_disk};
use report::{write_formatting, write_session};
use serving::serve;
use std::alloc::Global;
use std::io::{BufWriter, Write};
use std::process::ExitCode;
use story::{FIRST, LATER, commands};

/// Formats a disk and has two sessions over it. It exits with 0 exactly where both ended durable.
fn main(rt: HostRuntime) -> Result<ExitCode> {
    let alloc = rt.alloc();
    let mut out = BufWriter::new(alloc, rt.stdout())?;
    let geom = Geom::new(256, 64, 32)?;
    let mut disk = new_disk(alloc, geom.n())?;
    mkfs(alloc, &mut disk, &geom)?;
    write_formatting(&mut out, disk.written())?;
    let (disk, first) = session(alloc, &mut out, disk, FIRST.as_slice())?;
    let (_, later) = session(alloc, &mut out, disk, LATER.as_slice())?;
    out.flush()?;
    if first && later {
        Ok(ExitCode::SUCCESS)
    } else {
        Ok(ExitCode::FAILURE)
    }
}

/// Cuts the power, has a session over what that leaves, and writes what was answered. The disk, and whether all of the
/// session is durable.
///
/// # Errors
/// Why no file system was opened; the writer's; or out of memory.
fn session<W: Write>(
    alloc: Global,
    out: &mut W,
    disk: CountedDisk<MemDisk>,
    lines: &[&str],
) -> Result<(CountedDisk<MemDisk>, bool)> {
    let cmds = commands(alloc, lines)?;
    let disk = after_a_power_cut(alloc, disk)?;
    match serve(alloc, disk, cmds.as_slice()) {
        Ok(answered) => {
            write_session(alloc, out, cmds.as_slice(), &answered)?;
            let durable = is_durable(&answered.kept);
            Ok((answered.disk, durable))
        }
        Err((_, why)) => Err(why.into()),
    }
}

/// Whether this reply to a dsync says that it was done.
fn is_durable(reply: &Reply) -> bool {
    matches!(reply, Reply::DurableAt(_))
}
