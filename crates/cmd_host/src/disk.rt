//! The disk of a hosted session: that of a formatted image in memory, which brings its notices and fails a write as it is
//! asked to. What a disk in memory does is described in docs/DISK.md.

ghost use Rattle.std.specs.Prelude.{◌≡◌, IfOk};
ghost use Rattle.disk_memory.specs.declared.calls.DiskCall.TheVariants.{Write};
ghost use Rattle.cmd_host.specs.Behaving.{fails_of, rule_of};
ghost use Rattle.cmd_host.specs.Disks.{IsFormattedDisk};

use crate::image::formatted_image;
use base_types::NoMemory;
use cmd_words::Notices;
use disk_memory::{DiskCall, Fail, MemDisk, Rule};
use layout_geometry::Geom;
use std::alloc::Global;

/// How a disk in memory behaves.
#[derive(Clone, Copy, Debug, PartialEq, Eq)]
pub struct Behaviour {
    /// By which rule it brings its notices.
    pub notices: Notices,
    /// For how many writes it has room.
    pub room: u32,
    /// Which of its writes fails, counted from 1; or none does.
    pub fail: Option<u32>,
}

/// A disk that was just formatted with this geometry and behaves so. Nothing was written to it yet.
///
/// # Errors
/// Out of memory.
pub fn formatted_disk(
    alloc: Global,
    geom: &Geom,
    behaviour: &Behaviour,
) -> Result<MemDisk, NoMemory>
    ensures { IfOk result (λ disk. IsFormattedDisk geom.now behaviour.now disk) }
{
    let image = formatted_image(alloc, geom)?;
    let mut disk = MemDisk::of_image(alloc, image, behaviour.room)?;
    disk.notices(rule_of(behaviour.notices));
    let fails = fails_of(alloc, behaviour.fail)?;
    disk.fail_at(alloc, fails.as_slice())?;
    Ok(disk)
}

/// The rule of a disk in memory that the words name.
fn rule_of(notices: Notices) -> Rule
    ensures { result ≡ rule_of notices }
{
    match notices {
        Notices::Silent => Rule::Silent,
        Notices::Fifo => Rule::Fifo,
        Notices::Seed(seed) => Rule::Seed(seed),
    }
}

/// The calls that are to fail: the write of this number, counted from 1, or none.
///
/// # Errors
/// Out of memory.
fn fails_of(alloc: Global, fail: Option<u32>) -> Result<Vec<Fail>, NoMemory>
    ensures { IfOk result (λ fails. fails.items ≡ fails_of fail) }
{
    match fail {
        None => Ok(Vec::new(alloc)),
        Some(write) => {
            let mut fails = Vec::new(alloc);
            fails.push(failing_write(write))?;
            Ok(fails)
        }
    }
}

/// The write of this number as a call that is to fail.
fn failing_write(write: u32) -> Fail
    ensures { result ≡ record { kind = Write; nth = write } }
{
    Fail {
        kind: DiskCall::Write,
        nth: u64::from(write),
    }
}
