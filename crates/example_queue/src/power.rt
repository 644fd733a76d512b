//! The disk below, which is one in memory: a new one, and the one that a power cut leaves. What a crash may leave is
//! described in docs/DISK.md.

ghost use Rattle.std.specs.Prelude.{◌≡◌, true, length, IfOk};
ghost use Rattle.base_types.specs.Seal.{blocks_of};
ghost use Rattle.disk_contract.specs.Crash.{IsImage};
ghost use Rattle.disk_memory.specs.MemDisk.{state_of as disk_state};
ghost use Rattle.cmd_image.specs.Mounted.{IsFresh};

use base_types::NoMemory;
use disk_contract::Disk;
use disk_memory::{Choice, Image, ImageRefusal, MemDisk, Rule};
use std::alloc::Global;

/// For how many writes a disk has room, from one power cut to the next.
const ROOM: u32 = 2_000;

/// A disk in memory of so many blocks of zeros.
///
/// # Errors
/// Out of memory.
pub fn new_disk(alloc: Global, blocks: u32) -> Result<MemDisk, NoMemory>
    ensures { IfOk result (λ disk. (disk_state disk).blocks ≡ blocks) }
{
    let image = Image::zeros(alloc, blocks)?;
    let disk = switched_on(alloc, image)?;
    Ok(disk)
}

/// The disk that a power cut leaves of this one by a choice, which says what becomes of the writes that aren't durable.
///
/// # Errors
/// A write that the choice names isn't pending; or out of memory.
pub fn after_a_power_cut(
    alloc: Global,
    disk: &MemDisk,
    choice: &Choice,
) -> Result<MemDisk, ImageRefusal>
    ensures fresh { IfOk result (λ next. IsFresh true (disk_state next)) }
    ensures crash { IfOk result (λ next. IsImage (disk_state disk.now).blocks (disk_state disk.now).base (disk_state disk.now).log (disk_state next).base) }
{
    let image = disk.image(alloc, disk.moment(), choice)?;
    let next = switched_on(alloc, image)?;
    Ok(next)
}

/// A disk in memory of the blocks of an image, whose polls bring the notices of the writes in their order.
///
/// # Errors
/// Out of memory.
fn switched_on(alloc: Global, image: Image) -> Result<MemDisk, NoMemory>
    ensures base { IfOk result (λ disk. (disk_state disk).base ≡ blocks_of image) }
    ensures blocks { IfOk result (λ disk. (disk_state disk).blocks ≡ length image) }
    ensures fresh { IfOk result (λ disk. IsFresh true (disk_state disk)) }
{
    let mut disk = MemDisk::of_image(alloc, image, ROOM)?;
    disk.notices(Rule::Fifo);
    Ok(disk)
}
