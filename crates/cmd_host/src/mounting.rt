//! The mount of a disk in memory that was just formatted, and the file system that is opened on it. A formatted disk is refused by
//! neither, but for a call of the disk that fails and for want of memory.

ghost use Rattle.std.specs.Prelude.{◌≡◌, ◌<◌, ◌≤◌, ◌+◌, ◌^◌, false, true, length, IfOk};
ghost use Rattle.disk_contract.specs.Cell.{has_lost};
ghost use Rattle.disk_contract.specs.Lawful.{IsLogOf};
ghost use Rattle.disk_contract.specs.Manner.{GoesBy, HasFailedBy};
ghost use Rattle.disk_memory.specs.MemDisk.{state_of as disk_state};
ghost use Rattle.engine_blocks.specs.Crashes.{StillAwaits};
ghost use Rattle.engine_store.specs.StoreOf.{state_of};
ghost use Rattle.fs_commands.specs.Opened.{blocks_in};
ghost use Rattle.cmd_host.specs.Disks.{HasFault, HoldsRoot, IsFormatted, IsMounted, ShowsRoot, setting_on};
ghost use Rattle.cmd_host.specs.Mounting.{Mounts};

use crate::disk::{Behaviour, formatted_disk};
use base_types::NoMemory;
use cmd_session::Served;
use crash_argument::the_formatted_disk_may_be_opened;
use crash_stands::{an_image_stands_for_one_tree, the_formatted_disk_stands_for_the_root};
use disk_contract::Disk;
use disk_memory::MemDisk;
use engine_store::{Store, StoreRefusal, the_data_of_a_formatted_disk_may_be_anything};
use fs_check::CheckRefusal;
use fs_session::nothing_is_taken_at_first;
use layout_geometry::Geom;
use layout_journal::{
    an_image_holds_one_map, journal_blocks_are_told_apart, the_formatted_disk_is_empty,
};
use std::alloc::Global;

/// A file system over a store on a disk in memory.
pub type System = Served<Store<MemDisk>>;

/// What came of a mount.
#[derive(Drop)]
pub enum Mounted {
    /// The file system, of which no command was asked yet.
    Opened(System),
    /// A call of the disk failed, and here is the disk.
    Failed(MemDisk),
}

/// Formats a disk, mounts it, and opens the file system on it.
///
/// # Errors
/// Out of memory.
pub fn begin(alloc: Global, geom: &Geom, behaviour: &Behaviour) -> Result<Mounted, NoMemory>
    ensures { IfOk result (λ mounted. Mounts (setting_on geom.now behaviour.now) mounted) }
{
    let disk = formatted_disk(alloc, geom, behaviour)?;
    let mounted = mount(alloc, geom, disk)?;
    Ok(mounted)
}

/// Mounts a disk that was just formatted with this geometry, and opens the file system on it.
///
/// # Errors
/// Out of memory.
fn mount(alloc: Global, geom: &Geom, disk: MemDisk) -> Result<Mounted, NoMemory>
    requires { IsFormatted geom.now (disk_state disk) }
    ensures { IfOk result (λ mounted. Mounts (record { shape = geom.now; manner = (disk_state disk).manner }) mounted) }
{
    geom.lawful();
    the_formatted_disk_is_empty();
    the_formatted_disk_may_be_opened();
    the_formatted_disk_stands_for_the_root();
    the_data_of_a_formatted_disk_may_be_anything();
    an_image_stands_for_one_tree();
    an_image_holds_one_map();
    journal_blocks_are_told_apart();
    match Store::mount(alloc, disk) {
        Ok(store) => {
            let mounted = open(alloc, geom, store)?;
            Ok(mounted)
        }
        Err((disk, StoreRefusal::DiskFault)) => Ok(failed(geom, disk)),
        Err((disk, StoreRefusal::ReadFault)) => Ok(failed(geom, disk)),
        Err((_, StoreRefusal::NoMemory)) => Err(NoMemory),
        Err((_, StoreRefusal::NoHeader)) => unreachable!(),
        Err((_, StoreRefusal::BadBit(_))) => unreachable!(),
        Err((_, StoreRefusal::Spent)) => unreachable!(),
    }
}

/// Opens the file system of a store that was just mounted on a formatted disk.
///
/// # Errors
/// Out of memory.
fn open(alloc: Global, geom: &Geom, store: Store<MemDisk>) -> Result<Mounted, NoMemory>
    requires { IsMounted geom.now (state_of disk_state store) }
    ensures { IfOk result (λ mounted. Mounts (record { shape = geom.now; manner = (state_of disk_state store).counts.ticks.manner }) mounted) }
{
    geom.lawful();
    the_formatted_disk_is_empty();
    the_formatted_disk_stands_for_the_root();
    an_image_stands_for_one_tree();
    nothing_is_taken_at_first::<Store<MemDisk>>();
    match Served::open(alloc, store) {
        Ok(system) => {
            the_disk_keeps_to_its_manner(&system);
            Ok(Mounted::Opened(system))
        }
        Err((store, CheckRefusal::ReadFault)) => Ok(unread(geom, store)),
        Err((_, CheckRefusal::NoMemory)) => Err(NoMemory),
        Err((_, CheckRefusal::Damaged(_))) => unreachable!(),
    }
}

/// What came of a mount whose file system couldn't be read.
fn unread(geom: &Geom, store: Store<MemDisk>) -> Mounted
    requires shows { ShowsRoot geom.now (state_of disk_state store) }
    requires read { 0 < (state_of disk_state store).counts.read_faults }
    ensures { Mounts (record { shape = geom.now; manner = (state_of disk_state store).counts.ticks.manner }) result }
{
    // a call for its clause alone: how many blocks the disk has
    let _ = store.disk();
    failed(geom, store.into_disk())
}

/// What came of a mount in which a call of the disk failed.
fn failed(geom: &Geom, disk: MemDisk) -> Mounted
    requires holds { HoldsRoot geom.now (disk_state disk) }
    requires fault { HasFault (disk_state disk) }
    ensures { Mounts (record { shape = geom.now; manner = (disk_state disk).manner }) result }
{
    geom.lawful();
    the_formatted_disk_stands_for_the_root();
    the_data_of_a_formatted_disk_may_be_anything();
    an_image_stands_for_one_tree();
    a_disk_keeps_to_its_manner(&disk);
    Mounted::Failed(disk)
}

/// The log of the disk under a file system is one of as many blocks as the geometry says, and the number of its
/// events has 64 bits. The disk keeps to its manner; and where a call of it failed, it was the last one. Where its waits
/// bring the notice of their own ticket alone, a write was lost only where a failed call was counted. No point behind
/// the last one is known to be durable, and where the last point isn't known to be durable, the next one waits for a
/// ticket. This does nothing.
pub fn the_disk_keeps_to_its_manner(system: &System)
    ensures log { IsLogOf (state_of disk_state (blocks_in system.now)).books.geom.n (state_of disk_state (blocks_in system.now)).crash.log }
    ensures events { length (state_of disk_state (blocks_in system.now)).crash.log < 2 ^ 64 }
    ensures writes { GoesBy (state_of disk_state (blocks_in system.now)).counts.ticks.manner (state_of disk_state (blocks_in system.now)).crash.log }
    ensures reads { 0 < (state_of disk_state (blocks_in system.now)).counts.read_faults
        → (state_of disk_state (blocks_in system.now)).counts.ticks.manner.reads_fail ≡ true }
    ensures fails { (state_of disk_state (blocks_in system.now)).books.stopped ≡ true
        → ∥ HasFailedBy (state_of disk_state (blocks_in system.now)).counts.ticks.manner (state_of disk_state (blocks_in system.now)).crash.log ∥₁ }
    ensures unlost { (state_of disk_state (blocks_in system.now)).counts.ticks.manner.waits_alone ≡ true
        → (state_of disk_state (blocks_in system.now)).counts.faults ≡ 0 → has_lost (state_of disk_state (blocks_in system.now)).crash.log ≡ false }
    ensures floor { (state_of disk_state (blocks_in system.now)).books.floor ≤ (state_of disk_state (blocks_in system.now)).books.point }
    ensures waits { (state_of disk_state (blocks_in system.now)).books.stopped ≡ false
        → (state_of disk_state (blocks_in system.now)).books.floor < (state_of disk_state (blocks_in system.now)).books.point
        → ∥ StillAwaits (state_of disk_state (blocks_in system.now)) ((state_of disk_state (blocks_in system.now)).books.floor + 1) ∥₁ }
{
    system.lawful();
    system.blocks().lawful();
    a_disk_keeps_to_its_manner(system.blocks().disk());
}

/// The log of a disk is a lawful one of its number of blocks, and the number of its events has 64 bits. Its writes are
/// accepted and lost as its manner has it, and a read has failed only where one may. Where its waits bring the notice of
/// their own ticket alone, a write was lost only where a failed call was counted. This does nothing.
fn a_disk_keeps_to_its_manner(disk: &MemDisk)
    ensures log { IsLogOf (disk_state disk.now).blocks (disk_state disk.now).log }
    ensures events { length (disk_state disk.now).log < 2 ^ 64 }
    ensures writes { GoesBy (disk_state disk.now).manner (disk_state disk.now).log }
    ensures reads { 0 < (disk_state disk.now).read_faults → (disk_state disk.now).manner.reads_fail ≡ true }
    ensures unlost { (disk_state disk.now).manner.waits_alone ≡ true → (disk_state disk.now).faults ≡ 0 → has_lost (disk_state disk.now).log ≡ false }
{
    disk.lawful();
    let _ = disk.moment();
}
