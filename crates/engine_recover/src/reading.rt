//! Reading a block of a disk, by its number or by its ring place. Nothing is written, and what a block
//! means isn't described here.

ghost use Rattle.std.specs.Prelude.{◌≡◌, ◌<◌, OnOk, is_err};
ghost use Rattle.base_types.specs.Seal.{Blocks};
ghost use Rattle.layout_geometry.specs.Geometry.{ring_block};
ghost use Rattle.engine_recover.specs.Reading.{Gives, Searches};

use base_types::{Block, NoMemory};
use disk_contract::{Disk, DiskFault};
use layout_geometry::Geom;

/// How many header slots are before the ring.
const HEADERS: usize = 2;

/// Why a search stopped before its end.
#[derive(Clone, Copy)]
pub enum Stop {
    /// A read failed, which the disk has counted.
    ReadFault,
    /// No memory was found.
    NoMemory,
}

impl From<NoMemory> for Stop {
    ghost use Rattle.std.specs.Prelude.{◌≡◌};
    ghost use Rattle.engine_recover.specs.declared.reading.Stop.TheVariants.{NoMemory as OutOfMemory};

    ghost from_gives = { λ _ stop. stop ≡ OutOfMemory };

    fn from(_want: NoMemory) -> Stop {
        Stop::NoMemory
    }
}

impl From<DiskFault> for Stop {
    ghost use Rattle.std.specs.Prelude.{◌≡◌};
    ghost use Rattle.engine_recover.specs.declared.reading.Stop.TheVariants.{ReadFault as Unread};

    ghost from_gives = { λ _ stop. stop ≡ Unread };

    fn from(_fault: DiskFault) -> Stop {
        Stop::ReadFault
    }
}

/// Reads a block.
///
/// # Errors
/// The read failed, which the disk has counted.
pub(crate) fn read_block<D: Disk>(disk: &mut D, b: u32, into: &mut Block) -> Result<(), DiskFault>
    requires { b < (D.state disk.old).blocks }
    ensures gives { (img : Blocks) → Gives D.tells (D.state disk.old) img → OnOk result (into.new ≡ img b) }
    ensures reads { Searches D.tells (is_err result) (D.state disk.old) (D.state disk.new) }
{
    disk.read(b, into)
}

/// Reads the block of a ring place.
///
/// # Errors
/// The read failed, which the disk has counted.
pub(crate) fn read_ring<D: Disk>(
    disk: &mut D,
    geom: Geom,
    place: usize,
    into: &mut Block,
) -> Result<(), DiskFault>
    requires { (D.state disk.old).blocks ≡ geom.n }
    ensures gives { (img : Blocks) → Gives D.tells (D.state disk.old) img → OnOk result (into.new ≡ img (ring_block geom place)) }
    ensures reads { Searches D.tells (is_err result) (D.state disk.old) (D.state disk.new) }
{
    geom.lawful();
    read_block(disk, ring_block(geom, place), into)
}

/// The block of a ring place.
pub(crate) fn ring_block(geom: Geom, place: usize) -> u32
    ensures { result ≡ ring_block geom place }
{
    geom.lawful();
    (HEADERS + place % geom.j() as usize) as u32
}
