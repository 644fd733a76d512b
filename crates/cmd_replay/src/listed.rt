//! The listing of the tree for which an image stands: the image is mounted on a disk in memory, on which no call fails,
//! and the listing of its file system is kept as a text. Which image that is isn't said here.

ghost use Rattle.std.specs.Prelude.{◌≡◌, true, false, length, IfOk, IfErr};
ghost use Rattle.base_types.specs.Seal.{blocks_of};
ghost use Rattle.disk_memory.specs.MemDisk.{state_of as disk_state};
ghost use Rattle.engine_blocks.specs.Crashes.{IsBegun};
ghost use Rattle.engine_store.specs.StoreOf.{state_of};
ghost use Rattle.lang_tree.specs.Tree.{Tree};
ghost use Rattle.lang_tree.specs.Step.{Session};
ghost use Rattle.lang_tree.specs.Listing.{listing};
ghost use Rattle.crash_stands.specs.Stands.{IsTreeOf};
ghost use Rattle.fs_commands.specs.Opened.{IsReady, blocks_in};
ghost use Rattle.fs_session.specs.Sessions.{IsSession};
ghost use Rattle.cmd_session.specs.Images.{StandsMounted};
ghost use Rattle.cmd_replay.specs.Images.{RefusesImage};
ghost use Rattle.cmd_host.specs.Listed.{IsReadable};
ghost use Rattle.cmd_replay.specs.Mounted.{RefusesMap, resting_disk};

use crate::refusal::ReplayRefusal;
use base_types::NoMemory;
use cmd_host::listing_text;
use cmd_session::{ImageDamage, a_damaged_image_stands_for_no_tree};
use disk_contract::Disk;
use disk_memory::{Image, MemDisk};
use engine_store::{Store, StoreRefusal};
use fs_check::CheckRefusal;
use fs_commands::Fs;
use std::alloc::Global;

/// The listing of the tree for which an image stands, once it is mounted in memory.
///
/// # Errors
/// `Damaged` says what is broken in the image, and `Spent` that the numbers of its journal are at their end. Out of
/// memory.
pub(crate) fn listing_of(alloc: Global, image: Image) -> Result<Vec<u8>, ReplayRefusal>
    ensures listed { IfOk result (λ text. (tree : Tree) × StandsMounted (length image) (blocks_of image) tree × (text.items ≡ listing tree)) }
    ensures refused { IfErr result (RefusesImage (length image) (blocks_of image)) }
{
    // the room has 32 bits, so an image of 2^32 - 3 blocks or more is too large for this memory
    let room = image.blocks().checked_add(3).ok_or(NoMemory)?;
    let disk = MemDisk::of_image(alloc, image, room)?;
    list_disk(alloc, disk)
}

/// Mounts a disk that was just made, and lists its tree. It has room for one write more than a mount makes at most, and
/// so no write fails.
///
/// # Errors
/// As of `listing_of`.
fn list_disk(alloc: Global, disk: MemDisk) -> Result<Vec<u8>, ReplayRefusal>
    requires { disk ≡ resting_disk disk.base }
    ensures listed { IfOk result (λ text. (tree : Tree) × StandsMounted (length disk.base) (blocks_of disk.base) tree × (text.items ≡ listing tree)) }
    ensures refused { IfErr result (RefusesImage (length disk.base) (blocks_of disk.base)) }
{
    a_damaged_image_stands_for_no_tree();
    match Store::mount(alloc, disk) {
        Ok(store) => list_store(alloc, store),
        Err((_, StoreRefusal::NoHeader)) => Err(ReplayRefusal::Damaged {
            damage: ImageDamage::NoHeader,
        }),
        Err((_, StoreRefusal::BadBit(block))) => Err(ReplayRefusal::Damaged {
            damage: ImageDamage::BadBit { block },
        }),
        Err((_, StoreRefusal::Spent)) => Err(ReplayRefusal::Spent),
        Err((disk, StoreRefusal::ReadFault)) => {
            disk.lawful();
            unreachable!()
        }
        Err((_, StoreRefusal::DiskFault)) => unreachable!(),
        Err((_, StoreRefusal::NoMemory)) => Err(ReplayRefusal::NoMemory),
    }
}

/// Opens the file system of a store that was just mounted, and lists its tree.
///
/// # Errors
/// `Damaged` says what is broken in the map of blocks. Out of memory.
fn list_store(alloc: Global, store: Store<MemDisk>) -> Result<Vec<u8>, ReplayRefusal>
    requires begun { IsBegun (state_of disk_state store) }
    requires readable { IsReadable (state_of disk_state store) }
    ensures listed { IfOk result (λ text. (tree : Tree) × IsTreeOf (state_of disk_state store).books.geom (state_of disk_state store).map tree
        × (text.items ≡ listing tree)) }
    ensures refused { IfErr result (RefusesMap (state_of disk_state store).books.geom (state_of disk_state store).map) }
{
    match Fs::open(alloc, store) {
        Ok(fs) => {
            let text = list_fs(alloc, fs)?;
            Ok(text)
        }
        Err((_, CheckRefusal::Damaged(what))) => Err(ReplayRefusal::Damaged {
            damage: ImageDamage::Broken { what },
        }),
        Err((store, CheckRefusal::ReadFault)) => {
            store.disk().lawful();
            unreachable!()
        }
        Err((_, CheckRefusal::NoMemory)) => Err(ReplayRefusal::NoMemory),
    }
}

/// The listing of a file system, which isn't used any more.
///
/// # Errors
/// Out of memory.
fn list_fs(alloc: Global, mut fs: Fs<Store<MemDisk>>) -> Result<Vec<u8>, NoMemory>
    requires ready { IsReady true (λ s. state_of disk_state s) fs }
    requires going { (state_of disk_state (blocks_in fs)).books.stopped ≡ false }
    requires readable { IsReadable (state_of disk_state (blocks_in fs)) }
    ensures { IfOk result (λ text. (f : Session) → IsSession (state_of disk_state (blocks_in fs)) f → text.items ≡ listing f.tree) }
{
    listing_text(alloc, &mut fs)
}
