//! The greatest epoch on a disk, which the next mount's must be above.

ghost use Rattle.std.specs.Prelude.{◌≡◌, ◌<◌, ◌≤◌, ℕ, max, IfOk, is_err};
ghost use Rattle.base_types.specs.Seal.{Blocks};
ghost use Rattle.layout_journal.specs.Layout.{has_tag, commit_tag, descriptor_tag};
ghost use Rattle.engine_recover.specs.Reading.{Gives, Searches};
ghost use Rattle.engine_recover.specs.Epoch.{IsGreatestEpoch, is_of_record, record_epoch, header_epoch};

use crate::reading::{read_block, read_ring};
use base_types::{Block, ReadFault, is_sealed};
use disk_contract::{Disk, DiskFault};
use layout_bytes::number_8;
use layout_geometry::Geom;
use layout_journal::read_header;

/// The greatest epoch of the headers and of the sealed blocks of the journal that begin as a commit block
/// or descriptor does, or 0 where there is none. Nothing is written.
///
/// # Errors
/// A read failed, which the disk has counted.
pub fn greatest_epoch<D: Disk>(disk: &mut D, geom: &Geom) -> Result<u64, ReadFault>
    requires { (D.state disk.old).blocks ≡ geom.now.n }
    ensures value { (img : Blocks) → Gives D.tells (D.state disk.old) img → IfOk result (IsGreatestEpoch geom.now img) }
    ensures reads { Searches D.tells (is_err result) (D.state disk.old) (D.state disk.new) }
{
    match epoch_of_all(disk, *geom) {
        Ok(epoch) => Ok(epoch),
        Err(_) => Err(ReadFault),
    }
}

fn epoch_of_all<D: Disk>(disk: &mut D, geom: Geom) -> Result<u64, DiskFault>
    requires { (D.state disk.old).blocks ≡ geom.n }
    ensures value { (img : Blocks) → Gives D.tells (D.state disk.old) img → IfOk result (IsGreatestEpoch geom img) }
    ensures reads { Searches D.tells (is_err result) (D.state disk.old) (D.state disk.new) }
{
    let mut greatest = epoch_of_headers(disk, geom)?;
    for place in 0..geom.j() {
        let mut block = [0u8; 1024];
        read_ring(disk, geom, place as usize, &mut block)?;
        greatest = greater(greatest, record_epoch(&block));
    }
    Ok(greatest)
}

fn epoch_of_headers<D: Disk>(disk: &mut D, geom: Geom) -> Result<u64, DiskFault>
    requires { (D.state disk.old).blocks ≡ geom.n }
    ensures value { (img : Blocks) → Gives D.tells (D.state disk.old) img
        → IfOk result (λ e. e ≡ max (header_epoch geom.n (img 0)) (header_epoch geom.n (img 1))) }
    ensures reads { Searches D.tells (is_err result) (D.state disk.old) (D.state disk.new) }
{
    let first = epoch_in_slot(disk, geom, 0)?;
    let second = epoch_in_slot(disk, geom, 1)?;
    Ok(greater(first, second))
}

fn epoch_in_slot<D: Disk>(disk: &mut D, geom: Geom, slot: u32) -> Result<u64, DiskFault>
    requires size { (D.state disk.old).blocks ≡ geom.n }
    requires slot { slot < 2 }
    ensures value { (img : Blocks) → Gives D.tells (D.state disk.old) img → IfOk result (λ e. e ≡ header_epoch geom.n (img slot)) }
    ensures reads { Searches D.tells (is_err result) (D.state disk.old) (D.state disk.new) }
{
    geom.lawful();
    let mut block = [0u8; 1024];
    read_block(disk, slot, &mut block)?;
    Ok(header_epoch(&block, geom.n()))
}

fn greater(a: u64, b: u64) -> u64
    ensures { result ≡ max a b }
{
    if a < b { b } else { a }
}

fn header_epoch(block: &Block, blocks: u32) -> u64
    ensures { result ≡ header_epoch blocks block.now }
{
    match read_header(block, blocks) {
        Ok(header) => header.epoch,
        Err(_) => 0,
    }
}

fn record_epoch(block: &Block) -> u64
    ensures { result ≡ record_epoch block.now }
{
    if !is_of_record(block) {
        return 0;
    }
    number_8(block.as_slice(), 8)
}

/// The tags are looked at first, so that of other blocks no digest is taken.
fn is_of_record(block: &Block) -> bool
    ensures { result ≡ is_of_record block.now }
{
    if is_commit(block) {
        return is_sealed(block);
    }
    if is_descriptor(block) {
        return is_sealed(block);
    }
    false
}

fn is_commit(block: &Block) -> bool
    ensures { result ≡ has_tag commit_tag block.now }
{
    &block[..8] == b"OPTC0001".as_slice()
}

fn is_descriptor(block: &Block) -> bool
    ensures { result ≡ has_tag descriptor_tag block.now }
{
    &block[..8] == b"OPTD0001".as_slice()
}
