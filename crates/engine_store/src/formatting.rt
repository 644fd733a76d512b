//! The formatting of a disk, in three groups of writes, each of which is waited for before the next begins:
//! zeros over what a journal may have left, then the bitmap and the node table, then the first header. So
//! the disk has a header only once all that it stands on is durable. The bytes of the blocks are described
//! by `layout_journal`, and a crash in the middle is promised nothing.

ghost use Rattle.std.specs.Prelude.{◌≡◌, ◌≤◌, ◌<◌, ◌+◌, ◌-◌, IsTrue, IfOk, IfErr, OnErr, OnOk, is_err, true, length, max, vec_capacity};
ghost use Rattle.disk_contract.specs.Disk.{AddsNotices, HasFailed, OnlyWrites, SpendsUpTo};
ghost use Rattle.layout_geometry.specs.Geometry.{bitmap_start, data_start};
ghost use Rattle.layout_journal.specs.Formatted.{formatted};
ghost use Rattle.crash_argument.specs.PipelineData.{AllNoticed};
ghost use Rattle.crash_argument.specs.Writes.{AddsWrites};
ghost use Rattle.engine_mount.specs.Mount.{IsIdle};
ghost use Rattle.engine_store.specs.Formatting.{AllAccepted, fails_formatting, content_of, row_of, AddsDurably, AddsFormatting, WritesBelow};
ghost use Rattle.engine_store.specs.Formatting.{IsFormattedOver, LeavesFormatted, MkfsSpends};
ghost use Rattle.engine_store.specs.declared.formatting.MkfsRefusal.TheVariants as refused;

use crate::laws::the_data_of_a_formatted_disk_may_be_anything;
use base_types::limits::BLOCK_LENGTH;
use base_types::{Block, NoMemory};
use crash_argument::writes_join_a_log_one_by_one;
use disk_contract::{Disk, DiskFault};
use layout_geometry::Geom;
use layout_journal::{formatted_block, the_formatted_disk_is_empty};
use std::alloc::Global;
use std::error::Error;
use std::fmt;

/// Why a disk wasn't formatted.
#[derive(Clone, Copy, Debug)]
pub enum MkfsRefusal {
    /// A write or a wait failed, which the disk has counted.
    DiskFault,
    /// Out of memory.
    NoMemory,
}

impl fmt::Display for MkfsRefusal {
    fn fmt<W: fmt::Write>(&self, f: &mut fmt::Formatter<W>) -> fmt::Result {
        match self {
            MkfsRefusal::DiskFault => write!(f, "a write or a wait of the disk failed"),
            MkfsRefusal::NoMemory => write!(f, "out of memory"),
        }
    }
}

impl Error for MkfsRefusal {}

/// What a row of blocks gets.
#[derive(Clone, Copy)]
enum Content {
    Zeros,
    /// What each block has on the formatted disk.
    Formatted,
}

/// Formats a disk of as many blocks as the geometry says: it writes all blocks before the data, and waits
/// until they are durable. The blocks of the data stay as they are. All memory is taken before the first
/// write.
///
/// # Errors
/// `DiskFault` comes of a write or a wait that failed as the disk's manner lets it, which the disk has counted; what is in the blocks
/// before the data isn't known then. `NoMemory` comes of want of memory, and nothing is written.
pub fn mkfs<D: Disk>(alloc: Global, disk: &mut D, geom: &Geom) -> Result<(), MkfsRefusal>
    requires size { (D.state disk.old).blocks ≡ geom.now.n }
    ensures formatted { IsTrue D.tells → IsIdle (D.state disk.old) → OnOk result (IsFormattedOver geom.now (D.state disk.old) (D.state disk.new)) }
    ensures idle { IsTrue D.tells → IsIdle (D.state disk.old) → LeavesFormatted geom.now result (D.state disk.old) (D.state disk.new) }
    ensures adds { IsTrue D.tells → OnOk result (AddsFormatting geom.now (D.state disk.old).log (D.state disk.new).log) }
    ensures below { IsTrue D.tells → WritesBelow (data_start geom.now) (D.state disk.old).log (D.state disk.new).log }
    ensures memory { IfErr result (λ why. why ≡ refused.NoMemory → disk.new ≡ disk.old) }
    ensures spends { MkfsSpends result (data_start geom.now + 1) (D.state disk.old) (D.state disk.new) }
    ensures cause { IsTrue D.tells → fails_formatting result ≡ true → HasFailed (D.state disk.new) }
{
    the_formatted_disk_is_empty();
    the_data_of_a_formatted_disk_may_be_anything();
    geom.lawful();
    let Ok(mut tickets) = room_for_a_group(alloc, geom) else {
        return Err(MkfsRefusal::NoMemory);
    };
    match write_groups(disk, geom, &mut tickets) {
        Ok(()) => Ok(()),
        Err(DiskFault) => Err(MkfsRefusal::DiskFault),
    }
}

/// Room for as many tickets as the greatest group has.
///
/// # Errors
/// Out of memory.
fn room_for_a_group(alloc: Global, geom: &Geom) -> Result<Vec<u64>, NoMemory>
    ensures { IfOk result (λ tickets. vec_capacity tickets ≡ max (bitmap_start geom.now) (data_start geom.now - bitmap_start geom.now)) }
{
    geom.lawful();
    let cleared = geom.bitmap_start();
    let laid = geom.data_start() - cleared;
    let tickets = Vec::with_capacity(alloc, cleared.max(laid) as usize)?;
    Ok(tickets)
}

/// Writes the three groups, and waits behind each. The list is for the tickets of a group.
fn write_groups<D: Disk>(disk: &mut D, geom: &Geom, tickets: &mut Vec<u64>) -> Result<(), DiskFault>
    requires size { (D.state disk.old).blocks ≡ geom.now.n }
    requires room { max (bitmap_start geom.now) (data_start geom.now - bitmap_start geom.now) ≤ vec_capacity tickets.old }
    ensures adds { IsTrue D.tells → OnOk result (AddsFormatting geom.now (D.state disk.old).log (D.state disk.new).log) }
    ensures below { IsTrue D.tells → WritesBelow (data_start geom.now) (D.state disk.old).log (D.state disk.new).log }
    ensures spends { SpendsUpTo (is_err result) (data_start geom.now + 1) (D.state disk.old) (D.state disk.new) }
    ensures cause { IsTrue D.tells → OnErr result (HasFailed (D.state disk.new)) }
{
    geom.lawful();
    let bitmap = geom.bitmap_start();
    make_durable(disk, geom, Content::Zeros, 0, bitmap, tickets)?;
    make_durable(
        disk,
        geom,
        Content::Formatted,
        bitmap,
        geom.data_start(),
        tickets,
    )?;
    make_durable(disk, geom, Content::Formatted, 0, 1, tickets)?;
    Ok(())
}

/// Writes the blocks from `first` on and before `end`, and waits until they are durable.
fn make_durable<D: Disk>(
    disk: &mut D,
    geom: &Geom,
    content: Content,
    first: u32,
    end: u32,
    tickets: &mut Vec<u64>,
) -> Result<(), DiskFault>
    requires order { first ≤ end }
    requires within { end ≤ (D.state disk.old).blocks }
    requires room { end - first ≤ vec_capacity tickets.old }
    ensures adds { IsTrue D.tells → OnOk result
        (AddsDurably (row_of (content_of geom.now content) first (end - first)) (D.state disk.old).log (D.state disk.new).log) }
    ensures below { IsTrue D.tells → WritesBelow end (D.state disk.old).log (D.state disk.new).log }
    ensures room { vec_capacity tickets.new ≡ vec_capacity tickets.old }
    ensures spends { SpendsUpTo (is_err result) (end - first) (D.state disk.old) (D.state disk.new) }
    ensures cause { IsTrue D.tells → OnErr result (HasFailed (D.state disk.new)) }
{
    write_row(disk, geom, content, first, end, tickets)?;
    wait_for_all(disk, tickets)?;
    Ok(())
}

/// Writes the blocks from `first` on and before `end`, and takes their tickets in place of those in the list.
fn write_row<D: Disk>(
    disk: &mut D,
    geom: &Geom,
    content: Content,
    first: u32,
    end: u32,
    tickets: &mut Vec<u64>,
) -> Result<(), DiskFault>
    requires order { first ≤ end }
    requires within { end ≤ (D.state disk.old).blocks }
    requires room { end - first ≤ vec_capacity tickets.old }
    ensures accepted { IsTrue D.tells → OnOk result
        (AddsWrites (row_of (content_of geom.now content) first (end - first)) tickets.new.items (D.state disk.old).log (D.state disk.new).log) }
    ensures taken { OnOk result (length tickets.new.items ≡ end - first) }
    ensures below { IsTrue D.tells → WritesBelow end (D.state disk.old).log (D.state disk.new).log }
    ensures room { vec_capacity tickets.new ≡ vec_capacity tickets.old }
    ensures spends { OnlyWrites (is_err result) (D.state disk.old) (D.state disk.new) }
    ensures cause { IsTrue D.tells → OnErr result (HasFailed (D.state disk.new)) }
{
    writes_join_a_log_one_by_one();
    tickets.clear();
    for b in first..end {
        let ticket = disk.write(b, &content_block(geom, content, b))?;
        tickets.push_reserved(ticket);
    }
    Ok(())
}

/// What block `b` of a row gets.
fn content_block(geom: &Geom, content: Content, b: u32) -> Block
    ensures { result ≡ content_of geom.now content b }
{
    match content {
        Content::Zeros => [0; BLOCK_LENGTH],
        Content::Formatted => formatted_block(geom, b),
    }
}

/// Waits for these tickets, one after another.
fn wait_for_all<D: Disk>(disk: &mut D, tickets: &[u64]) -> Result<(), DiskFault>
    ensures log { IsTrue D.tells → AddsNotices (D.state disk.old).log (D.state disk.new).log }
    ensures noticed { IsTrue D.tells → OnOk result (AllNoticed (D.state disk.new).log tickets.now) }
    ensures spends { SpendsUpTo (is_err result) (length tickets.now) (D.state disk.old) (D.state disk.new) }
    ensures cause { IsTrue D.tells → AllAccepted (D.state disk.old).log tickets.now → OnErr result (HasFailed (D.state disk.new)) }
{
    for ticket in tickets {
        disk.wait(*ticket)?;
    }
    Ok(())
}
