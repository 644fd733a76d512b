//! The newest header of a disk. What the journal holds under it isn't looked for here.

ghost use Rattle.std.specs.Prelude.{◌≡◌, ◌<◌, ℕ, IfOk, IfSome, None, Option, is_err};
ghost use Rattle.base_types.specs.Seal.{Blocks};
ghost use Rattle.layout_journal.specs.declared.header.Header as headers;
ghost use Rattle.layout_journal.specs.Layout.{header_of, IsWithinDisk};
ghost use Rattle.layout_journal.specs.Run.{Newest};
ghost use Rattle.engine_recover.specs.Reading.{Gives, Searches};

use crate::reading::read_block;
use crash_record::{headers_need_a_size, newer_header};
use disk_contract::{Disk, DiskFault};
use layout_journal::{Header, journal_blocks_keep_to_their_bounds, read_header};

/// The newest header of the disk and the slot in which it stands, or `None` exactly where neither slot
/// has a header.
///
/// # Errors
/// A read failed, which the disk has counted.
pub(crate) fn newest_header<D: Disk>(disk: &mut D) -> Result<Option<(u32, Header)>, DiskFault>
    ensures found { (img : Blocks) → Gives D.tells (D.state disk.old) img → IfOk result (λ o. IfSome o (λ p. Newest (D.state disk.old).blocks img p.0 p.1)) }
    ensures missing { (img : Blocks) → Gives D.tells (D.state disk.old) img
        → IfOk result (λ o. o ≡ None → (slot : ℕ) (h : headers.Header) → ¬ Newest (D.state disk.old).blocks img slot h) }
    ensures within { IfOk result (λ o. IfSome o (λ p. IsWithinDisk (D.state disk.old).blocks p.1)) }
    ensures slot { IfOk result (λ o. IfSome o (λ p. p.0 < 2)) }
    ensures reads { Searches D.tells (is_err result) (D.state disk.old) (D.state disk.new) }
{
    let first = header_in(disk, 0)?;
    let second = header_in(disk, 1)?;
    Ok(newer_header(first, second))
}

fn header_in<D: Disk>(disk: &mut D, slot: u32) -> Result<Option<Header>, DiskFault>
    requires { slot < 2 }
    ensures value { (img : Blocks) → Gives D.tells (D.state disk.old) img → IfOk result (λ o. o ≡ header_of (D.state disk.old).blocks (img slot)) }
    ensures within { IfOk result (λ o. IfSome o (IsWithinDisk (D.state disk.old).blocks)) }
    ensures reads { Searches D.tells (is_err result) (D.state disk.old) (D.state disk.new) }
{
    headers_need_a_size();
    journal_blocks_keep_to_their_bounds();
    let blocks = disk.blocks();
    if blocks <= slot {
        return Ok(None);
    }
    let mut block = [0u8; 1024];
    read_block(disk, slot, &mut block)?;
    Ok(read_header(&block, blocks).ok())
}
