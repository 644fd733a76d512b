//! Whether a record that is described is whole: its entries are in order, and its blocks on the disk fit
//! them.

ghost use Rattle.std.specs.Prelude.{◌≡◌, ◌↔◌, ◌+◌, ◌<◌, ◌^◌, ℕ, IsTrue, length, IfOk, slice_get, Some, is_err};
ghost use Rattle.base_types.specs.Seal.{Blocks};
ghost use Rattle.layout_journal.specs.declared.entry.Entry as listed;
ghost use Rattle.layout_journal.specs.Run.{IsWhole, heads};
ghost use Rattle.crash_record.specs.Found.{IsDescribed, payloads_fit, fresh_fit};
ghost use Rattle.engine_recover.specs.Reading.{Gives, Searches};

use crate::reading::{read_block, read_ring};
use crash_record::{Record, entries_fit, fits, has_digest, whole_records_pass_their_tests};
use disk_contract::{Disk, DiskFault};
use layout_geometry::Geom;
use layout_journal::{Entry, Header, entries_that_fit_keep_to_the_disk};

/// Whether a record whose commit block and descriptors stand is whole.
pub(crate) fn is_whole<D: Disk>(
    disk: &mut D,
    header: &Header,
    found: &Record,
) -> Result<bool, DiskFault>
    requires { (D.state disk.old).blocks ≡ header.now.geom.n }
    ensures whole { (img : Blocks) → Gives D.tells (D.state disk.old) img → IsDescribed img header.now found.now
        → IfOk result (λ b. IsTrue b ↔ IsWhole img header.now found.now) }
    ensures reads { Searches D.tells (is_err result) (D.state disk.old) (D.state disk.new) }
{
    whole_records_pass_their_tests();
    entries_that_fit_keep_to_the_disk();
    if !entries_fit(header.geom, found) {
        return Ok(false);
    }
    let stand = have_payloads(disk, header.geom, found)?;
    if !stand {
        return Ok(false);
    }
    if found.number() <= header.sure {
        return Ok(true);
    }
    let same = fresh_fit(disk, found.fresh())?;
    Ok(same)
}

/// Whether each payload of the record fits its entry.
fn have_payloads<D: Disk>(disk: &mut D, geom: Geom, found: &Record) -> Result<bool, DiskFault>
    requires { (D.state disk.old).blocks ≡ geom.n }
    ensures value { (img : Blocks) → Gives D.tells (D.state disk.old) img
        → IfOk result (λ b. b ≡ payloads_fit geom img (found.now.place + heads found.now) found.now.payloads) }
    ensures reads { Searches D.tells (is_err result) (D.state disk.old) (D.state disk.new) }
{
    let first = found.place() as usize + found.heads();
    payloads_fit(disk, geom, first, found.payloads())
}

/// Whether each payload, from this ring place on, fits its entry.
fn payloads_fit<D: Disk>(
    disk: &mut D,
    geom: Geom,
    first: usize,
    payloads: &[Entry],
) -> Result<bool, DiskFault>
    requires size { (D.state disk.old).blocks ≡ geom.n }
    requires room { first + length payloads.now < 2 ^ 64 }
    ensures value { (img : Blocks) → Gives D.tells (D.state disk.old) img → IfOk result (λ b. b ≡ payloads_fit geom img first payloads.now) }
    ensures reads { Searches D.tells (is_err result) (D.state disk.old) (D.state disk.new) }
{
    let mut place = first;
    for entry in payloads {
        let mut stored = [0u8; 1024];
        read_ring(disk, geom, place, &mut stored)?;
        if !fits(entry, &stored) {
            return Ok(false);
        }
        place += 1;
    }
    Ok(true)
}

/// Whether each fresh block has the digest of its entry.
fn fresh_fit<D: Disk>(disk: &mut D, fresh: &[Entry]) -> Result<bool, DiskFault>
    requires { (i : ℕ) (e : listed.Entry) → slice_get fresh.now i ≡ Some e → e.block < (D.state disk.old).blocks }
    ensures value { (img : Blocks) → Gives D.tells (D.state disk.old) img → IfOk result (λ b. b ≡ fresh_fit img fresh.now) }
    ensures reads { Searches D.tells (is_err result) (D.state disk.old) (D.state disk.new) }
{
    for entry in fresh {
        let mut bytes = [0u8; 1024];
        read_block(disk, entry.block, &mut bytes)?;
        if !has_digest(entry, &bytes) {
            return Ok(false);
        }
    }
    Ok(true)
}
