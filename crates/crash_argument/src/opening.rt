//! The last step of a mount of a disk whose journal holds no record that counts: a header of a new epoch
//! beside the newest one, written and waited for, over any disk. Which header is the newest, and which
//! epoch is the greatest in the journal, is found elsewhere.

ghost use Rattle.std.specs.Prelude.{◌≡◌, ◌<◌, ◌≤◌, ◌-◌, ◌^◌, ℕ, true, List, [], length, IsTrue, OnOk, OnErr, is_err};
ghost use Rattle.base_types.specs.Seal.{Blocks};
ghost use Rattle.disk_contract.specs.Cell.{cell_of};
ghost use Rattle.disk_contract.specs.Crash.{Window};
ghost use Rattle.disk_contract.specs.Disk.{HasFailed, SpendsUpTo};
ghost use Rattle.layout_geometry.specs.Geometry.{Geometry, geometry_fits};
ghost use Rattle.layout_journal.specs.declared.header.Header.{Header};
ghost use Rattle.layout_journal.specs.Spelling.{header_block};
ghost use Rattle.layout_journal.specs.Run.{Record, IsRun, live_part};
ghost use Rattle.layout_journal.specs.Formatted.{empty_header, formatted};
ghost use Rattle.crash_argument.specs.Ledger.{cells_of, HoldsUnder};
ghost use Rattle.crash_argument.specs.Mounting.{HasBegun};
ghost use Rattle.crash_argument.specs.Replay.{IsFound, IsReplayed, found_map};
ghost use Rattle.crash_argument.specs.Opening.{opening_header, settled, IsReadyToOpen, AddsDurable, WritesOnce};

use crate::journal::the_journal_is_lawful;
use base_types::Block;
use disk_contract::{Disk, DiskFault};
use layout_journal::{
    Header, journal_blocks_are_told_apart, journal_blocks_read_back, the_formatted_disk_is_empty,
    write_header,
};

/// The header that opens a journal after this one, whose last record has the number `last`: an epoch above
/// all on the disk, the next turn, and no record. The next record is the one behind the last, and will begin
/// at the first ring place.
pub fn opening_header(newest: &Header, last: u64, greatest_epoch: u64) -> Header
    requires epoch { greatest_epoch < 2 ^ 64 - 1 }
    requires turn { newest.now.turn < 2 ^ 64 - 1 }
    requires last { last < 2 ^ 64 - 1 }
    ensures { result ≡ opening_header newest.now last greatest_epoch }
{
    Header {
        epoch: greatest_epoch + 1,
        turn: newest.turn + 1,
        start: last + 1,
        sure: last,
        at: 0,
        closed: false,
        geom: newest.geom,
    }
}

/// Writes that header beside the newest one, which is in this slot, and waits for it. On `Ok` the
/// disk is mounted, and a session begins with what was settled as its point 0. Whatever comes of the calls, each
/// honest image since holds what was there, where no
/// record of the journal counts.
///
/// # Errors
/// A call failed, which the disk has counted. The newest header stands as it did; the other may stand
/// beside it, or come there later.
pub fn open_journal<D: Disk>(
    disk: &mut D,
    slot: u32,
    newest: &Header,
    last: u64,
    greatest_epoch: u64,
) -> Result<(), DiskFault>
    requires slot { slot < 2 }
    requires within { 2 ≤ (D.state disk.old).blocks }
    requires epoch { greatest_epoch < 2 ^ 64 - 1 }
    requires turn { newest.now.turn < 2 ^ 64 - 1 }
    requires last { last < 2 ^ 64 - 1 }
    ensures opened { IsTrue D.tells → IsReadyToOpen (cells_of (D.state disk.old)) slot newest.now greatest_epoch
        → OnOk result (HasBegun (D.state disk.new) newest.now.geom (1 - slot) (opening_header newest.now last greatest_epoch)
        (length (D.state disk.new).log) (live_part newest.now.geom (settled (cells_of (D.state disk.old))))) }
    ensures holds { IsTrue D.tells → IsReadyToOpen (cells_of (D.state disk.old)) slot newest.now greatest_epoch
        → IsRun (settled (cells_of (D.state disk.old))) newest.now []
        → Window newest.now.geom.n (D.state disk.old).base (D.state disk.new).log (length (D.state disk.old).log)
        (λ img. HoldsUnder newest.now.geom.n newest.now.geom img (found_map (settled (cells_of (D.state disk.old))) newest.now [])) }
    ensures replayed { IsTrue D.tells → (at : Blocks) (old_slot : ℕ) (h : Header) (run : List Record)
        → IsReadyToOpen (cells_of (D.state disk.old)) slot newest.now greatest_epoch → IsFound newest.now.geom.n at old_slot h run
        → IsReplayed (cells_of (D.state disk.old)) at h newest.now run
        → Window newest.now.geom.n (D.state disk.old).base (D.state disk.new).log (length (D.state disk.old).log)
        (λ img. HoldsUnder newest.now.geom.n h.geom img (found_map at h run)) }
    ensures log { IsTrue D.tells → AddsDurable (1 - slot) (header_block (opening_header newest.now last greatest_epoch)) result (D.state disk.old).log
        (D.state disk.new).log }
    ensures spends { SpendsUpTo (is_err result) 1 (D.state disk.old) (D.state disk.new) }
    ensures cause { IsTrue D.tells → OnErr result (HasFailed (D.state disk.new)) }
    ensures alone { IsTrue D.tells → WritesOnce (D.state disk.old).manner result (D.state disk.old).log (D.state disk.new).log }
{
    the_journal_is_lawful();
    journal_blocks_read_back();
    let header = opening_header(newest, last, greatest_epoch);
    let mut block: Block = [0; 1024];
    write_header(&header, &mut block);
    let ticket = disk.write(1 - slot, &block)?;
    disk.wait(ticket)?;
    Ok(())
}

/// The journal of a formatted disk may be opened, and no record of it counts: the conditions above can be
/// met.
pub fn the_formatted_disk_may_be_opened()
    ensures ready { (g : Geometry) → geometry_fits g ≡ true → IsReadyToOpen (cell_of (formatted g) []) 0 (empty_header g 1 1) 1 }
    ensures run { (g : Geometry) → geometry_fits g ≡ true → IsRun (settled (cell_of (formatted g) [])) (empty_header g 1 1) [] }
{
    the_journal_is_lawful();
    journal_blocks_are_told_apart();
    journal_blocks_read_back();
    the_formatted_disk_is_empty();
}
