//! The first steps of a mount that has to replay, over any disk: a header beside the newest one that closes
//! its run, and then the run's blocks, one by one, each written and waited for. Which header is the newest,
//! and which run it has, is found elsewhere.

ghost use Rattle.std.specs.Prelude.{◌≡◌, ◌<◌, ◌≤◌, ◌+◌, ◌-◌, ◌^◌, ℕ, List, [], length, IsTrue, OnOk, OnErr, Some, None, is_err};
ghost use Rattle.base_types.specs.Seal.{Blocks};
ghost use Rattle.layout_geometry.specs.Geometry.{bitmap_start};
ghost use Rattle.layout_journal.specs.declared.header.Header.{Header};
ghost use Rattle.disk_contract.specs.Crash.{Window};
ghost use Rattle.disk_contract.specs.Disk.{HasFailed, SpendsUpTo};
ghost use Rattle.layout_journal.specs.Spelling.{header_block};
ghost use Rattle.layout_journal.specs.Run.{Record, covered_by};
ghost use Rattle.crash_argument.specs.Ledger.{cells_of, HoldsUnder};
ghost use Rattle.crash_argument.specs.Mounting.{IsReplayedUpTo};
ghost use Rattle.crash_argument.specs.PipelineData.{IsSettledIn};
ghost use Rattle.crash_argument.specs.Replay.{IsFound, IsReplaying, found_map};
ghost use Rattle.crash_argument.specs.Opening.{closed_header, last_number, settled, AddsDurable};

use crate::journal::the_journal_is_lawful;
use base_types::Block;
use disk_contract::{Disk, DiskFault};
use layout_journal::{Header, journal_blocks_read_back, write_header};

/// The header that closes the run of this one, whose last record has the number `last`.
pub fn closed_header(newest: &Header, last: u64) -> Header
    requires { newest.now.turn < 2 ^ 64 - 1 }
    ensures is { result ≡ closed_header newest.now last }
    ensures epoch { newest.now.epoch < 2 ^ 64 }
    ensures start { newest.now.start < 2 ^ 64 }
{
    Header {
        epoch: in_eight_bytes(newest.epoch),
        turn: newest.turn + 1,
        start: in_eight_bytes(newest.start),
        sure: last,
        at: newest.at,
        closed: true,
        geom: newest.geom,
    }
}

/// The number itself, which fits eight bytes.
fn in_eight_bytes(number: u64) -> u64
    ensures is { result ≡ number }
    ensures fits { number < 2 ^ 64 }
{
    number
}

/// Writes that header beside the newest one, which stands in this slot, and waits for it. On `Ok` the run may
/// be replayed, block by block. Whatever comes of the calls, each honest image since holds what was found.
///
/// # Errors
/// A call failed, which the disk has counted. The newest header stands as it did; the other may stand
/// beside it, or come there later.
pub fn close_journal<D: Disk>(
    disk: &mut D,
    slot: u32,
    newest: &Header,
    last: u64,
) -> Result<(), DiskFault>
    requires slot { slot < 2 }
    requires within { 2 ≤ (D.state disk.old).blocks }
    requires turn { newest.now.turn < 2 ^ 64 - 1 }
    ensures closed { IsTrue D.tells → (run : List Record) → ((b : ℕ) → (cells_of (D.state disk.old) b).pending ≡ [])
        → IsFound newest.now.geom.n (settled (cells_of (D.state disk.old))) slot newest.now run → last ≡ last_number newest.now run
        → OnOk result (IsReplayedUpTo newest.now.geom.n (cells_of (D.state disk.new)) (settled (cells_of (D.state disk.old))) (1 - slot) newest.now
        (closed_header newest.now last) run (bitmap_start newest.now.geom)) }
    ensures holds { IsTrue D.tells → (run : List Record) → ((b : ℕ) → (cells_of (D.state disk.old) b).pending ≡ [])
        → IsFound newest.now.geom.n (settled (cells_of (D.state disk.old))) slot newest.now run → last ≡ last_number newest.now run
        → Window newest.now.geom.n (D.state disk.old).base (D.state disk.new).log (length (D.state disk.old).log)
        (λ img. HoldsUnder newest.now.geom.n newest.now.geom img (found_map (settled (cells_of (D.state disk.old))) newest.now run)) }
    ensures log { IsTrue D.tells → AddsDurable (1 - slot) (header_block (closed_header newest.now last)) result (D.state disk.old).log (D.state disk.new).log }
    ensures spends { SpendsUpTo (is_err result) 1 (D.state disk.old) (D.state disk.new) }
    ensures cause { IsTrue D.tells → OnErr result (HasFailed (D.state disk.new)) }
{
    the_journal_is_lawful();
    journal_blocks_read_back();
    let header = closed_header(newest, last);
    let mut block: Block = [0; 1024];
    write_header(&header, &mut block);
    let ticket = disk.write(1 - slot, &block)?;
    disk.wait(ticket)?;
    Ok(())
}

/// Writes one block that the run covers to its place while the run is replayed, and waits for it. On `Ok`
/// the next block may follow. Whatever comes of the calls, the replay may go on, and each honest image
/// since holds what was found.
///
/// # Errors
/// A call failed, which the disk has counted. The block may be written again.
pub fn replay_block<D: Disk>(disk: &mut D, block: u32, bytes: &Block) -> Result<(), DiskFault>
    requires { block < (D.state disk.old).blocks }
    ensures goes_on { IsTrue D.tells → (n : ℕ) (at : Blocks) (slot old_slot : ℕ) (h closed : Header) (run : List Record) (x : List ℕ)
        → IsFound n at old_slot h run → bitmap_start h.geom ≤ block → covered_by h.geom at None run block ≡ Some x
        → IsReplaying n (cells_of (D.state disk.old)) at slot h closed run
        → IsReplaying n (cells_of (D.state disk.new)) at slot h closed run
        × Window n (D.state disk.old).base (D.state disk.new).log (length (D.state disk.old).log)
        (λ img. HoldsUnder n h.geom img (found_map at h run)) }
    ensures next { IsTrue D.tells → (n : ℕ) (at : Blocks) (slot old_slot : ℕ) (h closed : Header) (run : List Record) → IsFound n at old_slot h run
        → bitmap_start h.geom ≤ block → covered_by h.geom at None run block ≡ Some bytes.now
        → IsReplayedUpTo n (cells_of (D.state disk.old)) at slot h closed run block
        → OnOk result (IsReplayedUpTo n (cells_of (D.state disk.new)) at slot h closed run (block + 1)) }
    ensures placed { IsTrue D.tells → OnOk result (IsSettledIn (cells_of (D.state disk.new) block) bytes.now) }
    ensures log { IsTrue D.tells → AddsDurable block bytes.now result (D.state disk.old).log (D.state disk.new).log }
    ensures spends { SpendsUpTo (is_err result) 1 (D.state disk.old) (D.state disk.new) }
    ensures cause { IsTrue D.tells → OnErr result (HasFailed (D.state disk.new)) }
{
    the_journal_is_lawful();
    let ticket = disk.write(block, bytes)?;
    disk.wait(ticket)?;
    Ok(())
}
