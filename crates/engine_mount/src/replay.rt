//! The replay of the run that was found: it is closed, and then the last payload of each block goes to its
//! place, ascending, each waited for. How the journal is opened behind it isn't described here.

ghost use Rattle.std.specs.Prelude.{◌≡◌, ◌<◌, ◌≤◌, ◌+◌, ◌-◌, ◌^◌, ℕ, true, List, IsTrue, IfOk, IfErr, OnOk, Some, None, is_err, length};
ghost use Rattle.base_types.specs.Seal.{Blocks};
ghost use Rattle.disk_contract.specs.Disk.{Grows, HasFailed, OnlyReads, writes_in};
ghost use Rattle.disk_contract.specs.Crash.{Window};
ghost use Rattle.layout_geometry.specs.Geometry.{bitmap_start, ring_block};
ghost use Rattle.layout_journal.specs.declared.header.Header as headers;
ghost use Rattle.layout_journal.specs.Run.{Record, covered_by};
ghost use Rattle.crash_argument.specs.Ledger.{cells_of, HoldsUnder};
ghost use Rattle.crash_argument.specs.Mounting.{IsReplayedUpTo};
ghost use Rattle.crash_argument.specs.Replay.{IsFound, IsReplaying, IsAsFound, found_map};
ghost use Rattle.engine_mount.specs.Mount.{IsIdle, settled_on, MountSpends};
ghost use Rattle.engine_mount.specs.Refusal.{IsFault, is_unread, is_faulty};

use crate::refusal::MountRefusal;
use base_types::Block;
use crash_argument::{
    HoldsMap, a_read_gives_what_was_written_last, a_replay_goes_block_by_block,
    a_replay_holds_what_was_found, an_idle_disk_holds_what_is_settled, calls_add_at_most_one_write,
    calls_only_add, close_journal, closed_header, replay_block, windows_go_on,
};
use disk_contract::{Disk, DiskFault};
use engine_recover::{
    Run, the_last_payload_is_in_the_ring, the_last_payload_is_what_records_leave,
};
use layout_journal::{Header, journal_blocks_keep_to_their_bounds, unescape};

/// The newest header of a disk, which closes its run, and its slot.
#[derive(Clone, Copy)]
pub(crate) struct Closed {
    pub slot: u32,
    pub header: Header,
}

/// Closes the run that was found, and brings its payloads to their places.
pub(crate) fn replay_found<D: Disk>(disk: &mut D, run: &Run) -> Result<Closed, MountRefusal>
    requires slot { run.now.slot < 2 }
    requires size { (D.state disk.old).blocks ≡ run.now.header.geom.n }
    requires turn { run.now.header.turn < 2 ^ 64 - 1 }
    ensures replayed { IsTrue D.tells → IsIdle (D.state disk.old)
        → IsFound run.now.header.geom.n (settled_on (D.state disk.old)) run.now.slot run.now.header run.now.records
        → IfOk result (λ q. IsReplayedUpTo run.now.header.geom.n (cells_of (D.state disk.new)) (settled_on (D.state disk.old)) q.slot run.now.header
        q.header run.now.records run.now.header.geom.n) }
    ensures holds { IsTrue D.tells → IsIdle (D.state disk.old)
        → IsFound run.now.header.geom.n (settled_on (D.state disk.old)) run.now.slot run.now.header run.now.records
        → Window run.now.header.geom.n (D.state disk.old).base (D.state disk.new).log (length (D.state disk.old).log)
        (λ img. HoldsUnder run.now.header.geom.n run.now.header.geom img (found_map (settled_on (D.state disk.old)) run.now.header run.now.records)) }
    ensures next { IfOk result (λ q. (q.slot < 2) × (q.header.geom ≡ run.now.header.geom) × (run.now.header.turn ≤ q.header.turn)
        × (q.header.turn ≤ run.now.header.turn + 1)) }
    ensures grows { IsTrue D.tells → Grows (D.state disk.old).log (D.state disk.new).log }
    ensures fault { IfErr result IsFault }
    ensures spends { MountSpends (is_unread result) (is_faulty result) (run.now.header.geom.n + 1) (D.state disk.old) (D.state disk.new) }
    ensures cause { IsTrue D.tells → is_faulty result ≡ true → HasFailed (D.state disk.new) }
    ensures written { IsTrue D.tells → writes_in (D.state disk.new).log ≤ writes_in (D.state disk.old).log + (run.now.header.geom.n + 1) }
{
    windows_go_on::<HoldsMap>();
    let closed = close_run(disk, run)?;
    replay_run(disk, run)?;
    Ok(closed)
}

/// Closes the run that was found by a header beside the newest one, unless that closes it already.
pub(crate) fn close_run<D: Disk>(disk: &mut D, run: &Run) -> Result<Closed, MountRefusal>
    requires slot { run.now.slot < 2 }
    requires size { (D.state disk.old).blocks ≡ run.now.header.geom.n }
    requires turn { run.now.header.turn < 2 ^ 64 - 1 }
    ensures closed { IsTrue D.tells → IsIdle (D.state disk.old)
        → IsFound run.now.header.geom.n (settled_on (D.state disk.old)) run.now.slot run.now.header run.now.records
        → IfOk result (λ q. IsReplayedUpTo run.now.header.geom.n (cells_of (D.state disk.new)) (settled_on (D.state disk.old)) q.slot run.now.header
        q.header run.now.records (bitmap_start run.now.header.geom)) }
    ensures holds { IsTrue D.tells → IsIdle (D.state disk.old)
        → IsFound run.now.header.geom.n (settled_on (D.state disk.old)) run.now.slot run.now.header run.now.records
        → Window run.now.header.geom.n (D.state disk.old).base (D.state disk.new).log (length (D.state disk.old).log)
        (λ img. HoldsUnder run.now.header.geom.n run.now.header.geom img (found_map (settled_on (D.state disk.old)) run.now.header run.now.records)) }
    ensures next { IfOk result (λ q. (q.slot < 2) × (q.header.geom ≡ run.now.header.geom) × (run.now.header.turn ≤ q.header.turn)
        × (q.header.turn ≤ run.now.header.turn + 1)) }
    ensures grows { IsTrue D.tells → Grows (D.state disk.old).log (D.state disk.new).log }
    ensures fault { IfErr result IsFault }
    ensures spends { MountSpends (is_unread result) (is_faulty result) 1 (D.state disk.old) (D.state disk.new) }
    ensures cause { IsTrue D.tells → is_faulty result ≡ true → HasFailed (D.state disk.new) }
    ensures written { IsTrue D.tells → writes_in (D.state disk.new).log ≤ writes_in (D.state disk.old).log + 1 }
{
    journal_blocks_keep_to_their_bounds();
    a_replay_goes_block_by_block();
    an_idle_disk_holds_what_is_settled();
    windows_go_on::<HoldsMap>();
    calls_only_add();
    calls_add_at_most_one_write();
    let newest = run.header();
    newest.geom.lawful();
    if closes(newest, run.last()) {
        return Ok(Closed {
            slot: run.slot(),
            header: *newest,
        });
    }
    match close_journal(disk, run.slot(), newest, run.last()) {
        Err(_) => Err(MountRefusal::DiskFault),
        Ok(()) => Ok(Closed {
            slot: 1 - run.slot(),
            header: closed_header(newest, run.last()),
        }),
    }
}

/// Whether a header closes a run whose last record has this number.
fn closes(header: &Header, last: u64) -> bool
    ensures { IsTrue result → IsTrue header.now.closed × (header.now.sure ≡ last) }
{
    if !header.closed {
        return false;
    }
    header.sure == last
}

/// Brings the last payload of each block that the run covers to its place.
pub(crate) fn replay_run<D: Disk>(disk: &mut D, run: &Run) -> Result<(), MountRefusal>
    requires { (D.state disk.old).blocks ≡ run.now.header.geom.n }
    ensures replayed { IsTrue D.tells → (at : Blocks) (slot old_slot : ℕ) (closed : headers.Header)
        → IsFound run.now.header.geom.n at old_slot run.now.header run.now.records
        → IsReplayedUpTo run.now.header.geom.n (cells_of (D.state disk.old)) at slot run.now.header closed run.now.records
        (bitmap_start run.now.header.geom)
        → OnOk result (IsReplayedUpTo run.now.header.geom.n (cells_of (D.state disk.new)) at slot run.now.header closed run.now.records run.now.header.geom.n) }
    ensures holds { IsTrue D.tells → (at : Blocks) (slot old_slot : ℕ) (closed : headers.Header)
        → IsFound run.now.header.geom.n at old_slot run.now.header run.now.records
        → IsReplayedUpTo run.now.header.geom.n (cells_of (D.state disk.old)) at slot run.now.header closed run.now.records
        (bitmap_start run.now.header.geom)
        → Window run.now.header.geom.n (D.state disk.old).base (D.state disk.new).log (length (D.state disk.old).log)
        (λ img. HoldsUnder run.now.header.geom.n run.now.header.geom img (found_map at run.now.header run.now.records)) }
    ensures grows { IsTrue D.tells → Grows (D.state disk.old).log (D.state disk.new).log }
    ensures fault { IfErr result IsFault }
    ensures spends { MountSpends (is_unread result) (is_faulty result) run.now.header.geom.n (D.state disk.old) (D.state disk.new) }
    ensures cause { IsTrue D.tells → is_faulty result ≡ true → HasFailed (D.state disk.new) }
    ensures written { IsTrue D.tells → writes_in (D.state disk.new).log ≤ writes_in (D.state disk.old).log + run.now.header.geom.n }
{
    a_replay_holds_what_was_found();
    windows_go_on::<HoldsMap>();
    let geom = run.header().geom;
    geom.lawful();
    for b in geom.bitmap_start()..geom.n() {
        replay_payload(disk, run, b)?;
    }
    Ok(())
}

/// Brings the last payload of block `b` to its place, if the run covers it.
fn replay_payload<D: Disk>(disk: &mut D, run: &Run, b: u32) -> Result<(), MountRefusal>
    requires size { (D.state disk.old).blocks ≡ run.now.header.geom.n }
    requires within { b < run.now.header.geom.n }
    requires behind { bitmap_start run.now.header.geom ≤ b }
    ensures next { IsTrue D.tells → (at : Blocks) (slot old_slot : ℕ) (closed : headers.Header)
        → IsFound run.now.header.geom.n at old_slot run.now.header run.now.records
        → IsReplayedUpTo run.now.header.geom.n (cells_of (D.state disk.old)) at slot run.now.header closed run.now.records b
        → OnOk result (IsReplayedUpTo run.now.header.geom.n (cells_of (D.state disk.new)) at slot run.now.header closed run.now.records (b + 1)) }
    ensures holds { IsTrue D.tells → (at : Blocks) (slot old_slot : ℕ) (closed : headers.Header)
        → IsFound run.now.header.geom.n at old_slot run.now.header run.now.records
        → IsReplayedUpTo run.now.header.geom.n (cells_of (D.state disk.old)) at slot run.now.header closed run.now.records b
        → Window run.now.header.geom.n (D.state disk.old).base (D.state disk.new).log (length (D.state disk.old).log)
        (λ img. HoldsUnder run.now.header.geom.n run.now.header.geom img (found_map at run.now.header run.now.records)) }
    ensures grows { IsTrue D.tells → Grows (D.state disk.old).log (D.state disk.new).log }
    ensures fault { IfErr result IsFault }
    ensures spends { MountSpends (is_unread result) (is_faulty result) 1 (D.state disk.old) (D.state disk.new) }
    ensures cause { IsTrue D.tells → is_faulty result ≡ true → HasFailed (D.state disk.new) }
    ensures written { IsTrue D.tells → writes_in (D.state disk.new).log ≤ writes_in (D.state disk.old).log + 1 }
{
    a_replay_goes_block_by_block();
    a_replay_holds_what_was_found();
    windows_go_on::<HoldsMap>();
    calls_only_add();
    match payload_of(disk, run, b) {
        Err(_) => Err(MountRefusal::ReadFault),
        Ok(None) => Ok(()),
        Ok(Some(bytes)) => write_payload(disk, b, &bytes),
    }
}

/// Writes a payload to its place, and waits for it.
fn write_payload<D: Disk>(disk: &mut D, b: u32, bytes: &Block) -> Result<(), MountRefusal>
    requires { b < (D.state disk.old).blocks }
    ensures goes_on { IsTrue D.tells → (n : ℕ) (at : Blocks) (slot old_slot : ℕ) (h closed : headers.Header) (run : List Record) (x : List ℕ)
        → IsFound n at old_slot h run → bitmap_start h.geom ≤ b → covered_by h.geom at None run b ≡ Some x
        → IsReplaying n (cells_of (D.state disk.old)) at slot h closed run
        → Window n (D.state disk.old).base (D.state disk.new).log (length (D.state disk.old).log) (λ img. HoldsUnder n h.geom img (found_map at h run)) }
    ensures next { IsTrue D.tells → (n : ℕ) (at : Blocks) (slot old_slot : ℕ) (h closed : headers.Header) (run : List Record)
        → IsFound n at old_slot h run → bitmap_start h.geom ≤ b → covered_by h.geom at None run b ≡ Some bytes.now
        → IsReplayedUpTo n (cells_of (D.state disk.old)) at slot h closed run b
        → OnOk result (IsReplayedUpTo n (cells_of (D.state disk.new)) at slot h closed run (b + 1)) }
    ensures grows { IsTrue D.tells → Grows (D.state disk.old).log (D.state disk.new).log }
    ensures fault { IfErr result IsFault }
    ensures spends { MountSpends (is_unread result) (is_faulty result) 1 (D.state disk.old) (D.state disk.new) }
    ensures cause { IsTrue D.tells → is_faulty result ≡ true → HasFailed (D.state disk.new) }
    ensures written { IsTrue D.tells → writes_in (D.state disk.new).log ≤ writes_in (D.state disk.old).log + 1 }
{
    calls_only_add();
    calls_add_at_most_one_write();
    match replay_block(disk, b, bytes) {
        Err(_) => Err(MountRefusal::DiskFault),
        Ok(()) => Ok(()),
    }
}

/// The bytes that the run leaves in block `b`, if it covers it, read in the ring.
pub(crate) fn payload_of<D: Disk>(
    disk: &mut D,
    run: &Run,
    b: u32,
) -> Result<Option<Block>, DiskFault>
    requires { (D.state disk.old).blocks ≡ run.now.header.geom.n }
    ensures value { IsTrue D.tells → (at : Blocks) → ((place : ℕ) → IsAsFound (cells_of (D.state disk.old)) at (ring_block run.now.header.geom place))
        → IfOk result (λ o. o ≡ covered_by run.now.header.geom at None run.now.records b) }
    ensures log { IsTrue D.tells → (D.state disk.new).log ≡ (D.state disk.old).log }
    ensures spends { OnlyReads (is_err result) (D.state disk.old) (D.state disk.new) }
{
    a_read_gives_what_was_written_last();
    the_last_payload_is_in_the_ring();
    the_last_payload_is_what_records_leave();
    let Some((at, kind)) = run.payload(b) else {
        return Ok(None);
    };
    run.header().geom.lawful();
    let mut stored: Block = [0; 1024];
    disk.read(at, &mut stored)?;
    let mut bytes: Block = [0; 1024];
    unescape(&stored, kind, &mut bytes);
    Ok(Some(bytes))
}
