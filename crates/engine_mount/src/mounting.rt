//! The mount itself: what is found is closed and replayed, and then the journal is opened.

ghost use Rattle.std.specs.Prelude.{◌≡◌, ◌<◌, ◌≤◌, ◌+◌, ◌-◌, ◌^◌, ℕ, true, List, [], IsTrue, IfOk, IfErr, length};
ghost use Rattle.base_types.specs.Seal.{Blocks};
ghost use Rattle.disk_contract.specs.Crash.{Window};
ghost use Rattle.layout_geometry.specs.Geometry.{Geometry};
ghost use Rattle.layout_journal.specs.declared.header.Header as headers;
ghost use Rattle.layout_journal.specs.Run.{Record, IsRun, live_part};
ghost use Rattle.disk_contract.specs.Disk.{Grows, HasFailed, writes_in};
ghost use Rattle.crash_argument.specs.Ledger.{HoldsUnder, cells_of};
ghost use Rattle.crash_argument.specs.Mounting.{HasBegun};
ghost use Rattle.crash_argument.specs.Opening.{opening_header, IsReadyToOpen, WritesOnce};
ghost use Rattle.engine_recover.specs.Epoch.{IsGreatestEpoch};
ghost use Rattle.engine_recover.specs.Search.{last_number};
ghost use Rattle.crash_argument.specs.Replay.{IsFound, IsReplayed, found_map};
ghost use Rattle.engine_mount.specs.Mount.{IsIdle, IsFoundOn, HasNothingToReplay, settled_on, GoesOn, RefusalSays, MountSpends, OpensAnew};
ghost use Rattle.engine_mount.specs.Refusal.{IsFault, is_unread, is_faulty};

use crate::found::{Found, find};
use crate::refusal::MountRefusal;
use crate::replay::replay_found;
use crash_argument::{
    HoldsMap, a_replay_goes_block_by_block, a_window_reaches_back,
    an_idle_disk_holds_what_is_settled, calls_add_at_most_one_write, calls_only_add, open_journal,
    opening_header, windows_go_on,
};
use disk_contract::Disk;
use engine_recover::{Run, no_epoch_is_above_the_greatest};
use layout_journal::{Header, an_image_holds_one_map, journal_blocks_keep_to_their_bounds};
use std::alloc::Global;

/// A mounted disk: the header with which the session begins, and its slot. The last record has the number
/// `header.sure`.
#[derive(Clone, Copy)]
pub struct Mounted {
    pub slot: u32,
    pub header: Header,
}

/// Mounts a disk on which nothing is pending: closes and replays the run that it has, where there is one, and
/// opens the journal under a new epoch. A session begins with the map that the disk held, and each honest
/// image since the call began holds it, whatever comes of the call. It adds at most as many writes as the disk has
/// blocks, and two. Where there is no record to replay, the header that opens the journal is its only write.
///
/// # Errors
/// `NoHeader` and `Spent` come of what is on the disk, and `NoMemory` of want of memory: nothing is written
/// then. `ReadFault` and `DiskFault` come of a call that failed, which the disk has counted.
pub fn mount<D: Disk>(alloc: Global, disk: &mut D) -> Result<Mounted, MountRefusal>
    ensures begins { IsTrue D.tells → IsIdle (D.state disk.old) → (g : Geometry) (m : Blocks)
        → HoldsUnder (D.state disk.old).blocks g (settled_on (D.state disk.old)) m
        → IfOk result (λ q. HasBegun (D.state disk.new) g q.slot q.header (length (D.state disk.old).log) m) }
    ensures goes_on { IsTrue D.tells → IsIdle (D.state disk.old)
        → IfOk result (λ q. GoesOn (D.state disk.old).blocks (settled_on (D.state disk.old)) q.header) }
    ensures holds { IsTrue D.tells → IsIdle (D.state disk.old) → (g : Geometry) (m : Blocks)
        → HoldsUnder (D.state disk.old).blocks g (settled_on (D.state disk.old)) m
        → Window (D.state disk.old).blocks (D.state disk.old).base (D.state disk.new).log (length (D.state disk.old).log)
        (λ img. HoldsUnder (D.state disk.old).blocks g img m) }
    ensures refused { IsTrue D.tells → IsIdle (D.state disk.old) → IfErr result (RefusalSays (D.state disk.old) (D.state disk.new)) }
    ensures spends { MountSpends (is_unread result) (is_faulty result) ((D.state disk.old).blocks + 2) (D.state disk.old) (D.state disk.new) }
    ensures cause { IsTrue D.tells → is_faulty result ≡ true → HasFailed (D.state disk.new) }
    ensures written { IsTrue D.tells → writes_in (D.state disk.new).log ≤ writes_in (D.state disk.old).log + ((D.state disk.old).blocks + 2) }
    ensures anew { IfOk result (λ q. OpensAnew q.header (D.state disk.old) (D.state disk.new)) }
    ensures alone { IsTrue D.tells → IsIdle (D.state disk.old) → HasNothingToReplay (D.state disk.old)
        → WritesOnce (D.state disk.old).manner result (D.state disk.old).log (D.state disk.new).log }
{
    an_image_holds_one_map();
    journal_blocks_keep_to_their_bounds();
    an_idle_disk_holds_what_is_settled();
    windows_go_on::<HoldsMap>();
    let found = find(alloc, disk)?;
    let mounted = open(disk, &found)?;
    Ok(mounted)
}

/// Mounts a disk on which that was found and nothing is pending: closes and replays the run, where there is
/// one, and opens the journal under a new epoch. A session begins with the map that the disk held, and each
/// honest image since the call began holds it, whatever comes of the call. It adds at most as many writes as the disk
/// has blocks, and two.
///
/// # Errors
/// `ReadFault` and `DiskFault` come of a call that failed, which the disk has counted.
pub fn open<D: Disk>(disk: &mut D, found: &Found) -> Result<Mounted, MountRefusal>
    requires { (D.state disk.old).blocks ≡ found.now.run.header.geom.n }
    ensures begins { IsTrue D.tells → IsIdle (D.state disk.old) → IsFoundOn (D.state disk.old) found.now → (g : Geometry) (m : Blocks)
        → HoldsUnder (D.state disk.old).blocks g (settled_on (D.state disk.old)) m
        → IfOk result (λ q. HasBegun (D.state disk.new) g q.slot q.header (length (D.state disk.old).log) m) }
    ensures goes_on { IsTrue D.tells → IsIdle (D.state disk.old) → IsFoundOn (D.state disk.old) found.now
        → IfOk result (λ q. GoesOn (D.state disk.old).blocks (settled_on (D.state disk.old)) q.header) }
    ensures holds { IsTrue D.tells → IsIdle (D.state disk.old) → IsFoundOn (D.state disk.old) found.now → (g : Geometry) (m : Blocks)
        → HoldsUnder (D.state disk.old).blocks g (settled_on (D.state disk.old)) m
        → Window (D.state disk.old).blocks (D.state disk.old).base (D.state disk.new).log (length (D.state disk.old).log)
        (λ img. HoldsUnder (D.state disk.old).blocks g img m) }
    ensures fault { IfErr result IsFault }
    ensures spends { MountSpends (is_unread result) (is_faulty result) ((D.state disk.old).blocks + 2) (D.state disk.old) (D.state disk.new) }
    ensures cause { IsTrue D.tells → is_faulty result ≡ true → HasFailed (D.state disk.new) }
    ensures written { IsTrue D.tells → writes_in (D.state disk.new).log ≤ writes_in (D.state disk.old).log + ((D.state disk.old).blocks + 2) }
    ensures anew { IfOk result (λ q. OpensAnew q.header (D.state disk.old) (D.state disk.new)) }
    ensures alone { IsTrue D.tells → found.now.run.records ≡ [] → WritesOnce (D.state disk.old).manner result (D.state disk.old).log (D.state disk.new).log }
{
    an_image_holds_one_map();
    let mounted = open_found(disk, found.run(), found.epoch())?;
    Ok(mounted)
}

/// Closes and replays the run that was found, and opens the journal.
fn open_found<D: Disk>(disk: &mut D, run: &Run, epoch: u64) -> Result<Mounted, MountRefusal>
    requires slot { run.now.slot < 2 }
    requires size { (D.state disk.old).blocks ≡ run.now.header.geom.n }
    requires turn { run.now.header.turn < 2 ^ 64 - 2 }
    requires epoch { epoch < 2 ^ 64 - 1 }
    requires last { last_number run.now.header (length run.now.records) < 2 ^ 64 - 1 }
    ensures begins { IsTrue D.tells → IsIdle (D.state disk.old)
        → IsFound run.now.header.geom.n (settled_on (D.state disk.old)) run.now.slot run.now.header run.now.records
        → IsGreatestEpoch run.now.header.geom (settled_on (D.state disk.old)) epoch
        → IfOk result (λ q. HasBegun (D.state disk.new) run.now.header.geom q.slot q.header (length (D.state disk.old).log)
        (found_map (settled_on (D.state disk.old)) run.now.header run.now.records)) }
    ensures header { IfOk result (λ q. (q.header.epoch ≡ epoch + 1) × (run.now.header.turn < q.header.turn)
        × (q.header.turn ≤ run.now.header.turn + 2) × (q.header.start ≡ last_number run.now.header (length run.now.records) + 1)
        × (q.header.sure ≡ last_number run.now.header (length run.now.records)) × (q.header.at ≡ 0)) }
    ensures holds { IsTrue D.tells → IsIdle (D.state disk.old)
        → IsFound run.now.header.geom.n (settled_on (D.state disk.old)) run.now.slot run.now.header run.now.records
        → IsGreatestEpoch run.now.header.geom (settled_on (D.state disk.old)) epoch
        → Window run.now.header.geom.n (D.state disk.old).base (D.state disk.new).log (length (D.state disk.old).log)
        (λ img. HoldsUnder run.now.header.geom.n run.now.header.geom img (found_map (settled_on (D.state disk.old)) run.now.header run.now.records)) }
    ensures fault { IfErr result IsFault }
    ensures spends { MountSpends (is_unread result) (is_faulty result) (run.now.header.geom.n + 2) (D.state disk.old) (D.state disk.new) }
    ensures cause { IsTrue D.tells → is_faulty result ≡ true → HasFailed (D.state disk.new) }
    ensures written { IsTrue D.tells → writes_in (D.state disk.new).log ≤ writes_in (D.state disk.old).log + (run.now.header.geom.n + 2) }
    ensures anew { IfOk result (λ q. OpensAnew q.header (D.state disk.old) (D.state disk.new)) }
    ensures alone { IsTrue D.tells → run.now.records ≡ [] → WritesOnce (D.state disk.old).manner result (D.state disk.old).log (D.state disk.new).log }
{
    no_epoch_is_above_the_greatest();
    a_replay_goes_block_by_block();
    a_window_reaches_back();
    windows_go_on::<HoldsMap>();
    run.header().geom.lawful();
    if run.records().is_empty() {
        let mounted = open_after(disk, run.slot(), run.header(), run.last(), epoch)?;
        return Ok(mounted);
    }
    let closed = replay_found(disk, run)?;
    let opened = open_after(disk, closed.slot, &closed.header, run.last(), epoch)?;
    Ok(opened)
}

/// Opens the journal behind the newest header.
fn open_after<D: Disk>(
    disk: &mut D,
    slot: u32,
    newest: &Header,
    last: u64,
    epoch: u64,
) -> Result<Mounted, MountRefusal>
    requires slot { slot < 2 }
    requires within { 2 ≤ (D.state disk.old).blocks }
    requires epoch { epoch < 2 ^ 64 - 1 }
    requires turn { newest.now.turn < 2 ^ 64 - 1 }
    requires last { last < 2 ^ 64 - 1 }
    ensures opened { IsTrue D.tells → IsReadyToOpen (cells_of (D.state disk.old)) slot newest.now epoch
        → IfOk result (λ q. HasBegun (D.state disk.new) newest.now.geom q.slot q.header (length (D.state disk.new).log)
        (live_part newest.now.geom (settled_on (D.state disk.old)))) }
    ensures holds { IsTrue D.tells → IsReadyToOpen (cells_of (D.state disk.old)) slot newest.now epoch → IsRun (settled_on (D.state disk.old)) newest.now []
        → Window newest.now.geom.n (D.state disk.old).base (D.state disk.new).log (length (D.state disk.old).log)
        (λ img. HoldsUnder newest.now.geom.n newest.now.geom img (found_map (settled_on (D.state disk.old)) newest.now [])) }
    ensures replayed { IsTrue D.tells → (at : Blocks) (old_slot : ℕ) (h : headers.Header) (run : List Record)
        → IsReadyToOpen (cells_of (D.state disk.old)) slot newest.now epoch → IsFound newest.now.geom.n at old_slot h run
        → IsReplayed (cells_of (D.state disk.old)) at h newest.now run
        → Window newest.now.geom.n (D.state disk.old).base (D.state disk.new).log (length (D.state disk.old).log)
        (λ img. HoldsUnder newest.now.geom.n h.geom img (found_map at h run)) }
    ensures header { IfOk result (λ q. q.header ≡ opening_header newest.now last epoch) }
    ensures grows { IsTrue D.tells → Grows (D.state disk.old).log (D.state disk.new).log }
    ensures fault { IfErr result IsFault }
    ensures spends { MountSpends (is_unread result) (is_faulty result) 1 (D.state disk.old) (D.state disk.new) }
    ensures cause { IsTrue D.tells → is_faulty result ≡ true → HasFailed (D.state disk.new) }
    ensures written { IsTrue D.tells → writes_in (D.state disk.new).log ≤ writes_in (D.state disk.old).log + 1 }
    ensures anew { IfOk result (λ q. OpensAnew q.header (D.state disk.old) (D.state disk.new)) }
    ensures alone { IsTrue D.tells → WritesOnce (D.state disk.old).manner result (D.state disk.old).log (D.state disk.new).log }
{
    calls_only_add();
    calls_add_at_most_one_write();
    match open_journal(disk, slot, newest, last, epoch) {
        Err(_) => Err(MountRefusal::DiskFault),
        Ok(()) => Ok(Mounted {
            slot: 1 - slot,
            header: opening_header(newest, last, epoch),
        }),
    }
}
