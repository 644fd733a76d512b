//! Copies the image under a name to another name, block by block: a disk is opened on the one, a disk of as many blocks is
//! made under the other, and the blocks are read, written and waited for, a stretch at a time; then both go back.

ghost use Rattle.std.specs.Prelude.{◌≡◌, ◌≢◌, ◌⊎◌, ◌<◌, ◌≤◌, ◌+◌, ℕ, Bool, true, false, IsTrue, [], Ok, Err, Result, IfOk, IfErr, OnOk};
ghost use Rattle.base_types.specs.Seal.{Blocks};
ghost use Rattle.disk_contract.specs.declared.bay.BayFault.{BayFault as Failure};
ghost use Rattle.disk_contract.specs.Bay.{Closes, Makes, Opens, SameImage};
ghost use Rattle.disk_contract.specs.Disk.{OnlyReads, State};
ghost use Rattle.layout_journal.specs.declared.header.Header as headers;
ghost use Rattle.layout_journal.specs.Run.{Newest};
ghost use Rattle.cmd_image.specs.declared.make_refusal.MakeRefusal.TheVariants.{Fault};
ghost use Rattle.cmd_image.specs.Makes.{HasMakeCause, make_refusal_of_bay};
ghost use Rattle.cmd_mirror.specs.Copies.{CopiesBlocks, CopiesHeaders, CopiesPart, HasPart, HaveOneImage, SendsStretch, WaitsForStretch};
ghost use Rattle.cmd_mirror.specs.Returns.{ClosesBoth, Copied, CopiesOpened, CopyLeavesBay, HasCopyReason, SameBeside};

use base_types::Block;
use base_types::limits::BLOCK_LENGTH;
use cmd_image::{MakeRefusal, make_refusal_of_bay};
use crash_argument::a_read_gives_what_was_written_last;
use crash_record::{headers_need_a_size, newer_header};
use disk_contract::{Bay, Disk, an_event_changes_one_block, calls_in_a_row_spend_together};
use layout_journal::{an_image_holds_one_map, read_header};
use std::alloc::Global;
use std::error::Error;
use std::fmt;

/// Which disk failed as an image was copied.
#[derive(Clone, Copy, Debug, PartialEq, Eq)]
pub enum CopyFault {
    /// A read of the disk on the image, which that disk has counted.
    Read,
    /// A write or a wait of the disk under the other name, which that disk has counted.
    Write,
}

impl fmt::Display for CopyFault {
    fn fmt<W: fmt::Write>(&self, f: &mut fmt::Formatter<W>) -> fmt::Result {
        match self {
            CopyFault::Read => write!(f, "a read of the image failed"),
            CopyFault::Write => write!(f, "a write of the copy failed"),
        }
    }
}

impl Error for CopyFault {}

/// Copies the image under `name` to `other`, in place of what stood there: the bay opens a disk on the image and makes one
/// of as many blocks of zeros under the other name; the blocks are read from the one and written to the other; then the
/// first disk goes back, and then the second, with no marks. The blocks behind the headers are copied first, a stretch at a
/// time, and each write is waited for before the next stretch begins; behind them comes the newer header, and once that is
/// durable the other one. Where a call failed, those behind it aren't made, but each disk that was handed out goes back. An
/// image of no blocks is copied too: a disk of no blocks is made and goes back, and no block is read or written.
///
/// # Errors
/// `Fault` comes of a call of the bay or of a disk that failed, which was counted; that nothing is under `name` is one.
/// Where the bay tells, it comes only where the bay's calls may fail, where nothing is under `name`, or where a call of a
/// disk failed as the disk's manner lets it. `NoMemory` comes of want of memory. Where no disk was made under the other
/// name, the image there is as it was; where one was made, a part of the copy is there, and its other blocks are zeros.
/// A crash before the end leaves under the other name a part of the copy: where a block of the headers isn't as it was made,
/// those behind them are copied, and where that of the older header isn't, the newer one is copied.
pub fn copy_image<B: Bay>(
    alloc: Global,
    bay: &mut B,
    name: &str,
    other: &str,
) -> Result<(), MakeRefusal>
    requires apart { name.now ≢ other.now }
    ensures copied { IsTrue B.tells → OnOk result (HaveOneImage ((B.state bay.old).kept name.now) ((B.state bay.new).kept other.now)) }
    ensures part { IsTrue B.tells → SameImage other.now (B.state bay.old) (B.state bay.new)
        ⊎ HasPart ((B.state bay.old).kept name.now) ((B.state bay.new).kept other.now) }
    ensures kept { IsTrue B.tells → SameImage name.now (B.state bay.old) (B.state bay.new) }
    ensures others { IsTrue B.tells → SameBeside name.now other.now (B.state bay.old) (B.state bay.new) }
    ensures comes { CopyLeavesBay B.tells name.now other.now result (B.state bay.old) (B.state bay.new) }
    ensures cause { HasMakeCause result (B.state bay.old) (B.state bay.new) }
    ensures reason { IsTrue B.tells → result ≡ Err Fault → HasCopyReason B.tells name.now other.now result (B.state bay.old) (B.state bay.new) }
{
    copy_under(alloc, bay, name, other)
}

/// Copies the image under `name` to `other`, with all that `copy_image` says of it in one.
///
/// # Errors
/// As those of `copy_image`.
fn copy_under<B: Bay>(
    alloc: Global,
    bay: &mut B,
    name: &str,
    other: &str,
) -> Result<(), MakeRefusal>
    requires apart { name.now ≢ other.now }
    ensures { Copied B.tells name.now other.now result (B.state bay.old) (B.state bay.new) }
{
    a_read_gives_what_was_written_last();
    let original = open_original(bay, name)?;
    match make_blank(bay, other, original.blocks()) {
        Ok(copy) => copy_opened(alloc, bay, name, other, original, copy),
        Err(why) => close_alone(alloc, bay, name, original, why),
    }
}

/// Opens a disk on the image under the name.
///
/// # Errors
/// `Fault`, which the bay has counted, or `NoMemory`.
fn open_original<B: Bay>(bay: &mut B, name: &str) -> Result<B::D, MakeRefusal>
    ensures opens { IfOk result (λ disk. Opens B.tells B.D.state name.now (Ok disk) (B.state bay.old) (B.state bay.new)) }
    ensures refused { IfErr result (λ why. (fault : Failure) × (why ≡ make_refusal_of_bay fault)
        × Opens B.tells B.D.state name.now (Err fault) (B.state bay.old) (B.state bay.new)) }
{
    match bay.open(name) {
        Ok(disk) => Ok(disk),
        Err(fault) => Err(make_refusal_of_bay(fault)),
    }
}

/// Makes a disk of so many blocks of zeros under the name.
///
/// # Errors
/// `Fault`, which the bay has counted, or `NoMemory`.
fn make_blank<B: Bay>(bay: &mut B, name: &str, blocks: u32) -> Result<B::D, MakeRefusal>
    ensures makes { IfOk result (λ disk. Makes B.tells B.D.state name.now blocks (Ok disk) (B.state bay.old) (B.state bay.new)) }
    ensures refused { IfErr result (λ why. (fault : Failure) × (why ≡ make_refusal_of_bay fault)
        × Makes B.tells B.D.state name.now blocks (Err fault) (B.state bay.old) (B.state bay.new)) }
{
    match bay.make(name, blocks) {
        Ok(disk) => Ok(disk),
        Err(fault) => Err(make_refusal_of_bay(fault)),
    }
}

/// Copies all blocks of the one disk to the other, and hands both back, with no marks.
///
/// # Errors
/// As `copy_image` says of the two disks and of their returns.
fn copy_opened<B: Bay>(
    alloc: Global,
    bay: &mut B,
    name: &str,
    other: &str,
    mut original: B::D,
    mut copy: B::D,
) -> Result<(), MakeRefusal>
    requires size { (B.D.state copy).blocks ≡ (B.D.state original).blocks }
    requires fresh { IsTrue B.tells → (B.D.state original).log ≡ [] }
    requires blank { IsTrue B.tells → (B.D.state copy).log ≡ [] }
    ensures { CopiesOpened B.tells name.now other.now (B.D.state original) (B.D.state copy) result (B.state bay.old) (B.state bay.new) }
{
    let copied = copy_blocks(&mut original, &mut copy);
    original.lawful();
    close_both(alloc, bay, name, other, original, copy, copied)
}

/// Hands the disk back under the name, with no mark, where none could be made under the other name.
///
/// # Errors
/// The refusal of the making, always.
fn close_alone<B: Bay>(
    alloc: Global,
    bay: &mut B,
    name: &str,
    disk: B::D,
    why: MakeRefusal,
) -> Result<(), MakeRefusal>
    ensures { (back : Result (Unit {0}) Failure) × Closes B.tells name.now (B.D.state disk) [] back (B.state bay.old) (B.state bay.new)
        × (result ≡ Err why) }
{
    let _ = bay.close(name, disk, Vec::new(alloc));
    Err(why)
}

/// Hands the two disks back, with no marks, and gives the answer where the copying was answered so.
///
/// # Errors
/// `Fault` where the copying failed; else the refusal of the first return, or that of the second: `Fault`, which the bay
/// has counted, or `NoMemory`.
fn close_both<B: Bay>(
    alloc: Global,
    bay: &mut B,
    name: &str,
    other: &str,
    original: B::D,
    copy: B::D,
    copied: Result<(), CopyFault>,
) -> Result<(), MakeRefusal>
    ensures { ClosesBoth B.tells name.now other.now (B.D.state original) (B.D.state copy) copied result (B.state bay.old) (B.state bay.new) }
{
    let back_first = bay.close(name, original, Vec::new(alloc));
    let back_second = bay.close(other, copy, Vec::new(alloc));
    if copied.is_err() {
        return Err(MakeRefusal::Fault);
    }
    if let Err(fault) = back_first {
        return Err(make_refusal_of_bay(fault));
    }
    if let Err(fault) = back_second {
        return Err(make_refusal_of_bay(fault));
    }
    Ok(())
}

/// How many blocks are written before they are waited for. Over a file the waits of a stretch sync it once.
const STRETCH: u32 = 1024;

/// How many blocks at the beginning of a disk may hold its headers.
const HEADERS: u32 = 2;

/// Copies all blocks of a disk to another one of as many blocks: first those behind the headers, and once they are durable
/// the newer header, and once that is durable the other one. What is said of contents is said of disks with no event yet.
///
/// # Errors
/// Which of the disks failed, which that disk has counted; the blocks behind aren't copied.
fn copy_blocks<D: Disk>(original: &mut D, copy: &mut D) -> Result<(), CopyFault>
    requires size { (D.state copy.old).blocks ≡ (D.state original.old).blocks }
    ensures { (tells : Bool) → (IsTrue tells → IsTrue D.tells × ((D.state original.old).log ≡ []) × ((D.state copy.old).log ≡ []))
        → CopiesBlocks tells result (D.state original.old) (D.state original.new) (D.state copy.old) (D.state copy.new) }
{
    calls_in_a_row_spend_together();
    headers_need_a_size();
    let blocks = original.blocks();
    let headers = HEADERS.min(blocks);
    if let Err(fault) = copy_range(original, copy, headers, blocks) {
        return Err(fault);
    }
    if headers < HEADERS {
        return copy_range(original, copy, 0, headers);
    }
    copy_headers(original, copy)
}

/// Copies the first two blocks, in which the headers are. Both are read before either is written; the newer header is
/// written first, and waited for before the other block is written. Where neither is a header, block 0 is the first.
///
/// # Errors
/// Which of the disks failed, which that disk has counted; the block behind isn't copied.
fn copy_headers<D: Disk>(original: &mut D, copy: &mut D) -> Result<(), CopyFault>
    requires there { 2 ≤ (D.state original.old).blocks }
    requires within { 2 ≤ (D.state copy.old).blocks }
    ensures { CopiesHeaders D.tells result (D.state original.old) (D.state original.new) (D.state copy.old) (D.state copy.new) }
{
    calls_in_a_row_spend_together();
    let blocks = original.blocks();
    let mut zero: Block = [0; BLOCK_LENGTH];
    let Ok(()) = original.read(0, &mut zero) else {
        return Err(CopyFault::Read);
    };
    let mut one: Block = [0; BLOCK_LENGTH];
    let Ok(()) = original.read(1, &mut one) else {
        return Err(CopyFault::Read);
    };
    if is_newer_second(&zero, &one, blocks) {
        if let Err(fault) = put_block(copy, 1, &one) {
            return Err(fault);
        }
        return put_block(copy, 0, &zero);
    }
    if let Err(fault) = put_block(copy, 0, &zero) {
        return Err(fault);
    }
    put_block(copy, 1, &one)
}

/// Whether the newest header of a disk of so many blocks is in slot 1, where these are the blocks of the two slots.
fn is_newer_second(zero: &Block, one: &Block, blocks: u32) -> bool
    ensures second { result ≡ true → (img : Blocks) → zero.now ≡ img 0 → one.now ≡ img 1
        → (slot : ℕ) (h : headers.Header) → Newest blocks img slot h → slot ≡ 1 }
    ensures first { result ≡ false → (img : Blocks) → zero.now ≡ img 0 → one.now ≡ img 1
        → (slot : ℕ) (h : headers.Header) → Newest blocks img slot h → slot ≡ 0 }
{
    an_image_holds_one_map();
    let first = read_header(zero, blocks).ok();
    let second = read_header(one, blocks).ok();
    match newer_header(first, second) {
        Some((slot, _)) => slot == 1,
        None => false,
    }
}

/// Writes one block, whose bytes were read from another disk, and waits until it is durable.
///
/// # Errors
/// The write or the wait failed, which the disk has counted.
fn put_block<D: Disk>(copy: &mut D, b: u32, block: &Block) -> Result<(), CopyFault>
    requires within { b < (D.state copy.old).blocks }
    ensures { (from from_now : State) → OnlyReads false from from_now → (IsTrue D.tells → from_now.log ≡ from.log)
        → (IsTrue D.tells → from.log ≡ [] → block.now ≡ from.base b)
        → CopiesPart D.tells b (b + 1) result from from_now (D.state copy.old) (D.state copy.new) }
{
    an_event_changes_one_block();
    calls_in_a_row_spend_together();
    let Ok(ticket) = copy.write(b, block) else {
        return Err(CopyFault::Write);
    };
    let Ok(()) = copy.wait(ticket) else {
        return Err(CopyFault::Write);
    };
    Ok(())
}

/// Copies the blocks from `start` on and before `end`, in order, a stretch at a time.
///
/// # Errors
/// Which of the disks failed, which that disk has counted; the blocks behind aren't copied.
fn copy_range<D: Disk>(
    original: &mut D,
    copy: &mut D,
    start: u32,
    end: u32,
) -> Result<(), CopyFault>
    requires order { start ≤ end }
    requires there { end ≤ (D.state original.old).blocks }
    requires within { end ≤ (D.state copy.old).blocks }
    ensures { CopiesPart D.tells start end result (D.state original.old) (D.state original.new) (D.state copy.old) (D.state copy.new) }
{
    calls_in_a_row_spend_together();
    let mut first = start;
    while first < end {
        let count = STRETCH.min(end - first);
        if let Err(fault) = copy_stretch(original, copy, first, count) {
            return Err(fault);
        }
        first += count;
    }
    Ok(())
}

/// Copies so many blocks from `first` on: writes them all, and then waits until each is durable.
///
/// # Errors
/// Which of the disks failed, which that disk has counted.
fn copy_stretch<D: Disk>(
    original: &mut D,
    copy: &mut D,
    first: u32,
    count: u32,
) -> Result<(), CopyFault>
    requires few { count ≤ 1024 }
    requires fits { first + count ≤ 4294967295 }
    requires there { first + count ≤ (D.state original.old).blocks }
    requires within { first + count ≤ (D.state copy.old).blocks }
    ensures { CopiesPart D.tells first (first + count) result (D.state original.old) (D.state original.new) (D.state copy.old) (D.state copy.new) }
{
    calls_in_a_row_spend_together();
    let mut tickets = [0; 1024];
    if let Err(fault) = send_stretch(original, copy, first, count, &mut tickets) {
        return Err(fault);
    }
    wait_for_stretch(copy, count, &tickets)
}

/// Reads so many blocks from `first` on, and writes each to the other disk. The list is for the tickets of the writes.
///
/// # Errors
/// Which of the disks failed, which that disk has counted.
fn send_stretch<D: Disk>(
    original: &mut D,
    copy: &mut D,
    first: u32,
    count: u32,
    tickets: &mut [u64; 1024],
) -> Result<(), CopyFault>
    requires few { count ≤ 1024 }
    requires fits { first + count ≤ 4294967295 }
    requires there { first + count ≤ (D.state original.old).blocks }
    requires within { first + count ≤ (D.state copy.old).blocks }
    ensures { SendsStretch D.tells first count tickets.new result (D.state original.old) (D.state original.new) (D.state copy.old) (D.state copy.new) }
{
    an_event_changes_one_block();
    calls_in_a_row_spend_together();
    let mut block: Block = [0; BLOCK_LENGTH];
    for i in 0..count {
        let Ok(()) = original.read(first + i, &mut block) else {
            return Err(CopyFault::Read);
        };
        let Ok(ticket) = copy.write(first + i, &block) else {
            return Err(CopyFault::Write);
        };
        tickets[i as usize] = ticket;
    }
    Ok(())
}

/// Waits for the first tickets of the list, so many.
///
/// # Errors
/// A wait failed, which the disk has counted.
fn wait_for_stretch<D: Disk>(
    copy: &mut D,
    count: u32,
    tickets: &[u64; 1024],
) -> Result<(), CopyFault>
    requires few { count ≤ 1024 }
    ensures { WaitsForStretch D.tells count count tickets.now result (D.state copy.old) (D.state copy.new) }
{
    an_event_changes_one_block();
    calls_in_a_row_spend_together();
    for i in 0..count {
        let Ok(()) = copy.wait(tickets[i as usize]) else {
            return Err(CopyFault::Write);
        };
    }
    Ok(())
}
