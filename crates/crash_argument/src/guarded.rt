//! Disk calls that are guarded by the laws: each is one call of a disk, and its clause says what becomes of
//! the ledger. Which block is to be written, and when to wait, is not their matter.

ghost use Rattle.std.specs.Prelude.{◌≡◌, ◌<◌, ◌-◌, ℕ, IsTrue, true, OnOk, OnErr, is_err};
ghost use Rattle.base_types.specs.Seal.{Blocks};
ghost use Rattle.disk_contract.specs.Cell.{IsAccepted, IsNoticed};
ghost use Rattle.disk_contract.specs.Disk.{HasFailed, HearsAlone, AddsWrite, AddsPoll, AddsNotices, OnlyWrites, OnlyPolls, OnlyWaits};
ghost use Rattle.disk_contract.specs.Manner.{AnswersBy};
ghost use Rattle.layout_geometry.specs.Geometry.{ring_block};
ghost use Rattle.layout_journal.specs.declared.header.Header.{Header};
ghost use Rattle.crash_argument.specs.Ledger.{Ledger, WrittenRecord, cells_of, block_at};
ghost use Rattle.crash_argument.specs.PipelineData.{PipelineData, AreRightOn};
ghost use Rattle.crash_argument.specs.Steps.{MayWriteInPlace, IsReadyToCommit, MayWriteHeader};
ghost use Rattle.crash_argument.specs.Points.{MountedSession, IsSafeOn, StaysSafe, CommitWritten, HeaderWritten};

use crate::journal::the_journal_is_lawful;
use base_types::Block;
use disk_contract::{Disk, DiskFault};

/// Writes a fresh block, or a block home.
pub fn write_in_place<D: Disk>(disk: &mut D, block: u32, bytes: &Block) -> Result<u64, DiskFault>
    requires { block < (D.state disk.old).blocks }
    ensures safe { IsTrue D.tells → (s : MountedSession) (l : Ledger) (t floor : ℕ) → MayWriteInPlace (cells_of (D.state disk.old)) l block
        → StaysSafe s l t floor (D.state disk.old) (D.state disk.new) }
    ensures log { IsTrue D.tells → AddsWrite block bytes.now result (D.state disk.old).log (D.state disk.new).log }
    ensures spends { OnlyWrites (is_err result) (D.state disk.old) (D.state disk.new) }
    ensures cause { IsTrue D.tells → OnErr result (HasFailed (D.state disk.new)) }
{
    the_journal_is_lawful();
    disk.write(block, bytes)
}

/// Writes the commit block of a record that is otherwise issued. Where it is accepted or lost, a point is made.
pub fn write_commit<D: Disk>(disk: &mut D, block: u32, bytes: &Block) -> Result<u64, DiskFault>
    requires { block < (D.state disk.old).blocks }
    ensures safe { IsTrue D.tells → (s : MountedSession) (l : Ledger) (w : WrittenRecord) (m : Blocks) (t floor : ℕ)
        → block ≡ ring_block l.geom w.says.place → bytes.now ≡ block_at w.ring 0
        → IsReadyToCommit (D.state disk.old).base (D.state disk.old).log l w m → IsSafeOn s (D.state disk.old) l t floor
        → CommitWritten s l w m t floor result (D.state disk.old) (D.state disk.new) }
    ensures log { IsTrue D.tells → AddsWrite block bytes.now result (D.state disk.old).log (D.state disk.new).log }
    ensures spends { OnlyWrites (is_err result) (D.state disk.old) (D.state disk.new) }
    ensures cause { IsTrue D.tells → OnErr result (HasFailed (D.state disk.new)) }
{
    the_journal_is_lawful();
    disk.write(block, bytes)
}

/// Writes a header beside the durable one.
pub fn write_header<D: Disk>(disk: &mut D, slot: u32, bytes: &Block) -> Result<u64, DiskFault>
    requires { slot < (D.state disk.old).blocks }
    ensures safe { IsTrue D.tells → (s : MountedSession) (l : Ledger) (h : Header) (t floor : ℕ) → slot ≡ 1 - l.slot
        → MayWriteHeader (cells_of (D.state disk.old)) l bytes.now h → IsSafeOn s (D.state disk.old) l t floor
        → HeaderWritten s l h t floor result (D.state disk.old) (D.state disk.new) }
    ensures log { IsTrue D.tells → AddsWrite slot bytes.now result (D.state disk.old).log (D.state disk.new).log }
    ensures spends { OnlyWrites (is_err result) (D.state disk.old) (D.state disk.new) }
    ensures cause { IsTrue D.tells → OnErr result (HasFailed (D.state disk.new)) }
{
    the_journal_is_lawful();
    disk.write(slot, bytes)
}

/// Waits for a ticket, and takes what notices come with it.
pub fn wait_for<D: Disk>(disk: &mut D, ticket: u64) -> Result<(), DiskFault>
    ensures safe { IsTrue D.tells → (s : MountedSession) (l : Ledger) (t floor : ℕ) → StaysSafe s l t floor (D.state disk.old) (D.state disk.new) }
    ensures knows { IsTrue D.tells → (l : Ledger) (p : PipelineData) → AreRightOn (D.state disk.old) l p → AreRightOn (D.state disk.new) l p }
    ensures log { IsTrue D.tells → AddsNotices (D.state disk.old).log (D.state disk.new).log }
    ensures noticed { IsTrue D.tells → OnOk result (IsNoticed ticket (D.state disk.new).log) }
    ensures spends { OnlyWaits (is_err result) (D.state disk.old) (D.state disk.new) }
    ensures cause { IsTrue D.tells → IsAccepted ticket (D.state disk.old).log → OnErr result (HasFailed (D.state disk.new)) }
    ensures alone { IsTrue D.tells → (D.state disk.old).manner.waits_alone ≡ true → HearsAlone ticket (D.state disk.old).log (D.state disk.new).log }
{
    the_journal_is_lawful();
    disk.wait(ticket)
}

/// Takes a notice, if there is one.
pub fn poll_once<D: Disk>(disk: &mut D) -> Result<Option<u64>, DiskFault>
    ensures safe { IsTrue D.tells → (s : MountedSession) (l : Ledger) (t floor : ℕ) → StaysSafe s l t floor (D.state disk.old) (D.state disk.new) }
    ensures knows { IsTrue D.tells → (l : Ledger) (p : PipelineData) → AreRightOn (D.state disk.old) l p → AreRightOn (D.state disk.new) l p }
    ensures log { IsTrue D.tells → AddsPoll result (D.state disk.old).log (D.state disk.new).log }
    ensures spends { OnlyPolls (is_err result) (D.state disk.old) (D.state disk.new) }
    ensures answer { IsTrue D.tells → AnswersBy ((D.state disk.old).manner.notice (D.state disk.old).polls (D.state disk.old).log) result }
    ensures cause { IsTrue D.tells → OnErr result (HasFailed (D.state disk.new)) }
{
    the_journal_is_lawful();
    disk.poll()
}
