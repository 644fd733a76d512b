//! A header that makes records durable, and a checkpoint write that brings a payload to its block, each
//! written and waited for, over any disk. When a header is due, and what goes into it, is not its matter.

ghost use Rattle.std.specs.Prelude.{◌≡◌, ◌≢◌, ◌<◌, ◌≤◌, ◌+◌, ◌-◌, ℕ, List, take, drop, IsTrue, Some, None, is_err};
ghost use Rattle.disk_contract.specs.Disk.{SpendsUpTo};
ghost use Rattle.layout_journal.specs.Layout.{header_of};
ghost use Rattle.crash_argument.specs.Ledger.{Ledger};
ghost use Rattle.crash_argument.specs.PipelineData.{PipelineData, DataAgreeOn, NeedsCheckpoint, next_header};
ghost use Rattle.crash_argument.specs.Points.{MountedSession, IsSafeOn};
ghost use Rattle.crash_argument.specs.Opening.{AddsDurable};
ghost use Rattle.crash_example.specs.OneRecord.{HeaderLeaves, CheckpointLeaves};

use crate::argument::the_argument_holds;
use base_types::Block;
use crash_argument::{wait_for, write_header, write_in_place};
use disk_contract::{Disk, DiskFault};

/// Writes a header beside the durable one, which is in this slot, and waits for it.
pub fn make_sure<D: Disk>(disk: &mut D, slot: u32, header: &Block) -> Result<(), DiskFault>
    requires slot { slot < 2 }
    requires within { 2 ≤ (D.state disk.old).blocks }
    ensures turned { IsTrue D.tells → (s : MountedSession) (l : Ledger) (p : PipelineData) (t floor : ℕ) → slot ≡ l.slot → l.next ≡ None
        → header_of l.geom.n header.now ≡ Some (next_header l p.placed)
        → IsSafeOn s (D.state disk.old) l t floor → DataAgreeOn (D.state disk.old) l p
        → HeaderLeaves s l p (next_header l p.placed) t floor result (D.state disk.new) }
    ensures log { IsTrue D.tells → AddsDurable (1 - slot) header.now result (D.state disk.old).log (D.state disk.new).log }
    ensures spends { SpendsUpTo (is_err result) 1 (D.state disk.old) (D.state disk.new) }
{
    the_argument_holds();
    let ticket = write_header(disk, 1 - slot, header)?;
    wait_for(disk, ticket)?;
    Ok(())
}

/// Writes the one block of the next batch to its place, and waits for it.
pub fn checkpoint<D: Disk>(disk: &mut D, block: u32, bytes: &Block) -> Result<(), DiskFault>
    requires { block < (D.state disk.old).blocks }
    ensures placed { IsTrue D.tells → (s : MountedSession) (l : Ledger) (p : PipelineData) (t floor count : ℕ) → p.batch ≡ 0
        → l.header.start + p.placed + count ≡ l.header.sure + 1
        → NeedsCheckpoint l (take count (drop p.placed l.records)) block bytes.now
        → ((c : ℕ) (y : List ℕ) → c ≢ block → ¬ NeedsCheckpoint l (take count (drop p.placed l.records)) c y)
        → IsSafeOn s (D.state disk.old) l t floor → DataAgreeOn (D.state disk.old) l p
        → CheckpointLeaves s l p count block t floor result (D.state disk.new) }
    ensures log { IsTrue D.tells → AddsDurable block bytes.now result (D.state disk.old).log (D.state disk.new).log }
    ensures spends { SpendsUpTo (is_err result) 1 (D.state disk.old) (D.state disk.new) }
{
    the_argument_holds();
    let written = write_in_place(disk, block, bytes)?;
    wait_for(disk, written)?;
    Ok(())
}
