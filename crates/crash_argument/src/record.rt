//! The calls that write a record, block by block, each with what is issued of it then. What a record says,
//! and which places and blocks it takes, is decided elsewhere.

ghost use Rattle.std.specs.Prelude.{◌≡◌, ◌<◌, ◌+◌, ℕ, List, length, slice_get, IsTrue, OnErr, Some, is_err};
ghost use Rattle.base_types.specs.Seal.{Blocks};
ghost use Rattle.disk_contract.specs.Disk.{HasFailed, AddsWrite, OnlyWrites};
ghost use Rattle.layout_geometry.specs.Geometry.{ring_block};
ghost use Rattle.layout_journal.specs.declared.entry.Entry.{Entry};
ghost use Rattle.layout_journal.specs.Run.{places};
ghost use Rattle.crash_argument.specs.Ledger.{Ledger, WrittenRecord, block_at};
ghost use Rattle.crash_argument.specs.Points.{MountedSession, IsSafeOn};
ghost use Rattle.crash_argument.specs.LastWrites.{FreshAreNew};
ghost use Rattle.crash_argument.specs.PipelineData.{PipelineData};
ghost use Rattle.crash_argument.specs.Recording.{IsNextRecord, IsPartlyOn, PartWritten, RecordWritten};

use crate::journal::the_journal_is_lawful;
use base_types::Block;
use disk_contract::{Disk, DiskFault};

/// Writes the next fresh block of a record.
pub fn write_fresh<D: Disk>(disk: &mut D, block: u32, bytes: &Block) -> Result<u64, DiskFault>
    requires { block < (D.state disk.old).blocks }
    ensures under_way { IsTrue D.tells → (s : MountedSession) (l : Ledger) (p : PipelineData) (w : WrittenRecord) (m : Blocks) (t floor i issued : ℕ)
        (e : Entry) (tickets : List ℕ) → FreshAreNew l → IsNextRecord l w m
        → slice_get w.says.fresh i ≡ Some e → block ≡ e.block → bytes.now ≡ block_at w.fresh i
        → IsSafeOn s (D.state disk.old) l t floor → IsPartlyOn (D.state disk.old) l p w tickets i issued
        → PartWritten s l p w t floor tickets (i + 1) issued result (D.state disk.new) }
    ensures log { IsTrue D.tells → AddsWrite block bytes.now result (D.state disk.old).log (D.state disk.new).log }
    ensures spends { OnlyWrites (is_err result) (D.state disk.old) (D.state disk.new) }
    ensures cause { IsTrue D.tells → OnErr result (HasFailed (D.state disk.new)) }
{
    the_journal_is_lawful();
    disk.write(block, bytes)
}

/// Writes the next descriptor or payload of a record.
pub fn write_part<D: Disk>(disk: &mut D, block: u32, bytes: &Block) -> Result<u64, DiskFault>
    requires { block < (D.state disk.old).blocks }
    ensures under_way { IsTrue D.tells → (s : MountedSession) (l : Ledger) (p : PipelineData) (w : WrittenRecord) (m : Blocks) (t floor i laid : ℕ)
        (tickets : List ℕ) → FreshAreNew l → IsNextRecord l w m
        → 0 < i → i < places w.says → block ≡ ring_block l.geom (w.says.place + i) → bytes.now ≡ block_at w.ring i
        → IsSafeOn s (D.state disk.old) l t floor → IsPartlyOn (D.state disk.old) l p w tickets laid i
        → PartWritten s l p w t floor tickets laid (i + 1) result (D.state disk.new) }
    ensures log { IsTrue D.tells → AddsWrite block bytes.now result (D.state disk.old).log (D.state disk.new).log }
    ensures spends { OnlyWrites (is_err result) (D.state disk.old) (D.state disk.new) }
    ensures cause { IsTrue D.tells → OnErr result (HasFailed (D.state disk.new)) }
{
    the_journal_is_lawful();
    disk.write(block, bytes)
}

/// Writes the commit block of a record of which all else is issued. Where it is accepted or lost, a point is made.
pub fn write_last<D: Disk>(disk: &mut D, block: u32, bytes: &Block) -> Result<u64, DiskFault>
    requires { block < (D.state disk.old).blocks }
    ensures recorded { IsTrue D.tells → (s : MountedSession) (l : Ledger) (p : PipelineData) (w : WrittenRecord) (m : Blocks) (t floor : ℕ)
        (tickets : List ℕ) → FreshAreNew l → IsNextRecord l w m
        → block ≡ ring_block l.geom w.says.place → bytes.now ≡ block_at w.ring 0
        → IsSafeOn s (D.state disk.old) l t floor → IsPartlyOn (D.state disk.old) l p w tickets (length w.says.fresh) (places w.says)
        → RecordWritten s l p w m t floor tickets result (D.state disk.old) (D.state disk.new) }
    ensures log { IsTrue D.tells → AddsWrite block bytes.now result (D.state disk.old).log (D.state disk.new).log }
    ensures spends { OnlyWrites (is_err result) (D.state disk.old) (D.state disk.new) }
    ensures cause { IsTrue D.tells → OnErr result (HasFailed (D.state disk.new)) }
{
    the_journal_is_lawful();
    disk.write(block, bytes)
}
