//! Checkpoint writes: a block of the batch that has to be at its place is written there. Which blocks
//! these are is said by the test of the crash argument; how code finds them isn't said here, nor when a
//! batch begins.

ghost use Rattle.std.specs.Prelude.{◌≡◌, ◌≤◌, ◌<◌, ℕ, List, Some, None, IsTrue, OnErr, is_err};
ghost use Rattle.disk_contract.specs.Disk.{HasFailed, AddsWrite, OnlyWrites};
ghost use Rattle.crash_argument.specs.Ledger.{Ledger};
ghost use Rattle.crash_argument.specs.PipelineData.{PipelineData};
ghost use Rattle.crash_argument.specs.Points.{MountedSession, IsSafe};
ghost use Rattle.engine_checkpoint.specs.HomeState.{HomeState, HomeWritten, home_of};

use base_types::Block;
use crash_argument::{
    a_batch_goes_home, a_home_write_may_be_made, a_write_to_an_idle_block_is_the_one,
    blocks_to_be_written_are_idle, counts_tell_the_batch, nothing_is_written_between_records,
    taken_blocks_stay_dead, the_home_test_is_exact, write_in_place,
};
use disk_contract::{Disk, DiskFault};

/// Writes the next block of the batch to its place.
///
/// # Errors
/// The write failed, which the disk has counted. What a crash leaves is still one sync point.
pub(crate) fn write_home<D: Disk>(disk: &mut D, block: u32, bytes: &Block) -> Result<u64, DiskFault>
    requires { block < (D.state disk.old).blocks }
    ensures home { IsTrue D.tells → (s : MountedSession) (l : Ledger) (p : PipelineData) (freed : List (List ℕ)) (taken : List ℕ) (t floor : ℕ)
        → IsSafe s (D.state disk.old).base (D.state disk.old).log l t floor → HomeState (D.state disk.old).base (D.state disk.old).log l p freed taken
        → p.sent ≤ block → home_of l p freed block ≡ Some bytes.now → ((c : ℕ) → p.sent ≤ c → c < block → home_of l p freed c ≡ None)
        → HomeWritten s l p freed taken t floor block result (D.state disk.new).base (D.state disk.new).log }
    ensures log { IsTrue D.tells → AddsWrite block bytes.now result (D.state disk.old).log (D.state disk.new).log }
    ensures spends { OnlyWrites (is_err result) (D.state disk.old) (D.state disk.new) }
    ensures cause { IsTrue D.tells → OnErr result (HasFailed (D.state disk.new)) }
{
    the_home_test_is_exact();
    counts_tell_the_batch();
    a_home_write_may_be_made();
    a_batch_goes_home();
    blocks_to_be_written_are_idle();
    a_write_to_an_idle_block_is_the_one();
    nothing_is_written_between_records();
    taken_blocks_stay_dead();
    let ticket = write_in_place(disk, block, bytes)?;
    Ok(ticket)
}
