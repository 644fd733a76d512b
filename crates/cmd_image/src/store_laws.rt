//! Laws of maps of blocks and of the disk under them, which a proof cites: functions that do nothing, whose clauses say them.

ghost use Rattle.std.specs.Prelude.{◌≡◌, ◌<◌, ◌+◌, false, true, IsTrue};
ghost use Rattle.disk_contract.specs.Cell.{has_lost};
ghost use Rattle.disk_contract.specs.Lawful.{IsLawful};
ghost use Rattle.disk_contract.specs.Manner.{HasFailedBy};
ghost use Rattle.engine_blocks.specs.Calls.{IsSound};
ghost use Rattle.engine_blocks.specs.Crashes.{StillAwaits};
ghost use Rattle.fs_commands.specs.Opened.{blocks_in};
ghost use Rattle.engine_store.specs.StoreOf.{state_of};

use cmd_session::Served;
use disk_contract::Disk;
use engine_blocks::Blocks;
use engine_store::Store;

/// The bookkeeping of any blocks is sound.
pub(crate) fn books_are_sound<S: Blocks>()
    ensures { (s : S) → IsSound (S.state s).books }
{}

/// The disk under a file system keeps to its manner: its log is a lawful one, a read has failed only where reads may, and
/// where the store has stopped, another call failed last, for a reason that the manner has. Where a wait brings the notice
/// of its own ticket alone, a write was lost only where a failed call was counted. And while the store goes on, `durable`
/// isn't too low: where that isn't the last point, the next one still waits for a ticket. This does nothing.
pub(crate) fn the_disk_keeps_to_its_manner<D: Disk + Drop>(served: &Served<Store<D>>)
    ensures lawful { IsTrue D.tells → IsLawful (state_of D.state (blocks_in served.now)).crash.log }
    ensures reads { IsTrue D.tells → 0 < (state_of D.state (blocks_in served.now)).counts.read_faults
        → (state_of D.state (blocks_in served.now)).counts.ticks.manner.reads_fail ≡ true }
    ensures fails { IsTrue D.tells → (state_of D.state (blocks_in served.now)).books.stopped ≡ true
        → ∥ HasFailedBy (state_of D.state (blocks_in served.now)).counts.ticks.manner (state_of D.state (blocks_in served.now)).crash.log ∥₁ }
    ensures unlost { IsTrue D.tells → (state_of D.state (blocks_in served.now)).counts.ticks.manner.waits_alone ≡ true
        → (state_of D.state (blocks_in served.now)).counts.faults ≡ 0 → has_lost (state_of D.state (blocks_in served.now)).crash.log ≡ false }
    ensures still { IsTrue D.tells → (state_of D.state (blocks_in served.now)).books.stopped ≡ false
        → (state_of D.state (blocks_in served.now)).books.floor < (state_of D.state (blocks_in served.now)).books.point
        → ∥ StillAwaits (state_of D.state (blocks_in served.now)) ((state_of D.state (blocks_in served.now)).books.floor + 1) ∥₁ }
{
    served.blocks().lawful();
    served.blocks().disk().lawful();
}
