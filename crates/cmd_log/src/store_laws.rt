//! The disk under a store: whether a call of it failed, and that it keeps to its manner, a law that a proof cites.

ghost use Rattle.std.specs.Prelude.{◌≡◌, IsTrue};
ghost use Rattle.disk_contract.specs.Bay.{has_faults};
ghost use Rattle.engine_store.specs.StoreOf.{state_of};
ghost use Rattle.cmd_log.specs.Steps.{KeepsToManner};

use disk_contract::Disk;
use engine_blocks::Blocks;
use engine_store::Store;

/// The disk under a store keeps to its manner: a read has failed only where reads may, and where the store has stopped,
/// another call failed last, for a reason that the manner has. This does nothing.
pub(crate) fn the_disk_keeps_to_its_manner<D: Disk + Drop>(store: &Store<D>)
    ensures { IsTrue D.tells → KeepsToManner (state_of D.state store.now) }
{
    store.lawful();
    store.disk().lawful();
}

/// Whether a call of the disk failed.
pub(crate) fn has_faults<D: Disk>(disk: &D) -> bool
    ensures { result ≡ has_faults (D.state disk.now) }
{
    let (read_faults, faults) = disk.counts();
    0 < read_faults || 0 < faults
}
