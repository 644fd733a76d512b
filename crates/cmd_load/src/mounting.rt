//! The file system of a load, on a disk in memory that was just formatted and mounted. No call of that disk fails here.

ghost use Rattle.std.specs.Prelude.{true, IfOk};
ghost use Rattle.disk_memory.specs.MemDisk.{state_of as disk_state};
ghost use Rattle.engine_store.specs.StoreOf.{state_of};
ghost use Rattle.fs_commands.specs.Opened.{IsReady, blocks_in};
ghost use Rattle.fs_session.specs.Sessions.{Stands};
ghost use Rattle.cmd_load.specs.Serving.{Serves};
ghost use Rattle.cmd_load.specs.Summary.{at_first};

use crate::disk::{behaviour, geom};
use base_types::NoMemory;
use cmd_host::{Mounted, begin};
use disk_memory::MemDisk;
use engine_store::Store;
use fs_commands::Fs;
use std::alloc::Global;

/// A file system over a store on a disk in memory.
pub(crate) type System = Fs<Store<MemDisk>>;

/// Formats a disk that gives its notices by the seed, mounts it, and opens the file system on it.
///
/// # Errors
/// Out of memory.
pub(crate) fn mount(alloc: Global, seed: u32) -> Result<System, NoMemory>
    ensures serves { IfOk result (λ fs. Serves at_first 0 (state_of disk_state (blocks_in fs))) }
    ensures ready { IfOk result (λ fs. IsReady true (λ s. state_of disk_state s) fs) }
    ensures stands { IfOk result (λ fs. Stands (state_of disk_state (blocks_in fs))) }
{
    match begin(alloc, &geom(), &behaviour(seed)) {
        Ok(Mounted::Opened(served)) => Ok(served.into_files()),
        Ok(Mounted::Failed(_)) => unreachable!(),
        Err(NoMemory) => Err(NoMemory),
    }
}
