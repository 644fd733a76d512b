//! The commands of a load, one after the other. What one of them comes to is said by `answering`.

ghost use Rattle.std.specs.Prelude.{◌≡◌, ◌≤◌, true, IfOk};
ghost use Rattle.disk_memory.specs.MemDisk.{state_of as disk_state};
ghost use Rattle.engine_store.specs.StoreOf.{state_of};
ghost use Rattle.fs_commands.specs.Opened.{IsReady, blocks_in};
ghost use Rattle.fs_session.specs.Sessions.{Stands};
ghost use Rattle.lang_load.specs.Load.{load_commands};
ghost use Rattle.cmd_load.specs.Serving.{Serves};
ghost use Rattle.cmd_load.specs.Summary.{after_all, at_first};

use crate::answering::{answer, refusals_in};
use crate::mounting::System;
use base_types::NoMemory;
use lang_load::Load;
use lang_tree::nothing_shared_costs_nothing;
use std::alloc::Global;

/// Answers the first `count` commands of the seed on a file system that was just opened. How many were refused.
///
/// # Errors
/// Out of memory.
pub(crate) fn serve(alloc: Global, fs: &mut System, seed: u32, count: u32) -> Result<u32, NoMemory>
    requires most { count ≤ 2000 }
    requires begun { Serves at_first 0 (state_of disk_state (blocks_in fs.old)) }
    requires ready { IsReady true (λ s. state_of disk_state s) fs.old }
    requires stands { Stands (state_of disk_state (blocks_in fs.old)) }
    ensures serves { IfOk result (λ refused. Serves (after_all at_first (load_commands count seed)) count (state_of disk_state (blocks_in fs.new))
        × (refused ≡ (after_all at_first (load_commands count seed)).refused)) }
    ensures ready { IfOk result (λ _. IsReady true (λ s. state_of disk_state s) fs.new) }
{
    nothing_shared_costs_nothing();
    let mut load = Load::new(seed);
    let mut refused = 0;
    for _ in 0..count {
        let cmd = load.next_command(alloc)?;
        let reply = answer(alloc, fs, &cmd);
        refused += refusals_in(&reply)?;
    }
    Ok(refused)
}
