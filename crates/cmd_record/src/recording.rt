//! One command of a recording: it is answered by a file system over a store on a disk in memory, and its entry of the trace
//! is written, with the events that the disk had meanwhile. Where the commands come from is in the module of the reading,
//! and how a recording ends in that of the program.
//!
//! The disk's log has each event, and the trace has it once its command is answered: so no event waits to be written
//! between two commands, and nothing of the trace is held here.

ghost use Rattle.std.specs.Prelude.{◌≡◌, [], ◌∷◌, length, OnOk, OnErr};
ghost use Rattle.disk_memory.specs.MemDisk.{state_of as disk_state};
ghost use Rattle.engine_store.specs.StoreOf.{state_of};
ghost use Rattle.fs_commands.specs.Opened.{blocks_in};
ghost use Rattle.cmd_record.specs.Running.{ServesFrom, TriesFrom};
ghost use Rattle.cmd_record.specs.Follows.{StopsByCause};

use crate::events::write_events;
use crate::running::{a_run_is_known, answer};
use base_io::{Sink, SinkFault};
use base_types::NoMemory;
use cmd_host::System;
use cmd_trace::{write_command, write_reply};
use disk_contract::Disk;
use disk_memory::MemDisk;
use lang_script::{cmd_text, reply_text};
use lang_tree::Cmd;
use std::alloc::Global;

/// Why a recording stops before its input ends.
#[derive(Clone, Copy, Debug, PartialEq, Eq)]
pub enum Stop {
    /// No memory was found.
    NoMemory,
    /// The sink failed.
    SinkFault,
}

impl From<NoMemory> for Stop {
    ghost use Rattle.std.specs.Prelude.{◌≡◌};
    ghost use Rattle.cmd_record.specs.declared.recording.Stop.TheVariants.{NoMemory as OutOfMemory};

    ghost from_gives = { λ _ stop. stop ≡ OutOfMemory };

    fn from(_want: NoMemory) -> Stop {
        Stop::NoMemory
    }
}

impl From<SinkFault> for Stop {
    ghost use Rattle.std.specs.Prelude.{◌≡◌};
    ghost use Rattle.cmd_record.specs.declared.recording.Stop.TheVariants.{SinkFault as Failed};

    ghost from_gives = { λ _ stop. stop ≡ Failed };

    fn from(_fault: SinkFault) -> Stop {
        Stop::SinkFault
    }
}

/// Answers one command and writes its entry: the command, the events that came meanwhile, and the reply with the
/// number of all events so far.
///
/// # Errors
/// Out of memory, or a fault of the sink.
pub(crate) fn serve<K: Sink>(
    alloc: Global,
    system: &mut System,
    out: &mut K,
    cmd: &Cmd,
) -> Result<(), Stop>
    ensures ok { OnOk result (ServesFrom (cmd.now ∷ []) (state_of disk_state (blocks_in system.old)) (state_of disk_state (blocks_in system.new))
        (K.taken out.old) (K.taken out.new)) }
    ensures err { OnErr result (TriesFrom (cmd.now ∷ []) (state_of disk_state (blocks_in system.old)) (K.taken out.old) (K.taken out.new)) }
    ensures cause { StopsByCause (K.faults out.old) (K.faults out.new) result }
{
    let asked = cmd_text(alloc, cmd)?;
    let before = moment_of(system);
    let reply = answer(alloc, system, cmd);
    a_run_is_known(system);
    let told = reply_text(alloc, &reply)?;
    write_command(out, asked.as_slice())?;
    write_events(out, system.blocks().disk(), before)?;
    write_reply(out, moment_of(system), told.as_slice())?;
    Ok(())
}

/// The number of events of the disk so far.
fn moment_of(system: &System) -> u64
    ensures { result ≡ length (state_of disk_state (blocks_in system.now)).crash.log }
{
    system.blocks().disk().moment()
}

/// The disk under a file system.
pub(crate) fn disk_of(system: &System) -> &MemDisk
    ensures { result.now.log ≡ (state_of disk_state (blocks_in system.now)).crash.log }
{
    system.blocks().disk()
}
