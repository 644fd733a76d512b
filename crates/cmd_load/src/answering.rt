//! One command of a load, answered, and whether it was refused. Which commands come is described by `lang_load`.

ghost use Rattle.std.specs.Prelude.{◌≡◌, true, false, if◌then◌else◌, IfOk};
ghost use Rattle.disk_memory.specs.MemDisk.{state_of as disk_state};
ghost use Rattle.engine_store.specs.StoreOf.{state_of};
ghost use Rattle.fs_commands.specs.Opened.{IsReady, blocks_in};
ghost use Rattle.fs_session.specs.Sessions.{Stands};
ghost use Rattle.lang_tree.specs.Points.{is_refusal};
ghost use Rattle.cmd_load.specs.Serving.{IsAnswered, has_run_out};

use crate::mounting::System;
use base_types::NoMemory;
use disk_contract::Disk;
use disk_memory::MemDisk;
use engine_store::Store;
use fs_session::{
    a_command_begins_with_a_tick, a_command_is_answered_in_a_room_that_came_back,
    a_command_raises_the_numbers_little, a_refusal_for_the_disk_has_its_cause,
};
use lang_tree::{Cmd, Refusal, Reply};
use std::alloc::Global;

/// Answers one command.
pub(crate) fn answer(alloc: Global, fs: &mut System, cmd: &Cmd) -> Reply
    requires ready { IsReady true (λ s. state_of disk_state s) fs.old }
    requires stands { Stands (state_of disk_state (blocks_in fs.old)) }
    ensures answered { IsAnswered cmd.now result (state_of disk_state (blocks_in fs.old)) (state_of disk_state (blocks_in fs.new)) }
    ensures ready { IsReady true (λ s. state_of disk_state s) fs.new }
    ensures stands { Stands (state_of disk_state (blocks_in fs.new)) }
{
    a_command_is_answered_in_a_room_that_came_back::<Store<MemDisk>>();
    a_command_begins_with_a_tick::<Store<MemDisk>>();
    a_command_raises_the_numbers_little::<Store<MemDisk>>();
    a_refusal_for_the_disk_has_its_cause::<Store<MemDisk>>();
    let reply = fs.apply(alloc, cmd);
    fs.blocks().disk().lawful();
    reply
}

/// How many refusals a reply is: one or none.
///
/// # Errors
/// Memory ran out in the command, or the room of the disk in memory did.
pub(crate) fn refusals_in(reply: &Reply) -> Result<u32, NoMemory>
    ensures count { IfOk result (λ n. n ≡ (if is_refusal reply.now then 1 else 0)) }
    ensures calm { IfOk result (λ _. has_run_out reply.now ≡ false) }
{
    match reply {
        Reply::Refused(Refusal::NoMemory | Refusal::DiskFault) => Err(NoMemory),
        Reply::Refused(
            Refusal::NotFound
            | Refusal::Exists
            | Refusal::NotDir
            | Refusal::IsDir
            | Refusal::NotEmpty
            | Refusal::BelowItself
            | Refusal::TooLarge
            | Refusal::TooManyLinks
            | Refusal::NoNode
            | Refusal::Full { .. }
            | Refusal::TooBig { .. }
            | Refusal::Scattered { .. }
            | Refusal::ReadFault
            | Refusal::Stopped
            | Refusal::Spent
            | Refusal::NameTooLong
            | Refusal::NoPoint { .. }
            | Refusal::NoSnap,
        ) => Ok(1),
        Reply::Ok
        | Reply::Bytes(_)
        | Reply::Stat(_)
        | Reply::Names(_)
        | Reply::Synced(_)
        | Reply::DurableAt(_)
        | Reply::Known(_)
        | Reply::Bad => Ok(0),
    }
}
