//! One command of a recording, answered; and what is known of the run so far, by which it is a trace. How a command
//! is written to the trace is in the module of the recording.

ghost use Rattle.std.specs.Prelude.{◌≡◌, ℕ, true, List};
ghost use Rattle.layout_geometry.specs.Geometry.{Geometry, geometry_fits};
ghost use Rattle.disk_memory.specs.MemDisk.{state_of as disk_state};
ghost use Rattle.engine_store.specs.StoreOf.{state_of};
ghost use Rattle.fs_commands.specs.Opened.{blocks_in};
ghost use Rattle.lang_tree.specs.declared.command.Cmd.{Cmd};
ghost use Rattle.lang_tree.specs.declared.command.Reply.{Reply};
ghost use Rattle.cmd_record.specs.Running.{BeginsSo, IsAnswered, KnownRun, Ran, RunLaws};

use cmd_host::{System, the_disk_keeps_to_its_manner};
use cmd_session::{
    a_command_goes_by_the_log, a_run_begins_by_the_log, a_run_may_end_at_once,
    the_writes_keep_within_the_budget, the_writes_keep_within_the_budget_at_each_mark,
};
use crash_stands::{
    an_image_stands_for_one_tree, images_alike_below_n_stand_for_the_same,
    the_formatted_disk_stands_for_the_root,
};
use disk_memory::MemDisk;
use engine_store::Store;
use fs_session::{
    a_command_is_answered_in_a_room_that_came_back, a_command_raises_the_numbers_little,
    a_refusal_for_the_disk_has_its_cause,
};
use lang_tree::{Cmd, Reply};
use layout_geometry::geometries_are_within_limits;
use std::alloc::Global;

/// Answers one command.
pub fn answer(alloc: Global, system: &mut System, cmd: &Cmd) -> Reply
    ensures { IsAnswered cmd.now result (state_of disk_state (blocks_in system.old)) (state_of disk_state (blocks_in system.new)) }
{
    a_command_goes_by_the_log::<Store<MemDisk>>();
    a_command_is_answered_in_a_room_that_came_back::<Store<MemDisk>>();
    a_refusal_for_the_disk_has_its_cause::<Store<MemDisk>>();
    a_command_raises_the_numbers_little::<Store<MemDisk>>();
    the_writes_keep_within_the_budget_at_each_mark::<Store<MemDisk>>();
    system.lawful();
    let reply = system.apply(alloc, cmd);
    the_disk_keeps_to_its_manner(system);
    reply
}

/// What is known of a run on the disk of a recording, by which it is a trace, and begins others. This does nothing.
pub fn a_run_is_known(system: &System)
    ensures laws { (g : Geometry) → geometry_fits g ≡ true → RunLaws g }
    ensures known { (g : Geometry) (mounted : ℕ) (cmds : List Cmd) (replies : List Reply) (marks : List ℕ)
        → Ran g mounted cmds replies marks (state_of disk_state (blocks_in system.now))
        → KnownRun g (state_of disk_state (blocks_in system.now)) mounted cmds replies marks }
    ensures begins { BeginsSo (state_of disk_state (blocks_in system.now)) }
{
    the_formatted_disk_stands_for_the_root();
    an_image_stands_for_one_tree();
    images_alike_below_n_stand_for_the_same();
    a_run_may_end_at_once::<Store<MemDisk>>();
    the_writes_keep_within_the_budget::<Store<MemDisk>>();
    the_writes_keep_within_the_budget_at_each_mark::<Store<MemDisk>>();
    a_command_is_answered_in_a_room_that_came_back::<Store<MemDisk>>();
    geometries_are_within_limits();
    a_run_begins_by_the_log::<Store<MemDisk>>();
}
