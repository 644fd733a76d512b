//! Commands that are asked of the file system on the new disk, one by one. Where one doesn't fit the transaction, what came
//! before it is synced first. Which commands come is in the module of the filling.

ghost use Rattle.std.specs.Prelude.{◌≡◌, ◌≢◌, ℕ, true, false, IsTrue, List, [], ◌∷◌, ◌++◌, IfErr, OnOk};
ghost use Rattle.layout_geometry.specs.Geometry.{Geometry};
ghost use Rattle.lang_tree.specs.declared.command.Cmd.{Cmd};
ghost use Rattle.lang_tree.specs.declared.command.Refusal.TheVariants.{TooBig};
ghost use Rattle.lang_tree.specs.declared.command.Reply.TheVariants.{Ok as Done, Refused};
ghost use Rattle.lang_tree.specs.Tree.{Tree};
ghost use Rattle.lang_making.specs.Making.{making};
ghost use Rattle.engine_store.specs.StoreOf.{state_of};
ghost use Rattle.fs_commands.specs.Opened.{blocks_in};
ghost use Rattle.cmd_upgrade.specs.Looked.{HasMade, HasMadeWith, HoldsNow, IsStop, MakesOn, StaysOnDisk, StopsMaking};
ghost use Rattle.cmd_upgrade.specs.Plans.{CanBeMade};

use crate::refusal::{UpgradeRefusal, of_reply};
use cmd_image::a_reply_tells_which_call_failed;
use cmd_session::Served;
use crash_stands::an_image_stands_for_one_tree;
use disk_contract::Disk;
use engine_store::Store;
use fs_session::{
    a_command_answers_its_session, a_command_is_answered_in_a_room_that_came_back,
    a_command_raises_the_numbers_little, a_refusal_for_the_disk_has_its_cause,
};
use lang_making::the_next_command_is_done;
use lang_tree::{Cmd, Refusal, Reply, a_reply_tells_the_session};
use std::alloc::Global;

/// Asks a command, and where it doesn't fit what changed since the last sync point, a sync and the command again.
///
/// # Errors
/// The disk refused it, or out of memory.
pub(crate) fn ask<D: Disk + Drop>(
    alloc: Global,
    served: &mut Served<Store<D>>,
    cmd: &Cmd,
) -> Result<(), UpgradeRefusal>
    ensures keeps { StaysOnDisk D.tells (state_of D.state (blocks_in served.old)) (state_of D.state (blocks_in served.new)) }
    ensures makes { MakesOn D.tells (cmd.now ∷ []) (state_of D.state (blocks_in served.old)) (state_of D.state (blocks_in served.new)) result }
    ensures which { IfErr result IsStop }
{
    an_image_stands_for_one_tree();
    a_command_answers_its_session::<Store<D>>();
    a_command_is_answered_in_a_room_that_came_back::<Store<D>>();
    a_command_raises_the_numbers_little::<Store<D>>();
    a_refusal_for_the_disk_has_its_cause::<Store<D>>();
    a_reply_tells_which_call_failed::<Store<D>>();
    the_next_command_is_done();
    let reply = served.apply(alloc, cmd);
    if is_done(&reply) {
        return Ok(());
    }
    if is_too_big(&reply) {
        return ask_behind_sync(alloc, served, cmd);
    }
    Err(of_reply(&reply))
}

/// Makes a sync point, and asks the command.
///
/// # Errors
/// The disk refused one of them, or out of memory.
fn ask_behind_sync<D: Disk + Drop>(
    alloc: Global,
    served: &mut Served<Store<D>>,
    cmd: &Cmd,
) -> Result<(), UpgradeRefusal>
    ensures keeps { StaysOnDisk D.tells (state_of D.state (blocks_in served.old)) (state_of D.state (blocks_in served.new)) }
    ensures makes { IsTrue D.tells → (g : Geometry) (t : Tree) (front back : List Cmd) → CanBeMade g t → making t ≡ front ++ cmd.now ∷ back
        → HasMadeWith 1 g front (state_of D.state (blocks_in served.old))
        → OnOk result (HasMade g (front ++ cmd.now ∷ []) (state_of D.state (blocks_in served.new))) × IfErr result (StopsMaking g t (state_of D.state (blocks_in served.new))) }
    ensures which { IfErr result IsStop }
{
    an_image_stands_for_one_tree();
    a_command_answers_its_session::<Store<D>>();
    a_command_is_answered_in_a_room_that_came_back::<Store<D>>();
    a_command_raises_the_numbers_little::<Store<D>>();
    a_refusal_for_the_disk_has_its_cause::<Store<D>>();
    a_reply_tells_which_call_failed::<Store<D>>();
    the_next_command_is_done();
    match served.apply(alloc, &Cmd::Osync) {
        Reply::Synced(_) => {}
        reply => return Err(of_reply(&reply)),
    }
    let reply = served.apply(alloc, cmd);
    if is_done(&reply) {
        return Ok(());
    }
    Err(of_reply(&reply))
}

/// Whether a command was done that has nothing to tell.
fn is_done(reply: &Reply) -> bool
    ensures done { result ≡ true → reply.now ≡ Done }
    ensures other { result ≡ false → reply.now ≢ Done }
{
    match reply {
        Reply::Ok => true,
        Reply::Bytes(_)
        | Reply::Stat(_)
        | Reply::Names(_)
        | Reply::Synced(_)
        | Reply::DurableAt(_)
        | Reply::Known(_)
        | Reply::Bad
        | Reply::Refused(_) => false,
    }
}

/// Whether a command was refused as it doesn't fit what changed since the last sync point.
fn is_too_big(reply: &Reply) -> bool
    ensures big { result ≡ true → (weight : ℕ) × (cost : ℕ) × (room : ℕ) × (reply.now ≡ Refused (TooBig weight cost room)) }
    ensures other { result ≡ false → (weight cost room : ℕ) → reply.now ≢ Refused (TooBig weight cost room) }
{
    match reply {
        Reply::Refused(Refusal::TooBig { .. }) => true,
        _ => false,
    }
}

/// Makes a sync point of what changed, and waits until it is on the disk.
///
/// # Errors
/// The disk refused it, or out of memory.
pub(crate) fn make_durable<D: Disk + Drop>(
    alloc: Global,
    served: &mut Served<Store<D>>,
) -> Result<(), UpgradeRefusal>
    ensures keeps { StaysOnDisk D.tells (state_of D.state (blocks_in served.old)) (state_of D.state (blocks_in served.new)) }
    ensures holds { IsTrue D.tells → (g : Geometry) (t : Tree) → CanBeMade g t → HasMade g (making t) (state_of D.state (blocks_in served.old))
        → OnOk result (HoldsNow t (state_of D.state (blocks_in served.new))) × IfErr result (StopsMaking g t (state_of D.state (blocks_in served.new))) }
    ensures which { IfErr result IsStop }
{
    an_image_stands_for_one_tree();
    a_command_answers_its_session::<Store<D>>();
    a_command_is_answered_in_a_room_that_came_back::<Store<D>>();
    a_command_raises_the_numbers_little::<Store<D>>();
    a_refusal_for_the_disk_has_its_cause::<Store<D>>();
    a_reply_tells_which_call_failed::<Store<D>>();
    a_reply_tells_the_session();
    the_next_command_is_done();
    match served.apply(alloc, &Cmd::Dsync) {
        Reply::DurableAt(_) => Ok(()),
        reply => Err(of_reply(&reply)),
    }
}
