//! Looks at the tree of a mounted disk, each answered by its file system. They change nothing. Which looks are made is in
//! the modules of the walk and of the filling.

ghost use Rattle.std.specs.Prelude.{◌≡◌, true, IfOk, IfErr, take, drop};
ghost use Rattle.engine_store.specs.StoreOf.{state_of};
ghost use Rattle.fs_commands.specs.Opened.{blocks_in};
ghost use Rattle.lang_tree.specs.declared.command.Cmd.TheVariants.{List as ListNames, Read, Stat as StatCmd};
ghost use Rattle.lang_tree.specs.declared.command.Reply.TheVariants.{Stat as StatReply};
ghost use Rattle.lang_tree.specs.Names.{names_in};
ghost use Rattle.lang_tree.specs.Step.{stat};
ghost use Rattle.lang_tree.specs.Walk.{content};
ghost use Rattle.cmd_upgrade.specs.Looks.{is_look};
ghost use Rattle.cmd_upgrade.specs.Looked.{AnswersLook, IsStop, OfLooked, RaisesBy, StaysLookedAt, StaysOnDisk, StopsAt};

use crate::refusal::{UpgradeRefusal, of_reply};
use base_types::Bytes;
use cmd_image::a_reply_tells_which_call_failed;
use cmd_session::Served;
use disk_contract::Disk;
use engine_store::Store;
use fs_session::{
    a_command_answers_its_session, a_command_is_answered_in_a_room_that_came_back,
    a_command_raises_the_numbers_little, a_refusal_for_the_disk_has_its_cause,
};
use lang_tree::{Cmd, NameList, Path, Reply, Stat};
use std::alloc::Global;

/// Makes a look.
fn look<D: Disk + Drop>(alloc: Global, served: &mut Served<Store<D>>, cmd: &Cmd) -> Reply
    requires { is_look cmd.now ≡ true }
    ensures keeps { StaysOnDisk D.tells (state_of D.state (blocks_in served.old)) (state_of D.state (blocks_in served.new)) }
    ensures raises { RaisesBy 1 (state_of D.state (blocks_in served.old)) (state_of D.state (blocks_in served.new)) }
    ensures stays { StaysLookedAt D.tells (state_of D.state (blocks_in served.old)) (state_of D.state (blocks_in served.new)) }
    ensures answers { OfLooked D.tells (state_of D.state (blocks_in served.old)) (λ t. AnswersLook t cmd.now result (state_of D.state (blocks_in served.new))) }
{
    a_command_answers_its_session::<Store<D>>();
    a_command_is_answered_in_a_room_that_came_back::<Store<D>>();
    a_command_raises_the_numbers_little::<Store<D>>();
    a_refusal_for_the_disk_has_its_cause::<Store<D>>();
    a_reply_tells_which_call_failed::<Store<D>>();
    served.apply(alloc, cmd)
}

/// The names in a directory.
///
/// # Errors
/// The disk refused it, or out of memory.
pub(crate) fn names_at<D: Disk + Drop>(
    alloc: Global,
    served: &mut Served<Store<D>>,
    path: &Path,
) -> Result<NameList, UpgradeRefusal>
    ensures keeps { StaysOnDisk D.tells (state_of D.state (blocks_in served.old)) (state_of D.state (blocks_in served.new)) }
    ensures raises { RaisesBy 1 (state_of D.state (blocks_in served.old)) (state_of D.state (blocks_in served.new)) }
    ensures stays { StaysLookedAt D.tells (state_of D.state (blocks_in served.old)) (state_of D.state (blocks_in served.new)) }
    ensures names { OfLooked D.tells (state_of D.state (blocks_in served.old)) (λ t. IfOk result (λ names. names ≡ names_in t.names path.now)) }
    ensures which { IfErr result IsStop }
    ensures stops { OfLooked D.tells (state_of D.state (blocks_in served.old)) (λ t. IfErr result (StopsAt t (ListNames path.now) (state_of D.state (blocks_in served.new)))) }
{
    let path = path.copy(alloc)?;
    match look(alloc, served, &Cmd::List(path)) {
        Reply::Names(names) => Ok(names),
        reply => Err(of_reply(&reply)),
    }
}

/// What is at a path.
///
/// # Errors
/// The disk refused it, or out of memory.
pub(crate) fn stat_at<D: Disk + Drop>(
    alloc: Global,
    served: &mut Served<Store<D>>,
    path: &Path,
) -> Result<Stat, UpgradeRefusal>
    ensures keeps { StaysOnDisk D.tells (state_of D.state (blocks_in served.old)) (state_of D.state (blocks_in served.new)) }
    ensures raises { RaisesBy 1 (state_of D.state (blocks_in served.old)) (state_of D.state (blocks_in served.new)) }
    ensures stays { StaysLookedAt D.tells (state_of D.state (blocks_in served.old)) (state_of D.state (blocks_in served.new)) }
    ensures stat { OfLooked D.tells (state_of D.state (blocks_in served.old)) (λ t. IfOk result (λ found. stat t path.now ≡ StatReply found)) }
    ensures which { IfErr result IsStop }
    ensures stops { OfLooked D.tells (state_of D.state (blocks_in served.old)) (λ t. IfErr result (StopsAt t (StatCmd path.now) (state_of D.state (blocks_in served.new)))) }
{
    let path = path.copy(alloc)?;
    match look(alloc, served, &Cmd::Stat(path)) {
        Reply::Stat(stat) => Ok(stat),
        reply => Err(of_reply(&reply)),
    }
}

/// At most so many bytes of a file from an offset on.
///
/// # Errors
/// The disk refused it, or out of memory.
pub(crate) fn bytes_at<D: Disk + Drop>(
    alloc: Global,
    served: &mut Served<Store<D>>,
    path: &Path,
    offset: u32,
    count: u32,
) -> Result<Bytes, UpgradeRefusal>
    ensures keeps { StaysOnDisk D.tells (state_of D.state (blocks_in served.old)) (state_of D.state (blocks_in served.new)) }
    ensures raises { RaisesBy 1 (state_of D.state (blocks_in served.old)) (state_of D.state (blocks_in served.new)) }
    ensures stays { StaysLookedAt D.tells (state_of D.state (blocks_in served.old)) (state_of D.state (blocks_in served.new)) }
    ensures bytes { OfLooked D.tells (state_of D.state (blocks_in served.old)) (λ t. IfOk result (λ bytes. bytes ≡ take count (drop offset (content t path.now)))) }
    ensures which { IfErr result IsStop }
    ensures stops { OfLooked D.tells (state_of D.state (blocks_in served.old)) (λ t. IfErr result (StopsAt t (Read path.now offset count) (state_of D.state (blocks_in served.new)))) }
{
    let path = path.copy(alloc)?;
    match look(alloc, served, &Cmd::Read(path, offset, count)) {
        Reply::Bytes(bytes) => Ok(bytes),
        reply => Err(of_reply(&reply)),
    }
}
