//! Shows the tree of the image under a name: a disk is opened on it, mounted, and its file system is opened and listed;
//! then the disk goes back. Each step hands the disk on, so that it is handed back once, whatever comes.

ghost use Rattle.std.specs.Prelude.{◌≡◌, ◌<◌, true, false, IsTrue, [], vec_len, vec_capacity, Ok, Err, Result, IfErr, OnOk, OnErr};
ghost use Rattle.std.specs.Io.KnownBytes.{Appends};
ghost use Rattle.disk_contract.specs.declared.bay.BayFault.{BayFault as Failure};
ghost use Rattle.disk_contract.specs.Bay.{Opens, Closes};
ghost use Rattle.disk_contract.specs.Disk.{State};
ghost use Rattle.base_io.specs.Prefix.{TakesPrefix};
ghost use Rattle.lang_tree.specs.Listing.{listing};
ghost use Rattle.lang_tree.specs.Step.{Session};
ghost use Rattle.engine_blocks.specs.Crashes.{IsBegun};
ghost use Rattle.fs_files.specs.Effects.{LooksOnly};
ghost use Rattle.engine_store.specs.StoreOf.{state_of};
ghost use Rattle.fs_commands.specs.Listing.{CountsPushes};
ghost use Rattle.fs_commands.specs.Opened.{IsReady, blocks_in};
ghost use Rattle.fs_session.specs.Sessions.{IsSession};
ghost use Rattle.cmd_image.specs.declared.show_refusal.ShowRefusal.TheVariants.{Fault};
ghost use Rattle.cmd_image.specs.Mounted.{IsFresh, IsMarkOf, IsMountedOn, HasSession, ShowsDisk, answer_of, is_fault, of_bay};
ghost use Rattle.cmd_image.specs.Shows.{HasFaultReason, HasImage, HasShowCause, LeavesBay, Lists, Refuses, fails_pushing, says_nothing};

use crate::lent::LentDisk;
use crate::mounting::{
    close_lent, disk_back, mark_of, mount_lent, open_lent, room_for_a_mark, unopened,
};
use crate::show_refusal::{ShowRefusal, of_bay};
use base_io::Sink;
use crash_stands::images_alike_below_n_stand_for_the_same;
use disk_contract::{Bay, Disk, Mark};
use engine_store::Store;
use fs_commands::{Fs, ListRefusal};
use layout_journal::an_image_holds_one_map;
use std::alloc::Global;

/// Writes the listing of the tree for which the image under the name stands. The disk that is opened on the image is
/// mounted, and so written to; then it goes back to the bay, with one mark, that of the mount's end. It goes back where
/// a step fails too, without a mark where no file system was opened; a fault then changes no refusal that came before.
///
/// # Errors
/// `Fault` comes of a call of the bay or of the disk that failed, which was counted; that nothing is under the name is
/// one. Where the bay tells, it comes only where the bay's calls may fail, where nothing is under the name, or where a
/// call of the disk failed as the disk's manner lets it. `Damaged` says what is broken in the image, and `Spent`
/// that the numbers of its journal are at their end:
/// nothing is pushed then. `SinkFault` comes of a push that failed, which the sink has counted, and `NoMemory` of want
/// of memory. With these three the sink took a prefix of the listing, or nothing.
pub fn show_tree<B: Bay, K: Sink>(
    alloc: Global,
    bay: &mut B,
    name: &str,
    out: &mut K,
) -> Result<(), ShowRefusal>
    ensures shown { IsTrue B.tells → OnOk result (HasImage ((B.state bay.old).kept name.now) (Lists (K.taken out.old) (K.taken out.new))) }
    ensures refused { IsTrue B.tells → IfErr result (Refuses ((B.state bay.old).kept name.now) (K.taken out.old) (K.taken out.new)) }
    ensures silent { says_nothing result ≡ true → out.new ≡ out.old }
    ensures back { LeavesBay B.tells name.now result (B.state bay.old) (B.state bay.new) }
    ensures cause { HasShowCause result (B.state bay.old) (B.state bay.new) }
    ensures reason { IsTrue B.tells → result ≡ Err Fault → HasFaultReason B.tells name.now (B.state bay.old) (B.state bay.new) }
    ensures pushes { CountsPushes (fails_pushing result) (K.faults out.old) (K.faults out.new) }
{
    let marks = room_for_a_mark(alloc)?;
    let disk = open_lent(bay, name)?;
    let left = show_disk(alloc, disk, marks, out);
    left.disk.lawful();
    close_shown(bay, name, left)
}

/// A disk that was shown, on its way back.
#[derive(Drop)]
struct Left<D: Disk + Drop> {
    disk: D,
    marks: Vec<Mark>,
    answer: Result<(), ShowRefusal>,
}

/// Mounts a disk that was just opened, and shows its tree.
fn show_disk<D: Disk + Drop, K: Sink>(
    alloc: Global,
    disk: D,
    marks: Vec<Mark>,
    out: &mut K,
) -> Left<D>
    requires fresh { IsFresh D.tells (D.state disk) }
    requires empty { marks.items ≡ [] }
    requires room { vec_len marks < vec_capacity marks }
    ensures shows { ShowsDisk D.tells (D.state disk) (D.state result.disk) result.marks.items (K.taken out.old) (K.taken out.new) result.answer }
    ensures silent { says_nothing result.answer ≡ true → out.new ≡ out.old }
    ensures pushes { CountsPushes (fails_pushing result.answer) (K.faults out.old) (K.faults out.new) }
{
    match mount_lent(alloc, disk) {
        Ok(store) => show_store(alloc, store, marks, out),
        Err((disk, why)) => Left {
            disk,
            marks,
            answer: Err(why),
        },
    }
}

/// Opens the file system of a store that was just mounted, and shows its tree.
fn show_store<D: Disk + Drop, K: Sink>(
    alloc: Global,
    store: Store<D>,
    marks: Vec<Mark>,
    out: &mut K,
) -> Left<D>
    requires begun { IsBegun (state_of D.state store) }
    requires empty { marks.items ≡ [] }
    requires room { vec_len marks < vec_capacity marks }
    ensures shows { (first : State) → IsMountedOn D.tells false first (state_of D.state store)
        → ShowsDisk D.tells first (D.state result.disk) result.marks.items (K.taken out.old) (K.taken out.new) result.answer }
    ensures silent { says_nothing result.answer ≡ true → out.new ≡ out.old }
    ensures pushes { CountsPushes (fails_pushing result.answer) (K.faults out.old) (K.faults out.new) }
{
    let mark = mark_of(store.disk());
    match Fs::open(alloc, store) {
        Ok(fs) => list_shown(alloc, fs, mark, marks, out),
        Err((store, why)) => {
            let (disk, why) = unopened(store, why);
            Left {
                disk,
                marks,
                answer: Err(why),
            }
        }
    }
}

/// Writes the listing of a file system that was just opened, and lets its mark go along.
fn list_shown<D: Disk + Drop, K: Sink>(
    alloc: Global,
    mut fs: Fs<Store<D>>,
    mark: Mark,
    mut marks: Vec<Mark>,
    out: &mut K,
) -> Left<D>
    requires going { (state_of D.state (blocks_in fs)).books.stopped ≡ false }
    requires ready { IsReady D.tells (λ s. state_of D.state s) fs }
    requires empty { marks.items ≡ [] }
    requires room { vec_len marks < vec_capacity marks }
    ensures shows { (first : State) → IsMountedOn D.tells false first (state_of D.state (blocks_in fs))
        → (IsTrue D.tells → HasSession (state_of D.state (blocks_in fs))) → IsMarkOf D.tells (state_of D.state (blocks_in fs)) mark
        → ShowsDisk D.tells first (D.state result.disk) result.marks.items (K.taken out.old) (K.taken out.new) result.answer }
    ensures says { says_nothing result.answer ≡ false }
    ensures pushes { CountsPushes (fails_pushing result.answer) (K.faults out.old) (K.faults out.new) }
{
    an_image_holds_one_map();
    images_alike_below_n_stand_for_the_same();
    let answer = write_listing(alloc, &mut fs, out);
    marks.push_reserved(mark);
    Left {
        disk: disk_back(fs.into_blocks()),
        marks,
        answer,
    }
}

/// Writes the listing of a file system on whose disk no call but a read has failed.
///
/// # Errors
/// `Fault`, where a read failed, which the disk has counted; `SinkFault`, which the sink has counted; or `NoMemory`. By
/// then the sink took a prefix of the listing.
fn write_listing<D: Disk + Drop, K: Sink>(
    alloc: Global,
    fs: &mut Fs<Store<D>>,
    out: &mut K,
) -> Result<(), ShowRefusal>
    requires going { (state_of D.state (blocks_in fs.old)).books.stopped ≡ false }
    requires ready { IsReady D.tells (λ s. state_of D.state s) fs.old }
    ensures all { IsTrue D.tells → OnOk result ((f : Session) → IsSession (state_of D.state (blocks_in fs.old)) f
        → Appends (K.taken out.old) (K.taken out.new) (listing f.tree)) }
    ensures front { IsTrue D.tells → OnErr result ((f : Session) → IsSession (state_of D.state (blocks_in fs.old)) f
        → TakesPrefix (K.taken out.old) (K.taken out.new) (listing f.tree)) }
    ensures looks { LooksOnly D.tells (is_fault result) (state_of D.state (blocks_in fs.old)) (state_of D.state (blocks_in fs.new)) }
    ensures says { says_nothing result ≡ false }
    ensures pushes { CountsPushes (fails_pushing result) (K.faults out.old) (K.faults out.new) }
{
    let listed = fs.listing(alloc, out);
    match listed {
        Ok(()) => Ok(()),
        Err(ListRefusal::Stopped) => unreachable!(),
        Err(ListRefusal::ReadFault) => Err(ShowRefusal::Fault),
        Err(ListRefusal::SinkFault) => Err(ShowRefusal::SinkFault),
        Err(ListRefusal::NoMemory) => Err(ShowRefusal::NoMemory),
    }
}

/// Hands a disk back under the name.
///
/// # Errors
/// The answer of the showing, where it is a refusal; else `Fault`, which the bay has counted, or `NoMemory`.
fn close_shown<B: Bay>(bay: &mut B, name: &str, left: Left<LentDisk<B>>) -> Result<(), ShowRefusal>
    ensures { (back : Result (Unit {0}) Failure)
        × Closes B.tells name.now (B.D.state left.disk.disk) left.marks.items back (B.state bay.old) (B.state bay.new)
        × (result ≡ answer_of left.answer back) }
{
    let Left {
        disk,
        marks,
        answer,
    } = left;
    let back = close_lent(bay, name, disk, marks);
    answer?;
    if let Err(fault) = back {
        return Err(of_bay(fault));
    }
    Ok(())
}
