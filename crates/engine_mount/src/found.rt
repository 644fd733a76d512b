//! What is on a disk that is to be mounted, by the searches of `engine_recover`, and what each block will have
//! once the run is replayed. Nothing is written here.

ghost use Rattle.std.specs.Prelude.{◌≡◌, ◌<◌, IsTrue, IfOk, IfErr, OnOk, is_err, length, false};
ghost use Rattle.layout_journal.specs.Run.{replayed};
ghost use Rattle.engine_recover.specs.Epoch.{IsGreatestEpoch};
ghost use Rattle.engine_recover.specs.Reading.{Searches};
ghost use Rattle.engine_recover.specs.Search.{IsFound, is_spent};
ghost use Rattle.engine_mount.specs.Mount.{IsIdle, IsFoundOn, settled_on, RefusalSays};
ghost use Rattle.engine_mount.specs.Refusal.{is_unread, is_faulty};

use crate::refusal::{MountRefusal, refusal_of};
use crate::replay::payload_of;
use base_types::Block;
use base_types::limits::SPENT_AT_MOUNT;
use crash_argument::a_read_gives_what_was_written_last;
use disk_contract::{Disk, DiskFault};
use engine_recover::{Run, find_run, greatest_epoch};
use std::alloc::Global;
use std::marker::Model;

/// What was found on a disk that is to be mounted. `open` goes on from it.
#[derive(Drop)]
pub struct Found {
    run: Run,
    epoch: u64,
}

impl Model for Found {
    ghost use Rattle.std.specs.Prelude.{◌≡◌, ◌<◌, length, false};
    ghost use Rattle.engine_recover.specs.Search.{is_spent};
    ghost use Rattle.engine_mount.specs.Mount.{FoundDisk};

    ghost Value = { FoundDisk };

    ghost view = { λ f. record { run = f.run; epoch = f.epoch } };

    ghost invariant = { λ f. (f.run.slot < 2) × (is_spent f.run.header (length f.run.records) ≡ false) × (f.epoch < 9223372036854775792) };
}

impl Found {
    /// The newest header of the disk, and the run under it. No number of theirs is at its end.
    pub fn run(&self) -> &Run
        ensures value { result.now ≡ self.now.run }
        ensures slot { result.now.slot < 2 }
        ensures going { is_spent result.now.header (length result.now.records) ≡ false }
    {
        &self.run
    }

    /// The greatest epoch on the disk. It isn't at its end.
    pub fn epoch(&self) -> u64
        ensures value { result ≡ self.now.epoch }
        ensures going { result < 9223372036854775792 }
    {
        self.epoch
    }

    /// Reads what a block has once the run is replayed: its last payload in the run, or what is in it. So a
    /// block of the bitmap can be looked at before anything is written.
    ///
    /// # Errors
    /// A read failed, which the disk has counted. What then is in `into` isn't known.
    pub fn read<D: Disk>(&self, disk: &mut D, b: u32, into: &mut Block) -> Result<(), DiskFault>
        requires size { (D.state disk.old).blocks ≡ self.now.run.header.geom.n }
        requires below { b < self.now.run.header.geom.n }
        ensures value { IsTrue D.tells → IsIdle (D.state disk.old)
            → OnOk result (into.new ≡ replayed self.now.run.header.geom (settled_on (D.state disk.old)) self.now.run.records b) }
        ensures reads { Searches D.tells (is_err result) (D.state disk.old) (D.state disk.new) }
    {
        a_read_gives_what_was_written_last();
        match payload_of(disk, &self.run, b)? {
            Some(bytes) => {
                *into = bytes;
                Ok(())
            }
            None => {
                disk.read(b, into)?;
                Ok(())
            }
        }
    }
}

/// Looks for what is on a disk on which nothing is pending: the newest header, the run under it, and the
/// greatest epoch. Nothing is written.
///
/// # Errors
/// `NoHeader` and `Spent` come of what is on the disk, `ReadFault` of a read that failed, which the disk has
/// counted, and `NoMemory` of want of memory.
pub fn find<D: Disk>(alloc: Global, disk: &mut D) -> Result<Found, MountRefusal>
    ensures found { IsTrue D.tells → IsIdle (D.state disk.old) → IfOk result (IsFoundOn (D.state disk.old)) }
    ensures refused { IsTrue D.tells → IsIdle (D.state disk.old) → IfErr result (RefusalSays (D.state disk.old) (D.state disk.new)) }
    ensures size { IfOk result (λ found. found.run.header.geom.n ≡ (D.state disk.old).blocks) }
    ensures calm { is_faulty result ≡ false }
    ensures reads { Searches D.tells (is_unread result) (D.state disk.old) (D.state disk.new) }
{
    let run = run_on(alloc, disk)?;
    let epoch = epoch_on(disk, &run)?;
    Ok(Found { run, epoch })
}

/// The newest header of the disk, and the run under it.
fn run_on<D: Disk>(alloc: Global, disk: &mut D) -> Result<Run, MountRefusal>
    ensures found { IsTrue D.tells → IsIdle (D.state disk.old) → IfOk result (IsFound (D.state disk.old).blocks (settled_on (D.state disk.old))) }
    ensures refused { IsTrue D.tells → IsIdle (D.state disk.old) → IfErr result (RefusalSays (D.state disk.old) (D.state disk.new)) }
    ensures going { IfOk result (λ run. is_spent run.header (length run.records) ≡ false) }
    ensures slot { IfOk result (λ run. run.slot < 2) }
    ensures size { IfOk result (λ run. run.header.geom.n ≡ (D.state disk.old).blocks) }
    ensures calm { is_faulty result ≡ false }
    ensures reads { Searches D.tells (is_unread result) (D.state disk.old) (D.state disk.new) }
{
    a_read_gives_what_was_written_last();
    match find_run(alloc, disk) {
        Ok(run) => Ok(run),
        Err(why) => Err(refusal_of(why)),
    }
}

/// The greatest epoch on the disk, where a mount may go on from it.
fn epoch_on<D: Disk>(disk: &mut D, run: &Run) -> Result<u64, MountRefusal>
    requires { (D.state disk.old).blocks ≡ run.now.header.geom.n }
    ensures value { IsTrue D.tells → IsIdle (D.state disk.old) → IfOk result (IsGreatestEpoch run.now.header.geom (settled_on (D.state disk.old))) }
    ensures refused { IsTrue D.tells → IsIdle (D.state disk.old) → IsFound (D.state disk.old).blocks (settled_on (D.state disk.old)) run.now
        → IfErr result (RefusalSays (D.state disk.old) (D.state disk.new)) }
    ensures below { IfOk result (λ epoch. epoch < 9223372036854775792) }
    ensures calm { is_faulty result ≡ false }
    ensures reads { Searches D.tells (is_unread result) (D.state disk.old) (D.state disk.new) }
{
    a_read_gives_what_was_written_last();
    let epoch = match greatest_epoch(disk, &run.header().geom) {
        Ok(epoch) => epoch,
        Err(_) => return Err(MountRefusal::ReadFault),
    };
    if epoch >= SPENT_AT_MOUNT {
        return Err(MountRefusal::Spent);
    }
    Ok(epoch)
}
