//! One of a mirror's two disks. It is live until a call on it fails, and then it isn't used again.

ghost use Rattle.std.specs.Prelude.{◌≡◌, ◌<◌, ◌≤◌, ◌+◌, ◌^◌, ◌-◌, ℕ, Bool, true, false, length, IsTrue, Some, None, if◌then◌else◌};
ghost use Rattle.std.specs.Bool.{OnTrue};
ghost use Rattle.disk_contract.specs.Cell.{IsNoticed};
ghost use Rattle.disk_contract.specs.Disk.{SameDisk, Reads, AddsNotices};
ghost use Rattle.disk_contract.specs.Lawful.{IsSoundDisk};
ghost use Rattle.disk_mirror.specs.Half.{HasFailedOnce, HalfReads, HalfWrites, HalfPolls, HalfWaits};
ghost use Rattle.disk_mirror.specs.Times.{life_of};
ghost use Rattle.disk_mirror.specs.declared.entry.Written.TheVariants.{Given, Missed, Nothing};

use crate::entry::{Life, Written};
use base_types::Block;
use disk_contract::Disk;

/// One of the disks of a mirror.
#[derive(Drop)]
pub(crate) struct Half<D: Disk> {
    disk: D,
    live: bool,
    /// The moment of the mirror at which this disk went down: until then it is as the mirror.
    end: u64,
    ghost failed: { HasFailedOnce live (D.state disk) },
}

impl<D: Disk> Half<D> {
    /// The disk, which is live.
    pub(crate) fn new(disk: D) -> Half<D>
        ensures disk { result.disk ≡ disk }
        ensures live { result.live ≡ true }
        ensures end { result.end ≡ 0 }
    {
        Half {
            disk,
            live: true,
            end: 0,
        }
    }

    /// The disk.
    pub(crate) fn disk(&self) -> &D
        ensures { result.now ≡ self.now.disk }
    {
        &self.disk
    }

    /// Does nothing. A proof learns from the call that the disk is a sound one.
    pub(crate) fn lawful(&self)
        ensures { IsTrue D.tells → IsSoundDisk (D.state self.now.disk) }
    {
        self.disk.lawful();
    }

    /// The number of events of the disk so far.
    pub(crate) fn moment(&self) -> u64
        ensures { IsTrue D.tells → result ≡ length (D.state self.now.disk).log }
    {
        self.disk.moment()
    }

    /// What is known of it at the end.
    pub(crate) fn life(&self) -> Life
        ensures { result ≡ life_of self.now.live self.now.end (D.state self.now.disk) }
    {
        let (read_faults, faults) = self.disk.counts();
        Life {
            live: self.live,
            end: self.end,
            read_faults,
            faults,
        }
    }

    /// Gives the disk back.
    pub(crate) fn into_disk(self) -> D
        ensures { result ≡ self.disk }
    {
        self.disk
    }

    /// Whether no call on it failed.
    pub(crate) fn is_live(&self) -> bool
        ensures { result ≡ self.now.live }
    {
        self.live
    }

    /// The moment of the mirror at which this disk went down.
    pub(crate) fn end(&self) -> u64
        ensures { result ≡ self.now.end }
    {
        self.end
    }

    // It goes down at this moment of the mirror.
    fn go_down(&mut self, moment: u64)
        requires { HasFailedOnce false (D.state self.old.disk) }
        ensures disk { self.new.disk ≡ self.old.disk }
        ensures live { self.new.live ≡ false }
        ensures end { self.new.end ≡ moment }
    {
        self.live = false;
        self.end = moment;
    }

    /// Reads block `b`, which there must be, where the disk is live, and says whether that was done. `moment` is
    /// that of the mirror.
    pub(crate) fn read(&mut self, b: u32, into: &mut Block, moment: u64) -> bool
        requires { b < (D.state self.old.disk).blocks }
        ensures same { SameDisk (D.state self.old.disk) (D.state self.new.disk) }
        ensures reads { IsTrue D.tells → OnTrue result (Reads (D.state self.old.disk) b into.new) }
        ensures step { HalfReads moment result self.old.live self.new.live self.old.end self.new.end }
        ensures log { IsTrue D.tells → (D.state self.new.disk).log ≡ (D.state self.old.disk).log }
    {
        if !self.live {
            return false;
        }
        match self.disk.read(b, into) {
            Ok(()) => true,
            Err(_) => {
                self.go_down(moment);
                false
            }
        }
    }

    /// Writes block `b`, which there must be, where the disk is live. `moment` is that of the mirror.
    pub(crate) fn write(&mut self, b: u32, from: &Block, moment: u64) -> Written
        requires there { b < (D.state self.old.disk).blocks }
        requires more { moment < 2 ^ 64 - 1 }
        ensures same { SameDisk (D.state self.old.disk) (D.state self.new.disk) }
        ensures step { HalfWrites D.tells b from.now moment result self.old.live self.new.live self.old.end self.new.end (D.state self.old.disk).log
            (D.state self.new.disk).log }
    {
        if !self.live {
            return Written::Nothing;
        }
        let before = self.disk.moment();
        match self.disk.write(b, from) {
            Ok(ticket) => Written::Given(ticket),
            Err(_) => self.missed(before, moment),
        }
    }

    // What a failed write has left, behind so many events of the disk.
    fn missed(&mut self, before: u64, moment: u64) -> Written
        requires more { moment < 2 ^ 64 - 1 }
        requires failed { HasFailedOnce false (D.state self.old.disk) }
        ensures disk { self.new.disk ≡ self.old.disk }
        ensures live { self.new.live ≡ false }
        ensures some { result ≡ Missed → (self.new.end ≡ moment + 1) × (IsTrue D.tells → before < length (D.state self.old.disk).log) }
        ensures none { result ≡ Nothing → (self.new.end ≡ moment) × (IsTrue D.tells → length (D.state self.old.disk).log ≤ before) }
        ensures given { (t : ℕ) → result ≡ Given t → ⊥ }
    {
        if before < self.disk.moment() {
            self.go_down(moment + 1);
            Written::Missed
        } else {
            self.go_down(moment);
            Written::Nothing
        }
    }

    /// Polls the disk where it is live, and gives the ticket that it answers. `moment` is that of the mirror.
    pub(crate) fn poll(&mut self, moment: u64) -> Option<u64>
        ensures same { SameDisk (D.state self.old.disk) (D.state self.new.disk) }
        ensures step { HalfPolls D.tells moment result self.old.live self.new.live self.old.end self.new.end (D.state self.old.disk).log
            (D.state self.new.disk).log }
    {
        if !self.live {
            return None;
        }
        match self.disk.poll() {
            Ok(ticket) => ticket,
            Err(_) => {
                self.go_down(moment);
                None
            }
        }
    }

    /// Waits for a ticket of the disk where it is live, and says whether that was done. `moment` is that of the mirror.
    pub(crate) fn wait(&mut self, ticket: u64, moment: u64) -> bool
        ensures same { SameDisk (D.state self.old.disk) (D.state self.new.disk) }
        ensures step { HalfWaits D.tells moment ticket result self.old.live self.new.live self.old.end self.new.end (D.state self.old.disk).log
            (D.state self.new.disk).log }
    {
        if !self.live {
            return false;
        }
        match self.disk.wait(ticket) {
            Ok(()) => true,
            Err(_) => {
                self.go_down(moment);
                false
            }
        }
    }
}
