//! A disk on an image file. It writes at once, and a wait is one sync of the file's data.

ghost use Rattle.std.specs.Prelude.{◌≡◌, ◌<◌, ◌≤◌, ◌+◌, ℕ, false, true, IfOk, IfSome, IfNone, OnOk, OnErr, IsOk, is_err};
ghost use Rattle.std.specs.Bool.{OnTrue, OnFalse};
ghost use Rattle.base_types.specs.Counts.{next_count};
ghost use Rattle.disk_contract.specs.Disk.{OnlyReads, OnlyWrites, OnlyPolls, OnlyWaits};
ghost use Rattle.disk_file.specs.FileDisk.{state_of, opened};
ghost use Rattle.disk_file.specs.Notices.{is_over, StaysOver};

use crate::bytes::ImageBytes;
use crate::fault::Refused;
use crate::making::NewImage;
use crate::notices::Notices;
use base_types::Block;
use disk_contract::{Disk, DiskFault};
use std::io;
use std::marker::Model;
use std::rt::HostRuntime;

/// A disk on an image file. Contracts see its numbers, and nothing of what the file holds.
#[derive(Drop)]
pub struct FileDisk {
    image: ImageBytes,
    /// What has to be known of a new image until it is finished, if it is one.
    made: Option<NewImage>,
    last: u64,
    synced: u64,
    /// Whether a sync failed. The system may then have forgotten what it didn't write, so no later sync counts.
    is_lost: bool,
    notices: Notices,
    /// What the system said when a call failed last.
    why: Option<Refused>,
    faults: u64,
    read_faults: u64,
    waits: u64,
    polls: u64,
}

impl Model for FileDisk {
    ghost use Rattle.std.specs.Prelude.{◌≤◌};
    ghost use Rattle.disk_file.specs.FileDisk.{FileDiskState};

    ghost Value = { FileDiskState };

    ghost view = { λ d. record {
      blocks = d.image.blocks;
      last = d.last;
      synced = d.synced;
      notices = d.notices;
      faults = d.faults;
      read_faults =
          d.read_faults;
      waits = d.waits;
      polls = d.polls;
    } };

    ghost invariant = { λ d. d.synced ≤ d.last };
}

impl FileDisk {
    /// A disk of these blocks, on which nothing was done. Where the image is a new one, `made` says how it is finished.
    pub(crate) fn new(image: ImageBytes, made: Option<NewImage>, notices: Notices) -> FileDisk
        ensures { result ≡ record (opened image.blocks) { notices = notices } }
    {
        FileDisk {
            image,
            made,
            last: 0,
            synced: 0,
            is_lost: false,
            notices,
            why: None,
            faults: 0,
            read_faults: 0,
            waits: 0,
            polls: 0,
        }
    }

    /// Ends the use of the file, and gives what the system said when a call failed last. A new image is finished where
    /// something was written, all of it was synced, and no call failed. Else it's given up, which is an error.
    pub(crate) fn end(self, rt: &HostRuntime, path: &str) -> Result<Option<Refused>, Refused> {
        let is_whole = self.last > 0 && self.synced == self.last && self.why.is_none();
        let FileDisk {
            image,
            made,
            why,
            ..
        } = self;
        let (Some(made), Some(file)) = (made, image.file()) else {
            return Ok(why);
        };
        let finished = match why {
            _ if is_whole => made.finish(file),
            Some(why) => Err(why.error()),
            None => Err(io::Error::other("The new image wasn't finished")),
        };
        match finished {
            Ok(()) => Ok(None),
            Err(error) => {
                made.give_up(rt, path, file);
                Err(Refused::Call(error))
            }
        }
    }

    // Counts a failed call that isn't a read.
    fn fault(&mut self) -> DiskFault
        ensures { self.new ≡ record self.old { faults = next_count self.old.faults } }
    {
        self.faults = self.faults.saturating_add(1);
        DiskFault
    }

    // Syncs all that was written, and says whether that was done.
    fn sync(&mut self) -> bool
        ensures done { OnTrue result (self.new ≡ record self.old { synced = self.old.last }) }
        ensures same { OnFalse result (self.new ≡ self.old) }
    {
        if self.is_lost {
            return false;
        }
        if let Err(why) = self.image.sync() {
            self.why = Some(why);
            self.is_lost = true;
            return false;
        }
        self.synced = self.last;
        true
    }
}

impl Disk for FileDisk {
    ghost tells = { false };

    ghost state = { λ d. state_of d };

    fn lawful(&self) {}

    fn blocks(&self) -> u32
        ensures { result ≡ self.now.blocks }
    {
        self.image.blocks
    }

    fn moment(&self) -> u64 {
        self.last
    }

    fn counts(&self) -> (u64, u64)
        ensures { result ≡ (self.now.read_faults, self.now.faults) }
    {
        (self.read_faults, self.faults)
    }

    fn read(&mut self, b: u32, into: &mut Block) -> Result<(), DiskFault>
        requires { b < self.old.blocks }
        ensures tickets { (self.new.last ≡ self.old.last) × (self.new.synced ≡ self.old.synced) × (self.new.notices ≡ self.old.notices) }
        ensures spends { OnlyReads (is_err result) (state_of self.old) (state_of self.new) }
    {
        if let Err(why) = self.image.read(b, into) {
            self.why = Some(Refused::Call(why));
            self.read_faults = self.read_faults.saturating_add(1);
            return Err(DiskFault);
        }
        Ok(())
    }

    fn write(&mut self, b: u32, from: &Block) -> Result<u64, DiskFault>
        requires { b < self.old.blocks }
        ensures ticket { IfOk result (λ t. (t ≡ self.old.last + 1) × (self.new.last ≡ t)) }
        ensures failed { OnErr result (self.new.last ≡ self.old.last) }
        ensures tickets { (self.new.synced ≡ self.old.synced) × (self.new.notices ≡ self.old.notices) }
        ensures spends { OnlyWrites (is_err result) (state_of self.old) (state_of self.new) }
    {
        if self.last == u64::MAX {
            return Err(self.fault());
        }
        if let Err(why) = self.image.write(b, from) {
            self.why = Some(Refused::Call(why));
            return Err(self.fault());
        }
        self.last += 1;
        Ok(self.last)
    }

    fn poll(&mut self) -> Result<Option<u64>, DiskFault>
        ensures answers { IsOk result }
        ensures bound { IfOk result (λ ticket. IfSome ticket (λ t. (0 < t) × (t ≤ self.old.synced))) }
        ensures fresh { IfOk result (λ ticket. IfSome ticket (λ t. is_over t self.old.notices ≡ false)) }
        ensures over { IfOk result (λ ticket. IfSome ticket (λ t. is_over t self.new.notices ≡ true)) }
        ensures least { IfOk result (λ ticket. IfSome ticket (λ t. (u : ℕ) → u < t → is_over u self.old.notices ≡ true)) }
        ensures none { IfOk result (λ ticket. IfNone ticket ((t : ℕ) → t ≤ self.old.synced → is_over t self.old.notices ≡ true)) }
        ensures stays { StaysOver self.old.notices self.new.notices }
        ensures tickets { (self.new.last ≡ self.old.last) × (self.new.synced ≡ self.old.synced) }
        ensures spends { OnlyPolls (is_err result) (state_of self.old) (state_of self.new) }
    {
        self.polls = self.polls.saturating_add(1);
        Ok(self.notices.next(self.synced))
    }

    fn wait(&mut self, ticket: u64) -> Result<(), DiskFault>
        ensures synced { OnOk result ((0 < ticket) × (ticket ≤ self.new.synced)) }
        ensures over { OnOk result (is_over ticket self.new.notices ≡ true) }
        ensures stays { StaysOver self.old.notices self.new.notices }
        ensures last { self.new.last ≡ self.old.last }
        ensures spends { OnlyWaits (is_err result) (state_of self.old) (state_of self.new) }
    {
        self.waits = self.waits.saturating_add(1);
        if ticket == 0 || ticket > self.last {
            return Err(self.fault());
        }
        if ticket > self.synced && !self.sync() {
            return Err(self.fault());
        }
        self.notices.note(ticket);
        Ok(())
    }
}
