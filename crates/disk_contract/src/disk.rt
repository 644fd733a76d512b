//! The contract of a disk's calls. A disk accepts writes and reports later, of each, that it is durable;
//! it may make them durable in any order, lose some, and fail any call. What that means for a crash is
//! described by the definitions of Cell and Crash, and in docs/DISK.md.

ghost use Rattle.std.specs.Prelude.{◌≡◌, ◌<◌, ℕ, Bool, true, length, IsTrue, OnOk, OnErr, is_err};
ghost use Rattle.disk_contract.specs.Cell.{IsAccepted, IsNoticed};
ghost use Rattle.disk_contract.specs.Lawful.{IsSoundDisk};
ghost use Rattle.disk_contract.specs.Manner.{AnswersBy};
ghost use Rattle.disk_contract.specs.Disk.{State, HasFailed, HearsAlone, Reads, AddsWrite, AddsPoll, AddsNotices, OnlyReads, OnlyWrites, OnlyPolls, OnlyWaits};

use base_types::Block;
use std::error::Error;
use std::fmt;

/// A call of a disk failed, which the disk has counted.
#[derive(Clone, Copy, Debug)]
pub struct DiskFault;

impl fmt::Display for DiskFault {
    fn fmt<W: fmt::Write>(&self, f: &mut fmt::Formatter<W>) -> fmt::Result {
        write!(f, "a call of the disk failed")
    }
}

impl Error for DiskFault {}

/// A disk of blocks.
///
/// Its contents and events are known only where `tells` says so. Of a disk that doesn't tell, the
/// clauses still say its number of blocks, that each fault is counted, and how often it was polled and
/// waited for. Each count stops at 2^64 - 1. How the disk behaves, which calls may fail and what polls
/// answer, is its manner, a constant of it; of a disk of which nothing is known, that lets anything come.
pub trait Disk {
    /// Whether contents and events are known.
    ghost tells: { Bool };

    /// What is known of the disk.
    ghost state: { Self → State };

    /// Does nothing. A proof learns from the call that blocks have 1,024 bytes, in the base and in each
    /// write, that the log is a lawful one of so many blocks, and that the disk's manner lets its writes
    /// be accepted and lost as they are, and a read fail if one did.
    fn lawful(&self)
        ensures { IsTrue tells → IsSoundDisk (state self.now) };

    /// The number of blocks, which never changes.
    fn blocks(&self) -> u32
        ensures { result ≡ (state self.now).blocks };

    /// The number of events so far.
    fn moment(&self) -> u64
        ensures { IsTrue tells → result ≡ length (state self.now).log };

    /// The number of failed reads so far, and of failed writes, polls and waits.
    fn counts(&self) -> (u64, u64)
        ensures { result ≡ ((state self.now).read_faults, (state self.now).faults) };

    /// Reads block `b`, which there must be.
    ///
    /// # Errors
    /// The read failed, which is counted. What then is in `into` isn't known.
    fn read(&mut self, b: u32, into: &mut Block) -> Result<(), DiskFault>
        requires { b < (state self.old).blocks }
        ensures reads { IsTrue tells → OnOk result (Reads (state self.old) b into.new) }
        ensures log { IsTrue tells → (state self.new).log ≡ (state self.old).log }
        ensures spends { OnlyReads (is_err result) (state self.old) (state self.new) };

    /// Writes block `b`, which there must be, and gives the write's ticket: a number above 0 and above
    /// all earlier ones.
    ///
    /// # Errors
    /// The write failed, which is counted, and the disk's manner lets it. It may be on the medium all the
    /// same, or come there later.
    fn write(&mut self, b: u32, from: &Block) -> Result<u64, DiskFault>
        requires { b < (state self.old).blocks }
        ensures log { IsTrue tells → AddsWrite b from.now result (state self.old).log (state self.new).log }
        ensures spends { OnlyWrites (is_err result) (state self.old) (state self.new) }
        ensures cause { IsTrue tells → OnErr result (HasFailed (state self.new)) };

    /// The ticket of a write that is durable now and whose notice is new, or `None` where there is
    /// none yet. It doesn't wait. Where the disk's manner says what a poll answers, it is that.
    ///
    /// # Errors
    /// The poll failed, which is counted, and the disk's manner lets it.
    fn poll(&mut self) -> Result<Option<u64>, DiskFault>
        ensures log { IsTrue tells → AddsPoll result (state self.old).log (state self.new).log }
        ensures spends { OnlyPolls (is_err result) (state self.old) (state self.new) }
        ensures cause { IsTrue tells → OnErr result (HasFailed (state self.new)) }
        ensures answer { IsTrue tells → AnswersBy ((state self.old).manner.notice (state self.old).polls (state self.old).log) result };

    /// Waits until the write of this ticket is durable. Other writes may become durable meanwhile, and their
    /// notices come too where the disk's manner lets them.
    ///
    /// # Errors
    /// The wait failed, which is counted. Either the ticket was never given, or the disk's manner lets a
    /// wait fail. Some writes may have become durable.
    fn wait(&mut self, ticket: u64) -> Result<(), DiskFault>
        ensures log { IsTrue tells → AddsNotices (state self.old).log (state self.new).log }
        ensures noticed { IsTrue tells → OnOk result (IsNoticed ticket (state self.new).log) }
        ensures spends { OnlyWaits (is_err result) (state self.old) (state self.new) }
        ensures cause { IsTrue tells → IsAccepted ticket (state self.old).log → OnErr result (HasFailed (state self.new)) }
        ensures stalls { IsTrue tells → IsAccepted ticket (state self.old).log → OnErr result ((state self.old).manner.stalls ≡ true) }
        ensures alone { IsTrue tells → (state self.old).manner.waits_alone ≡ true → HearsAlone ticket (state self.old).log (state self.new).log };
}
