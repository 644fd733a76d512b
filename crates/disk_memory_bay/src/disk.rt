//! A disk that a bay in memory hands out. It is a disk in memory, and has each block's last accepted bytes
//! beside it, so that it can be taken back without memory.

ghost use Rattle.std.specs.Prelude.{◌≡◌, ◌<◌, ◌^◌, ℕ, true, false, not, length, IfOk, OnOk, OnErr, is_ok, if◌then◌else◌};
ghost use Rattle.base_types.specs.Seal.{blocks_of};
ghost use Rattle.base_types.specs.Counts.{HasCause};
ghost use Rattle.disk_contract.specs.Bay.{IsLeftBy};
ghost use Rattle.disk_contract.specs.Cell.{accepted, IsAccepted, IsNoticed};
ghost use Rattle.disk_contract.specs.Disk.{AddsWrite, AddsPoll, AddsNotices, HearsAlone};
ghost use Rattle.disk_contract.specs.Lawful.{IsSoundDisk};
ghost use Rattle.disk_contract.specs.Manner.{HasFailedBy, AnswersBy};
ghost use Rattle.disk_memory.specs.declared.calls.DiskCall.TheVariants.{Read, Write, Poll, Wait};
ghost use Rattle.disk_memory.specs.MemDisk.{begun, state_of, manner_of, fails_next, has_room, next_ticket, poll_answer, can_wait, after_read};
ghost use Rattle.disk_memory.specs.MemDisk.{after_write, after_poll, after_wait};

use base_types::{Block, NoMemory};
use disk_contract::{Disk, DiskFault};
use disk_memory::{Fail, Image, MemDisk};
use std::alloc::Global;
use std::marker::Model;

/// A disk in memory that a bay handed out. Contracts see the disk in memory.
#[derive(Drop)]
pub struct BayDisk {
    disk: MemDisk,
    /// Of each block its last accepted bytes, or else those of the base.
    contents: Vec<Block>,
}

impl Model for BayDisk {
    ghost use Rattle.disk_contract.specs.Bay.{IsLeftBy};
    ghost use Rattle.disk_memory.specs.MemDisk.{MemDiskState, state_of};

    ghost Value = { MemDiskState };

    ghost view = { λ d. d.disk };

    ghost invariant = { λ d. IsLeftBy (state_of d.disk) d.contents.items };
}

impl BayDisk {
    /// A disk that begins with the blocks of an image, has room for so many writes, and fails these calls.
    ///
    /// # Errors
    /// Out of memory.
    pub(crate) fn new(
        alloc: Global,
        image: Image,
        room: u32,
        fails: &[Fail],
    ) -> Result<BayDisk, NoMemory>
        ensures { IfOk result (λ disk. disk ≡ record (begun image room) { fails = fails.now }) }
    {
        let contents = image.to_blocks(alloc)?;
        let mut disk = MemDisk::of_image(alloc, image, room)?;
        disk.fail_at(alloc, fails)?;
        Ok(BayDisk { disk, contents })
    }

    /// The disk in memory, and of each block its last accepted bytes.
    pub(crate) fn into_parts(self) -> (MemDisk, Vec<Block>)
        ensures disk { result.0 ≡ self }
        ensures sound { IsSoundDisk (state_of self) }
        ensures left { IsLeftBy (state_of self) result.1.items }
        ensures short { length result.1.items < 2 ^ 32 }
    {
        self.disk.lawful();
        let _blocks = self.disk.blocks();
        let BayDisk { disk, contents } = self;
        (disk, contents)
    }
}

impl Disk for BayDisk {
    ghost tells = { true };

    ghost state = { λ d. state_of d };

    fn lawful(&self) {
        self.disk.lawful();
    }

    fn blocks(&self) -> u32
        ensures { result ≡ length self.now.base }
    {
        self.disk.blocks()
    }

    fn moment(&self) -> u64
        ensures { result ≡ length self.now.log }
    {
        self.disk.moment()
    }

    fn counts(&self) -> (u64, u64)
        ensures { result ≡ (self.now.read_faults, self.now.faults) }
    {
        self.disk.counts()
    }

    fn read(&mut self, b: u32, into: &mut Block) -> Result<(), DiskFault>
        requires { b < length self.old.base }
        ensures exact { is_ok result ≡ not (fails_next Read self.old) }
        ensures bytes { OnOk result (into.new ≡ accepted (blocks_of self.old.base) self.old.log b) }
        ensures failed { OnErr result (into.new ≡ into.old) }
        ensures cause { HasCause result self.old.read_faults self.new.read_faults }
        ensures base { self.new.base ≡ self.old.base }
        ensures manner { manner_of self.new ≡ manner_of self.old }
        ensures state { self.new ≡ after_read self.old }
    {
        self.disk.read(b, into)?;
        Ok(())
    }

    fn write(&mut self, b: u32, from: &Block) -> Result<u64, DiskFault>
        requires { b < length self.old.base }
        ensures log { AddsWrite b from.now result self.old.log self.new.log }
        ensures cause { HasCause result self.old.faults self.new.faults }
        ensures exact { is_ok result ≡ (if fails_next Write self.old then false else has_room self.old) }
        ensures ticket { IfOk result (λ t. t ≡ next_ticket self.old) }
        ensures base { self.new.base ≡ self.old.base }
        ensures manner { manner_of self.new ≡ manner_of self.old }
        ensures state { self.new ≡ after_write self.old b from.now }
        ensures reason { OnErr result (HasFailedBy (manner_of self.new) self.new.log) }
    {
        let ticket = self.disk.write(b, from)?;
        self.contents[b as usize] = *from;
        Ok(ticket)
    }

    fn poll(&mut self) -> Result<Option<u64>, DiskFault>
        ensures log { AddsPoll result self.old.log self.new.log }
        ensures cause { HasCause result self.old.faults self.new.faults }
        ensures exact { is_ok result ≡ not (fails_next Poll self.old) }
        ensures answer { IfOk result (λ ticket. ticket ≡ poll_answer self.old) }
        ensures base { self.new.base ≡ self.old.base }
        ensures manner { manner_of self.new ≡ manner_of self.old }
        ensures state { self.new ≡ after_poll self.old }
        ensures reason { OnErr result (HasFailedBy (manner_of self.new) self.new.log) }
        ensures known { AnswersBy ((manner_of self.old).notice self.old.polls self.old.log) result }
    {
        let ticket = self.disk.poll()?;
        Ok(ticket)
    }

    fn wait(&mut self, ticket: u64) -> Result<(), DiskFault>
        ensures log { AddsNotices self.old.log self.new.log }
        ensures noticed { OnOk result (IsNoticed ticket self.new.log) }
        ensures cause { HasCause result self.old.faults self.new.faults }
        ensures exact { is_ok result ≡ can_wait self.old ticket }
        ensures base { self.new.base ≡ self.old.base }
        ensures manner { manner_of self.new ≡ manner_of self.old }
        ensures state { self.new ≡ after_wait self.old ticket }
        ensures reason { IsAccepted ticket self.old.log → OnErr result (HasFailedBy (manner_of self.new) self.new.log) }
        ensures stalls { IsAccepted ticket self.old.log → OnErr result ((manner_of self.old).stalls ≡ true) }
        ensures alone { HearsAlone ticket self.old.log self.new.log }
    {
        self.disk.wait(ticket)?;
        Ok(())
    }
}
