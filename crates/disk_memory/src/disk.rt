//! A disk in memory. It keeps the blocks that it began with and its log, in which the bytes of each write
//! are kept once. Which calls fail, and which notices its polls have, is set by its caller. The rules are described in
//! docs/DISK.md.

ghost use Rattle.std.specs.Prelude.{◌≡◌, ◌<◌, ◌≤◌, ◌+◌, ◌^◌, ℕ, Bool, true, false, not, List, [], length, Ok, Err, Some, None, is_ok, is_err};
ghost use Rattle.std.specs.Prelude.{option_map, take, IfOk, IfSome, OnOk, OnErr, IsTrue, if◌then◌else◌};
ghost use Rattle.std.specs.List.{slice_get};
ghost use Rattle.base_types.specs.Seal.{blocks_of};
ghost use Rattle.disk_contract.specs.Cell.{accepted, greatest_ticket, is_accepted, is_noticed, IsAccepted, IsNoticed};
ghost use Rattle.disk_contract.specs.Manner.{AnswersBy, HasFailedBy};
ghost use Rattle.base_types.specs.Counts.{HasCause, next_count};
ghost use Rattle.disk_contract.specs.Disk.{IsOpen, Reads, AddsWrite, AddsPoll, AddsNotices, HearsAlone, SameDisk};
ghost use Rattle.disk_contract.specs.Bay.{zero_blocks};
ghost use Rattle.disk_contract.specs.Crash.{IsImage};
ghost use Rattle.disk_contract.specs.Lawful.{IsLawful};
ghost use Rattle.disk_contract.specs.declared.event.Event.{Event};
ghost use Rattle.disk_contract.specs.declared.event.Event.TheVariants.{Wrote, Lost, Noticed};
ghost use Rattle.disk_memory.specs.Choice.{GivesImage};
ghost use Rattle.disk_memory.specs.Log.{AreWithin, write_count};
ghost use Rattle.disk_memory.specs.Logged.{event_of};
ghost use Rattle.disk_memory.specs.MemDisk.{begun, with_log, state_of, manner_of, is_untouched, turned, has_room, next_ticket, next_call, fails_next};
ghost use Rattle.disk_memory.specs.MemDisk.{with_event, counted, faulted, after_read, after_write, after_poll, after_wait};
ghost use Rattle.disk_memory.specs.MemDisk.{poll_answer, can_wait, by_rule, AreLast};
ghost use Rattle.disk_memory.specs.declared.calls.DiskCall.TheVariants.{Read, Write, Poll, Wait};
ghost use Rattle.disk_memory.specs.declared.rule.Rule.TheVariants.{Silent};

use crate::calls::is_listed;
use crate::crash::image_at;
use crate::laws::pending_writes_are_those_of_the_cells;
use crate::log::Log;
use crate::rule::Notices;
use crate::{Choice, DiskCall, Fail, Image, ImageRefusal, Logged, Rule};
use base_types::{Block, NoMemory};
use disk_contract::{Disk, DiskFault, Event};
use std::alloc::Global;
use std::marker::Model;

/// A disk of the blocks of an image.
#[derive(Drop)]
pub struct MemDisk {
    base: Image,
    /// For each block one more than the place in the log of its last accepted write, or 0.
    last: Vec<usize>,
    log: Log,
    notices: Notices,
    fails: Vec<Fail>,
    /// The rule of the notices, where it and the failing calls were set before the first call.
    known: Option<Rule>,
    faults: u64,
    read_faults: u64,
    reads: u64,
    polls: u64,
    waits: u64,
}

impl Model for MemDisk {
    ghost use Rattle.disk_memory.specs.MemDisk.{MemDiskState, CountsLost, IsDisk, GoesAsKnown};

    ghost Value = { MemDiskState };

    ghost view = { λ d. record {
      base = d.base;
      log = d.log.events;
      room = d.log.room;
      notices = d.notices;
      fails = d.fails.items;
      known = d.known;
      faults = d.faults;
      read_faults = d.read_faults;
      reads = d.reads;
      polls = d.polls;
      waits = d.waits;
    } };

    ghost invariant = { λ d. IsDisk d.base d.log d.last.items
        × GoesAsKnown d.log.room d.log.events d.notices d.fails.items d.read_faults d.polls d.known × CountsLost d.known d.faults d.log.events };
}

impl MemDisk {
    /// A disk of so many blocks of zeros that has room for so many writes.
    ///
    /// # Errors
    /// Out of memory for all of the room.
    pub fn blank(alloc: Global, blocks: u32, room: u32) -> Result<MemDisk, NoMemory>
        ensures { IfOk result (λ disk. disk ≡ begun (zero_blocks blocks) room) }
    {
        let image = Image::zeros(alloc, blocks)?;
        let disk = MemDisk::of_image(alloc, image, room)?;
        Ok(disk)
    }

    /// A disk that begins with the blocks of an image, and has room for so many writes, accepted and lost.
    /// Its polls have no notices, and no call is listed to fail.
    ///
    /// # Errors
    /// Out of memory for all of the room.
    pub fn of_image(alloc: Global, image: Image, room: u32) -> Result<MemDisk, NoMemory>
        ensures { IfOk result (λ disk. disk ≡ begun image room) }
    {
        let last = vec![in alloc; 0usize; image.blocks() as usize]?;
        let log = Log::new(alloc, room)?;
        Ok(MemDisk::of_parts(alloc, image, last, log, Some(Rule::Silent)))
    }

    /// A disk that began with the blocks of an image and has this log behind it. It has no room for more
    /// writes. The log must be one that the calls of a disk of these blocks can leave.
    ///
    /// # Errors
    /// Out of memory.
    pub fn of_log(alloc: Global, image: Image, log: Vec<Event>) -> Result<MemDisk, NoMemory>
        requires lawful { IsLawful log.items }
        requires within { AreWithin (length image) log.items }
        ensures { IfOk result (λ disk. disk ≡ with_log image log.items) }
    {
        let last = last_places(alloc, log.as_slice(), image.blocks())?;
        let log = Log::of_events(alloc, log)?;
        Ok(MemDisk::of_parts(alloc, image, last, log, None))
    }

    // A disk of these parts, none of whose calls were made. Its rule is known only where its log has no event.
    fn of_parts(
        alloc: Global,
        base: Image,
        last: Vec<usize>,
        log: Log,
        known: Option<Rule>,
    ) -> MemDisk
        requires places { AreLast base log.events last.items }
        requires within { AreWithin (length base) log.events }
        requires ready { write_count log.events + log.ready ≡ log.room }
        requires known { IfSome known (λ rule. (log.events ≡ []) × (rule ≡ Silent)) }
        ensures { result ≡ record (begun base log.room) { log = log.events; known = known } }
    {
        MemDisk {
            base,
            last,
            log,
            notices: Notices::new(Rule::Silent),
            fails: Vec::new(alloc),
            known,
            faults: 0,
            read_faults: 0,
            reads: 0,
            polls: 0,
            waits: 0,
        }
    }

    /// From now on polls find their notices by this rule. That of a seed begins with its first draw. Where an event
    /// came, a poll was made or a read failed already, the disk's manner isn't known any more.
    pub fn notices(&mut self, rule: Rule)
        ensures { self.new ≡ record self.old { notices = by_rule rule; known = (if is_untouched self.old then Some rule else None) } }
    {
        self.known = if self.is_untouched() {
            Some(rule)
        } else {
            None
        };
        self.notices = Notices::new(rule);
    }

    /// From now on exactly these calls fail, beside those that must. A write among them is lost; of what else
    /// they do, nothing happens. The list takes the place of the one before. Where an event came, a poll was made or a
    /// read failed already, the disk's manner isn't known any more.
    ///
    /// # Errors
    /// Out of memory, and the list stays as it was.
    pub fn fail_at(&mut self, alloc: Global, list: &[Fail]) -> Result<(), NoMemory>
        ensures done { OnOk result (self.new ≡ record self.old { fails = list.now; known = (if is_untouched self.old then self.old.known else None) }) }
        ensures same { OnErr result (self.new ≡ self.old) }
    {
        let known = self.known_at_first();
        self.fails = Vec::from_slice(alloc, list)?;
        self.known = known;
        Ok(())
    }

    // The rule that is known, where nothing happened yet.
    fn known_at_first(&self) -> Option<Rule>
        ensures { result ≡ (if is_untouched self.now then self.now.known else None) }
    {
        if self.is_untouched() {
            self.known
        } else {
            None
        }
    }

    // Whether no event came, no poll was made, and no read failed.
    fn is_untouched(&self) -> bool
        ensures { result ≡ is_untouched self.now }
    {
        self.log.len() == 0 && (self.polls == 0 && self.read_faults == 0)
    }

    /// The event at this place of the log, the first of which is 0, where there is one.
    pub fn event(&self, i: u64) -> Option<Logged<'_>>
        ensures { option_map event_of result ≡ slice_get self.now.log i }
    {
        let i = usize::try_from(i).ok()?;
        self.log.at(i)
    }

    /// The image that a crash after the first `moment` events leaves by a choice.
    ///
    /// # Errors
    /// `PastTheLog` exactly where the moment is past the log. Else `NotPending` exactly where a write that
    /// the choice names isn't pending at the moment, with the first such one. Out of memory.
    pub fn image(&self, alloc: Global, moment: u64, choice: &Choice) -> Result<Image, ImageRefusal>
        ensures image { GivesImage self.now.base self.now.log moment choice.now result }
        ensures crash { IfOk result (λ image. IsImage (length self.now.base) (blocks_of self.now.base) (take moment self.now.log) (blocks_of image)) }
    {
        // calls for their clauses alone: which writes are pending, that the log is lawful, what blocks are
        pending_writes_are_those_of_the_cells();
        self.log.lawful();
        let image = image_at(alloc, &self.base, &self.log, moment, choice)?;
        image.lawful();
        Ok(image)
    }

    // Whether the next call of this kind is listed to fail.
    fn fails_next(&self, call: DiskCall) -> bool
        ensures { result ≡ fails_next call self.now }
    {
        is_listed(self.fails.as_slice(), call, self.next_call(call))
    }

    // Which call of this kind the next one is.
    fn next_call(&self, call: DiskCall) -> u64
        ensures { result ≡ next_call call self.now }
    {
        match call {
            DiskCall::Read => self.reads.saturating_add(1),
            DiskCall::Write => u64::from(self.log.room() - self.log.ready()) + 1,
            DiskCall::Poll => self.polls.saturating_add(1),
            DiskCall::Wait => self.waits.saturating_add(1),
        }
    }

    // Counts a poll that doesn't fail, and gives the ticket that it answers.
    fn next_notice(&mut self) -> Option<u64>
        ensures answer { result ≡ poll_answer self.old }
        ensures state { self.new ≡ record (counted Poll self.old) { notices = turned self.old.notices } }
    {
        self.polls = self.polls.saturating_add(1);
        self.notices.next(&self.log)
    }

    // The last accepted bytes of a block.
    fn last_bytes(&self, b: u32) -> &Block
        requires { b < length self.now.base }
        ensures { result.now ≡ accepted (blocks_of self.now.base) self.now.log b }
    {
        let last = self.last[b as usize];
        if last == 0 {
            return self.base.block(b);
        }
        match self.log.at(last - 1) {
            Some(Logged::Wrote { bytes, .. }) => bytes,
            Some(Logged::Lost { .. }) => self.base.block(b),
            Some(Logged::Noticed { .. }) => self.base.block(b),
            None => self.base.block(b),
        }
    }

    // Counts a failed call that isn't a read.
    fn fault(&mut self) -> DiskFault
        ensures cause { HasCause {T = ℕ} (Err result) self.old.faults self.new.faults }
        ensures state { self.new ≡ faulted self.old }
    {
        self.faults = self.faults.saturating_add(1);
        DiskFault
    }

    // Whether one more write has room.
    fn has_room(&self) -> bool
        ensures { result ≡ has_room self.now }
    {
        self.log.is_ready()
    }

    // Adds a write, for which there must be room, and gives its ticket.
    fn accept(&mut self, b: u32, from: &Block) -> u64
        requires there { b < length self.old.base }
        requires room { IsTrue (has_room self.old) }
        requires unlisted { fails_next Write self.old ≡ false }
        ensures ticket { result ≡ next_ticket self.old }
        ensures above { greatest_ticket self.old.log < result }
        ensures unnoticed { is_noticed result self.old.log ≡ false }
        ensures state { self.new ≡ with_event (Wrote result b from.now) self.old }
    {
        // a call for its clause alone: that the events are few
        self.log.lawful();
        let place = self.log.len() as usize + 1;
        let ticket = self.log.add_write(b, from);
        self.last[b as usize] = place;
        ticket
    }

    // Adds a lost write, for which there must be room. The failed call was counted.
    fn lose(&mut self, b: u32, from: &Block)
        requires there { b < length self.old.base }
        requires counted { 0 < self.old.faults }
        requires room { IsTrue (has_room self.old) }
        requires listed { fails_next Write self.old ≡ true }
        ensures { self.new ≡ with_event (Lost b from.now) self.old }
    {
        self.log.add_lost(b, from);
    }

    // Adds the notice of a ticket that is open.
    fn note(&mut self, ticket: u64)
        requires { IsOpen ticket self.old.log }
        ensures { self.new ≡ with_event (Noticed ticket) self.old }
    {
        self.log.add_notice(ticket);
    }
}

// For each of so many blocks one more than the place of its last accepted write, or 0.
fn last_places(alloc: Global, log: &[Event], blocks: u32) -> Result<Vec<usize>, NoMemory>
    requires { AreWithin blocks log.now }
    ensures { (base : List (List ℕ)) → length base ≡ blocks → IfOk result (λ last. AreLast base log.now last.items) }
{
    let mut last = vec![in alloc; 0usize; blocks as usize]?;
    for place in 0..log.len() {
        if let Event::Wrote { block, .. } = &log[place] {
            last[*block as usize] = place + 1;
        }
    }
    Ok(last)
}

impl Disk for MemDisk {
    ghost tells = { true };

    ghost state = { λ d. state_of d };

    fn lawful(&self) {
        // calls for their clauses alone: what the events are, and what the blocks are
        self.log.lawful();
        self.base.lawful();
    }

    fn blocks(&self) -> u32
        ensures { result ≡ length self.now.base }
    {
        self.base.blocks()
    }

    fn moment(&self) -> u64
        ensures { result ≡ length self.now.log }
    {
        self.log.len()
    }

    fn counts(&self) -> (u64, u64) {
        (self.read_faults, self.faults)
    }

    fn read(&mut self, b: u32, into: &mut Block) -> Result<(), DiskFault>
        requires { b < length self.old.base }
        ensures exact { is_ok result ≡ not (fails_next Read self.old) }
        ensures bytes { OnOk result (into.new ≡ accepted (blocks_of self.old.base) self.old.log b) }
        ensures failed { OnErr result (into.new ≡ into.old) }
        ensures cause { HasCause result self.old.read_faults self.new.read_faults }
        ensures base { self.new.base ≡ self.old.base }
        ensures manner { manner_of self.new ≡ manner_of self.old }
        ensures state { self.new ≡ after_read self.old }
    {
        let listed = self.fails_next(DiskCall::Read);
        self.reads = self.reads.saturating_add(1);
        if listed {
            self.read_faults = self.read_faults.saturating_add(1);
            return Err(DiskFault);
        }
        *into = *self.last_bytes(b);
        Ok(())
    }

    fn write(&mut self, b: u32, from: &Block) -> Result<u64, DiskFault>
        requires { b < length self.old.base }
        ensures log { AddsWrite b from.now result self.old.log self.new.log }
        ensures cause { HasCause result self.old.faults self.new.faults }
        ensures exact { is_ok result ≡ (if fails_next Write self.old then false else has_room self.old) }
        ensures ticket { IfOk result (λ t. t ≡ next_ticket self.old) }
        ensures base { self.new.base ≡ self.old.base }
        ensures manner { manner_of self.new ≡ manner_of self.old }
        ensures state { self.new ≡ after_write self.old b from.now }
        ensures reason { OnErr result (HasFailedBy (manner_of self.new) self.new.log) }
    {
        let listed = self.fails_next(DiskCall::Write);
        if !self.has_room() {
            return Err(self.fault());
        }
        if listed {
            let fault = self.fault();
            self.lose(b, from);
            return Err(fault);
        }
        Ok(self.accept(b, from))
    }

    fn poll(&mut self) -> Result<Option<u64>, DiskFault>
        ensures log { AddsPoll result self.old.log self.new.log }
        ensures cause { HasCause result self.old.faults self.new.faults }
        ensures exact { is_ok result ≡ not (fails_next Poll self.old) }
        ensures answer { IfOk result (λ ticket. ticket ≡ poll_answer self.old) }
        ensures base { self.new.base ≡ self.old.base }
        ensures manner { manner_of self.new ≡ manner_of self.old }
        ensures state { self.new ≡ after_poll self.old }
        ensures reason { OnErr result (HasFailedBy (manner_of self.new) self.new.log) }
        ensures known { AnswersBy ((manner_of self.old).notice self.old.polls self.old.log) result }
    {
        if self.fails_next(DiskCall::Poll) {
            self.polls = self.polls.saturating_add(1);
            return Err(self.fault());
        }
        match self.next_notice() {
            None => Ok(None),
            Some(ticket) => {
                self.note(ticket);
                Ok(Some(ticket))
            }
        }
    }

    fn wait(&mut self, ticket: u64) -> Result<(), DiskFault>
        ensures log { AddsNotices self.old.log self.new.log }
        ensures noticed { OnOk result (IsNoticed ticket self.new.log) }
        ensures cause { HasCause result self.old.faults self.new.faults }
        ensures exact { is_ok result ≡ can_wait self.old ticket }
        ensures base { self.new.base ≡ self.old.base }
        ensures manner { manner_of self.new ≡ manner_of self.old }
        ensures state { self.new ≡ after_wait self.old ticket }
        ensures reason { IsAccepted ticket self.old.log → OnErr result (HasFailedBy (manner_of self.new) self.new.log) }
        ensures stalls { IsAccepted ticket self.old.log → OnErr result ((manner_of self.old).stalls ≡ true) }
        ensures alone { HearsAlone ticket self.old.log self.new.log }
    {
        let listed = self.fails_next(DiskCall::Wait);
        self.waits = self.waits.saturating_add(1);
        if listed {
            return Err(self.fault());
        }
        if !self.log.is_accepted(ticket) {
            return Err(self.fault());
        }
        if !self.log.is_noticed(ticket) {
            self.note(ticket);
        }
        Ok(())
    }
}
