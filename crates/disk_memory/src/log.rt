//! The log of a disk in memory: its events as they came, and rows by which a ticket, a lost write and an
//! open ticket are found without a walk over it. Room for all events that may come, and for the bytes of
//! writes, is taken at the start: no event takes memory. What blocks there are, and where the bytes lie, is
//! not its matter.

ghost use Rattle.std.specs.Prelude.{◌≡◌, ◌<◌, ◌≤◌, ◌+◌, ◌-◌, ◌^◌, ◌++◌, ℕ, [], ◌∷◌, false, length, nat_lt, Option, Some, IfSome, IfNone, IfOk, option_map};
ghost use Rattle.std.specs.List.{slice_get};
ghost use Rattle.std.specs.List.Sorted.{IsNonDecreasing};
ghost use Rattle.disk_contract.specs.declared.event.Event.TheVariants.{Wrote, Lost, Noticed};
ghost use Rattle.disk_contract.specs.Cell.{greatest_ticket, is_accepted, is_noticed, IsAccepted};
ghost use Rattle.disk_contract.specs.Disk.{IsOpen};
ghost use Rattle.disk_contract.specs.Lawful.{MayCome, IsLawful, AreEventsOf};
ghost use Rattle.disk_memory.specs.Log.{tickets, open_tickets, write_count, writes_in};
ghost use Rattle.disk_memory.specs.Logged.{event_of};
ghost use Rattle.disk_memory.specs.Settled.{name_at};

use crate::events::Events;
use crate::{Logged, Ranks, WriteName};
use base_types::{Block, NoMemory};
use disk_contract::{BoxedBlock, Event, a_block_has_its_bytes};
use std::alloc::Global;
use std::marker::Model;

/// The events of a disk.
#[derive(Drop)]
pub(crate) struct Log {
    events: Events,
    /// The tickets of accepted writes, which ascend.
    tickets: Vec<u64>,
    /// Where in the log they stand.
    places: Vec<usize>,
    /// Where in the log the lost writes stand.
    lost: Vec<usize>,
    /// Which of the accepted writes, counted from 1, have no notice yet.
    unnoticed: Ranks,
    /// How many writes there is room for, accepted and lost.
    room: u32,
}

impl Model for Log {
    ghost use Rattle.disk_memory.specs.Log.{LogState, IsKeptLog};
    ghost use Rattle.std.specs.Prelude.{vec_capacity};

    ghost Value = { LogState };

    ghost view = { λ l. record { events = l.events.events; room = l.room; ready = l.events.ready } };

    ghost invariant = { λ l. IsKeptLog l.events.events l.tickets.items l.places.items l.lost.items l.unnoticed l.room l.events.ready l.events.most
        (vec_capacity l.tickets) (vec_capacity l.places) (vec_capacity l.lost) };
}

impl Log {
    /// No events, and room for so many writes and a notice of each.
    ///
    /// # Errors
    /// Out of memory for all of the room.
    pub(crate) fn new(alloc: Global, room: u32) -> Result<Log, NoMemory>
        ensures { IfOk result (λ log. log ≡ record { events = []; room = room; ready = room }) }
    {
        let log = Log::with_ready(alloc, room, room)?;
        Ok(log)
    }

    /// These events, and no room for more writes.
    ///
    /// # Errors
    /// Out of memory.
    pub(crate) fn of_events(alloc: Global, events: Vec<Event>) -> Result<Log, NoMemory>
        requires { IsLawful events.items }
        ensures { IfOk result (λ log. log ≡ record { events = events.items; room = write_count events.items; ready = 0 }) }
    {
        let room = write_count(events.as_slice());
        let room = u32::try_from(room).map_err(|_| NoMemory)?;
        let mut log = Log::with_ready(alloc, room, 0)?;
        for event in events {
            log.add(event);
        }
        Ok(log)
    }

    // No events, and room for so many writes, for the bytes of so many of which there is room too.
    fn with_ready(alloc: Global, room: u32, ready: u32) -> Result<Log, NoMemory>
        requires { ready ≤ room }
        ensures { IfOk result (λ log. log ≡ record { events = []; room = room; ready = ready }) }
    {
        let most = usize::try_from(u64::from(room) * 2).map_err(|_| NoMemory)?;
        let events = Events::new(alloc, most, ready)?;
        let tickets = Vec::with_capacity(alloc, room as usize)?;
        let places = Vec::with_capacity(alloc, room as usize)?;
        let lost = Vec::with_capacity(alloc, room as usize)?;
        let unnoticed = Ranks::new(alloc, room)?;
        Ok(Log {
            events,
            tickets,
            places,
            lost,
            unnoticed,
            room,
        })
    }

    /// The number of events.
    pub(crate) fn len(&self) -> u64
        ensures { result ≡ length self.now.events }
    {
        self.events.len() as u64
    }

    /// How many writes there is room for, accepted and lost.
    pub(crate) fn room(&self) -> u32
        ensures { result ≡ self.now.room }
    {
        self.room
    }

    /// Does nothing. A proof learns from the call that the events are lawful ones of some disk, and few.
    pub(crate) fn lawful(&self)
        ensures lawful { IsLawful self.now.events }
        ensures whole { AreEventsOf (2 ^ 32) self.now.events }
        ensures few { length self.now.events < 2 ^ 33 }
    {
        let _ = &self.events;
    }

    /// The event at this place, the first of which is 0, where there is one.
    pub(crate) fn at(&self, place: usize) -> Option<Logged<'_>>
        ensures { option_map event_of result ≡ slice_get self.now.events place }
    {
        self.events.at(place)
    }

    /// The event at this place, which there must be.
    pub(crate) fn event(&self, place: usize) -> Logged<'_>
        requires { place < length self.now.events }
        ensures { slice_get self.now.events place ≡ Some (event_of result) }
    {
        self.events.at(place).unwrap()
    }

    /// For how many writes there is room for the bytes yet.
    pub(crate) fn ready(&self) -> u32
        ensures { result ≡ self.now.ready }
    {
        self.events.ready()
    }

    /// Whether there is room for the bytes of one more write.
    pub(crate) fn is_ready(&self) -> bool
        ensures { result ≡ nat_lt 0 self.now.ready }
    {
        self.events.ready() > 0
    }

    /// Whether a write has this ticket.
    pub(crate) fn is_accepted(&self, ticket: u64) -> bool
        ensures { result ≡ is_accepted ticket self.now.events }
    {
        self.index_of(ticket).is_some()
    }

    /// Whether the write of this ticket, which there must be, was noticed.
    pub(crate) fn is_noticed(&self, ticket: u64) -> bool
        requires { IsAccepted ticket self.now.events }
        ensures { result ≡ is_noticed ticket self.now.events }
    {
        !self.unnoticed.has(self.number_of(ticket))
    }

    // Which of the accepted writes has this ticket, counted from 1.
    fn number_of(&self, ticket: u64) -> u32
        requires { IsAccepted ticket self.now.events }
        ensures above { 0 < result }
        ensures ticket { slice_get (tickets self.now.events) (result - 1) ≡ Some ticket }
    {
        match self.index_of(ticket) {
            Some(index) => index as u32 + 1,
            None => 0,
        }
    }

    // Where this ticket is in the row of tickets.
    fn index_of(&self, ticket: u64) -> Option<usize>
        ensures there { IfSome result (λ i. slice_get (tickets self.now.events) i ≡ Some ticket) }
        ensures short { IfSome result (λ i. i + 1 < 4294967296) }
        ensures none { IfNone result (is_accepted ticket self.now.events ≡ false) }
    {
        place_in(self.tickets.as_slice(), ticket)
    }

    /// The place in the log of the write of this name, where there is one.
    pub(crate) fn place_of(&self, write: WriteName) -> Option<usize>
        ensures there { IfSome result (λ p. name_at self.now.events p ≡ Some write) }
        ensures none { IfNone result ((p : ℕ) → name_at self.now.events p ≡ Some write → ⊥) }
    {
        match write {
            WriteName::Accepted { ticket } => {
                let index = self.index_of(ticket)?;
                Some(self.places[index])
            }
            WriteName::Lost { number } => {
                if number == 0 {
                    return None;
                }
                numbered(self.lost.as_slice(), number)
            }
        }
    }

    /// How many tickets of accepted writes have no notice.
    pub(crate) fn open_count(&self) -> u32
        ensures { result ≡ length (open_tickets self.now.events) }
    {
        self.unnoticed.len()
    }

    /// The ticket at this place of those that have no notice, in ascending order, the first of which is 0.
    pub(crate) fn open_at(&self, place: u32) -> Option<u64>
        ensures { result ≡ slice_get (open_tickets self.now.events) place }
    {
        let number = self.unnoticed.at(place)?;
        Some(self.tickets[(number - 1) as usize])
    }

    /// Adds a write, for whose bytes there must be room, and gives its ticket.
    pub(crate) fn add_write(&mut self, block: u32, bytes: &Block) -> u64
        requires { 0 < self.old.ready }
        ensures ticket { result ≡ length (tickets self.old.events) + 1 }
        ensures above { greatest_ticket self.old.events < result }
        ensures unnoticed { is_noticed result self.old.events ≡ false }
        ensures state { self.new ≡ record self.old { events = self.old.events ++ Wrote result block bytes.now ∷ []; ready = self.old.ready - 1 } }
    {
        // a call for its clause alone: what the bytes of a block are
        a_block_has_its_bytes(bytes);
        let ticket = self.tickets.len() as u64 + 1;
        self.tickets.push(ticket).unwrap();
        self.places.push(self.events.len()).unwrap();
        self.unnoticed.join();
        self.events.push_wrote(ticket, block, bytes);
        ticket
    }

    /// Adds a lost write, for whose bytes there must be room.
    pub(crate) fn add_lost(&mut self, block: u32, bytes: &Block)
        requires { 0 < self.old.ready }
        ensures { self.new ≡ record self.old { events = self.old.events ++ Lost block bytes.now ∷ []; ready = self.old.ready - 1 } }
    {
        // a call for its clause alone: what the bytes of a block are
        a_block_has_its_bytes(bytes);
        self.lost.push(self.events.len()).unwrap();
        self.events.push_lost(block, bytes);
    }

    /// Adds the notice of a ticket that is open.
    pub(crate) fn add_notice(&mut self, ticket: u64)
        requires { IsOpen ticket self.old.events }
        ensures { self.new ≡ record self.old { events = self.old.events ++ Noticed ticket ∷ [] } }
    {
        let number = self.number_of(ticket);
        self.unnoticed.take_out(number);
        self.events.push_noticed(ticket);
    }

    // Adds an event that may come, for which there must be room, where no room for bytes is ready.
    fn add(&mut self, event: Event)
        requires may { MayCome self.old.events event }
        requires room { write_count self.old.events + writes_in event ≤ self.old.room }
        requires ready { self.old.ready ≡ 0 }
        ensures { self.new ≡ record self.old { events = self.old.events ++ event ∷ [] } }
    {
        match event {
            Event::Wrote {
                ticket,
                block,
                bytes,
            } => self.take_wrote(ticket, block, bytes),
            Event::Lost { block, bytes } => self.take_lost(block, bytes),
            Event::Noticed { ticket } => self.add_notice(ticket),
        }
    }

    // Adds a write with its own bytes, for which there must be room, where no room for bytes is ready.
    fn take_wrote(&mut self, ticket: u64, block: u32, bytes: BoxedBlock)
        requires above { greatest_ticket self.old.events < ticket }
        requires room { write_count self.old.events + 1 ≤ self.old.room }
        requires ready { self.old.ready ≡ 0 }
        ensures { self.new ≡ record self.old { events = self.old.events ++ Wrote ticket block bytes ∷ [] } }
    {
        // a call for its clause alone: the box has the bytes of a block
        bytes.lawful();
        self.tickets.push(ticket).unwrap();
        self.places.push(self.events.len()).unwrap();
        self.unnoticed.join();
        let event = Event::Wrote {
            ticket,
            block,
            bytes,
        };
        self.events.push_given(event);
    }

    // Adds a lost write with its own bytes, for which there must be room, where no room for bytes is ready.
    fn take_lost(&mut self, block: u32, bytes: BoxedBlock)
        requires room { write_count self.old.events + 1 ≤ self.old.room }
        requires ready { self.old.ready ≡ 0 }
        ensures { self.new ≡ record self.old { events = self.old.events ++ Lost block bytes ∷ [] } }
    {
        // a call for its clause alone: the box has the bytes of a block
        bytes.lawful();
        self.lost.push(self.events.len()).unwrap();
        self.events.push_given(Event::Lost { block, bytes });
    }
}

// How many of these events are writes, accepted and lost.
fn write_count(events: &[Event]) -> usize
    ensures { result ≡ write_count events.now }
{
    events
        .iter()
        .filter(|event| !matches!(event, Event::Noticed { .. }))
        .count()
}

// The place of a number in a row in order, where it is there.
fn place_in(row: &[u64], number: u64) -> Option<usize>
    requires { IsNonDecreasing row.now }
    ensures there { IfSome result (λ p. slice_get row.now p ≡ Some number) }
    ensures none { IfNone result ((p : ℕ) → slice_get row.now p ≡ Some number → ⊥) }
{
    row.binary_search(&number).ok()
}

// What is in a row at this number, where the first is 1.
fn numbered(row: &[usize], number: u64) -> Option<usize>
    requires { 0 < number }
    ensures { result ≡ slice_get row.now (number - 1) }
{
    let index = usize::try_from(number - 1).ok()?;
    row.get(index).copied()
}
