//! The events of a disk in memory, and the bytes of its writes, which lie one behind the other. Room for all
//! of them is taken at the start, and nothing is written there before they come: no event takes memory. Which
//! events may come is not its matter.

ghost use Rattle.std.specs.Prelude.{◌≡◌, ◌<◌, ◌≤◌, ◌-◌, ◌++◌, [], ◌∷◌, length, option_map, IfOk, vec_capacity};
ghost use Rattle.std.specs.List.{slice_get};
ghost use Rattle.disk_contract.specs.declared.event.Event.TheVariants.{Wrote, Lost, Noticed};
ghost use Rattle.disk_memory.specs.Events.{event_kept, IsHeld};
ghost use Rattle.disk_memory.specs.Logged.{event_of};

use crate::Logged;
use base_types::{Block, NoMemory};
use disk_contract::Event;
use std::alloc::Global;
use std::marker::Model;

/// What is kept of one event.
#[derive(Drop)]
pub(crate) enum Entry {
    /// An event that there was when the disk was made. Its bytes are its own.
    Given(Event),
    /// An accepted write, and which of the bytes are its.
    Wrote { ticket: u64, block: u32, at: usize },
    /// A lost write, and which of the bytes are its.
    Lost { block: u32, at: usize },
    /// A notice.
    Noticed { ticket: u64 },
}

/// The events in their order.
#[derive(Drop)]
pub(crate) struct Events {
    entries: Vec<Entry>,
    /// The bytes of the disk's own writes.
    bytes: Vec<Block>,
    /// For how many writes more there is room for the bytes.
    ready: u32,
    /// How many events there is room for.
    most: usize,
}

impl Model for Events {
    ghost use Rattle.disk_memory.specs.Events.{EventsState, events_kept, HasRoom};
    ghost use Rattle.std.specs.Prelude.{length, vec_capacity};

    ghost Value = { EventsState };

    ghost view = { λ e. record { events = events_kept e.bytes.items e.entries.items; ready = e.ready; most = e.most } };

    ghost invariant = { λ e. HasRoom e.entries.items (length e.bytes.items) e.ready e.most (vec_capacity e.bytes) (vec_capacity e.entries) };
}

impl Events {
    /// None, with room for so many events and for the bytes of so many writes.
    ///
    /// # Errors
    /// Out of memory.
    pub(crate) fn new(alloc: Global, most: usize, ready: u32) -> Result<Events, NoMemory>
        ensures { IfOk result (λ events. events ≡ record { events = []; ready = ready; most = most }) }
    {
        let entries = Vec::with_capacity(alloc, most)?;
        let bytes = Vec::with_capacity(alloc, ready as usize)?;
        Ok(Events {
            entries,
            bytes,
            ready,
            most,
        })
    }

    /// How many there are.
    pub(crate) fn len(&self) -> usize
        ensures { result ≡ length self.now.events }
    {
        self.entries.len()
    }

    /// For how many writes more there is room for the bytes.
    pub(crate) fn ready(&self) -> u32
        ensures { result ≡ self.now.ready }
    {
        self.ready
    }

    /// The event at this place, the first of which is 0, where there is one.
    pub(crate) fn at(&self, place: usize) -> Option<Logged<'_>>
        ensures { option_map event_of result ≡ slice_get self.now.events place }
    {
        let entry = self.entries.get(place)?;
        Some(looked_up(self.bytes.as_slice(), entry))
    }

    /// Adds an accepted write, for which there must be room.
    pub(crate) fn push_wrote(&mut self, ticket: u64, block: u32, bytes: &Block)
        requires room { length self.old.events < self.old.most }
        requires ready { 0 < self.old.ready }
        ensures { self.new ≡ record self.old { events = self.old.events ++ Wrote ticket block bytes.now ∷ []; ready = self.old.ready - 1 } }
    {
        let at = self.bytes.len();
        self.bytes.push(*bytes).unwrap();
        self.ready -= 1;
        let entry = Entry::Wrote { ticket, block, at };
        self.entries.push(entry).unwrap();
    }

    /// Adds a lost write, for which there must be room.
    pub(crate) fn push_lost(&mut self, block: u32, bytes: &Block)
        requires room { length self.old.events < self.old.most }
        requires ready { 0 < self.old.ready }
        ensures { self.new ≡ record self.old { events = self.old.events ++ Lost block bytes.now ∷ []; ready = self.old.ready - 1 } }
    {
        let at = self.bytes.len();
        self.bytes.push(*bytes).unwrap();
        self.ready -= 1;
        self.entries.push(Entry::Lost { block, at }).unwrap();
    }

    /// Adds a notice, for which there must be room.
    pub(crate) fn push_noticed(&mut self, ticket: u64)
        requires { length self.old.events < self.old.most }
        ensures { self.new ≡ record self.old { events = self.old.events ++ Noticed ticket ∷ [] } }
    {
        self.entries.push(Entry::Noticed { ticket }).unwrap();
    }

    /// Adds an event with its own bytes, for which there must be room.
    pub(crate) fn push_given(&mut self, event: Event)
        requires { length self.old.events < self.old.most }
        ensures { self.new ≡ record self.old { events = self.old.events ++ event ∷ [] } }
    {
        self.entries.push(Entry::Given(event)).unwrap();
    }
}

// An entry as it is looked up, where these are the bytes of the disk's own writes.
fn looked_up<'a>(blocks: &'a [Block], entry: &'a Entry) -> Logged<'a>
    requires { IsHeld (length blocks.now) entry.now }
    ensures { event_of result ≡ event_kept blocks.now entry.now }
{
    match entry {
        Entry::Given(
            Event::Wrote {
                ticket,
                block,
                bytes,
            },
        ) => Logged::Wrote {
            ticket: *ticket,
            block: *block,
            bytes: bytes.bytes(),
        },
        Entry::Given(Event::Lost { block, bytes }) => Logged::Lost {
            block: *block,
            bytes: bytes.bytes(),
        },
        Entry::Given(Event::Noticed { ticket }) => Logged::Noticed { ticket: *ticket },
        Entry::Wrote { ticket, block, at } => Logged::Wrote {
            ticket: *ticket,
            block: *block,
            bytes: &blocks[*at],
        },
        Entry::Lost { block, at } => Logged::Lost {
            block: *block,
            bytes: &blocks[*at],
        },
        Entry::Noticed { ticket } => Logged::Noticed { ticket: *ticket },
    }
}
