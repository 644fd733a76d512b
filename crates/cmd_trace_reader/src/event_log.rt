//! The events of a trace as they come: which of them may come behind those before it. It knows no other line of a
//! trace. Of each accepted write the ticket is noted, so that its notice is found by halving.

ghost use Rattle.std.specs.Prelude.{◌≡◌, ◌<◌, ◌^◌, ◌↔◌, [], true, length, IfOk, OnErr};
ghost use Rattle.cmd_trace_reader.specs.Events.{IsNext, TakesEvent};

use base_types::NoMemory;
use disk_contract::Event;
use engine_notes::Notes;
use std::alloc::Global;
use std::marker::Model;

/// The events so far.
#[derive(Drop)]
pub struct EventLog {
    events: Vec<Event>,
    greatest: u64,
    notes: Notes,
}

impl Model for EventLog {
    ghost use Rattle.std.specs.Prelude.{List};
    ghost use Rattle.disk_contract.specs.declared.event.Event.{Event};
    ghost use Rattle.cmd_trace_reader.specs.Events.{IsTracked};

    ghost Value = { List Event };

    ghost view = { λ l. l.events.items };

    ghost invariant = { λ l. IsTracked l.events.items l.greatest l.notes.notes };
}

impl EventLog {
    /// No event so far. It takes no memory.
    pub fn new(alloc: Global) -> EventLog
        ensures { result ≡ [] }
    {
        EventLog {
            events: Vec::new(alloc),
            greatest: 0,
            notes: Notes::new(alloc),
        }
    }

    /// Puts the event behind the others, where it may come on a disk of so many blocks, and tells whether it did.
    ///
    /// # Errors
    /// Out of memory, and the events stay as they were.
    pub fn take(&mut self, event: Event, blocks: u32) -> Result<bool, NoMemory>
        ensures takes { IfOk result (λ taken. TakesEvent blocks self.old event taken self.new) }
        ensures same { OnErr result (self.new ≡ self.old) }
    {
        if !self.may_come(&event, blocks) {
            return Ok(false);
        }
        self.notes.reserve(1)?;
        match event {
            Event::Wrote {
                ticket,
                block,
                bytes,
            } => {
                self.events.push(Event::Wrote {
                    ticket,
                    block,
                    bytes,
                })?;
                self.notes.expect(ticket);
                self.greatest = ticket;
            }
            Event::Lost { block, bytes } => {
                self.events.push(Event::Lost { block, bytes })?;
            }
            Event::Noticed { ticket } => {
                self.events.push(Event::Noticed { ticket })?;
                self.notes.noticed(ticket);
            }
        }
        Ok(true)
    }

    // Whether the event may come.
    fn may_come(&self, event: &Event, blocks: u32) -> bool
        ensures { (result ≡ true) ↔ IsNext blocks self.now event.now }
    {
        match event {
            Event::Wrote {
                ticket,
                block,
                bytes,
            } => {
                bytes.lawful();
                if *ticket <= self.greatest {
                    return false;
                }
                *block < blocks
            }
            Event::Lost { block, bytes } => {
                bytes.lawful();
                *block < blocks
            }
            Event::Noticed { ticket } => self.notes.is_open(*ticket),
        }
    }

    /// How many events there are so far.
    pub fn len(&self) -> u64
        ensures value { result ≡ length self.now }
        ensures wide { length self.now < 2 ^ 64 }
    {
        self.events.len() as u64
    }

    /// The events so far, in their order.
    pub fn events(&self) -> &[Event]
        ensures { result.now ≡ self.now }
    {
        self.events.as_slice()
    }

    /// The events, in their order.
    pub fn into_events(self) -> Vec<Event>
        ensures { result.items ≡ self }
    {
        let EventLog { events, .. } = self;
        events
    }
}
