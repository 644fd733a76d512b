//! The order of a mirror's events, with the tickets of its writes on the two disks and the notices that came of
//! them. Room for all of it is taken at the start. No bytes are kept here: they are in the logs of the disks.
//! No call takes steps in the number of events: what grows is the depth of a tree over the writes, and of a search
//! among their tickets.

ghost use Rattle.std.specs.Prelude.{◌≡◌, ◌<◌, ◌≤◌, ◌+◌, ◌++◌, ◌||◌, ◌-◌, ◌*◌, ℕ, [], ◌∷◌, Some, length, map, not, false, true, slice_set, get_or};
ghost use Rattle.std.specs.Prelude.{vec_len, vec_capacity, IfSome, IfOk, if◌then◌else◌, nat_le, nat_lt};
ghost use Rattle.disk_mirror.specs.Twin.{ticket_on, heard_of, unheard, AreAscending};
ghost use Rattle.disk_mirror.specs.Turns.{accepted_in, failed_in, heard_in, reported_in_order};
ghost use Rattle.disk_mirror.specs.Rows.{set_heard, set_reported, first_ready};
ghost use Rattle.disk_mirror.specs.Times.{times_on, mark_on};

use crate::entry::{Came, Entry, Heard, Life, Pair, Ripe, Side};
use crate::marks::marks_on;
use crate::places::{on, place_with};
use crate::ripe::{first_ripe, ripe_of, set_leaf};
use base_types::NoMemory;
use disk_contract::Mark;
use std::alloc::Global;
use std::marker::Model;

/// The events of a mirror, in their order.
#[derive(Drop)]
pub(crate) struct Order {
    events: Vec<Entry>,
    times: Vec<Came>,
    pairs: Vec<Pair>,
    heard: Vec<Heard>,
    /// A tree over the rows of `heard`, which finds the one to be reported next.
    nodes: Vec<Ripe>,
    /// How many leaves the tree has: a power of 2, one for each row that there is room for at least.
    size: usize,
    room: u32,
}

impl Model for Order {
    ghost use Rattle.std.specs.Prelude.{vec_capacity};
    ghost use Rattle.disk_mirror.specs.Order.{OrderState};
    ghost use Rattle.disk_mirror.specs.Rows.{IsKept};

    ghost Value = { OrderState };

    ghost view = { λ o. record { events = o.events.items; times = o.times.items; pairs = o.pairs.items; heard = o.heard.items; room = o.room } };

    ghost invariant = { λ o. IsKept o.events.items o.times.items o.pairs.items o.heard.items o.nodes.items o.size o.room (vec_capacity o.events)
        (vec_capacity o.times) (vec_capacity o.pairs) (vec_capacity o.heard) };
}

impl Order {
    /// No events, and room for so many writes and a notice of each.
    ///
    /// # Errors
    /// Out of memory for all of the room.
    pub(crate) fn new(alloc: Global, room: u32) -> Result<Order, NoMemory>
        ensures { IfOk result (λ order. order ≡ record { events = []; times = []; pairs = []; heard = []; room = room }) }
    {
        let most = usize::try_from(u64::from(room) * 2).map_err(|_| NoMemory)?;
        let events = Vec::with_capacity(alloc, most)?;
        let times = Vec::with_capacity(alloc, most)?;
        let pairs = Vec::with_capacity(alloc, room as usize)?;
        let heard = Vec::with_capacity(alloc, room as usize)?;
        let size = (room as usize).next_power_of_two();
        let none = Ripe {
            both: false,
            first: false,
            second: false,
        };
        let nodes = vec![in alloc; none; 2 * size]?;
        Ok(Order {
            events,
            times,
            pairs,
            heard,
            nodes,
            size,
            room,
        })
    }

    /// The number of events.
    pub(crate) fn len(&self) -> u64
        ensures { result ≡ length self.now.events }
    {
        self.events.len() as u64
    }

    /// Does nothing. A proof learns from the call how many rows and events there may be.
    pub(crate) fn few(&self)
        ensures rows { length self.now.heard ≡ length self.now.pairs }
        ensures room { length self.now.pairs ≤ self.now.room }
        ensures short { self.now.room < 4294967296 }
        ensures events { length self.now.events ≤ 8589934592 }
    {
        let _ = &self.events;
    }

    /// Whether there is no room for another write.
    pub(crate) fn is_full(&self) -> bool
        ensures { result ≡ nat_le self.now.room (length self.now.pairs) }
    {
        self.room as usize <= self.pairs.len()
    }

    /// Whether this ticket was given.
    pub(crate) fn has(&self, ticket: u64) -> bool
        ensures { result ≡ (if nat_lt 0 ticket then nat_le ticket (length self.now.pairs) else false) }
    {
        0 < ticket && ticket <= self.pairs.len() as u64
    }

    /// The ticket on this disk of the write with this ticket, which must have been given.
    pub(crate) fn ticket_on(&self, side: Side, ticket: u64) -> Option<u64>
        requires positive { 0 < ticket }
        requires given { ticket ≤ length self.now.pairs }
        ensures { result ≡ ticket_on side self.now.pairs (Some ticket) }
    {
        on(&self.pairs[ticket as usize - 1], side)
    }

    /// The ticket of the write that has this ticket on the disk, where the tickets there ascend.
    pub(crate) fn ticket_with(&self, side: Side, ticket: u64) -> Option<u64>
        ensures found { IfSome result (λ own. (0 < own) × (own ≤ length self.now.pairs) × (ticket_on side self.now.pairs (Some own) ≡ Some ticket)) }
        ensures all { AreAscending side self.now.pairs → (i : ℕ) → ticket_on side self.now.pairs (Some i) ≡ Some ticket → result ≡ Some i }
    {
        match place_with(self.pairs.as_slice(), side, ticket) {
            None => None,
            Some(at) => Some(at as u64 + 1),
        }
    }

    /// The least ticket that is to be reported, where such disks are live, of which there must be one.
    pub(crate) fn first_ready(&self, first: bool, second: bool) -> Option<u64>
        requires { (first || second) ≡ true }
        ensures { result ≡ first_ready first second self.now.heard }
    {
        match first_ripe(self.nodes.as_slice(), self.size, first, second) {
            None => None,
            Some(at) => Some(at as u64 + 1),
        }
    }

    /// Whether this ticket, which must have been given, was reported.
    pub(crate) fn is_reported(&self, ticket: u64) -> bool
        requires positive { 0 < ticket }
        requires given { ticket ≤ length self.now.pairs }
        ensures { result ≡ (heard_of self.now.heard ticket).reported }
    {
        self.heard[ticket as usize - 1].reported
    }

    /// The marks of a disk for these of the mirror.
    ///
    /// # Errors
    /// Out of memory.
    pub(crate) fn marks(
        &self,
        alloc: Global,
        side: Side,
        life: Life,
        marks: &[Mark],
    ) -> Result<Vec<Mark>, NoMemory>
        ensures { IfOk result (λ own. own.items ≡ map (mark_on (times_on side self.now.times) life) marks.now) }
    {
        Ok(marks_on(alloc, self.times.as_slice(), side, life, marks)?)
    }

    /// Adds an accepted write with its tickets on the disks, which have so many events now, and gives its own. There
    /// must be room.
    pub(crate) fn accept(&mut self, first: Option<u64>, second: Option<u64>, came: Came) -> u64
        requires { length self.old.pairs < self.old.room }
        ensures ticket { result ≡ length self.old.pairs + 1 }
        ensures state { self.new ≡ accepted_in self.old first second came }
    {
        let ticket = self.pairs.len() as u64 + 1;
        let row = Heard {
            first: false,
            second: false,
            reported: false,
        };
        let entry = Entry::Accepted {
            ticket,
            first,
            second,
        };
        add(&mut self.pairs, Pair { first, second });
        add(&mut self.heard, row);
        add(&mut self.events, entry);
        add(&mut self.times, came);
        ticket
    }

    /// Adds a write that failed on the last live disk, for which there must be room: it takes it.
    pub(crate) fn fail(&mut self, side: Side, came: Came)
        requires { length self.old.pairs < self.old.room }
        ensures { self.new ≡ failed_in self.old side came }
    {
        self.room -= 1;
        add(&mut self.events, Entry::Failed { side });
        add(&mut self.times, came);
    }

    /// Notes that the notice of this ticket, which must have been given, came from the disk.
    pub(crate) fn hear(&mut self, side: Side, ticket: u64)
        requires positive { 0 < ticket }
        requires given { ticket ≤ length self.old.pairs }
        ensures { self.new ≡ heard_in self.old side ticket }
    {
        let at = ticket as usize - 1;
        hear_at(&mut self.heard, at, side);
        let ripe = ripe_of(&self.heard[at]);
        set_leaf(self.nodes.as_mut_slice(), self.size, at, ripe);
    }

    /// Adds the notice of this ticket, which must have been given and not reported yet.
    pub(crate) fn report(&mut self, ticket: u64, came: Came)
        requires positive { 0 < ticket }
        requires given { ticket ≤ length self.old.pairs }
        requires fresh { (heard_of self.old.heard ticket).reported ≡ false }
        ensures { self.new ≡ reported_in_order self.old ticket came }
    {
        let at = ticket as usize - 1;
        report_at(&mut self.heard, at);
        let ripe = ripe_of(&self.heard[at]);
        set_leaf(self.nodes.as_mut_slice(), self.size, at, ripe);
        add(&mut self.events, Entry::Reported { ticket });
        add(&mut self.times, came);
    }
}

// Adds one more to a row, which has room for it.
fn add<T: Copy>(row: &mut Vec<T>, item: T)
    requires { vec_len row.old < vec_capacity row.old }
    ensures items { row.new.items ≡ row.old.items ++ item ∷ [] }
    ensures capacity { vec_capacity row.old ≤ vec_capacity row.new }
{
    row.push(item).unwrap();
}

// Notes in the row at this place that the notice came from the disk.
fn hear_at(rows: &mut Vec<Heard>, at: usize, side: Side)
    requires { at < length rows.old.items }
    ensures rows { rows.new.items ≡ slice_set rows.old.items at (set_heard side (get_or rows.old.items at unheard)) }
    ensures capacity { vec_capacity rows.old ≤ vec_capacity rows.new }
{
    rows[at] = set_heard(rows[at], side);
}

// Notes in the row at this place that the write was reported.
fn report_at(rows: &mut Vec<Heard>, at: usize)
    requires { at < length rows.old.items }
    ensures rows { rows.new.items ≡ slice_set rows.old.items at (set_reported (get_or rows.old.items at unheard)) }
    ensures capacity { vec_capacity rows.old ≤ vec_capacity rows.new }
{
    rows[at] = set_reported(rows[at]);
}

fn set_heard(row: Heard, side: Side) -> Heard
    ensures { result ≡ set_heard side row }
{
    match side {
        Side::First => Heard { first: true, ..row },
        Side::Second => Heard {
            second: true,
            ..row
        },
    }
}

fn set_reported(row: Heard) -> Heard
    ensures { result ≡ set_reported row }
{
    Heard {
        reported: true,
        ..row
    }
}
