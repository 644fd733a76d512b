//! A set of expected tickets, each noticed or not. They are kept in the order of their numbers, and each is
//! found by halving; a ticket that is needed no longer is dropped. A ticket is open while it is expected and its
//! notice hasn't come. Which write a ticket belongs to isn't the set's matter.

ghost use Rattle.std.specs.Prelude.{◌≡◌, ◌<◌, ◌≤◌, ◌+◌, ◌&&◌, ◌||◌, ◌==◌, [], ℕ, not, true, false, take, map, slice_get, None, Some, IsTrue, IfSome};
ghost use Rattle.std.specs.Prelude.{OnOk, length};
ghost use Rattle.std.specs.VecDeque.{deque_len, deque_capacity};
ghost use Rattle.engine_notes.specs.declared.notes.Note.{Note};
ghost use Rattle.engine_notes.specs.Notes.{ticket_of, is_expected, is_noticed, are_noticed, is_open, none_open, is_among, are_rising, with_ticket};
ghost use Rattle.engine_notes.specs.Notes.{without_ticket};

use base_types::NoMemory;
use std::alloc::Global;
use std::collections::VecDeque;
use std::marker::Model;

/// An expected ticket.
#[derive(Clone, Copy)]
pub struct Note {
    pub ticket: u64,
    pub noticed: bool,
}

/// The tickets that are waited for.
#[derive(Drop)]
pub struct Notes {
    notes: VecDeque<Note>,
}

impl Model for Notes {
    ghost use Rattle.std.specs.Prelude.{◌≡◌, ◌-◌, true};
    ghost use Rattle.std.specs.VecDeque.{deque_len, deque_capacity};
    ghost use Rattle.engine_notes.specs.Notes.{Expected, are_rising};

    ghost Value = { Expected };

    ghost view = { λ n. record { notes = n.notes.items; room = deque_capacity n.notes - deque_len n.notes } };

    ghost invariant = { λ n. are_rising n.notes.items ≡ true };
}

impl Notes {
    /// No tickets. It takes no memory.
    pub fn new(alloc: Global) -> Notes
        ensures { result.notes ≡ [] }
    {
        Notes {
            notes: VecDeque::new(alloc),
        }
    }

    /// Makes room for so many tickets more.
    ///
    /// # Errors
    /// No memory was found, and the set is as it was.
    pub fn reserve(&mut self, count: u32) -> Result<(), NoMemory>
        ensures notes { self.new.notes ≡ self.old.notes }
        ensures room { OnOk result (count ≤ self.new.room) }
        ensures no_less { self.old.room ≤ self.new.room }
    {
        self.notes.reserve(count as usize)?;
        Ok(())
    }

    /// Expects a ticket from now on. There must be room for it. It takes no memory.
    pub fn expect(&mut self, ticket: u64)
        requires { 0 < self.old.room }
        ensures expected { (u : ℕ) → is_expected u self.new.notes ≡ (ticket == u || is_expected u self.old.notes) }
        ensures noticed { (u : ℕ) → is_noticed u self.new.notes ≡ is_noticed u self.old.notes }
        ensures room { self.old.room ≤ self.new.room + 1 }
        ensures total { length self.old.notes + self.old.room ≤ length self.new.notes + self.new.room }
    {
        put_in(&mut self.notes, ticket);
    }

    /// Whether the notice of this ticket came.
    fn is_noticed(&self, ticket: u64) -> bool
        ensures { result ≡ is_noticed ticket self.now.notes }
    {
        match found(&self.notes, ticket) {
            Some(at) => self.notes[at].noticed,
            None => false,
        }
    }

    /// Whether the notices of all these tickets came.
    pub fn all_noticed(&self, tickets: &[u64]) -> bool
        ensures { result ≡ are_noticed tickets.now self.now.notes }
    {
        for ticket in tickets {
            if !self.is_noticed(*ticket) {
                return false;
            }
        }
        true
    }

    /// Whether this ticket is expected and its notice hasn't come.
    pub fn is_open(&self, ticket: u64) -> bool
        ensures { result ≡ is_open ticket self.now.notes }
    {
        match found(&self.notes, ticket) {
            Some(at) => !self.notes[at].noticed,
            None => false,
        }
    }

    /// Whether none of these tickets is open.
    pub fn none_open(&self, tickets: &[u64]) -> bool
        ensures { result ≡ none_open tickets.now self.now.notes }
    {
        for ticket in tickets {
            if self.is_open(*ticket) {
                return false;
            }
        }
        true
    }

    /// How many tickets are expected.
    pub fn len(&self) -> usize
        ensures { result ≡ length self.now.notes }
    {
        self.notes.len()
    }

    /// The note at this place, counted from 0 in the order of the tickets.
    pub fn get(&self, at: usize) -> Option<Note>
        ensures { result ≡ slice_get self.now.notes at }
    {
        self.notes.get(at).copied()
    }

    /// Does nothing. A proof learns from the call that the tickets ascend, each above the one before.
    pub fn lawful(&self)
        ensures { are_rising self.now.notes ≡ true }
    {
        let _ = &self.notes;
    }

    /// Takes the notice of a ticket, and answers whether it was expected. Otherwise nothing changes.
    pub fn noticed(&mut self, ticket: u64) -> bool
        ensures exact { result ≡ is_expected ticket self.old.notes }
        ensures expected { (u : ℕ) → is_expected u self.new.notes ≡ is_expected u self.old.notes }
        ensures noticed { (u : ℕ) → is_noticed u self.new.notes ≡ (is_noticed u self.old.notes || (ticket == u && is_expected u self.old.notes)) }
        ensures tickets { map ticket_of self.new.notes ≡ map ticket_of self.old.notes }
        ensures room { self.new.room ≡ self.old.room }
    {
        mark_in(&mut self.notes, ticket)
    }

    /// Expects these tickets no longer, and drops them. What isn't expected is passed over.
    pub fn forget(&mut self, tickets: &[u64])
        ensures expected { (u : ℕ) → is_expected u self.new.notes ≡ (not (is_among u tickets.now) && is_expected u self.old.notes) }
        ensures noticed { (u : ℕ) → is_noticed u self.new.notes ≡ (not (is_among u tickets.now) && is_noticed u self.old.notes) }
        ensures room { length self.new.notes + self.new.room ≡ length self.old.notes + self.old.room }
    {
        take_all_out(&mut self.notes, tickets);
    }
}

/// Where the ticket is, or would be.
fn place_of(notes: &VecDeque<Note>, ticket: u64) -> usize
    requires { are_rising notes.now.items ≡ true }
    ensures bound { (result ≤ deque_len notes.now) × (result ≤ length notes.now.items) }
    ensures below { (k : ℕ) (n : Note) → slice_get notes.now.items k ≡ Some n → k < result → n.ticket < ticket }
    ensures above { (k : ℕ) (n : Note) → slice_get notes.now.items k ≡ Some n → result ≤ k → ticket ≤ n.ticket }
{
    notes.partition_point(|note| note.ticket < ticket)
}

/// Whether the note at this place is of the ticket.
fn is_at(notes: &VecDeque<Note>, at: usize, ticket: u64) -> bool
    ensures there { IsTrue result → (at < deque_len notes.now) × (at < length notes.now.items)
        × ((n : Note) → slice_get notes.now.items at ≡ Some n → n.ticket ≡ ticket) }
    ensures other { (n : Note) → slice_get notes.now.items at ≡ Some n → n.ticket ≡ ticket → IsTrue result }
{
    match notes.get(at) {
        Some(note) => note.ticket == ticket,
        None => false,
    }
}

/// The place of the ticket.
fn found(notes: &VecDeque<Note>, ticket: u64) -> Option<usize>
    requires { are_rising notes.now.items ≡ true }
    ensures there { IfSome result (λ at. (at < deque_len notes.now) × (at < length notes.now.items)
        × (is_expected ticket (take at notes.now.items) ≡ false) × ((n : Note) → slice_get notes.now.items at ≡ Some n → n.ticket ≡ ticket)) }
    ensures none { result ≡ None → is_expected ticket notes.now.items ≡ false }
{
    let at = place_of(notes, ticket);
    if is_at(notes, at, ticket) {
        return Some(at);
    }
    None
}

/// Puts the ticket in its place, where it isn't there yet.
fn put_in(notes: &mut VecDeque<Note>, ticket: u64)
    requires rising { are_rising notes.old.items ≡ true }
    requires room { deque_len notes.old < deque_capacity notes.old }
    ensures items { notes.new.items ≡ with_ticket ticket notes.old.items }
    ensures len { deque_len notes.new ≤ deque_len notes.old + 1 }
    ensures capacity { deque_capacity notes.old ≤ deque_capacity notes.new }
{
    let at = place_of(notes, ticket);
    if is_at(notes, at, ticket) {
        return;
    }
    notes
        .insert(
            at,
            Note {
                ticket,
                noticed: false,
            },
        )
        .unwrap();
}

/// Marks the ticket, and answers whether it is there.
fn mark_in(notes: &mut VecDeque<Note>, ticket: u64) -> bool
    requires { are_rising notes.old.items ≡ true }
    ensures exact { result ≡ is_expected ticket notes.old.items }
    ensures rising { are_rising notes.new.items ≡ true }
    ensures expected { (u : ℕ) → is_expected u notes.new.items ≡ is_expected u notes.old.items }
    ensures noticed { (u : ℕ) → is_noticed u notes.new.items ≡ (is_noticed u notes.old.items || (ticket == u && is_expected u notes.old.items)) }
    ensures tickets { map ticket_of notes.new.items ≡ map ticket_of notes.old.items }
    ensures len { deque_len notes.new ≡ deque_len notes.old }
    ensures capacity { deque_capacity notes.new ≡ deque_capacity notes.old }
{
    match found(notes, ticket) {
        Some(at) => {
            notes[at] = Note {
                ticket,
                noticed: true,
            };
            true
        }
        None => false,
    }
}

/// Takes the ticket out, where it is there.
fn take_out(notes: &mut VecDeque<Note>, ticket: u64)
    requires { are_rising notes.old.items ≡ true }
    ensures items { notes.new.items ≡ without_ticket ticket notes.old.items }
    ensures capacity { deque_capacity notes.new ≡ deque_capacity notes.old }
{
    let at = place_of(notes, ticket);
    if is_at(notes, at, ticket) {
        notes.remove(at);
    }
}

/// Takes all these tickets out, where they are there.
fn take_all_out(notes: &mut VecDeque<Note>, tickets: &[u64])
    requires { are_rising notes.old.items ≡ true }
    ensures rising { are_rising notes.new.items ≡ true }
    ensures expected { (u : ℕ) → is_expected u notes.new.items ≡ (not (is_among u tickets.now) && is_expected u notes.old.items) }
    ensures noticed { (u : ℕ) → is_noticed u notes.new.items ≡ (not (is_among u tickets.now) && is_noticed u notes.old.items) }
    ensures capacity { deque_capacity notes.new ≡ deque_capacity notes.old }
{
    for ticket in tickets {
        take_out(notes, *ticket);
    }
}
