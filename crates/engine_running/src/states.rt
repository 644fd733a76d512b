//! What becomes of a committed transaction: durable, sure, placed, released, in this order. Each step uses
//! the state up and tests its condition; where the condition isn't met the state comes back as it was.
//! A ticket is open while the notes expect it and its notice hasn't come; one that they dropped isn't open.
//! What the conditions mean for a crash isn't said here.

ghost use Rattle.std.specs.Prelude.{◌≡◌, ◌<◌, ◌≤◌, ◌&&◌, nat_le, nat_lt, is_ok, IfOk, IfErr, OnOk};
ghost use Rattle.engine_notes.specs.Notes.{none_open};
ghost use Rattle.engine_running.specs.States.{IsDurableOf, Forgets, IsSureOf, IsPlacedOf, IsReleasedOf};

use crate::{Committed, Put};
use engine_notes::Notes;

/// None of the record's tickets is open.
#[derive(Drop)]
pub struct Durable {
    pub number: u64,
    pub place: u32,
    pub count: u32,
    pub payloads: Vec<Put>,
    pub fresh: Vec<u32>,
    pub freed: Vec<u32>,
}

/// A durable header says that the record is durable.
#[derive(Drop)]
pub struct Sure {
    pub number: u64,
    pub place: u32,
    pub count: u32,
    pub payloads: Vec<Put>,
    pub fresh: Vec<u32>,
    pub freed: Vec<u32>,
}

/// The record's payloads are at their blocks.
#[derive(Drop)]
pub struct Placed {
    pub number: u64,
    pub place: u32,
    pub count: u32,
}

/// A durable header starts past the record.
#[derive(Drop)]
pub struct Released {
    pub place: u32,
    pub count: u32,
}

impl Committed {
    /// The durable state, where none of its tickets is open.
    ///
    /// # Errors
    /// A ticket is open.
    pub fn settled(self, notes: &Notes) -> Result<Durable, Committed>
        ensures exact { is_ok result ≡ none_open self.tickets.items notes.now.notes }
        ensures ok { IfOk result (IsDurableOf self) }
        ensures back { IfErr result (λ tx. tx ≡ self) }
    {
        if !notes.none_open(self.tickets.as_slice()) {
            return Err(self);
        }
        Ok(self.without_tickets())
    }

    /// The durable state, where none of its tickets is open, as by `settled`. The notes expect them no longer
    /// then: what they needed is free for others.
    ///
    /// # Errors
    /// A ticket is open. The notes are as they were.
    pub fn settled_for_good(self, notes: &mut Notes) -> Result<Durable, Committed>
        ensures exact { is_ok result ≡ none_open self.tickets.items notes.old.notes }
        ensures ok { IfOk result (IsDurableOf self) }
        ensures back { IfErr result (λ tx. (tx ≡ self) × (notes.new ≡ notes.old)) }
        ensures forgets { OnOk result (Forgets self.tickets.items notes.old notes.new) }
    {
        if notes.none_open(self.tickets.as_slice()) {
            notes.forget(self.tickets.as_slice());
            return Ok(self.without_tickets());
        }
        Err(self)
    }

    fn without_tickets(self) -> Durable
        ensures { IsDurableOf self result }
    {
        let Committed {
            number,
            place,
            count,
            tickets: _,
            payloads,
            fresh,
            freed,
        } = self;
        Durable {
            number,
            place,
            count,
            payloads,
            fresh,
            freed,
        }
    }
}

impl Durable {
    /// The sure state, where a header's `sure` reaches the record.
    ///
    /// # Errors
    /// It doesn't.
    pub fn sured(self, sure: u64) -> Result<Sure, Durable>
        ensures exact { is_ok result ≡ nat_le self.number sure }
        ensures ok { IfOk result (IsSureOf self) }
        ensures back { IfErr result (λ tx. tx ≡ self) }
    {
        if sure < self.number {
            return Err(self);
        }
        let Durable {
            number,
            place,
            count,
            payloads,
            fresh,
            freed,
        } = self;
        Ok(Sure {
            number,
            place,
            count,
            payloads,
            fresh,
            freed,
        })
    }
}

impl Sure {
    /// The placed state, where none of the checkpoint writes of its batch is open.
    ///
    /// # Errors
    /// One is open.
    pub fn placed(self, notes: &Notes, home: &[u64]) -> Result<Placed, Sure>
        ensures exact { is_ok result ≡ none_open home.now notes.now.notes }
        ensures ok { IfOk result (IsPlacedOf self) }
        ensures back { IfErr result (λ tx. tx ≡ self) }
    {
        if !notes.none_open(home) {
            return Err(self);
        }
        Ok(Placed {
            number: self.number,
            place: self.place,
            count: self.count,
        })
    }
}

impl Placed {
    /// The released state, where a header's `start` is past the record.
    ///
    /// # Errors
    /// It isn't.
    pub fn released(self, start: u64) -> Result<Released, Placed>
        ensures exact { is_ok result ≡ nat_lt self.number start }
        ensures ok { IfOk result (IsReleasedOf self) }
        ensures back { IfErr result (λ tx. tx ≡ self) }
    {
        if start <= self.number {
            return Err(self);
        }
        Ok(Released {
            place: self.place,
            count: self.count,
        })
    }
}
