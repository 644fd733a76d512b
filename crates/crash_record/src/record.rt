//! A record of the journal as a search finds it, and lists of records, which contracts see as the
//! definitions' own. Whether a record is whole is for the search to say.

ghost use Rattle.std.specs.Prelude.{◌≡◌, ◌<◌, ◌+◌, ◌%◌, ◌^◌, ◌==◌, ◌++◌, [], ◌∷◌, ◌≤◌, length, take, drop, IfOk, OnOk};
ghost use Rattle.layout_journal.specs.Run.{heads, places};

use base_types::NoMemory;
use layout_geometry::Geom;
use layout_journal::{Entry, MOST_ENTRIES};
use std::alloc::Global;
use std::marker::Model;

/// A record of the journal: its number, the ring place at which it begins, and its entries.
#[derive(Drop)]
pub struct Record {
    number: u64,
    place: u32,
    payloads: Vec<Entry>,
    fresh: Vec<Entry>,
}

impl Model for Record {
    ghost use Rattle.layout_journal.specs.Run as journal;

    ghost Value = { journal.Record };

    ghost view = { λ r. record { number = r.number; place = r.place; payloads = r.payloads.items; fresh = r.fresh.items } };
}

impl Record {
    /// The record with this number at this ring place. Of its entries, the first so many are of payloads,
    /// and the others of fresh blocks.
    ///
    /// # Errors
    /// Out of memory.
    pub fn new(
        number: u64,
        place: u32,
        entries: Vec<Entry>,
        payloads: usize,
    ) -> Result<Record, NoMemory>
        requires { payloads ≤ length entries.items }
        ensures { IfOk result (λ made. made ≡ record
            { number = number; place = place; payloads = take payloads entries.items; fresh = drop payloads entries.items }) }
    {
        let mut payload_entries = entries;
        let fresh = payload_entries.split_off(payloads)?;
        Ok(Record {
            number,
            place,
            payloads: payload_entries,
            fresh,
        })
    }

    /// Its number.
    pub fn number(&self) -> u64
        ensures { result ≡ self.now.number }
    {
        self.number
    }

    /// The ring place at which its commit block stands.
    pub fn place(&self) -> u32
        ensures { result ≡ self.now.place }
    {
        self.place
    }

    /// The entries whose bytes are in the journal.
    pub fn payloads(&self) -> &[Entry]
        ensures { result.now ≡ self.now.payloads }
    {
        self.payloads.as_slice()
    }

    /// The entries whose bytes are in their own blocks.
    pub fn fresh(&self) -> &[Entry]
        ensures { result.now ≡ self.now.fresh }
    {
        self.fresh.as_slice()
    }

    /// How many ring places its commit block and descriptors take.
    pub fn heads(&self) -> usize
        ensures value { result ≡ heads self.now }
        ensures room { result + length self.now.payloads < 2 ^ 63 + 2 ^ 60 }
    {
        1 + (self.payloads.len() + self.fresh.len()).div_ceil(MOST_ENTRIES)
    }

    /// How many ring places it takes.
    pub fn places(&self) -> usize
        ensures { result ≡ places self.now }
    {
        self.heads() + self.payloads.len()
    }

    /// The ring place behind it.
    pub fn place_after(&self, geom: Geom) -> u32
        ensures { result ≡ (self.now.place + places self.now) % geom.j }
    {
        geom.lawful();
        ((self.place as usize + self.places()) % geom.j() as usize) as u32
    }
}

/// Equal records have the same number, place and entries.
impl PartialEq for Record {
    ghost use Rattle.std.specs.Prelude.{◌==◌};
    ghost use Rattle.std.specs.Ordering.{on, eq_of_both};
    ghost use Rattle.std.specs.Cmp.{partial_equiv_from_equiv, and_equiv, on_equiv, nat_eq_equiv};
    ghost use Rattle.std.specs.Cmp.Lexicographic.{pointwise, lists_equiv};
    ghost use Rattle.layout_journal.specs.contracts.entry.EntryPartialEq.TheImpl as entry;
    ghost use Rattle.layout_journal.specs.contracts.entry.EntryEq.TheImpl.Laws as entry_laws;

    ghost eq = { eq_of_both (eq_of_both (eq_of_both (on (λ r. r.number) ◌==◌) (on (λ r. r.place) ◌==◌))
        (on (λ r. r.payloads) (pointwise entry.ghosts.eq))) (on (λ r. r.fresh) (pointwise entry.ghosts.eq)) };

    ghost laws = { partial_equiv_from_equiv (and_equiv
        (and_equiv (and_equiv (on_equiv (λ r. r.number) nat_eq_equiv) (on_equiv (λ r. r.place) nat_eq_equiv))
        (on_equiv (λ r. r.payloads) (lists_equiv entry_laws.laws-law))) (on_equiv (λ r. r.fresh) (lists_equiv entry_laws.laws-law))) };

    fn eq(&self, other: &Record) -> bool {
        self.number == other.number
            && self.place == other.place
            && self.payloads.as_slice() == other.payloads.as_slice()
            && self.fresh.as_slice() == other.fresh.as_slice()
    }
}

impl Eq for Record {
    ghost use Rattle.std.specs.Cmp.{and_equiv, on_equiv, nat_eq_equiv};
    ghost use Rattle.std.specs.Cmp.Lexicographic.{lists_equiv};
    ghost use Rattle.layout_journal.specs.contracts.entry.EntryEq.TheImpl.Laws as entry_laws;

    ghost laws = { and_equiv (and_equiv (and_equiv (on_equiv (λ r. r.number) nat_eq_equiv) (on_equiv (λ r. r.place) nat_eq_equiv))
        (on_equiv (λ r. r.payloads) (lists_equiv entry_laws.laws-law))) (on_equiv (λ r. r.fresh) (lists_equiv entry_laws.laws-law)) };
}

/// Records in the order of their numbers.
#[derive(Drop)]
pub struct RecordList {
    records: Vec<Record>,
}

impl Model for RecordList {
    ghost use Rattle.std.specs.Prelude.{List};
    ghost use Rattle.layout_journal.specs.Run as journal;

    ghost Value = { List journal.Record };

    ghost view = { λ r. r.records.items };
}

impl RecordList {
    /// No records. This takes no memory.
    pub fn new(alloc: Global) -> RecordList
        ensures { result ≡ [] }
    {
        RecordList {
            records: Vec::new(alloc),
        }
    }

    /// Adds a record at the end.
    ///
    /// # Errors
    /// Out of memory.
    pub fn push(&mut self, added: Record) -> Result<(), NoMemory>
        ensures { OnOk result (self.new ≡ self.old ++ added ∷ []) }
    {
        self.records.push(added)?;
        Ok(())
    }

    /// The records in order.
    pub fn as_slice(&self) -> &[Record]
        ensures { result.now ≡ self.now }
    {
        self.records.as_slice()
    }

    /// How many records.
    pub fn len(&self) -> usize
        ensures { result ≡ length self.now }
    {
        self.records.len()
    }

    /// Whether there are none.
    pub fn is_empty(&self) -> bool
        ensures { result ≡ (length self.now == 0) }
    {
        self.records.is_empty()
    }
}

/// Equal lists have the same records.
impl PartialEq for RecordList {
    ghost use Rattle.std.specs.Cmp.{partial_equiv_from_equiv};
    ghost use Rattle.std.specs.Cmp.Lexicographic.{pointwise, lists_equiv};
    ghost use Rattle.crash_record.specs.contracts.record.RecordPartialEq.TheImpl as one;
    ghost use Rattle.crash_record.specs.contracts.record.RecordEq.TheImpl.Laws as one_laws;

    ghost eq = { λ left right. pointwise one.ghosts.eq left right };

    ghost laws = { partial_equiv_from_equiv (lists_equiv one_laws.laws-law) };

    fn eq(&self, other: &RecordList) -> bool {
        self.records.as_slice() == other.records.as_slice()
    }
}

impl Eq for RecordList {
    ghost use Rattle.std.specs.Cmp.Lexicographic.{lists_equiv};
    ghost use Rattle.crash_record.specs.contracts.record.RecordEq.TheImpl.Laws as one_laws;

    ghost laws = { lists_equiv one_laws.laws-law };
}
