//! A pipeline as a mount makes it, what is made ready for the next commit, and what a pipeline tells of itself.
//! How records come, and what becomes of them, isn't said here.

ghost use Rattle.std.specs.Prelude.{◌≡◌, ◌+◌, ◌-◌, ◌==◌, ℕ, List, [], length, OnOk, OnErr};
ghost use Rattle.base_types.specs.Seal.{Blocks};
ghost use Rattle.disk_contract.specs.declared.event.Event.{Event};
ghost use Rattle.disk_contract.specs.Cell.{cell_of};
ghost use Rattle.layout_journal.specs.Ring.{RingPlaces};
ghost use Rattle.crash_argument.specs.Ledger.{Ledger};
ghost use Rattle.crash_argument.specs.Points.{IsMounted, ledger_at_mount};
ghost use Rattle.engine_checkpoint.specs.Advance.{writes_owed};
ghost use Rattle.engine_checkpoint.specs.Agree.{PipelineAgrees, durable_count};
ghost use Rattle.engine_checkpoint.specs.Index.{IndexIsRight};
ghost use Rattle.engine_checkpoint.specs.Kept.{numbers, places_taken};
ghost use Rattle.engine_checkpoint.specs.Order.{IsInOrder, HasRoom, IsFit};
ghost use Rattle.engine_checkpoint.specs.Room.{NoLessRoom, RoomForRecords, RoomForPayloads, RoomForNotes};
ghost use Rattle.engine_checkpoint.specs.Steps.{HasNoRecord, SamePipeline, ready_upto};

use crate::{Newest, Pipeline, Ready};
use base_types::NoMemory;
use crash_argument::{a_mounted_disk_begins, a_mounted_disk_has_its_data, one_write_is_pending};
use engine_notes::Notes;
use layout_geometry::Geom;
use layout_journal::Header;
use std::alloc::Global;
use std::collections::VecDeque;

impl Pipeline {
    /// A pipeline with no record, under this durable header, which stands in this slot and releases all records.
    /// It takes no memory.
    pub fn new(alloc: Global, geom: &Geom, header: &Header, slot: u32) -> Pipeline
        requires { header.now.start ≡ header.now.sure + 1 }
        ensures none { HasNoRecord geom.now header.now slot result }
        ensures order { IsInOrder result }
        ensures room { HasRoom result }
        ensures index { IndexIsRight result }
        ensures taken { places_taken result ≡ 0 }
        ensures owed { writes_owed result ≡ 0 }
        ensures agrees { (base : Blocks) (log : List Event) (ring : RingPlaces) → IsMounted (cell_of base log) geom.now slot header.now
            → ring ≡ record { geom = geom.now; next = header.now.at; taken = 0 }
            → PipelineAgrees base log (ledger_at_mount (cell_of base log) geom.now slot header.now) result ring [] [] }
    {
        a_mounted_disk_begins();
        a_mounted_disk_has_its_data();
        one_write_is_pending();
        Pipeline {
            geom: *geom,
            header: *header,
            slot,
            next: None,
            written: *header,
            notes: Notes::new(alloc),
            placed: VecDeque::new(alloc),
            sure: VecDeque::new(alloc),
            durable: VecDeque::new(alloc),
            committed: VecDeque::new(alloc),
            last: header.sure,
            batch: 0,
            home: Vec::new(alloc),
            unplaced: 0,
            newest: Newest::new(alloc),
            batch_newest: Newest::new(alloc),
            blocks: Vec::new(alloc),
            ready: Ready {
                records: 0,
                writes: 0,
                payloads: 0,
            },
        }
    }

    /// Makes ready one record of so many writes, fresh blocks and blocks in the ring together, and so many
    /// payloads. Where more is ready it stays so.
    ///
    /// # Errors
    /// No memory was found. What was ready is so still.
    pub fn reserve(&mut self, writes: u32, payloads: u32) -> Result<(), NoMemory>
        requires { IsFit self.old }
        ensures same { SamePipeline self.old self.new }
        ensures ok { OnOk result (self.new.ready ≡ ready_upto writes payloads self.old.ready) }
        ensures err { OnErr result (self.new.ready ≡ self.old.ready) }
        ensures fit { IsFit self.new }
        ensures index { IndexIsRight self.old → IndexIsRight self.new }
        ensures agrees { (base : Blocks) (log : List Event) (l : Ledger) (ring : RingPlaces) (waiting : List (ℕ × ℕ)) (taken : List ℕ)
            → PipelineAgrees base log l self.old ring waiting taken → PipelineAgrees base log l self.new ring waiting taken }
    {
        let ready = ready_upto(&self.ready, writes, payloads);
        self.reserve_states(ready.records)?;
        self.reserve_payloads(ready.payloads)?;
        self.reserve_notes(&ready)?;
        self.ready = ready;
        Ok(())
    }

    /// Makes room for so many records more on their way through the states.
    fn reserve_states(&mut self, records: u32) -> Result<(), NoMemory>
        requires { HasRoom self.old }
        ensures same { SamePipeline self.old self.new }
        ensures ready { self.new.ready ≡ self.old.ready }
        ensures no_less { NoLessRoom self.old self.new }
        ensures room { OnOk result (RoomForRecords records self.new) }
    {
        let committed = records as usize;
        let durable = self.committed.len() + committed;
        let sure = self.durable.len() + durable;
        let placed = self.sure.len() + sure;
        self.placed.reserve(placed)?;
        self.sure.reserve(sure)?;
        self.durable.reserve(durable)?;
        self.committed.reserve(committed)?;
        Ok(())
    }

    /// Makes room for so many payloads more and their checkpoint writes.
    fn reserve_payloads(&mut self, payloads: u32) -> Result<(), NoMemory>
        ensures same { SamePipeline self.old self.new }
        ensures ready { self.new.ready ≡ self.old.ready }
        ensures no_less { NoLessRoom self.old self.new }
        ensures room { OnOk result (RoomForPayloads payloads self.new) }
    {
        let Some(all) = self.unplaced.checked_add(payloads) else {
            return Err(NoMemory);
        };
        self.home.reserve(all as usize)?;
        self.blocks.reserve(all as usize)?;
        self.batch_newest.reserve(all)?;
        self.newest.reserve(payloads)?;
        Ok(())
    }

    /// Makes room for the notes of all that is to come with this made ready.
    fn reserve_notes(&mut self, ready: &Ready) -> Result<(), NoMemory>
        ensures same { SamePipeline self.old self.new }
        ensures ready { self.new.ready ≡ self.old.ready }
        ensures no_less { NoLessRoom self.old self.new }
        ensures room { OnOk result (RoomForNotes ready.now self.new) }
    {
        let all = self.unplaced as u64 + ready.payloads as u64 + ready.writes as u64 + 1;
        let Ok(count) = u32::try_from(all) else {
            return Err(NoMemory);
        };
        self.notes.reserve(count)
    }

    /// Whether no record is left: each one is released.
    pub fn is_empty(&self) -> bool
        ensures { result ≡ (length (numbers self.now) == 0) }
    {
        if !self.placed.is_empty() {
            return false;
        }
        if !self.sure.is_empty() {
            return false;
        }
        if !self.durable.is_empty() {
            return false;
        }
        self.committed.is_empty()
    }

    /// The number of the last record that is known to be durable.
    pub fn durable(&self) -> u64
        requires order { IsInOrder self.now }
        ensures { result ≡ self.now.header.start + durable_count self.now - 1 }
    {
        self.header.sure + self.durable.len() as u64
    }

    /// The turn of the header that was written last.
    pub fn turn(&self) -> u64
        ensures { result ≡ self.now.written.turn }
    {
        self.written.turn
    }
}

/// What is ready once a record of so many writes and payloads is made ready.
fn ready_upto(ready: &Ready, writes: u32, payloads: u32) -> Ready
    ensures { result ≡ ready_upto writes payloads ready.now }
{
    Ready {
        records: ready.records.max(1),
        writes: ready.writes.max(writes),
        payloads: ready.payloads.max(payloads),
    }
}
