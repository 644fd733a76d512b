//! What is found on a disk: its newest header, and the recoverable run under it.

ghost use Rattle.std.specs.Prelude.{◌≡◌, ◌≤◌, ◌+◌, ◌<◌, ℕ, length, IfOk, IfErr, None, false};
ghost use Rattle.base_types.specs.Seal.{Blocks};
ghost use Rattle.engine_recover.specs.Reading.{Gives, Searches};
ghost use Rattle.engine_recover.specs.Payload.{stored_after};
ghost use Rattle.engine_recover.specs.Search.{last_number, is_spent, IsFound, RefusalSays, find_is_unread};

use crate::newest::newest_header;
use crate::reading::Stop;
use crate::run::recoverable_run;
use crate::stored::{stored_at, stored_by};
use base_types::limits::SPENT_AT_MOUNT;
use crash_record::RecordList;
use disk_contract::Disk;
use layout_journal::{EntryKind, Header};
use std::alloc::Global;
use std::collections::BTreeMap;
use std::error::Error;
use std::fmt;
use std::marker::Model;

/// Why no run was found.
#[derive(Clone, Copy, Debug)]
pub enum RecoverRefusal {
    /// Neither slot has a header.
    NoHeader,
    /// A turn or a number of a record is at its end.
    Spent,
    /// A read failed, which the disk has counted.
    ReadFault,
    /// Out of memory.
    NoMemory,
}

impl fmt::Display for RecoverRefusal {
    fn fmt<W: fmt::Write>(&self, f: &mut fmt::Formatter<W>) -> fmt::Result {
        match self {
            RecoverRefusal::NoHeader => write!(f, "neither block 0 nor block 1 has a header"),
            RecoverRefusal::Spent => write!(f, "the numbers of the journal are used up"),
            RecoverRefusal::ReadFault => write!(f, "a read of the disk failed"),
            RecoverRefusal::NoMemory => write!(f, "out of memory"),
        }
    }
}

impl Error for RecoverRefusal {}

/// What recovery finds on a disk.
#[derive(Drop)]
pub struct Run {
    slot: u32,
    header: Header,
    records: RecordList,
    stored: BTreeMap<u32, (u32, EntryKind)>,
}

impl Model for Run {
    ghost use Rattle.std.specs.Prelude.{◌≡◌, ◌<◌, ℕ, length, false, None};
    ghost use Rattle.engine_recover.specs.Payload.{stored_after};
    ghost use Rattle.std.specs.Ordering.{nat_cmp};
    ghost use Rattle.std.specs.BTreeMap.{get};
    ghost use Rattle.engine_recover.specs.Search.{FoundRun, is_spent};

    ghost Value = { FoundRun };

    ghost view = { λ r. record { slot = r.slot; header = r.header; records = r.records } };

    ghost invariant = { λ r. (0 < r.header.start) × (is_spent r.header (length r.records) ≡ false)
        × ((b : ℕ) → get nat_cmp r.stored b ≡ stored_after r.header.geom None r.records b) };
}

impl Run {
    /// The newest header.
    pub fn header(&self) -> &Header
        ensures { result.now ≡ self.now.header }
    {
        &self.header
    }

    /// The slot of the newest header.
    pub fn slot(&self) -> u32
        ensures { result ≡ self.now.slot }
    {
        self.slot
    }

    /// The number of the run's last record, or the one before its start where it has none.
    pub fn last(&self) -> u64
        ensures { result ≡ last_number self.now.header (length self.now.records) }
    {
        self.header.start - 1 + self.records.len() as u64
    }

    /// Of the run's last payload for block `b`, the journal's block in which it stands, and its kind.
    /// `None` where the run has none, or names the block as fresh after it.
    pub fn payload(&self, b: u32) -> Option<(u32, EntryKind)>
        ensures { result ≡ stored_after self.now.header.geom None self.now.records b }
    {
        stored_at(&self.stored, b)
    }

    /// The records of the run.
    pub fn records(&self) -> &RecordList
        ensures { result.now ≡ self.now.records }
    {
        &self.records
    }
}

/// The newest header of the disk and the run under it. Nothing is written. Memory is taken for the records that are found, and for the entries of one more.
///
/// # Errors
/// Of a disk that tells, and of whose blocks no write is lost, the refusal says what its blocks are:
/// `NoHeader` exactly where neither slot has a header, `Spent` exactly where a number is at its end.
pub fn find_run<D: Disk>(alloc: Global, disk: &mut D) -> Result<Run, RecoverRefusal>
    ensures found { (img : Blocks) → Gives D.tells (D.state disk.old) img → IfOk result (IsFound (D.state disk.old).blocks img) }
    ensures refused { (img : Blocks) → Gives D.tells (D.state disk.old) img → IfErr result (RefusalSays (D.state disk.old).blocks img) }
    ensures going { IfOk result (λ run. is_spent run.header (length run.records) ≡ false) }
    ensures slot { IfOk result (λ run. run.slot < 2) }
    ensures size { IfOk result (λ run. run.header.geom.n ≡ (D.state disk.old).blocks) }
    ensures reads { Searches D.tells (find_is_unread result) (D.state disk.old) (D.state disk.new) }
{
    let newest = match newest_header(disk) {
        Ok(newest) => newest,
        Err(_) => return Err(RecoverRefusal::ReadFault),
    };
    let Some((slot, header)) = newest else {
        return Err(RecoverRefusal::NoHeader);
    };
    header.geom.lawful();
    let records = match recoverable_run(alloc, disk, &header) {
        Ok(records) => records,
        Err(Stop::ReadFault) => return Err(RecoverRefusal::ReadFault),
        Err(Stop::NoMemory) => return Err(RecoverRefusal::NoMemory),
    };
    if is_spent(&header, records.len() as u64) {
        return Err(RecoverRefusal::Spent);
    }
    let stored = match stored_by(alloc, header.geom, records.as_slice()) {
        Ok(stored) => stored,
        Err(_) => return Err(RecoverRefusal::NoMemory),
    };
    Ok(Run {
        slot,
        header,
        records,
        stored,
    })
}

/// Whether a number of the header, or that of the last of so many records, is at its end.
fn is_spent(header: &Header, count: u64) -> bool
    requires start { 0 < header.now.start }
    requires few { count ≤ 4294967296 }
    ensures { result ≡ is_spent header.now count }
{
    if header.turn >= SPENT_AT_MOUNT {
        return true;
    }
    if header.start >= SPENT_AT_MOUNT {
        return true;
    }
    if header.sure >= SPENT_AT_MOUNT {
        return true;
    }
    header.start - 1 + count >= SPENT_AT_MOUNT
}
