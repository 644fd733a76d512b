//! The commit of the running transaction, as one record of the journal. Nothing is waited for.

ghost use Rattle.std.specs.Prelude.{◌≡◌, ◌≤◌, ◌+◌, ℕ, List, length, map, IfOk};
ghost use Rattle.layout_journal.specs.Run.{places};
ghost use Rattle.engine_running.specs.declared.put.Put.{Put};
ghost use Rattle.engine_running.specs.Record.{record_of, block_of};
ghost use Rattle.engine_running.specs.Commits.{Commits, HasRoomForCommit, MayBeCommitted};

use crate::writes::issue_record;
use crate::{Put, Running};
use base_types::NoMemory;
use crash_argument::{
    a_write_to_an_idle_block_is_the_one, blocks_to_be_written_are_idle, one_write_is_pending,
    one_write_stays_pending, records_stand_in_order,
};
use disk_contract::Disk;
use layout_journal::{
    Ring, descriptor_count, entries_that_fit_keep_to_the_disk, journal_blocks_read_back,
    payloads_read_back,
};
use std::alloc::Global;

/// A transaction that is issued as a record: its number, its ring places, the tickets of its writes, its
/// payloads ascending by block, and its fresh and freed blocks.
#[derive(Drop)]
pub struct Committed {
    pub number: u64,
    pub place: u32,
    pub count: u32,
    pub tickets: Vec<u64>,
    pub payloads: Vec<Put>,
    pub fresh: Vec<u32>,
    pub freed: Vec<u32>,
}

/// How many ring places a record of so many payloads and fresh blocks takes.
pub fn places_of(payloads: u32, fresh: u32) -> u32
    requires { payloads + fresh ≤ 2097152 }
    ensures { (number place : ℕ) (paid laid : List Put) → length paid ≡ payloads → length laid ≡ fresh → result ≡ places (record_of number place paid laid) }
{
    1 + descriptor_count(payloads + fresh) + payloads
}

/// The memory of a commit: room for the tickets of its writes, and the numbers of its fresh blocks.
#[derive(Drop)]
pub struct CommitRoom {
    tickets: Vec<u64>,
    fresh: Vec<u32>,
}

/// The numbers of these puts' blocks.
fn numbers_of(alloc: Global, puts: &[Put]) -> Result<Vec<u32>, NoMemory>
    ensures { IfOk result (λ numbers. numbers.items ≡ map block_of puts.now) }
{
    let mut numbers = Vec::new(alloc);
    for put in puts {
        numbers.push(put.block)?;
    }
    Ok(numbers)
}

impl Running {
    /// The memory for a commit of the transaction as it is now.
    ///
    /// # Errors
    /// Out of memory.
    pub fn room_for_commit(&self, alloc: Global) -> Result<CommitRoom, NoMemory>
        requires { length self.now.paid + length self.now.laid ≤ 2097152 }
        ensures { IfOk result (HasRoomForCommit self.now) }
    {
        let laid = self.fresh();
        let count = places_of(self.payloads().len() as u32, laid.len() as u32);
        let tickets = Vec::with_capacity(alloc, laid.len() + count as usize)?;
        let fresh = numbers_of(alloc, laid)?;
        Ok(CommitRoom { tickets, fresh })
    }

    /// Issues the transaction as the record of this number. It takes no memory but this, and no write is
    /// waited for.
    ///
    /// # Errors
    /// A write failed, which the disk has counted. The transaction comes back, and the ring's places stay taken.
    /// What a crash leaves is still one sync point.
    pub fn commit<D: Disk>(
        self,
        room: CommitRoom,
        disk: &mut D,
        ring: &mut Ring,
        epoch: u64,
        number: u64,
    ) -> Result<Committed, Running>
        requires { MayBeCommitted (D.state disk.old).blocks self room ring.old }
        ensures { Commits D.tells self epoch number result ring.old ring.new (D.state disk.old) (D.state disk.new) }
    {
        payloads_read_back();
        journal_blocks_read_back();
        records_stand_in_order();
        one_write_is_pending();
        blocks_to_be_written_are_idle();
        a_write_to_an_idle_block_is_the_one();
        one_write_stays_pending();
        entries_that_fit_keep_to_the_disk();
        ring.lawful();
        let geom = ring.geom();
        geom.lawful();
        let paid = self.payloads();
        let laid = self.fresh();
        let CommitRoom { mut tickets, fresh } = room;
        let count = places_of(paid.len() as u32, laid.len() as u32);
        let place = ring.take(count);
        if issue_record(disk, &geom, epoch, number, place, paid, laid, &mut tickets).is_err() {
            return Err(self);
        }
        Ok(Committed {
            number,
            place,
            count,
            tickets,
            payloads: self.paid,
            fresh,
            freed: self.freed,
        })
    }
}
