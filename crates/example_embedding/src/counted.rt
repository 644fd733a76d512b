//! A disk of one's own: it hands each call on to another disk, and counts the writes that this one accepts. What each
//! call of a disk must do is the contract of `Disk`, described in docs/DISK.md.

ghost use Rattle.std.specs.Prelude.{◌≡◌, ◌<◌, IsTrue, OnErr, is_err, is_ok};
ghost use Rattle.base_types.specs.Counts.{after_call};
ghost use Rattle.disk_contract.specs.Disk.{AddsWrite, HasFailed, OnlyWrites};

use base_types::Block;
use disk_contract::{Disk, DiskFault};

/// A disk that counts the writes which another one accepts. It tells what the other one tells.
#[derive(Drop)]
pub struct CountedDisk<D: Disk + Drop> {
    disk: D,
    written: u64,
}

impl<D: Disk + Drop> CountedDisk<D> {
    /// This disk, with no write counted yet.
    pub fn new(disk: D) -> CountedDisk<D>
        ensures disk { result.disk ≡ disk }
        ensures written { result.written ≡ 0 }
    {
        CountedDisk { disk, written: 0 }
    }

    /// How many writes were accepted. The count stops at 2^64 - 1.
    pub fn written(&self) -> u64
        ensures { result ≡ self.now.written }
    {
        self.written
    }

    /// The other disk.
    pub fn into_inner(self) -> D
        ensures { result ≡ self.disk }
    {
        self.disk
    }
}

impl<D: Disk + Drop> Disk for CountedDisk<D> {
    ghost tells = { D.tells };

    ghost state = { λ counted. D.state counted.disk };

    fn lawful(&self) {
        self.disk.lawful();
    }

    fn blocks(&self) -> u32 {
        self.disk.blocks()
    }

    fn moment(&self) -> u64 {
        self.disk.moment()
    }

    fn counts(&self) -> (u64, u64) {
        self.disk.counts()
    }

    fn read(&mut self, b: u32, into: &mut Block) -> Result<(), DiskFault> {
        self.disk.read(b, into)?;
        Ok(())
    }

    fn write(&mut self, b: u32, from: &Block) -> Result<u64, DiskFault>
        requires { b < (D.state self.old.disk).blocks }
        ensures log { IsTrue D.tells → AddsWrite b from.now result (D.state self.old.disk).log (D.state self.new.disk).log }
        ensures spends { OnlyWrites (is_err result) (D.state self.old.disk) (D.state self.new.disk) }
        ensures cause { IsTrue D.tells → OnErr result (HasFailed (D.state self.new.disk)) }
        ensures counted { self.new.written ≡ after_call (is_ok result) self.old.written }
    {
        let ticket = self.disk.write(b, from)?;
        self.written = self.written.saturating_add(1);
        Ok(ticket)
    }

    fn poll(&mut self) -> Result<Option<u64>, DiskFault> {
        let ticket = self.disk.poll()?;
        Ok(ticket)
    }

    fn wait(&mut self, ticket: u64) -> Result<(), DiskFault> {
        self.disk.wait(ticket)?;
        Ok(())
    }
}
