//! A disk that a bay handed out, of which so much is known as of the bay. All that it does is done by the bay's disk.

use base_types::Block;
use disk_contract::{Bay, Disk, DiskFault};

/// A disk that a bay handed out. It tells where the bay does.
#[derive(Drop)]
pub struct LentDisk<B: Bay> {
    pub(crate) disk: B::D,
}

impl<B: Bay> Disk for LentDisk<B> {
    ghost tells = { B.tells };

    ghost state = { λ lent. B.D.state lent.disk };

    fn lawful(&self) {
        self.disk.lawful();
    }

    fn blocks(&self) -> u32 {
        self.disk.blocks()
    }

    fn moment(&self) -> u64 {
        self.disk.moment()
    }

    fn counts(&self) -> (u64, u64) {
        self.disk.counts()
    }

    fn read(&mut self, b: u32, into: &mut Block) -> Result<(), DiskFault> {
        self.disk.read(b, into)?;
        Ok(())
    }

    fn write(&mut self, b: u32, from: &Block) -> Result<u64, DiskFault> {
        let ticket = self.disk.write(b, from)?;
        Ok(ticket)
    }

    fn poll(&mut self) -> Result<Option<u64>, DiskFault> {
        let ticket = self.disk.poll()?;
        Ok(ticket)
    }

    fn wait(&mut self, ticket: u64) -> Result<(), DiskFault> {
        self.disk.wait(ticket)?;
        Ok(())
    }
}
