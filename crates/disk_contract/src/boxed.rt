//! The bytes of a block in a box of their own, so that an event without bytes takes no room for them.

ghost use Rattle.std.specs.Prelude.{◌≡◌, ◌<◌, ℕ, length, slice_index_or, IfOk};
ghost use Rattle.disk_contract.specs.Lawful.{IsBlock};

use base_types::{Block, NoMemory};
use std::alloc::{AllocError, Global};
use std::marker::Model;

/// The bytes of a block, in a box. Contracts see the bytes.
#[derive(Drop)]
pub struct BoxedBlock {
    bytes: Box<Block>,
}

impl Model for BoxedBlock {
    ghost use Rattle.std.specs.Prelude.{ℕ, List, length, ◌≡◌};

    ghost Value = { List ℕ };

    ghost view = { λ b. b.bytes.value };

    ghost invariant = { λ b. length b.bytes.value ≡ 1024 };
}

impl BoxedBlock {
    /// A box with these bytes.
    ///
    /// # Errors
    /// Out of memory.
    pub fn new(alloc: Global, bytes: &Block) -> Result<BoxedBlock, NoMemory>
        ensures { IfOk result (λ boxed. boxed ≡ bytes.now) }
    {
        let bytes = Box::new(alloc, *bytes)?;
        Ok(BoxedBlock { bytes })
    }

    /// Does nothing. A proof learns from the call that these are the bytes of a block.
    pub fn lawful(&self)
        ensures { IsBlock self.now }
    {
        a_block_has_its_bytes(self.bytes());
    }

    /// The bytes.
    pub fn bytes(&self) -> &Block
        ensures bytes { result.now ≡ self.now }
        ensures size { length result.now ≡ 1024 }
    {
        &*self.bytes
    }

    /// Puts these bytes in place of those that it has. It takes no memory.
    pub fn set(&mut self, bytes: &Block)
        ensures { self.new ≡ bytes.now }
    {
        *self.bytes = *bytes;
    }
}

/// Does nothing. A proof learns from the call that a block has 1,024 numbers below 256.
pub fn a_block_has_its_bytes(bytes: &Block)
    ensures { IsBlock bytes.now }
{
    byte_ranges(bytes.as_slice());
}

// Each byte is below 256.
fn byte_ranges(bytes: &[u8])
    ensures { (i : ℕ) → slice_index_or bytes.now i 0 < 256 }
{}

/// A clone has the same bytes, in a box of its own.
impl Clone for BoxedBlock {
    ghost use Rattle.std.specs.Prelude.{◌≡◌};

    ghost is_clone = { λ block clone. clone ≡ block };

    fn clone(&self) -> Result<BoxedBlock, AllocError> {
        let bytes = Box::new(*Box::allocator(&self.bytes), *self.bytes)?;
        Ok(BoxedBlock { bytes })
    }
}
