//! A block of an image, which takes memory for its bytes only where they aren't zeros. What blocks an image
//! has isn't its matter.

ghost use Rattle.std.specs.Prelude.{◌≡◌, ◌==◌, length, replicate, IfOk, OnOk, OnErr};
ghost use Rattle.std.specs.List.{list_all};
ghost use Rattle.disk_contract.specs.Lawful.{IsBlock};

use base_types::{Block, NoMemory};
use disk_contract::{BoxedBlock, a_block_has_its_bytes};
use std::alloc::{AllocError, Global};
use std::marker::Model;

/// The bytes of a block that has zeros.
static ZEROS: Block = [0; 1024];

/// A block of an image. Contracts see its bytes.
#[derive(Drop)]
pub(crate) struct ImageBlock {
    /// The bytes, in a box of their own, or none where they are zeros.
    boxed: Option<BoxedBlock>,
}

impl Model for ImageBlock {
    ghost use Rattle.std.specs.Prelude.{ℕ, List};
    ghost use Rattle.disk_memory.specs.ImageBlock.{bytes_or_zeros};

    ghost Value = { List ℕ };

    ghost view = { λ b. bytes_or_zeros b.boxed };
}

impl ImageBlock {
    /// A block of zeros. This takes no memory.
    pub(crate) fn zeros() -> ImageBlock
        ensures { result ≡ replicate 1024 0 }
    {
        ImageBlock { boxed: None }
    }

    /// Does nothing. A proof learns from the call that these are the bytes of a block.
    pub(crate) fn lawful(&self)
        ensures { IsBlock self.now }
    {
        a_block_has_its_bytes(self.bytes());
    }

    /// The bytes.
    pub(crate) fn bytes(&self) -> &Block
        ensures bytes { result.now ≡ self.now }
        ensures size { length result.now ≡ 1024 }
    {
        match &self.boxed {
            Some(boxed) => boxed.bytes(),
            None => &ZEROS,
        }
    }

    /// Puts these bytes in place of those that it has. It takes memory where it has zeros, and lets its memory
    /// go where these are zeros.
    ///
    /// # Errors
    /// Out of memory, and the block stays as it was.
    pub(crate) fn set(&mut self, alloc: Global, bytes: &Block) -> Result<(), NoMemory>
        ensures done { OnOk result (self.new ≡ bytes.now) }
        ensures same { OnErr result (self.new ≡ self.old) }
    {
        if are_zeros(bytes) {
            self.boxed = None;
            return Ok(());
        }
        match &mut self.boxed {
            Some(boxed) => boxed.set(bytes),
            None => self.boxed = Some(BoxedBlock::new(alloc, bytes)?),
        }
        Ok(())
    }
}

/// Whether every byte is zero. All bytes are looked at, so that many can be at once.
fn are_zeros(bytes: &Block) -> bool
    ensures { result ≡ list_all (λ b. b == 0) bytes.now }
{
    let mut greatest = 0u8;
    for byte in bytes {
        greatest = greatest.max(*byte);
    }
    greatest == 0
}

/// Equal blocks have the same bytes.
impl PartialEq for ImageBlock {
    ghost use Rattle.std.specs.Prelude.{bytes_eq};
    ghost use Rattle.std.specs.Cmp.{partial_equiv_from_equiv};
    ghost use Rattle.std.specs.Cmp.Lexicographic.{nat_list_eq_equiv};

    ghost eq = { λ left right. bytes_eq left right };

    ghost laws = { partial_equiv_from_equiv nat_list_eq_equiv };

    fn eq(&self, other: &ImageBlock) -> bool {
        self.bytes() == other.bytes()
    }
}

impl Eq for ImageBlock {
    ghost use Rattle.std.specs.Cmp.Lexicographic.{nat_list_eq_equiv};

    ghost laws = { nat_list_eq_equiv };
}

/// A clone has the same bytes, and its own memory for them.
impl Clone for ImageBlock {
    ghost use Rattle.std.specs.Prelude.{◌≡◌};

    ghost is_clone = { λ block clone. clone ≡ block };

    fn clone(&self) -> Result<ImageBlock, AllocError> {
        let boxed = self.boxed.clone()?;
        Ok(ImageBlock { boxed })
    }
}
