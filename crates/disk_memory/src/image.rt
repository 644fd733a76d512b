//! The blocks of a whole disk in memory, as one list. It has no events and no faults. How a block of zeros
//! is kept isn't its matter.

ghost use Rattle.std.specs.Prelude.{◌≡◌, ◌<◌, length, slice_set, option_map, IfOk, OnOk, OnErr};
ghost use Rattle.std.specs.List.{slice_get};
ghost use Rattle.base_types.specs.Seal.{blocks_of};
ghost use Rattle.disk_contract.specs.Bay.{zero_blocks};
ghost use Rattle.disk_memory.specs.Image.{AreBlocks};

use crate::image_block::ImageBlock;
use base_types::{Block, NoMemory};
use std::alloc::Global;
use std::marker::Model;

/// A list of blocks, which contracts see as that list. Of blocks of zeros it keeps no bytes.
#[derive(Drop)]
pub struct Image {
    blocks: Vec<ImageBlock>,
}

impl Model for Image {
    ghost use Rattle.std.specs.Prelude.{ℕ, List};
    ghost use Rattle.disk_memory.specs.Image.{AreBlocks};

    ghost Value = { List (List ℕ) };

    ghost view = { λ i. i.blocks.items };

    ghost invariant = { λ i. AreBlocks i.blocks.items };
}

impl Image {
    /// So many blocks of zeros.
    ///
    /// # Errors
    /// Out of memory.
    pub fn zeros(alloc: Global, n: u32) -> Result<Image, NoMemory>
        ensures { IfOk result (λ image. image ≡ zero_blocks n) }
    {
        let mut blocks = Vec::with_capacity(alloc, n as usize)?;
        while blocks.len() < n as usize {
            blocks.push(ImageBlock::zeros()).unwrap();
        }
        Ok(Image { blocks })
    }

    /// The same blocks once more.
    ///
    /// # Errors
    /// Out of memory.
    pub fn copy(&self, alloc: Global) -> Result<Image, NoMemory>
        ensures { IfOk result (λ image. image ≡ self.now) }
    {
        let mut blocks = Vec::with_capacity(alloc, self.blocks.len())?;
        blocks.extend_with_clones(self.blocks.as_slice())?;
        Ok(Image { blocks })
    }

    /// The number of blocks.
    pub fn blocks(&self) -> u32
        ensures { result ≡ length self.now }
    {
        self.blocks.len() as u32
    }

    /// Block `b`, which there must be.
    pub fn block(&self, b: u32) -> &Block
        requires { b < length self.now }
        ensures bytes { result.now ≡ blocks_of self.now b }
        ensures size { length result.now ≡ 1024 }
    {
        let block = &self.blocks[b as usize];
        block.bytes()
    }

    /// Block `b`, where there is one.
    pub fn get(&self, b: u32) -> Option<&Block>
        ensures { option_map (λ block. block.now) result ≡ slice_get self.now b }
    {
        let block = self.blocks.get(b as usize)?;
        Some(block.bytes())
    }

    /// Makes these the bytes of block `b`, which there must be. The other blocks stay. It takes memory only
    /// where the block has zeros.
    ///
    /// # Errors
    /// Out of memory, and the image stays as it was.
    pub fn set(&mut self, alloc: Global, b: u32, from: &Block) -> Result<(), NoMemory>
        requires { b < length self.old }
        ensures done { OnOk result (self.new ≡ slice_set self.old b from.now) }
        ensures same { OnErr result (self.new ≡ self.old) }
    {
        self.blocks[b as usize].set(alloc, from)?;
        Ok(())
    }

    /// The bytes of all blocks in order, those of zeros too.
    ///
    /// # Errors
    /// Out of memory.
    pub fn to_blocks(&self, alloc: Global) -> Result<Vec<Block>, NoMemory>
        ensures { IfOk result (λ blocks. blocks.items ≡ self.now) }
    {
        let mut blocks = Vec::with_capacity(alloc, self.blocks.len())?;
        for block in &self.blocks {
            blocks.push(*block.bytes()).unwrap();
        }
        Ok(blocks)
    }

    /// Does nothing. A proof learns from the call that there are fewer than 2^32 blocks, each with the bytes
    /// of a block.
    pub fn lawful(&self)
        ensures { AreBlocks self.now }
    {
        let _ = &self.blocks;
    }
}

/// Equal images have the same blocks.
impl PartialEq for Image {
    ghost use Rattle.std.specs.Prelude.{bytes_eq};
    ghost use Rattle.std.specs.Cmp.{partial_equiv_from_equiv};
    ghost use Rattle.std.specs.Cmp.Lexicographic.{pointwise, lists_equiv, nat_list_eq_equiv};

    ghost eq = { λ left right. pointwise bytes_eq left right };

    ghost laws = { partial_equiv_from_equiv (lists_equiv nat_list_eq_equiv) };

    fn eq(&self, other: &Image) -> bool {
        self.blocks.as_slice() == other.blocks.as_slice()
    }
}

impl Eq for Image {
    ghost use Rattle.std.specs.Cmp.Lexicographic.{lists_equiv, nat_list_eq_equiv};

    ghost laws = { lists_equiv nat_list_eq_equiv };
}
