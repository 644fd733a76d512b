//! What a bay in memory holds under one name: an image, and the disk that was handed back last. The image has
//! all its bytes, those of zeros too, so that the bytes of a disk can take their place without memory.

ghost use Rattle.std.specs.Prelude.{◌≡◌, ◌<◌, ◌^◌, length, option_map, IfOk, Some};
ghost use Rattle.disk_contract.specs.Bay.{IsLeftBy};
ghost use Rattle.disk_memory.specs.MemDisk.{state_of};
ghost use Rattle.disk_memory_bay.specs.Shelves.{of_image, IsSoundHeld};

use crate::BayDisk;
use base_types::{Block, NoMemory};
use disk_contract::Mark;
use disk_memory::{Image, MemDisk};
use std::alloc::Global;
use std::marker::Model;

/// An image, and the disk that was handed back last with its marks.
#[derive(Drop)]
pub(crate) struct Held {
    image: Vec<Block>,
    last: Option<MemDisk>,
    marks: Vec<Mark>,
}

impl Model for Held {
    ghost use Rattle.disk_memory_bay.specs.Shelves.{HeldState, IsSoundHeld};

    ghost Value = { HeldState };

    ghost view = { λ h. record { image = h.image.items; last = h.last; marks = h.marks.items } };

    ghost invariant = { λ h. IsSoundHeld (record { image = h.image.items; last = h.last; marks = h.marks.items }) };
}

impl Held {
    /// The blocks of this image, of which no disk was made yet.
    ///
    /// # Errors
    /// Out of memory.
    pub(crate) fn of_image(alloc: Global, image: &Image) -> Result<Held, NoMemory>
        ensures { IfOk result (λ held. held ≡ of_image image.now) }
    {
        image.lawful();
        let blocks = image.to_blocks(alloc)?;
        Ok(Held {
            image: blocks,
            last: None,
            marks: Vec::new(alloc),
        })
    }

    /// What a disk leaves that is handed back with these marks. It takes no memory.
    pub(crate) fn left_by(disk: BayDisk, marks: Vec<Mark>) -> Held
        ensures disk { result.last ≡ Some disk }
        ensures image { IsLeftBy (state_of disk) result.image }
        ensures marks { result.marks ≡ marks.items }
    {
        let (disk, contents) = disk.into_parts();
        Held {
            image: contents,
            last: Some(disk),
            marks,
        }
    }

    /// Does nothing. A proof learns from the call that what is held is sound.
    pub(crate) fn lawful(&self)
        ensures { IsSoundHeld self.now }
    {
        let _ = &self.image;
    }

    /// The blocks of the image.
    pub(crate) fn blocks(&self) -> &[Block]
        ensures { result.now ≡ self.now.image }
    {
        self.image.as_slice()
    }

    /// The image once more.
    ///
    /// # Errors
    /// Out of memory.
    pub(crate) fn image(&self, alloc: Global) -> Result<Image, NoMemory>
        ensures { IfOk result (λ image. image ≡ self.now.image) }
    {
        image_of(alloc, self.image.as_slice())
    }

    /// The disk that was handed back last, where one was.
    pub(crate) fn last(&self) -> Option<&MemDisk>
        ensures { option_map (λ disk. disk.now) result ≡ self.now.last }
    {
        self.last.as_ref()
    }

    /// The marks that came with the disk that was handed back last.
    pub(crate) fn marks(&self) -> &[Mark]
        ensures { result.now ≡ self.now.marks }
    {
        self.marks.as_slice()
    }
}

// The image of these blocks.
fn image_of(alloc: Global, blocks: &[Block]) -> Result<Image, NoMemory>
    requires { length blocks.now < 2 ^ 32 }
    ensures { IfOk result (λ image. image ≡ blocks.now) }
{
    let mut image = Image::zeros(alloc, blocks.len() as u32)?;
    for b in 0..image.blocks() {
        image.set(alloc, b, &blocks[b as usize])?;
    }
    Ok(image)
}
