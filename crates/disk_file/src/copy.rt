//! A copy of an image in memory, for a disk that leaves the file of the image as it is. Blocks of zeros take no room in it.
//! No contract says what is in it.

use crate::bytes::length_of;
use base_types::Block;
use base_types::limits::MOST_BLOCKS;
use std::alloc::{AllocError, Global};
use std::fs::File;
use std::io;
use std::os::unix::fs::FileExt;

/// A block of zeros.
const ZEROS: Block = [0; 1024];

/// How many blocks at the beginning of an image may hold its headers.
const HEADERS: u32 = 2;

/// The blocks of an image, as they were when it was copied and as they were written since.
#[derive(Drop)]
pub(crate) struct ImageCopy {
    /// For each block its place among `others`, counted from 1; or 0 for one of zeros.
    places: Vec<usize>,
    others: Vec<Block>,
}

impl ImageCopy {
    /// A copy of the first blocks of a file. No image has more than `MOST_BLOCKS`: of a file with more only those are read
    /// that could hold a header, in which a mount finds that it is none.
    ///
    /// # Errors
    /// What the system said; or that there is no memory.
    pub(crate) fn of_file(alloc: Global, file: &File, blocks: u32) -> io::Result<ImageCopy> {
        let blocks = if blocks > MOST_BLOCKS {
            HEADERS
        } else {
            blocks
        };
        let mut copy = ImageCopy {
            places: Vec::with_capacity(alloc, blocks as usize)?,
            others: Vec::new(alloc),
        };
        for b in 0..blocks {
            let mut block = ZEROS;
            file.read_exact_at(block.as_mut_slice(), length_of(b))?;
            copy.places.push(0)?;
            if block != ZEROS {
                copy.write(b, &block)?;
            }
        }
        Ok(copy)
    }

    /// The block, or zeros where there is no such block.
    pub(crate) fn read(&self, b: u32) -> &Block {
        match self.places.get(b as usize) {
            Some(place) if *place > 0 => self.others.get(*place - 1).unwrap_or(&ZEROS),
            _ => &ZEROS,
        }
    }

    /// Writes the block, where there is such a block.
    ///
    /// # Errors
    /// Out of memory.
    pub(crate) fn write(&mut self, b: u32, from: &Block) -> Result<(), AllocError> {
        let Some(place) = self.places.get_mut(b as usize) else {
            return Ok(());
        };
        if *place > 0 {
            if let Some(block) = self.others.get_mut(*place - 1) {
                *block = *from;
            }
            return Ok(());
        }
        self.others.push(*from)?;
        *place = self.others.len();
        Ok(())
    }
}
