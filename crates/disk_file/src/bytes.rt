//! The bytes of an image: those of its file, or of a copy in memory that leaves the file as it is. Nothing here is in a
//! contract but how many blocks there are. What counts as durable is in the module of the disk.

ghost use Rattle.std.specs.Prelude.{◌≡◌};

use crate::copy::ImageCopy;
use crate::device::bytes_in;
use crate::fault::Refused;
use crate::opening::LockedFile;
use base_types::Block;
use std::alloc::Global;
use std::fs::File;
use std::io::{self, ErrorKind};
use std::os::unix::fs::FileExt;

/// The bytes of a block.
pub(crate) const BLOCK: u64 = 1024;

/// How many bytes so many blocks have, which is where the block of this number begins.
pub(crate) fn length_of(blocks: u32) -> u64 {
    u64::from(blocks) * BLOCK
}

/// The blocks of an image.
#[derive(Drop)]
pub(crate) struct ImageBytes {
    pub(crate) blocks: u32,
    place: Place,
}

/// Where they are.
#[derive(Drop)]
enum Place {
    File(LockedFile),
    Memory(ImageCopy),
}

impl ImageBytes {
    /// So many blocks at the beginning of a file.
    pub(crate) fn new(file: LockedFile, blocks: u32) -> ImageBytes
        ensures { result.blocks ≡ blocks }
    {
        ImageBytes {
            blocks,
            place: Place::File(file),
        }
    }

    /// The whole blocks of a file.
    ///
    /// # Errors
    /// What the system said; or that there are 2^32 or more.
    pub(crate) fn of_file(file: LockedFile) -> io::Result<ImageBytes> {
        let blocks = whole_blocks(&file.file)?;
        Ok(ImageBytes::new(file, blocks))
    }

    /// A copy of the whole blocks of a file.
    ///
    /// # Errors
    /// As `of_file`; or that there is no memory.
    pub(crate) fn copied(alloc: Global, file: &File) -> io::Result<ImageBytes> {
        let blocks = whole_blocks(file)?;
        Ok(ImageBytes {
            blocks,
            place: Place::Memory(ImageCopy::of_file(alloc, file, blocks)?),
        })
    }

    /// The file, where the blocks are in one.
    pub(crate) fn file(&self) -> Option<&File> {
        match &self.place {
            Place::File(locked) => Some(&locked.file),
            Place::Memory(_) => None,
        }
    }

    /// Reads a block.
    ///
    /// # Errors
    /// What the system said.
    pub(crate) fn read(&self, b: u32, into: &mut Block) -> io::Result<()> {
        match &self.place {
            Place::File(locked) => locked.file.read_exact_at(into.as_mut_slice(), length_of(b)),
            Place::Memory(copy) => {
                *into = *copy.read(b);
                Ok(())
            }
        }
    }

    /// Writes a block.
    ///
    /// # Errors
    /// What the system said. Before the last block is written, by which a file that was cut short would have its length
    /// again, that it was.
    pub(crate) fn write(&mut self, b: u32, from: &Block) -> io::Result<()>
        ensures { self.new.blocks ≡ self.old.blocks }
    {
        let is_last = b >= self.blocks.saturating_sub(1);
        match &mut self.place {
            Place::File(locked) => {
                if is_last {
                    check_length(&locked.file, self.blocks)?;
                }
                locked.file.write_all_at(from.as_slice(), length_of(b))
            }
            Place::Memory(copy) => {
                copy.write(b, from)?;
                Ok(())
            }
        }
    }

    /// Makes durable all that was written.
    ///
    /// # Errors
    /// What the system said, or that the file was cut short.
    pub(crate) fn sync(&self) -> Result<(), Refused> {
        let Place::File(locked) = &self.place else {
            return Ok(());
        };
        if let Err(why) = locked.file.sync_data() {
            return Err(Refused::Sync(why));
        }
        match check_length(&locked.file, self.blocks) {
            Ok(()) => Ok(()),
            Err(why) => Err(Refused::Call(why)),
        }
    }
}

// How many whole blocks a file or a device has.
fn whole_blocks(file: &File) -> io::Result<u32> {
    match u32::try_from(bytes_in(file)? / BLOCK) {
        Ok(blocks) => Ok(blocks),
        Err(_) => Err(io::Error::from(ErrorKind::FileTooLarge)),
    }
}

// Looks whether a file still has so many blocks.
fn check_length(file: &File, blocks: u32) -> io::Result<()> {
    if bytes_in(file)? < length_of(blocks) {
        let words = "It was cut short while it was in use";
        return Err(io::Error::new(ErrorKind::UnexpectedEof, words));
    }
    Ok(())
}
