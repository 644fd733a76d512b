//! Images under the names of the bay: how they are made and changed by hand, and what is asked of them.

use crate::texts::{flat, push_number};
use base_types::limits::BLOCK_LENGTH;
use base_types::{Block, NoMemory};
use cmd_host::formatted_image;
use disk_contract::Disk;
use disk_memory::{Image, Logged, MemDisk};
use disk_memory_bay::MemBay;
use layout_geometry::Geom;
use std::alloc::Global;

/// Puts an image of so many blocks of zeros under a name.
///
/// # Errors
/// Out of memory.
pub(crate) fn put_zeros(
    alloc: Global,
    bay: &mut MemBay,
    name: &str,
    blocks: u32,
) -> Result<(), NoMemory> {
    let image = Image::zeros(alloc, blocks)?;
    bay.put(name, image)
}

/// Puts the image of the formatted disk of this geometry under a name.
///
/// # Errors
/// Out of memory.
pub(crate) fn put_formatted(
    alloc: Global,
    bay: &mut MemBay,
    name: &str,
    geom: &Geom,
) -> Result<(), NoMemory> {
    let image = formatted_image(alloc, geom)?;
    bay.put(name, image)
}

/// Puts bytes into a block of the image under a name, from `offset` on. Whether the image has them.
///
/// # Errors
/// Out of memory.
pub(crate) fn set_bytes(
    alloc: Global,
    bay: &mut MemBay,
    name: &str,
    place: (u32, usize),
    bytes: &[u8],
) -> Result<bool, NoMemory> {
    let Some(image) = image_with(alloc, bay, name, place, bytes)? else {
        return Ok(false);
    };
    bay.put(name, image)?;
    Ok(true)
}

// The image under a name with these bytes in a block of it; `None` where it hasn't such bytes.
fn image_with(
    alloc: Global,
    bay: &MemBay,
    name: &str,
    place: (u32, usize),
    bytes: &[u8],
) -> Result<Option<Image>, NoMemory> {
    let Some(blocks) = bay.image(name) else {
        return Ok(None);
    };
    let (b, offset) = place;
    let Some(old) = blocks.get(b as usize) else {
        return Ok(None);
    };
    let Some(new) = block_with(old, offset, bytes) else {
        return Ok(None);
    };
    let mut image = image_of(alloc, blocks)?;
    if b < image.blocks() {
        image.set(alloc, b, &new)?;
    }
    Ok(Some(image))
}

// The block with these bytes in it, from `offset` on.
fn block_with(old: &Block, offset: usize, bytes: &[u8]) -> Option<Block> {
    if offset > BLOCK_LENGTH || bytes.len() > BLOCK_LENGTH - offset {
        return None;
    }
    let mut block = *old;
    block[offset..offset + bytes.len()].copy_from_slice(bytes);
    Some(block)
}

// The image of these blocks.
fn image_of(alloc: Global, blocks: &[Block]) -> Result<Image, NoMemory> {
    let count = u32::try_from(blocks.len()).map_err(|_| NoMemory)?;
    let mut image = Image::zeros(alloc, count)?;
    for (b, block) in (0..u32::MAX).zip(blocks) {
        if b < image.blocks() {
            image.set(alloc, b, block)?;
        }
    }
    Ok(image)
}

/// How many blocks the image under a name has, or `none`.
///
/// # Errors
/// Out of memory.
pub(crate) fn blocks_text(alloc: Global, bay: &MemBay, name: &str) -> Result<Vec<u8>, NoMemory> {
    let mut text = Vec::new(alloc);
    match bay.image(name) {
        Some(blocks) => push_number(alloc, &mut text, blocks.len() as u64)?,
        None => text.extend_from_slice(b"none")?,
    }
    Ok(text)
}

/// So many bytes of a block of the image under a name, from `offset` on; `None` where it hasn't them.
///
/// # Errors
/// Out of memory.
pub(crate) fn bytes_text(
    alloc: Global,
    bay: &MemBay,
    name: &str,
    place: (u32, usize),
    count: usize,
) -> Result<Option<Vec<u8>>, NoMemory> {
    let Some(blocks) = bay.image(name) else {
        return Ok(None);
    };
    let (b, offset) = place;
    match blocks.get(b as usize) {
        Some(block) => hex_text(alloc, block, offset, count),
        None => Ok(None),
    }
}

// So many bytes of a block, from `offset` on, as digits.
fn hex_text(
    alloc: Global,
    block: &Block,
    offset: usize,
    count: usize,
) -> Result<Option<Vec<u8>>, NoMemory> {
    if offset > BLOCK_LENGTH || count > BLOCK_LENGTH - offset {
        return Ok(None);
    }
    let digits = hex::encode(alloc, &block[offset..offset + count])?;
    let text = flat(alloc, digits.as_bytes())?;
    Ok(Some(text))
}

/// Whether the images under two names have the same blocks; `None` where one of them isn't there.
pub(crate) fn are_equal(bay: &MemBay, one: &str, other: &str) -> Option<bool> {
    let one = bay.image(one)?;
    let other = bay.image(other)?;
    Some(one == other)
}

/// The events of the disk that the bay got back last under a name, as a trace has them but for the bytes of writes.
///
/// # Errors
/// Out of memory.
pub(crate) fn events_text(
    alloc: Global,
    bay: &MemBay,
    name: &str,
) -> Result<Option<Vec<u8>>, NoMemory> {
    let Some(disk) = bay.last_disk(name) else {
        return Ok(None);
    };
    let mut text = Vec::new(alloc);
    for i in 0..disk.moment() {
        push_event(alloc, &mut text, disk, i)?;
    }
    Ok(Some(text))
}

fn push_event(alloc: Global, text: &mut Vec<u8>, disk: &MemDisk, i: u64) -> Result<(), NoMemory> {
    match disk.event(i) {
        Some(Logged::Wrote { ticket, block, .. }) => {
            text.extend_from_slice(b"w ")?;
            push_number(alloc, text, ticket)?;
            text.push(b' ')?;
            push_number(alloc, text, u64::from(block))?;
        }
        Some(Logged::Lost { block, .. }) => {
            text.extend_from_slice(b"f ")?;
            push_number(alloc, text, u64::from(block))?;
        }
        Some(Logged::Noticed { ticket }) => {
            text.extend_from_slice(b"d ")?;
            push_number(alloc, text, ticket)?;
        }
        None => {}
    }
    text.push(b';')?;
    Ok(())
}

/// The marks that came with the disk that the bay got back last under a name: of each its moment, the failed reads and the
/// other failed calls by then. `none` where there are none.
///
/// # Errors
/// Out of memory.
pub(crate) fn marks_text(alloc: Global, bay: &MemBay, name: &str) -> Result<Vec<u8>, NoMemory> {
    let marks = bay.last_marks(name);
    let mut text = Vec::new(alloc);
    if marks.is_empty() {
        text.extend_from_slice(b"none")?;
    }
    for mark in marks {
        push_number(alloc, &mut text, mark.moment)?;
        text.push(b' ')?;
        push_number(alloc, &mut text, mark.read_faults)?;
        text.push(b' ')?;
        push_number(alloc, &mut text, mark.faults)?;
        text.push(b';')?;
    }
    Ok(text)
}
