//! Digests and seals: what is asked of the bytes of the input and of the blocks of an image, and how a block is sealed by
//! hand. Answers come from outside, since no clause can say that a function is SHA-256.

use crate::images::set_bytes;
use base_types::{Block, NoMemory, digest, is_sealed, seal};
use disk_memory_bay::MemBay;
use sha2::{Digest, Sha256};
use std::alloc::Global;

/// The SHA-256 of these bytes, as digits.
///
/// # Errors
/// Out of memory.
pub(crate) fn sha256_text(alloc: Global, bytes: &[u8]) -> Result<Vec<u8>, NoMemory> {
    digits_of(alloc, &Sha256::digest(bytes))
}

/// The digest of a block of the image under a name, as digits; `None` where it isn't there.
///
/// # Errors
/// Out of memory.
pub(crate) fn digest_text(
    alloc: Global,
    bay: &MemBay,
    name: &str,
    b: u32,
) -> Result<Option<Vec<u8>>, NoMemory> {
    match block_of(bay, name, b) {
        Some(block) => {
            let text = digits_of(alloc, &digest(block))?;
            Ok(Some(text))
        }
        None => Ok(None),
    }
}

/// Whether a block of the image under a name is sealed; `None` where it isn't there.
pub(crate) fn is_sealed_there(bay: &MemBay, name: &str, b: u32) -> Option<bool> {
    let block = block_of(bay, name, b)?;
    Some(is_sealed(block))
}

/// Seals a block of the image under a name. Whether it is there.
///
/// # Errors
/// Out of memory.
pub(crate) fn seal_there(
    alloc: Global,
    bay: &mut MemBay,
    name: &str,
    b: u32,
) -> Result<bool, NoMemory> {
    let mut block = match block_of(bay, name, b) {
        Some(block) => *block,
        None => return Ok(false),
    };
    seal(&mut block);
    set_bytes(alloc, bay, name, (b, 0), block.as_slice())
}

// A block of the image under a name.
fn block_of<'a>(bay: &'a MemBay, name: &str, b: u32) -> Option<&'a Block> {
    let blocks = bay.image(name)?;
    blocks.get(b as usize)
}

// A digest as digits.
fn digits_of(alloc: Global, digest: &[u8; 32]) -> Result<Vec<u8>, NoMemory> {
    let digits = hex::encode(alloc, digest)?;
    let text = Vec::from_slice(alloc, digits.as_bytes())?;
    Ok(text)
}
