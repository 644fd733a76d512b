//! A block of a disk, its digest, and its seal: the last 32 bytes of a sealed block are the digest of
//! the bytes before them. What is in a block is described by the crates of the layout and the journal.

ghost use Rattle.std.specs.Prelude.{◌≡◌, true, take};
ghost use Rattle.base_types.specs.Seal.{sha256, is_sealed};

use sha2::{Digest, Sha256};

/// The bytes of one block. It is passed by reference, since it has 1,024 of them.
pub type Block = [u8; 1024];

/// How many bytes of a sealed block its seal covers.
const BODY: usize = 992;

/// The SHA-256 (FIPS 180-4) of the whole block.
pub fn digest(block: &Block) -> [u8; 32]
    ensures { result ≡ sha256 block.now }
{
    Sha256::digest(block.as_slice())
}

/// Writes the seal into the last 32 bytes.
pub fn seal(block: &mut Block)
    ensures body { take 992 block.new ≡ take 992 block.old }
    ensures sealed { is_sealed block.new ≡ true }
{
    let seal = Sha256::digest(&block[..BODY]);
    block[BODY..].copy_from_slice(seal.as_slice());
}

/// Whether the last 32 bytes are the digest of the bytes before them.
pub fn is_sealed(block: &Block) -> bool
    ensures { result ≡ is_sealed block.now }
{
    let seal = Sha256::digest(&block[..BODY]);
    &block[BODY..] == seal.as_slice()
}
