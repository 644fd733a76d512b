//! Reading fields of some bytes: numbers, the lowest byte first, and bytes that must be zeros. Which
//! fields a block has is described by the definitions of its layout.

ghost use Rattle.std.specs.Prelude.{◌≡◌, ◌≤◌, ◌+◌, length};
ghost use Rattle.layout_bytes.specs.Bytes.{field, are_zeros, has_zeros};

use byteorder::{ByteOrder, LittleEndian};

/// The number in the two bytes from `at` on.
pub fn number_2(bytes: &[u8], at: usize) -> u16
    requires { at + 2 ≤ length bytes.now }
    ensures { result ≡ field bytes.now at 2 }
{
    LittleEndian::read_u16(&bytes[at..])
}

/// The number in the four bytes from `at` on.
pub fn number_4(bytes: &[u8], at: usize) -> u32
    requires { at + 4 ≤ length bytes.now }
    ensures { result ≡ field bytes.now at 4 }
{
    LittleEndian::read_u32(&bytes[at..])
}

/// The number in the eight bytes from `at` on.
pub fn number_8(bytes: &[u8], at: usize) -> u64
    requires { at + 8 ≤ length bytes.now }
    ensures { result ≡ field bytes.now at 8 }
{
    LittleEndian::read_u64(&bytes[at..])
}

/// Whether every byte is zero. All bytes are looked at, so that many can be at once.
pub fn are_zeros(bytes: &[u8]) -> bool
    ensures { result ≡ are_zeros bytes.now }
{
    let mut greatest = 0u8;
    for byte in bytes {
        greatest = greatest.max(*byte);
    }
    greatest == 0
}

/// Whether every byte from `at` up to byte `end` is zero.
pub fn has_zeros(bytes: &[u8], at: usize, end: usize) -> bool
    requires order { at ≤ end }
    requires within { end ≤ length bytes.now }
    ensures { result ≡ has_zeros bytes.now at end }
{
    are_zeros(&bytes[at..end])
}
