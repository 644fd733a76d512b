//! A line of bounded length that is to be written, put together from texts, numbers and digits before it is
//! pushed. It lies in the value itself, so it takes no memory. What a line says is described by the writers.

ghost use Rattle.std.specs.Prelude.{◌≡◌, ◌≤◌, ◌+◌, ◌++◌, length, decimal};
ghost use Rattle.hex.specs.Hex.{encode_lower};
ghost use Rattle.arrayvec.specs.ArrayVec.{array_vec_len};

use arrayvec::ArrayVec;
use base_types::Block;
use itoa::Buffer;

/// The bytes of the longest line, with 20 digits for each number: that of an accepted write.
pub const LONGEST: usize = 2 + 20 + 1 + 20 + 1 + 2048 + 1;

/// The line so far.
pub type Line = ArrayVec<u8, LONGEST>;

/// The bytes of the longest head of a reply's line, which is what stands before its text, with 20 digits for the number.
pub const LONGEST_HEAD: usize = 2 + 20 + 1;

/// The head of a reply so far. It is short, since one is made for each reply.
pub type Head = ArrayVec<u8, LONGEST_HEAD>;

/// Adds a text at the end.
pub fn put(line: &mut Line, text: &[u8])
    requires { array_vec_len line.old + length text.now ≤ 2093 }
    ensures text { line.new.items ≡ line.old.items ++ text.now }
    ensures length { array_vec_len line.new ≡ array_vec_len line.old + length text.now }
{
    line.try_extend_from_slice(text).unwrap();
}

/// Adds a text at the end of the head of a reply.
pub fn put_to_head(head: &mut Head, text: &[u8])
    requires { array_vec_len head.old + length text.now ≤ 23 }
    ensures text { head.new.items ≡ head.old.items ++ text.now }
    ensures length { array_vec_len head.new ≡ array_vec_len head.old + length text.now }
{
    head.try_extend_from_slice(text).unwrap();
}

/// Adds a number in decimal digits.
pub fn put_number(line: &mut Line, number: u64)
    requires { array_vec_len line.old + 20 ≤ 2093 }
    ensures text { line.new.items ≡ line.old.items ++ decimal number }
    ensures length { array_vec_len line.new ≤ array_vec_len line.old + 20 }
{
    put(line, Buffer::new().format(number).as_bytes());
}

/// Adds the bytes of a block, each as two lower-case digits.
pub fn put_digits(line: &mut Line, block: &Block)
    requires { array_vec_len line.old + 2048 ≤ 2093 }
    ensures text { line.new.items ≡ line.old.items ++ encode_lower block.now }
    ensures length { array_vec_len line.new ≡ array_vec_len line.old + 2048 }
{
    let mut digits = [0u8; 2048];
    hex::encode_to_slice(block.as_slice(), &mut digits).unwrap();
    put(line, &digits);
}
