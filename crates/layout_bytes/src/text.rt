//! Bytes that are put together from the front, in a list that takes no memory: other bytes, numbers, the
//! lowest byte first, and zeros. What was there stays before what is put behind it.

ghost use Rattle.std.specs.Prelude.{◌≡◌, ◌≤◌, ◌+◌, ◌++◌, length, replicate};
ghost use Rattle.arrayvec.specs.ArrayVec.{array_vec_len};
ghost use Rattle.byteorder.specs.Endian.{little_bytes};

use arrayvec::ArrayVec;

/// Puts these bytes behind the text, which must have room for them.
pub fn put<const N: usize>(text: &mut ArrayVec<u8, N>, bytes: &[u8])
    requires { array_vec_len text.old + length bytes.now ≤ N }
    ensures bytes { text.new.items ≡ text.old.items ++ bytes.now }
    ensures size { array_vec_len text.new ≡ array_vec_len text.old + length bytes.now }
{
    text.try_extend_from_slice(bytes).unwrap();
}

/// Puts a number in two bytes behind the text.
pub fn put_2<const N: usize>(text: &mut ArrayVec<u8, N>, number: u16)
    requires { array_vec_len text.old + 2 ≤ N }
    ensures bytes { text.new.items ≡ text.old.items ++ little_bytes 2 number }
    ensures size { array_vec_len text.new ≡ array_vec_len text.old + 2 }
{
    put(text, number.to_le_bytes().as_slice());
}

/// Puts a number in four bytes behind the text.
pub fn put_4<const N: usize>(text: &mut ArrayVec<u8, N>, number: u32)
    requires { array_vec_len text.old + 4 ≤ N }
    ensures bytes { text.new.items ≡ text.old.items ++ little_bytes 4 number }
    ensures size { array_vec_len text.new ≡ array_vec_len text.old + 4 }
{
    put(text, number.to_le_bytes().as_slice());
}

/// Puts a number in eight bytes behind the text.
pub fn put_8<const N: usize>(text: &mut ArrayVec<u8, N>, number: u64)
    requires { array_vec_len text.old + 8 ≤ N }
    ensures bytes { text.new.items ≡ text.old.items ++ little_bytes 8 number }
    ensures size { array_vec_len text.new ≡ array_vec_len text.old + 8 }
{
    put(text, number.to_le_bytes().as_slice());
}

/// Puts so many zeros behind the text.
pub fn put_zeros<const N: usize>(text: &mut ArrayVec<u8, N>, count: usize)
    requires { array_vec_len text.old + count ≤ N }
    ensures bytes { text.new.items ≡ text.old.items ++ replicate count 0 }
    ensures size { array_vec_len text.new ≡ array_vec_len text.old + count }
{
    let zeros = [0u8; N];
    put(text, &zeros[..count]);
}
