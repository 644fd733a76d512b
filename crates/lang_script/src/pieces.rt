//! The pieces of which texts are built. Each puts one behind what is there, and its clause names the
//! piece. Which pieces make a text is described by `text` and `replies`.

ghost use Rattle.std.specs.Prelude.{◌≡◌, ◌++◌, OnOk, codes, decimal};
ghost use Rattle.hex.specs.Hex.{encode_lower};

use base_types::NoMemory;
use itoa::Buffer;

/// The text.
///
/// # Errors
/// Out of memory.
pub fn push(text: &mut Vec<u8>, more: &[u8]) -> Result<(), NoMemory>
    ensures { OnOk result (text.new.items ≡ text.old.items ++ more.now) }
{
    text.extend_from_slice(more)?;
    Ok(())
}

/// A blank and the text.
///
/// # Errors
/// Out of memory.
pub fn push_behind_blank(text: &mut Vec<u8>, more: &[u8]) -> Result<(), NoMemory>
    ensures { OnOk result (text.new.items ≡ text.old.items ++ (codes " " ++ more.now)) }
{
    push(text, b" ")?;
    push(text, more)?;
    Ok(())
}

/// A blank and the number in decimal digits.
///
/// # Errors
/// Out of memory.
pub fn push_number(text: &mut Vec<u8>, number: u64) -> Result<(), NoMemory>
    ensures { OnOk result (text.new.items ≡ text.old.items ++ (codes " " ++ decimal number)) }
{
    let mut buffer = Buffer::new();
    push_behind_blank(text, buffer.format(number).as_bytes())?;
    Ok(())
}

/// A blank and the digits of the bytes, two for each. They are put down where they stay, since they may
/// be many.
///
/// # Errors
/// Out of memory.
pub fn push_digits(text: &mut Vec<u8>, bytes: &[u8]) -> Result<(), NoMemory>
    ensures { OnOk result (text.new.items ≡ text.old.items ++ (codes " " ++ encode_lower bytes.now)) }
{
    push(text, b" ")?;
    let start = text.len();
    let room = bytes.len().checked_mul(2).ok_or(NoMemory)?;
    let end = start.checked_add(room).ok_or(NoMemory)?;
    text.resize(end, 0)?;
    hex::encode_to_slice(bytes, &mut text[start..]).unwrap();
    Ok(())
}
