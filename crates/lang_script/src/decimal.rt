//! From a text to its number. The standard library reads the digits; what it takes besides, a plus sign or
//! zeros in front, isn't the decimal text of the number.

ghost use Rattle.std.specs.Prelude.{◌≡◌};
ghost use Rattle.std.specs.List.{list_all};
ghost use Rattle.std.specs.Char.{is_ascii_digit};
ghost use Rattle.lang_script.specs.Decimal.{number_of};

use itoa::Buffer;
use std::str;

/// The number below 2^64 whose decimal text this is. It takes no memory.
pub fn number_of(text: &[u8]) -> Option<u64>
    ensures { result ≡ number_of text.now }
{
    if !has_digits_alone(text) {
        return None;
    }
    let Ok(digits) = str::from_utf8(text) else {
        return None;
    };
    let Ok(number) = digits.parse::<u64>() else {
        return None;
    };
    let mut buffer = Buffer::new();
    if buffer.format(number).as_bytes() == text {
        return Some(number);
    }
    None
}

/// Whether there are digits alone.
pub fn has_digits_alone(text: &[u8]) -> bool
    ensures { result ≡ list_all is_ascii_digit text.now }
{
    text.iter().all(|byte| byte.is_ascii_digit())
}
