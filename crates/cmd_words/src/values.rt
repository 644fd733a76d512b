//! What one text says: a number in its range, a rule of notices, or a layout. Where the text stands among the words is not
//! said here.

ghost use Rattle.std.specs.Prelude.{◌≡◌};
ghost use Rattle.cmd_words.specs.Words.{layout_in, notices_of, number_in, seed_of};

use crate::request::Notices;
use base_types::Layout;
use itoa::Buffer;

/// The number from `low` to `high` that a text writes in decimal digits, behind a plus sign or none.
pub fn number_in(text: &str, low: u32, high: u32) -> Option<u32>
    ensures { result ≡ number_in low high text.now }
{
    let Ok(number) = text.parse::<u32>() else {
        return None;
    };
    if low <= number && number <= high {
        return Some(number);
    }
    None
}

/// The rule of notices that a text names: `none`, `fifo`, or a seed.
pub fn notices_of(text: &str) -> Option<Notices>
    ensures { result ≡ notices_of text.now }
{
    if text == "none" {
        return Some(Notices::Silent);
    }
    if text == "fifo" {
        return Some(Notices::Fifo);
    }
    match seed_of(text) {
        Some(seed) => Some(Notices::Seed(seed)),
        None => None,
    }
}

/// The layout that a text names: `1` or `2`.
pub fn layout_in(text: &str) -> Option<Layout>
    ensures { result ≡ layout_in text.now }
{
    if text == "1" {
        return Some(Layout::One);
    }
    if text == "2" {
        return Some(Layout::Two);
    }
    None
}

/// The least seed of a draw.
const LEAST_SEED: u32 = 1;

/// The number from `LEAST_SEED` on whose decimal text it is.
fn seed_of(text: &str) -> Option<u32>
    ensures { result ≡ seed_of text.now }
{
    let Ok(number) = text.parse::<u32>() else {
        return None;
    };
    if number < LEAST_SEED {
        return None;
    }
    let mut buffer = Buffer::new();
    if buffer.format(number) == text {
        return Some(number);
    }
    None
}
