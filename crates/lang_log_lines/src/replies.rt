//! From an answer of a log to its text.

ghost use Rattle.std.specs.Prelude.{◌≡◌, ◌++◌, IfOk, codes, decimal};
ghost use Rattle.lang_log_lines.specs.Text.{text_of_log_reply};

use base_types::NoMemory;
use itoa::Buffer;
use lang_log::LogReply;
use lang_script::{bytes_text, reply_text};
use lang_tree::Reply;
use std::alloc::Global;

/// How this answer is written, without a line feed.
///
/// # Errors
/// Out of memory.
pub fn log_reply_text(alloc: Global, reply: &LogReply) -> Result<Vec<u8>, NoMemory>
    ensures { IfOk result (λ text. text.items ≡ text_of_log_reply reply.now) }
{
    match reply {
        LogReply::Number(number) => number_text(alloc, b"ok ", *number),
        LogReply::Bytes(bytes) => bytes_text(alloc, bytes.as_slice()),
        LogReply::Low(low) => number_text(alloc, b"low ", *low),
        LogReply::Range { low, next } => range_text(alloc, b"count ", *low, *next),
        LogReply::Ordered(point) => reply_text(alloc, &Reply::Synced(*point)),
        LogReply::Durable(point) => reply_text(alloc, &Reply::DurableAt(*point)),
        LogReply::Bad => word_text(alloc, b"bad"),
        LogReply::NoRecord { low, next } => range_text(alloc, b"norecord ", *low, *next),
        LogReply::TooLong => word_text(alloc, b"toolong"),
        LogReply::LogEnd => word_text(alloc, b"logend"),
        LogReply::Refused(why) => reply_text(alloc, &Reply::Refused(*why)),
    }
}

fn word_text(alloc: Global, word: &[u8]) -> Result<Vec<u8>, NoMemory>
    ensures { IfOk result (λ text. text.items ≡ word.now) }
{
    let mut text = Vec::new(alloc);
    text.extend_from_slice(word)?;
    Ok(text)
}

// A word with the blank behind it, and a number.
fn number_text(alloc: Global, word: &[u8], number: u32) -> Result<Vec<u8>, NoMemory>
    ensures { IfOk result (λ text. text.items ≡ word.now ++ decimal number) }
{
    let mut buffer = Buffer::new();
    let mut text = Vec::new(alloc);
    text.extend_from_slice(word)?;
    text.extend_from_slice(buffer.format(number).as_bytes())?;
    Ok(text)
}

// A word with the blank behind it, and two numbers.
fn range_text(alloc: Global, word: &[u8], low: u32, next: u32) -> Result<Vec<u8>, NoMemory>
    ensures { IfOk result (λ text. text.items ≡ word.now ++ decimal low ++ codes " " ++ decimal next) }
{
    let mut buffer = Buffer::new();
    let mut text = number_text(alloc, word, low)?;
    text.extend_from_slice(b" ")?;
    text.extend_from_slice(buffer.format(next).as_bytes())?;
    Ok(text)
}
