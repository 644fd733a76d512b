//! What one item of a list says: the write that stands, or the write that is torn and behind how many bytes.
//! Each helper answers what the definition of its name answers. Items are told apart elsewhere.

ghost use Rattle.std.specs.Prelude.{◌≡◌, ◌==◌, IfOk, map, option_map};
ghost use Rattle.std.specs.List.{slice_split};
ghost use Rattle.disk_memory.specs.declared.choice.WriteName.TheVariants as names;
ghost use Rattle.cmd_words.specs.ChoiceTexts.{counted, write_of, some_of_a_block, torn, tear_of_parts, tear_of};

use disk_memory::{Fate, Named, WriteName};
use lang_script::number_of;
use std::alloc::{AllocError, Global};

/// The bytes of a block.
const BLOCK: u64 = 1024;

/// What stands in front of the number of a lost write.
const LOST: u8 = b'f';

/// The parts of a text that a byte parts, one more than there are such bytes.
///
/// # Errors
/// Out of memory.
pub fn parts(alloc: Global, text: &[u8], separator: u8) -> Result<Vec<&[u8]>, AllocError>
    ensures { IfOk result (λ parts. map (λ part. part.now) parts.items ≡ slice_split (λ b. b == separator) text.now) }
{
    text.split(move |b| *b == separator).collect(alloc)
}

/// The write that an item names.
pub fn write_of(item: &[u8]) -> Option<WriteName>
    ensures { result ≡ write_of item.now }
{
    match item {
        [] => None,
        [first, rest @ ..] => {
            if *first == LOST {
                return lost(rest);
            }
            accepted(item)
        }
    }
}

fn lost(digits: &[u8]) -> Option<WriteName>
    ensures { result ≡ option_map (λ number. names.Lost number) (counted digits.now) }
{
    match counted(digits) {
        Some(number) => Some(WriteName::Lost { number }),
        None => None,
    }
}

fn accepted(digits: &[u8]) -> Option<WriteName>
    ensures { result ≡ option_map (λ ticket. names.Accepted ticket) (counted digits.now) }
{
    match counted(digits) {
        Some(ticket) => Some(WriteName::Accepted { ticket }),
        None => None,
    }
}

fn counted(text: &[u8]) -> Option<u64>
    ensures { result ≡ counted text.now }
{
    match number_of(text) {
        Some(number) => {
            if 0 < number {
                return Some(number);
            }
            None
        }
        None => None,
    }
}

/// The tear that an item says.
///
/// # Errors
/// Out of memory.
pub fn tear_of(alloc: Global, item: &[u8]) -> Result<Option<Named>, AllocError>
    ensures { IfOk result (λ tear. tear ≡ tear_of item.now) }
{
    let parts = parts(alloc, item, b':')?;
    Ok(tear_of_parts(parts.as_slice()))
}

fn tear_of_parts(parts: &[&[u8]]) -> Option<Named>
    ensures { result ≡ tear_of_parts (map (λ part. part.now) parts.now) }
{
    match parts {
        [] => None,
        [_] => None,
        [ticket, bytes] => torn(ticket, bytes),
        [_, _, _, ..] => None,
    }
}

fn torn(ticket: &[u8], bytes: &[u8]) -> Option<Named>
    ensures { result ≡ torn (counted ticket.now) (some_of_a_block (counted bytes.now)) }
{
    let Some(ticket) = counted(ticket) else {
        return None;
    };
    let Some(bytes) = some_of_a_block(bytes) else {
        return None;
    };
    Some(Named {
        write: WriteName::Accepted { ticket },
        fate: Fate::Torn { bytes },
    })
}

fn some_of_a_block(text: &[u8]) -> Option<u16>
    ensures { result ≡ some_of_a_block (counted text.now) }
{
    let Some(bytes) = counted(text) else {
        return None;
    };
    if bytes < BLOCK {
        return Some(bytes as u16);
    }
    None
}
