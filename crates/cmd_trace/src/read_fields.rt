//! The parts of a line that is read: where a blank parts them, numbers, and the bytes of a block. Each helper
//! answers what the definition of its name answers. Which parts a line has is not said here.

ghost use Rattle.std.specs.Prelude.{◌≡◌, ◌<◌, length, IfOk, IfSome, option_map, not};
ghost use Rattle.std.specs.List.{list_all, position};
ghost use Rattle.cmd_trace.specs.ReadFields.{is_blank, cut, small_number_of, block_of, is_upper};

use base_types::NoMemory;
use disk_contract::BoxedBlock;
use lang_script::number_of;
use std::alloc::Global;

/// What stands before the first blank and behind it.
pub fn cut(text: &[u8]) -> Option<(&[u8], &[u8])>
    ensures { option_map (λ parts. (parts.0.now, parts.1.now)) result ≡ cut text.now }
{
    match blank_in(text) {
        Some(at) => Some((&text[..at], &text[at + 1..])),
        None => None,
    }
}

// Where the first blank is.
fn blank_in(text: &[u8]) -> Option<usize>
    ensures first { result ≡ position is_blank text.now }
    ensures below { IfSome result (λ at. at < length text.now) }
{
    text.iter().position(|byte| *byte == b' ')
}

/// The number below 2^32 that is written so.
pub fn small_number_of(text: &[u8]) -> Option<u32>
    ensures { result ≡ small_number_of text.now }
{
    match number_of(text) {
        Some(number) => match u32::try_from(number) {
            Ok(number) => Some(number),
            Err(_) => None,
        },
        None => None,
    }
}

/// The bytes of the block whose digits these are, in lower case.
///
/// # Errors
/// Out of memory.
pub fn block_of(alloc: Global, text: &[u8]) -> Result<Option<BoxedBlock>, NoMemory>
    ensures { IfOk result (λ block. block ≡ block_of text.now) }
{
    if !has_no_upper_case(text) {
        return Ok(None);
    }
    let mut bytes = [0u8; 1024];
    match hex::decode_to_slice(text, &mut bytes) {
        Ok(()) => {
            let block = BoxedBlock::new(alloc, &bytes)?;
            Ok(Some(block))
        }
        Err(_) => Ok(None),
    }
}

fn has_no_upper_case(text: &[u8]) -> bool
    ensures { result ≡ list_all (λ b. not (is_upper b)) text.now }
{
    text.iter().all(|byte| !byte.is_ascii_uppercase())
}
