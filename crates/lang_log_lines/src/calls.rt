//! From a line to the call of a log that it is. How lines are cut from an input, and which are skipped, is said by
//! `lang_lines`.

ghost use Rattle.std.specs.Prelude.{◌≡◌, IfOk, map};
ghost use Rattle.lang_script.specs.Grammar.{bytes_of, small_number_of};
ghost use Rattle.lang_log_lines.specs.Grammar.{append_call, call_of, call_of_parts, get_call, trim_call, two_part_call, word_call};

use base_types::{Bytes, NoMemory};
use lang_lines::LineParser;
use lang_log::LogCall;
use lang_script::{bytes, number, parts};
use std::alloc::Global;

/// The parser of calls of a log.
pub struct Calls;

impl LineParser for Calls {
    ghost use Rattle.lang_log.specs.declared.call.LogCall.TheVariants.{Bad};
    ghost use Rattle.lang_log_lines.specs.Grammar.{call_of};

    type Item = LogCall;

    ghost bad = { Bad };

    ghost says = { call_of };

    fn bad() -> LogCall {
        LogCall::Bad
    }

    fn parse(alloc: Global, line: &[u8]) -> Result<LogCall, NoMemory> {
        parse_call(alloc, line)
    }
}

/// The call of a log that this line is, which is given without its line feed.
///
/// # Errors
/// Out of memory.
pub fn parse_call(alloc: Global, line: &[u8]) -> Result<LogCall, NoMemory>
    ensures { IfOk result (λ call. call ≡ call_of line.now) }
{
    let parts = parts(alloc, line, b' ')?;
    let call = call_of_parts(alloc, parts.as_slice())?;
    Ok(call)
}

fn call_of_parts(alloc: Global, parts: &[&[u8]]) -> Result<LogCall, NoMemory>
    ensures { IfOk result (λ call. call ≡ call_of_parts (map (λ part. part.now) parts.now)) }
{
    match parts {
        [word] => Ok(call_of_word(alloc, word)),
        [word, part] => {
            let call = call_of_two(alloc, word, part)?;
            Ok(call)
        }
        [] => Ok(LogCall::Bad),
        [_, _, _, ..] => Ok(LogCall::Bad),
    }
}

// A word alone.
fn call_of_word(alloc: Global, word: &[u8]) -> LogCall
    ensures { result ≡ word_call word.now }
{
    if word == b"append".as_slice() {
        return LogCall::Append(Bytes::from_vec(Vec::new(alloc)));
    }
    if word == b"count".as_slice() {
        return LogCall::Count;
    }
    if word == b"order".as_slice() {
        return LogCall::Order;
    }
    if word == b"sync".as_slice() {
        return LogCall::Sync;
    }
    LogCall::Bad
}

// A word and one argument.
fn call_of_two(alloc: Global, word: &[u8], part: &[u8]) -> Result<LogCall, NoMemory>
    ensures { IfOk result (λ call. call ≡ two_part_call word.now part.now) }
{
    if word == b"append".as_slice() {
        let call = append(alloc, part)?;
        return Ok(call);
    }
    if word == b"get".as_slice() {
        return Ok(get(part));
    }
    if word == b"trim".as_slice() {
        return Ok(trim(part));
    }
    Ok(LogCall::Bad)
}

fn append(alloc: Global, part: &[u8]) -> Result<LogCall, NoMemory>
    ensures { IfOk result (λ call. call ≡ append_call (bytes_of part.now)) }
{
    match bytes(alloc, part)? {
        Some(bytes) => Ok(LogCall::Append(bytes)),
        None => Ok(LogCall::Bad),
    }
}

fn get(part: &[u8]) -> LogCall
    ensures { result ≡ get_call (small_number_of part.now) }
{
    match number(part) {
        Some(number) => LogCall::Get(number),
        None => LogCall::Bad,
    }
}

fn trim(part: &[u8]) -> LogCall
    ensures { result ≡ trim_call (small_number_of part.now) }
{
    match number(part) {
        Some(number) => LogCall::Trim(number),
        None => LogCall::Bad,
    }
}
