//! From the arguments of a line to what they say: paths, names of snapshots, numbers and bytes. Each helper answers what the
//! definition of its name answers, or out of memory. Which command they belong to is not said here.

ghost use Rattle.std.specs.Prelude.{◌≡◌, IfOk, ◌==◌, map, if◌then◌else◌, Some, None};
ghost use Rattle.std.specs.List.{slice_split, list_all};
ghost use Rattle.base_types.specs.Name.{is_name};
ghost use Rattle.lang_script.specs.Grammar.{path_of, names_of, name_of, small_number_of, bytes_of};

use crate::decimal::has_digits_alone;
use base_types::{Bytes, Name, NoMemory};
use hex::FromHexError;
use itoa::Buffer;
use lang_tree::Path;
use std::alloc::{AllocError, Global};
use std::str;

/// The parts of a text that a byte parts, one more than there are such bytes.
///
/// # Errors
/// Out of memory.
pub fn parts(alloc: Global, text: &[u8], separator: u8) -> Result<Vec<&[u8]>, AllocError>
    ensures { IfOk result (λ parts. map (λ part. part.now) parts.items ≡ slice_split (λ b. b == separator) text.now) }
{
    text.split(move |b| *b == separator).collect(alloc)
}

/// The path that is written so.
///
/// # Errors
/// Out of memory.
pub fn path(alloc: Global, part: &[u8]) -> Result<Option<Path>, NoMemory>
    ensures { IfOk result (λ path. path ≡ path_of part.now) }
{
    if part == b"/".as_slice() {
        return Ok(Some(Path::root(alloc)));
    }
    let parts = parts(alloc, part, b'/')?;
    let path = path_of_parts(alloc, parts.as_slice())?;
    Ok(path)
}

fn path_of_parts(alloc: Global, parts: &[&[u8]]) -> Result<Option<Path>, NoMemory>
    ensures { IfOk result (λ path. path ≡ names_of (map (λ part. part.now) parts.now)) }
{
    match parts {
        [] => Ok(None),
        [_] => Ok(None),
        [first, names @ ..] => {
            if !first.is_empty() {
                return Ok(None);
            }
            let path = path_of_names(alloc, names)?;
            Ok(path)
        }
    }
}

fn path_of_names(alloc: Global, parts: &[&[u8]]) -> Result<Option<Path>, NoMemory>
    ensures { IfOk result (λ path. path ≡ (if list_all is_name (map (λ part. part.now) parts.now)
        then Some (map (λ part. part.now) parts.now) else None)) }
{
    let mut names = Vec::new(alloc);
    for part in parts {
        let Some(name) = Name::new(part) else {
            return Ok(None);
        };
        names.push(name)?;
    }
    Ok(Some(Path::from_names(names)))
}

/// The name of a snapshot that is written so.
pub fn snapshot_name(part: &[u8]) -> Option<Name>
    ensures { result ≡ name_of part.now }
{
    match Name::new(part) {
        Some(name) => {
            if name.is_snapshot_name() {
                return Some(name);
            }
            None
        }
        None => None,
    }
}

/// The number that is written so.
pub fn number(part: &[u8]) -> Option<u32>
    ensures { result ≡ small_number_of part.now }
{
    if !has_digits_alone(part) {
        return None;
    }
    let Ok(text) = str::from_utf8(part) else {
        return None;
    };
    let Ok(number) = text.parse::<u32>() else {
        return None;
    };
    let mut buffer = Buffer::new();
    if buffer.format(number).as_bytes() == part {
        return Some(number);
    }
    None
}

/// The bytes whose digits these are, at least one.
///
/// # Errors
/// Out of memory.
pub fn bytes(alloc: Global, part: &[u8]) -> Result<Option<Bytes>, NoMemory>
    ensures { IfOk result (λ bytes. bytes ≡ bytes_of part.now) }
{
    match hex::decode(alloc, part) {
        Ok(bytes) => {
            if bytes.is_empty() {
                return Ok(None);
            }
            Ok(Some(Bytes::from_vec(bytes)))
        }
        Err(FromHexError::OutOfMemory) => Err(NoMemory),
        Err(_) => Ok(None),
    }
}
