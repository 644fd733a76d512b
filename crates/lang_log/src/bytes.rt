//! Appends as bytes: spelled one by one, and passed over where many lie one behind the other. Which file has
//! them is not said here.

ghost use Rattle.std.specs.Prelude.{◌≡◌, ◌++◌, ℕ, List, length, take, drop, IfOk, IfSome, None};
ghost use Rattle.lang_log.specs.Spelling.{AreShort, BeginsWith, BeginsWithNone, IsShort, Passes, spelling, spellings};

use base_types::{Bytes, NoMemory};
use byteorder::{ByteOrder, LittleEndian};
use std::alloc::Global;

/// How many bytes stand in front of those of an append.
pub const HEAD: usize = 4;

/// How many bytes an append may have.
pub const LONGEST_APPEND: usize = 65_536;

/// An append as its file has it.
///
/// # Errors
/// Out of memory.
pub fn spelling(alloc: Global, bytes: &[u8]) -> Result<Bytes, NoMemory>
    requires short { IsShort bytes.now }
    ensures { IfOk result (λ text. text ≡ spelling bytes.now) }
{
    let mut head = [0; HEAD];
    LittleEndian::write_u32(&mut head, bytes.len() as u32);
    let mut text = Vec::with_capacity(alloc, HEAD + bytes.len())?;
    text.extend_from_slice(&head)?;
    text.extend_from_slice(bytes)?;
    Ok(Bytes::from_vec(text))
}

/// How far a pass over appends has come.
#[derive(Clone, Copy, Debug, PartialEq, Eq)]
pub struct Passed {
    /// How many appends were passed.
    pub appends: u32,
    /// How many bytes they take.
    pub bytes: usize,
}

/// Passes over whole appends at the front of these bytes, so many at most.
pub fn pass(bytes: &[u8], most: u32) -> Passed
    ensures { Passes bytes.now most result.appends result.bytes }
{
    let mut passed = Passed {
        appends: 0,
        bytes: 0,
    };
    while passed.appends < most {
        let Some(size) = size_of_first(&bytes[passed.bytes..]) else {
            return passed;
        };
        passed.appends += 1;
        passed.bytes += size;
    }
    passed
}

/// How many bytes the first append takes, if these bytes begin with a whole one.
fn size_of_first(bytes: &[u8]) -> Option<usize>
    ensures found { IfSome result (λ taken. (append : List ℕ) × BeginsWith bytes.now append × (taken ≡ length (spelling append))) }
    ensures none { result ≡ None → BeginsWithNone bytes.now }
{
    if bytes.len() < HEAD {
        return None;
    }
    let length = LittleEndian::read_u32(bytes) as usize;
    if LONGEST_APPEND < length {
        return None;
    }
    if bytes.len() - HEAD < length {
        return None;
    }
    Some(HEAD + length)
}

/// The bytes of the first append, if these bytes begin with a whole one.
pub fn first_append(bytes: &[u8]) -> Option<&[u8]>
    ensures found { IfSome result (λ append. BeginsWith bytes.now append.now) }
    ensures none { result ≡ None → BeginsWithNone bytes.now }
{
    let size = size_of_first(bytes)?;
    Some(&bytes[HEAD..size])
}

/// What was passed at the front of the bytes of appends are the first ones, and the others are behind.
pub fn appends_are_read_back()
    ensures { (appends passed : List (List ℕ)) (rest : List ℕ) → AreShort appends → AreShort passed → spellings appends ≡ spellings passed ++ rest
        → (passed ≡ take (length passed) appends) × (rest ≡ spellings (drop (length passed) appends)) }
{}
