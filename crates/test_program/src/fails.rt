//! How lists of failing calls are read, of a bay and of the disks under one of its names.

use crate::words::long_number;
use base_types::NoMemory;
use disk_memory::{DiskCall, Fail};
use disk_memory_bay::{BayCall, BayFail};
use std::alloc::Global;

/// The calls of a bay that these words list: `none`, or pairs of a kind and a number, as `open 2 close 1`.
///
/// # Errors
/// Out of memory.
pub(crate) fn bay_fails_of(
    alloc: Global,
    words: &[&str],
) -> Result<Option<Vec<BayFail>>, NoMemory> {
    let mut fails = Vec::new(alloc);
    if words == ["none"].as_slice() {
        return Ok(Some(fails));
    }
    for pair in words.chunks(2) {
        let Some(fail) = bay_fail_of(pair) else {
            return Ok(None);
        };
        fails.push(fail)?;
    }
    Ok(Some(fails))
}

fn bay_fail_of(pair: &[&str]) -> Option<BayFail> {
    match pair {
        [kind, nth] => {
            let kind = bay_call(kind)?;
            let nth = long_number(nth)?;
            Some(BayFail { kind, nth })
        }
        _ => None,
    }
}

fn bay_call(word: &str) -> Option<BayCall> {
    match word {
        "make" => Some(BayCall::Make),
        "open" => Some(BayCall::Open),
        "close" => Some(BayCall::Close),
        _ => None,
    }
}

/// The calls of a disk that these words list, as `read 2 write 1`.
///
/// # Errors
/// Out of memory.
pub(crate) fn disk_fails_of(alloc: Global, words: &[&str]) -> Result<Option<Vec<Fail>>, NoMemory> {
    let mut fails = Vec::new(alloc);
    if words == ["none"].as_slice() {
        return Ok(Some(fails));
    }
    for pair in words.chunks(2) {
        let Some(fail) = disk_fail_of(pair) else {
            return Ok(None);
        };
        fails.push(fail)?;
    }
    Ok(Some(fails))
}

fn disk_fail_of(pair: &[&str]) -> Option<Fail> {
    match pair {
        [kind, nth] => {
            let kind = disk_call(kind)?;
            let nth = long_number(nth)?;
            Some(Fail { kind, nth })
        }
        _ => None,
    }
}

fn disk_call(word: &str) -> Option<DiskCall> {
    match word {
        "read" => Some(DiskCall::Read),
        "write" => Some(DiskCall::Write),
        "poll" => Some(DiskCall::Poll),
        "wait" => Some(DiskCall::Wait),
        _ => None,
    }
}
