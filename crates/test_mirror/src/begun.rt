//! A mirror that a row begins: over two disks in memory, which find notices by rules, and whose listed calls fail.

ghost use Rattle.std.specs.Prelude.{◌≡◌, ◌<◌, [], IfOk};
ghost use Rattle.disk_contract.specs.Bay.{zero_blocks};
ghost use Rattle.disk_memory.specs.MemDisk.{MemDiskState};

use crate::words::{long_number, number, words_of};
use base_types::NoMemory;
use disk_contract::Disk;
use disk_memory::{DiskCall, Fail, MemDisk, Rule};
use disk_mirror::{Mirror, MirrorRefusal};
use std::alloc::Global;

/// How many writes each of the two disks takes.
const ROOM: u32 = 4096;

/// A mirror over two disks in memory.
pub(crate) type Pair = Mirror<MemDisk, MemDisk>;

/// A disk as a row says it: how many blocks, by which rule it finds notices, and which calls of it fail.
#[derive(Drop)]
pub(crate) struct Wanted {
    blocks: u32,
    rule: Rule,
    fails: Vec<Fail>,
}

/// What became of a row that begins a mirror.
#[derive(Drop)]
pub(crate) enum Begun {
    /// There is the mirror.
    Made(Pair),
    /// The numbers of blocks differ.
    Unlike,
    /// The row says no mirror.
    Unreadable,
}

/// The mirror of a row: its room, and then of each disk what it is, with a bar before each.
///
/// # Errors
/// Out of memory.
pub(crate) fn begin(alloc: Global, text: &str) -> Result<Begun, NoMemory> {
    let mut parts = text.split('|');
    let (Some(room), Some(first), Some(second), None) = (
        parts.next(),
        parts.next(),
        parts.next(),
        parts.next(),
    ) else {
        return Ok(Begun::Unreadable);
    };
    let Some(room) = number(room.trim()) else {
        return Ok(Begun::Unreadable);
    };
    let (Some(first), Some(second)) = (
        wanted_of(alloc, first.trim())?,
        wanted_of(alloc, second.trim())?,
    ) else {
        return Ok(Begun::Unreadable);
    };
    mirror(alloc, &first, &second, room)
}

// The mirror over such disks.
fn mirror(alloc: Global, first: &Wanted, second: &Wanted, room: u32) -> Result<Begun, NoMemory> {
    let a = disk(alloc, first)?;
    let b = disk(alloc, second)?;
    match Mirror::new(alloc, a, b, room) {
        Ok(mirror) => Ok(Begun::Made(mirror)),
        Err(refused) => match refused.2 {
            MirrorRefusal::Unlike => Ok(Begun::Unlike),
            MirrorRefusal::NoMemory => Err(NoMemory),
        },
    }
}

// Such a disk, of zeros.
fn disk(alloc: Global, wanted: &Wanted) -> Result<MemDisk, NoMemory>
    ensures log { IfOk result (λ disk. disk.log ≡ []) }
    ensures base { IfOk result (λ disk. disk.base ≡ zero_blocks wanted.now.blocks) }
{
    let mut disk = MemDisk::blank(alloc, wanted.blocks, ROOM)?;
    disk.notices(wanted.rule);
    disk.fail_at(alloc, wanted.fails.as_slice())?;
    Ok(disk)
}

// The disk of these words: its blocks, its rule, and then pairs of a call and its number.
fn wanted_of(alloc: Global, text: &str) -> Result<Option<Wanted>, NoMemory> {
    let words = words_of(alloc, text)?;
    let [blocks, rule, calls @ ..] = words.as_slice() else {
        return Ok(None);
    };
    let (Some(blocks), Some(rule)) = (number(blocks), rule_of(rule)) else {
        return Ok(None);
    };
    let mut fails = Vec::new(alloc);
    for call in calls {
        let Some(fail) = fail_of(call) else {
            return Ok(None);
        };
        fails.push(fail)?;
    }
    Ok(Some(Wanted {
        blocks,
        rule,
        fails,
    }))
}

// The rule of a word: `silent`, `fifo`, or a seed.
fn rule_of(word: &str) -> Option<Rule> {
    match word {
        "silent" => Some(Rule::Silent),
        "fifo" => Some(Rule::Fifo),
        _ => Some(Rule::Seed(number(word)?)),
    }
}

// The call of a word such as `write-2`, the second write.
fn fail_of(word: &str) -> Option<Fail> {
    let (kind, nth) = word.split_once('-')?;
    let kind = match kind {
        "read" => DiskCall::Read,
        "write" => DiskCall::Write,
        "poll" => DiskCall::Poll,
        "wait" => DiskCall::Wait,
        _ => return None,
    };
    let nth = long_number(nth)?;
    Some(Fail { kind, nth })
}
