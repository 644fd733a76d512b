//! A block device as the place of an image: how many bytes it has, that nothing else uses it, and that a new image may be
//! made on it. Nothing here is in a contract. How it is opened for a run is in the module of the opening.

use crate::bytes::BLOCK;
use crate::device_lock::DeviceLocks;
use crate::device_number::{number_of, numbers_of};
use crate::opening::{Access, LockedFile, busy, check_same, lock, open};
use std::fs::{self, File, Metadata, OpenOptions};
use std::io::{self, ErrorKind, Seek, SeekFrom};
use std::os::unix::fs::{FileTypeExt, MetadataExt};
use std::rt::HostRuntime;

/// Whether it is a block device.
pub(crate) fn is_device(there: &Metadata) -> bool {
    there.file_type().is_block_device()
}

/// How many bytes a plain file or a block device has. Of a device the system tells it by the place of its end.
///
/// # Errors
/// What the system said.
pub(crate) fn bytes_in(file: &File) -> io::Result<u64> {
    let data = file.metadata()?;
    if !is_device(&data) {
        return Ok(data.len());
    }
    let mut end = file;
    end.seek(SeekFrom::End(0))
}

/// Opens the block device at a path for a new image of so many blocks, which are all that it has. That it is written over is
/// told on standard error.
///
/// # Errors
/// What the system said; that another program has it; that it is in use, or has another number of blocks.
pub(crate) fn device_at(rt: &HostRuntime, path: &str, blocks: u32) -> io::Result<LockedFile> {
    let mut options = OpenOptions::new();
    options.read(true).write(true);
    let file = open(rt, path, &options)?;
    lock(&file, Access::Write)?;
    let there = fs::metadata(rt, path)?;
    check_same(&file, &there)?;
    let locks = DeviceLocks::take(rt, &there, Access::Write)?;
    check_free(rt, &there)?;
    let all = bytes_in(&file)? / BLOCK;
    if all != u64::from(blocks) {
        let _ = eprintln!(rt; "optfs: {path}: the device has {all} blocks of 1,024 bytes");
        let words = "An image on a device has all of its blocks";
        return Err(io::Error::new(ErrorKind::InvalidInput, words));
    }
    let _ = eprintln!(rt; "optfs: {path}: what is on this device is written over");
    Ok(LockedFile {
        file,
        device: Some(locks),
    })
}

/// Looks whether a block device is free: neither it nor a part of it is mounted or swapped to, and no other device stands
/// on one of them. What another container mounts isn't seen.
///
/// # Errors
/// What the system said, or that it is in use.
pub(crate) fn check_free(rt: &HostRuntime, there: &Metadata) -> io::Result<()> {
    let numbers = numbers_of(rt, there.rdev())?;
    for number in numbers.iter() {
        let holders = format!(in rt.alloc(); "/sys/dev/block/{number}/holders")?;
        if let Some(holder) = fs::read_dir(rt, holders.as_str())?.next() {
            holder?;
            return Err(busy("Another device stands on it"));
        }
    }
    let mounts = fs::read_to_string(rt, "/proc/self/mountinfo")?;
    for line in mounts.lines() {
        if names_mount(rt, line, numbers.as_slice()) {
            return Err(busy("It is mounted"));
        }
    }
    check_swaps(rt, numbers.as_slice())
}

// Whether a line of the mounts is of one of these devices, by its number or by what it names as its source.
fn names_mount(rt: &HostRuntime, line: &str, numbers: &[String]) -> bool {
    let is_ours = |number: &str| numbers.iter().any(|own| own.as_str() == number);
    if line.split_whitespace().nth(2).is_some_and(is_ours) {
        return true;
    }
    let source = line
        .split_once(" - ")
        .and_then(|parts| parts.1.split_whitespace().nth(1));
    source.is_some_and(|path| is_one_of(rt, path, numbers))
}

// Whether one of these devices is at a path.
fn is_one_of(rt: &HostRuntime, path: &str, numbers: &[String]) -> bool {
    let Ok(there) = fs::metadata(rt, path) else {
        return false;
    };
    let Ok(number) = number_of(rt.alloc(), there.rdev()) else {
        return true;
    };
    is_device(&there) && numbers.iter().any(|own| own.as_str() == number.as_str())
}

// Looks whether none of these devices is swapped to.
fn check_swaps(rt: &HostRuntime, numbers: &[String]) -> io::Result<()> {
    let swaps = match fs::read_to_string(rt, "/proc/swaps") {
        Ok(swaps) => swaps,
        // a system without swapping
        Err(why) if why.kind() == ErrorKind::NotFound => return Ok(()),
        Err(why) => return Err(why),
    };
    for line in swaps.lines() {
        let path = line.split_whitespace().next();
        if path.is_some_and(|path| is_one_of(rt, path, numbers)) {
            return Err(busy("It is swapped to"));
        }
    }
    Ok(())
}
