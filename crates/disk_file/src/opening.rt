//! How the file of an image is opened, and locked until it is closed. Nothing here is in a contract. How a new image is
//! made is in the module of the making, and what is read from a file and written to it in that of the bytes.

use crate::device::{check_free, is_device};
use crate::device_lock::DeviceLocks;
use crate::fault::Refused;
use std::fs::{self, File, Metadata, OpenOptions, TryLockError};
use std::io::{self, ErrorKind};
use std::os::fd::AsRawFd;
use std::os::unix::fs::MetadataExt;
use std::rt::HostRuntime;

/// What a file is opened for.
#[derive(Clone, Copy)]
pub(crate) enum Access {
    /// It is read, beside other programs that read it.
    Read,
    /// It is read and written, by this program alone.
    Write,
}

/// A file that is locked until it is closed.
#[derive(Drop)]
pub(crate) struct LockedFile {
    pub(crate) file: File,
    /// The locks of a block device, which may have several nodes.
    pub(crate) device: Option<DeviceLocks>,
}

/// Opens the plain file or the block device at a path, to which links may lead. Where it is opened for writing, all that
/// an earlier program wrote to it is durable then, and a device is in no other use.
///
/// # Errors
/// What the system said; that another program has the file; that the path leads to another file by now, or to one of
/// another kind; that a device is in use.
pub(crate) fn open_image(
    rt: &HostRuntime,
    path: &str,
    access: Access,
) -> Result<LockedFile, Refused> {
    // a pipe or a terminal isn't even opened
    check_kind(&fs::metadata(rt, path)?)?;
    let mut options = OpenOptions::new();
    options.read(true).write(access == Access::Write);
    let file = open(rt, path, &options)?;
    lock(&file, access)?;
    let there = fs::metadata(rt, path)?;
    check_kind(&there)?;
    check_same(&file, &there)?;
    let device = match is_device(&there) {
        true => Some(DeviceLocks::take(rt, &there, access)?),
        false => None,
    };
    if access == Access::Write {
        if device.is_some() {
            check_free(rt, &there)?;
        }
        file.sync_data().map_err(Refused::Sync)?;
    }
    Ok(LockedFile { file, device })
}

/// Opens what is at a path by these options. It never has the number of a standard stream, also where the caller closed
/// one: what is meant for that stream must not come to the file, nor the file's bytes from it.
///
/// # Errors
/// What the system said.
pub(crate) fn open(rt: &HostRuntime, path: &str, options: &OpenOptions) -> io::Result<File> {
    let file = options.open(rt, path)?;
    if file.as_raw_fd() <= LAST_STREAM {
        return file.try_clone();
    }
    Ok(file)
}

/// The descriptor of standard error, the last one of the standard streams.
const LAST_STREAM: i32 = 2;

/// Locks a file until it is closed. It doesn't wait.
///
/// # Errors
/// What the system said, or that another program has the lock.
pub(crate) fn lock(file: &File, access: Access) -> io::Result<()> {
    let locked = match access {
        Access::Read => file.try_lock_shared(),
        Access::Write => file.try_lock(),
    };
    match locked {
        Ok(()) => Ok(()),
        Err(TryLockError::Error(why)) => Err(why),
        Err(TryLockError::WouldBlock) => Err(busy("Another program uses it")),
    }
}

/// Holds an open file against what is known of the one that a path leads to.
///
/// # Errors
/// What the system said, or that they aren't the same.
pub(crate) fn check_same(file: &File, there: &Metadata) -> io::Result<()> {
    let opened = file.metadata()?;
    if opened.dev() == there.dev() && opened.ino() == there.ino() {
        return Ok(());
    }
    Err(busy("Another file took its place"))
}

/// Looks whether it is a plain file or a block device.
///
/// # Errors
/// That it is neither.
fn check_kind(there: &Metadata) -> io::Result<()> {
    if is_device(there) {
        return Ok(());
    }
    check_plain(there)
}

/// Looks whether it is a plain file.
///
/// # Errors
/// That it is none.
pub(crate) fn check_plain(there: &Metadata) -> io::Result<()> {
    if there.is_file() {
        return Ok(());
    }
    Err(io::Error::new(ErrorKind::InvalidInput, "Not a plain file"))
}

/// What is said of a file that others have in their hands.
pub(crate) fn busy(words: &str) -> io::Error {
    io::Error::new(ErrorKind::ResourceBusy, words)
}
