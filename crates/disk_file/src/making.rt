//! How the file of a new image is made, or a device taken for one, and what becomes of it where the image is finished or
//! given up. It replaces no file that has bytes. Nothing here is in a contract.

use crate::bytes::length_of;
use crate::device::{device_at, is_device};
use crate::opening::{Access, LockedFile, check_plain, check_same, lock, open};
use std::fs::{self, File, OpenOptions};
use std::io::{self, ErrorKind};
use std::path::Path;
use std::rt::HostRuntime;

/// What has to be known of a new image until it is finished.
#[derive(Drop)]
pub(crate) enum NewImage {
    /// It is in a plain file.
    InFile {
        /// The folder in which it lies.
        folder: File,
        /// Whether an empty file was there before.
        was_there: bool,
    },
    /// It is on a block device.
    OnDevice,
}

/// Where a new image is made, and what has to be known of it.
type Made = (LockedFile, NewImage);

/// A file of so many blocks of zeros at a path, where nothing was, or an empty file; or the block device there, which has
/// as many blocks and keeps what they hold until it is written over.
///
/// # Errors
/// What the system said; that another program has the file; that it isn't empty, or neither a plain file nor a device; that
/// the device is in use, or has another number of blocks. What was at the path is as it was.
pub(crate) fn new_image(rt: &HostRuntime, path: &str, blocks: u32) -> io::Result<Made> {
    if is_device_at(rt, path)? {
        return Ok((device_at(rt, path, blocks)?, NewImage::OnDevice));
    }
    new_file(rt, path, blocks)
}

impl NewImage {
    /// Makes durable the file, with its length, and that it is in its folder; or the device.
    ///
    /// # Errors
    /// What the system said.
    pub(crate) fn finish(&self, file: &File) -> io::Result<()> {
        file.sync_all()?;
        match self {
            NewImage::InFile { folder, .. } => folder.sync_all(),
            NewImage::OnDevice => Ok(()),
        }
    }

    /// Leaves nothing of the image: its file is gone, or empty where it was there before. A device keeps what was written,
    /// which stands for no tree, as a formatting writes the header last.
    pub(crate) fn give_up(&self, rt: &HostRuntime, path: &str, file: &File) {
        match self {
            NewImage::OnDevice => {}
            NewImage::InFile {
                was_there: true,
                ..
            } => {
                let _ = file.set_len(0);
            }
            NewImage::InFile { .. } => {
                if let Ok(there) = fs::symlink_metadata(rt, path) {
                    if check_same(file, &there).is_ok() {
                        let _ = fs::remove_file(rt, path);
                    }
                }
            }
        }
    }
}

// Whether a block device is at a path, to which links may lead; or what the system said of what is at the path itself,
// unless nothing is there.
fn is_device_at(rt: &HostRuntime, path: &str) -> io::Result<bool> {
    match fs::symlink_metadata(rt, path) {
        Err(why) if why.kind() == ErrorKind::NotFound => Ok(false),
        Err(why) => Err(why),
        Ok(there) if there.file_type().is_symlink() => match fs::metadata(rt, path) {
            Ok(end) => Ok(is_device(&end)),
            Err(_) => Ok(false),
        },
        Ok(there) => Ok(is_device(&there)),
    }
}

// A file of so many blocks of zeros at a path, where nothing was, or an empty file.
fn new_file(rt: &HostRuntime, path: &str, blocks: u32) -> io::Result<Made> {
    let mut options = OpenOptions::new();
    options.read(true);
    let folder = open(rt, folder_of(path), &options)?;
    options.write(true).create_new(true);
    let (file, was_there) = match open(rt, path, &options) {
        Ok(file) => (file, false),
        Err(why) if why.kind() == ErrorKind::AlreadyExists => (open_there(rt, path)?, true),
        Err(why) => return Err(why),
    };
    let image = NewImage::InFile { folder, was_there };
    if let Err(why) = claim(rt, path, &file) {
        // a file that was there isn't touched, nor one that another program took meanwhile
        let is_ours = !was_there && why.kind() != ErrorKind::ResourceBusy;
        if is_ours && file.metadata().is_ok_and(|data| data.len() == 0) {
            image.give_up(rt, path, &file);
        }
        return Err(why);
    }
    if let Err(why) = file.set_len(length_of(blocks)) {
        image.give_up(rt, path, &file);
        return Err(why);
    }
    Ok((LockedFile { file, device: None }, image))
}

// Opens the plain file at a path, to which no link leads.
fn open_there(rt: &HostRuntime, path: &str) -> io::Result<File> {
    check_plain(&fs::symlink_metadata(rt, path)?)?;
    let mut options = OpenOptions::new();
    options.read(true).write(true);
    open(rt, path, &options)
}

// Locks a file, which must be empty, and the one at the path.
fn claim(rt: &HostRuntime, path: &str, file: &File) -> io::Result<()> {
    lock(file, Access::Write)?;
    let there = fs::symlink_metadata(rt, path)?;
    check_plain(&there)?;
    check_same(file, &there)?;
    if file.metadata()?.len() == 0 {
        return Ok(());
    }
    let words = "It isn't empty: remove it first, where a new image is to be there";
    Err(io::Error::new(ErrorKind::AlreadyExists, words))
}

// The folder in which the file at a path lies.
fn folder_of(path: &str) -> &str {
    match Path::new(path).parent() {
        Some(folder) if !folder.as_str().is_empty() => folder.as_str(),
        _ => ".",
    }
}
