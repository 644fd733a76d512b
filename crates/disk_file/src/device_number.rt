//! The numbers by which the system knows a block device and its parts, as `/sys` tells them. Nothing here is in a contract.
//! Which of them are in use is looked for in the module of devices.

use std::alloc::Global;
use std::fs;
use std::io::{self, ErrorKind};
use std::rt::HostRuntime;

/// The number of a device, as the system writes it.
pub(crate) fn number_of(alloc: Global, device: u64) -> io::Result<String> {
    let major = (device >> 8) & 0xfff | (device >> 32) & 0xffff_f000;
    let minor = device & 0xff | (device >> 12) & 0xffff_ff00;
    Ok(format!(in alloc; "{major}:{minor}")?)
}

/// The numbers of a device and of its parts, as the system writes them.
///
/// # Errors
/// What the system said.
pub(crate) fn numbers_of(rt: &HostRuntime, device: u64) -> io::Result<Vec<String>> {
    let mut numbers = Vec::new(rt.alloc());
    let own = number_of(rt.alloc(), device)?;
    let folder = format!(in rt.alloc(); "/sys/dev/block/{own}")?;
    for entry in fs::read_dir(rt, folder.as_str())? {
        let entry = entry?;
        let part = format!(in rt.alloc(); "{folder}/{}", entry.file_name())?;
        // other folders may have a number too, such as that of the controller of an NVMe disk
        if is_part(rt, part.as_str())? {
            let dev = format!(in rt.alloc(); "{part}/dev")?;
            let text = fs::read_to_string(rt, dev.as_str())?;
            numbers.push(String::from_str(rt.alloc(), text.trim())?)?;
        }
    }
    numbers.push(own)?;
    Ok(numbers)
}

/// Whether what is here in `/sys` is a part of a device.
///
/// # Errors
/// What the system said.
pub(crate) fn is_part(rt: &HostRuntime, folder: &str) -> io::Result<bool> {
    let partition = format!(in rt.alloc(); "{folder}/partition")?;
    match fs::metadata(rt, partition.as_str()) {
        Ok(_) => Ok(true),
        Err(why) => match why.kind() {
            ErrorKind::NotFound | ErrorKind::NotADirectory => Ok(false),
            _ => Err(why),
        },
    }
}
