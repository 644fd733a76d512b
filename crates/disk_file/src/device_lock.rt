//! The locks of a block device, which may have several nodes, and parts that are devices too. Nothing here is in a contract.
//! That no program but those of this repository uses a device is looked for in the module of devices.

use crate::device_number::{is_part, number_of};
use crate::opening::{Access, lock, open};
use std::fs::{File, Metadata, OpenOptions};
use std::io;
use std::os::unix::fs::MetadataExt;
use std::rt::HostRuntime;

/// The locks of a block device by its number, whichever node leads to it: its own, and of a part also one of the whole
/// device, which other parts share.
#[derive(Drop)]
pub(crate) struct DeviceLocks {
    own: File,
    whole: Option<File>,
}

impl DeviceLocks {
    /// Locks a device, on what the system has for its number.
    ///
    /// # Errors
    /// What the system said; that another program has the device, a part of it, or the whole of which it is one.
    pub(crate) fn take(
        rt: &HostRuntime,
        there: &Metadata,
        access: Access,
    ) -> io::Result<DeviceLocks> {
        let number = number_of(rt.alloc(), there.rdev())?;
        let folder = format!(in rt.alloc(); "/sys/dev/block/{number}")?;
        let whole = match is_part(rt, folder.as_str())? {
            true => {
                let above = format!(in rt.alloc(); "{folder}/../dev")?;
                Some(locked(rt, above.as_str(), Access::Read)?)
            }
            false => None,
        };
        let own = format!(in rt.alloc(); "{folder}/dev")?;
        Ok(DeviceLocks {
            own: locked(rt, own.as_str(), access)?,
            whole,
        })
    }
}

// Opens a file to read it, and locks it.
fn locked(rt: &HostRuntime, path: &str, access: Access) -> io::Result<File> {
    let mut options = OpenOptions::new();
    options.read(true);
    let file = open(rt, path, &options)?;
    lock(&file, access)?;
    Ok(file)
}
