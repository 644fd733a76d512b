//! The bay of image files: a name is the path of a file, and its blocks are the file's whole blocks.

ghost use Rattle.std.specs.Prelude.{◌≡◌, ℕ, Err, false, IfOk, OnErr};
ghost use Rattle.base_types.specs.Counts.{next_count};
ghost use Rattle.disk_contract.specs.declared.bay.BayFault.TheVariants.{Fault, NoMemory};
ghost use Rattle.disk_contract.specs.Bay.{HasBayCause, counted_ok};
ghost use Rattle.disk_file.specs.FileBay.{bay_of};
ghost use Rattle.disk_file.specs.FileDisk.{opened};

use crate::bytes::ImageBytes;
use crate::fault::Refused;
use crate::making::new_image;
use crate::notices::Notices;
use crate::opening::{Access, open_image};
use crate::{FileDisk, FileFault};
use disk_contract::{Bay, BayFault, Disk, Mark};
use std::io::ErrorKind;
use std::marker::Model;
use std::rt::HostRuntime;

/// A bay of image files. Contracts see its counts alone.
#[derive(Drop)]
pub struct FileBay {
    rt: HostRuntime,
    /// Whether images are only shown.
    only_shows: bool,
    /// What the system said last of each file, in the order in which they failed first.
    whys: Vec<FileFault>,
    faults: u64,
    disk_faults: u64,
    handed: u64,
    closed: u64,
}

impl Model for FileBay {
    ghost use Rattle.disk_file.specs.FileBay.{FileBayState};

    ghost Value = { FileBayState };

    ghost view = { λ m. record { faults = m.faults; disk_faults = m.disk_faults; handed = m.handed; closed = m.closed } };
}

impl FileBay {
    /// A bay of the files that the program can reach.
    pub fn new(rt: &HostRuntime) -> FileBay
        ensures { result ≡ record { faults = 0; disk_faults = 0; handed = 0; closed = 0 } }
    {
        FileBay {
            rt: *rt,
            only_shows: false,
            whys: Vec::new(rt.alloc()),
            faults: 0,
            disk_faults: 0,
            handed: 0,
            closed: 0,
        }
    }

    /// The same, where images are only shown: a disk that is opened is a copy in memory of the image, and its file stays as
    /// it is.
    pub fn to_show(rt: &HostRuntime) -> FileBay
        ensures { result ≡ record { faults = 0; disk_faults = 0; handed = 0; closed = 0 } }
    {
        let mut bay = FileBay::new(rt);
        bay.only_shows = true;
        bay
    }

    /// What the system said last of each file for which a call of the bay failed, or a call of a disk that was handed back by
    /// now, for messages to people.
    pub fn whys(&self) -> &[FileFault] {
        self.whys.as_slice()
    }

    // Keeps what the system said of the file at a path.
    fn keep(&mut self, path: &str, why: Refused)
        ensures { self.new ≡ self.old }
    {
        let fault = FileFault::new(self.rt.alloc(), path, why);
        match self.whys.iter().position(|known| known.is_of(path)) {
            Some(at) => self.whys[at] = fault,
            None => {
                let _ = self.whys.push(fault);
            }
        }
    }

    // Counts a failed call, and keeps what the system said of the file at a path.
    fn fault(&mut self, path: &str, why: Refused) -> BayFault
        ensures fault { result ≡ Fault }
        ensures cause { HasBayCause {T = ℕ} (Err result) self.old.faults self.new.faults }
        ensures state { self.new ≡ record self.old { faults = next_count self.old.faults } }
    {
        self.keep(path, why);
        self.faults = self.faults.saturating_add(1);
        BayFault::Fault
    }

    // Counts a disk that is handed out.
    fn hand_out(&mut self, disk: FileDisk) -> FileDisk
        ensures disk { result ≡ disk }
        ensures state { self.new ≡ record self.old { handed = next_count self.old.handed } }
    {
        self.handed = self.handed.saturating_add(1);
        disk
    }

    // The blocks of the image at a path.
    fn image_at(&self, path: &str) -> Result<ImageBytes, Refused> {
        if self.only_shows {
            let locked = open_image(&self.rt, path, Access::Read)?;
            return Ok(ImageBytes::copied(self.rt.alloc(), &locked.file)?);
        }
        let locked = open_image(&self.rt, path, Access::Write)?;
        Ok(ImageBytes::of_file(locked)?)
    }
}

impl Bay for FileBay {
    type D = FileDisk;

    ghost tells = { false };

    ghost state = { λ m. bay_of m };

    fn lawful(&self) {}

    fn make(&mut self, name: &str, blocks: u32) -> Result<FileDisk, BayFault> {
        let Ok(notices) = Notices::new(self.rt.alloc()) else {
            return Err(BayFault::NoMemory);
        };
        match new_image(&self.rt, name, blocks) {
            Err(why) => Err(self.fault(name, Refused::Call(why))),
            Ok((file, made)) => {
                let image = ImageBytes::new(file, blocks);
                Ok(self.hand_out(FileDisk::new(image, Some(made), notices)))
            }
        }
    }

    fn open(&mut self, name: &str) -> Result<FileDisk, BayFault> {
        let Ok(notices) = Notices::new(self.rt.alloc()) else {
            return Err(BayFault::NoMemory);
        };
        match self.image_at(name) {
            Err(why) => {
                if why.error().kind() == ErrorKind::OutOfMemory {
                    return Err(BayFault::NoMemory);
                }
                Err(self.fault(name, why))
            }
            Ok(image) => Ok(self.hand_out(FileDisk::new(image, None, notices))),
        }
    }

    fn close(&mut self, name: &str, disk: FileDisk, _marks: Vec<Mark>) -> Result<(), BayFault> {
        let (read_faults, faults) = disk.counts();
        if read_faults > 0 || faults > 0 {
            self.disk_faults = self.disk_faults.saturating_add(1);
        }
        match disk.end(&self.rt, name) {
            Err(why) => Err(self.fault(name, why)),
            Ok(why) => {
                if let Some(why) = why {
                    self.keep(name, why);
                }
                self.closed = self.closed.saturating_add(1);
                Ok(())
            }
        }
    }

    ghost told = { λ tells. tells };
}
