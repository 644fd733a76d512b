//! The bay: what its calls answer, and what they count. What is held under a name is described in `shelves`.

ghost use Rattle.std.specs.Prelude.{◌≡◌, ◌≢◌, ℕ, List, [], length, Ok, Err, Some, true, option_map, IfOk, IsTrue, OnOk, OnErr, IfSome};
ghost use Rattle.std.specs.Bool.{OnTrue};
ghost use Rattle.disk_contract.specs.Bay.{Makes, Opens, Closes, HasBayCause, zero_blocks};
ghost use Rattle.disk_contract.specs.declared.bay.BayFault.TheVariants.{Fault};
ghost use Rattle.base_types.specs.Counts.{next_count};
ghost use Rattle.disk_memory.specs.MemDisk.{state_of};
ghost use Rattle.disk_memory_bay.specs.MemBay.{bay_of, counted, calls_of, has_listed, fails_next, is_fault, Counts, handed_out, IsOpened, open_fails};
ghost use Rattle.disk_memory_bay.specs.MemBay.{close_answer};
ghost use Rattle.disk_memory_bay.specs.declared.calls.BayCall.TheVariants.{Make, Open, Close};
ghost use Rattle.disk_memory_bay.specs.Shelves.{of_image, held_in, last_on, marks_on, Holds, Lists};

use crate::calls::is_listed;
use crate::held::Held;
use crate::shelves::Shelves;
use crate::{BayCall, BayDisk, BayFail};
use base_types::{Block, NoMemory};
use disk_contract::{Bay, BayFault, Disk, Mark};
use disk_memory::{Fail, Image, MemDisk};
use std::alloc::Global;
use std::marker::Model;

/// A bay of disks in memory.
#[derive(Drop)]
pub struct MemBay {
    alloc: Global,
    room: u32,
    fails: Vec<BayFail>,
    shelves: Shelves,
    makes: u64,
    opens: u64,
    closes: u64,
    faults: u64,
    disk_faults: u64,
    handed: u64,
    closed: u64,
}

impl Model for MemBay {
    ghost use Rattle.disk_memory_bay.specs.MemBay.{MemBayState};

    ghost Value = { MemBayState };

    ghost view = { λ m. record {
      room = m.room;
      fails = m.fails.items;
      shelves = m.shelves;
      calls = record
          { makes = m.makes; opens = m.opens; closes = m.closes };
      faults = m.faults;
      disk_faults = m.disk_faults;
      handed = m.handed;
      closed =
          m.closed;
    } };
}

impl MemBay {
    /// A bay with nothing under any name, whose disks are to have room for so many writes each. It takes its
    /// memory from here; this takes none.
    pub fn new(alloc: Global, room: u32) -> MemBay
        ensures { result ≡ record {
          room = room;
          fails = [];
          shelves = [];
          calls = record { makes = 0; opens = 0; closes = 0 };
          faults = 0;
          disk_faults = 0;
          handed = 0;
          closed = 0;
        } }
    {
        MemBay {
            alloc,
            room,
            fails: Vec::new(alloc),
            shelves: Shelves::new(alloc),
            makes: 0,
            opens: 0,
            closes: 0,
            faults: 0,
            disk_faults: 0,
            handed: 0,
            closed: 0,
        }
    }

    /// Puts an image under a name, in place of what was there. No disk was handed back under it yet.
    ///
    /// # Errors
    /// Out of memory, and the bay stays as it was.
    pub fn put(&mut self, name: &str, image: Image) -> Result<(), NoMemory>
        ensures done { OnOk result (Holds name.now (of_image image) self.old.shelves self.new.shelves) }
        ensures rest { self.new ≡ record self.old { shelves = self.new.shelves } }
        ensures same { OnErr result (self.new ≡ self.old) }
    {
        let held = Held::of_image(self.alloc, &image)?;
        self.shelves.hold(self.alloc, name, held)?;
        Ok(())
    }

    /// The blocks of the image under a name, where there is one.
    pub fn image(&self, name: &str) -> Option<&[Block]>
        ensures { option_map (λ blocks. blocks.now) result ≡ option_map (λ h. h.image) (held_in self.now.shelves name.now) }
    {
        let held = self.shelves.held(name)?;
        Some(held.blocks())
    }

    /// The disk that was handed back last under a name, where one was since the image came there.
    pub fn last_disk(&self, name: &str) -> Option<&MemDisk>
        ensures { option_map (λ disk. disk.now) result ≡ last_on (held_in self.now.shelves name.now) }
    {
        self.shelves.held(name)?.last()
    }

    /// The marks that came with the disk that was handed back last under a name. There are none before.
    pub fn last_marks(&self, name: &str) -> &[Mark]
        ensures { result.now ≡ marks_on (held_in self.now.shelves name.now) }
    {
        match self.shelves.held(name) {
            None => &[],
            Some(held) => held.marks(),
        }
    }

    /// From now on exactly these calls of the bay fail, beside those that must. The list takes the place of
    /// the one before.
    ///
    /// # Errors
    /// Out of memory, and the list stays as it was.
    pub fn fail_at(&mut self, list: &[BayFail]) -> Result<(), NoMemory>
        ensures done { OnOk result (self.new ≡ record self.old { fails = list.now }) }
        ensures same { OnErr result (self.new ≡ self.old) }
    {
        self.fails = Vec::from_slice(self.alloc, list)?;
        Ok(())
    }

    /// From now on exactly these calls fail of each disk that is handed out under a name, beside those that
    /// must. The list takes the place of the one before.
    ///
    /// # Errors
    /// Out of memory, and the list stays as it was.
    pub fn disk_fail_at(&mut self, name: &str, list: &[Fail]) -> Result<(), NoMemory>
        ensures done { OnOk result (Lists name.now list.now self.old.shelves self.new.shelves) }
        ensures rest { self.new ≡ record self.old { shelves = self.new.shelves } }
        ensures same { OnErr result (self.new ≡ self.old) }
    {
        self.shelves.list(self.alloc, name, list)?;
        Ok(())
    }

    // Counts a call, and says whether it is listed to fail.
    fn begins(&mut self, call: BayCall) -> bool
        ensures listed { result ≡ fails_next call self.old }
        ensures some { OnTrue result (IsTrue (has_listed self.old.fails)) }
        ensures state { self.new ≡ record self.old { calls = counted call self.old.calls } }
    {
        let nth = self.count(call);
        is_listed(self.fails.as_slice(), call, nth)
    }

    // Counts a call, and gives which of its kind it is.
    fn count(&mut self, call: BayCall) -> u64
        ensures nth { result ≡ next_count (calls_of call self.old.calls) }
        ensures state { self.new ≡ record self.old { calls = counted call self.old.calls } }
    {
        match call {
            BayCall::Make => {
                self.makes = self.makes.saturating_add(1);
                self.makes
            }
            BayCall::Open => {
                self.opens = self.opens.saturating_add(1);
                self.opens
            }
            BayCall::Close => {
                self.closes = self.closes.saturating_add(1);
                self.closes
            }
        }
    }

    // Counts a failed call.
    fn fault(&mut self) -> BayFault
        ensures fault { result ≡ Fault }
        ensures cause { HasBayCause {T = ℕ} (Err result) self.old.faults self.new.faults }
        ensures state { self.new ≡ record self.old { faults = next_count self.old.faults } }
    {
        self.faults = self.faults.saturating_add(1);
        BayFault::Fault
    }

    // A disk that begins with this image, as it is handed out under the name.
    fn disk_of(&self, name: &str, image: Image) -> Result<BayDisk, NoMemory>
        ensures { IfOk result (λ disk. disk ≡ handed_out self.now name.now image) }
    {
        let fails = self.shelves.fails(name);
        let disk = BayDisk::new(self.alloc, image, self.room, fails)?;
        Ok(disk)
    }

    // A disk of so many blocks of zeros, which are under the name from now on.
    fn make_zeros(&mut self, name: &str, blocks: u32) -> Result<BayDisk, NoMemory>
        ensures disk { IfOk result (λ disk. disk ≡ handed_out self.old name.now (zero_blocks blocks)) }
        ensures held { OnOk result (Holds name.now (of_image (zero_blocks blocks)) self.old.shelves self.new.shelves) }
        ensures rest { self.new ≡ record self.old { shelves = self.new.shelves } }
        ensures same { OnErr result (self.new ≡ self.old) }
    {
        let image = Image::zeros(self.alloc, blocks)?;
        let held = Held::of_image(self.alloc, &image)?;
        let disk = self.disk_of(name, image)?;
        self.shelves.hold(self.alloc, name, held)?;
        Ok(disk)
    }
}

impl Bay for MemBay {
    type D = BayDisk;

    ghost tells = { true };

    ghost state = { λ m. bay_of m };

    fn lawful(&self) {
        self.shelves.lawful();
    }

    fn make(&mut self, name: &str, blocks: u32) -> Result<BayDisk, BayFault>
        ensures makes { Makes true (λ disk. state_of disk) name.now blocks result (bay_of self.old) (bay_of self.new) }
        ensures exact { is_fault result ≡ fails_next Make self.old }
        ensures disk { IfOk result (λ disk. disk ≡ handed_out self.old name.now (zero_blocks blocks)) }
        ensures counts { Counts Make result self.old self.new }
    {
        if self.begins(BayCall::Make) {
            return Err(self.fault());
        }
        match self.make_zeros(name, blocks) {
            Err(NoMemory) => Err(BayFault::NoMemory),
            Ok(disk) => {
                self.handed = self.handed.saturating_add(1);
                Ok(disk)
            }
        }
    }

    fn open(&mut self, name: &str) -> Result<BayDisk, BayFault>
        ensures opens { Opens true (λ disk. state_of disk) name.now result (bay_of self.old) (bay_of self.new) }
        ensures exact { is_fault result ≡ open_fails self.old name.now }
        ensures disk { IfOk result (IsOpened self.old name.now) }
        ensures counts { Counts Open result self.old self.new }
    {
        if self.begins(BayCall::Open) {
            return Err(self.fault());
        }
        let Some(held) = self.shelves.held(name) else {
            return Err(self.fault());
        };
        let Ok(image) = held.image(self.alloc) else {
            return Err(BayFault::NoMemory);
        };
        match self.disk_of(name, image) {
            Err(NoMemory) => Err(BayFault::NoMemory),
            Ok(disk) => {
                self.handed = self.handed.saturating_add(1);
                Ok(disk)
            }
        }
    }

    fn close(&mut self, name: &str, disk: BayDisk, marks: Vec<Mark>) -> Result<(), BayFault>
        ensures closes { Closes true name.now (state_of disk) marks.items result (bay_of self.old) (bay_of self.new) }
        ensures exact { result ≡ close_answer self.old name.now (length disk.base) }
        ensures counts { Counts Close result self.old self.new }
    {
        let (read_faults, faults) = disk.counts();
        if read_faults > 0 || faults > 0 {
            self.disk_faults = self.disk_faults.saturating_add(1);
        }
        if self.begins(BayCall::Close) {
            return Err(self.fault());
        }
        if !self.shelves.take_back(name, disk, marks) {
            return Err(self.fault());
        }
        self.closed = self.closed.saturating_add(1);
        Ok(())
    }

    ghost told = { λ tells. tells };
}
