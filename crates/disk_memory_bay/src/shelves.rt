//! The shelves of a bay in memory: under each name what is held, and which calls of its disks are to fail. There
//! are as few names as a test has, so a name is found by going along them.

ghost use Rattle.std.specs.Prelude.{◌≡◌, [], ◌∷◌, ◌++◌, length, option_map, is_some, IfSome, OnOk, OnErr, Some};
ghost use Rattle.std.specs.Bool.{OnTrue, OnFalse};
ghost use Rattle.disk_memory_bay.specs.Shelves.{held_in, fails_in, shelf_of, place_of, has_blocks, AreSound, Holds, Lists, TakesDisk};

use crate::BayDisk;
use crate::held::Held;
use base_types::NoMemory;
use disk_contract::{Disk, Mark};
use disk_memory::Fail;
use std::alloc::Global;
use std::marker::Model;

/// A name, which calls of its disks are to fail, and what is held under it.
#[derive(Drop)]
struct Shelf {
    name: String,
    fails: Vec<Fail>,
    held: Option<Held>,
}

impl Model for Shelf {
    ghost use Rattle.std.specs.String.{string_bytes};
    ghost use Rattle.disk_memory_bay.specs.Shelves.{ShelfState};

    ghost Value = { ShelfState };

    ghost view = { λ s. record { name = string_bytes s.name; fails = s.fails.items; held = s.held } };
}

/// All shelves. Where two had one name, the first would count.
#[derive(Drop)]
pub(crate) struct Shelves {
    shelves: Vec<Shelf>,
}

impl Model for Shelves {
    ghost use Rattle.std.specs.Prelude.{List};
    ghost use Rattle.disk_memory_bay.specs.Shelves.{ShelfState, AreSound};

    ghost Value = { List ShelfState };

    ghost view = { λ s. s.shelves.items };

    ghost invariant = { λ s. AreSound s.shelves.items };
}

impl Shelves {
    /// No shelves. This takes no memory.
    pub(crate) fn new(alloc: Global) -> Shelves
        ensures { result ≡ [] }
    {
        Shelves {
            shelves: Vec::new(alloc),
        }
    }

    /// Does nothing. A proof learns from the call that what is held under each name is sound.
    pub(crate) fn lawful(&self)
        ensures { AreSound self.now }
    {
        let _ = &self.shelves;
    }

    /// What is held under a name.
    pub(crate) fn held(&self, name: &str) -> Option<&Held>
        ensures { option_map (λ held. held.now) result ≡ held_in self.now name.now }
    {
        let shelf = shelf_of(self.shelves.as_slice(), name)?;
        shelf.held.as_ref()
    }

    /// Which calls of the disks of a name are to fail.
    pub(crate) fn fails(&self, name: &str) -> &[Fail]
        ensures { result.now ≡ fails_in self.now name.now }
    {
        match shelf_of(self.shelves.as_slice(), name) {
            None => &[],
            Some(shelf) => shelf.fails.as_slice(),
        }
    }

    /// Puts this under a name, in place of what was held there.
    ///
    /// # Errors
    /// Out of memory, and the shelves stay as they were.
    pub(crate) fn hold(&mut self, alloc: Global, name: &str, held: Held) -> Result<(), NoMemory>
        ensures done { OnOk result (Holds name.now held self.old self.new) }
        ensures same { OnErr result (self.new ≡ self.old) }
    {
        held.lawful();
        put_held(alloc, &mut self.shelves, name, held)?;
        Ok(())
    }

    /// Makes these the calls of the disks of a name that are to fail, in place of those that were.
    ///
    /// # Errors
    /// Out of memory, and the shelves stay as they were.
    pub(crate) fn list(&mut self, alloc: Global, name: &str, fails: &[Fail]) -> Result<(), NoMemory>
        ensures done { OnOk result (Lists name.now fails.now self.old self.new) }
        ensures same { OnErr result (self.new ≡ self.old) }
    {
        let fails = Vec::from_slice(alloc, fails)?;
        put_fails(alloc, &mut self.shelves, name, fails)?;
        Ok(())
    }

    /// Takes a disk back under a name, where an image of as many blocks is there, and says whether it did. It
    /// takes no memory.
    pub(crate) fn take_back(&mut self, name: &str, disk: BayDisk, marks: Vec<Mark>) -> bool
        ensures taken { result ≡ has_blocks (length disk.base) (held_in self.old name.now) }
        ensures done { OnTrue result (TakesDisk name.now disk marks.items self.old self.new) }
        ensures same { OnFalse result (self.new ≡ self.old) }
    {
        match place_with(self.shelves.as_slice(), name, disk.blocks()) {
            None => false,
            Some(at) => {
                let held = Held::left_by(disk, marks);
                held.lawful();
                set_held(&mut self.shelves, name, at, held);
                true
            }
        }
    }
}

// The shelf with a name.
fn shelf_of<'a>(shelves: &'a [Shelf], name: &str) -> Option<&'a Shelf>
    ensures { option_map (λ shelf. shelf.now) result ≡ shelf_of shelves.now name.now }
{
    shelves.iter().find(|shelf| shelf.name.as_str() == name)
}

// The place of the shelf with a name.
fn place_of(shelves: &[Shelf], name: &str) -> Option<usize>
    ensures { result ≡ place_of shelves.now name.now }
{
    shelves.iter().position(|shelf| shelf.name.as_str() == name)
}

// The place of the shelf with a name, where an image of so many blocks is held on it.
fn place_with(shelves: &[Shelf], name: &str, blocks: u32) -> Option<usize>
    ensures place { IfSome result (λ at. place_of shelves.now name.now ≡ Some at) }
    ensures has { is_some result ≡ has_blocks blocks (held_in shelves.now name.now) }
{
    let at = place_of(shelves, name)?;
    if !has_blocks(&shelves[at], blocks) {
        return None;
    }
    Some(at)
}

// Whether an image of so many blocks is held on a shelf.
fn has_blocks(shelf: &Shelf, blocks: u32) -> bool
    ensures { result ≡ has_blocks blocks shelf.now.held }
{
    match &shelf.held {
        None => false,
        Some(held) => held.blocks().len() == blocks as usize,
    }
}

// Puts this on the shelf with a name, which is at this place.
fn set_held(shelves: &mut Vec<Shelf>, name: &str, at: usize, held: Held)
    requires { place_of shelves.old.items name.now ≡ Some at }
    ensures { Holds name.now held shelves.old.items shelves.new.items }
{
    shelves[at].held = Some(held);
}

// Makes these the failing calls of the shelf with a name, which is at this place.
fn set_fails(shelves: &mut Vec<Shelf>, name: &str, at: usize, fails: Vec<Fail>)
    requires { place_of shelves.old.items name.now ≡ Some at }
    ensures { Lists name.now fails.items shelves.old.items shelves.new.items }
{
    shelves[at].fails = fails;
}

// Puts this on the shelf with a name, which is a new one where there is none.
fn put_held(alloc: Global, shelves: &mut Vec<Shelf>, name: &str, held: Held) -> Result<(), NoMemory>
    ensures done { OnOk result (Holds name.now held shelves.old.items shelves.new.items) }
    ensures same { OnErr result (shelves.new.items ≡ shelves.old.items) }
{
    match place_of(shelves.as_slice(), name) {
        Some(at) => set_held(shelves, name, at, held),
        None => add_shelf(alloc, shelves, name, Vec::new(alloc), Some(held))?,
    }
    Ok(())
}

// Makes these the failing calls of the shelf with a name, which is a new one where there is none.
fn put_fails(
    alloc: Global,
    shelves: &mut Vec<Shelf>,
    name: &str,
    fails: Vec<Fail>,
) -> Result<(), NoMemory>
    ensures done { OnOk result (Lists name.now fails.items shelves.old.items shelves.new.items) }
    ensures same { OnErr result (shelves.new.items ≡ shelves.old.items) }
{
    match place_of(shelves.as_slice(), name) {
        Some(at) => set_fails(shelves, name, at, fails),
        None => add_shelf(alloc, shelves, name, fails, None)?,
    }
    Ok(())
}

// Adds a shelf behind all others.
fn add_shelf(
    alloc: Global,
    shelves: &mut Vec<Shelf>,
    name: &str,
    fails: Vec<Fail>,
    held: Option<Held>,
) -> Result<(), NoMemory>
    ensures done { OnOk result (shelves.new.items ≡ shelves.old.items ++ record { name = name.now; fails = fails.items; held = held } ∷ []) }
    ensures same { OnErr result (shelves.new.items ≡ shelves.old.items) }
{
    let name = String::from_str(alloc, name)?;
    shelves.push(Shelf { name, fails, held })?;
    Ok(())
}
