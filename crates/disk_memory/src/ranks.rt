//! The type `Ranks`: which numbers joined and weren't taken out. The member at a place, in ascending order,
//! is found in steps that grow with the logarithm of the room. It is kept as a tree of counts, whose
//! changes and search are in `counts`. All its memory is taken at `new`. It knows no disk and no tickets.

ghost use Rattle.std.specs.Prelude.{◌≡◌, ◌<◌, ◌+◌, [], length, slice_get, IfOk};
ghost use Rattle.disk_memory.specs.Ranks.{is_member, with_next, without};

use crate::counts::{leaf_at, set_leaf};
use base_types::NoMemory;
use std::alloc::Global;
use std::marker::Model;

/// The numbers that joined and weren't taken out. Contracts see the list of these members in ascending
/// order, how many numbers ever joined, and how many may.
#[derive(Drop)]
pub struct Ranks {
    /// A tree with the root at 1, and the places 2 p and 2 p + 1 below place p. The leaf of number n
    /// is at `size` + n - 1.
    counts: Vec<u32>,
    /// How many leaves the tree has: a power of 2, at least `most`.
    size: usize,
    joined: u32,
    most: u32,
}

impl Model for Ranks {
    ghost use Rattle.disk_memory.specs.Ranks.{RanksState};
    ghost use Rattle.disk_memory.specs.Counts.{marked, IsKept};

    ghost Value = { RanksState };

    ghost view = { λ r. record { members = marked r.counts.items r.size r.joined; joined = r.joined; most = r.most } };

    ghost invariant = { λ r. IsKept r.counts.items r.size r.joined r.most };
}

impl Ranks {
    /// No numbers, and room for those from 1 to `most`.
    ///
    /// # Errors
    /// Out of memory for all of the room.
    pub fn new(alloc: Global, most: u32) -> Result<Ranks, NoMemory>
        ensures { IfOk result (λ ranks. ranks ≡ record { members = []; joined = 0; most = most }) }
    {
        let size = (most as usize).next_power_of_two();
        let counts = vec![in alloc; 0u32; 2 * size]?;
        Ok(Ranks {
            counts,
            size,
            joined: 0,
            most,
        })
    }

    /// The next number joins: one more than all that ever joined. There must be room for it.
    pub fn join(&mut self) -> u32
        requires { self.old.joined < self.old.most }
        ensures number { result ≡ self.old.joined + 1 }
        ensures state { self.new ≡ with_next self.old }
    {
        set_leaf(
            self.counts.as_mut_slice(),
            self.size,
            self.joined as usize,
            1,
        );
        self.joined += 1;
        self.joined
    }

    /// Takes a number out. Whether it was a member; where it wasn't, nothing changes.
    pub fn take_out(&mut self, number: u32) -> bool
        ensures was { result ≡ is_member number self.old }
        ensures state { self.new ≡ without number self.old }
    {
        let was = self.has(number);
        if was {
            let leaf = number as usize - 1;
            set_leaf(self.counts.as_mut_slice(), self.size, leaf, 0);
        }
        was
    }

    /// Whether this number is a member.
    pub fn has(&self, number: u32) -> bool
        ensures { result ≡ is_member number self.now }
    {
        if number > self.joined {
            return false;
        }
        if number == 0 {
            return false;
        }
        let leaf = number as usize - 1;
        self.counts[self.size + leaf] == 1
    }

    /// How many members there are.
    pub fn len(&self) -> u32
        ensures { result ≡ length self.now.members }
    {
        self.counts[1]
    }

    /// The member at this place of them in ascending order, the first of which is 0, where there is one.
    pub fn at(&self, place: u32) -> Option<u32>
        ensures { result ≡ slice_get self.now.members place }
    {
        let count = self.len();
        if place >= count {
            return None;
        }
        let leaf = leaf_at(self.counts.as_slice(), self.size, place);
        Some(leaf as u32 + 1)
    }
}
