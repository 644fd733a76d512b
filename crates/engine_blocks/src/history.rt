//! Blocks as they are now and as they were at each sync point so far. A change keeps what was there
//! before, so a point takes the memory of what was changed since, and making one copies nothing. The
//! memory for changes is made ready before they are made.

ghost use Rattle.std.specs.Prelude.{◌≡◌, ◌+◌, ◌-◌, ◌<◌, ◌≤◌, ◌++◌, ◌∷◌, [], ℕ, List, length, vec_len, vec_capacity, slice_set, slice_index_or, IfOk};
ghost use Rattle.std.specs.Prelude.{OnOk, OnErr};
ghost use Rattle.base_types.specs.Seal.{blocks_of};
ghost use Rattle.engine_blocks.specs.History.{AreSaved, AreUpTo, points_of};

use base_types::{Block, NoMemory};
use std::alloc::Global;
use std::marker::Model;

/// What was in a block before a change.
#[derive(Drop)]
pub(crate) struct Saved {
    block: u32,
    bytes: Block,
}

/// Blocks with what they were at each point.
#[derive(Drop)]
pub(crate) struct History {
    blocks: Vec<Block>,
    /// What was in a block before its first change after a point, the newest last.
    saved: Vec<Saved>,
    /// For each point, how many of these came before it; and the greatest of these numbers.
    starts: Vec<usize>,
    last: usize,
    /// For each block one more than its last place in `saved`, or 0.
    places: Vec<usize>,
}

impl Model for History {
    ghost use Rattle.std.specs.Prelude.{◌-◌, vec_len, vec_capacity};
    ghost use Rattle.engine_blocks.specs.History.{HistoryState, IsHistory, points_of};

    ghost Value = { HistoryState };

    ghost view = { λ h. record {
      now = h.blocks.items;
      points = points_of h.saved.items h.blocks.items h.starts.items;
      room = vec_capacity h.saved -
          vec_len h.saved;
    } };

    ghost invariant = { λ h. IsHistory h.blocks.items h.saved.items h.starts.items h.last h.places.items };
}

impl History {
    /// These blocks, which are point 0.
    ///
    /// # Errors
    /// Out of memory.
    pub(crate) fn new(alloc: Global, blocks: Vec<Block>) -> Result<History, NoMemory>
        ensures now { IfOk result (λ h. h.now ≡ blocks.items) }
        ensures points { IfOk result (λ h. h.points ≡ blocks.items ∷ []) }
    {
        let starts = vec![in alloc; 0usize; 1usize]?;
        let places = vec![in alloc; 0usize; blocks.len()]?;
        Ok(History {
            blocks,
            saved: Vec::new(alloc),
            starts,
            last: 0,
            places,
        })
    }

    /// Block `b` as it is now.
    pub(crate) fn block(&self, b: u32) -> &Block
        requires { b < length self.now.now }
        ensures { result.now ≡ blocks_of self.now.now b }
    {
        &self.blocks[b as usize]
    }

    /// Makes memory ready for so many changes.
    ///
    /// # Errors
    /// Out of memory; what was ready before still is.
    pub(crate) fn reserve(&mut self, changes: usize) -> Result<(), NoMemory>
        ensures now { self.new.now ≡ self.old.now }
        ensures points { self.new.points ≡ self.old.points }
        ensures ok { OnOk result (changes ≤ self.new.room) }
        ensures err { OnErr result (self.new.room ≡ self.old.room) }
    {
        self.saved.reserve(changes)?;
        Ok(())
    }

    /// Changes block `b`. The points stay as they are.
    pub(crate) fn set(&mut self, b: u32, bytes: &Block)
        requires room { 0 < self.old.room }
        requires within { b < length self.old.now }
        ensures now { self.new.now ≡ slice_set self.old.now b bytes.now }
        ensures points { self.new.points ≡ self.old.points }
        ensures room { self.old.room ≤ self.new.room + 1 }
    {
        save(
            &mut self.saved,
            self.places.as_mut_slice(),
            self.last,
            b,
            &self.blocks[b as usize],
        );
        self.blocks[b as usize] = *bytes;
    }

    /// Makes a point of the blocks as they are now.
    ///
    /// # Errors
    /// Out of memory; nothing changed.
    pub(crate) fn make_point(&mut self) -> Result<(), NoMemory>
        ensures now { self.new.now ≡ self.old.now }
        ensures points { OnOk result (self.new.points ≡ self.old.points ++ self.old.now ∷ []) }
        ensures err { OnErr result (self.new.points ≡ self.old.points) }
        ensures room { self.new.room ≡ self.old.room }
    {
        self.starts.push(self.saved.len())?;
        self.last = self.saved.len();
        Ok(())
    }

    /// How many points there are, the first blocks among them.
    pub(crate) fn points(&self) -> usize
        ensures count { result ≡ length self.now.points }
        ensures some { 0 < result }
    {
        self.starts.len()
    }
}

/// Keeps what is in block `b`, unless it was kept since the last point.
fn save(saved: &mut Vec<Saved>, places: &mut [usize], last: usize, b: u32, block: &Block)
    requires room { vec_len saved.old < vec_capacity saved.old }
    requires saves { AreSaved saved.old.items last places.old }
    requires within { b < length places.old }
    ensures saves { AreSaved saved.new.items last places.new }
    ensures points { (now : List (List ℕ)) (starts x : List ℕ) → block.now ≡ slice_index_or now b block.now → AreUpTo last starts
        → points_of saved.new.items (slice_set now b x) starts ≡ points_of saved.old.items now starts }
    ensures capacity { vec_capacity saved.new ≡ vec_capacity saved.old }
    ensures room { vec_len saved.new ≤ vec_len saved.old + 1 }
{
    if places[b as usize] > last {
        return;
    }
    saved.push_reserved(Saved {
        block: b,
        bytes: *block,
    });
    places[b as usize] = saved.len();
}
