//! Lists of block numbers: `Places` one by one, and `RunList` as at most 60 runs of neighbours. Which
//! blocks a list may have is described by the crates that keep them.

ghost use Rattle.std.specs.Prelude.{◌≡◌, ◌<◌, ◌≤◌, ◌==◌, ◌++◌, ℕ, [], ◌∷◌, List, length, IfNone, OnOk, OnErr};
ghost use Rattle.std.specs.Option.{option_to_list};
ghost use Rattle.base_types.specs.declared.places.Run.{Run};

use crate::NoMemory;
use crate::limits::MOST_RUNS;
use arrayvec::ArrayVec;
use std::alloc::Global;
use std::marker::Model;

/// A list of block numbers of any length, which contracts see as that list.
#[derive(Drop)]
pub struct Places {
    numbers: Vec<u32>,
}

impl Model for Places {
    ghost Value = { List ℕ };

    ghost view = { λ p. p.numbers.items };
}

impl Places {
    /// No numbers. This takes no memory.
    pub fn new(alloc: Global) -> Places
        ensures { result ≡ [] }
    {
        Places {
            numbers: Vec::new(alloc),
        }
    }

    /// These very numbers.
    pub fn from_vec(numbers: Vec<u32>) -> Places
        ensures { result ≡ numbers.items }
    {
        Places { numbers }
    }

    /// Adds a number at the end.
    ///
    /// # Errors
    /// Out of memory; the list is as it was.
    pub fn push(&mut self, number: u32) -> Result<(), NoMemory>
        ensures ok { OnOk result (self.new ≡ self.old ++ number ∷ []) }
        ensures err { OnErr result (self.new ≡ self.old) }
    {
        self.numbers.push(number)?;
        Ok(())
    }

    /// Takes all numbers out. What memory they had stays.
    pub fn clear(&mut self)
        ensures { self.new ≡ [] }
    {
        self.numbers.clear();
    }

    /// How many numbers.
    pub fn len(&self) -> usize
        ensures { result ≡ length self.now }
    {
        self.numbers.len()
    }

    /// Whether there are none.
    pub fn is_empty(&self) -> bool
        ensures { result ≡ (length self.now == 0) }
    {
        self.numbers.is_empty()
    }

    /// The numbers in order.
    pub fn as_slice(&self) -> &[u32]
        ensures { result.now ≡ self.now }
    {
        self.numbers.as_slice()
    }
}

/// Neighbouring blocks: the first one's number, and how many.
#[derive(Clone, Copy, Debug, PartialEq, Eq, Default)]
pub struct Run {
    pub first: u32,
    pub count: u32,
}

/// At most 60 runs, as a node has them, which contracts see as their list. It lies in the value itself,
/// so it takes no memory.
#[derive(Debug, PartialEq, Eq, Drop)]
pub struct RunList {
    runs: ArrayVec<Run, MOST_RUNS>,
}

impl Model for RunList {
    ghost use Rattle.std.specs.Prelude.{◌≤◌, List, length};
    ghost use Rattle.base_types.specs.declared.places.Run.{Run};

    ghost Value = { List Run };

    ghost view = { λ r. r.runs.items };

    ghost invariant = { λ r. length r.runs.items ≤ 60 };

    ghost inverse = { λ xs. record { runs = record { items = xs } } };
}

impl RunList {
    /// No runs.
    pub fn new() -> RunList
        ensures { result ≡ [] }
    {
        RunList {
            runs: ArrayVec::new(),
        }
    }

    /// Adds a run at the end. There must be room for it.
    pub fn push(&mut self, run: Run)
        requires { length self.old < 60 }
        ensures { self.new ≡ self.old ++ run ∷ [] }
    {
        self.runs.push(run);
    }

    /// Takes the last run out, where there is one.
    pub fn pop(&mut self) -> Option<Run>
        ensures parts { self.old ≡ self.new ++ option_to_list result }
        ensures none { IfNone result (self.old ≡ []) }
        ensures room { length self.new < 60 }
    {
        self.runs.pop()
    }

    /// How many runs.
    pub fn len(&self) -> usize
        ensures { result ≡ length self.now }
    {
        self.runs.len()
    }

    /// Whether there are none.
    pub fn is_empty(&self) -> bool
        ensures { result ≡ (length self.now == 0) }
    {
        self.runs.is_empty()
    }

    /// The runs in order.
    pub fn as_slice(&self) -> &[Run]
        ensures value { result.now ≡ self.now }
        ensures few { length result.now ≤ 60 }
    {
        self.runs.as_slice()
    }
}
