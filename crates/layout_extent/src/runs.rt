//! The type `Runs`. Its runs are always tidy, and their numbers are those of blocks of a disk. Which
//! blocks a list may have is described by the crates that keep one.

ghost use Rattle.std.specs.Prelude.{◌≡◌, ◌↔◌, ◌<◌, ◌≤◌, ◌+◌, ◌++◌, [], length, take, slice_get, Some, IfSome, IsOk, OnOk, OnErr, IfErr};
ghost use Rattle.std.specs.List.{All};
ghost use Rattle.base_types.specs.Layouts.{most_runs};
ghost use Rattle.base_types.specs.Runs.{blocks_from, run_places};
ghost use Rattle.layout_extent.specs.Runs.{AreTidy, LieBelow, most_blocks, runs_of, stretches};
ghost use Rattle.layout_extent.specs.Next.{next_number, goes_on};

use base_types::limits::MOST_RUNS;
use base_types::{Layout, Run, RunList};
use std::error::Error;
use std::fmt;
use std::marker::Model;

/// The most stretches that a list may have, in any layout.
pub(crate) const MOST_STRETCHES: u64 = MOST_RUNS as u64;

/// A list would have more stretches of neighbours than there is room for.
#[derive(Clone, Copy, Debug)]
pub struct Scattered {
    /// How many stretches it would have.
    pub runs: u64,
}

impl fmt::Display for Scattered {
    fn fmt<W: fmt::Write>(&self, f: &mut fmt::Formatter<W>) -> fmt::Result {
        write!(
            f,
            "the blocks lie in {} runs, more than there is room for",
            self.runs
        )
    }
}

impl Error for Scattered {}

/// A list of block numbers, each below 1,048,576, which contracts see as that list. It is kept as at
/// most 60 runs in the value itself, so it takes no memory.
#[derive(Drop)]
pub struct Runs {
    list: RunList,
}

impl Model for Runs {
    ghost use Rattle.std.specs.Prelude.{ℕ, List};
    ghost use Rattle.base_types.specs.Runs.{run_places};
    ghost use Rattle.std.proofs.Common.{ap};
    ghost use Rattle.base_types.specs.declared.places.Run.{Run};
    ghost use Rattle.layout_extent.specs.Runs.{AreTidy, LieBelow, most_blocks, runs_of};
    ghost use Rattle.layout_extent.specs.TidyLaws.{runs_of_places};

    ghost Value = { List ℕ };

    ghost view = { λ r. run_places r.list };

    ghost invariant = { λ r. AreTidy r.list × LieBelow most_blocks r.list };

    ghost inverse = { λ xs. record { list = runs_of xs } };

    ghost inverse_ok = { λ r tidy. ap (λ (rs : List Run). record { list = rs }) (runs_of_places r.list tidy.0) };
}

impl Runs {
    /// No numbers.
    pub fn new() -> Runs
        ensures { result ≡ [] }
    {
        Runs {
            list: RunList::new(),
        }
    }

    /// The numbers of these runs, in order. Each run must have numbers of blocks, and none may begin
    /// right behind the end of the one before.
    pub fn of(list: RunList) -> Runs
        requires tidy { AreTidy list }
        requires below { LieBelow most_blocks list }
        ensures { result ≡ run_places list }
    {
        Runs { list }
    }

    /// The runs of the list, in order.
    pub fn list(&self) -> &RunList
        ensures value { result.now ≡ runs_of self.now }
        ensures below { LieBelow most_blocks result.now }
    {
        &self.list
    }

    /// How many numbers the list has: at most 60 times 1,048,576.
    pub fn count(&self) -> u32
        ensures value { result ≡ length self.now }
        ensures most { result ≤ 62914560 }
    {
        let mut total = 0;
        for run in self.list.as_slice() {
            total += run.count;
        }
        total
    }

    /// The number at this place, the first of which is 0. The list must have that place.
    pub fn place(&self, i: u32) -> u32
        requires { i < length self.now }
        ensures value { slice_get self.now i ≡ Some result }
        ensures below { result < most_blocks }
    {
        place_in(self.list.as_slice(), i).unwrap()
    }

    /// Adds numbers at the end, each of which must be below 1,048,576.
    ///
    /// # Errors
    /// The list would have more stretches of neighbours than a node of this layout has runs; it is as it was.
    pub fn append(&mut self, list: &[u32], layout: Layout) -> Result<(), Scattered>
        requires { All (λ number. number < most_blocks) list.now }
        ensures exact { IsOk result ↔ (stretches (self.old ++ list.now) ≤ most_runs layout) }
        ensures ok { OnOk result (self.new ≡ self.old ++ list.now) }
        ensures runs { IfErr result (λ scattered. scattered.runs ≡ stretches (self.old ++ list.now)) }
        ensures err { OnErr result (self.new ≡ self.old) }
    {
        let most = layout.most_runs() as u64;
        let runs = self.joined(list);
        if runs > most {
            return Err(Scattered { runs });
        }
        for number in list {
            self.add(Run {
                first: *number,
                count: 1,
            });
        }
        Ok(())
    }

    /// Keeps the first `count` numbers, or all where there are fewer.
    pub fn cut(&mut self, count: u32)
        ensures { self.new ≡ take count self.old }
    {
        *self = self.front(count);
    }

    /// The first `count` numbers, or all where there are fewer.
    pub(crate) fn front(&self, count: u32) -> Runs
        ensures { result ≡ take count self.now }
    {
        let mut kept = RunList::new();
        let mut left = count;
        for run in self.list.as_slice() {
            if left > 0 {
                kept.push(Run {
                    first: run.first,
                    count: run.count.min(left),
                });
            }
            left = left.saturating_sub(run.count);
        }
        Runs { list: kept }
    }

    /// How many stretches the list would have with these numbers at its end.
    fn joined(&self, list: &[u32]) -> u64
        requires { All (λ number. number < most_blocks) list.now }
        ensures { result ≡ stretches (self.now ++ list.now) }
    {
        let mut runs = self.list.as_slice().len() as u64;
        let mut next = self.next();
        for number in list {
            if !goes_on(next, *number) {
                runs += 1;
            }
            next = Some(*number + 1);
        }
        runs
    }

    /// The number that would go on with the last run, where there is one.
    pub(crate) fn next(&self) -> Option<u32>
        ensures { result ≡ next_number self.now }
    {
        let last = self.list.as_slice().last()?;
        Some(last.first + last.count)
    }

    /// Adds the numbers of a run at the end, for which there must be room.
    pub(crate) fn add(&mut self, run: Run)
        requires some { 0 < run.count }
        requires below { run.first + run.count ≤ most_blocks }
        requires room { stretches (self.old ++ blocks_from run.first run.count) ≤ 60 }
        ensures { self.new ≡ self.old ++ blocks_from run.first run.count }
    {
        match self.list.pop() {
            Some(last) => {
                let next = last.first + last.count;
                if run.first == next {
                    self.list.push(Run {
                        first: last.first,
                        count: last.count + run.count,
                    });
                } else {
                    self.list.push(last);
                    self.list.push(run);
                }
            }
            None => self.list.push(run),
        }
    }
}

/// Whether this number is the one that goes on with the last run.
pub(crate) fn goes_on(next: Option<u32>, number: u32) -> bool
    ensures { result ≡ goes_on next number }
{
    match next {
        Some(next) => number == next,
        None => false,
    }
}

/// The number at this place of the runs' numbers.
fn place_in(runs: &[Run], place: u32) -> Option<u32>
    requires { LieBelow most_blocks runs.now }
    ensures value { result ≡ slice_get (run_places runs.now) place }
    ensures below { IfSome result (λ number. number < most_blocks) }
{
    let mut left = place;
    for run in runs {
        if left < run.count {
            return Some(run.first + left);
        }
        left -= run.count;
    }
    None
}
