//! Numbers of a list that make way for new ones, which stand in their places: `Runs::renew`. Which numbers
//! must make way is told by a set, `BlockSet`; how a list only grows or is cut is in `runs`.

ghost use Rattle.std.specs.Prelude.{◌≡◌, ◌↔◌, ◌<◌, ◌≤◌, ◌+◌, ◌++◌, ℕ, Bool, true, false, List, length, drop, IsOk, OnOk, OnErr, IfErr};
ghost use Rattle.std.specs.List.{All};
ghost use Rattle.base_types.specs.Layouts.{most_runs};
ghost use Rattle.base_types.specs.Runs.{blocks_from, run_places};
ghost use Rattle.layout_extent.specs.Renew.{IsJoined, makes_way, renew, renewed};
ghost use Rattle.layout_extent.specs.Runs.{LieBelow, most_blocks, stretches};

use crate::runs::{MOST_STRETCHES, Runs, Scattered, goes_on};
use base_types::{Layout, Run};

/// A set of block numbers, which is asked for one number after the other.
pub trait BlockSet {
    ghost has: { Self → ℕ → Bool };

    /// Whether this number is in the set.
    fn has(&self, number: u32) -> bool
        ensures { result ≡ has self.now number };
}

impl Runs {
    /// At places from `from` on below `past` the numbers that are in the set make way for the first of these
    /// numbers, as far as there are any; the others come at the end. Each must be below 1,048,576. Where there
    /// is no such place this is `append`. It takes no memory, and it costs a step for each of these places and
    /// numbers.
    ///
    /// # Errors
    /// The list would have more stretches of neighbours than a node of this layout has runs; it is as it was.
    pub fn renew<S: BlockSet>(
        &mut self,
        from: u32,
        past: u32,
        set: &S,
        list: &[u32],
        layout: Layout,
    ) -> Result<(), Scattered>
        requires ordered { from ≤ past }
        requires below { All (λ number. number < most_blocks) list.now }
        ensures exact { IsOk result ↔ (stretches (renewed from past (S.has set.now) self.old list.now) ≤ most_runs layout) }
        ensures ok { OnOk result (self.new ≡ renewed from past (S.has set.now) self.old list.now) }
        ensures runs { IfErr result (λ scattered. scattered.runs ≡ stretches (renewed from past (S.has set.now) self.old list.now)) }
        ensures err { OnErr result (self.new ≡ self.old) }
    {
        let count = self.count();
        let first = from.min(count);
        let last = past.min(count);
        if first == last {
            return self.append(list, layout);
        }
        let most = layout.most_runs() as u64;
        let joining = self.joined_anew(first, last, set, list);
        if joining.runs > most {
            return Err(Scattered { runs: joining.runs });
        }
        *self = joining.kept;
        Ok(())
    }

    /// The list as `renew` makes it, with as many stretches as it has.
    fn joined_anew<S: BlockSet>(&self, from: u32, past: u32, set: &S, list: &[u32]) -> Joining
        requires ordered { from ≤ past }
        requires within { past ≤ length self.now }
        requires below { All (λ number. number < most_blocks) list.now }
        ensures { IsJoined result (renewed from past (S.has set.now) self.now list.now) }
    {
        let mut joining = Joining::of(self.front(from));
        let used = joining.push_renewed(self, from, past, set, list);
        joining.push_behind(self.list().as_slice(), past);
        joining.push_numbers(&list[used..]);
        joining
    }
}

/// A list that is joined piece by piece: its numbers as long as they have room, how many stretches it has by
/// now, and the number that would go on with it.
#[derive(Drop)]
struct Joining {
    kept: Runs,
    runs: u64,
    next: Option<u32>,
}

impl Joining {
    /// These numbers.
    fn of(kept: Runs) -> Joining
        ensures holds { IsJoined result kept }
        ensures few { result.runs ≤ 60 }
    {
        let runs = kept.list().len() as u64;
        let next = kept.next();
        Joining { kept, runs, next }
    }

    /// The numbers of a run come behind.
    fn push(&mut self, run: Run)
        requires some { 0 < run.count }
        requires below { run.first + run.count ≤ most_blocks }
        requires holds { (xs : List ℕ) × IsJoined self.old xs }
        requires few { self.old.runs < 18446744073709551615 }
        ensures holds { (xs : List ℕ) → IsJoined self.old xs → IsJoined self.new (xs ++ blocks_from run.first run.count) }
        ensures few { self.new.runs ≤ self.old.runs + 1 }
    {
        if !goes_on(self.next, run.first) {
            self.runs += 1;
        }
        if self.runs <= MOST_STRETCHES {
            self.kept.add(run);
        }
        self.next = Some(run.first + run.count);
    }

    /// These numbers come behind.
    fn push_numbers(&mut self, list: &[u32])
        requires below { All (λ number. number < most_blocks) list.now }
        requires holds { (xs : List ℕ) × IsJoined self.old xs }
        requires few { self.old.runs ≤ 8589934592 }
        ensures { (xs : List ℕ) → IsJoined self.old xs → IsJoined self.new (xs ++ list.now) }
    {
        for number in list {
            self.push(alone(*number));
        }
    }

    /// The numbers of these runs come behind, without the first `skipped` ones.
    fn push_behind(&mut self, runs: &[Run], skipped: u32)
        requires below { LieBelow most_blocks runs.now }
        requires short { length runs.now ≤ 60 }
        requires holds { (xs : List ℕ) × IsJoined self.old xs }
        requires few { self.old.runs ≤ 4294967400 }
        ensures holds { (xs : List ℕ) → IsJoined self.old xs → IsJoined self.new (xs ++ drop skipped (run_places runs.now)) }
        ensures few { self.new.runs ≤ self.old.runs + 60 }
    {
        let mut left = skipped;
        for run in runs {
            if left < run.count {
                self.push(Run {
                    first: run.first + left,
                    count: run.count - left,
                });
            }
            left = left.saturating_sub(run.count);
        }
    }

    /// The numbers of a list at these places come behind, where those of the set make way for new ones as far
    /// as there are any. Answers how many of the new ones came.
    fn push_renewed<S: BlockSet>(
        &mut self,
        old: &Runs,
        from: u32,
        past: u32,
        set: &S,
        list: &[u32],
    ) -> usize
        requires ordered { from ≤ past }
        requires within { past ≤ length old.now }
        requires below { All (λ number. number < most_blocks) list.now }
        requires holds { (xs : List ℕ) × IsJoined self.old xs }
        requires few { self.old.runs ≤ 60 }
        ensures used { result ≤ length list.now }
        ensures holds { (xs : List ℕ) → IsJoined self.old xs → (ys : List ℕ) × IsJoined self.new ys
            × (ys ++ renew (makes_way from past (S.has set.now) old.now) past (drop past old.now) (drop result list.now)
            ≡ xs ++ renew (makes_way from past (S.has set.now) old.now) from (drop from old.now) list.now) }
        ensures few { self.new.runs ≤ self.old.runs + past }
    {
        let mut used = 0;
        for place in from..past {
            let mut number = old.place(place);
            if comes(set, number, list, used) {
                number = list[used];
                used += 1;
            }
            self.push(alone(number));
        }
        used
    }
}

/// Whether one of these numbers, of which so many were used, comes in the stead of this one.
fn comes<S: BlockSet>(set: &S, number: u32, list: &[u32], used: usize) -> bool
    ensures more { result ≡ true → used < length list.now }
    ensures has { result ≡ true → S.has set.now number ≡ true }
    ensures stays { result ≡ false → used < length list.now → S.has set.now number ≡ false }
{
    if used < list.len() {
        return set.has(number);
    }
    false
}

/// A run of one number.
fn alone(number: u32) -> Run
    ensures first { result.first ≡ number }
    ensures count { result.count ≡ 1 }
{
    Run {
        first: number,
        count: 1,
    }
}
