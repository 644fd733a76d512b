//! A part of the blocks of a node: those from a place on, at most so many, and how many of them snapshots keep.
//! No block is read.

ghost use Rattle.std.specs.Prelude.{◌≡◌, ◌≤◌, ◌-◌, not, take, drop, length, slice_get};
ghost use Rattle.std.specs.List.{filter, range_with_len};
ghost use Rattle.fs_files.specs.Shared.{is_kept_at};

use crate::node_blocks::NodeBlocks;
use crate::shared::Shared;
use base_types::{Run, RunList};
use layout_extent::{Runs, a_list_has_its_runs};

impl NodeBlocks {
    /// At most `count` of the blocks, from the place `from` on, of which the first is 0. There are fewer where the
    /// list ends before. This takes no memory.
    pub fn part(&self, from: u32, count: u32) -> NodeBlocks
        ensures { result ≡ take count (drop from self.now) }
    {
        let mut places = behind(&self.places, from);
        places.cut(count);
        NodeBlocks { places }
    }

    /// How many of `count` of these blocks, from the place `from` on, snapshots keep. Past the last there is none.
    pub fn kept_in(&self, shared: &Shared, from: u32, count: u32) -> u32
        ensures kept { result ≡ length (filter (λ i. is_kept_at shared.now (slice_get self.now i)) (range_with_len from count)) }
        ensures rest { length (filter (λ i. not (is_kept_at shared.now (slice_get self.now i))) (range_with_len from count)) ≡ count - result }
        ensures most { result ≤ count }
    {
        if shared.is_empty() {
            return 0;
        }
        let part = self.part(from, count);
        let mut kept = 0;
        for i in 0..part.places.count() {
            if shared.keeps(part.places.place(i)) {
                kept += 1;
            }
        }
        kept
    }
}

/// The numbers behind the first `count`.
fn behind(places: &Runs, count: u32) -> Runs
    ensures { result ≡ drop count places.now }
{
    a_list_has_its_runs();
    let mut rest = RunList::new();
    let mut left = count;
    for run in places.list().as_slice() {
        let gone = run.count.min(left);
        if gone < run.count {
            rest.push(Run {
                first: run.first + gone,
                count: run.count - gone,
            });
        }
        left -= gone;
    }
    Runs::of(rest)
}
