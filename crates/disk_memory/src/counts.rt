//! A tree of counts in one slice: the root is at 1, below place p stand the places 2 p and 2 p + 1,
//! and the leaves begin at `size`. Each place above the leaves has the sum of the two below it. What the
//! leaves stand for is described in `ranks`.

ghost use Rattle.std.specs.Prelude.{◌≡◌, ◌≢◌, ℕ, ◌+◌, ◌*◌, ◌<◌, ◌≤◌, length, slice_index};
ghost use Rattle.disk_memory.specs.Counts.{AreMarks, AreSums, IsDoubled, sum_from};

/// Makes this leaf 0 or 1, and every count above it the sum of the two below.
pub(crate) fn set_leaf(counts: &mut [u32], size: usize, leaf: usize, mark: u32)
    requires twice { length counts.old ≡ 2 * size }
    requires leaf { leaf < size }
    requires mark { mark ≤ 1 }
    requires sums { AreSums counts.old size }
    requires small { (p : ℕ) → slice_index counts.old p + mark ≤ 4294967295 }
    ensures length { length counts.new ≡ length counts.old }
    ensures sums { AreSums counts.new size }
    ensures leaf { slice_index counts.new (size + leaf) ≡ mark }
    ensures others { (n : ℕ) → n ≢ leaf → slice_index counts.new (size + n) ≡ slice_index counts.old (size + n) }
    ensures close { (p : ℕ) → slice_index counts.new p ≤ slice_index counts.old p + mark }
{
    counts[size + leaf] = mark;
    let mut place = (size + leaf) / 2;
    while place > 0 {
        counts[place] = counts[2 * place] + counts[2 * place + 1];
        place /= 2;
    }
}

/// The leaf of 1 that has so many of these before it. There must be more than that.
pub(crate) fn leaf_at(counts: &[u32], size: usize, rank: u32) -> usize
    requires doubled { (times : ℕ) × IsDoubled times 1 size }
    requires twice { length counts.now ≡ 2 * size }
    requires sums { AreSums counts.now size }
    requires marks { AreMarks counts.now size }
    requires more { rank < slice_index counts.now 1 }
    ensures within { result < size }
    ensures marked { slice_index counts.now (size + result) ≡ 1 }
    ensures before { sum_from counts.now size result ≡ rank }
{
    let mut place = 1;
    let mut left = rank;
    while place < size {
        let first = 2 * place;
        if left < counts[first] {
            place = first;
        } else {
            left -= counts[first];
            place = first + 1;
        }
    }
    place - size
}
