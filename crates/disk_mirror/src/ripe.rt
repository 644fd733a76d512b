//! A tree in one slice that finds the first write that is to be reported: the root is at 1, below place p stand the
//! places 2 p and 2 p + 1, and the leaves begin at `size`, one for each write. A change and a search go along one way
//! between the root and a leaf.

ghost use Rattle.std.specs.Prelude.{◌≡◌, ◌≢◌, ℕ, ◌+◌, ◌*◌, ◌^◌, ◌<◌, ◌≤◌, false, length, None, IfSome};
ghost use Rattle.disk_mirror.specs.Ripe.{AreJoined, IsFirstRipe, is_ripe, joined, ripe_at, ripe_of};

use crate::entry::{Heard, Ripe};

/// Puts this at the leaf, and at each place above it what the two below have together.
pub(crate) fn set_leaf(nodes: &mut [Ripe], size: usize, leaf: usize, ripe: Ripe)
    requires twice { length nodes.old ≡ 2 * size }
    requires leaf { leaf < size }
    requires joins { AreJoined nodes.old size }
    ensures length { length nodes.new ≡ length nodes.old }
    ensures joins { AreJoined nodes.new size }
    ensures leaf { ripe_at nodes.new (size + leaf) ≡ ripe }
    ensures others { (n : ℕ) → n ≢ leaf → ripe_at nodes.new (size + n) ≡ ripe_at nodes.old (size + n) }
{
    nodes[size + leaf] = ripe;
    let mut place = (size + leaf) / 2;
    while place > 0 {
        nodes[place] = join(nodes[2 * place], nodes[2 * place + 1]);
        place /= 2;
    }
}

/// The first leaf that has a write to be reported, where such disks are live.
pub(crate) fn first_ripe(nodes: &[Ripe], size: usize, first: bool, second: bool) -> Option<usize>
    requires twice { length nodes.now ≡ 2 * size }
    requires power { (times : ℕ) × (size ≡ 2 ^ times) }
    requires joins { AreJoined nodes.now size }
    ensures none { result ≡ None → (i : ℕ) → i < size → is_ripe first second (ripe_at nodes.now (size + i)) ≡ false }
    ensures some { IfSome result (λ leaf. IsFirstRipe first second nodes.now size leaf) }
{
    if !is_ripe(&nodes[1], first, second) {
        return None;
    }
    let mut place = 1;
    while place < size {
        let left = 2 * place;
        if is_ripe(&nodes[left], first, second) {
            place = left;
        } else {
            place = left + 1;
        }
    }
    Some(place - size)
}

// What two parts have together.
fn join(a: Ripe, b: Ripe) -> Ripe
    ensures { result ≡ joined a b }
{
    Ripe {
        both: a.both || b.both,
        first: a.first || b.first,
        second: a.second || b.second,
    }
}

// Whether there is a write to be reported, where such disks are live.
fn is_ripe(ripe: &Ripe, first: bool, second: bool) -> bool
    ensures { result ≡ is_ripe first second ripe.now }
{
    if first {
        if second { ripe.both } else { ripe.first }
    } else {
        if second { ripe.second } else { false }
    }
}

/// Where one write is to be reported: where it wasn't yet, and its notice came from each disk that is live.
pub(crate) fn ripe_of(row: &Heard) -> Ripe
    ensures { result ≡ ripe_of row.now }
{
    Ripe {
        both: !row.reported && (row.first && row.second),
        first: !row.reported && row.first,
        second: !row.reported && row.second,
    }
}
