//! Where a ticket of a disk stands among the rows of a mirror's writes, in which the tickets of each disk ascend.

ghost use Rattle.std.specs.Prelude.{◌≡◌, ◌<◌, ◌≤◌, ℕ, true, false, length, get_or, Some, IfSome};
ghost use Rattle.disk_contract.specs.Cell.{is_ticket};
ghost use Rattle.disk_mirror.specs.Twin.{on, no_pair, is_less, AreAscending};

use crate::entry::{Pair, Side};

/// The place of the write with this ticket on the disk, where its tickets ascend.
pub(crate) fn place_with(pairs: &[Pair], side: Side, ticket: u64) -> Option<usize>
    ensures found { IfSome result (λ at. (at < length pairs.now) × (on side (get_or pairs.now at no_pair) ≡ Some ticket)) }
    ensures all { AreAscending side pairs.now → (i : ℕ) → on side (get_or pairs.now i no_pair) ≡ Some ticket → result ≡ Some i }
{
    let at = first_from(pairs, side, ticket);
    if at == pairs.len() {
        return None;
    }
    if is_on(&pairs[at], side, ticket) {
        return Some(at);
    }
    None
}

// The place of the first write whose ticket on the disk isn't less, where its tickets ascend.
fn first_from(pairs: &[Pair], side: Side, ticket: u64) -> usize
    ensures within { result ≤ length pairs.now }
    ensures before { AreAscending side pairs.now → (i : ℕ) → i < result → is_less (on side (get_or pairs.now i no_pair)) (Some ticket) ≡ true }
    ensures behind { AreAscending side pairs.now → (i : ℕ) → result ≤ i → i < length pairs.now
        → is_less (on side (get_or pairs.now i no_pair)) (Some ticket) ≡ false }
{
    let mut low = 0;
    let mut high = pairs.len();
    while low < high {
        let middle = low + (high - low) / 2;
        if is_below(&pairs[middle], side, ticket) {
            low = middle + 1;
        } else {
            high = middle;
        }
    }
    low
}

/// The ticket on this disk.
pub(crate) fn on(pair: &Pair, side: Side) -> Option<u64>
    ensures { result ≡ on side pair.now }
{
    match side {
        Side::First => pair.first,
        Side::Second => pair.second,
    }
}

// Whether this is the ticket on the disk.
fn is_on(pair: &Pair, side: Side, ticket: u64) -> bool
    ensures { result ≡ is_ticket ticket (on side pair.now) }
{
    match on(pair, side) {
        None => false,
        Some(own) => own == ticket,
    }
}

// Whether the ticket on the disk is less.
fn is_below(pair: &Pair, side: Side, ticket: u64) -> bool
    ensures { result ≡ is_less (on side pair.now) (Some ticket) }
{
    match on(pair, side) {
        None => false,
        Some(own) => own < ticket,
    }
}
