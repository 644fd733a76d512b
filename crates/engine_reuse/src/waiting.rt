//! Freed blocks that wait, each with the number of the record that freed it, in the order of these numbers.
//! When they may be given up is for the caller to say.

ghost use Rattle.std.specs.Prelude.{◌≡◌, ◌+◌, ◌<◌, ◌≤◌, ◌||◌, ℕ, not, length, take, drop, ◌++◌, ◌∷◌, map, filter, AllPairs};
ghost use Rattle.std.specs.VecDeque.{deque_len, deque_capacity};
ghost use Rattle.std.specs.List.{AllWithin};
ghost use Rattle.engine_reuse.specs.declared.waiting.Freed.{Freed};
ghost use Rattle.engine_reuse.specs.Numbers.{is_among, set_of};
ghost use Rattle.engine_reuse.specs.Inside.{is_going_home, blocks_at_rest};

use crate::numbers::Numbers;
use std::collections::VecDeque;

/// A freed block, and the number of the record that freed it.
#[derive(Clone, Copy)]
pub(crate) struct Freed {
    pub(crate) block: u32,
    pub(crate) number: u64,
}

/// Adds these blocks at the end, as freed by the record of this number. There must be room for them.
pub(crate) fn add_waiting(waiting: &mut VecDeque<Freed>, blocks: &[u32], number: u64)
    requires { deque_len waiting.old + length blocks.now ≤ deque_capacity waiting.old }
    ensures items { waiting.new.items ≡ waiting.old.items ++ map (λ b. record { block = b; number = number }) blocks.now }
    ensures len { deque_len waiting.new ≡ deque_len waiting.old + length blocks.now }
    ensures capacity { deque_capacity waiting.new ≡ deque_capacity waiting.old }
{
    for block in blocks {
        waiting.push_back_reserved(Freed {
            block: *block,
            number,
        });
    }
}

/// How many of them were freed by records up to this number.
pub(crate) fn reached(waiting: &VecDeque<Freed>, sure: u64) -> usize
    requires { AllPairs (λ (p : Freed) q. p.number ≤ q.number) waiting.now.items }
    ensures bound { result ≤ length waiting.now.items }
    ensures below { AllWithin (λ (f : Freed). f.number ≤ sure) waiting.now.items 0 result }
    ensures above { AllWithin (λ (f : Freed). sure < f.number) waiting.now.items result (length waiting.now.items) }
{
    waiting.partition_point(|freed| freed.number <= sure)
}

/// Gives up the first `reached` of them, but those whose blocks are going home, which stay, in their order. The
/// blocks that are given up become members of `reusable`.
pub(crate) fn give_up(
    waiting: &mut VecDeque<Freed>,
    reached: usize,
    going_home: &Numbers,
    reusable: &mut Numbers,
)
    requires { reached ≤ length waiting.old.items }
    ensures waiting { waiting.new.items ≡ filter (is_going_home going_home.now.members) (take reached waiting.old.items) ++ drop reached waiting.old.items }
    ensures reusable { reusable.new ≡ set_of reusable.old.limit
        (λ b. is_among b (blocks_at_rest going_home.now.members (take reached waiting.old.items)) || is_among b reusable.old.members) }
    ensures len { deque_len waiting.new ≤ deque_len waiting.old }
    ensures capacity { deque_capacity waiting.new ≡ deque_capacity waiting.old }
{
    reusable.lawful();
    let mut kept = 0;
    for turn in 0..reached {
        let freed = waiting.pop_front().unwrap();
        if going_home.has(freed.block) {
            waiting.push_back_reserved(freed);
            kept += 1;
        } else {
            reusable.put(freed.block);
        }
    }
    waiting.rotate_right(kept);
}
