//! Which nodes may be unused, as far as that is known from one command to the next. Which one of them is unused
//! is told by the node table alone.

ghost use Rattle.std.specs.Prelude.{◌≡◌, ◌+◌, ◌==◌, ◌≤◌, ◌<◌, ◌≢◌, ℕ, nat_lt, filter, false, length};
ghost use Rattle.std.specs.List.{list_any};
ghost use Rattle.arrayvec.specs.ArrayVec.{array_vec_len};
ghost use Rattle.crash_stands.specs.Files.{Files};
ghost use Rattle.fs_session.specs.Sessions.{AreUsedBelow, AreUsedBut, KeepsUsed};
ghost use Rattle.fs_session.specs.declared.unused.NodeUse.TheVariants.{Dropped, Taken};

use arrayvec::ArrayVec;

/// How many holes are kept at most.
const MOST_HOLES: usize = 64;

/// What a change makes of the nodes in use.
#[derive(Clone, Copy, Debug, PartialEq, Eq)]
pub enum NodeUse {
    /// Those in use stay so.
    Stays,
    /// Those in use stay so, and then all up to this one are in use.
    Taken(u32),
    /// Those in use stay so, but for this one.
    Dropped(u32),
}

/// Which nodes may be unused: those of a number above `used_to`, and the holes. It lies in the value itself, so it
/// takes no memory.
#[derive(Drop)]
pub struct UnusedNodes {
    /// All nodes of a number from 1 up to this one are in use, but for the holes.
    used_to: u32,
    /// In any order.
    holes: ArrayVec<u32, MOST_HOLES>,
}

impl UnusedNodes {
    /// Any node may be unused.
    pub fn new() -> UnusedNodes
        ensures { (files : Files) → AreUsedBut files result }
    {
        UnusedNodes {
            used_to: 0,
            holes: ArrayVec::new(),
        }
    }

    /// The least number of a node that may be unused.
    pub fn least(&self) -> u32
        ensures above_zero { 1 ≤ result }
        ensures used { (files : Files) → AreUsedBut files self.now → AreUsedBelow files result }
    {
        least_of(self.holes.as_slice(), self.used_to.saturating_add(1)).max(1)
    }

    /// A change was made that uses nodes so.
    pub(crate) fn follow(&mut self, change: NodeUse)
        ensures { (old new : Files) → KeepsUsed change old new → AreUsedBut old self.old → AreUsedBut new self.new }
    {
        match change {
            NodeUse::Stays => {}
            NodeUse::Taken(number) => self.take(number),
            NodeUse::Dropped(number) => self.drop_node(number),
        }
    }

    /// All nodes up to this one are in use now.
    fn take(&mut self, number: u32)
        ensures { (old new : Files) → KeepsUsed (Taken number) old new → AreUsedBut old self.old → AreUsedBut new self.new }
    {
        self.used_to = self.used_to.max(number);
        keep_above(&mut self.holes, number);
    }

    /// A node may be unused now. Where there is no room for one more hole, the greatest one goes first.
    fn drop_node(&mut self, number: u32)
        ensures { (old new : Files) → KeepsUsed (Dropped number) old new → AreUsedBut old self.old → AreUsedBut new self.new }
    {
        if number > self.used_to {
            return;
        }
        if self.holes.is_full() {
            self.forget_greatest();
        }
        self.holes.push(number);
    }

    /// The greatest hole goes, and nothing is known of the nodes from it on.
    fn forget_greatest(&mut self)
        requires { 0 < array_vec_len self.old.holes }
        ensures used { (files : Files) → AreUsedBut files self.old → AreUsedBut files self.new }
        ensures room { array_vec_len self.new.holes + 1 ≡ array_vec_len self.old.holes }
    {
        let place = greatest_place(self.holes.as_slice());
        let hole = self.holes.remove(place);
        self.used_to = self.used_to.min(hole.saturating_sub(1));
    }
}

/// Takes the holes up to this number out.
fn keep_above(holes: &mut ArrayVec<u32, MOST_HOLES>, number: u32)
    ensures { holes.new.items ≡ filter (λ hole. nat_lt number hole) holes.old.items }
{
    holes.retain(|hole| number < *hole);
}

/// The least of these numbers and `most`.
fn least_of(numbers: &[u32], most: u32) -> u32
    ensures most { result ≤ most }
    ensures below { (l : ℕ) → l < result → list_any (λ n. n == l) numbers.now ≡ false }
{
    let mut least = most;
    for number in numbers {
        least = least.min(*number);
    }
    least
}

/// The place of the greatest of these numbers.
fn greatest_place(numbers: &[u32]) -> usize
    requires { 0 < length numbers.now }
    ensures { result < length numbers.now }
{
    let mut greatest = 0;
    for place in 0..numbers.len() {
        if numbers[place] > numbers[greatest] {
            greatest = place;
        }
    }
    greatest
}
