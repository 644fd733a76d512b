//! How many writes a session makes, as laws: what the sync points account for bounds them, at each kind of
//! write. Which write is made when isn't said here.

ghost use Rattle.std.specs.Prelude.{◌≡◌, ◌⊎◌, ℕ, ◌+◌, ◌<◌, ◌≤◌, ◌++◌, List, length, Option, Result, Ok, Err};
ghost use Rattle.disk_contract.specs.declared.event.Event.{Event};
ghost use Rattle.disk_contract.specs.declared.disk.DiskFault.{DiskFault};
ghost use Rattle.disk_contract.specs.Disk.{AddsWrite, AddsPoll, AddsNotices, writes_in};
ghost use Rattle.crash_argument.specs.Counts.{WriteCounts, AreCounted, AreAtMost, AreWithinSum, counts_at_mount, with_point, with_part};
ghost use Rattle.crash_argument.specs.Counts.{with_home_write, without_payloads, with_header_write, MovesOn};

/// The writes are within what the points account for as a mount ends, and after each write.
pub fn writes_keep_within_the_sum()
    ensures begins { (last : ℕ) → AreWithinSum (counts_at_mount last) }
    ensures point { (c : WriteCounts) (m n d : ℕ) → c.coming ≡ 0 → AreWithinSum c → AreWithinSum (with_point c m n d) }
    ensures part { (c : WriteCounts) → 0 < c.coming → AreWithinSum c → AreWithinSum (with_part c) }
    ensures home { (c : WriteCounts) (count : ℕ) → 0 < count → count ≤ c.away → AreWithinSum c → AreWithinSum (with_home_write c count) }
    ensures fewer { (c : WriteCounts) (count : ℕ) → AreWithinSum c → AreWithinSum (without_payloads c count) }
    ensures header { (c : WriteCounts) (sure start : ℕ) → MovesOn c sure start → AreWithinSum c → AreWithinSum (with_header_write c sure start) }
{}

/// Each call of a disk adds one write at most, and only a write adds one.
pub fn calls_add_at_most_one_write()
    ensures write { (b : ℕ) (x : List ℕ) (r : Result ℕ DiskFault) (old new : List Event) → AddsWrite b x r old new → writes_in new ≤ writes_in old + 1 }
    ensures poll { (r : Result (Option ℕ) DiskFault) (old new : List Event) → AddsPoll r old new → writes_in new ≡ writes_in old }
    ensures wait { (old new : List Event) → AddsNotices old new → writes_in new ≡ writes_in old }
{}

/// The counts are those of the log since the mount: they begin so, and stay so with each call. So at each
/// moment since the mount the writes number at most what the points account for, those of the last moment
/// included.
pub fn the_counts_are_of_the_log()
    ensures begins { (log : List Event) (last : ℕ) → AreCounted (length log) log (counts_at_mount last) }
    ensures accepted { (mounted b t : ℕ) (x : List ℕ) (old new : List Event) (c now : WriteCounts) → mounted ≤ length old
        → AddsWrite {E = DiskFault} b x (Ok t) old new → now.writes ≡ c.writes + 1 → AreCounted mounted old c → AreCounted mounted new now }
    ensures failed { (mounted b : ℕ) (x : List ℕ) (e : DiskFault) (old new : List Event) (c now : WriteCounts) → mounted ≤ length old
        → AddsWrite b x (Err e) old new → now.writes ≡ c.writes + 1 → AreCounted mounted old c → AreCounted mounted new c
        ⊎ AreCounted mounted new now }
    ensures poll { (mounted : ℕ) (r : Result (Option ℕ) DiskFault) (old new : List Event) (c : WriteCounts) → mounted ≤ length old
        → AddsPoll r old new → AreCounted mounted old c → AreCounted mounted new c }
    ensures wait { (mounted : ℕ) (old new : List Event) (c : WriteCounts) → mounted ≤ length old → AddsNotices old new → AreCounted mounted old c
        → AreCounted mounted new c }
    ensures more { (mounted : ℕ) (old more : List Event) (c now : WriteCounts) → mounted ≤ length old → now.writes ≡ c.writes + writes_in more
        → AreCounted mounted old c → AreCounted mounted (old ++ more) now }
    ensures within { (mounted : ℕ) (log : List Event) (c : WriteCounts) → AreCounted mounted log c → AreWithinSum c → AreAtMost mounted log c.sum }
{}
