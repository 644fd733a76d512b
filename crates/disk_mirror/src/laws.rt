//! Laws of marks, each an empty function whose clauses say it.

ghost use Rattle.std.specs.Prelude.{◌≡◌, ℕ, ◌≤◌, Bool, false, List, length};
ghost use Rattle.disk_mirror.specs.Times.{Ascend, moment_of, moment_on};

/// The disk's own moment for the mirror's first j events is at most k exactly where these events are among those of the
/// mirror's moment that stands for k. Of a disk that is down that is said of events up to its end. And a disk's moments
/// ascend with those of the mirror.
pub fn a_mark_has_come_at_its_moment()
    ensures came { (j k : ℕ) (times : List ℕ) (live : Bool) (end : ℕ) → Ascend times → j ≤ length times → (live ≡ false → j ≤ end)
        → moment_on j times ≤ k → j ≤ moment_of live end k times }
    ensures order { (i j : ℕ) (times : List ℕ) → Ascend times → i ≤ j → j ≤ length times → moment_on i times ≤ moment_on j times }
    ensures back { (j k : ℕ) (times : List ℕ) (live : Bool) (end : ℕ) → j ≤ moment_of live end k times → moment_on j times ≤ k }
{}
