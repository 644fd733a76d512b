//! What writes that are made one by one add to a log, as a law: so far none, one more, all, or a prefix and
//! one that failed. Which writes they are isn't said here.

ghost use Rattle.std.specs.Prelude.{◌≡◌, ◌≤◌, ◌+◌, ◌++◌, ◌∷◌, ◌⊎◌, [], ℕ, List, length, slice_get, Some, Ok};
ghost use Rattle.disk_contract.specs.declared.event.Event.{Event};
ghost use Rattle.disk_contract.specs.declared.event.Event.TheVariants.{Lost};
ghost use Rattle.disk_contract.specs.declared.disk.DiskFault.{DiskFault};
ghost use Rattle.disk_contract.specs.Disk.{AddsWrite};
ghost use Rattle.crash_argument.specs.Writes.{AddsWrites, AddsFront, HasWritten};

/// Writes that are made one by one join a log: so far none, one more, all, or all but one that failed.
pub fn writes_join_a_log_one_by_one()
    ensures none { (ws : List (ℕ × List ℕ)) (start : List ℕ) (old : List Event) → HasWritten ws 0 start start old old }
    ensures more { (ws : List (ℕ × List ℕ)) (k b : ℕ) (x : List ℕ) (t : ℕ) (start now next : List ℕ) (old mid new : List Event)
        → slice_get ws k ≡ Some (b, x) → next ≡ now ++ t ∷ [] → HasWritten ws k start now old mid → AddsWrite {E = DiskFault} b x (Ok t) mid new
        → HasWritten ws (k + 1) start next old new }
    ensures all { (ws : List (ℕ × List ℕ)) (k : ℕ) (start now : List ℕ) (old new : List Event) → length ws ≤ k → HasWritten ws k start now old new
        → (ts : List ℕ) × (now ≡ start ++ ts) × AddsWrites ws ts old new }
    ensures failed { (ws : List (ℕ × List ℕ)) (k b : ℕ) (x : List ℕ) (start now : List ℕ) (old mid new : List Event) → slice_get ws k ≡ Some (b, x)
        → HasWritten ws k start now old mid → (new ≡ mid) ⊎ (new ≡ mid ++ Lost b x ∷ []) → AddsFront ws old new }
{}
