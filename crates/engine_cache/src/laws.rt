//! Laws on caches and disks, each an empty function whose clauses say it.

ghost use Rattle.std.specs.Prelude.{◌≡◌, ℕ, List, [], ◌∷◌, ◌++◌, Result, Ok, Contains};
ghost use Rattle.disk_contract.specs.declared.event.Event.{Event};
ghost use Rattle.disk_contract.specs.declared.event.Event.TheVariants.{Wrote};
ghost use Rattle.disk_contract.specs.declared.disk.DiskFault.{DiskFault};
ghost use Rattle.disk_contract.specs.Disk.{State, SameDisk, AddsWrite};
ghost use Rattle.engine_cache.specs.Cache.{Cache, empty_cache, without, IsKept, Agrees, ComesIn};

/// A cache that keeps nothing agrees with each disk.
pub fn a_new_cache_agrees()
    ensures { (capacity : ℕ) (s : State) → Agrees (empty_cache capacity) s }
{}

/// What a cache that agrees with a disk must do as events come, so that it agrees with the disk then: nothing,
/// where no write to a kept block was accepted; and at a write it may forget the block, or note the bytes
/// of an accepted one.
pub fn a_cache_goes_on_agreeing()
    ensures events { (c : Cache) (old new : State) (more : List Event) → SameDisk old new → new.log ≡ old.log ++ more
        → ((ticket b : ℕ) (x : List ℕ) → Contains more (Wrote ticket b x) → ¬ IsKept b c) → Agrees c old → Agrees c new }
    ensures forgotten { (c : Cache) (old new : State) (b : ℕ) (x : List ℕ) (result : Result ℕ DiskFault) → SameDisk old new
        → AddsWrite b x result old.log new.log → Agrees c old → Agrees (without b c) new }
    ensures noted { (c d : Cache) (old new : State) (b : ℕ) (x : List ℕ) (ticket : ℕ) → SameDisk old new
        → AddsWrite {E = DiskFault} b x (Ok ticket) old.log new.log → ComesIn b x c d → Agrees c old → Agrees d new }
{}
