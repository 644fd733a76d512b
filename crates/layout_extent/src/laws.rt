//! Laws of the definitions: a list and its runs are two ways to say the same. They run nothing.

ghost use Rattle.std.specs.Prelude.{◌≡◌, ◌⊎◌, ◌<◌, ◌≤◌, ◌+◌, ◌==◌, ◌++◌, ℕ, Bool, true, false, List, [], ◌∷◌, length, slice_get, Some};
ghost use Rattle.base_types.specs.Runs.{run_places};
ghost use Rattle.base_types.specs.declared.places.Run.{Run};
ghost use Rattle.layout_extent.specs.Renew.{AreApart, AreOnce, IsAmong, renew, renewals, renewed};
ghost use Rattle.layout_extent.specs.Runs.{AreTidy, runs_of, stretches};

/// The runs of a list have its numbers, there are as many as the list has stretches, and they are tidy.
pub fn a_list_has_its_runs()
    ensures places { (xs : List ℕ) → run_places (runs_of xs) ≡ xs }
    ensures count { (xs : List ℕ) → length (runs_of xs) ≡ stretches xs }
    ensures tidy { (xs : List ℕ) → AreTidy (runs_of xs) }
{}

/// Tidy runs are the runs of their numbers.
pub fn tidy_runs_are_those_of_their_numbers()
    ensures { (rs : List Run) → AreTidy rs → runs_of (run_places rs) ≡ rs }
{}

/// A list of eight numbers with four stretches: two neighbours, a number that stands twice, so that the
/// second one begins a stretch and has a neighbour, and three neighbours below them.
pub fn four_stretches_and_their_runs()
    ensures count { stretches (5 ∷ 6 ∷ 9 ∷ 9 ∷ 10 ∷ 2 ∷ 3 ∷ 4 ∷ []) ≡ 4 }
    ensures runs { runs_of (5 ∷ 6 ∷ 9 ∷ 9 ∷ 10 ∷ 2 ∷ 3 ∷ 4 ∷ [])
        ≡ record { first = 5; count = 2 } ∷ record { first = 9; count = 1 } ∷ record { first = 9; count = 2 } ∷ record { first = 2; count = 3 } ∷ [] }
{}

/// Places of which some are renewed, with new numbers enough: where the test fails a place is as it was, where
/// it holds one of the new numbers stands, the others come behind, and no number comes twice. So no number that
/// had to make way is left in its place. Where the test holds nowhere the new ones come behind all.
pub fn renewed_places_are_new()
    ensures none { (i : ℕ) (places more : List ℕ) → renew (λ j. false) i places more ≡ places ++ more }
    ensures stays { (test : ℕ → Bool) (i : ℕ) (places more : List ℕ) (j : ℕ) → test (i + j) ≡ false → j < length places
        → slice_get (renew test i places more) j ≡ slice_get places j }
    ensures renewed { (test : ℕ → Bool) (i : ℕ) (places more : List ℕ) (j b : ℕ) → renewals test i places ≤ length more → test (i + j) ≡ true
        → j < length places → slice_get (renew test i places more) j ≡ Some b → IsAmong more b }
    ensures either { (test : ℕ → Bool) (i : ℕ) (places more : List ℕ) (j b : ℕ) → slice_get (renew test i places more) j ≡ Some b
        → IsAmong places b ⊎ IsAmong more b }
    ensures once { (test : ℕ → Bool) (i : ℕ) (places more : List ℕ) → AreOnce places → AreOnce more → AreApart places more
        → AreOnce (renew test i places more) }
    ensures count { (test : ℕ → Bool) (i : ℕ) (places more : List ℕ) → renewals test i places ≤ length more
        → length (renew test i places more) + renewals test i places ≡ length places + length more }
{}

/// Of blocks 24 and 25 the first is kept: block 32 stands in its place. Of block 24 alone, which is kept, with
/// three new blocks: the first of them stands in its place, the others behind it. With one new block too few the
/// later place stays, and outside the range no number makes way.
pub fn places_are_renewed_so()
    ensures stands { renewed 0 1 (λ b. true) (24 ∷ 25 ∷ []) (32 ∷ []) ≡ 32 ∷ 25 ∷ [] }
    ensures grows { renewed 0 3 (λ b. b == 24) (24 ∷ []) (31 ∷ 32 ∷ 33 ∷ []) ≡ 31 ∷ 32 ∷ 33 ∷ [] }
    ensures few { renewed 0 2 (λ b. true) (24 ∷ 25 ∷ []) (32 ∷ []) ≡ 32 ∷ 25 ∷ [] }
    ensures outside { renewed 1 3 (λ b. true) (24 ∷ 25 ∷ 26 ∷ 27 ∷ []) (40 ∷ 41 ∷ 42 ∷ []) ≡ 24 ∷ 40 ∷ 41 ∷ 27 ∷ 42 ∷ [] }
{}
