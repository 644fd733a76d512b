//! Laws of what sinks took, each an empty function whose clauses say it. They hold of any sink, since
//! they speak of the bytes that it took before and after.

ghost use Rattle.std.specs.Prelude.{ℕ, List, ◌++◌, Option};
ghost use Rattle.std.specs.Io.KnownBytes.{Appends};
ghost use Rattle.base_io.specs.Prefix.{TakesPrefix};

/// Of two pieces in a row a prefix was taken where a prefix of the first was, and where all of the first
/// and a prefix of the second were.
pub fn prefixes_join()
    ensures first { (old new : Option (List ℕ)) (xs ys : List ℕ) → TakesPrefix old new xs → TakesPrefix old new (xs ++ ys) }
    ensures second { (old mid new : Option (List ℕ)) (xs ys : List ℕ) → Appends old mid xs → TakesPrefix mid new ys → TakesPrefix old new (xs ++ ys) }
{}
