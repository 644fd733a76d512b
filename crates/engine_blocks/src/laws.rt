//! Laws of maps of blocks, each an empty function whose clauses say it: how calls compose, which numbers
//! may be taken together, and how what a commit would have grows from call to call. What holds of each
//! single map is described by the laws of the trait.

ghost use Rattle.std.specs.Prelude.{◌≡◌, ◌+◌, ◌*◌, ◌<◌, ◌≤◌, ℕ, Bool, true, false, IsTrue, min, List, All, length, take};
ghost use Rattle.base_types.specs.declared.words.Class.{Class};
ghost use Rattle.base_types.specs.declared.words.Class.TheVariants.{Content};
ghost use Rattle.layout_geometry.specs.Geometry.{Geometry, bitmap_blocks};
ghost use Rattle.engine_blocks.specs.Running.{is_taken, nothing_running, payloads, fresh_blocks};
ghost use Rattle.engine_blocks.specs.State.{Bookkeeping, reusable_blocks, MayBeTaken, after_put, after_take};
ghost use Rattle.engine_blocks.specs.Calls.{UsesDisk};
ghost use Rattle.engine_blocks.specs.Crashes.{IssuesNothing, Advances, WritesAtMost};
ghost use Rattle.engine_blocks.specs.Puts.{after_frees};

use crate::Blocks;

/// What holds of each of two calls, one behind the other, holds of both.
///
/// A call that issues nothing and keeps the points' numbers is one in which time goes on.
pub fn calls_compose<S: Blocks>()
    ensures advances { (old mid new : S) → Advances (S.state old) (S.state mid) → Advances (S.state mid) (S.state new) → Advances (S.state old) (S.state new) }
    ensures issues_nothing { (old mid new : S) → IssuesNothing (S.state old) (S.state mid) → IssuesNothing (S.state mid) (S.state new)
        → IssuesNothing (S.state old) (S.state new) }
    ensures disk { (old mid new : S) (failed : Bool) → UsesDisk false (S.state old) (S.state mid) → UsesDisk failed (S.state mid) (S.state new)
        → UsesDisk failed (S.state old) (S.state new) }
    ensures writes { (old mid new : S) (a b : ℕ) → WritesAtMost a (S.state old) (S.state mid) → WritesAtMost b (S.state mid) (S.state new)
        → WritesAtMost (a + b) (S.state old) (S.state new) }
    ensures rests { IsTrue S.tells → (old new : S) → (S.state new).books.point ≡ (S.state old).books.point
        → (S.state new).books.floor ≡ (S.state old).books.floor → IssuesNothing (S.state old) (S.state new) → Advances (S.state old) (S.state new) }
{}

/// The least numbers that may be taken may be taken together.
pub fn the_lowest_may_be_taken()
    ensures { (k : Bookkeeping) (n : ℕ) → MayBeTaken k.geom k.reusable (take n (reusable_blocks k)) }
{}

/// How the payloads and the fresh blocks that a commit would have grow: there are none in an empty
/// transaction, and each call adds so many at most. What is taken or freed is known of a list, since many
/// blocks have their bits in one block of the bitmap.
pub fn a_commit_grows_by_each_call()
    ensures begins { (g : Geometry) → 25 * payloads g nothing_running + fresh_blocks g nothing_running ≡ 0 }
    ensures put { (k : Bookkeeping) (b : ℕ) (class : Class)
        → 25 * payloads k.geom (after_put k b class).running + fresh_blocks k.geom (after_put k b class).running ≤ 25 * payloads k.geom
        k.running + fresh_blocks k.geom k.running + 25 }
    ensures fresh { (k : Bookkeeping) (b : ℕ) → is_taken (k.running.roles b) ≡ true
        → 25 * payloads k.geom (after_put k b Content).running + fresh_blocks k.geom (after_put k b Content).running ≤ 25 * payloads k.geom
        k.running + fresh_blocks k.geom k.running + 1 }
    ensures take { (k : Bookkeeping) (bs : List ℕ) → All (λ b. b < k.geom.n) bs
        → 25 * payloads k.geom (after_take k bs).running + fresh_blocks k.geom (after_take k bs).running ≤ 25 * payloads k.geom
        k.running + fresh_blocks k.geom k.running + 25 * min (length bs) (bitmap_blocks k.geom) }
    ensures frees { (k : Bookkeeping) (bs : List ℕ) → All (λ b. b < k.geom.n) bs
        → 25 * payloads k.geom (after_frees k bs).running + fresh_blocks k.geom (after_frees k bs).running ≤ 25 * payloads k.geom
        k.running + fresh_blocks k.geom k.running + 25 * min (length bs) (bitmap_blocks k.geom) }
{}
