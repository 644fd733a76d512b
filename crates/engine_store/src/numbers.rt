//! Laws of the store's numbers over any disk: its bookkeeping is sound, and its parts stay sound as a call moves
//! the pipeline, whether the disk failed or not. The functions do nothing; their clauses are the laws. What the
//! blocks have, and what a crash may leave, isn't said here.

ghost use Rattle.std.specs.Prelude.{◌≡◌, ◌≤◌, ℕ, true, false};
ghost use Rattle.engine_blocks.specs.Calls.{HasTurns, IsSound, MovesPipeline};
ghost use Rattle.engine_books.specs.Kept.{AreKept};
ghost use Rattle.engine_checkpoint.specs.Advance as pipeline;
ghost use Rattle.engine_store.specs.declared.parts.StoreParts.{StoreParts};
ghost use Rattle.engine_store.specs.Store.{StoreIsSound, PartsMove, bookkeeping_of, durable_point};

use engine_books::{a_release_keeps_the_books, books_that_are_kept_are_sound};

/// The bookkeeping of a store whose parts are sound is sound. Where the journal's numbers leave room for a call of
/// the store, they leave it for the pipeline's call too.
pub fn a_sound_store_has_sound_books()
    ensures sound { (v : StoreParts) → StoreIsSound v → IsSound (bookkeeping_of v) }
    ensures turns { (v : StoreParts) → HasTurns (bookkeeping_of v) → pipeline.HasTurns v.pipeline }
{
    books_that_are_kept_are_sound();
}

/// A call that moves the pipeline by four headers at most moves it as the contract of maps of blocks says, and keeps
/// the books, whether the disk failed or not. The floor must not fall.
pub fn a_pipeline_that_moves_moves_the_books()
    ensures moves { (v w : StoreParts) (headers : ℕ) → headers ≤ 4 → PartsMove headers v w → v.floor ≤ w.floor
        → MovesPipeline (bookkeeping_of v) (bookkeeping_of w) }
    ensures kept { (v w : StoreParts) (headers : ℕ) → PartsMove headers v w → AreKept v.books → AreKept w.books }
{
    a_release_keeps_the_books();
}

/// A store that is going stays sound as a call moves its pipeline. Where the call succeeded and the floor was taken
/// anew, it goes on, and the floor hasn't fallen. Where the disk failed it stops, and the floor stays.
pub fn a_going_store_stays_so()
    ensures goes_on { (v w : StoreParts) (headers : ℕ) → StoreIsSound v → v.stopped ≡ false → PartsMove headers v w
        → pipeline.IsSound w.pipeline w.ring w.books.dead → w.floor ≡ durable_point w → StoreIsSound w }
    ensures rises { (v w : StoreParts) (headers : ℕ) → StoreIsSound v → v.stopped ≡ false → PartsMove headers v w → w.floor ≡ durable_point w
        → v.floor ≤ w.floor }
    ensures stops { (v w : StoreParts) (headers : ℕ) → StoreIsSound v → PartsMove headers v w → w.stopped ≡ true → w.floor ≡ v.floor → StoreIsSound w }
{
    a_release_keeps_the_books();
}
