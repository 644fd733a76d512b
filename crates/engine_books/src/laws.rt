//! Laws of the books, each an empty function whose clauses say it: that the bookkeeping by them is sound, what a
//! commit would have, what the map is by them, that it may be committed, and when other dead blocks leave them as
//! sound.

ghost use Rattle.std.specs.Prelude.{◌≡◌, ◌+◌, ◌<◌, ◌≤◌, ℕ, true, false, IsTrue, Some, None, length, slice_get};
ghost use Rattle.base_types.specs.Seal.{Blocks};
ghost use Rattle.layout_geometry.specs.Geometry.{LiesIn, data_start};
ghost use Rattle.layout_geometry.specs.Geometry.Area.{Data};
ghost use Rattle.layout_bytes.specs.Bitmap.{is_set};
ghost use Rattle.layout_journal.specs.declared.header.Header.{Header};
ghost use Rattle.layout_journal.specs.Run.{places, all_places, place_after, is_live};
ghost use Rattle.crash_argument.specs.Ledger.{Ledger, IsStanding, next_number, all_say};
ghost use Rattle.crash_argument.specs.LastWrites.{IsDead};
ghost use Rattle.crash_argument.specs.HomeTest.{is_one_of};
ghost use Rattle.engine_running.specs.declared.put.Put.{Put};
ghost use Rattle.engine_running.specs.Record.{record_of, AreBelow, IsTransaction};
ghost use Rattle.engine_running.specs.Running.{bytes_put};
ghost use Rattle.engine_reuse.specs.Dead.{DeadBlocks, AreSound};
ghost use Rattle.engine_blocks.specs.Running.{payloads, fresh_blocks, is_bare, HasNoBare};
ghost use Rattle.engine_blocks.specs.State.{Bookkeeping, defined_by, defined_part};
ghost use Rattle.engine_blocks.specs.Calls.{IsSound};
ghost use Rattle.engine_books.specs.Books.{TransactionBooks, has_put, bit_now, is_taken_now, is_marked, running_of, with_books, bytes_over, map_of};
ghost use Rattle.engine_books.specs.Kept.{AreKept};
ghost use Rattle.engine_books.specs.Point.{BeganAt, HasBitmap, HasSameLive};
ghost use Rattle.engine_books.specs.Sealing.{SameDead};

use engine_reuse::the_accounts_add_up;

/// With these books, a bookkeeping is sound where the store's own part of it is.
pub fn books_that_are_kept_are_sound()
    ensures { (k : Bookkeeping) (v : TransactionBooks) → AreKept v → k.floor ≤ k.point → k.free_places ≤ v.geom.j → IsSound (with_books k v) }
{
    the_accounts_add_up();
}

/// A commit would have as payloads and as fresh blocks just what the roles say. What it writes in place was taken
/// and is marked, and what it frees are data blocks whose bits are clear.
pub fn a_commit_has_what_the_roles_say()
    ensures payloads { (v : TransactionBooks) → AreKept v → payloads v.geom (running_of v) ≡ length v.changes.paid }
    ensures fresh { (v : TransactionBooks) → AreKept v → fresh_blocks v.geom (running_of v) ≡ length v.changes.laid }
    ensures laid { (v : TransactionBooks) (b : ℕ) → AreKept v → has_put b v.changes.laid ≡ true → LiesIn v.geom Data b × (is_taken_now v b ≡ true) }
    ensures freed { (v : TransactionBooks) (b : ℕ) → AreKept v → is_one_of b v.changes.freed ≡ true → LiesIn v.geom Data b × (bit_now v b ≡ false) }
{}

/// The map by the books has their bits and their bitmap. It is the last point's with the puts, where it is defined.
pub fn the_map_has_the_bits()
    ensures bits { (v : TransactionBooks) (last : Blocks) (b : ℕ) → BeganAt v last → b < v.geom.n → is_marked v b ≡ is_set v.geom (map_of v last) b }
    ensures bitmap { (v : TransactionBooks) (last : Blocks) → BeganAt v last → HasBitmap v (map_of v last) }
    ensures part { (k : Bookkeeping) (v : TransactionBooks) (last : Blocks) → map_of v last ≡ defined_part (with_books k v) (bytes_over v.changes last) }
{}

/// Where the transaction began at the map of the last sync point, each block that it took was put or freed, and there
/// is room, it may be committed as the next record, and the map after that is the map now. It freed each data block
/// that lived before and doesn't live then, and none that lives then. Its puts are of blocks of the disk, those in
/// place of blocks that it took, and they are few enough. Where it writes one in place it has a payload too.
pub fn a_running_transaction_may_be_the_next_record()
    ensures is { (v : TransactionBooks) (l : Ledger) (place : ℕ) → AreKept v → BeganAt v (l.map_before (next_number l)) → l.geom ≡ v.geom
        → HasNoBare (running_of v) → ((h : Header) → IsStanding l h → h.closed ≡ false) → place ≡ place_after l.geom.j l.header.at (all_say l.records)
        → all_places (all_say l.records) + places (record_of (next_number l) place v.changes.paid v.changes.laid) ≤ l.geom.j
        → ((b : ℕ) → is_one_of b v.changes.taken ≡ true → IsDead l b)
        → IsTransaction l l.epoch (next_number l) place v.changes.paid v.changes.laid (map_of v (l.map_before (next_number l))) }
    ensures killed { (v : TransactionBooks) (l : Ledger) → BeganAt v (l.map_before (next_number l)) → l.geom ≡ v.geom → (b : ℕ)
        → data_start l.geom ≤ b → IsTrue (is_live l.geom (l.map_before (next_number l)) b)
        → is_live l.geom (map_of v (l.map_before (next_number l))) b ≡ false → is_one_of b v.changes.freed ≡ true }
    ensures dead { (v : TransactionBooks) (l : Ledger) → AreKept v → BeganAt v (l.map_before (next_number l)) → l.geom ≡ v.geom → (b : ℕ)
        → is_one_of b v.changes.freed ≡ true → is_live l.geom (map_of v (l.map_before (next_number l))) b ≡ false }
    ensures taken { (v : TransactionBooks) → AreKept v → (i : ℕ) (p : Put) → slice_get v.changes.laid i ≡ Some p → is_one_of p.block v.changes.taken ≡ true }
    ensures below { (v : TransactionBooks) → AreKept v → AreBelow v.geom.n v.changes.paid × AreBelow v.geom.n v.changes.laid }
    ensures small { (v : TransactionBooks) → AreKept v → length v.changes.paid + length v.changes.laid ≤ 2097152 }
    ensures some { (v : TransactionBooks) (last : Blocks) → AreKept v → BeganAt v last → 0 < length v.changes.laid → 0 < length v.changes.paid }
{}

/// The books stay as sound where other dead blocks may be taken, and the same blocks are dead and held.
pub fn a_release_keeps_the_books()
    ensures kept { (v : TransactionBooks) (dead : DeadBlocks) → AreKept v → AreSound dead → SameDead v.dead dead → AreKept (record v { dead = dead }) }
    ensures began { (v : TransactionBooks) (dead : DeadBlocks) (last : Blocks) → BeganAt v last → BeganAt (record v { dead = dead }) last }
{}

/// The map by the books needs only the live blocks of the last point's map. Where another map has the same bytes on
/// them, the same blocks are live in it, the map by the books is the same, and the transaction began at it too. A
/// block on which the map is defined and into which nothing was put is one of them.
pub fn the_map_needs_only_live_blocks()
    ensures live { (v : TransactionBooks) (last next : Blocks) (b : ℕ) → AreKept v → HasSameLive v last next → is_live v.geom next b ≡ is_live v.geom last b }
    ensures map { (v : TransactionBooks) (last next : Blocks) → AreKept v → BeganAt v last → HasSameLive v last next → map_of v next ≡ map_of v last }
    ensures began { (v : TransactionBooks) (last next : Blocks) → AreKept v → BeganAt v last → HasSameLive v last next → BeganAt v next }
    ensures unput { (v : TransactionBooks) (last : Blocks) (b : ℕ) → AreKept v → BeganAt v last
        → defined_by v.geom (is_marked v b) (is_bare ((running_of v).roles b)) b ≡ true → bytes_put v.changes b ≡ None
        → IsTrue (is_live v.geom last b) }
{}
