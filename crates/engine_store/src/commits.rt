//! From the books of a running transaction to its commit, and from the commit to what is right behind it. The
//! functions do nothing; their clauses are the laws. Who calls the commit, and when, isn't said here.

ghost use Rattle.std.specs.Prelude.{◌≡◌, ◌+◌, ◌≤◌, ◌++◌, ℕ, Ok, [], List, All};
ghost use Rattle.base_types.specs.Seal.{Blocks};
ghost use Rattle.disk_contract.specs.declared.event.Event.{Event};
ghost use Rattle.layout_journal.specs.Ring.{RingPlaces, with_places};
ghost use Rattle.layout_journal.specs.Run.{places};
ghost use Rattle.crash_argument.specs.Ledger.{Ledger, WrittenRecord, next_number};
ghost use Rattle.crash_argument.specs.PipelineData.{pairs_of};
ghost use Rattle.crash_argument.specs.Points.{MountedSession};
ghost use Rattle.crash_argument.specs.Steps.{with_record};
ghost use Rattle.engine_running.specs.declared.commit.Committed.{Committed};
ghost use Rattle.engine_running.specs.Record.{record_of, IsTransaction};
ghost use Rattle.engine_running.specs.Running.{Changes, IsEmpty};
ghost use Rattle.engine_reuse.specs.Calls.{with_sealed};
ghost use Rattle.engine_reuse.specs.Dead.{DeadBlocks, freed_by};
ghost use Rattle.engine_checkpoint.specs.declared.pipeline.Pipeline.{Pipeline};
ghost use Rattle.engine_checkpoint.specs.Advance.{IsRight, IsSound};
ghost use Rattle.engine_checkpoint.specs.Agree.{AreTaken, HasFreed};
ghost use Rattle.engine_checkpoint.specs.Index.{IndexIsRight};
ghost use Rattle.engine_checkpoint.specs.Kept.{places_taken};
ghost use Rattle.engine_checkpoint.specs.Order.{IsInOrder, HasRoom};
ghost use Rattle.engine_checkpoint.specs.Steps.{Accepts, CommitNextLeaves};
ghost use Rattle.engine_blocks.specs.Running.{HasNoBare};
ghost use Rattle.engine_books.specs.Books.{TransactionBooks, map_of, running_of};
ghost use Rattle.engine_books.specs.Kept.{AreKept};
ghost use Rattle.engine_books.specs.Point.{BeganAt, HasBitmap};
ghost use Rattle.engine_books.specs.Sealing.{with_record as sealed_books};

use engine_books::{a_running_transaction_may_be_the_next_record, the_map_has_the_bits};
use engine_reuse::calls_change_what_is_dead;

/// Where all is right and there is room in the ring, and each block that the running transaction took was put or
/// freed, it may be committed as the next record, and the map after that is the map now: this is what a commit
/// asks of it. The next record's number is the pipeline's last one and 1.
pub fn a_running_transaction_may_be_committed()
    ensures is { (s : MountedSession) (base : Blocks) (log : List Event) (l : Ledger) (t floor : ℕ) (p : Pipeline) (ring : RingPlaces)
        (v : TransactionBooks) → AreKept v → BeganAt v (l.map_before (next_number l)) → HasNoBare (running_of v)
        → IsRight s base log l t floor p ring v.dead v.changes.taken → IsSound p ring v.dead → p.geom ≡ v.geom
        → ring.taken + places (record_of 0 0 v.changes.paid v.changes.laid) ≤ ring.geom.j
        → IsTransaction l p.header.epoch (p.last + 1) ring.next v.changes.paid v.changes.laid (map_of v (l.map_before (next_number l))) }
    ensures taken { (v : TransactionBooks) → AreKept v → AreTaken v.changes.laid v.changes.taken }
    ensures freed { (v : TransactionBooks) (l : Ledger) → AreKept v → BeganAt v (l.map_before (next_number l)) → l.geom ≡ v.geom
        → HasFreed l (map_of v (l.map_before (next_number l))) v.changes.freed }
    ensures number { (s : MountedSession) (base : Blocks) (log : List Event) (l : Ledger) (t floor : ℕ) (p : Pipeline) (ring : RingPlaces)
        (dead : DeadBlocks) (taken : List ℕ) → IsRight s base log l t floor p ring dead taken → IsSound p ring dead → next_number l ≡ p.last + 1 }
{
    a_running_transaction_may_be_the_next_record();
}

/// Where all was right and the running transaction was committed with success, all is right with its record: the
/// map after the record is the map as it was, nothing is taken, and what the transaction freed waits for the
/// record. The next transaction begins at that map, which is the map by the books then.
pub fn a_commit_stays_right()
    ensures right { (s : MountedSession) (base then_base : Blocks) (log then_log : List Event) (l : Ledger) (w : WrittenRecord) (t floor number : ℕ)
        (p then_p : Pipeline) (ring then_ring : RingPlaces) (v : TransactionBooks) (c : Committed) → AreKept v
        → BeganAt v (l.map_before (next_number l)) → p.geom ≡ v.geom → IsRight s base log l t floor p ring v.dead v.changes.taken → Accepts c p then_p
        → CommitNextLeaves {A = Unit {0}} {E = Changes} s l w (map_of v (l.map_before (next_number l))) t floor (Ok tt) then_base then_log then_p
        then_ring (v.dead.waiting ++ pairs_of number v.changes.freed)
        → IsRight s then_base then_log (with_record l w (map_of v (l.map_before (next_number l)))) t floor then_p then_ring
        (sealed_books v number).dead [] }
    ensures newest { (l : Ledger) (w : WrittenRecord) (m : Blocks) → (with_record l w m).map_before (next_number (with_record l w m)) ≡ m }
    ensures next { (l : Ledger) (w : WrittenRecord) (m : Blocks) → next_number (with_record l w m) ≡ next_number l + 1 }
    ensures bitmap { (l : Ledger) (w : WrittenRecord) (v : TransactionBooks) (c : Changes) (last : Blocks) → BeganAt v last
        → HasBitmap (record v { changes = c }) ((with_record l w (map_of v last)).map_before (next_number (with_record l w (map_of v last)))) }
    ensures began { (l : Ledger) (w : WrittenRecord) (v : TransactionBooks) (c : Changes) (last : Blocks) (number : ℕ) → BeganAt v last → IsEmpty c
        → BeganAt (sealed_books (record v { changes = c }) number)
        ((with_record l w (map_of v last)).map_before (next_number (with_record l w (map_of v last)))) }
    ensures map { (v : TransactionBooks) (c : Changes) (last : Blocks) (number : ℕ) → HasNoBare (running_of v) → IsEmpty c
        → map_of (sealed_books (record v { changes = c }) number) (map_of v last) ≡ map_of v last }
{
    the_map_has_the_bits();
    calls_change_what_is_dead();
}

/// Over any disk, pipeline, ring and dead blocks stay sound where a record was committed with success and what its
/// transaction freed waits for it. No block waits for a later record.
pub fn a_commit_stays_sound()
    ensures sound { (p then_p : Pipeline) (ring : RingPlaces) (dead : DeadBlocks) (c : Committed) (count number : ℕ) → IsSound p ring dead
        → Accepts c p then_p → number ≡ p.last + 1 → then_p.last ≡ number → IsInOrder then_p → HasRoom then_p → IndexIsRight then_p
        → (with_places ring count).taken ≡ places_taken then_p → IsSound then_p (with_places ring count) (with_sealed dead number) }
    ensures order { (p : Pipeline) (ring : RingPlaces) (dead : DeadBlocks) (number : ℕ) → IsSound p ring dead → number ≡ p.last + 1
        → All (λ q. freed_by q ≤ number) dead.waiting }
{}
