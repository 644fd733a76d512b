//! Finishing a draft: what it changed, takes and frees goes to the map of blocks, in calls that can't
//! fail once memory was found for all of them.

ghost use Rattle.std.specs.Prelude.{◌≡◌, ◌≢◌, ◌+◌, ◌≤◌, ℕ, List, length, true, IsTrue, All, AllPairs, IfOk, OnOk, OnErr};
ghost use Rattle.layout_geometry.specs.Geometry.{data_start};
ghost use Rattle.layout_bytes.specs.Bitmap.{is_set};
ghost use Rattle.engine_blocks.specs.Running.{payloads, fresh_blocks, HasNoBare};
ghost use Rattle.engine_blocks.specs.State.{Bookkeeping};
ghost use Rattle.engine_blocks.specs.Calls.{IsReady, IsAfterSync};
ghost use Rattle.engine_blocks.specs.Effects.{LeavesDisk};
ghost use Rattle.engine_blocks.specs.Puts.{IsData};
ghost use Rattle.fs_files.specs.declared.changes.Changed.{Changed};
ghost use Rattle.fs_files.specs.Sound.{IsDraftOf};
ghost use Rattle.fs_files.specs.Finish.{MayGoOn, BooksFinished, MapFinished};
ghost use Rattle.fs_files.specs.Making.{put_class, IsTableOrData, HasPut, HasFreed, HasMade};

use crate::changes::Changes;
use crate::draft::Draft;
use base_types::{Class, NoMemory, Places};
use engine_blocks::{Blocks, a_commit_grows_by_each_call};
use std::alloc::Global;

impl<'a> Draft<'a> {
    /// Makes the changes of the draft: takes its numbers, puts the new bytes, and frees what it frees.
    ///
    /// # Errors
    /// Out of memory; then nothing of it is done.
    pub fn finish<S: Blocks>(self, alloc: Global, blocks: &mut S) -> Result<(), NoMemory>
        requires draft { IsDraftOf S.tells (S.state blocks.old) self }
        ensures books { OnOk result (BooksFinished self.entry (S.state blocks.old).books (S.state blocks.new).books) }
        ensures map { IsTrue S.tells → OnOk result (MapFinished self.entry (S.state blocks.old) (S.state blocks.new)) }
        ensures failed { OnErr result ((S.state blocks.new).books ≡ record (S.state blocks.old).books { spare = (S.state blocks.new).books.spare }) }
        ensures failed_map { IsTrue S.tells → OnErr result ((S.state blocks.new).map ≡ (S.state blocks.old).map) }
        ensures disk { LeavesDisk S.tells (S.state blocks.old) (S.state blocks.new) }
    {
        blocks.geom().lawful();
        a_commit_grows_by_each_call();
        let (changed, fresh, taken, freed) = self.into_parts();
        changed.lawful();
        fresh.lawful();
        let frees = count(freed.len())?;
        let puts = changed.len() + fresh.len();
        blocks.prepare(alloc, puts as u32, taken.len() as u32, frees)?;
        make_changes(blocks, changed, fresh, &taken, &freed);
        Ok(())
    }
}

/// When a sync may follow a draft that is finished and weighed: at the beginning, after a call that left
/// the transaction as it was, and after a sync, whatever it answered.
pub fn a_sync_may_follow()
    ensures begun { (k : Bookkeeping) → k.running.weight ≡ 0 → payloads k.geom k.running ≡ 0 → fresh_blocks k.geom k.running ≡ 0 → HasNoBare k.running
        → MayGoOn k }
    ensures rests { (old new : Bookkeeping) → new.geom ≡ old.geom → new.running ≡ old.running → MayGoOn old → MayGoOn new }
    ensures synced { (old new : Bookkeeping) → IsAfterSync old new → MayGoOn old → MayGoOn new }
{}

/// So many numbers. More than fit in 32 bits are more than memory is made ready for.
fn count(n: usize) -> Result<u32, NoMemory>
    ensures { IfOk result (λ r. r ≡ n) }
{
    match u32::try_from(n) {
        Ok(n) => Ok(n),
        Err(_) => Err(NoMemory),
    }
}

/// Makes the changes of a draft, with what was made ready for them. What is kept beside it doesn't matter.
fn make_changes<S: Blocks>(
    blocks: &mut S,
    changed: Changes,
    fresh: Changes,
    taken: &Places,
    freed: &Places,
)
    requires ready { IsReady (S.state blocks.old).books.spare (length changed + length fresh) (length taken.now) (length freed.now) }
    requires draft { (kept : List ℕ) × IsDraftOf S.tells (S.state blocks.old)
        (record { kept = kept; changed = changed; fresh = fresh; taken = taken.now; freed = freed.now }) }
    ensures made { (kept : List ℕ) → HasMade S.tells (record { kept = kept; changed = changed; fresh = fresh; taken = taken.now; freed = freed.now })
        (S.state blocks.old) (S.state blocks.new) }
{
    blocks.take(taken);
    put_all(blocks, fresh, true);
    put_all(blocks, changed, false);
    free_all(blocks, freed.as_slice());
}

/// Puts the new bytes of these blocks, the first block first, and gives each up then. New content is put
/// as content.
fn put_all<S: Blocks>(blocks: &mut S, mut changes: Changes, fresh: bool)
    requires room { length changes ≤ (S.state blocks.old).books.spare.puts }
    requires within { All (λ (e : ℕ × Changed). IsTableOrData (S.state blocks.old).books.geom e.0) changes }
    requires marked { IsTrue S.tells → All (λ (e : ℕ × Changed). data_start (S.state blocks.old).books.geom ≤ e.0
        → is_set (S.state blocks.old).books.geom (S.state blocks.old).map e.0 ≡ true) changes }
    ensures puts { HasPut S.tells fresh changes (S.state blocks.old) (S.state blocks.new) }
{
    for _ in 0..changes.len() {
        if let Some((b, change)) = changes.pop_first() {
            blocks.put(b, change.bytes.bytes(), class_as(fresh, change.class));
        }
    }
}

/// The class as which new bytes are put: new content is put as content.
fn class_as(fresh: bool, class: Class) -> Class
    ensures { result ≡ put_class fresh class }
{
    if fresh { Class::Content } else { class }
}

/// Frees each of these blocks.
fn free_all<S: Blocks>(blocks: &mut S, list: &[u32])
    requires room { length list.now ≤ (S.state blocks.old).books.spare.frees }
    requires blocks { All (IsData (S.state blocks.old).books.geom) list.now }
    requires marked { IsTrue S.tells → All (λ b. is_set (S.state blocks.old).books.geom (S.state blocks.old).map b ≡ true) list.now }
    requires once { IsTrue S.tells → AllPairs (λ a b. a ≢ b) list.now }
    ensures frees { HasFreed S.tells list.now (S.state blocks.old) (S.state blocks.new) }
{
    for b in list {
        blocks.free(*b);
    }
}
