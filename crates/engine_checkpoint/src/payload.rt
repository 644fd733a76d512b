//! The newest payload of a block, in the records that aren't placed: where a read of the block finds its bytes
//! before they are at the block. What a record is, and when one is placed, isn't said here.

ghost use Rattle.std.specs.Prelude.{◌≡◌, ◌<◌, ℕ, List, length, slice_get, IsTrue, Some, None, IfSome, false};
ghost use Rattle.base_types.specs.Seal.{Blocks};
ghost use Rattle.disk_contract.specs.declared.event.Event.{Event};
ghost use Rattle.disk_contract.specs.Cell.{is_lost};
ghost use Rattle.layout_journal.specs.Ring.{RingPlaces};
ghost use Rattle.layout_journal.specs.Run.{is_live};
ghost use Rattle.crash_argument.specs.Ledger.{Ledger, IsConsistentWith, issued, next_number};
ghost use Rattle.engine_checkpoint.specs.Agree.{PipelineAgrees};
ghost use Rattle.engine_checkpoint.specs.Bytes.{IsLiveNow};
ghost use Rattle.engine_checkpoint.specs.Index.{IndexIsRight};
ghost use Rattle.engine_checkpoint.specs.Kept.{Kept, kept, newest_in};
ghost use Rattle.engine_checkpoint.specs.Order.{IsInOrder};
ghost use Rattle.engine_checkpoint.specs.declared.pipeline.Pipeline.{Pipeline};

use crate::Pipeline;
use base_types::Block;
use crash_argument::{
    a_read_gives_what_was_written_last, counts_tell_the_batch, records_stand_in_order,
    the_newest_bytes_are_the_map,
};
use engine_running::Put;

impl Pipeline {
    /// The bytes of the block's newest payload in the records that aren't placed. There are none where a later
    /// record wrote the block fresh or freed it, or where no record has it as a payload.
    pub fn payload(&self, block: u32) -> Option<&Block>
        requires order { IsInOrder self.now }
        requires index { IndexIsRight self.now }
        ensures some { IfSome result (λ bytes. newest_in None (kept self.now) block ≡ Some bytes.now) }
        ensures none { result ≡ None → newest_in None (kept self.now) block ≡ None }
    {
        let spot = self.newest.get(block)?;
        let first = self.header.start + self.placed.len() as u64;
        let payloads = self.payloads_at((spot.number - first) as usize);
        Some(payloads[spot.at as usize].bytes.bytes())
    }

    /// The payloads of the record at this place among those that aren't placed.
    fn payloads_at(&self, at: usize) -> &[Put]
        requires { at < length (kept self.now) }
        ensures { (k : Kept) → slice_get (kept self.now) at ≡ Some k → result.now ≡ k.payloads }
    {
        if at < self.sure.len() {
            return self.sure[at].payloads.as_slice();
        }
        let behind = at - self.sure.len();
        if behind < self.durable.len() {
            return self.durable[behind].payloads.as_slice();
        }
        self.committed[behind - self.durable.len()]
            .payloads
            .as_slice()
    }
}

/// The newest payload of a live block is what the map after all records has there. Where there is none, the map
/// has what was written to the block last. And no write to a live block is lost. It does nothing.
pub fn the_newest_payloads_are_the_map()
    ensures payload { (base : Blocks) (log : List Event) (l : Ledger) (v : Pipeline) (ring : RingPlaces) (waiting : List (ℕ × ℕ)) (taken : List ℕ)
        (b : ℕ) (x : List ℕ) → IsConsistentWith base log l → PipelineAgrees base log l v ring waiting taken
        → IsTrue (is_live l.geom (l.map_before (next_number l)) b)
        → newest_in None (kept v) b ≡ Some x → l.map_before (next_number l) b ≡ x }
    ensures written { (base : Blocks) (log : List Event) (l : Ledger) (v : Pipeline) (ring : RingPlaces) (waiting : List (ℕ × ℕ)) (taken : List ℕ)
        (b : ℕ) → IsConsistentWith base log l → PipelineAgrees base log l v ring waiting taken
        → IsTrue (is_live l.geom (l.map_before (next_number l)) b)
        → newest_in None (kept v) b ≡ None → l.map_before (next_number l) b ≡ issued base log b }
    ensures calm { (base : Blocks) (log : List Event) (l : Ledger) (v : Pipeline) (ring : RingPlaces) (waiting : List (ℕ × ℕ)) (taken : List ℕ)
        (b : ℕ) → IsConsistentWith base log l → PipelineAgrees base log l v ring waiting taken → IsLiveNow l b → is_lost b log ≡ false }
{
    a_read_gives_what_was_written_last();
    the_newest_bytes_are_the_map();
    counts_tell_the_batch();
    records_stand_in_order();
}
