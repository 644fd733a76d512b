//! A replay block by block, as laws: how it begins where the newest header closes its run already, which
//! blocks need no write, and what the last block leaves. The writes between are `replay_block`.

ghost use Rattle.std.specs.Prelude.{◌≡◌, ◌+◌, ◌≤◌, ℕ, false, List, [], Some, None};
ghost use Rattle.base_types.specs.Seal.{Blocks};
ghost use Rattle.disk_contract.specs.declared.event.Event.{Event};
ghost use Rattle.disk_contract.specs.Cell.{Cell, cell_of, is_lost, accepted};
ghost use Rattle.disk_contract.specs.Crash.{IsHonest};
ghost use Rattle.layout_geometry.specs.Geometry.{Geometry, bitmap_start};
ghost use Rattle.layout_journal.specs.declared.header.Header.{Header};
ghost use Rattle.layout_journal.specs.Run.{Record, covered_by, live_part};
ghost use Rattle.crash_argument.specs.Ledger.{HoldsUnder, issued};
ghost use Rattle.crash_argument.specs.Mounting.{IsReplayedUpTo};
ghost use Rattle.crash_argument.specs.Opening.{HasNoEpochAbove, IsReadyToOpen, settled};
ghost use Rattle.crash_argument.specs.Replay.{IsFound, Closes, IsReplayed, found_map};

use crate::journal::the_journal_is_lawful;

/// A replay begins without a write where the newest header closes its run already. It passes a block that
/// the run doesn't cover. Behind the disk's last block the run is replayed, the journal may be opened, and
/// what is settled is the map that was found.
pub fn a_replay_goes_block_by_block()
    ensures begins { (n : ℕ) (cells : ℕ → Cell) (slot : ℕ) (h : Header) (run : List Record) → ((b : ℕ) → (cells b).pending ≡ [])
        → IsFound n (settled cells) slot h run → Closes h h run
        → IsReplayedUpTo n cells (settled cells) slot h h run (bitmap_start h.geom) }
    ensures passes { (n : ℕ) (cells : ℕ → Cell) (at : Blocks) (slot b : ℕ) (h closed : Header) (run : List Record)
        → IsReplayedUpTo n cells at slot h closed run b → covered_by h.geom at None run b ≡ None
        → IsReplayedUpTo n cells at slot h closed run (b + 1) }
    ensures ends { (n : ℕ) (cells : ℕ → Cell) (at : Blocks) (slot old_slot upto : ℕ) (h closed : Header) (run : List Record)
        → IsFound n at old_slot h run → IsReplayedUpTo n cells at slot h closed run upto → h.geom.n ≤ upto
        → IsReplayed cells at h closed run }
    ensures opens { (n : ℕ) (cells : ℕ → Cell) (at : Blocks) (slot old_slot upto greatest_epoch : ℕ) (h closed : Header) (run : List Record)
        → IsFound n at old_slot h run → IsReplayedUpTo n cells at slot h closed run upto → HasNoEpochAbove h.geom at greatest_epoch
        → IsReadyToOpen cells slot closed greatest_epoch }
    ensures leaves { (n : ℕ) (cells : ℕ → Cell) (at : Blocks) (old_slot : ℕ) (h closed : Header) (run : List Record) → IsFound n at old_slot h run
        → IsReplayed cells at h closed run
        → live_part closed.geom (settled cells) ≡ found_map at h run }
{
    the_journal_is_lawful();
}

/// Where nothing is pending, each honest image holds the map that what is settled holds.
pub fn an_idle_disk_holds_what_is_settled()
    ensures { (n : ℕ) (base : Blocks) (log : List Event) (g : Geometry) (m img : Blocks) → ((b : ℕ) → (cell_of base log b).pending ≡ [])
        → HoldsUnder n g (settled (cell_of base log)) m → IsHonest n base log img
        → HoldsUnder n g img m }
{
    the_journal_is_lawful();
}

/// The last accepted bytes of a block, which a read gives, are what was written to it last, where no write
/// behind them was lost. Where nothing is pending none was, and they are settled.
pub fn a_read_gives_what_was_written_last()
    ensures last { (base : Blocks) (log : List Event) (b : ℕ) → is_lost b log ≡ false → accepted base log b ≡ issued base log b }
    ensures idle { (base : Blocks) (log : List Event) (b : ℕ) → (cell_of base log b).pending ≡ [] → (is_lost b log ≡ false)
        × (accepted base log b ≡ (cell_of base log b).settled) }
{}
