//! The three stages of a mount that found records to replay, as laws: at each of them an honest image
//! holds what the mount found. A second law shows that the stages can be met, by writing out the events of
//! one such mount; it is for no more than that, and no other law rests on it. Which calls a mount makes
//! isn't described here.

ghost use Rattle.std.specs.Prelude.{◌≡◌, ℕ, ◌+◌, ◌-◌, ◌≤◌, List, ◌++◌, take, Some};
ghost use Rattle.base_types.specs.Seal.{Blocks};
ghost use Rattle.disk_contract.specs.declared.event.Event.{Event};
ghost use Rattle.disk_contract.specs.Cell.{cell_of};
ghost use Rattle.disk_contract.specs.Crash.{IsHonest};
ghost use Rattle.layout_geometry.specs.Geometry.{ring_block};
ghost use Rattle.layout_journal.specs.declared.header.Header.{Header};
ghost use Rattle.layout_journal.specs.declared.record.Commit.{Commit};
ghost use Rattle.layout_journal.specs.Layout.{commit_of};
ghost use Rattle.layout_journal.specs.Spelling.{IsHeader};
ghost use Rattle.layout_journal.specs.Run.{Record};
ghost use Rattle.crash_argument.specs.Ledger.{HoldsUnder};
ghost use Rattle.crash_argument.specs.Opening.{last_number, opening_header};
ghost use Rattle.crash_argument.specs.Replay.{IsFound, Closes, IsClosing, IsReplaying, IsOpening, found_map};
ghost use Rattle.crash_argument.specs.ReplayMade.{closing_header, closing_events, closed_events, replay_events, opening_events, reopening_events};

use crate::journal::the_journal_is_lawful;
use layout_journal::journal_blocks_read_back;

/// While a mount closes the run that it found, then writes its blocks home, and then opens the journal
/// under a new epoch, each honest image holds what was found.
pub fn a_replay_holds_what_was_found()
    ensures closing { (n : ℕ) (base : Blocks) (log : List Event) (img at : Blocks) (slot : ℕ) (h closed : Header) (run : List Record)
        → IsHonest n base log img → IsFound n at slot h run
        → IsClosing n (cell_of base log) at slot h closed run → HoldsUnder n h.geom img (found_map at h run) }
    ensures replaying { (n : ℕ) (base : Blocks) (log : List Event) (img at : Blocks) (slot old_slot : ℕ) (h closed : Header) (run : List Record)
        → IsHonest n base log img → IsFound n at old_slot h run
        → IsReplaying n (cell_of base log) at slot h closed run → HoldsUnder n h.geom img (found_map at h run) }
    ensures opening { (n : ℕ) (base : Blocks) (log : List Event) (img at : Blocks) (slot old_slot : ℕ) (h closed fresh : Header) (run : List Record)
        → IsHonest n base log img → IsFound n at old_slot h run
        → IsOpening n (cell_of base log) at slot h closed fresh run → HoldsUnder n h.geom img (found_map at h run) }
{
    the_journal_is_lawful();
}

/// The three stages can be met, so the law above isn't about nothing. Where a mount found a run, the closed
/// header written beside its newest one begins the first stage, also where both headers have one turn.
/// Its notice begins the second, which goes on at each moment while the blocks that the run covers are
/// written as it leaves them, each noticed before the next. With all of them at home, the write of the
/// header of a new epoch begins the third. It asks that both headers can be written, and that no commit
/// block in the ring has so great an epoch. That a run was found it takes as given. Where the newest header
/// closes the run already, the second stage begins at once.
pub fn a_replay_may_be_made()
    ensures closing { (n : ℕ) (at : Blocks) (slot ticket : ℕ) (h : Header) (run : List Record) → IsFound n at slot h run → IsHeader (closing_header h run)
        → IsClosing n (cell_of at (closing_events ticket slot h run)) at slot h (closing_header h run) run }
    ensures replaying { (n : ℕ) (at : Blocks) (slot ticket k : ℕ) (h : Header) (run : List Record) → IsFound n at slot h run → IsHeader (closing_header h run)
        → IsReplaying n (cell_of at (closed_events ticket slot h run ++ take k (replay_events at (ticket + 1) h run))) at (1 - slot) h
        (closing_header h run) run }
    ensures opening { (n : ℕ) (at : Blocks) (slot ticket later greatest_epoch : ℕ) (h : Header) (run : List Record) → IsFound n at slot h run
        → IsHeader (closing_header h run)
        → IsHeader (opening_header (closing_header h run) (last_number h run) greatest_epoch)
        → ((place : ℕ) (c : Commit) → commit_of h.geom (at (ring_block h.geom place)) ≡ Some c → c.epoch ≤ greatest_epoch)
        → IsOpening n (cell_of at (opening_events at ticket later slot h run greatest_epoch)) at (1 - slot) h (closing_header h run)
        (opening_header (closing_header h run) (last_number h run) greatest_epoch) run }
    ensures closed { (n : ℕ) (at : Blocks) (slot ticket k : ℕ) (h : Header) (run : List Record) → IsFound n at slot h run → Closes h h run
        → IsReplaying n (cell_of at (take k (replay_events at ticket h run))) at slot h h run }
    ensures reopening { (n : ℕ) (at : Blocks) (slot ticket later greatest_epoch : ℕ) (h : Header) (run : List Record) → IsFound n at slot h run → Closes h h run
        → IsHeader (opening_header h (last_number h run) greatest_epoch)
        → ((place : ℕ) (c : Commit) → commit_of h.geom (at (ring_block h.geom place)) ≡ Some c → c.epoch ≤ greatest_epoch)
        → IsOpening n (cell_of at (reopening_events at ticket later slot h run greatest_epoch)) at slot h h
        (opening_header h (last_number h run) greatest_epoch) run }
{
    the_journal_is_lawful();
    journal_blocks_read_back();
}
