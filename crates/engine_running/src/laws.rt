//! What the puts of a transaction are, what its record says of them, and how many writes it makes, as laws.
//! The functions do nothing.

ghost use Rattle.std.specs.Prelude.{◌≡◌, ◌≤◌, ◌+◌, ◌==◌, ℕ, Bool, List, length, map, Some, None, if◌then◌else◌};
ghost use Rattle.disk_contract.specs.declared.event.Event.{Event};
ghost use Rattle.disk_contract.specs.Cell.{IsNoticed};
ghost use Rattle.layout_geometry.specs.Geometry.{Geometry};
ghost use Rattle.layout_journal.specs.Layout.{descriptor_count};
ghost use Rattle.layout_journal.specs.Run.{names_block};
ghost use Rattle.crash_argument.specs.Ledger.{payload_in};
ghost use Rattle.disk_contract.specs.Disk.{writes_in};
ghost use Rattle.crash_argument.specs.HomeTest.{is_one_of};
ghost use Rattle.engine_running.specs.declared.put.Put.{Put};
ghost use Rattle.engine_running.specs.Record.{written_of, fresh_entry, block_of};
ghost use Rattle.engine_running.specs.Rows.{put_of};
ghost use Rattle.engine_running.specs.Running.{Changes, IsOrdered, Puts, Takes, Frees, bytes_put};
ghost use Rattle.crash_argument.specs.Writes.{AddsWrites, AddsFront};
ghost use Rattle.engine_running.specs.Writes.{record_writes};

use layout_journal::payloads_read_back;

/// A transaction is a map from blocks to the bytes that were put. A put block has its bytes, a freed one has
/// none, and every other block has what it had.
pub fn a_transaction_is_a_map_of_its_puts()
    ensures put { (fresh : Bool) (p : Put) (old new : Changes) → IsOrdered old.paid old.laid → Puts fresh p old new → (b : ℕ)
        → bytes_put new b ≡ (if p.block == b then Some p.bytes else bytes_put old b) }
    ensures freed { (c : ℕ) (old new : Changes) → IsOrdered old.paid old.laid → Frees c old new → (b : ℕ)
        → bytes_put new b ≡ (if c == b then None else bytes_put old b) }
    ensures took { (c : ℕ) (old new : Changes) → Takes c old new → (b : ℕ) → bytes_put new b ≡ bytes_put old b }
{}

/// A record has the payloads that were put, and its fresh blocks are those that were laid.
pub fn a_record_keeps_its_puts()
    ensures paid { (epoch number place : ℕ) (paid laid : List Put) (b : ℕ) → payload_in (written_of epoch number place paid laid) b ≡ put_of b paid }
    ensures laid { (laid : List Put) (b : ℕ) → names_block (map fresh_entry laid) b ≡ is_one_of b (map block_of laid) }
{
    payloads_read_back();
}

/// A record makes a write for each of its fresh blocks and for each of its ring places, whether or not one
/// of them is lost.
pub fn a_record_makes_so_many_writes()
    ensures size { (g : Geometry) (epoch number place : ℕ) (paid laid : List Put)
        → length (record_writes g epoch number place paid laid) ≡ length laid + descriptor_count (length paid + length laid) + length paid + 1 }
    ensures accepted { (ws : List (ℕ × List ℕ)) (ts : List ℕ) (old new : List Event) → AddsWrites ws ts old new → writes_in new ≡ writes_in old + length ws }
    ensures failed { (ws : List (ℕ × List ℕ)) (old new : List Event) → AddsFront ws old new → writes_in new ≤ writes_in old + length ws }
{}

/// A record's writes leave what is noticed so.
pub fn noticed_tickets_stay_so()
    ensures { (ws : List (ℕ × List ℕ)) (ts : List ℕ) (old new : List Event) (t : ℕ) → AddsWrites ws ts old new → IsNoticed t old → IsNoticed t new }
{}
