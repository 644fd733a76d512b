//! A read of a block, where its newest bytes are: in the running transaction, in a record whose checkpoint writes
//! aren't all durable, in the cache, or on the disk.

ghost use Rattle.std.specs.Prelude.{◌≡◌, ◌<◌, ◌≤◌, ℕ, true, false, is_err, IsTrue, OnOk};
ghost use Rattle.disk_contract.specs.Disk.{OnlyReads};
ghost use Rattle.layout_geometry.specs.Geometry.{bitmap_start};
ghost use Rattle.engine_blocks.specs.State.{is_defined};
ghost use Rattle.engine_books.specs.Books.{map_of};
ghost use Rattle.engine_store.specs.Store.{bookkeeping_of};
ghost use Rattle.engine_store.specs.Told.{IsKeptOn, last_map};

use crate::parts::StoreParts;
use base_types::{Block, ReadFault};
use crash_argument::a_read_gives_what_was_written_last;
use disk_contract::Disk;
use engine_books::the_map_needs_only_live_blocks;
use engine_checkpoint::the_newest_payloads_are_the_map;

/// Reads a block.
pub(crate) fn read_block<D: Disk>(
    disk: &mut D,
    parts: &mut StoreParts,
    b: u32,
    into: &mut Block,
) -> Result<(), ReadFault>
    requires kept { IsKeptOn D.tells parts.old (D.state disk.old) }
    requires going { parts.old.stopped ≡ false }
    requires from { bitmap_start parts.old.books.geom ≤ b }
    requires below { b < parts.old.books.geom.n }
    ensures kept { IsKeptOn D.tells parts.new (D.state disk.new) }
    ensures block { IsTrue D.tells → is_defined (bookkeeping_of parts.old) b ≡ true
        → OnOk result (into.new ≡ map_of parts.old.books (last_map parts.old (D.state disk.old)) b) }
    ensures parts { parts.new ≡ record parts.old { cache = parts.new.cache } }
    ensures log { IsTrue D.tells → (D.state disk.new).log ≡ (D.state disk.old).log }
    ensures spends { OnlyReads (is_err result) (D.state disk.old) (D.state disk.new) }
{
    the_newest_payloads_are_the_map();
    a_read_gives_what_was_written_last();
    the_map_needs_only_live_blocks();
    if let Some(bytes) = parts.books.block(b) {
        *into = *bytes;
        return Ok(());
    }
    if let Some(bytes) = parts.pipeline.payload(b) {
        *into = *bytes;
        return Ok(());
    }
    parts.cache.get(disk, b, into)
}
