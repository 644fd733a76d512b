//! Where the payloads of a run are in the journal: a search tree over the blocks that they name. A
//! block that the run's last entry names as fresh isn't in it. No block is looked at here.

ghost use Rattle.std.specs.Prelude.{◌≡◌, ◌<◌, ◌+◌, ◌^◌, ◌==◌, ℕ, length, None, Some, OnOk, IfOk, if◌then◌else◌};
ghost use Rattle.std.specs.Ordering.{nat_cmp};
ghost use Rattle.std.specs.BTreeMap.{get};
ghost use Rattle.layout_journal.specs.Run.{names_block};
ghost use Rattle.engine_recover.specs.Payload.{or_before, stored_from, stored_next, stored_after};

use crate::reading::ring_block;
use base_types::NoMemory;
use crash_record::Record;
use layout_geometry::Geom;
use layout_journal::{Entry, EntryKind};
use std::alloc::Global;
use std::collections::BTreeMap;

/// Where the payload of this block stands.
pub(crate) fn stored_at(
    stored: &BTreeMap<u32, (u32, EntryKind)>,
    block: u32,
) -> Option<(u32, EntryKind)>
    ensures { result ≡ get nat_cmp stored.now block }
{
    stored.get(&block).copied()
}

/// The payload of this block stands here.
///
/// # Errors
/// Out of memory.
fn put(
    stored: &mut BTreeMap<u32, (u32, EntryKind)>,
    block: u32,
    at: u32,
    kind: EntryKind,
) -> Result<(), NoMemory>
    ensures { OnOk result ((b : ℕ) → get nat_cmp stored.new b ≡ (if block == b then Some (at, kind) else get nat_cmp stored.old b)) }
{
    stored.insert(block, (at, kind))?;
    Ok(())
}

/// No payload of this block stands.
fn take_out(stored: &mut BTreeMap<u32, (u32, EntryKind)>, block: u32)
    ensures { (b : ℕ) → get nat_cmp stored.new b ≡ (if block == b then None else get nat_cmp stored.old b) }
{
    stored.remove(&block);
}

/// Puts in each payload of a record; they stand from this ring place on. The first of a block decides,
/// so they are gone through from the last to the first.
///
/// # Errors
/// Out of memory.
fn put_payloads(
    stored: &mut BTreeMap<u32, (u32, EntryKind)>,
    geom: Geom,
    first: usize,
    payloads: &[Entry],
) -> Result<(), NoMemory>
    requires { first + length payloads.now < 2 ^ 64 }
    ensures { OnOk result ((b : ℕ) → get nat_cmp stored.new b ≡ or_before (stored_from geom first payloads.now b) (get nat_cmp stored.old b)) }
{
    let mut left = payloads.len();
    while left > 0 {
        left -= 1;
        let at = ring_block(geom, first + left);
        put(stored, payloads[left].block, at, payloads[left].kind)?;
    }
    Ok(())
}

/// Takes out the fresh blocks of a record.
fn take_out_fresh(stored: &mut BTreeMap<u32, (u32, EntryKind)>, fresh: &[Entry])
    ensures { (b : ℕ) → get nat_cmp stored.new b ≡ (if names_block fresh.now b then None else get nat_cmp stored.old b) }
{
    for entry in fresh {
        take_out(stored, entry.block);
    }
}

/// One record more.
///
/// # Errors
/// Out of memory.
fn put_record(
    stored: &mut BTreeMap<u32, (u32, EntryKind)>,
    geom: Geom,
    each: &Record,
) -> Result<(), NoMemory>
    ensures { OnOk result ((b : ℕ) → get nat_cmp stored.new b ≡ stored_next geom (get nat_cmp stored.old b) each.now b) }
{
    take_out_fresh(stored, each.fresh());
    let first = each.place() as usize + each.heads();
    put_payloads(stored, geom, first, each.payloads())
}

/// Where the payloads of a run stand.
///
/// # Errors
/// Out of memory.
pub(crate) fn stored_by(
    alloc: Global,
    geom: Geom,
    run: &[Record],
) -> Result<BTreeMap<u32, (u32, EntryKind)>, NoMemory>
    ensures { IfOk result (λ stored. (b : ℕ) → get nat_cmp stored b ≡ stored_after geom None run.now b) }
{
    let mut stored = BTreeMap::new(alloc);
    for each in run {
        put_record(&mut stored, geom, each)?;
    }
    Ok(stored)
}
