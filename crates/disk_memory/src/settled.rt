//! For each block of a disk in memory, which write its settled content is of at a moment. What a choice
//! does to pending writes isn't described here.

ghost use Rattle.std.specs.Prelude.{ℕ, ◌≡◌, ◌+◌, ◌<◌, ◌≤◌, length, take, Some, IfOk};
ghost use Rattle.std.specs.List.{slice_get};
ghost use Rattle.base_types.specs.Seal.{blocks_of};
ghost use Rattle.disk_contract.specs.declared.event.Event.TheVariants.{Noticed};
ghost use Rattle.disk_contract.specs.Cell.{cell_of};
ghost use Rattle.disk_memory.specs.Log.{AreWithin};
ghost use Rattle.disk_memory.specs.Settled.{IsSettledPlace, AreSettledPlaces};
ghost use Rattle.disk_memory.specs.Choice.{AreBlocksOf};

use crate::log::Log;
use crate::{Image, Logged, WriteName};
use base_types::{Block, NoMemory};
use disk_contract::{a_block_has_its_bytes, settled_is_the_newest_noticed};
use std::alloc::Global;

/// For each of so many blocks one more than the place in the log of its newest write whose notice is among
/// the first `moment` events, or 0 where there is none.
///
/// # Errors
/// Out of memory.
pub(crate) fn settled_places(
    alloc: Global,
    log: &Log,
    blocks: u32,
    moment: usize,
) -> Result<Vec<usize>, NoMemory>
    requires within { AreWithin blocks log.now.events }
    requires there { moment ≤ length log.now.events }
    ensures { IfOk result (λ places. AreSettledPlaces blocks (take moment log.now.events) places.items) }
{
    let mut places = vec![in alloc; 0usize; blocks as usize]?;
    for place in 0..moment {
        pass(places.as_mut_slice(), log, place);
    }
    Ok(places)
}

// Makes the places those that are settled after the event at this place of the log.
fn pass(places: &mut [usize], log: &Log, place: usize)
    requires within { AreWithin (length places.old) log.now.events }
    requires there { place < length log.now.events }
    ensures { AreSettledPlaces (length places.old) (take place log.now.events) places.old
        → AreSettledPlaces (length places.old) (take (place + 1) log.now.events) places.new }
{
    // a call for its clause alone: that the log is lawful
    log.lawful();
    match log.event(place) {
        Logged::Wrote { .. } => {}
        Logged::Lost { .. } => {}
        Logged::Noticed { ticket } => note(places, log, ticket),
    }
}

// The notice of this ticket settles the write that has it, unless a later one to its block is settled.
fn note(places: &mut [usize], log: &Log, ticket: u64)
    requires { AreWithin (length places.old) log.now.events }
    ensures { (moment : ℕ) → slice_get log.now.events moment ≡ Some (Noticed ticket)
        → AreSettledPlaces (length places.old) (take moment log.now.events) places.old
        → AreSettledPlaces (length places.old) (take (moment + 1) log.now.events) places.new }
{
    // a call for its clauses alone: that the log is lawful, and has few events
    log.lawful();
    if let Some(place) = log.place_of(WriteName::Accepted { ticket }) {
        if let Logged::Wrote { block, .. } = log.event(place) {
            if places[block as usize] <= place {
                places[block as usize] = place + 1;
            }
        }
    }
}

/// The settled content of a block, which has this place.
pub(crate) fn settled_bytes<'a>(
    base: &'a Image,
    log: &'a Log,
    block: u32,
    place: usize,
) -> &'a Block
    requires { block < length base.now }
    ensures bytes { (moment : ℕ) → IsSettledPlace (take moment log.now.events) block place
        → result.now ≡ (cell_of (blocks_of base.now) (take moment log.now.events) block).settled }
    ensures size { length result.now ≡ 1024 }
{
    // calls for their clauses alone: what is settled where no write was noticed, that the log is lawful, and
    // what the bytes of a block are
    settled_is_the_newest_noticed();
    log.lawful();
    if place == 0 {
        return base.block(block);
    }
    match log.at(place - 1) {
        Some(Logged::Wrote { bytes, .. }) => {
            a_block_has_its_bytes(bytes);
            bytes
        }
        Some(Logged::Lost { .. }) => base.block(block),
        Some(Logged::Noticed { .. }) => base.block(block),
        None => base.block(block),
    }
}

/// The settled contents of all blocks, which have these places.
///
/// # Errors
/// Out of memory.
pub(crate) fn settled_image(
    alloc: Global,
    base: &Image,
    log: &Log,
    places: &[usize],
) -> Result<Image, NoMemory>
    requires { length places.now ≡ length base.now }
    ensures { (moment : ℕ) → AreSettledPlaces (length base.now) (take moment log.now.events) places.now
        → IfOk result (λ image. AreBlocksOf (length base.now) (λ b. (cell_of (blocks_of base.now) (take moment log.now.events) b).settled) image) }
{
    // calls for their clauses alone: what is settled where no write was noticed, and that the log is lawful
    settled_is_the_newest_noticed();
    log.lawful();
    let mut image = base.copy(alloc)?;
    for block in 0..base.blocks() {
        let place = places[block as usize];
        if place > 0 {
            let bytes = settled_bytes(base, log, block, place);
            image.set(alloc, block, bytes)?;
        }
    }
    Ok(image)
}
