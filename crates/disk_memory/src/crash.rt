//! The image that a crash leaves of a disk in memory by a choice. It is made in one walk over the log up
//! to the moment and one over the blocks.

ghost use Rattle.std.specs.Prelude.{ℕ, Bool, false, slice_set, ◌≡◌, ◌≤◌, ◌<◌, ◌∷◌, [], ◌++◌, List, length, take, drop, IsTrue, Result, Ok, Err, Some};
ghost use Rattle.std.specs.Prelude.{IfOk, OnOk, IfErr};
ghost use Rattle.std.specs.List.{list_all, slice_get};
ghost use Rattle.base_types.specs.Seal.{blocks_of};
ghost use Rattle.disk_contract.specs.Cell.{cell_of};
ghost use Rattle.disk_contract.specs.declared.event.Event.{Event};
ghost use Rattle.disk_contract.specs.Lawful.{IsLawful};
ghost use Rattle.disk_memory.specs.Log.{AreWithin};
ghost use Rattle.disk_memory.specs.Logged.{event_of};
ghost use Rattle.disk_memory.specs.declared.choice.Named.{Named};
ghost use Rattle.disk_memory.specs.Choice.{ChoiceState, chosen, is_pending, joined, left_by, AreBlocksOf, GivesImage, Refuses};
ghost use Rattle.disk_memory.specs.Crash.{first_fate, pending_answer, is_past, put_event};
ghost use Rattle.disk_memory.specs.Settled.{AreSettledPlaces, AreFates};

use crate::choice::{Choice, Fate, ImageRefusal, Named};
use crate::log::Log;
use crate::settled::{settled_bytes, settled_image, settled_places};
use crate::{Image, Logged};
use base_types::{Block, NoMemory};
use std::alloc::Global;

/// The image that a crash after the first `moment` events leaves by a choice.
///
/// # Errors
/// `PastTheLog` where the moment is past the log. Else `NotPending` where a write that the choice names isn't
/// pending at the moment, with the first such one. Out of memory.
pub(crate) fn image_at(
    alloc: Global,
    base: &Image,
    log: &Log,
    moment: u64,
    choice: &Choice,
) -> Result<Image, ImageRefusal>
    requires { AreWithin (length base.now) log.now.events }
    ensures { GivesImage base.now log.now.events moment choice.now result }
{
    // a call for its clause alone: that the log is lawful
    log.lawful();
    let events = log.len();
    if moment > events {
        return Err(ImageRefusal::PastTheLog { moment, events });
    }
    let moment = moment as usize;
    let places = settled_places(alloc, log, base.blocks(), moment)?;
    let fates = fates(alloc, log, places.as_slice(), moment, choice)?;
    let mut image = settled_image(alloc, base, log, places.as_slice())?;
    put_pending(
        alloc,
        &mut image,
        base,
        log,
        places.as_slice(),
        fates.as_slice(),
    )?;
    Ok(image)
}

// What the choice says of each of the first `moment` events that are writes.
fn fates(
    alloc: Global,
    log: &Log,
    places: &[usize],
    moment: usize,
    choice: &Choice,
) -> Result<Vec<Option<Fate>>, ImageRefusal>
    requires lawful { IsLawful log.now.events }
    requires within { AreWithin (length places.now) log.now.events }
    requires there { moment ≤ length log.now.events }
    requires places { AreSettledPlaces (length places.now) (take moment log.now.events) places.now }
    ensures fates { IfOk result (λ fates. AreFates (take moment log.now.events) choice.now.all choice.now.named fates.items) }
    ensures pending { OnOk result (IsTrue (list_all (λ n. is_pending (take moment log.now.events) n.write) choice.now.named)) }
    ensures bad { IfErr result (λ why. Refuses choice.now moment log.now.events why) }
{
    let mut fates = fates_at_first(alloc, log, moment, choice.stands_all())?;
    for named in choice.named() {
        name_fate(fates.as_mut_slice(), log, places, *named)?;
    }
    Ok(fates)
}

// What is said of the first `moment` events before single ones are named.
fn fates_at_first(
    alloc: Global,
    log: &Log,
    moment: usize,
    all: bool,
) -> Result<Vec<Option<Fate>>, NoMemory>
    requires { moment ≤ length log.now.events }
    ensures { IfOk result (λ fates. AreFates (take moment log.now.events) all [] fates.items) }
{
    let mut fates = Vec::with_capacity(alloc, moment)?;
    for place in 0..moment {
        let fate = fate_at_first(log.event(place), all);
        fates.push(fate).unwrap();
    }
    Ok(fates)
}

// What is said of one event before single ones are named.
fn fate_at_first(event: Logged<'_>, all: bool) -> Option<Fate>
    ensures { result ≡ first_fate (event_of event.entry) all }
{
    match event {
        Logged::Wrote { .. } => all.then_some(Fate::Stands),
        Logged::Lost { .. } => None,
        Logged::Noticed { .. } => None,
    }
}

// Adds what is said of one write, which must be pending.
fn name_fate(
    fates: &mut [Option<Fate>],
    log: &Log,
    places: &[usize],
    named: Named,
) -> Result<(), ImageRefusal>
    requires lawful { IsLawful log.now.events }
    requires within { AreWithin (length places.now) log.now.events }
    requires there { length fates.old ≤ length log.now.events }
    requires places { AreSettledPlaces (length places.now) (take (length fates.old) log.now.events) places.now }
    ensures answer { result ≡ pending_answer named.write (is_pending (take (length fates.old) log.now.events) named.write) }
    ensures fates { OnOk result ((all : Bool) (said : List Named) → AreFates (take (length fates.old) log.now.events) all said fates.old
        → AreFates (take (length fates.old) log.now.events) all (said ++ named ∷ []) fates.new) }
{
    let refusal = ImageRefusal::NotPending { write: named.write };
    let Some(place) = log.place_of(named.write) else {
        return Err(refusal);
    };
    if place >= fates.len() {
        return Err(refusal);
    }
    if !is_pending_at(log.event(place), places, place) {
        return Err(refusal);
    }
    fates[place] = Some(joined(fates[place], named.fate));
    Ok(())
}

// Whether the event of this place is a write after what is settled of its block.
fn is_pending_at(event: Logged<'_>, places: &[usize], place: usize) -> bool
    requires { AreWithin (length places.now) (event_of event ∷ []) }
    ensures { result ≡ is_past places.now place (event_of event.entry) }
{
    match event {
        Logged::Wrote { block, .. } => places[block as usize] <= place,
        Logged::Lost { block, .. } => places[block as usize] <= place,
        Logged::Noticed { .. } => false,
    }
}

// What is said of a write after one more fate.
fn joined(before: Option<Fate>, fate: Fate) -> Fate
    ensures { Some result ≡ joined before fate }
{
    match (before, fate) {
        (Some(Fate::Torn { bytes }), Fate::Stands) => Fate::Torn { bytes },
        _ => fate,
    }
}

// Puts what the fates leave of the pending writes over the settled contents.
fn put_pending(
    alloc: Global,
    image: &mut Image,
    base: &Image,
    log: &Log,
    places: &[usize],
    fates: &[Option<Fate>],
) -> Result<(), NoMemory>
    requires size { length image.old ≡ length base.now }
    requires lawful { IsLawful log.now.events }
    requires within { AreWithin (length base.now) log.now.events }
    requires there { length fates.now ≤ length log.now.events }
    requires places { AreSettledPlaces (length base.now) (take (length fates.now) log.now.events) places.now }
    requires settled { AreBlocksOf (length base.now) (λ b. (cell_of (blocks_of base.now) (take (length fates.now) log.now.events) b).settled) image.old }
    ensures { OnOk result ((c : ChoiceState) → AreFates (take (length fates.now) log.now.events) c.all c.named fates.now
        → AreBlocksOf (length base.now) (chosen c (blocks_of base.now) (take (length fates.now) log.now.events)) image.new) }
{
    for place in 0..fates.len() {
        if let Some(fate) = fates[place] {
            put_event(alloc, image, base, log, places, place, fate)?;
        }
    }
    Ok(())
}

// Puts what a fate leaves of the write at this place, if it is pending.
fn put_event(
    alloc: Global,
    image: &mut Image,
    base: &Image,
    log: &Log,
    places: &[usize],
    place: usize,
    fate: Fate,
) -> Result<(), NoMemory>
    requires size { length image.old ≡ length base.now }
    requires within { AreWithin (length base.now) log.now.events }
    requires there { place < length log.now.events }
    requires places { length places.now ≡ length base.now }
    ensures { OnOk result ((moment : ℕ) (event : Event) → AreSettledPlaces (length base.now) (take moment log.now.events) places.now
        → slice_get log.now.events place ≡ Some event
        → image.new ≡ put_event (λ b. (cell_of (blocks_of base.now) (take moment log.now.events) b).settled) places.now place event fate image.old) }
{
    match log.event(place) {
        Logged::Wrote { block, bytes, .. } => {
            let settled = places[block as usize];
            if settled <= place {
                let settled = settled_bytes(base, log, block, settled);
                put_write(alloc, image, block, bytes, settled, fate)?;
            }
        }
        Logged::Lost { block, bytes } => {
            let settled = places[block as usize];
            if settled <= place {
                let settled = settled_bytes(base, log, block, settled);
                put_write(alloc, image, block, bytes, settled, fate)?;
            }
        }
        Logged::Noticed { .. } => {}
    }
    Ok(())
}

// Puts what a fate leaves of a write of these bytes to a block of which these are settled.
fn put_write(
    alloc: Global,
    image: &mut Image,
    block: u32,
    bytes: &Block,
    settled: &Block,
    fate: Fate,
) -> Result<(), NoMemory>
    requires { block < length image.old }
    ensures { OnOk result (image.new ≡ slice_set image.old block (left_by (Some fate) settled.now bytes.now [])) }
{
    match fate {
        Fate::Stands => image.set(alloc, block, bytes)?,
        Fate::Torn { bytes: count } => image.set(alloc, block, &torn(bytes, count, settled))?,
    }
    Ok(())
}

// The first bytes of a write, and then those that are settled.
fn torn(bytes: &Block, count: u16, settled: &Block) -> Block
    ensures { result ≡ take count bytes.now ++ drop count settled.now }
{
    let mut torn = *settled;
    let count = usize::from(count).min(1024);
    torn[..count].copy_from_slice(&bytes[..count]);
    torn
}
