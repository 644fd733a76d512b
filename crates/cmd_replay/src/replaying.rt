//! What a crash of a trace leaves: the image that a choice names at a moment is made and mounted in memory, its tree is
//! listed, and the newest sync point with that tree is found. How a trace is read is in `cmd_trace_reader`.

ghost use Rattle.std.specs.Prelude.{◌≡◌, ◌++◌, ℕ, Ok, take, IfErr, IfOk, OnErr, OnOk};
ghost use Rattle.std.specs.Io.KnownBytes.{Appends};
ghost use Rattle.base_types.specs.Counts.{HasCause};
ghost use Rattle.disk_contract.specs.Lawful.{IsLogOf};
ghost use Rattle.disk_memory.specs.Choice.{GivesImage};
ghost use Rattle.cmd_trace_reader.specs.Traces.{IsTrace};
ghost use Rattle.cmd_replay.specs.Replays.{Answers, LeavesImage, RefusesChoice, found_text, point_line};

use crate::laws::{
    a_listing_says_the_tree, points_of_a_trace_have_lawful_names, what_stands_has_lawful_names,
};
use crate::listed::listing_of;
use crate::points::newest_point;
use crate::refusal::ReplayRefusal;
use base_io::{Sink, SinkFault, prefixes_join, push_all};
use cmd_host::formatted_image;
use cmd_trace_reader::Trace;
use disk_contract::Event;
use disk_memory::{Choice, Image, ImageRefusal, MemDisk};
use lang_script::write_numbered_line;
use layout_geometry::Geom;
use std::alloc::Global;
use std::marker::Model;

/// What was found in the image of a crash: the listing of its tree, and the newest sync point with that tree, of those
/// that the crash may leave.
#[derive(Drop)]
pub struct Replayed {
    text: Vec<u8>,
    point: Option<u64>,
}

impl Model for Replayed {
    ghost use Rattle.cmd_replay.specs.Replays.{Found};

    ghost Value = { Found };

    ghost view = { λ r. record { text = r.text.items; point = r.point } };
}

impl Replayed {
    /// The number of the sync point, or `None` where no sync point that the crash may leave has this tree.
    pub fn point(&self) -> Option<u64>
        ensures { result ≡ self.now.point }
    {
        self.point
    }

    /// Writes the line of the point and the listing of the tree.
    ///
    /// # Errors
    /// The first fault of the sink, which by then took a front of these lines and nothing else.
    pub fn write<K: Sink>(&self, out: &mut K) -> Result<(), SinkFault>
        ensures all { OnOk result (Appends (K.taken out.old) (K.taken out.new) (found_text self.now)) }
        ensures front { OnErr result ((n : ℕ) × Appends (K.taken out.old) (K.taken out.new) (take n (found_text self.now))) }
        ensures cause { HasCause result (K.faults out.old) (K.faults out.new) }
    {
        prefixes_join();
        write_point(out, self.point)?;
        push_all(out, self.text.as_slice())?;
        Ok(())
    }
}

/// Writes the line of the point.
///
/// # Errors
/// As of `Replayed::write`.
fn write_point<K: Sink>(out: &mut K, point: Option<u64>) -> Result<(), SinkFault>
    ensures all { OnOk result (Appends (K.taken out.old) (K.taken out.new) (point_line point)) }
    ensures front { OnErr result ((n : ℕ) × Appends (K.taken out.old) (K.taken out.new) (take n (point_line point))) }
    ensures cause { HasCause result (K.faults out.old) (K.faults out.new) }
{
    match point {
        None => push_all(out, b"prefix none\n"),
        Some(number) => write_numbered_line(out, b"prefix ", number),
    }
}

/// Tells what a crash after the first `moment` events of a trace leaves, where the choice says what becomes of the writes
/// that are pending then. The image is mounted on a disk in memory, which fails no call.
///
/// # Errors
/// `Choice` exactly where the moment is past the log, or a write that the choice names isn't pending then. Else `Spent`
/// and `Damaged` come of what is in the image: no tree stands then. Out of memory.
pub fn replay(
    alloc: Global,
    mut trace: Trace,
    moment: u64,
    choice: &Choice,
) -> Result<Replayed, ReplayRefusal>
    requires { IsTrace trace }
    ensures { Answers trace moment choice.now result }
{
    a_listing_says_the_tree();
    points_of_a_trace_have_lawful_names();
    what_stands_has_lawful_names();
    let log = trace.take_log(alloc);
    let image = crash_image(alloc, trace.geom(), log, moment, choice)?;
    let text = listing_of(alloc, image)?;
    let point = newest_point(alloc, &trace, moment, text.as_slice())?;
    Ok(Replayed { text, point })
}

/// The image that a crash leaves of a disk which was formatted with this geometry and has this log.
///
/// # Errors
/// `Choice` exactly where the log or the choice doesn't have it. Out of memory.
fn crash_image(
    alloc: Global,
    geom: &Geom,
    log: Vec<Event>,
    moment: u64,
    choice: &Choice,
) -> Result<Image, ReplayRefusal>
    requires { IsLogOf geom.now.n log.items }
    ensures image { IfOk result (λ image. LeavesImage geom.now log.items moment choice.now image) }
    ensures refused { IfErr result (RefusesChoice log.items moment choice.now) }
{
    let image = formatted_image(alloc, geom)?;
    let disk = MemDisk::of_log(alloc, image, log)?;
    let chosen = chosen_image(alloc, &disk, moment, choice)?;
    Ok(chosen)
}

/// The image that a crash leaves of this disk.
///
/// # Errors
/// As of `crash_image`.
fn chosen_image(
    alloc: Global,
    disk: &MemDisk,
    moment: u64,
    choice: &Choice,
) -> Result<Image, ReplayRefusal>
    ensures image { IfOk result (λ image. GivesImage disk.now.base disk.now.log moment choice.now (Ok image)) }
    ensures refused { IfErr result (RefusesChoice disk.now.log moment choice.now) }
{
    match disk.image(alloc, moment, choice) {
        Ok(image) => Ok(image),
        Err(ImageRefusal::NoMemory) => Err(ReplayRefusal::NoMemory),
        Err(ImageRefusal::PastTheLog { .. }) => Err(ReplayRefusal::Choice),
        Err(ImageRefusal::NotPending { .. }) => Err(ReplayRefusal::Choice),
    }
}
