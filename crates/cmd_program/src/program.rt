//! The public call of the program: words, a source of the script, a sink of the output and a bay of
//! disks in, a status out. Its contract is the theorem of the repository, described in docs/PROMISES.md. How
//! a recording is made is in `cmd_record`; here are its status and its last line. Those of the other commands are in
//! modules of their own.

ghost use Rattle.std.specs.Prelude.{◌≡◌, ℕ, ◌≤◌, true, false, List, Option};
ghost use Rattle.base_types.specs.Counts.{Rose};
ghost use Rattle.disk_contract.specs.Manner.{Manner};
ghost use Rattle.layout_geometry.specs.Geometry.{geometry_fits};
ghost use Rattle.disk_memory.specs.MemDisk.{state_of as disk_state};
ghost use Rattle.engine_store.specs.StoreOf.{state_of};
ghost use Rattle.fs_commands.specs.Opened.{blocks_in};
ghost use Rattle.cmd_words.specs.Words.{IsInRange, request_of};
ghost use Rattle.cmd_host.specs.Disks.{FailedToMount, IsOpened, setting_on};
ghost use Rattle.cmd_program.specs.Endings.{HasFault, met};
ghost use Rattle.cmd_program.specs.Program.{Completes, Does, EndsSo, RecordsTo, RecordsWhere, opens_bay, reads_input, shape_of};

use crate::copying::copy;
use crate::loading::load;
use crate::logging::log;
use crate::making::make;
use crate::mirroring::run_mirrored;
use crate::replaying::replay;
use crate::scripting::run;
use crate::showing::show;
use crate::status::Status;
use crate::telling::{DISK, END, LONG, SHAPE, SOURCE, USAGE, tell};
use crate::upgrading::upgrade;
use base_io::{Sink, SinkFault, Source};
use base_types::{Layout, NoMemory};
use cmd_host::{Behaviour, Mounted, System, begin};
use cmd_record::{Ending, Stop, record_lines, write_failed_mount};
use cmd_words::{Request, read_words};
use crash_stands::the_formatted_disk_stands_for_the_root;
use disk_contract::Bay;
use disk_memory::MemDisk;
use lang_script::lines_are_commands;
use layout_geometry::{BadShape, Geom};
use std::alloc::Global;

/// Runs the program with these words.
///
/// - `record N J I` formats a disk in memory and mounts it. It reads a script from `input`, answers its commands by a file
///   system on this disk, and writes the trace to `out`: each command, the events that the disk had meanwhile, and the
///   reply. The options `--notices`, `--room` and `--fail` say how the disk behaves.
/// - `replay --at K` reads a trace from `input`. It writes to `out` which sync point a crash after the first K events
///   leaves, and its tree. The options `--stand` and `--tear` say what becomes of the writes that were pending then.
/// - `tree IMAGE` mounts the image of the bay and writes its tree to `out`.
/// - `mkfs IMAGE N J I` has the bay make a disk under the name, and makes it the image of a formatted disk of this geometry.
/// - `load --seed S --count C` answers the first C commands of the seed's load on a disk in memory, and writes four lines of
///   what they came to.
/// - `run IMAGE` mounts the image of the bay and reads a script from `input`. It answers its commands by a file system on this
///   image, and writes their replies to `out`.
/// - `run IMAGE --mirror OTHER` does the same on two images of the bay that have the same blocks, and keeps them alike. Where
///   a disk of one fails it goes on with the other.
/// - `copy IMAGE OTHER` has the bay make a disk under the other name, and makes it a copy of the image.
/// - `applog IMAGE` mounts the image of the bay, opens the log that it keeps, or a new one, and reads calls from `input`. It
///   answers them by the log, and writes their replies to `out`.
/// - `upgrade IMAGE NEW N J I` has the bay make a disk of this geometry in layout 2 under the new name, formats it, and makes
///   the tree of the image again on it.
pub fn optfs<S: Source, K: Sink, Y: Bay>(
    alloc: Global,
    words: &[String],
    input: &mut S,
    out: &mut K,
    bay: &mut Y,
) -> Status
    ensures does { Does Y.tells (request_of words.now) result (met (S.remaining input.old) (S.remaining input.new) (K.taken out.old) (K.taken out.new)
        (S.faults input.old) (S.faults input.new) (K.faults out.old) (K.faults out.new) (Y.state bay.old) (Y.state bay.new)) }
    ensures untouched { (reads_input (request_of words.now) ≡ false → input.new ≡ input.old) × (opens_bay (request_of words.now) ≡ false → bay.new ≡ bay.old) }

    // A fault of the source or of the sink comes only where its count rose.
    ensures faults { HasFault result (S.faults input.old) (S.faults input.new) (K.faults out.old) (K.faults out.new) }
    ensures counts { (S.faults input.old ≤ S.faults input.new) × (K.faults out.old ≤ K.faults out.new) }

    // Completeness: what is asked for ends as it should, but for such faults and for want of memory.
    ensures completes { Completes (request_of words.now) result (met (S.remaining input.old) (S.remaining input.new) (K.taken out.old) (K.taken out.new)
        (S.faults input.old) (S.faults input.new) (K.faults out.old) (K.faults out.new) (Y.state bay.old) (Y.state bay.new)) }
{
    match read_words(alloc, words) {
        Err(NoMemory) => Status::NoMemory,
        Ok(None) => tell(out, USAGE, Status::Usage),
        Ok(Some(request)) => serve(alloc, &request, input, out, bay),
    }
}

/// Does what a request asks for.
fn serve<S: Source, K: Sink, Y: Bay>(
    alloc: Global,
    request: &Request,
    input: &mut S,
    out: &mut K,
    bay: &mut Y,
) -> Status
    requires range { IsInRange (Some request.now) }
    ensures does { Does Y.tells (Some request.now) result (met (S.remaining input.old) (S.remaining input.new) (K.taken out.old) (K.taken out.new)
        (S.faults input.old) (S.faults input.new) (K.faults out.old) (K.faults out.new) (Y.state bay.old) (Y.state bay.new)) }
    ensures untouched { (reads_input (Some request.now) ≡ false → input.new ≡ input.old) × (opens_bay (Some request.now) ≡ false → bay.new ≡ bay.old) }

    // A fault of the source or of the sink comes only where its count rose.
    ensures faults { HasFault result (S.faults input.old) (S.faults input.new) (K.faults out.old) (K.faults out.new) }
    ensures counts { (S.faults input.old ≤ S.faults input.new) × (K.faults out.old ≤ K.faults out.new) }

    // Completeness: what is asked for ends as it should, but for such faults and for want of memory.
    ensures completes { Completes (Some request.now) result (met (S.remaining input.old) (S.remaining input.new) (K.taken out.old) (K.taken out.new)
        (S.faults input.old) (S.faults input.new) (K.faults out.old) (K.faults out.new) (Y.state bay.old) (Y.state bay.new)) }
{
    match request {
        Request::Record {
            blocks,
            journal,
            nodes,
            layout,
            notices,
            room,
            fail,
        } => {
            let behaviour = Behaviour {
                notices: *notices,
                room: *room,
                fail: *fail,
            };
            record_asked(
                alloc,
                (*blocks, *journal, *nodes),
                *layout,
                &behaviour,
                input,
                out,
            )
        }
        Request::Replay { moment, choice } => replay(alloc, u64::from(*moment), choice, input, out),
        Request::Tree { image } => show(alloc, image.as_str(), out, bay),
        Request::Make {
            image,
            blocks,
            journal,
            nodes,
            layout,
        } => make(
            alloc,
            image.as_str(),
            (*blocks, *journal, *nodes),
            *layout,
            out,
            bay,
        ),
        Request::Run { image } => run(alloc, image.as_str(), input, out, bay),
        Request::RunMirrored { image, other } => {
            run_mirrored(alloc, image.as_str(), other.as_str(), input, out, bay)
        }
        Request::Copy { image, other } => copy(alloc, image.as_str(), other.as_str(), out, bay),
        Request::Load { seed, count } => load(alloc, *seed, *count, out),
        Request::AppLog { image } => log(alloc, image.as_str(), input, out, bay),
        Request::Upgrade {
            image,
            other,
            blocks,
            journal,
            nodes,
        } => upgrade(
            alloc,
            image.as_str(),
            other.as_str(),
            (*blocks, *journal, *nodes),
            out,
            bay,
        ),
    }
}

/// Makes a recording on a disk with so many blocks, journal blocks and nodes in this layout, where they fit together.
fn record_asked<S: Source, K: Sink>(
    alloc: Global,
    shape: (u32, u32, u32),
    layout: Layout,
    behaviour: &Behaviour,
    input: &mut S,
    out: &mut K,
) -> Status
    ensures does { RecordsWhere (geometry_fits (shape_of shape.0 shape.1 shape.2 layout))
        (setting_on (shape_of shape.0 shape.1 shape.2 layout) behaviour.now) result
        (S.remaining input.old) (S.remaining input.new) (K.taken out.old) (K.taken out.new) (S.faults input.old) (S.faults input.new) }
    ensures untouched { geometry_fits (shape_of shape.0 shape.1 shape.2 layout) ≡ false → input.new ≡ input.old }
    ensures faults { HasFault result (S.faults input.old) (S.faults input.new) (K.faults out.old) (K.faults out.new) }
    ensures counts { (S.faults input.old ≤ S.faults input.new) × (K.faults out.old ≤ K.faults out.new) }
    ensures completes { 1 ≤ behaviour.now.room → geometry_fits (shape_of shape.0 shape.1 shape.2 layout) ≡ true
        → ¬ Rose (S.faults input.old) (S.faults input.new) → ¬ Rose (K.faults out.old) (K.faults out.new) → EndsSo behaviour.now.fail result }
{
    let (blocks, journal, nodes) = shape;
    match Geom::new_in(blocks, journal, nodes, layout) {
        Err(BadShape) => tell(out, SHAPE, Status::BadShape),
        Ok(geom) => record(alloc, &geom, behaviour, input, out),
    }
}

/// Makes a recording of the whole input on a disk that was just formatted with this geometry and behaves so.
fn record<S: Source, K: Sink>(
    alloc: Global,
    geom: &Geom,
    behaviour: &Behaviour,
    input: &mut S,
    out: &mut K,
) -> Status
    ensures records { RecordsTo (setting_on geom.now behaviour.now) result (S.remaining input.old) (S.remaining input.new)
        (K.taken out.old) (K.taken out.new) (S.faults input.old) (S.faults input.new) }
    ensures faults { HasFault result (S.faults input.old) (S.faults input.new) (K.faults out.old) (K.faults out.new) }
    ensures counts { (S.faults input.old ≤ S.faults input.new) × (K.faults out.old ≤ K.faults out.new) }
{
    match begin(alloc, geom, behaviour) {
        Err(NoMemory) => Status::NoMemory,
        Ok(Mounted::Failed(disk)) => tell_failed_mount(geom, &disk, out),
        Ok(Mounted::Opened(system)) => record_on(alloc, geom, system, input, out),
    }
}

/// Writes the whole output of a mount that failed: what the trace has of it, and the last line.
fn tell_failed_mount<K: Sink>(geom: &Geom, disk: &MemDisk, out: &mut K) -> Status
    ensures records { (m : Manner) (left : Option (List ℕ)) (source : ℕ) → FailedToMount (record { shape = geom.now; manner = m }) (disk_state disk.now)
        → RecordsTo (record { shape = geom.now; manner = m }) result left left (K.taken out.old) (K.taken out.new) source source }
    ensures faults { (source : ℕ) → HasFault result source source (K.faults out.old) (K.faults out.new) }
    ensures counts { K.faults out.old ≤ K.faults out.new }
{
    geom.lawful();
    the_formatted_disk_stands_for_the_root();
    match write_failed_mount(geom, disk, out) {
        Err(SinkFault) => Status::SinkFault,
        Ok(()) => tell(out, DISK, Status::DiskFault),
    }
}

/// Makes a recording of the whole input by this file system, which nothing was asked of yet, and writes its last line.
fn record_on<S: Source, K: Sink>(
    alloc: Global,
    geom: &Geom,
    system: System,
    input: &mut S,
    out: &mut K,
) -> Status
    requires opened { (m : Manner) × IsOpened (record { shape = geom.now; manner = m }) (state_of disk_state (blocks_in system)) }
    ensures records { (m : Manner) → IsOpened (record { shape = geom.now; manner = m }) (state_of disk_state (blocks_in system))
        → RecordsTo (record { shape = geom.now; manner = m }) result (S.remaining input.old) (S.remaining input.new)
        (K.taken out.old) (K.taken out.new) (S.faults input.old) (S.faults input.new) }
    ensures faults { HasFault result (S.faults input.old) (S.faults input.new) (K.faults out.old) (K.faults out.new) }
    ensures counts { (S.faults input.old ≤ S.faults input.new) × (K.faults out.old ≤ K.faults out.new) }
{
    lines_are_commands();
    match record_lines(alloc, geom, system, input, out) {
        Err(Stop::NoMemory) => Status::NoMemory,
        Err(Stop::SinkFault) => Status::SinkFault,
        Ok(Ending::End) => tell(out, END, Status::Done),
        Ok(Ending::SourceFault) => tell(out, SOURCE, Status::SourceFault),
        Ok(Ending::LongInput) => tell(out, LONG, Status::LongInput),
    }
}
