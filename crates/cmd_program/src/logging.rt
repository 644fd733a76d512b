//! The log of an application that an image of the bay keeps: its calls are served, and the program ends with the status of
//! the answer. How a log is opened and served is in `cmd_log`.

ghost use Rattle.std.specs.Prelude.{◌≤◌};
ghost use Rattle.cmd_program.specs.Endings.{HasFault, met};
ghost use Rattle.cmd_program.specs.Logging.{LogsTo, TellsLog};

use crate::scripting::end_script;
use crate::status::Status;
use crate::telling::{LOG, ROOM, tell};
use base_io::{Sink, Source};
use cmd_image::Ending;
use cmd_log::{LogRunRefusal, run_log};
use disk_contract::Bay;
use std::alloc::Global;

/// Opens the log that the image under the name keeps, or a new one, and answers the calls that are the input by it; writes
/// the replies, and the last line of the status.
pub fn log<S: Source, K: Sink, Y: Bay>(
    alloc: Global,
    image: &str,
    input: &mut S,
    out: &mut K,
    bay: &mut Y,
) -> Status
    ensures logs { LogsTo Y.tells image.now result (met (S.remaining input.old) (S.remaining input.new) (K.taken out.old) (K.taken out.new)
        (S.faults input.old) (S.faults input.new) (K.faults out.old) (K.faults out.new) (Y.state bay.old) (Y.state bay.new)) }
    ensures faults { HasFault result (S.faults input.old) (S.faults input.new) (K.faults out.old) (K.faults out.new) }
    ensures counts { (S.faults input.old ≤ S.faults input.new) × (K.faults out.old ≤ K.faults out.new) }
{
    let answer = run_log(alloc, bay, image, input, out);
    end_log(answer, out)
}

/// Writes the last line behind a log that was answered so, where its status has one.
fn end_log<K: Sink>(answer: Result<Ending, LogRunRefusal>, out: &mut K) -> Status
    ensures tells { TellsLog answer result (K.taken out.old) (K.taken out.new) (K.faults out.old) (K.faults out.new) }
    ensures counts { K.faults out.old ≤ K.faults out.new }
{
    match answer {
        Ok(ending) => end_script(Ok(ending), out),
        Err(LogRunRefusal::Run(why)) => end_script(Err(why), out),
        Err(LogRunRefusal::NoRoom(_)) => tell(out, ROOM, Status::NoRoom),
        Err(LogRunRefusal::BadLog) => tell(out, LOG, Status::BadLog),
    }
}
