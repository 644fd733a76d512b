//! A script on an image of the bay: it is run, and the program ends with the status of the answer. How a script is run is
//! in `cmd_image`.

ghost use Rattle.std.specs.Prelude.{◌≤◌};
ghost use Rattle.cmd_program.specs.Endings.{HasFault, met};
ghost use Rattle.cmd_program.specs.Scripting.{RunsTo, TellsScript};

use crate::status::Status;
use crate::telling::{DAMAGED, DISK, LONG, SOURCE, SPENT, tell};
use base_io::{Sink, Source};
use cmd_image::{Ending, RunRefusal, run_script};
use disk_contract::Bay;
use std::alloc::Global;

/// Runs the script that is the input on the image under the name, writes the replies, and the last line of the status.
pub fn run<S: Source, K: Sink, Y: Bay>(
    alloc: Global,
    image: &str,
    input: &mut S,
    out: &mut K,
    bay: &mut Y,
) -> Status
    ensures runs { RunsTo Y.tells image.now result (met (S.remaining input.old) (S.remaining input.new) (K.taken out.old) (K.taken out.new)
        (S.faults input.old) (S.faults input.new) (K.faults out.old) (K.faults out.new) (Y.state bay.old) (Y.state bay.new)) }
    ensures faults { HasFault result (S.faults input.old) (S.faults input.new) (K.faults out.old) (K.faults out.new) }
    ensures counts { (S.faults input.old ≤ S.faults input.new) × (K.faults out.old ≤ K.faults out.new) }
{
    let answer = run_script(alloc, bay, image, input, out);
    end_script(answer, out)
}

/// Writes the last line behind a script that was answered so, where its status has one.
pub fn end_script<K: Sink>(answer: Result<Ending, RunRefusal>, out: &mut K) -> Status
    ensures tells { TellsScript answer result (K.taken out.old) (K.taken out.new) (K.faults out.old) (K.faults out.new) }
    ensures counts { K.faults out.old ≤ K.faults out.new }
{
    match answer {
        Ok(Ending::End) => Status::Done,
        Ok(Ending::SourceFault) => tell(out, SOURCE, Status::SourceFault),
        Ok(Ending::LongInput) => tell(out, LONG, Status::LongInput),
        Err(RunRefusal::Fault) => tell(out, DISK, Status::DiskFault),
        Err(RunRefusal::Damaged { damage }) => tell(out, DAMAGED, Status::Damaged(damage)),
        Err(RunRefusal::Spent) => tell(out, SPENT, Status::Spent),
        Err(RunRefusal::SinkFault) => Status::SinkFault,
        Err(RunRefusal::NoMemory) => Status::NoMemory,
    }
}
