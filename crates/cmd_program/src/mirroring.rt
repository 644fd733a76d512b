//! A script on two images of the bay that are kept alike: it is run over both as over one disk, and the program ends with
//! the status of the answer. How two images are run is in `cmd_mirror`.

ghost use Rattle.std.specs.Prelude.{◌≢◌, ◌≤◌};
ghost use Rattle.cmd_program.specs.Endings.{HasFault, met};
ghost use Rattle.cmd_program.specs.Mirroring.{RunsMirroredTo, TellsMirrored};

use crate::scripting::end_script;
use crate::status::Status;
use crate::telling::{UNLIKE, tell};
use base_io::{Sink, Source};
use cmd_image::Ending;
use cmd_mirror::MirroredRefusal;
use disk_contract::Bay;
use std::alloc::Global;

/// Runs the script that is the input on the images under the two names, which must differ, and keeps them alike; writes the
/// replies, and the last line of the status.
pub fn run_mirrored<S: Source, K: Sink, Y: Bay>(
    alloc: Global,
    image: &str,
    other: &str,
    input: &mut S,
    out: &mut K,
    bay: &mut Y,
) -> Status
    requires { image.now ≢ other.now }
    ensures runs { RunsMirroredTo Y.tells image.now other.now result (met (S.remaining input.old) (S.remaining input.new) (K.taken out.old) (K.taken out.new)
        (S.faults input.old) (S.faults input.new) (K.faults out.old) (K.faults out.new) (Y.state bay.old) (Y.state bay.new)) }
    ensures faults { HasFault result (S.faults input.old) (S.faults input.new) (K.faults out.old) (K.faults out.new) }
    ensures counts { (S.faults input.old ≤ S.faults input.new) × (K.faults out.old ≤ K.faults out.new) }
{
    let answer = cmd_mirror::run_mirrored(alloc, bay, image, other, input, out);
    end_mirrored(answer, out)
}

/// Writes the last line behind a script on two images that was answered so, where its status has one.
fn end_mirrored<K: Sink>(answer: Result<Ending, MirroredRefusal>, out: &mut K) -> Status
    ensures tells { TellsMirrored answer result (K.taken out.old) (K.taken out.new) (K.faults out.old) (K.faults out.new) }
    ensures counts { K.faults out.old ≤ K.faults out.new }
{
    match answer {
        Ok(ending) => end_script(Ok(ending), out),
        Err(MirroredRefusal::Run { why }) => end_script(Err(why), out),
        Err(MirroredRefusal::Unlike) => tell(out, UNLIKE, Status::Unlike),
    }
}
