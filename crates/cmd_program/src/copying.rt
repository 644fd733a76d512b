//! A copy of an image of the bay under another name: it is made, and the run ends with the status of the answer. How an
//! image is copied is in `cmd_mirror`.

ghost use Rattle.std.specs.Prelude.{◌≢◌, ℕ, ◌≤◌, List, Option};
ghost use Rattle.cmd_program.specs.Copying.{CopiesTo};
ghost use Rattle.cmd_program.specs.Endings.{HasFault, met};

use crate::status::Status;
use crate::telling::{DISK, tell};
use base_io::Sink;
use cmd_image::MakeRefusal;
use cmd_mirror::copy_image;
use disk_contract::Bay;
use std::alloc::Global;

/// Makes what is under the other name, which must be another one, a copy of the image, and writes the last line of the
/// status.
pub fn copy<K: Sink, Y: Bay>(
    alloc: Global,
    image: &str,
    other: &str,
    out: &mut K,
    bay: &mut Y,
) -> Status
    requires { image.now ≢ other.now }
    ensures copies { (left : Option (List ℕ)) (source : ℕ) → CopiesTo Y.tells image.now other.now result
        (met left left (K.taken out.old) (K.taken out.new) source source (K.faults out.old) (K.faults out.new) (Y.state bay.old) (Y.state bay.new)) }
    ensures faults { (source : ℕ) → HasFault result source source (K.faults out.old) (K.faults out.new) }
    ensures counts { K.faults out.old ≤ K.faults out.new }
{
    match copy_image(alloc, bay, image, other) {
        Ok(()) => Status::Done,
        Err(MakeRefusal::Fault) => tell(out, DISK, Status::DiskFault),
        Err(MakeRefusal::NoMemory) => Status::NoMemory,
    }
}
