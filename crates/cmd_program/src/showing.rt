//! The tree of an image of the bay: it is shown, and the run ends with the status of the answer. How an image is shown
//! is in `cmd_image`.

ghost use Rattle.std.specs.Prelude.{ℕ, ◌≤◌, List, Option};
ghost use Rattle.cmd_program.specs.Endings.{HasFault, met};
ghost use Rattle.cmd_program.specs.Showing.{ShowsTo};

use crate::status::Status;
use crate::telling::{DAMAGED, DISK, SPENT, tell};
use base_io::Sink;
use cmd_image::{ShowRefusal, show_tree};
use disk_contract::Bay;
use std::alloc::Global;

/// Writes the listing of the tree for which the image under the name stands, and the last line of the status.
pub fn show<K: Sink, Y: Bay>(alloc: Global, image: &str, out: &mut K, bay: &mut Y) -> Status
    ensures shows { (left : Option (List ℕ)) (source : ℕ) → ShowsTo Y.tells image.now result
        (met left left (K.taken out.old) (K.taken out.new) source source (K.faults out.old) (K.faults out.new) (Y.state bay.old) (Y.state bay.new)) }
    ensures faults { (source : ℕ) → HasFault result source source (K.faults out.old) (K.faults out.new) }
    ensures counts { K.faults out.old ≤ K.faults out.new }
{
    match show_tree(alloc, bay, image, out) {
        Ok(()) => Status::Done,
        Err(ShowRefusal::Fault) => tell(out, DISK, Status::DiskFault),
        Err(ShowRefusal::Damaged { damage }) => tell(out, DAMAGED, Status::Damaged(damage)),
        Err(ShowRefusal::Spent) => tell(out, SPENT, Status::Spent),
        Err(ShowRefusal::SinkFault) => Status::SinkFault,
        Err(ShowRefusal::NoMemory) => Status::NoMemory,
    }
}
