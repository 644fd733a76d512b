//! The image of a formatted disk under a name of the bay: it is made where the numbers of its geometry fit together, and
//! the run ends with the status of the answer. How an image is made is in `cmd_image`.

ghost use Rattle.std.specs.Prelude.{◌≡◌, ℕ, ◌≤◌, false, List, Option};
ghost use Rattle.layout_geometry.specs.Geometry.{geometry_fits};
ghost use Rattle.cmd_program.specs.Endings.{HasFault, met};
ghost use Rattle.cmd_program.specs.Making.{MakesTo};
ghost use Rattle.cmd_program.specs.Program.{MakesWhere, shape_of};

use crate::status::Status;
use crate::telling::{DISK, SHAPE, tell};
use base_io::Sink;
use base_types::Layout;
use cmd_image::{MakeRefusal, make_image};
use disk_contract::Bay;
use layout_geometry::{BadShape, Geom};
use std::alloc::Global;

/// Makes the image of a disk with so many blocks, journal blocks and nodes in this layout under the name, where they fit
/// together, and writes the last line of the status.
pub fn make<K: Sink, Y: Bay>(
    alloc: Global,
    image: &str,
    shape: (u32, u32, u32),
    layout: Layout,
    out: &mut K,
    bay: &mut Y,
) -> Status
    ensures makes { (left : Option (List ℕ)) (source : ℕ)
        → MakesWhere (geometry_fits (shape_of shape.0 shape.1 shape.2 layout)) Y.tells image.now (shape_of shape.0 shape.1 shape.2 layout) result
        (met left left (K.taken out.old) (K.taken out.new) source source (K.faults out.old) (K.faults out.new) (Y.state bay.old) (Y.state bay.new)) }
    ensures untouched { geometry_fits (shape_of shape.0 shape.1 shape.2 layout) ≡ false → bay.new ≡ bay.old }
    ensures faults { (source : ℕ) → HasFault result source source (K.faults out.old) (K.faults out.new) }
    ensures counts { K.faults out.old ≤ K.faults out.new }
{
    let (blocks, journal, nodes) = shape;
    match Geom::new_in(blocks, journal, nodes, layout) {
        Err(BadShape) => tell(out, SHAPE, Status::BadShape),
        Ok(geom) => make_fitting(alloc, image, &geom, out, bay),
    }
}

/// Makes the image of a disk of this geometry under the name, and writes the last line of the status.
fn make_fitting<K: Sink, Y: Bay>(
    alloc: Global,
    image: &str,
    geom: &Geom,
    out: &mut K,
    bay: &mut Y,
) -> Status
    ensures makes { (left : Option (List ℕ)) (source : ℕ) → MakesTo Y.tells image.now geom.now result
        (met left left (K.taken out.old) (K.taken out.new) source source (K.faults out.old) (K.faults out.new) (Y.state bay.old) (Y.state bay.new)) }
    ensures faults { (source : ℕ) → HasFault result source source (K.faults out.old) (K.faults out.new) }
    ensures counts { K.faults out.old ≤ K.faults out.new }
{
    match make_image(alloc, bay, image, geom) {
        Ok(()) => Status::Done,
        Err(MakeRefusal::Fault) => tell(out, DISK, Status::DiskFault),
        Err(MakeRefusal::NoMemory) => Status::NoMemory,
    }
}
