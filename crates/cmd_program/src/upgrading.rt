//! The tree of an image of the bay, made again on a new disk of layout 2 under another name: that is made where the numbers
//! of its geometry fit together, and the run ends with the status of the answer. How a tree is made again is in
//! `cmd_upgrade`.

ghost use Rattle.std.specs.Prelude.{◌≡◌, ◌≢◌, ℕ, ◌≤◌, false, List, Option};
ghost use Rattle.base_types.specs.declared.layout.Layout.TheVariants.{Two};
ghost use Rattle.layout_geometry.specs.Geometry.{geometry_fits};
ghost use Rattle.cmd_program.specs.Endings.{HasFault, met};
ghost use Rattle.cmd_program.specs.Program.{UpgradesWhere, shape_of};
ghost use Rattle.cmd_program.specs.Upgrading.{UpgradesImageTo};

use crate::status::Status;
use crate::telling::{DAMAGED, DISK, ROOM, SHAPE, SPENT, tell};
use base_io::Sink;
use base_types::Layout;
use cmd_upgrade::UpgradeRefusal;
use disk_contract::Bay;
use layout_geometry::{BadShape, Geom};
use std::alloc::Global;

/// Makes the tree of the image again under the other name, which must be another one, on a disk with so many blocks, journal
/// blocks and nodes in layout 2, where they fit together, and writes the last line of the status.
pub fn upgrade<K: Sink, Y: Bay>(
    alloc: Global,
    image: &str,
    other: &str,
    shape: (u32, u32, u32),
    out: &mut K,
    bay: &mut Y,
) -> Status
    requires { image.now ≢ other.now }
    ensures upgrades { (left : Option (List ℕ)) (source : ℕ)
        → UpgradesWhere (geometry_fits (shape_of shape.0 shape.1 shape.2 Two)) Y.tells image.now other.now (shape_of shape.0 shape.1 shape.2 Two) result
        (met left left (K.taken out.old) (K.taken out.new) source source (K.faults out.old) (K.faults out.new) (Y.state bay.old) (Y.state bay.new)) }
    ensures untouched { geometry_fits (shape_of shape.0 shape.1 shape.2 Two) ≡ false → bay.new ≡ bay.old }
    ensures faults { (source : ℕ) → HasFault result source source (K.faults out.old) (K.faults out.new) }
    ensures counts { K.faults out.old ≤ K.faults out.new }
{
    let (blocks, journal, nodes) = shape;
    match Geom::new_in(blocks, journal, nodes, Layout::Two) {
        Err(BadShape) => tell(out, SHAPE, Status::BadShape),
        Ok(geom) => upgrade_fitting(alloc, image, other, &geom, out, bay),
    }
}

/// Makes the tree of the image again under the other name on a disk of this geometry, and writes the last line of the status.
fn upgrade_fitting<K: Sink, Y: Bay>(
    alloc: Global,
    image: &str,
    other: &str,
    geom: &Geom,
    out: &mut K,
    bay: &mut Y,
) -> Status
    requires apart { image.now ≢ other.now }
    requires layout { geom.now.layout ≡ Two }
    ensures upgrades { (left : Option (List ℕ)) (source : ℕ) → UpgradesImageTo Y.tells image.now other.now geom.now result
        (met left left (K.taken out.old) (K.taken out.new) source source (K.faults out.old) (K.faults out.new) (Y.state bay.old) (Y.state bay.new)) }
    ensures faults { (source : ℕ) → HasFault result source source (K.faults out.old) (K.faults out.new) }
    ensures counts { K.faults out.old ≤ K.faults out.new }
{
    match cmd_upgrade::upgrade(alloc, bay, image, other, geom) {
        Ok(()) => Status::Done,
        Err(UpgradeRefusal::Fault) => tell(out, DISK, Status::DiskFault),
        Err(UpgradeRefusal::Damaged { damage }) => tell(out, DAMAGED, Status::Damaged(damage)),
        Err(UpgradeRefusal::Spent) => tell(out, SPENT, Status::Spent),
        Err(UpgradeRefusal::NoRoom) => tell(out, ROOM, Status::NoRoom),
        Err(UpgradeRefusal::NoMemory) => Status::NoMemory,
    }
}
