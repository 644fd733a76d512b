//! Makes an image of the formatted disk under a name: a disk of zeros is made there and formatted, and it goes back
//! whatever the formatting answers.

ghost use Rattle.std.specs.Prelude.{◌≡◌, IsTrue, [], Ok, Err, Result, IfOk, IfErr, OnOk};
ghost use Rattle.disk_contract.specs.declared.bay.BayFault.{BayFault as Failure};
ghost use Rattle.disk_contract.specs.Bay.{Closes, Makes, SameElsewhere};
ghost use Rattle.cmd_image.specs.Shows.{HasImage};
ghost use Rattle.cmd_image.specs.declared.make_refusal.MakeRefusal.TheVariants.{Fault};
ghost use Rattle.cmd_image.specs.Makes.{HasMakeCause, HasMakeReason, IsFormattedImage, MakeLeavesBay, make_answer_of, make_refusal_of_bay};

use crate::formatted_laws::a_formatted_image_can_be_mounted;
use crate::make_refusal::{MakeRefusal, make_refusal_of_bay, of_mkfs};
use crash_argument::a_read_gives_what_was_written_last;
use crash_stands::the_formatted_disk_stands_for_the_root;
use disk_contract::Bay;
use engine_store::{MkfsRefusal, mkfs};
use layout_geometry::Geom;
use layout_journal::the_formatted_disk_is_empty;
use std::alloc::Global;

/// Makes the image of a formatted disk of this geometry under the name, in place of what stood there: the bay makes a
/// disk of as many blocks of zeros as the geometry says, the disk is formatted, and it goes back to the bay with no
/// mark. It goes back where the formatting fails too; a fault of its return then changes no refusal that came before.
///
/// # Errors
/// `Fault` comes of a call of the bay or of the disk that failed, which was counted, and `NoMemory` of want of memory.
/// Where the bay tells, `Fault` comes only where the bay's calls may fail, or a call of the disk failed as the disk's
/// manner lets it.
/// Where the bay made no disk, the image under the name is as it was. Where a disk was made, the zeros or what the disk
/// left of them are under the name.
pub fn make_image<B: Bay>(
    alloc: Global,
    bay: &mut B,
    name: &str,
    geom: &Geom,
) -> Result<(), MakeRefusal>
    ensures made { IsTrue B.tells → OnOk result (HasImage ((B.state bay.new).kept name.now) (IsFormattedImage geom.now)) }
    ensures back { MakeLeavesBay B.tells name.now geom.now result (B.state bay.old) (B.state bay.new) }
    ensures others { IsTrue B.tells → SameElsewhere name.now (B.state bay.old) (B.state bay.new) }
    ensures cause { HasMakeCause result (B.state bay.old) (B.state bay.new) }
    ensures reason { IsTrue B.tells → result ≡ Err Fault → HasMakeReason B.tells name.now geom.now result (B.state bay.old) (B.state bay.new) }
{
    geom.lawful();
    the_formatted_disk_is_empty();
    the_formatted_disk_stands_for_the_root();
    a_formatted_image_can_be_mounted();
    a_read_gives_what_was_written_last();
    let mut disk = make_disk(bay, name, geom)?;
    let written = mkfs(alloc, &mut disk, geom);
    close_made(alloc, bay, name, disk, written)
}

/// Makes a disk of zeros under the name, of as many blocks as the geometry says.
///
/// # Errors
/// `Fault`, which the bay has counted, or `NoMemory`.
fn make_disk<B: Bay>(bay: &mut B, name: &str, geom: &Geom) -> Result<B::D, MakeRefusal>
    ensures makes { IfOk result (λ disk. Makes B.tells B.D.state name.now geom.now.n (Ok disk) (B.state bay.old) (B.state bay.new)) }
    ensures refused { IfErr result (λ why. (fault : Failure) × (why ≡ make_refusal_of_bay fault)
        × Makes B.tells B.D.state name.now geom.now.n (Err fault) (B.state bay.old) (B.state bay.new)) }
{
    match bay.make(name, geom.n()) {
        Ok(disk) => Ok(disk),
        Err(fault) => Err(make_refusal_of_bay(fault)),
    }
}

/// Hands a disk back under the name, with no mark, and gives the answer where its formatting was answered so.
///
/// # Errors
/// The refusal for that of the formatting; else `Fault`, which the bay has counted, or `NoMemory`.
fn close_made<B: Bay>(
    alloc: Global,
    bay: &mut B,
    name: &str,
    disk: B::D,
    written: Result<(), MkfsRefusal>,
) -> Result<(), MakeRefusal>
    ensures { (back : Result (Unit {0}) Failure) × Closes B.tells name.now (B.D.state disk) [] back (B.state bay.old) (B.state bay.new)
        × (result ≡ make_answer_of written back) }
{
    let back = bay.close(name, disk, Vec::new(alloc));
    if let Err(why) = written {
        return Err(of_mkfs(why));
    }
    if let Err(fault) = back {
        return Err(make_refusal_of_bay(fault));
    }
    Ok(())
}
