//! Two writes in order, by a wait between them: the plain way to have one block durable before
//! another, and an example of a promise over every moment of a log.

ghost use Rattle.std.specs.Prelude.{◌≡◌, ◌≢◌, ◌<◌, [], length, IsTrue, OnOk, is_err};
ghost use Rattle.disk_contract.specs.Cell.{IsReadyFor, cell_of, accepted};
ghost use Rattle.disk_contract.specs.Crash.{Window};
ghost use Rattle.disk_contract.specs.Disk.{SpendsUpTo};

use crate::{Disk, DiskFault};
use base_types::Block;

/// Writes block `a`, waits until it is durable, and writes block `b`. Whatever comes of the calls, no
/// crash since leaves the second block's new content without the first's. On `Ok` the first block is
/// settled and the second write is accepted.
///
/// # Errors
/// A call failed, which the disk has counted; those behind it weren't made.
pub fn write_in_order<D: Disk>(
    disk: &mut D,
    a: u32,
    b: u32,
    first: &Block,
    second: &Block,
) -> Result<(), DiskFault>
    requires apart { a ≢ b }
    requires a_in { a < (D.state disk.old).blocks }
    requires b_in { b < (D.state disk.old).blocks }
    requires ready { IsTrue D.tells → IsReadyFor (D.state disk.old).base (D.state disk.old).log a b second.now }
    ensures first { IsTrue D.tells → OnOk result (cell_of (D.state disk.old).base (D.state disk.new).log a ≡ record { settled = first.now; pending = [] }) }
    ensures second { IsTrue D.tells → OnOk result (accepted (D.state disk.old).base (D.state disk.new).log b ≡ second.now) }
    ensures spends { SpendsUpTo (is_err result) 1 (D.state disk.old) (D.state disk.new) }
    ensures window { IsTrue D.tells → Window (D.state disk.old).blocks (D.state disk.old).base (D.state disk.new).log (length (D.state disk.old).log)
        (λ img. img b ≡ second.now → img a ≡ first.now) }
{
    let ticket = disk.write(a, first)?;
    disk.wait(ticket)?;
    disk.write(b, second)?;
    Ok(())
}
