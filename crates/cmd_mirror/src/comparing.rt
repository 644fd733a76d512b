//! The comparison of two disks on which nothing has happened yet, block by block. It writes nothing.

ghost use Rattle.std.specs.Prelude.{◌≡◌, ◌≢◌, ◌<◌, [], true, false, IsTrue};
ghost use Rattle.cmd_mirror.specs.Comparing.{Compares, ComparesBlock};

use base_types::Block;
use disk_contract::{Disk, DiskFault};

/// Whether two disks on which nothing has happened yet are alike: whether they have as many blocks, and the same ones. Where
/// the numbers differ no block is read. Where a block differs, the others are still read, so that a disk that can't be
/// read is found all the same.
///
/// # Errors
/// A read failed, which its disk has counted. Then it isn't said whether they are alike.
pub(crate) fn compare<D: Disk>(first: &mut D, second: &mut D) -> Result<bool, DiskFault>
    requires first { IsTrue D.tells → (D.state first.old).log ≡ [] }
    requires second { IsTrue D.tells → (D.state second.old).log ≡ [] }
    ensures { Compares D.tells result (D.state first.old) (D.state first.new) (D.state second.old) (D.state second.new) }
{
    if first.blocks() != second.blocks() {
        return Ok(false);
    }
    compare_blocks(first, second)
}

/// Whether two disks of as many blocks have the same ones.
///
/// # Errors
/// A read failed, which its disk has counted.
fn compare_blocks<D: Disk>(first: &mut D, second: &mut D) -> Result<bool, DiskFault>
    requires size { (D.state second.old).blocks ≡ (D.state first.old).blocks }
    requires first { IsTrue D.tells → (D.state first.old).log ≡ [] }
    requires second { IsTrue D.tells → (D.state second.old).log ≡ [] }
    ensures { Compares D.tells result (D.state first.old) (D.state first.new) (D.state second.old) (D.state second.new) }
{
    let mut alike = true;
    for b in 0..first.blocks() {
        let same = is_same_block(first, second, b)?;
        alike &= same;
    }
    Ok(alike)
}

/// Whether the two disks have the same block `b`, which there must be on both.
///
/// # Errors
/// A read failed, which its disk has counted. The second disk isn't read where that was one of the first.
fn is_same_block<D: Disk>(first: &mut D, second: &mut D, b: u32) -> Result<bool, DiskFault>
    requires there { b < (D.state first.old).blocks }
    requires size { (D.state second.old).blocks ≡ (D.state first.old).blocks }
    requires first { IsTrue D.tells → (D.state first.old).log ≡ [] }
    requires second { IsTrue D.tells → (D.state second.old).log ≡ [] }
    ensures { ComparesBlock D.tells b result (D.state first.old) (D.state first.new) (D.state second.old) (D.state second.new) }
{
    let mut one: Block = [0; 1024];
    first.read(b, &mut one)?;
    let mut two: Block = [0; 1024];
    second.read(b, &mut two)?;
    Ok(are_same(&one, &two))
}

/// Whether two blocks have the same bytes.
fn are_same(one: &Block, two: &Block) -> bool
    ensures same { result ≡ true → two.now ≡ one.now }
    ensures differs { result ≡ false → two.now ≢ one.now }
{
    one == two
}
