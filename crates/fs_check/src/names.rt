//! Whether a directory has a name twice.

ghost use Rattle.std.specs.Prelude.{IfOk, IfSome, IfNone};
ghost use Rattle.crash_stands.specs.Inodes.{AreDistinct};
ghost use Rattle.fs_check.specs.Slots.{Repeats};

use base_types::NoMemory;
use layout_bytes::Slot;
use std::alloc::Global;
use std::collections::BTreeSet;

/// The place of a slot that has the name of one before it, or `None` where no two have one name.
///
/// # Errors
/// Out of memory.
pub(crate) fn first_repeat(alloc: Global, slots: &[Slot]) -> Result<Option<u64>, NoMemory>
    ensures distinct { IfOk result (λ found. IfNone found (AreDistinct slots.now)) }
    ensures repeats { IfOk result (λ found. IfSome found (Repeats slots.now)) }
{
    let mut names = BTreeSet::new(alloc);
    for place in 0..slots.len() {
        if !names.insert(slots[place].name.copy())? {
            return Ok(Some(place as u64));
        }
    }
    Ok(None)
}
