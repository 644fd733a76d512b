//! The choice of blocks to take. Nothing is taken here, and nothing is waited for.

ghost use Rattle.std.specs.Prelude.{OnOk, IfErr};
ghost use Rattle.engine_books.specs.Kept.{AreKept};
ghost use Rattle.engine_store.specs.Choosing.{AreLeast, LeastRefused};
ghost use Rattle.engine_store.specs.Store.{bookkeeping_of};

use crate::parts::StoreParts;
use base_types::{NoMemory, Places};
use engine_blocks::{LowestRefusal, the_lowest_may_be_taken};
use std::alloc::Global;

/// Puts the `n` least numbers that may be taken into `into`.
///
/// # Errors
/// There are fewer; or out of memory.
pub(crate) fn least(
    alloc: Global,
    parts: &StoreParts,
    n: u32,
    into: &mut Places,
) -> Result<(), LowestRefusal>
    requires { AreKept parts.now.books }
    ensures found { OnOk result (AreLeast n (bookkeeping_of parts.now) into.new) }
    ensures refused { IfErr result (LeastRefused n (bookkeeping_of parts.now)) }
{
    the_lowest_may_be_taken();
    let reusable = parts.books.reusable();
    if reusable < n {
        return Err(LowestRefusal::Short { need: n, reusable });
    }
    match parts.books.lowest(alloc, n, into) {
        Ok(()) => Ok(()),
        Err(NoMemory) => Err(LowestRefusal::NoMemory),
    }
}
