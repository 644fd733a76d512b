//! The blocks with which a map in memory begins, in a row. What each of them has is described by `layout_journal`.

ghost use Rattle.std.specs.Prelude.{◌≡◌, ◌-◌, map, IfOk};
ghost use Rattle.std.specs.List.{range_with_len};
ghost use Rattle.layout_journal.specs.Formatted.{formatted};

use base_types::{Block, NoMemory};
use layout_geometry::Geom;
use layout_journal::formatted_block;
use std::alloc::Global;

/// The blocks of the formatted disk from `first` on, and before `end`.
///
/// # Errors
/// Out of memory.
pub(crate) fn formatted_blocks(
    alloc: Global,
    geom: &Geom,
    first: u32,
    end: u32,
) -> Result<Vec<Block>, NoMemory>
    ensures { IfOk result (λ blocks. blocks.items ≡ map (formatted geom.now) (range_with_len first (end - first))) }
{
    let mut blocks: Vec<Block> = Vec::with_capacity(alloc, end.saturating_sub(first) as usize)?;
    for b in first..end {
        blocks.push_reserved(formatted_block(geom, b));
    }
    Ok(blocks)
}
