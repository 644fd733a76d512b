//! The block with a snapshot's name: which name it is.

ghost use Rattle.std.specs.Prelude.{◌≡◌, ℕ, false, IsTrue, IfNone, IfOk, IfSome, List, is_err, length};
ghost use Rattle.std.specs.List.{All};
ghost use Rattle.std.specs.Prelude.{get_or, ◌<◌};
ghost use Rattle.base_types.specs.Name.{is_name};
ghost use Rattle.layout_bytes.specs.SnapshotName.{name_block};
ghost use Rattle.engine_blocks.specs.Puts.{IsData};
ghost use Rattle.fs_files.specs.Effects.{LooksOnly};

use base_types::limits::BLOCK_LENGTH;
use base_types::{Block, Name, ReadFault};
use engine_blocks::Blocks;
use fs_files::{NodeBlocks, read_block_at};
use layout_bytes::{are_zeros, fields_tell_their_bytes};

/// The name in the first of these blocks, of which there is one; `None` where it has none.
///
/// # Errors
/// A read of the disk failed, which the disk has counted.
pub(crate) fn read_name<S: Blocks>(
    blocks: &mut S,
    places: &NodeBlocks,
) -> Result<Option<Name>, ReadFault>
    requires going { (S.state blocks.old).books.stopped ≡ false }
    requires data { All (IsData (S.state blocks.old).books.geom) places.now }
    requires some { 0 < length places.now }
    ensures named { IsTrue S.tells → length ((S.state blocks.old).map (get_or places.now 0 0)) ≡ 1024
        → IfOk result (λ found. IfSome found (λ name. (S.state blocks.old).map (get_or places.now 0 0) ≡ name_block name)) }
    ensures lawful { IfOk result (λ found. IfSome found (λ name. IsTrue (is_name name))) }
    ensures unnamed { IsTrue S.tells → length ((S.state blocks.old).map (get_or places.now 0 0)) ≡ 1024
        → IfOk result (λ found. IfNone found ((name : List ℕ) → IsTrue (is_name name)
        → (S.state blocks.old).map (get_or places.now 0 0) ≡ name_block name → ⊥)) }
    ensures looks { LooksOnly S.tells (is_err result) (S.state blocks.old) (S.state blocks.new) }
{
    let mut block = [0u8; BLOCK_LENGTH];
    read_block_at(blocks, places, 0, &mut block)?;
    Ok(name_in(&block))
}

/// The name whose block this is; `None` where it is that of none.
fn name_in(block: &Block) -> Option<Name>
    ensures named { IfSome result (λ name. block.now ≡ name_block name) }
    ensures lawful { IfSome result (λ name. IsTrue (is_name name)) }
    ensures unnamed { IfNone result ((name : List ℕ) → IsTrue (is_name name) → block.now ≡ name_block name → ⊥) }
{
    fields_tell_their_bytes();
    let count = block[0] as usize;
    let name = Name::new(&block[1..1 + count])?;
    if !are_zeros(&block[1 + count..]) {
        return None;
    }
    Some(name)
}
