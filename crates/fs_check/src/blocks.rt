//! The check that blocks are sound: each node has its blocks to itself, the bitmap is exact, what carries nothing is
//! zeros, and each snapshot is one of a tree. Names, slots and links of the live tree aren't looked at.

ghost use Rattle.std.specs.Prelude.{◌≡◌, ◌⊎◌, ◌+◌, ◌≤◌, ◌<◌, ℕ, [], false, true, IsTrue, IfErr, IfOk, OnOk, is_err, length};
ghost use Rattle.base_types.specs.Seal.{Blocks, blocks_of};
ghost use Rattle.layout_bitmap.specs.Bits.{is_bad_bit};
ghost use Rattle.engine_blocks.specs.Running.{HasNoBare};
ghost use Rattle.fs_check.specs.Broken.{IsBroken};
ghost use Rattle.fs_check.specs.Calls.{IfDamaged, fails_reading};
ghost use Rattle.fs_check.specs.Whole.{IsDamaged, OnDamage, fails_reading as ends_by_read};
ghost use Rattle.fs_files.specs.Effects.{LooksOnly};
ghost use Rattle.fs_files.specs.Shared.{is_kept};
ghost use Rattle.fs_check.specs.Meeting.{AreBits, IsCheckedTo, IsUnmet, MayCheck};
ghost use Rattle.fs_check.specs.Snapshots.{AreCheckedBelow, numbers_in};
ghost use Rattle.layout_geometry.specs.Geometry.{bitmap_blocks, data_start};
ghost use Rattle.layout_bytes.specs.Bitmap.{bit_in};
ghost use Rattle.crash_stands.specs.Stands.{AreSound};
ghost use Rattle.fs_check.specs.declared.block_damage.BlockDamage.TheVariants.{Lost};

use crate::block_damage::BlocksRefusal;
use crate::checking::CheckRefusal;
use crate::kept_meeting::Maps;
use crate::meeting::first_unmet;
use crate::snapshots::find_snapshots;
use crate::table::check_table;
use crate::{BlockDamage, Snapshots};
use base_types::limits::BLOCK_LENGTH;
use base_types::{Block, NoMemory, ReadFault};
use engine_blocks::Blocks;
use fs_files::Shared;
use fs_snapshots::what_is_known_of_snapshots_is_so;
use layout_bitmap::check;
use layout_geometry::Geom;
use std::alloc::Global;

/// Checks that the blocks are sound and each snapshot is one of a tree, and answers what was found of the snapshots.
/// The map is looked at and stays as it is.
///
/// # Errors
/// Something is broken, and where; a read of the disk failed, which the disk has counted; or out of
/// memory.
pub(crate) fn check_blocks<S: Blocks>(
    alloc: Global,
    blocks: &mut S,
) -> Result<Snapshots, CheckRefusal>
    requires going { (S.state blocks.old).books.stopped ≡ false }
    requires none_bare { HasNoBare (S.state blocks.old).books.running }
    ensures sound { IsTrue S.tells → OnOk result (AreSound (S.state blocks.old).books.geom (S.state blocks.old).map) }
    ensures known { IsTrue S.tells → IfOk result (λ found. AreCheckedBelow (S.state blocks.old).books.geom (S.state blocks.old).map
        ((S.state blocks.old).books.geom.i + 1) (numbers_in found.numbers.entries) found.shared) }
    ensures room { IfOk result (λ found. (found.shared ≡ []) ⊎ (length found.shared ≡ (S.state blocks.old).books.geom.n)) }
    ensures damage { IsTrue S.tells → IfErr result (λ why. OnDamage why (IsDamaged (S.state blocks.old).books.geom (S.state blocks.old).map)) }
    ensures looks { LooksOnly S.tells (ends_by_read result) (S.state blocks.old) (S.state blocks.new) }
{
    what_is_known_of_snapshots_is_so();
    let geom = blocks.geom();
    geom.lawful();
    let marked = empty_bitmap(alloc, &geom)?;
    let mut met = empty_bitmap(alloc, &geom)?;
    let mut maps = Maps {
        marked,
        firm: Vec::new(alloc),
    };
    read_bitmap(blocks, &geom, maps.marked.as_mut_slice())?;
    let found = check_with(blocks, &geom, maps.marked.as_slice(), met.as_mut_slice())?;
    let snapshots = find_snapshots(alloc, blocks, &geom, &mut maps, found)?;
    check_rest(
        maps.marked.as_slice(),
        met.as_slice(),
        &snapshots.shared,
        &geom,
    )?;
    Ok(snapshots)
}

/// The blocks of a bitmap in which no bit is set.
///
/// # Errors
/// Out of memory.
pub(crate) fn empty_bitmap(alloc: Global, geom: &Geom) -> Result<Vec<Block>, NoMemory>
    ensures size { IfOk result (λ bitmap. length bitmap.items ≡ bitmap_blocks geom.now) }
    ensures clear { IfOk result (λ bitmap. (b : ℕ) → bit_in (blocks_of bitmap.items) b ≡ false) }
{
    geom.lawful();
    let count = geom.bitmap_blocks() as usize;
    let bitmap = vec![in alloc; [0u8; BLOCK_LENGTH]; count]?;
    Ok(bitmap)
}

/// Reads the whole bitmap.
///
/// # Errors
/// A read of the disk failed, which the disk has counted.
fn read_bitmap<S: Blocks>(blocks: &mut S, geom: &Geom, into: &mut [Block]) -> Result<(), ReadFault>
    requires going { (S.state blocks.old).books.stopped ≡ false }
    requires geom { (S.state blocks.old).books.geom ≡ geom.now }
    requires room { length into.old ≡ bitmap_blocks geom.now }
    ensures size { length into.new ≡ length into.old }
    ensures bits { IsTrue S.tells → OnOk result (AreBits geom.now (S.state blocks.old).map into.new) }
    ensures looks { LooksOnly S.tells (is_err result) (S.state blocks.old) (S.state blocks.new) }
{
    geom.lawful();
    let start = geom.bitmap_start();
    for k in 0..into.len() {
        let mut block = [0u8; BLOCK_LENGTH];
        blocks.get(start + k as u32, &mut block)?;
        into[k] = block;
    }
    Ok(())
}

/// Checks the bits that no data block has, and all nodes, where no block was met before. The answer is clear only where
/// no node is a snapshot.
///
/// # Errors
/// As of the whole check; but memory isn't asked for.
fn check_with<S: Blocks>(
    blocks: &mut S,
    geom: &Geom,
    bits: &[Block],
    met: &mut [Block],
) -> Result<bool, BlocksRefusal>
    requires may { MayCheck geom.now (S.state blocks.old) bits.now met.old }
    requires unmet { (b : ℕ) → bit_in (blocks_of met.old) b ≡ false }
    ensures size { length met.new ≡ length met.old }
    ensures good { OnOk result ((b : ℕ) → is_bad_bit geom.now (blocks_of bits.now) b ≡ false) }
    ensures checked { IsTrue S.tells → AreBits geom.now (S.state blocks.old).map bits.now
        → IfOk result (λ found. IsCheckedTo geom.now (S.state blocks.old).map bits.now met.new found (geom.now.i + 1)) }
    ensures damage { IsTrue S.tells → AreBits geom.now (S.state blocks.old).map bits.now → IfDamaged result (IsBroken geom.now (S.state blocks.old).map) }
    ensures looks { LooksOnly S.tells (fails_reading result) (S.state blocks.old) (S.state blocks.new) }
{
    geom.lawful();
    check_bits(bits, geom)?;
    let mut found = false;
    check_table(blocks, geom, bits, met, &mut found)?;
    Ok(found)
}

/// Checks that no data block is left over: each whose bit is set was met, or a snapshot keeps it.
///
/// # Errors
/// One is left over.
fn check_rest(
    bits: &[Block],
    met: &[Block],
    shared: &Shared,
    geom: &Geom,
) -> Result<(), BlockDamage>
    requires bits { length bits.now ≡ bitmap_blocks geom.now }
    requires room { length met.now ≡ bitmap_blocks geom.now }
    ensures none { OnOk result ((b : ℕ) → data_start geom.now ≤ b → b < geom.now.n → bit_in (blocks_of bits.now) b ≡ true
        → is_kept shared.now b ≡ false → bit_in (blocks_of met.now) b ≡ true) }
    ensures lost { IfErr result (λ why. (b : ℕ) × (why ≡ Lost b) × IsUnmet geom.now (blocks_of bits.now) (blocks_of met.now) b
        × (is_kept shared.now b ≡ false)) }
{
    match first_unmet(bits, met, shared, geom) {
        Some(block) => Err(BlockDamage::Lost { block }),
        None => Ok(()),
    }
}

/// Checks the bits that no data block has.
///
/// # Errors
/// One is wrong.
fn check_bits(bits: &[Block], geom: &Geom) -> Result<(), BlockDamage>
    requires { length bits.now ≡ bitmap_blocks geom.now }
    ensures good { OnOk result ((b : ℕ) → is_bad_bit geom.now (blocks_of bits.now) b ≡ false) }
    ensures damage { (m : Blocks) → AreBits geom.now m bits.now → IfErr result (IsBroken geom.now m) }
{
    geom.lawful();
    match check(bits, geom) {
        Ok(()) => Ok(()),
        Err(bad) => Err(BlockDamage::WrongBit { block: bad.block }),
    }
}
