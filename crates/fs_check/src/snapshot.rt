//! The check of one snapshot: its size, its name, the nodes that it keeps with their blocks, and the tree of these.

ghost use Rattle.std.specs.Prelude.{◌≡◌, ◌+◌, ◌*◌, ◌<◌, ◌≤◌, ℕ, false, IsTrue, IfErr, IfOk, OnErr, OnOk, None, Some, length};
ghost use Rattle.std.specs.FinMap.{get, insert};
ghost use Rattle.std.specs.List.{All};
ghost use Rattle.layout_bytes.specs.declared.node.NodeKind.TheVariants.{Snapshot as IsSnapshotKind};
ghost use Rattle.crash_stands.specs.Bounds.{bounds_of};
ghost use Rattle.crash_stands.specs.Files.{used_node};
ghost use Rattle.crash_stands.specs.Kept.{kept_files};
ghost use Rattle.engine_blocks.specs.Puts.{IsData};
ghost use Rattle.fs_files.specs.Asks.{MayRead};
ghost use Rattle.fs_files.specs.Effects.{LooksOnly};
ghost use Rattle.fs_files.specs.Given.{node_of_file};
ghost use Rattle.fs_files.specs.Shared.{keepers};
ghost use Rattle.base_types.specs.Seal.{blocks_of};
ghost use Rattle.fs_snapshots.specs.Kept.{HasItsParts, IsGoneThrough, MayReadKept};
ghost use Rattle.fs_check.specs.BrokenSnapshots.{IsSnapshot, places_of};
ghost use Rattle.fs_check.specs.KeptGoing.{IsKeptTo};
ghost use Rattle.fs_check.specs.KeptMeeting.{CountsMet, MayCheckKept};
ghost use Rattle.fs_check.specs.Rules.{AreTreeFiles};
ghost use Rattle.fs_check.specs.SnapshotCalls.{HoldsCounts, IsKnownBelow, IsMisnamed, IsNamed, IsOpened};
ghost use Rattle.fs_check.specs.Snapshots.{numbers_in};
ghost use Rattle.fs_check.specs.Whole.{IsDamaged, OnDamage, fails_reading};
ghost use Rattle.fs_check.specs.declared.checking.CheckRefusal.TheVariants.{Damaged};
ghost use Rattle.fs_check.specs.declared.checking.Damage.TheVariants.{Snapshot as InOne};
ghost use Rattle.fs_check.specs.declared.snapshot_damage.SnapshotDamage.TheVariants.{WrongSize};

use crate::SnapshotDamage;
use crate::blocks::empty_bitmap;
use crate::checking::{CheckRefusal, Damage};
use crate::damage::TreeRefusal;
use crate::kept_meeting::{Maps, Tally};
use crate::kept_table::{SnapshotIn, check_kept_table};
use crate::named::read_name;
use crate::snapshots::Found;
use crate::tree::find_tree;
use base_types::limits::BLOCK_LENGTH;
use base_types::{Name, NoMemory};
use crash_stands::files_have_one_map;
use engine_blocks::Blocks;
use fs_files::{NodeBlocks, OpenFile};
use fs_inodes::the_rules_make_a_tree;
use fs_snapshots::{KeptNodes, SnapshotRefusal, what_is_known_of_snapshots_is_so};
use layout_geometry::Geom;
use std::alloc::Global;
use std::collections::BTreeMap;

/// Checks a snapshot, which is this node in use: those with lower numbers were checked before.
///
/// # Errors
/// Something is broken in it; a read of the disk failed, which the disk has counted; or out of memory.
pub(crate) fn check_snapshot<S: Blocks>(
    alloc: Global,
    blocks: &mut S,
    geom: &Geom,
    maps: &Maps,
    number: u32,
    file: OpenFile,
    found: &mut Found,
) -> Result<(), CheckRefusal>
    requires may { MayCheckKept geom.now (S.state blocks.old) maps.now.marked.items maps.now.firm.items }
    requires above_root { 2 ≤ number }
    requires in_table { number ≤ geom.now.i }
    requires data { All (IsData geom.now) file.blocks }
    requires kind { file.facts.kind ≡ IsSnapshotKind }
    requires counts { HoldsCounts geom.now found.old number }
    requires node { IsTrue S.tells → used_node geom.now (S.state blocks.old).map number ≡ Some (node_of_file geom.now.layout file) }
    requires known { IsTrue S.tells → IsKnownBelow geom.now (S.state blocks.old).map maps.now number found.old }
    ensures counts { OnOk result (HoldsCounts geom.now found.new (number + 1)) }
    ensures known { IsTrue S.tells → OnOk result (IsKnownBelow geom.now (S.state blocks.old).map maps.now (number + 1) found.new) }
    ensures damage { IsTrue S.tells → IfErr result (λ why. OnDamage why (IsDamaged geom.now (S.state blocks.old).map)) }
    ensures looks { LooksOnly S.tells (fails_reading result) (S.state blocks.old) (S.state blocks.new) }
{
    what_is_known_of_snapshots_is_so();
    the_rules_make_a_tree();
    files_have_one_map();
    geom.lawful();
    let kept = open_snapshot(alloc, blocks, geom, number, &file)?;
    let snapshot = SnapshotIn {
        number,
        places: file.blocks,
    };
    add_name(blocks, &snapshot, &mut found.numbers)?;
    check_kept(
        alloc,
        blocks,
        geom,
        maps,
        &snapshot,
        &kept,
        &mut found.tally,
    )?;
    Ok(())
}

/// The nodes that a snapshot keeps, which is this node in use: its links and its size are right.
///
/// # Errors
/// It is of a wrong size; a read of the disk failed, which the disk has counted; or out of memory.
fn open_snapshot<S: Blocks>(
    alloc: Global,
    blocks: &mut S,
    geom: &Geom,
    number: u32,
    file: &OpenFile,
) -> Result<KeptNodes, CheckRefusal>
    requires going { (S.state blocks.old).books.stopped ≡ false }
    requires geom { (S.state blocks.old).books.geom ≡ geom.now }
    requires data { All (IsData geom.now) file.now.blocks }
    requires whole { IsTrue S.tells → All (λ b. length ((S.state blocks.old).map b) ≡ 1024) file.now.blocks }
    requires node { IsTrue S.tells → used_node geom.now (S.state blocks.old).map number ≡ Some (node_of_file geom.now.layout file.now) }
    requires kind { file.now.facts.kind ≡ IsSnapshotKind }
    ensures places { IfOk result (λ kept. kept.places ≡ file.now.blocks) }
    ensures most { length file.now.blocks ≤ 62914560 }
    ensures links { OnOk result (file.now.facts.links ≡ 1) }
    ensures size { OnOk result (file.now.facts.size ≡ 1024 * length file.now.blocks) }
    ensures gone { IfOk result (λ kept. IsGoneThrough S.tells (S.state blocks.old) kept) }
    ensures parts { IsTrue S.tells → OnOk result (HasItsParts geom.now (S.state blocks.old).map file.now.blocks) }
    ensures damage { IsTrue S.tells → IfErr result (λ why. OnDamage why (IsDamaged geom.now (S.state blocks.old).map)) }
    ensures looks { LooksOnly S.tells (fails_reading result) (S.state blocks.old) (S.state blocks.new) }
{
    let count = file.blocks.count();
    if file.facts.links != 1 {
        return Err(wrong_size(number));
    }
    if file.facts.size != BLOCK_LENGTH as u64 * u64::from(count) {
        return Err(wrong_size(number));
    }
    let kept = read_kept(alloc, blocks, number, file.blocks.part(0, count))?;
    Ok(kept)
}

/// Checks what a snapshot keeps: its nodes with their blocks, and the tree of these.
///
/// # Errors
/// Something is broken; a read of the disk failed, which the disk has counted; or out of memory.
fn check_kept<S: Blocks>(
    alloc: Global,
    blocks: &mut S,
    geom: &Geom,
    maps: &Maps,
    snapshot: &SnapshotIn,
    kept: &KeptNodes,
    tally: &mut Tally,
) -> Result<(), CheckRefusal>
    requires may { MayCheckKept geom.now (S.state blocks.old) maps.now.marked.items maps.now.firm.items }
    requires room { length tally.old.counts ≡ geom.now.n }
    requires few { (b : ℕ) → keepers tally.old.counts b < 65535 }
    requires data { All (IsData geom.now) snapshot.now.places }
    requires most { length snapshot.now.places ≤ 62914560 }
    requires gone { IsGoneThrough S.tells (S.state blocks.old) kept.now }
    requires places { kept.now.places ≡ snapshot.now.places }
    requires whole { IsTrue S.tells → All (λ b. length ((S.state blocks.old).map b) ≡ 1024) snapshot.now.places }
    requires opened { IsTrue S.tells → IsOpened geom.now (S.state blocks.old).map maps.now snapshot.now }
    ensures room { OnOk result (length tally.new.counts ≡ geom.now.n) }
    ensures counts { OnOk result (CountsMet (blocks_of tally.new.met.items) tally.old.counts tally.new.counts) }
    ensures sound { IsTrue S.tells → OnOk result (IsKeptTo geom.now (S.state blocks.old).map maps.now tally.new snapshot.now (geom.now.i + 1)) }
    ensures rules { IsTrue S.tells → OnOk result (AreTreeFiles (bounds_of geom.now)
        (kept_files geom.now (S.state blocks.old).map snapshot.now.places)) }
    ensures damage { IsTrue S.tells → IfErr result (λ why. OnDamage why (IsDamaged geom.now (S.state blocks.old).map)) }
    ensures looks { LooksOnly S.tells (fails_reading result) (S.state blocks.old) (S.state blocks.new) }
{
    tally.met = empty_bitmap(alloc, geom)?;
    tally.dirs = 0;
    check_kept_table(blocks, geom, maps, snapshot, tally)?;
    check_kept_tree(alloc, blocks, snapshot.number, kept)?;
    Ok(())
}

/// What is said of a snapshot of a wrong size.
fn wrong_size(snapshot: u32) -> CheckRefusal
    ensures { result ≡ Damaged (InOne (WrongSize snapshot)) }
{
    CheckRefusal::Damaged(Damage::Snapshot(SnapshotDamage::WrongSize { snapshot }))
}

/// The nodes that the snapshot with these blocks keeps.
///
/// # Errors
/// It hasn't as many blocks as its parts need; a read of the disk failed, which the disk has counted; or out of
/// memory.
fn read_kept<S: Blocks>(
    alloc: Global,
    blocks: &mut S,
    snapshot: u32,
    places: NodeBlocks,
) -> Result<KeptNodes, CheckRefusal>
    requires going { (S.state blocks.old).books.stopped ≡ false }
    requires data { All (IsData (S.state blocks.old).books.geom) places }
    requires whole { IsTrue S.tells → All (λ b. length ((S.state blocks.old).map b) ≡ 1024) places }
    ensures places { IfOk result (λ kept. kept.places ≡ places) }
    ensures gone { IfOk result (λ kept. IsGoneThrough S.tells (S.state blocks.old) kept) }
    ensures parts { IsTrue S.tells → IfOk result (λ kept. HasItsParts (S.state blocks.old).books.geom (S.state blocks.old).map places) }
    ensures wrong { IsTrue S.tells → IfErr result (λ why. OnDamage why (λ what. (what ≡ InOne (WrongSize snapshot))
        × (HasItsParts (S.state blocks.old).books.geom (S.state blocks.old).map places → ⊥))) }
    ensures looks { LooksOnly S.tells (fails_reading result) (S.state blocks.old) (S.state blocks.new) }
{
    match KeptNodes::read(alloc, blocks, places) {
        Ok(kept) => Ok(kept),
        Err(SnapshotRefusal::WrongSize) => Err(wrong_size(snapshot)),
        Err(SnapshotRefusal::ReadFault) => Err(CheckRefusal::ReadFault),
        Err(SnapshotRefusal::NoMemory) => Err(CheckRefusal::NoMemory),
    }
}

/// Puts the name of a snapshot among those that were found.
///
/// # Errors
/// Its first block has no name, or that of a snapshot that was found; a read of the disk failed, which the disk has
/// counted; or out of memory.
fn add_name<S: Blocks>(
    blocks: &mut S,
    snapshot: &SnapshotIn,
    numbers: &mut BTreeMap<Name, u32>,
) -> Result<(), CheckRefusal>
    requires going { (S.state blocks.old).books.stopped ≡ false }
    requires data { All (IsData (S.state blocks.old).books.geom) snapshot.now.places }
    requires some { 0 < length snapshot.now.places }
    ensures named { IsTrue S.tells → All (λ b. length ((S.state blocks.old).map b) ≡ 1024) snapshot.now.places
        → OnOk result (IsNamed (S.state blocks.old).map snapshot.now (numbers_in numbers.old.entries) (numbers_in numbers.new.entries)) }
    ensures one { OnOk result (length numbers.new.entries ≡ length numbers.old.entries + 1) }
    ensures damage { IsTrue S.tells → All (λ b. length ((S.state blocks.old).map b) ≡ 1024) snapshot.now.places
        → IfErr result (λ why. OnDamage why (IsMisnamed (S.state blocks.old).map snapshot.now (numbers_in numbers.old.entries))) }
    ensures looks { LooksOnly S.tells (fails_reading result) (S.state blocks.old) (S.state blocks.new) }
{
    let number = snapshot.number;
    let Some(name) = read_name(blocks, &snapshot.places)? else {
        return Err(CheckRefusal::Damaged(Damage::Snapshot(SnapshotDamage::BadName {
            snapshot: number,
        })));
    };
    if let Some(other) = numbers.get(&name) {
        return Err(CheckRefusal::Damaged(Damage::Snapshot(SnapshotDamage::SameName {
            snapshot: number,
            other: *other,
        })));
    }
    set_number(numbers, name, number)?;
    Ok(())
}

/// Puts a name with its number among those that were found.
///
/// # Errors
/// Out of memory; then all is as before.
fn set_number(numbers: &mut BTreeMap<Name, u32>, name: Name, number: u32) -> Result<(), NoMemory>
    ensures ok { OnOk result (numbers_in numbers.new.entries ≡ insert (numbers_in numbers.old.entries) name number) }
    ensures one { OnOk result (get (numbers_in numbers.old.entries) name ≡ None → length numbers.new.entries ≡ length numbers.old.entries + 1) }
    ensures err { OnErr result (numbers.new.entries ≡ numbers.old.entries) }
{
    numbers.insert(name, number)?;
    Ok(())
}

/// Checks that the nodes that a snapshot keeps are those of a tree.
///
/// # Errors
/// Something is broken; a read of the disk failed, which the disk has counted; or out of memory.
fn check_kept_tree<S: Blocks>(
    alloc: Global,
    blocks: &mut S,
    snapshot: u32,
    kept: &KeptNodes,
) -> Result<(), CheckRefusal>
    requires read { MayRead (MayReadKept S.tells (S.state blocks.old) kept.now) (S.state blocks.old) }
    ensures rules { IsTrue S.tells → OnOk result (AreTreeFiles (bounds_of (S.state blocks.old).books.geom)
        (kept_files (S.state blocks.old).books.geom (S.state blocks.old).map kept.now.places)) }
    ensures damage { IsTrue S.tells → (is : IsSnapshot (S.state blocks.old).books.geom (S.state blocks.old).map snapshot) → places_of is.node ≡ kept.now.places
        → IfErr result (λ why. OnDamage why (IsDamaged (S.state blocks.old).books.geom (S.state blocks.old).map)) }
    ensures looks { LooksOnly S.tells (fails_reading result) (S.state blocks.old) (S.state blocks.new) }
{
    match find_tree(kept, alloc, blocks) {
        Ok(()) => Ok(()),
        Err(TreeRefusal::Damaged(damage)) => {
            Err(CheckRefusal::Damaged(Damage::Snapshot(SnapshotDamage::InSnapshot {
                snapshot,
                damage,
            })))
        }
        Err(TreeRefusal::ReadFault) => Err(CheckRefusal::ReadFault),
        Err(TreeRefusal::NoMemory) => Err(CheckRefusal::NoMemory),
    }
}
