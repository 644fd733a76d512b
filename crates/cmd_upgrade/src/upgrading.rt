//! Makes the tree of the image under a name again under another name, on a new disk: the one image is mounted and looked
//! at, the other one made, mounted and filled. Each disk that the bay handed out goes back, whatever comes.

ghost use Rattle.std.specs.Prelude.{◌≡◌, ◌≢◌, ◌+◌, ◌*◌, IsTrue, [], length, OnOk, Result};
ghost use Rattle.base_types.specs.declared.layout.Layout.TheVariants.{Two};
ghost use Rattle.disk_contract.specs.declared.bay.BayFault.{BayFault as Failure};
ghost use Rattle.disk_contract.specs.Bay.{Closes};
ghost use Rattle.disk_contract.specs.Disk.{State};
ghost use Rattle.lang_tree.specs.Tree.{Tree};
ghost use Rattle.lang_making.specs.Making.{paths_made};
ghost use Rattle.engine_blocks.specs.Crashes.{IsBegun};
ghost use Rattle.engine_store.specs.StoreOf.{state_of};
ghost use Rattle.fs_commands.specs.Opened.{blocks_in};
ghost use Rattle.cmd_image.specs.Lent.{disk_of};
ghost use Rattle.cmd_image.specs.Makes.{IsFormattedImage};
ghost use Rattle.cmd_image.specs.Mounted.{IsFresh};
ghost use Rattle.cmd_image.specs.Shows.{HasImage};
ghost use Rattle.cmd_image.specs.Steps.{IsJustMounted};
ghost use Rattle.cmd_upgrade.specs.Looked.{IsLookedAt, OfLooked, RaisesBy, StaysLookedAt, StaysOnDisk};
ghost use Rattle.cmd_upgrade.specs.Plans.{CanBeMade, IsWholePlan};
ghost use Rattle.cmd_upgrade.specs.Filled.{ComesOfLooked, FillsNew, MakesTree};
ghost use Rattle.cmd_upgrade.specs.Refusals.{answer_of};
ghost use Rattle.cmd_upgrade.specs.Upgrades.{ComesOfDisk, HasRoomCause, IsOnlyMounted, LeavesBoth, SameBeside, UpgradesTo};

use crate::filling::fill;
use crate::plan::Plan;
use crate::refusal::{UpgradeRefusal, of_bay, of_image, of_make, of_new};
use crate::tree_laws::{a_formatted_image_has_its_geometry, a_tree_that_stands_can_be_made};
use crate::walk::plan_of;
use cmd_image::{
    LentDisk, a_session_begins_in_the_room_of_its_tree, close_lent, disk_back, make_image,
    mount_lent, open_lent, unopened, what_is_read_stays_mounted,
};
use cmd_session::{Served, an_image_has_one_answer};
use crash_stands::{a_tree_that_stands_is_sound, an_image_stands_for_one_tree};
use disk_contract::Bay;
use engine_blocks::Blocks;
use engine_store::Store;
use layout_geometry::Geom;
use std::alloc::Global;

/// Makes the tree for which the image under `name` stands again on a new disk of this geometry, which has layout 2, under
/// `other`, in place of what stood there. The image is mounted, and its tree looked at; where the new disk takes the tree,
/// it is made, mounted, and gets the commands that make the tree, with a sync wherever one doesn't fit, and is synced
/// durably at the end. Then both disks go back, with no marks. What snapshots keep isn't copied.
///
/// The image stays what it was: no more is written to it than a mount writes, and at each moment each honest image of it
/// stands for the tree for which it stood. On `Ok` each honest image of the last moment of the new disk stands for that
/// tree, with other numbers for its nodes.
///
/// # Errors
/// `Damaged` says what is broken in the image, and `Spent` that the numbers of its journal are at their end. `NoRoom` comes
/// exactly where the tree has more nodes than the new disk, or more blocks in its layout than that has data blocks; what
/// stands under `other` is then as it was, as it is with the two before. `Fault` comes of a call of the bay that failed, of
/// one of a disk in a mount, in the making or in a command, which was counted; that nothing is under `name` is one. It also
/// comes where a command was refused by a disk for another reason than want of memory: none may come then for room or for
/// a file in too many stretches, but that isn't proved. `NoMemory` comes of want of memory.
pub fn upgrade<B: Bay>(
    alloc: Global,
    bay: &mut B,
    name: &str,
    other: &str,
    geom: &Geom,
) -> Result<(), UpgradeRefusal>
    requires apart { name.now ≢ other.now }
    requires layout { geom.now.layout ≡ Two }
    ensures leaves { IsTrue B.tells → OnOk result (LeavesBoth name.now other.now geom.now (B.state bay.old) (B.state bay.new)) }
    ensures room { IsTrue B.tells → HasRoomCause geom.now result ((B.state bay.old).kept name.now) }
    ensures others { IsTrue B.tells → SameBeside name.now other.now (B.state bay.old) (B.state bay.new) }
    ensures comes { UpgradesTo B.tells name.now other.now geom.now result (B.state bay.old) (B.state bay.new) }
{
    match open_lent(bay, name) {
        Ok(disk) => {
            let (disk, answer) = upgrade_disk(alloc, bay, disk, other, geom);
            hand_back(alloc, bay, name, disk, answer)
        }
        Err(fault) => Err(of_bay(fault)),
    }
}

/// Hands a disk back under the name, with no mark, where all until then was answered so.
///
/// # Errors
/// That answer, where it is a refusal; else `Fault`, which the bay has counted, or `NoMemory`.
fn hand_back<B: Bay>(
    alloc: Global,
    bay: &mut B,
    name: &str,
    disk: LentDisk<B>,
    answer: Result<(), UpgradeRefusal>,
) -> Result<(), UpgradeRefusal>
    ensures { (back : Result (Unit {0}) Failure) × Closes B.tells name.now (B.D.state (disk_of disk)) [] back (B.state bay.old) (B.state bay.new)
        × (result ≡ answer_of answer back) }
{
    let back = close_lent(bay, name, disk, Vec::new(alloc));
    answer?;
    if let Err(fault) = back {
        return Err(of_bay(fault));
    }
    Ok(())
}

/// Makes the tree of a disk that was just opened again under the name. The disk is handed on whatever comes, with the
/// answer.
fn upgrade_disk<B: Bay>(
    alloc: Global,
    bay: &mut B,
    disk: LentDisk<B>,
    other: &str,
    geom: &Geom,
) -> (LentDisk<B>, Result<(), UpgradeRefusal>)
    requires layout { geom.now.layout ≡ Two }
    requires fresh { IsFresh B.tells (B.D.state (disk_of disk)) }
    ensures left { IsOnlyMounted B.tells (B.D.state (disk_of disk)) (B.D.state (disk_of result.0)) }
    ensures comes { ComesOfDisk B.tells other.now geom.now (B.D.state (disk_of disk)) (B.D.state (disk_of result.0)) result.1 (B.state bay.old) (B.state bay.new) }
{
    match mount_lent(alloc, disk) {
        Ok(store) => upgrade_store(alloc, bay, store, other, geom),
        Err((disk, why)) => (disk, Err(of_image(why))),
    }
}

/// The same of a store that was just mounted.
fn upgrade_store<B: Bay>(
    alloc: Global,
    bay: &mut B,
    store: Store<LentDisk<B>>,
    other: &str,
    geom: &Geom,
) -> (LentDisk<B>, Result<(), UpgradeRefusal>)
    requires layout { geom.now.layout ≡ Two }
    requires begun { IsBegun (state_of (λ lent. B.D.state (disk_of lent)) store) }
    ensures left { (first : State) → IsJustMounted B.tells first (state_of (λ lent. B.D.state (disk_of lent)) store)
        → IsOnlyMounted B.tells first (B.D.state (disk_of result.0)) }
    ensures comes { (first : State) → IsJustMounted B.tells first (state_of (λ lent. B.D.state (disk_of lent)) store)
        → ComesOfDisk B.tells other.now geom.now first (B.D.state (disk_of result.0)) result.1 (B.state bay.old) (B.state bay.new) }
{
    what_is_read_stays_mounted::<Store<LentDisk<B>>>();
    an_image_stands_for_one_tree();
    // a call for its clause alone: how many nodes the disk of the image has at most
    let found = store.geom();
    found.lawful();
    match Served::open(alloc, store) {
        Ok(served) => {
            let mut served = served;
            let answer = upgrade_served(alloc, bay, &mut served, other, geom);
            (disk_back(served.into_blocks()), answer)
        }
        Err((store, why)) => {
            let (disk, why) = unopened(store, why);
            (disk, Err(of_image(why)))
        }
    }
}

/// Makes the tree of a file system again on a new disk under the name, if that has room for it.
///
/// # Errors
/// There is no room; or a look, the making or the filling of the new disk, or its return was refused; or out of memory.
fn upgrade_served<B: Bay>(
    alloc: Global,
    bay: &mut B,
    image: &mut Served<Store<LentDisk<B>>>,
    other: &str,
    geom: &Geom,
) -> Result<(), UpgradeRefusal>
    requires layout { geom.now.layout ≡ Two }
    ensures stays { StaysLookedAt B.tells (state_of (λ lent. B.D.state (disk_of lent)) (blocks_in image.old)) (state_of (λ lent. B.D.state (disk_of lent)) (blocks_in image.new)) }
    ensures keeps { StaysOnDisk B.tells (state_of (λ lent. B.D.state (disk_of lent)) (blocks_in image.old)) (state_of (λ lent. B.D.state (disk_of lent)) (blocks_in image.new)) }
    ensures raises { OfLooked B.tells (state_of (λ lent. B.D.state (disk_of lent)) (blocks_in image.old))
        (λ t. RaisesBy ((state_of (λ lent. B.D.state (disk_of lent)) (blocks_in image.old)).books.geom.i + 16385 * length (paths_made t.names))
        (state_of (λ lent. B.D.state (disk_of lent)) (blocks_in image.old)) (state_of (λ lent. B.D.state (disk_of lent)) (blocks_in image.new))) }
    ensures comes { (first : State) (t : Tree) → (IsTrue B.tells → IsLookedAt first t (state_of (λ lent. B.D.state (disk_of lent)) (blocks_in image.old)))
        → ComesOfLooked B.tells other.now geom.now t (state_of (λ lent. B.D.state (disk_of lent)) (blocks_in image.new)) result (B.state bay.old) (B.state bay.new) }
{
    a_tree_that_stands_can_be_made();
    a_tree_that_stands_is_sound();
    let plan = plan_of(alloc, image, geom.layout())?;
    if !plan.fits(geom) {
        return Err(UpgradeRefusal::NoRoom);
    }
    if let Err(why) = make_image(alloc, bay, other, geom) {
        return Err(of_make(why));
    }
    make_tree(alloc, bay, &plan, image, other, geom)
}

/// Makes the planned tree on the disk under the name, which was just made.
///
/// # Errors
/// As of `upgrade_served`.
fn make_tree<B: Bay>(
    alloc: Global,
    bay: &mut B,
    plan: &Plan,
    image: &mut Served<Store<LentDisk<B>>>,
    other: &str,
    geom: &Geom,
) -> Result<(), UpgradeRefusal>
    ensures stays { StaysLookedAt B.tells (state_of (λ lent. B.D.state (disk_of lent)) (blocks_in image.old)) (state_of (λ lent. B.D.state (disk_of lent)) (blocks_in image.new)) }
    ensures keeps { StaysOnDisk B.tells (state_of (λ lent. B.D.state (disk_of lent)) (blocks_in image.old)) (state_of (λ lent. B.D.state (disk_of lent)) (blocks_in image.new)) }
    ensures raises { RaisesBy (16384 * length plan.now.entries.items) (state_of (λ lent. B.D.state (disk_of lent)) (blocks_in image.old)) (state_of (λ lent. B.D.state (disk_of lent)) (blocks_in image.new)) }
    ensures comes { (first : State) (t : Tree) → (IsTrue B.tells → IsLookedAt first t (state_of (λ lent. B.D.state (disk_of lent)) (blocks_in image.old)))
        → (IsTrue B.tells → CanBeMade geom.now t × IsWholePlan geom.now.layout t plan.now)
        → (IsTrue B.tells → HasImage ((B.state bay.old).kept other.now) (IsFormattedImage geom.now))
        → MakesTree B.tells other.now geom.now t (state_of (λ lent. B.D.state (disk_of lent)) (blocks_in image.new)) result (B.state bay.old) (B.state bay.new) }
{
    match open_lent(bay, other) {
        Ok(disk) => {
            let (disk, answer) = fill_disk(alloc, plan, image, disk, geom);
            hand_back(alloc, bay, other, disk, answer)
        }
        Err(fault) => Err(of_bay(fault)),
    }
}

/// Mounts the new disk, and makes the planned tree there. The disk is handed on whatever comes, with the answer.
fn fill_disk<B: Bay>(
    alloc: Global,
    plan: &Plan,
    image: &mut Served<Store<LentDisk<B>>>,
    disk: LentDisk<B>,
    geom: &Geom,
) -> (LentDisk<B>, Result<(), UpgradeRefusal>)
    requires fresh { IsFresh B.tells (B.D.state (disk_of disk)) }
    ensures stays { StaysLookedAt B.tells (state_of (λ lent. B.D.state (disk_of lent)) (blocks_in image.old)) (state_of (λ lent. B.D.state (disk_of lent)) (blocks_in image.new)) }
    ensures keeps { StaysOnDisk B.tells (state_of (λ lent. B.D.state (disk_of lent)) (blocks_in image.old)) (state_of (λ lent. B.D.state (disk_of lent)) (blocks_in image.new)) }
    ensures raises { RaisesBy (16384 * length plan.now.entries.items) (state_of (λ lent. B.D.state (disk_of lent)) (blocks_in image.old)) (state_of (λ lent. B.D.state (disk_of lent)) (blocks_in image.new)) }
    ensures fills { (first : State) (t : Tree) → (IsTrue B.tells → IsLookedAt first t (state_of (λ lent. B.D.state (disk_of lent)) (blocks_in image.old)))
        → (IsTrue B.tells → CanBeMade geom.now t × IsWholePlan geom.now.layout t plan.now)
        → (IsTrue B.tells → IsFormattedImage geom.now (B.D.state (disk_of disk)).blocks (B.D.state (disk_of disk)).base)
        → FillsNew B.tells geom.now t (state_of (λ lent. B.D.state (disk_of lent)) (blocks_in image.new)) (B.D.state (disk_of disk)) (B.D.state (disk_of result.0)) result.1 }
{
    an_image_has_one_answer();
    match mount_lent(alloc, disk) {
        Ok(store) => fill_store(alloc, plan, image, store, geom),
        Err((disk, why)) => (disk, Err(of_new(why))),
    }
}

/// The same of a store that was just mounted.
fn fill_store<B: Bay>(
    alloc: Global,
    plan: &Plan,
    image: &mut Served<Store<LentDisk<B>>>,
    store: Store<LentDisk<B>>,
    geom: &Geom,
) -> (LentDisk<B>, Result<(), UpgradeRefusal>)
    requires begun { IsBegun (state_of (λ lent. B.D.state (disk_of lent)) store) }
    ensures stays { StaysLookedAt B.tells (state_of (λ lent. B.D.state (disk_of lent)) (blocks_in image.old)) (state_of (λ lent. B.D.state (disk_of lent)) (blocks_in image.new)) }
    ensures keeps { StaysOnDisk B.tells (state_of (λ lent. B.D.state (disk_of lent)) (blocks_in image.old)) (state_of (λ lent. B.D.state (disk_of lent)) (blocks_in image.new)) }
    ensures raises { RaisesBy (16384 * length plan.now.entries.items) (state_of (λ lent. B.D.state (disk_of lent)) (blocks_in image.old)) (state_of (λ lent. B.D.state (disk_of lent)) (blocks_in image.new)) }
    ensures fills { (begun first : State) (t : Tree) → IsJustMounted B.tells begun (state_of (λ lent. B.D.state (disk_of lent)) store)
        → (IsTrue B.tells → begun.log ≡ [])
        → (IsTrue B.tells → IsLookedAt first t (state_of (λ lent. B.D.state (disk_of lent)) (blocks_in image.old)))
        → (IsTrue B.tells → CanBeMade geom.now t × IsWholePlan geom.now.layout t plan.now)
        → (IsTrue B.tells → IsFormattedImage geom.now begun.blocks begun.base)
        → FillsNew B.tells geom.now t (state_of (λ lent. B.D.state (disk_of lent)) (blocks_in image.new)) begun (B.D.state (disk_of result.0)) result.1 }
{
    geom.lawful();
    a_session_begins_in_the_room_of_its_tree::<Store<LentDisk<B>>>();
    what_is_read_stays_mounted::<Store<LentDisk<B>>>();
    an_image_stands_for_one_tree();
    an_image_has_one_answer();
    a_formatted_image_has_its_geometry();
    match Served::open(alloc, store) {
        Ok(served) => {
            let mut new = served;
            let answer = fill(alloc, plan, image, &mut new);
            (disk_back(new.into_blocks()), answer)
        }
        Err((store, why)) => {
            let (disk, why) = unopened(store, why);
            (disk, Err(of_new(why)))
        }
    }
}
