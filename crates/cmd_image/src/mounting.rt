//! The steps that each use of an image under a name shares: a disk is opened on the image, mounted, marked, and handed
//! back. What is done with the mounted disk between them is for the caller.

ghost use Rattle.std.specs.Prelude.{◌≡◌, ◌<◌, ℕ, false, IsTrue, List, [], length, vec_len, vec_capacity, Option, Err, IfOk, IfErr};
ghost use Rattle.base_types.specs.Seal.{Blocks as BlockMap};
ghost use Rattle.disk_contract.specs.Bay.{Opens, Closes};
ghost use Rattle.disk_contract.specs.Disk.{State};
ghost use Rattle.crash_argument.specs.Ledger.{HoldsUnder};
ghost use Rattle.layout_geometry.specs.Geometry.{Geometry};
ghost use Rattle.crash_stands.specs.Stands.{IsTreeOf};
ghost use Rattle.lang_tree.specs.Tree.{Tree};
ghost use Rattle.engine_blocks.specs.Crashes.{IsBegun};
ghost use Rattle.fs_check.specs.Whole.{IsDamaged, OnDamage, fails_by};
ghost use Rattle.engine_store.specs.Mounting.{BeginsWith, GoesOnFrom};
ghost use Rattle.engine_store.specs.StoreOf.{disk_in, state_of};
ghost use Rattle.cmd_image.specs.Lent.{disk_of};
ghost use Rattle.cmd_image.specs.Mounted.{IsFresh, IsMountedOn, ShowsDisk};
ghost use Rattle.cmd_image.specs.Shows.{fails_pushing};

use crate::lent::LentDisk;
use crate::show_refusal::{ShowRefusal, of_check, of_store};
use base_types::NoMemory;
use cmd_session::a_damaged_image_stands_for_no_tree;
use crash_stands::images_alike_below_n_stand_for_the_same;
use disk_contract::{Bay, BayFault, Disk, Mark};
use engine_store::Store;
use fs_check::CheckRefusal;
use layout_journal::an_image_holds_one_map;
use std::alloc::Global;

/// No mark, with room for one.
///
/// # Errors
/// Out of memory.
pub fn room_for_a_mark(alloc: Global) -> Result<Vec<Mark>, NoMemory>
    ensures empty { IfOk result (λ marks. marks.items ≡ []) }
    ensures room { IfOk result (λ marks. vec_len marks < vec_capacity marks) }
{
    match Vec::with_capacity(alloc, 1) {
        Ok(marks) => Ok(marks),
        Err(_) => Err(NoMemory),
    }
}

/// Opens a disk on the image under the name.
///
/// # Errors
/// A fault, which the bay has counted: that nothing is under the name is one. Or out of memory.
pub fn open_lent<B: Bay>(bay: &mut B, name: &str) -> Result<LentDisk<B>, BayFault>
    ensures { Opens B.tells (λ lent. B.D.state (disk_of lent)) name.now result (B.state bay.old) (B.state bay.new) }
{
    match bay.open(name) {
        Ok(disk) => Ok(LentDisk { disk }),
        Err(fault) => Err(fault),
    }
}

/// Hands a disk back under the name, with its marks.
///
/// # Errors
/// A fault, which the bay has counted, or out of memory.
pub fn close_lent<B: Bay>(
    bay: &mut B,
    name: &str,
    lent: LentDisk<B>,
    marks: Vec<Mark>,
) -> Result<(), BayFault>
    ensures { Closes B.tells name.now (B.D.state (disk_of lent)) marks.items result (B.state bay.old) (B.state bay.new) }
{
    let LentDisk { disk } = lent;
    bay.close(name, disk, marks)
}

/// Mounts a disk that was just opened.
///
/// # Errors
/// The disk comes back, with why: what is wrong on it, that the numbers of its journal are at their end, a call of it
/// that failed, or want of memory.
pub fn mount_lent<D: Disk + Drop>(alloc: Global, disk: D) -> Result<Store<D>, (D, ShowRefusal)>
    requires fresh { IsFresh D.tells (D.state disk) }
    ensures begun { IfOk result (λ store. IsBegun (state_of D.state store)) }
    ensures mounted { IfOk result (λ store. IsMountedOn D.tells false (D.state disk) (state_of D.state store)) }
    ensures begins { IsTrue D.tells → (g : Geometry) (m : BlockMap) → HoldsUnder (D.state disk).blocks g (D.state disk).base m
        → IfOk result (λ store. BeginsWith g m (state_of D.state store)) }
    ensures numbers { IsTrue D.tells → IfOk result (λ store. GoesOnFrom (D.state disk) (state_of D.state store)) }
    ensures refused { IfErr result (λ e. (taken : Option (List ℕ)) → ShowsDisk {T = Unit {0}} D.tells (D.state disk) (D.state e.0) [] taken taken (Err e.1)) }
    ensures silent { IfErr result (λ e. fails_pushing {T = Unit {0}} (Err e.1) ≡ false) }
{
    an_image_holds_one_map();
    images_alike_below_n_stand_for_the_same();
    a_damaged_image_stands_for_no_tree();
    match Store::mount(alloc, disk) {
        Ok(store) => {
            // a call for its clause alone: how many blocks the disk has
            let _ = store.disk();
            Ok(store)
        }
        Err((disk, why)) => Err((disk, of_store(why))),
    }
}

/// The disk of a store whose file system wasn't opened, and what is answered then. Where the blocks were only looked at
/// since they were mounted, the disk goes back as `ShowsDisk` says.
pub fn unopened<D: Disk + Drop>(store: Store<D>, why: CheckRefusal) -> (D, ShowRefusal)
    ensures back { (first : State) (taken : Option (List ℕ)) → IsMountedOn D.tells (fails_by why) first (state_of D.state store)
        → (IsTrue D.tells → OnDamage why (IsDamaged (state_of D.state store).books.geom (state_of D.state store).map))
        → (IsTrue D.tells → OnDamage why (λ _. (t : Tree) → ¬ IsTreeOf (state_of D.state store).books.geom (state_of D.state store).map t))
        → ShowsDisk {T = Unit {0}} D.tells first (D.state result.0) [] taken taken (Err result.1) }
    ensures silent { fails_pushing {T = Unit {0}} (Err result.1) ≡ false }
{
    an_image_holds_one_map();
    images_alike_below_n_stand_for_the_same();
    (disk_back(store), of_check(why))
}

/// The mark of this moment.
pub fn mark_of<D: Disk>(disk: &D) -> Mark
    ensures moment { IsTrue D.tells → result.moment ≡ length (D.state disk.now).log }
    ensures read_faults { result.read_faults ≡ (D.state disk.now).read_faults }
    ensures faults { result.faults ≡ (D.state disk.now).faults }
{
    let (read_faults, faults) = disk.counts();
    Mark {
        moment: disk.moment(),
        read_faults,
        faults,
    }
}

/// The disk of a store, which has as many blocks as the geometry says.
pub fn disk_back<D: Disk + Drop>(store: Store<D>) -> D
    ensures disk { result ≡ disk_in store }
    ensures size { (D.state (disk_in store)).blocks ≡ (state_of D.state store).books.geom.n }
{
    // a call for its clause alone: how many blocks the disk has
    let _ = store.disk();
    store.into_disk()
}
