//! The filling of a new disk with the tree of another one: first all paths come to be, then each file gets its bytes, which
//! are read from the one disk and written to the other piece by piece.

ghost use Rattle.std.specs.Prelude.{◌≡◌, ◌⊎◌, ◌++◌, ◌*◌, ℕ, IsTrue, false, List, [], length, map, IfErr, OnOk};
ghost use Rattle.base_types.specs.declared.layout.Layout.{Layout};
ghost use Rattle.disk_contract.specs.Disk.{State};
ghost use Rattle.layout_geometry.specs.Geometry.{Geometry};
ghost use Rattle.lang_tree.specs.declared.command.Cmd.{Cmd};
ghost use Rattle.lang_tree.specs.Tree.{IsSound, Tree};
ghost use Rattle.lang_tree.specs.Walk.{content};
ghost use Rattle.lang_making.specs.Making.{making, path_command, paths_made, writing};
ghost use Rattle.engine_store.specs.StoreOf.{state_of};
ghost use Rattle.fs_commands.specs.Opened.{blocks_in};
ghost use Rattle.cmd_upgrade.specs.Looked.{HasMade, HoldsNow, IsLookedAt, IsStop, MakesOn, RaisesBy, StaysLookedAt, StaysOnDisk, StopsFor, StopsMaking};
ghost use Rattle.cmd_upgrade.specs.Plans.{CanBeMade, IsEntry, IsWholePlan};

use crate::asks::{ask, make_durable};
use crate::looks::bytes_at;
use crate::plan::{Entry, Plan};
use crate::refusal::UpgradeRefusal;
use cmd_session::Served;
use disk_contract::Disk;
use engine_store::Store;
use lang_making::{a_walk_comes_to_each_path, each_path_is_made_once};
use lang_tree::Cmd;
use std::alloc::Global;

/// How many bytes of a file are read and written at a time.
const PIECE: u32 = 65_536;

/// How many bytes a file has at most.
const MOST_BYTES: u64 = 1_073_741_824;

/// Makes the planned tree of the one disk on the other one, which has the root alone, and waits until all of it is there.
///
/// # Errors
/// A command or a look was refused by a disk, or out of memory.
pub(crate) fn fill<D: Disk + Drop>(
    alloc: Global,
    plan: &Plan,
    image: &mut Served<Store<D>>,
    new: &mut Served<Store<D>>,
) -> Result<(), UpgradeRefusal>
    ensures keeps { StaysOnDisk D.tells (state_of D.state (blocks_in image.old)) (state_of D.state (blocks_in image.new)) }
    ensures raises { RaisesBy (16384 * length plan.now.entries.items) (state_of D.state (blocks_in image.old)) (state_of D.state (blocks_in image.new)) }
    ensures keeps_new { StaysOnDisk D.tells (state_of D.state (blocks_in new.old)) (state_of D.state (blocks_in new.new)) }
    ensures stays { StaysLookedAt D.tells (state_of D.state (blocks_in image.old)) (state_of D.state (blocks_in image.new)) }
    ensures which { IfErr result IsStop }
    ensures holds { IsTrue D.tells → (first : State) (t : Tree) (g : Geometry) → IsLookedAt first t (state_of D.state (blocks_in image.old)) → CanBeMade g t
        → IsWholePlan g.layout t plan.now → HasMade g [] (state_of D.state (blocks_in new.old)) → OnOk result (HoldsNow t (state_of D.state (blocks_in new.new)))
        × IfErr result (λ why. StopsFor (state_of D.state (blocks_in image.new)) why ⊎ StopsMaking g t (state_of D.state (blocks_in new.new)) why) }
{
    each_path_is_made_once();
    make_paths(alloc, plan, new)?;
    for place in 0..plan.entries.len() {
        let entry = &plan.entries[place];
        if plan.is_written(place) {
            fill_file(alloc, entry, image, new)?;
        }
    }
    make_durable(alloc, new)
}

/// Makes each path.
///
/// # Errors
/// A command was refused by the disk, or out of memory.
fn make_paths<D: Disk + Drop>(
    alloc: Global,
    plan: &Plan,
    new: &mut Served<Store<D>>,
) -> Result<(), UpgradeRefusal>
    ensures keeps { StaysOnDisk D.tells (state_of D.state (blocks_in new.old)) (state_of D.state (blocks_in new.new)) }
    ensures makes { (limit : ℕ) (t : Tree) (l : Layout) → IsSound limit t → IsWholePlan l t plan.now
        → MakesOn D.tells (map (path_command t (paths_made t.names)) (paths_made t.names)) (state_of D.state (blocks_in new.old)) (state_of D.state (blocks_in new.new)) result }
    ensures which { IfErr result IsStop }
{
    for place in 0..plan.entries.len() {
        let cmd = plan.path_command(alloc, place)?;
        ask(alloc, new, &cmd)?;
    }
    Ok(())
}

/// Writes the bytes of a file.
///
/// # Errors
/// As of `fill`.
fn fill_file<D: Disk + Drop>(
    alloc: Global,
    entry: &Entry,
    image: &mut Served<Store<D>>,
    new: &mut Served<Store<D>>,
) -> Result<(), UpgradeRefusal>
    ensures keeps { StaysOnDisk D.tells (state_of D.state (blocks_in image.old)) (state_of D.state (blocks_in image.new)) }
    ensures raises { RaisesBy 16384 (state_of D.state (blocks_in image.old)) (state_of D.state (blocks_in image.new)) }
    ensures keeps_new { StaysOnDisk D.tells (state_of D.state (blocks_in new.old)) (state_of D.state (blocks_in new.new)) }
    ensures stays { StaysLookedAt D.tells (state_of D.state (blocks_in image.old)) (state_of D.state (blocks_in image.new)) }
    ensures which { IfErr result IsStop }
    ensures makes { IsTrue D.tells → (first : State) (g : Geometry) (t : Tree) (front back : List Cmd) → IsLookedAt first t (state_of D.state (blocks_in image.old))
        → CanBeMade g t → IsEntry t entry.now → entry.now.is_dir ≡ false
        → making t ≡ front ++ (writing entry.now.path (content t entry.now.path) ++ back) → HasMade g front (state_of D.state (blocks_in new.old))
        → OnOk result (HasMade g (front ++ writing entry.now.path (content t entry.now.path)) (state_of D.state (blocks_in new.new)))
        × IfErr result (λ why. StopsFor (state_of D.state (blocks_in image.new)) why ⊎ StopsMaking g t (state_of D.state (blocks_in new.new)) why) }
{
    a_walk_comes_to_each_path();
    if MOST_BYTES < entry.size {
        return Err(UpgradeRefusal::Fault);
    }
    let count = (entry.size as u32).div_ceil(PIECE);
    for piece in 0..count {
        let offset = PIECE * piece;
        let bytes = bytes_at(alloc, image, &entry.path, offset, PIECE)?;
        let path = entry.path.copy(alloc)?;
        ask(alloc, new, &Cmd::Write(path, offset, bytes))?;
    }
    Ok(())
}
