//! The walk over the tree of a mounted disk, directory by directory in the order of the listing, which finds what is to be
//! made. It reads no file.

ghost use Rattle.std.specs.Prelude.{◌≡◌, ◌≤◌, ◌+◌, ◌++◌, ◌∷◌, [], length, map, reverse, drop, IfErr, IfOk, OnOk};
ghost use Rattle.std.specs.List.{filter};
ghost use Rattle.lang_tree.specs.Names.{names_in};
ghost use Rattle.lang_making.specs.Making.{paths_made};
ghost use Rattle.engine_store.specs.StoreOf.{state_of};
ghost use Rattle.fs_commands.specs.Opened.{blocks_in};
ghost use Rattle.cmd_upgrade.specs.declared.refusal.UpgradeRefusal.TheVariants.{NoMemory as OutOfMemory};
ghost use Rattle.cmd_upgrade.specs.Looked.{IsStop, OfLooked, RaisesBy, StaysLookedAt, StaysOnDisk, StopsFor};
ghost use Rattle.cmd_upgrade.specs.Plans.{IsPlanOf, IsWholePlan, dirs_among};

use crate::looks::{names_at, stat_at};
use crate::plan::{Plan, child};
use crate::refusal::UpgradeRefusal;
use crate::tree_laws::a_walk_finds_all_paths;
use base_types::Layout;
use cmd_session::Served;
use crash_stands::a_tree_that_stands_is_sound;
use disk_contract::Disk;
use engine_blocks::Blocks;
use engine_store::Store;
use lang_making::{a_walk_comes_to_each_path, each_path_is_made_once};
use lang_tree::Path;
use std::alloc::Global;

/// What is to be made of the tree of a mounted disk, counted in this layout.
///
/// # Errors
/// A look was refused by the disk, or out of memory.
pub(crate) fn plan_of<D: Disk + Drop>(
    alloc: Global,
    served: &mut Served<Store<D>>,
    layout: Layout,
) -> Result<Plan, UpgradeRefusal>
    ensures keeps { StaysOnDisk D.tells (state_of D.state (blocks_in served.old)) (state_of D.state (blocks_in served.new)) }
    ensures raises { OfLooked D.tells (state_of D.state (blocks_in served.old))
        (λ t. RaisesBy ((state_of D.state (blocks_in served.old)).books.geom.i + length (paths_made t.names)) (state_of D.state (blocks_in served.old)) (state_of D.state (blocks_in served.new))) }
    ensures stays { StaysLookedAt D.tells (state_of D.state (blocks_in served.old)) (state_of D.state (blocks_in served.new)) }
    ensures plan { OfLooked D.tells (state_of D.state (blocks_in served.old)) (λ t. IfOk result (λ plan. IsWholePlan layout t plan)) }
    ensures which { IfErr result IsStop }
    ensures stops { OfLooked D.tells (state_of D.state (blocks_in served.old)) (λ _. IfErr result (StopsFor (state_of D.state (blocks_in served.new)))) }
{
    a_walk_finds_all_paths();
    a_tree_that_stands_is_sound();
    each_path_is_made_once();
    let most = served.blocks().geom().i();
    let mut plan = Plan::new(alloc);
    let mut todo = Vec::new(alloc);
    todo.push(Path::root(alloc))?;
    for _ in 0..most {
        let Some(dir) = todo.pop() else {
            return Ok(plan);
        };
        visit(alloc, served, layout, &dir, &mut plan, &mut todo)?;
    }
    if !todo.is_empty() {
        return Err(UpgradeRefusal::Fault);
    }
    Ok(plan)
}

/// Puts the names of a directory behind those that are to be made, and its directories before those to which the walk is
/// still to come; the last of that list is the next one. So the list grows by as many as the plan gets directories.
///
/// # Errors
/// As of `plan_of`.
fn visit<D: Disk + Drop>(
    alloc: Global,
    served: &mut Served<Store<D>>,
    layout: Layout,
    dir: &Path,
    plan: &mut Plan,
    todo: &mut Vec<Path>,
) -> Result<(), UpgradeRefusal>
    ensures keeps { StaysOnDisk D.tells (state_of D.state (blocks_in served.old)) (state_of D.state (blocks_in served.new)) }
    ensures raises { OfLooked D.tells (state_of D.state (blocks_in served.old))
        (λ t. RaisesBy (1 + length (names_in t.names dir.now)) (state_of D.state (blocks_in served.old)) (state_of D.state (blocks_in served.new))) }
    ensures stays { StaysLookedAt D.tells (state_of D.state (blocks_in served.old)) (state_of D.state (blocks_in served.new)) }
    ensures plan { OfLooked D.tells (state_of D.state (blocks_in served.old))
        (λ t. OnOk result (IsPlanOf layout t (todo.old.items ++ dir.now ∷ []) plan.old → IsPlanOf layout t todo.new.items plan.new)) }
    ensures grows { OfLooked D.tells (state_of D.state (blocks_in served.old))
        (λ t. OnOk result (length plan.new.entries.items ≡ length plan.old.entries.items + length (names_in t.names dir.now))) }
    ensures dirs { OnOk result (length todo.new.items + dirs_among plan.old.entries.items ≡ length todo.old.items + dirs_among plan.new.entries.items) }
    ensures which { IfErr result IsStop }
    ensures stops { OfLooked D.tells (state_of D.state (blocks_in served.old))
        (λ t. IfErr result (λ why. IsPlanOf layout t (todo.old.items ++ dir.now ∷ []) plan.old → StopsFor (state_of D.state (blocks_in served.new)) why)) }
{
    a_walk_finds_all_paths();
    a_walk_comes_to_each_path();
    a_tree_that_stands_is_sound();
    let list = names_at(alloc, served, dir)?;
    let names = list.names();
    plan.count_names(layout, names.len());
    let before = plan.entries.len();
    for name in names {
        let path = child(alloc, dir, name)?;
        let stat = stat_at(alloc, served, &path)?;
        plan.add(path, stat)?;
    }
    add_dirs(alloc, plan, before, todo)?;
    Ok(())
}

/// Puts the directories among the paths from a place on at the end of the list, the first one last.
///
/// # Errors
/// Out of memory.
fn add_dirs(
    alloc: Global,
    plan: &Plan,
    before: usize,
    todo: &mut Vec<Path>,
) -> Result<(), UpgradeRefusal>
    requires { before ≤ length plan.now.entries.items }
    ensures dirs { OnOk result (todo.new.items ≡ todo.old.items ++ reverse (map (λ e. e.path) (filter (λ e. e.is_dir) (drop before plan.now.entries.items)))) }
    ensures memory { IfErr result (λ why. why ≡ OutOfMemory) }
{
    let mut place = plan.entries.len();
    while before < place {
        place -= 1;
        let entry = &plan.entries[place];
        if entry.is_dir {
            todo.push(entry.path.copy(alloc)?)?;
        }
    }
    Ok(())
}
