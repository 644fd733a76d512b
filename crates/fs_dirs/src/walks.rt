//! Paths walked from the root, name by name.

ghost use Rattle.std.specs.Prelude.{◌≡◌, ◌<◌, IsTrue, Some, IfOk, IfErr, IfSome};
ghost use Rattle.lang_tree.specs.Tree.{Tree};
ghost use Rattle.crash_stands.specs.Inodes.{Inode, inodes_of};
ghost use Rattle.crash_stands.specs.Maps.{IsMapOf};
ghost use Rattle.fs_inodes.specs.Lookups.{walk_on};
ghost use Rattle.fs_files.specs.Asks.{MayLookAt, MayRead};
ghost use Rattle.fs_files.specs.Content.{fails_reading};
ghost use Rattle.fs_files.specs.Effects.{LooksOnly};
ghost use Rattle.fs_files.specs.Calls.{LookRefused};
ghost use Rattle.fs_dirs.specs.Directories.{EndsAtParent, IsNumber};
ghost use Rattle.fs_dirs.specs.Reading.{EntersOn, IsOpened};

use crate::lookup::{Directory, find_in_directory, open_directory};
use base_types::Name;
use crash_stands::slots_name_nodes_in_use;
use engine_blocks::{Blocks, calls_compose};
use fs_files::{FileRefusal, Nodes};
use fs_inodes::a_name_stands_at_its_place;
use lang_tree::{Path, Refusal};

/// The number of the root.
const ROOT: u32 = 1;

/// The number that a path leads to, or why it leads nowhere.
///
/// # Errors
/// A read of the disk failed, which the disk has counted.
pub fn walk<N: Nodes, S: Blocks>(
    files: &N,
    blocks: &mut S,
    path: &Path,
) -> Result<Result<u32, Refusal>, FileRefusal>
    requires read { MayRead (N.may_read S.tells (S.state blocks.old) files.now) (S.state blocks.old) }
    ensures end { IsTrue S.tells → IfOk result (λ end. (t : Tree)
        → IsMapOf (S.state blocks.old).books.geom.i (inodes_of (S.state blocks.old).books.geom.layout (N.nodes (S.state blocks.old) files.now).files) t
        → end ≡ walk_on (inodes_of (S.state blocks.old).books.geom.layout (N.nodes (S.state blocks.old) files.now).files) 1 path.now) }
    ensures number { IfOk result (λ end. IfOk end (IsNumber (S.state blocks.old).books.geom.i)) }
    ensures refused { IfErr result LookRefused }
    ensures looks { LooksOnly S.tells (fails_reading result) (S.state blocks.old) (S.state blocks.new) }
{
    walk_names(files, blocks, path.names())
}

/// The directory above a path, or why nothing can come to be at the path. `None` for the root, which has none
/// above it.
///
/// # Errors
/// As `walk`.
pub fn walk_to_parent<N: Nodes, S: Blocks>(
    files: &N,
    blocks: &mut S,
    path: &Path,
) -> Result<Result<Option<Directory>, Refusal>, FileRefusal>
    requires read { MayRead (N.may_read S.tells (S.state blocks.old) files.now) (S.state blocks.old) }
    ensures end { IsTrue S.tells → IfOk result (λ end. (t : Tree)
        → IsMapOf (S.state blocks.old).books.geom.i (inodes_of (S.state blocks.old).books.geom.layout (N.nodes (S.state blocks.old) files.now).files) t
        → EndsAtParent (inodes_of (S.state blocks.old).books.geom.layout (N.nodes (S.state blocks.old) files.now).files) path.now end) }
    ensures opened { IfOk result (λ end. IfOk end (λ up. IfSome up (IsOpened S.tells (S.state blocks.new) (N.nodes (S.state blocks.new) files.now)))) }
    ensures refused { IfErr result LookRefused }
    ensures looks { LooksOnly S.tells (fails_reading result) (S.state blocks.old) (S.state blocks.new) }
{
    calls_compose::<S>();
    files.laws(blocks);
    let names = path.names();
    let count = names.len();
    if count == 0 {
        return Ok(Ok(None));
    }
    let up = &names[..count - 1];
    let number = match walk_names(files, blocks, up)? {
        Ok(number) => number,
        Err(why) => return Ok(Err(why)),
    };
    match open_directory(files, blocks, number)? {
        Some(above) => Ok(Ok(Some(above))),
        None => Ok(Err(Refusal::NotDir)),
    }
}

/// The number that these names lead to from the root, or why they lead nowhere.
///
/// # Errors
/// As `walk`.
fn walk_names<N: Nodes, S: Blocks>(
    files: &N,
    blocks: &mut S,
    names: &[Name],
) -> Result<Result<u32, Refusal>, FileRefusal>
    requires read { MayRead (N.may_read S.tells (S.state blocks.old) files.now) (S.state blocks.old) }
    ensures end { IsTrue S.tells → IfOk result (λ end. (t : Tree)
        → IsMapOf (S.state blocks.old).books.geom.i (inodes_of (S.state blocks.old).books.geom.layout (N.nodes (S.state blocks.old) files.now).files) t
        → end ≡ walk_on (inodes_of (S.state blocks.old).books.geom.layout (N.nodes (S.state blocks.old) files.now).files) 1 names.now) }
    ensures used { IsTrue S.tells → IfOk result (λ end. (t : Tree)
        → IsMapOf (S.state blocks.old).books.geom.i (inodes_of (S.state blocks.old).books.geom.layout (N.nodes (S.state blocks.old) files.now).files) t
        → IfOk end (λ k. (x : Inode) × (inodes_of (S.state blocks.old).books.geom.layout (N.nodes (S.state blocks.old) files.now).files k ≡ Some x))) }
    ensures number { IfOk result (λ end. IfOk end (IsNumber (S.state blocks.old).books.geom.i)) }
    ensures refused { IfErr result LookRefused }
    ensures looks { LooksOnly S.tells (fails_reading result) (S.state blocks.old) (S.state blocks.new) }
{
    calls_compose::<S>();
    files.laws(blocks);
    blocks.geom().lawful();
    let mut number = ROOT;
    for name in names {
        match enter(files, blocks, number, name)? {
            Ok(next) => number = next,
            Err(why) => return Ok(Err(why)),
        }
    }
    Ok(Ok(number))
}

/// The number under a name in node `number`, or why there is none.
///
/// # Errors
/// As `walk`.
fn enter<N: Nodes, S: Blocks>(
    files: &N,
    blocks: &mut S,
    number: u32,
    name: &Name,
) -> Result<Result<u32, Refusal>, FileRefusal>
    requires { MayLookAt (N.may_read S.tells (S.state blocks.old) files.now) (S.state blocks.old) number }
    ensures step { IsTrue S.tells → IfOk result (λ next. (t : Tree) (x : Inode)
        → IsMapOf (S.state blocks.old).books.geom.i (inodes_of (S.state blocks.old).books.geom.layout (N.nodes (S.state blocks.old) files.now).files) t
        → inodes_of (S.state blocks.old).books.geom.layout (N.nodes (S.state blocks.old) files.now).files number ≡ Some x
        → EntersOn (inodes_of (S.state blocks.old).books.geom.layout (N.nodes (S.state blocks.old) files.now).files) number name.now next) }
    ensures number { IfOk result (λ next. IfOk next (IsNumber (S.state blocks.old).books.geom.i)) }
    ensures refused { IfErr result LookRefused }
    ensures looks { LooksOnly S.tells (fails_reading result) (S.state blocks.old) (S.state blocks.new) }
{
    calls_compose::<S>();
    files.laws(blocks);
    slots_name_nodes_in_use();
    a_name_stands_at_its_place();
    let Some(directory) = open_directory(files, blocks, number)? else {
        return Ok(Err(Refusal::NotDir));
    };
    match find_in_directory(files, blocks, &directory, name)? {
        Some(found) => Ok(Ok(found.node)),
        None => Ok(Err(Refusal::NotFound)),
    }
}
