//! The command that fills a part of a file with one byte: fill. It finds its refusal from reads alone, weighs
//! what it needs, and plans a draft. Its bytes are made only where there is room for them.

ghost use Rattle.std.specs.Prelude.{◌≡◌, ◌+◌, ◌<◌, ◌≤◌, min, ℕ, IsTrue, List, Ok as Fine};
ghost use Rattle.lang_tree.specs.declared.command.Cmd.TheVariants.{Fill};
ghost use Rattle.crash_stands.specs.Inodes.{inodes_of};
ghost use Rattle.fs_inodes.specs.Lookups.{walk_on};
ghost use Rattle.fs_files.specs.Calls.{files_in};
ghost use Rattle.fs_files.specs.Drafts.{nothing_drafted};
ghost use Rattle.fs_dirs.specs.Directories.{IsNumber};
ghost use Rattle.fs_session.specs.Plans.{MayBeMade, OnChange, Plans};
ghost use Rattle.fs_session.specs.Sessions.{MayPlan};
ghost use Rattle.fs_commands.specs.Figures.{MeetsKept};
ghost use Rattle.fs_commands.specs.Writing.{IsFile};

use crate::bytes::{find_file, is_too_large, plan_bytes, size_of};
use crate::figures::overwrite_figures;
use crate::found::a_file_is_at_its_path;
use crate::paths::NodeFound;
use crate::refusals::refusal_of;
use crate::sharing::kept_met;
use engine_blocks::{Blocks, calls_compose};
use fs_files::Shared;
use fs_inodes::the_map_gives_the_refusal;
use fs_session::{Plan, blocks_have_the_map_of_their_tree, counts_tell_what_is_shared, has_room};
use lang_tree::{Path, Refusal, Reply};
use std::alloc::Global;

/// Plans to put `byte` into a file `count` times from `offset` on.
///
/// # Errors
/// There is no room; the file's blocks would lie in too many runs; a read of the disk failed, or another call
/// of it; or out of memory.
pub(crate) fn plan_fill<'a, S: Blocks>(
    alloc: Global,
    blocks: &mut S,
    path: &Path,
    offset: u32,
    count: u32,
    byte: u8,
    shared: &'a Shared,
) -> Result<Plan<'a>, Refusal>
    requires may { MayPlan S.tells (S.state blocks.old) shared.now }
    ensures plans { Plans S.tells (Fill path.now offset count byte) result (S.state blocks.old) (S.state blocks.new) }
    ensures made { OnChange result (λ draft cost nodes. MayBeMade S.tells draft cost nodes (S.state blocks.new)) }
{
    calls_compose::<S>();
    the_map_gives_the_refusal();
    blocks_have_the_map_of_their_tree();
    match find_file(alloc, blocks, path, shared) {
        Ok(Ok(found)) => fill_found(alloc, blocks, &found, offset, count, byte, shared),
        Ok(Err(why)) => Ok(Plan::Answer(Reply::Refused(why))),
        Err(why) => Err(refusal_of(why)),
    }
}

/// Plans to put `byte` into a file that was found, `count` times from `offset` on.
///
/// # Errors
/// As `plan_fill`.
fn fill_found<'a, S: Blocks>(
    alloc: Global,
    blocks: &mut S,
    found: &NodeFound,
    offset: u32,
    count: u32,
    byte: u8,
    shared: &'a Shared,
) -> Result<Plan<'a>, Refusal>
    requires may { MayPlan S.tells (S.state blocks.old) shared.now }
    requires number { IsNumber (S.state blocks.old).books.geom.i found.now.number }
    requires file { IsTrue S.tells → IsFile (files_in (S.state blocks.old) nothing_drafted) found.now }
    ensures plans { (path : List (List ℕ)) → (IsTrue S.tells
        → walk_on (inodes_of (S.state blocks.old).books.geom.layout (files_in (S.state blocks.old) nothing_drafted)) 1 path ≡ Fine found.now.number)
        → Plans S.tells (Fill path offset count byte) result (S.state blocks.old) (S.state blocks.new) }
    ensures made { OnChange result (λ draft cost nodes. MayBeMade S.tells draft cost nodes (S.state blocks.new)) }
{
    calls_compose::<S>();
    a_file_is_at_its_path(blocks, shared);
    the_map_gives_the_refusal();
    if is_too_large(offset, u64::from(count)) {
        return Ok(Plan::Answer(Reply::Refused(Refusal::TooLarge)));
    }
    if count == 0 {
        return Ok(Plan::Answer(Reply::Ok));
    }
    let lo = offset.min(size_of(found));
    match kept_met(alloc, blocks, found.number, lo, offset + count, shared) {
        Ok(met) => fill_over(alloc, blocks, found, offset, count, byte, met, shared),
        Err(why) => Err(refusal_of(why)),
    }
}

/// Plans to put `byte` into a file that was found, `count` times from `offset` on, where snapshots keep so many of the
/// blocks that these touch.
///
/// # Errors
/// As `plan_fill`.
fn fill_over<'a, S: Blocks>(
    alloc: Global,
    blocks: &mut S,
    found: &NodeFound,
    offset: u32,
    count: u32,
    byte: u8,
    met: u32,
    shared: &'a Shared,
) -> Result<Plan<'a>, Refusal>
    requires may { MayPlan S.tells (S.state blocks.old) shared.now }
    requires number { IsNumber (S.state blocks.old).books.geom.i found.now.number }
    requires file { IsTrue S.tells → IsFile (files_in (S.state blocks.old) nothing_drafted) found.now }
    requires some { 0 < count }
    requires fits { offset + count ≤ 1073741824 }
    requires met { IsTrue S.tells → MeetsKept (S.state blocks.old) shared.now found.now.number
        (min offset (min found.now.facts.size 1073741824)) (offset + count) met }
    requires few { met ≤ 1048576 }
    ensures plans { (path : List (List ℕ)) → (IsTrue S.tells
        → walk_on (inodes_of (S.state blocks.old).books.geom.layout (files_in (S.state blocks.old) nothing_drafted)) 1 path ≡ Fine found.now.number)
        → Plans S.tells (Fill path offset count byte) result (S.state blocks.old) (S.state blocks.new) }
    ensures made { OnChange result (λ draft cost nodes. MayBeMade S.tells draft cost nodes (S.state blocks.new)) }
{
    calls_compose::<S>();
    a_file_is_at_its_path(blocks, shared);
    counts_tell_what_is_shared::<S>();
    the_map_gives_the_refusal();
    let bitmap = blocks.geom().bitmap_blocks();
    let figures = overwrite_figures(bitmap, size_of(found), offset, count, met);
    match has_room(blocks, &figures) {
        Ok(()) => {}
        Err(why) => return Err(why),
    }
    match vec![in alloc; byte; count as usize] {
        Ok(bytes) => plan_bytes(
            alloc,
            blocks,
            found.number,
            offset,
            bytes.as_slice(),
            figures.cost,
            shared,
        ),
        Err(_) => Err(Refusal::NoMemory),
    }
}
