//! The check that the nodes of a map of blocks are those of a tree. Whether its blocks are sound is checked
//! elsewhere, and comes first.

ghost use Rattle.std.specs.Prelude.{◌≡◌, ℕ, false, IsTrue, IfErr, OnOk};
ghost use Rattle.base_types.specs.Seal.{Blocks as BlockMap};
ghost use Rattle.layout_geometry.specs.Geometry.{Geometry};
ghost use Rattle.lang_tree.specs.Tree.{Tree};
ghost use Rattle.crash_stands.specs.Bounds.{bounds_of};
ghost use Rattle.crash_stands.specs.Files.{files_of};
ghost use Rattle.crash_stands.specs.Stands.{AreSound, IsTreeOf};
ghost use Rattle.engine_blocks.specs.Running.{HasNoBare};
ghost use Rattle.fs_files.specs.Asks.{MayRead};
ghost use Rattle.fs_files.specs.Effects.{LooksOnly};
ghost use Rattle.fs_files.specs.Shared.{is_kept};
ghost use Rattle.fs_files.specs.Sound.{TellsKept};
ghost use Rattle.fs_check.specs.declared.damage.TreeDamage.{TreeDamage as DamageValue};
ghost use Rattle.fs_check.specs.Damage.{IsBroken};
ghost use Rattle.fs_check.specs.Looked.{AreSeen, HasPlaces};
ghost use Rattle.fs_check.specs.Marks.{WasDir};
ghost use Rattle.fs_check.specs.Reading.{IfDamaged, fails_reading};
ghost use Rattle.fs_check.specs.Rules.{AreTreeFiles};

use crate::census::look_at_nodes;
use crate::damage::{TreeDamage, TreeRefusal};
use crate::directories::check_directories;
use crate::judge::judge;
use crate::looked::{Looked, seen};
use crate::reach::reach;
use crash_stands::{a_map_is_of_one_tree, files_have_one_map};
use engine_blocks::Blocks;
use fs_files::{Draft, Nodes, Shared, a_draft_begins, sound_beside_what_is_kept};
use fs_inodes::the_rules_make_a_tree;
use std::alloc::Global;

/// Checks that the nodes of a map of blocks are those of a tree, snapshots aside. Where the blocks are known they are
/// sound, and the counts say which blocks snapshots keep. Blocks are read, and nothing else is done. The node table is
/// read once, and each directory twice.
///
/// # Errors
/// Something is broken; a read of the disk failed, which the disk has counted; or out of memory.
pub(crate) fn check_tree<S: Blocks>(
    alloc: Global,
    blocks: &mut S,
    shared: &Shared,
) -> Result<(), TreeRefusal>
    requires going { (S.state blocks.old).books.stopped ≡ false }
    requires none_bare { HasNoBare (S.state blocks.old).books.running }
    requires sound { IsTrue S.tells → AreSound (S.state blocks.old).books.geom (S.state blocks.old).map }
    requires kept { IsTrue S.tells → TellsKept (S.state blocks.old).books.geom (is_kept shared.now) (S.state blocks.old).map }
    ensures rules { IsTrue S.tells → OnOk result
        (AreTreeFiles (bounds_of (S.state blocks.old).books.geom) (files_of (S.state blocks.old).books.geom (S.state blocks.old).map)) }
    ensures broken { IsTrue S.tells → IfErr result
        (λ why. IfDamaged why (IsBroken (bounds_of (S.state blocks.old).books.geom) (files_of (S.state blocks.old).books.geom (S.state blocks.old).map))) }
    ensures looks { LooksOnly S.tells (fails_reading result) (S.state blocks.old) (S.state blocks.new) }
{
    a_draft_begins(blocks);
    sound_beside_what_is_kept();
    let draft = Draft::beside(alloc, shared);
    find_tree(&draft, alloc, blocks)?;
    Ok(())
}

/// No tree stands in blocks among whose nodes something is broken.
pub fn no_tree_stands_where_it_is_broken()
    ensures { (g : Geometry) (m : BlockMap) (what : DamageValue) (t : Tree) → IsBroken (bounds_of g) (files_of g m) what → IsTreeOf g m t → ⊥ }
{
    the_rules_make_a_tree();
    a_map_is_of_one_tree();
    files_have_one_map();
}

/// Checks that the nodes that are read are those of a tree.
///
/// # Errors
/// Something is broken; a read of the disk failed, which the disk has counted; or out of memory.
pub(crate) fn find_tree<N: Nodes, S: Blocks>(
    files: &N,
    alloc: Global,
    blocks: &mut S,
) -> Result<(), TreeRefusal>
    requires read { MayRead (N.may_read S.tells (S.state blocks.old) files.now) (S.state blocks.old) }
    ensures rules { IsTrue S.tells → OnOk result (AreTreeFiles (bounds_of (S.state blocks.old).books.geom) (N.nodes (S.state blocks.old) files.now).files) }
    ensures broken { IsTrue S.tells → IfErr result
        (λ why. IfDamaged why (IsBroken (bounds_of (S.state blocks.old).books.geom) (N.nodes (S.state blocks.old) files.now).files)) }
    ensures looks { LooksOnly S.tells (fails_reading result) (S.state blocks.old) (S.state blocks.new) }
{
    files.laws(blocks);
    let nodes = look_at_nodes(files, alloc, blocks)?;
    let list = nodes.as_slice();
    let Looked::Directory(_) = seen(list, 1) else {
        return Err(TreeRefusal::Damaged(TreeDamage::NoRoot));
    };
    judge_nodes(files, alloc, blocks, list)?;
    Ok(())
}

/// Checks nodes that were looked at, of which the first is a directory.
///
/// # Errors
/// Something is broken; a read of the disk failed, which the disk has counted; or out of memory.
fn judge_nodes<N: Nodes, S: Blocks>(
    files: &N,
    alloc: Global,
    blocks: &mut S,
    nodes: &[Looked],
) -> Result<(), TreeRefusal>
    requires read { MayRead (N.may_read S.tells (S.state blocks.old) files.now) (S.state blocks.old) }
    requires places { HasPlaces (S.state blocks.old).books.geom.i nodes.now }
    requires root { WasDir nodes.now 1 }
    requires seen { IsTrue S.tells → AreSeen (N.nodes (S.state blocks.old) files.now).files nodes.now }
    ensures rules { IsTrue S.tells → OnOk result (AreTreeFiles (bounds_of (S.state blocks.old).books.geom) (N.nodes (S.state blocks.old) files.now).files) }
    ensures broken { IsTrue S.tells → IfErr result
        (λ why. IfDamaged why (IsBroken (bounds_of (S.state blocks.old).books.geom) (N.nodes (S.state blocks.old) files.now).files)) }
    ensures looks { LooksOnly S.tells (fails_reading result) (S.state blocks.old) (S.state blocks.new) }
{
    files.laws(blocks);
    let named = check_directories(files, alloc, blocks, nodes)?;
    let marks = reach(files, alloc, blocks, nodes)?;
    judge(nodes, named.as_slice(), marks.as_slice())?;
    Ok(())
}
