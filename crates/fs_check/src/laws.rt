//! The laws of what a check finds, each a function that does nothing: its clauses are the law.

ghost use Rattle.base_types.specs.Seal.{Blocks};
ghost use Rattle.fs_check.specs.Broken.{IsBroken};
ghost use Rattle.fs_check.specs.BrokenSnapshots.{IsBroken as IsBrokenSnapshot};
ghost use Rattle.fs_check.specs.declared.block_damage.BlockDamage.{BlockDamage};
ghost use Rattle.fs_check.specs.declared.snapshot_damage.SnapshotDamage.{SnapshotDamage};
ghost use Rattle.layout_geometry.specs.Geometry.{Geometry};
ghost use Rattle.crash_stands.specs.Stands.{AreSound, IsTreeOf};
ghost use Rattle.lang_tree.specs.Tree.{Tree};

use crash_stands::{a_map_is_of_one_tree, files_have_one_map};
use fs_inodes::the_rules_make_a_tree;

/// Where something is broken in blocks they aren't sound, and stand for no tree.
pub fn broken_blocks_are_not_sound()
    ensures sound { (g : Geometry) (m : Blocks) (damage : BlockDamage) → IsBroken g m damage → AreSound g m → ⊥ }
    ensures tree { (g : Geometry) (m : Blocks) (damage : BlockDamage) (t : Tree) → IsBroken g m damage → IsTreeOf g m t → ⊥ }
{}

/// Where something is broken in a snapshot the blocks stand for no tree.
pub fn no_tree_stands_where_a_snapshot_is_broken()
    ensures { (g : Geometry) (m : Blocks) (damage : SnapshotDamage) (t : Tree) → IsBrokenSnapshot g m damage → IsTreeOf g m t → ⊥ }
{
    the_rules_make_a_tree();
    a_map_is_of_one_tree();
    files_have_one_map();
}
