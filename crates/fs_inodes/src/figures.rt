//! How many blocks the tree and each command take, from the sizes of inodes and from what snapshots keep. The
//! function does nothing but call laws.

ghost use Rattle.std.specs.Prelude.{◌≡◌, ◌+◌, ℕ, false};
ghost use Rattle.std.specs.FinMap.{entries};
ghost use Rattle.lang_tree.specs.declared.command.Cmd.{Cmd};
ghost use Rattle.lang_tree.specs.Tree.{Bounds, Tree};
ghost use Rattle.lang_tree.specs.Conditions.{least_unused};
ghost use Rattle.lang_tree.specs.Figures.{all_directory_blocks, blocks, figures};
ghost use Rattle.lang_tree.specs.Sharing.{BlocksAlone, SharedNodes, figures_over};
ghost use Rattle.lang_tree.specs.Step.{Session, step, changes_snapshots};
ghost use Rattle.crash_stands.specs.Inodes.{Inodes};
ghost use Rattle.crash_stands.specs.Maps.{IsMapOf};
ghost use Rattle.fs_inodes.specs.Figures.{blocks_of, cost_over, directories_from};

use crate::tree::the_tree_is_lawful;
use lang_tree::the_figures_are_the_blocks;

/// The blocks of a tree, and of its directories alone, are those of its inodes, and the figures of each command come
/// from inodes, from snapshots and from what these share with the tree or have alone. After a command that is no snap
/// or unsnap the inode map has so many blocks more as it needs where nothing is shared, and so many fewer as it frees.
pub fn the_map_gives_the_figures()
    ensures blocks { (limit : Bounds) (m : Inodes) (t : Tree) → IsMapOf limit.nodes m t → blocks limit.layout t ≡ blocks_of limit m }
    ensures directories { (limit : Bounds) (m : Inodes) (t : Tree) → IsMapOf limit.nodes m t
        → directories_from limit.layout m 1 limit.nodes ≡ all_directory_blocks limit.layout t.names (entries t.names) }
    ensures over { (bitmap : ℕ) (shared : SharedNodes) (alone : BlocksAlone) (s : Session) (m : Inodes) (cmd : Cmd) → IsMapOf s.limit.nodes m s.tree
        → figures_over bitmap shared alone s cmd ≡ cost_over bitmap shared alone s.limit (least_unused s.limit.nodes s.tree) s.tree.snapshots m cmd }
    ensures change { (bitmap : ℕ) (s : Session) (m new : Inodes) (cmd : Cmd) → changes_snapshots cmd ≡ false → IsMapOf s.limit.nodes m s.tree
        → IsMapOf s.limit.nodes new (step s cmd).0.tree
        → blocks_of s.limit new + (figures bitmap s cmd).freed ≡ blocks_of s.limit m + (figures bitmap s cmd).need }
{
    the_tree_is_lawful();
    the_figures_are_the_blocks();
}
