//! Why a command is refused, from inodes alone. The function does nothing but call laws.

ghost use Rattle.std.specs.Prelude.{◌≡◌, ℕ};
ghost use Rattle.std.specs.FinMap.{empty};
ghost use Rattle.lang_tree.specs.declared.command.Cmd.{Cmd};
ghost use Rattle.lang_tree.specs.Tree.{Bounds, Tree};
ghost use Rattle.lang_tree.specs.Conditions.{least_unused, refusal};
ghost use Rattle.crash_stands.specs.Inodes.{Inodes};
ghost use Rattle.crash_stands.specs.Maps.{IsMapOf};
ghost use Rattle.fs_inodes.specs.Lookups.{least_free};
ghost use Rattle.fs_inodes.specs.Refusals.{reason};

use crate::tree::the_tree_is_lawful;

/// The tree refuses each command for the reason that the layout, the inode map, the least unused number and the
/// snapshots give, and not at all where they give none. In a tree without snapshots that number is the least that no inode has.
pub fn the_map_gives_the_refusal()
    ensures refusal { (limit : Bounds) (m : Inodes) (t : Tree) (cmd : Cmd) → IsMapOf limit.nodes m t
        → refusal limit t cmd ≡ reason limit.layout (least_unused limit.nodes t) t.snapshots m cmd }
    ensures unused { (limit : ℕ) (m : Inodes) (t : Tree) → IsMapOf limit m t → t.snapshots ≡ empty → least_unused limit t ≡ least_free limit m }
{
    the_tree_is_lawful();
}
