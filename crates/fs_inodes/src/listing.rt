//! The listing of a tree, from directory to directory of its inode map. The function does nothing
//! but call laws.

ghost use Rattle.std.specs.Prelude.{◌≡◌, ◌++◌, ℕ, List, [], ◌∷◌, length, option_map};
ghost use Rattle.std.specs.List.{flat_map};
ghost use Rattle.std.specs.FinMap.{empty};
ghost use Rattle.lang_tree.specs.Tree.{Tree};
ghost use Rattle.lang_tree.specs.Listing.{line_of, path_lines, listing};
ghost use Rattle.crash_stands.specs.Inodes.{Inodes, thing_of};
ghost use Rattle.crash_stands.specs.Maps.{IsMapOf};
ghost use Rattle.crash_stands.specs.Walks.{LeadsTo};
ghost use Rattle.fs_inodes.specs.Lookups.{slots_of};
ghost use Rattle.fs_inodes.specs.Names.{names_of};
ghost use Rattle.fs_inodes.specs.Listing.{at_and_below, lines_below, links_from};

use crate::tree::the_tree_is_lawful;

/// The lines of a tree's paths are those at and below the root, and the listing of a tree without snapshots has
/// these. Those at and below a path are the path's own line and then, for each name of its slots in their order, the
/// lines at and below that; and so are the paths themselves. A path that leads to no directory has its own line
/// alone. There are as many paths as links.
pub fn a_listing_goes_down()
    ensures root { (t : Tree) → path_lines t.names t.nodes ≡ lines_below t [] }
    ensures whole { (t : Tree) → t.snapshots ≡ empty → listing t ≡ lines_below t [] }
    ensures lines { (limit : ℕ) (m : Inodes) (t : Tree) (path : List (List ℕ)) (node : ℕ) → IsMapOf limit m t → LeadsTo m path node
        → lines_below t path ≡ line_of path node (option_map thing_of (m node)) ++ flat_map (λ name. lines_below t (path ++ name ∷ []))
        (names_of (slots_of (m node))) }
    ensures paths { (limit : ℕ) (m : Inodes) (t : Tree) (path : List (List ℕ)) (node : ℕ) → IsMapOf limit m t → LeadsTo m path node
        → at_and_below t path ≡ (path, node) ∷ flat_map (λ name. at_and_below t (path ++ name ∷ [])) (names_of (slots_of (m node))) }
    ensures count { (limit : ℕ) (m : Inodes) (t : Tree) → IsMapOf limit m t → length (at_and_below t []) ≡ links_from m 1 limit }
{
    the_tree_is_lawful();
}
