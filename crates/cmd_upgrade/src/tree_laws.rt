//! Laws of trees that images stand for: that they can be made again, and how a walk finds their paths. The functions do
//! nothing; their clauses are the laws.

ghost use Rattle.std.specs.Prelude.{◌≡◌, ◌≤◌, ◌+◌, ◌++◌, ℕ, true, List, [], length, Some};
ghost use Rattle.std.specs.FinMap.{get, len};
ghost use Rattle.std.specs.List.{flat_map};
ghost use Rattle.base_types.specs.declared.layout.Layout.{Layout};
ghost use Rattle.base_types.specs.declared.layout.Layout.TheVariants.{Two};
ghost use Rattle.base_types.specs.Layouts.{directory_blocks};
ghost use Rattle.base_types.specs.Seal.{Blocks};
ghost use Rattle.layout_geometry.specs.Geometry.{Geometry, geometry_fits};
ghost use Rattle.layout_journal.specs.declared.header.Header.{Header};
ghost use Rattle.layout_journal.specs.Run.{IsRun, Newest, Record};
ghost use Rattle.engine_recover.specs.Search.{last_number};
ghost use Rattle.lang_tree.specs.Names.{names_in};
ghost use Rattle.lang_tree.specs.Tree.{File, Tree};
ghost use Rattle.lang_making.specs.Making.{paths_in, paths_made};
ghost use Rattle.crash_stands.specs.Stands.{StandsFor};
ghost use Rattle.cmd_image.specs.Makes.{IsFormattedImage};
ghost use Rattle.cmd_upgrade.specs.Plans.{CanBeMade, dirs_below, dirs_to_come, made_below};

use crash_stands::a_tree_that_stands_is_sound;
use fs_inodes::{a_listing_goes_down, the_map_gives_the_names};
use lang_making::layout_two_takes_all_names;
use lang_tree::paths_are_counted;
use layout_geometry::geometries_are_within_limits;
use layout_journal::{
    journal_blocks_are_told_apart, journal_blocks_read_back, the_formatted_disk_is_empty,
};

/// A tree that an image stands for can be made on a disk of layout 2 that has as many nodes.
pub(crate) fn a_tree_that_stands_can_be_made()
    ensures { (n : ℕ) (img : Blocks) (t : Tree) (g : Geometry) → StandsFor n img t → g.layout ≡ Two → len t.nodes ≤ g.i → CanBeMade g t }
{
    a_tree_that_stands_is_sound();
    paths_are_counted();
    layout_two_takes_all_names();
}

/// The paths that are made in the directories at and below one are first its own ones, and then those at and below them; and
/// so are the blocks of these directories. All paths are those at and below the root. Below a file nothing is made.
pub(crate) fn a_walk_finds_all_paths()
    ensures root { (t : Tree) → made_below t [] ≡ paths_made t.names }
    ensures made { (n k : ℕ) (img : Blocks) (t : Tree) (path : List (List ℕ)) → StandsFor n img t → get t.names path ≡ Some k
        → made_below t path ≡ paths_in t.names path ++ flat_map (made_below t) (paths_in t.names path) }
    ensures blocks { (l : Layout) (n k : ℕ) (img : Blocks) (t : Tree) (path : List (List ℕ)) → StandsFor n img t → get t.names path ≡ Some k
        → dirs_below l t path ≡ directory_blocks l (length (names_in t.names path)) + dirs_to_come l t (paths_in t.names path) }
    ensures file { (n k : ℕ) (img : Blocks) (t : Tree) (path : List (List ℕ)) (bytes : List ℕ) → StandsFor n img t → get t.names path ≡ Some k
        → get t.nodes k ≡ Some (File bytes) → made_below t path ≡ [] }
    ensures none { (l : Layout) (n k : ℕ) (img : Blocks) (t : Tree) (path : List (List ℕ)) (bytes : List ℕ) → StandsFor n img t → get t.names path ≡ Some k
        → get t.nodes k ≡ Some (File bytes) → dirs_below l t path ≡ 0 }
{
    a_listing_goes_down();
    the_map_gives_the_names();
}

/// The newest header of an image of the formatted disk has its geometry, and the journal's numbers begin there.
pub(crate) fn a_formatted_image_has_its_geometry()
    ensures geom { (g : Geometry) (n : ℕ) (img : Blocks) (slot : ℕ) (h : Header) → geometry_fits g ≡ true → IsFormattedImage g n img → Newest n img slot h
        → h.geom ≡ g }
    ensures numbers { (g : Geometry) (n : ℕ) (img : Blocks) (slot : ℕ) (h : Header) (records : List Record) → geometry_fits g ≡ true → IsFormattedImage g n img
        → Newest n img slot h → IsRun img h records → (h.turn ≡ 1) × (last_number h (length records) ≡ 0) }
{
    geometries_are_within_limits();
    the_formatted_disk_is_empty();
    journal_blocks_read_back();
    journal_blocks_are_told_apart();
}
