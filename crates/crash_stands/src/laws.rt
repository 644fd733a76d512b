//! What holds of blocks and images that stand for a tree. The functions do nothing; their clauses are
//! the laws.

ghost use Rattle.std.specs.Prelude.{◌≡◌, ◌<◌, ℕ, true};
ghost use Rattle.base_types.specs.Seal.{Blocks};
ghost use Rattle.layout_geometry.specs.Geometry.{Geometry, geometry_fits};
ghost use Rattle.layout_journal.specs.Formatted.{formatted};
ghost use Rattle.layout_journal.specs.Run.{live_part};
ghost use Rattle.crash_stands.specs.Bounds.{bounds_of};
ghost use Rattle.crash_stands.specs.Stands.{IsTreeOf, StandsFor};
ghost use Rattle.lang_tree.specs.Step.{start};
ghost use Rattle.lang_tree.specs.Tree.{Tree, IsSound, HasSoundSnapshots};

use layout_geometry::geometries_are_within_limits;
use layout_journal::{
    an_image_holds_one_map, images_alike_below_n_hold_the_same,
    journal_blocks_keep_to_their_bounds, journal_blocks_read_back, the_formatted_disk_holds_itself,
    the_formatted_disk_is_empty,
};

/// The formatted disk of a geometry stands for the root alone: its live blocks do, its image does, and
/// so does each image that has the same first n blocks.
pub fn the_formatted_disk_stands_for_the_root()
    ensures blocks { (g : Geometry) → geometry_fits g ≡ true → IsTreeOf g (live_part g (formatted g)) (start (bounds_of g)).tree }
    ensures image { (g : Geometry) → geometry_fits g ≡ true → StandsFor g.n (formatted g) (start (bounds_of g)).tree }
    ensures alike { (g : Geometry) (img : Blocks) → geometry_fits g ≡ true → ((b : ℕ) → b < g.n → img b ≡ formatted g b) → StandsFor g.n img (start (bounds_of g)).tree }
{
    geometries_are_within_limits();
    journal_blocks_read_back();
    the_formatted_disk_holds_itself();
    the_formatted_disk_is_empty();
    images_alike_below_n_hold_the_same();
}

/// What an image stands for rests on the first n blocks alone: images that are alike there stand for the
/// same tree, if for any.
pub fn images_alike_below_n_stand_for_the_same()
    ensures { (n : ℕ) (img other : Blocks) (t : Tree) → ((b : ℕ) → b < n → img b ≡ other b) → StandsFor n img t → StandsFor n other t }
{
    geometries_are_within_limits();
    journal_blocks_keep_to_their_bounds();
    an_image_holds_one_map();
    images_alike_below_n_hold_the_same();
}

/// Blocks stand for one tree at most, and so does an image.
pub fn an_image_stands_for_one_tree()
    ensures blocks { (g : Geometry) (m : Blocks) (t u : Tree) → IsTreeOf g m t → IsTreeOf g m u → t ≡ u }
    ensures image { (n : ℕ) (img : Blocks) (t u : Tree) → StandsFor n img t → StandsFor n img u → t ≡ u }
{
    an_image_holds_one_map();
}

/// A tree that blocks stand for is sound, and so are its snapshots.
pub fn a_tree_that_stands_is_sound()
    ensures sound { (g : Geometry) (m : Blocks) (t : Tree) → IsTreeOf g m t → IsSound g.i t }
    ensures snapshots { (g : Geometry) (m : Blocks) (t : Tree) → IsTreeOf g m t → HasSoundSnapshots g.i t }
{}
