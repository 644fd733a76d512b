//! What holds of images that have the formatted disk's blocks before the data. The function does nothing;
//! its clauses are the law.

ghost use Rattle.std.specs.Prelude.{◌≡◌, ◌<◌, ℕ, true};
ghost use Rattle.base_types.specs.Seal.{Blocks};
ghost use Rattle.layout_geometry.specs.Geometry.{Geometry, geometry_fits, data_start};
ghost use Rattle.layout_journal.specs.Formatted.{formatted};
ghost use Rattle.layout_journal.specs.Run.{HeldIs, live_part};
ghost use Rattle.crash_stands.specs.Bounds.{bounds_of};
ghost use Rattle.crash_stands.specs.Stands.{StandsFor};
ghost use Rattle.lang_tree.specs.Step.{start};

use crash_stands::the_formatted_disk_stands_for_the_root;
use layout_geometry::geometries_are_within_limits;
use layout_journal::{journal_blocks_read_back, the_formatted_disk_is_empty};

/// What is in the data of a formatted disk may be anything: each image that has the formatted disk's blocks
/// before the data holds that disk's live blocks, under a header of its geometry, and stands for the root alone.
pub fn the_data_of_a_formatted_disk_may_be_anything()
    ensures held { (g : Geometry) (img : Blocks) → geometry_fits g ≡ true → ((b : ℕ) → b < data_start g → img b ≡ formatted g b)
        → (held : HeldIs g.n img (live_part g (formatted g))) × (held.header.geom ≡ g) }
    ensures stands { (g : Geometry) (img : Blocks) → geometry_fits g ≡ true → ((b : ℕ) → b < data_start g → img b ≡ formatted g b)
        → StandsFor g.n img (start (bounds_of g)).tree }
{
    geometries_are_within_limits();
    journal_blocks_read_back();
    the_formatted_disk_stands_for_the_root();
    the_formatted_disk_is_empty();
}
