//! What holds of images that have the formatted disk's blocks before the data. The function does nothing; its clause
//! is the law.

ghost use Rattle.std.specs.Prelude.{◌≡◌, ◌<◌, ℕ, true};
ghost use Rattle.base_types.specs.Seal.{Blocks};
ghost use Rattle.layout_geometry.specs.Geometry.{Geometry, data_start, geometry_fits};
ghost use Rattle.layout_journal.specs.Formatted.{formatted};
ghost use Rattle.cmd_session.specs.Images.{CanBeMounted};

use layout_geometry::geometries_are_within_limits;
use layout_journal::{
    journal_blocks_are_told_apart, journal_blocks_read_back, the_formatted_disk_is_empty,
};

/// An image that has the formatted disk's blocks before the data can be mounted, whatever its data are.
pub fn a_formatted_image_can_be_mounted()
    ensures { (g : Geometry) (at : Blocks) → geometry_fits g ≡ true → ((b : ℕ) → b < data_start g → at b ≡ formatted g b) → CanBeMounted g.n at }
{
    geometries_are_within_limits();
    journal_blocks_read_back();
    journal_blocks_are_told_apart();
    the_formatted_disk_is_empty();
}
