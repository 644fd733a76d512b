//! The image of a formatted disk, block by block.

ghost use Rattle.std.specs.Prelude.{◌≡◌, ◌<◌, ℕ, length, IfOk};
ghost use Rattle.base_types.specs.Seal.{blocks_of};
ghost use Rattle.layout_journal.specs.Formatted.{formatted};

use base_types::NoMemory;
use disk_memory::Image;
use layout_geometry::Geom;
use layout_journal::{formatted_block, the_formatted_disk_is_empty};
use std::alloc::Global;

/// The image of a disk that was just formatted with this geometry.
///
/// # Errors
/// Out of memory.
pub fn formatted_image(alloc: Global, geom: &Geom) -> Result<Image, NoMemory>
    ensures size { IfOk result (λ image. length image ≡ geom.now.n) }
    ensures blocks { IfOk result (λ image. (b : ℕ) → b < geom.now.n → blocks_of image b ≡ formatted geom.now b) }
{
    geom.lawful();
    the_formatted_disk_is_empty();
    let mut image = Image::zeros(alloc, geom.n())?;
    for b in 0..geom.data_start() {
        image.set(alloc, b, &formatted_block(geom, b))?;
    }
    Ok(image)
}
