//! The law of the formatted disk's blocks, an empty function whose clauses say it. Laws of the journal are in
//! laws.rt.

ghost use Rattle.std.specs.Prelude.{◌≡◌, ◌-◌, ◌*◌, ◌<◌, ◌≤◌, ◌++◌, ℕ, nat_lt, true, length, replicate};
ghost use Rattle.layout_geometry.specs.Geometry.{Geometry, geometry_fits, bitmap_blocks, bitmap_start, table_start, data_start};
ghost use Rattle.layout_bytes.specs.Bitmap.{is_set};
ghost use Rattle.layout_bytes.specs.Node.{node_size, node_spelling};
ghost use Rattle.layout_journal.specs.Formatted.{formatted, empty_root};

use layout_geometry::geometries_are_within_limits;

/// A formatted disk has no data: the bits of the blocks before the data are set and no others, and from
/// the data on it has zeros. Behind its first header and before its bitmap it has zeros, in the first block
/// of its node table the root and zeros, and in the others zeros. Each of its blocks is whole.
pub fn the_formatted_disk_is_empty()
    ensures bits { (g : Geometry) (b : ℕ) → geometry_fits g ≡ true → b < 8192 * bitmap_blocks g → is_set g (formatted g) b ≡ nat_lt b (data_start g) }
    ensures zeros { (g : Geometry) (b : ℕ) → geometry_fits g ≡ true → data_start g ≤ b → formatted g b ≡ replicate 1024 0 }
    ensures journal { (g : Geometry) (b : ℕ) → 0 < b → b < bitmap_start g → formatted g b ≡ replicate 1024 0 }
    ensures root { (g : Geometry) → formatted g (table_start g) ≡ node_spelling g.layout empty_root ++ replicate (1024 - node_size g.layout) 0 }
    ensures nodes { (g : Geometry) (b : ℕ) → table_start g < b → formatted g b ≡ replicate 1024 0 }
    ensures whole { (g : Geometry) (b : ℕ) → length (formatted g b) ≡ 1024 }
{
    geometries_are_within_limits();
}
