//! What holds of every geometry: its numbers are within their limits, and its areas part the disk.
//! The functions do nothing; their clauses are the laws.

ghost use Rattle.std.specs.Prelude.{◌≡◌, ◌↔◌, ◌<◌, ℕ, true};
ghost use Rattle.layout_geometry.specs.Geometry.{Geometry, Area, LiesIn, IsGeometry, geometry_fits};

/// The numbers of a geometry are within their limits, and such numbers are a geometry's.
pub fn geometries_are_within_limits()
    ensures { (g : Geometry) → (geometry_fits g ≡ true) ↔ IsGeometry g }
{}

/// Each block of a disk lies in one area and in no other, and each block of an area is the disk's.
pub fn areas_part_the_disk()
    ensures lies { (g : Geometry) (b : ℕ) → geometry_fits g ≡ true → b < g.n → (a : Area) × LiesIn g a b }
    ensures alone { (g : Geometry) (a other : Area) (b : ℕ) → geometry_fits g ≡ true → LiesIn g a b → LiesIn g other b → other ≡ a }
    ensures within { (g : Geometry) (a : Area) (b : ℕ) → geometry_fits g ≡ true → LiesIn g a b → b < g.n }
{}
