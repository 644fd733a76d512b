//! Which drafts are within the cost of a command, by how much they change at most. The function does
//! nothing.

ghost use Rattle.std.specs.Prelude.{◌+◌, ◌-◌, ℕ, max};
ghost use Rattle.layout_geometry.specs.Geometry.{Geometry, bitmap_blocks};
ghost use Rattle.lang_tree.specs.Figures as spec;
ghost use Rattle.lang_tree.specs.Sharing.{SharedPlaces, shared_met, writing_over};
ghost use Rattle.fs_files.specs.Drafts.{DraftState};
ghost use Rattle.fs_session.specs.Changes.{ChangesAtMost, IsWithinCost};

/// A draft is within the cost of a name less in a directory, of bytes from `lo` up to `hi` that come into a
/// file, or of a file that loses blocks, where it changes no more than these.
pub(crate) fn small_drafts_are_within_the_cost()
    ensures removing { (g : Geometry) (d : DraftState) (freed : ℕ) → ChangesAtMost d 4 0 0 freed
        → IsWithinCost g d (spec.removing (bitmap_blocks g) freed).cost }
    ensures writing { (g : Geometry) (d : DraftState) (shared : SharedPlaces) (size lo hi : ℕ)
        → ChangesAtMost d (spec.blocks_met size lo hi - shared_met shared size lo hi + 1)
        (shared_met shared size lo hi + (spec.blocks_for (max size hi) - spec.blocks_for size))
        (shared_met shared size lo hi + (spec.blocks_for (max size hi) - spec.blocks_for size)) 0
        → IsWithinCost g d (writing_over (bitmap_blocks g) shared size lo hi).cost }
    ensures shrinking { (g : Geometry) (d : DraftState) (freed : ℕ) → ChangesAtMost d 1 0 0 freed
        → IsWithinCost g d (spec.shrinking (bitmap_blocks g) freed).cost }
{}
