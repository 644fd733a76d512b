//! What a draft adds to a commit at most.

ghost use Rattle.std.specs.Prelude.{◌≡◌, ◌≤◌, ◌-◌, ◌^◌, ℕ, List, min};
ghost use Rattle.std.specs.Map.{keys_of};
ghost use Rattle.fs_files.specs.Finish.{price, ChangesOnly};

use crate::draft::Draft;
use layout_geometry::Geom;

impl<'a> Draft<'a> {
    /// What finishing the draft adds at most to 25 times the payloads and the fresh blocks of a commit: 25
    /// for each changed block, one for each block of new content, and 25 for each block of the bitmap
    /// that may have bits to change. It stops at 2^64 - 1.
    pub fn price(&self, geom: &Geom) -> u64
        ensures value { result ≡ min (price geom.now (keys_of self.now.changed) self.now) (2 ^ 64 - 1) }
        ensures all { ChangesOnly (keys_of self.now.changed) self.now }
        ensures least { (bs : List ℕ) → ChangesOnly bs self.now → result ≤ price geom.now bs self.now }
    {
        self.one_change_each();
        let (changed, fresh, taken, freed) = self.counts();
        let bitmap = u64::from(geom.bitmap_blocks());
        let bits = 25 * taken.min(bitmap) + 25 * freed.min(bitmap);
        25u64
            .saturating_mul(changed)
            .saturating_add(fresh)
            .saturating_add(bits)
    }
}
