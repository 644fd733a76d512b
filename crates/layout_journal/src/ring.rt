//! The places of the journal's ring: a run of taken ones, modulo their number, which grows at one end and
//! shrinks at the other. Which record has which of them isn't its matter.

ghost use Rattle.std.specs.Prelude.{◌≡◌, ◌≤◌, ◌<◌, ◌+◌, ◌-◌};
ghost use Rattle.layout_geometry.specs.Geometry.{ring_block};
ghost use Rattle.layout_journal.specs.Ring.{RingPlaces, with_places, without_places};

use layout_geometry::Geom;
use std::marker::Model;

/// The taken places of the ring, and where the next record will begin.
#[derive(Clone, Copy)]
pub struct Ring {
    geom: Geom,
    next: u32,
    taken: u32,
}

impl Model for Ring {
    ghost use Rattle.std.specs.Prelude.{◌≡◌, ◌≤◌, ◌<◌};
    ghost use Rattle.layout_journal.specs.Ring.{RingPlaces};

    ghost Value = { RingPlaces };

    ghost view = { λ r. record { geom = r.geom; next = r.next; taken = r.taken } };

    ghost invariant = { λ r. (r.next < r.geom.j) × (r.taken ≤ r.geom.j) };

    ghost inverse = { λ r. record { geom = r.geom; next = r.next; taken = r.taken } };
}

impl Ring {
    /// A ring of which no place is taken. Its first record will begin at place 0.
    pub fn new(geom: &Geom) -> Ring
        ensures { result ≡ record { geom = geom.now; next = 0; taken = 0 } }
    {
        geom.lawful();
        Ring {
            geom: *geom,
            next: 0,
            taken: 0,
        }
    }

    /// Does nothing. A proof learns from the call that the numbers are those of a ring.
    pub fn lawful(&self)
        ensures next { self.now.next < self.now.geom.j }
        ensures taken { self.now.taken ≤ self.now.geom.j }
    {
        let _ = &self.next;
    }

    /// The geometry of the disk that the ring is on.
    pub fn geom(&self) -> Geom
        ensures { result ≡ self.now.geom }
    {
        self.geom
    }

    /// How many places are free.
    pub fn free(&self) -> u32
        ensures { result ≡ self.now.geom.j - self.now.taken }
    {
        self.geom.j() - self.taken
    }

    /// Takes so many places, which must be free, and gives the first.
    pub fn take(&mut self, places: u32) -> u32
        requires { self.old.taken + places ≤ self.old.geom.j }
        ensures first { result ≡ self.old.next }
        ensures places { self.new ≡ with_places self.old places }
    {
        self.geom.lawful();
        let first = self.next;
        self.next = (self.next + places) % self.geom.j();
        self.taken += places;
        first
    }

    /// Gives the oldest taken places back.
    pub fn release(&mut self, places: u32)
        requires { places ≤ self.old.taken }
        ensures { self.new ≡ without_places self.old places }
    {
        self.taken -= places;
    }
}

/// The block of a ring place; the place may be past the ring's end, and then counts from its beginning.
pub fn ring_block(geom: &Geom, place: u32) -> u32
    ensures block { result ≡ ring_block geom.now place }
    ensures below { result < geom.now.n }
{
    geom.lawful();
    2 + place % geom.j()
}
