//! The three numbers of a geometry, which are always within their limits, its layout, and the starts of its areas.
//! Which bytes are in the areas is described by the crates of the layout.

ghost use Rattle.std.specs.Prelude.{◌≡◌, ◌↔◌, ◌≤◌, ◌+◌, ◌-◌, ◌*◌, ◌/◌, ◌%◌, ◌&&◌, true, nat_le, IsOk, IfOk};
ghost use Rattle.base_types.specs.declared.layout.Layout.TheVariants.{One};
ghost use Rattle.base_types.specs.Layouts.{node_block, node_byte};
ghost use Rattle.layout_geometry.specs.Geometry.{geometry_fits, IsGeometry, LiesIn, bitmap_blocks, bitmap_start};
ghost use Rattle.layout_geometry.specs.Geometry.{table_start, data_start};
ghost use Rattle.layout_geometry.specs.Geometry.Area.{Table};

use base_types::limits::{
    LEAST_BLOCKS, LEAST_DATA, LEAST_JOURNAL, LEAST_NODES, MOST_BLOCKS, MOST_JOURNAL, MOST_NODES,
};
use base_types::{Layout, nodes_lie_in_their_blocks};
use std::error::Error;
use std::fmt;
use std::marker::Model;

/// How many header slots are before the journal.
const HEADERS: u32 = 2;

/// How many bits a block of the bitmap has.
pub const BITS_IN_BLOCK: u32 = 8192;

/// What the number of nodes is a multiple of.
const NODES_MULTIPLE: u32 = 4;

/// The numbers are no geometry: one is out of its range, or the areas don't fit.
#[derive(Clone, Copy, Debug)]
pub struct BadShape;

impl fmt::Display for BadShape {
    fn fmt<W: fmt::Write>(&self, f: &mut fmt::Formatter<W>) -> fmt::Result {
        write!(f, "no geometry has these numbers")
    }
}

impl Error for BadShape {}

/// The shape of a disk: so many blocks, journal blocks and nodes, within their limits, and the layout of
/// its nodes and slots.
#[derive(Clone, Copy)]
pub struct Geom {
    n: u32,
    j: u32,
    i: u32,
    layout: Layout,
}

impl Model for Geom {
    ghost use Rattle.std.specs.Prelude.{◌≡◌, true};
    ghost use Rattle.layout_geometry.specs.Geometry.{Geometry, geometry_fits};

    ghost Value = { Geometry };

    ghost view = { λ g. record { n = g.n; j = g.j; i = g.i; layout = g.layout } };

    ghost invariant = { λ g. geometry_fits (record { n = g.n; j = g.j; i = g.i; layout = g.layout }) ≡ true };

    ghost inverse = { λ g. record { n = g.n; j = g.j; i = g.i; layout = g.layout } };
}

impl Geom {
    /// The geometry of `n` blocks, `j` journal blocks and `i` nodes in layout 1. This takes no memory.
    ///
    /// # Errors
    /// The numbers are no geometry's.
    pub fn new(n: u32, j: u32, i: u32) -> Result<Geom, BadShape>
        ensures exact { IsOk result ↔ (geometry_fits (record { n = n; j = j; i = i; layout = One }) ≡ true) }
        ensures value { IfOk result (λ geom. geom ≡ record { n = n; j = j; i = i; layout = One }) }
    {
        Geom::new_in(n, j, i, Layout::One)
    }

    /// The geometry of `n` blocks, `j` journal blocks and `i` nodes in this layout. This takes no memory.
    ///
    /// # Errors
    /// The numbers are no geometry's.
    pub fn new_in(n: u32, j: u32, i: u32, layout: Layout) -> Result<Geom, BadShape>
        ensures exact { IsOk result ↔ (geometry_fits (record { n = n; j = j; i = i; layout = layout }) ≡ true) }
        ensures value { IfOk result (λ geom. geom ≡ record { n = n; j = j; i = i; layout = layout }) }
    {
        if !fits(n, j, i, layout) {
            return Err(BadShape);
        }
        Ok(Geom { n, j, i, layout })
    }

    /// How many blocks the disk has.
    pub fn n(&self) -> u32
        ensures { result ≡ self.now.n }
    {
        self.n
    }

    /// How many blocks the journal has.
    pub fn j(&self) -> u32
        ensures { result ≡ self.now.j }
    {
        self.j
    }

    /// How many nodes there are, the root among them.
    pub fn i(&self) -> u32
        ensures { result ≡ self.now.i }
    {
        self.i
    }

    /// How its nodes and slots are laid out.
    pub fn layout(&self) -> Layout
        ensures { result ≡ self.now.layout }
    {
        self.layout
    }

    /// Does nothing. A proof learns from the call that the numbers are within their limits.
    pub fn lawful(&self)
        ensures fits { geometry_fits self.now ≡ true }
        ensures limits { IsGeometry self.now }
    {
        let _ = &self.n;
    }

    /// How many blocks the bitmap has: a bit for each block of the disk.
    pub fn bitmap_blocks(&self) -> u32
        ensures { result ≡ bitmap_blocks self.now }
    {
        self.lawful();
        bitmap_blocks(self.n)
    }

    /// The first block of the bitmap.
    pub fn bitmap_start(&self) -> u32
        ensures { result ≡ bitmap_start self.now }
    {
        self.lawful();
        self.j + HEADERS
    }

    /// The first block of the node table.
    pub fn table_start(&self) -> u32
        ensures { result ≡ table_start self.now }
    {
        self.lawful();
        self.bitmap_start() + self.bitmap_blocks()
    }

    /// The first block of the data.
    pub fn data_start(&self) -> u32
        ensures { result ≡ data_start self.now }
    {
        self.lawful();
        self.table_start() + self.layout.table_blocks(self.i)
    }

    /// Where a node stands: its block in the node table, and its first byte there.
    pub fn node_place(&self, number: u32) -> (u32, u32)
        requires above_zero { 1 ≤ number }
        requires in_table { number ≤ self.now.i }
        ensures block { result.0 ≡ table_start self.now + node_block self.now.layout number }
        ensures byte { result.1 ≡ node_byte self.now.layout number }
        ensures lies { LiesIn self.now Table result.0 }
    {
        self.lawful();
        nodes_lie_in_their_blocks();
        let block = self.table_start() + self.layout.node_block(number);
        (block, self.layout.node_byte(number))
    }
}

#[tactic(auto, unfolding(crate::specs::Geometry::geometry_fits))]
fn fits(n: u32, j: u32, i: u32, layout: Layout) -> bool
    ensures { result ≡ geometry_fits (record { n = n; j = j; i = i; layout = layout }) }
{
    if !is_between(n, LEAST_BLOCKS, MOST_BLOCKS) {
        return false;
    }
    if !is_between(j, LEAST_JOURNAL, MOST_JOURNAL) {
        return false;
    }
    if !is_between(i, LEAST_NODES, MOST_NODES) {
        return false;
    }
    if i % NODES_MULTIPLE != 0 {
        return false;
    }
    let bitmap = bitmap_blocks(n);
    if HEADERS + j + bitmap + layout.table_blocks(i) + LEAST_DATA > n {
        return false;
    }
    25 * (7 + bitmap) <= 24 * (j - 2)
}

fn bitmap_blocks(n: u32) -> u32
    requires { n ≤ 1048576 }
    ensures { result ≡ (n + 8191) / 8192 }
{
    (n + (BITS_IN_BLOCK - 1)) / BITS_IN_BLOCK
}

fn is_between(number: u32, least: u32, most: u32) -> bool
    ensures { result ≡ nat_le least number && nat_le number most }
{
    least <= number && number <= most
}
