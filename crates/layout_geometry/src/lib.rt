//! The geometry of a disk: how many blocks, journal blocks and nodes it has, and which blocks are its
//! headers, journal, bitmap, node table and data. It reads and writes no block. The rules are described in
//! docs/LAYOUT.md.
#![tactic(auto)]

mod geom;
mod laws;

pub use geom::{BITS_IN_BLOCK, BadShape, Geom};
pub use laws::{areas_part_the_disk, geometries_are_within_limits};
