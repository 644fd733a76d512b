//! The value of a journal header, which is in one of the two header slots of a disk.

use layout_geometry::Geom;

/// What a header says of the journal and the disk.
#[derive(Clone, Copy)]
pub struct Header {
    /// Raised by each mount, so that records of earlier sessions can be distinguished.
    pub epoch: u64,
    /// Raised by each header; the newest one counts.
    pub turn: u64,
    /// The number of the oldest record still in the journal.
    pub start: u64,
    /// Durable up to: all records up to this number are on the disk in whole.
    pub sure: u64,
    /// The ring place at which record `start` begins or will begin.
    pub at: u32,
    /// Whether no record past `sure` counts.
    pub closed: bool,
    pub geom: Geom,
}
