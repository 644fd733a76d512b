//! The values of a record's own blocks: its commit block and its descriptors.

use crate::Entries;

/// What a commit block says of its record.
#[derive(Clone, Copy)]
pub struct Commit {
    pub epoch: u64,
    /// The record's number.
    pub number: u64,
    /// How many descriptors, payloads and fresh blocks it has.
    pub descriptors: u32,
    pub payloads: u32,
    pub fresh: u32,
}

/// What one descriptor of a record says.
#[derive(Drop)]
pub struct Descriptor {
    pub epoch: u64,
    /// The record's number.
    pub number: u64,
    /// Its place among the record's descriptors, from 0.
    pub index: u32,
    pub entries: Entries,
}
