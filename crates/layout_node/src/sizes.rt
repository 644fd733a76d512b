//! The places and sizes of a node's parts, in bytes. Its own size is `Layout::node_length`, and the
//! limits of its numbers are those of `base_types::limits`.

/// Where the bytes begin that carry nothing, behind a node's size.
pub const SPARE_AT: usize = 16;

/// Where a node's runs begin.
pub const RUNS_AT: usize = 32;

/// The bytes of a run.
pub const RUN_LENGTH: usize = 8;
