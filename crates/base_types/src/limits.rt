//! The limits as named constants, in the units that their names say. Their reasons are in
//! docs/TREE.md, docs/SCRIPT.md and docs/LAYOUT.md.

/// The most bytes of a name, in any layout.
pub const LONGEST_NAME: usize = 255;

/// The most bytes of a snapshot's name, in any layout.
pub const LONGEST_SNAPSHOT_NAME: usize = 59;

/// The most bytes of a file: 1 GiB.
pub const LARGEST_FILE: u64 = 1_073_741_824;

/// The number of the root directory.
pub const ROOT: u32 = 1;

/// The most bytes that one `read` may ask for: 1 MiB.
pub const LONGEST_READ: u32 = 1_048_576;

/// The most bytes of a script line, without its line feed.
pub const LONGEST_LINE: usize = 262_144;

/// The most bytes of a whole script: 1 GiB.
pub const LONGEST_INPUT: u64 = 1_073_741_824;

/// The bytes of a block.
pub const BLOCK_LENGTH: usize = 1024;

/// The fewest blocks of a disk.
pub const LEAST_BLOCKS: u32 = 64;

/// The most blocks of a disk.
pub const MOST_BLOCKS: u32 = 1_048_576;

/// The fewest blocks of the journal.
pub const LEAST_JOURNAL: u32 = 16;

/// The most blocks of the journal.
pub const MOST_JOURNAL: u32 = 65_536;

/// The fewest nodes.
pub const LEAST_NODES: u32 = 16;

/// The most nodes.
pub const MOST_NODES: u32 = 65_536;

/// The fewest data blocks.
pub const LEAST_DATA: u32 = 8;

/// The most runs of a node, in any layout.
pub const MOST_RUNS: usize = 60;

/// The most bytes of a node, in any layout.
pub const LONGEST_NODE: usize = 512;

/// The most bytes of a directory slot, in any layout.
pub const LONGEST_SLOT: usize = 264;

/// What the size of a directory counts for each slot, in any layout.
pub const SIZE_OF_SLOT: u64 = 64;

/// The most links of a file.
pub const MOST_LINKS: u32 = 65_535;

/// The most notices that one tick of the pipeline takes.
pub const MOST_NOTICES: u32 = 64;

/// The least epoch, turn or number of a record from which no mount goes on: 2^63 - 16.
pub const SPENT_AT_MOUNT: u64 = 9_223_372_036_854_775_792;

/// The least number of a next turn or record by which a session is spent: 2^63 - 8.
pub const SPENT: u64 = 9_223_372_036_854_775_800;
