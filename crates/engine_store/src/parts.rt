//! What a store has beside its disk. How its calls change it is the other modules' matter.

use engine_books::Books;
use engine_cache::BlockCache;
use engine_checkpoint::Pipeline;
use layout_journal::Ring;

/// The parts of a store. Point 0 is the map with which the session began, and point p was made by the record of
/// number `first + p - 1`.
#[derive(Drop)]
pub struct StoreParts {
    /// Which places of the ring are taken.
    pub ring: Ring,
    /// The records that aren't released, and the headers.
    pub pipeline: Pipeline,
    /// The running transaction, the bitmap and the dead blocks.
    pub books: Books,
    /// Blocks that were read lately.
    pub cache: BlockCache,
    /// The number of the disk's events as the session began.
    pub mounted: u64,
    /// The number of the session's first record.
    pub first: u64,
    /// The last sync point.
    pub point: u64,
    /// The first sync point to which a crash may go back.
    pub floor: u64,
    /// A call of the disk failed in a write, a poll or a wait, and nothing is written any more.
    pub stopped: bool,
}
