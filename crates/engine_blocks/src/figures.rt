//! The figures of a map of blocks: its space, its transaction, its sync points. They are numbers of the
//! bookkeeping; what is known beyond numbers has no value here.

/// What a map of blocks tells of itself in numbers.
#[derive(Clone, Copy)]
pub struct Figures {
    /// How many data blocks there are.
    pub area: u32,
    /// The data blocks whose bit is set.
    pub live: u32,
    /// The blocks that the running transaction freed.
    pub held: u32,
    /// The blocks that earlier transactions freed and that may not be taken yet.
    pub waiting: u32,
    /// The weight of the running transaction.
    pub weight: u32,
    /// The most weight that a transaction may have.
    pub room: u32,
    /// The last sync point.
    pub point: u64,
    /// The last sync point that is known to be durable.
    pub floor: u64,
    /// The ring places of the journal that no record takes.
    pub free_places: u32,
    /// A call of the disk has failed in a write, a poll or a wait, and nothing is written any more.
    pub stopped: bool,
    /// The numbers of the journal come to their end, and no command is taken any more.
    pub spent: bool,
}
