//! What a log is asked and what it answers, as plain data. What the calls mean is said by `AnswersLog` in the specs;
//! how they are written is not said here.

use base_types::Bytes;
use lang_tree::Refusal;

/// One call of a log. `Bad` is a line that is none; it changes nothing and is answered `Bad`.
#[derive(Drop)]
pub enum LogCall {
    /// Appends these bytes.
    Append(Bytes),
    /// Asks for the append with this number.
    Get(u32),
    /// Lets go of appends below this number.
    Trim(u32),
    /// Asks for the number with which the log begins, and for that of the next append.
    Count,
    /// Lets all appends so far go to the disk, as one whole, and doesn't wait.
    Order,
    /// Waits until all appends so far are on the disk.
    Sync,
    /// A line outside the grammar.
    Bad,
}

/// The answer to one call of a log.
#[derive(Drop)]
pub enum LogReply {
    /// The append has this number.
    Number(u32),
    /// The bytes of the append, which may be none.
    Bytes(Bytes),
    /// The log begins with this number now.
    Low(u32),
    /// The log has the appends from `low` on, below `next`.
    Range { low: u32, next: u32 },
    /// The number of the last sync point.
    Ordered(u64),
    /// The number of the last sync point, which is on the disk.
    Durable(u64),
    /// The call was `LogCall::Bad`.
    Bad,
    /// The log has no append of the number: it has those from `low` on, below `next`.
    NoRecord { low: u32, next: u32 },
    /// The append has more bytes than one may have.
    TooLong,
    /// The numbers of appends are used up.
    LogEnd,
    /// Not done by the file system, for this reason.
    Refused(Refusal),
}
