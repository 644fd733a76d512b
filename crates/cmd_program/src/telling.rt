//! The last line of a run: that of a whole trace, and that of each status that has one. What comes before it is the
//! subject of the module of the request.

ghost use Rattle.std.specs.Prelude.{◌≤◌};
ghost use Rattle.cmd_program.specs.Endings.{Tells};

use crate::status::Status;
use base_io::{Sink, SinkFault, push_all};

/// Writes the last line of a status.
pub fn tell<K: Sink>(out: &mut K, line: &[u8], status: Status) -> Status
    ensures told { Tells status result line.now (K.taken out.old) (K.taken out.new) (K.faults out.old) (K.faults out.new) }
    ensures counts { K.faults out.old ≤ K.faults out.new }
{
    match push_all(out, line) {
        Ok(()) => status,
        Err(SinkFault) => Status::SinkFault,
    }
}

/// The last line of a whole trace.
pub const END: &[u8] = b"end\n";

/// The last line of other words.
pub const USAGE: &[u8] = b"error 2 usage\n";

/// That of a fault of the disk.
pub const DISK: &[u8] = b"error 5 disk\n";

/// That of an image that stands for no tree.
pub const DAMAGED: &[u8] = b"error 6 damaged\n";

/// That of a fault of the source.
pub const SOURCE: &[u8] = b"error 7 source\n";

/// That of a journal whose numbers are at their end.
pub const SPENT: &[u8] = b"error 9 spent\n";

/// That of a crash which leaves the tree of no sync point that it may leave.
pub const NO_PREFIX: &[u8] = b"error 10 no prefix\n";

/// That of numbers that don't fit together.
pub const SHAPE: &[u8] = b"error 11 shape\n";

/// That of an input that is too long.
pub const LONG: &[u8] = b"error 12 long input\n";

/// That of a choice that isn't one of the log.
pub const CHOICE: &[u8] = b"error 13 choice\n";

/// That of an image, or a new disk, that has no room for what was to be made.
pub const ROOM: &[u8] = b"error 14 room\n";

/// That of two images that are to be run as one, and don't have the same blocks.
pub const UNLIKE: &[u8] = b"error 15 unlike\n";

/// That of an image that keeps no log where one is to be.
pub const LOG: &[u8] = b"error 17 log\n";
