//! The two traits and their faults. A source and a sink may tell the bytes that are left and the
//! bytes that were taken; one that tells nothing keeps the same rules. A count of faults says that
//! something went wrong outside of the program: no error comes without one.

ghost use Rattle.std.specs.Prelude.{ℕ, ◌<◌, List, length, Option, IfOk};
ghost use Rattle.std.specs.Io.{ReadsAtMost, WritesAtMost};
ghost use Rattle.std.specs.Io.KnownBytes.{ReadConsumes, WriteAppends};
ghost use Rattle.base_types.specs.Counts.{HasCause};

use std::error::Error;
use std::fmt;

/// A source failed in a call, which took none of its bytes.
#[derive(Clone, Copy, Debug, PartialEq, Eq)]
pub struct SourceFault;

impl fmt::Display for SourceFault {
    fn fmt<W: fmt::Write>(&self, f: &mut fmt::Formatter<W>) -> fmt::Result {
        write!(f, "the input failed")
    }
}

impl Error for SourceFault {}

/// A sink failed in a call, in which it took no byte.
#[derive(Clone, Copy, Debug, PartialEq, Eq)]
pub struct SinkFault;

impl fmt::Display for SinkFault {
    fn fmt<W: fmt::Write>(&self, f: &mut fmt::Formatter<W>) -> fmt::Result {
        write!(f, "the output failed")
    }
}

impl Error for SinkFault {}

/// What bytes are pulled from, in order.
pub trait Source {
    // The bytes that are left, where they are known.
    ghost remaining: { Self → Option (List ℕ) };

    // How many calls have failed so far.
    ghost faults: { Self → ℕ };

    /// Moves the next bytes to the front of `into`, and tells how many: 0 only at the end.
    ///
    /// # Errors
    /// A fault of the source. No byte is lost, and a later call may go on.
    fn pull(&mut self, into: &mut [u8]) -> Result<usize, SourceFault>
        requires { 0 < length into.old }
        ensures bound { ReadsAtMost result into.new }
        ensures bytes { ReadConsumes (remaining self.old) (remaining self.new) result into.new }
        ensures cause { HasCause result (faults self.old) (faults self.new) };
}

/// What bytes are pushed to, in order.
pub trait Sink {
    // The bytes that were taken, where they are known.
    ghost taken: { Self → Option (List ℕ) };

    // How many calls have failed so far.
    ghost faults: { Self → ℕ };

    /// Takes a front of `bytes`, and tells how many: at least one, if there are any.
    ///
    /// # Errors
    /// A fault of the sink, which then took no byte. A later call may go on.
    fn push(&mut self, bytes: &[u8]) -> Result<usize, SinkFault>
        ensures bound { WritesAtMost result bytes.now }
        ensures some { IfOk result (λ n. 0 < length bytes.now → 0 < n) }
        ensures bytes { WriteAppends (taken self.old) (taken self.new) result bytes.now }
        ensures cause { HasCause result (faults self.old) (faults self.new) };
}
