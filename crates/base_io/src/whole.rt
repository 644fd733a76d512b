//! All of a piece into a sink, whatever front of it each push takes. It neither buffers nor tries
//! again after a fault: what was taken by then stays taken.

ghost use Rattle.std.specs.Prelude.{OnErr, OnOk};
ghost use Rattle.std.specs.Io.KnownBytes.{Appends};
ghost use Rattle.base_types.specs.Counts.{HasCause};
ghost use Rattle.base_io.specs.Prefix.{TakesPrefix};

use crate::{Sink, SinkFault};

/// Pushes all of `bytes`.
///
/// # Errors
/// The first fault of the sink, which by then took a front of `bytes` and nothing else.
pub fn push_all<K: Sink>(out: &mut K, bytes: &[u8]) -> Result<(), SinkFault>
    ensures all { OnOk result (Appends (K.taken out.old) (K.taken out.new) bytes.now) }
    ensures front { OnErr result (TakesPrefix (K.taken out.old) (K.taken out.new) bytes.now) }
    ensures cause { HasCause result (K.faults out.old) (K.faults out.new) }
{
    let mut done = 0;
    while done < bytes.len() {
        done += out.push(&bytes[done..])?;
    }
    Ok(())
}
