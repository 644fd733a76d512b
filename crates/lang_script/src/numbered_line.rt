//! A line of some words and a number.

ghost use Rattle.std.specs.Prelude.{◌++◌, ℕ, codes, decimal, take, OnOk, OnErr};
ghost use Rattle.std.specs.Io.KnownBytes.{Appends};
ghost use Rattle.base_types.specs.Counts.{HasCause};

use base_io::{Sink, SinkFault, prefixes_join, push_all};
use itoa::Buffer;

/// Writes these words, the number in decimal digits, and a line feed.
///
/// # Errors
/// The first fault of the sink, which by then took a front of the line and nothing else.
pub fn write_numbered_line<K: Sink>(out: &mut K, words: &[u8], number: u64) -> Result<(), SinkFault>
    ensures all { OnOk result (Appends (K.taken out.old) (K.taken out.new) (words.now ++ (decimal number ++ codes "\n"))) }
    ensures front { OnErr result ((n : ℕ) × Appends (K.taken out.old) (K.taken out.new) (take n (words.now ++ (decimal number ++ codes "\n")))) }
    ensures cause { HasCause result (K.faults out.old) (K.faults out.new) }
{
    prefixes_join();
    push_all(out, words)?;
    push_all(out, Buffer::new().format(number).as_bytes())?;
    push_all(out, b"\n")?;
    Ok(())
}
