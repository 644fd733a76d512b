//! The parts of a listing's lines, written to a sink. It takes no memory. It neither buffers over pieces
//! of a line nor tries again after a fault: what was taken by then stays taken. How a line reads is the
//! definition `line_of`; the bytes of a file are read elsewhere.

ghost use Rattle.std.specs.Prelude.{ℕ, ◌≤◌, ◌∷◌, ◌++◌, length, codes, decimal, Some, OnErr, OnOk};
ghost use Rattle.std.specs.Io.KnownBytes.{Appends};
ghost use Rattle.hex.specs.Hex.{encode_lower};
ghost use Rattle.base_types.specs.Counts.{HasCause};
ghost use Rattle.base_io.specs.Prefix.{TakesPrefix};
ghost use Rattle.lang_tree.specs.Tree.{Dir};
ghost use Rattle.lang_tree.specs.Listing.{path_text, line_of};

use base_io::{Sink, SinkFault, prefixes_join, push_all};
use base_types::Name;
use itoa::Buffer;

/// How many bytes are written as digits at a time.
const CHUNK: usize = 512;

/// Writes the line of a directory.
///
/// # Errors
/// The first fault of the sink, which by then took a prefix of the line.
pub(crate) fn write_dir<K: Sink>(out: &mut K, path: &[Name], number: u32) -> Result<(), SinkFault>
    ensures all { OnOk result (Appends (K.taken out.old) (K.taken out.new) (line_of path.now number (Some Dir))) }
    ensures front { OnErr result (TakesPrefix (K.taken out.old) (K.taken out.new) (line_of path.now number (Some Dir))) }
    ensures cause { HasCause result (K.faults out.old) (K.faults out.new) }
{
    prefixes_join();
    write_head(out, b"dir ", path, number)?;
    push_all(out, b"\n")?;
    Ok(())
}

/// Writes the line of a file up to its size.
///
/// # Errors
/// As `write_dir`.
pub(crate) fn write_file_head<K: Sink>(
    out: &mut K,
    path: &[Name],
    number: u32,
    size: u64,
) -> Result<(), SinkFault>
    ensures all { OnOk result (Appends (K.taken out.old) (K.taken out.new)
        (codes "file " ++ path_text path.now ++ codes " " ++ decimal number ++ codes " " ++ decimal size)) }
    ensures front { OnErr result (TakesPrefix (K.taken out.old) (K.taken out.new)
        (codes "file " ++ path_text path.now ++ codes " " ++ decimal number ++ codes " " ++ decimal size)) }
    ensures cause { HasCause result (K.faults out.old) (K.faults out.new) }
{
    prefixes_join();
    write_head(out, b"file ", path, number)?;
    push_all(out, b" ")?;
    write_number(out, size)?;
    Ok(())
}

/// Writes the line of a snapshot: its name.
///
/// # Errors
/// As `write_dir`.
pub(crate) fn write_snapshot<K: Sink>(out: &mut K, name: &Name) -> Result<(), SinkFault>
    ensures all { OnOk result (Appends (K.taken out.old) (K.taken out.new) (codes "snap " ++ name.now ++ codes "\n")) }
    ensures front { OnErr result (TakesPrefix (K.taken out.old) (K.taken out.new) (codes "snap " ++ name.now ++ codes "\n")) }
    ensures cause { HasCause result (K.faults out.old) (K.faults out.new) }
{
    prefixes_join();
    push_all(out, b"snap ")?;
    push_all(out, name.as_bytes())?;
    push_all(out, b"\n")?;
    Ok(())
}

/// Writes the kind of a line with its blank, the path and the number.
///
/// # Errors
/// As `write_dir`.
fn write_head<K: Sink>(
    out: &mut K,
    kind: &[u8],
    path: &[Name],
    number: u32,
) -> Result<(), SinkFault>
    ensures all { OnOk result (Appends (K.taken out.old) (K.taken out.new) (kind.now ++ path_text path.now ++ codes " " ++ decimal number)) }
    ensures front { OnErr result (TakesPrefix (K.taken out.old) (K.taken out.new) (kind.now ++ path_text path.now ++ codes " " ++ decimal number)) }
    ensures cause { HasCause result (K.faults out.old) (K.faults out.new) }
{
    prefixes_join();
    push_all(out, kind)?;
    write_path(out, path)?;
    push_all(out, b" ")?;
    write_number(out, u64::from(number))?;
    Ok(())
}

/// Writes a number in decimal digits.
///
/// # Errors
/// As `write_dir`.
fn write_number<K: Sink>(out: &mut K, number: u64) -> Result<(), SinkFault>
    ensures all { OnOk result (Appends (K.taken out.old) (K.taken out.new) (decimal number)) }
    ensures front { OnErr result (TakesPrefix (K.taken out.old) (K.taken out.new) (decimal number)) }
    ensures cause { HasCause result (K.faults out.old) (K.faults out.new) }
{
    push_all(out, Buffer::new().format(number).as_bytes())?;
    Ok(())
}

/// Writes a path: a slash and each name in turn, or `/` for the root.
///
/// # Errors
/// As `write_dir`.
fn write_path<K: Sink>(out: &mut K, path: &[Name]) -> Result<(), SinkFault>
    ensures all { OnOk result (Appends (K.taken out.old) (K.taken out.new) (path_text path.now)) }
    ensures front { OnErr result (TakesPrefix (K.taken out.old) (K.taken out.new) (path_text path.now)) }
    ensures cause { HasCause result (K.faults out.old) (K.faults out.new) }
{
    if path.is_empty() {
        push_all(out, b"/")?;
        return Ok(());
    }
    prefixes_join();
    for name in path {
        write_name(out, name)?;
    }
    Ok(())
}

/// Writes a slash and a name.
///
/// # Errors
/// As `write_dir`.
fn write_name<K: Sink>(out: &mut K, name: &Name) -> Result<(), SinkFault>
    ensures all { OnOk result (Appends (K.taken out.old) (K.taken out.new) (47 ∷ name.now)) }
    ensures front { OnErr result (TakesPrefix (K.taken out.old) (K.taken out.new) (47 ∷ name.now)) }
    ensures cause { HasCause result (K.faults out.old) (K.faults out.new) }
{
    prefixes_join();
    push_all(out, b"/")?;
    push_all(out, name.as_bytes())?;
    Ok(())
}

/// Writes the digits of these bytes.
///
/// # Errors
/// As `write_dir`.
pub(crate) fn write_digits<K: Sink>(out: &mut K, bytes: &[u8]) -> Result<(), SinkFault>
    ensures all { OnOk result (Appends (K.taken out.old) (K.taken out.new) (encode_lower bytes.now)) }
    ensures front { OnErr result (TakesPrefix (K.taken out.old) (K.taken out.new) (encode_lower bytes.now)) }
    ensures cause { HasCause result (K.faults out.old) (K.faults out.new) }
{
    prefixes_join();
    for chunk in bytes.chunks(CHUNK) {
        write_chunk(out, chunk)?;
    }
    Ok(())
}

/// Writes the digits of a few bytes.
///
/// # Errors
/// As `write_dir`.
fn write_chunk<K: Sink>(out: &mut K, bytes: &[u8]) -> Result<(), SinkFault>
    requires { length bytes.now ≤ 512 }
    ensures all { OnOk result (Appends (K.taken out.old) (K.taken out.new) (encode_lower bytes.now)) }
    ensures front { OnErr result (TakesPrefix (K.taken out.old) (K.taken out.new) (encode_lower bytes.now)) }
    ensures cause { HasCause result (K.faults out.old) (K.faults out.new) }
{
    let mut digits = [0u8; 2 * CHUNK];
    let room = &mut digits[..2 * bytes.len()];
    hex::encode_to_slice(bytes, room).unwrap();
    push_all(out, room)?;
    Ok(())
}
