//! The bytes of a file, and how they change in place. To which file they belong is not said here.

ghost use Rattle.std.specs.Prelude.{◌≡◌, ◌+◌, ◌^◌, ◌<◌, ◌≤◌, length, take, drop, replicate, vec_len, vec_capacity, OnOk, OnErr};
ghost use Rattle.lang_tree.specs.Step.{written, resized};

use base_types::NoMemory;

/// The bytes from the offset on, as many as there are but no more than `count`.
pub(crate) fn part(bytes: &[u8], off: usize, count: usize) -> &[u8]
    ensures { result.now ≡ take count (drop off bytes.now) }
{
    if off >= bytes.len() {
        return &bytes[..0];
    }
    let rest = &bytes[off..];
    if count >= rest.len() {
        return rest;
    }
    &rest[..count]
}

/// Puts the piece into the bytes from the offset on, and zeros into a gap before it. Other bytes are not
/// touched.
///
/// # Errors
/// Out of memory; then the bytes are as before.
pub(crate) fn overwrite(bytes: &mut Vec<u8>, off: usize, piece: &[u8]) -> Result<(), NoMemory>
    requires { off + length piece.now < 2 ^ 62 }
    ensures ok { OnOk result (bytes.new.items ≡ written off piece.now bytes.old.items) }
    ensures err { OnErr result (bytes.new.items ≡ bytes.old.items) }
{
    let end = off + piece.len();
    if end <= bytes.len() {
        bytes[off..end].copy_from_slice(piece);
        return Ok(());
    }
    end_at(bytes, off, end)?;
    bytes.extend_from_slice(piece).unwrap();
    Ok(())
}

/// Puts so many bytes of one value in from the offset on, and zeros into a gap before them. Other bytes are
/// not touched.
///
/// # Errors
/// Out of memory; then the bytes are as before.
pub(crate) fn fill(bytes: &mut Vec<u8>, off: usize, count: usize, byte: u8) -> Result<(), NoMemory>
    requires { off + count < 2 ^ 62 }
    ensures ok { OnOk result (bytes.new.items ≡ written off (replicate count byte) bytes.old.items) }
    ensures err { OnErr result (bytes.new.items ≡ bytes.old.items) }
{
    let end = off + count;
    if end <= bytes.len() {
        bytes[off..end].fill(byte);
        return Ok(());
    }
    end_at(bytes, off, end)?;
    bytes.resize(end, byte).unwrap();
    Ok(())
}

/// Cuts the bytes off at the offset, or puts zeros behind them up to it, and makes room up to `end`.
fn end_at(bytes: &mut Vec<u8>, off: usize, end: usize) -> Result<(), NoMemory>
    requires { off ≤ end }
    ensures ok { OnOk result (bytes.new.items ≡ resized off bytes.old.items) }
    ensures len { OnOk result (vec_len bytes.new ≡ off) }
    ensures room { OnOk result (end ≤ vec_capacity bytes.new) }
    ensures err { OnErr result (bytes.new.items ≡ bytes.old.items) }
{
    bytes.reserve(end.saturating_sub(bytes.len()))?;
    bytes.resize(off, 0).unwrap();
    Ok(())
}

/// Cuts the bytes off behind this size, or puts zeros behind them up to it. Where most of them go, their
/// memory goes back too.
///
/// # Errors
/// Out of memory; then the bytes are as before.
pub(crate) fn resize(bytes: &mut Vec<u8>, size: usize) -> Result<(), NoMemory>
    ensures ok { OnOk result (bytes.new.items ≡ resized size bytes.old.items) }
    ensures err { OnErr result (bytes.new.items ≡ bytes.old.items) }
{
    bytes.resize(size, 0)?;
    if size < bytes.capacity() / 2 {
        bytes.shrink_to_fit();
    }
    Ok(())
}
