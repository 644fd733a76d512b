//! What the program writes: a line for each thing that happens to the queue.

use anyhow::Result;
use base_types::Bytes;
use std::io::Write;

/// Writes which jobs there are as the queue is opened.
///
/// # Errors
/// The writer's.
pub fn write_opening<W: Write>(out: &mut W, low: u32, next: u32) -> Result<()> {
    writeln!(out, "opened: the jobs from {low} on, below {next}")?;
    Ok(())
}

/// Writes that so many jobs are acknowledged, from this one on.
///
/// # Errors
/// The writer's.
pub fn write_acknowledged<W: Write>(out: &mut W, first: u32, count: usize) -> Result<()> {
    writeln!(out, "acknowledged: {count} jobs, from {first} on")?;
    Ok(())
}

/// Writes that this number went to a worker, with what is to be done.
///
/// # Errors
/// The writer's.
pub fn write_job<W: Write>(out: &mut W, number: u32, job: &Bytes) -> Result<()> {
    let bytes = job.as_slice();
    let words = match bytes.iter().position(|b| *b == 0) {
        Some(end) => &bytes[..end],
        None => bytes,
    };
    write!(out, "handed out: {number} ")?;
    out.write_all(words)?;
    writeln!(out, ", {} bytes", bytes.len())?;
    Ok(())
}

/// Writes with which job the queue begins once others are done.
///
/// # Errors
/// The writer's.
pub fn write_done<W: Write>(out: &mut W, low: u32) -> Result<()> {
    writeln!(out, "done: all below {low}")?;
    Ok(())
}

/// Writes that the power is cut, and what became of the writes that weren't durable.
///
/// # Errors
/// The writer's.
pub fn write_cut<W: Write>(out: &mut W, what: &str) -> Result<()> {
    writeln!(out, "the power is cut: {what}")?;
    Ok(())
}
