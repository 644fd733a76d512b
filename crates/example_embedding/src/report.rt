//! What the program writes: a line for each command with its reply, and what became of the disk.

use crate::serving::Answered;
use anyhow::Result;
use disk_contract::Disk;
use lang_script::{cmd_text, reply_text};
use lang_tree::{Cmd, Reply};
use std::alloc::Global;
use std::io::Write;

/// Writes by how many writes the disk was formatted.
///
/// # Errors
/// The writer's.
pub fn write_formatting<W: Write>(out: &mut W, written: u64) -> Result<()> {
    writeln!(out, "formatted by {written} writes")?;
    Ok(())
}

/// Writes the commands of a session and the dsync behind them, each with its reply.
///
/// # Errors
/// The writer's, or out of memory.
pub fn write_session<D: Disk + Drop, W: Write>(
    alloc: Global,
    out: &mut W,
    cmds: &[Cmd],
    answered: &Answered<D>,
) -> Result<()> {
    for (cmd, reply) in cmds.iter().zip(answered.replies.iter()) {
        write_answer(alloc, out, cmd, reply)?;
    }
    write_answer(alloc, out, &Cmd::Dsync, &answered.kept)
}

/// Writes a command and its reply.
///
/// # Errors
/// As of `write_session`.
fn write_answer<W: Write>(alloc: Global, out: &mut W, cmd: &Cmd, reply: &Reply) -> Result<()> {
    let asked = cmd_text(alloc, cmd)?;
    let answer = reply_text(alloc, reply)?;
    out.write_all(asked.as_slice())?;
    out.write_all(b": ")?;
    out.write_all(answer.as_slice())?;
    out.write_all(b"\n")?;
    Ok(())
}
