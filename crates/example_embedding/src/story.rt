//! What the program asks: in a first session it keeps a note, and in a later one it reads it back. How commands are
//! written is described in docs/SCRIPT.md, and what they do in docs/TREE.md.

use base_types::NoMemory;
use lang_script::parse_line;
use lang_tree::Cmd;
use std::alloc::Global;

/// The first session makes a directory and a note in it.
pub const FIRST: [&str; 5] = [
    "mkdir /notes",
    "create /notes/today",
    "osync",
    "write /notes/today 0 6d696c6b",
    "read /notes/today 0 64",
];

/// The later one reads the note, and asks for a directory that is there already.
pub const LATER: [&str; 2] = ["read /notes/today 0 64", "mkdir /notes"];

/// The commands that these lines are.
///
/// # Errors
/// Out of memory.
pub fn commands(alloc: Global, lines: &[&str]) -> Result<Vec<Cmd>, NoMemory> {
    let mut cmds = Vec::with_capacity(alloc, lines.len())?;
    for line in lines {
        let cmd = parse_line(alloc, line.as_bytes())?;
        cmds.push(cmd)?;
    }
    Ok(cmds)
}
