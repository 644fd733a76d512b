//! From a command to its text, the line that asks for it. The line is built piece by piece, and each
//! helper's clause names what it adds.

ghost use Rattle.std.specs.Prelude.{◌≡◌, ◌++◌, OnOk, IfOk, true, codes, decimal};
ghost use Rattle.lang_tree.specs.declared.command.Cmd.TheVariants.{At};
ghost use Rattle.lang_tree.specs.declared.command.Look.TheVariants.{Read};
ghost use Rattle.lang_tree.specs.Listing.{slashed, path_text};
ghost use Rattle.lang_script.specs.Grammar.{command_of, is_in_grammar};
ghost use Rattle.lang_script.specs.Text.{command_text, look_text};

use crate::pieces::{push, push_digits, push_number};
use base_types::{Name, NoMemory};
use lang_tree::{Cmd, Look, Path};
use std::alloc::Global;

/// For how many bytes a line has room before it grows.
const SHORT_LINE: usize = 64;

/// The line that asks for this command, without a line feed.
///
/// # Errors
/// Out of memory.
pub fn cmd_text(alloc: Global, cmd: &Cmd) -> Result<Vec<u8>, NoMemory>
    ensures text { IfOk result (λ text. text.items ≡ command_text cmd.now) }
    ensures reads_back { IfOk result (λ text. is_in_grammar cmd.now ≡ true → command_of text.items ≡ cmd.now) }
{
    let text = text_of_cmd(alloc, cmd)?;
    Ok(text)
}

fn text_of_cmd(alloc: Global, cmd: &Cmd) -> Result<Vec<u8>, NoMemory>
    ensures { IfOk result (λ text. text.items ≡ command_text cmd.now) }
{
    let mut text = Vec::with_capacity(alloc, SHORT_LINE)?;
    match cmd {
        Cmd::Mkdir(path) => push_word_and_path(&mut text, b"mkdir ", path)?,
        Cmd::Create(path) => push_word_and_path(&mut text, b"create ", path)?,
        Cmd::Write(path, offset, bytes) => {
            push_at(&mut text, b"write ", path, *offset)?;
            push_digits(&mut text, bytes.as_slice())?;
        }
        Cmd::Fill(path, offset, length, byte) => {
            push_at(&mut text, b"fill ", path, *offset)?;
            push_number(&mut text, u64::from(*length))?;
            push_number(&mut text, u64::from(*byte))?;
        }
        Cmd::Read(path, offset, length) => push_read(&mut text, path, *offset, *length)?,
        Cmd::Truncate(path, size) => push_at(&mut text, b"truncate ", path, *size)?,
        Cmd::Link(path, other) => push_paths(&mut text, b"link ", path, other)?,
        Cmd::Unlink(path) => push_word_and_path(&mut text, b"unlink ", path)?,
        Cmd::Rmdir(path) => push_word_and_path(&mut text, b"rmdir ", path)?,
        Cmd::Rename(path, other) => push_paths(&mut text, b"rename ", path, other)?,
        Cmd::Stat(path) => push_word_and_path(&mut text, b"stat ", path)?,
        Cmd::List(path) => push_word_and_path(&mut text, b"list ", path)?,
        Cmd::Snap(name) => push_word_and_name(&mut text, b"snap ", name)?,
        Cmd::Unsnap(name) => push_word_and_name(&mut text, b"unsnap ", name)?,
        Cmd::Snaps => push(&mut text, b"snaps")?,
        Cmd::At(name, look) => push_look_at(&mut text, name, look)?,
        Cmd::Osync => push(&mut text, b"osync")?,
        Cmd::Dsync => push(&mut text, b"dsync")?,
        Cmd::Durable => push(&mut text, b"durable")?,
        Cmd::Dwait(point) => {
            push(&mut text, b"dwait")?;
            push_number(&mut text, u64::from(*point))?;
        }
        Cmd::Poll => push(&mut text, b"poll")?,
        Cmd::Bad => push(&mut text, b"?")?,
    }
    Ok(text)
}

// The word, which ends with a blank, and the path.
fn push_word_and_path(text: &mut Vec<u8>, word: &[u8], path: &Path) -> Result<(), NoMemory>
    ensures { OnOk result (text.new.items ≡ text.old.items ++ (word.now ++ path_text path.now)) }
{
    push(text, word)?;
    push_path(text, path)?;
    Ok(())
}

// The same, a blank and a number.
fn push_at(text: &mut Vec<u8>, word: &[u8], path: &Path, number: u32) -> Result<(), NoMemory>
    ensures { OnOk result (text.new.items ≡ text.old.items ++ (word.now ++ path_text path.now ++ codes " " ++ decimal number)) }
{
    push_word_and_path(text, word, path)?;
    push_number(text, u64::from(number))?;
    Ok(())
}

fn push_read(text: &mut Vec<u8>, path: &Path, offset: u32, length: u32) -> Result<(), NoMemory>
    ensures { OnOk result (text.new.items ≡ text.old.items ++ look_text (Read path.now offset length)) }
{
    push_at(text, b"read ", path, offset)?;
    push_number(text, u64::from(length))?;
    Ok(())
}

// The word, which ends with a blank, and the name.
fn push_word_and_name(text: &mut Vec<u8>, word: &[u8], name: &Name) -> Result<(), NoMemory>
    ensures { OnOk result (text.new.items ≡ text.old.items ++ (word.now ++ name.now)) }
{
    push(text, word)?;
    push(text, name.as_bytes())?;
    Ok(())
}

// The word `at`, the name, and how a tree is looked at.
fn push_look_at(text: &mut Vec<u8>, name: &Name, look: &Look) -> Result<(), NoMemory>
    ensures { OnOk result (text.new.items ≡ text.old.items ++ command_text (At name.now look.now)) }
{
    push_word_and_name(text, b"at ", name)?;
    push(text, b" ")?;
    push_look(text, look)?;
    Ok(())
}

fn push_look(text: &mut Vec<u8>, look: &Look) -> Result<(), NoMemory>
    ensures { OnOk result (text.new.items ≡ text.old.items ++ look_text look.now) }
{
    match look {
        Look::Read(path, offset, length) => push_read(text, path, *offset, *length)?,
        Look::Stat(path) => push_word_and_path(text, b"stat ", path)?,
        Look::List(path) => push_word_and_path(text, b"list ", path)?,
    }
    Ok(())
}

// The word, which ends with a blank, the path, a blank and the other path.
fn push_paths(text: &mut Vec<u8>, word: &[u8], path: &Path, other: &Path) -> Result<(), NoMemory>
    ensures { OnOk result (text.new.items ≡ text.old.items ++ (word.now ++ path_text path.now ++ codes " " ++ path_text other.now)) }
{
    push_word_and_path(text, word, path)?;
    push(text, b" ")?;
    push_path(text, other)?;
    Ok(())
}

fn push_path(text: &mut Vec<u8>, path: &Path) -> Result<(), NoMemory>
    ensures { OnOk result (text.new.items ≡ text.old.items ++ path_text path.now) }
{
    match path.names() {
        [] => push(text, b"/")?,
        names => push_names(text, names)?,
    }
    Ok(())
}

fn push_names(text: &mut Vec<u8>, names: &[Name]) -> Result<(), NoMemory>
    ensures { OnOk result (text.new.items ≡ text.old.items ++ slashed names.now) }
{
    for name in names {
        push(text, b"/")?;
        push(text, name.as_bytes())?;
    }
    Ok(())
}
