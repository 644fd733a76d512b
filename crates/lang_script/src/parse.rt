//! From a line to its command: the parts of the line, and which command a word and its arguments are.
//! What an argument says is in `arguments`. Each helper answers what the definition of the grammar
//! answers for its parts, or out of memory.

ghost use Rattle.std.specs.Prelude.{◌≡◌, List, [], ◌∷◌, IfOk, ◌⊎◌, map, true, Some};
ghost use Rattle.lang_tree.specs.declared.command.Cmd.TheVariants.{Bad};
ghost use Rattle.lang_script.specs.Grammar.{command_of, command_of_parts, command_on_tree, is_in_grammar, word_command, path_command, paths_command};
ghost use Rattle.lang_script.specs.Grammar.{truncate_of, dwait_of, snap_of, unsnap_of, write_of, read_of, fill_of, at_of, look_of};
ghost use Rattle.lang_script.specs.Grammar.{path_of, name_of, small_number_of, bytes_of};

use crate::arguments::{bytes, number, parts, path, snapshot_name};
use base_types::NoMemory;
use base_types::limits::LONGEST_READ;
use lang_tree::{Cmd, Look, Path};
use std::alloc::Global;

/// The command that this line is, which is given without its line feed.
///
/// # Errors
/// Out of memory.
pub fn parse_line(alloc: Global, line: &[u8]) -> Result<Cmd, NoMemory>
    ensures read { IfOk result (λ cmd. cmd ≡ command_of line.now) }
    ensures lawful { IfOk result (λ cmd. (cmd ≡ Bad) ⊎ (is_in_grammar cmd ≡ true)) }
{
    let parts = parts(alloc, line, b' ')?;
    cmd_of_parts(alloc, parts.as_slice())
}

fn cmd_of_parts(alloc: Global, parts: &[&[u8]]) -> Result<Cmd, NoMemory>
    ensures { IfOk result (λ cmd. cmd ≡ command_of_parts (map (λ part. part.now) parts.now)) }
{
    match parts {
        [] => Ok(Cmd::Bad),
        [word] => Ok(cmd_of_word(word)),
        [word, name, look @ ..] => {
            if *word == b"at".as_slice() {
                return look_at(alloc, name, look);
            }
            cmd_on_tree(alloc, parts)
        }
    }
}

// A look at the snapshot of this name.
fn look_at(alloc: Global, name: &[u8], parts: &[&[u8]]) -> Result<Cmd, NoMemory>
    ensures { IfOk result (λ cmd. cmd ≡ at_of (name_of name.now) (look_of (command_on_tree (map (λ part. part.now) parts.now)))) }
{
    let Some(name) = snapshot_name(name) else {
        return Ok(Cmd::Bad);
    };
    let cmd = cmd_on_tree(alloc, parts)?;
    match look(cmd) {
        Some(look) => Ok(Cmd::At(name, look)),
        None => Ok(Cmd::Bad),
    }
}

fn look(cmd: Cmd) -> Option<Look>
    ensures { result ≡ look_of cmd }
{
    match cmd {
        Cmd::Read(path, offset, length) => Some(Look::Read(path, offset, length)),
        Cmd::Stat(path) => Some(Look::Stat(path)),
        Cmd::List(path) => Some(Look::List(path)),
        Cmd::Mkdir(_)
        | Cmd::Create(_)
        | Cmd::Write(..)
        | Cmd::Fill(..)
        | Cmd::Truncate(..)
        | Cmd::Link(..)
        | Cmd::Unlink(_)
        | Cmd::Rmdir(_)
        | Cmd::Rename(..)
        | Cmd::Snap(_)
        | Cmd::Unsnap(_)
        | Cmd::Snaps
        | Cmd::At(..)
        | Cmd::Osync
        | Cmd::Dsync
        | Cmd::Durable
        | Cmd::Dwait(_)
        | Cmd::Poll
        | Cmd::Bad => None,
    }
}

// A command on the tree itself.
fn cmd_on_tree(alloc: Global, parts: &[&[u8]]) -> Result<Cmd, NoMemory>
    ensures { IfOk result (λ cmd. cmd ≡ command_on_tree (map (λ part. part.now) parts.now)) }
{
    match parts {
        [word] => Ok(cmd_of_word(word)),
        [word, last] => { with_one(alloc, word, last) }
        [word, path, last] => { with_two(alloc, word, path, last) }
        [word, path, offset, last] => { with_three(alloc, word, path, offset, last) }
        [word, path, offset, length, byte] => { with_four(alloc, word, path, offset, length, byte) }
        [] => Ok(Cmd::Bad),
        [_, _, _, _, _, _, ..] => Ok(Cmd::Bad),
    }
}

// A word alone.
fn cmd_of_word(word: &[u8]) -> Cmd
    ensures { result ≡ word_command word.now }
{
    if word == b"osync".as_slice() {
        return Cmd::Osync;
    }
    if word == b"dsync".as_slice() {
        return Cmd::Dsync;
    }
    if word == b"durable".as_slice() {
        return Cmd::Durable;
    }
    if word == b"poll".as_slice() {
        return Cmd::Poll;
    }
    if word == b"snaps".as_slice() {
        return Cmd::Snaps;
    }
    Cmd::Bad
}

// A word and one argument.
fn with_one(alloc: Global, word: &[u8], last: &[u8]) -> Result<Cmd, NoMemory>
    ensures { IfOk result (λ cmd. cmd ≡ command_on_tree (word.now ∷ last.now ∷ [])) }
{
    if word == b"dwait".as_slice() {
        return Ok(dwait(last));
    }
    if word == b"snap".as_slice() {
        return Ok(snap(last));
    }
    if word == b"unsnap".as_slice() {
        return Ok(unsnap(last));
    }
    with_path(alloc, word, last)
}

fn dwait(point: &[u8]) -> Cmd
    ensures { result ≡ dwait_of (small_number_of point.now) }
{
    match number(point) {
        Some(point) => Cmd::Dwait(point),
        None => Cmd::Bad,
    }
}

fn snap(name: &[u8]) -> Cmd
    ensures { result ≡ snap_of (name_of name.now) }
{
    match snapshot_name(name) {
        Some(name) => Cmd::Snap(name),
        None => Cmd::Bad,
    }
}

fn unsnap(name: &[u8]) -> Cmd
    ensures { result ≡ unsnap_of (name_of name.now) }
{
    match snapshot_name(name) {
        Some(name) => Cmd::Unsnap(name),
        None => Cmd::Bad,
    }
}

// A word and a path.
fn with_path(alloc: Global, word: &[u8], part: &[u8]) -> Result<Cmd, NoMemory>
    ensures { IfOk result (λ cmd. cmd ≡ path_command word.now (path_of part.now)) }
{
    match path(alloc, part)? {
        Some(path) => Ok(cmd_of_path(word, path)),
        None => Ok(Cmd::Bad),
    }
}

fn cmd_of_path(word: &[u8], path: Path) -> Cmd
    ensures { result ≡ path_command word.now (Some path) }
{
    if word == b"mkdir".as_slice() {
        return Cmd::Mkdir(path);
    }
    if word == b"create".as_slice() {
        return Cmd::Create(path);
    }
    if word == b"unlink".as_slice() {
        return Cmd::Unlink(path);
    }
    if word == b"rmdir".as_slice() {
        return Cmd::Rmdir(path);
    }
    if word == b"stat".as_slice() {
        return Cmd::Stat(path);
    }
    if word == b"list".as_slice() {
        return Cmd::List(path);
    }
    Cmd::Bad
}

// A word, a path and one argument more.
fn with_two(alloc: Global, word: &[u8], part: &[u8], last: &[u8]) -> Result<Cmd, NoMemory>
    ensures { IfOk result (λ cmd. cmd ≡ command_on_tree (word.now ∷ part.now ∷ last.now ∷ [])) }
{
    if word == b"truncate".as_slice() {
        return truncate(alloc, part, last);
    }
    with_paths(alloc, word, part, last)
}

fn truncate(alloc: Global, part: &[u8], size: &[u8]) -> Result<Cmd, NoMemory>
    ensures { IfOk result (λ cmd. cmd ≡ truncate_of (path_of part.now) (small_number_of size.now)) }
{
    let Some(path) = path(alloc, part)? else {
        return Ok(Cmd::Bad);
    };
    match number(size) {
        Some(size) => Ok(Cmd::Truncate(path, size)),
        None => Ok(Cmd::Bad),
    }
}

fn with_paths(alloc: Global, word: &[u8], part: &[u8], other: &[u8]) -> Result<Cmd, NoMemory>
    ensures { IfOk result (λ cmd. cmd ≡ paths_command word.now (path_of part.now) (path_of other.now)) }
{
    let Some(first) = path(alloc, part)? else {
        return Ok(Cmd::Bad);
    };
    match path(alloc, other)? {
        Some(second) => Ok(cmd_of_paths(word, first, second)),
        None => Ok(Cmd::Bad),
    }
}

fn cmd_of_paths(word: &[u8], first: Path, second: Path) -> Cmd
    ensures { result ≡ paths_command word.now (Some first) (Some second) }
{
    if word == b"link".as_slice() {
        return Cmd::Link(first, second);
    }
    if word == b"rename".as_slice() {
        return Cmd::Rename(first, second);
    }
    Cmd::Bad
}

// A word, a path, an offset and one argument more.
fn with_three(
    alloc: Global,
    word: &[u8],
    part: &[u8],
    offset: &[u8],
    last: &[u8],
) -> Result<Cmd, NoMemory>
    ensures { IfOk result (λ cmd. cmd ≡ command_on_tree (word.now ∷ part.now ∷ offset.now ∷ last.now ∷ [])) }
{
    if word == b"write".as_slice() {
        return write(alloc, part, offset, last);
    }
    if word == b"read".as_slice() {
        return read(alloc, part, offset, last);
    }
    Ok(Cmd::Bad)
}

fn write(alloc: Global, part: &[u8], offset: &[u8], digits: &[u8]) -> Result<Cmd, NoMemory>
    ensures { IfOk result (λ cmd. cmd ≡ write_of (path_of part.now) (small_number_of offset.now) (bytes_of digits.now)) }
{
    let Some(path) = path(alloc, part)? else {
        return Ok(Cmd::Bad);
    };
    let Some(offset) = number(offset) else {
        return Ok(Cmd::Bad);
    };
    match bytes(alloc, digits)? {
        Some(bytes) => Ok(Cmd::Write(path, offset, bytes)),
        None => Ok(Cmd::Bad),
    }
}

fn read(alloc: Global, part: &[u8], offset: &[u8], length: &[u8]) -> Result<Cmd, NoMemory>
    ensures { IfOk result (λ cmd. cmd ≡ read_of (path_of part.now) (small_number_of offset.now) (small_number_of length.now)) }
{
    let Some(path) = path(alloc, part)? else {
        return Ok(Cmd::Bad);
    };
    let Some(offset) = number(offset) else {
        return Ok(Cmd::Bad);
    };
    let Some(length) = number(length) else {
        return Ok(Cmd::Bad);
    };
    if length <= LONGEST_READ {
        return Ok(Cmd::Read(path, offset, length));
    }
    Ok(Cmd::Bad)
}

// A word, a path, an offset, a length and a byte.
fn with_four(
    alloc: Global,
    word: &[u8],
    part: &[u8],
    offset: &[u8],
    length: &[u8],
    byte: &[u8],
) -> Result<Cmd, NoMemory>
    ensures { IfOk result (λ cmd. cmd ≡ command_on_tree (word.now ∷ part.now ∷ offset.now ∷ length.now ∷ byte.now ∷ [])) }
{
    if word == b"fill".as_slice() {
        return fill(alloc, part, offset, length, byte);
    }
    Ok(Cmd::Bad)
}

fn fill(
    alloc: Global,
    part: &[u8],
    offset: &[u8],
    length: &[u8],
    byte: &[u8],
) -> Result<Cmd, NoMemory>
    ensures { IfOk result (λ cmd. cmd ≡ fill_of (path_of part.now) (small_number_of offset.now) (small_number_of length.now) (small_number_of byte.now)) }
{
    let Some(path) = path(alloc, part)? else {
        return Ok(Cmd::Bad);
    };
    let Some(offset) = number(offset) else {
        return Ok(Cmd::Bad);
    };
    let Some(length) = number(length) else {
        return Ok(Cmd::Bad);
    };
    let Some(number) = number(byte) else {
        return Ok(Cmd::Bad);
    };
    match u8::try_from(number) {
        Ok(byte) => Ok(Cmd::Fill(path, offset, length, byte)),
        Err(_) => Ok(Cmd::Bad),
    }
}
