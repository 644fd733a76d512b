//! The lines of a trace, read one by one: each answer is the value that is written so, and none exactly where no
//! value is. Which line may stand behind which is not said here.

ghost use Rattle.std.specs.Prelude.{◌≡◌, ◌<◌, ◌^◌, ℕ, true, List, IfOk, option_map, ◌↔◌};
ghost use Rattle.layout_geometry.specs.Geometry.{geometry_fits};
ghost use Rattle.disk_contract.specs.Lawful.{IsEventOf};
ghost use Rattle.lang_tree.specs.declared.command.Reply.TheVariants.{Known};
ghost use Rattle.lang_script.specs.Text.{command_text, refusal_text, text_of_reply};
ghost use Rattle.lang_script.specs.Values.{IsCommand};
ghost use Rattle.cmd_trace.specs.Line.{geometry_line, event_line, command_line, reply_line, end_line};
ghost use Rattle.cmd_trace.specs.ReadsAs.{IsReadAs, IsOutside, fed};

use crate::{read_lines, read_refusals};
use base_types::NoMemory;
use disk_contract::Event;
use lang_script::{a_number_has_one_text, cmd_text, lines_are_commands, parse_line};
use lang_tree::{Cmd, Refusal};
use layout_geometry::{Geom, geometries_are_within_limits};
use std::alloc::Global;

/// The geometry of the first line of a trace, given without its line feed.
pub fn read_geometry(line: &[u8]) -> Option<Geom>
    ensures { IsReadAs geometry_line (λ g. geometry_fits g ≡ true) (fed line.now) result }
{
    a_number_has_one_text();
    geometries_are_within_limits();
    read_lines::geometry_in(line)
}

/// The event of a line, given without its line feed: an accepted write, a lost one, or a notice. Its ticket has
/// 64 bits, the number of its block 32, and its bytes are those of a block.
///
/// # Errors
/// Out of memory.
pub fn read_event(alloc: Global, line: &[u8]) -> Result<Option<Event>, NoMemory>
    ensures { IfOk result (λ event. IsReadAs event_line (IsEventOf (2 ^ 32)) (fed line.now) event) }
{
    a_number_has_one_text();
    let event = read_lines::event_in(alloc, line)?;
    Ok(event)
}

/// The moment of a reply and the reply's text, of a line that is given without its line feed.
pub fn read_reply(line: &[u8]) -> Option<(u64, &[u8])>
    ensures { IsReadAs (λ (reply : ℕ × List ℕ). reply_line reply.0 reply.1) (λ reply. reply.0 < 2 ^ 64) (fed line.now)
        (option_map (λ reply. (reply.0, reply.1.now)) result) }
{
    a_number_has_one_text();
    read_lines::reply_in(line)
}

/// The refusal that the text of a reply is, of those that may come from outside the tree.
pub fn read_refusal(text: &[u8]) -> Option<Refusal>
    ensures { IsReadAs refusal_text IsOutside text.now result }
{
    a_number_has_one_text();
    read_refusals::refusal_of(text)
}

/// The point that is known to be on the disk by the text of a reply.
pub fn read_known(text: &[u8]) -> Option<u64>
    ensures { IsReadAs (λ point. text_of_reply (Known point)) (λ point. point < 2 ^ 64) text.now result }
{
    a_number_has_one_text();
    read_refusals::known_of(text)
}

/// The command of a line, given without its line feed: one that is written as commands are, or none, which is
/// written `?`.
///
/// # Errors
/// Out of memory.
pub fn read_command(alloc: Global, line: &[u8]) -> Result<Option<Cmd>, NoMemory>
    ensures { IfOk result (λ cmd. IsReadAs (λ cmd. command_line (command_text cmd)) IsCommand (fed line.now) cmd) }
{
    match line {
        [] => Ok(None),
        [_] => Ok(None),
        [first, second, text @ ..] => {
            if *first != b'c' {
                return Ok(None);
            }
            if *second != b' ' {
                return Ok(None);
            }
            let cmd = command_in(alloc, text)?;
            Ok(cmd)
        }
    }
}

// The command that is written so: the line that it is, where that is its text.
fn command_in(alloc: Global, text: &[u8]) -> Result<Option<Cmd>, NoMemory>
    ensures { IfOk result (λ cmd. IsReadAs command_text IsCommand text.now cmd) }
{
    lines_are_commands();
    let cmd = parse_line(alloc, text)?;
    let written = cmd_text(alloc, &cmd)?;
    if written.as_slice() == text {
        return Ok(Some(cmd));
    }
    Ok(None)
}

/// Whether it is the last line of a trace, given without its line feed.
pub fn is_end(line: &[u8]) -> bool
    ensures { (result ≡ true) ↔ (fed line.now ≡ end_line) }
{
    line == b"end".as_slice()
}
