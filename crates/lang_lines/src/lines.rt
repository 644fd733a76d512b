//! One line of an input, and what it says: what lines say is told by a parser of them, as by that of commands. How
//! lines are cut from an input is in the module of the reader.

ghost use Rattle.std.specs.Prelude.{◌≡◌, IfOk, List, ℕ, option_to_list};
ghost use Rattle.lang_lines.specs.Lines.{longest, commands_of_line, items_of_line};

use base_types::NoMemory;
use base_types::limits::LONGEST_LINE;
use lang_script::parse_line;
use lang_tree::Cmd;
use std::alloc::Global;

/// What the lines of an input say.
pub trait LineParser {
    /// What a line says.
    type Item: Drop;

    /// What each line says that is longer than a line may be.
    ghost bad: { Self.Item };

    /// What each other line says.
    ghost says: { List ℕ → Self.Item };

    /// What a line says that is longer than a line may be.
    fn bad() -> Self::Item
        ensures { result ≡ bad };

    /// What this line says, which is given without its line feed.
    ///
    /// # Errors
    /// Out of memory.
    fn parse(alloc: Global, line: &[u8]) -> Result<Self::Item, NoMemory>
        ensures { IfOk result (λ item. item ≡ says line.now) };
}

/// The parser of commands.
pub struct Commands;

impl LineParser for Commands {
    ghost use Rattle.lang_tree.specs.declared.command.Cmd.TheVariants.{Bad};
    ghost use Rattle.lang_script.specs.Grammar.{command_of};

    type Item = Cmd;

    ghost bad = { Bad };

    ghost says = { command_of };

    fn bad() -> Cmd {
        Cmd::Bad
    }

    fn parse(alloc: Global, line: &[u8]) -> Result<Cmd, NoMemory> {
        parse_line(alloc, line)
    }
}

/// What a line says, or `None` where it is empty or a comment.
///
/// # Errors
/// Out of memory.
#[tactic(auto, unfolding(crate::specs::Lines::longest))]
pub fn item_of_line<P: LineParser>(alloc: Global, line: &[u8]) -> Result<Option<P::Item>, NoMemory>
    ensures { IfOk result (λ found. option_to_list found ≡ items_of_line P.bad P.says longest line.now) }
{
    if line.is_empty() {
        return Ok(None);
    }
    if line[0] == COMMENT {
        return Ok(None);
    }
    if line.len() > LONGEST_LINE {
        return Ok(Some(P::bad()));
    }
    match P::parse(alloc, line) {
        Ok(item) => Ok(Some(item)),
        Err(NoMemory) => Err(NoMemory),
    }
}

/// The command that a line is, or `None` where it is empty or a comment. A line that is longer than a
/// line may be is `Bad`.
///
/// # Errors
/// Out of memory.
pub fn command_of_line(alloc: Global, line: &[u8]) -> Result<Option<Cmd>, NoMemory>
    ensures { IfOk result (λ found. option_to_list found ≡ commands_of_line longest line.now) }
{
    item_of_line::<Commands>(alloc, line)
}

const COMMENT: u8 = b'#';
