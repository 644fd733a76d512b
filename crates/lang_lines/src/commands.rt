//! The commands of an input, one by one, pulled from a source: what the lines of a script say.

ghost use Rattle.std.specs.Prelude.{◌≡◌, ◌≤◌, true, [], IfOk, OnErr};
ghost use Rattle.lang_lines.specs.Reading.{ReadsOn, HoldsOn, first_state};

use crate::lines::Commands;
use crate::next::{Next, NextItem};
use crate::reader::LineReader;
use base_io::Source;
use base_types::NoMemory;
use std::alloc::Global;
use std::marker::Model;

/// A reader of the commands of one input.
#[derive(Drop)]
pub struct CommandReader {
    lines: LineReader,
}

impl Model for CommandReader {
    ghost use Rattle.lang_lines.specs.Reading.{ReaderState};

    ghost Value = { ReaderState };

    ghost view = { λ r. r.lines };
}

impl CommandReader {
    /// A reader of an input of which nothing was pulled yet.
    ///
    /// # Errors
    /// Out of memory.
    pub fn new(alloc: Global) -> Result<CommandReader, NoMemory>
        ensures { IfOk result (λ r. r ≡ first_state) }
    {
        let lines = LineReader::new(alloc)?;
        Ok(CommandReader { lines })
    }

    /// What comes next of the input: the command of the next line that isn't skipped, or else why there is none.
    /// More bytes are pulled only where no whole line is left of those that were. A line that is longer than a line
    /// may be is `Bad`. The last line of an input may lack its line feed.
    ///
    /// # Errors
    /// Out of memory. No command is lost then, and a later call may go on.
    pub fn next<S: Source>(&mut self, alloc: Global, input: &mut S) -> Result<Next, NoMemory>
        ensures ok { IfOk result (λ next. ReadsOn next self.old self.new (S.remaining input.old) (S.remaining input.new) (S.faults input.old)
            (S.faults input.new)) }
        ensures err { OnErr result (HoldsOn self.old self.new (S.remaining input.old) (S.remaining input.new)) }
        ensures faults { S.faults input.old ≤ S.faults input.new }
        ensures rest { self.new.over ≡ true → self.new.ahead ≡ [] }
    {
        match self.lines.next::<Commands, S>(alloc, input) {
            Ok(NextItem::Item(cmd)) => Ok(Next::Command(cmd)),
            Ok(NextItem::End) => Ok(Next::End),
            Ok(NextItem::SourceFault) => Ok(Next::SourceFault),
            Ok(NextItem::LongInput) => Ok(Next::LongInput),
            Err(NoMemory) => Err(NoMemory),
        }
    }
}
