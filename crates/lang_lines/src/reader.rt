//! What the lines of an input say, one by one, pulled from a source. Lines that lie whole in the bytes that were pulled
//! are read where they lie; what begins a line whose line feed didn't come yet is kept.

ghost use Rattle.std.specs.Prelude.{◌≡◌, ℕ, ◌+◌, ◌^◌, ◌<◌, ◌≤◌, ◌==◌, true, false, not, [], ◌∷◌, length, take, drop, option_to_list, IfOk, IfSome, OnOk, OnErr};
ghost use Rattle.std.specs.List.{position, list_all};
ghost use Rattle.lang_lines.specs.Lines.{longest, items_of_line};
ghost use Rattle.lang_lines.specs.Reading.{ReaderState, ReadsItem, HoldsItems, first_state};
ghost use Rattle.lang_lines.specs.Steps.{GoesOn, EndsWith, HasPulled};

use crate::chunk::Chunk;
use crate::lines::{LineParser, item_of_line};
use crate::next::NextItem;
use base_io::{Source, SourceFault};
use base_types::NoMemory;
use base_types::limits::{LONGEST_INPUT, LONGEST_LINE};
use std::alloc::Global;
use std::marker::Model;

/// A reader of the lines of one input.
#[derive(Drop)]
pub struct LineReader {
    // The bytes that weren't looked at yet.
    chunk: Chunk,
    // What was looked at of a line whose line feed wasn't, up to one byte more than a line may have.
    line: Vec<u8>,
    // How many bytes were pulled.
    count: usize,
    // Whether the input is over.
    over: bool,
}

impl Model for LineReader {
    ghost use Rattle.std.specs.Prelude.{◌≡◌, ◌≤◌, ◌^◌, true, []};
    ghost use Rattle.lang_lines.specs.Reading.{ReaderState};

    ghost Value = { ReaderState };

    ghost view = { λ r. record { count = r.count; ahead = r.chunk; line = r.line.items; over = r.over } };

    ghost invariant = { λ r. (r.count ≤ 2 ^ 30) × (r.over ≡ true → r.chunk ≡ []) };
}

/// What a pull brought.
#[derive(Clone, Copy)]
pub enum Pulled {
    /// Some bytes.
    Bytes,
    /// None: the input is over.
    Nothing,
    /// None: the source failed.
    Fault,
    /// One byte more than an input may have.
    TooMany,
}

impl LineReader {
    /// A reader of an input of which nothing was pulled yet.
    ///
    /// # Errors
    /// Out of memory.
    pub fn new(alloc: Global) -> Result<LineReader, NoMemory>
        ensures { IfOk result (λ r. r ≡ first_state) }
    {
        let chunk = Chunk::new(alloc)?;
        Ok(LineReader {
            chunk,
            line: Vec::new(alloc),
            count: 0,
            over: false,
        })
    }

    /// What comes next of the input: what the next line says that isn't skipped, or else why there is none. More bytes
    /// are pulled only where no whole line is left of those that were. A line that is longer than a line may be says
    /// `P::bad()`. The last line of an input may lack its line feed.
    ///
    /// # Errors
    /// Out of memory. No line is lost then, and a later call may go on.
    pub fn next<P: LineParser, S: Source>(
        &mut self,
        alloc: Global,
        input: &mut S,
    ) -> Result<NextItem<P::Item>, NoMemory>
        ensures ok { IfOk result (λ next. ReadsItem (items_of_line P.bad P.says longest) next self.old self.new (S.remaining input.old)
            (S.remaining input.new) (S.faults input.old) (S.faults input.new)) }
        ensures err { OnErr result (HoldsItems (items_of_line P.bad P.says longest) self.old self.new (S.remaining input.old) (S.remaining input.new)) }
        ensures faults { S.faults input.old ≤ S.faults input.new }
        ensures rest { self.new.over ≡ true → self.new.ahead ≡ [] }
    {
        while !self.is_over() {
            match self.next_ahead::<P>(alloc) {
                Ok(None) => {}
                Ok(Some(item)) => return Ok(NextItem::Item(item)),
                Err(NoMemory) => return Err(NoMemory),
            }
            match self.pull::<P, S>(input) {
                Pulled::Bytes => {}
                Pulled::Fault => return Ok(NextItem::SourceFault),
                Pulled::TooMany => return Ok(NextItem::LongInput),
                Pulled::Nothing => {
                    return match self.take_last::<P>(alloc) {
                        Ok(Some(item)) => Ok(NextItem::Item(item)),
                        Ok(None) => Ok(NextItem::End),
                        Err(NoMemory) => Err(NoMemory),
                    };
                }
            }
        }
        Ok(NextItem::End)
    }

    // Whether the input is over.
    fn is_over(&self) -> bool
        ensures value { result ≡ self.now.over }
        ensures none { result ≡ true → self.now.ahead ≡ [] }
    {
        self.over
    }

    // Whether all that was pulled is looked at.
    fn has_none_ahead(&self) -> bool
        ensures none { result ≡ true → self.now.ahead ≡ [] }
        ensures some { result ≡ false → 0 < length self.now.ahead }
    {
        self.chunk.bytes().is_empty()
    }

    // What the next whole line ahead says that isn't skipped. Where there is none, all that is ahead is looked at.
    fn next_ahead<P: LineParser>(&mut self, alloc: Global) -> Result<Option<P::Item>, NoMemory>
        requires going { self.old.over ≡ false }
        ensures ok { IfOk result (λ found. GoesOn (items_of_line P.bad P.says longest) (option_to_list found) self.old self.new) }
        ensures none { IfOk result (λ found. option_to_list found ≡ [] → self.new.ahead ≡ []) }
        ensures err { OnErr result (GoesOn (items_of_line P.bad P.says longest) [] self.old self.new) }
    {
        while !self.has_none_ahead() {
            let found = self.take_some::<P>(alloc);
            if !matches!(found, Ok(None)) {
                return found;
            }
        }
        Ok(None)
    }

    // Looks at the bytes ahead up to the first line feed, and at it too, or at all where there is none.
    fn take_some<P: LineParser>(&mut self, alloc: Global) -> Result<Option<P::Item>, NoMemory>
        requires going { self.old.over ≡ false }
        requires some { 0 < length self.old.ahead }
        ensures ok { IfOk result (λ found. GoesOn (items_of_line P.bad P.says longest) (option_to_list found) self.old self.new) }
        ensures fewer { IfOk result (λ _. length self.new.ahead < length self.old.ahead) }
        ensures err { OnErr result (GoesOn (items_of_line P.bad P.says longest) [] self.old self.new) }
    {
        match feed_in(self.chunk.bytes()) {
            None => {
                let count = self.chunk.bytes().len();
                self.keep::<P>(count)?;
                Ok(None)
            }
            Some(at) => {
                if self.line.is_empty() {
                    return self.take_whole::<P>(alloc, at);
                }
                self.keep::<P>(at)?;
                self.take_open::<P>(alloc)
            }
        }
    }

    // Keeps so many bytes behind the open line, as far as it is kept.
    fn keep<P: LineParser>(&mut self, count: usize) -> Result<(), NoMemory>
        requires going { self.old.over ≡ false }
        requires within { count ≤ length self.old.ahead }
        requires no_feed { list_all (λ b. not (b == 10)) (take count self.old.ahead) ≡ true }
        ensures ok { OnOk result (GoesOn (items_of_line P.bad P.says longest) [] self.old self.new) }
        ensures ahead { OnOk result (self.new.ahead ≡ drop count self.old.ahead) }
        ensures err { OnErr result (self.new ≡ self.old) }
    {
        let more = count.min(KEPT.saturating_sub(self.line.as_slice().len()));
        self.line.extend_from_slice(&self.chunk.bytes()[..more])?;
        self.chunk.pass(count);
        Ok(())
    }

    // Takes the line that lies whole ahead, up to the line feed that is there.
    fn take_whole<P: LineParser>(
        &mut self,
        alloc: Global,
        at: usize,
    ) -> Result<Option<P::Item>, NoMemory>
        requires going { self.old.over ≡ false }
        requires none { self.old.line ≡ [] }
        requires no_feed { list_all (λ b. not (b == 10)) (take at self.old.ahead) ≡ true }
        requires feed { drop at self.old.ahead ≡ 10 ∷ drop (at + 1) self.old.ahead }
        ensures ok { IfOk result (λ found. GoesOn (items_of_line P.bad P.says longest) (option_to_list found) self.old self.new) }
        ensures ahead { IfOk result (λ _. self.new.ahead ≡ drop (at + 1) self.old.ahead) }
        ensures err { OnErr result (self.new ≡ self.old) }
    {
        let found = item_of_line::<P>(alloc, &self.chunk.bytes()[..at]);
        if found.is_ok() {
            self.chunk.pass(at + 1);
        }
        found
    }

    // Takes the open line, whose line feed comes next.
    fn take_open<P: LineParser>(&mut self, alloc: Global) -> Result<Option<P::Item>, NoMemory>
        requires going { self.old.over ≡ false }
        requires feed { self.old.ahead ≡ 10 ∷ drop 1 self.old.ahead }
        ensures ok { IfOk result (λ found. GoesOn (items_of_line P.bad P.says longest) (option_to_list found) self.old self.new) }
        ensures ahead { IfOk result (λ _. self.new.ahead ≡ drop 1 self.old.ahead) }
        ensures err { OnErr result (self.new ≡ self.old) }
    {
        let found = item_of_line::<P>(alloc, self.line.as_slice());
        if found.is_ok() {
            self.line.clear();
            self.chunk.pass(1);
        }
        found
    }

    // Takes the last line of an input that is over.
    fn take_last<P: LineParser>(&mut self, alloc: Global) -> Result<Option<P::Item>, NoMemory>
        requires going { self.old.over ≡ false }
        requires none { self.old.ahead ≡ [] }
        ensures ok { IfOk result (λ found. EndsWith (items_of_line P.bad P.says longest) (option_to_list found) self.old self.new) }
        ensures err { OnErr result (self.new ≡ self.old) }
    {
        let found = item_of_line::<P>(alloc, self.line.as_slice());
        if found.is_ok() {
            self.line.clear();
            self.over = true;
        }
        found
    }

    // Pulls the next bytes, where all before are looked at.
    fn pull<P: LineParser, S: Source>(&mut self, input: &mut S) -> Pulled
        requires going { self.old.over ≡ false }
        requires none { self.old.ahead ≡ [] }
        ensures most { self.new.count ≤ 2 ^ 30 }
        ensures has { HasPulled (items_of_line P.bad P.says longest) result self.old self.new (S.remaining input.old) (S.remaining input.new)
            (S.faults input.old) (S.faults input.new) }
        ensures faults { S.faults input.old ≤ S.faults input.new }
    {
        if self.count == MOST {
            return pull_past::<P, S>(input);
        }
        match self.chunk.pull(input, MOST - self.count) {
            Err(SourceFault) => Pulled::Fault,
            Ok(0) => Pulled::Nothing,
            Ok(count) => {
                self.count += count;
                Pulled::Bytes
            }
        }
    }
}

// Looks whether one byte more comes than an input may have.
fn pull_past<P: LineParser, S: Source>(input: &mut S) -> Pulled
    ensures has { (r : ReaderState) → r.count ≡ 2 ^ 30
        → HasPulled (items_of_line P.bad P.says longest) result r r (S.remaining input.old) (S.remaining input.new) (S.faults input.old)
        (S.faults input.new) }
    ensures faults { S.faults input.old ≤ S.faults input.new }
{
    let mut next = [0u8; 1];
    match input.pull(&mut next) {
        Err(SourceFault) => Pulled::Fault,
        Ok(0) => Pulled::Nothing,
        Ok(_) => Pulled::TooMany,
    }
}

// Where the first line feed is.
fn feed_in(bytes: &[u8]) -> Option<usize>
    ensures first { result ≡ position (λ b. b == 10) bytes.now }
    ensures below { IfSome result (λ at. at < length bytes.now) }
{
    bytes.iter().position(|byte| *byte == FEED)
}

// A line feed.
const FEED: u8 = b'\n';

// The most bytes of a whole input.
const MOST: usize = LONGEST_INPUT as usize;

// The most bytes that are kept of a line: one more than it may have.
const KEPT: usize = LONGEST_LINE + 1;
