//! The lines of a trace from its bytes: the line that isn't whole yet is held, and each whole one is handed on. Behind
//! the first line that may not come the bytes are passed over. Where the bytes come from isn't known here.

ghost use Rattle.std.specs.Prelude.{◌≡◌, ℕ, ◌+◌, ◌^◌, ◌<◌, ◌≤◌, List, [], ◌∷◌, ◌++◌, length, take, ◌==◌, IfOk, IfSome, OnOk, option_map, false};
ghost use Rattle.std.specs.List.{position};
ghost use Rattle.cmd_trace_reader.specs.Reading.{state_of, TakesNext};
ghost use Rattle.cmd_trace_reader.specs.Progress.{HasRead, Finishes};

use crate::laws::lines_come_as_traces_go;
use crate::reader::Reader;
use crate::trace::Trace;
use base_types::NoMemory;
use std::alloc::Global;

/// The lines of a trace so far.
#[derive(Drop)]
pub struct Lines {
    // What the whole lines said; none before the first one.
    reader: Option<Reader>,
    // The line that isn't whole yet.
    line: Vec<u8>,
    // How many lines were taken.
    count: u64,
    // Whether the next one couldn't be.
    wrong: bool,
}

impl Lines {
    /// No bytes so far. It takes no memory.
    pub fn new(alloc: Global) -> Lines
        ensures { HasRead [] result }
    {
        Lines {
            reader: None,
            line: Vec::new(alloc),
            count: 0,
            wrong: false,
        }
    }

    /// Takes these bytes.
    ///
    /// # Errors
    /// Out of memory.
    pub fn take_all(&mut self, alloc: Global, bytes: &[u8]) -> Result<(), NoMemory>
        ensures { OnOk result ((seen : List ℕ) → length seen + length bytes.now ≤ 2 ^ 30 → HasRead seen self.old → HasRead (seen ++ bytes.now) self.new) }
    {
        let mut done: usize = 0;
        while done < bytes.len() {
            if self.wrong {
                return Ok(());
            }
            let more = self.take_some(alloc, &bytes[done..])?;
            done += more;
        }
        Ok(())
    }

    // Takes the bytes up to the first line feed, and it too, or all where there is none, and tells how many.
    fn take_some(&mut self, alloc: Global, bytes: &[u8]) -> Result<usize, NoMemory>
        requires { 0 < length bytes.now }
        ensures some { IfOk result (λ n. (0 < n) × (n ≤ length bytes.now)) }
        ensures takes { IfOk result (λ n. (seen : List ℕ) → length seen + length bytes.now ≤ 2 ^ 30 → self.old.wrong ≡ false → HasRead seen self.old
            → HasRead (seen ++ take n bytes.now) self.new) }
    {
        match feed_in(bytes) {
            None => {
                self.line.extend_from_slice(bytes)?;
                Ok(bytes.len())
            }
            Some(at) => {
                self.line.extend_from_slice(&bytes[..at])?;
                self.take_line(alloc)?;
                Ok(at + 1)
            }
        }
    }

    // Takes the line, which is whole now.
    fn take_line(&mut self, alloc: Global) -> Result<(), NoMemory>
        ensures { OnOk result ((seen : List ℕ) → length seen < 2 ^ 30 → self.old.wrong ≡ false → HasRead seen self.old → HasRead (seen ++ 10 ∷ []) self.new) }
    {
        lines_come_as_traces_go();
        if next_line(&mut self.reader, alloc, self.line.as_slice())? {
            self.count = self.count.saturating_add(1);
            self.line.clear();
            return Ok(());
        }
        self.wrong = true;
        Ok(())
    }

    /// The trace that the bytes are, where they are all of one.
    ///
    /// # Errors
    /// The number of the first line at which it shows that they aren't, counted from 1.
    pub fn into_trace(self) -> Result<Trace, u64>
        ensures { (bytes : List ℕ) → length bytes ≤ 2 ^ 30 → HasRead bytes self → Finishes bytes result }
    {
        lines_come_as_traces_go();
        let Lines {
            reader,
            line,
            count,
            wrong,
        } = self;
        let next = count.saturating_add(1);
        if wrong {
            return Err(next);
        }
        if !line.as_slice().is_empty() {
            return Err(next);
        }
        match reader {
            None => Err(next),
            Some(reader) => {
                if !reader.is_ended() {
                    return Err(next);
                }
                Ok(reader.into_trace())
            }
        }
    }
}

// Takes a whole line, where it may come, and tells whether it may.
fn next_line(reader: &mut Option<Reader>, alloc: Global, line: &[u8]) -> Result<bool, NoMemory>
    ensures { IfOk result (λ taken. TakesNext (option_map state_of reader.old) line.now taken (option_map state_of reader.new)) }
{
    match reader {
        Some(reader) => {
            let taken = reader.take(alloc, line)?;
            Ok(taken)
        }
        None => {
            let first = Reader::begin(alloc, line)?;
            let taken = first.is_some();
            *reader = first;
            Ok(taken)
        }
    }
}

// Where the first line feed is.
fn feed_in(bytes: &[u8]) -> Option<usize>
    ensures first { result ≡ position (λ b. b == 10) bytes.now }
    ensures below { IfSome result (λ at. at < length bytes.now) }
{
    bytes.iter().position(|byte| *byte == FEED)
}

// A line feed.
const FEED: u8 = b'\n';
