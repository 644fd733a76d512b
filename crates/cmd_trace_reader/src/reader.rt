//! The lines of a trace behind the first, one after the other: each is taken exactly where it may follow. What was
//! read so far is kept. Where the lines come from isn't known here.

ghost use Rattle.std.specs.Prelude.{◌≡◌, IfOk, option_map};
ghost use Rattle.cmd_trace_reader.specs.Reading.{state_of, TakesLine, Follows, HappensBy, AsksBy, AnswersBy, EndsBy, Begins, contents_of, has_events};
ghost use Rattle.cmd_trace_reader.specs.Reading.{is_between, is_ended, mounted_by};

use crate::event_log::EventLog;
use crate::replay::Replay;
use crate::trace::Trace;
use base_types::NoMemory;
use cmd_trace::{
    a_line_says_one_thing, is_end, read_command, read_event, read_geometry, read_reply,
};
use lang_tree::{Cmd, Reply};
use layout_geometry::Geom;
use std::alloc::Global;
use std::mem;

/// Where in a trace the next line stands.
#[derive(Drop)]
pub enum Place {
    /// Behind the geometry, among the events of the mount.
    Mounting,
    /// Behind a command, which waits for its reply.
    Asked(Cmd),
    /// Behind a reply.
    Answered,
    /// Behind the last line.
    Ended,
}

impl Place {
    // Whether an event may stand there.
    fn has_events(&self) -> bool
        ensures { result ≡ has_events self.now }
    {
        match self {
            Place::Mounting | Place::Asked(_) => true,
            Place::Answered | Place::Ended => false,
        }
    }

    // Whether a command may begin there, or the trace end.
    fn is_between(&self) -> bool
        ensures { result ≡ is_between self.now }
    {
        match self {
            Place::Mounting | Place::Answered => true,
            Place::Asked(_) | Place::Ended => false,
        }
    }

    // How many events are the mount's, where there are so many behind one more.
    fn mounted_by(&self, mounted: u64, events: u64) -> u64
        ensures { result ≡ mounted_by self.now mounted events }
    {
        match self {
            Place::Mounting => events,
            Place::Asked(_) | Place::Answered | Place::Ended => mounted,
        }
    }
}

/// What was read so far.
#[derive(Drop)]
pub struct Reader {
    geom: Geom,
    log: EventLog,
    mounted: u64,
    cmds: Vec<Cmd>,
    replies: Vec<Reply>,
    marks: Vec<u64>,
    replay: Replay,
    place: Place,
}

impl Reader {
    /// Begins with the first line, which is given without its line feed, where it is that of a geometry that fits.
    ///
    /// # Errors
    /// Out of memory.
    pub fn begin(alloc: Global, line: &[u8]) -> Result<Option<Reader>, NoMemory>
        ensures { IfOk result (λ reader. Begins line.now (option_map state_of reader)) }
    {
        let Some(geom) = read_geometry(line) else {
            return Ok(None);
        };
        geom.lawful();
        let replay = Replay::new(alloc, geom.i(), geom.layout())?;
        Ok(Some(Reader {
            geom,
            log: EventLog::new(alloc),
            mounted: 0,
            cmds: Vec::new(alloc),
            replies: Vec::new(alloc),
            marks: Vec::new(alloc),
            replay,
            place: Place::Mounting,
        }))
    }

    /// Whether the last line was taken.
    pub fn is_ended(&self) -> bool
        ensures { result ≡ is_ended (state_of self.now).place }
    {
        match self.place {
            Place::Ended => true,
            Place::Mounting | Place::Asked(_) | Place::Answered => false,
        }
    }

    /// What was read, without the command that waits for its reply.
    pub fn into_trace(self) -> Trace
        ensures { result ≡ contents_of (state_of self) }
    {
        let Reader {
            geom,
            log,
            mounted,
            cmds,
            replies,
            marks,
            ..
        } = self;
        Trace {
            geom,
            log: log.into_events(),
            mounted,
            cmds,
            replies,
            marks,
        }
    }

    /// Takes the next line, which is given without its line feed, and tells whether it may follow.
    ///
    /// # Errors
    /// Out of memory, and then the reader serves no longer.
    pub fn take(&mut self, alloc: Global, line: &[u8]) -> Result<bool, NoMemory>
        ensures { IfOk result (λ taken. TakesLine Follows (state_of self.old) line.now taken (state_of self.new)) }
    {
        match line {
            [] => Ok(false),
            [first, ..] => {
                if *first == b'c' {
                    let taken = self.take_command(alloc, line)?;
                    return Ok(taken);
                }
                if *first == b'r' {
                    let taken = self.take_reply(alloc, line)?;
                    return Ok(taken);
                }
                if *first == b'e' {
                    return Ok(self.take_end(line));
                }
                let taken = self.take_event(alloc, line)?;
                Ok(taken)
            }
        }
    }

    fn take_event(&mut self, alloc: Global, line: &[u8]) -> Result<bool, NoMemory>
        ensures { IfOk result (λ taken. TakesLine HappensBy (state_of self.old) line.now taken (state_of self.new)) }
    {
        if !self.place.has_events() {
            return Ok(false);
        }
        a_line_says_one_thing();
        self.geom.lawful();
        let Some(event) = read_event(alloc, line)? else {
            return Ok(false);
        };
        if !self.log.take(event, self.geom.n())? {
            return Ok(false);
        }
        self.mounted = self.place.mounted_by(self.mounted, self.log.len());
        Ok(true)
    }

    fn take_command(&mut self, alloc: Global, line: &[u8]) -> Result<bool, NoMemory>
        ensures { IfOk result (λ taken. TakesLine AsksBy (state_of self.old) line.now taken (state_of self.new)) }
    {
        if !self.place.is_between() {
            return Ok(false);
        }
        match read_command(alloc, line)? {
            Some(cmd) => {
                self.place = Place::Asked(cmd);
                Ok(true)
            }
            None => Ok(false),
        }
    }

    fn take_reply(&mut self, alloc: Global, line: &[u8]) -> Result<bool, NoMemory>
        ensures { IfOk result (λ taken. TakesLine AnswersBy (state_of self.old) line.now taken (state_of self.new)) }
    {
        a_line_says_one_thing();
        let events = self.log.len();
        let Some((moment, text)) = read_reply(line) else {
            return Ok(false);
        };
        if moment != events {
            return Ok(false);
        }
        let Place::Asked(cmd) = mem::replace(&mut self.place, Place::Answered) else {
            return Ok(false);
        };
        let Some(reply) = self.replay.take(alloc, &cmd, text)? else {
            return Ok(false);
        };
        self.cmds.push(cmd)?;
        self.replies.push(reply)?;
        self.marks.push(moment)?;
        Ok(true)
    }

    fn take_end(&mut self, line: &[u8]) -> bool
        ensures { TakesLine EndsBy (state_of self.old) line.now result (state_of self.new) }
    {
        if !self.place.is_between() {
            return false;
        }
        if !is_end(line) {
            return false;
        }
        self.place = Place::Ended;
        true
    }
}
