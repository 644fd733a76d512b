//! The standard input and output of the program. The output is held back in a buffer, and handed on before each read of
//! the input: no reply waits in the buffer while the program waits for a command. Where the output failed once, nothing
//! more is written or read. They are for `main` alone, and no clause knows their bytes.

ghost use Rattle.std.specs.Io.{WritesAtMost};

use crate::replies::Replies;
use std::alloc::Global;
use std::cell::RefCell;
use std::io::{self, BufWriter, ErrorKind, Read, Stdin, Stdout, Write};
use std::mem;

/// The output behind its buffer, and what the system said of either stream.
#[derive(Drop)]
pub(crate) struct Streams {
    /// The output, or what the system said when it failed.
    output: Result<BufWriter<Stdout>, io::Error>,
    /// The replies that go through, where those of a script or a log are looked at.
    replies: Option<Replies>,
    /// What the system said when the input failed.
    pub(crate) input_error: Option<io::Error>,
}

impl Streams {
    /// The streams, of which nothing was used yet.
    ///
    /// # Errors
    /// Out of memory.
    pub(crate) fn new(
        alloc: Global,
        output: Stdout,
        replies: Option<Replies>,
    ) -> io::Result<Streams> {
        Ok(Streams {
            output: Ok(BufWriter::new(alloc, output)?),
            replies,
            input_error: None,
        })
    }

    /// What the system said when the output failed.
    pub(crate) fn output_error(&self) -> Option<io::Error> {
        match &self.output {
            Ok(_) => None,
            Err(why) => Some(*why),
        }
    }

    /// The first reply by which the disk failed.
    pub(crate) fn failed(&self) -> Option<u64> {
        self.replies.as_ref()?.failed()
    }

    // Takes bytes into the buffer, unless the output failed before.
    fn write(&mut self, bytes: &[u8]) -> io::Result<usize>
        ensures { WritesAtMost result bytes.now }
    {
        let done = match &mut self.output {
            Ok(buffer) => buffer.write(bytes),
            Err(why) => return Err(*why),
        };
        match (done, &mut self.replies) {
            (Err(why), _) => self.give_up(why),
            (Ok(count), Some(replies)) => replies.pass(&bytes[..count]),
            (Ok(_), None) => {}
        }
        done
    }

    // Hands on what the buffer holds, unless the output failed before.
    fn flush(&mut self) -> io::Result<()> {
        let done = match &mut self.output {
            Ok(buffer) => buffer.flush(),
            Err(why) => return Err(*why),
        };
        if let Err(why) = done {
            self.give_up(why);
        }
        done
    }

    // Lets what the buffer holds go, which would else be written at the end.
    fn give_up(&mut self, why: io::Error) {
        if let Ok(buffer) = mem::replace(&mut self.output, Err(why)) {
            let _ = buffer.into_parts();
        }
    }
}

/// The standard output.
#[derive(Drop)]
pub(crate) struct BufferedOutput<'a> {
    streams: &'a RefCell<Streams>,
}

impl BufferedOutput<'_> {
    /// The output of these streams.
    pub(crate) fn new(streams: &RefCell<Streams>) -> BufferedOutput<'_> {
        BufferedOutput { streams }
    }
}

impl Write for BufferedOutput<'_> {
    fn write(&mut self, bytes: &[u8]) -> io::Result<usize> {
        self.streams.try_borrow_mut()?.write(bytes)
    }

    fn flush(&mut self) -> io::Result<()> {
        self.streams.try_borrow_mut()?.flush()
    }
}

/// The standard input. A read fails where the output couldn't be handed on before it; one that a signal interrupts is tried
/// again.
#[derive(Drop)]
pub(crate) struct PromptInput<'a> {
    input: Stdin,
    streams: &'a RefCell<Streams>,
}

impl PromptInput<'_> {
    /// The input before whose reads the output of these streams is handed on.
    pub(crate) fn new(input: Stdin, streams: &RefCell<Streams>) -> PromptInput<'_> {
        PromptInput { input, streams }
    }
}

impl Read for PromptInput<'_> {
    fn read(&mut self, into: &mut [u8]) -> io::Result<usize> {
        let mut streams = self.streams.try_borrow_mut()?;
        streams.flush()?;
        for _ in 0..u64::MAX {
            match self.input.read(into) {
                Err(why) if why.kind() == ErrorKind::Interrupted => {}
                done => {
                    streams.input_error = done.err();
                    return done;
                }
            }
        }
        Err(io::Error::from(ErrorKind::Interrupted))
    }
}
