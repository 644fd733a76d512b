//! The process `optfs`: its words, its standard streams and the image files go into `cmd_program`, and the status comes out.
//! Nothing here has a clause; what it is trusted for is in the README.
#![tactic(auto)]

mod images;
mod messages;
mod replies;
mod streams;

use base_io::{ReadSource, WriteSink};
use cmd_program::{Status, optfs};
use disk_file::FileBay;
use messages::say_why;
use replies::Replies;
use std::cell::RefCell;
use std::env;
use std::io::{self, ErrorKind};
use std::process::ExitCode;
use streams::{BufferedOutput, PromptInput, Streams};

/// Gives the program the words, the standard input and the standard output, and exits with its status.
fn main(rt: HostRuntime) -> ExitCode {
    let status = match run(&rt) {
        Ok(status) => status,
        Err(_) => {
            let _ = eprintln!(&rt; "optfs: memory ran out");
            Status::NoMemory
        }
    };
    ExitCode::from(status.number())
}

/// Runs the program. What the output holds back is written at the end; where it failed, the sink failed. Why the status
/// isn't 0 is then told on standard error.
///
/// # Errors
/// Out of memory.
fn run(rt: &HostRuntime) -> io::Result<Status> {
    let words = words_of(rt)?;
    let serves = is_command(&words, "run") || is_command(&words, "applog");
    let replies = serves.then(Replies::new);
    let streams = RefCell::new(Streams::new(rt.alloc(), rt.stdout(), replies)?);
    let mut input = ReadSource::new(PromptInput::new(rt.stdin(), &streams));
    let mut out = WriteSink::new(BufferedOutput::new(&streams));
    let mut bay = if is_command(&words, "tree") {
        FileBay::to_show(rt)
    } else {
        FileBay::new(rt)
    };
    let status = optfs(rt.alloc(), words.as_slice(), &mut input, &mut out, &mut bay);
    let status = match out.flush() {
        Ok(()) => status,
        Err(_) => Status::SinkFault,
    };
    if let Ok(streams) = streams.try_borrow() {
        say_why(rt, words.as_slice(), status, &bay, &streams);
    }
    Ok(status)
}

/// Whether the first word is the name of this command.
fn is_command(words: &[String], name: &str) -> bool {
    words.first().is_some_and(|word| word.as_str() == name)
}

/// The words behind the program's name. There are none where one of them isn't UTF-8: no request has such
/// a word, so they ask for nothing, as no words do.
fn words_of(rt: &HostRuntime) -> io::Result<Vec<String>> {
    let mut words = Vec::new(rt.alloc());
    match env::args(rt) {
        Ok(all) => {
            for word in all.skip(1) {
                words.push(word)?;
            }
        }
        Err(why) if why.kind() == ErrorKind::InvalidData => {
            let _ = eprintln!(rt; "optfs: a word isn't UTF-8");
        }
        Err(why) => return Err(why),
    }
    Ok(words)
}
