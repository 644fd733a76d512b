//! What a run says on standard error: why its status isn't 0, and what the system said. Standard output has what the
//! pages promise, and none of this; no contract reads it.

use crate::images::{image_of, request_in, say_of_room_or_log, say_of_two};
use crate::streams::Streams;
use cmd_program::Status;
use cmd_words::{Request, complaint};
use disk_file::FileBay;
use std::rt::HostRuntime;

/// The commands and their words.
const USAGE: &str = "usage: optfs mkfs IMAGE N J I [--layout 1|2]
       optfs run IMAGE [--mirror OTHER] < SCRIPT > REPLIES
       optfs applog IMAGE < CALLS > REPLIES
       optfs copy IMAGE OTHER
       optfs upgrade IMAGE NEW N J I
       optfs tree IMAGE > LISTING
       optfs record N J I [--notices none|fifo|SEED] [--room R] [--fail W] [--layout 1|2] < SCRIPT > TRACE
       optfs replay --at K [--stand all|none|LIST] [--tear LIST] < TRACE
       optfs load --seed S --count C";

/// Says why a run ended with this status, a line for each cause.
pub(crate) fn say_why(
    rt: &HostRuntime,
    words: &[String],
    status: Status,
    bay: &FileBay,
    streams: &Streams,
) {
    for why in bay.whys() {
        let _ = eprintln!(rt; "optfs: {why}");
    }
    let request = request_in(rt, words);
    let failed = streams.failed();
    if let Some(reply) = failed {
        let _ = eprintln!(rt;
            "optfs: the disk failed: from reply {reply} on, which is refused 14, nothing was done"
        );
    }
    say_of_two(rt, status, request.as_ref(), bay, failed.is_some());
    say_status(rt, words, status, bay, streams, request.as_ref());
}

// Says what the status means, where that isn't told yet.
fn say_status(
    rt: &HostRuntime,
    words: &[String],
    status: Status,
    bay: &FileBay,
    streams: &Streams,
    request: Option<&Request>,
) {
    match status {
        Status::Usage => say_usage(rt, words),
        Status::DiskFault if !bay.whys().is_empty() => {}
        Status::Damaged(damage) => {
            let _ = match image_of(request) {
                Some(image) => eprintln!(rt; "optfs: {image} stands for no tree: {damage}"),
                None => eprintln!(rt; "optfs: the crash leaves no tree: {damage}"),
            };
        }
        Status::NoRoom | Status::BadLog => say_of_room_or_log(rt, status, request),
        Status::SourceFault => say_of(rt, "the input can't be read", streams.input_error),
        Status::SinkFault => say_of(rt, "the output can't be written", streams.output_error()),
        status => {
            if let Some(why) = meaning(status) {
                let _ = eprintln!(rt; "optfs: {why}");
            }
        }
    }
}

// What a status means that has nothing more to tell.
fn meaning(status: Status) -> Option<&'static str> {
    match status {
        Status::Done
        | Status::Usage
        | Status::Damaged(_)
        | Status::SourceFault
        | Status::SinkFault
        | Status::NoRoom
        | Status::Unlike
        | Status::BadLog => None,
        Status::BadTrace => Some(
            "the input is no trace, as the line shows that standard output names",
        ),
        Status::NoMemory => Some("memory ran out"),
        Status::DiskFault => Some("the disk failed in the mount"),
        Status::Spent => Some(
            "the numbers of the image's journal are used up: copy its files to a new image",
        ),
        Status::NoPrefix => Some("the crash leaves the tree of no sync point that it may leave"),
        Status::BadShape => Some(
            "the numbers of blocks, journal blocks and nodes don't fit together",
        ),
        Status::LongInput => Some("the input has more than 2^30 bytes"),
        Status::BadChoice => Some(
            "the trace has no such moment, or no such write that is pending then",
        ),
    }
}

// Says what the system said of a stream.
fn say_of(rt: &HostRuntime, what: &str, why: Option<std::io::Error>) {
    match why {
        Some(why) => {
            let _ = eprintln!(rt; "optfs: {what}: {why}");
        }
        None => {
            let _ = eprintln!(rt; "optfs: {what}");
        }
    }
}

// Says which word is wrong, and what words there are.
fn say_usage(rt: &HostRuntime, words: &[String]) {
    if let Ok(why) = complaint(rt.alloc(), words) {
        let _ = eprintln!(rt; "optfs: {why}");
    }
    let _ = eprintln!(rt; "{USAGE}");
}
