//! Which image the words name that is judged, what is said on standard error of one in which no log can be opened, or of a new
//! one that has no room, and what a run on two images says there beside what the system said: which one was lost, and how one
//! goes on.

use cmd_program::Status;
use cmd_words::{Request, read_words};
use disk_file::FileBay;
use std::rt::HostRuntime;

/// What the words ask for.
pub(crate) fn request_in(rt: &HostRuntime, words: &[String]) -> Option<Request> {
    match read_words(rt.alloc(), words) {
        Ok(request) => request,
        Err(_) => None,
    }
}

/// The image that is judged where a tree is to be shown or made again, a script to be run, or a log to be served.
pub(crate) fn image_of(request: Option<&Request>) -> Option<&str> {
    match request? {
        Request::Tree { image } | Request::Run { image } | Request::AppLog { image } => {
            Some(image.as_str())
        }
        Request::RunMirrored { image, other: _ } => Some(image.as_str()),
        Request::Upgrade { image, .. } => Some(image.as_str()),
        _ => None,
    }
}

/// Says of an image in which no log could be opened, or of a new one that has no room for a tree, so that the run ended with
/// this status, what is wrong with it.
pub(crate) fn say_of_room_or_log(rt: &HostRuntime, status: Status, request: Option<&Request>) {
    let image = image_of(request).unwrap_or("the image");
    if let Some(Request::Upgrade { other, .. }) = request {
        let other = other.as_str();
        let _ = eprintln!(rt;
            "optfs: {other} has too few nodes or data blocks for the tree of {image}, and wasn't made"
        );
        return;
    }
    let _ = match status {
        Status::NoRoom => eprintln!(rt;
            "optfs: {image} has no room for a directory /log, as the refusal says in the line before the last"
        ),
        _ => eprintln!(rt;
            "optfs: {image}: /log is no log: it is a file, or something in it is no segment, or none that follows the one before"
        ),
    };
}

/// Says of a run on two images that ended with this status what is to be done, where one was lost or they differ, or where
/// all writes were made for which there is room; a reply then said that the disk failed.
pub(crate) fn say_of_two(
    rt: &HostRuntime,
    status: Status,
    request: Option<&Request>,
    bay: &FileBay,
    has_failed: bool,
) {
    let Some(Request::RunMirrored { image, other }) = request else {
        return;
    };
    let (image, other) = (image.as_str(), other.as_str());
    let _ = match (status, is_lost(bay, image), is_lost(bay, other)) {
        (Status::Unlike, _, _) => eprintln!(rt;
            "optfs: {image} and {other} differ: remove the one that isn't to be kept, and make it anew by optfs copy"
        ),
        (Status::DiskFault, _, _) | (_, true, true) => Ok(()),
        (_, true, false) => say_lost(rt, image, other),
        (_, false, true) => say_lost(rt, other, image),
        (_, false, false) if has_failed => eprintln!(rt;
            "optfs: a run on two images has room for 524288 writes: run the rest anew"
        ),
        (_, false, false) => Ok(()),
    };
}

// Whether a call failed for this image.
fn is_lost(bay: &FileBay, image: &str) -> bool {
    bay.whys().iter().any(|why| why.is_of(image))
}

// Says which image was lost, and how one goes on from the one that is left.
fn say_lost(rt: &HostRuntime, lost: &str, left: &str) -> std::io::Result<()> {
    eprintln!(rt;
        "optfs: {lost} was lost, and the run went on with {left}: remove {lost}, and make it anew by optfs copy {left} {lost}"
    )
}
