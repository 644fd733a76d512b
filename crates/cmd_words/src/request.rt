//! The request that words ask for: its type, and how it is read from them. How `clap` is known of the
//! command line is in the module of the command, and what one text says in that of the values.

ghost use Rattle.std.specs.Prelude.{◌≡◌, IfOk, bytes_eq, codes, option_and_then};
ghost use Rattle.base_types.specs.declared.layout.Layout.TheVariants.{One};
ghost use Rattle.clap.specs.Words.{first_value, found_of};
ghost use Rattle.cmd_words.specs.Words.{IsInRange, asked_by, copy_of, layout_in, load_of, log_of, make_of, number_in, recording_of, replay_of, request_of, run_of, tree_of, upgrade_of, value_or};

use crate::choice_parse::parse_choice;
use crate::choice_refusal::ChoiceRefusal;
use crate::command::{
    APPLOG, AT, BLOCKS, COPY, COUNT, FAIL, IMAGE, JOURNAL, LAYOUT, LOAD, MIRROR, MKFS, NODES,
    NOTICES, OTHER, RECORD, REPLAY, ROOM, RUN, SEED, STAND, TEAR, TREE, UPGRADE, program,
};
use crate::values::{layout_in, notices_of, number_in};
use crate::word::Word;
use base_types::limits::{
    LEAST_BLOCKS, LEAST_JOURNAL, LEAST_NODES, MOST_BLOCKS, MOST_JOURNAL, MOST_NODES,
};
use base_types::{Layout, NoMemory};
use clap::ArgMatches;
use clap::error::ErrorKind;
use disk_memory::Choice;
use std::alloc::Global;

/// By which rule a disk in memory brings its notices.
#[derive(Clone, Copy, Debug, PartialEq, Eq)]
pub enum Notices {
    /// None comes.
    Silent,
    /// That of the least open ticket comes.
    Fifo,
    /// They come by a draw that begins with this seed, from 1 to 4,294,967,295.
    Seed(u32),
}

/// What the words ask for.
#[derive(Drop)]
pub enum Request {
    /// Record a script on a disk in memory, with so many blocks, journal blocks and nodes. Each number
    /// is in its range of `base_types::limits`.
    Record {
        blocks: u32,
        journal: u32,
        nodes: u32,
        /// How the nodes and slots of the disk are laid out.
        layout: Layout,
        /// By which rule the disk brings its notices.
        notices: Notices,
        /// For how many writes the disk has room, from 1 to 65,536.
        room: u32,
        /// Which write of the disk fails, counted from 1; or none does.
        fail: Option<u32>,
    },
    /// Replay a trace up to a moment, which is a number of events, and tell what a crash then leaves by a choice.
    Replay {
        moment: u32,
        choice: Choice,
    },
    /// Show the tree of the image with this name.
    Tree {
        image: Word,
    },
    /// Make the image with this name, with so many blocks, journal blocks and nodes, in this layout. Each number
    /// is in its range of `base_types::limits`.
    Make {
        image: Word,
        blocks: u32,
        journal: u32,
        nodes: u32,
        layout: Layout,
    },
    /// Run a script on the image with this name.
    Run {
        image: Word,
    },
    /// Run a script on the images with these two names, which are kept alike. The names differ.
    RunMirrored {
        image: Word,
        other: Word,
    },
    /// Copy the image with the first name to the one with the second. The names differ.
    Copy {
        image: Word,
        other: Word,
    },
    /// The load of this seed: the commands that it decides (docs/LOADS.md).
    Load {
        seed: u32,
        /// How many commands the load has, from 0 to 2,000.
        count: u32,
    },
    /// Serve the log of an application that is kept in the image with this name.
    AppLog {
        image: Word,
    },
    /// Make the tree of the image with the first name again on a new disk under the second, with so many blocks, journal
    /// blocks and nodes, in layout 2. The names differ, and each number is in its range of `base_types::limits`.
    Upgrade {
        image: Word,
        other: Word,
        blocks: u32,
        journal: u32,
        nodes: u32,
    },
}

/// The room for writes that a recording has without the option.
const DEFAULT_ROOM: u32 = 4096;

/// The most room for writes.
pub const MOST_ROOM: u32 = 65_536;

/// Which pending writes a replay has standing without the option: none of them.
const DEFAULT_STAND: &str = "none";

/// The most commands of a load.
pub const MOST_COUNT: u32 = 2000;

/// Reads the words behind the program's name. `None`: they are outside the grammar.
///
/// # Errors
/// Out of memory.
pub fn read_words(alloc: Global, words: &[String]) -> Result<Option<Request>, NoMemory>
    ensures exact { IfOk result (λ request. request ≡ request_of words.now) }
    ensures range { IfOk result (λ request. IsInRange request) }
{
    let command = program(alloc)?;
    match command.try_get_matches_from(words) {
        Ok(matches) => match matches.subcommand() {
            Some((name, found)) => {
                let request = requested(alloc, name, found)?;
                Ok(request)
            }
            None => Ok(None),
        },
        Err(error) => match error.kind() {
            ErrorKind::OutOfMemory => Err(NoMemory),
            _ => Ok(None),
        },
    }
}

// What the command of this name asks for whose texts were found.
fn requested(alloc: Global, name: &str, found: &ArgMatches) -> Result<Option<Request>, NoMemory>
    ensures { IfOk result (λ request. request ≡ asked_by name.now (first_value (found_of found.now))) }
{
    if RECORD == name {
        return Ok(recording(found));
    }
    if REPLAY == name {
        let request = replaying(alloc, found)?;
        return Ok(request);
    }
    if TREE == name {
        let request = showing(alloc, found)?;
        return Ok(request);
    }
    if MKFS == name {
        let request = making(alloc, found)?;
        return Ok(request);
    }
    if RUN == name {
        let request = running(alloc, found)?;
        return Ok(request);
    }
    if LOAD == name {
        return Ok(loading(found));
    }
    if COPY == name {
        let request = copying(alloc, found)?;
        return Ok(request);
    }
    if APPLOG == name {
        let request = logging(alloc, found)?;
        return Ok(request);
    }
    if UPGRADE == name {
        let request = upgrading(alloc, found)?;
        return Ok(request);
    }
    Ok(None)
}

/// The recording whose texts were found.
fn recording(found: &ArgMatches) -> Option<Request>
    ensures { result ≡ recording_of (first_value (found_of found.now)) }
{
    let blocks = number(found, BLOCKS, LEAST_BLOCKS, MOST_BLOCKS)?;
    let journal = number(found, JOURNAL, LEAST_JOURNAL, MOST_JOURNAL)?;
    let nodes = number(found, NODES, LEAST_NODES, MOST_NODES)?;
    let layout = layout(found)?;
    let notices = match found.get_str(NOTICES) {
        Some(text) => notices_of(text)?,
        None => Notices::Silent,
    };
    let room = match found.get_str(ROOM) {
        Some(text) => number_in(text, 1, MOST_ROOM)?,
        None => DEFAULT_ROOM,
    };
    let fail = match found.get_str(FAIL) {
        Some(text) => Some(number_in(text, 1, u32::MAX)?),
        None => None,
    };
    Some(Request::Record {
        blocks,
        journal,
        nodes,
        layout,
        notices,
        room,
        fail,
    })
}

/// The number that was found under this name.
fn number(found: &ArgMatches, id: &str, low: u32, high: u32) -> Option<u32>
    ensures { result ≡ option_and_then (number_in low high) (first_value (found_of found.now) id.now) }
{
    match found.get_str(id) {
        Some(text) => number_in(text, low, high),
        None => None,
    }
}

/// The layout that was found, or layout 1.
fn layout(found: &ArgMatches) -> Option<Layout>
    ensures { result ≡ value_or One layout_in (first_value (found_of found.now) (codes "layout")) }
{
    match found.get_str(LAYOUT) {
        Some(text) => layout_in(text),
        None => Some(Layout::One),
    }
}

/// The replay whose texts were found.
fn replaying(alloc: Global, found: &ArgMatches) -> Result<Option<Request>, NoMemory>
    ensures { IfOk result (λ request. request ≡ replay_of (first_value (found_of found.now))) }
{
    let Some(moment) = number(found, AT, 0, u32::MAX) else {
        return Ok(None);
    };
    let stand = found.get_str(STAND).unwrap_or(DEFAULT_STAND);
    match parse_choice(alloc, stand, found.get_str(TEAR)) {
        Ok(choice) => Ok(Some(Request::Replay { moment, choice })),
        Err(ChoiceRefusal::BadText) => Ok(None),
        Err(ChoiceRefusal::NoMemory) => Err(NoMemory),
    }
}

/// The tree whose image was found.
fn showing(alloc: Global, found: &ArgMatches) -> Result<Option<Request>, NoMemory>
    ensures { IfOk result (λ request. request ≡ tree_of (first_value (found_of found.now))) }
{
    match word_in(alloc, found, IMAGE)? {
        Some(image) => Ok(Some(Request::Tree { image })),
        None => Ok(None),
    }
}

/// The making whose image, numbers and layout were found.
fn making(alloc: Global, found: &ArgMatches) -> Result<Option<Request>, NoMemory>
    ensures { IfOk result (λ request. request ≡ make_of (first_value (found_of found.now))) }
{
    let Some(image) = word_in(alloc, found, IMAGE)? else {
        return Ok(None);
    };
    let Some(blocks) = number(found, BLOCKS, LEAST_BLOCKS, MOST_BLOCKS) else {
        return Ok(None);
    };
    let Some(journal) = number(found, JOURNAL, LEAST_JOURNAL, MOST_JOURNAL) else {
        return Ok(None);
    };
    let Some(nodes) = number(found, NODES, LEAST_NODES, MOST_NODES) else {
        return Ok(None);
    };
    let Some(layout) = layout(found) else {
        return Ok(None);
    };
    Ok(Some(Request::Make {
        image,
        blocks,
        journal,
        nodes,
        layout,
    }))
}

/// The run whose image was found, or its two images.
fn running(alloc: Global, found: &ArgMatches) -> Result<Option<Request>, NoMemory>
    ensures { IfOk result (λ request. request ≡ run_of (first_value (found_of found.now))) }
{
    let Some(image) = word_in(alloc, found, IMAGE)? else {
        return Ok(None);
    };
    let Some(other) = word_in(alloc, found, MIRROR)? else {
        return Ok(Some(Request::Run { image }));
    };
    if are_one(&image, &other) {
        return Ok(None);
    }
    Ok(Some(Request::RunMirrored { image, other }))
}

/// The copying whose two images were found.
fn copying(alloc: Global, found: &ArgMatches) -> Result<Option<Request>, NoMemory>
    ensures { IfOk result (λ request. request ≡ copy_of (first_value (found_of found.now))) }
{
    let Some(image) = word_in(alloc, found, IMAGE)? else {
        return Ok(None);
    };
    let Some(other) = word_in(alloc, found, OTHER)? else {
        return Ok(None);
    };
    if are_one(&image, &other) {
        return Ok(None);
    }
    Ok(Some(Request::Copy { image, other }))
}

/// The upgrade whose two images and numbers were found.
fn upgrading(alloc: Global, found: &ArgMatches) -> Result<Option<Request>, NoMemory>
    ensures { IfOk result (λ request. request ≡ upgrade_of (first_value (found_of found.now))) }
{
    let Some(image) = word_in(alloc, found, IMAGE)? else {
        return Ok(None);
    };
    let Some(other) = word_in(alloc, found, OTHER)? else {
        return Ok(None);
    };
    let Some(blocks) = number(found, BLOCKS, LEAST_BLOCKS, MOST_BLOCKS) else {
        return Ok(None);
    };
    let Some(journal) = number(found, JOURNAL, LEAST_JOURNAL, MOST_JOURNAL) else {
        return Ok(None);
    };
    let Some(nodes) = number(found, NODES, LEAST_NODES, MOST_NODES) else {
        return Ok(None);
    };
    if are_one(&image, &other) {
        return Ok(None);
    }
    Ok(Some(Request::Upgrade {
        image,
        other,
        blocks,
        journal,
        nodes,
    }))
}

/// Whether two images have one name.
fn are_one(image: &Word, other: &Word) -> bool
    ensures { result ≡ bytes_eq image.now other.now }
{
    image.as_str() == other.as_str()
}

/// The word that was found under this name.
fn word_in(alloc: Global, found: &ArgMatches, id: &str) -> Result<Option<Word>, NoMemory>
    ensures { IfOk result (λ word. word ≡ first_value (found_of found.now) id.now) }
{
    let Some(text) = found.get_str(id) else {
        return Ok(None);
    };
    let word = Word::from_str(alloc, text)?;
    Ok(Some(word))
}

/// The load whose numbers were found.
fn loading(found: &ArgMatches) -> Option<Request>
    ensures { result ≡ load_of (first_value (found_of found.now)) }
{
    let seed = number(found, SEED, 0, u32::MAX)?;
    let count = number(found, COUNT, 0, MOST_COUNT)?;
    Some(Request::Load { seed, count })
}

/// The log whose image was found.
fn logging(alloc: Global, found: &ArgMatches) -> Result<Option<Request>, NoMemory>
    ensures { IfOk result (λ request. request ≡ log_of (first_value (found_of found.now))) }
{
    match word_in(alloc, found, IMAGE)? {
        Some(image) => Ok(Some(Request::AppLog { image })),
        None => Ok(None),
    }
}
