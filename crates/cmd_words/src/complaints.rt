//! What is wrong with words that ask for nothing, as a line for people. No contract reads it; what words ask for is in the
//! module of the request.

use crate::choice_parse::parse_choice;
use crate::choice_refusal::ChoiceRefusal;
use crate::command::{
    AT, BLOCKS, COUNT, FAIL, IMAGE, JOURNAL, LAYOUT, MIRROR, NODES, NOTICES, OTHER, ROOM, SEED,
    STAND, TEAR, program,
};
use crate::request::{MOST_COUNT, MOST_ROOM};
use crate::values::{layout_in, notices_of, number_in};
use base_types::NoMemory;
use base_types::limits::{
    LEAST_BLOCKS, LEAST_JOURNAL, LEAST_NODES, MOST_BLOCKS, MOST_JOURNAL, MOST_NODES,
};
use clap::ArgMatches;
use std::alloc::Global;

/// The numbers of the command line, and the range of each.
const RANGES: [(&str, u32, u32); 8] = [
    (BLOCKS, LEAST_BLOCKS, MOST_BLOCKS),
    (JOURNAL, LEAST_JOURNAL, MOST_JOURNAL),
    (NODES, LEAST_NODES, MOST_NODES),
    (ROOM, 1, MOST_ROOM),
    (FAIL, 1, u32::MAX),
    (AT, 0, u32::MAX),
    (SEED, 0, u32::MAX),
    (COUNT, 0, MOST_COUNT),
];

/// What is wrong with words that ask for nothing, on one line: which word can't stand, or which is missing.
///
/// # Errors
/// Out of memory.
pub fn complaint(alloc: Global, words: &[String]) -> Result<String, NoMemory> {
    let command = program(alloc)?;
    match command.try_get_matches_from(words) {
        Err(error) => {
            let text = format!(in alloc; "{error}")?;
            on_one_line(alloc, text.as_str())
        }
        Ok(matches) => match matches.subcommand() {
            Some((_, found)) => of_texts(alloc, found),
            None => Ok(String::from_str(alloc, "no command")?),
        },
    }
}

// What is wrong with the texts that were found.
fn of_texts(alloc: Global, found: &ArgMatches) -> Result<String, NoMemory> {
    for (name, low, high) in RANGES.iter() {
        if let Some(text) = found.get_str(name) {
            if number_in(text, *low, *high).is_none() {
                return Ok(format!(in alloc;
                    "'{text}' is no number from {low} to {high}, as <{name}> is"
                )?);
            }
        }
    }
    if let Some(text) = found.get_str(NOTICES) {
        if notices_of(text).is_none() {
            return Ok(format!(in alloc;
                "'{text}' is none of none, fifo and a seed from 1 to 4294967295"
            )?);
        }
    }
    if let Some(text) = found.get_str(LAYOUT) {
        if layout_in(text).is_none() {
            return Ok(format!(in alloc; "'{text}' is none of 1 and 2, as <layout> is")?);
        }
    }
    let other = found.get_str(MIRROR).or(found.get_str(OTHER));
    if let (Some(image), Some(other)) = (found.get_str(IMAGE), other) {
        if image == other {
            return Ok(format!(in alloc; "'{other}' is the name of both images")?);
        }
    }
    of_lists(alloc, found)
}

// What is wrong with the lists of a choice that were found.
fn of_lists(alloc: Global, found: &ArgMatches) -> Result<String, NoMemory> {
    if let Some(text) = found.get_str(STAND) {
        match parse_choice(alloc, text, None) {
            Ok(_) => {}
            Err(ChoiceRefusal::NoMemory) => return Err(NoMemory),
            Err(ChoiceRefusal::BadText) => {
                return Ok(format!(in alloc; "'{text}' is none of all, none and a list of writes")?);
            }
        }
    }
    let text = found.get_str(TEAR).unwrap_or("");
    Ok(format!(in alloc; "'{text}' is no list of torn writes, or one that doesn't stand")?)
}

// A message up to its first empty line, on one line.
fn on_one_line(alloc: Global, text: &str) -> Result<String, NoMemory> {
    let mut line = String::new(alloc);
    let text = text.strip_prefix("error: ").unwrap_or(text);
    for part in text.lines() {
        if part.is_empty() {
            break;
        }
        if !line.is_empty() {
            line.push(' ')?;
        }
        line.push_str(part.trim())?;
    }
    Ok(line)
}
