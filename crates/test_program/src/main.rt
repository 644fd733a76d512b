//! The program `test_program`: reads rows, each the words of a run and what comes of it, runs the top call on streams and
//! disks in memory, and compares. A line of its output is a row and whether its answer was right. The rows are tests that
//! anyone can read and add to: they are in `stdin`, and the README tells their forms.
#![tactic(auto)]

mod acts;
mod at_hand;
mod digests;
mod fails;
mod images;
mod questions;
mod report;
mod streams;
mod texts;
mod words;

use anyhow::Result;
use at_hand::AtHand;
use questions::take;
use report::{Counts, write_row};
use std::io::{BufWriter, Read, Write};
use std::process::ExitCode;

/// Exits with 0 exactly where each row was right.
fn main(rt: HostRuntime) -> Result<ExitCode> {
    let mut at_hand = AtHand::new(rt.alloc());
    let counts = run(&rt, &mut at_hand)?;
    if counts.all_right() {
        Ok(ExitCode::SUCCESS)
    } else {
        Ok(ExitCode::FAILURE)
    }
}

/// Takes the rows of the standard input in turn. Empty lines and comments are none. The caller has what is at hand, so that
/// none of the ways out of here has to let go of it.
fn run(rt: &HostRuntime, at_hand: &mut AtHand) -> Result<Counts> {
    let alloc = rt.alloc();
    let mut input = String::new(alloc);
    rt.stdin().read_to_string(&mut input)?;
    let mut out = BufWriter::new(alloc, rt.stdout())?;
    let mut counts = Counts::new();
    for text in input.lines() {
        if !text.is_empty() && !text.starts_with('#') {
            let outcome = take(alloc, at_hand, text)?;
            counts.add(&outcome);
            write_row(&mut out, text, &outcome)?;
        }
    }
    counts.write(&mut out)?;
    out.flush()?;
    Ok(counts)
}
