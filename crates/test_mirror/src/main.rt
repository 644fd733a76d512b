//! The program `test_mirror`: reads rows, each a call of a mirror over two disks in memory and what it answers, makes the
//! calls and compares. A line of its output is a row and whether its answer was right. The rows are in `stdin`, and the
//! README tells their forms.
#![tactic(auto)]

mod asked;
mod begun;
mod report;
mod words;

use anyhow::Result;
use asked::take;
use begun::Pair;
use report::{Counts, write_row};
use std::io::{BufWriter, Read, Write};
use std::process::ExitCode;

/// Exits with 0 exactly where each row was right.
fn main(rt: HostRuntime) -> Result<ExitCode> {
    let mut at_hand = None;
    let counts = run(&rt, &mut at_hand)?;
    if counts.all_right() {
        Ok(ExitCode::SUCCESS)
    } else {
        Ok(ExitCode::FAILURE)
    }
}

/// Takes the rows of the standard input in turn. Empty lines and comments are none. The caller has the mirror, so that
/// none of the ways out of here has to let go of it.
fn run(rt: &HostRuntime, at_hand: &mut Option<Pair>) -> Result<Counts> {
    let alloc = rt.alloc();
    let mut input = String::new(alloc);
    rt.stdin().read_to_string(&mut input)?;
    let mut out = BufWriter::new(alloc, rt.stdout())?;
    let mut counts = Counts::new();
    for text in input.lines() {
        if !text.is_empty() && !text.starts_with('#') {
            let outcome = take(alloc, at_hand, text)?;
            counts.add(&outcome);
            write_row(&mut out, text, &outcome)?;
        }
    }
    counts.write(&mut out)?;
    out.flush()?;
    Ok(counts)
}
