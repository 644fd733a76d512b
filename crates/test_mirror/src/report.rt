//! What the program writes: a line for each row, and one for all of them at the end. How a row came out
//! is said by others.

ghost use Rattle.std.specs.Prelude.{◌≡◌, ◌↔◌, codes};
ghost use Rattle.test_mirror.specs.declared.asked.Outcome.TheVariants.{Right};

use crate::asked::Outcome;
use std::io::{self, Write};

/// How many rows there were, and how many of them weren't right.
#[derive(Clone, Copy)]
pub struct Counts {
    rows: u64,
    wrong: u64,
}

impl Counts {
    /// No rows yet.
    pub(crate) fn new() -> Counts {
        Counts { rows: 0, wrong: 0 }
    }

    /// Counts a row that ended so.
    pub(crate) fn add(&mut self, outcome: &Outcome) {
        self.rows = self.rows.saturating_add(1);
        match outcome {
            Outcome::Right => {}
            Outcome::Wrong(_) | Outcome::Unreadable => self.wrong = self.wrong.saturating_add(1),
        }
    }

    /// Whether each row was right.
    pub(crate) fn all_right(&self) -> bool {
        self.wrong == 0
    }

    /// Writes the last line.
    ///
    /// # Errors
    /// The writer's.
    pub(crate) fn write<W: Write>(&self, out: &mut W) -> io::Result<()> {
        let (rows, wrong) = (self.rows, self.wrong);
        writeln!(out, "{rows} rows, {wrong} wrong")
    }
}

/// Writes a row and what became of it.
///
/// # Errors
/// The writer's.
pub(crate) fn write_row<W: Write>(out: &mut W, row: &str, outcome: &Outcome) -> io::Result<()> {
    let mark = mark_of(outcome);
    write!(out, "{mark} {row}")?;
    if let Outcome::Wrong(answer) = outcome {
        out.write_all(b", got ")?;
        out.write_all(answer.as_slice())?;
    }
    out.write_all(b"\n")
}

// The word before a row: `ok` exactly where it is right.
fn mark_of(outcome: &Outcome) -> &'static str
    ensures { (result.now ≡ codes "ok") ↔ (outcome.now ≡ Right) }
{
    match outcome {
        Outcome::Right => "ok",
        Outcome::Wrong(_) => "WRONG",
        Outcome::Unreadable => "UNREADABLE",
    }
}
