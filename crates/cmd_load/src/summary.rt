//! The summary of a load, and its four lines. How it comes about is described by `loading`.

ghost use Rattle.std.specs.Prelude.{◌≡◌, ◌++◌, ℕ, codes, take, OnOk, OnErr};
ghost use Rattle.std.specs.Io.KnownBytes.{Appends};
ghost use Rattle.hex.specs.Hex.{encode_lower};
ghost use Rattle.base_types.specs.Counts.{HasCause};
ghost use Rattle.cmd_load.specs.Summary.{summary_text};

use base_io::{Sink, SinkFault, prefixes_join, push_all};
use lang_script::write_numbered_line;
use std::marker::Model;

/// What a load came to.
#[derive(Clone, Copy, Debug, PartialEq, Eq)]
pub struct Summary {
    /// How many commands there were.
    commands: u32,
    /// How many of them were refused.
    refused: u32,
    /// How many sync points were made.
    points: u64,
    /// The SHA-256 of the listing of the tree at the end.
    digest: [u8; 32],
}

impl Model for Summary {
    ghost use Rattle.cmd_load.specs.Summary.{Totals};

    ghost Value = { Totals };

    ghost view = { λ s. record { commands = s.commands; refused = s.refused; points = s.points; digest = s.digest } };

    ghost inverse = { λ t. record { commands = t.commands; refused = t.refused; points = t.points; digest = t.digest } };
}

impl Summary {
    /// The summary with these numbers.
    pub(crate) fn new(commands: u32, refused: u32, points: u64, digest: [u8; 32]) -> Summary
        ensures { result ≡ record { commands = commands; refused = refused; points = points; digest = digest } }
    {
        Summary {
            commands,
            refused,
            points,
            digest,
        }
    }

    /// How many commands there were.
    pub fn commands(&self) -> u32
        ensures { result ≡ self.now.commands }
    {
        self.commands
    }

    /// How many of them were refused.
    pub fn refused(&self) -> u32
        ensures { result ≡ self.now.refused }
    {
        self.refused
    }

    /// How many sync points were made.
    pub fn points(&self) -> u64
        ensures { result ≡ self.now.points }
    {
        self.points
    }

    /// The SHA-256 of the listing of the tree at the end.
    pub fn digest(&self) -> [u8; 32]
        ensures { result ≡ self.now.digest }
    {
        self.digest
    }

    /// Writes the four lines: `commands C`, `refused R`, `points P`, and `tree DIGEST` in lower-case hex.
    ///
    /// # Errors
    /// The first fault of the sink, which by then took a front of these lines and nothing else.
    pub fn write<K: Sink>(&self, out: &mut K) -> Result<(), SinkFault>
        ensures all { OnOk result (Appends (K.taken out.old) (K.taken out.new) (summary_text self.now)) }
        ensures front { OnErr result ((n : ℕ) × Appends (K.taken out.old) (K.taken out.new) (take n (summary_text self.now))) }
        ensures cause { HasCause result (K.faults out.old) (K.faults out.new) }
    {
        prefixes_join();
        write_numbered_line(out, b"commands ", u64::from(self.commands))?;
        write_numbered_line(out, b"refused ", u64::from(self.refused))?;
        write_numbered_line(out, b"points ", self.points)?;
        write_digest_line(out, &self.digest)?;
        Ok(())
    }
}

/// Writes the line of the digest.
///
/// # Errors
/// As of `Summary::write`.
fn write_digest_line<K: Sink>(out: &mut K, digest: &[u8; 32]) -> Result<(), SinkFault>
    ensures all { OnOk result (Appends (K.taken out.old) (K.taken out.new) (codes "tree " ++ (encode_lower digest.now ++ codes "\n"))) }
    ensures front { OnErr result ((n : ℕ) × Appends (K.taken out.old) (K.taken out.new) (take n (codes "tree " ++ (encode_lower digest.now ++ codes "\n")))) }
    ensures cause { HasCause result (K.faults out.old) (K.faults out.new) }
{
    prefixes_join();
    let digits = digits_of(digest);
    push_all(out, b"tree ")?;
    push_all(out, digits.as_slice())?;
    push_all(out, b"\n")?;
    Ok(())
}

/// The digest in lower-case hex digits.
fn digits_of(digest: &[u8; 32]) -> [u8; 64]
    ensures { result ≡ encode_lower digest.now }
{
    let mut digits = [0u8; 64];
    hex::encode_to_slice(digest.as_slice(), &mut digits[..]).unwrap();
    digits
}
