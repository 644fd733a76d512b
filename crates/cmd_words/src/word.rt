//! A word of the command line that is taken as it is, which contracts see as the list of its bytes.

ghost use Rattle.std.specs.Prelude.{◌≡◌, IfOk};

use base_types::NoMemory;
use std::alloc::Global;
use std::marker::Model;

/// A word of the command line.
#[derive(Drop)]
pub struct Word {
    text: String,
}

impl Model for Word {
    ghost use Rattle.std.specs.Prelude.{ℕ, List, string_bytes};

    ghost Value = { List ℕ };

    ghost view = { λ w. string_bytes w.text };
}

impl Word {
    /// A copy of this text.
    ///
    /// # Errors
    /// Out of memory.
    pub fn from_str(alloc: Global, text: &str) -> Result<Word, NoMemory>
        ensures { IfOk result (λ word. word ≡ text.now) }
    {
        let text = String::from_str(alloc, text)?;
        Ok(Word { text })
    }

    /// The text of the word.
    pub fn as_str(&self) -> &str
        ensures { result.now ≡ self.now }
    {
        self.text.as_str()
    }
}
