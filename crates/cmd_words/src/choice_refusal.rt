//! Why texts say no choice.

use base_types::NoMemory;
use std::alloc::AllocError;
use std::error::Error;
use std::fmt;

/// Why texts say no choice.
#[derive(Clone, Copy, Debug)]
pub enum ChoiceRefusal {
    /// A text is none of those that say which writes stand, or which are torn.
    BadText,
    /// Out of memory.
    NoMemory,
}

impl fmt::Display for ChoiceRefusal {
    fn fmt<W: fmt::Write>(&self, f: &mut fmt::Formatter<W>) -> fmt::Result {
        match self {
            ChoiceRefusal::BadText => write!(f, "no list of writes"),
            ChoiceRefusal::NoMemory => write!(f, "no memory"),
        }
    }
}

impl Error for ChoiceRefusal {}

impl From<NoMemory> for ChoiceRefusal {
    ghost use Rattle.std.specs.Prelude.{◌≡◌};
    ghost use Rattle.cmd_words.specs.declared.choice_refusal.ChoiceRefusal.TheVariants.{NoMemory as OutOfMemory};

    ghost from_gives = { λ _ refusal. refusal ≡ OutOfMemory };

    fn from(_want: NoMemory) -> ChoiceRefusal {
        ChoiceRefusal::NoMemory
    }
}

impl From<AllocError> for ChoiceRefusal {
    ghost use Rattle.std.specs.Prelude.{◌≡◌};
    ghost use Rattle.cmd_words.specs.declared.choice_refusal.ChoiceRefusal.TheVariants.{NoMemory as OutOfMemory};

    ghost from_gives = { λ _ refusal. refusal ≡ OutOfMemory };

    fn from(_want: AllocError) -> ChoiceRefusal {
        ChoiceRefusal::NoMemory
    }
}
