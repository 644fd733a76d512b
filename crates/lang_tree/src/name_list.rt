//! A list of names, as a directory's names are answered, and copies of names.

ghost use Rattle.std.specs.Prelude.{◌≡◌, ℕ, List, IfOk};

use base_types::{Name, NoMemory};
use std::alloc::Global;
use std::marker::Model;

/// Names in a row. Contracts see them as the list of the names' bytes.
#[derive(Drop)]
pub struct NameList {
    names: Vec<Name>,
}

impl Model for NameList {
    ghost Value = { List (List ℕ) };

    ghost view = { λ l. l.names.items };
}

impl NameList {
    /// The list of these names.
    pub fn from_names(names: Vec<Name>) -> NameList
        ensures { result ≡ names.items }
    {
        NameList { names }
    }

    /// The names in their order.
    pub fn names(&self) -> &[Name]
        ensures { result.now ≡ self.now }
    {
        self.names.as_slice()
    }
}

/// A copy of the names.
///
/// # Errors
/// Out of memory.
pub fn copy_names(alloc: Global, names: &[Name]) -> Result<Vec<Name>, NoMemory>
    ensures { IfOk result (λ copy. copy.items ≡ names.now) }
{
    let mut copy = Vec::with_capacity(alloc, names.len())?;
    for name in names {
        copy.push(name.copy())?;
    }
    Ok(copy)
}
