//! An absolute path: the list of the names that lead to it from the root, which is the empty list.
//! How a path is written is described in the crate of the script.

ghost use Rattle.std.specs.Prelude.{◌≡◌, ℕ, List, [], IfOk};
ghost use Rattle.lang_tree.specs.Paths.{is_below, is_too_long};

use crate::copy_names;
use base_types::{Layout, Name, NoMemory};
use std::alloc::Global;
use std::marker::Model;

/// The names from the root down. Contracts see a path as the list of its names' bytes.
#[derive(Drop)]
pub struct Path {
    names: Vec<Name>,
}

impl Model for Path {
    ghost Value = { List (List ℕ) };

    ghost view = { λ p. p.names.items };
}

impl Path {
    /// The path of the root. This takes no memory.
    pub fn root(alloc: Global) -> Path
        ensures { result ≡ [] }
    {
        Path {
            names: Vec::new(alloc),
        }
    }

    /// The path with these names.
    pub fn from_names(names: Vec<Name>) -> Path
        ensures { result ≡ names.items }
    {
        Path { names }
    }

    /// A copy of this path.
    ///
    /// # Errors
    /// Out of memory.
    pub fn copy(&self, alloc: Global) -> Result<Path, NoMemory>
        ensures { IfOk result (λ copy. copy ≡ self.now) }
    {
        let names = copy_names(alloc, self.names.as_slice())?;
        Ok(Path { names })
    }

    /// The names from the root down.
    pub fn names(&self) -> &[Name]
        ensures { result.now ≡ self.now }
    {
        self.names.as_slice()
    }

    /// The names from the root down, as the vector in which they are kept.
    pub fn list(&self) -> &Vec<Name>
        ensures { result.now.items ≡ self.now }
    {
        &self.names
    }

    /// Whether this path lies below that one: it begins with its names and has more.
    pub fn is_below(&self, top: &Path) -> bool
        ensures { result ≡ is_below top.now self.now }
    {
        if self.names.len() <= top.names.len() {
            return false;
        }
        self.names.starts_with(top.names())
    }

    /// Whether the last name has more bytes than one in a directory of the layout may have.
    pub fn is_too_long(&self, layout: Layout) -> bool
        ensures { result ≡ is_too_long layout self.now }
    {
        match self.names().last() {
            None => false,
            Some(name) => name.as_bytes().len() > layout.longest_name(),
        }
    }
}
