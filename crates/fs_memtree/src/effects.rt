//! What commands that nothing refuses do to the nodes: new nodes, bytes, other paths, paths that go and
//! paths that move. A command touches the entries that it names alone. Where no memory is found, all is as
//! before.

ghost use Rattle.std.specs.Prelude.{◌≡◌, ◌≤◌, None, Some, IfOk, OnOk, OnErr};
ghost use Rattle.std.specs.FinMap.{get};
ghost use Rattle.fs_memtree.specs.Changes.{made_at, linked_at, removed_at, moved_at, put_over, is_that};
ghost use Rattle.fs_memtree.specs.Trails.{spot_of, IsUnder};
ghost use Rattle.fs_memtree.specs.Kept.{map_of};
ghost use Rattle.fs_memtree.specs.Stored.{kept};

use crate::node::{Growth, Node, Settling};
use crate::nodes::Nodes;
use crate::walks::End;
use base_types::{Name, NoMemory};

impl Nodes {
    /// Puts a new node at the end of a path, which isn't there, under an unused number.
    pub(crate) fn make(&mut self, end: End<'_>, number: u32, node: Node) -> Result<(), NoMemory>
        requires unused { (get self.old number ≡ None) × (1 ≤ number) }
        requires absent { end.number ≡ None }
        requires under { IsUnder (map_of self.old) end }
        ensures ok { OnOk result (self.new ≡ made_at self.old (spot_of end.entry) (Some number) (kept node)) }
        ensures err { OnErr result (self.new ≡ self.old) }
    {
        let Some((directory, name)) = end.spot else {
            return Ok(());
        };
        self.grow(directory, Growth::Name(name, number))?;
        if let Err(error) = self.add(number, node) {
            self.settle(directory, Settling::Unname(name));
            return Err(error);
        }
        Ok(())
    }

    /// Makes the end of a path lead to the node with this number too.
    pub(crate) fn link(&mut self, number: u32, end: End<'_>) -> Result<(), NoMemory>
        ensures ok { OnOk result (self.new ≡ linked_at self.old (Some number) (spot_of end.entry)) }
        ensures err { OnErr result (self.new ≡ self.old) }
    {
        let Some((directory, name)) = end.spot else {
            return Ok(());
        };
        self.grow(directory, Growth::Name(name, number))?;
        self.settle(number, Settling::Link);
        Ok(())
    }

    /// Takes the path that ends there out, and its node too where it was the last one.
    pub(crate) fn remove_path(&mut self, end: End<'_>) -> Result<(), NoMemory>
        ensures ok { OnOk result (self.new ≡ removed_at self.old (spot_of end.entry) end.entry.number) }
        ensures err { OnErr result (self.new ≡ self.old) }
    {
        let Some((directory, name)) = end.spot else {
            return Ok(());
        };
        let Some(number) = end.number else {
            return Ok(());
        };
        self.unlink(number)?;
        self.settle(directory, Settling::Unname(name));
        Ok(())
    }

    /// Moves what is at the end of `from` to that of `to`, where what was there loses a path. Returns whether
    /// that changed anything: it doesn't where both paths lead to one node.
    pub(crate) fn rename(&mut self, from: End<'_>, to: End<'_>) -> Result<bool, NoMemory>
        ensures ok { IfOk result (λ changed. moved_at self.old (spot_of from.entry) (spot_of to.entry) from.entry.number
            to.entry.number ≡ (self.new, changed)) }
        ensures err { OnErr result (self.new ≡ self.old) }
    {
        let Some((source, name)) = from.spot else {
            return Ok(false);
        };
        let Some((target, other)) = to.spot else {
            return Ok(false);
        };
        let Some(number) = from.number else {
            return Ok(false);
        };
        if is_that(number, to.number) {
            return Ok(false);
        }
        self.put(target, other, number, to.number)?;
        self.settle(source, Settling::Unname(name));
        Ok(true)
    }

    /// Puts the name into the directory with this number, where `old` is the number that it has and that
    /// loses it.
    fn put(
        &mut self,
        directory: u32,
        name: &Name,
        number: u32,
        old: Option<u32>,
    ) -> Result<(), NoMemory>
        ensures ok { OnOk result (self.new ≡ put_over self.old directory name.now number old) }
        ensures err { OnErr result (self.new ≡ self.old) }
    {
        match old {
            None => self.grow(directory, Growth::Name(name, number))?,
            Some(old) => {
                self.unlink(old)?;
                self.settle(directory, Settling::Renumber(name, number));
            }
        }
        Ok(())
    }
}

/// Whether this number is there.
fn is_that(number: u32, old: Option<u32>) -> bool
    ensures { result ≡ is_that number old }
{
    match old {
        None => false,
        Some(old) => number == old,
    }
}
