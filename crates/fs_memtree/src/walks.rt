//! The walk from the root, name by name, and what is under a number or at a path. Nothing here changes a
//! node or takes memory. Why commands are refused is in the module `conditions`.

ghost use Rattle.std.specs.Prelude.{◌≡◌, ◌<◌, ◌^◌, length, IfOk, OnErr, Some, None};
ghost use Rattle.std.specs.Result.{result_err};
ghost use Rattle.fs_inodes.specs.Lookups.{walk_on, number_at, is_dir_inode, is_file_inode, has_slots, links_in, bytes_of, slots_of};
ghost use Rattle.fs_inodes.specs.Names.{names_of};
ghost use Rattle.fs_inodes.specs.Refusals.{walk_reason, parent_reason};
ghost use Rattle.crash_stands.specs.Walks.{entry_in};
ghost use Rattle.fs_memtree.specs.Trails.{IsEnd, IsUnder};
ghost use Rattle.fs_memtree.specs.Kept.{map_of};

use crate::node::Node;
use crate::nodes::Nodes;
use base_types::limits::ROOT;
use base_types::{Name, NoMemory};
use lang_tree::Refusal;
use std::alloc::Global;

/// Where a path ends.
#[derive(Clone, Copy)]
pub(crate) struct End<'a> {
    /// The number of what is above, and the last name; none for the root.
    pub(crate) spot: Option<(u32, &'a Name)>,
    /// The number at the path, where it is there.
    pub(crate) number: Option<u32>,
}

impl Nodes {
    /// The number under a name of a directory; none where the number is that of no directory.
    pub(crate) fn entry(&self, directory: u32, name: &Name) -> Option<u32>
        ensures { result ≡ entry_in (map_of self.now directory) name.now }
    {
        match self.at(directory) {
            Some(Node::Dir(names)) => names.get(name),
            Some(Node::File(_, _)) | None => None,
        }
    }

    /// Whether the number is that of a directory.
    pub(crate) fn is_dir(&self, number: u32) -> bool
        ensures { result ≡ is_dir_inode (map_of self.now number) }
    {
        match self.at(number) {
            Some(Node::Dir(_)) => true,
            Some(Node::File(_, _)) | None => false,
        }
    }

    /// Whether the number is that of a file.
    pub(crate) fn is_file(&self, number: u32) -> bool
        ensures { result ≡ is_file_inode (map_of self.now number) }
    {
        match self.at(number) {
            Some(Node::File(_, _)) => true,
            Some(Node::Dir(_)) | None => false,
        }
    }

    /// Whether the number is that of a directory that holds names.
    pub(crate) fn holds_names(&self, number: u32) -> bool
        ensures { result ≡ has_slots (map_of self.now number) }
    {
        self.held(number) > 0
    }

    /// How many names the directory with this number holds; none where it is no directory.
    fn held(&self, number: u32) -> u64
        ensures value { result ≡ length (slots_of (map_of self.now number)) }
        ensures bound { result < 2 ^ 57 }
    {
        match self.at(number) {
            Some(Node::Dir(names)) => names.len(),
            Some(Node::File(_, _)) | None => 0,
        }
    }

    /// How many names lead to the number: one to a directory, and none to a number that isn't used.
    pub(crate) fn links(&self, number: u32) -> u64
        ensures { result ≡ links_in (map_of self.now number) }
    {
        match self.at(number) {
            Some(Node::Dir(_)) => 1,
            Some(Node::File(links, _)) => *links,
            None => 0,
        }
    }

    /// The bytes of the file with this number; none where it is no file.
    pub(crate) fn bytes(&self, number: u32) -> &[u8]
        ensures { result.now ≡ bytes_of (map_of self.now number) }
    {
        match self.at(number) {
            Some(Node::File(_, bytes)) => bytes.as_slice(),
            Some(Node::Dir(_)) | None => &[],
        }
    }

    /// The number that the path leads to, or what the walk meets in its way.
    pub(crate) fn walk(&self, path: &[Name]) -> Result<u32, Refusal>
        ensures walk { result ≡ walk_on (map_of self.now) 1 path.now }
        ensures ok { IfOk result (λ number. number_at (map_of self.now) path.now ≡ Some number) }
        ensures err { OnErr result (number_at (map_of self.now) path.now ≡ None) }
    {
        self.follow(path)
    }

    /// The walk by the names of the path, one after the other.
    fn follow(&self, path: &[Name]) -> Result<u32, Refusal>
        ensures { result ≡ walk_on (map_of self.now) 1 path.now }
    {
        let mut number = ROOT;
        for name in path {
            if !self.is_dir(number) {
                return Err(Refusal::NotDir);
            }
            match self.entry(number, name) {
                None => return Err(Refusal::NotFound),
                Some(next) => number = next,
            }
        }
        Ok(number)
    }

    /// The names of the directory with this number, in order; none where it is no directory.
    ///
    /// # Errors
    /// Out of memory.
    pub(crate) fn names(&self, alloc: Global, number: u32) -> Result<Vec<Name>, NoMemory>
        ensures { IfOk result (λ names. names.items ≡ names_of (slots_of (map_of self.now number))) }
    {
        match self.at(number) {
            Some(Node::Dir(names)) => {
                let names = names.names(alloc)?;
                Ok(names)
            }
            Some(Node::File(_, _)) => Ok(Vec::new(alloc)),
            None => Ok(Vec::new(alloc)),
        }
    }

    /// Where the path ends, or why it can't come to be there. The root has no walk.
    pub(crate) fn look<'a>(&self, path: &'a [Name]) -> Result<End<'a>, Refusal>
        ensures reason { result_err result ≡ parent_reason (map_of self.now) path.now }
        ensures end { IfOk result (λ end. IsEnd (map_of self.now) path.now end) }
        ensures under { IfOk result (λ end. IsUnder (map_of self.now) end) }
    {
        let Some((name, up)) = path.split_last() else {
            let (spot, number) = (None, Some(ROOT));
            return Ok(End { spot, number });
        };
        let directory = self.walk(up)?;
        if !self.is_dir(directory) {
            return Err(Refusal::NotDir);
        }
        let spot = Some((directory, name));
        let number = self.entry(directory, name);
        Ok(End { spot, number })
    }

    /// Where the path ends and the number there, or what the walk meets in its way.
    pub(crate) fn reach<'a>(&self, path: &'a [Name]) -> Result<(End<'a>, u32), Refusal>
        ensures reason { result_err result ≡ walk_reason (map_of self.now) path.now }
        ensures end { IfOk result (λ found. IsEnd (map_of self.now) path.now found.0 × (number_at (map_of self.now) path.now ≡ Some found.1)) }
    {
        let end = self.look(path)?;
        match end.number {
            None => Err(Refusal::NotFound),
            Some(number) => Ok((end, number)),
        }
    }
}
