//! The replies to commands that ask alone: bytes of a file, what is at a path, and the names in a
//! directory. Nothing here changes a node.

ghost use Rattle.std.specs.Prelude.{◌≡◌, take, drop, IfOk};
ghost use Rattle.lang_tree.specs.declared.command.Reply.TheVariants.{Bytes as BytesReply, Names as NamesReply};
ghost use Rattle.fs_inodes.specs.Lookups.{bytes_of, slots_of};
ghost use Rattle.fs_inodes.specs.Names.{names_of, stat_by};
ghost use Rattle.fs_memtree.specs.Kept.{map_of};
ghost use Rattle.fs_memtree.specs.Serving.{looked};

use crate::content::part;
use crate::node::Node;
use crate::nodes::Nodes;
use base_types::{Bytes, NoMemory};
use lang_tree::{Kind, Look, NameList, Refusal, Reply, Stat};
use std::alloc::Global;

impl Nodes {
    /// Read: at most so many bytes of the file with this number, from `offset` on.
    ///
    /// # Errors
    /// Out of memory.
    pub(crate) fn read(
        &self,
        alloc: Global,
        number: u32,
        offset: u32,
        count: u32,
    ) -> Result<Reply, NoMemory>
        ensures { IfOk result (λ reply. reply ≡ BytesReply (take count (drop offset (bytes_of (map_of self.now number))))) }
    {
        let bytes = part(self.bytes(number), offset as usize, count as usize);
        let bytes = Bytes::from_slice(alloc, bytes)?;
        Ok(Reply::Bytes(bytes))
    }

    /// Stat: what has this number. A directory has 64 bytes for each name in it, and one link.
    pub(crate) fn stat(&self, number: u32) -> Reply
        ensures { result ≡ stat_by number (map_of self.now number) }
    {
        match self.at(number) {
            None => Reply::Refused(Refusal::NotFound),
            Some(Node::Dir(names)) => Reply::Stat(Stat {
                kind: Kind::Dir,
                number,
                size: 64 * names.len(),
                links: 1,
            }),
            Some(Node::File(links, bytes)) => Reply::Stat(Stat {
                kind: Kind::File,
                number,
                size: bytes.len() as u64,
                links: *links,
            }),
        }
    }

    /// A look at the tree of these nodes.
    ///
    /// # Errors
    /// Out of memory.
    pub(crate) fn look_at(&self, alloc: Global, look: &Look) -> Result<Reply, NoMemory>
        ensures { IfOk result (λ reply. reply ≡ looked (map_of self.now) look.now) }
    {
        match look {
            Look::Read(path, offset, count) => match self.to_read(path) {
                Err(why) => Ok(Reply::Refused(why)),
                Ok(number) => self.read(alloc, number, *offset, *count),
            },
            Look::Stat(path) => match self.to_stat(path) {
                Err(why) => Ok(Reply::Refused(why)),
                Ok(number) => Ok(self.stat(number)),
            },
            Look::List(path) => match self.to_list(path) {
                Err(why) => Ok(Reply::Refused(why)),
                Ok(number) => self.list(alloc, number),
            },
        }
    }

    /// List: the names in the directory with this number.
    ///
    /// # Errors
    /// Out of memory.
    pub(crate) fn list(&self, alloc: Global, number: u32) -> Result<Reply, NoMemory>
        ensures { IfOk result (λ reply. reply ≡ NamesReply (names_of (slots_of (map_of self.now number)))) }
    {
        let names = self.names(alloc, number)?;
        Ok(Reply::Names(NameList::from_names(names)))
    }
}
