//! One node, a directory with its names or a file with its links and bytes, and how it changes in place. To
//! which number it belongs is not said here.

ghost use Rattle.std.specs.Prelude.{◌≡◌, ◌^◌, ◌<◌, ◌↔◌, IsTrue, IfOk, OnOk, OnErr, option_map};
ghost use Rattle.fs_memtree.specs.Stored.{kept, grown, settled, end_of};

use crate::content;
use crate::directory::Directory;
use base_types::{Name, NoMemory};
use std::alloc::Global;

/// A directory with its names, or a file with its links and bytes.
#[derive(Drop)]
pub(crate) enum Node {
    Dir(Directory),
    File(u64, Vec<u8>),
}

/// A change that may take memory. A node that it isn't for stays as it is.
#[derive(Clone, Copy)]
pub(crate) enum Growth<'a> {
    /// Puts the bytes into a file from this offset on.
    Write(usize, &'a [u8]),
    /// Puts so many bytes of this value into a file: offset, count, byte.
    Fill(usize, usize, u8),
    /// Makes a file so many bytes long.
    Resize(usize),
    /// Puts the name into a directory with its number.
    Name(&'a Name, u32),
}

/// A change that takes no memory. A node that it isn't for stays as it is.
#[derive(Clone, Copy)]
pub(crate) enum Settling<'a> {
    /// Gives the name of a directory this number, where it is there.
    Renumber(&'a Name, u32),
    /// Takes the name out of a directory.
    Unname(&'a Name),
    /// One link more of a file.
    Link,
    /// One link less of a file.
    Unlink,
}

/// Makes the change of the node at a place, where one is there.
///
/// # Errors
/// Out of memory; then the node is as before.
pub(crate) fn grow(place: &mut Option<Node>, change: Growth<'_>) -> Result<(), NoMemory>
    requires { end_of change < 2 ^ 62 }
    ensures ok { OnOk result (option_map kept place.new ≡ option_map (grown change.entry) (option_map kept place.old)) }
    ensures err { OnErr result (option_map kept place.new ≡ option_map kept place.old) }
{
    match place {
        None => {}
        Some(Node::File(_, bytes)) => match change {
            Growth::Write(off, piece) => content::overwrite(bytes, off, piece)?,
            Growth::Fill(off, count, byte) => content::fill(bytes, off, count, byte)?,
            Growth::Resize(size) => content::resize(bytes, size)?,
            Growth::Name(_, _) => {}
        },
        Some(Node::Dir(names)) => match change {
            Growth::Name(name, number) => names.insert(name, number)?,
            Growth::Write(_, _) | Growth::Fill(_, _, _) | Growth::Resize(_) => {}
        },
    }
    Ok(())
}

/// Makes the change of the node at a place, where one is there. This takes no memory.
pub(crate) fn settle(place: &mut Option<Node>, change: Settling<'_>)
    ensures { option_map kept place.new ≡ option_map (settled change.entry) (option_map kept place.old) }
{
    match place {
        None => {}
        Some(Node::File(links, _)) => match change {
            Settling::Link => *links = links.saturating_add(1),
            Settling::Unlink => *links = links.saturating_sub(1),
            Settling::Renumber(_, _) | Settling::Unname(_) => {}
        },
        Some(Node::Dir(names)) => match change {
            Settling::Renumber(name, number) => names.renumber(name, number),
            Settling::Unname(name) => names.remove(name),
            Settling::Link | Settling::Unlink => {}
        },
    }
}

/// The same once more of what is at a place.
///
/// # Errors
/// Out of memory.
pub(crate) fn copied(alloc: Global, place: &Option<Node>) -> Result<Option<Node>, NoMemory>
    ensures { IfOk result (λ copy. option_map kept copy ≡ option_map kept place.now) }
{
    match place {
        None => Ok(None),
        Some(Node::Dir(names)) => {
            let names = names.copy()?;
            Ok(Some(Node::Dir(names)))
        }
        Some(Node::File(links, bytes)) => {
            let bytes = Vec::from_slice(alloc, bytes.as_slice())?;
            Ok(Some(Node::File(*links, bytes)))
        }
    }
}

/// Whether both are the same node, or none is there.
pub(crate) fn is_same(left: Option<&Node>, right: Option<&Node>) -> bool
    ensures { IsTrue result ↔ (option_map (λ node. kept node.now) left.entry ≡ option_map (λ node. kept node.now) right.entry) }
{
    match (left, right) {
        (None, None) => true,
        (Some(Node::Dir(left)), Some(Node::Dir(right))) => left.is_same(right),
        (Some(Node::File(links, left)), Some(Node::File(others, right))) => {
            *links == *others && left.as_slice() == right.as_slice()
        }
        (Some(Node::Dir(_)), Some(Node::File(_, _)) | None) => false,
        (Some(Node::File(_, _)), Some(Node::Dir(_)) | None) => false,
        (None, Some(_)) => false,
    }
}
