//! What the check keeps of a node: whether it is in use, and how large a directory is or how many links a
//! file has.

ghost use Rattle.std.specs.Prelude.{◌≡◌, length};
ghost use Rattle.fs_check.specs.Looked.{seen};

/// What was seen of a node.
#[derive(Clone, Copy)]
pub(crate) enum Looked {
    Unused,
    /// Its size in bytes.
    Directory(u64),
    /// How many a file has.
    Links(u32),
}

/// What was seen of this node. A number without a place is that of no node.
pub(crate) fn seen(nodes: &[Looked], node: u32) -> Looked
    ensures { result ≡ seen nodes.now node }
{
    match nodes.get(node as usize) {
        Some(look) => *look,
        None => Looked::Unused,
    }
}
