//! A block that a transaction changed.

use disk_contract::BoxedBlock;

/// What a block is for: a block of the file system's own, or a file's content.
#[derive(Clone, Copy)]
pub enum Class {
    Meta,
    Content,
}

/// A block's number and the bytes that it is to have.
#[derive(Drop)]
pub struct Put {
    pub block: u32,
    pub bytes: BoxedBlock,
}
