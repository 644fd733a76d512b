//! What a reader answers when it is asked what comes next.

use lang_tree::Cmd;

/// What comes next of an input of lines that say items.
#[derive(Drop)]
pub enum NextItem<T> {
    /// This item.
    Item(T),
    /// Nothing: the input is over.
    End,
    /// The source failed.
    SourceFault,
    /// More bytes than an input may have.
    LongInput,
}

/// What comes next of an input of commands.
#[derive(Drop)]
pub enum Next {
    /// This command.
    Command(Cmd),
    /// Nothing: the input is over.
    End,
    /// The source failed.
    SourceFault,
    /// More bytes than an input may have.
    LongInput,
}
