//! The tree in memory: it answers every command as the definitions of lang_tree say, writes its listing, and
//! is copied and compared. It knows no block, no disk and no text of a script.
#![tactic(auto)]

mod conditions;
mod content;
mod directory;
mod effects;
mod laws;
mod listing;
mod node;
mod nodes;
mod plain;
mod replies;
mod snapshots;
mod state;
mod walks;

pub use plain::PlainTree;
