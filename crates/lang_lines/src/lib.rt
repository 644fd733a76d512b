//! The lines of an input: how it is cut into lines, what each line says, and a reader that pulls what the lines of an
//! input say from a source one by one, as the commands of a script. What commands do isn't known here.
#![tactic(auto)]

mod chunk;
mod commands;
mod laws;
mod lines;
mod next;
mod reader;

pub use commands::CommandReader;
pub use laws::{all_items_were_given, all_was_given};
pub use lines::{Commands, LineParser, command_of_line, item_of_line};
pub use next::{Next, NextItem};
pub use reader::LineReader;
