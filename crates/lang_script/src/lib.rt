//! The text of a script: which command a line is, and how commands and replies are written; and numbers in decimal
//! digits: the one that a text writes, and a line of some words and a number. It knows no tree, and of streams only
//! the sink of such a line. The grammar is the definition `command_of`, described in docs/SCRIPT.md; the texts are
//! `command_text` and `text_of_reply`. Which number a text writes is `number_of`: it knows neither signs nor blanks.
#![tactic(auto)]

mod arguments;
mod decimal;
mod laws;
mod numbered_line;
mod parse;
mod pieces;
mod replies;
mod text;

pub use arguments::{bytes, number, parts};
pub use decimal::number_of;
pub use laws::{
    a_number_has_one_text, arguments_are_read_back, equal_texts_have_equal_values,
    lines_are_commands,
};
pub use numbered_line::write_numbered_line;
pub use parse::parse_line;
pub use replies::{bytes_text, reply_text};
pub use text::cmd_text;
