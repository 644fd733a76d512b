//! What the words of the command line ask for, and which choice of what a crash leaves two of their texts say: which
//! pending writes stand, and which are torn. The words are read by `clap`; what they may be is the definition
//! `request_of`, and the choice is `choice_of`, described in docs/CRASHES.md. Nothing here prints, and nothing here
//! does what was asked for.
#![tactic(auto)]

mod choice_items;
mod choice_parse;
mod choice_refusal;
mod command;
mod complaints;
mod request;
mod values;
mod word;

pub use choice_parse::parse_choice;
pub use choice_refusal::ChoiceRefusal;
pub use complaints::complaint;
pub use request::{Notices, Request, read_words};
pub use word::Word;
