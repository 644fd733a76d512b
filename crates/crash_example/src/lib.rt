//! The life of one record from beginning to end, over any disk, on the public clauses of crash_argument alone: it
//! shows that they suffice, and that a wrong order of calls is refused. It is no part of the argument, and
//! no code that is used calls it. It is described in docs/CRASH-SAFETY.md.
#![tactic(auto)]

mod argument;
mod examples;
mod one_record;
mod settling;

pub use examples::{a_record_follows_on_the_formatted_disk, a_record_lives_on_the_formatted_disk};
pub use one_record::{OneRecord, Settling, serve_one_record};
pub use settling::{checkpoint, make_sure};
