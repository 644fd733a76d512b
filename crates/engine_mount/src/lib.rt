//! A mount of any disk, on the public clauses of `engine_recover` and `crash_argument` alone: it finds the newest
//! header, its run and the greatest epoch, closes the run, brings the last payload of each block to its
//! place, and opens the journal under a new epoch. At each moment an honest image holds what was found. A
//! caller may do so in two parts, `find` and `open`, and look at blocks in between. What is in the blocks isn't
//! looked at here: neither the bitmap nor the tree.
#![tactic(auto)]

mod found;
mod mounting;
mod refusal;
mod replay;

pub use found::{Found, find};
pub use mounting::{Mounted, mount, open};
pub use refusal::MountRefusal;
