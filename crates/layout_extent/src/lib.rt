//! A list of block numbers as at most 60 runs of neighbours, as a node has them: `Runs` adds numbers at
//! the end, cuts the list, and finds a number by its place. It knows no disk and no node. The runs are
//! described in docs/LAYOUT.md.
#![tactic(auto)]

mod laws;
mod renew;
mod runs;

pub use laws::{
    a_list_has_its_runs, four_stretches_and_their_runs, places_are_renewed_so,
    renewed_places_are_new, tidy_runs_are_those_of_their_numbers,
};
pub use renew::BlockSet;
pub use runs::{Runs, Scattered};
