//! The running transaction, and its commit as one record of the journal: all of the record's writes are
//! issued at once, and none is waited for. When to commit, and what is done with a record later, isn't
//! its matter.
#![tactic(auto)]

mod commit;
mod entries;
mod laws;
mod put;
mod readers;
mod rows;
mod running;
mod states;
mod writes;

pub use commit::{CommitRoom, Committed, places_of};
pub use entries::{descriptor_at, entry_at};
pub use laws::{
    a_record_keeps_its_puts, a_record_makes_so_many_writes, a_transaction_is_a_map_of_its_puts,
    noticed_tickets_stay_so,
};
pub use put::{Class, Put};
pub use running::Running;
pub use states::{Durable, Placed, Released, Sure};
