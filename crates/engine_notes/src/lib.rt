//! The tickets of writes whose durability is waited for, and which of them were noticed.
#![tactic(auto)]

mod laws;
mod notes;

pub use laws::{
    expected_tickets_are_noticed_or_open, no_ticket_is_open_where_all_are_noticed,
    notes_of_few_tickets_are_few,
};
pub use notes::{Note, Notes};
