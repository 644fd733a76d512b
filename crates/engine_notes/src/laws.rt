//! What is so of any list of notes, as laws: how many there are, and what is open of their tickets. The
//! functions do nothing.

ghost use Rattle.std.specs.Prelude.{◌≡◌, ◌≤◌, ℕ, List, length, slice_get, true, Some};
ghost use Rattle.engine_notes.specs.declared.notes.Note.{Note};
ghost use Rattle.engine_notes.specs.Notes.{is_expected, are_expected, are_noticed, none_open, is_among, are_rising};

/// Notes of tickets that are all in a list are no more than that list has.
pub fn notes_of_few_tickets_are_few()
    ensures { (ns : List Note) (ts : List ℕ) → are_rising ns ≡ true → ((u : ℕ) → is_expected u ns ≡ true → is_among u ts ≡ true) → length ns ≤ length ts }
{}

/// Where each note is marked, no ticket is open.
pub fn no_ticket_is_open_where_all_are_noticed()
    ensures { (ns : List Note) → ((k : ℕ) (n : Note) → slice_get ns k ≡ Some n → n.noticed ≡ true) → (ts : List ℕ) → none_open ts ns ≡ true }
{}

/// Of tickets that are all expected, none is open exactly where all are noticed.
pub fn expected_tickets_are_noticed_or_open()
    ensures { (ts : List ℕ) (ns : List Note) → are_expected ts ns ≡ true → none_open ts ns ≡ are_noticed ts ns }
{}
