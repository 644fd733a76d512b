//! The middle level between blocks and the tree: what commands make of inode maps, and what such a map gives
//! of its tree. Nothing here runs; the functions do nothing, and their clauses are laws. When a map is that
//! of a tree is defined in crash_stands, how nodes and slots lie in blocks in layout_bytes, and what a tree is in
//! lang_tree.
#![tactic(auto)]

mod bytes;
mod dir_bytes;
mod figures;
mod listing;
mod make;
mod names;
mod names_in_any_order;
mod places;
mod refusals;
mod remove;
mod rename;
mod scan;
mod short_run;
mod tree;
mod walks;

pub use bytes::{new_bytes_are_mapped, what_changes_nothing_keeps_the_map};
pub use dir_bytes::{a_file_reads_as_itself, slots_follow_the_bytes};
pub use figures::the_map_gives_the_figures;
pub use listing::a_listing_goes_down;
pub use make::{a_new_node_is_mapped, a_new_path_is_mapped};
pub use names::{the_map_gives_the_names, the_map_gives_the_reply};
pub use names_in_any_order::names_may_be_in_any_order;
pub use places::a_name_stands_at_its_place;
pub use refusals::the_map_gives_the_refusal;
pub use remove::a_lost_path_is_mapped;
pub use rename::a_move_is_mapped;
pub use scan::{no_tree_stands_for_damage, the_rules_make_a_tree};
pub use short_run::short_runs_are_mapped;
pub use walks::{paths_lead_to_inodes, walks_are_the_same};
