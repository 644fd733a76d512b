//! The language of the tree of names and byte files, and what it means: paths, commands and replies, the
//! definitions from the tree to its figures, its listing and its sync points, and laws about them; and the
//! figures of each command, counted from sizes alone. It has no tree itself: one in memory is fs_memtree,
//! and where sizes come from is for the callers to say. It knows no block, no disk and no text of a script.
//! The rules are described in docs/TREE.md.
#![tactic(auto)]

mod command;
mod figures;
mod laws;
mod name_list;
mod path;
mod path_laws;
mod sharing_laws;
mod sizes;
mod snapshot_laws;

pub use command::{Cmd, Kind, Look, Refusal, Reply, Stat};
pub use figures::{Figures, NOTHING, adding, moving, removing, truncate_figures, write_figures};
pub use laws::{
    a_command_changes_where_it_costs, a_dsync_raises_the_floor, a_fault_ends_the_session,
    a_move_takes_all_below, a_reply_tells_the_session, a_tree_in_memory_refuses_for_no_disk,
    a_wait_raises_what_is_durable, bounds_never_fall, commands_keep_a_tree_sound, files_stay_small,
    layouts_differ_in_long_names_alone, no_dsync_answers_a_point_to_come,
    no_other_command_is_promised_a_point, short_runs_are_answered_so, small_changes_cost_so,
    the_figures_are_the_blocks, two_syncs_make_one_point,
};
pub use name_list::{NameList, copy_names};
pub use path::Path;
pub use path_laws::{
    new_paths_keep_a_tree_sound, paths_are_counted, what_goes_holds_nothing,
    what_is_held_has_a_name,
};
pub use sharing_laws::{
    nothing_shared_costs_nothing, sharing_costs_where_all_costs, small_snapshots_cost_so,
};
pub use sizes::{blocks_for, growth, release, touched_blocks_are_counted_by_division};
pub use snapshot_laws::{
    a_snapshot_keeps_its_tree, commands_keep_snapshots, numbers_of_snapshots_are_in_the_map,
    without_snapshots_there_are_paths_and_nodes,
};
