//! Sessions of the tree over any map of blocks: what a planned command and a sync leave of one, and laws of how
//! commands are answered in it, of its room and of its sync points. How a command is planned, and the walk along its
//! paths, is for the crates above. The rules are described in docs/FILE-SYSTEM.md and docs/SPACE.md.
#![tactic(auto)]

mod change;
mod disk;
mod kept;
mod laws;
mod live;
mod memory;
mod plan;
mod points;
mod snapshots;
mod space;
mod syncs;
mod unused;
mod without_memory;

pub use disk::{
    a_command_is_answered_in_a_room_that_came_back, a_command_serves_what_is_sure,
    any_command_may_be_answered,
};
pub use kept::{
    lists_of_two_snapshots_are_counted_so, without_snapshots_a_room_is_that_of_its_tree,
};
pub use laws::{
    a_command_answers_its_session, a_command_begins_with_a_tick,
    a_command_raises_the_numbers_little, a_command_takes_no_more_blocks_than_it_needs,
    a_command_that_needs_no_wait_makes_none, a_node_in_use_has_links,
    a_refusal_for_the_disk_has_its_cause, blocks_have_the_map_of_their_tree,
};
pub use live::{as_many_blocks_are_marked_as_the_tree_has, bitmap_and_node_table_are_live};
pub use memory::{
    a_command_is_answered_in_its_room, commands_in_memory_are_answered_in_their_room,
    nothing_is_taken_at_first,
};
pub use plan::{Plan, carry};
pub use points::{
    a_crash_leaves_the_tree_of_a_point, a_reply_tells_the_points, live_blocks_are_enough,
    points_stay_known,
};
pub use snapshots::{
    a_draft_that_leaves_snapshots_makes_its_tree, a_node_that_a_draft_leaves_stays,
    counts_tell_what_is_shared,
};
pub use space::has_room;
pub use syncs::{dsync, dwait, osync};
pub use unused::{NodeUse, UnusedNodes};
pub use without_memory::{a_sync_without_memory_may_be_given_again, what_takes_no_memory_is_done};
