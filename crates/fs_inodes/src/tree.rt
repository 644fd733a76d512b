//! The laws of trees, their maps and slots that the other laws rest on, gathered in two contracts. The
//! functions do nothing but call laws.

ghost use Rattle.fs_inodes.specs.SlotLaws.{SlotLaws};
ghost use Rattle.fs_inodes.specs.TreeLaws.{TreeLaws};

use crash_stands::{a_map_is_of_one_tree, a_walk_goes_on, slots_name_nodes_in_use};
use lang_tree::{
    a_move_takes_all_below, commands_keep_a_tree_sound, commands_keep_snapshots,
    new_paths_keep_a_tree_sound, paths_are_counted, what_goes_holds_nothing,
    what_is_held_has_a_name, without_snapshots_there_are_paths_and_nodes,
};
use layout_directory::{entries_follow_their_bytes, slots_read_back};

/// What trees and their maps are by their own laws.
pub(crate) fn the_tree_is_lawful()
    ensures { TreeLaws }
{
    paths_are_counted();
    what_is_held_has_a_name();
    commands_keep_a_tree_sound();
    commands_keep_snapshots();
    without_snapshots_there_are_paths_and_nodes();
    new_paths_keep_a_tree_sound();
    what_goes_holds_nothing();
    a_move_takes_all_below();
    a_walk_goes_on();
    a_map_is_of_one_tree();
    slots_name_nodes_in_use();
}

/// What slots and their bytes are by their own laws.
pub(crate) fn the_slots_are_lawful()
    ensures { SlotLaws }
{
    slots_read_back();
    entries_follow_their_bytes();
}
