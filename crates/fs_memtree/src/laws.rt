//! The laws of trees and their inode maps that the proofs rest on, gathered in one contract. The function
//! does nothing but call laws.

ghost use Rattle.fs_memtree.specs.Laws.{MapLaws};

use crash_stands::a_map_is_of_one_tree;
use fs_inodes::{
    names_may_be_in_any_order, new_bytes_are_mapped, paths_lead_to_inodes,
    the_map_gives_the_refusal, the_map_gives_the_reply,
};
use lang_tree::{
    commands_keep_a_tree_sound, commands_keep_snapshots, files_stay_small, what_goes_holds_nothing,
    what_is_held_has_a_name, without_snapshots_there_are_paths_and_nodes,
};

/// What trees and their maps are by their own laws.
pub(crate) fn the_maps_are_lawful()
    ensures { MapLaws }
{
    a_map_is_of_one_tree();
    commands_keep_a_tree_sound();
    commands_keep_snapshots();
    without_snapshots_there_are_paths_and_nodes();
    files_stay_small();
    the_map_gives_the_refusal();
    the_map_gives_the_reply();
    paths_lead_to_inodes();
    what_is_held_has_a_name();
    what_goes_holds_nothing();
    names_may_be_in_any_order();
    new_bytes_are_mapped();
}
