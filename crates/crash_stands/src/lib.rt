//! When an inode map is that of a tree, and when a map of blocks and an image of a disk stand for one:
//! definitions, and the laws on them. Nothing here runs. What commands make of inode maps is described by
//! fs_inodes, the bytes of nodes and slots by layout_bytes, and the recovered blocks of an image by
//! layout_journal.
#![tactic(auto)]

mod laws;
mod maps;
mod snapshots;

pub use laws::{
    a_tree_that_stands_is_sound, an_image_stands_for_one_tree,
    images_alike_below_n_stand_for_the_same, the_formatted_disk_stands_for_the_root,
};
pub use maps::{
    a_map_is_of_one_tree, a_node_in_use_has_data_blocks, a_walk_goes_on, blocks_have_a_map,
    files_have_one_map, slots_name_nodes_in_use,
};
pub use snapshots::{
    a_snapshot_keeps_one_tree, a_snapshot_stays_with_its_blocks, a_tree_stands_by_its_live_blocks,
    unused_numbers_are_those_of_no_node, without_snapshots_nothing_is_shared,
};
