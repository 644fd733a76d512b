//! The commands that make a tree of files from the root alone, and that they do: they are all answered so, and what
//! they leave is the tree again, with other numbers for its nodes. It has definitions and laws, and runs nothing.
#![tactic(auto)]

mod laws;

pub use laws::{
    a_small_tree_is_made_so, a_walk_comes_to_each_path, commands_make_the_tree,
    each_path_is_made_once, layout_two_takes_all_names, no_file_gets_too_many_paths,
    no_more_blocks_are_taken_on_the_way, other_numbers_are_no_other_tree, the_next_command_is_done,
};
