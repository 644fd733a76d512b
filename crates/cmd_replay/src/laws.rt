//! Laws of listings and of the trees that are listed: which trees one listing may be of, and that the trees of a trace
//! and of an image are of these. They run nothing.

ghost use Rattle.std.specs.Prelude.{◌≡◌, ◌<◌, ◌^◌, ℕ, slice_get, slice_index, Some};
ghost use Rattle.base_types.specs.Seal.{Blocks};
ghost use Rattle.cmd_replay.specs.Named.{AreAlike, HasAllBytes, HasBytes, HasLawfulNames, IsListable};
ghost use Rattle.cmd_replay.specs.Points.{points_in};
ghost use Rattle.lang_script.specs.Values.{IsCommand};
ghost use Rattle.crash_stands.specs.Stands.{StandsFor};
ghost use Rattle.cmd_trace.specs.Contents.{Contents};
ghost use Rattle.cmd_trace_reader.specs.Traces.{IsTrace};
ghost use Rattle.lang_tree.specs.declared.command.Cmd.{Cmd};
ghost use Rattle.lang_tree.specs.Listing.{listing};
ghost use Rattle.lang_tree.specs.Points.{Point};
ghost use Rattle.lang_tree.specs.Step.{Session, start, step};
ghost use Rattle.lang_tree.specs.Tree.{Bounds, Tree};

use crash_stands::a_tree_that_stands_is_sound;
use lang_tree::{
    commands_keep_a_tree_sound, commands_keep_snapshots,
    without_snapshots_there_are_paths_and_nodes,
};
use layout_geometry::geometries_are_within_limits;
use layout_journal::journal_blocks_keep_to_their_bounds;

/// Two trees with one listing are alike: they are one tree but for the numbers of snapshots, which a listing doesn't
/// show. Both are to be listable, with numbers of 64 bits, and the bytes of one of them are to be below 256. And trees
/// that are alike have one listing.
pub fn a_listing_says_the_tree()
    ensures alike { (limit more : ℕ) (s t : Tree) → limit < 2 ^ 64 → more < 2 ^ 64 → IsListable limit s → IsListable more t → HasAllBytes s
        → listing s ≡ listing t → AreAlike s t }
    ensures listing { (s t : Tree) → AreAlike s t → listing s ≡ listing t }
{}

/// The tree that an image stands for is listable, with numbers of 64 bits. Where each byte of the image is below 256, so
/// is each byte of the tree's files.
pub fn what_stands_has_lawful_names()
    ensures names { (n : ℕ) (img : Blocks) (t : Tree) → StandsFor n img t → (i : ℕ) × (i < 2 ^ 64) × IsListable i t }
    ensures bytes { (n : ℕ) (img : Blocks) (t : Tree) → ((b i : ℕ) → slice_index (img b) i < 256) → StandsFor n img t → HasBytes t }
{
    geometries_are_within_limits();
    journal_blocks_keep_to_their_bounds();
    a_tree_that_stands_is_sound();
}

/// The names of the root alone are lawful, and so are those of each tree that a command with lawful arguments leaves
/// of one with lawful names. Each byte is below 256 there, and stays so, too.
pub fn commands_keep_names_lawful()
    ensures start { (limit : Bounds) → HasLawfulNames (start limit).tree }
    ensures step { (s : Session) (cmd : Cmd) → IsCommand cmd → HasLawfulNames s.tree → HasLawfulNames (step s cmd).0.tree }
    ensures start_bytes { (limit : Bounds) → HasBytes (start limit).tree }
    ensures step_bytes { (s : Session) (cmd : Cmd) → IsCommand cmd → HasBytes s.tree → HasBytes (step s cmd).0.tree }
{}

/// The tree of each sync point of a trace is listable, with at most as many numbers as the geometry says, and its bytes
/// are below 256.
pub fn points_of_a_trace_have_lawful_names()
    ensures names { (c : Contents) → IsTrace c → (number : ℕ) (p : Point) → slice_get (points_in c) number ≡ Some p → IsListable c.geometry.i p.tree }
    ensures bytes { (c : Contents) → IsTrace c → (number : ℕ) (p : Point) → slice_get (points_in c) number ≡ Some p → HasAllBytes p.tree }
{
    geometries_are_within_limits();
    commands_keep_a_tree_sound();
    commands_keep_snapshots();
    without_snapshots_there_are_paths_and_nodes();
}
