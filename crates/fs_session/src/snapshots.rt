//! Laws of sessions that have snapshots: what counts tell of them, and what a draft leaves of a tree's
//! snapshots. The functions do nothing but call laws. How a snapshot comes and goes is for the crates above.

ghost use Rattle.std.specs.Prelude.{◌≡◌, ℕ, ◌+◌, ◌≤◌, List, length, replicate, slice_get, IsTrue, Option, Some, None};
ghost use Rattle.std.specs.FinMap.{get};
ghost use Rattle.base_types.specs.Layouts.{node_size};
ghost use Rattle.base_types.specs.Seal.{Blocks as BlockMap};
ghost use Rattle.lang_tree.specs.Conditions.{least_unused};
ghost use Rattle.lang_tree.specs.Figures.{snapshot_blocks};
ghost use Rattle.layout_bytes.specs.Node.{node_at, node_bytes};
ghost use Rattle.lang_tree.specs.declared.command.Cmd.{Cmd};
ghost use Rattle.lang_tree.specs.Step.{Session, step};
ghost use Rattle.lang_tree.specs.Tree.{Kept, Tree};
ghost use Rattle.crash_stands.specs.Files.{used_node};
ghost use Rattle.crash_stands.specs.Inodes.{Inodes, AreInodesOf};
ghost use Rattle.crash_stands.specs.Maps.{IsMapOf};
ghost use Rattle.crash_stands.specs.Places.{table_blocks};
ghost use Rattle.crash_stands.specs.Stands.{AreSound, IsTreeOf};
ghost use Rattle.crash_snapshots.specs.Places.{all_dirs};
ghost use Rattle.fs_files.specs.Calls.{files_in, places_in};
ghost use Rattle.fs_files.specs.Drafts.{DraftState, nothing_drafted};
ghost use Rattle.fs_files.specs.Shared.{is_kept, is_kept_at};
ghost use Rattle.fs_files.specs.Sound.{IsDraftOf, TellsKept};
ghost use Rattle.fs_session.specs.Plans.{HasDrafted, MakesTree, StaysBeside};
ghost use Rattle.fs_session.specs.Commands.{alone_on, kept_in, least_number, places_of, shared_on};
ghost use Rattle.fs_session.specs.Lists.{kept_after};
ghost use Rattle.fs_session.specs.Sessions.{IsSession};
ghost use Rattle.fs_session.specs.Snapshots.{alone_among, kept_files_of, kept_lists, live_files};
ghost use Rattle.fs_snapshots.specs.Kept.{AreDirsBefore, IsSnapshotAt, KeptState};
ghost use Rattle.fs_snapshots.specs.Known.{CountsKeepers, KnowsSnapshots};

use crash_snapshots::{a_snapshot_goes, a_snapshot_stands};
use crash_stands::{
    a_node_in_use_has_data_blocks, a_snapshot_stays_with_its_blocks, a_tree_that_stands_is_sound,
    unused_numbers_are_those_of_no_node,
};
use engine_blocks::Blocks;
use fs_files::sound_beside_what_is_kept;
use fs_inodes::{slots_follow_the_bytes, the_map_gives_the_figures};
use fs_snapshots::{a_sound_snapshot_is_whole, what_is_known_of_snapshots_is_so};
use lang_tree::commands_keep_snapshots;

/// What counts and names tell of a session's snapshots: which blocks of its nodes are kept, which blocks a snapshot alone
/// has, and the least number that is unused.
pub fn counts_tell_what_is_shared<S: Blocks>()
    ensures shared { (s : S) (f : Session) (counts : List ℕ) (k i : ℕ) → IsSession (S.state s) f
        → TellsKept (S.state s).books.geom (is_kept counts) (S.state s).map
        → shared_on (S.state s) f k i ≡ is_kept_at counts (slice_get (places_of (S.state s) k) i) }
    ensures alone { (s : S) (f : Session) (counts name : List ℕ) (k : Kept) → IsSession (S.state s) f
        → CountsKeepers (S.state s).books.geom (S.state s).map counts → get f.tree.snapshots name ≡ Some k
        → alone_on (S.state s) f name ≡ length (alone_among counts (live_files (S.state s).books.geom (S.state s).map)
        (kept_files_of (S.state s).books.geom (S.state s).map k.number)) }
    ensures least { (s : S) (f : Session) → IsSession (S.state s) f → least_unused f.limit.nodes f.tree ≡ least_number (S.state s) }
    ensures blocks { (s : S) (f : Session) (name : List ℕ) (k : Kept) → IsSession (S.state s) f → get f.tree.snapshots name ≡ Some k
        → length (places_of (S.state s) k.number) ≡ snapshot_blocks f.limit k.names }
    ensures live { (s : S) (f : Session) → IsSession (S.state s) f
        → snapshot_blocks f.limit f.tree.names
        ≡ 1 + (table_blocks (S.state s).books.geom + length (all_dirs (used_node (S.state s).books.geom (S.state s).map) 1 f.limit.nodes)) }
{
    what_is_known_of_snapshots_is_so();
    a_sound_snapshot_is_whole();
    a_tree_that_stands_is_sound();
    unused_numbers_are_those_of_no_node();
    slots_follow_the_bytes();
    the_map_gives_the_figures();
}

/// A draft of a tree that stands beside just what snapshots keep, and leaves the snapshots as they are, leaves sound
/// blocks, which stand for the tree of its inodes with the same snapshots; and what is known of them stays so, and each
/// is where it was, with as many blocks of directories before each block of its node table.
pub fn a_draft_that_leaves_snapshots_makes_its_tree<S: Blocks>(blocks: &S)
    ensures sound { IsTrue S.tells → (d : DraftState) (m : BlockMap) (t : Tree) → IsTreeOf (S.state blocks.now).books.geom (S.state blocks.now).map t
        → IsDraftOf S.tells (S.state blocks.now) d → StaysBeside d (S.state blocks.now) → HasDrafted (S.state blocks.now) d m
        → AreSound (S.state blocks.now).books.geom m }
    ensures tree { IsTrue S.tells → (d : DraftState) (m : BlockMap) (t u : Tree) (inodes : Inodes)
        → IsTreeOf (S.state blocks.now).books.geom (S.state blocks.now).map t
        → IsDraftOf S.tells (S.state blocks.now) d → StaysBeside d (S.state blocks.now) → HasDrafted (S.state blocks.now) d m
        → u.snapshots ≡ t.snapshots → AreInodesOf (S.state blocks.now).books.geom.layout (files_in (S.state blocks.now) d) inodes
        → IsMapOf (S.state blocks.now).books.geom.i inodes u
        → IsTreeOf (S.state blocks.now).books.geom m u }
    ensures known { IsTrue S.tells → (d : DraftState) (m : BlockMap) (t : Tree) (counts : List ℕ) (numbers : List ℕ → Option ℕ)
        → IsTreeOf (S.state blocks.now).books.geom (S.state blocks.now).map t
        → IsDraftOf S.tells (S.state blocks.now) d → StaysBeside d (S.state blocks.now) → HasDrafted (S.state blocks.now) d m
        → KnowsSnapshots (S.state blocks.now).books.geom (S.state blocks.now).map counts numbers
        → KnowsSnapshots (S.state blocks.now).books.geom m counts numbers }
    ensures gone { IsTrue S.tells → (d : DraftState) (m : BlockMap) (t : Tree) (k : ℕ) (v : KeptState)
        → IsTreeOf (S.state blocks.now).books.geom (S.state blocks.now).map t
        → IsDraftOf S.tells (S.state blocks.now) d → StaysBeside d (S.state blocks.now) → HasDrafted (S.state blocks.now) d m
        → IsSnapshotAt (S.state blocks.now).books.geom (S.state blocks.now).map k v.places
        → AreDirsBefore (S.state blocks.now).books.geom (S.state blocks.now).map v.places v.before
        → IsSnapshotAt (S.state blocks.now).books.geom m k v.places × AreDirsBefore (S.state blocks.now).books.geom m v.places v.before }
{
    blocks.geom().lawful();
    a_node_in_use_has_data_blocks();
    a_snapshot_stays_with_its_blocks();
    a_sound_snapshot_is_whole();
    sound_beside_what_is_kept();
}

/// A map of blocks that has what the draft of a command made stands for the command's tree, with its snapshots: one
/// comes, one goes, or all stay. Each keeps in it what is said of the command.
pub(crate) fn a_draft_makes_the_tree_of_its_command<S: Blocks>(blocks: &S)
    ensures tree { IsTrue S.tells → (start : S) (cmd : Cmd) (d : DraftState) (cost : ℕ) (f : Session) (m : BlockMap) → IsSession (S.state blocks.now) f
        → IsDraftOf S.tells (S.state blocks.now) d → MakesTree cmd d cost (S.state start) (S.state blocks.now) f → HasDrafted (S.state blocks.now) d m
        → IsTreeOf (S.state blocks.now).books.geom m (step f cmd).0.tree }
    ensures keeps { IsTrue S.tells → (start : S) (cmd : Cmd) (d : DraftState) (cost : ℕ) (f : Session) (m : BlockMap) → IsSession (S.state blocks.now) f
        → IsDraftOf S.tells (S.state blocks.now) d → MakesTree cmd d cost (S.state start) (S.state blocks.now) f → HasDrafted (S.state blocks.now) d m
        → kept_lists (S.state blocks.now).books.geom m ≡ kept_after f (places_of (S.state blocks.now)) (kept_in (S.state blocks.now)) cmd }
{
    blocks.geom().lawful();
    a_node_in_use_has_data_blocks();
    a_snapshot_stays_with_its_blocks();
    a_tree_that_stands_is_sound();
    a_snapshot_stands();
    a_snapshot_goes();
    commands_keep_snapshots();
    sound_beside_what_is_kept();
    what_is_known_of_snapshots_is_so();
}

/// A node whose file and blocks a draft leaves is the same in a map that has what the draft made, and the bytes of no
/// node are zeros there.
pub fn a_node_that_a_draft_leaves_stays<S: Blocks>(blocks: &S)
    ensures same { IsTrue S.tells → (d : DraftState) (m : BlockMap) (k : ℕ) → AreSound (S.state blocks.now).books.geom (S.state blocks.now).map
        → IsDraftOf S.tells (S.state blocks.now) d → HasDrafted (S.state blocks.now) d m
        → files_in (S.state blocks.now) d k ≡ files_in (S.state blocks.now) nothing_drafted k
        → places_in (S.state blocks.now) d k ≡ places_of (S.state blocks.now) k
        → used_node (S.state blocks.now).books.geom m k ≡ used_node (S.state blocks.now).books.geom (S.state blocks.now).map k }
    ensures bare { IsTrue S.tells → (d : DraftState) (m : BlockMap) (k : ℕ) → IsDraftOf S.tells (S.state blocks.now) d → HasDrafted (S.state blocks.now) d m
        → 1 ≤ k → k ≤ (S.state blocks.now).books.geom.i → node_at (S.state blocks.now).books.geom m k ≡ None
        → node_bytes (S.state blocks.now).books.geom m k ≡ replicate (node_size (S.state blocks.now).books.geom.layout) 0 }
{
    blocks.geom().lawful();
}
