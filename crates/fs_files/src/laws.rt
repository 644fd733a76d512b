//! Laws of drafts and of the files in them, each a function that changes nothing: what a draft is before
//! anything was done, how many blocks a file has, and how many bytes a directory.

ghost use Rattle.std.specs.Prelude.{◌≡◌, ◌≤◌, ◌+◌, ◌-◌, ◌*◌, ◌/◌, ◌^◌, ◌++◌, ◌||◌, ℕ, Bool, [], false, IsTrue, List, length, Some};
ghost use Rattle.engine_blocks.specs.Puts.{IsData};
ghost use Rattle.engine_blocks.specs.Running.{HasNoBare, has};
ghost use Rattle.fs_files.specs.Bytes.{blocks_for, met};
ghost use Rattle.fs_files.specs.Calls.{files_in, places_in, places_of};
ghost use Rattle.fs_files.specs.Drafts.{DraftState, FreesBlocks, begun_beside, nothing_drafted};
ghost use Rattle.fs_files.specs.Effects.{LooksOnly, LooksAndSettles};
ghost use Rattle.fs_files.specs.Nodes.{AreWholeSlots};
ghost use Rattle.fs_files.specs.Sound.{AreApartFrom, AreSoundBeside, HasSoundKept, IsDraftOf, TellsKept};
ghost use Rattle.fs_files.specs.Growing.{alone, placed, taken_by};
ghost use Rattle.fs_files.specs.Shared.{is_kept};
ghost use Rattle.std.specs.List.{All};
ghost use Rattle.layout_extent.specs.Renew.{makes_way, renewals};
ghost use Rattle.layout_geometry.specs.Geometry.{Geometry};
ghost use Rattle.base_types.specs.Seal.{Blocks as Seal};
ghost use Rattle.layout_bytes.specs.declared.node.NodeKind.TheVariants.{Dir};
ghost use Rattle.crash_stands.specs.Files.{FileNode, files_of};
ghost use Rattle.crash_stands.specs.Stands.{AreSound, HasNoSnapshots};

use crash_stands::a_node_in_use_has_data_blocks;
use engine_blocks::{Blocks, calls_compose};

/// An empty draft is one of each map of blocks that are sound beside no kept block where they are known, while each block that
/// was taken is filled or freed; so is an empty draft beside kept blocks, of blocks that are sound beside these. Its
/// files are those of the map, and so are the blocks of each node.
pub fn a_draft_begins<S: Blocks>(blocks: &S)
    ensures draft { HasNoBare (S.state blocks.now).books.running
        → (IsTrue S.tells → AreSoundBeside (S.state blocks.now).books.geom (is_kept []) (S.state blocks.now).map)
        → IsDraftOf S.tells (S.state blocks.now) nothing_drafted }
    ensures beside { (kept : List ℕ) → HasNoBare (S.state blocks.now).books.running
        → (IsTrue S.tells → AreSoundBeside (S.state blocks.now).books.geom (is_kept kept) (S.state blocks.now).map)
        → IsDraftOf S.tells (S.state blocks.now) (begun_beside kept) }
    ensures files { (k : ℕ) → files_in (S.state blocks.now) nothing_drafted k ≡ files_of (S.state blocks.now).books.geom (S.state blocks.now).map k }
    ensures places { (k : ℕ) → places_in (S.state blocks.now) nothing_drafted k ≡ places_of (S.state blocks.now).books.geom (S.state blocks.now).map k }
    ensures beside_files { (kept : List ℕ) (k : ℕ) → files_in (S.state blocks.now) (begun_beside kept)
        k ≡ files_of (S.state blocks.now).books.geom (S.state blocks.now).map k }
    ensures beside_places { (kept : List ℕ) (k : ℕ) → places_in (S.state blocks.now) (begun_beside kept)
        k ≡ places_of (S.state blocks.now).books.geom (S.state blocks.now).map k }
{
    blocks.geom().lawful();
}

/// A draft that only frees blocks is one of a map whose blocks are sound beside these and those that are kept, where
/// they are different ones, and no node has one and none of them is kept.
pub fn a_draft_begins_with_frees<S: Blocks>(blocks: &S)
    ensures draft { (kept bs : List ℕ) (d : DraftState) → HasNoBare (S.state blocks.now).books.running
        → (IsTrue S.tells → AreSoundBeside (S.state blocks.now).books.geom (λ b. is_kept kept b || has bs b) (S.state blocks.now).map)
        → (IsTrue S.tells → AreApartFrom (S.state blocks.now).books.geom (S.state blocks.now).map kept bs)
        → All (IsData (S.state blocks.now).books.geom) bs → FreesBlocks bs (begun_beside kept) d → IsDraftOf S.tells (S.state blocks.now) d }
    ensures files { (kept bs : List ℕ) (d : DraftState) → (IsTrue S.tells → AreApartFrom (S.state blocks.now).books.geom (S.state blocks.now).map kept bs)
        → All (IsData (S.state blocks.now).books.geom) bs → FreesBlocks bs (begun_beside kept) d → IsTrue S.tells → (k : ℕ)
        → (files_in (S.state blocks.now) d k ≡ files_of (S.state blocks.now).books.geom (S.state blocks.now).map k)
        × (places_in (S.state blocks.now) d k ≡ places_of (S.state blocks.now).books.geom (S.state blocks.now).map k) }
{
    blocks.geom().lawful();
}

/// A file of a draft has as many blocks as its bytes need.
pub fn a_file_has_its_blocks<S: Blocks>()
    ensures { (s : S) (d : DraftState) (k : ℕ) (x : FileNode) → IsTrue S.tells → IsDraftOf S.tells (S.state s) d → files_in (S.state s) d k ≡ Some x
        → length (places_in (S.state s) d k) ≡ blocks_for (length x.bytes) }
{}

/// A file of a draft has fewer than 2^30 bytes, since its blocks are different ones of the data.
pub fn a_file_fits_the_disk<S: Blocks>(blocks: &S)
    ensures { (d : DraftState) (k : ℕ) (x : FileNode) → IsTrue S.tells → IsDraftOf S.tells (S.state blocks.now) d → files_in (S.state blocks.now) d k ≡ Some x
        → length x.bytes + 1024 ≤ 2 ^ 30 }
{
    blocks.geom().lawful();
}

/// A directory's bytes are whole slots.
pub fn a_directory_has_whole_slots<S: Blocks>()
    ensures { (s : S) (d : DraftState) (k : ℕ) (x : FileNode) → IsTrue S.tells → IsDraftOf S.tells (S.state s) d → files_in (S.state s) d k ≡ Some x
        → x.kind ≡ Dir
        → AreWholeSlots (S.state s).books.geom.layout (length x.bytes) }
{}

/// No block of a directory is kept.
pub fn a_directory_shares_no_block<S: Blocks>()
    ensures { (s : S) (d : DraftState) (k : ℕ) (x : FileNode) → IsTrue S.tells → IsDraftOf S.tells (S.state s) d → files_in (S.state s) d k ≡ Some x
        → x.kind ≡ Dir → All (λ b. is_kept d.kept b ≡ false) (places_in (S.state s) d k) }
{}

/// Where none of a node's blocks is kept, it takes those alone that it has too few, they stand behind its own, and
/// all that it gives up are freed. Where no block is kept at all none of a list is.
pub fn where_nothing_is_kept()
    ensures takes { (kept : ℕ → Bool) (lo hi : ℕ) (places : List ℕ) → All (λ b. kept b ≡ false) places
        → taken_by kept lo hi places ≡ blocks_for hi - length places }
    ensures behind { (kept : ℕ → Bool) (lo hi : ℕ) (places more : List ℕ) → All (λ b. kept b ≡ false) places → placed kept lo hi places more ≡ places ++ more }
    ensures all { (kept : ℕ → Bool) (places : List ℕ) → All (λ b. kept b ≡ false) places → alone kept places ≡ places }
    ensures none { (places : List ℕ) → All (λ b. is_kept [] b ≡ false) places }
{}

/// Where a test holds for just the blocks that snapshots keep, sound blocks are sound beside these; and blocks that
/// are, with sound snapshots, are sound.
pub fn sound_beside_what_is_kept()
    ensures to { (g : Geometry) (m : Seal) (kept : ℕ → Bool) → TellsKept g kept m → AreSound g m → AreSoundBeside g kept m }
    ensures from { (g : Geometry) (m : Seal) (kept : ℕ → Bool) → TellsKept g kept m → HasSoundKept g m → AreSoundBeside g kept m → AreSound g m }
{
    a_node_in_use_has_data_blocks();
}

/// Blocks without snapshots are sound as they are beside no kept block.
pub fn sound_beside_nothing()
    ensures to { (g : Geometry) (m : Seal) → HasNoSnapshots g m → AreSound g m → AreSoundBeside g (is_kept []) m }
    ensures from { (g : Geometry) (m : Seal) → HasNoSnapshots g m → AreSoundBeside g (is_kept []) m → AreSound g m }
{
    a_node_in_use_has_data_blocks();
}

/// In how many blocks of a list bytes lie: those from the block of the first one to that of the last one. Each of
/// them isn't kept, or makes way for a new one.
pub fn bytes_lie_in_blocks()
    ensures count { (lo hi : ℕ) (places : List ℕ) → hi ≤ 1024 * length places → length (met lo hi places) ≡ blocks_for hi - lo / 1024 }
    ensures most { (lo hi : ℕ) (places : List ℕ) → length (met lo hi places) ≤ blocks_for hi - lo / 1024 }
    ensures kept_too { (kept : ℕ → Bool) (lo hi : ℕ) (places : List ℕ) → length (alone kept (met lo hi places))
        + renewals (makes_way (lo / 1024) (blocks_for hi) kept places) 0 places ≡ length (met lo hi places) }
{}

/// Calls that look, and calls that may settle, one after the other: a look is one that may have settled, and so is a
/// look with such a call after it, or such a call with a look after it.
pub fn settlings_add_up<S: Blocks>()
    ensures looks { (failed : Bool) (s t : S) → (S.state s).books.stopped ≡ false → LooksOnly S.tells failed (S.state s) (S.state t)
        → LooksAndSettles S.tells failed false (S.state s) (S.state t) }
    ensures after { (read_failed failed : Bool) (s t u : S) → (S.state s).books.stopped ≡ false → LooksOnly S.tells false (S.state s) (S.state t)
        → LooksAndSettles S.tells read_failed failed (S.state t) (S.state u) → LooksAndSettles S.tells read_failed failed (S.state s) (S.state u) }
    ensures before { (read_failed : Bool) (s t u : S) → LooksAndSettles S.tells false false (S.state s) (S.state t)
        → LooksOnly S.tells read_failed (S.state t) (S.state u) → LooksAndSettles S.tells read_failed false (S.state s) (S.state u) }
{
    calls_compose::<S>();
}
