//! The figures of each kind of command, from what was looked up of inodes: numbers of slots, sizes, and how many
//! blocks are shared. Nothing is looked up here. The rules are described in docs/TREE.md.

ghost use Rattle.std.specs.Prelude.{◌≡◌, ◌+◌, ◌-◌, ◌<◌, ◌≤◌, min, ℕ, List, length};
ghost use Rattle.base_types.specs.declared.layout.Layout.{Layout as LayoutValue};
ghost use Rattle.lang_tree.specs.declared.command.Cmd.{Cmd};
ghost use Rattle.lang_tree.specs.declared.command.Cmd.TheVariants.{Mkdir, Create, Write, Fill, Truncate, Link, Unlink, Rmdir};
ghost use Rattle.lang_tree.specs.Figures as spec;
ghost use Rattle.lang_tree.specs.Figures.{Figures as FiguresValue};
ghost use Rattle.lang_tree.specs.Values.{value_of};
ghost use Rattle.lang_tree.specs.Sharing as over;
ghost use Rattle.lang_tree.specs.Sharing.{BlocksAlone, SharedNodes, SharedPlaces, alone_from, shared_at, shared_met, unsnapping};
ghost use Rattle.lang_tree.specs.Tree.{Bounds, Snapshots};
ghost use Rattle.crash_stands.specs.Inodes.{Inodes};
ghost use Rattle.fs_inodes.specs.Lookups.{bytes_of, inode_at, number_at};
ghost use Rattle.fs_inodes.specs.Figures.{accepted_cost_over, blocks_lost, slots_above};
ghost use Rattle.fs_commands.specs.Figures.{AreFiguresOf, MeetsShared};

use base_types::Layout;
use base_types::limits::BLOCK_LENGTH;
use fs_inodes::{the_map_gives_the_figures, the_map_gives_the_refusal};
use lang_tree::{
    Figures, NOTHING, adding, blocks_for, growth, release, removing,
    touched_blocks_are_counted_by_division,
};

/// What one block that is in the journal's record costs.
const PAYLOAD: u32 = 25;

/// Bytes of a block.
const BLOCK: u32 = BLOCK_LENGTH as u32;

/// The figures of a new name in a directory of so many slots: of mkdir, create and link.
pub(crate) fn new_name_figures(slots: u64, layout: Layout) -> Figures
    ensures value { value_of result ≡ spec.adding (spec.growth layout slots) }
    ensures mkdir { (bitmap : ℕ) (shared : SharedNodes) (m : Inodes) (path : List (List ℕ)) → slots ≡ slots_above m path
        → AreFiguresOf layout bitmap shared m (Mkdir path) (value_of result) }
    ensures create { (bitmap : ℕ) (shared : SharedNodes) (m : Inodes) (path : List (List ℕ)) → slots ≡ slots_above m path
        → AreFiguresOf layout bitmap shared m (Create path) (value_of result) }
    ensures link { (bitmap : ℕ) (shared : SharedNodes) (m : Inodes) (path other : List (List ℕ)) → slots ≡ slots_above m other
        → AreFiguresOf layout bitmap shared m (Link path other) (value_of result) }
{
    figures_come_from_inodes();
    adding(growth(slots, layout))
}

/// The figures of an unlink, in a directory of so many slots, with which so many blocks of the file go.
pub(crate) fn unlink_figures(bitmap: u32, slots: u64, gone: u32, layout: Layout) -> Figures
    requires { gone ≤ 1048576 }
    ensures { (shared : SharedNodes) (m : Inodes) (path : List (List ℕ)) → slots ≡ slots_above m path → gone ≡ blocks_lost shared m path
        → AreFiguresOf layout bitmap shared m (Unlink path) (value_of result) }
{
    figures_come_from_inodes();
    removing(bitmap, release(slots, layout) + gone)
}

/// The figures of an rmdir in a directory of so many slots.
pub(crate) fn rmdir_figures(bitmap: u32, slots: u64, layout: Layout) -> Figures
    ensures { (shared : SharedNodes) (m : Inodes) (path : List (List ℕ)) → slots ≡ slots_above m path
        → AreFiguresOf layout bitmap shared m (Rmdir path) (value_of result) }
{
    figures_come_from_inodes();
    removing(bitmap, release(slots, layout))
}

/// The figures of a write or fill of so many bytes from `offset` on, in a file of so many, where so many of the blocks
/// that they touch are shared.
pub(crate) fn overwrite_figures(
    bitmap: u32,
    size: u32,
    offset: u32,
    count: u32,
    met: u32,
) -> Figures
    requires size { size ≤ 1073741824 }
    requires end { offset + count ≤ 1073741824 }
    requires some { 0 < count }
    requires met { met ≤ 1048576 }
    ensures write { (l : LayoutValue) (shared : SharedNodes) (m : Inodes) (path : List (List ℕ)) (bytes : List ℕ) → size ≡ length (bytes_of (inode_at m path))
        → count ≡ length bytes → MeetsShared shared m path (min offset size) (offset + count) met
        → AreFiguresOf l bitmap shared m (Write path offset bytes) (value_of result) }
    ensures fill { (l : LayoutValue) (shared : SharedNodes) (m : Inodes) (path : List (List ℕ)) (byte : ℕ) → size ≡ length (bytes_of (inode_at m path))
        → MeetsShared shared m path (min offset size) (offset + count) met
        → AreFiguresOf l bitmap shared m (Fill path offset count byte) (value_of result) }
{
    figures_come_from_inodes();
    writing_over(bitmap, size, offset.min(size), offset + count, met)
}

/// The figures of a truncate to `new` bytes of a file of `old`, where so many are shared of the blocks that the new
/// bytes touch, or that the file gives up.
pub(crate) fn resize_figures(bitmap: u32, old: u32, new: u32, kept: u32) -> Figures
    requires old { old ≤ 1073741824 }
    requires new { new ≤ 1073741824 }
    requires kept { kept ≤ 1048576 }
    ensures { (l : LayoutValue) (shared : SharedNodes) (m : Inodes) (path : List (List ℕ)) → old ≡ length (bytes_of (inode_at m path))
        → (old < new → MeetsShared shared m path old new kept)
        → (new < old → spec.blocks_for old - spec.blocks_for new - kept
        ≡ alone_from (shared_at shared (number_at m path)) (spec.blocks_for new) (spec.blocks_for old - spec.blocks_for new))
        → AreFiguresOf l bitmap shared m (Truncate path new) (value_of result) }
{
    figures_come_from_inodes();
    if old < new {
        return writing_over(bitmap, old, old, new, kept);
    }
    if new < old {
        let gone = blocks_for(old).saturating_sub(blocks_for(new));
        return cutting(bitmap, gone.saturating_sub(kept));
    }
    NOTHING
}

/// The figures of bytes from `lo` up to `hi` that come into a file of this size, where so many of the blocks that they
/// touch are shared: new ones stand in the stead of these.
fn writing_over(bitmap: u32, size: u32, lo: u32, hi: u32, met: u32) -> Figures
    requires size { size ≤ 1073741824 }
    requires hi { hi ≤ 1073741824 }
    requires met { met ≤ 1048576 }
    ensures { (shared : SharedPlaces) → met ≡ shared_met shared size lo hi → value_of result ≡ over.writing_over bitmap shared size lo hi }
{
    touched_blocks_are_counted_by_division();
    let touched = blocks_for(size)
        .min(blocks_for(hi))
        .saturating_sub(lo / BLOCK);
    let need = met + (blocks_for(size.max(hi)) - blocks_for(size));
    Figures {
        need,
        cost: PAYLOAD * (touched.saturating_sub(met) + (1 + need.min(bitmap))) + need,
        freed: 0,
    }
}

/// The figures of a file that gives up so many blocks that aren't shared.
fn cutting(bitmap: u32, freed: u32) -> Figures
    requires { freed ≤ 1048576 }
    ensures { value_of result ≡ spec.shrinking bitmap freed }
{
    Figures {
        need: 0,
        cost: PAYLOAD * (1 + freed.min(bitmap)),
        freed,
    }
}

/// The figures of a snapshot of so many blocks that is made.
pub(crate) fn snap_figures(bitmap: u32, count: u32) -> Figures
    requires bitmap { bitmap ≤ 1048576 }
    requires count { count ≤ 134217728 }
    ensures { value_of result ≡ spec.snapping bitmap count }
{
    Figures {
        need: count,
        cost: PAYLOAD * (1 + count.min(bitmap)) + count,
        freed: 0,
    }
}

/// The figures of a snapshot of so many blocks that goes, with so many blocks of its files that nothing else has.
pub(crate) fn unsnap_figures(bitmap: u32, count: u32, alone: u32) -> Figures
    requires count { count ≤ 62914560 }
    requires alone { alone ≤ 1048576 }
    ensures { value_of result ≡ unsnapping bitmap count alone }
{
    let freed = count + alone;
    Figures {
        need: 0,
        cost: PAYLOAD * (1 + freed.min(bitmap)),
        freed,
    }
}

/// The figures of a command come from inodes and from what is shared, where no tree with these refuses it.
fn figures_come_from_inodes()
    ensures { (l : LayoutValue) (bitmap : ℕ) (shared : SharedNodes) (m : Inodes) (cmd : Cmd) (f : FiguresValue)
        → ((alone : BlocksAlone) (limit : Bounds) (kept : Snapshots) → limit.layout ≡ l → f ≡ accepted_cost_over bitmap shared alone limit kept m cmd)
        → AreFiguresOf l bitmap shared m cmd f }
{
    the_map_gives_the_figures();
    the_map_gives_the_refusal();
}
