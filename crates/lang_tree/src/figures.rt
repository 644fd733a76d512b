//! The figures of each kind of command: need, cost and blocks freed.

ghost use Rattle.std.specs.Prelude.{◌≡◌, ◌+◌, ◌≤◌, ◌<◌};
ghost use Rattle.lang_tree.specs.Figures as spec;
ghost use Rattle.lang_tree.specs.Values.{value_of};

use crate::sizes::{blocks_for, blocks_met};

/// What one block that is in the journal's record costs.
const PAYLOAD: u32 = 25;

/// What a command does to the blocks.
#[derive(Clone, Copy)]
pub struct Figures {
    /// By how many blocks its file or its target directory grows.
    pub need: u32,
    /// The most that it adds to the journal's record: 25 for each block that is there, and 1 for each
    /// that is only named.
    pub cost: u32,
    /// How many blocks it frees.
    pub freed: u32,
}

/// The figures of a command that leaves the blocks as they are.
pub const NOTHING: Figures = Figures {
    need: 0,
    cost: 0,
    freed: 0,
};

/// One name more in a directory, which grows by so many blocks.
pub fn adding(grown: u32) -> Figures
    requires { grown ≤ 1 }
    ensures { value_of result ≡ spec.adding grown }
{
    Figures {
        need: grown,
        cost: PAYLOAD * (3 + grown),
        freed: 0,
    }
}

/// One name less in a directory: so many blocks become free with it and with what goes. `bitmap` is the
/// number of the bitmap's blocks.
pub fn removing(bitmap: u32, freed: u32) -> Figures
    requires { freed ≤ 1048577 }
    ensures { value_of result ≡ spec.removing bitmap freed }
{
    Figures {
        need: 0,
        cost: PAYLOAD * (4 + freed.min(bitmap)),
        freed,
    }
}

/// A path that moves: its new directory grows by so many blocks, and so many become free.
pub fn moving(bitmap: u32, grown: u32, freed: u32) -> Figures
    requires grown { grown ≤ 1 }
    requires freed { freed ≤ 1048577 }
    ensures { value_of result ≡ spec.moving bitmap grown freed }
{
    Figures {
        need: grown,
        cost: PAYLOAD * (6 + (grown + freed.min(bitmap))),
        freed,
    }
}

/// So many bytes come into a file of this size from `offset` on.
pub fn write_figures(bitmap: u32, size: u32, offset: u32, count: u32) -> Figures
    requires size { size ≤ 1073741824 }
    requires end { 0 < count → offset + count ≤ 1073741824 }
    ensures { value_of result ≡ spec.write_figures bitmap size offset count }
{
    if count == 0 {
        return NOTHING;
    }
    writing(bitmap, size, offset.min(size), offset + count)
}

/// A file of `old` bytes gets `new` ones.
pub fn truncate_figures(bitmap: u32, old: u32, new: u32) -> Figures
    requires old { old ≤ 1073741824 }
    requires new { new ≤ 1073741824 }
    ensures { value_of result ≡ spec.truncate_figures bitmap old new }
{
    if old < new {
        return writing(bitmap, old, old, new);
    }
    if new < old {
        return shrinking(bitmap, blocks_for(old) - blocks_for(new));
    }
    NOTHING
}

/// Bytes from `lo` up to `hi` come into a file of this size.
fn writing(bitmap: u32, size: u32, lo: u32, hi: u32) -> Figures
    requires size { size ≤ 1073741824 }
    requires hi { hi ≤ 1073741824 }
    ensures { value_of result ≡ spec.writing bitmap size lo hi }
{
    let grown = blocks_for(size.max(hi)) - blocks_for(size);
    let met = blocks_met(size, lo, hi);
    Figures {
        need: grown,
        cost: PAYLOAD * (met + (1 + grown.min(bitmap))) + grown,
        freed: 0,
    }
}

/// A file loses so many blocks.
fn shrinking(bitmap: u32, freed: u32) -> Figures
    requires { freed ≤ 1048576 }
    ensures { value_of result ≡ spec.shrinking bitmap freed }
{
    Figures {
        need: 0,
        cost: PAYLOAD * (1 + freed.min(bitmap)),
        freed,
    }
}
