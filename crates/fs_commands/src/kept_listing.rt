//! The listing of a file system: the lines of the tree, and behind them those of what each snapshot keeps, in the order
//! of the snapshots' names. How the lines of a tree are written is described in `listing`.

ghost use Rattle.std.specs.Prelude.{◌≡◌, true, false, IsTrue, OnOk, OnErr};
ghost use Rattle.std.specs.Io.KnownBytes.{Appends};
ghost use Rattle.base_io.specs.Prefix.{TakesPrefix};
ghost use Rattle.lang_tree.specs.Listing.{listing as listing_of, snapshot_lines};
ghost use Rattle.lang_tree.specs.Step.{Session};
ghost use Rattle.lang_tree.specs.Tree.{Kept};
ghost use Rattle.crash_stands.specs.Stands.{KeepsTree};
ghost use Rattle.fs_files.specs.Effects.{LooksOnly};
ghost use Rattle.fs_commands.specs.Known.{Knows, counts_in};
ghost use Rattle.fs_commands.specs.Listing.{ended_by_read, ended_by_push, ended_by_stop, kept_lines, CountsPushes, Lists, MayList};
ghost use Rattle.fs_commands.specs.Snapping.{IsSnapshot};
ghost use Rattle.fs_session.specs.Commands.{places_of};
ghost use Rattle.fs_session.specs.Sessions.{IsSession, MayBegin};

use crate::kept_looks::kept_nodes;
use crate::known::KnownSnapshots;
use crate::lines::write_snapshot;
use crate::listing::{ListRefusal, list_from_root, listing};
use base_io::{Sink, prefixes_join};
use base_types::Name;
use engine_blocks::Blocks;
use fs_files::Shared;
use fs_snapshots::{kept_nodes_have_the_map_of_their_tree, what_is_known_of_snapshots_is_so};
use std::alloc::Global;

/// Writes the listing of the tree that stands in these blocks, with its snapshots.
///
/// # Errors
/// As `listing`.
pub(crate) fn list_all<S: Blocks, K: Sink>(
    alloc: Global,
    blocks: &mut S,
    out: &mut K,
    known: &KnownSnapshots,
) -> Result<(), ListRefusal>
    requires may_list { MayList S.tells (S.state blocks.old) (counts_in known.now) }
    requires knows { Knows S.tells (S.state blocks.old) known.now }
    ensures all { IsTrue S.tells → OnOk result ((f : Session) → IsSession (S.state blocks.old) f
        → Appends (K.taken out.old) (K.taken out.new) (listing_of f.tree)) }
    ensures front { IsTrue S.tells → OnErr result ((f : Session) → IsSession (S.state blocks.old) f
        → TakesPrefix (K.taken out.old) (K.taken out.new) (listing_of f.tree)) }
    ensures stopped { ended_by_stop result ≡ (S.state blocks.old).books.stopped }
    ensures nothing { (S.state blocks.old).books.stopped ≡ true → (blocks.new ≡ blocks.old) × (out.new ≡ out.old) }
    ensures looks { LooksOnly S.tells (ended_by_read result) (S.state blocks.old) (S.state blocks.new) }
    ensures pushes { CountsPushes (ended_by_push result) (K.faults out.old) (K.faults out.new) }
{
    prefixes_join();
    listing(alloc, blocks, out, known.shared())?;
    list_kept(alloc, blocks, out, known)?;
    Ok(())
}

/// Writes the lines of the snapshots of the tree that stands in these blocks.
///
/// # Errors
/// As `listing`, but for the first one.
fn list_kept<S: Blocks, K: Sink>(
    alloc: Global,
    blocks: &mut S,
    out: &mut K,
    known: &KnownSnapshots,
) -> Result<(), ListRefusal>
    requires begin { MayBegin S.tells (S.state blocks.old) (counts_in known.now) }
    requires knows { Knows S.tells (S.state blocks.old) known.now }
    ensures all { IsTrue S.tells → OnOk result ((f : Session) → IsSession (S.state blocks.old) f
        → Appends (K.taken out.old) (K.taken out.new) (kept_lines f.tree.snapshots)) }
    ensures front { IsTrue S.tells → OnErr result ((f : Session) → IsSession (S.state blocks.old) f
        → TakesPrefix (K.taken out.old) (K.taken out.new) (kept_lines f.tree.snapshots)) }
    ensures lists { Lists S.tells result (S.state blocks.old) (S.state blocks.new) (K.faults out.old) (K.faults out.new) }
{
    prefixes_join();
    what_is_known_of_snapshots_is_so();
    for (name, number) in known.numbers() {
        list_snapshot(alloc, blocks, out, name, *number, known.shared())?;
    }
    Ok(())
}

/// Writes the lines of the snapshot of this name and number.
///
/// # Errors
/// As `list_kept`.
fn list_snapshot<S: Blocks, K: Sink>(
    alloc: Global,
    blocks: &mut S,
    out: &mut K,
    name: &Name,
    number: u32,
    shared: &Shared,
) -> Result<(), ListRefusal>
    requires begin { MayBegin S.tells (S.state blocks.old) shared.now }
    requires snapshot { IsTrue S.tells → IsSnapshot (S.state blocks.old).books.geom (S.state blocks.old).map number }
    ensures all { IsTrue S.tells → OnOk result ((k : Kept)
        → KeepsTree (S.state blocks.old).books.geom (S.state blocks.old).map (places_of (S.state blocks.old) number) k
        → Appends (K.taken out.old) (K.taken out.new) (snapshot_lines name.now k)) }
    ensures front { IsTrue S.tells → OnErr result ((k : Kept)
        → KeepsTree (S.state blocks.old).books.geom (S.state blocks.old).map (places_of (S.state blocks.old) number) k
        → TakesPrefix (K.taken out.old) (K.taken out.new) (snapshot_lines name.now k)) }
    ensures lists { Lists S.tells result (S.state blocks.old) (S.state blocks.new) (K.faults out.old) (K.faults out.new) }
{
    prefixes_join();
    kept_nodes_have_the_map_of_their_tree();
    write_snapshot(out, name)?;
    match kept_nodes(alloc, blocks, number, shared)? {
        Some(kept) => list_from_root(&kept, alloc, blocks, out),
        None => Ok(()),
    }
}
