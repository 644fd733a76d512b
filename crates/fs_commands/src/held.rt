//! The nodes of the snapshot at which a command looked last: they stay in memory, so the next look at it doesn't go
//! through its node table again. The looks themselves are described in `kept_looks`.

ghost use Rattle.std.specs.Prelude.{◌≡◌, true, IsTrue, IfErr, IfSome, OnOk};
ghost use Rattle.fs_files.specs.Calls.{LookRefused};
ghost use Rattle.fs_files.specs.Content.{fails_reading};
ghost use Rattle.fs_files.specs.Effects.{LooksOnly};
ghost use Rattle.fs_snapshots.specs.Kept.{MayReadKept};
ghost use Rattle.fs_commands.specs.Held.{Holds, IsOfSnapshot};
ghost use Rattle.fs_commands.specs.Snapping.{IsSnapshot};
ghost use Rattle.fs_session.specs.Sessions.{MayBegin};

use crate::kept_looks::kept_nodes;
use engine_blocks::Blocks;
use fs_files::{FileRefusal, Shared};
use fs_snapshots::{KeptNodes, a_sound_snapshot_is_whole};
use std::alloc::Global;

/// The nodes that the snapshot of this number keeps.
#[derive(Drop)]
pub(crate) struct HeldNodes {
    pub(crate) number: u32,
    pub(crate) nodes: KeptNodes,
}

/// Holds the nodes of the snapshot of this number: they are read unless they are held. Blocks that aren't known may have
/// no such nodes, and then none are held.
///
/// # Errors
/// A read of the disk failed, which the disk has counted; or out of memory. Then none are held.
pub(crate) fn hold<S: Blocks>(
    alloc: Global,
    blocks: &mut S,
    number: u32,
    shared: &Shared,
    held: &mut Option<HeldNodes>,
) -> Result<(), FileRefusal>
    requires begin { MayBegin S.tells (S.state blocks.old) shared.now }
    requires snapshot { IsTrue S.tells → IsSnapshot (S.state blocks.old).books.geom (S.state blocks.old).map number }
    requires holds { Holds S.tells (S.state blocks.old) held.old }
    ensures holds { Holds S.tells (S.state blocks.new) held.new }
    ensures there { IsTrue S.tells → OnOk result (IsOfSnapshot number held.new) }
    ensures may { IfSome held.new (λ h. MayReadKept S.tells (S.state blocks.new) h.nodes) }
    ensures refused { IfErr result LookRefused }
    ensures looks { LooksOnly S.tells (fails_reading result) (S.state blocks.old) (S.state blocks.new) }
{
    a_sound_snapshot_is_whole();
    if is_held(held, number) {
        return Ok(());
    }
    *held = None;
    match kept_nodes(alloc, blocks, number, shared)? {
        Some(nodes) => {
            *held = Some(HeldNodes { number, nodes });
            Ok(())
        }
        None => Ok(()),
    }
}

/// Whether nodes of the snapshot of this number are held.
fn is_held(held: &Option<HeldNodes>, number: u32) -> bool
    ensures { result ≡ true → IsOfSnapshot number held.now }
{
    match held {
        Some(nodes) => nodes.number == number,
        None => false,
    }
}
