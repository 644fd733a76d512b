//! The first look at each node of the node table.

ghost use Rattle.std.specs.Prelude.{◌≡◌, ◌≢◌, ◌++◌, ◌∷◌, [], IsTrue, IfOk, IfErr, IfSome, OnOk};
ghost use Rattle.crash_stands.specs.Bounds.{bounds_of};
ghost use Rattle.fs_files.specs.Asks.{MayRead};
ghost use Rattle.fs_files.specs.Effects.{LooksOnly};
ghost use Rattle.layout_bytes.specs.declared.node.NodeKind.TheVariants.{Free};
ghost use Rattle.fs_check.specs.Damage.{IsBroken};
ghost use Rattle.fs_check.specs.Looked.{AreSeen, HasPlaces, IsLookOf, HasWrongLink};
ghost use Rattle.fs_check.specs.Reading.{IfDamaged, fails_reading};

use crate::damage::{TreeDamage, TreeRefusal};
use crate::looked::Looked;
use base_types::NoMemory;
use engine_blocks::Blocks;
use fs_files::{FileFacts, Nodes};
use layout_node::NodeKind;
use std::alloc::Global;

/// Looks at each node of the node table. The first place is that of number 0, which no node has.
///
/// # Errors
/// A directory has another number of links than one; a read of the disk failed, which the disk has counted;
/// or out of memory.
pub(crate) fn look_at_nodes<N: Nodes, S: Blocks>(
    files: &N,
    alloc: Global,
    blocks: &mut S,
) -> Result<Vec<Looked>, TreeRefusal>
    requires read { MayRead (N.may_read S.tells (S.state blocks.old) files.now) (S.state blocks.old) }
    ensures places { IfOk result (λ nodes. HasPlaces (S.state blocks.old).books.geom.i nodes.items) }
    ensures seen { IsTrue S.tells → IfOk result (λ nodes. AreSeen (N.nodes (S.state blocks.old) files.now).files nodes.items) }
    ensures broken { IsTrue S.tells → IfErr result
        (λ why. IfDamaged why (IsBroken (bounds_of (S.state blocks.old).books.geom) (N.nodes (S.state blocks.old) files.now).files)) }
    ensures looks { LooksOnly S.tells (fails_reading result) (S.state blocks.old) (S.state blocks.new) }
{
    files.laws(blocks);
    let geom = blocks.geom();
    geom.lawful();
    let mut nodes = Vec::new(alloc);
    keep(&mut nodes, Looked::Unused)?;
    for node in 1..geom.i() + 1 {
        let found = files.look(blocks, node)?;
        keep(&mut nodes, look_of(node, found)?)?;
    }
    Ok(nodes)
}

/// What is kept of a node.
///
/// # Errors
/// It is a directory with another number of links than one.
fn look_of(node: u32, found: Option<FileFacts>) -> Result<Looked, TreeDamage>
    requires { IfSome found (λ facts. facts.kind ≢ Free) }
    ensures look { IfOk result (IsLookOf found) }
    ensures broken { IfErr result (HasWrongLink node found) }
{
    match found {
        None => Ok(Looked::Unused),
        Some(facts) => match facts.kind {
            NodeKind::Free => Ok(Looked::Unused),
            NodeKind::Dir => {
                if facts.links != 1 {
                    return Err(TreeDamage::Unreadable { node });
                }
                Ok(Looked::Directory(facts.size))
            }
            NodeKind::File => Ok(Looked::Links(facts.links)),
            NodeKind::Snapshot => Ok(Looked::Unused),
        },
    }
}

/// Appends one more.
///
/// # Errors
/// Out of memory.
fn keep(nodes: &mut Vec<Looked>, look: Looked) -> Result<(), NoMemory>
    ensures { OnOk result (nodes.new.items ≡ nodes.old.items ++ look ∷ []) }
{
    nodes.push(look)?;
    Ok(())
}
