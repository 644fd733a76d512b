//! Making the changes of a command's draft, and weighing what the command costs. What a draft has, and
//! what a command costs, is for the callers to say. The rules are described in docs/SPACE.md.

ghost use Rattle.std.specs.Prelude.{◌↔◌, ◌≤◌, ◌+◌, IsTrue, IfErr, OnOk, OnErr};
ghost use Rattle.engine_blocks.specs.Effects.{LeavesDisk};
ghost use Rattle.fs_files.specs.Finish.{MayGoOn};
ghost use Rattle.fs_files.specs.Sound.{IsDraftOf};
ghost use Rattle.fs_session.specs.Changes.{IsCarriedOut, KeepsBlocks, ChangeRefused, IsWithinCost};

use engine_blocks::{Blocks, calls_compose};
use fs_files::{Draft, a_sync_may_follow};
use lang_tree::Refusal;
use layout_geometry::Geom;
use std::alloc::Global;

/// Makes the changes of a draft, and adds the cost of its command to the weight of the transaction.
///
/// # Errors
/// Out of memory; or the draft has a greater price than the command costs, or changes no block though
/// there is a cost, which is answered as `TooBig`. Then nothing of it is done.
pub(crate) fn carry_out<S: Blocks>(
    alloc: Global,
    blocks: &mut S,
    draft: Draft,
    cost: u32,
) -> Result<(), Refusal>
    requires draft { IsDraftOf S.tells (S.state blocks.old) draft }
    requires goes_on { MayGoOn (S.state blocks.old).books }
    requires room { (S.state blocks.old).books.running.weight + cost ≤ (S.state blocks.old).books.room }
    ensures made { OnOk result (IsCarriedOut S.tells draft.entry cost (S.state blocks.old) (S.state blocks.new)) }
    ensures refused { IfErr result (λ why. ChangeRefused (S.state blocks.old).books draft.entry cost why) }
    ensures kept { OnErr result (KeepsBlocks S.tells (S.state blocks.old) (S.state blocks.new)) }
    ensures goes_on { MayGoOn (S.state blocks.new).books }
    ensures disk { LeavesDisk S.tells (S.state blocks.old) (S.state blocks.new) }
{
    a_sync_may_follow();
    calls_compose::<S>();
    if !is_within(&draft, &blocks.geom(), cost) {
        let now = blocks.figures();
        return Err(Refusal::TooBig {
            weight: now.weight,
            cost,
            room: now.room,
        });
    }
    match draft.finish(alloc, blocks) {
        Ok(()) => {}
        Err(_) => return Err(Refusal::NoMemory),
    }
    blocks.weigh(cost);
    Ok(())
}

/// Whether the draft's price is within the cost, and it changes a block where there is a cost.
fn is_within(draft: &Draft, geom: &Geom, cost: u32) -> bool
    ensures { IsTrue result ↔ IsWithinCost geom.now draft.now cost }
{
    if draft.price(geom) > u64::from(cost) {
        return false;
    }
    cost == 0 || draft.changes_a_block()
}
