//! What a command has planned before anything is changed, and carrying it out. What each command plans is
//! described elsewhere.

ghost use Rattle.std.specs.Prelude.{◌≡◌, false, IsTrue, OnOk};
ghost use Rattle.lang_tree.specs.declared.command.Cmd.{Cmd};
ghost use Rattle.lang_tree.specs.Points.{is_sync};
ghost use Rattle.fs_session.specs.Commands.{Carries};
ghost use Rattle.fs_session.specs.Plans.{LeavesMap, MayBeMade, OnChange, Plans};
ghost use Rattle.fs_session.specs.Sessions.{IsBetween};

use crate::change::carry_out;
use crate::snapshots::a_draft_makes_the_tree_of_its_command;
use crate::unused::{NodeUse, UnusedNodes};
use engine_blocks::{Blocks, calls_compose};
use fs_files::{Draft, a_sync_may_follow};
use lang_tree::{Refusal, Reply, a_command_changes_where_it_costs, sharing_costs_where_all_costs};
use std::alloc::Global;

/// What a command is to answer or to change.
#[derive(Drop)]
pub enum Plan<'a> {
    /// This reply, and nothing changes.
    Answer(Reply),
    /// The changes of this draft at this cost, which use nodes so, and that the command is done.
    Change {
        draft: Draft<'a>,
        cost: u32,
        nodes: NodeUse,
    },
}

/// Carries out what a command has planned. All nodes are in use but those that may be unused.
///
/// # Errors
/// The plan's; or out of memory. Then nothing is changed. A draft past its cost is answered as `TooBig`,
/// which never comes where the blocks are known.
pub fn carry<S: Blocks>(
    alloc: Global,
    blocks: &mut S,
    planned: Result<Plan, Refusal>,
    unused: &mut UnusedNodes,
) -> Result<Reply, Refusal>
    requires may { OnChange planned (λ draft cost nodes. MayBeMade S.tells draft cost nodes (S.state blocks.old)) }
    requires between { IsBetween S.tells (S.state blocks.old) unused.old }
    ensures carries { (cmd : Cmd) (start : S) → is_sync cmd ≡ false → Plans S.tells cmd planned.entry (S.state start) (S.state blocks.old)
        → Carries S.tells cmd result (S.state start) (S.state blocks.new) }
    ensures between { IsBetween S.tells (S.state blocks.new) unused.new }
    ensures map { IsTrue S.tells → OnOk result (LeavesMap planned.entry (S.state blocks.old) (S.state blocks.new)) }
{
    a_command_changes_where_it_costs();
    sharing_costs_where_all_costs();
    a_sync_may_follow();
    calls_compose::<S>();
    a_draft_makes_the_tree_of_its_command(blocks);
    match planned {
        Err(why) => Err(why),
        Ok(Plan::Answer(reply)) => Ok(reply),
        Ok(Plan::Change { draft, cost, nodes }) => {
            match carry_out(alloc, blocks, draft, cost) {
                Ok(()) => {
                    unused.follow(nodes);
                    Ok(Reply::Ok)
                }
                Err(why) => Err(why),
            }
        }
    }
}
