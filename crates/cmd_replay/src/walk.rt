//! A walk over the commands of a trace, replayed on a tree in memory, that counts the sync points and keeps the newest
//! whose tree has a listing. Which commands of a trace it is given isn't said here.

ghost use Rattle.std.specs.Prelude.{◌≡◌, ◌<◌, ◌≤◌, ◌-◌, ◌^◌, true, false, IfOk, OnOk};
ghost use Rattle.lang_tree.specs.Points.{is_refusal};
ghost use Rattle.lang_tree.specs.Step.{start, step};
ghost use Rattle.cmd_replay.specs.Walking.{WalksOn, first_tally, is_sought, with_point};

use crate::comparing::is_listed;
use crate::kinds::{is_refusal, is_sync, may_have_written};
use base_types::{Layout, NoMemory};
use cmd_trace_reader::{a_reply_tells_the_last_point, is_out_of_memory, numbers_by};
use fs_memtree::PlainTree;
use lang_tree::{Cmd, Reply, a_tree_in_memory_refuses_for_no_disk};
use std::alloc::Global;

/// The sync points so far.
#[derive(Clone, Copy, Debug, PartialEq, Eq)]
pub struct Tally {
    /// The number of the last one.
    pub last: u64,
    /// The newest that is sought.
    pub newest: Option<u64>,
}

/// The tree behind some commands, and the sync points that they made.
#[derive(Drop)]
pub struct Walk {
    tree: PlainTree,
    /// The last point that the tree itself counted: a sync that a fault of the disk refused isn't among these.
    synced: u64,
    tally: Tally,
}

impl Walk {
    /// The root alone, with at most so many nodes on a disk of this layout, which is point 0.
    ///
    /// # Errors
    /// Out of memory.
    pub(crate) fn begin(
        alloc: Global,
        nodes: u32,
        layout: Layout,
        low: u64,
        text: &[u8],
    ) -> Result<Walk, NoMemory>
        requires { 1 ≤ nodes }
        ensures { IfOk result (λ w. w ≡ record {
          tree = start (record { nodes = nodes; layout = layout });
          synced = 0;
          tally = first_tally text.now low (start (record { nodes = nodes; layout = layout })).tree;
        }) }
    {
        let tree = PlainTree::new(alloc, nodes, layout)?;
        let newest = if is_sought(&tree, 0, low, text) {
            Some(0)
        } else {
            None
        };
        Ok(Walk {
            tree,
            synced: 0,
            tally: Tally { last: 0, newest },
        })
    }

    /// The sync points so far.
    pub(crate) fn tally(&self) -> Tally
        ensures { result ≡ self.now.tally }
    {
        self.tally
    }

    /// Takes one command more, which was answered so.
    ///
    /// # Errors
    /// Out of memory, and then the walk serves no longer.
    pub(crate) fn take(
        &mut self,
        alloc: Global,
        cmd: &Cmd,
        reply: &Reply,
        low: u64,
        text: &[u8],
    ) -> Result<(), NoMemory>
        requires synced { self.old.synced ≡ self.old.tree.points }
        requires few { self.old.synced < 2 ^ 64 - 1 }
        requires last { self.old.tally.last < 2 ^ 64 - 1 }
        ensures { OnOk result (WalksOn text.now low cmd.now reply.now self.old self.new) }
    {
        if is_refusal(reply) {
            self.take_refused(alloc, cmd, reply, low, text)?;
        } else {
            self.take_done(alloc, cmd, reply, low, text)?;
        }
        Ok(())
    }

    // Takes a command that was refused: it changed nothing. Where a fault of the disk refused a sync, a copy of the tree
    // is asked whether there was anything to sync.
    fn take_refused(
        &mut self,
        alloc: Global,
        cmd: &Cmd,
        reply: &Reply,
        low: u64,
        text: &[u8],
    ) -> Result<(), NoMemory>
        requires refused { is_refusal reply.now ≡ true }
        requires synced { self.old.synced ≡ self.old.tree.points }
        requires few { self.old.synced < 2 ^ 64 - 1 }
        requires last { self.old.tally.last < 2 ^ 64 - 1 }
        ensures { OnOk result (WalksOn text.now low cmd.now reply.now self.old self.new) }
    {
        if is_sync(cmd) && may_have_written(reply) {
            let mut copy = self.tree.copy(alloc)?;
            let synced = answer(alloc, &mut copy, cmd, self.synced)?;
            if synced != self.synced {
                self.count(low, text);
            }
        }
        Ok(())
    }

    // Takes a command that was done.
    fn take_done(
        &mut self,
        alloc: Global,
        cmd: &Cmd,
        reply: &Reply,
        low: u64,
        text: &[u8],
    ) -> Result<(), NoMemory>
        requires done { is_refusal reply.now ≡ false }
        requires synced { self.old.synced ≡ self.old.tree.points }
        requires few { self.old.synced < 2 ^ 64 - 1 }
        requires last { self.old.tally.last < 2 ^ 64 - 1 }
        ensures { OnOk result (WalksOn text.now low cmd.now reply.now self.old self.new) }
    {
        let synced = answer(alloc, &mut self.tree, cmd, self.synced)?;
        if is_sync(cmd) && synced != self.synced {
            self.count(low, text);
        }
        self.synced = synced;
        Ok(())
    }

    // Counts one point more, which has the tree as it is.
    fn count(&mut self, low: u64, text: &[u8])
        requires { self.old.tally.last < 2 ^ 64 - 1 }
        ensures { self.new ≡ record self.old { tally = with_point text.now low self.old.tree.tree self.old.tally } }
    {
        let number = self.tally.last + 1;
        if is_sought(&self.tree, number, low, text) {
            self.tally.newest = Some(number);
        }
        self.tally.last = number;
    }
}

// Whether a point of this number and this tree is sought.
fn is_sought(tree: &PlainTree, number: u64, low: u64, text: &[u8]) -> bool
    ensures { result ≡ is_sought text.now low number tree.now.tree }
{
    low <= number && is_listed(tree, text)
}

// Has the tree answer a command, and tells its last point then, where this is the one before.
fn answer(alloc: Global, tree: &mut PlainTree, cmd: &Cmd, synced: u64) -> Result<u64, NoMemory>
    requires same { synced ≡ tree.old.points }
    requires few { synced < 2 ^ 64 }
    ensures { IfOk result (λ now. (tree.new ≡ (step tree.old cmd.now).0) × (now ≡ tree.new.points)) }
{
    a_tree_in_memory_refuses_for_no_disk();
    a_reply_tells_the_last_point();
    let reply = tree.apply(alloc, cmd);
    if is_out_of_memory(&reply) {
        return Err(NoMemory);
    }
    let (now, _) = numbers_by(&reply, synced, 0);
    Ok(now)
}
