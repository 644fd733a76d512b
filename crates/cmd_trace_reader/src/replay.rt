//! The commands of a trace, replayed on a tree in memory: which reply the text behind a command is, of those that
//! may stand there. It knows no other line of a trace.

ghost use Rattle.std.specs.Prelude.{◌≡◌, ◌≤◌, false, IfOk, OnOk, IfSome};
ghost use Rattle.lang_tree.specs.Step.{start, step};
ghost use Rattle.lang_tree.specs.declared.command.Reply.TheVariants.{Bad as NotUnderstood};
ghost use Rattle.lang_script.specs.Text.{text_of_reply};
ghost use Rattle.lang_script.specs.Values.{IsReply};
ghost use Rattle.cmd_trace.specs.ReadsAs.{IsReadAs};
ghost use Rattle.cmd_trace_reader.specs.Replies.{Kept, Takes, Applies, IsKnown, RefusedSo};

use crate::kinds::{is_bad, is_disk_fault, is_durable, is_out_of_memory, is_stopped, numbers_by};
use base_types::{Layout, NoMemory};
use cmd_trace::{read_known, read_refusal};
use fs_memtree::PlainTree;
use lang_script::{equal_texts_have_equal_values, reply_text};
use lang_tree::{
    Cmd, Refusal, Reply, a_reply_tells_the_session, a_tree_in_memory_refuses_for_no_disk,
    no_dsync_answers_a_point_to_come,
};
use std::alloc::Global;
use std::marker::Model;

/// A tree in memory that commands are replayed on, and whether a fault of the disk ended the session.
#[derive(Drop)]
pub struct Replay {
    tree: PlainTree,
    points: u64,
    durable: u64,
    stopped: bool,
}

impl Model for Replay {
    ghost use Rattle.std.specs.Prelude.{◌≡◌};
    ghost use Rattle.lang_tree.specs.Points.{CountsPoints};
    ghost use Rattle.cmd_trace_reader.specs.Code.{coded_kept};
    ghost use Rattle.cmd_trace_reader.specs.Replies.{Kept};

    ghost Value = { Kept };

    ghost coded = { coded_kept };

    ghost view = { λ r. record { session = r.tree; points = r.points; durable = r.durable; stopped = r.stopped } };

    ghost invariant = { λ r. (r.points ≡ r.tree.points) × (r.durable ≡ r.tree.durable) × CountsPoints r.tree };
}

impl Replay {
    /// The session that begins with the root alone, with at most so many nodes, and names as this layout takes them.
    ///
    /// # Errors
    /// Out of memory.
    pub fn new(alloc: Global, nodes: u32, layout: Layout) -> Result<Replay, NoMemory>
        requires { 1 ≤ nodes }
        ensures { IfOk result (λ replay. replay ≡ record { session = start (record { nodes = nodes; layout = layout }); points = 0; durable = 0; stopped = false }) }
    {
        no_dsync_answers_a_point_to_come();
        let tree = PlainTree::new(alloc, nodes, layout)?;
        Ok(Replay {
            tree,
            points: 0,
            durable: 0,
            stopped: false,
        })
    }

    /// The reply to this command that is written so, of those that may stand there, and then the session behind it;
    /// none exactly where no such reply is, and then the session serves no longer.
    ///
    /// # Errors
    /// Out of memory, and then the session serves no longer.
    pub fn take(&mut self, alloc: Global, cmd: &Cmd, text: &[u8]) -> Result<Option<Reply>, NoMemory>
        ensures { IfOk result (λ found. Takes self.old cmd.now text.now found self.new) }
    {
        equal_texts_have_equal_values();
        a_reply_tells_the_session();
        a_tree_in_memory_refuses_for_no_disk();
        if is_bad(cmd) {
            return Ok(bad_of(text));
        }
        if let Some(why) = read_refusal(text) {
            return Ok(self.refused(why));
        }
        if self.stopped {
            return Ok(None);
        }
        if is_durable(cmd) {
            return Ok(self.known(text));
        }
        let found = self.applied(alloc, cmd, text)?;
        Ok(found)
    }

    // The refusal, where it may stand there: behind a fault of the disk only that of a session that has ended.
    fn refused(&mut self, why: Refusal) -> Option<Reply>
        ensures { RefusedSo self.old why result self.new }
    {
        if self.stopped {
            if is_stopped(why) {
                return Some(Reply::Refused(why));
            }
            return None;
        }
        self.stopped = is_disk_fault(why);
        Some(Reply::Refused(why))
    }

    // A point that is known to be on the disk, from the last one that a dsync answered to the last one.
    fn known(&self, text: &[u8]) -> Option<Reply>
        ensures { IsReadAs text_of_reply (IsKnown self.now) text.now result }
    {
        equal_texts_have_equal_values();
        let least = self.durable;
        let greatest = self.points;
        let Some(point) = read_known(text) else {
            return None;
        };
        if point < least {
            return None;
        }
        if greatest < point {
            return None;
        }
        Some(Reply::Known(point))
    }

    // The reply of the tree, where it is written so.
    fn applied(&mut self, alloc: Global, cmd: &Cmd, text: &[u8]) -> Result<Option<Reply>, NoMemory>
        ensures reads { IfOk result (λ found. IsReadAs text_of_reply (λ reply. reply ≡ (step self.old.session cmd.now).1) text.now found) }
        ensures lawful { IfOk result (λ found. IfSome found (λ reply. IsReply reply)) }
        ensures applies { OnOk result (Applies self.old cmd.now self.new) }
    {
        a_tree_in_memory_refuses_for_no_disk();
        no_dsync_answers_a_point_to_come();
        let reply = self.tree.apply(alloc, cmd);
        if is_out_of_memory(&reply) {
            return Err(NoMemory);
        }
        let (points, durable) = numbers_by(&reply, self.points, self.durable);
        self.points = points;
        self.durable = durable;
        let written = reply_text(alloc, &reply)?;
        if written.as_slice() == text {
            return Ok(Some(reply));
        }
        Ok(None)
    }
}

// The reply to a bad line.
fn bad_of(text: &[u8]) -> Option<Reply>
    ensures { IsReadAs text_of_reply (λ reply. reply ≡ NotUnderstood) text.now result }
{
    if text == b"bad".as_slice() {
        return Some(Reply::Bad);
    }
    None
}
