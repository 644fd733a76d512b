//! Laws of runs of a log's calls, which program code cites. The functions do nothing; their clauses are the laws.

ghost use Rattle.std.specs.Prelude.{◌≡◌, ◌≤◌, ◌<◌, ◌-◌, ℕ, List, length, slice_get, take};
ghost use Rattle.base_types.specs.Seal.{Blocks as BlockMap};
ghost use Rattle.disk_contract.specs.declared.event.Event.{Event};
ghost use Rattle.disk_contract.specs.Crash.{IsHonest};
ghost use Rattle.layout_geometry.specs.Geometry.{Geometry};
ghost use Rattle.lang_tree.specs.declared.command.Refusal.TheVariants.{Full};
ghost use Rattle.lang_log.specs.declared.call.LogCall.{LogCall};
ghost use Rattle.lang_log.specs.declared.call.LogReply.{LogReply};
ghost use Rattle.lang_log.specs.declared.call.LogReply.TheVariants.{Refused};
ghost use Rattle.lang_log.specs.Answers.{LogRun};
ghost use Rattle.lang_log.specs.History.{History, opened_with};
ghost use Rattle.lang_log.specs.Log.{Log};
ghost use Rattle.lang_log.specs.Runs.{Appends, IsRunOf};
ghost use Rattle.cmd_trace.specs.Trace.{Ascend};
ghost use Rattle.cmd_log.specs.Causes.{AnswersBy, LacksBlocks, MayAsk, Situation};
ghost use Rattle.cmd_log.specs.Moments.{StandsForRun, answered_by, appends_by};
ghost use Rattle.cmd_log.specs.Serving.{LeavesAt, ServesAll};

use lang_log::{a_run_of_calls_leaves_runs, calls_of_a_log_go_on, what_might_be_left_still_may};
use lang_tree::a_tree_in_memory_refuses_for_no_disk;

/// Calls that were answered one after the other on a disk are a run of the log.
pub fn calls_on_a_disk_are_a_run()
    ensures { (n : ℕ) (base : BlockMap) (log : List Event) (begun : ℕ) (h k : History) (calls : List LogCall) (replies : List LogReply) (marks : List ℕ)
        → ServesAll n base log begun h calls replies marks k → LogRun h calls replies k }
{}

/// At each moment of a disk on which calls of a log were answered, each honest image stands for a tree with a log that is
/// a run of its appends: of those that were there as it was opened, and of those that were begun by then, each under its
/// number and with its bytes. It has all that were there at the last sync that was answered by then, but those that were
/// trimmed.
pub fn each_image_has_what_was_synced()
    ensures { (n : ℕ) (base : BlockMap) (log : List Event) (begun : ℕ) (opened : Log) (calls : List LogCall) (replies : List LogReply) (marks : List ℕ)
        (now : History)
        → Ascend begun marks (length log)
        → ((moment : ℕ) → moment ≤ begun → LeavesAt n base log moment (opened_with opened) (opened_with opened))
        → ServesAll n base log begun (opened_with opened) calls replies marks now
        → (moment : ℕ) (img : BlockMap) → moment ≤ length log → IsHonest n base (take moment log) img
        → ∥ StandsForRun n img (appends_by opened calls replies (answered_by moment marks)) ∥₁ }
{
    what_might_be_left_still_may();
    calls_of_a_log_go_on();
    a_run_of_calls_leaves_runs();
}

/// An append that is kept and isn't trimmed is in each run of the appends, under its number and with its bytes.
pub fn a_kept_append_is_in_each_run()
    ensures { (a : Appends) (l : Log) (number : ℕ) → IsRunOf a l → a.low ≤ number → number < a.kept
        → slice_get l.appends (number - l.low) ≡ slice_get a.appends (number - a.first) }
{}

/// A call is refused as `full` only where, behind those of its commands that were answered before, one needed more
/// blocks than were left in the room that came back to it.
pub fn a_call_is_full_only_for_want_of_blocks()
    ensures { (g : Geometry) (most : ℕ) (call : LogCall) (old new : Situation) (need left : ℕ) → AnswersBy g most call (Refused (Full need left)) old new
        → LacksBlocks g (MayAsk most old.session.tree call) old need left }
{
    a_tree_in_memory_refuses_for_no_disk();
}
