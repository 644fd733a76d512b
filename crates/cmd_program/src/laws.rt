//! Laws of what a replay of a recording answers, and of bays of which nothing fails. They run nothing.

ghost use Rattle.std.specs.Prelude.{◌≡◌, ◌≢◌, ℕ, Bool, false, IsTrue, slice_get, List, Some, Result, Err};
ghost use Rattle.disk_contract.specs.declared.bay.Mark.{Mark};
ghost use Rattle.disk_contract.specs.Disk.{State};
ghost use Rattle.layout_geometry.specs.Geometry.{Geometry};
ghost use Rattle.disk_memory.specs.Choice.{ChoiceState};
ghost use Rattle.cmd_replay.specs.Replays.{Answers, Found};
ghost use Rattle.cmd_replay.specs.declared.refusal.ReplayRefusal.{ReplayRefusal};
ghost use Rattle.lang_tree.specs.declared.command.Cmd.{Cmd};
ghost use Rattle.lang_tree.specs.declared.command.Refusal.{Refusal};
ghost use Rattle.lang_tree.specs.declared.command.Reply.{Reply};
ghost use Rattle.lang_tree.specs.declared.command.Reply.TheVariants.{Refused};
ghost use Rattle.cmd_trace.specs.Contents.{Contents, text_of};
ghost use Rattle.cmd_trace_reader.specs.Traces as reader;
ghost use Rattle.cmd_image.specs.Runs.{RunsDisk};
ghost use Rattle.cmd_image.specs.declared.ending.RunRefusal.TheVariants as run;
ghost use Rattle.lang_log.specs.declared.call.LogCall.{LogCall};
ghost use Rattle.lang_log.specs.declared.call.LogReply.{LogReply};
ghost use Rattle.lang_log.specs.declared.call.LogReply.TheVariants as log_reply;
ghost use Rattle.cmd_log.specs.Logs.{LogsDisk};
ghost use Rattle.cmd_log.specs.declared.refusal.LogRunRefusal.TheVariants as logs;
ghost use Rattle.cmd_image.specs.declared.make_refusal.MakeRefusal.TheVariants as make;
ghost use Rattle.cmd_image.specs.declared.show_refusal.ShowRefusal.TheVariants as show;
ghost use Rattle.cmd_program.specs.Calm.{IsCalm, NothingFails, is_for_a_call};
ghost use Rattle.cmd_program.specs.Endings.{Met};
ghost use Rattle.cmd_program.specs.Logging.{LogsTo};
ghost use Rattle.cmd_program.specs.Making.{MakesTo};
ghost use Rattle.cmd_record.specs.Traces.{Serves, IsTrace};
ghost use Rattle.cmd_program.specs.Recordings.{IsHonestCrash, IsPlaced};
ghost use Rattle.cmd_program.specs.Scripting.{RunsTo};
ghost use Rattle.cmd_program.specs.Showing.{ShowsTo};
ghost use Rattle.cmd_program.specs.declared.status.Status.{Status};

use cmd_trace::equal_traces_have_equal_contents;
use crash_stands::an_image_stands_for_one_tree;

/// Of a whole trace that a recording wrote, a crash whose image is honest is never answered as damaged; and where a
/// tree is found, so is a sync point that has it. So it is with each answer that a replay may give of the contents
/// that are read from the text, at any moment and by any choice.
pub fn a_crash_of_a_recording_is_found()
    ensures { (g : Geometry) (seen text : List ℕ) → IsTrace (Serves g) seen text → (c : Contents) → reader.IsTrace c → text_of c ≡ text
        → (moment : ℕ) (choice : ChoiceState) → IsHonestCrash c moment choice
        → (answer : Result Found ReplayRefusal) → Answers c moment choice answer → IsPlaced answer }
{
    equal_traces_have_equal_contents();
    an_image_stands_for_one_tree();
}

/// Where a bay tells, no call of it fails of itself, something is under a name and the disks there fail nothing by their
/// manner, no showing of the image is answered by a fault, and no run or log over it is; and over such a disk no command of a
/// run and no call of a log is refused for a call that failed. No making is answered by a fault there, whatever is under the name.
pub fn no_fault_is_made_where_nothing_fails()
    ensures shows { (tells : Bool) (image : List ℕ) (status : Status) (m : Met) → IsTrue tells → IsCalm image m.bay
        → (s : ShowsTo tells image status m) → s.answer ≢ Err show.Fault }
    ensures runs { (tells : Bool) (image : List ℕ) (status : Status) (m : Met) → IsTrue tells → IsCalm image m.bay → (r : RunsTo tells image status m)
        → r.answer ≢ Err run.Fault }
    ensures replies { (first last : State) (marks : List Mark) (cmds : List Cmd) (replies : List Reply) → NothingFails first.manner
        → RunsDisk first last marks cmds replies
        → (i : ℕ) (why : Refusal) → slice_get replies i ≡ Some (Refused why) → is_for_a_call why ≡ false }
    ensures logs { (tells : Bool) (image : List ℕ) (status : Status) (m : Met) → IsTrue tells → IsCalm image m.bay → (l : LogsTo tells image status m)
        → l.answer ≢ Err (logs.Run run.Fault) }
    ensures log_replies { (first last : State) (marks : List Mark) (calls : List LogCall) (replies : List LogReply) → NothingFails first.manner
        → LogsDisk first last marks calls replies
        → (i : ℕ) (why : Refusal) → slice_get replies i ≡ Some (log_reply.Refused why) → is_for_a_call why ≡ false }
    ensures makes { (tells : Bool) (image : List ℕ) (g : Geometry) (status : Status) (m : Met) → IsTrue tells → m.bay.may_fail ≡ false
        → NothingFails (m.bay.manner image) → (x : MakesTo tells image g status m) → x.answer ≢ Err make.Fault }
{}
