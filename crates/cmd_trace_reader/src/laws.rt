//! Laws: the lines that may come are those of traces, bytes have one wrong line, a trace is of a run, and which point a
//! reply tells. They run nothing.

ghost use Rattle.std.specs.Prelude.{◌≡◌, ◌↔◌, ◌<◌, ◌^◌, true, List, [], ◌++◌, ℕ, Option, Some, None};
ghost use Rattle.crash_stands.specs.Bounds.{bounds_of};
ghost use Rattle.lang_tree.specs.declared.command.Cmd.{Cmd};
ghost use Rattle.lang_tree.specs.Step.{Session, start, step};
ghost use Rattle.lang_tree.specs.Run.{Run, StopsAfterFault, is_of_disk};
ghost use Rattle.cmd_trace.specs.Contents.{Contents, text_of};
ghost use Rattle.cmd_trace_reader.specs.Reading.{State, ComeEach, contents_of, has_ended, is_ended};
ghost use Rattle.cmd_trace_reader.specs.Replies.{points_by};
ghost use Rattle.cmd_trace_reader.specs.Traces.{IsTrace, BeginsTrace, AreTrace, AreLines, IsWrongAt, is_line, text_of_lines};

use cmd_trace::{a_line_says_one_thing, equal_traces_have_equal_contents};
use lang_script::equal_texts_have_equal_values;
use lang_tree::a_reply_tells_the_session;
use layout_geometry::geometries_are_within_limits;

/// Whole lines may come one behind the other exactly where some trace begins with them, and they leave one state.
/// It is ended exactly where the lines are a trace, and then it says what the trace says. A trace has whole lines
/// alone.
pub fn lines_come_as_traces_go()
    ensures begins { (lines : List (List ℕ)) → AreLines lines → BeginsTrace (text_of_lines lines) ↔ ((s : Option State) × ComeEach None lines s) }
    ensures one { (lines : List (List ℕ)) (s t : Option State) → ComeEach None lines s → ComeEach None lines t → s ≡ t }
    ensures ends { (lines : List (List ℕ)) (s : Option State) → AreLines lines → ComeEach None lines s → (has_ended s ≡ true) ↔ AreTrace (text_of_lines lines) }
    ensures whole { (lines : List (List ℕ)) (rest : List ℕ) → AreLines lines → is_line rest ≡ true → AreTrace (text_of_lines lines ++ rest) → rest ≡ [] }
    ensures says { (lines : List (List ℕ)) (s : State) → ComeEach None lines (Some s) → is_ended s.place ≡ true → IsTrace (contents_of s)
        × (text_of (contents_of s) ≡ text_of_lines lines) }
{
    geometries_are_within_limits();
    equal_texts_have_equal_values();
    equal_traces_have_equal_contents();
    a_line_says_one_thing();
}

/// Where bytes have a wrong line, they aren't the text of a trace, and that line is the only one.
pub fn bytes_go_wrong_at_one_line()
    ensures none { (bytes : List ℕ) (line : ℕ) → IsWrongAt bytes line → AreTrace bytes → ⊥ }
    ensures one { (bytes : List ℕ) (line other : ℕ) → IsWrongAt bytes line → IsWrongAt bytes other → line ≡ other }
{}

/// The commands of a trace with their replies are a run of a file system over a disk, from the root alone on, and
/// it stops after a fault of the disk.
pub fn a_trace_is_a_run()
    ensures run { (c : Contents) → IsTrace c → (end : Session) × Run is_of_disk (start (bounds_of c.geometry)) c.cmds c.replies end }
    ensures stops { (c : Contents) → IsTrace c → StopsAfterFault c.cmds c.replies }
{
    a_reply_tells_the_session();
}

/// The last point behind a command of a session is the one that the reply tells, or the one before it where that is later
/// or where the reply tells none.
pub fn a_reply_tells_the_last_point()
    ensures { (s : Session) (cmd : Cmd) → s.points < 2 ^ 64 → (step s cmd).0.points ≡ points_by (step s cmd).1 s.points }
{}
