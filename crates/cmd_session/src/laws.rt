//! Laws of runs, which program code cites. The functions do nothing; their clauses are the laws.

ghost use Rattle.std.specs.Prelude.{◌≡◌, ◌<◌, ◌≤◌, ◌+◌, ◌++◌, ◌∷◌, [], ℕ, false, true, IsTrue, List, length, take};
ghost use Rattle.base_types.specs.Seal.{Blocks as BlockMap};
ghost use Rattle.disk_contract.specs.declared.event.Event.{Event};
ghost use Rattle.disk_contract.specs.Cell.{has_lost};
ghost use Rattle.disk_contract.specs.Disk.{Grows, writes_in};
ghost use Rattle.disk_contract.specs.Manner.{Manner};
ghost use Rattle.layout_geometry.specs.Geometry.{Geometry, bitmap_blocks};
ghost use Rattle.lang_tree.specs.declared.command.Cmd.{Cmd};
ghost use Rattle.lang_tree.specs.declared.command.Reply.{Reply};
ghost use Rattle.lang_tree.specs.Step.{Session, session_on};
ghost use Rattle.lang_tree.specs.Tree.{Tree};
ghost use Rattle.crash_stands.specs.Bounds.{bounds_of};
ghost use Rattle.crash_stands.specs.Stands.{StandsFor};
ghost use Rattle.crash_argument.specs.Counts.{AreAtMost};
ghost use Rattle.crash_argument.specs.Points.{MountedSession};
ghost use Rattle.fs_session.specs.DiskRoom.{AnswersOn};
ghost use Rattle.fs_session.specs.Room.{Room, figures_in};
ghost use Rattle.cmd_session.specs.Accepted.{AcceptsLast};
ghost use Rattle.cmd_session.specs.Budget.{KeepsBudget, SpendsByMarks, budget_of, most_cost, most_need, weight_by};
ghost use Rattle.cmd_session.specs.Crashes.{IsCrashConsistent};
ghost use Rattle.cmd_session.specs.Ending.{HasRun, ending_marks, ending_replies};
ghost use Rattle.cmd_session.specs.Going.{AnswersOnDisk, BeginsByLog, GoesByLog, pace_of, session_at};
ghost use Rattle.cmd_session.specs.Issued.{IssuesLast};
ghost use Rattle.cmd_session.specs.Pacing.{Pace, PacesBy, is_fault};
ghost use Rattle.cmd_session.specs.Serving.{HasServed};
ghost use Rattle.cmd_session.specs.Taking.{nothing_taken};

use crash_argument::a_read_gives_what_was_written_last;
use crash_stands::{
    a_tree_that_stands_is_sound, an_image_stands_for_one_tree,
    images_alike_below_n_stand_for_the_same,
};
use engine_blocks::Blocks;
use fs_session::{
    a_command_begins_with_a_tick, a_command_is_answered_in_a_room_that_came_back,
    a_command_serves_what_is_sure, a_command_that_needs_no_wait_makes_none,
    a_refusal_for_the_disk_has_its_cause,
};
use lang_tree::{
    a_command_changes_where_it_costs, a_fault_ends_the_session, a_reply_tells_the_session,
    nothing_shared_costs_nothing, numbers_of_snapshots_are_in_the_map,
    sharing_costs_where_all_costs,
};
use layout_journal::{an_image_holds_one_map, images_alike_below_n_hold_the_same};

/// Where the blocks with which the disk began stand for the tree of a run, what crashes leave of the run is as
/// `IsCrashConsistent` says, which speaks of any disk.
pub fn a_served_run_is_crash_consistent<S: Blocks>()
    ensures { (s : S) (g : Geometry) (t : Tree) (mounted : ℕ) (cmds : List Cmd) (replies : List Reply) (marks : List ℕ)
        → HasServed g t mounted cmds replies marks (S.state s) → StandsFor g.n (S.state s).crash.base t
        → IsCrashConsistent g.n (bounds_of g) (S.state s).crash.base (S.state s).crash.log mounted cmds replies marks }
{
    an_image_stands_for_one_tree();
}

/// At each moment since the mount, the writes in the log since then number at most the run's budget and what was owed
/// as the run began.
pub fn the_writes_keep_within_the_budget<S: Blocks>()
    ensures { (s : S) (g : Geometry) (t : Tree) (begun owed mounted : ℕ) (cmds : List Cmd) (replies : List Reply)
        → KeepsBudget g t begun cmds replies (S.state s)
        → begun ≡ writes_in (take mounted (S.state s).crash.log) + owed
        → AreAtMost mounted (S.state s).crash.log (owed + budget_of (bitmap_blocks g) (session_on (bounds_of g) t) 0 cmds replies) }
{}

/// Whatever blocks snapshots keep, a command needs and costs at most so much. So it leaves no more weight, while no call
/// of the disk fails, than where it costs all of that.
pub fn a_command_costs_at_most_so_much()
    ensures need { (g : Geometry) (f : Session) (r : Room) (cmd : Cmd) → (figures_in g f r cmd).need ≤ most_need (bitmap_blocks g) f cmd }
    ensures cost { (g : Geometry) (f : Session) (r : Room) (cmd : Cmd) → (figures_in g f r cmd).cost ≤ most_cost (bitmap_blocks g) f cmd }
    ensures weight { (g : Geometry) (f next : Session) (r room : Room) (cmd : Cmd) (reply : Reply) → is_fault reply ≡ false
        → AnswersOn g f r cmd reply next room → room.weight ≤ weight_by (bitmap_blocks g) f r.weight cmd reply }
    ensures more { (bitmap w v : ℕ) (f : Session) (cmd : Cmd) (reply : Reply) → w ≤ v → weight_by bitmap f w cmd reply ≤ weight_by bitmap f v cmd reply }
{
    nothing_shared_costs_nothing();
}

/// Up to each mark of a run on whose mount no write was owed, the writes keep within what the commands by then stand
/// for: as the mount ends, and with one command more.
pub fn the_writes_keep_within_the_budget_at_each_mark<S: Blocks>()
    ensures first { (g : Geometry) (f : Session) (log : List Event) → SpendsByMarks g f (length log) log [] [] [] }
    ensures more { (old new : S) (g : Geometry) (t : Tree) (mounted : ℕ) (cmds : List Cmd) (replies : List Reply) (marks : List ℕ) (cmd : Cmd)
        (reply : Reply) → HasServed g t mounted cmds replies marks (S.state old) → Grows (S.state old).crash.log (S.state new).crash.log
        → KeepsBudget g t (writes_in (take mounted (S.state new).crash.log)) (cmds ++ cmd ∷ []) (replies ++ reply ∷ []) (S.state new)
        → SpendsByMarks g (session_on (bounds_of g) t) mounted (S.state old).crash.log cmds replies marks
        → SpendsByMarks g (session_on (bounds_of g) t) mounted (S.state new).crash.log (cmds ++ cmd ∷ []) (replies ++ reply ∷ [])
        (marks ++ length (S.state new).crash.log ∷ []) }
{}

/// Whatever commands come, a run may end with them: the disk fails at the first that is one, no event comes, and what
/// was said of the run holds of the longer one. It stands for no smaller budget, and its writes keep within it up to
/// each mark.
pub fn a_run_may_end_at_once<S: Blocks>()
    ensures run { (s : S) (g : Geometry) (t : Tree) (mounted : ℕ) (cmds : List Cmd) (replies : List Reply) (marks : List ℕ) (more : List Cmd)
        → HasServed g t mounted cmds replies marks (S.state s)
        → HasRun g t (S.state s).crash.base (S.state s).crash.log mounted (cmds ++ more) (replies ++ ending_replies (S.state s).books.stopped more)
        (marks ++ ending_marks (length (S.state s).crash.log) more) }
    ensures budget { (g : Geometry) (t : Tree) (cmds : List Cmd) (replies : List Reply) (more : List Cmd) (later : List Reply) → length cmds ≡ length replies
        → budget_of (bitmap_blocks g) (session_on (bounds_of g) t) 0 cmds replies ≤ budget_of (bitmap_blocks g) (session_on (bounds_of g) t) 0 (cmds ++ more) (replies ++ later) }
    ensures spends { (s : S) (g : Geometry) (t : Tree) (mounted : ℕ) (cmds : List Cmd) (replies : List Reply) (marks : List ℕ) (more : List Cmd)
        → HasServed g t mounted cmds replies marks (S.state s) → SpendsByMarks g (session_on (bounds_of g) t) mounted (S.state s).crash.log cmds replies marks
        → SpendsByMarks g (session_on (bounds_of g) t) mounted (S.state s).crash.log (cmds ++ more) (replies ++ ending_replies (S.state s).books.stopped more)
        (marks ++ ending_marks (length (S.state s).crash.log) more) }
{
    a_reply_tells_the_session();
    a_fault_ends_the_session();
}

/// A run goes by the log of its disk as the mount ends: from then on, with nothing taken.
pub fn a_run_begins_by_the_log<S: Blocks>()
    ensures { IsTrue S.tells → (mount : MountedSession) (base : BlockMap) (m : Manner) (t : Tree) (s : S)
        → BeginsByLog mount base m (S.state s)
        → GoesByLog mount base m (pace_of (nothing_taken (session_at mount t)) (S.state s)) t [] [] [] (S.state s) }
{}

/// A run that goes by the log of its disk does so with one command more: what the command waited for, which writes and
/// records came of it, in which room it was answered, and why it was refused for the disk, is as the log says.
pub fn a_command_goes_by_the_log<S: Blocks>()
    ensures { IsTrue S.tells → (mount : MountedSession) (base : BlockMap) (m : Manner) (first : Pace) (t : Tree) (cmds : List Cmd)
        (replies : List Reply) (marks : List ℕ) (cmd : Cmd) (reply : Reply) (old new : S)
        → AnswersOnDisk S.tells S.state mount t cmds replies marks cmd reply old new
        → GoesByLog mount base m first t cmds replies marks (S.state old)
        → GoesByLog mount base m first t (cmds ++ cmd ∷ []) (replies ++ reply ∷ []) (marks ++ length (S.state new).crash.log ∷ []) (S.state new) }
{
    a_command_changes_where_it_costs();
    sharing_costs_where_all_costs();
    numbers_of_snapshots_are_in_the_map();
    a_command_begins_with_a_tick::<S>();
    a_command_is_answered_in_a_room_that_came_back::<S>();
    a_command_serves_what_is_sure::<S>();
    a_command_that_needs_no_wait_makes_none::<S>();
    a_refusal_for_the_disk_has_its_cause::<S>();
    a_reply_tells_the_session();
    a_tree_that_stands_is_sound();
    an_image_holds_one_map();
    images_alike_below_n_hold_the_same();
}

/// On a disk whose waits bring the notice of their own ticket alone, a run before which no write was lost loses none
/// before the first fault of the disk. So at each mark before one, the image that has all accepted writes stands for
/// the last point by then.
pub fn what_was_issued_was_accepted()
    ensures { (s : MountedSession) (base : BlockMap) (m : Manner) (log : List Event) (f : Session) (first end : Pace) (cmds : List Cmd)
        (replies : List Reply) (marks : List ℕ) → m.waits_alone ≡ true → has_lost (take first.events log) ≡ false
        → PacesBy s base m log first cmds replies marks end → IssuesLast s.geom.n base f log first.events cmds replies marks
        → AcceptsLast s.geom.n base f log first.events cmds replies marks }
{
    a_read_gives_what_was_written_last();
    images_alike_below_n_stand_for_the_same();
}
