//! Laws of what a recording writes, and of disks that nothing is written to. They run nothing.

ghost use Rattle.std.specs.Prelude.{◌≡◌, ◌≢◌, ◌↔◌, ◌⊎◌, ◌+◌, ◌-◌, ◌<◌, ◌≤◌, ℕ, false, true, length, take, slice_get, List, [], Some};
ghost use Rattle.lang_tree.specs.Tree.{Bounds};
ghost use Rattle.base_types.specs.Seal.{Blocks};
ghost use Rattle.crash_stands.specs.Bounds.{bounds_of};
ghost use Rattle.disk_contract.specs.declared.event.Event.{Event};
ghost use Rattle.disk_contract.specs.Cell.{IsNoticed, is_accepted, is_noticed};
ghost use Rattle.disk_contract.specs.Disk.{writes_in};
ghost use Rattle.disk_contract.specs.Manner.{Manner, Polled, after_polls};
ghost use Rattle.layout_geometry.specs.Geometry.{Geometry, data_start};
ghost use Rattle.layout_journal.specs.Formatted.{formatted};
ghost use Rattle.crash_argument.specs.Points.{MountedSession};
ghost use Rattle.engine_store.specs.SessionView.{IsSure, Starts};
ghost use Rattle.lang_tree.specs.declared.command.Cmd.{Cmd};
ghost use Rattle.lang_tree.specs.declared.command.Cmd.TheVariants.{Dsync, Durable, Dwait, Osync, Stat};
ghost use Rattle.lang_tree.specs.declared.command.Refusal.TheVariants.{DiskFault, Spent};
ghost use Rattle.lang_tree.specs.declared.command.Reply.{Reply};
ghost use Rattle.lang_tree.specs.declared.command.Reply.TheVariants.{Known, Refused, Synced};
ghost use Rattle.lang_tree.specs.Points.{floor, is_sync};
ghost use Rattle.lang_tree.specs.Step.{start};
ghost use Rattle.cmd_session.specs.Accepted.{AcceptsLast};
ghost use Rattle.cmd_session.specs.Budget.{sync_places};
ghost use Rattle.cmd_session.specs.Crashes.{IsCrashConsistent};
ghost use Rattle.lang_lines.specs.Lines.{longest, commands_of};
ghost use Rattle.cmd_session.specs.Pacing.{OrdersAtOnce, Pace, PacesBy, StepsBy};
ghost use Rattle.cmd_session.specs.Records.{own_records};
ghost use Rattle.cmd_session.specs.Taking.{CameIn, Span, places_wanted};
ghost use Rattle.cmd_host.specs.Behaving.{session_by, Setting};
ghost use Rattle.cmd_record.specs.Behaving.{IsSureBy, StartsBy, pace_at_first};
ghost use Rattle.cmd_record.specs.Traces.{Serves, ServesBy, IsTrace, contents};
ghost use Rattle.cmd_record.specs.Weights.{blocks_needed, places_by_weight};
ghost use Rattle.cmd_record.specs.WrongTraces.{Goes, IsHeard, IsUnwritten, LosesOwn, WaitsForNothing};

use cmd_session::{a_command_costs_at_most_so_much, what_was_issued_was_accepted};
use cmd_trace::equal_traces_have_equal_contents;
use crash_stands::images_alike_below_n_stand_for_the_same;
use fs_session::a_command_takes_no_more_blocks_than_it_needs;

/// Whoever has the text has the geometry, the events of the disk and how many of them are the mount's, the
/// commands, the replies and their marks: they are the same in all that a text begins a trace of. So it is
/// with whole traces, whatever bytes were read.
pub fn a_text_is_served_in_one_way()
    ensures front { (g h : Geometry) (cmds asked : List Cmd) (text : List ℕ) (s : Serves g cmds text) (t : Serves h asked text)
        → contents g cmds text s ≡ contents h asked text t }
    ensures whole { (g h : Geometry) (seen read text : List ℕ) (s : IsTrace (Serves g) seen text) (t : IsTrace (Serves h) read text)
        → contents g (commands_of longest seen) s.body s.served ≡ contents h (commands_of longest read) t.body t.served }
{
    equal_traces_have_equal_contents();
}

/// A disk to which nothing is written is crash consistent, whatever its blocks are, with each run whose
/// replies promise nothing: each image is the disk as it was.
pub fn a_disk_at_rest_is_crash_consistent()
    ensures { (n : ℕ) (limit : Bounds) (base : Blocks) (cmds : List Cmd) (replies : List Reply) (marks : List ℕ)
        → ((k : ℕ) → floor k replies marks ≡ 0) → IsCrashConsistent n limit base [] 0 cmds replies marks }
{
    images_alike_below_n_stand_for_the_same();
}

/// Before any fault of its disk a recording loses no write. So at each mark before one, the image that has all accepted
/// writes stands for the last point by then.
pub fn the_last_point_stands_where_accepted_writes_do()
    ensures { (set : Setting) (cmds : List Cmd) (text : List ℕ) (s : ServesBy set cmds text)
        → AcceptsLast set.shape.n (formatted set.shape) (start (bounds_of set.shape)) s.served.log s.served.mounted cmds s.served.replies s.served.marks }
{
    what_was_issued_was_accepted();
}

/// Nothing is waited for that need not come back. Where the records of all syncs so far would fit the ring by what
/// they weigh, with this one's, a sync finds its places by the log, unless the disk failed its tick. Where the
/// blocks that all commands so far needed at most leave as many data blocks as a command needs, that many may be taken.
pub fn what_need_not_come_back_is_there()
    ensures places { (g : Geometry) (m : Manner) (log : List Event) (mounted : ℕ) (cmds : List Cmd) (replies : List Reply) (marks : List ℕ)
        (last next : Pace) (cmd : Cmd) (reply : Reply)
        → PacesBy (session_by g mounted) (formatted g) m log (pace_at_first g mounted) cmds replies marks last
        → (step : StepsBy (session_by g mounted) (formatted g) m log cmd reply last next)
        → is_sync cmd ≡ true → last.over ≡ false → reply ≢ Refused Spent → m.waits_alone ≡ true
        → places_by_weight g (start (bounds_of g)) 0 cmds replies + sync_places last.room.room.weight ≤ g.j
        → OrdersAtOnce (session_by g mounted) (formatted g) (take step.room.behind log) last.room.room.weight
        (places_wanted reply last.room.room.weight (own_records (session_by g mounted) log step.room.behind next.events))
        ⊎ ((next.events ≡ step.room.behind) × (reply ≡ Refused DiskFault)) }
    ensures blocks { (g : Geometry) (m : Manner) (log : List Event) (mounted : ℕ) (cmds : List Cmd) (replies : List Reply) (marks : List ℕ)
        (last : Pace) (need : ℕ)
        → PacesBy (session_by g mounted) (formatted g) m log (pace_at_first g mounted) cmds replies marks last
        → blocks_needed g (start (bounds_of g)) cmds replies + need ≤ g.n - data_start g → need ≤ length last.room.room.takeable }
{
    a_command_takes_no_more_blocks_than_it_needs();
    a_command_costs_at_most_so_much();
}

/// Traces that a wrong program could write are refused, each by a field of the clause. A command that lost a write is
/// refused for it, and no other one is. Before the first sync nothing is written. A sync waits for nothing where its record
/// fits a ring without records, a look never does, and a dsync for no write of its own tick. A dwait waits for no write of a
/// later point's record, and for nothing where its point is known to be durable or isn't there. And `durable` is not
/// answered by a point behind which another one is known.
pub fn wrong_traces_are_refused()
    ensures lost { (s : MountedSession) (base : Blocks) (m : Manner) → m.waits_alone ≡ true → (log : List Event) (cmd : Cmd) (reply : Reply) (old new : Pace)
        → StepsBy s base m log cmd reply old new → LosesOwn log old new → (n : ℕ) → reply ≢ Synced n }
    ensures later { (s : MountedSession) (base : Blocks) (m : Manner) → m.waits_alone ≡ true → (log : List Event) (cmd : Cmd) (old new : Pace)
        → StepsBy s base m log cmd (Refused DiskFault) old new → m.refuses (take new.events log) ≡ false → m.stalls ≡ false
        → LosesOwn log old new }
    ensures writes { (g : Geometry) (m : Manner) (log : List Event) (mounted : ℕ) (cmd : Cmd) (reply : Reply) (new : Pace)
        → StepsBy (session_by g mounted) (formatted g) m log cmd reply (pace_at_first g mounted) new → is_sync cmd ≡ false
        → writes_in (take new.events log) ≤ writes_in (take mounted log) }
    ensures empty { (s : MountedSession) (base : Blocks) (m : Manner) (log : List Event) (reply : Reply) (old new : Pace)
        → (step : StepsBy s base m log Osync reply old new) → Goes m reply old → IsUnwritten s (take step.room.behind log)
        → places_wanted reply old.room.room.weight (own_records s log step.room.behind new.events) ≤ s.geom.j → WaitsForNothing m log old new }
    ensures looks { (s : MountedSession) (base : Blocks) (m : Manner) (log : List Event) (path : List (List ℕ)) (reply : Reply)
        (old new : Pace) → StepsBy s base m log (Stat path) reply old new → Goes m reply old → WaitsForNothing m log old new }
    ensures home { (s : MountedSession) (base : Blocks) (m : Manner) (log : List Event) (reply : Reply) (old new : Pace) (p : Polled)
        (t : ℕ) → (step : StepsBy s base m log Dsync reply old new) → Goes m reply old
        → OrdersAtOnce s base (take step.room.behind log) old.room.room.weight
        (places_wanted reply old.room.room.weight (own_records s log step.room.behind new.events))
        → after_polls m 64 old.polls (take old.events log) ≡ Some p
        → ((k : ℕ) (span : Span) → slice_get old.taken.spans k ≡ Some span → CameIn (take new.events log) span t → ⊥) → is_noticed t p.log ≡ false
        → IsNoticed t (take new.events log) → is_accepted t (take step.room.behind log) ≡ false }
    ensures beyond { (s : MountedSession) (base : Blocks) (m : Manner) (log : List Event) (n : ℕ) (reply : Reply) (old new : Pace) (p : Polled)
        (t : ℕ) → StepsBy s base m log (Dwait n) reply old new → Goes m reply old → after_polls m 64 old.polls (take old.events log) ≡ Some p
        → ((k : ℕ) (span : Span) → k < n → slice_get old.taken.spans k ≡ Some span → CameIn (take new.events log) span t → ⊥)
        → is_noticed t p.log ≡ false → IsNoticed t (take new.events log) → ⊥ }
    ensures rests { (s : MountedSession) (base : Blocks) (m : Manner) (log : List Event) (n : ℕ) (reply : Reply) (old new : Pace)
        → StepsBy s base m log (Dwait n) reply old new → Goes m reply old → (n ≤ old.durable) ⊎ (old.taken.session.points < n)
        → WaitsForNothing m log old new }
    ensures known { (s : MountedSession) (base : Blocks) (m : Manner) (log : List Event) (n : ℕ) (span : Span) (old new : Pace)
        → StepsBy s base m log Durable (Known n) old new → m.waits_alone ≡ true → slice_get old.taken.spans n ≡ Some span
        → IsHeard (take new.events log) span → ⊥ }
{}

/// In a recording, the session's records have the numbers of its points: a point is sure exactly where the newest header
/// at rest says so of the record of that number, and that header starts with the record that it names.
pub fn the_numbers_of_a_recording_are_those_of_its_points()
    ensures sure { (g : Geometry) (mounted : ℕ) (front : List Event) (p : ℕ) → IsSure (session_by g mounted) (formatted g) front p ↔ IsSureBy g front p }
    ensures starts { (g : Geometry) (mounted : ℕ) (front : List Event) (number : ℕ)
        → Starts (session_by g mounted) (formatted g) front number ↔ StartsBy g front number }
{}
