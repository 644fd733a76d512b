//! Laws about each disk of a mirror: what a crash may leave of it at each of its own moments, and how it goes back after a
//! run. Each is an empty function whose clauses say it. Nothing here runs.

ghost use Rattle.std.specs.Prelude.{◌≡◌, ℕ, ◌≤◌, Bool, List, length, map};
ghost use Rattle.lang_tree.specs.Tree.{Bounds};
ghost use Rattle.base_types.specs.Seal.{Blocks};
ghost use Rattle.disk_contract.specs.declared.bay.Mark.{Mark};
ghost use Rattle.disk_contract.specs.declared.event.Event.{Event};
ghost use Rattle.disk_contract.specs.Disk.{State};
ghost use Rattle.disk_mirror.specs.Times.{LeavesAtMoments};
ghost use Rattle.lang_tree.specs.declared.command.Cmd.{Cmd};
ghost use Rattle.lang_tree.specs.declared.command.Reply.{Reply};
ghost use Rattle.lang_tree.specs.Points.{floor, top};
ghost use Rattle.lang_tree.specs.Step.{Session};
ghost use Rattle.cmd_session.specs.Crashes.{IsCrashConsistent};
ghost use Rattle.cmd_trace.specs.Trace.{Ascend};
ghost use Rattle.cmd_mirror.specs.Sides.{Course, GoesBack, IsConsistentAlong, IsSideOf, marks_along, mirror_moment, own_moment};

use crash_stands::{an_image_stands_for_one_tree, images_alike_below_n_stand_for_the_same};
use disk_mirror::a_mark_has_come_at_its_moment;
use layout_journal::journal_blocks_keep_to_their_bounds;

/// Where a mirror is crash consistent, so is each of its disks by its own moments. The sync points between which its
/// images at a moment stand are those between which the mirror's stand at the moment that stands for it.
pub fn crashes_of_a_mirror_are_of_its_disks()
    ensures consistent { (n : ℕ) (limit : Bounds) (base began : Blocks) (log events : List Event) (c : Course) (mounted : ℕ) (cmds : List Cmd) (replies : List Reply)
        (moments : List ℕ) → LeavesAtMoments n base log c.times c.live c.end began events → Ascend mounted moments (length log)
        → IsCrashConsistent n limit base log mounted cmds replies moments → IsConsistentAlong c n limit began events mounted cmds replies moments }
    ensures floor { (n : ℕ) (base began : Blocks) (log events : List Event) (c : Course) (mounted : ℕ) (replies : List Reply) (moments : List ℕ) (k : ℕ)
        → LeavesAtMoments n base log c.times c.live c.end began events → Ascend mounted moments (length log) → k ≤ length events
        → floor k replies (map (own_moment c (length events)) moments) ≡ floor (mirror_moment c k) replies moments }
    ensures top { (n : ℕ) (base began : Blocks) (log events : List Event) (c : Course) (s : Session) (mounted : ℕ) (cmds : List Cmd) (replies : List Reply)
        (moments : List ℕ) (k : ℕ) → LeavesAtMoments n base log c.times c.live c.end began events → Ascend mounted moments (length log) → k ≤ length events
        → top k s (own_moment c (length events) mounted) cmds replies (map (own_moment c (length events)) moments)
        ≡ top (mirror_moment c k) s mounted cmds replies moments }
{
    a_mark_has_come_at_its_moment();
    images_alike_below_n_stand_for_the_same();
}

/// A disk of a mirror goes back after a run as `GoesBack` says, with the marks that go along with it.
pub fn a_disk_of_a_mirror_goes_back()
    ensures { (known : Bool) (c : Course) (mirror disk : State) (marks own : List Mark) → IsSideOf c mirror disk → own ≡ marks_along known c disk marks
        → GoesBack known c mirror disk marks own }
{
    a_mark_has_come_at_its_moment();
    an_image_stands_for_one_tree();
    images_alike_below_n_stand_for_the_same();
    journal_blocks_keep_to_their_bounds();
}
