//! A law about the replies of a run over a mirror: an empty function whose clauses say it. Nothing here runs.

ghost use Rattle.std.specs.Prelude.{◌≡◌, ◌⊎◌, ℕ, Bool, List, Some, slice_get};
ghost use Rattle.disk_contract.specs.declared.bay.Mark.{Mark};
ghost use Rattle.disk_contract.specs.Disk.{State};
ghost use Rattle.lang_tree.specs.declared.command.Cmd.{Cmd};
ghost use Rattle.lang_tree.specs.declared.command.Refusal.TheVariants as because;
ghost use Rattle.lang_tree.specs.declared.command.Reply.{Reply};
ghost use Rattle.lang_tree.specs.declared.command.Reply.TheVariants.{Refused};
ghost use Rattle.cmd_image.specs.Runs.{RunsDisk};
ghost use Rattle.cmd_mirror.specs.Mirrored.{BothFailed, FailsAsBoth, IsUsedUp};

/// A command of a run over a mirror is refused for a failed read only where a call of each of its two disks had failed by
/// the end; and for another call that failed, or as stopped behind one, only so or where the room of the mirror is used up.
pub fn a_reply_tells_a_fault_of_both_disks()
    ensures reads { (tells : Bool) (first last a b : State) (marks : List Mark) (cmds : List Cmd) (replies : List Reply)
        → RunsDisk first last marks cmds replies → FailsAsBoth tells last a b
        → (i : ℕ) → slice_get replies i ≡ Some (Refused because.ReadFault) → BothFailed a b }
    ensures others { (tells : Bool) (first last a b : State) (marks : List Mark) (cmds : List Cmd) (replies : List Reply)
        → RunsDisk first last marks cmds replies → FailsAsBoth tells last a b
        → (i : ℕ) → slice_get replies i ≡ Some (Refused because.DiskFault) → BothFailed a b ⊎ IsUsedUp tells last }
    ensures stopped { (tells : Bool) (first last a b : State) (marks : List Mark) (cmds : List Cmd) (replies : List Reply)
        → RunsDisk first last marks cmds replies → FailsAsBoth tells last a b
        → (i : ℕ) → slice_get replies i ≡ Some (Refused because.Stopped) → BothFailed a b ⊎ IsUsedUp tells last }
{}
