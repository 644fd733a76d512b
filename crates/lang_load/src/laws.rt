//! Laws of the definitions: how many commands a load has, and a worked example. They run nothing.

ghost use Rattle.std.specs.Prelude.{◌≡◌, ℕ, [], ◌∷◌, length};
ghost use Rattle.lang_tree.specs.declared.command.Cmd.TheVariants.{Dsync, Unlink, Write};
ghost use Rattle.lang_load.specs.Load.{name, load_commands};

/// From each state there are as many commands as are asked for.
pub fn a_load_has_its_commands()
    ensures { (n state : ℕ) → length (load_commands n state) ≡ n }
{}

/// The first three commands of the seed 0: `dsync`, `write /n4/n0 3444 6d` and `unlink /n6`. They take the
/// first draw, the next four and the next two.
pub fn seed_zero_begins_so()
    ensures { load_commands 3 0 ≡ Dsync ∷ Write (name 4 ∷ name 0 ∷ []) 3444 (109 ∷ []) ∷ Unlink (name 6 ∷ []) ∷ [] }
{}
