//! Laws on the figures of commands where snapshots keep blocks of files. They run nothing.

ghost use Rattle.std.specs.Prelude.{◌≡◌, ℕ, ◌-◌, ◌==◌, nat_lt, true};
ghost use Rattle.lang_tree.specs.declared.command.Cmd.{Cmd};
ghost use Rattle.lang_tree.specs.Figures.{Figures, blocks_for, figures, shrinking, snapping, writing};
ghost use Rattle.lang_tree.specs.Sharing.{BlocksAlone, SharedNodes, cutting, figures_over, none_alone, none_shared, unsnapping, writing_over};
ghost use Rattle.lang_tree.specs.Step.{Session};

/// Where no snapshot keeps a block of a file, a write, a cut and each command need, cost and free what they do
/// without sharing: a snapshot that goes frees its own blocks alone.
pub fn nothing_shared_costs_nothing()
    ensures writes { (bitmap size lo hi : ℕ) → writing_over bitmap none_shared size lo hi ≡ writing bitmap size lo hi }
    ensures cuts { (bitmap old new : ℕ) → cutting bitmap none_shared (blocks_for old) (blocks_for new) ≡ shrinking bitmap (blocks_for old - blocks_for new) }
    ensures commands { (bitmap : ℕ) (s : Session) (cmd : Cmd) → figures_over bitmap (λ k. none_shared) none_alone s cmd ≡ figures bitmap s cmd }
{}

/// Whatever is shared, a command costs something exactly where it does without sharing.
pub fn sharing_costs_where_all_costs()
    ensures { (bitmap : ℕ) (shared : SharedNodes) (alone : BlocksAlone) (s : Session) (cmd : Cmd)
        → nat_lt 0 (figures_over bitmap shared alone s cmd).cost ≡ nat_lt 0 (figures bitmap s cmd).cost }
{}

/// With one bitmap block: a snapshot of 6 blocks costs 56 and one of 7 blocks 57. A byte over a file's one block,
/// which is kept, needs a block and costs 51, and so does one over the first of two; behind a gap of two blocks it
/// needs three and costs 53; over three blocks of which the second is kept, two of them touched, it needs one and
/// costs 101. A file of two kept blocks that is cut to none frees none and costs 25. A snapshot of 6 blocks that goes
/// with one block more, or none, costs 50.
pub fn small_snapshots_cost_so()
    ensures made { snapping 1 6 ≡ record { need = 6; cost = 56; freed = 0 } }
    ensures directories { snapping 1 7 ≡ record { need = 7; cost = 57; freed = 0 } }
    ensures over { writing_over 1 (λ i. true) 2 0 1 ≡ record { need = 1; cost = 51; freed = 0 } }
    ensures first { writing_over 1 (λ i. true) 2048 0 1 ≡ record { need = 1; cost = 51; freed = 0 } }
    ensures gap { writing_over 1 (λ i. true) 1 1 3001 ≡ record { need = 3; cost = 53; freed = 0 } }
    ensures second { writing_over 1 (λ i. i == 1) 3072 1000 2100 ≡ record { need = 1; cost = 101; freed = 0 } }
    ensures free { writing_over 1 none_shared 34816 0 1 ≡ record { need = 0; cost = 50; freed = 0 } }
    ensures cut { cutting 1 (λ i. true) 2 0 ≡ record { need = 0; cost = 25; freed = 0 } }
    ensures gone { unsnapping 1 6 1 ≡ record { need = 0; cost = 50; freed = 7 } }
    ensures alone { unsnapping 1 6 0 ≡ record { need = 0; cost = 50; freed = 6 } }
{}
