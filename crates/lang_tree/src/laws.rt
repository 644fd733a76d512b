//! Laws of the definitions: what commands leave of a tree, where they change it and what that costs, what a
//! reply says of the session after it, and short runs worked out. They run nothing.

ghost use Rattle.std.specs.Prelude.{◌≡◌, ◌≢◌, ◌≤◌, ◌||◌, ◌+◌, ◌++◌, ◌⊎◌, ℕ, Bool, true, false, nat_lt, List, [], ◌∷◌, length, map, replicate, slice_get, codes};
ghost use Rattle.std.specs.Prelude.{None, Some};
ghost use Rattle.std.specs.List.{All, range_with_len};
ghost use Rattle.std.specs.FinMap.{get, insert, empty};
ghost use Rattle.base_types.specs.declared.layout.Layout.{Layout as LayoutValue};
ghost use Rattle.base_types.specs.declared.layout.Layout.TheVariants.{One, Two};
ghost use Rattle.base_types.specs.Layouts.{longest_name};
ghost use Rattle.lang_tree.specs.declared.command.Cmd.{Cmd};
ghost use Rattle.lang_tree.specs.declared.command.Cmd.TheVariants.{Mkdir, Create, Write, Link, Rmdir, Rename, Osync, Dsync, Durable, Dwait, Bad};
ghost use Rattle.lang_tree.specs.declared.command.Reply.{Reply};
ghost use Rattle.lang_tree.specs.declared.command.Reply.TheVariants.{Ok as Done, Synced, DurableAt, Known, Refused};
ghost use Rattle.lang_tree.specs.declared.command.Refusal.{Refusal};
ghost use Rattle.lang_tree.specs.declared.command.Refusal.TheVariants.{NotFound, NotDir, NotEmpty, DiskFault, Stopped, NoMemory, NameTooLong, NoPoint};
ghost use Rattle.lang_tree.specs.Tree.{Tree, Bounds, Dir, File, alone, in_layout_one, IsSound, HasSmallFiles};
ghost use Rattle.lang_tree.specs.Paths.{is_within, is_too_long};
ghost use Rattle.lang_tree.specs.Names.{path_count};
ghost use Rattle.lang_tree.specs.Walk.{is_same_node};
ghost use Rattle.lang_tree.specs.Conditions.{refusal, brings_long_name};
ghost use Rattle.lang_tree.specs.Step.{Session, step, start, session_on, changes_snapshots};
ghost use Rattle.lang_tree.specs.Run.{Answers, Run, StopsAfterFault, is_of_memory, is_of_disk};
ghost use Rattle.lang_tree.specs.Points.{CountsPoints, after_reply, is_sync, asks_for_durability, promised_by, points_after, top, floor};
ghost use Rattle.lang_tree.specs.Figures.{blocks, growth, release, figures, write_figures, truncate_figures};

/// The empty root is sound, and a sound tree is sound after every command: each path lies in a directory,
/// each node has a path, a directory has one alone, and no number is above the limit, which stays as it
/// was.
pub fn commands_keep_a_tree_sound()
    ensures start { (limit : Bounds) → 1 ≤ limit.nodes → IsSound limit.nodes (start limit).tree }
    ensures step { (s : Session) (cmd : Cmd) → IsSound s.limit.nodes s.tree → IsSound s.limit.nodes (step s cmd).0.tree }
    ensures limit { (s : Session) (cmd : Cmd) → (step s cmd).0.limit ≡ s.limit }
{}

/// A name is too long where a mkdir, a create, the second path of a link or that of a rename ends with one
/// of more bytes than the layout takes: 59 in layout 1, and in layout 2 never. Such a command is refused,
/// for another reason or for this one; no other command is refused for it; and where both layouts take the
/// name, or neither does, they refuse alike.
pub fn layouts_differ_in_long_names_alone()
    ensures last { (l : LayoutValue) (up : List (List ℕ)) (name : List ℕ) → is_too_long l (up ++ name ∷ []) ≡ nat_lt (longest_name l) (length name) }
    ensures never { (path : List (List ℕ)) → All (λ name. length name ≤ 255) path → is_too_long Two path ≡ false }
    ensures refused { (limit : Bounds) (t : Tree) (cmd : Cmd) → brings_long_name limit.layout cmd ≡ true → refusal limit t cmd ≢ None }
    ensures alone { (limit : Bounds) (t : Tree) (cmd : Cmd) → refusal limit t cmd ≡ Some NameTooLong → brings_long_name limit.layout cmd ≡ true }
    ensures alike { (nodes : ℕ) (l m : LayoutValue) (t : Tree) (cmd : Cmd) → brings_long_name l cmd ≡ brings_long_name m cmd
        → refusal (record { nodes = nodes; layout = l }) t cmd ≡ refusal (record { nodes = nodes; layout = m }) t cmd }
{}

/// The root alone has no file of more than 2^30 bytes, and no command makes one.
pub fn files_stay_small()
    ensures start { (limit : Bounds) → HasSmallFiles (start limit).tree.nodes }
    ensures step { (s : Session) (cmd : Cmd) → HasSmallFiles s.tree.nodes → HasSmallFiles (step s cmd).0.tree.nodes }
{}

/// A move between two paths of one node changes nothing. Every other move of a sound tree that isn't
/// refused takes with it all that lies below: what was at or below the first path is at or below the
/// second one, nothing is left at or below the first one, and every other path leads where it led.
pub fn a_move_takes_all_below()
    ensures same { (s : Session) (from to : List (List ℕ)) → is_same_node s.tree from to ≡ true → (step s (Rename from to)).0 ≡ s }
    ensures second { (s : Session) (from to rest : List (List ℕ)) → IsSound s.limit.nodes s.tree → refusal s.limit s.tree (Rename from to) ≡ None
        → is_same_node s.tree from to ≡ false → get (step s (Rename from to)).0.tree.names (to ++ rest) ≡ get s.tree.names (from ++ rest) }
    ensures first { (s : Session) (from to rest : List (List ℕ)) → IsSound s.limit.nodes s.tree → refusal s.limit s.tree (Rename from to) ≡ None
        → is_same_node s.tree from to ≡ false → get (step s (Rename from to)).0.tree.names (from ++ rest) ≡ None }
    ensures others { (s : Session) (from to path : List (List ℕ)) → IsSound s.limit.nodes s.tree → refusal s.limit s.tree (Rename from to) ≡ None
        → is_same_node s.tree from to ≡ false → is_within from path ≡ false → is_within to path ≡ false
        → get (step s (Rename from to)).0.tree.names path ≡ get s.tree.names path }
{}

/// A command that isn't a sync changes something exactly where it may add something to the journal, for
/// every number of bitmap blocks.
#[tactic(auto, using(crate::proofs::blocks::Figures::changed_where_it_costs))]
pub fn a_command_changes_where_it_costs()
    ensures { (bitmap : ℕ) (s : Session) (cmd : Cmd) → is_sync cmd ≡ false → (step s cmd).0.changed ≡ (s.changed || nat_lt 0 (figures bitmap s cmd).cost) }
{}

/// A command that is no snap or unsnap changes the blocks of a sound tree by its figures, for every number of
/// bitmap blocks: after it the tree has so many more as it needs, and so many fewer as it frees. A refused one
/// changes nothing and has no figures.
#[tactic(auto, using(crate::proofs::blocks::BlockLaws::figures_tell))]
pub fn the_figures_are_the_blocks()
    ensures { (bitmap : ℕ) (s : Session) (cmd : Cmd) → changes_snapshots cmd ≡ false → IsSound s.limit.nodes s.tree
        → blocks s.limit.layout (step s cmd).0.tree + (figures bitmap s cmd).freed ≡ blocks s.limit.layout s.tree + (figures bitmap s cmd).need }
{}

/// Runs in an empty tree of at most 16 numbers. `/a` and `/b` lead to one file, and a move between them
/// leaves both. Where several conditions hold, the walks come first and then the least number: the root,
/// which holds `/a`, isn't empty; it can't come onto a file; a file is no directory to walk through; and
/// what isn't there gets no other path, though that one is there already. A directory moves with its file.
/// A file moves onto another one, whose number serves again. A name of 60 bytes is too long in layout 1, and
/// layout 2 takes it.
pub fn short_runs_are_answered_so()
    ensures one_node { (end : Session)
        × Run (λ why. false) (start (in_layout_one 16)) (Create (codes "a" ∷ []) ∷ Link (codes "a" ∷ []) (codes "b" ∷ []) ∷ Rename (codes "a" ∷ [])
        (codes "b" ∷ []) ∷ []) (Done ∷ Done ∷ Done ∷ []) end
        × (get end.tree.names (codes "a" ∷ []) ≡ Some 2) × (get end.tree.names (codes "b" ∷ []) ≡ Some 2) × (path_count end.tree.names 2 ≡ 2) }
    ensures reasons { (end : Session)
        × Run (λ why. false) (start (in_layout_one 16))
        (Create (codes "a" ∷ []) ∷ Rmdir [] ∷ Rename [] (codes "a" ∷ []) ∷ Write (codes "a" ∷ codes "b" ∷ []) 0 (120 ∷ []) ∷ Link (codes "b" ∷ [])
        (codes "a" ∷ []) ∷ [])
        (Done ∷ Refused NotEmpty ∷ Refused NotDir ∷ Refused NotDir ∷ Refused NotFound ∷ []) end }
    ensures directory { (end : Session)
        × Run (λ why. false) (start (in_layout_one 16)) (Mkdir (codes "a" ∷ []) ∷ Create (codes "a" ∷ codes "c" ∷ []) ∷ Rename (codes "a" ∷ []) (codes "b" ∷ []) ∷ [])
        (Done ∷ Done ∷ Done ∷ []) end
        × (get end.tree.names (codes "b" ∷ []) ≡ Some 2) × (get end.tree.names (codes "b" ∷ codes "c" ∷ []) ≡ Some 3)
        × (get end.tree.names (codes "a" ∷ []) ≡ None) × (get end.tree.names (codes "a" ∷ codes "c" ∷ []) ≡ None) }
    ensures onto { (end : Session)
        × Run (λ why. false) (start (in_layout_one 16)) (Create (codes "a" ∷ []) ∷ Create (codes "b" ∷ []) ∷ Rename (codes "a" ∷ []) (codes "b" ∷ []) ∷ Mkdir
        (codes "c" ∷ []) ∷ [])
        (Done ∷ Done ∷ Done ∷ Done ∷ []) end
        × (get end.tree.names (codes "a" ∷ []) ≡ None) × (get end.tree.names (codes "b" ∷ []) ≡ Some 2) × (get end.tree.names (codes "c" ∷ []) ≡ Some 3) }
    ensures long { Run (λ why. false) (start (in_layout_one 16)) (Create (replicate 60 97 ∷ []) ∷ []) (Refused NameTooLong ∷ []) (start (in_layout_one 16)) }
    ensures taken { (end : Session)
        × Run (λ why. false) (start (record { nodes = 16; layout = Two })) (Create (replicate 60 97 ∷ []) ∷ []) (Done ∷ []) end
        × (get end.tree.names (replicate 60 97 ∷ []) ≡ Some 2) }
{}

/// A tree whose root holds one file of 1,025 bytes has three blocks. With one bitmap block: the first name
/// of a directory needs a block and costs 4 payloads, the 17th name needs one too, and the 17th is the one
/// whose going frees it (in layout 2 it is the fourth); the first two bytes of a file cost 2 payloads and a fresh block; 14 blocks written
/// over cost 15 payloads; and a file that is cut from 3 blocks to one frees two of them at 2 payloads. A
/// payload counts 25.
pub fn small_changes_cost_so()
    ensures blocks { (bytes : List ℕ) → length bytes ≡ 1025
        → blocks One (alone (insert (insert empty [] 1) (codes "a" ∷ []) 2) (insert (insert empty 1 Dir) 2 (File bytes))) ≡ 3 }
    ensures first_name { figures 1 (start (in_layout_one 16)) (Create (codes "a" ∷ [])) ≡ record { need = 1; cost = 100; freed = 0 } }
    ensures names { (growth One 15 ≡ 0) × (growth One 16 ≡ 1) × (release One 17 ≡ 1) × (release One 16 ≡ 0) }
    ensures names_of_two { (growth Two 2 ≡ 0) × (growth Two 3 ≡ 1) × (release Two 4 ≡ 1) × (release Two 3 ≡ 0) }
    ensures first_bytes { write_figures 1 0 0 2 ≡ record { need = 1; cost = 51; freed = 0 } }
    ensures overwrite { write_figures 1 14336 0 14336 ≡ record { need = 0; cost = 375; freed = 0 } }
    ensures cut { truncate_figures 1 2049 1024 ≡ record { need = 0; cost = 50; freed = 2 } }
{}

/// The sync points of a run are those of the sessions that it goes through: the session after a
/// command is the one that its reply says, whichever reasons may come from outside the tree.
#[tactic(auto, using(crate::proofs::runs::Points::answer_tells))]
pub fn a_reply_tells_the_session()
    ensures { (outside : Refusal → Bool) (old new : Session) (cmd : Cmd) (reply : Reply) → Answers outside old cmd reply new → new ≡ after_reply old cmd reply }
{}

/// A tree in memory answers as `step` says, or refuses as it is out of memory. So it refuses by its own
/// reasons, 1 to 9 and 18 to 20, or by that one. What it answers, a file system over a disk may answer too, and so with
/// whole runs.
#[tactic(auto, using(crate::proofs::runs::Outside::run_more))]
pub fn a_tree_in_memory_refuses_for_no_disk()
    ensures exact { (old new : Session) (cmd : Cmd) (reply : Reply) → Answers is_of_memory old cmd reply new → (step old cmd ≡ (new, reply))
        ⊎ ((reply ≡ Refused NoMemory) × (new ≡ old)) }
    ensures alone { (old new : Session) (cmd : Cmd) (why : Refusal) → Answers is_of_memory old cmd (Refused why) new → (is_of_disk why ≡ false)
        ⊎ (why ≡ NoMemory) }
    ensures wider { (s end : Session) (cmds : List Cmd) (replies : List Reply) → Run is_of_memory s cmds replies end → Run is_of_disk s cmds replies end }
{}

/// In a run of a tree in memory no session ends by a disk fault. In any run each command after a disk fault
/// is refused as the session has ended, where each command that comes is answered so.
#[tactic(auto, using(crate::proofs::runs::Faults::memory_stops, crate::proofs::runs::Faults::stops_more))]
pub fn a_fault_ends_the_session()
    ensures memory { (s end : Session) (cmds : List Cmd) (replies : List Reply) → Run is_of_memory s cmds replies end → StopsAfterFault cmds replies }
    ensures more { (cmds : List Cmd) (replies : List Reply) (cmd : Cmd) (reply : Reply) → length cmds ≡ length replies → StopsAfterFault cmds replies
        → ((i : ℕ) → slice_get replies i ≡ Some (Refused DiskFault) → cmd ≢ Bad → reply ≡ Refused Stopped)
        → StopsAfterFault (cmds ++ cmd ∷ []) (replies ++ reply ∷ []) }
{}

/// No reply promises a point past point 0, but to a command that asks for one on the disk.
#[tactic(auto, using(crate::proofs::runs::Promises::promises_nothing))]
pub fn no_other_command_is_promised_a_point()
    ensures { (outside : Refusal → Bool) (old new : Session) (cmd : Cmd) (reply : Reply) → Answers outside old cmd reply new
        → asks_for_durability cmd ≡ false → promised_by reply ≡ 0 }
{}

/// The greatest point that a dsync or a dwait answered is one that was made: at the beginning, and after each command.
#[tactic(auto, using(crate::proofs::runs::Promises::step_counts))]
pub fn no_dsync_answers_a_point_to_come()
    ensures start { (limit : Bounds) (t : Tree) → CountsPoints (session_on limit t) }
    ensures step { (s : Session) (cmd : Cmd) → CountsPoints s → CountsPoints (step s cmd).0 }
{}

/// From moment to moment neither the top nor the floor of a run falls, whatever its replies promise.
#[tactic(auto, using(crate::proofs::runs::Bounds::top_rises, crate::proofs::runs::Bounds::floor_rises))]
pub fn bounds_never_fall()
    ensures top { (k later mounted : ℕ) (s : Session) (cmds : List Cmd) (replies : List Reply) (marks : List ℕ) → k ≤ later
        → top k s mounted cmds replies marks ≤ top later s mounted cmds replies marks }
    ensures floor { (k later : ℕ) (replies : List Reply) (marks : List ℕ) → k ≤ later → floor k replies marks ≤ floor later replies marks }
{}

/// A session that something changed, whose mount took two events, and two syncs. Where the first one is
/// answered at mark 5, it makes a point that began at 2, and the second one makes none; a crash leaves
/// the point from moment 2 on at the earliest. Where the first one is refused at mark 3 as it is out of
/// memory, the second one makes the point, which began at 3. Where a disk fault refuses the first one, it
/// makes the point all the same, and the second one, which the end of the session refuses, makes none.
pub fn two_syncs_make_one_point()
    ensures first { (t : Tree) (limit : Bounds) (points : ℕ)
        → points_after (record { tree = t; limit = limit; points = points; changed = true; durable = 0 }) 2 (Osync ∷ Osync ∷ [])
        (Synced 1 ∷ Synced 1 ∷ []) (5 ∷ 9 ∷ [])
        ≡ record { tree = t; begun = 2 } ∷ [] }
    ensures second { (t : Tree) (limit : Bounds) (points : ℕ)
        → points_after (record { tree = t; limit = limit; points = points; changed = true; durable = 0 }) 2 (Osync ∷ Osync ∷ [])
        (Refused NoMemory ∷ Synced 1 ∷ []) (3 ∷ 9 ∷ [])
        ≡ record { tree = t; begun = 3 } ∷ [] }
    ensures fault { (t : Tree) (limit : Bounds) (points : ℕ)
        → points_after (record { tree = t; limit = limit; points = points; changed = true; durable = 0 }) 2 (Osync ∷ Osync ∷ [])
        (Refused DiskFault ∷ Refused Stopped ∷ []) (4 ∷ 4 ∷ [])
        ≡ record { tree = t; begun = 2 } ∷ [] }
    ensures before { (t : Tree) (limit : Bounds) (points : ℕ)
        → top 1 (record { tree = t; limit = limit; points = points; changed = true; durable = 0 }) 2 (Osync ∷ Osync ∷ []) (Synced 1 ∷ Synced 1 ∷ [])
        (5 ∷ 9 ∷ []) ≡ 0 }
    ensures since { (t : Tree) (limit : Bounds) (points : ℕ)
        → top 2 (record { tree = t; limit = limit; points = points; changed = true; durable = 0 }) 2 (Osync ∷ Osync ∷ []) (Synced 1 ∷ Synced 1 ∷ [])
        (5 ∷ 9 ∷ []) ≡ 1 }
{}

/// The run that docs/CRASHES.md goes through: `/a` comes to be, a sync, two bytes in it, another sync, and a
/// dsync. The mount took two events, and the marks are 2, 5, 6, 9 and 13. At each moment from 0 to 13 these
/// are the top and the floor. The reply to `durable` raises the floor, too.
#[tactic(auto, using(crate::proofs::runs::PointExample::tops))]
pub fn a_dsync_raises_the_floor()
    ensures top { map (λ k. top k (start (in_layout_one 16)) 2
        (Create (codes "a" ∷ []) ∷ Osync ∷ Write (codes "a" ∷ []) 0 (104 ∷ 105 ∷ []) ∷ Osync ∷ Dsync ∷ [])
        (Done ∷ Synced 1 ∷ Done ∷ Synced 2 ∷ DurableAt 2 ∷ []) (2 ∷ 5 ∷ 6 ∷ 9 ∷ 13 ∷ [])) (range_with_len 0 14)
        ≡ 0 ∷ 0 ∷ 1 ∷ 1 ∷ 1 ∷ 1 ∷ 2 ∷ 2 ∷ 2 ∷ 2 ∷ 2 ∷ 2 ∷ 2 ∷ 2 ∷ [] }
    ensures floor { map (λ k. floor k (Done ∷ Synced 1 ∷ Done ∷ Synced 2 ∷ DurableAt 2 ∷ []) (2 ∷ 5 ∷ 6 ∷ 9 ∷ 13 ∷ [])) (range_with_len 0 14)
        ≡ 0 ∷ 0 ∷ 0 ∷ 0 ∷ 0 ∷ 0 ∷ 0 ∷ 0 ∷ 0 ∷ 0 ∷ 0 ∷ 0 ∷ 0 ∷ 2 ∷ [] }
    ensures known { map (λ k. floor k (DurableAt 1 ∷ Known 3 ∷ []) (4 ∷ 6 ∷ [])) (range_with_len 3 4) ≡ 0 ∷ 1 ∷ 1 ∷ 3 ∷ [] }
{}

/// A session that made two points and knows of none that is on the disk. A wait for point 1 raises what `durable`
/// answers to 1, one for point 2 to 2, and another one for point 1 lowers nothing. Point 3 isn't there. Nor does the
/// floor fall where an older point is answered later.
pub fn a_wait_raises_what_is_durable()
    ensures answers { (t : Tree) (limit : Bounds) (changed : Bool)
        → Run (λ why. false) (record { tree = t; limit = limit; points = 2; changed = changed; durable = 0 })
        (Dwait 1 ∷ Durable ∷ Dwait 2 ∷ Dwait 1 ∷ Durable ∷ Dwait 3 ∷ [])
        (DurableAt 1 ∷ Known 1 ∷ DurableAt 2 ∷ DurableAt 1 ∷ Known 2 ∷ Refused (NoPoint 2) ∷ [])
        (record { tree = t; limit = limit; points = 2; changed = changed; durable = 2 }) }
    ensures floor { map (λ k. floor k (DurableAt 2 ∷ DurableAt 1 ∷ []) (4 ∷ 6 ∷ [])) (range_with_len 3 4) ≡ 0 ∷ 2 ∷ 2 ∷ 2 ∷ [] }
{}
