//! Laws of the questions that a log asks of its tree: what is told of its directory, and of what is in it. They run
//! nothing.

ghost use Rattle.std.specs.Prelude.{◌≡◌, ◌<◌, ◌^◌, ◌++◌, ◌∷◌, List, ℕ, take, drop, map, None, Some};
ghost use Rattle.std.specs.List.{AllByRecursion};
ghost use Rattle.std.specs.FinMap.{get};
ghost use Rattle.lang_tree.specs.declared.command.Cmd.TheVariants.{List as ListNames, Read, Stat};
ghost use Rattle.lang_tree.specs.declared.command.Refusal.TheVariants.{NotFound};
ghost use Rattle.lang_tree.specs.declared.command.Reply.{Reply};
ghost use Rattle.lang_tree.specs.declared.command.Reply.TheVariants.{Bytes, Names as NamesReply, Refused};
ghost use Rattle.lang_tree.specs.Names.{names_in};
ghost use Rattle.lang_tree.specs.Step.{Session, step, stat_of};
ghost use Rattle.lang_tree.specs.Tree.{Dir, File, IsSound, Names, Thing, Tree};
ghost use Rattle.lang_log.specs.Names.{log_path, path_in_log, segment_name, segment_path};
ghost use Rattle.lang_log.specs.Segments.{AreApart, HasSegments, IsOneOf, LiesIn, Segment};

/// Nothing is told to be at `/log` where nothing is; and else a stat tells what is there, and a list which names a
/// directory there holds. Nothing changes.
pub fn the_directory_of_a_log_is_told()
    ensures none { (old new : Session) (reply : Reply) → IsSound old.limit.nodes old.tree → get old.tree.names log_path ≡ None
        → step old (Stat log_path) ≡ (new, reply) → (reply ≡ Refused NotFound) × (new ≡ old) }
    ensures stat { (n : ℕ) (thing : Thing) (old new : Session) (reply : Reply) → IsSound old.limit.nodes old.tree → get old.tree.names log_path ≡ Some n
        → get old.tree.nodes n ≡ Some thing → step old (Stat log_path) ≡ (new, reply)
        → (reply ≡ stat_of old.tree log_path n (Some thing)) × (new ≡ old) }
    ensures list { (n : ℕ) (old new : Session) (reply : Reply) → IsSound old.limit.nodes old.tree → get old.tree.names log_path ≡ Some n
        → get old.tree.nodes n ≡ Some Dir → step old (ListNames log_path) ≡ (new, reply)
        → (reply ≡ NamesReply (names_in old.tree.names log_path)) × (new ≡ old) }
{}

/// The names that a directory at `/log` holds are those that lead somewhere behind it.
pub fn names_in_a_log_lead_somewhere()
    ensures held { (names : Names) (name : List ℕ) → IsOneOf name (names_in names log_path) → (n : ℕ) × (get names (path_in_log name) ≡ Some n) }
    ensures all { (names : Names) (name : List ℕ) (n : ℕ) → get names (path_in_log name) ≡ Some n → IsOneOf name (names_in names log_path) }
{}

/// Where a directory is at `/log` and the names that it holds are those of segments that lie in the tree, no two of
/// them one node, these are all that it has.
pub fn listed_segments_are_all()
    ensures { (t : Tree) (segments : List Segment) (n : ℕ) → get t.names log_path ≡ Some n → get t.nodes n ≡ Some Dir
        → names_in t.names log_path ≡ map (λ s. segment_name s.first) segments → AllByRecursion (LiesIn t) segments → AreApart segments
        → HasSegments t segments }
{}

/// Of two names of segments that a directory at `/log` holds directly one behind the other, the second one has the
/// greater number, and no segment lies between them.
pub fn names_in_a_log_rise()
    ensures { (names : Names) (before behind : List (List ℕ)) (m n : ℕ) → m < 2 ^ 32 → n < 2 ^ 32
        → names_in names log_path ≡ before ++ segment_name m ∷ segment_name n ∷ behind
        → (m < n) × ((between : ℕ) → m < between → between < n → get names (segment_path between) ≡ None) }
{}

/// A stat tells what is under a name in the directory of a log, and a read gives the bytes of a file there. Nothing
/// changes.
pub fn what_is_in_a_log_is_told()
    ensures stat { (name : List ℕ) (n : ℕ) (thing : Thing) (old new : Session) (reply : Reply) → IsSound old.limit.nodes old.tree
        → get old.tree.names (path_in_log name) ≡ Some n → get old.tree.nodes n ≡ Some thing → step old (Stat (path_in_log name)) ≡ (new, reply)
        → (reply ≡ stat_of old.tree (path_in_log name) n (Some thing)) × (new ≡ old) }
    ensures read { (name : List ℕ) (n : ℕ) (bytes : List ℕ) (offset count : ℕ) (old new : Session) (reply : Reply) → IsSound old.limit.nodes old.tree
        → get old.tree.names (path_in_log name) ≡ Some n → get old.tree.nodes n ≡ Some (File bytes)
        → step old (Read (path_in_log name) offset count) ≡ (new, reply) → (reply ≡ Bytes (take count (drop offset bytes))) × (new ≡ old) }
{}
