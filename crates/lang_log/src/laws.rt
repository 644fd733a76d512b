//! Laws of the commands that a log asks of its tree: what each leaves of the segments. They run nothing.

ghost use Rattle.std.specs.Prelude.{◌≡◌, ◌≤◌, ◌+◌, ◌++◌, ◌∷◌, ◌⊎◌, [], ℕ, List, length, take, drop, None, Some};
ghost use Rattle.std.specs.FinMap.{get};
ghost use Rattle.lang_tree.specs.declared.command.Cmd.TheVariants.{Create, Mkdir, Read, Unlink, Write};
ghost use Rattle.lang_tree.specs.declared.command.Reply.{Reply};
ghost use Rattle.lang_tree.specs.declared.command.Reply.TheVariants.{Bytes};
ghost use Rattle.lang_tree.specs.Step.{Session, step};
ghost use Rattle.lang_tree.specs.Tree.{Tree, IsSound};
ghost use Rattle.lang_log.specs.Commands.{IsAsked, LacksNode, Leaves};
ghost use Rattle.lang_log.specs.Names.{log_path, segment_name, segment_path};
ghost use Rattle.lang_log.specs.Segments.{Segment, HasSegments, LiesIn, OneIsNamed, grown, new_segment};
ghost use Rattle.lang_log.specs.Spelling.{spelling, spellings};

/// Where nothing is at `/log`, nothing is logged. A directory can be made there unless no number is unused, and
/// behind that nothing is logged either.
pub fn a_log_begins_empty()
    ensures before { (limit : ℕ) (t : Tree) → IsSound limit t → get t.names log_path ≡ None → HasSegments t [] }
    ensures made { (old new : Session) (reply : Reply) → get old.tree.names log_path ≡ None → IsAsked [] old (Mkdir log_path) new reply
        → LacksNode old new reply ⊎ Leaves [] new reply }
{}

/// Where a segment lies, there is the directory of the log.
pub fn a_segment_lies_in_the_directory()
    ensures { (limit : ℕ) (t : Tree) (s : Segment) → IsSound limit t → LiesIn t s → (directory : ℕ) × (get t.names log_path ≡ Some directory) }
{}

/// A new segment is empty, and comes behind the others. Where no other has its name, it is made, unless no number
/// is unused.
pub fn a_new_segment_is_empty()
    ensures { (segments : List Segment) (first directory : ℕ) (old new : Session) (reply : Reply) → get old.tree.names log_path ≡ Some directory
        → (OneIsNamed segments (segment_name first) → ⊥) → IsAsked segments old (Create (segment_path first)) new reply
        → LacksNode old new reply ⊎ ((node : ℕ) × Leaves (segments ++ new_segment first node ∷ []) new reply) }
{}

/// An append is written behind the last one of the last segment, whose file has 2^30 bytes at most then.
pub fn a_segment_grows_by_an_append()
    ensures { (before : List Segment) (s : Segment) (bytes : List ℕ) (old new : Session) (reply : Reply)
        → length (spellings s.appends) + length (spelling bytes) ≤ 1073741824
        → IsAsked (before ++ s ∷ []) old (Write (segment_path s.first) (length (spellings s.appends)) (spelling bytes)) new reply
        → Leaves (before ++ grown bytes s ∷ []) new reply }
{}

/// The first segment goes by an unlink, and the others stay.
pub fn the_first_segment_goes()
    ensures { (s : Segment) (rest : List Segment) (old new : Session) (reply : Reply) → IsAsked (s ∷ rest) old (Unlink (segment_path s.first)) new reply
        → Leaves rest new reply }
{}

/// A read of a segment's file gives its appends as they are spelled, from the offset on, and changes nothing.
pub fn a_segment_is_read()
    ensures { (s : Segment) (offset count : ℕ) (old new : Session) (reply : Reply) → IsSound old.limit.nodes old.tree → LiesIn old.tree s
        → step old (Read (segment_path s.first) offset count) ≡ (new, reply)
        → (reply ≡ Bytes (take count (drop offset (spellings s.appends)))) × (new ≡ old) }
{}
