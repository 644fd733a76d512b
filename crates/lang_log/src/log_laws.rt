//! Laws of logs: which one segments make, that a tree has one at most and when it has none, and what of one a crash
//! may leave. They run nothing.

ghost use Rattle.std.specs.Prelude.{◌≡◌, ◌≢◌, ◌≤◌, ◌<◌, ◌+◌, ◌-◌, ◌^◌, ◌++◌, ◌∷◌, [], ℕ, List, length, slice_get};
ghost use Rattle.std.specs.Prelude.{None, Some};
ghost use Rattle.std.specs.FinMap.{get};
ghost use Rattle.lang_tree.specs.Tree.{Tree, Dir, File};
ghost use Rattle.lang_log.specs.History.{History, MayBeLeft, appended, became, opened_with, synced, trimmed_to};
ghost use Rattle.lang_log.specs.Log.{HasNoLog, IsLogOf, IsMadeOf, Log, next_of, nothing_logged, trimmed, with_append};
ghost use Rattle.lang_log.specs.Names.{log_path, path_in_log, segment_name, segment_path};
ghost use Rattle.lang_log.specs.Runs.{Appends, AreOf, all_kept, count, found_in, from_low, one_more};
ghost use Rattle.lang_log.specs.Segments.{Segment, LiesIn, grown, new_segment};
ghost use Rattle.lang_log.specs.Spelling.{AreShort, IsShort, spellings};

/// As its segments change, so does the log that they make: none make an empty one, and a lone one makes that of its
/// appends; with a segment more it has the appends of that one more; with an append more it has one more; with an empty
/// segment more it is the same; without its first segment it begins later.
pub fn segments_make_a_log()
    ensures none { IsMadeOf [] nothing_logged }
    ensures lone { (s : Segment) → AreShort s.appends → s.first + length s.appends ≤ 2 ^ 32 - 1
        → IsMadeOf (s ∷ []) (record { low = s.first; appends = s.appends }) }
    ensures joined { (segments : List Segment) (node : ℕ) (appends : List (List ℕ)) (l : Log) → IsMadeOf segments l → AreShort appends
        → next_of l + length appends ≤ 2 ^ 32 - 1
        → IsMadeOf (segments ++ record { first = next_of l; node = node; appends = appends } ∷ [])
        (record { low = l.low; appends = l.appends ++ appends }) }
    ensures grown { (before : List Segment) (s : Segment) (bytes : List ℕ) (l : Log) → IsMadeOf (before ++ s ∷ []) l → IsShort bytes
        → next_of l + 1 ≤ 2 ^ 32 - 1 → IsMadeOf (before ++ grown bytes s ∷ []) (with_append bytes l) }
    ensures new { (segments : List Segment) (node : ℕ) (l : Log) → IsMadeOf segments l → IsMadeOf (segments ++ new_segment (next_of l) node ∷ []) l }
    ensures trimmed { (s r : Segment) (rest : List Segment) (l : Log) → IsMadeOf (s ∷ r ∷ rest) l → IsMadeOf (r ∷ rest) (trimmed r.first l) }
{}

/// An append lies in the segment whose numbers it is among, and the last segment's appends end where the next number
/// begins.
pub fn an_append_lies_in_its_segment()
    ensures number { (before : List Segment) (s : Segment) (rest : List Segment) (l : Log) (n : ℕ) → IsMadeOf (before ++ s ∷ rest) l → s.first ≤ n
        → n < s.first + length s.appends → slice_get l.appends (n - l.low) ≡ slice_get s.appends (n - s.first) }
    ensures next { (before : List Segment) (s : Segment) (l : Log) → IsMadeOf (before ++ s ∷ []) l → next_of l ≡ s.first + length s.appends }
{}

/// A tree has one log at most.
pub fn a_tree_has_one_log()
    ensures { (t : Tree) (l k : Log) → IsLogOf t l → IsLogOf t k → l ≡ k }
{}

/// Where a tree has no log: a file is at `/log`; a directory is in it; what is in it isn't named as a segment; two
/// names in it lead to one node; the bytes of a file in it aren't those of whole appends; the next segment behind one
/// doesn't begin where that one ends; a segment's appends pass the last number.
pub fn a_tree_has_no_log_where()
    ensures file { (t : Tree) (n : ℕ) (bytes : List ℕ) → get t.names log_path ≡ Some n → get t.nodes n ≡ Some (File bytes) → HasNoLog t }
    ensures directory { (t : Tree) (name : List ℕ) (n : ℕ) → get t.names (path_in_log name) ≡ Some n → get t.nodes n ≡ Some Dir → HasNoLog t }
    ensures name { (t : Tree) (name : List ℕ) (n : ℕ) → get t.names (path_in_log name) ≡ Some n
        → ((first : ℕ) → first < 2 ^ 32 → name ≢ segment_name first) → HasNoLog t }
    ensures shared { (t : Tree) (name other : List ℕ) (n : ℕ) → get t.names (path_in_log name) ≡ Some n → get t.names (path_in_log other) ≡ Some n
        → name ≢ other → HasNoLog t }
    ensures torn { (t : Tree) (name : List ℕ) (n : ℕ) (bytes : List ℕ) → get t.names (path_in_log name) ≡ Some n
        → get t.nodes n ≡ Some (File bytes) → ((appends : List (List ℕ)) → AreShort appends → bytes ≢ spellings appends) → HasNoLog t }
    ensures row { (t : Tree) (s : Segment) (first n : ℕ) → LiesIn t s → AreShort s.appends → s.first < first → first < 2 ^ 32
        → get t.names (segment_path first) ≡ Some n
        → ((between : ℕ) → s.first < between → between < first → get t.names (segment_path between) ≡ None)
        → first ≢ s.first + length s.appends → HasNoLog t }
    ensures end { (t : Tree) (s : Segment) → LiesIn t s → AreShort s.appends → s.first < 2 ^ 32 → 2 ^ 32 - 1 < s.first + length s.appends
        → HasNoLog t }
{}

/// The log as it is now may be left. What might be left before a log became another one still may, and so may
/// the log that it became. Behind a sync only the log as it is may be left.
pub fn what_might_be_left_still_may()
    ensures now { (h : History) → MayBeLeft h h.now }
    ensures still { (h : History) (l k : Log) → MayBeLeft h k → MayBeLeft (became l h) k }
    ensures synced { (h : History) (k : Log) → MayBeLeft (synced h) k → k ≡ h.now }
{}

/// What a crash may leave of a log is a run of its appends: as it is opened, and behind an append, a trim and a sync.
pub fn what_is_left_is_a_run()
    ensures opened { (l : Log) → AreOf (opened_with l) (found_in l) }
    ensures appended { (h : History) (a : Appends) (bytes : List ℕ) → AreOf h a → AreOf (appended bytes h) (one_more bytes a) }
    ensures trimmed { (h : History) (a : Appends) (low : ℕ) → AreOf h a → a.low ≤ low → low ≤ count a → AreOf (trimmed_to low h) (from_low low a) }
    ensures synced { (h : History) (a : Appends) → AreOf h a → AreOf (synced h) (all_kept a) }
{}
