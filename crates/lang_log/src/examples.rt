//! Worked examples: two appends, their bytes and the log that they make, and trees that have none. They run nothing.

ghost use Rattle.std.specs.Prelude.{◌≡◌, ◌∷◌, [], false, codes, replicate};
ghost use Rattle.lang_tree.specs.declared.command.Cmd.TheVariants.{Create, Link, Mkdir, Read, Write};
ghost use Rattle.lang_tree.specs.declared.command.Reply.TheVariants.{Ok as Done, Bytes};
ghost use Rattle.lang_tree.specs.Run.{Run};
ghost use Rattle.lang_tree.specs.Tree.{in_layout_one};
ghost use Rattle.lang_tree.specs.Step.{Session, start};
ghost use Rattle.lang_log.specs.Log.{HasNoLog, IsLogOf};
ghost use Rattle.lang_log.specs.Names.{digits, log_path, path_in_log, segment_name, segment_path};
ghost use Rattle.lang_log.specs.Spelling.{spelling, spellings};

/// The name of the first segment, and the bytes of two appends in it.
pub fn two_appends_are_spelled_so()
    ensures name { segment_name 0 ≡ replicate 10 48 }
    ensures bytes { spellings (codes "hi" ∷ codes "j" ∷ []) ≡ 2 ∷ 0 ∷ 0 ∷ 0 ∷ 104 ∷ 105 ∷ 1 ∷ 0 ∷ 0 ∷ 0 ∷ 106 ∷ [] }
{}

/// A run in an empty tree: the directory of a log and its first segment are made, two appends are written, and a
/// read gives their bytes. The tree has the log of these two then.
pub fn two_appends_make_a_log()
    ensures { (end : Session)
        × Run (λ why. false) (start (in_layout_one 16))
        (Mkdir log_path ∷ Create (segment_path 0) ∷ Write (segment_path 0) 0 (spelling (codes "hi")) ∷ Write (segment_path 0) 6 (spelling (codes "j"))
        ∷ Read (segment_path 0) 0 20 ∷ [])
        (Done ∷ Done ∷ Done ∷ Done ∷ Bytes (2 ∷ 0 ∷ 0 ∷ 0 ∷ 104 ∷ 105 ∷ 1 ∷ 0 ∷ 0 ∷ 0 ∷ 106 ∷ []) ∷ []) end
        × IsLogOf end.tree (record { low = 0; appends = codes "hi" ∷ codes "j" ∷ [] }) }
{}

/// Runs that leave a tree without a log: `/log` is a file; a directory is in it under the name of a segment; a file in
/// it is named by nine digits; the second segment is another name of the first one, which has one append; an append of
/// two bytes lacks the second one; after a segment of one append, the segment with number 2 follows; an append has the
/// number 2^32 - 1.
pub fn spoiled_trees_have_no_log()
    ensures file { (end : Session) × Run (λ why. false) (start (in_layout_one 16)) (Create log_path ∷ []) (Done ∷ []) end × HasNoLog end.tree }
    ensures directory { (end : Session) × Run (λ why. false) (start (in_layout_one 16)) (Mkdir log_path ∷ Mkdir (segment_path 0) ∷ []) (Done ∷ Done ∷ []) end
        × HasNoLog end.tree }
    ensures name { (end : Session) × Run (λ why. false) (start (in_layout_one 16)) (Mkdir log_path ∷ Create (path_in_log (digits 9 0)) ∷ []) (Done ∷ Done ∷ []) end
        × HasNoLog end.tree }
    ensures shared { (end : Session)
        × Run (λ why. false) (start (in_layout_one 16))
        (Mkdir log_path ∷ Create (segment_path 0) ∷ Write (segment_path 0) 0 (0 ∷ 0 ∷ 0 ∷ 0 ∷ []) ∷ Link (segment_path 0) (segment_path 1) ∷ [])
        (Done ∷ Done ∷ Done ∷ Done ∷ []) end
        × HasNoLog end.tree }
    ensures torn { (end : Session)
        × Run (λ why. false) (start (in_layout_one 16)) (Mkdir log_path ∷ Create (segment_path 0) ∷ Write (segment_path 0) 0 (2 ∷ 0 ∷ 0 ∷ 0 ∷ 104 ∷ []) ∷ [])
        (Done ∷ Done ∷ Done ∷ []) end
        × HasNoLog end.tree }
    ensures gap { (end : Session)
        × Run (λ why. false) (start (in_layout_one 16))
        (Mkdir log_path ∷ Create (segment_path 0) ∷ Write (segment_path 0) 0 (0 ∷ 0 ∷ 0 ∷ 0 ∷ []) ∷ Create (segment_path 2) ∷ [])
        (Done ∷ Done ∷ Done ∷ Done ∷ []) end
        × HasNoLog end.tree }
    ensures end { (end : Session)
        × Run (λ why. false) (start (in_layout_one 16))
        (Mkdir log_path ∷ Create (segment_path 4294967295) ∷ Write (segment_path 4294967295) 0 (0 ∷ 0 ∷ 0 ∷ 0 ∷ []) ∷ [])
        (Done ∷ Done ∷ Done ∷ []) end
        × HasNoLog end.tree }
{}
