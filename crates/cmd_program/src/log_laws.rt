//! Laws of what a user has of the log that an image keeps. They run nothing.

ghost use Rattle.std.specs.Prelude.{ℕ, Bool, IsTrue, List};
ghost use Rattle.cmd_image.specs.Shows.{HasImage};
ghost use Rattle.cmd_program.specs.Endings.{Met};
ghost use Rattle.cmd_program.specs.Logging.{LogsTo};
ghost use Rattle.cmd_program.specs.Logs.{EndsWithoutLog, KeepsNoLog, LacksRoom, LeavesLogs};
ghost use Rattle.cmd_program.specs.declared.status.Status.{Status};
ghost use Rattle.cmd_program.specs.declared.status.Status.TheVariants.{BadLog, Done, NoRoom};

use cmd_log::each_image_has_what_was_synced;
use crash_stands::{a_tree_that_stands_is_sound, an_image_stands_for_one_tree};
use lang_log::{a_log_begins_empty, segments_make_a_log};

/// Where a bay tells, a log that ended as it should had the calls of the whole input answered by the log of the image's tree,
/// and leaves under the name a disk whose crashes leave former logs by its own marks: as the log is at that moment, or as it
/// was since the last sync that was answered by then. Status 14 comes only where the image stands for a tree that has nothing
/// at `/log`, behind the line of a refusal for the room. And 17 comes exactly where it stands for a tree that has no log, unless
/// a call failed, the journal's numbers are used up, or memory ran out.
pub fn former_logs_are_left()
    ensures runs { (tells : Bool) (image : List ℕ) (m : Met) → IsTrue tells → LogsTo tells image Done m → LeavesLogs image m }
    ensures room { (tells : Bool) (image : List ℕ) (m : Met) → IsTrue tells → LogsTo tells image NoRoom m
        → HasImage (m.bay.kept image) (LacksRoom m.taken m.taken_now) }
    ensures bad { (tells : Bool) (image : List ℕ) (m : Met) → IsTrue tells → LogsTo tells image BadLog m → HasImage (m.bay.kept image) KeepsNoLog }
    ensures exact { (tells : Bool) (image : List ℕ) (status : Status) (m : Met) → IsTrue tells → LogsTo tells image status m
        → HasImage (m.bay.kept image) KeepsNoLog → EndsWithoutLog status }
{
    an_image_stands_for_one_tree();
    a_tree_that_stands_is_sound();
    a_log_begins_empty();
    segments_make_a_log();
    each_image_has_what_was_synced();
}
