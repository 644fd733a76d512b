//! Laws of what a user has of two images: behind a run on both that ended as it should, and behind a copy. They run nothing.

ghost use Rattle.std.specs.Prelude.{◌≢◌, ℕ, Bool, IsTrue, List};
ghost use Rattle.cmd_mirror.specs.Copies.{HaveOneImage};
ghost use Rattle.cmd_program.specs.Copying.{CopiesTo};
ghost use Rattle.cmd_program.specs.Endings.{Met};
ghost use Rattle.cmd_program.specs.Mirroring.{RunsMirroredTo};
ghost use Rattle.cmd_program.specs.Pairs.{LeavesPair};
ghost use Rattle.cmd_program.specs.declared.status.Status.TheVariants.{Done};

/// Where a bay tells, a run on two images that ended as it should leaves under each of the two names a disk whose crashes
/// leave sync points of the commands, by the marks of its own: as long as no call of it had failed, none older than the last
/// one that was promised by then. And a copy that ended so has the blocks of its image.
pub fn two_images_are_left()
    ensures runs { (tells : Bool) (image other : List ℕ) (m : Met) → IsTrue tells → image ≢ other → RunsMirroredTo tells image other Done m
        → LeavesPair image other m }
    ensures copies { (tells : Bool) (image other : List ℕ) (m : Met) → IsTrue tells → CopiesTo tells image other Done m
        → HaveOneImage (m.bay.kept image) (m.bay_now.kept other) }
{}
