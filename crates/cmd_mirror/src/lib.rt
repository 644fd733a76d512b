//! Two images of a bay that are kept alike: a run over both, which goes on where one disk fails, and the making of the
//! second image from the first. The disk over both is `Mirror` of `disk_mirror`.
//!
//! The rules are described in docs/MIRROR.md.
#![tactic(auto)]

mod comparing;
mod copying;
mod mirrored;
mod refusal;
mod reply_laws;
mod side_laws;

pub use copying::{CopyFault, copy_image};
pub use mirrored::run_mirrored;
pub use refusal::MirroredRefusal;
pub use reply_laws::a_reply_tells_a_fault_of_both_disks;
pub use side_laws::{a_disk_of_a_mirror_goes_back, crashes_of_a_mirror_are_of_its_disks};
