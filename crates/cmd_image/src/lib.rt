//! An image of a bay from its making to its return: the engines of the commands `mkfs IMAGE N J I`, `tree IMAGE` and
//! `run IMAGE`. The first makes the image of a formatted disk under a name. The second shows the tree for which the
//! image of a disk stands, and names what is broken where it stands for none. The third runs the commands of a script
//! over the image of a disk: the commands come from a source, and the lines of their replies go to a sink. Each time the
//! disk comes from a bay and goes back to it. What an image is to a mount is defined by `cmd_session`.
//!
//! How a disk is formatted and mounted is described by `engine_store`, what each block of a formatted disk gets by
//! `layout_journal`, how a command is answered and the listing by `fs_commands`, and what whole runs come to by `cmd_session`. The
//! rules are described in docs/FORMATTING.md, "An image under a name", docs/SHOWING.md and docs/RUNNING.md.
#![tactic(auto)]

mod ending;
mod formatted_laws;
mod image_laws;
mod lent;
mod make;
mod make_refusal;
mod mounting;
mod run;
mod running;
mod show;
mod show_refusal;
mod store_laws;

pub use ending::{Ending, RunRefusal, of_show, run_refusal_of_bay};
pub use formatted_laws::a_formatted_image_can_be_mounted;
pub use image_laws::{
    a_reply_tells_which_call_failed, a_run_stands_where_accepted_writes_do,
    a_session_begins_in_the_room_of_its_tree, what_is_read_stays_mounted,
};
pub use lent::LentDisk;
pub use make::make_image;
pub use make_refusal::{MakeRefusal, make_refusal_of_bay};
pub use mounting::{
    close_lent, disk_back, mark_of, mount_lent, open_lent, room_for_a_mark, unopened,
};
pub use run::{Left, run_disk, run_script};
pub use running::Stop;
pub use show::show_tree;
pub use show_refusal::ShowRefusal;
