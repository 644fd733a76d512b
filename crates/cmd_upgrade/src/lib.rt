//! The engine of the command `upgrade IMAGE NEW N J I`: the tree of files for which the image of a disk stands is made
//! again on a new disk of layout 2. The one disk is only looked at, and the other one gets the commands that make a tree.
//! Which commands these are, and that they do, is described by `lang_making`; how each is answered by `cmd_session`. What
//! snapshots keep isn't copied. The rules are described in docs/UPGRADE.md.
#![tactic(auto)]

mod asks;
mod filling;
mod looks;
mod plan;
mod refusal;
mod tree_laws;
mod upgrading;
mod walk;

pub use refusal::UpgradeRefusal;
pub use upgrading::upgrade;
