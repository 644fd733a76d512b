//! A disk over two disks, of which one may fail without its callers seeing it: `Mirror`. Each write goes to
//! both, and a write counts as durable once both have said so. The rules are described in docs/MIRROR.md.
#![tactic(auto)]

mod entry;
mod half;
mod laws;
mod marks;
mod mirror;
mod order;
mod places;
mod ripe;

pub use laws::a_mark_has_come_at_its_moment;
pub use mirror::{Mirror, MirrorRefusal};
