//! A bounded cache of a disk's blocks: a block that was read or noted is kept, and its next read asks no
//! disk. It isn't told what is written: whoever writes a block has to note or forget it. The rules are
//! described in docs/CACHE.md.
#![tactic(auto)]

mod cache;
mod laws;

pub use cache::{BlockCache, MOST_BLOCKS};
pub use laws::{a_cache_goes_on_agreeing, a_new_cache_agrees};
