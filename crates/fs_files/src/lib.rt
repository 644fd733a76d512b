//! Files over a map of blocks: numbered nodes, each a list of bytes in blocks of its own. A draft
//! collects what one command changes, and leaves the map as it is until it is finished. No journal and
//! no disk is known here, and no names. The rules are described in docs/FILES.md.
#![tactic(auto)]

mod calls;
mod changes;
mod content;
mod draft;
mod finish;
mod given;
mod grow;
mod laws;
mod look;
mod node_blocks;
mod nodes;
mod part;
mod price;
mod reading;
mod refusal;
mod resize;
mod shared;
mod unused;
mod within;
mod write;

pub use changes::Changed;
pub use draft::Draft;
pub use finish::a_sync_may_follow;
pub use given::{different_blocks_are_few, node_in, read_block_at, read_bytes};
pub use laws::{
    a_directory_has_whole_slots, a_directory_shares_no_block, a_draft_begins,
    a_draft_begins_with_frees, a_file_fits_the_disk, a_file_has_its_blocks, bytes_lie_in_blocks,
    settlings_add_up, sound_beside_nothing, sound_beside_what_is_kept, where_nothing_is_kept,
};
pub use look::FileFacts;
pub use node_blocks::{NodeBlocks, OpenFile};
pub use reading::Nodes;
pub use refusal::FileRefusal;
pub use shared::Shared;
