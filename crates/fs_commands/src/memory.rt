//! A file system whose blocks lie in memory: how it begins. How commands are answered there is said by laws of
//! `fs_session`.

ghost use Rattle.std.specs.Prelude.{◌≡◌, true, IfOk};
ghost use Rattle.crash_stands.specs.Bounds.{bounds_of};
ghost use Rattle.engine_blocks.specs.PlainOf.{state_of};
ghost use Rattle.lang_tree.specs.Step.{start};
ghost use Rattle.fs_session.specs.Memory.{room_of};
ghost use Rattle.fs_session.specs.Room.{IsFirstRoom};
ghost use Rattle.fs_session.specs.Sessions.{IsSession};
ghost use Rattle.fs_commands.specs.Opened.{MayFollow, blocks_in};

use crate::fs::Fs;
use base_types::NoMemory;
use crash_stands::{an_image_stands_for_one_tree, the_formatted_disk_stands_for_the_root};
use engine_blocks::PlainBlocks;
use fs_check::CheckRefusal;
use fs_session::{
    bitmap_and_node_table_are_live, live_blocks_are_enough, nothing_is_taken_at_first,
};
use layout_geometry::Geom;
use layout_journal::the_formatted_disk_is_empty;
use std::alloc::Global;

/// The file system of a disk that was just formatted with this geometry, over blocks in memory: the root alone
/// stands, and nothing is taken.
///
/// # Errors
/// Out of memory.
pub fn formatted_in_memory(alloc: Global, geom: &Geom) -> Result<Fs<PlainBlocks>, NoMemory>
    ensures geom { IfOk result (λ fs. (state_of (blocks_in fs)).books.geom ≡ geom.now) }
    ensures session { IfOk result (λ fs. IsSession (state_of (blocks_in fs)) (start (bounds_of geom.now))) }
    ensures room { IfOk result (λ fs. IsFirstRoom geom.now (room_of (state_of (blocks_in fs)))) }
    ensures follows { IfOk result (λ fs. MayFollow true state_of fs) }
{
    geom.lawful();
    the_formatted_disk_stands_for_the_root();
    the_formatted_disk_is_empty();
    bitmap_and_node_table_are_live();
    live_blocks_are_enough();
    an_image_stands_for_one_tree();
    nothing_is_taken_at_first::<PlainBlocks>();
    let blocks = PlainBlocks::formatted(alloc, *geom)?;
    match Fs::open(alloc, blocks) {
        Ok(fs) => Ok(fs),
        Err((_, CheckRefusal::NoMemory)) => Err(NoMemory),
        Err((_, CheckRefusal::Damaged(_))) => unreachable!(),
        Err((_, CheckRefusal::ReadFault)) => unreachable!(),
    }
}
