//! The listing of a file system on a disk in memory that fails no read, kept as a text. How a listing reads is described in
//! docs/TREE.md.

ghost use Rattle.std.specs.Prelude.{◌≡◌, true, false, IfOk};
ghost use Rattle.disk_memory.specs.MemDisk.{state_of as disk_state};
ghost use Rattle.engine_store.specs.StoreOf.{state_of};
ghost use Rattle.lang_tree.specs.Listing.{listing};
ghost use Rattle.lang_tree.specs.Step.{Session};
ghost use Rattle.fs_commands.specs.Opened.{IsReady, blocks_in};
ghost use Rattle.fs_session.specs.Sessions.{IsSession};
ghost use Rattle.cmd_host.specs.Listed.{IsReadable};

use crate::text::TextSink;
use base_types::NoMemory;
use disk_contract::Disk;
use disk_memory::MemDisk;
use engine_store::Store;
use fs_commands::{Fs, ListRefusal};
use std::alloc::Global;

/// The listing of the tree of a file system.
///
/// # Errors
/// Out of memory.
pub fn listing_text(alloc: Global, fs: &mut Fs<Store<MemDisk>>) -> Result<Vec<u8>, NoMemory>
    requires ready { IsReady true (λ s. state_of disk_state s) fs.old }
    requires going { (state_of disk_state (blocks_in fs.old)).books.stopped ≡ false }
    requires readable { IsReadable (state_of disk_state (blocks_in fs.old)) }
    ensures { IfOk result (λ text. (f : Session) → IsSession (state_of disk_state (blocks_in fs.old)) f → text.items ≡ listing f.tree) }
{
    let mut out = TextSink::new(alloc);
    match fs.listing(alloc, &mut out) {
        Ok(()) => Ok(out.into_text()),
        Err(ListRefusal::Stopped) => unreachable!(),
        Err(ListRefusal::ReadFault) => {
            fs.blocks().disk().lawful();
            unreachable!()
        }
        Err(ListRefusal::SinkFault) => Err(NoMemory),
        Err(ListRefusal::NoMemory) => Err(NoMemory),
    }
}
