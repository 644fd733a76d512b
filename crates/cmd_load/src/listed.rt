//! The digest of the listing of the tree of a file system. How a listing reads is described in docs/TREE.md.

ghost use Rattle.std.specs.Prelude.{◌≡◌, true, false, IfOk};
ghost use Rattle.base_types.specs.Seal.{sha256};
ghost use Rattle.disk_memory.specs.MemDisk.{state_of as disk_state};
ghost use Rattle.engine_store.specs.StoreOf.{state_of};
ghost use Rattle.fs_commands.specs.Opened.{IsReady, blocks_in};
ghost use Rattle.fs_session.specs.Sessions.{IsSession};
ghost use Rattle.lang_tree.specs.Listing.{listing};
ghost use Rattle.lang_tree.specs.Step.{Session};
ghost use Rattle.cmd_host.specs.Listed.{IsReadable};

use crate::mounting::System;
use base_types::NoMemory;
use cmd_host::listing_text;
use sha2::{Digest, Sha256};
use std::alloc::Global;

/// The SHA-256 of the listing of the tree.
///
/// # Errors
/// Out of memory.
pub(crate) fn digest_of(alloc: Global, fs: &mut System) -> Result<[u8; 32], NoMemory>
    requires ready { IsReady true (λ s. state_of disk_state s) fs.old }
    requires going { (state_of disk_state (blocks_in fs.old)).books.stopped ≡ false }
    requires readable { IsReadable (state_of disk_state (blocks_in fs.old)) }
    ensures { IfOk result (λ digest. (f : Session) → IsSession (state_of disk_state (blocks_in fs.old)) f → digest ≡ sha256 (listing f.tree)) }
{
    let text = listing_text(alloc, fs)?;
    Ok(Sha256::digest(text.as_slice()))
}
