//! Changes of a file of a draft that never grow it: bytes written over those that it has, and a cut to its
//! first bytes. They only look at the map of blocks, also where it isn't observed.

ghost use Rattle.std.specs.Prelude.{◌≡◌, ◌≤◌, ◌<◌, ◌+◌, ◌^◌, false, IsTrue, length, Some};
ghost use Rattle.std.specs.List.{All};
ghost use Rattle.crash_stands.specs.Files.{FileNode};
ghost use Rattle.fs_files.specs.Asks.{MayCut, MayLook};
ghost use Rattle.fs_files.specs.Calls.{files_in, places_in, IsUsed};
ghost use Rattle.fs_files.specs.Changing.{CutsFile, OverwritesFile};
ghost use Rattle.fs_files.specs.Shared.{is_kept};

use crate::FileRefusal;
use crate::content::write_content;
use crate::draft::{Draft, ZEROS};
use crate::grow::class_of;
use crate::nodes::load;
use crate::resize::cut;
use engine_blocks::Blocks;
use layout_extent::a_list_has_its_runs;
use std::alloc::Global;

impl<'a> Draft<'a> {
    /// Writes these bytes over those of node `number` from `offset` on, all within its size. No bytes
    /// change nothing. Where it has bytes to write, no snapshot keeps a block of the node.
    ///
    /// # Errors
    /// A read of the disk failed, which the disk has counted; or out of memory. The draft isn't to be used
    /// any more then.
    pub fn overwrite<S: Blocks>(
        &mut self,
        alloc: Global,
        blocks: &mut S,
        number: u32,
        offset: u64,
        bytes: &[u8],
    ) -> Result<(), FileRefusal>
        requires look { MayLook S.tells (S.state blocks.old) self.old number }
        requires used { IsTrue S.tells → IsUsed (files_in (S.state blocks.old) self.old) number }
        requires size { offset + length bytes.now ≤ 2 ^ 30 }
        requires within { IsTrue S.tells → (x : FileNode) → files_in (S.state blocks.old) self.old number ≡ Some x
            → offset + length bytes.now ≤ length x.bytes }
        requires apart { IsTrue S.tells → All (λ b. is_kept self.old.kept b ≡ false) (places_in (S.state blocks.old) self.old number) }
        ensures { OverwritesFile S.tells number offset bytes.now result (S.state blocks.old) (S.state blocks.new) self.old self.new }
    {
        a_list_has_its_runs();
        blocks.geom().lawful();
        if bytes.is_empty() {
            return Ok(());
        }
        let mut table = ZEROS;
        let Some(node) = load(self, blocks, number, &mut table)? else {
            return Ok(());
        };
        if node.size < offset + bytes.len() as u64 {
            return Ok(());
        }
        let class = class_of(node.kind);
        write_content(self, alloc, blocks, &node.places, class, offset, bytes)?;
        Ok(())
    }

    /// Node `number` keeps its first `size` bytes, fewer than it has; the blocks past them are to be freed.
    ///
    /// # Errors
    /// As `overwrite`.
    pub fn cut_to<S: Blocks>(
        &mut self,
        alloc: Global,
        blocks: &mut S,
        number: u32,
        size: u64,
    ) -> Result<(), FileRefusal>
        requires look { MayLook S.tells (S.state blocks.old) self.old number }
        requires used { IsTrue S.tells → IsUsed (files_in (S.state blocks.old) self.old) number }
        requires cuts { MayCut S.tells (S.state blocks.old) self.old number size }
        ensures { CutsFile S.tells number size result (S.state blocks.old) (S.state blocks.new) self.old self.new }
    {
        a_list_has_its_runs();
        blocks.geom().lawful();
        let mut table = ZEROS;
        let Some(mut node) = load(self, blocks, number, &mut table)? else {
            return Ok(());
        };
        if node.size <= size {
            return Ok(());
        }
        cut(self, alloc, blocks, number, &mut node, size, &mut table)?;
        Ok(())
    }
}
