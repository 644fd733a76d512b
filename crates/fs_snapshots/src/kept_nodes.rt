//! The type `KeptNodes`: the nodes that a snapshot keeps, found by one look each at the snapshot's node table. How
//! they are read is described in `reading`.

ghost use Rattle.std.specs.Prelude.{◌≡◌, ◌≤◌, ◌<◌, ◌+◌, false, IsTrue, IfOk, IfErr, length, min, get_or, take, drop};
ghost use Rattle.std.specs.List.{All};
ghost use Rattle.base_types.specs.Layouts.{nodes_in_block};
ghost use Rattle.engine_blocks.specs.Puts.{IsData};
ghost use Rattle.crash_stands.specs.Places.{dirs_from, table_blocks};
ghost use Rattle.fs_files.specs.Effects.{LooksOnly};
ghost use Rattle.fs_snapshots.specs.Kept.{HasItsParts, IsGoneThrough};
ghost use Rattle.fs_snapshots.specs.Refused.{fails_reading};
ghost use Rattle.fs_snapshots.specs.Tables.{nodes_in};
ghost use Rattle.fs_snapshots.specs.declared.refusal.SnapshotRefusal.TheVariants.{WrongSize};

use crate::refusal::SnapshotRefusal;
use crate::tables::dirs_in;
use base_types::Block;
use engine_blocks::Blocks;
use fs_files::{NodeBlocks, read_block_at};
use layout_geometry::Geom;
use std::alloc::Global;
use std::marker::Model;

/// The nodes that a snapshot keeps: where its blocks are, and how many blocks the directories have before each block
/// of its node table.
#[derive(Drop)]
pub struct KeptNodes {
    pub(crate) places: NodeBlocks,
    pub(crate) before: Vec<u32>,
}

impl Model for KeptNodes {
    ghost use Rattle.fs_snapshots.specs.Kept.{KeptState};

    ghost Value = { KeptState };

    ghost view = { λ k. record { places = k.places; before = k.before.items } };
}

impl KeptNodes {
    /// The nodes that the snapshot with these blocks keeps. Its node table is gone through once, and four bytes of
    /// memory are taken for each block of it.
    ///
    /// # Errors
    /// The snapshot hasn't as many blocks as its parts need; a read of the disk failed, which the disk has counted;
    /// or out of memory.
    pub fn read<S: Blocks>(
        alloc: Global,
        blocks: &mut S,
        places: NodeBlocks,
    ) -> Result<KeptNodes, SnapshotRefusal>
        requires going { (S.state blocks.old).books.stopped ≡ false }
        requires data { All (IsData (S.state blocks.old).books.geom) places }
        requires whole { IsTrue S.tells → All (λ b. length ((S.state blocks.old).map b) ≡ 1024) places }
        ensures places { IfOk result (λ kept. kept.places ≡ places) }
        ensures gone { IfOk result (λ kept. IsGoneThrough S.tells (S.state blocks.old) kept) }
        ensures parts { IsTrue S.tells → IfOk result (λ kept. HasItsParts (S.state blocks.old).books.geom (S.state blocks.old).map places) }
        ensures wrong { IsTrue S.tells → IfErr result
            (λ why. why ≡ WrongSize → HasItsParts (S.state blocks.old).books.geom (S.state blocks.old).map places → ⊥) }
        ensures looks { LooksOnly S.tells (fails_reading result) (S.state blocks.old) (S.state blocks.new) }
    {
        let geom = blocks.geom();
        geom.lawful();
        let count = geom.data_start() - geom.table_start();
        let Some(room) = places.count().checked_sub(1 + count) else {
            return Err(SnapshotRefusal::WrongSize);
        };
        let nodes = geom.layout().nodes_in_block();
        let mut before = Vec::with_capacity(alloc, count as usize)?;
        let mut table = [0; 1024];
        let mut total = 0;
        for slot in 0..count {
            read_block_at(blocks, &places, 1 + slot, &mut table)?;
            before.push_reserved(total);
            total += dirs_in(&table, &geom, nodes);
            if total > room {
                return Err(SnapshotRefusal::WrongSize);
            }
        }
        if total != room {
            return Err(SnapshotRefusal::WrongSize);
        }
        Ok(KeptNodes { places, before })
    }

    /// The blocks of a kept directory that has `size` of them: the node behind the first `count` in block `slot` of
    /// the snapshot's node table, which has these bytes.
    pub(crate) fn directory_places(
        &self,
        geom: &Geom,
        slot: u32,
        table: &Block,
        count: u32,
        size: u32,
    ) -> NodeBlocks
        requires few { count ≤ nodes_in_block geom.now.layout }
        requires slot { slot < length self.now.before }
        ensures { result ≡ take size
            (drop (min (get_or self.now.before slot 0
            + (1 + table_blocks geom.now + dirs_from geom.now.layout (nodes_in geom.now table.now) 1 count)) 4294967295)
            self.now.places) }
    {
        geom.lawful();
        let table_blocks = geom.data_start() - geom.table_start();
        let behind = 1 + table_blocks + dirs_in(table, geom, count);
        let first = self.before[slot as usize].saturating_add(behind);
        self.places.part(first, size)
    }
}
