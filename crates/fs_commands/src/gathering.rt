//! Gathering the blocks of nodes, by one pass over a node table: those of the tree's files and directories, and those of
//! the files that a snapshot keeps. What is done with them is described in `snapping`.

ghost use Rattle.std.specs.Prelude.{◌≡◌, ◌+◌, ◌++◌, ◌≤◌, IsTrue, IfOk, IfErr, OnOk, false, length};
ghost use Rattle.std.specs.List.{All};
ghost use Rattle.base_types.specs.Layouts.{node_size, nodes_in_block};
ghost use Rattle.layout_bytes.specs.Node.{node_of};
ghost use Rattle.crash_stands.specs.Places.{kept_table, table_blocks};
ghost use Rattle.crash_snapshots.specs.Places.{places_of_dir};
ghost use Rattle.engine_blocks.specs.Puts.{IsData};
ghost use Rattle.fs_files.specs.Calls.{LookRefused};
ghost use Rattle.fs_files.specs.Content.{fails_reading};
ghost use Rattle.fs_files.specs.Effects.{LooksOnly};
ghost use Rattle.fs_snapshots.specs.Known.{file_blocks, node_blocks};
ghost use Rattle.fs_snapshots.specs.Tables.{nodes_in};
ghost use Rattle.fs_commands.specs.Gathering.{files_in_table, live_dirs};
ghost use Rattle.fs_session.specs.Snapshots.{live_files};

use base_types::Block;
use engine_blocks::Blocks;
use fs_files::{FileRefusal, NodeBlocks, node_in, read_block_at};
use layout_bytes::NodeKind;
use layout_extent::a_list_has_its_runs;
use layout_geometry::Geom;
use std::alloc::Global;

/// The blocks of files and of directories, each in the order of the nodes' numbers.
#[derive(Drop)]
pub(crate) struct Gathered {
    pub(crate) files: Vec<u32>,
    pub(crate) dirs: Vec<u32>,
}

/// The blocks of the tree's files and directories.
///
/// # Errors
/// A read of the disk failed, which the disk has counted; or out of memory.
pub(crate) fn gather_live<S: Blocks>(alloc: Global, blocks: &mut S) -> Result<Gathered, FileRefusal>
    requires going { (S.state blocks.old).books.stopped ≡ false }
    ensures files { IsTrue S.tells → IfOk result (λ found. found.files.items ≡ live_files (S.state blocks.old).books.geom (S.state blocks.old).map) }
    ensures dirs { IsTrue S.tells → IfOk result (λ found. found.dirs.items ≡ live_dirs (S.state blocks.old).books.geom (S.state blocks.old).map) }
    ensures data { IfOk result (λ found. All (IsData (S.state blocks.old).books.geom) found.files.items) }
    ensures dirs_data { IfOk result (λ found. All (IsData (S.state blocks.old).books.geom) found.dirs.items) }
    ensures refused { IfErr result LookRefused }
    ensures looks { LooksOnly S.tells (fails_reading result) (S.state blocks.old) (S.state blocks.new) }
{
    let geom = blocks.geom();
    geom.lawful();
    let mut found = nothing_gathered(alloc);
    let mut table = [0; 1024];
    for slot in 0..geom.data_start() - geom.table_start() {
        blocks.get(geom.table_start() + slot, &mut table)?;
        gather_block(&mut found, &geom, &table)?;
    }
    Ok(found)
}

/// The blocks of the files that the snapshot with these blocks keeps, which has as many as its parts need. Of
/// directories there are the numbers that its nodes name, at which nothing is asked.
///
/// # Errors
/// As `gather_live`.
pub(crate) fn gather_kept<S: Blocks>(
    alloc: Global,
    blocks: &mut S,
    places: &NodeBlocks,
) -> Result<Gathered, FileRefusal>
    requires going { (S.state blocks.old).books.stopped ≡ false }
    requires blocks { All (IsData (S.state blocks.old).books.geom) places.now }
    ensures files { IsTrue S.tells → All (λ b. length ((S.state blocks.old).map b) ≡ 1024) places.now
        → 1 + table_blocks (S.state blocks.old).books.geom ≤ length places.now
        → IfOk result (λ found. found.files.items ≡ files_in_table (S.state blocks.old).books.geom
        (kept_table (S.state blocks.old).map places.now (S.state blocks.old).books.geom)) }
    ensures data { IfOk result (λ found. All (IsData (S.state blocks.old).books.geom) found.files.items) }
    ensures refused { IfErr result LookRefused }
    ensures looks { LooksOnly S.tells (fails_reading result) (S.state blocks.old) (S.state blocks.new) }
{
    let geom = blocks.geom();
    geom.lawful();
    let mut found = nothing_gathered(alloc);
    let mut table = [0; 1024];
    for slot in 0..geom.data_start() - geom.table_start() {
        read_block_at(blocks, places, 1 + slot, &mut table)?;
        gather_block(&mut found, &geom, &table)?;
    }
    Ok(found)
}

/// No blocks. This takes no memory.
fn nothing_gathered(alloc: Global) -> Gathered
    ensures files { length result.files.items ≡ 0 }
    ensures dirs { length result.dirs.items ≡ 0 }
{
    Gathered {
        files: Vec::new(alloc),
        dirs: Vec::new(alloc),
    }
}

/// The blocks of the nodes in one block of a node table come behind those that were gathered.
///
/// # Errors
/// Out of memory.
fn gather_block(found: &mut Gathered, geom: &Geom, table: &Block) -> Result<(), FileRefusal>
    ensures files { OnOk result (found.new.files.items ≡ found.old.files.items
        ++ node_blocks (λ r. file_blocks (nodes_in geom.now table.now r)) (nodes_in_block geom.now.layout)) }
    ensures dirs { OnOk result (found.new.dirs.items ≡ found.old.dirs.items
        ++ node_blocks (λ r. places_of_dir (nodes_in geom.now table.now r)) (nodes_in_block geom.now.layout)) }
    ensures data { OnOk result (All (IsData geom.now) found.old.files.items → All (IsData geom.now) found.new.files.items) }
    ensures dirs_data { OnOk result (All (IsData geom.now) found.old.dirs.items → All (IsData geom.now) found.new.dirs.items) }
    ensures refused { IfErr result LookRefused }
    ensures memory { fails_reading result ≡ false }
{
    let layout = geom.layout();
    for r in 0..layout.nodes_in_block() {
        let at = layout.rank_byte(r);
        let end = at + layout.node_length();
        gather_node(found, geom, &table[at..end])?;
    }
    Ok(())
}

/// The blocks of the node in these bytes, where it is a file or a directory.
///
/// # Errors
/// Out of memory.
fn gather_node(found: &mut Gathered, geom: &Geom, bytes: &[u8]) -> Result<(), FileRefusal>
    requires { length bytes.now ≡ node_size geom.now.layout }
    ensures files { OnOk result (found.new.files.items ≡ found.old.files.items ++ file_blocks (node_of geom.now bytes.now)) }
    ensures dirs { OnOk result (found.new.dirs.items ≡ found.old.dirs.items ++ places_of_dir (node_of geom.now bytes.now)) }
    ensures data { OnOk result (All (IsData geom.now) found.old.files.items → All (IsData geom.now) found.new.files.items) }
    ensures dirs_data { OnOk result (All (IsData geom.now) found.old.dirs.items → All (IsData geom.now) found.new.dirs.items) }
    ensures refused { IfErr result LookRefused }
    ensures memory { fails_reading result ≡ false }
{
    a_list_has_its_runs();
    let Some(node) = node_in(bytes, geom) else {
        return Ok(());
    };
    match node.facts.kind {
        NodeKind::Free => Ok(()),
        NodeKind::Dir => push_blocks(&mut found.dirs, &node.blocks),
        NodeKind::File => push_blocks(&mut found.files, &node.blocks),
        NodeKind::Snapshot => Ok(()),
    }
}

/// These blocks come behind the list.
///
/// # Errors
/// Out of memory.
fn push_blocks(list: &mut Vec<u32>, blocks: &NodeBlocks) -> Result<(), FileRefusal>
    ensures pushed { OnOk result (list.new.items ≡ list.old.items ++ blocks.now) }
    ensures refused { IfErr result LookRefused }
    ensures memory { fails_reading result ≡ false }
{
    for i in 0..blocks.count() {
        match list.push(blocks.place(i)) {
            Ok(()) => {}
            Err(_) => return Err(FileRefusal::NoMemory),
        }
    }
    Ok(())
}
