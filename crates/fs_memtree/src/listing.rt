//! The listing of a tree, written to a sink: a line for each path, the paths ascending. This takes no
//! memory. It neither buffers over pieces of a line nor tries again after a fault: what was taken by then
//! stays taken. How the line of a path reads is the definition `line_of`.

ghost use Rattle.std.specs.Prelude.{◌≡◌, ℕ, ◌≤◌, ◌∷◌, ◌++◌, length, take, codes, decimal, Some, OnErr, OnOk, option_map};
ghost use Rattle.std.specs.Io.KnownBytes.{Appends};
ghost use Rattle.hex.specs.Hex.{encode_lower};
ghost use Rattle.base_types.specs.Counts.{HasCause};
ghost use Rattle.lang_tree.specs.Tree.{Dir, File};
ghost use Rattle.lang_tree.specs.Listing.{slashed, path_text, digits_behind_blank, line_of, path_lines, snapshot_lines, listing};
ghost use Rattle.crash_stands.specs.Inodes.{thing_of};
ghost use Rattle.crash_stands.specs.Maps.{IsMapOf};
ghost use Rattle.crash_stands.specs.Walks.{LeadsTo};
ghost use Rattle.fs_inodes.specs.Listing.{lines_below};
ghost use Rattle.fs_memtree.specs.Kept.{map_of, tree_of, inode_of};
ghost use Rattle.fs_memtree.specs.Snapshots.{kept_by};
ghost use Rattle.fs_memtree.specs.Serving.{IsKept, whole_tree};
ghost use Rattle.fs_memtree.specs.Stored.{kept};
ghost use Rattle.fs_memtree.specs.Trails.{path_on};

use crate::node::Node;
use crate::nodes::Nodes;
use crate::snapshots::Snapshot;
use crate::state::State;
use base_io::{Sink, SinkFault, prefixes_join, push_all};
use base_types::Name;
use base_types::limits::ROOT;
use fs_inodes::a_listing_goes_down;
use itoa::Buffer;

/// How many bytes of a file are written as digits at a time.
const CHUNK: usize = 512;

impl State {
    /// Writes the listing of the tree with its snapshots.
    ///
    /// # Errors
    /// The first fault of the sink, which by then took a prefix of the listing and nothing else.
    pub(crate) fn write_listing<K: Sink>(&self, out: &mut K) -> Result<(), SinkFault>
        requires { IsKept self.now }
        ensures all { OnOk result (Appends (K.taken out.old) (K.taken out.new) (listing (whole_tree self.now))) }
        ensures front { OnErr result ((n : ℕ) × Appends (K.taken out.old) (K.taken out.new) (take n (listing (whole_tree self.now)))) }
        ensures cause { HasCause result (K.faults out.old) (K.faults out.new) }
    {
        prefixes_join();
        write_nodes(out, &self.nodes)?;
        for (name, snapshot) in self.kept.entries() {
            write_snapshot(out, name, snapshot)?;
        }
        Ok(())
    }
}

// Writes the lines of a tree's paths.
fn write_nodes<K: Sink>(out: &mut K, nodes: &Nodes) -> Result<(), SinkFault>
    requires { (limit : ℕ) × IsMapOf limit (map_of nodes.now) (tree_of nodes.now) }
    ensures all { OnOk result (Appends (K.taken out.old) (K.taken out.new) (path_lines (tree_of nodes.now).names (tree_of nodes.now).nodes)) }
    ensures front { OnErr result ((n : ℕ) × Appends (K.taken out.old) (K.taken out.new)
        (take n (path_lines (tree_of nodes.now).names (tree_of nodes.now).nodes))) }
    ensures cause { HasCause result (K.faults out.old) (K.faults out.new) }
{
    a_listing_goes_down();
    write_below(out, nodes, &Trail::Root, ROOT)?;
    Ok(())
}

// Writes the line of a snapshot and those of the tree that it keeps.
fn write_snapshot<K: Sink>(out: &mut K, name: &Name, snapshot: &Snapshot) -> Result<(), SinkFault>
    requires { (limit : ℕ) × IsMapOf limit (map_of snapshot.now.nodes) (tree_of snapshot.now.nodes) }
    ensures all { OnOk result (Appends (K.taken out.old) (K.taken out.new) (snapshot_lines name.now (kept_by snapshot.now))) }
    ensures front { OnErr result ((n : ℕ) × Appends (K.taken out.old) (K.taken out.new) (take n (snapshot_lines name.now (kept_by snapshot.now)))) }
    ensures cause { HasCause result (K.faults out.old) (K.faults out.new) }
{
    prefixes_join();
    write_title(out, name)?;
    write_nodes(out, &snapshot.nodes)?;
    Ok(())
}

fn write_title<K: Sink>(out: &mut K, name: &Name) -> Result<(), SinkFault>
    ensures all { OnOk result (Appends (K.taken out.old) (K.taken out.new) (codes "snap " ++ name.now ++ codes "\n")) }
    ensures front { OnErr result ((n : ℕ) × Appends (K.taken out.old) (K.taken out.new) (take n (codes "snap " ++ name.now ++ codes "\n"))) }
    ensures cause { HasCause result (K.faults out.old) (K.faults out.new) }
{
    prefixes_join();
    push_all(out, b"snap ")?;
    push_all(out, name.as_bytes())?;
    push_all(out, b"\n")?;
    Ok(())
}

/// The names from the root down to a path, each behind the ones before it.
#[derive(Drop)]
enum Trail<'a> {
    Root,
    Below(&'a Trail<'a>, &'a Name),
}

// Writes the lines at and below the path, where the number is.
fn write_below<'x, K: Sink>(
    out: &mut K,
    nodes: &'x Nodes,
    path: &'x Trail<'x>,
    number: u32,
) -> Result<(), SinkFault>
    requires map { (limit : ℕ) × IsMapOf limit (map_of nodes.now) (tree_of nodes.now) }
    requires leads { LeadsTo (map_of nodes.now) (path_on path.now) number }
    ensures all { OnOk result (Appends (K.taken out.old) (K.taken out.new) (lines_below (tree_of nodes.now) (path_on path.now))) }
    ensures front { OnErr result ((n : ℕ) × Appends (K.taken out.old) (K.taken out.new) (take n (lines_below (tree_of nodes.now) (path_on path.now)))) }
    ensures cause { HasCause result (K.faults out.old) (K.faults out.new) }
{
    prefixes_join();
    a_listing_goes_down();
    let node = nodes.at(number);
    write_line(out, path, number, node)?;
    match node {
        None => Ok(()),
        Some(Node::File(_, _)) => Ok(()),
        Some(Node::Dir(names)) => {
            for (name, below) in names.entries() {
                write_below(out, nodes, &Trail::Below(path, name), *below)?;
            }
            Ok(())
        }
    }
}

// Writes the line of a path, and nothing where no node has its number.
fn write_line<K: Sink>(
    out: &mut K,
    path: &Trail<'_>,
    number: u32,
    node: Option<&Node>,
) -> Result<(), SinkFault>
    ensures all { OnOk result (Appends (K.taken out.old) (K.taken out.new)
        (line_of (path_on path.now) number (option_map (λ node. thing_of (inode_of (kept node.now))) node.entry))) }
    ensures front { OnErr result ((n : ℕ) × Appends (K.taken out.old) (K.taken out.new)
        (take n (line_of (path_on path.now) number (option_map (λ node. thing_of (inode_of (kept node.now))) node.entry)))) }
    ensures cause { HasCause result (K.faults out.old) (K.faults out.new) }
{
    match node {
        None => {}
        Some(Node::Dir(_)) => write_dir(out, path, number)?,
        Some(Node::File(_, bytes)) => write_file(out, path, number, bytes.as_slice())?,
    }
    Ok(())
}

fn write_dir<K: Sink>(out: &mut K, path: &Trail<'_>, number: u32) -> Result<(), SinkFault>
    ensures all { OnOk result (Appends (K.taken out.old) (K.taken out.new) (line_of (path_on path.now) number (Some Dir))) }
    ensures front { OnErr result ((n : ℕ) × Appends (K.taken out.old) (K.taken out.new) (take n (line_of (path_on path.now) number (Some Dir)))) }
    ensures cause { HasCause result (K.faults out.old) (K.faults out.new) }
{
    prefixes_join();
    write_head(out, b"dir ", path, number)?;
    push_all(out, b"\n")?;
    Ok(())
}

fn write_file<K: Sink>(
    out: &mut K,
    path: &Trail<'_>,
    number: u32,
    bytes: &[u8],
) -> Result<(), SinkFault>
    ensures all { OnOk result (Appends (K.taken out.old) (K.taken out.new) (line_of (path_on path.now) number (Some (File bytes.now)))) }
    ensures front { OnErr result ((n : ℕ) × Appends (K.taken out.old) (K.taken out.new) (take n (line_of (path_on path.now) number (Some (File bytes.now))))) }
    ensures cause { HasCause result (K.faults out.old) (K.faults out.new) }
{
    prefixes_join();
    write_head(out, b"file ", path, number)?;
    push_all(out, b" ")?;
    write_number(out, bytes.len() as u64)?;
    write_digits(out, bytes)?;
    push_all(out, b"\n")?;
    Ok(())
}

// Writes the kind of a line with its blank, the path and the number.
fn write_head<K: Sink>(
    out: &mut K,
    kind: &[u8],
    path: &Trail<'_>,
    number: u32,
) -> Result<(), SinkFault>
    ensures all { OnOk result (Appends (K.taken out.old) (K.taken out.new) (kind.now ++ path_text (path_on path.now) ++ codes " " ++ decimal number)) }
    ensures front { OnErr result ((n : ℕ) × Appends (K.taken out.old) (K.taken out.new)
        (take n (kind.now ++ path_text (path_on path.now) ++ codes " " ++ decimal number))) }
    ensures cause { HasCause result (K.faults out.old) (K.faults out.new) }
{
    prefixes_join();
    push_all(out, kind)?;
    write_path(out, path)?;
    push_all(out, b" ")?;
    write_number(out, u64::from(number))?;
    Ok(())
}

fn write_number<K: Sink>(out: &mut K, number: u64) -> Result<(), SinkFault>
    ensures all { OnOk result (Appends (K.taken out.old) (K.taken out.new) (decimal number)) }
    ensures front { OnErr result ((n : ℕ) × Appends (K.taken out.old) (K.taken out.new) (take n (decimal number))) }
    ensures cause { HasCause result (K.faults out.old) (K.faults out.new) }
{
    push_all(out, Buffer::new().format(number).as_bytes())?;
    Ok(())
}

fn write_path<K: Sink>(out: &mut K, path: &Trail<'_>) -> Result<(), SinkFault>
    ensures all { OnOk result (Appends (K.taken out.old) (K.taken out.new) (path_text (path_on path.now))) }
    ensures front { OnErr result ((n : ℕ) × Appends (K.taken out.old) (K.taken out.new) (take n (path_text (path_on path.now)))) }
    ensures cause { HasCause result (K.faults out.old) (K.faults out.new) }
{
    match path {
        Trail::Root => push_all(out, b"/"),
        Trail::Below(_, _) => write_names(out, path),
    }
}

// Writes a slash and the name for each name from the root down.
fn write_names<K: Sink>(out: &mut K, path: &Trail<'_>) -> Result<(), SinkFault>
    ensures all { OnOk result (Appends (K.taken out.old) (K.taken out.new) (slashed (path_on path.now))) }
    ensures front { OnErr result ((n : ℕ) × Appends (K.taken out.old) (K.taken out.new) (take n (slashed (path_on path.now)))) }
    ensures cause { HasCause result (K.faults out.old) (K.faults out.new) }
{
    prefixes_join();
    match path {
        Trail::Root => {}
        Trail::Below(up, name) => {
            write_names(out, up)?;
            write_name(out, name)?;
        }
    }
    Ok(())
}

fn write_name<K: Sink>(out: &mut K, name: &Name) -> Result<(), SinkFault>
    ensures all { OnOk result (Appends (K.taken out.old) (K.taken out.new) (47 ∷ name.now)) }
    ensures front { OnErr result ((n : ℕ) × Appends (K.taken out.old) (K.taken out.new) (take n (47 ∷ name.now))) }
    ensures cause { HasCause result (K.faults out.old) (K.faults out.new) }
{
    prefixes_join();
    push_all(out, b"/")?;
    push_all(out, name.as_bytes())?;
    Ok(())
}

// Writes a blank and the digits of the bytes, and nothing where there are none.
fn write_digits<K: Sink>(out: &mut K, bytes: &[u8]) -> Result<(), SinkFault>
    ensures all { OnOk result (Appends (K.taken out.old) (K.taken out.new) (digits_behind_blank bytes.now)) }
    ensures front { OnErr result ((n : ℕ) × Appends (K.taken out.old) (K.taken out.new) (take n (digits_behind_blank bytes.now))) }
    ensures cause { HasCause result (K.faults out.old) (K.faults out.new) }
{
    if bytes.is_empty() {
        return Ok(());
    }
    prefixes_join();
    push_all(out, b" ")?;
    for chunk in bytes.chunks(CHUNK) {
        write_chunk(out, chunk)?;
    }
    Ok(())
}

// Writes the digits of a few bytes.
fn write_chunk<K: Sink>(out: &mut K, bytes: &[u8]) -> Result<(), SinkFault>
    requires { length bytes.now ≤ 512 }
    ensures all { OnOk result (Appends (K.taken out.old) (K.taken out.new) (encode_lower bytes.now)) }
    ensures front { OnErr result ((n : ℕ) × Appends (K.taken out.old) (K.taken out.new) (take n (encode_lower bytes.now))) }
    ensures cause { HasCause result (K.faults out.old) (K.faults out.new) }
{
    let mut digits = [0u8; 2 * CHUNK];
    let room = &mut digits[..2 * bytes.len()];
    hex::encode_to_slice(bytes, room).unwrap();
    push_all(out, room)?;
    Ok(())
}
