//! The lines of the tree that stands in a map of blocks, written to a sink. The walk goes down from the
//! root, directory by directory, and keeps the names of those that it is in, and of no others. A file is
//! read and written in pieces. How the lines read is described elsewhere.

ghost use Rattle.std.specs.Prelude.{◌≡◌, ◌≢◌, ◌≤◌, ◌<◌, ◌↔◌, ◌+◌, ◌^◌, ◌++◌, ℕ, IsTrue, true, false, List, [], length, drop, Some, IfErr, IfSome, IfNone};
ghost use Rattle.std.specs.Prelude.{OnOk, OnErr};
ghost use Rattle.std.specs.Io.KnownBytes.{Appends};
ghost use Rattle.base_io.specs.Prefix.{TakesPrefix};
ghost use Rattle.layout_bytes.specs.declared.slot.Slot.{Slot as SlotValue};
ghost use Rattle.lang_tree.specs.Tree.{Tree, File};
ghost use Rattle.lang_tree.specs.Listing.{digits_behind_blank, line_of, path_lines};
ghost use Rattle.lang_tree.specs.Paths.{parent};
ghost use Rattle.lang_tree.specs.Step.{Session};
ghost use Rattle.crash_stands.specs.Files.{FileNode};
ghost use Rattle.crash_stands.specs.Inodes.{Inodes, ADir};
ghost use Rattle.crash_stands.specs.Walks.{LeadsTo};
ghost use Rattle.fs_inodes.specs.Names.{names_of};
ghost use Rattle.fs_inodes.specs.Listing.{at_and_below};
ghost use Rattle.fs_files.specs.Asks.{MayRead};
ghost use Rattle.fs_files.specs.Effects.{LooksOnly};
ghost use Rattle.fs_dirs.specs.Directories.{IsNumber};
ghost use Rattle.fs_commands.specs.Listing.{ended_by_read, ended_by_push, ended_by_stop, CountsPushes, Lists, MayList, MayReadNode, IsMapIn, IsFrame};
ghost use Rattle.fs_commands.specs.Listing.{AreFrames, IsWalk, HasWritten, Enters, TakesEntry, HaveNumbers, lines_of, under_frame, to_come, turns_of};
ghost use Rattle.fs_commands.specs.Listing.{turns_left};
ghost use Rattle.fs_session.specs.Sessions.{IsSession};

use crate::begins::a_draft_may_begin;
use crate::lines::{write_digits, write_dir, write_file_head};
use crate::look::is_dir;
use base_io::{Sink, SinkFault, prefixes_join, push_all};
use base_types::{Name, NoMemory, ReadFault};
use crash_stands::{a_map_is_of_one_tree, slots_name_nodes_in_use};
use engine_blocks::Blocks;
use fs_dirs::entries;
use fs_files::{Draft, FileRefusal, Nodes, Shared};
use fs_inodes::{a_listing_goes_down, the_map_gives_the_names, walks_are_the_same};
use fs_session::blocks_have_the_map_of_their_tree;
use lang_tree::paths_are_counted;
use layout_bytes::Slot;
use std::alloc::{AllocFailed, Global};
use std::error::Error;
use std::fmt;

/// The number of the root.
const ROOT: u32 = 1;

/// How many bytes of a file are read and written at a time.
const PIECE: u64 = 65536;

/// Why a listing was refused.
#[derive(Clone, Copy, Debug)]
pub enum ListRefusal {
    /// A write, a poll or a wait of the disk failed before, and nothing is read any more.
    Stopped,
    /// A read of the disk failed, which the disk has counted.
    ReadFault,
    /// The sink failed, which it has counted.
    SinkFault,
    /// Out of memory.
    NoMemory,
}

impl fmt::Display for ListRefusal {
    fn fmt<W: fmt::Write>(&self, f: &mut fmt::Formatter<W>) -> fmt::Result {
        match self {
            ListRefusal::Stopped => write!(f, "a call of the disk failed before"),
            ListRefusal::ReadFault => write!(f, "a block could not be read"),
            ListRefusal::SinkFault => write!(f, "the output failed"),
            ListRefusal::NoMemory => write!(f, "out of memory"),
        }
    }
}

impl Error for ListRefusal {}

impl From<NoMemory> for ListRefusal {
    ghost use Rattle.std.specs.Prelude.{◌≡◌};
    ghost use Rattle.fs_commands.specs.declared.listing.ListRefusal.TheVariants.{NoMemory as OutOfMemory};

    ghost from_gives = { λ _ refusal. refusal ≡ OutOfMemory };

    fn from(_: NoMemory) -> ListRefusal {
        ListRefusal::NoMemory
    }
}

impl<T: Drop> From<AllocFailed<T>> for ListRefusal {
    ghost use Rattle.std.specs.Prelude.{◌≡◌};
    ghost use Rattle.fs_commands.specs.declared.listing.ListRefusal.TheVariants.{NoMemory as OutOfMemory};

    ghost from_gives = { λ _ refusal. refusal ≡ OutOfMemory };

    fn from(_: AllocFailed<T>) -> ListRefusal {
        ListRefusal::NoMemory
    }
}

impl From<ReadFault> for ListRefusal {
    ghost use Rattle.std.specs.Prelude.{◌≡◌};
    ghost use Rattle.fs_commands.specs.declared.listing.ListRefusal.TheVariants.{ReadFault as Unread};

    ghost from_gives = { λ _ refusal. refusal ≡ Unread };

    fn from(_: ReadFault) -> ListRefusal {
        ListRefusal::ReadFault
    }
}

impl From<SinkFault> for ListRefusal {
    ghost use Rattle.std.specs.Prelude.{◌≡◌};
    ghost use Rattle.fs_commands.specs.declared.listing.ListRefusal.TheVariants.{SinkFault as Unwritten};

    ghost from_gives = { λ _ refusal. refusal ≡ Unwritten };

    fn from(_: SinkFault) -> ListRefusal {
        ListRefusal::SinkFault
    }
}

/// A call on a file that only looks is refused by a read or out of memory alone.
impl From<FileRefusal> for ListRefusal {
    ghost use Rattle.std.specs.Prelude.{◌≡◌};
    ghost use Rattle.fs_commands.specs.Listing.{list_refusal_of};

    ghost from_gives = { λ why refusal. refusal ≡ list_refusal_of why };

    fn from(why: FileRefusal) -> ListRefusal {
        match why {
            FileRefusal::ReadFault => ListRefusal::ReadFault,
            FileRefusal::Short { .. } => ListRefusal::NoMemory,
            FileRefusal::Scattered { .. } => ListRefusal::NoMemory,
            FileRefusal::DiskFault => ListRefusal::NoMemory,
            FileRefusal::NoMemory => ListRefusal::NoMemory,
        }
    }
}

/// A directory that the walk is in.
#[derive(Drop)]
struct Frame {
    dir: u32,
    /// Its entries, ascending by their names.
    entries: Vec<Slot>,
    /// The place of the first entry that is still to come.
    next: usize,
}

/// A walk that goes down from the root, in the order of paths.
#[derive(Drop)]
struct Walk {
    /// The names that lead to the deepest directory, and while a line is written, to its node.
    path: Vec<Name>,
    /// The directories that the walk is in, from the root on.
    frames: Vec<Frame>,
    /// How many directories it may still enter.
    left: u32,
}

/// Writes the lines of the tree that stands in these blocks, and none of its snapshots. It takes memory for the names of the
/// directories on one path, four bytes more for each, and for a piece of a file. A directory's names are read
/// once, each with the number of its node.
///
/// Where no tree stands, a directory may lead back to one above it. As many directories are entered as there
/// are nodes; of any more the line alone is written.
///
/// # Errors
/// The disk failed before in another call than a read, and then nothing is read or written; a read of the
/// disk failed, which the disk has counted; a push of the sink failed, which the sink has counted; or out of
/// memory. By then the sink took a prefix of the lines and nothing else.
pub(crate) fn listing<S: Blocks, K: Sink>(
    alloc: Global,
    blocks: &mut S,
    out: &mut K,
    shared: &Shared,
) -> Result<(), ListRefusal>
    requires may_list { MayList S.tells (S.state blocks.old) shared.now }
    ensures all { IsTrue S.tells → OnOk result ((f : Session) → IsSession (S.state blocks.old) f
        → Appends (K.taken out.old) (K.taken out.new) (path_lines f.tree.names f.tree.nodes)) }
    ensures front { IsTrue S.tells → OnErr result ((f : Session) → IsSession (S.state blocks.old) f
        → TakesPrefix (K.taken out.old) (K.taken out.new) (path_lines f.tree.names f.tree.nodes)) }
    ensures stopped { ended_by_stop result ≡ (S.state blocks.old).books.stopped }
    ensures nothing { (S.state blocks.old).books.stopped ≡ true → (blocks.new ≡ blocks.old) × (out.new ≡ out.old) }
    ensures looks { LooksOnly S.tells (ended_by_read result) (S.state blocks.old) (S.state blocks.new) }
    ensures pushes { CountsPushes (ended_by_push result) (K.faults out.old) (K.faults out.new) }
{
    a_draft_may_begin(blocks);
    blocks_have_the_map_of_their_tree();
    if blocks.figures().stopped {
        return Err(ListRefusal::Stopped);
    }
    let draft = Draft::beside(alloc, shared);
    list_from_root(&draft, alloc, blocks, out)?;
    Ok(())
}

/// Writes the lines of the tree whose map the inodes of the files that are read are.
///
/// # Errors
/// As `listing`, but for the first one.
pub(crate) fn list_from_root<N: Nodes, S: Blocks, K: Sink>(
    files: &N,
    alloc: Global,
    blocks: &mut S,
    out: &mut K,
) -> Result<(), ListRefusal>
    requires read { MayRead (N.may_read S.tells (S.state blocks.old) files.now) (S.state blocks.old) }
    ensures all { IsTrue S.tells → OnOk result ((m : Inodes) (t : Tree) → IsMapIn (S.state blocks.old) (N.nodes (S.state blocks.old) files.now) m t
        → Appends (K.taken out.old) (K.taken out.new) (path_lines t.names t.nodes)) }
    ensures front { IsTrue S.tells → OnErr result ((m : Inodes) (t : Tree) → IsMapIn (S.state blocks.old) (N.nodes (S.state blocks.old) files.now) m t
        → TakesPrefix (K.taken out.old) (K.taken out.new) (path_lines t.names t.nodes)) }
    ensures lists { Lists S.tells result (S.state blocks.old) (S.state blocks.new) (K.faults out.old) (K.faults out.new) }
{
    files.laws(blocks);
    a_listing_goes_down();
    a_map_is_of_one_tree();
    paths_are_counted();
    prefixes_join();
    let geom = blocks.geom();
    geom.lawful();
    let mut walk = Walk {
        path: Vec::new(alloc),
        frames: Vec::new(alloc),
        left: geom.i(),
    };
    show(files, alloc, blocks, out, &mut walk, ROOT)?;
    while let Some(frame) = walk.frames.pop() {
        turn(files, alloc, blocks, out, &mut walk, frame)?;
    }
    Ok(())
}

/// Takes the deepest directory's next name and shows what is under it, or leaves the directory where no name
/// is to come. The directory was taken off the walk for this.
///
/// # Errors
/// As `list_from_root`. The walk isn't to be used any more then.
fn turn<N: Nodes, S: Blocks, K: Sink>(
    files: &N,
    alloc: Global,
    blocks: &mut S,
    out: &mut K,
    walk: &mut Walk,
    mut frame: Frame,
) -> Result<(), ListRefusal>
    requires read { MayRead (N.may_read S.tells (S.state blocks.old) files.now) (S.state blocks.old) }
    requires numbers { HaveNumbers (S.state blocks.old).books.geom.i walk.old.frames.items }
    requires number { IsNumber (S.state blocks.old).books.geom.i frame.dir }
    ensures writes { IsTrue S.tells → OnOk result ((m : Inodes) (t : Tree) → IsMapIn (S.state blocks.old) (N.nodes (S.state blocks.old) files.now) m t
        → IsFrame m walk.old.path.items (length walk.old.frames.items) frame
        → IsWalk m t (under_frame t walk.old frame) walk.old
        → HasWritten m t (under_frame t walk.old frame ++ to_come t walk.old) walk.new (K.taken out.old) (K.taken out.new)) }
    ensures front { IsTrue S.tells → OnErr result ((m : Inodes) (t : Tree) → IsMapIn (S.state blocks.old) (N.nodes (S.state blocks.old) files.now) m t
        → IsFrame m walk.old.path.items (length walk.old.frames.items) frame
        → IsWalk m t (under_frame t walk.old frame) walk.old
        → TakesPrefix (K.taken out.old) (K.taken out.new) (lines_of t (under_frame t walk.old frame ++ to_come t walk.old))) }
    ensures numbers { OnOk result (HaveNumbers (S.state blocks.old).books.geom.i walk.new.frames.items) }
    ensures turns { OnOk result (turns_left walk.new < turns_left walk.old + turns_of frame) }
    ensures lists { Lists S.tells result (S.state blocks.old) (S.state blocks.new) (K.faults out.old) (K.faults out.new) }
{
    walks_are_the_same();
    slots_name_nodes_in_use();
    let Some(entry) = next_entry(&mut frame) else {
        leave(&mut walk.path);
        return Ok(());
    };
    walk.frames.push(frame)?;
    if !is_in_table(entry.node, blocks.geom().i()) {
        return Ok(());
    }
    walk.path.push(entry.name)?;
    show(files, alloc, blocks, out, walk, entry.node)?;
    Ok(())
}

/// Takes the first of the entries that the directory has still to come. `None` where it has none.
fn next_entry(frame: &mut Frame) -> Option<Slot>
    ensures some { IfSome result (λ entry. TakesEntry frame.old frame.new entry) }
    ensures none { IfNone result (drop frame.old.next frame.old.entries.items ≡ []) }
{
    if frame.entries.len() <= frame.next {
        return None;
    }
    let entry = &frame.entries[frame.next];
    let taken = Slot {
        node: entry.node,
        name: entry.name.copy(),
    };
    frame.next += 1;
    Some(taken)
}

/// Whether a number is one of a table of so many. In a directory of a tree no entry names another.
pub(crate) fn is_in_table(number: u32, limit: u32) -> bool
    ensures { result ≡ true ↔ IsNumber limit number }
{
    1 <= number && number <= limit
}

/// Takes a path's last name off it.
fn leave(path: &mut Vec<Name>)
    ensures { path.new.items ≡ parent path.old.items }
{
    path.pop();
}

/// Writes the line of node `number` at the walk's path, and enters it where it is a directory.
///
/// # Errors
/// As `turn`.
fn show<N: Nodes, S: Blocks, K: Sink>(
    files: &N,
    alloc: Global,
    blocks: &mut S,
    out: &mut K,
    walk: &mut Walk,
    number: u32,
) -> Result<(), ListRefusal>
    requires read { MayRead (N.may_read S.tells (S.state blocks.old) files.now) (S.state blocks.old) }
    requires numbers { HaveNumbers (S.state blocks.old).books.geom.i walk.old.frames.items }
    requires number { IsNumber (S.state blocks.old).books.geom.i number }
    ensures writes { IsTrue S.tells → OnOk result ((m : Inodes) (t : Tree) → IsMapIn (S.state blocks.old) (N.nodes (S.state blocks.old) files.now) m t
        → LeadsTo m walk.old.path.items number → IsWalk m t (at_and_below t walk.old.path.items) walk.old
        → HasWritten m t (at_and_below t walk.old.path.items ++ to_come t walk.old) walk.new (K.taken out.old) (K.taken out.new)) }
    ensures front { IsTrue S.tells → OnErr result ((m : Inodes) (t : Tree) → IsMapIn (S.state blocks.old) (N.nodes (S.state blocks.old) files.now) m t
        → LeadsTo m walk.old.path.items number → IsWalk m t (at_and_below t walk.old.path.items) walk.old
        → TakesPrefix (K.taken out.old) (K.taken out.new) (lines_of t (at_and_below t walk.old.path.items ++ to_come t walk.old))) }
    ensures numbers { OnOk result (HaveNumbers (S.state blocks.old).books.geom.i walk.new.frames.items) }
    ensures turns { OnOk result (turns_left walk.new ≤ turns_left walk.old) }
    ensures lists { Lists S.tells result (S.state blocks.old) (S.state blocks.new) (K.faults out.old) (K.faults out.new) }
{
    files.laws(blocks);
    a_listing_goes_down();
    prefixes_join();
    let Some(facts) = files.look(blocks, number)? else {
        leave(&mut walk.path);
        return Ok(());
    };
    if is_dir(facts.kind) {
        write_dir(out, walk.path.as_slice(), number)?;
        enter(files, alloc, blocks, walk, number)?;
        return Ok(());
    }
    let path = walk.path.as_slice();
    write_file(files, alloc, blocks, out, path, number, facts.size)?;
    leave(&mut walk.path);
    Ok(())
}

/// Goes into the directory at the walk's path, unless no more may be entered.
///
/// # Errors
/// A read of the disk failed, which the disk has counted; or out of memory. The walk isn't to be used any
/// more then.
fn enter<N: Nodes, S: Blocks>(
    files: &N,
    alloc: Global,
    blocks: &mut S,
    walk: &mut Walk,
    number: u32,
) -> Result<(), ListRefusal>
    requires read { MayRead (N.may_read S.tells (S.state blocks.old) files.now) (S.state blocks.old) }
    requires numbers { HaveNumbers (S.state blocks.old).books.geom.i walk.old.frames.items }
    requires number { IsNumber (S.state blocks.old).books.geom.i number }
    ensures enters { IsTrue S.tells → OnOk result ((m : Inodes) (t : Tree) (slots : List SlotValue)
        → IsMapIn (S.state blocks.old) (N.nodes (S.state blocks.old) files.now) m t → LeadsTo m walk.old.path.items number
        → m number ≡ Some (ADir slots) → 0 < walk.old.left → AreFrames m walk.old.path.items 0 walk.old.frames.items
        → length walk.old.path.items ≡ length walk.old.frames.items
        → Enters m t (names_of slots) walk.old walk.new) }
    ensures numbers { OnOk result (HaveNumbers (S.state blocks.old).books.geom.i walk.new.frames.items) }
    ensures turns { OnOk result (turns_left walk.new ≤ turns_left walk.old) }
    ensures looks { LooksOnly S.tells (ended_by_read result) (S.state blocks.old) (S.state blocks.new) }
    ensures writes_nothing { ended_by_push result ≡ false }
    ensures going { ended_by_stop result ≡ false }
{
    the_map_gives_the_names();
    if walk.left == 0 {
        leave(&mut walk.path);
        return Ok(());
    }
    let entries = entries(files, alloc, blocks, number)?;
    walk.frames.push(entered(number, entries))?;
    walk.left -= 1;
    Ok(())
}

/// A directory that was just entered, with these entries.
fn entered(dir: u32, entries: Vec<Slot>) -> Frame
    ensures value { result ≡ record { dir = dir; entries = entries; next = 0 } }
    ensures turns { turns_of result ≤ 2 ^ 64 }
{
    // A list in memory has fewer than 2^64 entries.
    let _count = entries.len();
    Frame {
        dir,
        entries,
        next: 0,
    }
}

/// Writes the line of file `number`, which has so many bytes.
///
/// # Errors
/// As `turn`.
fn write_file<N: Nodes, S: Blocks, K: Sink>(
    files: &N,
    alloc: Global,
    blocks: &mut S,
    out: &mut K,
    path: &[Name],
    number: u32,
    size: u64,
) -> Result<(), ListRefusal>
    requires read { MayReadNode S.tells (N.may_read S.tells (S.state blocks.old) files.now) (S.state blocks.old)
        (N.nodes (S.state blocks.old) files.now).files number }
    ensures all { IsTrue S.tells → OnOk result ((x : FileNode) → (N.nodes (S.state blocks.old) files.now).files number ≡ Some x → size ≡ length x.bytes
        → Appends (K.taken out.old) (K.taken out.new) (line_of path.now number (Some (File x.bytes)))) }
    ensures front { IsTrue S.tells → OnErr result ((x : FileNode) → (N.nodes (S.state blocks.old) files.now).files number ≡ Some x → size ≡ length x.bytes
        → TakesPrefix (K.taken out.old) (K.taken out.new) (line_of path.now number (Some (File x.bytes)))) }
    ensures lists { Lists S.tells result (S.state blocks.old) (S.state blocks.new) (K.faults out.old) (K.faults out.new) }
{
    prefixes_join();
    write_file_head(out, path, number, size)?;
    write_content(files, alloc, blocks, out, number, size)?;
    push_all(out, b"\n")?;
    Ok(())
}

/// Writes a blank and the digits of all bytes of file `number`, which has so many, and nothing where it has
/// none.
///
/// # Errors
/// As `turn`.
fn write_content<N: Nodes, S: Blocks, K: Sink>(
    files: &N,
    alloc: Global,
    blocks: &mut S,
    out: &mut K,
    number: u32,
    size: u64,
) -> Result<(), ListRefusal>
    requires read { MayReadNode S.tells (N.may_read S.tells (S.state blocks.old) files.now) (S.state blocks.old)
        (N.nodes (S.state blocks.old) files.now).files number }
    ensures all { IsTrue S.tells → OnOk result ((x : FileNode) → (N.nodes (S.state blocks.old) files.now).files number ≡ Some x → size ≡ length x.bytes
        → Appends (K.taken out.old) (K.taken out.new) (digits_behind_blank x.bytes)) }
    ensures front { IsTrue S.tells → OnErr result ((x : FileNode) → (N.nodes (S.state blocks.old) files.now).files number ≡ Some x → size ≡ length x.bytes
        → TakesPrefix (K.taken out.old) (K.taken out.new) (digits_behind_blank x.bytes)) }
    ensures lists { Lists S.tells result (S.state blocks.old) (S.state blocks.new) (K.faults out.old) (K.faults out.new) }
{
    files.laws(blocks);
    if size == 0 {
        return Ok(());
    }
    prefixes_join();
    push_all(out, b" ")?;
    let mut at = 0;
    while at < size {
        let count = (size - at).min(PIECE);
        let bytes = files.read_at(alloc, blocks, number, at, count as u32)?;
        write_digits(out, bytes.as_slice())?;
        at += count;
    }
    Ok(())
}
