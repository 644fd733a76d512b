//! What is to be made of a tree: each path but the root, in the order in which they come to be, with what is there. From it
//! the commands come. How it is found is in the module of the walk.

ghost use Rattle.std.specs.Prelude.{◌≡◌, ◌↔◌, ◌<◌, ◌+◌, ◌-◌, ◌^◌, ◌++◌, ◌∷◌, ◌==◌, ℕ, min, IsTrue, List, [], length, slice_get, unwrap_or, None, Some, IfErr, IfOk, OnOk, if◌then◌else◌};
ghost use Rattle.std.specs.Ordering.{nat_cmp};
ghost use Rattle.std.specs.BTreeMap.{get};
ghost use Rattle.base_types.specs.declared.layout.Layout.{Layout as LayoutValue};
ghost use Rattle.base_types.specs.Layouts.{directory_blocks};
ghost use Rattle.lang_tree.specs.declared.command.Reply.TheVariants.{Stat as StatReply};
ghost use Rattle.lang_tree.specs.Figures.{blocks_for};
ghost use Rattle.lang_tree.specs.Tree.{IsSound, Tree};
ghost use Rattle.lang_making.specs.Making.{path_command, paths_made};
ghost use Rattle.cmd_upgrade.specs.declared.plan.Entry.{Entry as EntryValue};
ghost use Rattle.cmd_upgrade.specs.declared.refusal.UpgradeRefusal.TheVariants.{NoMemory as OutOfMemory};
ghost use Rattle.cmd_upgrade.specs.Plans.{Adds, IsPlanOf, IsWholePlan, Meets, entry_of, is_dir_kind, is_written_at};
ghost use Rattle.cmd_upgrade.specs.Upgrades.{TakesTree};

use crate::refusal::UpgradeRefusal;
use base_types::{Layout, Name};
use lang_making::each_path_is_made_once;
use lang_tree::{Cmd, Kind, Path, Stat, copy_names};
use layout_geometry::Geom;
use std::alloc::Global;
use std::collections::BTreeMap;

/// The bytes of a block.
const BLOCK: u64 = 1024;

/// A path that is to be made.
#[derive(Drop)]
pub(crate) struct Entry {
    /// Where it leads from the root.
    pub(crate) path: Path,
    /// The number of its node.
    pub(crate) number: u32,
    /// Whether that is a directory.
    pub(crate) is_dir: bool,
    /// How many bytes the file has.
    pub(crate) size: u64,
}

/// The paths that are to be made.
#[derive(Drop)]
pub(crate) struct Plan {
    /// Each path but the root, directory by directory.
    pub(crate) entries: Vec<Entry>,
    /// For each node but the root the place of its first path.
    pub(crate) firsts: BTreeMap<u32, usize>,
    /// How many blocks all of it takes in the layout.
    pub(crate) blocks: u64,
}

impl Plan {
    /// No path, as the walk begins at the root.
    pub(crate) fn new(alloc: Global) -> Plan
        ensures plan { (l : LayoutValue) (limit : ℕ) (t : Tree) → IsSound limit t → IsPlanOf l t ([] ∷ []) result }
        ensures none { result.entries.items ≡ [] }
    {
        Plan {
            entries: Vec::new(alloc),
            firsts: BTreeMap::new(alloc),
            blocks: 0,
        }
    }

    /// One path more, with what is there. A file counts at its first path.
    ///
    /// # Errors
    /// Out of memory.
    pub(crate) fn add(&mut self, path: Path, stat: Stat) -> Result<(), UpgradeRefusal>
        ensures adds { OnOk result ((l : LayoutValue) (limit : ℕ) (t : Tree) → IsSound limit t → Adds l t path (StatReply stat) self.old self.new) }
        ensures entry { OnOk result (self.new.entries.items ≡ self.old.entries.items ++ entry_of path stat ∷ []) }
        ensures memory { IfErr result (λ why. why ≡ OutOfMemory) }
    {
        let entry = Entry {
            path,
            number: stat.number,
            is_dir: is_dir(stat.kind),
            size: stat.size,
        };
        self.meet(&entry)?;
        self.entries.push(entry)?;
        Ok(())
    }

    /// Where no path of the node of an entry was met, the place behind the others is that of its first one, and its blocks
    /// count.
    ///
    /// # Errors
    /// Out of memory.
    fn meet(&mut self, entry: &Entry) -> Result<(), UpgradeRefusal>
        ensures meets { OnOk result (Meets self.old entry.now self.new) }
        ensures memory { IfErr result (λ why. why ≡ OutOfMemory) }
    {
        if place_in(&self.firsts, entry.number).is_some() {
            return Ok(());
        }
        put_place(&mut self.firsts, entry.number, self.entries.len())?;
        self.blocks = self.blocks.saturating_add(file_blocks(entry));
        Ok(())
    }

    /// A directory of so many names counts too.
    pub(crate) fn count_names(&mut self, layout: Layout, names: usize)
        ensures { self.new ≡ record self.old { blocks = min (self.old.blocks + directory_blocks layout names) (2 ^ 64 - 1) } }
    {
        self.blocks = self
            .blocks
            .saturating_add(layout.directory_blocks(names as u64));
    }

    /// Whether a disk of this geometry has as many nodes and data blocks.
    pub(crate) fn fits(&self, geom: &Geom) -> bool
        ensures { (limit : ℕ) (t : Tree) → IsSound limit t → IsWholePlan geom.now.layout t self.now → IsTrue result ↔ TakesTree geom.now t }
    {
        geom.lawful();
        each_path_is_made_once();
        if geom.i() as usize <= self.firsts.len() {
            return false;
        }
        self.blocks <= u64::from(geom.n() - geom.data_start())
    }

    /// Whether the bytes of a file are written at this path: no directory is there, and it is the first path of its node.
    pub(crate) fn is_written(&self, place: usize) -> bool
        requires { place < length self.now.entries.items }
        ensures { (e : EntryValue) → slice_get self.now.entries.items place ≡ Some e → result ≡ is_written_at self.now.firsts place e }
    {
        if self.entries[place].is_dir {
            return false;
        }
        self.first(place) == place
    }

    /// The place of the first path of the node at the path at this place.
    fn first(&self, place: usize) -> usize
        requires { place < length self.now.entries.items }
        ensures { (e : EntryValue) → slice_get self.now.entries.items place ≡ Some e → result ≡ unwrap_or (get nat_cmp self.now.firsts e.number) place }
    {
        match place_in(&self.firsts, self.entries[place].number) {
            Some(first) => first,
            None => place,
        }
    }

    /// The command by which a path comes to be: a directory is made, a file is created at its first path, and linked from
    /// there at each other one.
    ///
    /// # Errors
    /// Out of memory.
    pub(crate) fn path_command(&self, alloc: Global, place: usize) -> Result<Cmd, UpgradeRefusal>
        requires { place < length self.now.entries.items }
        ensures command { (l : LayoutValue) (limit : ℕ) (t : Tree) (path : List (List ℕ)) → IsSound limit t → IsWholePlan l t self.now
            → slice_get (paths_made t.names) place ≡ Some path → IfOk result (λ cmd. cmd ≡ path_command t (paths_made t.names) path) }
        ensures memory { IfErr result (λ why. why ≡ OutOfMemory) }
    {
        each_path_is_made_once();
        let entry = &self.entries[place];
        let path = entry.path.copy(alloc)?;
        if entry.is_dir {
            return Ok(Cmd::Mkdir(path));
        }
        let first = self.first(place);
        if first == place {
            return Ok(Cmd::Create(path));
        }
        let Some(origin) = self.entries.get(first) else {
            return Ok(Cmd::Create(path));
        };
        let from = origin.path.copy(alloc)?;
        Ok(Cmd::Link(from, path))
    }
}

/// The place of the first path of the node with this number, where one was met.
fn place_in(firsts: &BTreeMap<u32, usize>, number: u32) -> Option<usize>
    ensures { result ≡ get nat_cmp firsts.now number }
{
    firsts.get(&number).copied()
}

/// The first path of the node with this number, of which none was met, has this place.
///
/// # Errors
/// Out of memory.
fn put_place(
    firsts: &mut BTreeMap<u32, usize>,
    number: u32,
    place: usize,
) -> Result<(), UpgradeRefusal>
    ensures at { OnOk result ((n : ℕ) → get nat_cmp firsts.new n ≡ (if number == n then Some place else get nat_cmp firsts.old n)) }
    ensures count { OnOk result (get nat_cmp firsts.old number ≡ None → length firsts.new.entries ≡ length firsts.old.entries + 1) }
    ensures memory { IfErr result (λ why. why ≡ OutOfMemory) }
{
    firsts.insert(number, place)?;
    Ok(())
}

/// How many blocks the node of an entry has, where it is a file; a directory's are those of its names.
fn file_blocks(entry: &Entry) -> u64
    ensures { result ≡ (if entry.now.is_dir then 0 else blocks_for entry.now.size) }
{
    if entry.is_dir {
        return 0;
    }
    blocks_for(entry.size)
}

/// Whether a node is a directory.
fn is_dir(kind: Kind) -> bool
    ensures { result ≡ is_dir_kind kind }
{
    match kind {
        Kind::Dir => true,
        Kind::File => false,
    }
}

/// How many blocks so many bytes take.
fn blocks_for(size: u64) -> u64
    ensures { result ≡ blocks_for size }
{
    size / BLOCK + u64::from(!size.is_multiple_of(BLOCK))
}

/// The path of a name in a directory.
///
/// # Errors
/// Out of memory.
pub(crate) fn child(alloc: Global, dir: &Path, name: &Name) -> Result<Path, UpgradeRefusal>
    ensures path { IfOk result (λ path. path ≡ dir.now ++ name.now ∷ []) }
    ensures memory { IfErr result (λ why. why ≡ OutOfMemory) }
{
    let mut names = copy_names(alloc, dir.names())?;
    names.push(name.copy())?;
    Ok(Path::from_names(names))
}
