//! The nodes with what belongs to a session, behind the public type: each command is answered, and where no
//! memory is found all stays as it was. What single commands do to the nodes is in the module `effects`, what
//! they reply in `replies`, and why they are refused in `conditions`.

ghost use Rattle.std.specs.Prelude.{◌≡◌, ◌+◌, ◌==◌, ◌&&◌, not, is_none, IfOk, OnErr, if◌then◌else◌, nat_le};
ghost use Rattle.std.specs.FinMap.{get};
ghost use Rattle.lang_tree.specs.declared.command.Cmd.TheVariants.{Truncate, Link, Unlink, Rmdir, Rename, Read, Stat, List as ListNames};
ghost use Rattle.lang_tree.specs.declared.command.Cmd.TheVariants.{Unsnap, Snaps, At};
ghost use Rattle.lang_tree.specs.declared.command.Reply.TheVariants.{Ok as Done, Synced, DurableAt};
ghost use Rattle.fs_inodes.specs.Refusals.{make_reason, write_reason, snap_reason};
ghost use Rattle.fs_memtree.specs.Changes.{made, edited, removed_at};
ghost use Rattle.fs_memtree.specs.Trails.{spot_of};
ghost use Rattle.fs_memtree.specs.Kept.{map_of};
ghost use Rattle.fs_memtree.specs.Snapshots.{snapshots_of, has_number};
ghost use Rattle.fs_memtree.specs.Serving.{served, served_by, changed_to, snapped, synced, waited, awaited, first_state, least};
ghost use Rattle.fs_memtree.specs.Stored.{kept, grown, end_of};

use crate::directory::Directory;
use crate::node::{Growth, Node};
use crate::nodes::Nodes;
use crate::snapshots::{Snapshot, Snapshots};
use crate::walks::End;
use base_types::{Layout, Name, NoMemory};
use lang_tree::{Cmd, Look, NameList, Path, Refusal, Reply};
use std::alloc::Global;

/// The nodes of a tree with what its snapshots keep, the greatest number that they may have, the layout that says
/// which names are too long, and the session's sync points.
#[derive(Drop)]
pub(crate) struct State {
    pub(crate) nodes: Nodes,
    pub(crate) kept: Snapshots,
    pub(crate) limit: u32,
    pub(crate) layout: Layout,
    pub(crate) points: u64,
    pub(crate) changed: bool,
    pub(crate) durable: u64,
}

impl State {
    /// The root alone, with at most so many nodes, and names as this layout takes them.
    ///
    /// # Errors
    /// Out of memory.
    pub(crate) fn new(alloc: Global, nodes: u32, layout: Layout) -> Result<State, NoMemory>
        ensures { IfOk result (λ state. state ≡ first_state nodes layout) }
    {
        let limit = nodes;
        let nodes = Nodes::new(alloc)?;
        Ok(State {
            nodes,
            kept: Snapshots::new(alloc),
            limit,
            layout,
            points: 0,
            changed: false,
            durable: 0,
        })
    }

    /// The same state once more.
    ///
    /// # Errors
    /// Out of memory.
    pub(crate) fn copy(&self, alloc: Global) -> Result<State, NoMemory>
        ensures { IfOk result (λ copy. copy ≡ self.now) }
    {
        let nodes = self.nodes.copy(alloc)?;
        let kept = self.kept.copy(alloc)?;
        Ok(State {
            nodes,
            kept,
            limit: self.limit,
            layout: self.layout,
            points: self.points,
            changed: self.changed,
            durable: self.durable,
        })
    }

    /// Answers the command.
    ///
    /// # Errors
    /// Out of memory; then all is as before.
    pub(crate) fn answer(&mut self, alloc: Global, cmd: &Cmd) -> Result<Reply, NoMemory>
        ensures ok { IfOk result (λ reply. served self.old cmd.now ≡ (self.new, reply)) }
        ensures err { OnErr result (self.new ≡ self.old) }
    {
        match cmd {
            Cmd::Mkdir(path) => self.make(path, Node::Dir(Directory::new(alloc))),
            Cmd::Create(path) => self.make(path, Node::File(1, Vec::new(alloc))),
            Cmd::Write(path, offset, bytes) => {
                let piece = bytes.as_slice();
                let count = piece.len() as u64;
                self.put(path, *offset, count, Growth::Write(*offset as usize, piece))
            }
            Cmd::Fill(path, offset, count, byte) => {
                let fill = Growth::Fill(*offset as usize, *count as usize, *byte);
                self.put(path, *offset, u64::from(*count), fill)
            }
            Cmd::Read(path, offset, count) => self.read(alloc, path, *offset, *count),
            Cmd::Truncate(path, size) => self.truncate(path, *size),
            Cmd::Link(path, other) => self.link(path, other),
            Cmd::Unlink(path) => self.unlink(path),
            Cmd::Rmdir(path) => self.rmdir(path),
            Cmd::Rename(from, to) => self.rename(from, to),
            Cmd::Stat(path) => Ok(self.stat(path)),
            Cmd::List(path) => self.list(alloc, path),
            Cmd::Snap(name) => self.snap(alloc, name),
            Cmd::Unsnap(name) => Ok(self.unsnap(name)),
            Cmd::Snaps => self.snaps(alloc),
            Cmd::At(name, look) => self.look_at(alloc, name, look),
            Cmd::Osync => Ok(self.osync()),
            Cmd::Dsync => Ok(self.dsync()),
            Cmd::Durable => Ok(Reply::Known(self.durable)),
            Cmd::Dwait(n) => Ok(self.dwait(*n)),
            Cmd::Poll => Ok(Reply::Ok),
            Cmd::Bad => Ok(Reply::Bad),
        }
    }

    /// The least number up to the limit that no node and no snapshot has.
    pub(crate) fn least(&self) -> Option<u32>
        ensures { result ≡ least self.now }
    {
        if self.kept.is_empty() {
            return self.nodes.unused(self.limit);
        }
        for used in 0..self.limit {
            if self.is_unused(used + 1) {
                return Some(used + 1);
            }
        }
        None
    }

    /// Whether no node and no snapshot has the number.
    fn is_unused(&self, number: u32) -> bool
        ensures { result ≡ (is_none (get self.now.nodes number) && not (has_number self.now.kept number)) }
    {
        self.nodes.at(number).is_none() && !self.kept.has_number(number)
    }

    /// Snap: what there is is kept under this name.
    fn snap(&mut self, alloc: Global, name: &Name) -> Result<Reply, NoMemory>
        ensures ok { IfOk result (λ reply. served_by self.old (snap_reason (least self.old) (snapshots_of self.old.kept) name.now)
            (snapped self.old name.now (least self.old)) ≡ (self.new, reply)) }
        ensures err { OnErr result (self.new ≡ self.old) }
    {
        if self.kept.get(name).is_some() {
            return Ok(Reply::Refused(Refusal::Exists));
        }
        let Some(number) = self.least() else {
            return Ok(Reply::Refused(Refusal::NoNode));
        };
        let nodes = self.nodes.copy(alloc)?;
        self.kept.insert(name, Snapshot { number, nodes })?;
        self.changed = true;
        Ok(Reply::Ok)
    }

    /// Unsnap: what is kept under this name goes.
    fn unsnap(&mut self, name: &Name) -> Reply
        ensures { served self.old (Unsnap name.now) ≡ (self.new, result) }
    {
        if self.kept.get(name).is_none() {
            return Reply::Refused(Refusal::NoSnap);
        }
        self.kept.remove(name);
        self.changed = true;
        Reply::Ok
    }

    /// Snaps: the names of the snapshots.
    fn snaps(&self, alloc: Global) -> Result<Reply, NoMemory>
        ensures { IfOk result (λ reply. served self.now Snaps ≡ (self.now, reply)) }
    {
        let names = self.kept.names(alloc)?;
        Ok(Reply::Names(NameList::from_names(names)))
    }

    /// At: a look at what is kept under this name.
    fn look_at(&self, alloc: Global, name: &Name, look: &Look) -> Result<Reply, NoMemory>
        ensures { IfOk result (λ reply. served self.now (At name.now look.now) ≡ (self.now, reply)) }
    {
        match self.kept.get(name) {
            None => Ok(Reply::Refused(Refusal::NoSnap)),
            Some(snapshot) => snapshot.nodes.look_at(alloc, look),
        }
    }

    /// Mkdir and create: a new node at the path.
    fn make(&mut self, path: &Path, node: Node) -> Result<Reply, NoMemory>
        ensures ok { IfOk result (λ reply. served_by self.old (make_reason self.old.layout (least self.old) (map_of self.old.nodes) path.now)
            (changed_to self.old (made (least self.old) self.old.nodes path.now (kept node))) ≡ (self.new, reply)) }
        ensures err { OnErr result (self.new ≡ self.old) }
    {
        let (end, number) = match self.nodes.to_make(self.least(), path, self.layout) {
            Err(why) => return Ok(Reply::Refused(why)),
            Ok(found) => found,
        };
        self.nodes.make(end, number, node)?;
        self.changed = true;
        Ok(Reply::Ok)
    }

    /// Write and fill: these bytes, so many from `offset` on, come into the file; none change nothing.
    fn put(
        &mut self,
        path: &Path,
        offset: u32,
        count: u64,
        bytes: Growth<'_>,
    ) -> Result<Reply, NoMemory>
        requires { end_of bytes ≡ offset + count }
        ensures ok { IfOk result (λ reply. served_by self.old (write_reason (map_of self.old.nodes) path.now offset count)
            (if count == 0 then (self.old, Done) else changed_to self.old (edited self.old.nodes path.now (grown bytes.entry))) ≡ (self.new, reply)) }
        ensures err { OnErr result (self.new ≡ self.old) }
    {
        let number = match self.nodes.to_write(path, offset, count) {
            Err(why) => return Ok(Reply::Refused(why)),
            Ok(number) => number,
        };
        if count == 0 {
            return Ok(Reply::Ok);
        }
        self.nodes.grow(number, bytes)?;
        self.changed = true;
        Ok(Reply::Ok)
    }

    /// Read: at most so many bytes of the file from `offset` on.
    fn read(&self, alloc: Global, path: &Path, offset: u32, count: u32) -> Result<Reply, NoMemory>
        ensures { IfOk result (λ reply. served self.now (Read path.now offset count) ≡ (self.now, reply)) }
    {
        match self.nodes.to_read(path) {
            Err(why) => Ok(Reply::Refused(why)),
            Ok(number) => self.nodes.read(alloc, number, offset, count),
        }
    }

    /// Truncate: the file is so many bytes long.
    fn truncate(&mut self, path: &Path, size: u32) -> Result<Reply, NoMemory>
        ensures ok { IfOk result (λ reply. served self.old (Truncate path.now size) ≡ (self.new, reply)) }
        ensures err { OnErr result (self.new ≡ self.old) }
    {
        let number = match self.nodes.to_truncate(path, size) {
            Err(why) => return Ok(Reply::Refused(why)),
            Ok(number) => number,
        };
        if size as usize == self.nodes.bytes(number).len() {
            return Ok(Reply::Ok);
        }
        self.nodes.grow(number, Growth::Resize(size as usize))?;
        self.changed = true;
        Ok(Reply::Ok)
    }

    /// Link: the second path leads to the node at the first one too.
    fn link(&mut self, path: &Path, other: &Path) -> Result<Reply, NoMemory>
        ensures ok { IfOk result (λ reply. served self.old (Link path.now other.now) ≡ (self.new, reply)) }
        ensures err { OnErr result (self.new ≡ self.old) }
    {
        let (number, end) = match self.nodes.to_link(path, other, self.layout) {
            Err(why) => return Ok(Reply::Refused(why)),
            Ok(found) => found,
        };
        self.nodes.link(number, end)?;
        self.changed = true;
        Ok(Reply::Ok)
    }

    /// Unlink: the path is gone, and its file too where it was the last one.
    fn unlink(&mut self, path: &Path) -> Result<Reply, NoMemory>
        ensures ok { IfOk result (λ reply. served self.old (Unlink path.now) ≡ (self.new, reply)) }
        ensures err { OnErr result (self.new ≡ self.old) }
    {
        match self.nodes.to_unlink(path) {
            Err(why) => Ok(Reply::Refused(why)),
            Ok(end) => self.remove(end),
        }
    }

    /// Rmdir: the path is gone, and its directory.
    fn rmdir(&mut self, path: &Path) -> Result<Reply, NoMemory>
        ensures ok { IfOk result (λ reply. served self.old (Rmdir path.now) ≡ (self.new, reply)) }
        ensures err { OnErr result (self.new ≡ self.old) }
    {
        match self.nodes.to_rmdir(path) {
            Err(why) => Ok(Reply::Refused(why)),
            Ok(end) => self.remove(end),
        }
    }

    /// Takes out the path that ends there.
    fn remove(&mut self, end: End<'_>) -> Result<Reply, NoMemory>
        ensures ok { IfOk result (λ reply. changed_to self.old (removed_at self.old.nodes (spot_of end.entry) end.entry.number) ≡ (self.new, reply)) }
        ensures err { OnErr result (self.new ≡ self.old) }
    {
        self.nodes.remove_path(end)?;
        self.changed = true;
        Ok(Reply::Ok)
    }

    /// Rename: what was at `to` goes, and what is at `from` comes there with all below it.
    fn rename(&mut self, from: &Path, to: &Path) -> Result<Reply, NoMemory>
        ensures ok { IfOk result (λ reply. served self.old (Rename from.now to.now) ≡ (self.new, reply)) }
        ensures err { OnErr result (self.new ≡ self.old) }
    {
        let (first, second) = match self.nodes.to_rename(from, to, self.layout) {
            Err(why) => return Ok(Reply::Refused(why)),
            Ok(found) => found,
        };
        if self.nodes.rename(first, second)? {
            self.changed = true;
        }
        Ok(Reply::Ok)
    }

    /// Stat: what is at the path.
    fn stat(&self, path: &Path) -> Reply
        ensures { served self.now (Stat path.now) ≡ (self.now, result) }
    {
        match self.nodes.to_stat(path) {
            Err(why) => Reply::Refused(why),
            Ok(number) => self.nodes.stat(number),
        }
    }

    /// List: the names in the directory at the path.
    fn list(&self, alloc: Global, path: &Path) -> Result<Reply, NoMemory>
        ensures { IfOk result (λ reply. served self.now (ListNames path.now) ≡ (self.now, reply)) }
    {
        match self.nodes.to_list(path) {
            Err(why) => Ok(Reply::Refused(why)),
            Ok(number) => self.nodes.list(alloc, number),
        }
    }

    /// Makes a sync point, where something changed since the last one.
    fn osync(&mut self) -> Reply
        ensures state { self.new ≡ synced self.old self.old.changed }
        ensures reply { result ≡ Synced self.new.points }
    {
        if self.changed {
            self.points = self.points.saturating_add(1);
            self.changed = false;
        }
        Reply::Synced(self.points)
    }

    /// Makes a sync point too, where something changed, and promises the last one: memory has it at once.
    fn dsync(&mut self) -> Reply
        ensures state { self.new ≡ waited (synced self.old self.old.changed) }
        ensures reply { result ≡ DurableAt self.new.points }
    {
        self.osync();
        self.durable = self.points;
        Reply::DurableAt(self.points)
    }

    /// Promises point `n`, where it is there: memory has it at once.
    fn dwait(&mut self, n: u32) -> Reply
        ensures { awaited self.old n (nat_le n self.old.points) ≡ (self.new, result) }
    {
        let point = u64::from(n);
        if point > self.points {
            return Reply::Refused(Refusal::NoPoint { last: self.points });
        }
        self.durable = self.durable.max(point);
        Reply::DurableAt(point)
    }
}
