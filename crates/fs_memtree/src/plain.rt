//! The tree in memory as its callers see it: one sound tree that answers commands. The work is in
//! the module `state`; here each tree that can be is a sound one, and being out of memory becomes a reply.

ghost use Rattle.std.specs.Prelude.{◌≡◌, ℕ, ◌≤◌, ◌↔◌, false, IsTrue, IfOk, OnOk, OnErr, take};
ghost use Rattle.std.specs.Io.KnownBytes.{Appends};
ghost use Rattle.base_types.specs.Counts.{HasCause};
ghost use Rattle.lang_tree.specs.Tree.{IsSound, HasSoundSnapshots, HasSmallFiles};
ghost use Rattle.lang_tree.specs.Step.{start};
ghost use Rattle.lang_tree.specs.Run.{Answers, is_of_memory};
ghost use Rattle.lang_tree.specs.Listing.{listing};

use crate::laws::the_maps_are_lawful;
use crate::state::State;
use base_io::{Sink, SinkFault};
use base_types::{Layout, NoMemory};
use lang_tree::{Cmd, Refusal, Reply};
use std::alloc::Global;
use std::marker::Model;

/// A tree of names and byte files that lies in memory alone. It is sound at all times with all of its snapshots, and
/// no file of it has more than 2^30 bytes.
#[derive(Drop)]
pub struct PlainTree {
    state: State,
}

impl Model for PlainTree {
    ghost use Rattle.lang_tree.specs.Step.{Session};
    ghost use Rattle.fs_memtree.specs.Code.{coded_session};
    ghost use Rattle.fs_memtree.specs.Serving.{session_of, IsSoundState};

    ghost Value = { Session };

    ghost coded = { coded_session };

    ghost view = { λ t. session_of t.state };

    ghost invariant = { λ t. IsSoundState t.state };
}

impl PlainTree {
    /// The tree of the root alone, with at most so many nodes, and names as this layout takes them.
    ///
    /// # Errors
    /// Out of memory.
    pub fn new(alloc: Global, nodes: u32, layout: Layout) -> Result<PlainTree, NoMemory>
        requires { 1 ≤ nodes }
        ensures start { IfOk result (λ tree. tree ≡ start (record { nodes = nodes; layout = layout })) }
        ensures sound { IfOk result (λ tree. IsSound tree.limit.nodes tree.tree) }
        ensures snapshots { IfOk result (λ tree. HasSoundSnapshots tree.limit.nodes tree.tree) }
        ensures small { IfOk result (λ tree. HasSmallFiles tree.tree.nodes) }
    {
        the_maps_are_lawful();
        let state = State::new(alloc, nodes, layout)?;
        Ok(PlainTree { state })
    }

    /// Answers the command; where no memory is found it refuses it and stays as it was.
    pub fn apply(&mut self, alloc: Global, cmd: &Cmd) -> Reply
        ensures answer { Answers is_of_memory self.old cmd.now result self.new }
        ensures sound { IsSound self.new.limit.nodes self.new.tree }
        ensures snapshots { HasSoundSnapshots self.new.limit.nodes self.new.tree }
        ensures small { HasSmallFiles self.new.tree.nodes }
    {
        the_maps_are_lawful();
        match self.state.answer(alloc, cmd) {
            Ok(reply) => reply,
            Err(NoMemory) => Reply::Refused(Refusal::NoMemory),
        }
    }

    /// Writes a line for each path, the paths ascending: its kind, its number, and of a file its size and
    /// bytes. Behind them come, for each snapshot, a line with its name and the lines of the tree that it keeps. This
    /// takes no memory.
    ///
    /// # Errors
    /// The sink failed; then it took a prefix of the listing.
    pub fn listing<K: Sink>(&self, out: &mut K) -> Result<(), SinkFault>
        ensures all { OnOk result (Appends (K.taken out.old) (K.taken out.new) (listing self.now.tree)) }
        ensures front { OnErr result ((n : ℕ) × Appends (K.taken out.old) (K.taken out.new) (take n (listing self.now.tree))) }
        ensures cause { HasCause result (K.faults out.old) (K.faults out.new) }
    {
        self.state.write_listing(out)
    }

    /// A copy of this tree, with the same bounds and the same sync points, and changed since where this
    /// one is. What one of them does later doesn't touch the other.
    ///
    /// # Errors
    /// Out of memory.
    pub fn copy(&self, alloc: Global) -> Result<PlainTree, NoMemory>
        ensures { IfOk result (λ copy. copy ≡ self.now) }
    {
        let state = self.state.copy(alloc)?;
        Ok(PlainTree { state })
    }

    /// Whether both trees are equal: the same paths lead to the same numbers, these are the same
    /// directories and files with the same bytes, and the snapshots have the same names and numbers and keep equal
    /// trees. Bounds and sync points don't count. This takes no memory.
    pub fn equal(&self, other: &PlainTree) -> bool
        ensures { IsTrue result ↔ (self.now.tree ≡ other.now.tree) }
    {
        if !self.state.nodes.is_same(&other.state.nodes) {
            return false;
        }
        self.state.kept.is_same(&other.state.kept)
    }
}
