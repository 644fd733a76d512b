//! A trace that was read: its geometry, its events, and its commands with their replies and marks. How a text is read
//! isn't described here.

ghost use Rattle.std.specs.Prelude.{◌≡◌, []};

use disk_contract::Event;
use lang_tree::{Cmd, Reply};
use layout_geometry::Geom;
use std::alloc::Global;
use std::marker::Model;
use std::mem;

/// What a trace says.
#[derive(Drop)]
pub struct Trace {
    pub(crate) geom: Geom,
    pub(crate) log: Vec<Event>,
    pub(crate) mounted: u64,
    pub(crate) cmds: Vec<Cmd>,
    pub(crate) replies: Vec<Reply>,
    pub(crate) marks: Vec<u64>,
}

impl Model for Trace {
    ghost use Rattle.cmd_trace.specs.Contents.{Contents};

    ghost Value = { Contents };

    ghost view = { λ t. record {
      geometry = t.geom;
      log = t.log.items;
      mounted = t.mounted;
      cmds = t.cmds.items;
      replies = t.replies.items;
      marks = t.marks.items;
    } };
}

impl Trace {
    /// The geometry of the disk.
    pub fn geom(&self) -> &Geom
        ensures { result.now ≡ self.now.geometry }
    {
        &self.geom
    }

    /// The commands, in their order; a bad line is one, too.
    pub fn commands(&self) -> &[Cmd]
        ensures { result.now ≡ self.now.cmds }
    {
        self.cmds.as_slice()
    }

    /// The number of the mount's events, which are the first ones.
    pub fn mounted(&self) -> u64
        ensures { result ≡ self.now.mounted }
    {
        self.mounted
    }

    /// For each reply the number of events when it came.
    pub fn marks(&self) -> &[u64]
        ensures { result.now ≡ self.now.marks }
    {
        self.marks.as_slice()
    }

    /// The replies, one for each command.
    pub fn replies(&self) -> &[Reply]
        ensures { result.now ≡ self.now.replies }
    {
        self.replies.as_slice()
    }

    /// The events, in their order.
    pub fn log(&self) -> &[Event]
        ensures { result.now ≡ self.now.log }
    {
        self.log.as_slice()
    }

    /// Takes the events out, in their order, and leaves none. It takes no memory.
    pub fn take_log(&mut self, alloc: Global) -> Vec<Event>
        ensures log { result.items ≡ self.old.log }
        ensures rest { self.new ≡ record self.old { log = [] } }
    {
        mem::replace(&mut self.log, Vec::new(alloc))
    }
}
