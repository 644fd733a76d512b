//! A run on its way: the file system that answers, over a store, and the marks of its disk. It answers one command
//! after the other and writes the line of each reply. Where the commands come from, and how a run begins and ends, is
//! in the module `run`.

ghost use Rattle.std.specs.Prelude.{◌≡◌, ◌⊎◌, ◌+◌, ◌<◌, ◌≤◌, ◌∷◌, [], length, vec_len, vec_capacity, OnOk, OnErr};
ghost use Rattle.std.specs.Io.KnownBytes.{Appends};
ghost use Rattle.base_types.specs.Counts.{after_call};
ghost use Rattle.base_io.specs.Prefix.{TakesPrefix};
ghost use Rattle.engine_store.specs.StoreOf.{state_of};
ghost use Rattle.fs_commands.specs.Opened.{blocks_in};
ghost use Rattle.cmd_image.specs.Steps.{AnswersNext, BreaksOff, RestsNow, ServesNext, reply_line, stops_pushing};

use crate::mounting::mark_of;
use crate::store_laws::the_disk_keeps_to_its_manner;
use base_io::{Sink, SinkFault, push_all};
use base_types::NoMemory;
use cmd_session::{
    Served, a_command_goes_by_the_log, the_writes_keep_within_the_budget_at_each_mark,
};
use disk_contract::{Disk, Mark};
use engine_store::Store;
use fs_session::{a_command_raises_the_numbers_little, a_refusal_for_the_disk_has_its_cause};
use lang_script::reply_text;
use lang_tree::{Cmd, Reply, a_tree_in_memory_refuses_for_no_disk};
use std::alloc::{AllocError, AllocFailed, Global};

/// Why a run stops before its input ends.
#[derive(Clone, Copy, Debug, PartialEq, Eq)]
pub enum Stop {
    /// No memory was found.
    NoMemory,
    /// The sink failed.
    SinkFault,
}

impl From<NoMemory> for Stop {
    ghost use Rattle.std.specs.Prelude.{◌≡◌};
    ghost use Rattle.cmd_image.specs.declared.running.Stop.TheVariants.{NoMemory as OutOfMemory};

    ghost from_gives = { λ _ stop. stop ≡ OutOfMemory };

    fn from(_want: NoMemory) -> Stop {
        Stop::NoMemory
    }
}

impl From<AllocError> for Stop {
    ghost use Rattle.std.specs.Prelude.{◌≡◌};
    ghost use Rattle.cmd_image.specs.declared.running.Stop.TheVariants.{NoMemory as OutOfMemory};

    ghost from_gives = { λ _ stop. stop ≡ OutOfMemory };

    fn from(_want: AllocError) -> Stop {
        Stop::NoMemory
    }
}

impl<T: Drop> From<AllocFailed<T>> for Stop {
    ghost use Rattle.std.specs.Prelude.{◌≡◌};
    ghost use Rattle.cmd_image.specs.declared.running.Stop.TheVariants.{NoMemory as OutOfMemory};

    ghost from_gives = { λ _ stop. stop ≡ OutOfMemory };

    fn from(_want: AllocFailed<T>) -> Stop {
        Stop::NoMemory
    }
}

impl From<SinkFault> for Stop {
    ghost use Rattle.std.specs.Prelude.{◌≡◌};
    ghost use Rattle.cmd_image.specs.declared.running.Stop.TheVariants.{SinkFault as Failed};

    ghost from_gives = { λ _ stop. stop ≡ Failed };

    fn from(_fault: SinkFault) -> Stop {
        Stop::SinkFault
    }
}

/// A file system over a store, and the marks of its disk so far.
#[derive(Drop)]
pub(crate) struct Running<D: Disk + Drop> {
    served: Served<Store<D>>,
    marks: Vec<Mark>,
}

impl<D: Disk + Drop> Running<D> {
    /// This file system, with this mark behind those marks.
    pub(crate) fn begin(served: Served<Store<D>>, mut marks: Vec<Mark>, mark: Mark) -> Running<D>
        requires empty { marks.items ≡ [] }
        requires room { vec_len marks < vec_capacity marks }
        ensures served { result.served ≡ served }
        ensures marks { result.marks.items ≡ mark ∷ [] }
    {
        marks.push_reserved(mark);
        Running { served, marks }
    }

    /// Answers one command, marks the disk, and writes the line of the reply.
    ///
    /// # Errors
    /// Out of memory, and then perhaps the command wasn't answered; or a fault of the sink.
    pub(crate) fn serve<K: Sink>(
        &mut self,
        alloc: Global,
        out: &mut K,
        cmd: &Cmd,
    ) -> Result<(), Stop>
        ensures ok { OnOk result (ServesNext D.tells cmd.now self.old.marks.items (state_of D.state (blocks_in self.old.served)) self.new.marks.items
            (state_of D.state (blocks_in self.new.served)) (K.taken out.old) (K.taken out.new)) }
        ensures err { OnErr result (RestsNow D.tells self.old.marks.items (state_of D.state (blocks_in self.old.served)) self.new.marks.items
            (state_of D.state (blocks_in self.new.served)) (K.taken out.old) (K.taken out.new)
            ⊎ BreaksOff D.tells cmd.now self.old.marks.items (state_of D.state (blocks_in self.old.served)) self.new.marks.items
            (state_of D.state (blocks_in self.new.served)) (K.taken out.old) (K.taken out.new)) }
        ensures pushes { K.faults out.new ≡ after_call (stops_pushing result) (K.faults out.old) }
        ensures rises { K.faults out.old ≤ K.faults out.new }
        ensures marks { OnOk result (length self.new.marks.items ≡ length self.old.marks.items + 1) }
    {
        self.marks.reserve(1)?;
        let reply = self.answer(alloc, cmd);
        write_reply(alloc, out, &reply)?;
        Ok(())
    }

    /// Answers one command, and marks the disk.
    fn answer(&mut self, alloc: Global, cmd: &Cmd) -> Reply
        requires room { vec_len self.old.marks < vec_capacity self.old.marks }
        ensures answers { AnswersNext D.tells cmd.now result self.old.marks.items (state_of D.state (blocks_in self.old.served)) self.new.marks.items
            (state_of D.state (blocks_in self.new.served)) }
        ensures marks { length self.new.marks.items ≡ length self.old.marks.items + 1 }
    {
        a_command_goes_by_the_log::<Store<D>>();
        a_refusal_for_the_disk_has_its_cause::<Store<D>>();
        a_command_raises_the_numbers_little::<Store<D>>();
        the_writes_keep_within_the_budget_at_each_mark::<Store<D>>();
        a_tree_in_memory_refuses_for_no_disk();
        self.served.lawful();
        let reply = self.served.apply(alloc, cmd);
        the_disk_keeps_to_its_manner(&self.served);
        let mark = mark_of(self.served.blocks().disk());
        self.marks.push_reserved(mark);
        reply
    }

    /// The store and the marks, given back.
    pub(crate) fn into_parts(self) -> (Store<D>, Vec<Mark>)
        ensures store { result.0 ≡ blocks_in self.served }
        ensures marks { result.1 ≡ self.marks }
    {
        let Running { served, marks } = self;
        (served.into_blocks(), marks)
    }
}

/// Writes the line of a reply.
///
/// # Errors
/// Out of memory, or a fault of the sink.
fn write_reply<K: Sink>(alloc: Global, out: &mut K, reply: &Reply) -> Result<(), Stop>
    ensures all { OnOk result (Appends (K.taken out.old) (K.taken out.new) (reply_line reply.now)) }
    ensures front { OnErr result (TakesPrefix (K.taken out.old) (K.taken out.new) (reply_line reply.now)) }
    ensures pushes { K.faults out.new ≡ after_call (stops_pushing result) (K.faults out.old) }
    ensures rises { K.faults out.old ≤ K.faults out.new }
{
    let mut line = reply_text(alloc, reply)?;
    line.push(FEED)?;
    push_all(out, line.as_slice())?;
    Ok(())
}

/// A line feed.
const FEED: u8 = b'\n';
