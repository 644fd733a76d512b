//! A log on its way: the log that answers, over a store, and the marks of its disk. It answers one call after the other
//! and writes the line of each reply. Where the calls come from, and how a log is opened and given back, is in the module
//! `logging`.

ghost use Rattle.std.specs.Prelude.{◌≡◌, ◌⊎◌, ◌+◌, ◌<◌, ◌≤◌, ◌∷◌, [], Err, length, vec_len, vec_capacity, OnOk, OnErr};
ghost use Rattle.std.specs.Io.KnownBytes.{Appends};
ghost use Rattle.base_types.specs.Counts.{after_call};
ghost use Rattle.base_io.specs.Prefix.{TakesPrefix};
ghost use Rattle.engine_store.specs.StoreOf.{state_of};
ghost use Rattle.fs_commands.specs.Opened.{blocks_in};
ghost use Rattle.cmd_image.specs.Steps.{stops_pushing};
ghost use Rattle.cmd_image.specs.declared.running.Stop.TheVariants.{NoMemory as OutOfMemory};
ghost use Rattle.cmd_log.specs.Logs.{log_reply_line};
ghost use Rattle.cmd_log.specs.Steps.{AnswersNext, BreaksOff, RestsNow, ServesNext};

use crate::serving::Logged;
use crate::store_laws::the_disk_keeps_to_its_manner;
use base_io::{Sink, push_all};
use cmd_image::{Stop, a_reply_tells_which_call_failed, mark_of};
use disk_contract::{Disk, Mark};
use engine_store::Store;
use fs_session::{
    a_command_is_answered_in_a_room_that_came_back, a_command_raises_the_numbers_little,
    a_refusal_for_the_disk_has_its_cause, a_reply_tells_the_points,
};
use lang_log::{LogCall, LogReply};
use lang_log_lines::log_reply_text;
use std::alloc::Global;

/// A log over a store, and the marks of its disk so far.
#[derive(Drop)]
pub(crate) struct Running<D: Disk + Drop> {
    logged: Logged<Store<D>>,
    marks: Vec<Mark>,
}

impl<D: Disk + Drop> Running<D> {
    /// This log, with this mark behind those marks.
    pub(crate) fn begin(logged: Logged<Store<D>>, mut marks: Vec<Mark>, mark: Mark) -> Running<D>
        requires empty { marks.items ≡ [] }
        requires room { vec_len marks < vec_capacity marks }
        ensures logged { result.logged ≡ logged }
        ensures marks { result.marks.items ≡ mark ∷ [] }
    {
        marks.push_reserved(mark);
        Running { logged, marks }
    }

    /// Answers one call, marks the disk, and writes the line of the reply.
    ///
    /// # Errors
    /// Out of memory, and then perhaps the call wasn't answered; or a fault of the sink.
    pub(crate) fn serve<K: Sink>(
        &mut self,
        alloc: Global,
        out: &mut K,
        call: &LogCall,
    ) -> Result<(), Stop>
        requires most { self.old.logged.most ≡ 1048576 }
        ensures most { self.new.logged.most ≡ 1048576 }
        ensures ok { OnOk result (ServesNext D.tells call.now self.old.marks.items (state_of D.state (blocks_in self.old.logged.fs)) self.new.marks.items
            (state_of D.state (blocks_in self.new.logged.fs)) (K.taken out.old) (K.taken out.new)) }
        ensures err { OnErr result (RestsNow D.tells self.old.marks.items (state_of D.state (blocks_in self.old.logged.fs)) self.new.marks.items
            (state_of D.state (blocks_in self.new.logged.fs)) (K.taken out.old) (K.taken out.new)
            ⊎ BreaksOff D.tells call.now self.old.marks.items (state_of D.state (blocks_in self.old.logged.fs)) self.new.marks.items
            (state_of D.state (blocks_in self.new.logged.fs)) (K.taken out.old) (K.taken out.new)) }
        ensures pushes { K.faults out.new ≡ after_call (stops_pushing result) (K.faults out.old) }
        ensures rises { K.faults out.old ≤ K.faults out.new }
        ensures marks { OnOk result (length self.new.marks.items ≡ length self.old.marks.items + 1) }
    {
        self.marks.reserve(1)?;
        let reply = self.answer(alloc, call);
        write_reply(alloc, out, &reply)?;
        Ok(())
    }

    /// Answers one call, and marks the disk.
    fn answer(&mut self, alloc: Global, call: &LogCall) -> LogReply
        requires room { vec_len self.old.marks < vec_capacity self.old.marks }
        requires most { self.old.logged.most ≡ 1048576 }
        ensures most { self.new.logged.most ≡ 1048576 }
        ensures answers { AnswersNext D.tells call.now result self.old.marks.items (state_of D.state (blocks_in self.old.logged.fs)) self.new.marks.items
            (state_of D.state (blocks_in self.new.logged.fs)) }
        ensures marks { length self.new.marks.items ≡ length self.old.marks.items + 1 }
    {
        a_reply_tells_the_points::<Store<D>>();
        a_reply_tells_which_call_failed::<Store<D>>();
        a_refusal_for_the_disk_has_its_cause::<Store<D>>();
        a_command_is_answered_in_a_room_that_came_back::<Store<D>>();
        a_command_raises_the_numbers_little::<Store<D>>();
        let reply = self.logged.answer(alloc, call);
        the_disk_keeps_to_its_manner(self.logged.blocks());
        let mark = mark_of(self.logged.blocks().disk());
        self.marks.push_reserved(mark);
        reply
    }

    /// The store and the marks, given back.
    pub(crate) fn into_parts(self) -> (Store<D>, Vec<Mark>)
        ensures store { result.0 ≡ blocks_in self.logged.fs }
        ensures marks { result.1 ≡ self.marks }
    {
        let Running { logged, marks } = self;
        (logged.into_blocks(), marks)
    }
}

/// Writes the line of a reply.
///
/// # Errors
/// Out of memory, and then nothing is written; or a fault of the sink.
pub(crate) fn write_reply<K: Sink>(alloc: Global, out: &mut K, reply: &LogReply) -> Result<(), Stop>
    ensures all { OnOk result (Appends (K.taken out.old) (K.taken out.new) (log_reply_line reply.now)) }
    ensures front { OnErr result (TakesPrefix (K.taken out.old) (K.taken out.new) (log_reply_line reply.now)) }
    ensures quiet { result ≡ Err OutOfMemory → out.new ≡ out.old }
    ensures pushes { K.faults out.new ≡ after_call (stops_pushing result) (K.faults out.old) }
    ensures rises { K.faults out.old ≤ K.faults out.new }
{
    let mut line = log_reply_text(alloc, reply)?;
    line.push(FEED)?;
    push_all(out, line.as_slice())?;
    Ok(())
}

/// A line feed.
const FEED: u8 = b'\n';
