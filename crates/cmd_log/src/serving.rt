//! A log whose calls are answered one after the other, and what is known of those that were answered. How the disk comes
//! to be mounted, and where calls come from, is not said here.

ghost use Rattle.std.specs.Prelude.{◌≡◌, ◌<◌, ◌^◌};
ghost use Rattle.cmd_log.specs.Answering.{reply_for};

use crash_stands::an_image_stands_for_one_tree;
use engine_blocks::Blocks;
use fs_commands::Fs;
use fs_log::{
    AppLog, LogRefusal, OpenRefusal, a_resting_log_is_as_it_was, each_crash_leaves_a_former_log,
};
use lang_log::{LogCall, LogReply};
use lang_tree::Refusal;
use std::alloc::Global;
use std::marker::Model;

/// A log over blocks on a disk, which answers calls.
#[derive(Drop)]
pub struct Logged<S: Blocks + Drop> {
    log: AppLog<S>,
}

impl<S: Blocks + Drop> Model for Logged<S> {
    ghost use Rattle.fs_log.specs.Open.{Open};

    ghost Value = { Open S };

    ghost view = { λ s. s.log };
}

impl<S: Blocks + Drop> Logged<S> {
    ghost use Rattle.std.specs.Prelude.{◌≡◌, ◌≤◌, ◌^◌, ◌++◌, ◌∷◌, [], ℕ, IfErr, IfOk, IsTrue, List, length};
    ghost use Rattle.layout_geometry.specs.Geometry.{Geometry};
    ghost use Rattle.lang_log.specs.declared.call.LogCall.{LogCall};
    ghost use Rattle.lang_log.specs.declared.call.LogCall.TheVariants.{Append, Count, Get, Order, Sync, Trim};
    ghost use Rattle.lang_log.specs.declared.call.LogReply.{LogReply};
    ghost use Rattle.lang_log.specs.Log.{HasNoLog, IsLogOf, Log};
    ghost use Rattle.lang_tree.specs.Tree.{Tree};
    ghost use Rattle.fs_commands.specs.Opened.{MayFollow, blocks_in};
    ghost use Rattle.fs_log.specs.declared.refusal.OpenRefusal.TheVariants.{BadLog};
    ghost use Rattle.fs_log.specs.Open.{Mirrors, low_in, state_in};
    ghost use Rattle.fs_log.specs.Opening.{AsksToOpen, HasRange, IsNotOpened, KeepsTree, MakesNoPoint, StandsIn};
    ghost use Rattle.fs_log.specs.Ways.{Way};
    ghost use Rattle.cmd_session.specs.Serving.{HasServed, IsDrawn};
    ghost use Rattle.cmd_log.specs.Answering.{IsAnswered};
    ghost use Rattle.cmd_log.specs.Serving.{HasLogged};

    /// Opens the log of a file system over blocks that were just mounted, in which no command was answered yet. A segment
    /// comes to have so many bytes at most. It begins a run of no calls: until the log is open, each crash leaves it as it
    /// was opened.
    ///
    /// # Errors
    /// What lies at `/log` is no log; or a refusal of the file system. It is handed back, and its tree is as it was.
    pub fn open(alloc: Global, fs: Fs<S>, most: u32) -> Result<Logged<S>, (Fs<S>, OpenRefusal)>
        requires follows { MayFollow S.tells S.state fs }
        requires least { 65540 ≤ most }
        requires most { most ≤ 2 ^ 30 }
        ensures logs { IsTrue S.tells → ((s : S) → IsDrawn (S.state s)) → (g : Geometry) (t : Tree) (mounted : ℕ) (l : Log)
            → HasServed g t mounted [] [] [] (S.state (blocks_in fs)) → IsLogOf t l
            → IfOk result (λ logged. HasLogged g (length (state_in S.state logged).crash.log) l [] [] [] (state_in S.state logged)) }
        ensures range { IsTrue S.tells → IfOk result (λ logged. (t : Tree) → StandsIn (S.state (blocks_in fs)) t → HasRange t (low_in logged) logged.next) }
        ensures most { IfOk result (λ logged. logged.most ≡ most) }
        ensures time { IsTrue S.tells → IfOk result (λ logged. MakesNoPoint (S.state (blocks_in fs)) (state_in S.state logged)) }
        ensures asked { IsTrue S.tells → IfOk result (λ logged. Way S.tells S.state AsksToOpen (blocks_in fs) (blocks_in logged.fs)) }
        ensures bad { IsTrue S.tells → IfErr result (λ e. e.1 ≡ BadLog → (t : Tree) → StandsIn (S.state (blocks_in fs)) t → HasNoLog t) }
        ensures back { IfErr result (λ e. MayFollow S.tells S.state e.0) }
        ensures same { IsTrue S.tells → IfErr result (λ e. KeepsTree (S.state (blocks_in fs)) (S.state (blocks_in e.0))) }
        ensures cause { (S.state (blocks_in fs)).books.running.weight ≡ 0
            → IfErr result (λ e. IsNotOpened S.tells S.state e.1 (blocks_in fs) (blocks_in e.0)) }
    {
        an_image_stands_for_one_tree();
        a_resting_log_is_as_it_was::<S>();
        each_crash_leaves_a_former_log::<S>();
        match AppLog::open(alloc, fs, most) {
            Ok(log) => Ok(Logged { log }),
            Err(refused) => Err(refused),
        }
    }

    /// Answers one call. What was known of the run so far is known of the longer one.
    pub fn answer(&mut self, alloc: Global, call: &LogCall) -> LogReply
        ensures logs { IsTrue S.tells → ((s : S) → IsDrawn (S.state s))
            → (g : Geometry) (begun : ℕ) (opened : Log) (calls : List LogCall) (replies : List LogReply) (marks : List ℕ)
            → HasLogged g begun opened calls replies marks (state_in S.state self.old)
            → HasLogged g begun opened (calls ++ call.now ∷ []) (replies ++ result ∷ []) (marks ++ length (state_in S.state self.new).crash.log ∷ [])
            (state_in S.state self.new) }
        ensures answered { IsAnswered S.tells S.state call.now result self.old self.new }
        ensures mirrors { IsTrue S.tells → Mirrors (state_in S.state self.old) self.old.firsts self.old.size self.old.next }
    {
        a_resting_log_is_as_it_was::<S>();
        each_crash_leaves_a_former_log::<S>();
        // a call for its clause alone: the numbers in memory are those of the log
        let _ = self.log.range();
        let reply = self.reply(alloc, call);
        reply
    }

    /// Answers one call.
    fn reply(&mut self, alloc: Global, call: &LogCall) -> LogReply
        ensures { IsAnswered S.tells S.state call.now result self.old self.new }
    {
        a_resting_log_is_as_it_was::<S>();
        match call {
            LogCall::Append(bytes) => self.append(alloc, bytes.as_slice()),
            LogCall::Get(number) => self.get(alloc, *number),
            LogCall::Trim(number) => self.trim(alloc, *number),
            LogCall::Count => self.count(),
            LogCall::Order => self.order(alloc),
            LogCall::Sync => self.sync(alloc),
            LogCall::Bad => LogReply::Bad,
        }
    }

    /// Appends these bytes.
    fn append(&mut self, alloc: Global, bytes: &[u8]) -> LogReply
        ensures { IsAnswered S.tells S.state (Append bytes.now) result self.old self.new }
    {
        // calls for their clauses alone: which numbers the log has
        let (_, next) = self.log.range();
        is_below_the_end(next);
        let number = match self.log.append(alloc, bytes) {
            Ok(number) => number,
            Err(why) => return reply_for(why),
        };
        LogReply::Number(number)
    }

    /// The append with this number.
    fn get(&mut self, alloc: Global, number: u32) -> LogReply
        ensures { IsAnswered S.tells S.state (Get number) result self.old self.new }
    {
        // a call for its clauses alone: which numbers the log has
        let _ = self.log.range();
        let bytes = match self.log.get(alloc, number) {
            Ok(bytes) => bytes,
            Err(why) => return reply_for(why),
        };
        LogReply::Bytes(bytes)
    }

    /// Lets go of appends below this number.
    fn trim(&mut self, alloc: Global, number: u32) -> LogReply
        ensures { IsAnswered S.tells S.state (Trim number) result self.old self.new }
    {
        let trimmed = self.log.trim(alloc, number);
        // a call for its clauses alone: which numbers the log has now
        let _ = self.log.range();
        let low = match trimmed {
            Ok(low) => low,
            Err(why) => return reply_for(why),
        };
        LogReply::Low(low)
    }

    /// The number with which the log begins, and that of the next append.
    fn count(&self) -> LogReply
        ensures { IsAnswered S.tells S.state Count result self.now self.now }
    {
        a_resting_log_is_as_it_was::<S>();
        let (low, next) = self.log.range();
        LogReply::Range { low, next }
    }

    /// Lets all appends so far go to the disk, and doesn't wait.
    fn order(&mut self, alloc: Global) -> LogReply
        ensures { IsAnswered S.tells S.state Order result self.old self.new }
    {
        let point = match self.log.order(alloc) {
            Ok(point) => point,
            Err(why) => return reply_for(why),
        };
        LogReply::Ordered(point)
    }

    /// Waits until all appends so far are on the disk.
    fn sync(&mut self, alloc: Global) -> LogReply
        ensures { IsAnswered S.tells S.state Sync result self.old self.new }
    {
        let point = match self.log.sync(alloc) {
            Ok(point) => point,
            Err(why) => return reply_for(why),
        };
        LogReply::Durable(point)
    }

    /// The blocks.
    pub fn blocks(&self) -> &S
        ensures { result.now ≡ blocks_in self.now.fs }
    {
        self.log.fs().blocks()
    }

    /// The blocks, given back. What no sync point has is lost.
    pub fn into_blocks(self) -> S
        ensures { result ≡ blocks_in self.fs }
    {
        let Logged { log } = self;
        log.into_fs().into_blocks()
    }
}

/// Does nothing. A proof learns from the call that a number of 32 bits is below 2^32.
fn is_below_the_end(number: u32)
    ensures { number < 2 ^ 32 }
{}

/// How a refusal is answered. Where what lies in the directory of the log isn't the log that was written there, the disk
/// has misread it.
fn reply_for(why: LogRefusal) -> LogReply
    ensures { result ≡ reply_for why }
{
    match why {
        LogRefusal::BadLog => LogReply::Refused(Refusal::ReadFault),
        LogRefusal::TooLong => LogReply::TooLong,
        LogRefusal::LogEnd => LogReply::LogEnd,
        LogRefusal::NoRecord { low, next } => LogReply::NoRecord { low, next },
        LogRefusal::Fs(why) => LogReply::Refused(why),
    }
}
