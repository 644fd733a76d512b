//! The log: appending to it, trimming it, ordering its appends, making them last, and its numbers. How a single command is
//! asked, and what it makes of the log, is not said here.

ghost use Rattle.std.specs.Prelude.{◌≡◌, ◌<◌, ◌≤◌, ◌-◌, if◌then◌else◌, false, IfErr, IfOk, OnErr, Some, length, slice_get};
ghost use Rattle.fs_log.specs.Reading.{IsLastUpto};
ghost use Rattle.lang_tree.specs.declared.command.Reply.TheVariants.{DurableAt, Synced};
ghost use Rattle.fs_log.specs.Asked.{is_durable, is_synced};
ghost use Rattle.fs_log.specs.Open.{first_or, may_go};
ghost use Rattle.fs_log.specs.Opening.{is_settled};
ghost use Rattle.fs_commands.specs.Opened.{blocks_in};
ghost use Rattle.fs_log.specs.Refusals.{refusal_for};

use crate::asking::{change_log, create_segment, order, remove_segment, sync, write_append};
use crate::opening::find_log;
use crate::reading::{append_at, seek};
use crate::refusal::{LogRefusal, OpenRefusal, done, refused};
use base_types::Bytes;
use crash_stands::an_image_stands_for_one_tree;
use engine_blocks::{Blocks, calls_compose};
use fs_commands::Fs;
use fs_session::{a_crash_leaves_the_tree_of_a_point, points_stay_known};
use lang_log::{
    HEAD, LONGEST_APPEND, a_tree_has_one_log, an_append_lies_in_its_segment,
    names_tell_numbers_apart,
};
use lang_tree::Reply;
use std::alloc::Global;
use std::marker::Model;

/// A log over a file system.
#[derive(Drop)]
pub struct AppLog<S: Blocks + Drop> {
    fs: Fs<S>,
    /// How many bytes a segment comes to have at most.
    most: u32,
    /// The numbers with which the segments begin, in order.
    firsts: Vec<u32>,
    /// The bytes of the last segment.
    size: u32,
    /// The number of the next append.
    next: u32,
    /// All appends below this number are on the disk.
    kept: u32,
}

impl<S: Blocks + Drop> Model for AppLog<S> {
    ghost use Rattle.fs_log.specs.Open.{IsOpen, Open};

    ghost Value = { Open S };

    ghost view = { λ l. record { fs = l.fs; most = l.most; firsts = l.firsts.items; size = l.size; next = l.next; kept = l.kept } };

    ghost invariant = { λ l.
        IsOpen S.tells S.state (record { fs = l.fs; most = l.most; firsts = l.firsts.items; size = l.size; next = l.next; kept = l.kept }) };
}

impl<S: Blocks + Drop> AppLog<S> {
    ghost use Rattle.std.specs.Prelude.{◌≡◌, ◌⊎◌, ◌<◌, ◌≤◌, ◌+◌, ◌^◌, ◌++◌, ◌∷◌, [], ◌==◌};
    ghost use Rattle.std.specs.Prelude.{◌&&◌, ◌||◌, ◌-◌, nat_lt, nat_le, slice_get, Some, true, false};
    ghost use Rattle.std.specs.Prelude.{drop, length, IsTrue, IfErr, IfOk, OnErr, OnOk};
    ghost use Rattle.lang_tree.specs.Tree.{Tree};
    ghost use Rattle.lang_log.specs.History.{History, appended, opened_with, synced, trimmed_to};
    ghost use Rattle.lang_log.specs.Log.{HasNoLog, IsLogOf, Log, next_of};
    ghost use Rattle.lang_log.specs.Spelling.{IsShort};
    ghost use Rattle.engine_blocks.specs.Crashes.{Advances};
    ghost use Rattle.fs_commands.specs.Opened.{MayFollow, blocks_in};
    ghost use Rattle.fs_log.specs.Causes.{AsksToAppend, AsksToGet, AsksToOrder, AsksToSync, AsksToTrim, HasCallCause};
    ghost use Rattle.fs_log.specs.Causes.{AsksForRoom, AsksToMake, AsksToRemove, AsksToWrite, MakesRoom, has_room};
    ghost use Rattle.fs_log.specs.Keeping.{Keeps, TakesLog, as_before};
    ghost use Rattle.fs_log.specs.Open.{Mirrors, low_in, second_of, state_in};
    ghost use Rattle.fs_log.specs.declared.refusal.OpenRefusal.TheVariants.{BadLog};
    ghost use Rattle.fs_log.specs.Opening.{AsksToOpen, HasRange, IsNotOpened, KeepsTree, MakesNoPoint, StandsAsMounted, StandsIn, kept_by};
    ghost use Rattle.fs_log.specs.Refusals.{IsOfRange, is_log_end, is_no_record, is_of_append, is_of_look, is_of_none, is_own, is_too_long};
    ghost use Rattle.fs_log.specs.Trimming.{IsTrimmed, TrimsTo};
    ghost use Rattle.fs_log.specs.Ways.{Way};

    /// Opens the log in the directory `/log`, which is made where nothing is there. A segment comes to have so many bytes
    /// at most. Each segment is read once, a window at a time, and nothing is changed but that directory.
    ///
    /// # Errors
    /// What lies at `/log` is no log; or a refusal of the file system. It is handed back, and its tree is as it was.
    pub fn open(alloc: Global, mut fs: Fs<S>, most: u32) -> Result<AppLog<S>, (Fs<S>, OpenRefusal)>
        requires follows { MayFollow S.tells S.state fs }
        requires least { 65540 ≤ most }
        requires most { most ≤ 2 ^ 30 }
        ensures goes { IsTrue S.tells → IfOk result (λ log. TakesLog as_before (S.state (blocks_in fs)) (state_in S.state log)) }
        ensures begins { IsTrue S.tells → (t : Tree) (l : Log) → StandsAsMounted (S.state (blocks_in fs)) t → IsLogOf t l
            → Keeps (opened_with l) (S.state (blocks_in fs)) }
        ensures range { IsTrue S.tells → IfOk result (λ log. (t : Tree) → StandsIn (S.state (blocks_in fs)) t → HasRange t (low_in log) log.next) }
        ensures most { IfOk result (λ log. log.most ≡ most) }
        ensures kept { IfOk result (λ log. log.kept ≡ kept_by (S.state (blocks_in fs)).books log.next) }
        ensures time { IsTrue S.tells → IfOk result (λ log. MakesNoPoint (S.state (blocks_in fs)) (state_in S.state log)) }
        ensures asked { IsTrue S.tells → IfOk result (λ log. Way S.tells S.state AsksToOpen (blocks_in fs) (blocks_in log.fs)) }
        ensures bad { IsTrue S.tells → IfErr result (λ e. e.1 ≡ BadLog → (t : Tree) → StandsIn (S.state (blocks_in fs)) t → HasNoLog t) }
        ensures back { IfErr result (λ e. MayFollow S.tells S.state e.0) }
        ensures same { IsTrue S.tells → IfErr result (λ e. KeepsTree (S.state (blocks_in fs)) (S.state (blocks_in e.0))) }
        ensures cause { (S.state (blocks_in fs)).books.running.weight ≡ 0
            → IfErr result (λ e. IsNotOpened S.tells S.state e.1 (blocks_in fs) (blocks_in e.0)) }
    {
        an_image_stands_for_one_tree();
        points_stay_known(fs.blocks());
        let settled = is_settled(&fs);
        match find_log(alloc, &mut fs) {
            Ok(found) => {
                let kept = kept_below(settled, found.next);
                Ok(AppLog {
                    fs,
                    most,
                    firsts: found.firsts,
                    size: found.size,
                    next: found.next,
                    kept,
                })
            }
            Err(why) => Err((fs, why)),
        }
    }

    /// Appends these bytes, and answers their number. A crash may still take them.
    ///
    /// # Errors
    /// They are more than 65,536; or the numbers are used up; or a refusal of the file system. The log is as it was.
    pub fn append(&mut self, alloc: Global, bytes: &[u8]) -> Result<u32, LogRefusal>
        ensures done { IsTrue S.tells → OnOk result (TakesLog (appended bytes.now) (state_in S.state self.old) (state_in S.state self.new)) }
        ensures refused { IsTrue S.tells → OnErr result (TakesLog as_before (state_in S.state self.old) (state_in S.state self.new)) }
        ensures number { IfOk result (λ number. (number ≡ self.old.next) × (self.new.next ≡ self.old.next + 1)) }
        ensures same { OnErr result (self.new.next ≡ self.old.next) }
        ensures kept { self.new.kept ≡ self.old.kept }
        ensures long { is_too_long result ≡ nat_lt 65536 (length bytes.now) }
        ensures end { is_log_end result ≡ (nat_le (length bytes.now) 65536 && (self.old.next == 4294967295)) }
        ensures most { self.new.most ≡ self.old.most }
        ensures asked { IsTrue S.tells → OnOk result (Way S.tells S.state (AsksToAppend self.old bytes.now) (blocks_in self.old.fs) (blocks_in self.new.fs)) }
        ensures cause { IfErr result (λ why.
            HasCallCause S.tells S.state is_of_append (AsksToAppend self.old bytes.now) why (blocks_in self.old.fs) (blocks_in self.new.fs)) }
    {
        calls_compose::<S>();
        a_crash_leaves_the_tree_of_a_point::<S>();
        if LONGEST_APPEND < bytes.len() {
            return Err(LogRefusal::TooLong);
        }
        if self.next == u32::MAX {
            return Err(LogRefusal::LogEnd);
        }
        let number = self.next;
        self.put(alloc, bytes)?;
        Ok(number)
    }

    /// Appends bytes that may be appended.
    ///
    /// # Errors
    /// A refusal of the file system. The log is as it was.
    fn put(&mut self, alloc: Global, bytes: &[u8]) -> Result<(), LogRefusal>
        requires short { IsShort bytes.now }
        requires left { self.old.next < 4294967295 }
        ensures done { IsTrue S.tells → OnOk result (TakesLog (appended bytes.now) (state_in S.state self.old) (state_in S.state self.new)) }
        ensures refused { IsTrue S.tells → OnErr result (TakesLog as_before (state_in S.state self.old) (state_in S.state self.new)) }
        ensures number { OnOk result (self.new.next ≡ self.old.next + 1) }
        ensures same { OnErr result (self.new.next ≡ self.old.next) }
        ensures kept { self.new.kept ≡ self.old.kept }
        ensures why { IfErr result (λ why. is_own why ≡ false) }
        ensures most { self.new.most ≡ self.old.most }
        ensures asked { IsTrue S.tells → OnOk result (Way S.tells S.state (AsksToAppend self.old bytes.now) (blocks_in self.old.fs) (blocks_in self.new.fs)) }
        ensures cause { IfErr result (λ why.
            HasCallCause S.tells S.state is_of_none (AsksToAppend self.old bytes.now) why (blocks_in self.old.fs) (blocks_in self.new.fs)) }
    {
        calls_compose::<S>();
        self.make_room(alloc, (HEAD + bytes.len()) as u32)?;
        self.write(alloc, bytes)?;
        Ok(())
    }

    /// Sees to it that the last segment has room for so many bytes: it makes a new one where there is none or it would
    /// come to have too many.
    ///
    /// # Errors
    /// A refusal of the file system.
    fn make_room(&mut self, alloc: Global, count: u32) -> Result<(), LogRefusal>
        requires short { count ≤ 65540 }
        ensures rests { IsTrue S.tells → TakesLog as_before (state_in S.state self.old) (state_in S.state self.new) }
        ensures time { IsTrue S.tells → Advances (state_in S.state self.old) (state_in S.state self.new) }
        ensures room { OnOk result ((0 < length self.new.firsts) × (self.new.size + count ≤ self.new.most)) }
        ensures made { OnOk result (MakesRoom count self.old self.new) }
        ensures same { (self.new.next ≡ self.old.next) × (self.new.kept ≡ self.old.kept) }
        ensures why { IfErr result (λ why. is_own why ≡ false) }
        ensures none { OnErr result (has_room self.old count ≡ false) }
        ensures most { self.new.most ≡ self.old.most }
        ensures asked { IsTrue S.tells → OnOk result (Way S.tells S.state (AsksForRoom self.old count) (blocks_in self.old.fs) (blocks_in self.new.fs)) }
        ensures cause { IfErr result (λ why.
            HasCallCause S.tells S.state is_of_none (AsksToMake self.old) why (blocks_in self.old.fs) (blocks_in self.new.fs)) }
    {
        calls_compose::<S>();
        a_crash_leaves_the_tree_of_a_point::<S>();
        if self.has_room(count) {
            return Ok(());
        }
        self.add_segment(alloc)?;
        Ok(())
    }

    /// Whether there is a last segment that has room for so many bytes.
    fn has_room(&self, count: u32) -> bool
        ensures is { result ≡ has_room self.now count }
        ensures room { result ≡ true → (0 < length self.now.firsts) × (self.now.size + count ≤ self.now.most) }
        ensures none { result ≡ false → (self.now.firsts ≡ []) ⊎ (self.now.most < self.now.size + count) }
        ensures least { 65540 ≤ self.now.most }
    {
        if self.firsts.is_empty() {
            return false;
        }
        u64::from(self.size) + u64::from(count) <= u64::from(self.most)
    }

    /// Makes an empty segment behind the others.
    ///
    /// # Errors
    /// A refusal of the file system.
    fn add_segment(&mut self, alloc: Global) -> Result<(), LogRefusal>
        requires used { (self.old.firsts ≡ []) ⊎ (0 < self.old.size) }
        ensures rests { IsTrue S.tells → TakesLog as_before (state_in S.state self.old) (state_in S.state self.new) }
        ensures time { IsTrue S.tells → Advances (state_in S.state self.old) (state_in S.state self.new) }
        ensures made { OnOk result ((self.new.firsts ≡ self.old.firsts ++ self.old.next ∷ []) × (self.new.size ≡ 0)) }
        ensures same { (self.new.next ≡ self.old.next) × (self.new.kept ≡ self.old.kept) × (self.new.most ≡ self.old.most) }
        ensures why { IfErr result (λ why. is_own why ≡ false) }
        ensures asked { IsTrue S.tells → OnOk result (Way S.tells S.state (AsksToMake self.old) (blocks_in self.old.fs) (blocks_in self.new.fs)) }
        ensures cause { IfErr result (λ why.
            HasCallCause S.tells S.state is_of_none (AsksToMake self.old) why (blocks_in self.old.fs) (blocks_in self.new.fs)) }
    {
        calls_compose::<S>();
        a_crash_leaves_the_tree_of_a_point::<S>();
        names_tell_numbers_apart();
        self.firsts.reserve(1)?;
        let cmd = create_segment(alloc, self.next)?;
        let reply = change_log(alloc, &mut self.fs, &cmd);
        done(&reply)?;
        self.firsts.push(self.next).unwrap();
        self.size = 0;
        Ok(())
    }

    /// Writes an append behind the last one of the last segment, which has room for it.
    ///
    /// # Errors
    /// A refusal of the file system. The log is as it was.
    fn write(&mut self, alloc: Global, bytes: &[u8]) -> Result<(), LogRefusal>
        requires short { IsShort bytes.now }
        requires left { self.old.next < 4294967295 }
        requires some { 0 < length self.old.firsts }
        requires room { self.old.size + 4 + length bytes.now ≤ self.old.most }
        ensures done { IsTrue S.tells → OnOk result (TakesLog (appended bytes.now) (state_in S.state self.old) (state_in S.state self.new)) }
        ensures refused { IsTrue S.tells → OnErr result (TakesLog as_before (state_in S.state self.old) (state_in S.state self.new)) }
        ensures number { OnOk result (self.new.next ≡ self.old.next + 1) }
        ensures same { OnErr result (self.new.next ≡ self.old.next) }
        ensures kept { self.new.kept ≡ self.old.kept }
        ensures why { IfErr result (λ why. is_own why ≡ false) }
        ensures most { self.new.most ≡ self.old.most }
        ensures asked { IsTrue S.tells → OnOk result (Way S.tells S.state (AsksToWrite self.old bytes.now) (blocks_in self.old.fs) (blocks_in self.new.fs)) }
        ensures cause { IfErr result (λ why.
            HasCallCause S.tells S.state is_of_none (AsksToWrite self.old bytes.now) why (blocks_in self.old.fs) (blocks_in self.new.fs)) }
    {
        calls_compose::<S>();
        a_crash_leaves_the_tree_of_a_point::<S>();
        let first = last_of(self.firsts.as_slice());
        let cmd = write_append(alloc, first, self.size, bytes)?;
        let reply = change_log(alloc, &mut self.fs, &cmd);
        done(&reply)?;
        self.size += (HEAD + bytes.len()) as u32;
        self.next += 1;
        Ok(())
    }

    /// The bytes of the append with this number.
    ///
    /// # Errors
    /// The log has no such append; or a refusal of the file system.
    pub fn get(&mut self, alloc: Global, number: u32) -> Result<Bytes, LogRefusal>
        ensures goes { IsTrue S.tells → TakesLog as_before (state_in S.state self.old) (state_in S.state self.new) }
        ensures bytes { IsTrue S.tells → IfOk result (λ bytes. (h : History) → Keeps h (state_in S.state self.old)
            → slice_get h.now.appends (number - h.now.low) ≡ Some bytes) }
        ensures none { is_no_record result ≡ (nat_lt number (low_in self.old) || nat_le self.old.next number) }
        ensures range { IfErr result (IsOfRange (low_in self.old) self.old.next) }
        ensures most { self.new.most ≡ self.old.most }
        ensures asked { IsTrue S.tells → OnOk result (Way S.tells S.state (AsksToGet self.old number) (blocks_in self.old.fs) (blocks_in self.new.fs)) }
        ensures cause { IfErr result (λ why.
            HasCallCause S.tells S.state is_of_look (AsksToGet self.old number) why (blocks_in self.old.fs) (blocks_in self.new.fs)) }
        ensures same { (self.new.firsts ≡ self.old.firsts) × (self.new.next ≡ self.old.next) × (self.new.kept ≡ self.old.kept) }
    {
        calls_compose::<S>();
        a_crash_leaves_the_tree_of_a_point::<S>();
        a_tree_has_one_log();
        an_append_lies_in_its_segment();
        let (low, next) = self.range();
        if number < low {
            return Err(LogRefusal::NoRecord { low, next });
        }
        if next <= number {
            return Err(LogRefusal::NoRecord { low, next });
        }
        let first = first_for(self.firsts.as_slice(), number);
        let offset = seek(alloc, &mut self.fs, first, number - first)?;
        let bytes = append_at(alloc, &mut self.fs, first, offset)?;
        Ok(bytes)
    }

    /// Removes segments from the front that have no append from this number on, but never the last one, and answers the
    /// number with which the log begins then.
    ///
    /// # Errors
    /// A refusal of the file system; some segments may be removed by then.
    pub fn trim(&mut self, alloc: Global, number: u32) -> Result<u32, LogRefusal>
        ensures goes { IsTrue S.tells → TrimsTo S.state number self.old self.new }
        ensures end { OnOk result (IsTrimmed number self.new) }
        ensures low { IfOk result (λ low. low ≡ low_in self.new) }
        ensures same { (self.new.next ≡ self.old.next) × (self.new.kept ≡ self.old.kept) }
        ensures why { IfErr result (λ why. is_own why ≡ false) }
        ensures most { self.new.most ≡ self.old.most }
        ensures asked { IsTrue S.tells → OnOk result (Way S.tells S.state (AsksToTrim self.old number) (blocks_in self.old.fs) (blocks_in self.new.fs)) }
        ensures cause { IfErr result (λ why.
            HasCallCause S.tells S.state is_of_none (AsksToTrim self.old number) why (blocks_in self.old.fs) (blocks_in self.new.fs)) }
    {
        calls_compose::<S>();
        a_crash_leaves_the_tree_of_a_point::<S>();
        while may_go(self.firsts.as_slice(), number) {
            self.second_begins_within();
            self.remove_first(alloc)?;
        }
        let low = first_or(self.firsts.as_slice(), self.next);
        Ok(low)
    }

    /// Does nothing. A proof learns from the call that the second segment, where there is one, begins with one of the
    /// log's numbers or the next one.
    fn second_begins_within(&self)
        ensures { IsTrue S.tells → 2 ≤ length self.now.firsts → (h : History) → Keeps h (state_in S.state self.now)
            → (h.now.low ≤ second_of self.now.firsts) × (second_of self.now.firsts ≤ next_of h.now) }
    {
        a_tree_has_one_log();
        let _ = &self.firsts;
    }

    /// Removes the first segment, which isn't the last.
    ///
    /// # Errors
    /// A refusal of the file system. The log is as it was.
    fn remove_first(&mut self, alloc: Global) -> Result<(), LogRefusal>
        requires two { 2 ≤ length self.old.firsts }
        ensures done { IsTrue S.tells
            → OnOk result (TakesLog (trimmed_to (second_of self.old.firsts)) (state_in S.state self.old) (state_in S.state self.new)) }
        ensures refused { IsTrue S.tells → OnErr result (TakesLog as_before (state_in S.state self.old) (state_in S.state self.new)) }
        ensures time { IsTrue S.tells → Advances (state_in S.state self.old) (state_in S.state self.new) }
        ensures gone { OnOk result (self.new.firsts ≡ drop 1 self.old.firsts) }
        ensures still { OnErr result (self.new.firsts ≡ self.old.firsts) }
        ensures same { (self.new.next ≡ self.old.next) × (self.new.kept ≡ self.old.kept) }
        ensures why { IfErr result (λ why. is_own why ≡ false) }
        ensures most { self.new.most ≡ self.old.most }
        ensures asked { IsTrue S.tells → OnOk result (Way S.tells S.state (AsksToRemove self.old) (blocks_in self.old.fs) (blocks_in self.new.fs)) }
        ensures cause { IfErr result (λ why.
            HasCallCause S.tells S.state is_of_none (AsksToRemove self.old) why (blocks_in self.old.fs) (blocks_in self.new.fs)) }
    {
        calls_compose::<S>();
        a_crash_leaves_the_tree_of_a_point::<S>();
        let cmd = remove_segment(alloc, self.firsts[0])?;
        let reply = change_log(alloc, &mut self.fs, &cmd);
        done(&reply)?;
        self.firsts.remove(0);
        Ok(())
    }

    /// Lets all appends so far go to the disk, as one whole, and doesn't wait.
    ///
    /// # Errors
    /// A refusal of the file system.
    pub fn order(&mut self, alloc: Global) -> Result<u64, LogRefusal>
        ensures goes { IsTrue S.tells → TakesLog as_before (state_in S.state self.old) (state_in S.state self.new) }
        ensures same { (self.new.firsts ≡ self.old.firsts) × (self.new.next ≡ self.old.next) × (self.new.kept ≡ self.old.kept) }
        ensures most { self.new.most ≡ self.old.most }
        ensures asked { IsTrue S.tells → OnOk result (Way S.tells S.state AsksToOrder (blocks_in self.old.fs) (blocks_in self.new.fs)) }
        ensures cause { IfErr result (λ why.
            HasCallCause S.tells S.state is_of_none AsksToOrder why (blocks_in self.old.fs) (blocks_in self.new.fs)) }
    {
        let reply = order(alloc, &mut self.fs);
        point_made(&reply)
    }

    /// Waits until all appends so far are on the disk.
    ///
    /// # Errors
    /// A refusal of the file system.
    pub fn sync(&mut self, alloc: Global) -> Result<u64, LogRefusal>
        ensures done { IsTrue S.tells → OnOk result (TakesLog synced (state_in S.state self.old) (state_in S.state self.new)) }
        ensures refused { IsTrue S.tells → OnErr result (TakesLog as_before (state_in S.state self.old) (state_in S.state self.new)) }
        ensures same { (self.new.firsts ≡ self.old.firsts) × (self.new.next ≡ self.old.next) }
        ensures kept { OnOk result (self.new.kept ≡ self.old.next) }
        ensures most { self.new.most ≡ self.old.most }
        ensures asked { IsTrue S.tells → OnOk result (Way S.tells S.state AsksToSync (blocks_in self.old.fs) (blocks_in self.new.fs)) }
        ensures cause { IfErr result (λ why.
            HasCallCause S.tells S.state is_of_none AsksToSync why (blocks_in self.old.fs) (blocks_in self.new.fs)) }
    {
        let reply = sync(alloc, &mut self.fs);
        let point = point_on_disk(&reply)?;
        self.kept = self.next;
        Ok(point)
    }

    /// The number with which the log begins, and that of the next append.
    pub fn range(&self) -> (u32, u32)
        ensures shown { (result.0 ≡ low_in self.now) × (result.1 ≡ self.now.next) }
        ensures told { IsTrue S.tells → (h : History) → Keeps h (state_in S.state self.now)
            → (low_in self.now ≡ h.now.low) × (self.now.next ≡ next_of h.now) }
        ensures mirrors { IsTrue S.tells → Mirrors (state_in S.state self.now) self.now.firsts self.now.size self.now.next }
    {
        a_tree_has_one_log();
        let low = first_or(self.firsts.as_slice(), self.next);
        (low, self.next)
    }

    /// The number below which all appends are on the disk.
    pub fn kept(&self) -> u32
        ensures { result ≡ self.now.kept }
    {
        self.kept
    }

    /// The file system.
    pub fn fs(&self) -> &Fs<S>
        ensures { result.now ≡ self.now.fs }
    {
        &self.fs
    }

    /// The file system, given back. What no sync point has is lost.
    pub fn into_fs(self) -> Fs<S>
        ensures { result ≡ self.fs }
    {
        let AppLog {
            fs,
            most: _,
            firsts: _,
            size: _,
            next: _,
            kept: _,
        } = self;
        fs
    }
}

/// Whether all is on the disk: nothing changed since the last sync point, and that is there.
fn is_settled<S: Blocks>(fs: &Fs<S>) -> bool
    ensures { result ≡ is_settled (S.state (blocks_in fs.now)).books }
{
    let figures = fs.figures();
    figures.weight == 0 && figures.point <= figures.floor
}

/// The number below which all appends of a log are on the disk, as far as is known.
fn kept_below(settled: bool, next: u32) -> u32
    ensures { result ≡ (if settled then next else 0) }
{
    if settled {
        return next;
    }
    0
}

/// Whether the first of the segments that begin with these numbers may go: there is a second one, and it begins with
/// this number or a lower one.
fn may_go(firsts: &[u32], number: u32) -> bool
    ensures { result ≡ may_go number firsts.now }
{
    if firsts.len() < 2 {
        return false;
    }
    firsts[1] <= number
}

/// The last of these numbers.
fn last_of(numbers: &[u32]) -> u32
    requires some { 0 < length numbers.now }
    ensures { slice_get numbers.now (length numbers.now - 1) ≡ Some result }
{
    numbers[numbers.len() - 1]
}

/// The last of these numbers that isn't greater than that one.
fn first_for(firsts: &[u32], number: u32) -> u32
    requires some { 0 < length firsts.now }
    requires low { first_or firsts.now number ≤ number }
    ensures { IsLastUpto number firsts.now result }
{
    let mut left = firsts.len();
    while 0 < left {
        left -= 1;
        if firsts[left] <= number {
            return firsts[left];
        }
    }
    unreachable!()
}

/// The first of the numbers, or that one where there is none.
fn first_or(firsts: &[u32], next: u32) -> u32
    ensures { result ≡ first_or firsts.now next }
{
    match firsts.first() {
        Some(first) => *first,
        None => next,
    }
}

/// The point that an osync was answered by.
///
/// # Errors
/// It was refused.
fn point_made(reply: &Reply) -> Result<u64, LogRefusal>
    ensures done { IfOk result (λ point. reply.now ≡ Synced point) }
    ensures why { IfErr result (λ why. why ≡ refusal_for reply.now) }
    ensures not { OnErr result (is_synced reply.now ≡ false) }
{
    match reply {
        Reply::Synced(point) => Ok(*point),
        reply => Err(refused(reply)),
    }
}

/// The point that a dsync was answered by.
///
/// # Errors
/// It was refused.
fn point_on_disk(reply: &Reply) -> Result<u64, LogRefusal>
    ensures done { IfOk result (λ point. reply.now ≡ DurableAt point) }
    ensures why { IfErr result (λ why. why ≡ refusal_for reply.now) }
    ensures not { OnErr result (is_durable reply.now ≡ false) }
{
    match reply {
        Reply::DurableAt(point) => Ok(*point),
        reply => Err(refused(reply)),
    }
}
