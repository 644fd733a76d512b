//! Appends read from a segment, a window of its bytes at a time. Which segment has an append is not said here.

ghost use Rattle.std.specs.Prelude.{◌≡◌, ◌≤◌, ◌<◌, ◌+◌, ℕ, drop, false, slice_get, take, IfErr, IfOk, IsTrue, OnErr, OnOk, Some};
ghost use Rattle.lang_tree.specs.declared.command.Cmd.TheVariants.{Read};
ghost use Rattle.lang_tree.specs.declared.command.Reply.TheVariants.{Bytes as BytesReply};
ghost use Rattle.lang_log.specs.Names.{segment_path};
ghost use Rattle.lang_log.specs.Segments.{Segment};
ghost use Rattle.lang_log.specs.Spelling.{spellings};
ghost use Rattle.fs_commands.specs.Opened.{MayFollow, blocks_in};
ghost use Rattle.fs_log.specs.declared.refusal.LogRefusal.TheVariants.{BadLog};
ghost use Rattle.fs_log.specs.Asked.{is_bytes};
ghost use Rattle.fs_log.specs.Causes.{HasCallCause, ReadsSegment, WasNotRefused};
ghost use Rattle.fs_log.specs.Finding.{AsksOnly};
ghost use Rattle.fs_log.specs.Reading.{BeginsAt, HasAppend, HoldsSegment, IsAt};
ghost use Rattle.fs_log.specs.Refusals.{is_of_none, is_own, refusal_for};

use crate::asking::segment_path;
use crate::finding::question;
use crate::refusal::{LogRefusal, refused};
use base_types::{Bytes, NoMemory};
use crash_stands::a_tree_that_stands_is_sound;
use engine_blocks::{Blocks, calls_compose};
use fs_commands::Fs;
use fs_session::{
    a_command_is_answered_in_a_room_that_came_back, a_crash_leaves_the_tree_of_a_point,
};
use lang_log::{
    HEAD, LONGEST_APPEND, Passed, a_segment_is_read, appends_are_read_back, first_append, pass,
};
use lang_tree::{Cmd, Reply, a_tree_in_memory_refuses_for_no_disk};
use std::alloc::Global;

/// How many bytes are read at a time: the longest append fits.
const WINDOW: u32 = (HEAD + LONGEST_APPEND) as u32;

/// The command that reads a window of a segment.
///
/// # Errors
/// Out of memory.
fn read_window(alloc: Global, first: u32, offset: u32) -> Result<Cmd, NoMemory>
    ensures { IfOk result (λ cmd. cmd ≡ Read (segment_path first) offset 65540) }
{
    let path = segment_path(alloc, first)?;
    Ok(Cmd::Read(path, offset, WINDOW))
}

/// The bytes that a read was answered by.
///
/// # Errors
/// It was refused.
fn bytes_of(reply: Reply) -> Result<Bytes, LogRefusal>
    ensures bytes { IfOk result (λ bytes. reply ≡ BytesReply bytes) }
    ensures why { IfErr result (λ why. is_own why ≡ false) }
    ensures is { IfErr result (λ why. why ≡ refusal_for reply) }
    ensures not { OnErr result (is_bytes reply ≡ false) }
{
    match reply {
        Reply::Bytes(bytes) => Ok(bytes),
        reply => Err(refused(&reply)),
    }
}

/// A window of the bytes of a segment, from this one on.
///
/// # Errors
/// A refusal of the file system.
fn read<S: Blocks>(
    alloc: Global,
    fs: &mut Fs<S>,
    first: u32,
    offset: u32,
) -> Result<Bytes, LogRefusal>
    requires follows { MayFollow S.tells S.state fs.old }
    ensures follows { MayFollow S.tells S.state fs.new }
    ensures asks { IsTrue S.tells → AsksOnly S.tells S.state (blocks_in fs.old) (blocks_in fs.new) }
    ensures bytes { IsTrue S.tells → IfOk result (λ bytes. (s : Segment) → HoldsSegment s (S.state (blocks_in fs.old)) → first ≡ s.first
        → bytes ≡ take 65540 (drop offset (spellings s.appends))) }
    ensures why { IfErr result (λ why. is_own why ≡ false) }
    ensures was { OnOk result (WasNotRefused S.tells S.state (ReadsSegment first) (blocks_in fs.old) (blocks_in fs.new)) }
    ensures cause { (IsTrue S.tells → BeginsAt first offset (S.state (blocks_in fs.old)))
        → IfErr result (λ why. HasCallCause S.tells S.state is_of_none (ReadsSegment first) why (blocks_in fs.old) (blocks_in fs.new)) }
{
    calls_compose::<S>();
    a_crash_leaves_the_tree_of_a_point::<S>();
    a_command_is_answered_in_a_room_that_came_back::<S>();
    a_tree_in_memory_refuses_for_no_disk();
    a_tree_that_stands_is_sound();
    a_segment_is_read();
    let cmd = read_window(alloc, first, offset)?;
    let reply = question(alloc, fs, &cmd);
    let bytes = bytes_of(reply)?;
    Ok(bytes)
}

/// Passes over appends of a segment from a byte on, so many at most, and over one at least.
///
/// # Errors
/// A refusal of the file system; or there is no whole append.
fn pass_some<S: Blocks>(
    alloc: Global,
    fs: &mut Fs<S>,
    first: u32,
    offset: u32,
    most: u32,
) -> Result<Passed, LogRefusal>
    requires follows { MayFollow S.tells S.state fs.old }
    ensures follows { MayFollow S.tells S.state fs.new }
    ensures asks { IsTrue S.tells → AsksOnly S.tells S.state (blocks_in fs.old) (blocks_in fs.new) }
    ensures some { IfOk result (λ passed. (0 < passed.appends) × (passed.appends ≤ most)) }
    ensures at { IsTrue S.tells → IfOk result (λ passed. (s : Segment) (others : ℕ) → HoldsSegment s (S.state (blocks_in fs.old)) → first ≡ s.first
        → IsAt s offset others → IsAt s (offset + passed.bytes) (others + passed.appends)) }
    ensures why { IfErr result (λ why. is_own why ≡ false) }
    ensures was { OnOk result (WasNotRefused S.tells S.state (ReadsSegment first) (blocks_in fs.old) (blocks_in fs.new)) }
    ensures cause { (IsTrue S.tells → BeginsAt first offset (S.state (blocks_in fs.old))) → 0 < most
        → IfErr result (λ why. HasCallCause S.tells S.state is_of_none (ReadsSegment first) why (blocks_in fs.old) (blocks_in fs.new)) }
{
    appends_are_read_back();
    let window = read(alloc, fs, first, offset)?;
    let passed = pass(window.as_slice(), most);
    if passed.appends == 0 {
        return Err(LogRefusal::BadLog);
    }
    Ok(passed)
}

/// The byte of a segment with which its append behind so many others begins.
///
/// # Errors
/// A refusal of the file system; or there aren't so many whole ones.
pub(crate) fn seek<S: Blocks>(
    alloc: Global,
    fs: &mut Fs<S>,
    first: u32,
    others: u32,
) -> Result<u32, LogRefusal>
    requires follows { MayFollow S.tells S.state fs.old }
    ensures follows { MayFollow S.tells S.state fs.new }
    ensures asks { IsTrue S.tells → AsksOnly S.tells S.state (blocks_in fs.old) (blocks_in fs.new) }
    ensures at { IsTrue S.tells → IfOk result (λ offset. (s : Segment) → HoldsSegment s (S.state (blocks_in fs.old)) → first ≡ s.first
        → IsAt s offset others) }
    ensures why { IfErr result (λ why. is_own why ≡ false) }
    ensures cause { (IsTrue S.tells → HasAppend first others (S.state (blocks_in fs.old)))
        → IfErr result (λ why. HasCallCause S.tells S.state is_of_none (ReadsSegment first) why (blocks_in fs.old) (blocks_in fs.new)) }
{
    calls_compose::<S>();
    a_crash_leaves_the_tree_of_a_point::<S>();
    let mut offset: u32 = 0;
    let mut left = others;
    while 0 < left {
        let passed = pass_some(alloc, fs, first, offset, left)?;
        offset = behind(offset, passed)?;
        left -= passed.appends;
    }
    Ok(offset)
}

/// The byte of a segment behind those that were passed from this one on.
///
/// # Errors
/// No segment has so many.
fn behind(offset: u32, passed: Passed) -> Result<u32, LogRefusal>
    ensures sum { IfOk result (λ byte. byte ≡ offset + passed.bytes) }
    ensures why { IfErr result (λ why. why ≡ BadLog) }
    ensures past { OnErr result (4294967295 < offset + passed.bytes) }
{
    let Ok(bytes) = u32::try_from(passed.bytes) else {
        return Err(LogRefusal::BadLog);
    };
    match offset.checked_add(bytes) {
        Some(byte) => Ok(byte),
        None => Err(LogRefusal::BadLog),
    }
}

/// The bytes of the append of a segment that begins at this byte.
///
/// # Errors
/// A refusal of the file system; or there is no whole append.
pub(crate) fn append_at<S: Blocks>(
    alloc: Global,
    fs: &mut Fs<S>,
    first: u32,
    offset: u32,
) -> Result<Bytes, LogRefusal>
    requires follows { MayFollow S.tells S.state fs.old }
    ensures follows { MayFollow S.tells S.state fs.new }
    ensures asks { IsTrue S.tells → AsksOnly S.tells S.state (blocks_in fs.old) (blocks_in fs.new) }
    ensures bytes { IsTrue S.tells → IfOk result (λ bytes. (s : Segment) (others : ℕ) → HoldsSegment s (S.state (blocks_in fs.old)) → first ≡ s.first
        → IsAt s offset others → slice_get s.appends others ≡ Some bytes) }
    ensures why { IfErr result (λ why. is_own why ≡ false) }
    ensures cause { (IsTrue S.tells → BeginsAt first offset (S.state (blocks_in fs.old)))
        → IfErr result (λ why. HasCallCause S.tells S.state is_of_none (ReadsSegment first) why (blocks_in fs.old) (blocks_in fs.new)) }
{
    appends_are_read_back();
    let window = read(alloc, fs, first, offset)?;
    let Some(bytes) = first_append(window.as_slice()) else {
        return Err(LogRefusal::BadLog);
    };
    let copy = Bytes::from_slice(alloc, bytes)?;
    Ok(copy)
}
