//! What lies in one segment as a log is opened: its file is asked for, and read from front to back, a window of its
//! bytes at a time. Which segments there are is not said here.

ghost use Rattle.std.specs.Prelude.{◌≡◌, ◌≢◌, ◌⊎◌, ◌+◌, ◌*◌, ◌^◌, ◌<◌, ◌≤◌, ℕ, None, drop, false, length, take, IfErr, IfOk, IfSome, IsTrue, List};
ghost use Rattle.lang_tree.specs.declared.command.Kind.TheVariants.{Dir as DirKind, File as FileKind};
ghost use Rattle.lang_tree.specs.declared.command.Reply.TheVariants.{Bytes as BytesReply};
ghost use Rattle.lang_tree.specs.Step.{Session};
ghost use Rattle.lang_log.specs.Log.{HasNoLog};
ghost use Rattle.lang_log.specs.Spelling.{HasPassed};
ghost use Rattle.fs_session.specs.Applying.{Applies};
ghost use Rattle.fs_session.specs.Sessions.{IsSession};
ghost use Rattle.fs_commands.specs.Opened.{MayFollow, blocks_in};
ghost use Rattle.fs_log.specs.declared.refusal.OpenRefusal.TheVariants.{BadLog};
ghost use Rattle.fs_log.specs.Asked.{AskedOf, is_bytes};
ghost use Rattle.fs_log.specs.Causes.{WasAnswered};
ghost use Rattle.fs_log.specs.Finding.{AnswersQuestion, AsksOnly, HasFile, HasSegment, HasWhole, LeadsSomewhere};
ghost use Rattle.fs_log.specs.Finding.{is_stat, refusal_by, stat_reply, wants_blocks};
ghost use Rattle.fs_log.specs.Opening.{IsNotOpened};
ghost use Rattle.fs_log.specs.Ways.{IsQuestion};

use crate::asking::{ask, segment_path};
use crate::refusal::OpenRefusal;
use base_types::Bytes;
use crash_stands::a_tree_that_stands_is_sound;
use engine_blocks::{Blocks, calls_compose};
use fs_commands::Fs;
use fs_session::{
    a_command_answers_its_session, a_command_begins_with_a_tick,
    a_command_is_answered_in_a_room_that_came_back, a_crash_leaves_the_tree_of_a_point,
};
use lang_log::{
    HEAD, LONGEST_APPEND, Passed, a_tree_has_no_log_where, appends_are_read_back, pass,
    what_is_in_a_log_is_told,
};
use lang_tree::{Cmd, Kind, Refusal, Reply, Stat, a_tree_in_memory_refuses_for_no_disk};
use std::alloc::Global;

/// How many bytes are read at a time: the longest append fits.
const WINDOW: u32 = (HEAD + LONGEST_APPEND) as u32;

/// A segment that was found.
#[derive(Clone, Copy)]
pub(crate) struct FoundSegment {
    /// The node of its file.
    pub(crate) node: u32,
    /// The bytes of its file.
    pub(crate) size: u32,
    /// The number behind that of its last append.
    pub(crate) next: u32,
}

/// The file of a segment.
#[derive(Clone, Copy)]
struct SegmentFile {
    node: u32,
    size: u32,
}

/// Finds the segment that begins with this number, whose name is in the directory.
///
/// # Errors
/// What is there is no segment of a log; or a refusal of the file system.
pub(crate) fn find_segment<S: Blocks>(
    alloc: Global,
    fs: &mut Fs<S>,
    first: u32,
) -> Result<FoundSegment, OpenRefusal>
    requires follows { MayFollow S.tells S.state fs.old }
    ensures follows { MayFollow S.tells S.state fs.new }
    ensures asks { IsTrue S.tells → AsksOnly S.tells S.state (blocks_in fs.old) (blocks_in fs.new) }
    ensures segment { IsTrue S.tells → IfOk result (λ segment. (f : Session) → IsSession (S.state (blocks_in fs.old)) f → LeadsSomewhere f.tree first
        → HasSegment f.tree first segment.node segment.size segment.next) }
    ensures bad { IsTrue S.tells → IfErr result (λ why. why ≡ BadLog → (f : Session) → IsSession (S.state (blocks_in fs.old)) f → LeadsSomewhere f.tree first
        → HasNoLog f.tree) }
    ensures cause { (IsTrue S.tells → (f : Session) × IsSession (S.state (blocks_in fs.old)) f × LeadsSomewhere f.tree first)
        → IfErr result (λ why. IsNotOpened S.tells S.state why (blocks_in fs.old) (blocks_in fs.new)) }
{
    calls_compose::<S>();
    a_tree_has_no_log_where();
    let file = find_file(alloc, fs, first)?;
    let count = count_appends(alloc, fs, first, file.size)?;
    let next = match first.checked_add(count) {
        Some(next) => next,
        None => return Err(OpenRefusal::BadLog),
    };
    Ok(FoundSegment {
        node: file.node,
        size: file.size,
        next,
    })
}

/// The file of the segment that begins with this number, whose name is in the directory.
///
/// # Errors
/// A directory has the name; or a refusal of the file system.
fn find_file<S: Blocks>(
    alloc: Global,
    fs: &mut Fs<S>,
    first: u32,
) -> Result<SegmentFile, OpenRefusal>
    requires follows { MayFollow S.tells S.state fs.old }
    ensures follows { MayFollow S.tells S.state fs.new }
    ensures asks { IsTrue S.tells → AsksOnly S.tells S.state (blocks_in fs.old) (blocks_in fs.new) }
    ensures file { IsTrue S.tells → IfOk result (λ file. (f : Session) → IsSession (S.state (blocks_in fs.old)) f → LeadsSomewhere f.tree first
        → (bytes : List ℕ) × HasFile f.tree first file.node bytes × (file.size ≡ length bytes)) }
    ensures bad { IsTrue S.tells → IfErr result (λ why. why ≡ BadLog → (f : Session) → IsSession (S.state (blocks_in fs.old)) f → LeadsSomewhere f.tree first
        → HasNoLog f.tree) }
    ensures cause { (IsTrue S.tells → (f : Session) × IsSession (S.state (blocks_in fs.old)) f × LeadsSomewhere f.tree first)
        → IfErr result (λ why. IsNotOpened S.tells S.state why (blocks_in fs.old) (blocks_in fs.new)) }
{
    calls_compose::<S>();
    a_crash_leaves_the_tree_of_a_point::<S>();
    a_tree_that_stands_is_sound();
    what_is_in_a_log_is_told();
    a_tree_has_no_log_where();
    let path = segment_path(alloc, first)?;
    let cmd = Cmd::Stat(path);
    let reply = question(alloc, fs, &cmd);
    let found = stat_in(&reply)?;
    let stat = match found {
        Some(stat) => stat,
        None => return Err(OpenRefusal::BadLog),
    };
    let file = file_in(&stat)?;
    Ok(file)
}

/// The file of which this was told.
///
/// # Errors
/// It is a directory; or no file has so many bytes.
fn file_in(stat: &Stat) -> Result<SegmentFile, OpenRefusal>
    ensures file { IfOk result (λ file. (stat.now.kind ≡ FileKind) × (file.node ≡ stat.now.number) × (file.size ≡ stat.now.size)) }
    ensures none { IfErr result (λ why. (why ≡ BadLog) × ((stat.now.kind ≡ DirKind) ⊎ (2 ^ 32 ≤ stat.now.size))) }
{
    match stat.kind {
        Kind::Dir => Err(OpenRefusal::BadLog),
        Kind::File => {
            let Ok(size) = u32::try_from(stat.size) else {
                return Err(OpenRefusal::BadLog);
            };
            Ok(SegmentFile {
                node: stat.number,
                size,
            })
        }
    }
}

/// How many appends there are in the file of a segment, which has so many bytes.
///
/// # Errors
/// They aren't those of whole appends; or a refusal of the file system.
fn count_appends<S: Blocks>(
    alloc: Global,
    fs: &mut Fs<S>,
    first: u32,
    size: u32,
) -> Result<u32, OpenRefusal>
    requires follows { MayFollow S.tells S.state fs.old }
    ensures follows { MayFollow S.tells S.state fs.new }
    ensures asks { IsTrue S.tells → AsksOnly S.tells S.state (blocks_in fs.old) (blocks_in fs.new) }
    ensures count { IsTrue S.tells → IfOk result (λ count. (f : Session) (node : ℕ) (bytes : List ℕ) → IsSession (S.state (blocks_in fs.old)) f
        → HasFile f.tree first node bytes
        → size ≡ length bytes → HasWhole bytes count) }
    ensures bad { IsTrue S.tells → IfErr result (λ why. why ≡ BadLog → (f : Session) (node : ℕ) (bytes : List ℕ)
        → IsSession (S.state (blocks_in fs.old)) f → HasFile f.tree first node bytes
        → size ≡ length bytes → HasNoLog f.tree) }
    ensures cause { (IsTrue S.tells → (f : Session) × (node : ℕ) × (bytes : List ℕ) × IsSession (S.state (blocks_in fs.old)) f
        × HasFile f.tree first node bytes)
        → IfErr result (λ why. IsNotOpened S.tells S.state why (blocks_in fs.old) (blocks_in fs.new)) }
{
    calls_compose::<S>();
    a_crash_leaves_the_tree_of_a_point::<S>();
    let mut offset: u32 = 0;
    let mut appends: u32 = 0;
    while offset < size {
        let passed = pass_window(alloc, fs, first, offset)?;
        let end = match behind(offset, passed.bytes) {
            Some(end) => end,
            None => return Err(OpenRefusal::BadLog),
        };
        appends += passed.appends;
        offset = end;
    }
    Ok(appends)
}

/// The byte behind so many bytes from this one on, if it has 32 bits.
fn behind(offset: u32, bytes: usize) -> Option<u32>
    ensures found { IfSome result (λ end. end ≡ offset + bytes) }
    ensures none { result ≡ None → 2 ^ 32 ≤ offset + bytes }
{
    let bytes = u32::try_from(bytes).ok()?;
    offset.checked_add(bytes)
}

/// Passes over the whole appends in a window of the bytes of a segment, from this one on. There is one at least.
///
/// # Errors
/// There is none; or a refusal of the file system.
fn pass_window<S: Blocks>(
    alloc: Global,
    fs: &mut Fs<S>,
    first: u32,
    offset: u32,
) -> Result<Passed, OpenRefusal>
    requires follows { MayFollow S.tells S.state fs.old }
    ensures follows { MayFollow S.tells S.state fs.new }
    ensures asks { IsTrue S.tells → AsksOnly S.tells S.state (blocks_in fs.old) (blocks_in fs.new) }
    ensures some { IfOk result (λ passed. (0 < passed.appends) × (4 * passed.appends ≤ passed.bytes)) }
    ensures passes { IsTrue S.tells → IfOk result (λ passed. (f : Session) (node : ℕ) (bytes : List ℕ) (count : ℕ) → IsSession (S.state (blocks_in fs.old)) f
        → HasFile f.tree first node bytes → HasPassed bytes count offset
        → HasPassed bytes (count + passed.appends) (offset + passed.bytes)) }
    ensures bad { IsTrue S.tells → IfErr result (λ why. why ≡ BadLog → (f : Session) (node : ℕ) (bytes : List ℕ) (count : ℕ)
        → IsSession (S.state (blocks_in fs.old)) f
        → HasFile f.tree first node bytes → HasPassed bytes count offset → offset < length bytes → HasNoLog f.tree) }
    ensures cause { (IsTrue S.tells → (f : Session) × (node : ℕ) × (bytes : List ℕ) × IsSession (S.state (blocks_in fs.old)) f
        × HasFile f.tree first node bytes)
        → IfErr result (λ why. IsNotOpened S.tells S.state why (blocks_in fs.old) (blocks_in fs.new)) }
{
    appends_are_read_back();
    a_tree_has_no_log_where();
    let window = read_window(alloc, fs, first, offset)?;
    let passed = pass(window.as_slice(), WINDOW);
    if passed.appends == 0 {
        return Err(OpenRefusal::BadLog);
    }
    Ok(passed)
}

/// A window of the bytes of a segment, from this one on.
///
/// # Errors
/// A refusal of the file system.
fn read_window<S: Blocks>(
    alloc: Global,
    fs: &mut Fs<S>,
    first: u32,
    offset: u32,
) -> Result<Bytes, OpenRefusal>
    requires follows { MayFollow S.tells S.state fs.old }
    ensures follows { MayFollow S.tells S.state fs.new }
    ensures asks { IsTrue S.tells → AsksOnly S.tells S.state (blocks_in fs.old) (blocks_in fs.new) }
    ensures bytes { IsTrue S.tells → IfOk result (λ window. (f : Session) (node : ℕ) (bytes : List ℕ) → IsSession (S.state (blocks_in fs.old)) f
        → HasFile f.tree first node bytes
        → window ≡ take 65540 (drop offset bytes)) }
    ensures bad { IsTrue S.tells → IfErr result (λ why. why ≡ BadLog → (f : Session) (node : ℕ) (bytes : List ℕ)
        → IsSession (S.state (blocks_in fs.old)) f → HasFile f.tree first node bytes
        → ⊥) }
    ensures cause { (IsTrue S.tells → (f : Session) × (node : ℕ) × (bytes : List ℕ) × IsSession (S.state (blocks_in fs.old)) f
        × HasFile f.tree first node bytes)
        → IfErr result (λ why. IsNotOpened S.tells S.state why (blocks_in fs.old) (blocks_in fs.new)) }
{
    calls_compose::<S>();
    a_crash_leaves_the_tree_of_a_point::<S>();
    a_tree_that_stands_is_sound();
    what_is_in_a_log_is_told();
    let path = segment_path(alloc, first)?;
    let cmd = Cmd::Read(path, offset, WINDOW);
    let reply = question(alloc, fs, &cmd);
    let bytes = bytes_of(reply)?;
    Ok(bytes)
}

/// Asks what is in the tree.
pub(crate) fn question<S: Blocks>(alloc: Global, fs: &mut Fs<S>, cmd: &Cmd) -> Reply
    requires follows { MayFollow S.tells S.state fs.old }
    requires question { IsQuestion cmd.now }
    ensures follows { MayFollow S.tells S.state fs.new }
    ensures asks { IsTrue S.tells → AsksOnly S.tells S.state (blocks_in fs.old) (blocks_in fs.new) }
    ensures asked { IsTrue S.tells → AskedOf S.tells S.state cmd.now result (blocks_in fs.old) (blocks_in fs.new) }
    ensures applies { Applies S.tells S.state cmd.now result (blocks_in fs.old) (blocks_in fs.new) }
    ensures answers { IsTrue S.tells → (f : Session) → IsSession (S.state (blocks_in fs.old)) f → AnswersQuestion f cmd.now result }
    ensures was { WasAnswered S.tells S.state (λ c. c ≡ cmd.now) result (blocks_in fs.old) (blocks_in fs.new) }
    ensures calm { IsTrue S.tells → wants_blocks result ≡ false }
{
    a_command_answers_its_session::<S>();
    a_command_begins_with_a_tick::<S>();
    a_command_is_answered_in_a_room_that_came_back::<S>();
    a_tree_in_memory_refuses_for_no_disk();
    calls_compose::<S>();
    let reply = ask(alloc, fs, cmd);
    reply
}

/// What a stat was answered by, or `None` where nothing was found.
///
/// # Errors
/// It was refused for another reason.
pub(crate) fn stat_in(reply: &Reply) -> Result<Option<Stat>, OpenRefusal>
    ensures told { IfOk result (λ found. reply.now ≡ stat_reply found) }
    ensures fails { IfErr result (λ why. (why ≡ refusal_by reply.now) × (is_stat reply.now ≡ false)) }
{
    match reply {
        Reply::Stat(stat) => Ok(Some(*stat)),
        Reply::Refused(Refusal::NotFound) => Ok(None),
        reply => Err(refused(reply)),
    }
}

/// The bytes that a read was answered by.
///
/// # Errors
/// It was refused.
fn bytes_of(reply: Reply) -> Result<Bytes, OpenRefusal>
    ensures bytes { IfOk result (λ bytes. reply ≡ BytesReply bytes) }
    ensures fails { IfErr result (λ why. (why ≡ refusal_by reply) × (is_bytes reply ≡ false)) }
{
    match reply {
        Reply::Bytes(bytes) => Ok(bytes),
        reply => Err(refused(&reply)),
    }
}

/// The refusal for a reply other than the one that was asked for.
pub(crate) fn refused(reply: &Reply) -> OpenRefusal
    ensures { result ≡ refusal_by reply.now }
{
    match reply {
        Reply::Refused(why) => OpenRefusal::Fs(*why),
        Reply::Ok
        | Reply::Bytes(_)
        | Reply::Stat(_)
        | Reply::Names(_)
        | Reply::Synced(_)
        | Reply::DurableAt(_)
        | Reply::Known(_)
        | Reply::Bad => OpenRefusal::BadLog,
    }
}
