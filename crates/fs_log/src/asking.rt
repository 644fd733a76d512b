//! Single questions and changes of the files of a log, each by commands of the file system. What a call asks, and what
//! it keeps in memory, is not said here.

ghost use Rattle.std.specs.Prelude.{◌≡◌, ◌⊎◌, ◌++◌, ◌∷◌, [], ℕ, IsTrue, IfOk, List, false};
ghost use Rattle.lang_tree.specs.declared.command.Cmd.TheVariants.{Create, Osync, Unlink, Write};
ghost use Rattle.lang_tree.specs.declared.command.Reply.TheVariants.{DurableAt};
ghost use Rattle.lang_tree.specs.Step.{Session, step};
ghost use Rattle.lang_log.specs.History.{appended, synced, trimmed_to};
ghost use Rattle.lang_log.specs.Log.{Log, next_of, trimmed, with_append};
ghost use Rattle.lang_log.specs.Names.{log_path, segment_path};
ghost use Rattle.lang_log.specs.Segments.{Segment, grown, new_segment};
ghost use Rattle.lang_log.specs.Spelling.{IsShort, spelling};
ghost use Rattle.engine_blocks.specs.Crashes.{Advances};
ghost use Rattle.fs_session.specs.Applying.{Applies};
ghost use Rattle.fs_commands.specs.Opened.{MayFollow, blocks_in};
ghost use Rattle.fs_log.specs.Asked.{AskedOf, Changed, Comes, MayMake, MayWrite, is_durable, is_past_room, is_synced};
ghost use Rattle.fs_log.specs.Causes.{AsksToOrder, AsksToSync, HasCallCause, WasAnswered};
ghost use Rattle.fs_log.specs.Keeping.{HoldsLog, Rests, TakesLog, as_before};
ghost use Rattle.fs_log.specs.Refusals.{is_of_none, refusal_for};

use base_types::{Name, NoMemory};
use crash_stands::{a_tree_that_stands_is_sound, an_image_stands_for_one_tree};
use engine_blocks::{Blocks, calls_compose};
use fs_commands::Fs;
use fs_session::{
    a_command_begins_with_a_tick, a_command_is_answered_in_a_room_that_came_back,
    a_crash_leaves_the_tree_of_a_point, a_reply_tells_the_points, points_stay_known,
};
use lang_log::{
    a_new_segment_is_empty, a_segment_grows_by_an_append, a_segment_lies_in_the_directory,
    a_tree_has_one_log, segment_name, segments_make_a_log, spelling, the_first_segment_goes,
};
use lang_tree::{
    Cmd, Path, Refusal, Reply, a_tree_in_memory_refuses_for_no_disk,
    touched_blocks_are_counted_by_division,
};
use std::alloc::Global;

/// The path of the directory of the log.
///
/// # Errors
/// Out of memory.
pub(crate) fn log_path(alloc: Global) -> Result<Path, NoMemory>
    ensures { IfOk result (λ path. path ≡ log_path) }
{
    let mut names = Vec::with_capacity(alloc, 1)?;
    names.push(log_name())?;
    Ok(Path::from_names(names))
}

/// The path of a segment.
///
/// # Errors
/// Out of memory.
pub(crate) fn segment_path(alloc: Global, first: u32) -> Result<Path, NoMemory>
    ensures { IfOk result (λ path. path ≡ segment_path first) }
{
    let mut names = Vec::with_capacity(alloc, 2)?;
    names.push(log_name())?;
    names.push(segment_name(first))?;
    Ok(Path::from_names(names))
}

/// The command that makes an empty segment.
///
/// # Errors
/// Out of memory.
pub(crate) fn create_segment(alloc: Global, first: u32) -> Result<Cmd, NoMemory>
    ensures { IfOk result (λ cmd. cmd ≡ Create (segment_path first)) }
{
    let path = segment_path(alloc, first)?;
    Ok(Cmd::Create(path))
}

/// The command that writes an append at this byte of a segment.
///
/// # Errors
/// Out of memory.
pub(crate) fn write_append(
    alloc: Global,
    first: u32,
    offset: u32,
    bytes: &[u8],
) -> Result<Cmd, NoMemory>
    requires short { IsShort bytes.now }
    ensures { IfOk result (λ cmd. cmd ≡ Write (segment_path first) offset (spelling bytes.now)) }
{
    let path = segment_path(alloc, first)?;
    let text = spelling(alloc, bytes)?;
    Ok(Cmd::Write(path, offset, text))
}

/// The command that removes a segment.
///
/// # Errors
/// Out of memory.
pub(crate) fn remove_segment(alloc: Global, first: u32) -> Result<Cmd, NoMemory>
    ensures { IfOk result (λ cmd. cmd ≡ Unlink (segment_path first)) }
{
    let path = segment_path(alloc, first)?;
    Ok(Cmd::Unlink(path))
}

/// The name of the directory of the log.
fn log_name() -> Name
    ensures { result ≡ 108 ∷ 111 ∷ 103 ∷ [] }
{
    Name::new(b"log").unwrap()
}

/// Answers one command.
pub(crate) fn ask<S: Blocks>(alloc: Global, fs: &mut Fs<S>, cmd: &Cmd) -> Reply
    requires follows { MayFollow S.tells S.state fs.old }
    ensures follows { MayFollow S.tells S.state fs.new }
    ensures applies { Applies S.tells S.state cmd.now result (blocks_in fs.old) (blocks_in fs.new) }
    ensures asked { IsTrue S.tells → AskedOf S.tells S.state cmd.now result (blocks_in fs.old) (blocks_in fs.new) }
{
    a_reply_tells_the_points::<S>();
    a_command_begins_with_a_tick::<S>();
    an_image_stands_for_one_tree();
    a_tree_that_stands_is_sound();
    a_crash_leaves_the_tree_of_a_point::<S>();
    let reply = fs.apply(alloc, cmd);
    points_stay_known(fs.blocks());
    reply
}

/// Whether a command was refused since it doesn't fit one record of the journal with what changed before.
fn is_too_big(reply: &Reply) -> bool
    ensures { result ≡ is_past_room reply.now }
{
    matches!(reply, Reply::Refused(Refusal::TooBig { .. }))
}

/// Whether a sync point was made.
fn is_synced(reply: &Reply) -> bool
    ensures { result ≡ is_synced reply.now }
{
    matches!(reply, Reply::Synced(_))
}

/// Answers a command. Where it doesn't fit one record of the journal with what changed before, that is made a sync
/// point first.
fn change<S: Blocks>(alloc: Global, fs: &mut Fs<S>, cmd: &Cmd) -> Reply
    requires follows { MayFollow S.tells S.state fs.old }
    ensures follows { MayFollow S.tells S.state fs.new }
    ensures changed { Changed S.tells S.state cmd.now result (blocks_in fs.old) (blocks_in fs.new) }
{
    let first = ask(alloc, fs, cmd);
    if !is_too_big(&first) {
        return first;
    }
    let ordered = ask(alloc, fs, &Cmd::Osync);
    if !is_synced(&ordered) {
        return ordered;
    }
    let second = ask(alloc, fs, cmd);
    second
}

/// Answers a command that changes a file of the log: the write of an append behind the last one, the making of an
/// empty segment behind the others, or the removal of the first segment, which isn't the last. Where it doesn't fit
/// one record of the journal with what changed before, that is made a sync point first.
pub(crate) fn change_log<S: Blocks>(alloc: Global, fs: &mut Fs<S>, cmd: &Cmd) -> Reply
    requires follows { MayFollow S.tells S.state fs.old }
    ensures follows { MayFollow S.tells S.state fs.new }
    ensures written { IsTrue S.tells → (before : List Segment) (s : Segment) (l : Log) (bytes : List ℕ)
        → HoldsLog (before ++ s ∷ []) l (S.state (blocks_in fs.old)) → MayWrite l s bytes cmd.now
        → Comes S.state (appended bytes) (λ _. before ++ grown bytes s ∷ []) (with_append bytes l) result (blocks_in fs.old) (blocks_in fs.new) }
    ensures made { IsTrue S.tells → (segments : List Segment) (l : Log) → HoldsLog segments l (S.state (blocks_in fs.old)) → MayMake segments l cmd.now
        → Comes S.state as_before (λ node. segments ++ new_segment (next_of l) node ∷ []) l result (blocks_in fs.old) (blocks_in fs.new) }
    ensures gone { IsTrue S.tells → (s r : Segment) (rest : List Segment) (l : Log) → HoldsLog (s ∷ r ∷ rest) l (S.state (blocks_in fs.old))
        → cmd.now ≡ Unlink (segment_path s.first)
        → Comes S.state (trimmed_to r.first) (λ _. r ∷ rest) (trimmed r.first l) result (blocks_in fs.old) (blocks_in fs.new) }
    ensures was { WasAnswered S.tells S.state (λ c. (c ≡ cmd.now) ⊎ (c ≡ Osync)) result (blocks_in fs.old) (blocks_in fs.new) }
    ensures time { IsTrue S.tells → Advances (S.state (blocks_in fs.old)) (S.state (blocks_in fs.new)) }
{
    calls_compose::<S>();
    a_command_is_answered_in_a_room_that_came_back::<S>();
    a_tree_in_memory_refuses_for_no_disk();
    touched_blocks_are_counted_by_division();
    fs.blocks().geom().lawful();
    a_tree_that_stands_is_sound();
    a_segment_lies_in_the_directory();
    a_segment_grows_by_an_append();
    a_new_segment_is_empty();
    the_first_segment_goes();
    segments_make_a_log();
    a_tree_has_one_log();
    let reply = change(alloc, fs, cmd);
    reply
}

/// Makes a sync point, and doesn't wait for the disk.
pub(crate) fn order<S: Blocks>(alloc: Global, fs: &mut Fs<S>) -> Reply
    requires follows { MayFollow S.tells S.state fs.old }
    ensures follows { MayFollow S.tells S.state fs.new }
    ensures rests { IsTrue S.tells → Rests (S.state (blocks_in fs.old)) (S.state (blocks_in fs.new)) }
    ensures was { WasAnswered S.tells S.state AsksToOrder result (blocks_in fs.old) (blocks_in fs.new) }
    ensures cause { is_synced result ≡ false
        → HasCallCause S.tells S.state is_of_none AsksToOrder (refusal_for result) (blocks_in fs.old) (blocks_in fs.new) }
{
    calls_compose::<S>();
    a_command_is_answered_in_a_room_that_came_back::<S>();
    let reply = ask(alloc, fs, &Cmd::Osync);
    reply
}

/// Makes a sync point, and waits until it is on the disk.
pub(crate) fn sync<S: Blocks>(alloc: Global, fs: &mut Fs<S>) -> Reply
    requires follows { MayFollow S.tells S.state fs.old }
    ensures follows { MayFollow S.tells S.state fs.new }
    ensures rests { IsTrue S.tells → Rests (S.state (blocks_in fs.old)) (S.state (blocks_in fs.new)) }
    ensures promised { IsTrue S.tells → (point : ℕ) → result ≡ DurableAt point
        → TakesLog synced (S.state (blocks_in fs.old)) (S.state (blocks_in fs.new)) }
    ensures was { WasAnswered S.tells S.state AsksToSync result (blocks_in fs.old) (blocks_in fs.new) }
    ensures cause { is_durable result ≡ false
        → HasCallCause S.tells S.state is_of_none AsksToSync (refusal_for result) (blocks_in fs.old) (blocks_in fs.new) }
{
    calls_compose::<S>();
    a_command_is_answered_in_a_room_that_came_back::<S>();
    let reply = ask(alloc, fs, &Cmd::Dsync);
    reply
}
