//! What is found of a log as it is opened: what is at `/log`, and the names of its segments. What lies in one segment
//! is found elsewhere.

ghost use Rattle.std.specs.Prelude.{◌≡◌, ◌≢◌, ◌⊎◌, ◌<◌, ◌++◌, ◌∷◌, [], true, false, length, List, ℕ, IfErr, IfOk, IsTrue, None, OnErr, OnOk, Some};
ghost use Rattle.std.specs.FinMap.{get};
ghost use Rattle.std.specs.BTreeSet.{contains};
ghost use Rattle.std.specs.Ordering.{nat_cmp};
ghost use Rattle.lang_tree.specs.declared.command.Reply.TheVariants.{Names as NamesReply, Ok as Done};
ghost use Rattle.lang_tree.specs.Names.{names_in};
ghost use Rattle.lang_tree.specs.Step.{Session};
ghost use Rattle.lang_log.specs.Log.{HasNoLog, nothing_logged};
ghost use Rattle.lang_log.specs.Names.{log_path};
ghost use Rattle.fs_session.specs.Sessions.{IsSession};
ghost use Rattle.fs_commands.specs.Opened.{MayFollow, blocks_in};
ghost use Rattle.fs_log.specs.declared.refusal.OpenRefusal.TheVariants.{BadLog};
ghost use Rattle.fs_log.specs.Finding.{AsksOnly, HasAtLog, HasDirectory, HasFound, HasFoundSome, LeadsIn, is_names, refusal_by};
ghost use Rattle.fs_log.specs.Keeping.{HoldsLog, TakesLog, as_before};
ghost use Rattle.fs_log.specs.Open.{Mirrors, first_or};
ghost use Rattle.fs_log.specs.Opening.{AsksToOpen, HasRange, IsNotOpened, KeepsTree, MakesNoPoint};
ghost use Rattle.fs_log.specs.Ways.{Way};

use crate::asking::{ask, log_path};
use crate::finding::{find_segment, question, refused, stat_in};
use crate::refusal::OpenRefusal;
use base_types::Name;
use crash_stands::{a_tree_that_stands_is_sound, an_image_stands_for_one_tree};
use engine_blocks::{Blocks, calls_compose};
use fs_commands::Fs;
use fs_session::{
    a_command_answers_its_session, a_command_begins_with_a_tick,
    a_command_is_answered_in_a_room_that_came_back, a_crash_leaves_the_tree_of_a_point,
};
use lang_log::{
    a_log_begins_empty, a_tree_has_no_log_where, a_tree_has_one_log, an_append_lies_in_its_segment,
    first_of, listed_segments_are_all, names_in_a_log_lead_somewhere, names_in_a_log_rise,
    names_tell_numbers_apart, segments_make_a_log, the_directory_of_a_log_is_told,
};
use lang_tree::{Cmd, Kind, NameList, Reply, a_tree_in_memory_refuses_for_no_disk};
use std::alloc::Global;
use std::collections::BTreeSet;

/// What is kept in memory of a log.
#[derive(Drop)]
pub(crate) struct Found {
    /// The numbers with which the segments begin, in order.
    pub(crate) firsts: Vec<u32>,
    /// The bytes of the last segment.
    pub(crate) size: u32,
    /// The number of the next append.
    pub(crate) next: u32,
}

/// Finds the log, and makes its directory where nothing is there.
///
/// # Errors
/// What is there is no log; or a refusal of the file system. The tree is as it was.
pub(crate) fn find_log<S: Blocks>(alloc: Global, fs: &mut Fs<S>) -> Result<Found, OpenRefusal>
    requires follows { MayFollow S.tells S.state fs.old }
    ensures follows { MayFollow S.tells S.state fs.new }
    ensures goes { IsTrue S.tells → OnOk result (TakesLog as_before (S.state (blocks_in fs.old)) (S.state (blocks_in fs.new))) }
    ensures time { IsTrue S.tells → MakesNoPoint (S.state (blocks_in fs.old)) (S.state (blocks_in fs.new)) }
    ensures mirrors { IsTrue S.tells → IfOk result (λ found. Mirrors (S.state (blocks_in fs.new)) found.firsts.items found.size found.next) }
    ensures range { IsTrue S.tells → IfOk result (λ found. (f : Session) → IsSession (S.state (blocks_in fs.old)) f
        → HasRange f.tree (first_or found.firsts.items found.next) found.next) }
    ensures bad { IsTrue S.tells → IfErr result (λ why. why ≡ BadLog → (f : Session) → IsSession (S.state (blocks_in fs.old)) f → HasNoLog f.tree) }
    ensures same { IsTrue S.tells → OnErr result (KeepsTree (S.state (blocks_in fs.old)) (S.state (blocks_in fs.new))) }
    ensures asked { IsTrue S.tells → OnOk result (Way S.tells S.state AsksToOpen (blocks_in fs.old) (blocks_in fs.new)) }
    ensures cause { (S.state (blocks_in fs.old)).books.running.weight ≡ 0
        → IfErr result (λ why. IsNotOpened S.tells S.state why (blocks_in fs.old) (blocks_in fs.new)) }
{
    calls_compose::<S>();
    an_image_stands_for_one_tree();
    a_tree_that_stands_is_sound();
    a_log_begins_empty();
    segments_make_a_log();
    let at_log = find_at_log(alloc, fs)?;
    match at_log {
        Some(kind) => {
            let found = find_there(alloc, fs, kind)?;
            Ok(found)
        }
        None => {
            let found = begin_log(alloc, fs)?;
            Ok(found)
        }
    }
}

/// Finds the log where something of this kind is at `/log`.
///
/// # Errors
/// It is no log; or a refusal of the file system.
fn find_there<S: Blocks>(alloc: Global, fs: &mut Fs<S>, kind: Kind) -> Result<Found, OpenRefusal>
    requires follows { MayFollow S.tells S.state fs.old }
    ensures follows { MayFollow S.tells S.state fs.new }
    ensures asks { IsTrue S.tells → AsksOnly S.tells S.state (blocks_in fs.old) (blocks_in fs.new) }
    ensures found { IsTrue S.tells → IfOk result (λ found. (f : Session) → IsSession (S.state (blocks_in fs.old)) f → HasAtLog f.tree (Some kind)
        → HasDirectory f.tree × HasFound f.tree found.firsts.items found.size found.next) }
    ensures bad { IsTrue S.tells → IfErr result (λ why. why ≡ BadLog → (f : Session) → IsSession (S.state (blocks_in fs.old)) f → HasAtLog f.tree (Some kind)
        → HasNoLog f.tree) }
    ensures cause { (IsTrue S.tells → (f : Session) × IsSession (S.state (blocks_in fs.old)) f × HasAtLog f.tree (Some kind))
        → IfErr result (λ why. IsNotOpened S.tells S.state why (blocks_in fs.old) (blocks_in fs.new)) }
{
    calls_compose::<S>();
    a_crash_leaves_the_tree_of_a_point::<S>();
    a_tree_has_no_log_where();
    match kind {
        Kind::File => Err(OpenRefusal::BadLog),
        Kind::Dir => {
            let found = find_segments(alloc, fs)?;
            Ok(found)
        }
    }
}

/// What is at `/log`.
///
/// # Errors
/// A refusal of the file system.
fn find_at_log<S: Blocks>(alloc: Global, fs: &mut Fs<S>) -> Result<Option<Kind>, OpenRefusal>
    requires follows { MayFollow S.tells S.state fs.old }
    ensures follows { MayFollow S.tells S.state fs.new }
    ensures asks { IsTrue S.tells → AsksOnly S.tells S.state (blocks_in fs.old) (blocks_in fs.new) }
    ensures there { IsTrue S.tells → IfOk result (λ kind. (f : Session) → IsSession (S.state (blocks_in fs.old)) f → HasAtLog f.tree kind) }
    ensures bad { IsTrue S.tells → IfErr result (λ why. why ≢ BadLog) }
    ensures cause { IfErr result (λ why. IsNotOpened S.tells S.state why (blocks_in fs.old) (blocks_in fs.new)) }
{
    calls_compose::<S>();
    a_crash_leaves_the_tree_of_a_point::<S>();
    a_tree_that_stands_is_sound();
    the_directory_of_a_log_is_told();
    let path = log_path(alloc)?;
    let cmd = Cmd::Stat(path);
    let reply = question(alloc, fs, &cmd);
    let found = stat_in(&reply)?;
    match found {
        Some(stat) => Ok(Some(stat.kind)),
        None => Ok(None),
    }
}

/// Makes the directory of a log, where nothing is. Nothing is logged then.
///
/// # Errors
/// A refusal of the file system.
fn begin_log<S: Blocks>(alloc: Global, fs: &mut Fs<S>) -> Result<Found, OpenRefusal>
    requires follows { MayFollow S.tells S.state fs.old }
    ensures follows { MayFollow S.tells S.state fs.new }
    ensures goes { IsTrue S.tells → OnOk result ((f : Session) → IsSession (S.state (blocks_in fs.old)) f → get f.tree.names log_path ≡ None
        → TakesLog as_before (S.state (blocks_in fs.old)) (S.state (blocks_in fs.new))) }
    ensures holds { IsTrue S.tells → OnOk result ((f : Session) → IsSession (S.state (blocks_in fs.old)) f → get f.tree.names log_path ≡ None
        → HoldsLog [] nothing_logged (S.state (blocks_in fs.new))) }
    ensures empty { IfOk result (λ found. (found.firsts.items ≡ []) × (found.size ≡ 0) × (found.next ≡ 0)) }
    ensures time { IsTrue S.tells → MakesNoPoint (S.state (blocks_in fs.old)) (S.state (blocks_in fs.new)) }
    ensures same { IsTrue S.tells → OnErr result (KeepsTree (S.state (blocks_in fs.old)) (S.state (blocks_in fs.new))) }
    ensures bad { IsTrue S.tells → IfErr result (λ why. why ≢ BadLog) }
    ensures asked { IsTrue S.tells → OnOk result (Way S.tells S.state AsksToOpen (blocks_in fs.old) (blocks_in fs.new)) }
    ensures cause { (IsTrue S.tells → (f : Session) × ((S.state (blocks_in fs.old)).books.running.weight ≡ 0)
        × IsSession (S.state (blocks_in fs.old)) f × (get f.tree.names log_path ≡ None))
        → IfErr result (λ why. IsNotOpened S.tells S.state why (blocks_in fs.old) (blocks_in fs.new)) }
{
    a_command_answers_its_session::<S>();
    a_command_begins_with_a_tick::<S>();
    a_command_is_answered_in_a_room_that_came_back::<S>();
    a_tree_in_memory_refuses_for_no_disk();
    calls_compose::<S>();
    a_crash_leaves_the_tree_of_a_point::<S>();
    fs.blocks().geom().lawful();
    an_image_stands_for_one_tree();
    a_tree_that_stands_is_sound();
    a_log_begins_empty();
    a_tree_has_one_log();
    segments_make_a_log();
    let path = log_path(alloc)?;
    let cmd = Cmd::Mkdir(path);
    let reply = ask(alloc, fs, &cmd);
    made(&reply)?;
    Ok(Found {
        firsts: Vec::new(alloc),
        size: 0,
        next: 0,
    })
}

/// Whether a directory was made.
///
/// # Errors
/// It was refused.
fn made(reply: &Reply) -> Result<(), OpenRefusal>
    ensures done { OnOk result (reply.now ≡ Done) }
    ensures fails { IfErr result (λ why. (why ≡ refusal_by reply.now) × (reply.now ≢ Done)) }
{
    match reply {
        Reply::Ok => Ok(()),
        reply => Err(refused(reply)),
    }
}

/// Finds the segments in the directory of a log.
///
/// # Errors
/// What is there is no log; or a refusal of the file system.
fn find_segments<S: Blocks>(alloc: Global, fs: &mut Fs<S>) -> Result<Found, OpenRefusal>
    requires follows { MayFollow S.tells S.state fs.old }
    ensures follows { MayFollow S.tells S.state fs.new }
    ensures asks { IsTrue S.tells → AsksOnly S.tells S.state (blocks_in fs.old) (blocks_in fs.new) }
    ensures found { IsTrue S.tells → IfOk result (λ found. (f : Session) → IsSession (S.state (blocks_in fs.old)) f → HasDirectory f.tree
        → HasFound f.tree found.firsts.items found.size found.next) }
    ensures bad { IsTrue S.tells → IfErr result (λ why. why ≡ BadLog → (f : Session) → IsSession (S.state (blocks_in fs.old)) f → HasDirectory f.tree
        → HasNoLog f.tree) }
    ensures cause { (IsTrue S.tells → (f : Session) × IsSession (S.state (blocks_in fs.old)) f × HasDirectory f.tree)
        → IfErr result (λ why. IsNotOpened S.tells S.state why (blocks_in fs.old) (blocks_in fs.new)) }
{
    calls_compose::<S>();
    listed_segments_are_all();
    names_in_a_log_lead_somewhere();
    segments_make_a_log();
    let list = find_names(alloc, fs)?;
    let names = list.names();
    let mut found = Found {
        firsts: Vec::with_capacity(alloc, names.len())?,
        size: 0,
        next: 0,
    };
    let mut nodes = BTreeSet::new(alloc);
    for name in names {
        add_segment(alloc, fs, name, &mut found, &mut nodes)?;
    }
    Ok(found)
}

/// The names in the directory of a log.
///
/// # Errors
/// A refusal of the file system.
fn find_names<S: Blocks>(alloc: Global, fs: &mut Fs<S>) -> Result<NameList, OpenRefusal>
    requires follows { MayFollow S.tells S.state fs.old }
    ensures follows { MayFollow S.tells S.state fs.new }
    ensures asks { IsTrue S.tells → AsksOnly S.tells S.state (blocks_in fs.old) (blocks_in fs.new) }
    ensures names { IsTrue S.tells → IfOk result (λ names. (f : Session) → IsSession (S.state (blocks_in fs.old)) f → HasDirectory f.tree
        → names ≡ names_in f.tree.names log_path) }
    ensures bad { IsTrue S.tells → IfErr result (λ why. why ≡ BadLog → (f : Session) → IsSession (S.state (blocks_in fs.old)) f → HasDirectory f.tree
        → ⊥) }
    ensures cause { (IsTrue S.tells → (f : Session) × IsSession (S.state (blocks_in fs.old)) f × HasDirectory f.tree)
        → IfErr result (λ why. IsNotOpened S.tells S.state why (blocks_in fs.old) (blocks_in fs.new)) }
{
    calls_compose::<S>();
    a_crash_leaves_the_tree_of_a_point::<S>();
    a_tree_that_stands_is_sound();
    the_directory_of_a_log_is_told();
    let path = log_path(alloc)?;
    let cmd = Cmd::List(path);
    let reply = question(alloc, fs, &cmd);
    let names = names_of(reply)?;
    Ok(names)
}

/// The names that a list was answered by.
///
/// # Errors
/// It was refused.
fn names_of(reply: Reply) -> Result<NameList, OpenRefusal>
    ensures names { IfOk result (λ names. reply ≡ NamesReply names) }
    ensures fails { IfErr result (λ why. (why ≡ refusal_by reply) × (is_names reply ≡ false)) }
{
    match reply {
        Reply::Names(names) => Ok(names),
        reply => Err(refused(&reply)),
    }
}

/// Finds the segment of the next name in the directory. The nodes of those before it are marked, and its own is then.
///
/// # Errors
/// What is there is no log; or a refusal of the file system.
fn add_segment<S: Blocks>(
    alloc: Global,
    fs: &mut Fs<S>,
    name: &Name,
    found: &mut Found,
    nodes: &mut BTreeSet<u32>,
) -> Result<(), OpenRefusal>
    requires follows { MayFollow S.tells S.state fs.old }
    ensures follows { MayFollow S.tells S.state fs.new }
    ensures asks { IsTrue S.tells → AsksOnly S.tells S.state (blocks_in fs.old) (blocks_in fs.new) }
    ensures more { IsTrue S.tells → OnOk result ((f : Session) (seen behind : List (List ℕ)) → IsSession (S.state (blocks_in fs.old)) f
        → names_in f.tree.names log_path ≡ seen ++ name.now ∷ behind
        → HasFoundSome f.tree seen found.old.firsts.items found.old.size found.old.next (contains nat_cmp nodes.old)
        → HasFoundSome f.tree (seen ++ name.now ∷ []) found.new.firsts.items found.new.size found.new.next (contains nat_cmp nodes.new)) }
    ensures bad { IsTrue S.tells → IfErr result (λ why. why ≡ BadLog → (f : Session) (seen behind : List (List ℕ)) → IsSession (S.state (blocks_in fs.old)) f
        → names_in f.tree.names log_path ≡ seen ++ name.now ∷ behind
        → HasFoundSome f.tree seen found.old.firsts.items found.old.size found.old.next (contains nat_cmp nodes.old) → HasNoLog f.tree) }
    ensures cause { (IsTrue S.tells → (f : Session) × IsSession (S.state (blocks_in fs.old)) f × LeadsIn f.tree name.now)
        → IfErr result (λ why. IsNotOpened S.tells S.state why (blocks_in fs.old) (blocks_in fs.new)) }
{
    calls_compose::<S>();
    a_crash_leaves_the_tree_of_a_point::<S>();
    a_tree_has_no_log_where();
    an_append_lies_in_its_segment();
    names_in_a_log_lead_somewhere();
    names_in_a_log_rise();
    names_tell_numbers_apart();
    segments_make_a_log();
    let first = match first_of(name) {
        Some(first) => first,
        None => return Err(OpenRefusal::BadLog),
    };
    if !may_begin(found, first) {
        return Err(OpenRefusal::BadLog);
    }
    let segment = find_segment(alloc, fs, first)?;
    if !nodes.insert(segment.node)? {
        return Err(OpenRefusal::BadLog);
    }
    found.firsts.push(first)?;
    found.size = segment.size;
    found.next = segment.next;
    Ok(())
}

/// Whether a segment may begin with this number: it is the first one, or the number is the next one.
fn may_begin(found: &Found, first: u32) -> bool
    ensures yes { result ≡ true → (found.now.firsts.items ≡ []) ⊎ (first ≡ found.now.next) }
    ensures no { result ≡ false → (0 < length found.now.firsts.items) × (first ≢ found.now.next) }
{
    if found.firsts.is_empty() {
        return true;
    }
    first == found.next
}
