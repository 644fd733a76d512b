//! A session over any disk: it is mounted, its file system answers commands, and in the end all that was answered is
//! asked to be durable. Which commands these are, and what a disk is, is for the caller.

ghost use Rattle.std.specs.Prelude.{◌≡◌, ◌+◌, ◌^◌, ◌++◌, ◌<◌, ◌≤◌, ◌∷◌, ℕ, false, IsTrue, List, [], length, vec_len, vec_capacity, IfOk, IfErr};
ghost use Rattle.disk_contract.specs.Disk.{State};
ghost use Rattle.engine_blocks.specs.Crashes.{IsBegun};
ghost use Rattle.engine_store.specs.Mounting.{BeginsWith};
ghost use Rattle.engine_store.specs.StoreOf.{state_of};
ghost use Rattle.fs_commands.specs.Opened.{blocks_in};
ghost use Rattle.layout_geometry.specs.Geometry.{Geometry};
ghost use Rattle.lang_tree.specs.declared.command.Cmd.{Cmd};
ghost use Rattle.lang_tree.specs.declared.command.Reply.{Reply};
ghost use Rattle.lang_tree.specs.Tree.{Tree};
ghost use Rattle.cmd_session.specs.Serving.{HasServed};
ghost use Rattle.cmd_image.specs.Mounted.{IsFresh, IsMountedOn};
ghost use Rattle.example_embedding.specs.Serving.{HasAnswered, Keeps, Refuses};

use base_types::NoMemory;
use cmd_image::{ShowRefusal, disk_back, mount_lent, unopened, what_is_read_stays_mounted};
use cmd_session::Served;
use disk_contract::Disk;
use engine_store::Store;
use fs_check::CheckRefusal;
use lang_tree::{Cmd, Reply};
use std::alloc::Global;

/// What came of a session: the disk again, and what was answered.
#[derive(Drop)]
pub struct Answered<D: Disk + Drop> {
    /// The disk.
    pub disk: D,
    /// The replies to the commands, in their order.
    pub replies: Vec<Reply>,
    /// The reply to the dsync behind them.
    pub kept: Reply,
    /// How many events the disk had with each reply, that to the dsync last.
    pub marks: Vec<u64>,
}

/// Mounts a disk that was just opened, answers these commands over it, one after the other, and then a dsync. Each is
/// answered as the plain tree answers it, or refused for a reason of the disk. Whatever a crash leaves, at any moment,
/// stands for one sync point: none older than the last one promised by then. Where the dsync is done, all is durable.
///
/// # Errors
/// The disk comes back, and stands for what it stood for. `Fault` comes of a call of it that failed, which it has
/// counted; `Damaged` and `Spent` of what is on it; and `NoMemory` of want of memory.
pub fn serve<D: Disk + Drop>(
    alloc: Global,
    disk: D,
    cmds: &[Cmd],
) -> Result<Answered<D>, (D, ShowRefusal)>
    requires { IsFresh D.tells (D.state disk) }
    ensures answered { IsTrue D.tells → IfOk result (λ a. HasAnswered (D.state disk) (D.state a.disk) cmds.now a.replies.items a.kept a.marks.items) }
    ensures refused { IfErr result (λ e. Refuses D.tells (D.state disk) (D.state e.0) e.1) }
{
    match mount_lent(alloc, disk) {
        Ok(store) => serve_store(alloc, store, cmds),
        Err(refused) => Err(refused),
    }
}

/// The same over a store that was just mounted.
///
/// # Errors
/// As of `serve`.
fn serve_store<D: Disk + Drop>(
    alloc: Global,
    store: Store<D>,
    cmds: &[Cmd],
) -> Result<Answered<D>, (D, ShowRefusal)>
    requires begun { IsBegun (state_of D.state store) }
    ensures answered { IsTrue D.tells → (first : State) → IsMountedOn D.tells false first (state_of D.state store)
        → BeginsWith (state_of D.state store).books.geom (state_of D.state store).map (state_of D.state store)
        → IfOk result (λ a. HasAnswered first (D.state a.disk) cmds.now a.replies.items a.kept a.marks.items) }
    ensures refused { (first : State) → IsMountedOn D.tells false first (state_of D.state store)
        → IfErr result (λ e. Refuses D.tells first (D.state e.0) e.1) }
{
    what_is_read_stays_mounted::<Store<D>>();
    let Ok((replies, marks)) = room_for(alloc, cmds.len()) else {
        return Err(unopened(store, CheckRefusal::NoMemory));
    };
    match Served::open(alloc, store) {
        Ok(files) => Ok(serve_files(alloc, files, cmds, replies, marks)),
        Err((store, why)) => Err(unopened(store, why)),
    }
}

/// Room for so many replies, and for one mark more.
///
/// # Errors
/// Out of memory.
fn room_for(alloc: Global, count: usize) -> Result<(Vec<Reply>, Vec<u64>), NoMemory>
    requires { count < 2 ^ 62 }
    ensures empty { IfOk result (λ room. (room.0.items ≡ []) × (room.1.items ≡ [])) }
    ensures replies { IfOk result (λ room. vec_len room.0 + count ≤ vec_capacity room.0) }
    ensures marks { IfOk result (λ room. vec_len room.1 + count < vec_capacity room.1) }
{
    let replies = Vec::with_capacity(alloc, count)?;
    let marks = Vec::with_capacity(alloc, count + 1)?;
    Ok((replies, marks))
}

/// The same over a file system that was just opened, with room for the replies and marks.
fn serve_files<D: Disk + Drop>(
    alloc: Global,
    files: Served<Store<D>>,
    cmds: &[Cmd],
    replies: Vec<Reply>,
    marks: Vec<u64>,
) -> Answered<D>
    requires empty { (replies.items ≡ []) × (marks.items ≡ []) }
    requires replies { vec_len replies + length cmds.now ≤ vec_capacity replies }
    requires marks { vec_len marks + length cmds.now < vec_capacity marks }
    ensures keeps { IsTrue D.tells → (g : Geometry) (t : Tree) (mounted : ℕ) → HasServed g t mounted [] [] [] (state_of D.state (blocks_in files))
        → Keeps g t mounted (D.state result.disk) cmds.now result.replies.items result.kept result.marks.items }
    ensures base { IsTrue D.tells → (D.state result.disk).base ≡ (state_of D.state (blocks_in files)).crash.base }
{
    let (mut files, mut replies, mut marks) = (files, replies, marks);
    answer_all(alloc, &mut files, cmds, &mut replies, &mut marks);
    let kept = answer(alloc, &mut files, &Cmd::Dsync, &mut marks);
    Answered {
        disk: disk_back(files.into_blocks()),
        replies,
        kept,
        marks,
    }
}

/// Answers the commands, one after the other, and keeps the replies and their marks.
fn answer_all<D: Disk + Drop>(
    alloc: Global,
    files: &mut Served<Store<D>>,
    cmds: &[Cmd],
    replies: &mut Vec<Reply>,
    marks: &mut Vec<u64>,
)
    requires empty { (replies.old.items ≡ []) × (marks.old.items ≡ []) }
    requires replies { vec_len replies.old + length cmds.now ≤ vec_capacity replies.old }
    requires marks { vec_len marks.old + length cmds.now < vec_capacity marks.old }
    ensures serves { IsTrue D.tells → (g : Geometry) (t : Tree) (mounted : ℕ) → HasServed g t mounted [] [] [] (state_of D.state (blocks_in files.old))
        → HasServed g t mounted cmds.now replies.new.items marks.new.items (state_of D.state (blocks_in files.new)) }
    ensures base { IsTrue D.tells → (state_of D.state (blocks_in files.new)).crash.base ≡ (state_of D.state (blocks_in files.old)).crash.base }
    ensures room { vec_len marks.new < vec_capacity marks.new }
{
    for place in 0..cmds.len() {
        let reply = answer(alloc, files, &cmds[place], marks);
        replies.push_reserved(reply);
    }
}

/// Answers one command, and keeps the mark of its reply.
fn answer<D: Disk + Drop>(
    alloc: Global,
    files: &mut Served<Store<D>>,
    cmd: &Cmd,
    marks: &mut Vec<u64>,
) -> Reply
    requires room { vec_len marks.old < vec_capacity marks.old }
    ensures serves { IsTrue D.tells → (g : Geometry) (t : Tree) (mounted : ℕ) (cmds : List Cmd) (replies : List Reply)
        → HasServed g t mounted cmds replies marks.old.items (state_of D.state (blocks_in files.old))
        → HasServed g t mounted (cmds ++ cmd.now ∷ []) (replies ++ result ∷ []) marks.new.items (state_of D.state (blocks_in files.new)) }
    ensures base { IsTrue D.tells → (state_of D.state (blocks_in files.new)).crash.base ≡ (state_of D.state (blocks_in files.old)).crash.base }
    ensures mark { IsTrue D.tells → marks.new.items ≡ marks.old.items ++ length (state_of D.state (blocks_in files.new)).crash.log ∷ [] }
    ensures len { vec_len marks.new ≡ vec_len marks.old + 1 }
    ensures capacity { vec_capacity marks.new ≡ vec_capacity marks.old }
{
    let reply = files.apply(alloc, cmd);
    marks.push_reserved(files.blocks().disk().moment());
    reply
}
