//! A file system over a map of blocks: opening it, answering commands, what is known of its room, and giving
//! the blocks back. What each command does once it began is described elsewhere.

ghost use Rattle.std.specs.Prelude.{◌≡◌, ◌≤◌, IsTrue, true, false, IfOk, IfErr, OnOk, OnErr};
ghost use Rattle.std.specs.Io.KnownBytes.{Appends};
ghost use Rattle.base_io.specs.Prefix.{TakesPrefix};
ghost use Rattle.engine_blocks.specs.Calls.{AreFigures};
ghost use Rattle.engine_blocks.specs.Crashes.{IsBegun};
ghost use Rattle.lang_tree.specs.Tree.{Tree};
ghost use Rattle.lang_tree.specs.Listing.{listing as listing_of};
ghost use Rattle.lang_tree.specs.Step.{Session, session_on};
ghost use Rattle.crash_stands.specs.Bounds.{bounds_of};
ghost use Rattle.crash_stands.specs.Stands.{IsTreeOf};
ghost use Rattle.fs_files.specs.Effects.{LooksOnly};
ghost use Rattle.fs_check.specs.Whole.{IsDamaged, OnDamage, fails_by};
ghost use Rattle.fs_session.specs.Applying.{AnswersSession, Applies, PassesTime};
ghost use Rattle.fs_commands.specs.Listing.{ended_by_read, ended_by_push, ended_by_stop, CountsPushes};
ghost use Rattle.fs_session.specs.Sessions.{IsSession, Stands};

use crate::commands::answer;
use crate::held::HeldNodes;
use crate::kept_listing::list_all;
use crate::known::KnownSnapshots;
use crate::listing::ListRefusal;
use base_io::Sink;
use engine_blocks::{Blocks, Figures};
use fs_check::{CheckRefusal, check};
use fs_files::a_sync_may_follow;
use fs_session::{UnusedNodes, a_command_answers_its_session};
use fs_snapshots::what_is_known_of_snapshots_is_so;
use lang_tree::{Cmd, Reply};
use std::alloc::Global;

/// A file system over a map of blocks.
#[derive(Drop)]
pub struct Fs<S: Blocks> {
    blocks: S,
    /// Which nodes may be unused.
    unused: UnusedNodes,
    /// What is known of the snapshots.
    known: KnownSnapshots,
    /// What the snapshot keeps at which a command looked last.
    held: Option<HeldNodes>,
}

impl<S: Blocks> Fs<S> {
    ghost use Rattle.fs_commands.specs.Opened.{blocks_in, IsReady, StaysOpen};

    /// Opens the file system of these blocks, if a tree stands in them. All of the node table and the
    /// directories is read, and nothing is written.
    ///
    /// # Errors
    /// Something is broken, so no tree stands; a read of the disk failed, which the disk has counted; or out of
    /// memory. The blocks are handed back.
    pub fn open(alloc: Global, mut blocks: S) -> Result<Fs<S>, (S, CheckRefusal)>
        requires begun { IsBegun (S.state blocks) }
        ensures session { IsTrue S.tells
            → IfOk result (λ fs. (t : Tree) × IsSession (S.state (blocks_in fs)) (session_on (bounds_of (S.state blocks).books.geom) t)) }
        ensures ready { IfOk result (λ fs. IsReady S.tells S.state fs) }
        ensures stands { IsTrue S.tells → IfOk result (λ fs. Stands (S.state (blocks_in fs))) }
        ensures damage { IsTrue S.tells → IfErr result (λ e. OnDamage e.1 (IsDamaged (S.state blocks).books.geom (S.state blocks).map)) }
        ensures none { IsTrue S.tells → IfErr result (λ e. OnDamage e.1 (λ _. (t : Tree) → IsTreeOf (S.state blocks).books.geom (S.state blocks).map t → ⊥)) }
        ensures looks { IfOk result (λ fs. LooksOnly S.tells false (S.state blocks) (S.state (blocks_in fs))) }
        ensures back { IfErr result (λ e. LooksOnly S.tells (fails_by e.1) (S.state blocks) (S.state e.0)) }
    {
        a_sync_may_follow();
        match check(alloc, &mut blocks) {
            Ok(found) => Ok(Fs {
                blocks,
                unused: UnusedNodes::new(),
                known: KnownSnapshots::of(found),
                held: None,
            }),
            Err(why) => Err((blocks, why)),
        }
    }

    /// Answers one command: as the tree answers it, or with the refusal of a file system that has no room, or
    /// whose disk or memory failed it. Each command but one that is refused at once begins with a tick.
    pub fn apply(&mut self, alloc: Global, cmd: &Cmd) -> Reply
        requires ready { IsReady S.tells S.state self.old }
        requires stands { IsTrue S.tells → Stands (S.state (blocks_in self.old)) }
        ensures applies { Applies S.tells S.state cmd.now result (blocks_in self.old) (blocks_in self.new) }
        ensures answers { IsTrue S.tells → (f : Session) → IsSession (S.state (blocks_in self.old)) f
            → AnswersSession S.tells S.state f cmd.now result (blocks_in self.new) }
        ensures time { IsTrue S.tells → PassesTime (S.state (blocks_in self.old)) (S.state (blocks_in self.new)) }
        ensures ready { IsReady S.tells S.state self.new }
        ensures stands { IsTrue S.tells → Stands (S.state (blocks_in self.new)) }
    {
        a_command_answers_its_session::<S>();
        answer(
            alloc,
            &mut self.blocks,
            cmd,
            &mut self.unused,
            &mut self.known,
            &mut self.held,
        )
    }

    /// Writes the listing of the tree to a sink, and behind it what each snapshot keeps. It takes memory for the names of
    /// the directories on one path, for a piece of a file, and four bytes for each block of the node table of one
    /// snapshot.
    ///
    /// # Errors
    /// A call of the disk failed before, and then nothing is read or written; a read of the disk failed, which the
    /// disk has counted; a push of the sink failed, which the sink has counted; or out of memory. By then the sink
    /// took a prefix of the listing and nothing else.
    pub fn listing<K: Sink>(&mut self, alloc: Global, out: &mut K) -> Result<(), ListRefusal>
        requires ready { IsReady S.tells S.state self.old }
        ensures all { IsTrue S.tells → OnOk result ((f : Session) → IsSession (S.state (blocks_in self.old)) f
            → Appends (K.taken out.old) (K.taken out.new) (listing_of f.tree)) }
        ensures front { IsTrue S.tells → OnErr result ((f : Session) → IsSession (S.state (blocks_in self.old)) f
            → TakesPrefix (K.taken out.old) (K.taken out.new) (listing_of f.tree)) }
        ensures stopped { ended_by_stop result ≡ (S.state (blocks_in self.old)).books.stopped }
        ensures nothing { (S.state (blocks_in self.old)).books.stopped ≡ true → (blocks_in self.new ≡ blocks_in self.old) × (out.new ≡ out.old) }
        ensures looks { LooksOnly S.tells (ended_by_read result) (S.state (blocks_in self.old)) (S.state (blocks_in self.new)) }
        ensures pushes { CountsPushes (ended_by_push result) (K.faults out.old) (K.faults out.new) }
        ensures stays { StaysOpen S.tells S.state self.old self.new }
    {
        what_is_known_of_snapshots_is_so();
        list_all(alloc, &mut self.blocks, out, &self.known)
    }

    /// What is known of the blocks and the room in them.
    pub fn figures(&self) -> Figures
        ensures { AreFigures (S.state (blocks_in self.now)).books result }
    {
        self.blocks.figures()
    }

    /// The blocks.
    pub fn blocks(&self) -> &S
        ensures { result.now ≡ blocks_in self.now }
    {
        &self.blocks
    }

    /// The blocks, given back. What no sync point has is lost.
    pub fn into_blocks(self) -> S
        ensures { result ≡ blocks_in self }
    {
        let Fs {
            blocks,
            unused: _,
            known: _,
            held: _,
        } = self;
        blocks
    }
}
