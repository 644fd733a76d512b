//! A file system of which it is known between calls that a command may follow, and what is known of the commands that
//! were answered.

use crash_stands::an_image_stands_for_one_tree;
use engine_blocks::{Blocks, Figures};
use fs_check::CheckRefusal;
use fs_commands::Fs;
use fs_session::{a_crash_leaves_the_tree_of_a_point, a_reply_tells_the_points, points_stay_known};
use lang_tree::{
    Cmd, Reply, a_fault_ends_the_session, a_reply_tells_the_session, nothing_shared_costs_nothing,
};
use std::alloc::Global;
use std::marker::Model;

/// A file system over blocks, on which a command may follow.
#[derive(Drop)]
pub struct Served<S: Blocks + Drop> {
    fs: Fs<S>,
}

impl<S: Blocks + Drop> Model for Served<S> {
    ghost use Rattle.fs_commands.specs.declared.fs.Fs.{Fs};
    ghost use Rattle.fs_commands.specs.Opened.{MayFollow};

    ghost Value = { Fs S };

    ghost view = { λ s. s.fs };

    ghost invariant = { λ s. MayFollow S.tells S.state s.fs };
}

impl<S: Blocks + Drop> Served<S> {
    ghost use Rattle.std.specs.Prelude.{◌≡◌, ◌≤◌, ◌+◌, ◌++◌, ◌∷◌, ℕ, false, IsTrue, IfOk, IfErr, List, [], length};
    ghost use Rattle.base_types.specs.Seal.{Blocks as BlockMap};
    ghost use Rattle.disk_contract.specs.Disk.{writes_in};
    ghost use Rattle.layout_geometry.specs.Geometry.{Geometry};
    ghost use Rattle.lang_tree.specs.declared.command.Cmd.{Cmd};
    ghost use Rattle.lang_tree.specs.declared.command.Reply.{Reply};
    ghost use Rattle.lang_tree.specs.Tree.{Tree};
    ghost use Rattle.crash_stands.specs.Stands.{IsTreeOf};
    ghost use Rattle.engine_blocks.specs.Calls.{AreFigures, commit_places, commit_writes};
    ghost use Rattle.engine_blocks.specs.Crashes.{IsBegun, IsTold, WritesAtMost};
    ghost use Rattle.fs_files.specs.Effects.{LooksOnly};
    ghost use Rattle.fs_check.specs.Whole.{IsDamaged, OnDamage, fails_by};
    ghost use Rattle.fs_session.specs.Applying.{Applies, PassesTime};
    ghost use Rattle.fs_commands.specs.Opened.{MayFollow, blocks_in};
    ghost use Rattle.cmd_session.specs.Budget.{KeepsBudget, sync_budget, sync_places, writes_of};
    ghost use Rattle.cmd_session.specs.Serving.{HasServed, IsDrawn, IsMountedWith};

    /// Opens the file system of blocks that were just mounted, if a tree stands in them. It begins a run of no commands.
    /// All of the node table and the directories is read, and nothing is written.
    ///
    /// # Errors
    /// Something is broken, so no tree stands; a read of the disk failed, which the disk has counted; or out of
    /// memory. The blocks are handed back.
    pub fn open(alloc: Global, blocks: S) -> Result<Served<S>, (S, CheckRefusal)>
        requires begun { IsBegun (S.state blocks) }
        ensures serves { IsTrue S.tells → ((s : S) → IsDrawn (S.state s)) → (g : Geometry) (m : BlockMap) (t : Tree)
            → IsMountedWith g m (S.state blocks) → IsTreeOf g m t
            → IfOk result (λ served. HasServed g t (length (S.state blocks).crash.log) [] [] [] (S.state (blocks_in served))) }
        ensures budget { IsTrue S.tells → (t : Tree)
            → IfOk result (λ served. KeepsBudget (S.state blocks).books.geom t (writes_in (S.state blocks).crash.log + (S.state blocks).books.owed) []
            [] (S.state (blocks_in served))) }
        ensures stands { IsTrue S.tells → IfOk result (λ _. (t : Tree) × IsTreeOf (S.state blocks).books.geom (S.state blocks).map t) }
        ensures damage { IsTrue S.tells → IfErr result (λ e. OnDamage e.1 (IsDamaged (S.state blocks).books.geom (S.state blocks).map)) }
        ensures none { IsTrue S.tells → IfErr result (λ e. OnDamage e.1 (λ _. (t : Tree) → IsTreeOf (S.state blocks).books.geom (S.state blocks).map t → ⊥)) }
        ensures looks { IfOk result (λ served. LooksOnly S.tells false (S.state blocks) (S.state (blocks_in served))) }
        ensures back { IfErr result (λ e. LooksOnly S.tells (fails_by e.1) (S.state blocks) (S.state e.0)) }
    {
        a_crash_leaves_the_tree_of_a_point::<S>();
        an_image_stands_for_one_tree();
        match Fs::open(alloc, blocks) {
            Ok(fs) => {
                points_stay_known(fs.blocks());
                Ok(Served { fs })
            }
            Err(refused) => Err(refused),
        }
    }

    /// Answers one command. What was known of the run so far is known of the longer one.
    pub fn apply(&mut self, alloc: Global, cmd: &Cmd) -> Reply
        ensures serves { IsTrue S.tells → ((s : S) → IsDrawn (S.state s))
            → (g : Geometry) (t : Tree) (mounted : ℕ) (cmds : List Cmd) (replies : List Reply) (marks : List ℕ)
            → HasServed g t mounted cmds replies marks (S.state (blocks_in self.old))
            → HasServed g t mounted (cmds ++ cmd.now ∷ []) (replies ++ result ∷ []) (marks ++ length (S.state (blocks_in self.new)).crash.log ∷ [])
            (S.state (blocks_in self.new)) }
        ensures budget { IsTrue S.tells → (g : Geometry) (t : Tree) (mounted begun : ℕ) (cmds : List Cmd) (replies : List Reply) (marks : List ℕ)
            → HasServed g t mounted cmds replies marks (S.state (blocks_in self.old))
            → KeepsBudget g t begun cmds replies (S.state (blocks_in self.old))
            → KeepsBudget g t begun (cmds ++ cmd.now ∷ []) (replies ++ result ∷ []) (S.state (blocks_in self.new)) }
        ensures writes { IsTrue S.tells → WritesAtMost (writes_of cmd.now result (S.state (blocks_in self.old)).books) (S.state (blocks_in self.old))
            (S.state (blocks_in self.new)) }
        ensures applies { Applies S.tells S.state cmd.now result (blocks_in self.old) (blocks_in self.new) }
        ensures time { IsTrue S.tells → PassesTime (S.state (blocks_in self.old)) (S.state (blocks_in self.new)) }
    {
        a_reply_tells_the_session();
        nothing_shared_costs_nothing();
        a_fault_ends_the_session();
        a_reply_tells_the_points::<S>();
        a_crash_leaves_the_tree_of_a_point::<S>();
        let reply = self.fs.apply(alloc, cmd);
        points_stay_known(self.fs.blocks());
        reply
    }

    /// Does nothing. A proof learns from the call that the record that a sync would write now takes no more ring places
    /// than the transaction's weight does, and stands for no more writes; that the point known to be durable isn't behind
    /// the last one; and what holds of every map of blocks.
    pub fn lawful(&self)
        ensures places { commit_places (S.state (blocks_in self.now)).books ≤ sync_places (S.state (blocks_in self.now)).books.running.weight }
        ensures writes { commit_writes (S.state (blocks_in self.now)).books ≤ sync_budget (S.state (blocks_in self.now)).books.running.weight }
        ensures floor { (S.state (blocks_in self.now)).books.floor ≤ (S.state (blocks_in self.now)).books.point }
        ensures told { IsTrue S.tells → IsTold (S.state (blocks_in self.now)) }
    {
        // a call for its clause alone: these are the blocks of a file system on which a command may follow
        let _ = self.fs.blocks();
    }

    /// What is known of the blocks and the room in them.
    pub fn figures(&self) -> Figures
        ensures { AreFigures (S.state (blocks_in self.now)).books result }
    {
        self.fs.figures()
    }

    /// The blocks.
    pub fn blocks(&self) -> &S
        ensures { result.now ≡ blocks_in self.now }
    {
        self.fs.blocks()
    }

    /// The file system by itself, on which a command may follow.
    pub fn into_files(self) -> Fs<S>
        ensures same { result ≡ self }
        ensures follows { MayFollow S.tells S.state result }
    {
        let Served { fs } = self;
        fs
    }

    /// The blocks, given back. What no sync point has is lost.
    pub fn into_blocks(self) -> S
        ensures { result ≡ blocks_in self }
    {
        let Served { fs } = self;
        fs.into_blocks()
    }
}
