//! The whole check: first that the blocks are sound and what each snapshot keeps is a tree, then that the nodes are
//! those of a tree.

ghost use Rattle.std.specs.Prelude.{◌≡◌, false, IsTrue, IfErr, IfOk};
ghost use Rattle.std.specs.FinMap.{get};
ghost use Rattle.lang_tree.specs.Tree.{Tree};
ghost use Rattle.crash_stands.specs.Stands.{IsTreeOf};
ghost use Rattle.engine_blocks.specs.Running.{HasNoBare};
ghost use Rattle.fs_files.specs.Effects.{LooksOnly};
ghost use Rattle.fs_check.specs.Snapshots.{numbers_in};
ghost use Rattle.fs_snapshots.specs.Known.{KnowsSnapshots};
ghost use Rattle.fs_check.specs.Whole.{IsDamaged, OnDamage, fails_reading};

use crate::block_damage::BlocksRefusal;
use crate::blocks::check_blocks;
use crate::damage::TreeRefusal;
use crate::tree::{check_tree, no_tree_stands_where_it_is_broken};
use crate::{
    BlockDamage, SnapshotDamage, Snapshots, TreeDamage, broken_blocks_are_not_sound,
    no_tree_stands_where_a_snapshot_is_broken,
};
use base_types::{NoMemory, ReadFault};
use crash_stands::files_have_one_map;
use engine_blocks::Blocks;
use fs_inodes::the_rules_make_a_tree;
use fs_snapshots::what_is_known_of_snapshots_is_so;
use std::alloc::{AllocError, Global};
use std::error::Error;
use std::fmt;

/// What is broken in blocks that are to stand for a tree, and where.
#[derive(Clone, Copy, Debug, PartialEq, Eq)]
pub enum Damage {
    /// The blocks aren't sound.
    Blocks(BlockDamage),
    /// A snapshot isn't one, or what it keeps is no tree.
    Snapshot(SnapshotDamage),
    /// The nodes aren't those of a tree.
    Tree(TreeDamage),
}

impl fmt::Display for Damage {
    fn fmt<W: fmt::Write>(&self, f: &mut fmt::Formatter<W>) -> fmt::Result {
        match self {
            Damage::Blocks(damage) => write!(f, "{damage}"),
            Damage::Snapshot(damage) => write!(f, "{damage}"),
            Damage::Tree(damage) => write!(f, "{damage}"),
        }
    }
}

impl Error for Damage {}

/// Why a check didn't find a tree.
#[derive(Clone, Copy, Debug, PartialEq, Eq)]
pub enum CheckRefusal {
    /// Something is broken.
    Damaged(Damage),
    /// A read of the disk failed, which the disk has counted.
    ReadFault,
    /// Out of memory.
    NoMemory,
}

impl fmt::Display for CheckRefusal {
    fn fmt<W: fmt::Write>(&self, f: &mut fmt::Formatter<W>) -> fmt::Result {
        match self {
            CheckRefusal::Damaged(damage) => write!(f, "{damage}"),
            CheckRefusal::ReadFault => write!(f, "a block could not be read"),
            CheckRefusal::NoMemory => write!(f, "out of memory"),
        }
    }
}

impl Error for CheckRefusal {}

impl From<BlocksRefusal> for CheckRefusal {
    ghost use Rattle.std.specs.Prelude.{◌≡◌};
    ghost use Rattle.fs_check.specs.Whole.{of_blocks};

    ghost from_gives = { λ why refusal. refusal ≡ of_blocks why };

    fn from(why: BlocksRefusal) -> CheckRefusal {
        match why {
            BlocksRefusal::Damaged(damage) => CheckRefusal::Damaged(Damage::Blocks(damage)),
            BlocksRefusal::ReadFault => CheckRefusal::ReadFault,
            BlocksRefusal::NoMemory => CheckRefusal::NoMemory,
        }
    }
}

impl From<TreeRefusal> for CheckRefusal {
    ghost use Rattle.std.specs.Prelude.{◌≡◌};
    ghost use Rattle.fs_check.specs.Whole.{of_tree};

    ghost from_gives = { λ why refusal. refusal ≡ of_tree why };

    fn from(why: TreeRefusal) -> CheckRefusal {
        match why {
            TreeRefusal::Damaged(damage) => CheckRefusal::Damaged(Damage::Tree(damage)),
            TreeRefusal::ReadFault => CheckRefusal::ReadFault,
            TreeRefusal::NoMemory => CheckRefusal::NoMemory,
        }
    }
}

impl From<BlockDamage> for CheckRefusal {
    ghost use Rattle.std.specs.Prelude.{◌≡◌};
    ghost use Rattle.fs_check.specs.declared.checking.CheckRefusal.TheVariants.{Damaged};
    ghost use Rattle.fs_check.specs.declared.checking.Damage.TheVariants.{Blocks};

    ghost from_gives = { λ damage refusal. refusal ≡ Damaged (Blocks damage) };

    fn from(damage: BlockDamage) -> CheckRefusal {
        CheckRefusal::Damaged(Damage::Blocks(damage))
    }
}

impl From<SnapshotDamage> for CheckRefusal {
    ghost use Rattle.std.specs.Prelude.{◌≡◌};
    ghost use Rattle.fs_check.specs.declared.checking.CheckRefusal.TheVariants.{Damaged};
    ghost use Rattle.fs_check.specs.declared.checking.Damage.TheVariants.{Snapshot};

    ghost from_gives = { λ damage refusal. refusal ≡ Damaged (Snapshot damage) };

    fn from(damage: SnapshotDamage) -> CheckRefusal {
        CheckRefusal::Damaged(Damage::Snapshot(damage))
    }
}

impl From<ReadFault> for CheckRefusal {
    ghost use Rattle.std.specs.Prelude.{◌≡◌};
    ghost use Rattle.fs_check.specs.declared.checking.CheckRefusal.TheVariants.{ReadFault as Unread};

    ghost from_gives = { λ _ refusal. refusal ≡ Unread };

    fn from(_: ReadFault) -> CheckRefusal {
        CheckRefusal::ReadFault
    }
}

impl From<NoMemory> for CheckRefusal {
    ghost use Rattle.std.specs.Prelude.{◌≡◌};
    ghost use Rattle.fs_check.specs.declared.checking.CheckRefusal.TheVariants.{NoMemory as OutOfMemory};

    ghost from_gives = { λ _ refusal. refusal ≡ OutOfMemory };

    fn from(_: NoMemory) -> CheckRefusal {
        CheckRefusal::NoMemory
    }
}

impl From<AllocError> for CheckRefusal {
    ghost use Rattle.std.specs.Prelude.{◌≡◌};
    ghost use Rattle.fs_check.specs.declared.checking.CheckRefusal.TheVariants.{NoMemory as OutOfMemory};

    ghost from_gives = { λ _ refusal. refusal ≡ OutOfMemory };

    fn from(_: AllocError) -> CheckRefusal {
        CheckRefusal::NoMemory
    }
}

/// Checks that a tree with its snapshots stands in a map of blocks, and answers what was found of these: for each its
/// number by its name, and how many keep each block. Blocks are read, and nothing else is done.
///
/// # Errors
/// Something is broken, and no tree stands; a read of the disk failed, which the disk has counted; or out
/// of memory.
pub fn check<S: Blocks>(alloc: Global, blocks: &mut S) -> Result<Snapshots, CheckRefusal>
    requires going { (S.state blocks.old).books.stopped ≡ false }
    requires none_bare { HasNoBare (S.state blocks.old).books.running }
    ensures tree { IsTrue S.tells → IfOk result (λ found. (t : Tree) × IsTreeOf (S.state blocks.old).books.geom (S.state blocks.old).map t) }
    ensures known { IsTrue S.tells → IfOk result (λ found. KnowsSnapshots (S.state blocks.old).books.geom (S.state blocks.old).map found.shared
        (get (numbers_in found.numbers.entries))) }
    ensures damage { IsTrue S.tells → IfErr result (λ why. OnDamage why (IsDamaged (S.state blocks.old).books.geom (S.state blocks.old).map)) }
    ensures none { IsTrue S.tells → IfErr result
        (λ why. OnDamage why (λ _. (t : Tree) → IsTreeOf (S.state blocks.old).books.geom (S.state blocks.old).map t → ⊥)) }
    ensures looks { LooksOnly S.tells (fails_reading result) (S.state blocks.old) (S.state blocks.new) }
{
    the_rules_make_a_tree();
    files_have_one_map();
    broken_blocks_are_not_sound();
    no_tree_stands_where_a_snapshot_is_broken();
    no_tree_stands_where_it_is_broken();
    what_is_known_of_snapshots_is_so();
    let found = check_blocks(alloc, blocks)?;
    check_tree(alloc, blocks, &found.shared)?;
    Ok(found)
}
