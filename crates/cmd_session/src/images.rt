//! What the image of a disk is to whoever mounts it: what is broken in it, and laws of images, each an empty function
//! whose clauses say it. Which images can be mounted and for which tree one stands is defined in `specs/Images.antt`.

ghost use Rattle.std.specs.Prelude.{ℕ};
ghost use Rattle.base_types.specs.Seal.{Blocks as BlockMap};
ghost use Rattle.engine_mount.specs.Mount.{IsUsedUp};
ghost use Rattle.lang_tree.specs.Tree.{Tree};
ghost use Rattle.cmd_session.specs.declared.images.ImageDamage.{ImageDamage};
ghost use Rattle.cmd_session.specs.Images.{CanBeMounted, HasDamage, IsDamaged, StandsForNone, StandsMounted};

use engine_store::a_mount_has_one_answer;
use fs_check::{
    Damage, broken_blocks_are_not_sound, no_tree_stands_where_a_snapshot_is_broken,
    no_tree_stands_where_it_is_broken,
};
use layout_geometry::geometries_are_within_limits;
use layout_journal::{an_image_holds_one_map, journal_blocks_keep_to_their_bounds};
use std::error::Error;
use std::fmt;

/// What is broken in the image of a disk, and where. A mount meets them in this order.
#[derive(Clone, Copy, Debug, PartialEq, Eq)]
pub enum ImageDamage {
    /// Neither header slot has a header.
    NoHeader,
    /// A bit of the bitmap is wrong, as the bitmap is once the journal is replayed: it is clear before the data, or set
    /// past the last block.
    BadBit {
        /// The least number whose bit is wrong.
        block: u32,
    },
    /// The blocks that the image holds, once its journal is replayed, stand for no tree.
    Broken {
        /// What is broken in them, and where.
        what: Damage,
    },
}

impl fmt::Display for ImageDamage {
    fn fmt<W: fmt::Write>(&self, f: &mut fmt::Formatter<W>) -> fmt::Result {
        match self {
            ImageDamage::NoHeader => write!(f, "there is no header"),
            ImageDamage::BadBit { block } => write!(f, "the bit of block {block} is wrong"),
            ImageDamage::Broken { what } => write!(f, "{what}"),
        }
    }
}

impl Error for ImageDamage {}

/// An image in which something is broken stands for no tree.
pub fn a_damaged_image_stands_for_no_tree()
    ensures { (n : ℕ) (at : BlockMap) (damage : ImageDamage) → HasDamage n at damage → StandsForNone n at }
{
    an_image_holds_one_map();
    geometries_are_within_limits();
    journal_blocks_keep_to_their_bounds();
    broken_blocks_are_not_sound();
    no_tree_stands_where_a_snapshot_is_broken();
    no_tree_stands_where_it_is_broken();
}

/// What is said of an image by one answer can't be said by another: where a tree stands nothing is broken, and where
/// the numbers of the journal are at their end neither is so, nor may it be mounted.
pub fn an_image_has_one_answer()
    ensures stands { (n : ℕ) (at : BlockMap) (t : Tree) → StandsMounted n at t → ¬ IsDamaged n at }
    ensures spent { (n : ℕ) (at : BlockMap) → IsUsedUp n at → ¬ CanBeMounted n at }
    ensures damaged { (n : ℕ) (at : BlockMap) → IsUsedUp n at → ¬ IsDamaged n at }
{
    a_damaged_image_stands_for_no_tree();
    a_mount_has_one_answer();
}
