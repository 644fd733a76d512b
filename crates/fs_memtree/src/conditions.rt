//! Why a command is refused, or what it is about: first the walks, and then the other conditions in the order
//! of their numbers, one small function for each family of commands. Each path is walked once, and what the
//! walk found is returned. Nothing here changes a node or takes memory.

ghost use Rattle.std.specs.Prelude.{◌≡◌, ◌+◌, ◌^◌, ◌<◌, ◌&&◌, nat_lt, false, Some, None, Option, IfOk, if◌then◌else◌};
ghost use Rattle.std.specs.Result.{result_err};
ghost use Rattle.lang_tree.specs.Conditions.{is_too_large};
ghost use Rattle.lang_tree.specs.Walk.{are_same};
ghost use Rattle.fs_inodes.specs.Lookups.{number_at};
ghost use Rattle.fs_inodes.specs.Refusals.{make_reason, write_reason, file_reason, truncate_reason, link_reason, rmdir_reason, onto_reason};
ghost use Rattle.fs_inodes.specs.Refusals.{rename_reason, walk_reason, list_reason};
ghost use Rattle.fs_memtree.specs.Trails.{IsEnd, IsUnder};
ghost use Rattle.fs_memtree.specs.Kept.{map_of};

use crate::nodes::Nodes;
use crate::walks::End;
use base_types::Layout;
use base_types::limits::{LARGEST_FILE, MOST_LINKS};
use lang_tree::{Path, Refusal};

impl Nodes {
    /// A new node: the path isn't there, a number is unused, of which this is the least, and the layout takes the name.
    /// Where it is to be, and its number.
    pub(crate) fn to_make<'a>(
        &self,
        least: Option<u32>,
        path: &'a Path,
        layout: Layout,
    ) -> Result<(End<'a>, u32), Refusal>
        ensures reason { result_err result ≡ make_reason layout least (map_of self.now) path.now }
        ensures found { IfOk result (λ found. IsEnd (map_of self.now) path.now found.0 × (found.0.number ≡ None) × (least ≡ Some found.1)) }
        ensures under { IfOk result (λ found. IsUnder (map_of self.now) found.0) }
    {
        let end = self.look(path.names())?;
        if end.number.is_some() {
            return Err(Refusal::Exists);
        }
        let Some(number) = least else {
            return Err(Refusal::NoNode);
        };
        if path.is_too_long(layout) {
            return Err(Refusal::NameTooLong);
        }
        Ok((end, number))
    }

    /// So many bytes from `offset` on come into a file. Its number.
    pub(crate) fn to_write(&self, path: &Path, offset: u32, count: u64) -> Result<u32, Refusal>
        ensures reason { result_err result ≡ write_reason (map_of self.now) path.now offset count }
        ensures found { IfOk result (λ number. number_at (map_of self.now) path.now ≡ Some number) }
        ensures end { IfOk result (λ number. offset + count < 2 ^ 62) }
    {
        let number = self.walk(path.names())?;
        if self.is_dir(number) {
            return Err(Refusal::IsDir);
        }
        if grows_too_large(offset, count) {
            return Err(Refusal::TooLarge);
        }
        Ok(number)
    }

    /// A file alone. Its number.
    pub(crate) fn to_read(&self, path: &Path) -> Result<u32, Refusal>
        ensures reason { result_err result ≡ file_reason (map_of self.now) path.now }
        ensures found { IfOk result (λ number. number_at (map_of self.now) path.now ≡ Some number) }
    {
        let number = self.walk(path.names())?;
        if self.is_dir(number) {
            return Err(Refusal::IsDir);
        }
        Ok(number)
    }

    /// A file alone that may have this size. Its number.
    pub(crate) fn to_truncate(&self, path: &Path, size: u32) -> Result<u32, Refusal>
        ensures reason { result_err result ≡ truncate_reason (map_of self.now) path.now size }
        ensures found { IfOk result (λ number. number_at (map_of self.now) path.now ≡ Some number) }
    {
        let number = self.walk(path.names())?;
        if self.is_dir(number) {
            return Err(Refusal::IsDir);
        }
        if u64::from(size) > LARGEST_FILE {
            return Err(Refusal::TooLarge);
        }
        Ok(number)
    }

    /// Another path of a file, which has so many paths at most; the layout takes its name. The file's number, and where
    /// the path ends.
    pub(crate) fn to_link<'a>(
        &self,
        path: &Path,
        other: &'a Path,
        layout: Layout,
    ) -> Result<(u32, End<'a>), Refusal>
        ensures reason { result_err result ≡ link_reason layout (map_of self.now) path.now other.now }
        ensures found { IfOk result (λ found. (number_at (map_of self.now) path.now ≡ Some found.0) × IsEnd (map_of self.now) other.now found.1) }
    {
        let number = self.walk(path.names())?;
        let end = self.look(other.names())?;
        if end.number.is_some() {
            return Err(Refusal::Exists);
        }
        if self.is_dir(number) {
            return Err(Refusal::IsDir);
        }
        if self.links(number) >= u64::from(MOST_LINKS) {
            return Err(Refusal::TooManyLinks);
        }
        if other.is_too_long(layout) {
            return Err(Refusal::NameTooLong);
        }
        Ok((number, end))
    }

    /// A file alone. Where its path ends.
    pub(crate) fn to_unlink<'a>(&self, path: &'a Path) -> Result<End<'a>, Refusal>
        ensures reason { result_err result ≡ file_reason (map_of self.now) path.now }
        ensures found { IfOk result (λ end. IsEnd (map_of self.now) path.now end) }
    {
        let (end, number) = self.reach(path.names())?;
        if self.is_dir(number) {
            return Err(Refusal::IsDir);
        }
        Ok(end)
    }

    /// An empty directory that isn't the root. Where its path ends.
    pub(crate) fn to_rmdir<'a>(&self, path: &'a Path) -> Result<End<'a>, Refusal>
        ensures reason { result_err result ≡ rmdir_reason (map_of self.now) path.now }
        ensures found { IfOk result (λ end. IsEnd (map_of self.now) path.now end) }
    {
        let (end, number) = self.reach(path.names())?;
        if self.is_file(number) {
            return Err(Refusal::NotDir);
        }
        if self.holds_names(number) {
            return Err(Refusal::NotEmpty);
        }
        if path.names().is_empty() {
            return Err(Refusal::BelowItself);
        }
        Ok(end)
    }

    /// A move; where both paths lead to one node, the walks and too long a name alone can refuse it. Where both paths
    /// end.
    pub(crate) fn to_rename<'a>(
        &self,
        from: &'a Path,
        to: &'a Path,
        layout: Layout,
    ) -> Result<(End<'a>, End<'a>), Refusal>
        ensures reason { result_err result ≡ rename_reason layout (map_of self.now) from.now to.now }
        ensures found { IfOk result (λ found. IsEnd (map_of self.now) from.now found.0 × IsEnd (map_of self.now) to.now found.1) }
    {
        let (first, number) = self.reach(from.names())?;
        let second = self.look(to.names())?;
        if let Some(why) = self.move_refusal(from, to, number, second.number) {
            return Err(why);
        }
        if to.is_too_long(layout) {
            return Err(Refusal::NameTooLong);
        }
        Ok((first, second))
    }

    /// Why the node at the first path can't come to the second one; nothing is done where they are one node.
    fn move_refusal(&self, from: &Path, to: &Path, number: u32, old: Option<u32>) -> Option<Refusal>
        requires first { number_at (map_of self.now) from.now ≡ Some number }
        requires second { number_at (map_of self.now) to.now ≡ old }
        ensures { result ≡ (if are_same (Some number) old then None else onto_reason (map_of self.now) from.now to.now) }
    {
        match old {
            None => self.below_refusal(from, to, number),
            Some(old) => {
                if number == old {
                    return None;
                }
                self.onto_refusal(from, to, number, old)
            }
        }
    }

    /// Why the node at the first path can't come to the second one, which is free.
    fn below_refusal(&self, from: &Path, to: &Path, number: u32) -> Option<Refusal>
        requires first { number_at (map_of self.now) from.now ≡ Some number }
        requires second { number_at (map_of self.now) to.now ≡ None }
        ensures { result ≡ onto_reason (map_of self.now) from.now to.now }
    {
        if self.is_dir(number) && to.is_below(from) {
            return Some(Refusal::BelowItself);
        }
        None
    }

    /// Why the node at the first path can't take the place of another one at the second path.
    fn onto_refusal(&self, from: &Path, to: &Path, number: u32, old: u32) -> Option<Refusal>
        requires first { number_at (map_of self.now) from.now ≡ Some number }
        requires second { number_at (map_of self.now) to.now ≡ Some old }
        ensures { result ≡ onto_reason (map_of self.now) from.now to.now }
    {
        if self.is_dir(number) && self.is_file(old) {
            return Some(Refusal::NotDir);
        }
        if self.is_file(number) && self.is_dir(old) {
            return Some(Refusal::IsDir);
        }
        if self.is_dir(number) && self.is_dir(old) && self.holds_names(old) {
            return Some(Refusal::NotEmpty);
        }
        if self.is_dir(number) && to.is_below(from) {
            return Some(Refusal::BelowItself);
        }
        None
    }

    /// A path that is there. Its number.
    pub(crate) fn to_stat(&self, path: &Path) -> Result<u32, Refusal>
        ensures reason { result_err result ≡ walk_reason (map_of self.now) path.now }
        ensures found { IfOk result (λ number. number_at (map_of self.now) path.now ≡ Some number) }
    {
        let number = self.walk(path.names())?;
        Ok(number)
    }

    /// A directory alone. Its number.
    pub(crate) fn to_list(&self, path: &Path) -> Result<u32, Refusal>
        ensures reason { result_err result ≡ list_reason (map_of self.now) path.now }
        ensures found { IfOk result (λ number. number_at (map_of self.now) path.now ≡ Some number) }
    {
        let number = self.walk(path.names())?;
        if self.is_file(number) {
            return Err(Refusal::NotDir);
        }
        Ok(number)
    }
}

/// Whether so many bytes from `offset` on would make a file too large; none never do.
fn grows_too_large(offset: u32, count: u64) -> bool
    ensures { result ≡ (nat_lt 0 count && is_too_large (offset + count)) }
{
    if count == 0 {
        return false;
    }
    if count > LARGEST_FILE {
        return true;
    }
    u64::from(offset) + count > LARGEST_FILE
}
