//! Whether what was counted and reached agrees with what was seen of each node.

ghost use Rattle.std.specs.Prelude.{◌≡◌, ◌<◌, ◌^◌, length, IfErr, OnOk};
ghost use Rattle.fs_check.specs.Judged.{Agree, Agrees, IsWrong, IsWrongOne};

use crate::damage::TreeDamage;
use crate::looked::{Looked, seen};

/// Checks that each node in use was reached, and that as many slots name it as it says.
///
/// # Errors
/// A node in use wasn't reached; or its count isn't that of its links.
pub(crate) fn judge(nodes: &[Looked], named: &[u64], marks: &[bool]) -> Result<(), TreeDamage>
    requires few { length nodes.now < 2 ^ 32 }
    requires named { length named.now ≡ length nodes.now }
    requires marks { length marks.now ≡ length nodes.now }
    ensures agree { OnOk result (Agree nodes.now named.now marks.now (length nodes.now)) }
    ensures wrong { IfErr result (IsWrong nodes.now named.now marks.now) }
{
    for node in 0..nodes.len() as u32 {
        judge_one(
            node,
            seen(nodes, node),
            named[node as usize],
            marks[node as usize],
        )?;
    }
    Ok(())
}

/// Checks one node with its count and its mark.
///
/// # Errors
/// It is in use and has no mark; or its count isn't that of its links.
fn judge_one(node: u32, look: Looked, count: u64, mark: bool) -> Result<(), TreeDamage>
    ensures agrees { OnOk result (Agrees node look count mark) }
    ensures wrong { IfErr result (IsWrongOne node look count mark) }
{
    match look {
        Looked::Unused => Ok(()),
        Looked::Directory(_) => {
            if !mark {
                return Err(TreeDamage::Unreached { node });
            }
            if node != 1 && count != 1 {
                return Err(TreeDamage::NotNamedOnce { node });
            }
            Ok(())
        }
        Looked::Links(links) => {
            if !mark {
                return Err(TreeDamage::Unreached { node });
            }
            if count != u64::from(links) {
                return Err(TreeDamage::WrongLinks { node });
            }
            Ok(())
        }
    }
}
