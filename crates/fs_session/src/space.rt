//! Whether a command that the tree accepts has room in the blocks: as many blocks as it needs are left,
//! and its cost fits the running transaction. What it needs and costs is counted elsewhere. The rules are
//! described in docs/SPACE.md.

ghost use Rattle.std.specs.Prelude.{◌≡◌, IfErr, OnOk};
ghost use Rattle.lang_tree.specs.Values.{value_of};
ghost use Rattle.engine_blocks.specs.Calls.{AreFigures};
ghost use Rattle.engine_blocks.specs.State.{Bookkeeping};
ghost use Rattle.fs_session.specs.Space.{HasRoom, LacksRoom, left_of};

use engine_blocks::{Blocks, Figures as BlockFigures};
use lang_tree::{Figures, Refusal};

/// Whether there is room for a command with these figures.
///
/// # Errors
/// It needs more blocks than are left (`Full`); or else its cost doesn't fit the transaction (`TooBig`).
pub fn has_room<S: Blocks>(blocks: &S, figures: &Figures) -> Result<(), Refusal>
    ensures room { OnOk result (HasRoom (S.state blocks.now).books (value_of figures.now)) }
    ensures refused { IfErr result (λ why. LacksRoom (S.state blocks.now).books (value_of figures.now) why) }
{
    let now = blocks.figures();
    let left = blocks_left(&now);
    if left < figures.need {
        return Err(Refusal::Full {
            need: figures.need,
            left,
        });
    }
    if u64::from(now.room) < u64::from(now.weight) + u64::from(figures.cost) {
        return Err(Refusal::TooBig {
            weight: now.weight,
            cost: figures.cost,
            room: now.room,
        });
    }
    Ok(())
}

/// How many data blocks no file has and the transaction doesn't hold.
fn blocks_left(now: &BlockFigures) -> u32
    ensures { (k : Bookkeeping) → AreFigures k now.now → result ≡ left_of k }
{
    now.area.saturating_sub(now.live).saturating_sub(now.held)
}
