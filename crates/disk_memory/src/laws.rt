//! Laws of choices, each an empty function whose clauses say it. They speak of lists of events alone, so
//! they hold of the log of any disk.

ghost use Rattle.std.specs.Prelude.{◌≡◌, ℕ, ◌<◌, IsTrue, List, length};
ghost use Rattle.std.specs.List.{list_all};
ghost use Rattle.base_types.specs.Seal.{Blocks};
ghost use Rattle.disk_contract.specs.declared.event.Event.{Event};
ghost use Rattle.disk_contract.specs.Cell.{cell_of};
ghost use Rattle.disk_contract.specs.Lawful.{IsLawful};
ghost use Rattle.disk_memory.specs.Choice.{ChoiceState, chosen, is_pending};
ghost use Rattle.disk_memory.specs.Torn.{pending_on, IsTornInFront};

use disk_contract::settled_is_the_newest_noticed;

/// The pending writes that a choice may name are those that the cells of a disk have.
pub fn pending_writes_are_those_of_the_cells()
    ensures { (base : Blocks) (log : List Event) (b : ℕ) → IsLawful log → pending_on b log ≡ (cell_of base log b).pending }
{
    settled_is_the_newest_noticed();
}

/// Each crash image whose torn blocks have the first bytes of a pending write, and then the settled
/// content, is the one of some choice, which names pending writes alone.
pub fn a_choice_makes_each_torn_image()
    ensures { (n : ℕ) (base : Blocks) (log : List Event) (img : Blocks) → IsLawful log → IsTornInFront n base log img → (c : ChoiceState)
        × IsTrue (list_all (λ m. is_pending log m.write) c.named) × ((b : ℕ) → b < n → chosen c base log b ≡ img b) }
{
    pending_writes_are_those_of_the_cells();
}
