//! Laws of logs and images, each an empty function whose clauses say it. They hold of any disk, since
//! they speak of lists of events alone.

ghost use Rattle.std.specs.Prelude.{◌≡◌, ◌≢◌, ◌+◌, ℕ, Bool, false, List, [], ◌∷◌, ◌++◌, Option, Some, None, Result};
ghost use Rattle.base_types.specs.Seal.{Blocks};
ghost use Rattle.disk_contract.specs.declared.event.Event.{Event};
ghost use Rattle.disk_contract.specs.declared.disk.DiskFault.{DiskFault};
ghost use Rattle.disk_contract.specs.declared.event.Event.TheVariants.{Wrote, Lost, Noticed};
ghost use Rattle.disk_contract.specs.Cell.{Cell, cell_of, with_write, settle, from_ticket};
ghost use Rattle.disk_contract.specs.Crash.{IsImage, IsHonest};
ghost use Rattle.disk_contract.specs.Disk.{State, AddsWrite, AddsPoll, AddsNotices, Spends};
ghost use Rattle.disk_contract.specs.Lawful.{IsLawful, IsNewestNoticed, HasNoneNoticed, writes_to};

/// Settled is the noticed write with the greatest ticket, else the base. Pending are the writes after it, lost ones too.
#[tactic(auto, using(crate::proofs::Lawful::settled_newest, crate::proofs::Lawful::settled_base))]
pub fn settled_is_the_newest_noticed()
    ensures noticed { (base : Blocks) (log later : List Event) (b t : ℕ) (x : List ℕ) → IsLawful log → IsNewestNoticed log b t x later
        → cell_of base log b ≡ record { settled = x; pending = writes_to b later } }
    ensures none { (base : Blocks) (log : List Event) (b : ℕ) → IsLawful log → HasNoneNoticed log b
        → cell_of base log b ≡ record { settled = base b; pending = writes_to b log } }
{}

/// A disk's calls keep its log lawful: tickets ascend, and each notice is of an accepted ticket, once.
#[tactic(auto, using(crate::proofs::Lawful::lawful_write, crate::proofs::Lawful::lawful_poll, crate::proofs::Lawful::lawful_wait))]
pub fn calls_keep_a_log_lawful()
    ensures write { (b : ℕ) (x : List ℕ) (r : Result ℕ DiskFault) (old new : List Event) → IsLawful old → AddsWrite b x r old new → IsLawful new }
    ensures poll { (r : Result (Option ℕ) DiskFault) (old new : List Event) → IsLawful old → AddsPoll r old new → IsLawful new }
    ensures wait { (old new : List Event) → IsLawful old → AddsNotices old new → IsLawful new }
{}

/// Calls in a row spend what each of them does, where only the last one may have failed.
pub fn calls_in_a_row_spend_together()
    ensures { (failed : Bool) (waits polls more_waits more_polls : ℕ) (old mid new : State) → Spends false waits polls old mid
        → Spends failed more_waits more_polls mid new → Spends failed (more_waits + waits) (more_polls + polls) old new }
{}

/// What one event makes of a block: a write to it is pending, also a lost one; a notice settles what it is of; and a write to another block leaves it.
pub fn an_event_changes_one_block()
    ensures wrote { (base : Blocks) (log : List Event) (t b : ℕ) (x : List ℕ)
        → cell_of base (log ++ Wrote t b x ∷ []) b ≡ with_write (cell_of base log b) (Some t) x }
    ensures lost { (base : Blocks) (log : List Event) (b : ℕ) (x : List ℕ) → cell_of base (log ++ Lost b x ∷ []) b ≡ with_write (cell_of base log b) None x }
    ensures noticed { (base : Blocks) (log : List Event) (t b : ℕ)
        → cell_of base (log ++ Noticed t ∷ []) b ≡ settle (cell_of base log b) (from_ticket t (cell_of base log b).pending) }
    ensures wrote_elsewhere { (base : Blocks) (log : List Event) (t a b : ℕ) (x : List ℕ) → a ≢ b
        → cell_of base (log ++ Wrote t a x ∷ []) b ≡ cell_of base log b }
    ensures lost_elsewhere { (base : Blocks) (log : List Event) (a b : ℕ) (x : List ℕ) → a ≢ b → cell_of base (log ++ Lost a x ∷ []) b ≡ cell_of base log b }
{}

/// A notice adds no image: each that a crash may leave after it, it might have left before, and an
/// honest one was honest then.
pub fn a_notice_adds_no_image()
    ensures image { (n : ℕ) (base : Blocks) (log : List Event) (t : ℕ) (img : Blocks) → IsImage n base (log ++ Noticed t ∷ []) img → IsImage n base log img }
    ensures honest { (n : ℕ) (base : Blocks) (log : List Event) (t : ℕ) (img : Blocks) → IsHonest n base (log ++ Noticed t ∷ []) img → IsHonest n base log img }
{}
