//! One pending write a block, as laws: how the fact is kept by each event and as the ledger turns, and that
//! a block is idle when it is to be written. The argument on crashes doesn't rest on it.

ghost use Rattle.std.specs.Prelude.{◌≡◌, ◌-◌, ◌<◌, ◌≤◌, ℕ, false, List, ◌++◌, ◌∷◌, [], length, slice_get, Some, None};
ghost use Rattle.base_types.specs.Seal.{Blocks};
ghost use Rattle.disk_contract.specs.declared.event.Event.{Event};
ghost use Rattle.disk_contract.specs.declared.event.Event.TheVariants.{Wrote, Lost, Noticed};
ghost use Rattle.disk_contract.specs.Cell.{cell_of, greatest_ticket, IsNoticed};
ghost use Rattle.layout_geometry.specs.Geometry.{Geometry, bitmap_start};
ghost use Rattle.layout_journal.specs.declared.header.Header.{Header};
ghost use Rattle.layout_journal.specs.declared.entry.Entry.{Entry};
ghost use Rattle.crash_argument.specs.Ledger.{Ledger, WrittenRecord, IsConsistentWith};
ghost use Rattle.crash_argument.specs.Steps.{AreNoticed, with_known, with_header, IsDurable, with_durable_header, with_record};
ghost use Rattle.crash_argument.specs.LastWrites.{FreshAreNew, IsDead};
ghost use Rattle.crash_argument.specs.HomeTest.{is_one_of};
ghost use Rattle.crash_argument.specs.PipelineData.{PipelineData, DataAgree, NeedsCheckpoint, IsHomeNoticed, with_pending, with_durable, with_batch};
ghost use Rattle.crash_argument.specs.PipelineData.{with_home, with_sent, with_placed, with_committed};
ghost use Rattle.crash_argument.specs.Points.{IsMounted, ledger_at_mount};
ghost use Rattle.crash_argument.specs.OnePending.{IsIdle, HasOnePending, IsNotOnItsWay, AreOfRecord};

/// A session begins with nothing pending, and notices leave at most one write.
pub fn one_write_is_pending()
    ensures begins { (base : Blocks) (log : List Event) (g : Geometry) (slot : ℕ) (h : Header) (p : PipelineData)
        → IsMounted (cell_of base log) g slot h → p.home ≡ [] → HasOnePending base log (ledger_at_mount (cell_of base log) g slot h) p [] }
    ensures notice { (base : Blocks) (log : List Event) (l : Ledger) (p : PipelineData) (under_way : List ℕ) (ticket : ℕ)
        → HasOnePending base log l p under_way → HasOnePending base (log ++ Noticed ticket ∷ []) l p under_way }
    ensures lost { (base : Blocks) (log : List Event) (b : ℕ) (x : List ℕ) → ((c : ℕ) → length (cell_of base log c).pending ≤ 1)
        → IsIdle (cell_of base log b) → (c : ℕ) → length (cell_of base (log ++ Lost b x ∷ []) c).pending ≤ 1 }
{}

/// A block that may be written is idle: one for a fresh write, where no checkpoint write to it is open, and
/// one that needs a checkpoint write.
pub fn blocks_to_be_written_are_idle()
    ensures fresh { (base : Blocks) (log : List Event) (l : Ledger) (p : PipelineData) (under_way : List ℕ) (b : ℕ)
        → HasOnePending base log l p under_way → IsConsistentWith base log l → FreshAreNew l → bitmap_start l.geom ≤ b → is_one_of b under_way ≡ false
        → IsDead l b → IsNotOnItsWay log p b → IsIdle (cell_of base log b) }
    ensures home { (base : Blocks) (log : List Event) (l : Ledger) (p : PipelineData) (under_way : List ℕ) (b : ℕ) (x : List ℕ)
        → HasOnePending base log l p under_way → (k : DataAgree base log l p) → IsConsistentWith base log l → is_one_of b under_way ≡ false
        → p.sent ≤ b → NeedsCheckpoint l k.batch b x → IsIdle (cell_of base log b) }
{}

/// A write to an idle block leaves one: of the record under way, of the next header, of the batch.
pub fn a_write_to_an_idle_block_is_the_one()
    ensures under_way { (base : Blocks) (log : List Event) (l : Ledger) (p : PipelineData) (under_way : List ℕ) (ticket b : ℕ) (x : List ℕ)
        → HasOnePending base log l p under_way → l.slot < 2 → 2 ≤ b → IsIdle (cell_of base log b)
        → HasOnePending base (log ++ Wrote ticket b x ∷ []) l p (b ∷ under_way) }
    ensures header { (base : Blocks) (log : List Event) (l : Ledger) (p : PipelineData) (under_way : List ℕ) (ticket : ℕ) (x : List ℕ) (h : Header)
        → HasOnePending base log l p under_way → l.slot < 2 → l.next ≡ None
        → HasOnePending base (log ++ Wrote ticket (1 - l.slot) x ∷ []) (with_header l h) (with_pending p ticket) under_way }
    ensures home { (base : Blocks) (log : List Event) (l : Ledger) (p : PipelineData) (under_way : List ℕ) (ticket b : ℕ) (x : List ℕ)
        → HasOnePending base log l p under_way → greatest_ticket log < ticket → ¬ IsNoticed ticket log → l.slot < 2 → 0 < l.geom.j
        → bitmap_start l.geom ≤ b → p.sent ≤ b → (p.batch ≡ 0 → ⊥) → IsIdle (cell_of base log b)
        → HasOnePending base (log ++ Wrote ticket b x ∷ []) l (with_home p b ticket) under_way }
{}

/// The fact goes along as the ledger and the data turn.
pub fn one_write_stays_pending()
    ensures known { (base : Blocks) (log : List Event) (l : Ledger) (p : PipelineData) (under_way : List ℕ) (number : ℕ)
        → HasOnePending base log l p under_way → IsConsistentWith base log l → AreNoticed (cell_of base log) l number
        → HasOnePending base log (with_known l number) p under_way }
    ensures durable { (base : Blocks) (log : List Event) (l : Ledger) (p : PipelineData) (under_way : List ℕ) (h : Header)
        → HasOnePending base log l p under_way → IsConsistentWith base log l → FreshAreNew l → IsDurable (cell_of base log) l h
        → HasOnePending base log (with_durable_header l h) (with_durable p l h) under_way }
    ensures batch { (base : Blocks) (log : List Event) (l : Ledger) (p : PipelineData) (under_way : List ℕ) (count : ℕ)
        → HasOnePending base log l p under_way → p.batch ≡ 0 → HasOnePending base log l (with_batch p count) under_way }
    ensures sent { (base : Blocks) (log : List Event) (l : Ledger) (p : PipelineData) (under_way : List ℕ) (n : ℕ)
        → HasOnePending base log l p under_way → p.sent ≤ n → HasOnePending base log l (with_sent p n) under_way }
    ensures placed { (base : Blocks) (log : List Event) (l : Ledger) (p : PipelineData) (under_way : List ℕ) → HasOnePending base log l p under_way
        → IsHomeNoticed log p.home → HasOnePending base log l (with_placed p) under_way }
    ensures joins { (base : Blocks) (log : List Event) (l : Ledger) (p : PipelineData) (under_way : List ℕ) (w : WrittenRecord) (m : Blocks)
        (tickets freed : List ℕ) → HasOnePending base log l p under_way → AreOfRecord l w under_way → 0 < l.geom.j
        → ((i : ℕ) (e : Entry) → slice_get w.says.fresh i ≡ Some e → bitmap_start l.geom ≤ e.block) → l.known ≤ w.says.number
        → HasOnePending base log (with_record l w m) (with_committed p l w tickets freed) [] }
{}
