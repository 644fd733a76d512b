//! Between two records, as laws: that none is being written, and that the blocks which the running
//! transaction took may be written fresh, stays so through notices, through writes outside the ring, and
//! as the ledger turns. The next commit asks for both. The functions do nothing.

ghost use Rattle.std.specs.Prelude.{◌≡◌, ◌≢◌, ◌+◌, ◌<◌, ℕ, List, ◌++◌, ◌∷◌, [], take, slice_get, Some};
ghost use Rattle.base_types.specs.Seal.{Blocks};
ghost use Rattle.disk_contract.specs.declared.event.Event.{Event};
ghost use Rattle.disk_contract.specs.declared.event.Event.TheVariants.{Wrote, Lost, Noticed};
ghost use Rattle.disk_contract.specs.Cell.{cell_of};
ghost use Rattle.layout_geometry.specs.Geometry.{Geometry, ring_block};
ghost use Rattle.layout_journal.specs.Run.{place_after, all_places};
ghost use Rattle.layout_journal.specs.declared.header.Header.{Header};
ghost use Rattle.crash_argument.specs.Ledger.{Ledger, WrittenRecord, IsConsistentWith, all_say};
ghost use Rattle.crash_argument.specs.Steps.{IsFreePlace, NoneIsBeingWritten, with_known, with_header, with_durable_header};
ghost use Rattle.crash_argument.specs.PipelineData.{PipelineData, NeedsCheckpoint, with_home};
ghost use Rattle.crash_argument.specs.OnePending.{MayWriteAllFresh};

/// None is being written still.
pub fn nothing_is_written_between_records()
    ensures notice { (base : Blocks) (log : List Event) (l : Ledger) (ticket : ℕ) → NoneIsBeingWritten (cell_of base log) l
        → NoneIsBeingWritten (cell_of base (log ++ Noticed ticket ∷ [])) l }
    ensures accepted { (base : Blocks) (log : List Event) (l : Ledger) (ticket b : ℕ) (x : List ℕ) → ((place : ℕ) → ring_block l.geom place ≢ b)
        → NoneIsBeingWritten (cell_of base log) l → NoneIsBeingWritten (cell_of base (log ++ Wrote ticket b x ∷ [])) l }
    ensures lost { (base : Blocks) (log : List Event) (l : Ledger) (b : ℕ) (x : List ℕ) → ((place : ℕ) → ring_block l.geom place ≢ b)
        → NoneIsBeingWritten (cell_of base log) l → NoneIsBeingWritten (cell_of base (log ++ Lost b x ∷ [])) l }
    ensures known { (base : Blocks) (log : List Event) (l : Ledger) (number : ℕ) → NoneIsBeingWritten (cell_of base log) l
        → NoneIsBeingWritten (cell_of base log) (with_known l number) }
    ensures header { (base : Blocks) (log : List Event) (l : Ledger) (h : Header) → NoneIsBeingWritten (cell_of base log) l
        → NoneIsBeingWritten (cell_of base log) (with_header l h) }
    ensures durable { (base : Blocks) (log : List Event) (l : Ledger) (h : Header) → IsConsistentWith base log l → l.next ≡ Some h
        → NoneIsBeingWritten (cell_of base log) l → NoneIsBeingWritten (cell_of base log) (with_durable_header l h) }
{}

/// Each record of the ledger has the number and the place that follow from those before it.
pub fn records_stand_in_order()
    ensures numbers { (base : Blocks) (log : List Event) (l : Ledger) (k : ℕ) (w : WrittenRecord) → IsConsistentWith base log l
        → slice_get l.records k ≡ Some w → w.says.number ≡ l.header.start + k }
    ensures places { (base : Blocks) (log : List Event) (l : Ledger) (k : ℕ) (w : WrittenRecord) → IsConsistentWith base log l
        → slice_get l.records k ≡ Some w → w.says.place ≡ place_after l.geom.j l.header.at (all_say (take k l.records)) }
    ensures behind { (base : Blocks) (log : List Event) (l : Ledger) (k : ℕ) → IsConsistentWith base log l
        → all_places (all_say l.records) + k < l.geom.j → IsFreePlace l (place_after l.geom.j l.header.at (all_say l.records) + k) }
    ensures apart { (g : Geometry) (place d : ℕ) → 0 < d → d < g.j → ring_block g place ≢ ring_block g (place + d) }
{}

/// The blocks that the running transaction took may be written fresh until its commit, whatever the
/// pipeline does meanwhile: no step makes one of them live, and no checkpoint write goes to one.
pub fn taken_blocks_stay_dead()
    ensures events { (log more : List Event) (l : Ledger) (p : PipelineData) (taken : List ℕ) → MayWriteAllFresh log l p taken
        → MayWriteAllFresh (log ++ more) l p taken }
    ensures known { (log : List Event) (l : Ledger) (p : PipelineData) (taken : List ℕ) (number : ℕ) → MayWriteAllFresh log l p taken
        → MayWriteAllFresh log (with_known l number) p taken }
    ensures header { (log : List Event) (l : Ledger) (p : PipelineData) (taken : List ℕ) (h : Header) → MayWriteAllFresh log l p taken
        → MayWriteAllFresh log (with_header l h) p taken }
    ensures durable { (base : Blocks) (log : List Event) (l : Ledger) (p : PipelineData) (taken : List ℕ) (h : Header) → IsConsistentWith base log l
        → l.next ≡ Some h → MayWriteAllFresh log l p taken → MayWriteAllFresh log (with_durable_header l h) p taken }
    ensures home { (base : Blocks) (log : List Event) (l : Ledger) (p : PipelineData) (taken : List ℕ) (batch : List WrittenRecord) (b ticket : ℕ)
        (x : List ℕ) → IsConsistentWith base log l → NeedsCheckpoint l batch b x → MayWriteAllFresh log l p taken
        → MayWriteAllFresh log l (with_home p b ticket) taken }
{}
