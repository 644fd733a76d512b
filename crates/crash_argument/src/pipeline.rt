//! What a pipeline's data say of the ledger, as laws: as a mount ends, and after each step; and that the
//! conditions of writes follow from them. There is no pipeline here, and the functions do nothing.

ghost use Rattle.std.specs.Prelude.{◌≡◌, ◌≢◌, ◌<◌, ◌≤◌, ◌+◌, ◌-◌, ℕ, List, ◌++◌, ◌∷◌, [], length, take, drop, slice_get, true, false, IsTrue, Some, None};
ghost use Rattle.base_types.specs.Seal.{Blocks};
ghost use Rattle.disk_contract.specs.declared.event.Event.{Event};
ghost use Rattle.disk_contract.specs.declared.event.Event.TheVariants.{Wrote, Noticed};
ghost use Rattle.disk_contract.specs.Cell.{cell_of, greatest_ticket, IsNoticed};
ghost use Rattle.layout_geometry.specs.Geometry.{Geometry, data_start};
ghost use Rattle.layout_journal.specs.declared.header.Header.{Header};
ghost use Rattle.layout_journal.specs.Layout.{header_of};
ghost use Rattle.layout_journal.specs.Run.{is_live};
ghost use Rattle.crash_argument.specs.Ledger.{Ledger, WrittenRecord, IsConsistentWith, cover, next_number};
ghost use Rattle.crash_argument.specs.Steps.{MayWriteInPlace, MayWriteHeader, AreNoticed, IsDurable, with_known, with_header, with_record, with_durable_header};
ghost use Rattle.crash_argument.specs.Points.{IsMounted, ledger_at_mount};
ghost use Rattle.crash_argument.specs.HomeTest.{goes_home, AreFreedBy};
ghost use Rattle.crash_argument.specs.LastWrites.{HasTickets, IsDead, FreshAreNew};
ghost use Rattle.crash_argument.specs.PipelineData.{PipelineData, DataAgree, AreAllNoticed, AreNewlyNoticed, WaitMore, WaitAbove, with_waiting};
ghost use Rattle.crash_argument.specs.PipelineData.{SameNewTickets, with_tickets, IsHomeNoticed, AreFreed, data_at_mount, with_placed, with_durable};
ghost use Rattle.crash_argument.specs.PipelineData.{with_pending, with_committed, with_batch, with_home, with_sent, NeedsCheckpoint, next_header};

/// A session begins with no data but its ring's place.
pub fn a_mounted_disk_has_its_data()
    ensures begins { (base : Blocks) (log : List Event) (g : Geometry) (slot : ℕ) (h : Header) → IsMounted (cell_of base log) g slot h
        → DataAgree base log (ledger_at_mount (cell_of base log) g slot h) (data_at_mount h) }
{}

/// Records of which each ticket is noticed are durable.
pub fn records_become_durable()
    ensures noticed { (base : Blocks) (log : List Event) (l : Ledger) (p : PipelineData) (number : ℕ) → IsConsistentWith base log l
        → DataAgree base log l p → l.known ≤ number → number ≤ next_number l → AreAllNoticed log l p number → AreNoticed (cell_of base log) l number }
    ensures newly { (base : Blocks) (log : List Event) (l : Ledger) (p : PipelineData) (number : ℕ) → IsConsistentWith base log l
        → DataAgree base log l p → l.known ≤ number → number ≤ next_number l → AreNewlyNoticed log l p number
        → AreNoticed (cell_of base log) l number }
    ensures knows { (base : Blocks) (log : List Event) (l : Ledger) (p : PipelineData) (number : ℕ) → IsConsistentWith base log l
        → DataAgree base log l p → l.known ≤ number → DataAgree base log (with_known l number) p }
{}

/// The header that was written last is durable once its ticket is noticed. Then records are sure or released, and blocks serve again.
pub fn a_header_becomes_durable()
    ensures durable { (base : Blocks) (log : List Event) (l : Ledger) (p : PipelineData) (h : Header) (ticket : ℕ) → IsConsistentWith base log l
        → DataAgree base log l p → l.next ≡ Some h → p.pending ≡ Some ticket → IsNoticed ticket log → IsDurable (cell_of base log) l h }
    ensures knows { (base : Blocks) (log : List Event) (l : Ledger) (p : PipelineData) (h : Header) → IsConsistentWith base log l
        → DataAgree base log l p → IsDurable (cell_of base log) l h → DataAgree base log (with_durable_header l h) (with_durable p l h) }
{}

/// A batch whose home writes are issued and noticed is at home.
pub fn a_batch_comes_home()
    ensures knows { (base : Blocks) (log : List Event) (l : Ledger) (p : PipelineData) → IsConsistentWith base log l → DataAgree base log l p
        → l.geom.n ≤ p.sent → IsHomeNoticed log p.home → DataAgree base log l (with_placed p) }
{}

/// The next header may be written: it releases what is at home, and makes sure what is known.
pub fn the_next_header_may_be_written()
    ensures may { (base : Blocks) (log : List Event) (l : Ledger) (p : PipelineData) (x : List ℕ) → IsConsistentWith base log l
        → DataAgree base log l p → l.next ≡ None → header_of l.geom.n x ≡ Some (next_header l p.placed)
        → MayWriteHeader (cell_of base log) l x (next_header l p.placed) }
    ensures knows { (base : Blocks) (log : List Event) (l : Ledger) (p : PipelineData) (x : List ℕ) (ticket : ℕ) → IsConsistentWith base log l
        → DataAgree base log l p → l.next ≡ None → header_of l.geom.n x ≡ Some (next_header l p.placed) → greatest_ticket log < ticket
        → ¬ IsNoticed ticket log
        → DataAgree base (log ++ Wrote ticket (1 - l.slot) x ∷ []) (with_header l (next_header l p.placed)) (with_pending p ticket) }
{}

/// A block that the batch covers and that is live after the last sure record may be written home, while the batch ends with that record.
pub fn a_home_write_may_be_made()
    ensures may { (base : Blocks) (log : List Event) (l : Ledger) (p : PipelineData) (b : ℕ) (x : List ℕ) (keeps : IsConsistentWith base log l)
        (k : DataAgree base log l p) → l.header.start + p.placed + p.batch ≡ l.header.sure + 1
        → cover None k.batch b ≡ Some x → IsTrue (is_live l.geom (l.map_before (l.header.sure + 1)) b) → MayWriteInPlace (cell_of base log) l b }
{}

/// The records that are sure become the batch, its blocks are written home, ascending, and then all are sent.
pub fn a_batch_goes_home()
    ensures taken { (base : Blocks) (log : List Event) (l : Ledger) (p : PipelineData) (count : ℕ) → IsConsistentWith base log l
        → DataAgree base log l p → p.batch ≡ 0 → l.header.start + p.placed + count ≡ l.header.sure + 1 → DataAgree base log l (with_batch p count) }
    ensures written { (base : Blocks) (log : List Event) (l : Ledger) (p : PipelineData) (ticket b : ℕ) (x : List ℕ) → IsConsistentWith base log l
        → (k : DataAgree base log l p) → greatest_ticket log < ticket → ¬ IsNoticed ticket log
        → l.header.start + p.placed + p.batch ≡ l.header.sure + 1
        → NeedsCheckpoint l k.batch b x → ((c : ℕ) (y : List ℕ) → p.sent ≤ c → c < b → ¬ NeedsCheckpoint l k.batch c y)
        → DataAgree base (log ++ Wrote ticket b x ∷ []) l (with_home p b ticket) }
    ensures sent { (base : Blocks) (log : List Event) (l : Ledger) (p : PipelineData) (n : ℕ) → IsConsistentWith base log l
        → (k : DataAgree base log l p) → ((c : ℕ) (y : List ℕ) → p.sent ≤ c → c < n → ¬ NeedsCheckpoint l k.batch c y)
        → DataAgree base log l (with_sent p n) }
{}

/// A data block that is dead now and doesn't wait may be written fresh.
pub fn a_reusable_block_is_dead()
    ensures dead { (base : Blocks) (log : List Event) (l : Ledger) (p : PipelineData) (b : ℕ) → IsConsistentWith base log l → DataAgree base log l p
        → data_start l.geom ≤ b → is_live l.geom (l.map_before (next_number l)) b ≡ false → ((i r : ℕ) → ¬ (slice_get p.waiting i ≡ Some (b, r)))
        → IsDead l b }
{}

/// A record of which all is issued joins the data. The disk kept the old ledger until its commit block was written.
pub fn a_record_joins_the_data()
    ensures knows { (base : Blocks) (old log : List Event) (l : Ledger) (p : PipelineData) (w : WrittenRecord) (m : Blocks) (tickets freed : List ℕ)
        → IsConsistentWith base old l → DataAgree base log l p → w.says.number ≡ next_number l → HasTickets log (with_record l w m) w tickets
        → FreshAreNew (with_record l w m) → AreFreed l w m freed
        → DataAgree base log (with_record l w m) (with_committed p l w tickets freed) }
{}

/// The test of a batch's records, each with the blocks that it freed, finds the blocks that need a
/// checkpoint write, with their bytes, and no others.
pub fn the_home_test_is_exact()
    ensures needs { (base : Blocks) (log : List Event) (l : Ledger) (p : PipelineData) (freed : List (List ℕ)) (b : ℕ) (x : List ℕ)
        → IsConsistentWith base log l → (k : DataAgree base log l p) → AreFreedBy l freed → l.header.start + p.placed + p.batch ≡ l.header.sure + 1
        → goes_home None k.batch (take p.batch (drop p.placed freed)) b ≡ Some x → NeedsCheckpoint l k.batch b x }
    ensures finds { (base : Blocks) (log : List Event) (l : Ledger) (p : PipelineData) (freed : List (List ℕ)) (b : ℕ) (x : List ℕ)
        → IsConsistentWith base log l → (k : DataAgree base log l p) → AreFreedBy l freed → l.header.start + p.placed + p.batch ≡ l.header.sure + 1
        → NeedsCheckpoint l k.batch b x → goes_home None k.batch (take p.batch (drop p.placed freed)) b ≡ Some x }
{}

/// Pairs that wait longer than they have to change nothing.
pub fn more_may_wait()
    ensures { (base : Blocks) (log : List Event) (l : Ledger) (p : PipelineData) (many : List (ℕ × ℕ)) → DataAgree base log l p
        → WaitMore p.waiting many → DataAgree base log l (with_waiting p many) }
{}

/// Pairs whose number the durable header's `sure` has reached may leave the list that waits.
pub fn fewer_may_wait()
    ensures { (base : Blocks) (log : List Event) (l : Ledger) (p : PipelineData) (few : List (ℕ × ℕ)) → DataAgree base log l p
        → WaitAbove l.header.sure p.waiting few → DataAgree base log l (with_waiting p few) }
{}

/// The tickets of records that are known may be forgotten.
pub fn known_tickets_may_go()
    ensures { (base : Blocks) (log : List Event) (l : Ledger) (p : PipelineData) (tickets : List (List ℕ)) → DataAgree base log l p
        → SameNewTickets l p.tickets tickets → DataAgree base log l (with_tickets p tickets) }
{}

/// Of the blocks that are sent fewer may be claimed.
pub fn fewer_may_be_sent()
    ensures { (base : Blocks) (log : List Event) (l : Ledger) (p : PipelineData) (n : ℕ) → DataAgree base log l p → n ≤ p.sent
        → DataAgree base log l (with_sent p n) }
{}

/// The data's two counts say which records are at their blocks, which are the batch and which come behind it.
pub fn counts_tell_the_batch()
    ensures placed { (base : Blocks) (log : List Event) (l : Ledger) (p : PipelineData) → (k : DataAgree base log l p) → k.placed ≡ take p.placed l.records }
    ensures batch { (base : Blocks) (log : List Event) (l : Ledger) (p : PipelineData) → (k : DataAgree base log l p)
        → k.batch ≡ take p.batch (drop p.placed l.records) }
    ensures rest { (base : Blocks) (log : List Event) (l : Ledger) (p : PipelineData) → (k : DataAgree base log l p)
        → k.rest ≡ drop p.batch (drop p.placed l.records) }
{}
