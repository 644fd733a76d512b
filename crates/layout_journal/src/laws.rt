//! Laws of the journal's definitions, as functions that do nothing: each clause is a law. They are known
//! in docs/JOURNAL.md.
ghost use Rattle.std.specs.Prelude.{◌≡◌, ◌↔◌, ℕ, ◌+◌, ◌*◌, ◌<◌, ◌≤◌, length, take, drop, slice_get, slice_index, List, Option, Some, None, IsTrue, true, false};
ghost use Rattle.base_types.specs.Seal.{Blocks, IsSealed};
ghost use Rattle.layout_geometry.specs.Geometry.{Geometry, geometry_fits, bitmap_start, data_start};
ghost use Rattle.layout_journal.specs.declared.header.Header.{Header};
ghost use Rattle.layout_journal.specs.declared.record.Commit.{Commit};
ghost use Rattle.layout_journal.specs.declared.record.Descriptor.{Descriptor};
ghost use Rattle.layout_journal.specs.declared.entry.Entry.{Entry};
ghost use Rattle.layout_journal.specs.declared.entry.EntryKind.{EntryKind};
ghost use Rattle.layout_journal.specs.Layout.{header_of, IsWithinDisk, commit_of, IsWithinRing, descriptor_of, descriptor_count, is_stored, unescaped};
ghost use Rattle.layout_journal.specs.Spelling.{IsHeader, IsCommit, IsDescriptor, AreEntries, fits_in, header_block, commit_block, descriptor_block};
ghost use Rattle.layout_journal.specs.Spelling.{stored_of, stored_kind};
ghost use Rattle.layout_journal.specs.Run.{Newest, Record, entries, entries_fit, names_block, IsWhole, IsRun, live_part, HeldIs};
ghost use Rattle.layout_journal.specs.Formatted.{formatted};
ghost use Rattle.layout_journal.specs.Ring.{RingPlaces, with_places, without_places, place_ahead, IsTaken};

use layout_bytes::fields_tell_their_bytes;

/// What reads as a header, a commit block or a descriptor is sealed.
#[tactic(auto, using(crate::proofs::Sealed::header_sealed, crate::proofs::Sealed::commit_sealed, crate::proofs::Sealed::descriptor_sealed))]
pub fn journal_blocks_are_sealed()
    ensures headers { (n : ℕ) (b : List ℕ) (h : Header) → header_of n b ≡ Some h → IsSealed b }
    ensures commits { (g : Geometry) (b : List ℕ) (c : Commit) → commit_of g b ≡ Some c → IsSealed b }
    ensures descriptors { (g : Geometry) (b : List ℕ) (d : Descriptor) → descriptor_of g b ≡ Some d → IsSealed b }
{}

/// A block reads as one of the three at most, whatever the geometries of the readings, and a stored
/// payload as none.
pub fn journal_blocks_are_told_apart()
    ensures commit_no_descriptor { (g k : Geometry) (b : List ℕ) (c : Commit) → commit_of g b ≡ Some c → descriptor_of k b ≡ None }
    ensures commit_no_header { (g : Geometry) (n : ℕ) (b : List ℕ) (c : Commit) → commit_of g b ≡ Some c → header_of n b ≡ None }
    ensures descriptor_no_commit { (g k : Geometry) (b : List ℕ) (d : Descriptor) → descriptor_of g b ≡ Some d → commit_of k b ≡ None }
    ensures descriptor_no_header { (g : Geometry) (n : ℕ) (b : List ℕ) (d : Descriptor) → descriptor_of g b ≡ Some d → header_of n b ≡ None }
    ensures stored_no_header { (k : EntryKind) (n : ℕ) (b : List ℕ) → is_stored k b ≡ true → header_of n b ≡ None }
    ensures stored_no_commit { (k : EntryKind) (g : Geometry) (b : List ℕ) → is_stored k b ≡ true → commit_of g b ≡ None }
    ensures stored_no_descriptor { (k : EntryKind) (g : Geometry) (b : List ℕ) → is_stored k b ≡ true → descriptor_of g b ≡ None }
{}

/// The numbers of what reads as a header keep to its disk, and those of what reads as a commit block to
/// the ring.
pub fn journal_blocks_keep_to_their_bounds()
    ensures headers { (n : ℕ) (b : List ℕ) (h : Header) → header_of n b ≡ Some h → IsWithinDisk n h }
    ensures commits { (g : Geometry) (b : List ℕ) (c : Commit) → commit_of g b ≡ Some c → IsWithinRing g c }
{}

/// An image has one newest header, in one slot; under a header, one whole record of a number and a
/// place, and one run; so it holds one map at most.
pub fn an_image_holds_one_map()
    ensures newest { (n : ℕ) (img : Blocks) (s t : ℕ) (h k : Header) → Newest n img s h → Newest n img t k → (s ≡ t) × (h ≡ k) }
    ensures records { (img : Blocks) (h : Header) (r q : Record) → IsWhole img h r → IsWhole img h q → r.number ≡ q.number → r.place ≡ q.place → r ≡ q }
    ensures runs { (img : Blocks) (h : Header) (rs qs : List Record) → IsRun img h rs → IsRun img h qs → rs ≡ qs }
    ensures maps { (n : ℕ) (img m q : Blocks) → HeldIs n img m → HeldIs n img q → (b : ℕ) → m b ≡ q b }
{}

/// The descriptors of a record tell its entries: two records with as many payloads and as many fresh
/// blocks whose descriptors say the same have the same entries.
#[tactic(auto, using(crate::proofs::SameEntries::told_entries))]
pub fn descriptors_tell_the_entries()
    ensures { (r q : Record) → length r.payloads ≡ length q.payloads → length r.fresh ≡ length q.fresh
        → ((i : ℕ) → i < descriptor_count (length (entries r)) → take 24 (drop (24 * i) (entries r)) ≡ take 24 (drop (24 * i) (entries q)))
        → (r.payloads ≡ q.payloads) × (r.fresh ≡ q.fresh) }
{}

/// The entries of a record that fit name blocks of the disk: payloads those behind the journal, fresh
/// entries data blocks, which ascend and are none of the payloads'.
pub fn entries_that_fit_keep_to_the_disk()
    ensures payloads { (g : Geometry) (r : Record) (i : ℕ) (e : Entry) → IsTrue (entries_fit g r) → slice_get r.payloads i ≡ Some e
        → (bitmap_start g ≤ e.block) × (e.block < g.n) }
    ensures fresh { (g : Geometry) (r : Record) (i : ℕ) (e : Entry) → IsTrue (entries_fit g r) → slice_get r.fresh i ≡ Some e
        → (data_start g ≤ e.block) × (e.block < g.n) }
    ensures ascending { (g : Geometry) (r : Record) (i k : ℕ) (e f : Entry) → IsTrue (entries_fit g r) → i < k → slice_get r.fresh i ≡ Some e
        → slice_get r.fresh k ≡ Some f → e.block < f.block }
    ensures apart { (g : Geometry) (r : Record) (i : ℕ) (e : Entry) → IsTrue (entries_fit g r) → slice_get r.fresh i ≡ Some e
        → names_block r.payloads e.block ≡ false }
{}

/// Headers, commit blocks and descriptors that are written as they are spelled read as themselves, where
/// their fields are within their ranges.
pub fn journal_blocks_read_back()
    ensures headers { (h : Header) → IsHeader h → header_of h.geom.n (header_block h) ≡ Some h }
    ensures commits { (g : Geometry) (c : Commit) → fits_in 8 c.epoch → fits_in 8 c.number → fits_in 4 c.descriptors → fits_in 4 c.payloads → fits_in 4 c.fresh
        → 0 < c.payloads → c.descriptors ≡ descriptor_count (c.payloads + c.fresh) → 1 + c.descriptors + c.payloads ≤ g.j
        → commit_of g (commit_block c) ≡ Some c }
    ensures descriptors { (g : Geometry) (d : Descriptor) → g.n ≤ 1048576 → fits_in 8 d.epoch → fits_in 8 d.number → fits_in 4 d.index
        → 0 < length d.entries → length d.entries ≤ 24
        → AreEntries g d.entries → descriptor_of g (descriptor_block d) ≡ Some d }
{}

/// A payload that is stored as it has to be reads back: unescaped, it is what it was, and it begins as one
/// of its kind does, so it reads as no block of the journal.
pub fn payloads_read_back()
    ensures bytes { (x : List ℕ) → unescaped (stored_kind x) (stored_of x) ≡ x }
    ensures stored { (x : List ℕ) → is_stored (stored_kind x) (stored_of x) ≡ true }
{}

/// The bytes of a block read as a value exactly where they are its spelling, and it is a value that can be
/// written. Values that can be written and are spelled alike are one. What is stored as a payload is the
/// escape of what it stands for.
pub fn journal_blocks_have_one_spelling()
    ensures headers { (n : ℕ) (b : List ℕ) (h : Header) → length b ≡ 1024 → ((i : ℕ) → slice_index b i < 256)
        → (header_of n b ≡ Some h) ↔ (IsHeader h × (h.geom.n ≡ n) × (b ≡ header_block h)) }
    ensures commits { (g : Geometry) (b : List ℕ) (c : Commit) → length b ≡ 1024 → ((i : ℕ) → slice_index b i < 256)
        → (commit_of g b ≡ Some c) ↔ (IsCommit g c × (b ≡ commit_block c)) }
    ensures descriptors { (g : Geometry) (b : List ℕ) (d : Descriptor) → g.n ≤ 1048576 → length b ≡ 1024 → ((i : ℕ) → slice_index b i < 256)
        → (descriptor_of g b ≡ Some d) ↔ (IsDescriptor g d × (b ≡ descriptor_block d)) }
    ensures one_header { (h k : Header) → IsHeader h → IsHeader k → header_block h ≡ header_block k → h ≡ k }
    ensures one_commit { (g k : Geometry) (c d : Commit) → IsCommit g c → IsCommit k d → commit_block c ≡ commit_block d → c ≡ d }
    ensures one_descriptor { (g : Geometry) (d f : Descriptor) → g.n ≤ 1048576 → IsDescriptor g d → IsDescriptor g f
        → descriptor_block d ≡ descriptor_block f → d ≡ f }
    ensures payloads { (k : EntryKind) (stored : List ℕ) → is_stored k stored ≡ true → (stored ≡ stored_of (unescaped k stored))
        × (k ≡ stored_kind (unescaped k stored)) }
{
    fields_tell_their_bytes();
}

/// The places behind the next one, as many as are free, are none of the taken ones. Once they are taken they
/// are among these, with all that were taken before; and none is taken because others are given back.
pub fn a_ring_hands_out_free_places()
    ensures free { (r : RingPlaces) (places k : ℕ) → r.next < r.geom.j → r.taken + places ≤ r.geom.j → k < places → ¬ IsTaken r (place_ahead r k) }
    ensures handed { (r : RingPlaces) (places k : ℕ) → k < places → IsTaken (with_places r places) (place_ahead r k) }
    ensures kept { (r : RingPlaces) (places q : ℕ) → IsTaken r q → IsTaken (with_places r places) q }
    ensures back { (r : RingPlaces) (places q : ℕ) → IsTaken (without_places r places) q → IsTaken r q }
{}

/// What an image holds rests on the first n blocks alone: images that are alike there hold the same.
pub fn images_alike_below_n_hold_the_same()
    ensures { (n : ℕ) (img other m : Blocks) → ((b : ℕ) → b < n → img b ≡ other b) → HeldIs n img m → HeldIs n other m }
{}

/// The formatted disk holds its own live blocks: it has one header, in slot 0, and no record.
pub fn the_formatted_disk_holds_itself()
    ensures { (g : Geometry) → geometry_fits g ≡ true → HeldIs g.n (formatted g) (live_part g (formatted g)) }
{}
