//! Laws of what is found, as functions that do nothing: each clause is a law. They hold of every image;
//! what a disk's blocks are isn't their matter.

ghost use Rattle.std.specs.Prelude.{◌≡◌, ◌<◌, ◌≤◌, ℕ, List, Some, None};
ghost use Rattle.base_types.specs.Seal.{Blocks};
ghost use Rattle.layout_geometry.specs.Geometry.{Geometry, ring_block};
ghost use Rattle.layout_journal.specs.declared.header.Header.{Header};
ghost use Rattle.layout_journal.specs.declared.entry.EntryKind.{EntryKind};
ghost use Rattle.layout_journal.specs.declared.record.Commit.{Commit};
ghost use Rattle.layout_journal.specs.declared.record.Descriptor.{Descriptor};
ghost use Rattle.layout_journal.specs.Layout.{header_of, commit_of, descriptor_of};
ghost use Rattle.layout_journal.specs.Run.{Record, covered_by};
ghost use Rattle.engine_recover.specs.Epoch.{IsGreatestEpoch};
ghost use Rattle.engine_recover.specs.Payload.{stored_after, bytes_of};

/// What the records leave in a block is what the last payload stands for, where the last entry that
/// names the block is a payload.
#[tactic(auto, using(crate::proofs::Covered::covered))]
pub fn the_last_payload_is_what_records_leave()
    ensures { (g : Geometry) (img : Blocks) (rs : List Record) (b : ℕ) → covered_by g img None rs b ≡ bytes_of img (stored_after g None rs b) }
{}

/// Where the last payload of a block is, there is a ring place.
pub fn the_last_payload_is_in_the_ring()
    ensures { (g : Geometry) (rs : List Record) (b at : ℕ) (kind : EntryKind) → stored_after g None rs b ≡ Some (at, kind) → (place : ℕ)
        × (at ≡ ring_block g place) }
{}

/// No header, and no commit block or descriptor in the ring, has an epoch above the greatest one.
pub fn no_epoch_is_above_the_greatest()
    ensures headers { (g : Geometry) (img : Blocks) (e slot : ℕ) (h : Header) → IsGreatestEpoch g img e → slot < 2 → header_of g.n (img slot) ≡ Some h
        → h.epoch ≤ e }
    ensures commits { (g : Geometry) (img : Blocks) (e place : ℕ) (c : Commit) → IsGreatestEpoch g img e → 0 < g.j
        → commit_of g (img (ring_block g place)) ≡ Some c → c.epoch ≤ e }
    ensures descriptors { (g : Geometry) (img : Blocks) (e place : ℕ) (d : Descriptor) → IsGreatestEpoch g img e → 0 < g.j
        → descriptor_of g (img (ring_block g place)) ≡ Some d → d.epoch ≤ e }
{}
