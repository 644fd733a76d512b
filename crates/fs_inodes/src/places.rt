//! What is under a name in a list of slots, by the place of the slot. The function does nothing.

ghost use Rattle.std.specs.Prelude.{◌≡◌, ◌<◌, ℕ, List, length, set, slice_get, None, Some};
ghost use Rattle.layout_bytes.specs.declared.slot.Slot.{Slot};
ghost use Rattle.layout_directory.specs.Directory.{place_of, without_at};
ghost use Rattle.crash_stands.specs.Inodes.{AreDistinct};
ghost use Rattle.crash_stands.specs.Walks.{node_in};
ghost use Rattle.fs_inodes.specs.Changes.{slot_of, with_slot};

/// The slot at the place of a name has that name, and what is under the name is what it names. A name
/// without a place has nothing under it. Where no two slots have one name, what is under a slot's name is
/// what it names. A slot with a free name that comes behind the last one and then into the hole of one that is
/// taken out is in that one's place.
pub fn a_name_stands_at_its_place()
    ensures found { (slots : List Slot) (name : List ℕ) (place : ℕ) → place_of name slots ≡ Some place → (node : ℕ)
        × (slice_get slots place ≡ Some (slot_of node name)) × (node_in slots name ≡ Some node) }
    ensures missing { (slots : List Slot) (name : List ℕ) → place_of name slots ≡ None → node_in slots name ≡ None }
    ensures only { (slots : List Slot) (place node : ℕ) (name : List ℕ) → AreDistinct slots → slice_get slots place ≡ Some (slot_of node name)
        → node_in slots name ≡ Some node }
    ensures in_place { (slots : List Slot) (s : Slot) (place : ℕ) → place_of s.name slots ≡ None → place < length slots
        → without_at place (with_slot slots s) ≡ set slots place s }
{}
