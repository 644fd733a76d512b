//! Laws of slots and of directories, as functions that do nothing: each clause is a law.

ghost use Rattle.std.specs.Prelude.{◌≡◌, ◌≢◌, ◌<◌, ◌≤◌, ◌+◌, ◌-◌, ◌++◌, ℕ, true, List, [], ◌∷◌, length, take};
ghost use Rattle.std.specs.Prelude.{replicate, set, slice_index, slice_get, Some, None};
ghost use Rattle.std.specs.List.{All};
ghost use Rattle.base_types.specs.declared.layout.Layout.{Layout};
ghost use Rattle.base_types.specs.Layouts.{slot_size, slot_place, directory_bytes};
ghost use Rattle.layout_bytes.specs.Bytes.{has_zeros};
ghost use Rattle.layout_directory.specs.Slots.{Slot, IsLawful, IsSlot, slot_of, slots_in, slot_spelling};
ghost use Rattle.layout_directory.specs.Directory.{ReadAs, place_of, overwrite};

use layout_bytes::fields_tell_their_bytes;

/// A spelling has one slot, and what reads as a slot is exactly the spelling of a lawful one.
pub fn slots_read_back()
    ensures one { (l : Layout) (b : List ℕ) (s r : Slot) → IsSlot l b s → IsSlot l b r → s ≡ r }
    ensures reads { (l : Layout) (s : Slot) → IsLawful l s → slot_of l (slot_spelling l s) ≡ Some s }
    ensures spelled { (l : Layout) (b : List ℕ) (s : Slot) → length b ≡ slot_size l → ((i : ℕ) → slice_index b i < 256) → slot_of l b ≡ Some s → IsSlot l b s }
{
    fields_tell_their_bytes();
}

/// The place of a name is that of an entry with that name, and no entry before it has the name; where it
/// has no place, no entry has it.
pub fn a_name_has_its_first_place()
    ensures there { (name : List ℕ) (slots : List Slot) (i : ℕ) (s : Slot) → place_of name slots ≡ Some i → slice_get slots i ≡ Some s → s.name ≡ name }
    ensures first { (name : List ℕ) (slots : List Slot) (i k : ℕ) (s : Slot) → place_of name slots ≡ Some i → k < i → slice_get slots k ≡ Some s
        → s.name ≢ name }
    ensures missing { (name : List ℕ) (slots : List Slot) → place_of name slots ≡ None → All (λ s. s.name ≢ name) slots }
{}

/// What bytes that read as entries become. So many entries are read as were asked for, each from the bytes of
/// its place, with zeros between the places, and the first of them from the same bytes. Bytes that read as a
/// slot, written over those of an entry, put the slot in its place, and at the place behind the last one, with
/// zeros before them, they put it there. Bytes from the next place on don't count, and those behind the last
/// entry may be cut off. The spelling of a lawful slot has as many bytes as a slot.
pub fn entries_follow_their_bytes()
    ensures count { (l : Layout) (n : ℕ) (b : List ℕ) (slots : List Slot) → slots_in l n b ≡ Some slots → length slots ≡ n }
    ensures each { (l : Layout) (n : ℕ) (b : List ℕ) (slots : List Slot) → slots_in l n b ≡ Some slots → ReadAs l b slots }
    ensures gaps { (l : Layout) (n : ℕ) (b : List ℕ) (slots : List Slot) (i : ℕ) → slots_in l n b ≡ Some slots → i < n
        → has_zeros b (slot_place l i + slot_size l) (slot_place l (i + 1)) ≡ true }
    ensures front { (l : Layout) (n m : ℕ) (b : List ℕ) (slots : List Slot) → m ≤ n → slots_in l n b ≡ Some slots → slots_in l m b ≡ Some (take m slots) }
    ensures over { (l : Layout) (n : ℕ) (b new : List ℕ) (at : ℕ) (slots : List Slot) (s : Slot) → length new ≡ slot_size l
        → directory_bytes l n ≤ length b → at < n → slot_of l new ≡ Some s → slots_in l n b ≡ Some slots
        → slots_in l n (overwrite (slot_place l at) new b) ≡ Some (set slots at s) }
    ensures behind { (l : Layout) (n : ℕ) (b new : List ℕ) (slots : List Slot) (s : Slot) → length b ≡ directory_bytes l n → length new ≡ slot_size l
        → slot_of l new ≡ Some s → slots_in l n b ≡ Some slots
        → slots_in l (n + 1) (b ++ (replicate (slot_place l n - directory_bytes l n) 0 ++ new)) ≡ Some (slots ++ s ∷ []) }
    ensures within { (l : Layout) (n : ℕ) (b more : List ℕ) → slot_place l n ≤ length b → slots_in l n (b ++ more) ≡ slots_in l n b }
    ensures cut { (l : Layout) (n : ℕ) (b : List ℕ) (slots : List Slot) → directory_bytes l n ≤ length b → slots_in l n b ≡ Some slots
        → slots_in l n (take (directory_bytes l n) b) ≡ Some slots }
    ensures spelling { (l : Layout) (s : Slot) → IsLawful l s → length (slot_spelling l s) ≡ slot_size l }
{}
