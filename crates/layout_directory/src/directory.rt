//! A directory over its borrowed blocks: finding an entry. The slots are read in their places, and none is
//! built in between.

ghost use Rattle.std.specs.Prelude.{◌≡◌, ◌≤◌, ◌+◌, ◌-◌, ◌*◌, ◌==◌, not, Some, List, length, slice_index};
ghost use Rattle.std.specs.List.{concat};
ghost use Rattle.base_types.specs.Layouts.{slot_size, slot_place, longest_name, directory_bytes};
ghost use Rattle.layout_directory.specs.Slots.{Slot as SlotValue};
ghost use Rattle.layout_directory.specs.Directory.{entries_in, slot_at, has_name, ReadAs, IsFirstNamed, place_of};

use crate::laws::entries_follow_their_bytes;
use crate::slot::{NAME_AT, NAME_LENGTH_AT};
use base_types::{
    Block, Layout, Name, slots_lie_in_their_blocks, the_numbers_of_a_layout_go_together,
};

/// The place of the first entry with this name, or `None` where no entry has it. The blocks must have
/// room for so many entries. Each is looked at once, and none behind the one that is found.
pub fn find(dir: &[Block], entries: u32, name: &Name, layout: Layout) -> Option<u32>
    requires { directory_bytes layout entries ≤ 1024 * length dir.now }
    ensures bytes { IsFirstNamed layout entries dir.now name.now result }
    ensures each { (slots : List SlotValue) → length slots ≡ entries → ReadAs layout (concat dir.now) slots → result ≡ place_of name.now slots }
    ensures entries { (slots : List SlotValue) → entries_in layout entries dir.now ≡ Some slots → result ≡ place_of name.now slots }
{
    entries_follow_their_bytes();
    let wanted = name.as_bytes();
    for place in 0..entries {
        if has_name(slot_at(dir, place, layout), wanted, layout) {
            return Some(place);
        }
    }
    None
}

/// The bytes of the slot at this place.
fn slot_at(dir: &[Block], place: u32, layout: Layout) -> &[u8]
    requires { slot_place layout place + slot_size layout ≤ 1024 * length dir.now }
    ensures { result.now ≡ slot_at layout place dir.now }
{
    the_numbers_of_a_layout_go_together();
    slots_lie_in_their_blocks();
    let block = layout.slot_block(place) as usize;
    let at = layout.slot_byte(place) as usize;
    let end = at + layout.slot_length();
    &dir[block][at..end]
}

/// Whether the name in these bytes of a slot is this one. It isn't where it has no room in a slot.
fn has_name(slot: &[u8], name: &[u8], layout: Layout) -> bool
    requires { length slot.now ≡ slot_size layout }
    ensures { result ≡ has_name slot.now name.now }
{
    the_numbers_of_a_layout_go_together();
    if slot[NAME_LENGTH_AT] as usize != name.len() {
        return false;
    }
    let rest = &slot[NAME_AT..];
    if rest.len() < name.len() {
        return false;
    }
    let here = &rest[..name.len()];
    if end_apart(here, name) {
        return false;
    }
    here == name
}

/// Whether the last bytes differ, as they do for most names of one length.
fn end_apart(left: &[u8], right: &[u8]) -> bool
    requires { length left.now ≡ length right.now }
    ensures { result ≡ not (slice_index left.now (length left.now - 1) == slice_index right.now (length left.now - 1)) }
{
    if left.is_empty() {
        return false;
    }
    let last = left.len() - 1;
    left[last] != right[last]
}
