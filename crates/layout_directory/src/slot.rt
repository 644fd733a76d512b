//! One slot and its bytes. Where slots are in a block is described by the modules that keep many.

ghost use Rattle.std.specs.Prelude.{◌≡◌, ◌≤◌, length, IfOk, OnErr};
ghost use Rattle.arrayvec.specs.ArrayVec.{array_vec_len};
ghost use Rattle.base_types.specs.Layouts.{slot_size, longest_name};
ghost use Rattle.layout_directory.specs.Slots.{Slot as SlotValue, IsLawful, IsSlot, slot_of, slot_spelling};

use arrayvec::ArrayVec;
use base_types::limits::LONGEST_SLOT;
use base_types::{Layout, Name, the_numbers_of_a_layout_go_together};
use layout_bytes::{Slot, fields_tell_their_bytes, has_zeros, number_4, put, put_4, put_zeros};
use std::error::Error;
use std::fmt;

/// The byte that says how many bytes the name has.
pub(crate) const NAME_LENGTH_AT: usize = 4;

/// The first byte of the name.
pub(crate) const NAME_AT: usize = 5;

/// The bytes of a slot as far as they are written.
type Text = ArrayVec<u8, LONGEST_SLOT>;

/// The bytes are no slot's.
#[derive(Clone, Copy, Debug)]
pub struct BadSlot;

impl fmt::Display for BadSlot {
    fn fmt<W: fmt::Write>(&self, f: &mut fmt::Formatter<W>) -> fmt::Result {
        write!(f, "these bytes are no directory slot")
    }
}

impl Error for BadSlot {}

/// The slot that is spelled in these bytes, in this layout.
///
/// # Errors
/// They are no slot's spelling: there aren't as many as a slot has, or the name is none, or it has another length than the
/// byte before it says, or a byte behind it isn't zero.
pub fn read_slot(bytes: &[u8], layout: Layout) -> Result<Slot, BadSlot>
    ensures found { IfOk result (λ slot. IsSlot layout bytes.now slot) }
    ensures refused { OnErr result ((s : SlotValue) → IsSlot layout bytes.now s → ⊥) }
{
    fields_tell_their_bytes();
    let size = layout.slot_length();
    if bytes.len() != size {
        return Err(BadSlot);
    }
    slot_of(bytes, layout).ok_or(BadSlot)
}

/// Writes the slot's spelling in this layout over these bytes, which are as many as a slot has. The name must
/// have room there.
pub fn write_slot(slot: &Slot, into: &mut [u8], layout: Layout)
    requires size { length into.old ≡ slot_size layout }
    requires short { length slot.now.name ≤ longest_name layout }
    ensures spelled { into.new ≡ slot_spelling layout slot.now }
    ensures lawful { IsLawful layout slot.now }
{
    let text = slot_text(slot, layout);
    into.copy_from_slice(text.as_slice());
}

/// The slot in these bytes, or `None` where they aren't one's.
#[tactic(auto, unfolding(layout_bytes::specs::Slot::slot_of))]
pub(crate) fn slot_of(bytes: &[u8], layout: Layout) -> Option<Slot>
    requires { length bytes.now ≡ slot_size layout }
    ensures { result ≡ slot_of layout bytes.now }
{
    the_numbers_of_a_layout_go_together();
    let length = bytes[NAME_LENGTH_AT] as usize;
    if length > layout.longest_name() {
        return None;
    }
    let name = Name::new(&bytes[NAME_AT..NAME_AT + length])?;
    if !has_zeros(bytes, NAME_AT + length, layout.slot_length()) {
        return None;
    }
    Some(Slot {
        node: number_4(bytes, 0),
        name,
    })
}

/// The bytes of this slot.
pub(crate) fn slot_text(slot: &Slot, layout: Layout) -> Text
    requires { length slot.now.name ≤ longest_name layout }
    ensures text { result.items ≡ slot_spelling layout slot.now }
    ensures size { array_vec_len result ≡ slot_size layout }
    ensures lawful { IsLawful layout slot.now }
{
    the_numbers_of_a_layout_go_together();
    let name = slot.name.as_bytes();
    let mut text = ArrayVec::new();
    put_4(&mut text, slot.node);
    text.push(name.len() as u8);
    put(&mut text, name);
    put_zeros(&mut text, layout.slot_length() - NAME_AT - name.len());
    text
}
