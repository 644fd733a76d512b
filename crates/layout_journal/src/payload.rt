//! Payloads as they are in the journal. One that begins as a block of the journal does is escaped:
//! it stands with its first byte as zero, so that no payload is ever taken for a block of the journal.

ghost use Rattle.std.specs.Prelude.{◌≡◌};
ghost use Rattle.layout_journal.specs.Layout.{is_stored, unescaped};
ghost use Rattle.layout_journal.specs.Spelling.{begins_tag, stored_kind, stored_of};

use crate::EntryKind;
use base_types::Block;

/// Whether these bytes may stand as a payload of an entry of this kind. No bytes stand for a fresh block.
#[tactic(auto, unfolding(crate::specs::Layout::is_stored))]
pub fn is_stored(stored: &Block, kind: EntryKind) -> bool
    ensures { result ≡ is_stored kind stored.now }
{
    match kind {
        EntryKind::Payload => &stored[..3] != b"OPT".as_slice(),
        EntryKind::Fresh => false,
        EntryKind::Escaped => &stored[..3] == b"\0PT".as_slice(),
    }
}

/// Writes the bytes that a stored payload stands for into the other block.
pub fn unescape(stored: &Block, kind: EntryKind, into: &mut Block)
    ensures { into.new ≡ unescaped kind stored.now }
{
    *into = *stored;
    if kind == EntryKind::Escaped {
        into[0] = b'O';
    }
}

/// Writes these bytes into the other block as they are stored in the journal, and answers the kind
/// that their entry has.
pub fn escape(from: &Block, into: &mut Block) -> EntryKind
    ensures stored { into.new ≡ stored_of from.now }
    ensures kind { result ≡ stored_kind from.now }
{
    *into = *from;
    if begins_tag(from) {
        into[0] = 0;
        return EntryKind::Escaped;
    }
    EntryKind::Payload
}

fn begins_tag(block: &Block) -> bool
    ensures { result ≡ begins_tag block.now }
{
    &block[..3] == b"OPT".as_slice()
}
