//! Writing a journal header: the one spelling of each, its seal included. Commit blocks and descriptors
//! are written elsewhere.

ghost use Rattle.std.specs.Prelude.{◌≡◌};
ghost use Rattle.arrayvec.specs.ArrayVec.{array_vec_len};
ghost use Rattle.layout_journal.specs.Layout.{header_tag};
ghost use Rattle.layout_journal.specs.Spelling.{closed_number, header_body, header_block};

use crate::Header;
use arrayvec::ArrayVec;
use base_types::{Block, Layout};
use layout_bytes::{put, put_4, put_8, put_zeros};
use sha2::{Digest, Sha256};

/// The bytes of a header's block between what it says and its seal.
const SPARE: usize = 932;

/// The bytes of a block as far as they are written.
pub(crate) type Text = ArrayVec<u8, 1024>;

/// Writes the block of this header, in place of all the bytes there.
pub fn write_header(header: &Header, into: &mut Block)
    ensures { into.new ≡ header_block header.now }
{
    let mut text = header_body(header);
    let seal = Sha256::digest(text.as_slice());
    put(&mut text, seal.as_slice());
    into.copy_from_slice(text.as_slice());
}

/// The bytes of this header before its seal.
fn header_body(header: &Header) -> Text
    ensures body { result.items ≡ header_body header.now }
    ensures size { array_vec_len result ≡ 992 }
{
    let mut text = ArrayVec::new();
    put(&mut text, header_tag(header.geom.layout()));
    put_8(&mut text, header.epoch);
    put_8(&mut text, header.turn);
    put_8(&mut text, header.start);
    put_8(&mut text, header.sure);
    put_4(&mut text, header.at);
    put_4(&mut text, closed_number(header.closed));
    put_4(&mut text, header.geom.n());
    put_4(&mut text, header.geom.j());
    put_4(&mut text, header.geom.i());
    put_zeros(&mut text, SPARE);
    text
}

/// The tag of a header of this layout.
pub(crate) fn header_tag(layout: Layout) -> &'static [u8]
    ensures { result.now ≡ header_tag layout }
{
    match layout {
        Layout::One => b"OPTH0001".as_slice(),
        Layout::Two => b"OPTH0002".as_slice(),
    }
}

fn closed_number(closed: bool) -> u32
    ensures { result ≡ closed_number closed }
{
    if closed { 1 } else { 0 }
}
