//! The newest header of an image. Any list of blocks is read, sealed and honest
//! or not.

ghost use Rattle.std.specs.Prelude.{◌≡◌, ◌<◌, ℕ, length, IfSome, None};
ghost use Rattle.base_types.specs.Seal.{blocks_of};
ghost use Rattle.layout_journal.specs.Layout.{header_of, IsWithinDisk};
ghost use Rattle.layout_journal.specs.Run.{Newest};

use base_types::Block;
use crash_record::{headers_need_a_size, newer_header};
use layout_journal::{Header, journal_blocks_keep_to_their_bounds, read_header};

/// The newest header of the image, which is of a disk of its size, and the slot in which it stands, or
/// `None` exactly where neither slot has a header: so of an image whose number of blocks is no disk's.
pub fn newest_header(image: &[Block]) -> Option<(u32, Header)>
    ensures found { IfSome result (λ p. Newest (length image.now) (blocks_of image.now) p.0 p.1) }
    ensures size { IfSome result (λ p. p.1.geom.n ≡ length image.now) }
    ensures missing { result ≡ None → (slot : ℕ) (h : Header) → ¬ Newest (length image.now) (blocks_of image.now) slot h }
{
    let first = header_in(image, 0);
    let second = header_in(image, 1);
    newer_header(first, second)
}

fn header_in(image: &[Block], slot: u32) -> Option<Header>
    requires { slot < 2 }
    ensures value { result ≡ header_of (length image.now) (blocks_of image.now slot) }
    ensures within { IfSome result (IsWithinDisk (length image.now)) }
{
    headers_need_a_size();
    journal_blocks_keep_to_their_bounds();
    let blocks = u32::try_from(image.len()).ok()?;
    if blocks <= slot {
        return None;
    }
    read_header(&image[slot as usize], blocks).ok()
}
