//! The next clear bit and the next set bit of a borrowed bitmap. Set bits are passed over 64 at once.

ghost use Rattle.std.specs.Prelude.{◌≡◌, ◌+◌, ◌-◌, ◌*◌, ◌/◌, ◌%◌, ◌<◌, ◌≤◌, ◌==◌, ℕ, true, false, length, slice_index};
ghost use Rattle.std.specs.Int.{bit_at};
ghost use Rattle.base_types.specs.Seal.{blocks_of};
ghost use Rattle.layout_bytes.specs.Bitmap.{bit_in};

use crate::bits::is_set;
use base_types::Block;
use layout_bytes::number_8;

/// How many bits a word has.
const BITS_IN_WORD: u32 = 64;

/// How many bytes a word has.
const BYTES_IN_WORD: u32 = 8;

/// How many words a block has.
const WORDS_IN_BLOCK: u32 = 128;

/// The first clear bit from `from` on, or `end` where all bits before it are set.
pub(crate) fn next_clear(map: &[Block], from: u32, end: u32) -> u32
    requires ordered { from ≤ end }
    requires within { end ≤ 8192 * length map.now }
    requires few { end ≤ 1048576 }
    ensures low { from ≤ result }
    ensures high { result ≤ end }
    ensures before { (b : ℕ) → from ≤ b → b < result → bit_in (blocks_of map.now) b ≡ true }
    ensures here { result < end → bit_in (blocks_of map.now) result ≡ false }
{
    let mut at = from;
    while at < end {
        let skipped = at % BITS_IN_WORD;
        let ones = ones_from(word_at(map, at / BITS_IN_WORD), skipped);
        if ones < BITS_IN_WORD - skipped {
            return end.min(at + ones);
        }
        at += BITS_IN_WORD - skipped;
    }
    end
}

/// The first set bit from `from` on, or `end` where all bits before it are clear.
pub(crate) fn next_set(map: &[Block], from: u32, end: u32) -> u32
    requires ordered { from ≤ end }
    requires within { end ≤ 8192 * length map.now }
    ensures low { from ≤ result }
    ensures high { result ≤ end }
    ensures before { (b : ℕ) → from ≤ b → b < result → bit_in (blocks_of map.now) b ≡ false }
    ensures here { result < end → bit_in (blocks_of map.now) result ≡ true }
{
    for b in from..end {
        if is_set(map, b) {
            return b;
        }
    }
    end
}

/// The 64 bits of word `w`, the first of them the lowest.
fn word_at(map: &[Block], w: u32) -> u64
    requires { w < 128 * length map.now }
    ensures { (i : ℕ) → i < 64 → (bit_at result i == 1) ≡ bit_in (blocks_of map.now) (64 * w + i) }
{
    let block = &map[(w / WORDS_IN_BLOCK) as usize];
    word_in(
        block.as_slice(),
        (w % WORDS_IN_BLOCK * BYTES_IN_WORD) as usize,
    )
}

/// The 64 bits of the 8 bytes from byte `at` on, the first of them the lowest.
fn word_in(bytes: &[u8], at: usize) -> u64
    requires { at + 8 ≤ length bytes.now }
    ensures { (i : ℕ) → i < 64 → bit_at result i ≡ bit_at (slice_index bytes.now (at + i / 8)) (i % 8) }
{
    number_8(bytes, at)
}

/// How many bits from bit `k` on are set, before the first that is clear.
fn ones_from(word: u64, k: u32) -> u32
    requires { k < 64 }
    ensures ones { (i : ℕ) → i < result → bit_at word (k + i) ≡ 1 }
    ensures clear { result < 64 - k → bit_at word (k + result) ≡ 0 }
{
    (word >> k).trailing_ones()
}
