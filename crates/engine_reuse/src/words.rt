//! Bits of a borrowed row of words, 64 in a word, the first of them the lowest. What a bit stands for isn't
//! known here.

ghost use Rattle.std.specs.Prelude.{◌≡◌, ◌≢◌, ◌+◌, ◌*◌, ◌/◌, ◌<◌, ◌≤◌, ◌==◌, ◌&&◌, ◌||◌, ℕ, not, true, false, length, slice_index, IfNone, IfSome};
ghost use Rattle.std.specs.Int.{bit_at};
ghost use Rattle.engine_reuse.specs.Words.{has_bit};

/// How many bits a word has.
pub(crate) const BITS_IN_WORD: u32 = 64;

/// Whether the bit of number `b` is set. Past the end of the row none is.
pub(crate) fn has(words: &[u64], b: u32) -> bool
    ensures { result ≡ has_bit words.now b }
{
    match words.get((b / BITS_IN_WORD) as usize) {
        Some(word) => (*word >> (b % BITS_IN_WORD)) & 1 == 1,
        None => false,
    }
}

/// Sets the bit of number `b`. Every other bit is as before, and so is every other word.
pub(crate) fn set(words: &mut Vec<u64>, b: u32)
    requires { b < 64 * length words.old.items }
    ensures bits { (c : ℕ) → has_bit words.new.items c ≡ (c == b || has_bit words.old.items c) }
    ensures words { (w : ℕ) → w ≢ b / 64 → slice_index words.new.items w ≡ slice_index words.old.items w }
    ensures len { length words.new.items ≡ length words.old.items }
{
    words[(b / BITS_IN_WORD) as usize] |= 1 << (b % BITS_IN_WORD);
}

/// Clears the bit of number `b`. Every other bit is as before, and so is every other word.
pub(crate) fn clear(words: &mut Vec<u64>, b: u32)
    requires { b < 64 * length words.old.items }
    ensures bits { (c : ℕ) → has_bit words.new.items c ≡ (not (c == b) && has_bit words.old.items c) }
    ensures words { (w : ℕ) → w ≢ b / 64 → slice_index words.new.items w ≡ slice_index words.old.items w }
    ensures len { length words.new.items ≡ length words.old.items }
{
    words[(b / BITS_IN_WORD) as usize] &= !(1 << (b % BITS_IN_WORD));
}

/// The first bit of a word that is set. There must be one.
pub(crate) fn first_in_word(word: u64) -> u32
    requires { 0 < word }
    ensures set { (result < 64) × (bit_at word result ≡ 1) }
    ensures before { (i : ℕ) → i < result → bit_at word i ≡ 0 }
{
    word.trailing_zeros()
}

/// The first bit of a word from bit `k` on that is set.
pub(crate) fn next_in_word(word: u64, k: u32) -> Option<u32>
    requires { k < 64 }
    ensures set { IfSome result (λ j. (k ≤ j) × (j < 64) × (bit_at word j ≡ 1)) }
    ensures before { IfSome result (λ j. (i : ℕ) → k ≤ i → i < j → bit_at word i ≡ 0) }
    ensures none { IfNone result ((i : ℕ) → k ≤ i → i < 64 → bit_at word i ≡ 0) }
{
    let rest = word >> k;
    if rest == 0 {
        return None;
    }
    Some(k + first_in_word(rest))
}

/// The first number from `from` on whose bit is set. It looks at each word from that of `from` on, up to the one
/// with the number.
pub(crate) fn next_set(words: &[u64], from: u32) -> Option<u32>
    requires { length words.now ≤ 16384 }
    ensures set { IfSome result (λ b. (from ≤ b) × (b < 64 * length words.now) × (has_bit words.now b ≡ true)) }
    ensures before { IfSome result (λ b. (c : ℕ) → from ≤ c → c < b → has_bit words.now c ≡ false) }
    ensures none { IfNone result ((c : ℕ) → from ≤ c → has_bit words.now c ≡ false) }
{
    let mut at = from;
    while ((at / BITS_IN_WORD) as usize) < words.len() {
        let word = at / BITS_IN_WORD;
        if let Some(bit) = next_in_word(words[word as usize], at % BITS_IN_WORD) {
            return Some(BITS_IN_WORD * word + bit);
        }
        at = BITS_IN_WORD * (word + 1);
    }
    None
}
