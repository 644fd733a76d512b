//! A set of numbers below a limit, as bits. A second row of bits says which words of the first aren't 0, so
//! that a search passes over 4,096 numbers at once where there are none. What the numbers stand for isn't known
//! here.

ghost use Rattle.std.specs.Prelude.{◌≡◌, ◌≢◌, ◌+◌, ◌*◌, ◌<◌, ◌≤◌, ◌==◌, ◌&&◌, ◌||◌, ℕ, not, true, false, if◌then◌else◌, length, take, slice_index};
ghost use Rattle.std.specs.Prelude.{IfNone, IfSome, IfOk};
ghost use Rattle.engine_reuse.specs.Numbers.{is_among, set_of};
ghost use Rattle.engine_reuse.specs.Words.{has_bit, SaysFilled};

use crate::words;
use crate::words::BITS_IN_WORD;
use base_types::NoMemory;
use std::alloc::Global;
use std::marker::Model;

/// A set of numbers below a limit.
#[derive(Drop)]
pub(crate) struct Numbers {
    /// The bit of each number.
    words: Vec<u64>,
    /// The bit of each word that isn't 0.
    filled: Vec<u64>,
    /// How many members there are.
    count: u32,
}

impl Model for Numbers {
    ghost use Rattle.std.specs.Prelude.{◌*◌, length};
    ghost use Rattle.engine_reuse.specs.Numbers.{NumberSet};
    ghost use Rattle.engine_reuse.specs.Words.{AreRows, numbers_in};

    ghost Value = { NumberSet };

    ghost view = { λ s. record { limit = 64 * length s.words.items; members = numbers_in s.words.items } };

    ghost invariant = { λ s. AreRows s.words.items s.filled.items s.count };
}

impl Numbers {
    /// The empty set, for numbers below this limit, and maybe a little above it.
    ///
    /// # Errors
    /// Out of memory.
    pub(crate) fn new(alloc: Global, limit: u32) -> Result<Numbers, NoMemory>
        requires { limit ≤ 1048576 }
        ensures set { IfOk result (λ s. s ≡ set_of s.limit (λ _. false)) }
        ensures limit { IfOk result (λ s. limit ≤ s.limit) }
    {
        let words = zeros(alloc, limit)?;
        let filled = zeros(alloc, words.len() as u32)?;
        Ok(Numbers {
            words,
            filled,
            count: 0,
        })
    }

    /// Does nothing. A proof learns from the call that the members are numbers below the limit, ascending.
    pub(crate) fn lawful(&self)
        ensures { self.now ≡ set_of self.now.limit (λ b. is_among b self.now.members) }
    {
        let _ = &self.count;
    }

    /// How many members there are.
    pub(crate) fn len(&self) -> u32
        ensures { result ≡ length self.now.members }
    {
        self.count
    }

    /// Whether the number is a member.
    pub(crate) fn has(&self, b: u32) -> bool
        ensures { result ≡ is_among b self.now.members }
    {
        words::has(&self.words, b)
    }

    /// Puts a number in, where it is below the limit and no member yet.
    pub(crate) fn put(&mut self, b: u32)
        ensures { self.new ≡ set_of self.old.limit (λ c. c == b || is_among c self.old.members) }
    {
        if (b / BITS_IN_WORD) as usize >= self.words.len() {
            return;
        }
        if words::has(&self.words, b) {
            return;
        }
        words::set(&mut self.words, b);
        words::set(&mut self.filled, b / BITS_IN_WORD);
        self.count += 1;
    }

    /// Takes a number out, where it is a member.
    pub(crate) fn take_out(&mut self, b: u32)
        ensures { self.new ≡ set_of self.old.limit (λ c. not (c == b) && is_among c self.old.members) }
    {
        if !words::has(&self.words, b) {
            return;
        }
        words::clear(&mut self.words, b);
        mark_empty(&self.words, &mut self.filled, b / BITS_IN_WORD);
        self.count -= 1;
    }

    /// Puts all these numbers in that are below the limit.
    pub(crate) fn put_all(&mut self, numbers: &[u32])
        ensures { self.new ≡ set_of self.old.limit (λ b. is_among b numbers.now || is_among b self.old.members) }
    {
        self.lawful();
        for b in numbers {
            self.put(*b);
        }
    }

    /// Takes all these numbers out, where they are members.
    pub(crate) fn take_all_out(&mut self, numbers: &[u32])
        ensures { self.new ≡ set_of self.old.limit (λ b. not (is_among b numbers.now) && is_among b self.old.members) }
    {
        self.lawful();
        for b in numbers {
            self.take_out(*b);
        }
    }

    /// The `n` least members, or all where there are fewer. It takes a few steps for each of them, and one for each
    /// 4,096 numbers between.
    ///
    /// # Errors
    /// Out of memory.
    pub(crate) fn lowest(&self, alloc: Global, n: u32) -> Result<Vec<u32>, NoMemory>
        ensures { IfOk result (λ found. found.items ≡ take n self.now.members) }
    {
        let count = n.min(self.count) as usize;
        let mut found = Vec::with_capacity(alloc, count)?;
        let mut from = 0;
        while found.len() < count {
            match next_member(&self.words, &self.filled, from) {
                Some(b) => {
                    found.push_reserved(b);
                    from = b + 1;
                }
                None => break,
            }
        }
        Ok(found)
    }
}

/// So many words, at least, that they have a bit for each number below the limit; all are 0.
fn zeros(alloc: Global, limit: u32) -> Result<Vec<u64>, NoMemory>
    requires { limit ≤ 1048576 }
    ensures none { IfOk result (λ v. (b : ℕ) → has_bit v.items b ≡ false) }
    ensures words { IfOk result (λ v. (w : ℕ) → slice_index v.items w ≡ 0) }
    ensures enough { IfOk result (λ v. limit ≤ 64 * length v.items) }
    ensures few { IfOk result (λ v. length v.items ≤ 16384) }
{
    let count = limit.div_ceil(BITS_IN_WORD);
    let words = vec![in alloc; 0u64; count as usize]?;
    Ok(words)
}

/// Marks the word as one without a member, where it is 0.
fn mark_empty(words: &[u64], filled: &mut Vec<u64>, w: u32)
    requires word { w < length words.now }
    requires mark { w < 64 * length filled.old.items }
    ensures bits { (v : ℕ) → has_bit filled.new.items v ≡ (not (v == w && slice_index words.now w == 0) && has_bit filled.old.items v) }
    ensures len { length filled.new.items ≡ length filled.old.items }
{
    if words[w as usize] == 0 {
        words::clear(filled, w);
    }
}

/// The first member from `from` on.
fn next_member(words: &[u64], filled: &[u64], from: u32) -> Option<u32>
    requires says { SaysFilled words.now filled.now }
    requires few_words { length words.now ≤ 16384 }
    requires few_filled { length filled.now ≤ 16384 }
    ensures member { IfSome result (λ b. (from ≤ b) × (b < 64 * length words.now) × (has_bit words.now b ≡ true)) }
    ensures before { IfSome result (λ b. (c : ℕ) → from ≤ c → c < b → has_bit words.now c ≡ false) }
    ensures none { IfNone result ((c : ℕ) → from ≤ c → has_bit words.now c ≡ false) }
{
    // Members often follow each other.
    if words::has(words, from) {
        return Some(from);
    }
    let word = from / BITS_IN_WORD;
    if word as usize >= words.len() {
        return None;
    }
    if let Some(bit) = words::next_in_word(words[word as usize], from % BITS_IN_WORD) {
        return Some(BITS_IN_WORD * word + bit);
    }
    let next = words::next_set(filled, word + 1)?;
    Some(BITS_IN_WORD * next + words::first_in_word(words[next as usize]))
}
